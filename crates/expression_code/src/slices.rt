//! The code of slices: a header of three words stands in temps from h on, and what it is made of above it.
ghost use Rattle.std.specs.Prelude.{◌≡◌, ◌+◌, ◌<◌, ◌≤◌, ◌++◌, OnOk};
ghost use Rattle.isa.specs.declared.instr.Instr.{Instr};
ghost use Rattle.isa.specs.declared.instr.Added.{Added};
ghost use Rattle.isa.specs.declared.instr.MoveEvent.{MoveEvent};
ghost use Rattle.typed_syntax.specs.Types.{width};
ghost use Rattle.typed_syntax.specs.Syntax.{type_named};
ghost use Rattle.typed.specs.View.{bound_of, program_of};
ghost use Rattle.expression_code.specs.Frame.{slots_in, IsLaid};
ghost use Rattle.program_code.specs.Code.{append_code, cut_code, elements_put, high_code, low_code, room_code, site_words, sliced_code, temp, whole_code};

use crate::access::stored;
use crate::jumps::put;
use crate::moving::silent;
use crate::slots::Frame;
use base::{NoMemory, SiteId, TypeId};
use isa::{Added, Instr};
use typed::{Bound, Program};

// The elements, of so many words together, are put behind the address in temp h, if they have words.
fn emit_elements(
    code: &mut Vec<Instr>,
    program: &Program,
    frame: &Frame,
    words: u16,
    h: u16,
) -> Result<(), NoMemory>
    requires temp { h + 3 ≤ frame.now.temps }
    requires frame { IsLaid program.now frame.now }
    ensures { OnOk result (code.new.items ≡ code.old.items ++ elements_put (slots_in program.now frame.now) words h) }
{
    if words > 0 {
        put(code, stored(words, frame.temp(h), frame.temp(h + 3)))?;
    }
    Ok(())
}

/// An array of a site is born on the heap with the n elements, of so many words together, in temps from h + 3 on, and its header goes
/// to temps from h on.
pub fn emit_sliced(
    code: &mut Vec<Instr>,
    program: &Program,
    frame: &Frame,
    site: SiteId,
    n: u64,
    words: u16,
    h: u16,
) -> Result<(), NoMemory>
    requires temp { h + 3 ≤ frame.now.temps }
    requires frame { IsLaid program.now frame.now }
    ensures { OnOk result (code.new.items ≡ code.old.items ++ sliced_code (slots_in program.now frame.now) site.0 n words h) }
{
    let (address, count, room) = (frame.temp(h), frame.temp(h + 1), frame.temp(h + 2));
    put(
        code,
        Instr::Alloc {
            a: address,
            n: words,
            site: site.0,
        },
    )?;
    emit_elements(code, program, frame, words, h)?;
    put(code, Instr::Const { a: count, word: n })?;
    put(code, Instr::Const { a: room, word: n })?;
    Ok(())
}

/// An array of a site is made, with the length and the capacity in temps h + 1 and h + 2.
pub fn made_array(program: &Program, frame: &Frame, site: SiteId, h: u16) -> Instr
    requires temp { h ≤ frame.now.temps }
    requires frame { IsLaid program.now frame.now }
    ensures { result ≡ Instr.Make (temp (slots_in program.now frame.now) h) (site_words (slots_in program.now frame.now) site.0) site.0 }
{
    let (a, w) = (frame.temp(h), frame.width_of(program, site));
    Instr::Make { a, w, site: site.0 }
}

/// What stands in the place of a capacity: the length.
#[tactic(auto, using(typed::proofs::Rows::expr_rows))]
pub fn emit_room(
    code: &mut Vec<Instr>,
    program: &Program,
    frame: &Frame,
    room: &Bound,
    h: u16,
) -> Result<(), NoMemory>
    requires temp { h + 3 ≤ frame.now.temps }
    requires frame { IsLaid program.now frame.now }
    ensures { OnOk result (code.new.items ≡ code.old.items ++ room_code (slots_in program.now frame.now) (bound_of room.now) h) }
{
    match room {
        Bound::Absent => put(code, silent(1, frame.temp(h + 2), frame.temp(h + 1))),
        Bound::At(_) => Ok(()),
    }
}

/// The n elements in temps from h + 3 on are put behind those of the slice.
pub fn appended(program: &Program, frame: &Frame, site: SiteId, n: u16, h: u16) -> Instr
    requires temp { h + 3 ≤ frame.now.temps }
    requires frame { IsLaid program.now frame.now }
    ensures { result ≡ append_code (slots_in program.now frame.now) site.0 n h }
{
    let a = frame.temp(h);
    if n == 0 {
        return silent(3, a, a);
    }
    Instr::Append {
        added: Added::Slots,
        a,
        b: a,
        c: frame.temp(h + 3),
        d: n,
        w: frame.width_of(program, site),
        site: site.0,
    }
}

/// The elements of the slice whose header is in temps from h + 3 on are put behind those of the slice.
pub fn joined(program: &Program, frame: &Frame, site: SiteId, h: u16) -> Instr
    requires temp { h + 3 ≤ frame.now.temps }
    requires frame { IsLaid program.now frame.now }
    ensures { result ≡ Instr.Append Added.Slice (temp (slots_in program.now frame.now) h) (temp (slots_in program.now frame.now) h)
        (temp (slots_in program.now frame.now) (h + 3)) 0 (site_words (slots_in program.now frame.now) site.0) site.0 }
{
    let (a, c) = (frame.temp(h), frame.temp(h + 3));
    Instr::Append {
        added: Added::Slice,
        a,
        b: a,
        c,
        d: 0,
        w: frame.width_of(program, site),
        site: site.0,
    }
}

/// A word of the header, by its number, goes to temp h: the length or the capacity.
pub fn header_word(program: &Program, frame: &Frame, number: u16, h: u16) -> Instr
    requires temp { h + number ≤ frame.now.temps }
    requires frame { IsLaid program.now frame.now }
    ensures { result ≡ Instr.Move MoveEvent.Silent (temp (slots_in program.now frame.now) h)
        (temp (slots_in program.now frame.now) (h + number)) 1 }
{
    silent(1, frame.temp(h), frame.temp(h + number))
}

/// The elements, of a type, of the slice whose header is in temps from h + 3 on are copied over those of the slice.
pub fn copied(program: &Program, frame: &Frame, id: TypeId, h: u16) -> Instr
    requires temp { h + 3 ≤ frame.now.temps }
    requires frame { IsLaid program.now frame.now }
    ensures { result ≡ Instr.Copy (temp (slots_in program.now frame.now) h) (temp (slots_in program.now frame.now) h)
        (temp (slots_in program.now frame.now) (h + 3)) (width (type_named (program_of program.now) id.0)) }
{
    let (a, c) = (frame.temp(h), frame.temp(h + 3));
    let w = frame.width_at(program, id);
    Instr::Copy { a, b: a, c, w }
}

// What stands in the place of a lower bound: 0.
#[tactic(auto, using(typed::proofs::Rows::expr_rows))]
fn emit_low(
    code: &mut Vec<Instr>,
    program: &Program,
    frame: &Frame,
    low: &Bound,
    h: u16,
) -> Result<(), NoMemory>
    requires temp { h + 5 ≤ frame.now.temps }
    requires frame { IsLaid program.now frame.now }
    ensures { OnOk result (code.new.items ≡ code.old.items ++ low_code (slots_in program.now frame.now) (bound_of low.now) h) }
{
    match low {
        Bound::Absent => {
            let a = frame.temp(h + 3);
            put(code, Instr::Const { a, word: 0 })
        }
        Bound::At(_) => Ok(()),
    }
}

// What stands in the place of an upper bound: the length.
#[tactic(auto, using(typed::proofs::Rows::expr_rows))]
fn emit_high(
    code: &mut Vec<Instr>,
    program: &Program,
    frame: &Frame,
    high: &Bound,
    h: u16,
) -> Result<(), NoMemory>
    requires temp { h + 5 ≤ frame.now.temps }
    requires frame { IsLaid program.now frame.now }
    ensures { OnOk result (code.new.items ≡ code.old.items ++ high_code (slots_in program.now frame.now) (bound_of high.now) h) }
{
    match high {
        Bound::Absent => put(code, silent(1, frame.temp(h + 4), frame.temp(h + 1))),
        Bound::At(_) => Ok(()),
    }
}

/// The header of a part of the slice of elements of w words, with its bounds behind it.
pub fn emit_cut(
    code: &mut Vec<Instr>,
    program: &Program,
    frame: &Frame,
    low: &Bound,
    high: &Bound,
    w: u16,
    h: u16,
) -> Result<(), NoMemory>
    requires temp { h + 5 ≤ frame.now.temps }
    requires frame { IsLaid program.now frame.now }
    ensures { OnOk result (code.new.items ≡ code.old.items
        ++ cut_code (slots_in program.now frame.now) (bound_of low.now) (bound_of high.now) w h) }
{
    emit_low(code, program, frame, low, h)?;
    emit_high(code, program, frame, high, h)?;
    let (a, c) = (frame.temp(h), frame.temp(h + 3));
    put(code, Instr::Slice { a, b: a, c, w })?;
    Ok(())
}

/// The length and the capacity of a slice of a whole array of `count` elements.
pub fn emit_whole(
    code: &mut Vec<Instr>,
    program: &Program,
    frame: &Frame,
    count: u64,
    h: u16,
) -> Result<(), NoMemory>
    requires temp { h + 5 ≤ frame.now.temps }
    requires frame { IsLaid program.now frame.now }
    ensures { OnOk result (code.new.items ≡ code.old.items ++ whole_code (slots_in program.now frame.now) count h) }
{
    let (length, room) = (frame.temp(h + 1), frame.temp(h + 2));
    put(
        code,
        Instr::Const {
            a: length,
            word: count,
        },
    )?;
    put(
        code,
        Instr::Const {
            a: room,
            word: count,
        },
    )?;
    Ok(())
}
