//! The code that reaches places: in their slots or behind an address that is there, and behind one that is put down first, for
//! package variables, elements of slices and parts by indices that are worked out. The address of a part begins at the whole variable, and counts the indices
//! alone: what lies before fields and elements by their numbers is in the offset of what reads or writes.
ghost use Rattle.std.specs.Prelude.{◌≡◌, ◌+◌, ◌<◌, ◌≤◌, ◌++◌, ◌∷◌, [], IfOk, OnOk};
ghost use Rattle.typed_syntax.specs.Types.{width};
ghost use Rattle.typed_syntax.specs.Syntax.{type_named};
ghost use Rattle.typed.specs.View.{place_of, program_of, steps_of as these_steps};
ghost use Rattle.frames.specs.Frames.{far};
ghost use Rattle.expression_code.specs.Accesses.{access_of, Spans};
ghost use Rattle.expression_code.specs.Frame.{slots_in, IsLaid};
ghost use Rattle.expression_code.specs.Temps.{AddressFits, IndicesFit, PlaceFits};
ghost use Rattle.program_code.specs.Code.{access as access_in, near_access as access_near, above_address as above_address_of, address_code, address_size, fetch_code, index_code, indices_from as indices_begin, land_code, near_offset as offset_near, near_words, place_above as above_operands, point_code, pointing_code, read_code, root_code, steps_above, write_code};

use crate::access::Access;
use crate::jumps::put;
use crate::lengths::plus;
use crate::parts::{
    above_steps, has_address, index_count, near_offset, near_words, part_number, root_type,
    steps_of,
};
use crate::slots::Frame;
use crate::variables::local_root;
use base::{NoMemory, TypeId};
use isa::Instr;
use typed::{Place, Program, Step};

/// The number of instructions that put down the address of a place: that of the whole comes first, and then one for each index.
pub fn address_len(place: &Place) -> Result<u32, NoMemory>
    ensures { IfOk result (λ n. n ≡ address_size (place_of place.now)) }
{
    if has_address(place) {
        plus(index_count(steps_of(place))?, 1)
    } else {
        Ok(0)
    }
}

/// The temp above the operands of a place, which are in temps from h on.
#[tactic(auto, using(typed::proofs::Rows::expr_rows))]
pub fn above_operands(place: &Place, h: u16) -> u16
    requires { above_operands (place_of place.now) h ≤ 65535 }
    ensures { result ≡ above_operands (place_of place.now) h }
{
    match place {
        Place::Local(_, steps) => above_steps(steps, h),
        Place::Global(_, steps) => above_steps(steps, h),
        Place::Indirect(_, _, _, steps) => above_steps(steps, h + 1),
        Place::SliceElement(_, _, _, _, steps) => above_steps(steps, h + 4),
    }
}

/// The temp above the address of a place in temp `at`, if there is one.
pub fn above_address(place: &Place, at: u16) -> u16
    requires { at < 65535 }
    ensures { result ≡ above_address_of (far (place_of place.now)) at }
{
    if has_address(place) { at + 1 } else { at }
}

// The temp of a place's first index; its operands are in temps from `first` on.
#[tactic(auto, using(typed::proofs::Rows::expr_rows))]
fn indices_from(place: &Place, first: u16) -> u16
    requires { above_operands (place_of place.now) first ≤ 65535 }
    ensures { result ≡ indices_begin (place_of place.now) first }
{
    match place {
        Place::Indirect(..) => first + 1,
        Place::SliceElement(..) => first + 4,
        Place::Local(..) | Place::Global(..) => first,
    }
}

// The address of a value of a type, in temp `at`, becomes that of an element, for each index among the steps; these are in temps from
// `first` on.
fn emit_indices(
    code: &mut Vec<Instr>,
    program: &Program,
    frame: &Frame,
    id: TypeId,
    steps: &[Step],
    first: u16,
    at: u16,
) -> Result<(), NoMemory>
    requires address { at ≤ frame.now.temps }
    requires operands { steps_above (these_steps steps.now) first ≤ frame.now.temps }
    requires indices { IndicesFit (type_named (program_of program.now) id.0) (these_steps steps.now) }
    requires words { width (type_named (program_of program.now) id.0) ≤ 65535 }
    requires frame { IsLaid program.now frame.now }
    ensures { OnOk result (code.new.items ≡ code.old.items
        ++ index_code (slots_in program.now frame.now) (type_named (program_of program.now) id.0)
        (these_steps steps.now) first at) }
{
    let a = frame.temp(at);
    let (mut part, mut next) = (id, first);
    for step in steps {
        part = program.types.part(part, part_number(step));
        match step {
            Step::Inner(_) => {}
            Step::Index(_, _, length) => {
                let (c, len, w) = (
                    frame.temp(next),
                    *length as u16,
                    program.types.width(part) as u16,
                );
                put(code, Instr::Index { a, b: a, c, len, w })?;
                next += 1;
            }
        }
    }
    Ok(())
}

// The address at which a place begins goes to temp `at`.
#[tactic(auto, using(typed::proofs::Rows::expr_rows))]
fn emit_root(
    code: &mut Vec<Instr>,
    program: &Program,
    frame: &Frame,
    place: &Place,
    first: u16,
    at: u16,
) -> Result<(), NoMemory>
    requires temp { at ≤ frame.now.temps }
    requires operands { above_operands (place_of place.now) first ≤ frame.now.temps }
    requires place { PlaceFits (slots_in program.now frame.now) frame.now.sites (place_of place.now) }
    requires frame { IsLaid program.now frame.now }
    ensures { OnOk result (code.new.items ≡ code.old.items ++ root_code (slots_in program.now frame.now) (place_of place.now) first at) }
{
    match place {
        Place::Local(site, _) => put(code, local_root(program, frame, *site, at)),
        Place::Global(number, _) => {
            let (a, word) = (frame.temp(at), frame.of_global(program, *number));
            put(code, Instr::Const { a, word })
        }
        Place::Indirect(..) => {
            let (a, b) = (frame.temp(at), frame.temp(first));
            put(code, Instr::Offset { a, b, off: 0 })
        }
        Place::SliceElement(_, _, _, id, _) => {
            let (a, b, c) = (frame.temp(at), frame.temp(first), frame.temp(first + 3));
            let w = program.types.width(*id) as u16;
            put(code, Instr::SliceIndex { a, b, c, w })
        }
    }
}

/// The address of a place, where it is reached by one of its own, goes to temp `at`; its operands are in temps from `first` on.
pub fn emit_address(
    code: &mut Vec<Instr>,
    program: &Program,
    frame: &Frame,
    place: &Place,
    first: u16,
    at: u16,
) -> Result<(), NoMemory>
    requires temp { AddressFits frame.now.temps at (place_of place.now) }
    requires operands { above_operands (place_of place.now) first ≤ frame.now.temps }
    requires place { PlaceFits (slots_in program.now frame.now) frame.now.sites (place_of place.now) }
    requires frame { IsLaid program.now frame.now }
    ensures { OnOk result (code.new.items ≡ code.old.items
        ++ address_code (slots_in program.now frame.now) (place_of place.now) first at) }
{
    if has_address(place) {
        emit_root(code, program, frame, place, first, at)?;
        let (id, from) = (root_type(program, frame, place), indices_from(place, first));
        emit_indices(code, program, frame, id, steps_of(place), from, at)?;
    }
    Ok(())
}

// Where the words are of a variable that a place begins at, or of what a pointer leads to.
#[tactic(auto, using(typed::proofs::Rows::expr_rows))]
fn near_access(program: &Program, frame: &Frame, place: &Place, first: u16) -> Access
    requires operands { above_operands (place_of place.now) first ≤ frame.now.temps }
    requires place { PlaceFits (slots_in program.now frame.now) frame.now.sites (place_of place.now) }
    requires frame { IsLaid program.now frame.now }
    ensures is { access_of result ≡ access_near (slots_in program.now frame.now) (place_of place.now) first }
    ensures spans { Spans (access_of result) (offset_near (slots_in program.now frame.now) (place_of place.now)) }
{
    match place {
        Place::Local(site, _) => frame.access_of(program, *site),
        Place::Indirect(..) => Access::ByAddress(frame.temp(first)),
        // These are reached by addresses of their own.
        Place::Global(..) | Place::SliceElement(..) => Access::InSlots(0),
    }
}

// From where the words of a place are reached; its operands are in temps from `first` on, and its address, if there is one, in temp `at`.
fn access(program: &Program, frame: &Frame, place: &Place, first: u16, at: u16) -> Access
    requires address { AddressFits frame.now.temps at (place_of place.now) }
    requires operands { above_operands (place_of place.now) first ≤ frame.now.temps }
    requires place { PlaceFits (slots_in program.now frame.now) frame.now.sites (place_of place.now) }
    requires frame { IsLaid program.now frame.now }
    ensures is { access_of result ≡ access_in (slots_in program.now frame.now) (place_of place.now) first at }
    ensures spans { Spans (access_of result) (offset_near (slots_in program.now frame.now) (place_of place.now)) }
{
    if has_address(place) {
        Access::ByAddress(frame.temp(at))
    } else {
        near_access(program, frame, place, first)
    }
}

/// The words of a place go to temps from h on; its operands are in temps from `first` on, and its address, if there is one, in temp `at`.
pub fn emit_fetch(
    code: &mut Vec<Instr>,
    program: &Program,
    frame: &Frame,
    place: &Place,
    first: u16,
    at: u16,
    h: u16,
) -> Result<(), NoMemory>
    requires temp { h ≤ frame.now.temps }
    requires address { AddressFits frame.now.temps at (place_of place.now) }
    requires operands { above_operands (place_of place.now) first ≤ frame.now.temps }
    requires place { PlaceFits (slots_in program.now frame.now) frame.now.sites (place_of place.now) }
    requires frame { IsLaid program.now frame.now }
    ensures { OnOk result (code.new.items ≡ code.old.items
        ++ fetch_code (slots_in program.now frame.now) (place_of place.now) first at h ∷ []) }
{
    let (off, n) = (
        near_offset(program, frame, place),
        near_words(program, frame, place),
    );
    let from = access(program, frame, place, first, at);
    put(code, from.fetch(off, n, frame.temp(h)))
}

/// A place gets the words of temps from h on.
pub fn emit_land(
    code: &mut Vec<Instr>,
    program: &Program,
    frame: &Frame,
    place: &Place,
    first: u16,
    at: u16,
    h: u16,
) -> Result<(), NoMemory>
    requires temp { h ≤ frame.now.temps }
    requires address { AddressFits frame.now.temps at (place_of place.now) }
    requires operands { above_operands (place_of place.now) first ≤ frame.now.temps }
    requires place { PlaceFits (slots_in program.now frame.now) frame.now.sites (place_of place.now) }
    requires frame { IsLaid program.now frame.now }
    ensures { OnOk result (code.new.items ≡ code.old.items
        ++ land_code (slots_in program.now frame.now) (place_of place.now) first at h ∷ []) }
{
    let (off, n) = (
        near_offset(program, frame, place),
        near_words(program, frame, place),
    );
    let to = access(program, frame, place, first, at);
    put(code, to.land(off, n, frame.temp(h)))
}

// The address of a place goes to temp h.
fn emit_point(
    code: &mut Vec<Instr>,
    program: &Program,
    frame: &Frame,
    place: &Place,
    first: u16,
    at: u16,
    h: u16,
) -> Result<(), NoMemory>
    requires temp { h ≤ frame.now.temps }
    requires address { AddressFits frame.now.temps at (place_of place.now) }
    requires operands { above_operands (place_of place.now) first ≤ frame.now.temps }
    requires place { PlaceFits (slots_in program.now frame.now) frame.now.sites (place_of place.now) }
    requires frame { IsLaid program.now frame.now }
    ensures { OnOk result (code.new.items ≡ code.old.items
        ++ point_code (slots_in program.now frame.now) (place_of place.now) first at h ∷ []) }
{
    let off = near_offset(program, frame, place);
    let to = access(program, frame, place, first, at);
    put(code, to.point(off, frame.temp(h)))
}

/// The value of a place goes to temps from h on, where its operands are; temp `at`, above them, is free for the address.
pub fn emit_read(
    code: &mut Vec<Instr>,
    program: &Program,
    frame: &Frame,
    place: &Place,
    at: u16,
    h: u16,
) -> Result<(), NoMemory>
    requires temp { h + near_words (slots_in program.now frame.now) (place_of place.now) ≤ frame.now.temps }
    requires address { AddressFits frame.now.temps at (place_of place.now) }
    requires operands { above_operands (place_of place.now) h ≤ frame.now.temps }
    requires place { PlaceFits (slots_in program.now frame.now) frame.now.sites (place_of place.now) }
    requires frame { IsLaid program.now frame.now }
    ensures { OnOk result (code.new.items ≡ code.old.items
        ++ read_code (slots_in program.now frame.now) (place_of place.now) at h) }
{
    emit_address(code, program, frame, place, h, at)?;
    emit_fetch(code, program, frame, place, h, at, h)?;
    Ok(())
}

/// The address of a place goes to temp h, where its operands are; temp `at`, above them, is free for that of its whole.
pub fn emit_pointing(
    code: &mut Vec<Instr>,
    program: &Program,
    frame: &Frame,
    place: &Place,
    at: u16,
    h: u16,
) -> Result<(), NoMemory>
    requires temp { h ≤ frame.now.temps }
    requires address { AddressFits frame.now.temps at (place_of place.now) }
    requires operands { above_operands (place_of place.now) h ≤ frame.now.temps }
    requires place { PlaceFits (slots_in program.now frame.now) frame.now.sites (place_of place.now) }
    requires frame { IsLaid program.now frame.now }
    ensures { OnOk result (code.new.items ≡ code.old.items
        ++ pointing_code (slots_in program.now frame.now) (place_of place.now) at h) }
{
    emit_address(code, program, frame, place, h, at)?;
    emit_point(code, program, frame, place, h, at, h)?;
    Ok(())
}

/// A place gets the value in temps from h on; its operands are in temps from `first` on, and its address, if there is one, goes to temp
/// `at`.
pub fn emit_write(
    code: &mut Vec<Instr>,
    program: &Program,
    frame: &Frame,
    place: &Place,
    first: u16,
    at: u16,
    h: u16,
) -> Result<(), NoMemory>
    requires temp { h ≤ frame.now.temps }
    requires address { AddressFits frame.now.temps at (place_of place.now) }
    requires operands { above_operands (place_of place.now) first ≤ frame.now.temps }
    requires place { PlaceFits (slots_in program.now frame.now) frame.now.sites (place_of place.now) }
    requires frame { IsLaid program.now frame.now }
    ensures { OnOk result (code.new.items ≡ code.old.items
        ++ write_code (slots_in program.now frame.now) (place_of place.now) first at h) }
{
    emit_address(code, program, frame, place, first, at)?;
    emit_land(code, program, frame, place, first, at, h)?;
    Ok(())
}
