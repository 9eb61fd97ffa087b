//! The parts of `range` over arrays. The index is in temp h, and what it is compared with, or grows by, in the one above it. Where a
//! pointer leads to the array, that is in temp h, and both others in the next ones.
ghost use Rattle.std.specs.Prelude.{◌≡◌, ◌+◌, ◌<◌, ◌≤◌, ◌++◌, ◌∷◌, [], IfOk, OnOk, length};
ghost use Rattle.isa.specs.declared.instr.Instr.{Instr};
ghost use Rattle.isa.specs.declared.instr.BinOp.{BinOp};
ghost use Rattle.typed_syntax.specs.Types.{width, part_type};
ghost use Rattle.typed_syntax.specs.Syntax.{argument_words, type_named};
ghost use Rattle.typed.specs.View.{ex_of, left_of, program_of, sts_of};
ghost use Rattle.expression_code.specs.Frame.{func_in, slots_in, IsLaid};
ghost use Rattle.expression_code.specs.Temps.{Fits, SiteFits};
ghost use Rattle.codegen.specs.Temps.{LeftsFitIn, ReadyFitIn};
ghost use Rattle.program_code.specs.Code.{birth_code, element_code, element_round_code, ex_code, lefts_above, pointed_code, pointed_round_code, site_type, site_words, size, sts_size, temp};

use crate::assigning::{above_left, emit_left, ready_left};
use crate::births::emit_birth;
use crate::looping::{behind_value, pass_unless_less, round_goals};
use crate::stmt_lengths::ARRAY_HEAD;
use base::{NoMemory, SiteId, TypeId};
use expression_code::{Frame, Goals, emit_expr, local_root, plus, put, silent};
use frame_layout::{element_words, type_words};
use isa::Instr;
use typed::{Expr, Func, Left, Program, Stmt};

/// Where `break` and `continue` go from the body of rounds that begin at a place with `round` instructions.
pub fn array_goals(
    program: &Program,
    func: &Func,
    begin: u32,
    round: u32,
    body: &[Stmt],
) -> Result<Goals, NoMemory>
    ensures again { IfOk result (λ g. g.again ≡ begin + 4 + round
        + sts_size (program_of program.now) (argument_words (func_in program.now func.now))
        (func_in program.now func.now).named (sts_of body.now)) }
    ensures out { IfOk result (λ g. g.out ≡ g.again + 3) }
{
    let head = plus(begin, ARRAY_HEAD)?;
    let inside = plus(head, round)?;
    round_goals(program, func, inside, body)
}

/// The place after an array and what is born as its copy.
pub fn behind_copy(program: &Program, start: u32, e: &Expr) -> Result<u32, NoMemory>
    ensures { IfOk result (λ n. n ≡ start + size (program_of program.now) (ex_of e.now) + 2) }
{
    plus(behind_value(program, start, e)?, 1)
}

/// The copy of a site is born with the array.
pub fn emit_copy(
    code: &mut Vec<Instr>,
    program: &Program,
    frame: &Frame,
    site: SiteId,
    e: &Expr,
    h: u16,
) -> Result<(), NoMemory>
    requires temp { h ≤ frame.now.temps }
    requires site { SiteFits (slots_in program.now frame.now) frame.now.sites site.0 }
    requires fits { Fits (program_of program.now) (slots_in program.now frame.now) frame.now.sites h (ex_of e.now) }
    requires frame { IsLaid program.now frame.now }
    ensures { OnOk result (code.new.items ≡ code.old.items
        ++ (ex_code (program_of program.now) (slots_in program.now frame.now) (ex_of e.now) h (length code.old.items)
        ++ birth_code (slots_in program.now frame.now) site.0 h)) }
{
    emit_expr(code, program, frame, e, h)?;
    emit_birth(code, program, frame, site, h)
}

/// The index begins at 0. Where it is not below the length, goes on at a place.
pub fn emit_array_start(
    code: &mut Vec<Instr>,
    program: &Program,
    frame: &Frame,
    count: u64,
    h: u16,
    out: u32,
) -> Result<(), NoMemory>
    requires temps { h + 1 < frame.now.temps }
    requires frame { IsLaid program.now frame.now }
    ensures { OnOk result (code.new.items ≡ code.old.items
        ++ Instr.Const (temp (slots_in program.now frame.now) h) 0
        ∷ Instr.Const (temp (slots_in program.now frame.now) (h + 1)) count
        ∷ Instr.Bin BinOp.Less (temp (slots_in program.now frame.now) (h + 1)) (temp (slots_in program.now frame.now) h)
        (temp (slots_in program.now frame.now) (h + 1))
        ∷ Instr.JumpZero (temp (slots_in program.now frame.now) (h + 1)) out ∷ []) }
{
    let (index, below) = (frame.temp(h), frame.temp(h + 1));
    put(code, Instr::Const { a: index, word: 0 })?;
    put(
        code,
        Instr::Const {
            a: below,
            word: count,
        },
    )?;
    pass_unless_less(code, below, index, below, out)
}

// The w words of an element go to slots from a on: the one with the index in slot c of the array of `len` elements that begins at the
// address in slot b.
fn load_element(
    code: &mut Vec<Instr>,
    a: u16,
    b: u16,
    c: u16,
    len: u16,
    w: u16,
) -> Result<(), NoMemory>
    ensures { OnOk result (code.new.items ≡ code.old.items ++ Instr.Index a b c len w ∷ Instr.Load a a 0 w ∷ []) }
{
    put(code, Instr::Index { a, b, c, len, w })?;
    put(
        code,
        Instr::Load {
            a,
            b: a,
            off: 0,
            n: w,
        },
    )
}

// The index in temp h and the element of a site's array, of `count`, go to temps from v on.
fn emit_element(
    code: &mut Vec<Instr>,
    program: &Program,
    frame: &Frame,
    site: SiteId,
    count: u64,
    h: u16,
    v: u16,
) -> Result<(), NoMemory>
    requires temps { (h ≤ frame.now.temps) × (v + 1 + width (part_type (site_type (slots_in program.now frame.now) site.0) 0) ≤ frame.now.temps) }
    requires site { SiteFits (slots_in program.now frame.now) frame.now.sites site.0 }
    requires count { count ≤ site_words (slots_in program.now frame.now) site.0 }
    requires frame { IsLaid program.now frame.now }
    ensures { OnOk result (code.new.items ≡ code.old.items ++ element_code (slots_in program.now frame.now) site.0 count h v) }
{
    let (index, a) = (frame.temp(h), frame.temp(v + 1));
    let (len, w) = (count as u16, element_words(program, site) as u16);
    put(code, silent(1, frame.temp(v), index))?;
    put(code, local_root(program, frame, site, v + 1))?;
    load_element(code, a, a, index, len, w)
}

/// A round over the elements of a copy, of `count`: left sides get the index and the element.
pub fn emit_pair(
    code: &mut Vec<Instr>,
    program: &Program,
    frame: &Frame,
    site: SiteId,
    count: u64,
    key: &Left,
    value: &Left,
    h: u16,
) -> Result<(), NoMemory>
    requires site { SiteFits (slots_in program.now frame.now) frame.now.sites site.0 }
    requires count { count ≤ site_words (slots_in program.now frame.now) site.0 }
    requires ready { ReadyFitIn (program_of program.now) (slots_in program.now frame.now) frame.now.sites (h + 1)
        (left_of key.now ∷ left_of value.now ∷ []) }
    requires room { lefts_above (left_of key.now ∷ left_of value.now ∷ []) (h + 1) + 1 + width
        (part_type (site_type (slots_in program.now frame.now) site.0) 0) ≤ frame.now.temps }
    requires lefts { LeftsFitIn (slots_in program.now frame.now) frame.now.sites
        (lefts_above (left_of key.now ∷ left_of value.now ∷ []) (h + 1) + 1 + width
        (part_type (site_type (slots_in program.now frame.now) site.0) 0))
        (lefts_above (left_of key.now ∷ left_of value.now ∷ []) (h + 1))
        (1 ∷ width (part_type (site_type (slots_in program.now frame.now) site.0) 0) ∷ [])
        (left_of key.now ∷ left_of value.now ∷ []) }
    requires frame { IsLaid program.now frame.now }
    ensures { OnOk result (code.new.items ≡ code.old.items
        ++ element_round_code (program_of program.now) (slots_in program.now frame.now) site.0 count (left_of key.now)
        (left_of value.now) h (length code.old.items)) }
{
    let first = h + 1;
    let second = above_left(key, first);
    let v = above_left(value, second);
    let at = v + 1 + element_words(program, site) as u16;
    ready_left(code, program, frame, key, first)?;
    ready_left(code, program, frame, value, second)?;
    emit_element(code, program, frame, site, count, h, v)?;
    emit_left(code, program, frame, key, first, at, v)?;
    emit_left(code, program, frame, value, second, at, v + 1)?;
    Ok(())
}

// The index in temp h + 1 and the element of the array of `count` elements of a type that the pointer in temp h leads to go to temps
// from v on.
fn emit_pointed(
    code: &mut Vec<Instr>,
    program: &Program,
    frame: &Frame,
    count: u64,
    type_id: TypeId,
    h: u16,
    v: u16,
) -> Result<(), NoMemory>
    requires temps { (h + 1 ≤ frame.now.temps) × (v + 1 + width (type_named (program_of program.now) type_id.0) ≤ frame.now.temps) }
    requires count { count ≤ 65535 }
    requires frame { IsLaid program.now frame.now }
    ensures { OnOk result (code.new.items ≡ code.old.items ++ pointed_code (slots_in program.now frame.now) count
        (width (type_named (program_of program.now) type_id.0)) h v) }
{
    let (pointer, index) = (frame.temp(h), frame.temp(h + 1));
    let (len, w) = (count as u16, type_words(program, type_id) as u16);
    put(code, silent(1, frame.temp(v), index))?;
    load_element(code, frame.temp(v + 1), pointer, index, len, w)
}

/// A round over the elements of such an array: left sides get the index and the element.
pub fn emit_pointed_pair(
    code: &mut Vec<Instr>,
    program: &Program,
    frame: &Frame,
    count: u64,
    type_id: TypeId,
    key: &Left,
    value: &Left,
    h: u16,
) -> Result<(), NoMemory>
    requires count { count ≤ 65535 }
    requires ready { ReadyFitIn (program_of program.now) (slots_in program.now frame.now) frame.now.sites (h + 2)
        (left_of key.now ∷ left_of value.now ∷ []) }
    requires room { lefts_above (left_of key.now ∷ left_of value.now ∷ []) (h + 2) + 1 + width
        (type_named (program_of program.now) type_id.0) ≤ frame.now.temps }
    requires lefts { LeftsFitIn (slots_in program.now frame.now) frame.now.sites
        (lefts_above (left_of key.now ∷ left_of value.now ∷ []) (h + 2) + 1 + width (type_named (program_of program.now) type_id.0))
        (lefts_above (left_of key.now ∷ left_of value.now ∷ []) (h + 2))
        (1 ∷ width (type_named (program_of program.now) type_id.0) ∷ []) (left_of key.now ∷ left_of value.now ∷ []) }
    requires frame { IsLaid program.now frame.now }
    ensures { OnOk result (code.new.items ≡ code.old.items
        ++ pointed_round_code (program_of program.now) (slots_in program.now frame.now) count
        (width (type_named (program_of program.now) type_id.0)) (left_of key.now) (left_of value.now) h (length code.old.items)) }
{
    let first = h + 2;
    let second = above_left(key, first);
    let v = above_left(value, second);
    let at = v + 1 + type_words(program, type_id) as u16;
    ready_left(code, program, frame, key, first)?;
    ready_left(code, program, frame, value, second)?;
    emit_pointed(code, program, frame, count, type_id, h, v)?;
    emit_left(code, program, frame, key, first, at, v)?;
    emit_left(code, program, frame, value, second, at, v + 1)?;
    Ok(())
}
