//! The parts of `range` over slices. The header is in temps from h on, the index in temp h + 3, and what it is compared
//! with, or grows by, above it.
ghost use Rattle.std.specs.Prelude.{◌≡◌, ◌+◌, ◌<◌, ◌≤◌, ◌++◌, ◌∷◌, [], IfOk, OnOk, length};
ghost use Rattle.isa.specs.declared.instr.Instr.{Instr};
ghost use Rattle.isa.specs.declared.instr.BinOp.{BinOp};
ghost use Rattle.typed_syntax.specs.Types.{width};
ghost use Rattle.typed_syntax.specs.Syntax.{argument_words, type_named};
ghost use Rattle.typed.specs.View.{ex_of, left_of, program_of, sts_of};
ghost use Rattle.expression_code.specs.Frame.{func_in, slots_in, IsLaid};
ghost use Rattle.expression_code.specs.Temps.{Fits};
ghost use Rattle.codegen.specs.Frame.{sliced_pair_code};
ghost use Rattle.codegen.specs.Temps.{LeftsFitIn, ReadyFitIn, SliceRoundFits};
ghost use Rattle.program_code.specs.Code.{ex_code, lefts_above, size, slice_round_code, slice_round_size, sliced_element_code, sts_size, temp};

use crate::assigning::{above_left, emit_left, ready_left};
use crate::looping::{TEST, emit_key, pass_unless_less, round_goals};
use crate::stmt_lengths::slice_round_len;
use base::{NoMemory, TypeId};
use expression_code::{Frame, Goals, emit_expr, plus, put, silent};
use frame_layout::type_words;
use isa::Instr;
use typed::{Expr, Func, Left, Program, Stmt};

/// Where `break` and `continue` go from the body of one whose test stands at a place.
pub fn slice_goals(
    program: &Program,
    func: &Func,
    test: u32,
    key: &Left,
    value: &Left,
    body: &[Stmt],
) -> Result<Goals, NoMemory>
    ensures again { IfOk result (λ g. g.again ≡ test + 2
        + slice_round_size (program_of program.now) (left_of key.now) (left_of value.now)
        + sts_size (program_of program.now) (argument_words (func_in program.now func.now))
        (func_in program.now func.now).named (sts_of body.now)) }
    ensures out { IfOk result (λ g. g.out ≡ g.again + 3) }
{
    let head = plus(test, TEST)?;
    let inside = plus(head, slice_round_len(program, key, value)?)?;
    round_goals(program, func, inside, body)
}

/// The slice lands in its temps, and the index, 0, above it.
pub fn emit_slice_start(
    code: &mut Vec<Instr>,
    program: &Program,
    frame: &Frame,
    e: &Expr,
    h: u16,
) -> Result<(), NoMemory>
    requires fits { Fits (program_of program.now) (slots_in program.now frame.now) frame.now.sites h (ex_of e.now) }
    requires temps { h + 3 < frame.now.temps }
    requires frame { IsLaid program.now frame.now }
    ensures { OnOk result (code.new.items ≡ code.old.items
        ++ (ex_code (program_of program.now) (slots_in program.now frame.now) (ex_of e.now) h (length code.old.items)
        ++ Instr.Const (temp (slots_in program.now frame.now) (h + 3)) 0 ∷ [])) }
{
    emit_expr(code, program, frame, e, h)?;
    let a = frame.temp(h + 3);
    put(code, Instr::Const { a, word: 0 })?;
    Ok(())
}

/// A round begins: where the index is not below the length, goes on at a place.
pub fn emit_slice_test(
    code: &mut Vec<Instr>,
    program: &Program,
    frame: &Frame,
    h: u16,
    out: u32,
) -> Result<(), NoMemory>
    requires temps { h + 4 < frame.now.temps }
    requires frame { IsLaid program.now frame.now }
    ensures { OnOk result (code.new.items ≡ code.old.items
        ++ Instr.Bin BinOp.Less (temp (slots_in program.now frame.now) (h + 4)) (temp (slots_in program.now frame.now) (h + 3))
        (temp (slots_in program.now frame.now) (h + 1))
        ∷ Instr.JumpZero (temp (slots_in program.now frame.now) (h + 4)) out ∷ []) }
{
    let (length, index, below) = (frame.temp(h + 1), frame.temp(h + 3), frame.temp(h + 4));
    pass_unless_less(code, below, index, length, out)
}

// The index and the element, of a type, go to temps from v on.
fn emit_element(
    code: &mut Vec<Instr>,
    program: &Program,
    frame: &Frame,
    type_id: TypeId,
    h: u16,
    v: u16,
) -> Result<(), NoMemory>
    requires temps { (h + 3 ≤ frame.now.temps)
        × (v + 1 + width (type_named (program_of program.now) type_id.0) ≤ frame.now.temps) }
    requires frame { IsLaid program.now frame.now }
    ensures { OnOk result (code.new.items ≡ code.old.items ++ sliced_element_code (slots_in program.now frame.now)
        (width (type_named (program_of program.now) type_id.0)) h v) }
{
    let (header, index, a) = (frame.temp(h), frame.temp(h + 3), frame.temp(v + 1));
    let w = type_words(program, type_id) as u16;
    put(code, silent(1, frame.temp(v), index))?;
    put(
        code,
        Instr::SliceIndex {
            a,
            b: header,
            c: index,
            w,
        },
    )?;
    put(
        code,
        Instr::Load {
            a,
            b: a,
            off: 0,
            n: w,
        },
    )
}

// A round in which left sides get the index and the element.
fn emit_sliced_pair(
    code: &mut Vec<Instr>,
    program: &Program,
    frame: &Frame,
    type_id: TypeId,
    key: &Left,
    value: &Left,
    h: u16,
) -> Result<(), NoMemory>
    requires ready { ReadyFitIn (program_of program.now) (slots_in program.now frame.now) frame.now.sites (h + 4)
        (left_of key.now ∷ left_of value.now ∷ []) }
    requires room { lefts_above (left_of key.now ∷ left_of value.now ∷ []) (h + 4) + 1 + width
        (type_named (program_of program.now) type_id.0) ≤ frame.now.temps }
    requires lefts { LeftsFitIn (slots_in program.now frame.now) frame.now.sites
        (lefts_above (left_of key.now ∷ left_of value.now ∷ []) (h + 4) + 1 + width (type_named (program_of program.now) type_id.0))
        (lefts_above (left_of key.now ∷ left_of value.now ∷ []) (h + 4))
        (1 ∷ width (type_named (program_of program.now) type_id.0) ∷ []) (left_of key.now ∷ left_of value.now ∷ []) }
    requires frame { IsLaid program.now frame.now }
    ensures { OnOk result (code.new.items ≡ code.old.items
        ++ sliced_pair_code (program_of program.now) (slots_in program.now frame.now)
        (width (type_named (program_of program.now) type_id.0)) (left_of key.now) (left_of value.now) h (length code.old.items)) }
{
    let first = h + 4;
    let second = above_left(key, first);
    let v = above_left(value, second);
    let at = v + 1 + type_words(program, type_id) as u16;
    ready_left(code, program, frame, key, first)?;
    ready_left(code, program, frame, value, second)?;
    emit_element(code, program, frame, type_id, h, v)?;
    emit_left(code, program, frame, key, first, at, v)?;
    emit_left(code, program, frame, value, second, at, v + 1)?;
    Ok(())
}

/// A round up to its body: left sides get the index and the element, of a type; without a second one no element is read.
pub fn emit_slice_round(
    code: &mut Vec<Instr>,
    program: &Program,
    frame: &Frame,
    type_id: TypeId,
    key: &Left,
    value: &Left,
    h: u16,
) -> Result<(), NoMemory>
    requires temps { h + 4 ≤ frame.now.temps }
    requires round { SliceRoundFits (program_of program.now) (slots_in program.now frame.now) frame.now.sites
        (width (type_named (program_of program.now) type_id.0)) h (left_of key.now) (left_of value.now) }
    requires frame { IsLaid program.now frame.now }
    ensures { OnOk result (code.new.items ≡ code.old.items
        ++ slice_round_code (program_of program.now) (slots_in program.now frame.now)
        (width (type_named (program_of program.now) type_id.0)) (left_of key.now) (left_of value.now) h (length code.old.items)) }
{
    match value {
        Left::Blank => emit_key(code, program, frame, key, h + 4, h + 3),
        Left::New(_) | Left::To(_) => {
            emit_sliced_pair(code, program, frame, type_id, key, value, h)
        }
    }
}
