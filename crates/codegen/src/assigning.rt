//! The code of declarations and assignments.
ghost use Rattle.std.specs.Prelude.{◌≡◌, ◌+◌, ◌<◌, ◌≤◌, ◌++◌, ◌∷◌, [], OnOk, length, map};
ghost use Rattle.isa.specs.declared.instr.Instr.{Instr};
ghost use Rattle.typed.specs.View.{ex_of, exs_of_values, left_of, place_of, program_of};
ghost use Rattle.typed_syntax.specs.Syntax.{all_wide, value_widths};
ghost use Rattle.frames.specs.Frames.{far};
ghost use Rattle.expression_code.specs.Frame.{slots_in, IsLaid};
ghost use Rattle.codegen.specs.Frame.{assign_code, bump_code, left_code, update_code};
ghost use Rattle.expression_code.specs.Temps.{ExsFitIn, Fits, OperandsFit, PlaceFits};
ghost use Rattle.codegen.specs.Temps.{LeftFits, LeftsFitIn, ReadyFitIn};
ghost use Rattle.program_code.specs.Code.{above_address as above_address_of, lefts_above as above_all, lefts_code, near_words, place_above, ready_code};

use crate::births::emit_birth;
use base::NoMemory;
use expression_code::{
    Frame, above_address, above_operands, emit_address, emit_expr, emit_fetch, emit_land,
    emit_operation, emit_place, emit_values, emit_write, put, value_words,
};
use frame_layout::values_words;
use isa::Instr;
use typed::{BinOp, Expr, Left, Place, Program, Values};

/// The temp above the operands of a left side, which are in temps from h on.
pub fn above_left(left: &Left, h: u16) -> u16
    requires { above_all (left_of left.now ∷ []) h ≤ 65535 }
    ensures { result ≡ above_all (left_of left.now ∷ []) h }
{
    match left {
        Left::To(place) => above_operands(place, h),
        Left::Blank | Left::New(_) => h,
    }
}

// The temp above the operands of left sides.
fn above_lefts(ls: &[Left], h: u16) -> u16
    requires { above_all (map left_of ls.now) h ≤ 65535 }
    ensures { result ≡ above_all (map left_of ls.now) h }
{
    let mut above = h;
    for left in ls {
        above = above_left(left, above);
    }
    above
}

/// The operands of a left side land in temps from h on.
pub fn ready_left(
    code: &mut Vec<Instr>,
    program: &Program,
    frame: &Frame,
    left: &Left,
    h: u16,
) -> Result<(), NoMemory>
    requires fits { ReadyFitIn (program_of program.now) (slots_in program.now frame.now) frame.now.sites h
        (left_of left.now ∷ []) }
    requires frame { IsLaid program.now frame.now }
    ensures { OnOk result (code.new.items ≡ code.old.items
        ++ ready_code (program_of program.now) (slots_in program.now frame.now) (left_of left.now ∷ []) h
        (length code.old.items)) }
{
    match left {
        Left::To(place) => emit_place(code, program, frame, place, h),
        Left::Blank | Left::New(_) => Ok(()),
    }
}

// Those of left sides.
fn ready_lefts(
    code: &mut Vec<Instr>,
    program: &Program,
    frame: &Frame,
    ls: &[Left],
    h: u16,
) -> Result<(), NoMemory>
    requires fits { ReadyFitIn (program_of program.now) (slots_in program.now frame.now) frame.now.sites h (map left_of ls.now) }
    requires room { above_all (map left_of ls.now) h ≤ 65535 }
    requires frame { IsLaid program.now frame.now }
    ensures { OnOk result (code.new.items ≡ code.old.items
        ++ ready_code (program_of program.now) (slots_in program.now frame.now) (map left_of ls.now) h (length code.old.items)) }
{
    let mut next = h;
    for left in ls {
        ready_left(code, program, frame, left, next)?;
        next = above_left(left, next);
    }
    Ok(())
}

/// The left side, with operands in temps from `first` on, gets the value in temps from h on; its address, if there is one, goes to temp
/// `at`.
pub fn emit_left(
    code: &mut Vec<Instr>,
    program: &Program,
    frame: &Frame,
    left: &Left,
    first: u16,
    at: u16,
    h: u16,
) -> Result<(), NoMemory>
    requires temp { h ≤ frame.now.temps }
    requires operands { above_all (left_of left.now ∷ []) first ≤ frame.now.temps }
    requires fits { LeftFits (slots_in program.now frame.now) frame.now.sites at (left_of left.now) }
    requires frame { IsLaid program.now frame.now }
    ensures { OnOk result (code.new.items ≡ code.old.items
        ++ left_code (slots_in program.now frame.now) (left_of left.now) first at h) }
{
    match left {
        Left::Blank => {}
        Left::New(site) => {
            emit_birth(code, program, frame, *site, h)?;
        }
        Left::To(place) => emit_write(code, program, frame, place, first, at, h)?,
    }
    Ok(())
}

// The left sides, with operands in temps from `first` on, get the values, which stand in temps from h on; an address goes to temp `at`.
fn emit_lefts(
    code: &mut Vec<Instr>,
    program: &Program,
    frame: &Frame,
    ls: &[Left],
    values: &Values,
    first: u16,
    at: u16,
    h: u16,
) -> Result<(), NoMemory>
    requires operands { above_all (map left_of ls.now) first ≤ frame.now.temps }
    requires fits { LeftsFitIn (slots_in program.now frame.now) frame.now.sites at h
        (value_widths (program_of program.now) (exs_of_values values.now)) (map left_of ls.now) }
    requires frame { IsLaid program.now frame.now }
    ensures { OnOk result (code.new.items ≡ code.old.items
        ++ lefts_code (slots_in program.now frame.now) (value_widths (program_of program.now) (exs_of_values values.now))
        (map left_of ls.now) first at h) }
{
    let (mut operands, mut next) = (first, h);
    for (i, left) in ls.iter().enumerate() {
        emit_left(code, program, frame, left, operands, at, next)?;
        operands = above_left(left, operands);
        next += value_words(program, values, i)? as u16;
    }
    Ok(())
}

/// The operands of all left sides come first, in temps from h on, and all values are there before the first left side gets its own; an
/// address goes after them.
#[tactic(auto, using(crate::proofs::Emitted::assign_emitted))]
pub fn emit_assign(
    code: &mut Vec<Instr>,
    program: &Program,
    frame: &Frame,
    ls: &[Left],
    values: &Values,
    h: u16,
) -> Result<(), NoMemory>
    requires room { above_all (map left_of ls.now) h + all_wide (program_of program.now)
        (exs_of_values values.now) ≤ frame.now.temps }
    requires values { ExsFitIn (program_of program.now) (slots_in program.now frame.now) frame.now.sites
        (above_all (map left_of ls.now) h) (exs_of_values values.now) }
    requires ready { ReadyFitIn (program_of program.now) (slots_in program.now frame.now) frame.now.sites h (map left_of ls.now) }
    requires lefts { LeftsFitIn (slots_in program.now frame.now) frame.now.sites
        (above_all (map left_of ls.now) h + all_wide (program_of program.now) (exs_of_values values.now))
        (above_all (map left_of ls.now) h) (value_widths (program_of program.now) (exs_of_values values.now))
        (map left_of ls.now) }
    requires frame { IsLaid program.now frame.now }
    ensures { OnOk result (code.new.items ≡ code.old.items
        ++ assign_code (program_of program.now) (slots_in program.now frame.now) (map left_of ls.now)
        (exs_of_values values.now) h (length code.old.items)) }
{
    ready_lefts(code, program, frame, ls, h)?;
    let first = above_lefts(ls, h);
    emit_values(code, program, frame, values, first)?;
    let behind = first + values_words(program, values)? as u16;
    emit_lefts(code, program, frame, ls, values, h, behind, first)?;
    Ok(())
}

/// An assignment with an operator. The place's value stands below the operand's, above its address.
#[tactic(auto, using(crate::proofs::Operands::above_sum, crate::proofs::Emitted::update_emitted))]
pub fn emit_update(
    code: &mut Vec<Instr>,
    program: &Program,
    frame: &Frame,
    place: &Place,
    op: BinOp,
    e: &Expr,
    h: u16,
) -> Result<(), NoMemory>
    requires room { above_address_of (far (place_of place.now)) (place_above (place_of place.now) h) + 1 < frame.now.temps }
    requires place { PlaceFits (slots_in program.now frame.now) frame.now.sites (place_of place.now)
        × (near_words (slots_in program.now frame.now) (place_of place.now) ≤ 1) }
    requires operands { OperandsFit (program_of program.now) (slots_in program.now frame.now) frame.now.sites h
        (place_of place.now) }
    requires operand { Fits (program_of program.now) (slots_in program.now frame.now) frame.now.sites
        (above_address_of (far (place_of place.now)) (place_above (place_of place.now) h) + 1) (ex_of e.now) }
    requires frame { IsLaid program.now frame.now }
    ensures { OnOk result (code.new.items ≡ code.old.items
        ++ update_code (program_of program.now) (slots_in program.now frame.now) (place_of place.now) op (ex_of e.now) h
        (length code.old.items)) }
{
    emit_place(code, program, frame, place, h)?;
    let at = above_operands(place, h);
    let value = above_address(place, at);
    emit_address(code, program, frame, place, h, at)?;
    emit_fetch(code, program, frame, place, h, at, value)?;
    emit_expr(code, program, frame, e, value + 1)?;
    emit_operation(code, program, frame, op, value)?;
    emit_land(code, program, frame, place, h, at, value)?;
    Ok(())
}

/// `++` or `--`.
#[tactic(auto, using(crate::proofs::Operands::above_sum, crate::proofs::Emitted::bump_emitted))]
pub fn emit_bump(
    code: &mut Vec<Instr>,
    program: &Program,
    frame: &Frame,
    place: &Place,
    op: BinOp,
    h: u16,
) -> Result<(), NoMemory>
    requires room { above_address_of (far (place_of place.now)) (place_above (place_of place.now) h) + 1 < frame.now.temps }
    requires place { PlaceFits (slots_in program.now frame.now) frame.now.sites (place_of place.now)
        × (near_words (slots_in program.now frame.now) (place_of place.now) ≤ 1) }
    requires operands { OperandsFit (program_of program.now) (slots_in program.now frame.now) frame.now.sites h
        (place_of place.now) }
    requires frame { IsLaid program.now frame.now }
    ensures { OnOk result (code.new.items ≡ code.old.items
        ++ bump_code (program_of program.now) (slots_in program.now frame.now) (place_of place.now) op h
        (length code.old.items)) }
{
    emit_place(code, program, frame, place, h)?;
    let at = above_operands(place, h);
    let value = above_address(place, at);
    emit_address(code, program, frame, place, h, at)?;
    emit_fetch(code, program, frame, place, h, at, value)?;
    let a = frame.temp(value + 1);
    put(code, Instr::Const { a, word: 1 })?;
    emit_operation(code, program, frame, op, value)?;
    emit_land(code, program, frame, place, h, at, value)?;
    Ok(())
}
