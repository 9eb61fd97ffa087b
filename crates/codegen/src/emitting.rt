//! The code of statements.
ghost use Rattle.std.specs.Prelude.{◌≡◌, ◌++◌, OnOk, length};
ghost use Rattle.typed_syntax.specs.Syntax.{argument_words, blank, over_int, over_length, over_slice, range, result_words};
ghost use Rattle.typed.specs.View.{ex_of, left_of, program_of, st_of, sts_of};
ghost use Rattle.expression_code.specs.Frame.{func_in, slots_in, IsLaid};
ghost use Rattle.codegen.specs.Frame.{Returns};
ghost use Rattle.codegen.specs.Temps.{StFitsIn, StsFitIn};
ghost use Rattle.program_code.specs.Code.{st_code, sts_code};

use crate::arrays::{
    array_goals, behind_copy, emit_array_start, emit_copy, emit_pair, emit_pointed_pair,
};
use crate::assigning::{emit_assign, emit_bump, emit_update};
use crate::looping::{
    behind_value, count_goals, emit_count_start, emit_count_test, emit_key, emit_renewal,
    emit_test, emit_turn, loop_goals,
};
use crate::returning::{emit_return, emit_zeros};
use crate::shown::{emit_exit, emit_print, emit_raised};
use crate::slices::{emit_slice_round, emit_slice_start, emit_slice_test, slice_goals};
use crate::stmt_lengths::{ELEMENT, POINTED, key_len, pair_len, stmts_len};
use base::{NoMemory, TypeId};
use expression_code::{
    Frame, Goals, emit_expr, emit_values, expr_len, here, jump, pass_unless, plus, put,
};
use isa::Instr;
use typed::{Expr, Func, Left, Piece, Program, Stmt};

// With temps from h on.
#[cycle(emit)]
#[tactic(auto, using(typed::proofs::Rows::stmt_rows))]
fn emit_stmt(
    code: &mut Vec<Instr>,
    program: &Program,
    frame: &Frame,
    func: &Func,
    s: &Stmt,
    h: u16,
    goals: Goals,
) -> Result<(), NoMemory>
    requires fits { StFitsIn (program_of program.now) (slots_in program.now frame.now) frame.now.sites
        (result_words (func_in program.now func.now)) (func_in program.now func.now).named h (st_of s.now) }
    requires returns { Returns program.now frame.now (func_in program.now func.now) }
    requires frame { IsLaid program.now frame.now }
    ensures { OnOk result (code.new.items ≡ code.old.items
        ++ st_code (program_of program.now) (argument_words (func_in program.now func.now))
        (func_in program.now func.now).named (slots_in program.now frame.now) (st_of s.now) h goals.out goals.again
        (length code.old.items)) }
{
    let start = here(code)?;
    match s {
        Stmt::Declare(sites) => emit_zeros(code, program, frame, sites)?,
        Stmt::Assign(ls, values) => emit_assign(code, program, frame, ls, values, h)?,
        Stmt::Update(_, place, op, e) => emit_update(code, program, frame, place, *op, e, h)?,
        Stmt::Bump(_, place, op) => emit_bump(code, program, frame, place, *op, h)?,
        Stmt::Discard(values) => emit_values(code, program, frame, values, h)?,
        Stmt::Block(ss) => emit_stmts(code, program, frame, func, ss, h, goals)?,
        Stmt::If(e, a, b) => {
            let (yes, no) = (stmts_len(program, func, a)?, stmts_len(program, func, b)?);
            emit_expr(code, program, frame, e, h)?;
            pass_unless(code, program, frame, h, yes)?;
            emit_stmts(code, program, frame, func, a, h, goals)?;
            jump(code, no, 1)?;
            emit_stmts(code, program, frame, func, b, h, goals)?;
        }
        Stmt::For(sites, test, post, body) => {
            let inner = loop_goals(program, func, start, sites, test, post, body)?;
            emit_test(code, program, frame, test, h, inner.out)?;
            emit_stmts(code, program, frame, func, body, h, inner)?;
            emit_renewal(code, program, frame, sites, h)?;
            emit_stmts(code, program, frame, func, post, h, inner)?;
            put(code, Instr::Jump { to: start })?;
        }
        Stmt::Count(e, key, body) => emit_count(code, program, frame, func, body, e, key, h)?,
        Stmt::Indices(count, key, body) => {
            emit_indices(code, program, frame, func, body, *count, key, h)?;
        }
        Stmt::Elements(site, e, count, key, value, body) => {
            let begin = behind_copy(program, start, e)?;
            let round = pair_len(program, key, value, ELEMENT)?;
            let inner = array_goals(program, func, begin, round, body)?;
            emit_copy(code, program, frame, *site, e, h)?;
            emit_array_start(code, program, frame, *count, h, inner.out)?;
            emit_pair(code, program, frame, *site, *count, key, value, h)?;
            emit_stmts(code, program, frame, func, body, h + 1, inner)?;
            emit_turn(code, program, frame, h, plus(begin, 1)?)?;
        }
        Stmt::PointedElements(_, e, count, type_id, key, value, body) => {
            let begin = plus(start, expr_len(program, e)?)?;
            let round = pair_len(program, key, value, POINTED)?;
            let inner = array_goals(program, func, begin, round, body)?;
            emit_expr(code, program, frame, e, h)?;
            emit_array_start(code, program, frame, *count, h + 1, inner.out)?;
            emit_pointed_pair(code, program, frame, *count, *type_id, key, value, h)?;
            emit_stmts(code, program, frame, func, body, h + 2, inner)?;
            emit_turn(code, program, frame, h + 1, plus(begin, 1)?)?;
        }
        // The pointer is not worked out, but has its temp.
        Stmt::PointedIndices(count, key, body) => {
            emit_indices(code, program, frame, func, body, *count, key, h + 1)?;
        }
        Stmt::SliceElements(e, type_id, key, value, body) => {
            emit_slice_range(code, program, frame, func, body, e, *type_id, key, value, h)?;
        }
        Stmt::Break => put(code, Instr::Jump { to: goals.out })?,
        Stmt::Continue => put(code, Instr::Jump { to: goals.again })?,
        Stmt::Return(values) => emit_return(code, program, frame, func, values, h)?,
        Stmt::Print(line, ps) => emit_print(code, program, frame, *line, ps, h)?,
        Stmt::Panic(_, Piece::Text(text)) => put(code, Instr::PanicText { text: *text })?,
        Stmt::Panic(_, Piece::Shown(t, e)) => emit_raised(code, program, frame, *t, e, h)?,
        Stmt::Exit(_, e) => emit_exit(code, program, frame, e, h)?,
    }
    Ok(())
}

// A `range` over the numbers below a value.
#[cycle(emit)]
fn emit_count(
    code: &mut Vec<Instr>,
    program: &Program,
    frame: &Frame,
    func: &Func,
    body: &[Stmt],
    e: &Expr,
    key: &Left,
    h: u16,
) -> Result<(), NoMemory>
    requires fits { StFitsIn (program_of program.now) (slots_in program.now frame.now) frame.now.sites
        (result_words (func_in program.now func.now)) (func_in program.now func.now).named h
        (range (over_int (ex_of e.now)) (left_of key.now) blank (sts_of body.now)) }
    requires returns { Returns program.now frame.now (func_in program.now func.now) }
    requires frame { IsLaid program.now frame.now }
    ensures { OnOk result (code.new.items ≡ code.old.items
        ++ st_code (program_of program.now) (argument_words (func_in program.now func.now))
        (func_in program.now func.now).named (slots_in program.now frame.now)
        (range (over_int (ex_of e.now)) (left_of key.now) blank (sts_of body.now)) h 0 0 (length code.old.items)) }
{
    let start = here(code)?;
    let test = behind_value(program, start, e)?;
    let inner = count_goals(program, func, test, key, body)?;
    emit_count_start(code, program, frame, e, h)?;
    emit_count_test(code, program, frame, h, inner.out)?;
    emit_key(code, program, frame, key, h + 2, h + 1)?;
    emit_stmts(code, program, frame, func, body, h + 2, inner)?;
    emit_turn(code, program, frame, h + 1, test)?;
    Ok(())
}

// A `range` over the indices of an array of this length.
#[cycle(emit)]
fn emit_indices(
    code: &mut Vec<Instr>,
    program: &Program,
    frame: &Frame,
    func: &Func,
    body: &[Stmt],
    count: u64,
    key: &Left,
    h: u16,
) -> Result<(), NoMemory>
    requires fits { StFitsIn (program_of program.now) (slots_in program.now frame.now) frame.now.sites
        (result_words (func_in program.now func.now)) (func_in program.now func.now).named h
        (range (over_length count) (left_of key.now) blank (sts_of body.now)) }
    requires returns { Returns program.now frame.now (func_in program.now func.now) }
    requires frame { IsLaid program.now frame.now }
    ensures { OnOk result (code.new.items ≡ code.old.items
        ++ st_code (program_of program.now) (argument_words (func_in program.now func.now))
        (func_in program.now func.now).named (slots_in program.now frame.now)
        (range (over_length count) (left_of key.now) blank (sts_of body.now)) h 0 0 (length code.old.items)) }
{
    let start = here(code)?;
    let inner = array_goals(program, func, start, key_len(program, key)?, body)?;
    emit_array_start(code, program, frame, count, h, inner.out)?;
    emit_key(code, program, frame, key, h + 1, h)?;
    emit_stmts(code, program, frame, func, body, h + 1, inner)?;
    emit_turn(code, program, frame, h, plus(start, 1)?)?;
    Ok(())
}

// A `range` over a slice: its header is in temps from h on, and the index above it.
#[cycle(emit)]
fn emit_slice_range(
    code: &mut Vec<Instr>,
    program: &Program,
    frame: &Frame,
    func: &Func,
    body: &[Stmt],
    e: &Expr,
    type_id: TypeId,
    key: &Left,
    value: &Left,
    h: u16,
) -> Result<(), NoMemory>
    requires fits { StFitsIn (program_of program.now) (slots_in program.now frame.now) frame.now.sites
        (result_words (func_in program.now func.now)) (func_in program.now func.now).named h
        (range (over_slice (ex_of e.now) type_id.0) (left_of key.now) (left_of value.now) (sts_of body.now)) }
    requires returns { Returns program.now frame.now (func_in program.now func.now) }
    requires frame { IsLaid program.now frame.now }
    ensures { OnOk result (code.new.items ≡ code.old.items
        ++ st_code (program_of program.now) (argument_words (func_in program.now func.now))
        (func_in program.now func.now).named (slots_in program.now frame.now)
        (range (over_slice (ex_of e.now) type_id.0) (left_of key.now) (left_of value.now) (sts_of body.now)) h 0 0
        (length code.old.items)) }
{
    let start = here(code)?;
    let test = behind_value(program, start, e)?;
    let inner = slice_goals(program, func, test, key, value, body)?;
    emit_slice_start(code, program, frame, e, h)?;
    emit_slice_test(code, program, frame, h, inner.out)?;
    emit_slice_round(code, program, frame, type_id, key, value, h)?;
    emit_stmts(code, program, frame, func, body, h + 4, inner)?;
    emit_turn(code, program, frame, h + 3, test)?;
    Ok(())
}

/// The code of statements, with temps from h on.
#[cycle(emit)]
pub fn emit_stmts(
    code: &mut Vec<Instr>,
    program: &Program,
    frame: &Frame,
    func: &Func,
    ss: &[Stmt],
    h: u16,
    goals: Goals,
) -> Result<(), NoMemory>
    requires fits { StsFitIn (program_of program.now) (slots_in program.now frame.now) frame.now.sites
        (result_words (func_in program.now func.now)) (func_in program.now func.now).named h (sts_of ss.now) }
    requires returns { Returns program.now frame.now (func_in program.now func.now) }
    requires frame { IsLaid program.now frame.now }
    ensures { OnOk result (code.new.items ≡ code.old.items
        ++ sts_code (program_of program.now) (argument_words (func_in program.now func.now))
        (func_in program.now func.now).named (slots_in program.now frame.now) (sts_of ss.now) h goals.out goals.again
        (length code.old.items)) }
{
    for s in ss {
        emit_stmt(code, program, frame, func, s, h, goals)?;
    }
    Ok(())
}
