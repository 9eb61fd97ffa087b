//! The parts of loops.
ghost use Rattle.std.specs.Prelude.{◌≡◌, ◌+◌, ◌<◌, ◌≤◌, ◌++◌, ◌∷◌, [], IfOk, OnOk, length};
ghost use Rattle.isa.specs.declared.instr.Instr.{Instr};
ghost use Rattle.isa.specs.declared.instr.BinOp.{BinOp};
ghost use Rattle.typed_syntax.specs.Syntax.{argument_words};
ghost use Rattle.typed.specs.View.{ex_of, left_of, program_of, site_numbers, sts_of, test_of};
ghost use Rattle.expression_code.specs.Frame.{func_in, slots_in, IsLaid};
ghost use Rattle.codegen.specs.Frame.{key_code, turn_code};
ghost use Rattle.expression_code.specs.Temps.{Fits};
ghost use Rattle.codegen.specs.Temps.{LeftFits, MovesFit, ReadyFitIn, SitesFit, TestFitsIn};
ghost use Rattle.program_code.specs.Code.{ex_code, index_round_size, lefts_above, renew_code, renew_size, size, sts_size, temp, test_code, test_size};

use crate::assigning::{above_left, emit_left, ready_left};
use crate::births::emit_birth;
use crate::stmt_lengths::{TURN, key_len, renew_len, stmts_len};
use base::{NoMemory, SiteId};
use expression_code::{Frame, Goals, emit_expr, fetch_variable, last_len, plus, put, test_len};
use isa::Instr;
use typed::{Expr, Func, Left, Program, Stmt};

/// The test of a `range` over a number or a slice, and its jump.
pub const TEST: u32 = 2;

/// Where the condition is false, goes on at a place.
pub fn emit_test(
    code: &mut Vec<Instr>,
    program: &Program,
    frame: &Frame,
    test: &Option<Expr>,
    h: u16,
    goal: u32,
) -> Result<(), NoMemory>
    requires fits { TestFitsIn (program_of program.now) (slots_in program.now frame.now) frame.now.sites h (test_of test.now) }
    requires frame { IsLaid program.now frame.now }
    ensures { OnOk result (code.new.items ≡ code.old.items
        ++ test_code (program_of program.now) (slots_in program.now frame.now) (test_of test.now) h
        (length code.old.items) goal) }
{
    match test {
        None => {}
        Some(e) => {
            emit_expr(code, program, frame, e, h)?;
            let a = frame.temp(h);
            put(code, Instr::JumpZero { a, to: goal })?;
        }
    }
    Ok(())
}

/// A new round's variables are born and get the words of the old ones, through temps from h on.
pub fn emit_renewal(
    code: &mut Vec<Instr>,
    program: &Program,
    frame: &Frame,
    sites: &[SiteId],
    h: u16,
) -> Result<(), NoMemory>
    requires fits { SitesFit (slots_in program.now frame.now) frame.now.sites (site_numbers sites.now) }
    requires temps { MovesFit (slots_in program.now frame.now) h (site_numbers sites.now) }
    requires frame { IsLaid program.now frame.now }
    ensures { OnOk result (code.new.items ≡ code.old.items
        ++ renew_code (slots_in program.now frame.now) (site_numbers sites.now) h) }
{
    for site in sites {
        put(code, fetch_variable(program, frame, *site, h))?;
        emit_birth(code, program, frame, *site, h)?;
    }
    Ok(())
}

/// Where `break` and `continue` go from the body of a loop that begins at a place.
pub fn loop_goals(
    program: &Program,
    func: &Func,
    start: u32,
    sites: &[SiteId],
    test: &Option<Expr>,
    post: &[Stmt],
    body: &[Stmt],
) -> Result<Goals, NoMemory>
    ensures again { IfOk result (λ g. g.again ≡ start + test_size (program_of program.now) (test_of test.now)
        + sts_size (program_of program.now) (argument_words (func_in program.now func.now))
        (func_in program.now func.now).named (sts_of body.now)) }
    ensures out { IfOk result (λ g. g.out ≡ g.again + renew_size (site_numbers sites.now)
        + sts_size (program_of program.now) (argument_words (func_in program.now func.now))
        (func_in program.now func.now).named (sts_of post.now) + 1) }
{
    let inside = plus(start, test_len(program, test)?)?;
    let again = plus(inside, stmts_len(program, func, body)?)?;
    let last = plus(again, renew_len(sites)?)?;
    let jump = plus(last, stmts_len(program, func, post)?)?;
    let out = plus(jump, 1)?;
    Ok(Goals { out, again })
}

/// The place after the value that a `range` begins with, and after what is done with it.
pub fn behind_value(program: &Program, start: u32, e: &Expr) -> Result<u32, NoMemory>
    ensures { IfOk result (λ n. n ≡ start + size (program_of program.now) (ex_of e.now) + 1) }
{
    plus(start, last_len(program, e)?)
}

/// Where `break` and `continue` go from the body of a `range`, by the place where the body begins.
pub fn round_goals(
    program: &Program,
    func: &Func,
    inside: u32,
    body: &[Stmt],
) -> Result<Goals, NoMemory>
    ensures again { IfOk result (λ g. g.again ≡ inside
        + sts_size (program_of program.now) (argument_words (func_in program.now func.now))
        (func_in program.now func.now).named (sts_of body.now)) }
    ensures out { IfOk result (λ g. g.out ≡ g.again + 3) }
{
    let again = plus(inside, stmts_len(program, func, body)?)?;
    let out = plus(again, TURN)?;
    Ok(Goals { out, again })
}

/// The same for one over a number, whose test stands at a place.
pub fn count_goals(
    program: &Program,
    func: &Func,
    test: u32,
    key: &Left,
    body: &[Stmt],
) -> Result<Goals, NoMemory>
    ensures again { IfOk result (λ g. g.again ≡ test + 2 + index_round_size (program_of program.now) (left_of key.now)
        + sts_size (program_of program.now) (argument_words (func_in program.now func.now))
        (func_in program.now func.now).named (sts_of body.now)) }
    ensures out { IfOk result (λ g. g.out ≡ g.again + 3) }
{
    let written = plus(TEST, key_len(program, key)?)?;
    let inside = plus(test, written)?;
    round_goals(program, func, inside, body)
}

/// The number of a `range` lands in temp h, and its index, 0, above it.
pub fn emit_count_start(
    code: &mut Vec<Instr>,
    program: &Program,
    frame: &Frame,
    e: &Expr,
    h: u16,
) -> Result<(), NoMemory>
    requires fits { Fits (program_of program.now) (slots_in program.now frame.now) frame.now.sites h (ex_of e.now) }
    requires temps { h + 1 < frame.now.temps }
    requires frame { IsLaid program.now frame.now }
    ensures { OnOk result (code.new.items ≡ code.old.items
        ++ (ex_code (program_of program.now) (slots_in program.now frame.now) (ex_of e.now) h (length code.old.items)
        ++ Instr.Const (temp (slots_in program.now frame.now) (h + 1)) 0 ∷ [])) }
{
    emit_expr(code, program, frame, e, h)?;
    let a = frame.temp(h + 1);
    put(code, Instr::Const { a, word: 0 })?;
    Ok(())
}

/// A left side, with operands in temps from `first` on, gets the index in a temp.
pub fn emit_key(
    code: &mut Vec<Instr>,
    program: &Program,
    frame: &Frame,
    key: &Left,
    first: u16,
    index: u16,
) -> Result<(), NoMemory>
    requires index { index ≤ frame.now.temps }
    requires first { first ≤ frame.now.temps }
    requires ready { ReadyFitIn (program_of program.now) (slots_in program.now frame.now) frame.now.sites first
        (left_of key.now ∷ []) }
    requires key { LeftFits (slots_in program.now frame.now) frame.now.sites (lefts_above (left_of key.now ∷ []) first)
        (left_of key.now) }
    requires frame { IsLaid program.now frame.now }
    ensures { OnOk result (code.new.items ≡ code.old.items
        ++ key_code (program_of program.now) (slots_in program.now frame.now) (left_of key.now) first index
        (length code.old.items)) }
{
    ready_left(code, program, frame, key, first)?;
    emit_left(
        code,
        program,
        frame,
        key,
        first,
        above_left(key, first),
        index,
    )?;
    Ok(())
}

/// Where the number in slot b is not below that in slot c, goes on at a place; slot a gets what tells it.
pub fn pass_unless_less(
    code: &mut Vec<Instr>,
    a: u16,
    b: u16,
    c: u16,
    out: u32,
) -> Result<(), NoMemory>
    ensures { OnOk result (code.new.items ≡ code.old.items ++ Instr.Bin BinOp.Less a b c ∷ Instr.JumpZero a out ∷ []) }
{
    let op = isa::BinOp::Less;
    put(code, Instr::Bin { op, a, b, c })?;
    put(code, Instr::JumpZero { a, to: out })
}

/// A round begins: where the index is not below the number, goes on at a place.
pub fn emit_count_test(
    code: &mut Vec<Instr>,
    program: &Program,
    frame: &Frame,
    h: u16,
    out: u32,
) -> Result<(), NoMemory>
    requires temps { h + 2 < frame.now.temps }
    requires frame { IsLaid program.now frame.now }
    ensures { OnOk result (code.new.items ≡ code.old.items
        ++ Instr.Bin BinOp.Less (temp (slots_in program.now frame.now) (h + 2)) (temp (slots_in program.now frame.now) (h + 1))
        (temp (slots_in program.now frame.now) h)
        ∷ Instr.JumpZero (temp (slots_in program.now frame.now) (h + 2)) out ∷ []) }
{
    let (number, index, below) = (frame.temp(h), frame.temp(h + 1), frame.temp(h + 2));
    pass_unless_less(code, below, index, number, out)
}

/// A round ends: the index, in a temp, grows by 1, and the test comes again.
pub fn emit_turn(
    code: &mut Vec<Instr>,
    program: &Program,
    frame: &Frame,
    index: u16,
    test: u32,
) -> Result<(), NoMemory>
    requires temps { index + 1 < frame.now.temps }
    requires frame { IsLaid program.now frame.now }
    ensures { OnOk result (code.new.items ≡ code.old.items ++ turn_code (slots_in program.now frame.now) index test) }
{
    let (a, one) = (frame.temp(index), frame.temp(index + 1));
    let op = isa::BinOp::Add;
    put(code, Instr::Const { a: one, word: 1 })?;
    put(
        code,
        Instr::Bin {
            op,
            a,
            b: a,
            c: one,
        },
    )?;
    put(code, Instr::Jump { to: test })?;
    Ok(())
}
