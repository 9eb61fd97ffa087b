//! The numbers of instructions of expressions, which jumps go by.
ghost use Rattle.std.specs.Prelude.{◌≡◌, ◌+◌, ◌≤◌, IfOk};
ghost use Rattle.typed_syntax.specs.Syntax.{type_named};
ghost use Rattle.typed.specs.View.{bound_of, elements_of, ex_of, exs_of, exs_of_values, place_of, program_of, steps_of as these_steps, test_of};
ghost use Rattle.program_code.specs.Code.{address_size, bound_size, call_size, elements_size, exs_size, move_size, place_size, size, steps_size, test_size};

use crate::literals::{ascends, behind_len};
use crate::reaching::address_len;
use base::{FuncId, NoMemory, TypeId};
use frame_layout::{arguments_of, results_of, row_words};
use typed::{Bound, Element, Expr, Place, Program, Step, Values};

/// The sum, where it is a number of 32 bits: a code has no more instructions.
pub fn plus(a: u32, b: u32) -> Result<u32, NoMemory>
    ensures { IfOk result (λ n. n ≡ a + b) }
{
    match a.checked_add(b) {
        Some(n) => Ok(n),
        None => Err(NoMemory),
    }
}

/// A length, where it is a number of 32 bits.
pub fn number(n: usize) -> Result<u32, NoMemory>
    ensures { IfOk result (λ m. m ≡ n) }
{
    if n > u32::MAX as usize {
        return Err(NoMemory);
    }
    Ok(n as u32)
}

/// The move of `n` words.
pub fn move_len(n: u64) -> u32
    ensures is { result ≡ move_size n }
    ensures few { result ≤ 1 }
{
    if n == 0 { 0 } else { 1 }
}

fn call_len(program: &Program, f: FuncId) -> Result<u32, NoMemory>
    ensures { IfOk result (λ n. n ≡ call_size (program_of program.now) f.0) }
{
    let arguments = move_len(arguments_of(program, f)?);
    let results = move_len(results_of(program, f)?);
    Ok(arguments + 1 + results)
}

/// An expression.
#[cycle(values)]
#[tactic(auto, using(typed::proofs::Rows::expr_rows))]
pub fn expr_len(program: &Program, e: &Expr) -> Result<u32, NoMemory>
    ensures { IfOk result (λ n. n ≡ size (program_of program.now) (ex_of e.now)) }
{
    match e {
        Expr::Constant(_) => Ok(1),
        Expr::Read(place) => reached_len(program, place),
        Expr::AddressOf(place) => reached_len(program, place),
        Expr::Unary(_, a) => {
            let n = expr_len(program, a)?;
            plus(n, 1)
        }
        Expr::Binary(_, _, a, b) => {
            let m = expr_len(program, a)?;
            let n = expr_len(program, b)?;
            let both = plus(m, n)?;
            plus(both, 1)
        }
        // A jump stands between the operands.
        Expr::LogicalAnd(a, b) => {
            let m = expr_len(program, a)?;
            let n = expr_len(program, b)?;
            let first = plus(m, 1)?;
            plus(first, n)
        }
        // Two do.
        Expr::LogicalOr(a, b) => {
            let m = expr_len(program, a)?;
            let n = expr_len(program, b)?;
            let first = plus(m, 2)?;
            plus(first, n)
        }
        Expr::Call(f, arguments) => {
            let arguments: &Values = arguments;
            let n = values_len(program, arguments)?;
            plus(n, call_len(program, *f)?)
        }
        Expr::Part(_, _, e) => {
            let n = expr_len(program, e)?;
            plus(n, 1)
        }
        Expr::Literal(id, es) => {
            let n = elements_len(program, *id, ascends(es), es)?;
            plus(1, n)
        }
        Expr::Nil(_) | Expr::New(_) => Ok(1),
        // The literal's variable is born and filled, and its address moved.
        Expr::NewLiteral(_, e) => {
            let n = expr_len(program, e)?;
            plus(n, 3)
        }
        // The array is born and filled, if it has words; the length and the capacity come with it.
        Expr::SliceLiteral(_, es) => {
            let n = row_len(program, es)?;
            let filled = move_len(row_words(program, es)?);
            plus(n, 3 + filled)
        }
        Expr::Make(_, _, count, room) => {
            let n = expr_len(program, count)?;
            let m = bound_len(program, room)?;
            let both = plus(n, m)?;
            plus(both, 1)
        }
        Expr::Append(_, e, es) => {
            let n = expr_len(program, e)?;
            let m = row_len(program, es)?;
            let both = plus(n, m)?;
            plus(both, 1)
        }
        Expr::AppendSlice(_, a, b) => {
            let m = expr_len(program, a)?;
            let n = expr_len(program, b)?;
            let both = plus(m, n)?;
            plus(both, 1)
        }
        Expr::Copy(_, a, b) => {
            let m = expr_len(program, a)?;
            let n = expr_len(program, b)?;
            let both = plus(m, n)?;
            plus(both, 1)
        }
        Expr::Slicing(_, _, e, low, high) => {
            let n = expr_len(program, e)?;
            let from = bound_len(program, low)?;
            let to = bound_len(program, high)?;
            let bounds = plus(from, to)?;
            let all = plus(n, bounds)?;
            plus(all, 1)
        }
        // The array's length and capacity come after its address.
        Expr::ArraySlicing(_, place, _, low, high) => {
            let n = reached_len(program, place)?;
            let from = bound_len(program, low)?;
            let to = bound_len(program, high)?;
            let bounds = plus(from, to)?;
            let all = plus(n, bounds)?;
            plus(all, 3)
        }
        Expr::Len(e) => {
            let n = expr_len(program, e)?;
            plus(n, 1)
        }
        Expr::Cap(e) => {
            let n = expr_len(program, e)?;
            plus(n, 1)
        }
    }
}

/// A bound, or what stands in its place.
#[cycle(values)]
#[tactic(auto, using(typed::proofs::Rows::expr_rows))]
fn bound_len(program: &Program, bound: &Bound) -> Result<u32, NoMemory>
    ensures { IfOk result (λ n. n ≡ bound_size (program_of program.now) (bound_of bound.now)) }
{
    match bound {
        Bound::Absent => Ok(1),
        Bound::At(e) => expr_len(program, e),
    }
}

/// The operands of a place, its address, and what reads the place or points to it.
#[cycle(values)]
#[tactic(auto, using(typed::proofs::Rows::expr_rows, crate::proofs::Steps::place_total))]
fn reached_len(program: &Program, place: &Place) -> Result<u32, NoMemory>
    ensures { IfOk result (λ n. n ≡ place_size (program_of program.now) (place_of place.now) (address_size (place_of place.now) + 1)) }
{
    let operands = place_len(program, place)?;
    let address = address_len(place)?;
    let n = plus(operands, address)?;
    plus(n, 1)
}

/// The operands of a place.
#[cycle(values)]
#[tactic(auto, using(typed::proofs::Rows::expr_rows))]
pub fn place_len(program: &Program, place: &Place) -> Result<u32, NoMemory>
    ensures { IfOk result (λ n. n ≡ place_size (program_of program.now) (place_of place.now) 0) }
{
    match place {
        Place::Local(_, steps) => steps_len(program, steps),
        Place::Global(_, steps) => steps_len(program, steps),
        Place::Indirect(_, e, _, steps) => {
            let pointer = expr_len(program, e)?;
            let indices = steps_len(program, steps)?;
            plus(pointer, indices)
        }
        Place::SliceElement(_, e, i, _, steps) => {
            let slice = expr_len(program, e)?;
            let index = expr_len(program, i)?;
            let indices = steps_len(program, steps)?;
            let behind = plus(index, indices)?;
            plus(slice, behind)
        }
    }
}

/// The indices among steps.
#[cycle(values)]
fn steps_len(program: &Program, steps: &[Step]) -> Result<u32, NoMemory>
    ensures { IfOk result (λ n. n ≡ steps_size (program_of program.now) (these_steps steps.now) 0) }
{
    let mut total = 0;
    for step in steps {
        if let Step::Index(_, e, _) = step {
            let n = expr_len(program, e)?;
            total = plus(total, n)?;
        }
    }
    Ok(total)
}

/// The elements of a literal, with what stands after each.
#[cycle(values)]
fn elements_len(
    program: &Program,
    id: TypeId,
    is_ordered: bool,
    es: &[Element],
) -> Result<u32, NoMemory>
    ensures { IfOk result (λ n. n ≡ elements_size (program_of program.now)
        (type_named (program_of program.now) id.0) is_ordered (elements_of es.now)) }
{
    let mut total = 0;
    for (i, element) in es.iter().enumerate() {
        let Element::For(number, e) = element;
        let n = expr_len(program, e)?;
        total = plus(total, n)?;
        total = plus(
            total,
            behind_len(program, id, is_ordered, *number, &es[i + 1..]),
        )?;
    }
    Ok(total)
}

/// Values.
#[cycle(values)]
#[tactic(auto, using(typed::proofs::Rows::expr_rows))]
pub fn values_len(program: &Program, values: &Values) -> Result<u32, NoMemory>
    ensures { IfOk result (λ n. n ≡ exs_size (program_of program.now) (exs_of_values values.now)) }
{
    match values {
        Values::Each(es) => row_len(program, es),
        Values::Results(f, arguments) => {
            let arguments: &Values = arguments;
            let n = values_len(program, arguments)?;
            plus(n, call_len(program, *f)?)
        }
        Values::ReadInt => Ok(1),
    }
}

#[cycle(values)]
fn row_len(program: &Program, es: &[Expr]) -> Result<u32, NoMemory>
    ensures { IfOk result (λ n. n ≡ exs_size (program_of program.now) (exs_of es.now)) }
{
    let mut total = 0;
    for e in es {
        let n = expr_len(program, e)?;
        total = plus(total, n)?;
    }
    Ok(total)
}

/// An expression and an instruction after it.
pub fn last_len(program: &Program, e: &Expr) -> Result<u32, NoMemory>
    ensures { IfOk result (λ n. n ≡ size (program_of program.now) (ex_of e.now) + 1) }
{
    let n = expr_len(program, e)?;
    plus(n, 1)
}

/// A condition, where there is one, and the jump after it.
pub fn test_len(program: &Program, test: &Option<Expr>) -> Result<u32, NoMemory>
    ensures { IfOk result (λ n. n ≡ test_size (program_of program.now) (test_of test.now)) }
{
    match test {
        None => Ok(0),
        Some(e) => last_len(program, e),
    }
}
