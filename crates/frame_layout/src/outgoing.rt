//! The words that calls want in the outgoing area. A number that passes 64 bits counts as want of memory.

ghost use Rattle.std.specs.Prelude.{◌≡◌, ◌+◌, [], ◌∷◌, max, map, IfOk};
ghost use Rattle.typed_syntax.specs.Syntax.{arguments_of as arguments, results_of as results};
ghost use Rattle.typed.specs.View.{ex_of, exs_of, exs_of_values, place_of, bound_of, steps_of, elements_of, left_of, piece_of, test_of, st_of, sts_of, program_of};
ghost use Rattle.frames.specs.Frames.{reach, reach_all, bound_reach as reach_bound, place_reach as reach_place, steps_reach as reach_steps, elements_reach as reach_elements, lefts_reach as reach_lefts, piece_reach as reach_in, reach_pieces, test_reach, st_reach, sts_reach};

use crate::words::{arguments_of, results_of};
use base::{FuncId, NoMemory};
use typed::{Bound, Element, Expr, Left, Piece, Place, Program, Step, Stmt, Values};

/// The words of the arguments and results of a call.
fn call_reach(program: &Program, f: FuncId) -> Result<u64, NoMemory>
    ensures { IfOk result (λ n. n ≡ arguments (program_of program.now) f.0 + results (program_of program.now) f.0) }
{
    let words = arguments_of(program, f)?;
    words.checked_add(results_of(program, f)?).ok_or(NoMemory)
}

/// The most words that a call inside of an expression wants.
#[cycle(values)]
#[tactic(auto, using(typed::proofs::Rows::expr_rows))]
pub fn expr_reach(program: &Program, e: &Expr) -> Result<u64, NoMemory>
    ensures { IfOk result (λ n. n ≡ reach (program_of program.now) (ex_of e.now)) }
{
    match e {
        Expr::Constant(_) | Expr::Nil(_) | Expr::New(_) => Ok(0),
        Expr::Read(place) | Expr::AddressOf(place) => place_reach(program, place),
        Expr::Unary(_, a)
        | Expr::Part(_, _, a)
        | Expr::NewLiteral(_, a)
        | Expr::Len(a)
        | Expr::Cap(a) => {
            let a: &Expr = a;
            expr_reach(program, a)
        }
        Expr::Binary(_, _, a, b)
        | Expr::LogicalAnd(a, b)
        | Expr::LogicalOr(a, b)
        | Expr::AppendSlice(_, a, b)
        | Expr::Copy(_, a, b) => {
            let a: &Expr = a;
            let b: &Expr = b;
            let first = expr_reach(program, a)?;
            let second = expr_reach(program, b)?;
            Ok(first.max(second))
        }
        Expr::Call(f, inner) => {
            let inner: &Values = inner;
            let words = values_reach(program, inner)?;
            let own = call_reach(program, *f)?;
            Ok(words.max(own))
        }
        Expr::Literal(_, elements) => elements_reach(program, elements),
        Expr::SliceLiteral(_, es) => row_reach(program, es),
        Expr::Append(_, a, es) => {
            let a: &Expr = a;
            let first = expr_reach(program, a)?;
            Ok(first.max(row_reach(program, es)?))
        }
        Expr::Make(_, _, count, room) => {
            let count: &Expr = count;
            let first = expr_reach(program, count)?;
            Ok(first.max(bound_reach(program, room)?))
        }
        Expr::Slicing(_, _, a, low, high) => {
            let a: &Expr = a;
            let first = expr_reach(program, a)?;
            let low = bound_reach(program, low)?;
            Ok(first.max(low.max(bound_reach(program, high)?)))
        }
        Expr::ArraySlicing(_, place, _, low, high) => {
            let first = place_reach(program, place)?;
            let low = bound_reach(program, low)?;
            Ok(first.max(low.max(bound_reach(program, high)?)))
        }
    }
}

/// The most words that a call inside of a bound wants.
#[cycle(values)]
#[tactic(auto, using(typed::proofs::Rows::expr_rows))]
fn bound_reach(program: &Program, bound: &Bound) -> Result<u64, NoMemory>
    ensures { IfOk result (λ n. n ≡ reach_bound (program_of program.now) (bound_of bound.now)) }
{
    match bound {
        Bound::Absent => Ok(0),
        Bound::At(e) => {
            let e: &Expr = e;
            expr_reach(program, e)
        }
    }
}

/// The most words that a call inside of a place's operands wants.
#[cycle(values)]
#[tactic(auto, using(typed::proofs::Rows::expr_rows))]
fn place_reach(program: &Program, place: &Place) -> Result<u64, NoMemory>
    ensures { IfOk result (λ n. n ≡ reach_place (program_of program.now) (place_of place.now) 0) }
{
    match place {
        Place::Local(_, steps) => steps_reach(program, steps),
        Place::Global(_, steps) => steps_reach(program, steps),
        Place::Indirect(_, e, _, steps) => {
            let e: &Expr = e;
            let root = expr_reach(program, e)?;
            Ok(root.max(steps_reach(program, steps)?))
        }
        Place::SliceElement(_, e, index, _, steps) => {
            let e: &Expr = e;
            let index: &Expr = index;
            let rest = steps_reach(program, steps)?;
            let first = expr_reach(program, index)?;
            let root = expr_reach(program, e)?;
            Ok(root.max(first.max(rest)))
        }
    }
}

/// The most words that a call inside of the indices of steps wants.
#[cycle(values)]
fn steps_reach(program: &Program, steps: &[Step]) -> Result<u64, NoMemory>
    ensures { IfOk result (λ n. n ≡ reach_steps (program_of program.now) (steps_of steps.now) 0) }
{
    let mut words: u64 = 0;
    for step in steps {
        match step {
            Step::Inner(_) => {}
            Step::Index(_, index, _) => words = words.max(expr_reach(program, index)?),
        }
    }
    Ok(words)
}

/// The most words that a call inside of a literal's elements wants.
#[cycle(values)]
fn elements_reach(program: &Program, elements: &[Element]) -> Result<u64, NoMemory>
    ensures { IfOk result (λ n. n ≡ reach_elements (program_of program.now) (elements_of elements.now)) }
{
    let mut words: u64 = 0;
    for element in elements {
        let Element::For(_, e) = element;
        words = words.max(expr_reach(program, e)?);
    }
    Ok(words)
}

/// The most words that a call inside of values wants.
#[cycle(values)]
#[tactic(auto, using(typed::proofs::Rows::expr_rows))]
pub fn values_reach(program: &Program, values: &Values) -> Result<u64, NoMemory>
    ensures { IfOk result (λ n. n ≡ reach_all (program_of program.now) (exs_of_values values.now)) }
{
    match values {
        Values::Each(es) => row_reach(program, es),
        Values::Results(f, inner) => {
            let inner: &Values = inner;
            let words = values_reach(program, inner)?;
            let own = call_reach(program, *f)?;
            Ok(words.max(own))
        }
        Values::ReadInt => Ok(0),
    }
}

/// The most words that a call inside of some expressions wants.
#[cycle(values)]
fn row_reach(program: &Program, es: &[Expr]) -> Result<u64, NoMemory>
    ensures { IfOk result (λ n. n ≡ reach_all (program_of program.now) (exs_of es.now)) }
{
    let mut words: u64 = 0;
    for e in es {
        words = words.max(expr_reach(program, e)?);
    }
    Ok(words)
}

/// The most words that a call inside of an operand of `panic` wants.
fn piece_reach(program: &Program, p: &Piece) -> Result<u64, NoMemory>
    ensures { IfOk result (λ n. n ≡ reach_in (program_of program.now) (piece_of p.now)) }
{
    match p {
        Piece::Text(_) => Ok(0),
        Piece::Shown(_, e) => expr_reach(program, e),
    }
}

/// The most words that a call inside of operands that are shown wants.
#[tactic(auto, using(crate::proofs::Pieces::reaches_first))]
fn line_reach(program: &Program, ps: &[Piece]) -> Result<u64, NoMemory>
    ensures { IfOk result (λ n. n ≡ reach_pieces (program_of program.now) (map piece_of ps.now)) }
{
    let mut words: u64 = 0;
    for p in ps {
        words = words.max(piece_reach(program, p)?);
    }
    Ok(words)
}

/// The most words that a call inside of a condition wants, where there is one.
fn test_words(program: &Program, test: &Option<Expr>) -> Result<u64, NoMemory>
    ensures { IfOk result (λ n. n ≡ test_reach (program_of program.now) (test_of test.now)) }
{
    match test {
        None => Ok(0),
        Some(e) => expr_reach(program, e),
    }
}

/// The most words that a call inside of a left side wants.
fn left_reach(program: &Program, left: &Left) -> Result<u64, NoMemory>
    ensures { IfOk result (λ n. n ≡ reach_lefts (program_of program.now) (left_of left.now ∷ []) 0) }
{
    match left {
        Left::Blank => Ok(0),
        Left::New(_) => Ok(0),
        Left::To(place) => place_reach(program, place),
    }
}

/// The most words that a call inside of left sides wants.
fn lefts_reach(program: &Program, lefts: &[Left]) -> Result<u64, NoMemory>
    ensures { IfOk result (λ n. n ≡ reach_lefts (program_of program.now) (map left_of lefts.now) 0) }
{
    let mut words: u64 = 0;
    for left in lefts {
        words = words.max(left_reach(program, left)?);
    }
    Ok(words)
}

/// The most words that a call inside of an assignment wants.
#[tactic(auto, using(crate::proofs::Sides::lefts_others))]
fn assign_reach(program: &Program, lefts: &[Left], values: &Values) -> Result<u64, NoMemory>
    ensures { IfOk result (λ n. n ≡ reach_lefts (program_of program.now) (map left_of lefts.now)
        (reach_all (program_of program.now) (exs_of_values values.now))) }
{
    let places = lefts_reach(program, lefts)?;
    let words = values_reach(program, values)?;
    Ok(places.max(words))
}

/// The most words that a call inside of an assignment with an operator wants.
#[tactic(auto, using(crate::proofs::Sides::place_others))]
fn update_reach(program: &Program, place: &Place, e: &Expr) -> Result<u64, NoMemory>
    ensures { IfOk result (λ n. n ≡ reach_place (program_of program.now) (place_of place.now)
        (reach (program_of program.now) (ex_of e.now))) }
{
    let indices = place_reach(program, place)?;
    let operand = expr_reach(program, e)?;
    Ok(indices.max(operand))
}

/// The most words that a call wants inside of the left sides of a `range` whose body's calls want `body`.
fn round_reach(program: &Program, key: &Left, value: &Left, body: u64) -> Result<u64, NoMemory>
    ensures { IfOk result (λ n. n ≡ reach_lefts (program_of program.now) (left_of key.now ∷ left_of value.now ∷ []) body) }
{
    let first = left_reach(program, key)?;
    let second = left_reach(program, value)?;
    Ok(first.max(second.max(body)))
}

/// The most words that a call wants inside of a `range` over a value whose body's calls want `body`.
fn range_reach(
    program: &Program,
    e: &Expr,
    key: &Left,
    value: &Left,
    body: u64,
) -> Result<u64, NoMemory>
    ensures { IfOk result (λ n. n ≡ max (reach (program_of program.now) (ex_of e.now))
        (reach_lefts (program_of program.now) (left_of key.now ∷ left_of value.now ∷ []) body)) }
{
    let operand = expr_reach(program, e)?;
    let round = round_reach(program, key, value, body)?;
    Ok(operand.max(round))
}

/// The most words that a call inside of a statement wants.
#[cycle(reach)]
#[tactic(auto, using(typed::proofs::Rows::stmt_rows))]
pub fn stmt_reach(program: &Program, s: &Stmt) -> Result<u64, NoMemory>
    ensures { IfOk result (λ n. n ≡ st_reach (program_of program.now) (st_of s.now)) }
{
    match s {
        Stmt::Declare(_) | Stmt::Break | Stmt::Continue => Ok(0),
        Stmt::Assign(lefts, values) => assign_reach(program, lefts, values),
        Stmt::Update(_, place, _, e) => update_reach(program, place, e),
        Stmt::Bump(_, place, _) => place_reach(program, place),
        Stmt::Discard(values) | Stmt::Return(values) => values_reach(program, values),
        Stmt::Block(ss) => body_reach(program, ss),
        Stmt::If(e, a, b) => {
            let test = expr_reach(program, e)?;
            let first = body_reach(program, a)?;
            let second = body_reach(program, b)?;
            Ok(test.max(first.max(second)))
        }
        Stmt::For(_, test, post, body) => {
            let header = test_words(program, test)?;
            let behind = body_reach(program, post)?;
            let round = body_reach(program, body)?;
            Ok(header.max(behind.max(round)))
        }
        Stmt::Count(e, key, body) => {
            let inside = body_reach(program, body)?;
            range_reach(program, e, key, &Left::Blank, inside)
        }
        Stmt::Indices(_, key, body) | Stmt::PointedIndices(_, key, body) => {
            let inside = body_reach(program, body)?;
            round_reach(program, key, &Left::Blank, inside)
        }
        Stmt::Elements(_, e, _, key, value, body)
        | Stmt::SliceElements(e, _, key, value, body)
        | Stmt::PointedElements(_, e, _, _, key, value, body) => {
            let inside = body_reach(program, body)?;
            range_reach(program, e, key, value, inside)
        }
        Stmt::Print(_, ps) => line_reach(program, ps),
        Stmt::Panic(_, p) => piece_reach(program, p),
        Stmt::Exit(_, e) => expr_reach(program, e),
    }
}

/// The most words that a call inside of a body wants.
#[cycle(reach)]
pub fn body_reach(program: &Program, body: &[Stmt]) -> Result<u64, NoMemory>
    ensures { IfOk result (λ n. n ≡ sts_reach (program_of program.now) (sts_of body.now)) }
{
    let mut words: u64 = 0;
    for s in body {
        words = words.max(stmt_reach(program, s)?);
    }
    Ok(words)
}
