//! The functions that a body calls, in the order of the text, by their numbers.

ghost use Rattle.std.specs.Prelude.{◌≡◌, [], ◌∷◌, ◌++◌, map, OnOk, IfOk};
ghost use Rattle.components.specs.Graph.{rows};
ghost use Rattle.typed.specs.View.{ex_of, exs_of, exs_of_values, place_of, bound_of, steps_of, elements_of, left_of, piece_of, test_of, st_of, sts_of, program_of};
ghost use Rattle.call_order.specs.Lists.{called, called_all, called_in_bound, called_in_place, called_in_steps, called_in_elements, called_in_left, called_in_lefts, called_in_piece, called_in_pieces, called_in_test, called_by, called_by_all, call_lists};

use base::NoMemory;
use std::alloc::Global;
use typed::{Bound, Element, Expr, Func, Left, Piece, Place, Program, Step, Stmt, Values};

/// Adds the calls in an expression.
#[cycle(values)]
#[tactic(auto, using(typed::proofs::Rows::expr_rows))]
fn add_expr(calls: &mut Vec<u32>, e: &Expr) -> Result<(), NoMemory>
    ensures { OnOk result (calls.new.items ≡ calls.old.items ++ called (ex_of e.now)) }
{
    match e {
        Expr::Constant(_) | Expr::Nil(_) | Expr::New(_) => Ok(()),
        Expr::Read(place) | Expr::AddressOf(place) => add_place(calls, place),
        Expr::Unary(_, a)
        | Expr::Part(_, _, a)
        | Expr::NewLiteral(_, a)
        | Expr::Len(a)
        | Expr::Cap(a) => {
            let a: &Expr = a;
            add_expr(calls, a)
        }
        Expr::Binary(_, _, a, b)
        | Expr::LogicalAnd(a, b)
        | Expr::LogicalOr(a, b)
        | Expr::AppendSlice(_, a, b)
        | Expr::Copy(_, a, b) => {
            let a: &Expr = a;
            let b: &Expr = b;
            add_expr(calls, a)?;
            add_expr(calls, b)
        }
        Expr::Call(f, arguments) => {
            let arguments: &Values = arguments;
            calls.push(f.0)?;
            add_values(calls, arguments)
        }
        Expr::Literal(_, elements) => add_elements(calls, elements),
        Expr::SliceLiteral(_, es) => add_exprs(calls, es),
        Expr::Append(_, a, es) => {
            let a: &Expr = a;
            add_expr(calls, a)?;
            add_exprs(calls, es)
        }
        Expr::Make(_, _, count, room) => {
            let count: &Expr = count;
            add_expr(calls, count)?;
            add_bound(calls, room)
        }
        Expr::Slicing(_, _, a, low, high) => {
            let a: &Expr = a;
            add_expr(calls, a)?;
            add_bound(calls, low)?;
            add_bound(calls, high)
        }
        Expr::ArraySlicing(_, place, _, low, high) => {
            add_place(calls, place)?;
            add_bound(calls, low)?;
            add_bound(calls, high)
        }
    }
}

/// Adds the calls in a bound.
#[cycle(values)]
#[tactic(auto, using(typed::proofs::Rows::expr_rows))]
fn add_bound(calls: &mut Vec<u32>, bound: &Bound) -> Result<(), NoMemory>
    ensures { OnOk result (calls.new.items ≡ calls.old.items ++ called_in_bound (bound_of bound.now)) }
{
    match bound {
        Bound::Absent => Ok(()),
        Bound::At(e) => {
            let e: &Expr = e;
            add_expr(calls, e)
        }
    }
}

/// Adds the calls in the operands of a place.
#[cycle(values)]
#[tactic(auto, using(typed::proofs::Rows::expr_rows))]
fn add_place(calls: &mut Vec<u32>, place: &Place) -> Result<(), NoMemory>
    ensures { OnOk result (calls.new.items ≡ calls.old.items ++ called_in_place (place_of place.now)) }
{
    match place {
        Place::Local(_, steps) => add_steps(calls, steps),
        Place::Global(_, steps) => add_steps(calls, steps),
        Place::Indirect(_, e, _, steps) => {
            let e: &Expr = e;
            add_steps(calls, steps)?;
            add_expr(calls, e)
        }
        Place::SliceElement(_, e, index, _, steps) => {
            let e: &Expr = e;
            let index: &Expr = index;
            add_steps(calls, steps)?;
            add_expr(calls, e)?;
            add_expr(calls, index)
        }
    }
}

/// Adds the calls in the indices of steps.
#[cycle(values)]
fn add_steps(calls: &mut Vec<u32>, steps: &[Step]) -> Result<(), NoMemory>
    ensures { OnOk result (calls.new.items ≡ calls.old.items ++ called_in_steps (steps_of steps.now)) }
{
    for step in steps {
        match step {
            Step::Inner(_) => {}
            Step::Index(_, index, _) => add_expr(calls, index)?,
        }
    }
    Ok(())
}

/// Adds the calls in the elements of a literal.
#[cycle(values)]
fn add_elements(calls: &mut Vec<u32>, elements: &[Element]) -> Result<(), NoMemory>
    ensures { OnOk result (calls.new.items ≡ calls.old.items ++ called_in_elements (elements_of elements.now)) }
{
    for element in elements {
        let Element::For(_, e) = element;
        add_expr(calls, e)?;
    }
    Ok(())
}

/// Adds the calls in values.
#[cycle(values)]
#[tactic(auto, using(typed::proofs::Rows::expr_rows))]
fn add_values(calls: &mut Vec<u32>, values: &Values) -> Result<(), NoMemory>
    ensures { OnOk result (calls.new.items ≡ calls.old.items ++ called_all (exs_of_values values.now)) }
{
    match values {
        Values::Each(es) => add_exprs(calls, es),
        Values::Results(f, arguments) => {
            let arguments: &Values = arguments;
            calls.push(f.0)?;
            add_values(calls, arguments)
        }
        Values::ReadInt => Ok(()),
    }
}

/// Adds the calls in some expressions.
#[cycle(values)]
fn add_exprs(calls: &mut Vec<u32>, es: &[Expr]) -> Result<(), NoMemory>
    ensures { OnOk result (calls.new.items ≡ calls.old.items ++ called_all (exs_of es.now)) }
{
    for e in es {
        add_expr(calls, e)?;
    }
    Ok(())
}

/// Adds the calls in the place of a left side.
fn add_left(calls: &mut Vec<u32>, left: &Left) -> Result<(), NoMemory>
    ensures { OnOk result (calls.new.items ≡ calls.old.items ++ called_in_left (left_of left.now)) }
{
    match left {
        Left::Blank => Ok(()),
        Left::New(_) => Ok(()),
        Left::To(place) => add_place(calls, place),
    }
}

/// Adds the calls in the places of left sides.
fn add_lefts(calls: &mut Vec<u32>, lefts: &[Left]) -> Result<(), NoMemory>
    ensures { OnOk result (calls.new.items ≡ calls.old.items ++ called_in_lefts (map left_of lefts.now)) }
{
    for left in lefts {
        add_left(calls, left)?;
    }
    Ok(())
}

/// Adds the calls in the places of the two left sides of a `range`.
fn add_pair(calls: &mut Vec<u32>, key: &Left, value: &Left) -> Result<(), NoMemory>
    ensures { OnOk result (calls.new.items ≡ calls.old.items ++ called_in_lefts (left_of key.now ∷ left_of value.now ∷ [])) }
{
    add_left(calls, key)?;
    add_left(calls, value)
}

/// Adds the calls in an operand of `print`, `println` or `panic`.
fn add_piece(calls: &mut Vec<u32>, p: &Piece) -> Result<(), NoMemory>
    ensures { OnOk result (calls.new.items ≡ calls.old.items ++ called_in_piece (piece_of p.now)) }
{
    match p {
        Piece::Text(_) => Ok(()),
        Piece::Shown(_, e) => add_expr(calls, e),
    }
}

/// Adds the calls in operands that are shown.
fn add_pieces(calls: &mut Vec<u32>, ps: &[Piece]) -> Result<(), NoMemory>
    ensures { OnOk result (calls.new.items ≡ calls.old.items ++ called_in_pieces (map piece_of ps.now)) }
{
    for p in ps {
        add_piece(calls, p)?;
    }
    Ok(())
}

/// Adds the calls in a condition, where there is one.
fn add_test(calls: &mut Vec<u32>, test: &Option<Expr>) -> Result<(), NoMemory>
    ensures { OnOk result (calls.new.items ≡ calls.old.items ++ called_in_test (test_of test.now)) }
{
    match test {
        None => Ok(()),
        Some(e) => add_expr(calls, e),
    }
}

/// Adds the calls in an assignment.
fn add_assign(calls: &mut Vec<u32>, lefts: &[Left], values: &Values) -> Result<(), NoMemory>
    ensures { OnOk result (calls.new.items ≡ calls.old.items
        ++ (called_in_lefts (map left_of lefts.now) ++ called_all (exs_of_values values.now))) }
{
    add_lefts(calls, lefts)?;
    add_values(calls, values)
}

/// Adds the calls in an assignment with an operator.
fn add_update(calls: &mut Vec<u32>, place: &Place, e: &Expr) -> Result<(), NoMemory>
    ensures { OnOk result (calls.new.items ≡ calls.old.items ++ (called_in_place (place_of place.now) ++ called (ex_of e.now))) }
{
    add_place(calls, place)?;
    add_expr(calls, e)
}

/// Adds the calls in a statement.
#[cycle(statements)]
#[tactic(auto, using(typed::proofs::Rows::stmt_rows))]
fn add_stmt(calls: &mut Vec<u32>, s: &Stmt) -> Result<(), NoMemory>
    ensures { OnOk result (calls.new.items ≡ calls.old.items ++ called_by (st_of s.now)) }
{
    match s {
        Stmt::Declare(_) | Stmt::Break | Stmt::Continue => Ok(()),
        Stmt::Assign(lefts, values) => add_assign(calls, lefts, values),
        Stmt::Update(_, place, _, e) => add_update(calls, place, e),
        Stmt::Bump(_, place, _) => add_place(calls, place),
        Stmt::Discard(values) | Stmt::Return(values) => add_values(calls, values),
        Stmt::Block(ss) => add_stmts(calls, ss),
        Stmt::If(e, a, b) => {
            add_expr(calls, e)?;
            add_stmts(calls, a)?;
            add_stmts(calls, b)
        }
        Stmt::For(_, test, post, body) => {
            add_test(calls, test)?;
            add_stmts(calls, post)?;
            add_stmts(calls, body)
        }
        Stmt::Count(e, key, body) => {
            add_expr(calls, e)?;
            add_pair(calls, key, &Left::Blank)?;
            add_stmts(calls, body)
        }
        Stmt::Indices(_, key, body) | Stmt::PointedIndices(_, key, body) => {
            add_pair(calls, key, &Left::Blank)?;
            add_stmts(calls, body)
        }
        Stmt::Elements(_, e, _, key, value, body)
        | Stmt::SliceElements(e, _, key, value, body)
        | Stmt::PointedElements(_, e, _, _, key, value, body) => {
            add_expr(calls, e)?;
            add_pair(calls, key, value)?;
            add_stmts(calls, body)
        }
        Stmt::Print(_, ps) => add_pieces(calls, ps),
        Stmt::Panic(_, p) => add_piece(calls, p),
        Stmt::Exit(_, e) => add_expr(calls, e),
    }
}

/// Adds the calls in statements.
#[cycle(statements)]
fn add_stmts(calls: &mut Vec<u32>, ss: &[Stmt]) -> Result<(), NoMemory>
    ensures { OnOk result (calls.new.items ≡ calls.old.items ++ called_by_all (sts_of ss.now)) }
{
    for s in ss {
        add_stmt(calls, s)?;
    }
    Ok(())
}

/// The functions that a function calls.
fn calls_of(alloc: Global, func: &Func) -> Result<Vec<u32>, NoMemory>
    ensures { IfOk result (λ v. v.items ≡ called_by_all (sts_of func.now.body.items)) }
{
    let mut calls = Vec::new(alloc);
    add_stmts(&mut calls, &func.body)?;
    Ok(calls)
}

/// The functions that each function of a program calls.
pub fn all_calls(alloc: Global, program: &Program) -> Result<Vec<Vec<u32>>, NoMemory>
    ensures { IfOk result (λ v. rows v.items ≡ call_lists (program_of program.now).funcs) }
{
    let funcs = program.funcs.as_slice();
    let mut all = Vec::new(alloc);
    for func in funcs {
        let calls = calls_of(alloc, func)?;
        all.push(calls)?;
    }
    Ok(all)
}
