//! Whether a function is called where an expression is worked out.

ghost use Rattle.std.specs.Prelude.{◌≡◌};
ghost use Rattle.typed.specs.View.{ex_of, exs_of, bound_of, place_of, steps_of, elements_of};
ghost use Rattle.operand_calls.specs.Calls.{has_call, has_call_in_bound, has_call_in_each, has_call_in_place, has_call_in_steps, has_call_in_elements};

use typed::{Bound, Element, Expr, Place, Step};

/// Whether a function is called where an expression is worked out.
#[cycle(inside)]
#[tactic(auto, using(typed::proofs::Rows::expr_rows))]
pub fn has_call(e: &Expr) -> bool
    ensures { result ≡ has_call (ex_of e.now) }
{
    match e {
        Expr::Constant(_) | Expr::Nil(_) => false,
        Expr::Read(place) | Expr::AddressOf(place) => has_call_in_place(place),
        Expr::Unary(_, a) | Expr::Part(_, _, a) | Expr::NewLiteral(_, a) => {
            let a: &Expr = a;
            has_call(a)
        }
        Expr::Binary(_, _, a, b) | Expr::LogicalAnd(a, b) | Expr::LogicalOr(a, b) => {
            let a: &Expr = a;
            let b: &Expr = b;
            has_call(a) || has_call(b)
        }
        Expr::Literal(_, elements) => has_call_in_elements(elements),
        Expr::SliceLiteral(_, es) => has_call_in_each(es),
        Expr::Slicing(_, _, a, low, high) => {
            let a: &Expr = a;
            has_call(a) || has_call_in_bound(low) || has_call_in_bound(high)
        }
        Expr::ArraySlicing(_, place, _, low, high) => {
            has_call_in_place(place) || has_call_in_bound(low) || has_call_in_bound(high)
        }
        Expr::Call(_, _)
        | Expr::New(_)
        | Expr::Make(_, _, _, _)
        | Expr::Append(_, _, _)
        | Expr::AppendSlice(_, _, _)
        | Expr::Copy(_, _, _)
        | Expr::Len(_)
        | Expr::Cap(_) => true,
    }
}

#[cycle(inside)]
#[tactic(auto, using(typed::proofs::Rows::expr_rows))]
fn has_call_in_bound(bound: &Bound) -> bool
    ensures { result ≡ has_call_in_bound (bound_of bound.now) }
{
    match bound {
        Bound::Absent => false,
        Bound::At(e) => {
            let e: &Expr = e;
            has_call(e)
        }
    }
}

#[cycle(inside)]
fn has_call_in_each(es: &[Expr]) -> bool
    ensures { result ≡ has_call_in_each (exs_of es.now) }
{
    let mut found = false;
    for e in es {
        found = found || has_call(e);
    }
    found
}

#[cycle(inside)]
#[tactic(auto, using(typed::proofs::Rows::expr_rows))]
fn has_call_in_place(place: &Place) -> bool
    ensures { result ≡ has_call_in_place (place_of place.now) }
{
    match place {
        Place::Local(_, steps) => has_call_in_steps(steps),
        Place::Global(_, steps) => has_call_in_steps(steps),
        Place::Indirect(_, pointer, _, steps) => {
            let pointer: &Expr = pointer;
            has_call(pointer) || has_call_in_steps(steps)
        }
        Place::SliceElement(_, slice, index, _, steps) => {
            let slice: &Expr = slice;
            let index: &Expr = index;
            let in_steps = has_call_in_steps(steps);
            has_call(slice) || has_call(index) || in_steps
        }
    }
}

#[cycle(inside)]
fn has_call_in_steps(steps: &[Step]) -> bool
    ensures { result ≡ has_call_in_steps (steps_of steps.now) }
{
    let mut found = false;
    for step in steps {
        match step {
            Step::Inner(_) => {}
            Step::Index(_, index, _) => found = found || has_call(index),
        }
    }
    found
}

#[cycle(inside)]
fn has_call_in_elements(elements: &[Element]) -> bool
    ensures { result ≡ has_call_in_elements (elements_of elements.now) }
{
    let mut found = false;
    for element in elements {
        let Element::For(_, e) = element;
        found = found || has_call(e);
    }
    found
}
