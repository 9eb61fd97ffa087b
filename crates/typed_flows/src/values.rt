//! The values of expressions.

ghost use Rattle.std.specs.Prelude.{◌≡◌, map, IfOk};
ghost use Rattle.typed.specs.View.{bound_of, elements_of, ex_of, exs_of, exs_of_values, place_of, program_of, steps_of};
ghost use Rattle.value_flows.specs.View.{exs_of as flow_exs_of, val_of};
ghost use Rattle.value_flows.specs.Syntax as flow;
ghost use Rattle.typed_flows.specs.Values.{row, value, values, place_value, place_address, index_values, bound_value, element_values, arguments};

use crate::context::Context;
use crate::making::{
    behind, beside, copied, held, inside, new_variable, nothing, nothing_of, sent, to_heap, to_site,
};
use base::NoMemory;
use typed::{Bound, Element, Expr, Place, Step, Values as TypedValues};
use value_flows::{Target, Value, Values};

/// The value of an expression.
#[cycle(values)]
#[tactic(auto, using(typed::proofs::Rows::expr_rows, crate::proofs::Rows::flow_rows))]
pub fn value(context: Context<'_>, e: &Expr) -> Result<Value, NoMemory>
    ensures { IfOk result (λ v. val_of v ≡ value (program_of context.entry.program.now) (ex_of e.now)) }
{
    match e {
        Expr::Constant(_) | Expr::Nil(_) => Ok(nothing(context.alloc)),
        Expr::Read(place) => {
            let read = place_value(context, place)?;
            held(context.alloc, context.place_has(place), read)
        }
        Expr::Unary(_, a) | Expr::Len(a) | Expr::Cap(a) => {
            let a: &Expr = a;
            let mut operands = Vec::new(context.alloc);
            operands.push(value(context, a)?)?;
            nothing_of(context.alloc, operands)
        }
        Expr::Binary(_, _, a, b) | Expr::LogicalAnd(a, b) | Expr::LogicalOr(a, b) => {
            let a: &Expr = a;
            let b: &Expr = b;
            let mut operands = Vec::new(context.alloc);
            operands.push(value(context, a)?)?;
            operands.push(value(context, b)?)?;
            nothing_of(context.alloc, operands)
        }
        Expr::Call(f, arguments) => {
            let arguments: &TypedValues = arguments;
            let given = Box::new(context.alloc, values(context, arguments)?)?;
            Ok(Value::Call(*f, given))
        }
        Expr::Part(id, index, a) => {
            let a: &Expr = a;
            let all = value(context, a)?;
            held(context.alloc, context.part_has(*id, *index), all)
        }
        Expr::Literal(_, elements) => {
            let parts = element_values(context, elements)?;
            Ok(Value::Parts(parts))
        }
        Expr::AddressOf(place) => place_address(context, context.place_has(place), place),
        Expr::New(site) => Ok(Value::Address(*site)),
        Expr::NewLiteral(site, a) => {
            let a: &Expr = a;
            let mut stored = Vec::new(context.alloc);
            let literal = value(context, a)?;
            stored.push(sent(context.alloc, to_site(*site), literal)?)?;
            new_variable(context.alloc, stored, *site)
        }
        Expr::SliceLiteral(site, es) => {
            let stored = sent_values(context, to_site(*site), es)?;
            new_variable(context.alloc, stored, *site)
        }
        Expr::Make(_, site, count, room) => {
            let count: &Expr = count;
            let mut sizes = Vec::new(context.alloc);
            sizes.push(value(context, count)?)?;
            sizes.push(bound_value(context, room)?)?;
            new_variable(context.alloc, sizes, *site)
        }
        Expr::Append(site, a, es) => {
            let a: &Expr = a;
            let added = sent_values(context, to_heap(), es)?;
            let slice = value(context, a)?;
            beside(
                context.alloc,
                added,
                copied(context.alloc, context.site_has(*site), slice)?,
            )
        }
        Expr::AppendSlice(site, a, b) => {
            let a: &Expr = a;
            let b: &Expr = b;
            let has = context.site_has(*site);
            let mut added = Vec::new(context.alloc);
            let source = value(context, b)?;
            added.push(copied(context.alloc, has, source)?)?;
            let slice = value(context, a)?;
            beside(context.alloc, added, copied(context.alloc, has, slice)?)
        }
        Expr::Copy(id, a, b) => {
            let a: &Expr = a;
            let b: &Expr = b;
            let mut slices = Vec::new(context.alloc);
            slices.push(value(context, a)?)?;
            let source = value(context, b)?;
            slices.push(copied(context.alloc, context.has(*id), source)?)?;
            nothing_of(context.alloc, slices)
        }
        Expr::Slicing(_, _, a, low, high) => {
            let a: &Expr = a;
            let mut bounds = Vec::new(context.alloc);
            bounds.push(bound_value(context, low)?)?;
            bounds.push(bound_value(context, high)?)?;
            beside(context.alloc, bounds, value(context, a)?)
        }
        Expr::ArraySlicing(_, place, _, low, high) => {
            let mut bounds = Vec::new(context.alloc);
            bounds.push(bound_value(context, low)?)?;
            bounds.push(bound_value(context, high)?)?;
            beside(
                context.alloc,
                bounds,
                place_address(context, context.place_has(place), place)?,
            )
        }
    }
}

/// The value of a bound; where there is none, nothing.
#[cycle(values)]
#[tactic(auto, using(typed::proofs::Rows::expr_rows))]
fn bound_value(context: Context<'_>, bound: &Bound) -> Result<Value, NoMemory>
    ensures { IfOk result (λ v. val_of v ≡ bound_value (program_of context.entry.program.now) (bound_of bound.now)) }
{
    match bound {
        Bound::Absent => Ok(nothing(context.alloc)),
        Bound::At(e) => {
            let e: &Expr = e;
            value(context, e)
        }
    }
}

/// The values of the indices among steps.
#[cycle(values)]
fn index_values(context: Context<'_>, steps: &[Step]) -> Result<Vec<Value>, NoMemory>
    ensures { IfOk result (λ all. map val_of all.items
        ≡ index_values (program_of context.entry.program.now) (steps_of steps.now)) }
{
    let mut all = Vec::new(context.alloc);
    for step in steps {
        match step {
            Step::Inner(_) => {}
            Step::Index(_, index, _) => all.push(value(context, index)?)?,
        }
    }
    Ok(all)
}

/// The values of the elements of a literal.
#[cycle(values)]
fn element_values(context: Context<'_>, elements: &[Element]) -> Result<Vec<Value>, NoMemory>
    ensures { IfOk result (λ all. map val_of all.items
        ≡ element_values (program_of context.entry.program.now) (elements_of elements.now)) }
{
    let mut all = Vec::new(context.alloc);
    for element in elements {
        let Element::For(_, e) = element;
        all.push(value(context, e)?)?;
    }
    Ok(all)
}

/// The values of expressions, each of which also goes to a target.
#[cycle(values)]
fn sent_values(context: Context<'_>, target: Target, es: &[Expr]) -> Result<Vec<Value>, NoMemory>
    ensures { IfOk result (λ all. map val_of all.items
        ≡ map (flow.sent target) (values (program_of context.entry.program.now) (exs_of es.now))) }
{
    let mut all = Vec::new(context.alloc);
    for e in es {
        let one = value(context, e)?;
        all.push(sent(context.alloc, target, one)?)?;
    }
    Ok(all)
}

/// The values of expressions.
#[cycle(values)]
fn each_value(context: Context<'_>, es: &[Expr]) -> Result<Vec<Value>, NoMemory>
    ensures { IfOk result (λ all. map val_of all.items
        ≡ values (program_of context.entry.program.now) (exs_of es.now)) }
{
    let mut all = Vec::new(context.alloc);
    for e in es {
        all.push(value(context, e)?)?;
    }
    Ok(all)
}

/// The values of an assignment, a call or a return.
#[cycle(values)]
#[tactic(auto, using(typed::proofs::Rows::expr_rows, crate::proofs::Rows::flow_rows, crate::proofs::Rows::each_is))]
pub fn values(context: Context<'_>, given: &TypedValues) -> Result<Values, NoMemory>
    ensures { IfOk result (λ v. flow_exs_of v ≡ arguments (program_of context.entry.program.now) (exs_of_values given.now)) }
{
    match given {
        TypedValues::Each(es) => {
            let all = each_value(context, es)?;
            Ok(Values::Each(all))
        }
        TypedValues::Results(f, arguments) => {
            let arguments: &TypedValues = arguments;
            let passed = Box::new(context.alloc, values(context, arguments)?)?;
            Ok(Values::Results(*f, passed))
        }
        TypedValues::ReadInt => {
            let mut all = Vec::new(context.alloc);
            all.push(nothing(context.alloc))?;
            all.push(nothing(context.alloc))?;
            Ok(Values::Each(all))
        }
    }
}

/// What is in a place.
#[cycle(values)]
#[tactic(auto, using(typed::proofs::Rows::expr_rows))]
pub fn place_value(context: Context<'_>, place: &Place) -> Result<Value, NoMemory>
    ensures { IfOk result (λ v. val_of v ≡ place_value (program_of context.entry.program.now) (place_of place.now)) }
{
    match place {
        Place::Local(site, steps) => {
            let others = index_values(context, steps)?;
            beside(context.alloc, others, Value::Variable(*site))
        }
        Place::Global(_, steps) => {
            let others = index_values(context, steps)?;
            nothing_of(context.alloc, others)
        }
        Place::Indirect(_, e, _, steps) => {
            let e: &Expr = e;
            let others = index_values(context, steps)?;
            let root = value(context, e)?;
            beside(context.alloc, others, behind(context.alloc, root)?)
        }
        Place::SliceElement(_, e, index, _, steps) => {
            let e: &Expr = e;
            let index: &Expr = index;
            let mut others = index_values(context, steps)?;
            others.push(value(context, index)?)?;
            let root = value(context, e)?;
            beside(context.alloc, others, behind(context.alloc, root)?)
        }
    }
}

/// The address of a place, in which there are pointers or not.
#[cycle(values)]
#[tactic(auto, using(typed::proofs::Rows::expr_rows))]
fn place_address(context: Context<'_>, has: bool, place: &Place) -> Result<Value, NoMemory>
    ensures { IfOk result (λ v. val_of v ≡ place_address (program_of context.entry.program.now) has (place_of place.now)) }
{
    match place {
        Place::Local(site, steps) => {
            let others = index_values(context, steps)?;
            beside(
                context.alloc,
                others,
                inside(context.alloc, has, Value::Address(*site))?,
            )
        }
        Place::Global(_, steps) => {
            let others = index_values(context, steps)?;
            nothing_of(context.alloc, others)
        }
        Place::Indirect(_, e, _, steps) => {
            let e: &Expr = e;
            let others = index_values(context, steps)?;
            let root = value(context, e)?;
            beside(context.alloc, others, inside(context.alloc, has, root)?)
        }
        Place::SliceElement(_, e, index, _, steps) => {
            let e: &Expr = e;
            let index: &Expr = index;
            let mut others = index_values(context, steps)?;
            others.push(value(context, index)?)?;
            let root = value(context, e)?;
            beside(context.alloc, others, inside(context.alloc, has, root)?)
        }
    }
}
