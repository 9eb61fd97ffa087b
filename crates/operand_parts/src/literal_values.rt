//! The values of composite literals, by those of their elements.

ghost use Rattle.std.specs.Prelude.{◌≡◌, IfOk, map};
ghost use Rattle.std.specs.Option.{option_map};
ghost use Rattle.type_faults.specs.Given.{with_last};
ghost use Rattle.type_faults.specs.Least.{IsLeast};
ghost use Rattle.operators.specs.Passing.{operand_of};
ghost use Rattle.operand_parts.specs.LiteralValues.{taken_as, value_of_part, part_values, composed, held_fault, taking_fault, placed_fault, ElementsFail};
ghost use Rattle.operand_parts.specs.Passing.{placeds, part_value_of};

use base::{NoMemory, Pos, ValueType};
use names::{Part, type_id};
use operators::{Operand, as_value, constant_range_fault, is_assignable};
use std::alloc::Global;
use type_faults::{Fault, FaultKind, lesser};
use typed::{Element, Expr, TypeTable};

/// An element of a composite literal: the part of the whole that it stands for, where that is known, its first byte, and its value, where it
/// has one.
#[derive(Drop)]
pub struct Placed {
    pub part: Option<Part>,
    pub pos: Pos,
    pub operand: Option<Operand>,
}

/// An operand as the value of a part that takes it.
fn taken_as(part: Part, operand: Operand) -> Option<Element>
    ensures { option_map part_value_of result ≡ taken_as part (operand_of operand) }
{
    if is_assignable(part.value_type, &operand) {
        let value = as_value(operand)?;
        Some(Element::For(part.number, value))
    } else {
        None
    }
}

/// The value of an element that its part takes.
fn value_of_part(part: Option<Part>, operand: Option<Operand>) -> Option<Element>
    ensures { option_map part_value_of result ≡ value_of_part part (option_map operand_of operand) }
{
    match (part, operand) {
        (Some(part), Some(operand)) => taken_as(part, operand),
        _ => None,
    }
}

/// One more value, where all are some.
fn with_last(
    values: Option<Vec<Element>>,
    last: Option<Element>,
) -> Result<Option<Vec<Element>>, NoMemory>
    ensures { IfOk result (λ r. option_map (λ v. v.items) r ≡ with_last (option_map (λ v. v.items) values) last) }
{
    match (values, last) {
        (Some(mut values), Some(last)) => {
            values.push(last)?;
            Ok(Some(values))
        }
        (values, last) => {
            drop(values);
            drop(last);
            Ok(None)
        }
    }
}

/// The values of all elements, where each has one.
fn part_values(alloc: Global, placed: Vec<Placed>) -> Result<Option<Vec<Element>>, NoMemory>
    ensures { IfOk result (λ r. option_map (λ v. map part_value_of v.items) r ≡ part_values (placeds placed.items)) }
{
    let mut values = Some(Vec::new(alloc));
    for element in placed {
        values = with_last(values, value_of_part(element.part, element.operand))?;
    }
    Ok(values)
}

/// What a literal of a type gives, by whether its form fits and by its elements: a value, where each part takes its own.
#[tactic(auto, using(typed::proofs::Rows::expr_rows, crate::proofs::ElementValues::elements_are))]
pub fn composed(
    alloc: Global,
    types: &TypeTable,
    whole: ValueType,
    fits: bool,
    placed: Vec<Placed>,
) -> Result<Option<Operand>, NoMemory>
    ensures { IfOk result (λ r. option_map operand_of r ≡ composed types.now whole fits (placeds placed.items)) }
{
    if !fits {
        drop(placed);
        return Ok(None);
    }
    match part_values(alloc, placed)? {
        Some(values) => {
            let literal = Expr::Literal(type_id(types, whole), values);
            Ok(Some(Operand::Value(whole, literal)))
        }
        None => Ok(None),
    }
}

/// The fault of a constant that its type does not hold.
fn held_fault(pos: Pos, operand: &Operand) -> Option<Fault>
    ensures { result ≡ held_fault pos (operand_of operand.now) }
{
    match operand {
        Operand::Constant(fixed) => constant_range_fault(pos, fixed.value),
        _ => None,
    }
}

/// The fault of a value of another type than its part, or of one that is no value of it.
fn taking_fault(pos: Pos, value_type: ValueType, operand: &Operand) -> Option<Fault>
    ensures { result ≡ taking_fault pos value_type (operand_of operand.now) }
{
    if is_assignable(value_type, operand) {
        held_fault(pos, operand)
    } else {
        Some(Fault {
            kind: FaultKind::Mismatch,
            pos,
        })
    }
}

/// The fault of the value of an element, where its part is known and it has one.
fn placed_fault(element: &Placed) -> Option<Fault>
    ensures { result ≡ placed_fault element.now.pos element.now.part (option_map operand_of element.now.operand) }
{
    match (&element.part, &element.operand) {
        (Some(part), Some(operand)) => taking_fault(element.pos, part.value_type, operand),
        _ => None,
    }
}

/// The least fault of the values of elements.
pub fn elements_fault(placed: &[Placed]) -> Option<Fault>
    ensures { IsLeast (ElementsFail (placeds placed.now)) result }
{
    let mut fault = None;
    for element in placed {
        fault = lesser(fault, placed_fault(element));
    }
    fault
}
