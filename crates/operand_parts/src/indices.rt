//! Elements, by indices.

ghost use Rattle.std.specs.Prelude.{◌≡◌, IfOk, Some};
ghost use Rattle.std.specs.Option.{option_map};
ghost use Rattle.type_faults.specs.Given.{both};
ghost use Rattle.type_faults.specs.Faults.{fault};
ghost use Rattle.type_faults.specs.declared.fault.FaultKind.TheVariants.{Unfit};
ghost use Rattle.typed.specs.View.{place_of as place_view};
ghost use Rattle.operators.specs.Passing.{operand_of};
ghost use Rattle.operand_parts.specs.Parts.{array_parts, place_then, number_step, index_step, element_of, indexed};
ghost use Rattle.typed_syntax.specs.Syntax.{inner, here};
ghost use Rattle.operand_parts.specs.Passing.{step_view, array_view};
ghost use Rattle.operand_parts.specs.PartFaults.{number_fault, constant_index_fault, step_fault, whole_fault, no_array_fault, indexed_fault, index_fault};

use base::{NoMemory, Pos, ValueType};
use constants::Constant;
use names::is_known;
use operators::{Operand, is_place};
use type_faults::{Fault, FaultKind};
use typed::{Expr, Place, Step, TypeTable};

/// An array type, by its length and the type of its elements.
#[derive(Clone, Copy, Debug, PartialEq, Eq)]
struct ArrayType {
    length: u64,
    element: ValueType,
}

/// The length and the elements of an array type that the table has.
fn array_parts(types: &TypeTable, value_type: ValueType) -> Option<ArrayType>
    ensures { option_map array_view result ≡ array_parts types.now value_type }
{
    match value_type {
        ValueType::Array(length, element) if is_known(types, value_type) => Some(ArrayType {
            length,
            element: types.type_at(element),
        }),
        _ => None,
    }
}

/// The number of an element, by a constant index.
fn element_number(length: u64, index: i128) -> Option<u32>
    ensures { option_map (λ n. inner n here) result ≡ number_step length index }
{
    match u32::try_from(index) {
        Ok(number) if u64::from(number) < length => Some(number),
        _ => None,
    }
}

/// The step to an element of an array of a length: a constant index is one of its numbers, any other is looked at when the program runs.
fn index_step(pos: Pos, length: u64, index: Operand) -> Option<Step>
    ensures { option_map step_view result ≡ index_step pos length (operand_of index) }
{
    match index {
        Operand::Constant(fixed) => match fixed.value {
            Constant::Number(value) => Some(Step::Inner(element_number(length, value)?)),
            Constant::Truth(_) => None,
        },
        Operand::Value(ValueType::Int, value) => Some(Step::Index(pos, value, length)),
        _ => None,
    }
}

/// A place, one step further.
#[tactic(auto, using(typed::proofs::Rows::expr_rows, crate::proofs::Steps::steps_push))]
fn place_with(place: Place, step: Step) -> Result<Place, NoMemory>
    ensures { IfOk result (λ q. place_view q ≡ place_then (place_view place) (step_view step)) }
{
    match place {
        Place::Local(site, mut steps) => {
            steps.push(step)?;
            Ok(Place::Local(site, steps))
        }
        Place::Global(global, mut steps) => {
            steps.push(step)?;
            Ok(Place::Global(global, steps))
        }
        Place::Indirect(pos, pointer, target, mut steps) => {
            steps.push(step)?;
            Ok(Place::Indirect(pos, pointer, target, steps))
        }
        Place::SliceElement(pos, slice, index, element, mut steps) => {
            steps.push(step)?;
            Ok(Place::SliceElement(pos, slice, index, element, steps))
        }
    }
}

/// The element of an array that is a place, by an index in brackets at a position.
fn element_of(
    pos: Pos,
    place: Place,
    index: Operand,
    array: ArrayType,
) -> Result<Option<Operand>, NoMemory>
    ensures { IfOk result (λ o. option_map operand_of o
        ≡ element_of pos (place_view place) (operand_of index) (array_view array)) }
{
    let Some(step) = index_step(pos, array.length, index) else {
        drop(place);
        return Ok(None);
    };
    let element = place_with(place, step)?;
    Ok(Some(Operand::Value(array.element, Expr::Read(element))))
}

/// The element of an operand by another one: the operand is an array that is a place.
#[tactic(auto, using(typed::proofs::Rows::expr_rows))]
fn element_at(
    types: &TypeTable,
    pos: Pos,
    whole: Operand,
    index: Operand,
) -> Result<Option<Operand>, NoMemory>
    ensures { IfOk result (λ o. option_map operand_of o ≡ indexed types.now pos (operand_of whole) (operand_of index)) }
{
    match whole {
        Operand::Value(value_type, Expr::Read(place)) => match array_parts(types, value_type) {
            Some(array) => element_of(pos, place, index, array),
            None => {
                drop(place);
                drop(index);
                Ok(None)
            }
        },
        whole => {
            drop(whole);
            drop(index);
            Ok(None)
        }
    }
}

/// The element of an array by an index in brackets at a position, where both are there and the array is a place.
pub fn indexed(
    types: &TypeTable,
    pos: Pos,
    whole: Option<Operand>,
    index: Option<Operand>,
) -> Result<Option<Operand>, NoMemory>
    ensures { IfOk result (λ o. option_map operand_of o
        ≡ both (indexed types.now pos) (option_map operand_of whole) (option_map operand_of index)) }
{
    match (whole, index) {
        (Some(whole), Some(index)) => element_at(types, pos, whole, index),
        _ => Ok(None),
    }
}

fn unfit(pos: Pos) -> Option<Fault>
    ensures { result ≡ Some (fault Unfit pos) }
{
    Some(Fault {
        kind: FaultKind::Unfit,
        pos,
    })
}

/// The fault of a constant index.
fn constant_index_fault(first_pos: Pos, length: u64, index: Constant) -> Option<Fault>
    ensures { result ≡ constant_index_fault first_pos length index }
{
    match index {
        Constant::Number(value) => match element_number(length, value) {
            Some(_) => None,
            None => Some(Fault {
                kind: FaultKind::ConstIndex,
                pos: first_pos,
            }),
        },
        Constant::Truth(_) => unfit(first_pos),
    }
}

/// The fault of an index of an array of a length: a constant out of range, or what is no int.
fn step_fault(first_pos: Pos, length: u64, index: &Option<Operand>) -> Option<Fault>
    ensures { result ≡ step_fault first_pos length (option_map operand_of index.now) }
{
    match index {
        None | Some(Operand::Value(ValueType::Int, _)) => None,
        Some(Operand::Constant(fixed)) => constant_index_fault(first_pos, length, fixed.value),
        Some(_) => unfit(first_pos),
    }
}

/// The fault of an index where no array stands before the brackets.
fn no_array_fault(first_pos: Pos, index: &Option<Operand>) -> Option<Fault>
    ensures { result ≡ no_array_fault first_pos (option_map operand_of index.now) }
{
    match index {
        Some(_) => unfit(first_pos),
        None => None,
    }
}

/// The fault of an index, by the array that stands before the brackets: one that is no place is left out, whatever the index.
fn whole_fault(
    first_pos: Pos,
    is_place: bool,
    array: Option<ArrayType>,
    index: &Option<Operand>,
) -> Option<Fault>
    ensures { result ≡ whole_fault first_pos is_place (option_map array_view array) (option_map operand_of index.now) }
{
    match array {
        None => no_array_fault(first_pos, index),
        Some(array) if is_place => step_fault(first_pos, array.length, index),
        Some(_) => Some(Fault {
            kind: FaultKind::OutOfProfile,
            pos: first_pos,
        }),
    }
}

fn indexed_fault(
    types: &TypeTable,
    first_pos: Pos,
    whole: &Operand,
    index: &Option<Operand>,
) -> Option<Fault>
    ensures { result ≡ indexed_fault types.now first_pos (operand_of whole.now) (option_map operand_of index.now) }
{
    match whole {
        Operand::Value(value_type, _) => {
            let array = array_parts(types, *value_type);
            whole_fault(first_pos, is_place(whole), array, index)
        }
        _ => no_array_fault(first_pos, index),
    }
}

/// The rule of an index that fails, of an operand that begins at a place: no array, an array that is no place, an index that is no int, or a
/// constant one out of range.
pub fn index_fault(
    types: &TypeTable,
    first_pos: Pos,
    whole: &Option<Operand>,
    index: &Option<Operand>,
) -> Option<Fault>
    ensures { result ≡ index_fault types.now first_pos (option_map operand_of whole.now) (option_map operand_of index.now) }
{
    match whole {
        Some(whole) => indexed_fault(types, first_pos, whole, index),
        None => None,
    }
}
