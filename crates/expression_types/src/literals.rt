//! Composite literals and the types that expressions state, of what is known of their parts.

ghost use Rattle.std.specs.Prelude.{◌≡◌, ◌+◌, IfOk, option_and_then};
ghost use Rattle.std.specs.Option.{option_map};
ghost use Rattle.syntax.specs.Expressions.{elements_of as tree_elements, name as name_of};
ghost use Rattle.type_faults.specs.Least.{IsLeast, lesser as least};
ghost use Rattle.operators.specs.Passing.{operand_of};
ghost use Rattle.names.specs.Scope.{scope_of};
ghost use Rattle.operand_parts.specs.ArrayTypes.{length_of, length_fault, array_fault, array_with};
ghost use Rattle.operand_parts.specs.LiteralFaults.{ShapeFails};
ghost use Rattle.operand_parts.specs.LiteralValues.{ElementsFail};
ghost use Rattle.operand_parts.specs.Passing.{placeds};
ghost use Rattle.expression_types.specs.Typing.{stated_type, literal_given};
ghost use Rattle.expression_types.specs.Faults.{StatedFails};
ghost use Rattle.given_values.specs.Passing.{gives_of};
ghost use Rattle.expression_types.specs.Passing.{key_in, IsLiteralFault};

use crate::expressions::{Checked, Single};
use base::{NoMemory, Pos, ValueType};
use given_values::Gives;
use names::{Scope, declared_type, spelled, type_name_fault};
use operand_parts::{
    Placed, array_fault, array_with, composed, elements_fault, length_fault, length_of,
    shape_fault, shape_fits,
};
use std::alloc::Global;
use syntax::{Element, Name};
use type_faults::{Fault, lesser};
use typed::TypeTable;

/// What is known of an expression as a type.
#[derive(Drop)]
pub struct Stated {
    pub value_type: Option<ValueType>,
    pub fault: Option<Fault>,
}

/// The elements of a literal, and the least fault in them.
#[derive(Drop)]
pub struct PlacedList {
    pub placed: Vec<Placed>,
    pub fault: Option<Fault>,
}

/// The name of a type.
pub fn stated_name(text: &[u8], scope: &Scope, name: Name) -> Stated
    ensures value_type { result.value_type ≡ stated_type text.now (scope_of scope.now) (name_of name) }
    ensures fault { IsLeast (StatedFails text.now (scope_of scope.now) (name_of name)) result.fault }
{
    let declared = scope.declaration(spelled(text, name));
    Stated {
        value_type: declared_type(&scope.types, declared),
        fault: type_name_fault(declared, name.pos),
    }
}

/// The length of arrays that an operand is, if there is one.
fn length_in(operand: &Option<operators::Operand>) -> Option<u64>
    ensures { result ≡ option_and_then length_of (option_map operand_of operand.now) }
{
    match operand {
        Some(operand) => length_of(operand),
        None => None,
    }
}

/// An array type, with its bracket at a place, of a length and the type of its elements.
pub fn array_of(types: &TypeTable, bracket: Pos, length: Single, element: Stated) -> Stated
    ensures value_type { result.value_type ≡ array_with types.now
        (option_and_then length_of (option_map operand_of length.operand)) element.value_type }
    ensures fault { result.fault ≡ least (least length.fault element.fault)
        (least (length_fault length.pos (option_map operand_of length.operand))
        (array_fault types.now bracket (option_and_then length_of (option_map operand_of length.operand)) element.value_type)) }
{
    let number = length_in(&length.operand);
    let own = length_fault(length.pos, &length.operand);
    let size = array_fault(types, bracket, number, element.value_type);
    Stated {
        value_type: array_with(types, number, element.value_type),
        fault: lesser(lesser(length.fault, element.fault), lesser(own, size)),
    }
}

/// The key of an element, where it has one.
pub fn key_of(element: &Element) -> Option<Name>
    ensures { result ≡ key_in element.now }
{
    match element {
        Element::Plain(_) => None,
        Element::Keyed(key, _) => Some(*key),
    }
}

/// The number of the next element.
pub fn next_number(number: u32) -> Result<u32, NoMemory>
    ensures { IfOk result (λ n. n ≡ 1 + number) }
{
    match number.checked_add(1) {
        Some(next) => Ok(next),
        None => Err(NoMemory),
    }
}

/// What a literal of a type or of none that is known gives.
fn literal_value(
    alloc: Global,
    text: &[u8],
    scope: &Scope,
    whole: Option<ValueType>,
    elements: &[Element],
    placed: Vec<Placed>,
) -> Result<Option<Gives>, NoMemory>
    ensures { IfOk result (λ r. option_map gives_of r
        ≡ literal_given text.now (scope_of scope.now) whole (tree_elements elements.now) (placeds placed.items)) }
{
    let Some(whole) = whole else {
        return Ok(None);
    };
    let fits = shape_fits(alloc, text, scope, whole, elements)?;
    match composed(alloc, &scope.types, whole, fits, placed)? {
        Some(operand) => Ok(Some(Gives::One(operand))),
        None => Ok(None),
    }
}

/// A literal that begins at a place, of a type or of none that is known, by its elements.
pub fn literal_of(
    alloc: Global,
    text: &[u8],
    scope: &Scope,
    first_pos: Pos,
    whole: Option<ValueType>,
    elements: &[Element],
    listed: PlacedList,
) -> Result<Checked, NoMemory>
    ensures pos { IfOk result (λ c. c.pos ≡ first_pos) }
    ensures gives { IfOk result (λ c. option_map gives_of c.gives
        ≡ literal_given text.now (scope_of scope.now) whole (tree_elements elements.now) (placeds listed.placed.items)) }
    ensures fault { IfOk result (λ c. IsLiteralFault
        (ShapeFails text.now (scope_of scope.now) first_pos whole (tree_elements elements.now))
        (ElementsFail (placeds listed.placed.items)) listed.fault c.fault) }
{
    let PlacedList { placed, fault } = listed;
    let shape = shape_fault(alloc, text, scope, first_pos, whole, elements)?;
    let own = elements_fault(&placed);
    let gives = literal_value(alloc, text, scope, whole, elements, placed)?;
    Ok(Checked {
        pos: first_pos,
        gives,
        fault: lesser(lesser(shape, fault), own),
    })
}

/// A literal, by its type and its elements.
pub fn typed_literal(stated: Stated, literal: Checked) -> Checked
    ensures pos { result.pos ≡ literal.pos }
    ensures gives { option_map gives_of result.gives ≡ option_map gives_of literal.gives }
    ensures fault { result.fault ≡ least stated.fault literal.fault }
{
    Checked {
        pos: literal.pos,
        gives: literal.gives,
        fault: lesser(stated.fault, literal.fault),
    }
}
