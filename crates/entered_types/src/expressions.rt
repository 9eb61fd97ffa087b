//! The array types in expressions and types.

ghost use Rattle.std.specs.Prelude.{◌≡◌, OnOk, IfOk, option_and_then};
ghost use Rattle.std.specs.Option.{option_map};
ghost use Rattle.syntax.specs.Expressions.{ex_of as tree_of, exs_of as trees_of, ex_in, bound_of, elements_of, spelled};
ghost use Rattle.operators.specs.Passing.{operand_of};
ghost use Rattle.operand_parts.specs.ArrayTypes.{length_of};
ghost use Rattle.names.specs.Scope.{scope_of, declaration};
ghost use Rattle.names.specs.Types.{declared_type};
ghost use Rattle.entered_types.specs.Entered.{with_array, length_in, entered, stated_after, entered_each, entered_bound};
ghost use Rattle.entered_types.specs.Entered.{entered_elements, entered_some};
ghost use Rattle.expression_types.specs.Passing.{element_value};

use base::{NoMemory, ValueType};
use expression_types::check_early;
use names::{Scope, declared_type, spelled};
use operand_parts::{array_with, length_of};
use operators::Operand;
use std::alloc::Global;
use syntax::{Bound, Element, Expr, Name};
use typed::{TableFault, TypeTable};

/// Enters the type of arrays of a length and of elements of a type, where both are known and the table doesn't refuse it.
fn enter_array(
    types: &mut TypeTable,
    length: Option<u64>,
    element: Option<ValueType>,
) -> Result<(), NoMemory>
    ensures { OnOk result (types.new ≡ with_array types.old length element) }
{
    let (Some(length), Some(element)) = (length, element) else {
        return Ok(());
    };
    let Some(number) = types.find(element) else {
        return Ok(());
    };
    match types.enter(ValueType::Array(length, number)) {
        Ok(_) => Ok(()),
        Err(TableFault::Empty) => Ok(()),
        Err(TableFault::TooLarge) => Ok(()),
        Err(TableFault::NoMemory) => Err(NoMemory),
    }
}

/// The length of arrays that an operand is, if there is one.
fn length_in(operand: &Option<Operand>) -> Option<u64>
    ensures { result ≡ option_and_then length_of (option_map operand_of operand.now) }
{
    match operand {
        Some(operand) => length_of(operand),
        None => None,
    }
}

/// The type that a name is.
fn named_type(text: &[u8], scope: &Scope, name: Name) -> Option<ValueType>
    ensures { result ≡ declared_type (scope_of scope.now).types (declaration (scope_of scope.now) (spelled text.now name)) }
{
    declared_type(&scope.types, scope.declaration(spelled(text, name)))
}

/// Enters the array types in an expression or a type.
#[cycle(entering)]
#[tactic(auto, using(syntax::proofs::Views::expr_rows))]
pub fn enter_expr(alloc: Global, text: &[u8], scope: &mut Scope, e: &Expr) -> Result<(), NoMemory>
    ensures { OnOk result (scope_of scope.new ≡ entered text.now (scope_of scope.old) (tree_of e.now)) }
{
    match e {
        Expr::Int(_, _) => Ok(()),
        Expr::String(_, _) => Ok(()),
        Expr::Name(_) => Ok(()),
        Expr::Unary(_, _, inner) => enter_expr(alloc, text, scope, inner),
        Expr::Binary(_, _, left, right) => {
            enter_expr(alloc, text, scope, left)?;
            enter_expr(alloc, text, scope, right)
        }
        Expr::Paren(_, inner) => enter_expr(alloc, text, scope, inner),
        Expr::Call(function, arguments, _) => {
            enter_expr(alloc, text, scope, function)?;
            enter_each(alloc, text, scope, arguments)
        }
        Expr::Selector(value, _, _) => enter_expr(alloc, text, scope, value),
        Expr::Index(whole, _, index) => {
            enter_expr(alloc, text, scope, whole)?;
            enter_expr(alloc, text, scope, index)
        }
        Expr::Slice(value, _, low, high) => {
            enter_expr(alloc, text, scope, value)?;
            enter_bound(alloc, text, scope, low)?;
            enter_bound(alloc, text, scope, high)
        }
        Expr::ArrayType(_, length, element) => {
            let length = enter_length(alloc, text, scope, length)?;
            let element = enter_type(alloc, text, scope, element)?;
            enter_array(&mut scope.types, length, element)
        }
        Expr::SliceType(_, element) => enter_expr(alloc, text, scope, element),
        Expr::Literal(type_expr, list) => {
            enter_expr(alloc, text, scope, type_expr)?;
            enter_elements(alloc, text, scope, list)
        }
        Expr::Elements(_, list) => enter_elements(alloc, text, scope, list),
    }
}

/// Enters the array types in an expression or a type, and answers the type that it states.
#[cycle(entering)]
#[tactic(auto, using(syntax::proofs::Views::expr_rows))]
fn enter_type(
    alloc: Global,
    text: &[u8],
    scope: &mut Scope,
    e: &Expr,
) -> Result<Option<ValueType>, NoMemory>
    ensures entered { OnOk result (scope_of scope.new ≡ entered text.now (scope_of scope.old) (tree_of e.now)) }
    ensures stated { IfOk result (λ t. t ≡ stated_after text.now (scope_of scope.old) (tree_of e.now)) }
{
    match e {
        Expr::Name(name) => Ok(named_type(text, scope, *name)),
        Expr::Paren(_, inner) => enter_type(alloc, text, scope, inner),
        Expr::ArrayType(_, length, element) => {
            let length = enter_length(alloc, text, scope, length)?;
            let element = enter_type(alloc, text, scope, element)?;
            enter_array(&mut scope.types, length, element)?;
            Ok(array_with(&scope.types, length, element))
        }
        _ => {
            enter_expr(alloc, text, scope, e)?;
            Ok(None)
        }
    }
}

/// Enters the array types in the length of an array type, and answers the length.
#[cycle(entering)]
#[tactic(auto, unfolding(crate::specs::Entered::length_in))]
fn enter_length(
    alloc: Global,
    text: &[u8],
    scope: &mut Scope,
    e: &Expr,
) -> Result<Option<u64>, NoMemory>
    ensures entered { OnOk result (scope_of scope.new ≡ entered text.now (scope_of scope.old) (tree_of e.now)) }
    ensures length { IfOk result
        (λ n. n ≡ length_in text.now (entered text.now (scope_of scope.old) (tree_of e.now)) (tree_of e.now)) }
{
    enter_expr(alloc, text, scope, e)?;
    let checked = check_early(alloc, text, scope, e)?;
    Ok(length_in(&checked.operand))
}

/// Enters the array types in expressions or types side by side.
#[cycle(entering)]
pub fn enter_each(
    alloc: Global,
    text: &[u8],
    scope: &mut Scope,
    es: &[Expr],
) -> Result<(), NoMemory>
    ensures { OnOk result (scope_of scope.new ≡ entered_each text.now (scope_of scope.old) (trees_of es.now)) }
{
    for e in es {
        enter_expr(alloc, text, scope, e)?;
    }
    Ok(())
}

#[cycle(entering)]
fn enter_bound(alloc: Global, text: &[u8], scope: &mut Scope, bound: &Bound) -> Result<(), NoMemory>
    ensures { OnOk result (scope_of scope.new ≡ entered_bound text.now (scope_of scope.old) (bound_of bound.now)) }
{
    match bound {
        Bound::Absent => Ok(()),
        Bound::At(e) => enter_expr(alloc, text, scope, e),
    }
}

/// Enters the array types in the elements of a composite literal.
#[cycle(entering)]
fn enter_elements(
    alloc: Global,
    text: &[u8],
    scope: &mut Scope,
    list: &[Element],
) -> Result<(), NoMemory>
    ensures { OnOk result (scope_of scope.new ≡ entered_elements text.now (scope_of scope.old) (elements_of list.now)) }
{
    for element in list {
        enter_element(alloc, text, scope, element)?;
    }
    Ok(())
}

#[cycle(entering)]
fn enter_element(
    alloc: Global,
    text: &[u8],
    scope: &mut Scope,
    element: &Element,
) -> Result<(), NoMemory>
    ensures { OnOk result (scope_of scope.new ≡ entered text.now (scope_of scope.old) (element_value element.now)) }
{
    match element {
        Element::Plain(e) => enter_expr(alloc, text, scope, e),
        Element::Keyed(_, e) => enter_expr(alloc, text, scope, e),
    }
}

/// Enters the array types in an expression or a type, where there is one.
pub fn enter_some(
    alloc: Global,
    text: &[u8],
    scope: &mut Scope,
    e: &Option<Expr>,
) -> Result<(), NoMemory>
    ensures { OnOk result (scope_of scope.new ≡ entered_some text.now (scope_of scope.old) (ex_in e.now)) }
{
    match e {
        Some(e) => enter_expr(alloc, text, scope, e),
        None => Ok(()),
    }
}
