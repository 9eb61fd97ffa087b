//! The values of constants and the types of variables.

ghost use Rattle.std.specs.Prelude.{◌≡◌, IfOk, OnOk, ℕ, None, length, slice_get, option_and_then, ◌==◌};
ghost use Rattle.std.specs.Option.{option_map};
ghost use Rattle.syntax.specs.Expressions.{exs_of};
ghost use Rattle.syntax.specs.Declarations.{declarations_of};
ghost use Rattle.type_faults.specs.Given.{allowed};
ghost use Rattle.components.specs.Components.{component_lists};
ghost use Rattle.names.specs.Scope.{scope_of, known};
ghost use Rattle.names.specs.declared.scope.Known.TheVariants.{Constant as ConstantKnown, Variable as VariableKnown};
ghost use Rattle.given_values.specs.Given.{many};
ghost use Rattle.given_values.specs.Passing.{gives_of, seens};
ghost use Rattle.expression_types.specs.Passing.{type_before};
ghost use Rattle.operators.specs.Passing.{operand_of};
ghost use Rattle.package_values.specs.Values.{as_constant, constant_in, with_type, accepted_before, given_by, initial_type, variable_type, given, settled, items_in};
ghost use Rattle.package_values.specs.Passing.{item_of, item_views, given_at, each_given, all_given};

use crate::items::{Item, Role, items_in};
use crate::needs::mentioned;
use base::{NoMemory, ValueType, same_type};
use components::{Component, strong_components};
use constants::{Fixed, constant_type, is_held};
use expression_types::{Stated, check_before, check_early, check_expr, check_list, check_stated};
use given_values::{Gives, many_types, own_type};
use names::{Known, Scope, ValueId};
use operators::Operand;
use std::alloc::Global;
use syntax::{Decl, Expr};

/// The constant that an expression gives.
pub fn constant_in(gives: &Option<Gives>) -> Option<Fixed>
    ensures { result ≡ constant_in (option_map gives_of gives.now) }
{
    match gives {
        Some(Gives::One(Operand::Constant(fixed))) => Some(*fixed),
        _ => None,
    }
}

/// The constant that an operand is.
fn constant_of(operand: &Option<Operand>) -> Option<Fixed>
    ensures { result ≡ option_and_then as_constant (option_map operand_of operand.now) }
{
    match operand {
        Some(Operand::Constant(fixed)) => Some(*fixed),
        _ => None,
    }
}

/// A constant of a declaration with a type, which holds it.
fn with_type(value_type: ValueType, fixed: Fixed) -> Option<Fixed>
    ensures { result ≡ with_type value_type fixed }
{
    if same_type(value_type, constant_type(fixed)) && is_held(Some(value_type), fixed.value) {
        Some(Fixed {
            value_type: Some(value_type),
            value: fixed.value,
        })
    } else {
        None
    }
}

/// A constant of a declaration, by the type that stands before its names, if one does.
fn accepted(stated: &Option<Stated>, fixed: Fixed) -> Option<Fixed>
    ensures { result ≡ accepted_before (type_before stated.now) fixed }
{
    match stated {
        None => Some(fixed),
        Some(stated) => match stated.value_type {
            Some(value_type) => with_type(value_type, fixed),
            None => None,
        },
    }
}

/// The value of a constant, as far as the constants are known in a scope.
fn constant_value(
    alloc: Global,
    text: &[u8],
    scope: &Scope,
    item: &Item,
) -> Result<Option<Fixed>, NoMemory>
    ensures { IfOk result (λ r. r ≡ given_by text.now (scope_of scope.now) (item_of item.now).type_expr
        (item_of item.now).value) }
{
    let Some(value) = item.value else {
        return Ok(None);
    };
    let checked = check_early(alloc, text, scope, value)?;
    let fixed = constant_of(&checked.operand);
    drop(checked);
    match fixed {
        Some(fixed) => {
            let stated = check_before(alloc, text, scope, item.type_expr)?;
            Ok(accepted(&stated, fixed))
        }
        None => Ok(None),
    }
}

/// The type at a place of the call that stands alone, where it has as many results as there are names.
fn nth_type(items: &[given_values::Item], names: usize, place: usize) -> Option<ValueType>
    ensures { result ≡ option_and_then (λ m. allowed (length m.types == names) (slice_get m.types place))
        (many (seens items.now)) }
{
    match many_types(items) {
        Some((_, types)) if types.len() == names => types.get(place).copied(),
        _ => None,
    }
}

/// The type of a result of the call that stands alone, where it has as many as there are names.
fn result_type(
    alloc: Global,
    text: &[u8],
    scope: &Scope,
    values: &[Expr],
    names: usize,
    place: usize,
) -> Result<Option<ValueType>, NoMemory>
    ensures { IfOk result (λ r. r ≡ initial_type text.now (scope_of scope.now) None (exs_of values.now) names place) }
{
    let listed = check_list(alloc, text, scope, values)?;
    let value_type = nth_type(&listed.items, names, place);
    drop(listed);
    Ok(value_type)
}

/// The type that the values of a declaration give a variable.
fn initial_type(
    alloc: Global,
    text: &[u8],
    scope: &Scope,
    item: &Item,
) -> Result<Option<ValueType>, NoMemory>
    ensures { IfOk result (λ r. r ≡ initial_type text.now (scope_of scope.now) (item_of item.now).value
        (item_of item.now).values (length (item_of item.now).names) (item_of item.now).place) }
{
    match item.value {
        Some(value) => {
            let checked = check_expr(alloc, text, scope, value)?;
            Ok(own_type(checked.gives))
        }
        None => result_type(
            alloc,
            text,
            scope,
            item.values,
            item.names.len(),
            item.place,
        ),
    }
}

/// The type of a variable, as far as types and constants are known in a scope: a type that stands there holds whatever the value.
fn variable_type(
    alloc: Global,
    text: &[u8],
    scope: &Scope,
    item: &Item,
) -> Result<Option<ValueType>, NoMemory>
    ensures { IfOk result (λ r. r ≡ variable_type text.now (scope_of scope.now) (item_of item.now).type_expr
        (item_of item.now).value (item_of item.now).values (length (item_of item.now).names) (item_of item.now).place) }
{
    match item.type_expr {
        Some(e) => Ok(check_stated(alloc, text, scope, e)?.value_type),
        None => initial_type(alloc, text, scope, item),
    }
}

/// What is known of a constant, as far as the constants are known in a scope.
fn constant_known(
    alloc: Global,
    text: &[u8],
    scope: &Scope,
    item: &Item,
) -> Result<Option<Known>, NoMemory>
    ensures { IfOk result (λ r. r ≡ option_map ConstantKnown
        (given_by text.now (scope_of scope.now) (item_of item.now).type_expr (item_of item.now).value)) }
{
    match constant_value(alloc, text, scope, item)? {
        Some(fixed) => Ok(Some(Known::Constant(fixed))),
        None => Ok(None),
    }
}

/// What is known of a variable, as far as types and constants are known in a scope.
fn variable_known(
    alloc: Global,
    text: &[u8],
    scope: &Scope,
    item: &Item,
) -> Result<Option<Known>, NoMemory>
    ensures { IfOk result (λ r. r ≡ option_map VariableKnown
        (variable_type text.now (scope_of scope.now) (item_of item.now).type_expr (item_of item.now).value
        (item_of item.now).values (length (item_of item.now).names) (item_of item.now).place)) }
{
    match variable_type(alloc, text, scope, item)? {
        Some(value_type) => Ok(Some(Known::Variable(value_type))),
        None => Ok(None),
    }
}

/// What is known of a constant or variable, as far as the others are known in a scope.
fn given(alloc: Global, text: &[u8], scope: &Scope, item: &Item) -> Result<Option<Known>, NoMemory>
    ensures { IfOk result (λ r. r ≡ given text.now (scope_of scope.now) (item_of item.now)) }
{
    match item.role {
        Role::Constant => constant_known(alloc, text, scope, item),
        Role::Variable => variable_known(alloc, text, scope, item),
    }
}

/// What is known of the one of a number, as far as the others are known in a scope.
fn given_at(
    alloc: Global,
    text: &[u8],
    scope: &Scope,
    items: &[Item],
    number: u32,
) -> Result<Option<Known>, NoMemory>
    ensures { IfOk result (λ r. r ≡ given_at text.now (item_views items.now) (scope_of scope.now) number) }
{
    match items.get(number as usize) {
        Some(item) => given(alloc, text, scope, item),
        None => Ok(None),
    }
}

/// Says what is known of those of these numbers, one after the other.
fn settle_each(
    alloc: Global,
    text: &[u8],
    scope: &mut Scope,
    items: &[Item],
    numbers: &[u32],
) -> Result<(), NoMemory>
    ensures { OnOk result (scope_of scope.new ≡ each_given text.now (item_views items.now) (scope_of scope.old) numbers.now) }
{
    for number in numbers {
        let known = given_at(alloc, text, scope, items, *number)?;
        scope.set_known(ValueId(*number), known);
    }
    Ok(())
}

/// The same for the nodes of components.
fn settle_all(
    alloc: Global,
    text: &[u8],
    scope: &mut Scope,
    items: &[Item],
    components: &[Component],
) -> Result<(), NoMemory>
    ensures { OnOk result (scope_of scope.new
        ≡ all_given text.now (item_views items.now) (scope_of scope.old) (component_lists components.now)) }
{
    for component in components {
        settle_each(alloc, text, scope, items, &component.nodes)?;
    }
    Ok(())
}

/// Works out the constants and the types of the variables of a package, each after those that it names: what looks at all of them would find,
/// as often as there are some.
pub fn settle(alloc: Global, text: &[u8], scope: &mut Scope, decls: &[Decl]) -> Result<(), NoMemory>
    requires as_many { length (scope_of scope.old).values ≡ length (items_in (declarations_of decls.now)) }
    requires unknown { (k : ℕ) → known (scope_of scope.old) k ≡ None }
    ensures { OnOk result (scope_of scope.new ≡ settled text.now (scope_of scope.old) (items_in (declarations_of decls.now))) }
{
    let items = items_in(alloc, decls)?;
    let named = mentioned(alloc, text, scope, &items)?;
    let found = strong_components(alloc, &named)?;
    settle_all(alloc, text, scope, &items, &found.components)?;
    Ok(())
}
