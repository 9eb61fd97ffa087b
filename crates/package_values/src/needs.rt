//! Which constants and variables need others.

ghost use Rattle.std.specs.Prelude.{◌≡◌, ◌++◌, IfOk, OnOk, map, Option};
ghost use Rattle.std.specs.Option.{option_map};
ghost use Rattle.syntax.specs.Expressions.{ex_of, exs_of, ex_in, bound_of, elements_of, spelled};
ghost use Rattle.names.specs.Scope.{scope_of, declaration};
ghost use Rattle.package_values.specs.Needs.{names_in, names_in_each, names_in_bound, names_in_elements, names_in_some, names_waited, value_number, mentions, may_be_constant, has_form, have_form, waited_form, numbers_of, mentioned, needed_as, needed};
ghost use Rattle.package_values.specs.declared.items.Role.TheVariants.{Variable as VariableRole};
ghost use Rattle.package_values.specs.Passing.{item_of, item_views, names_in_element};
ghost use Rattle.components.specs.Graph.{rows};

use crate::items::{Item, Role};
use base::NoMemory;
use names::{Declared, Scope, spelled};
use std::alloc::Global;
use syntax::{Bound, Element, Expr, Name};

/// The names in an expression or a type, after others.
#[cycle(names)]
#[tactic(auto, using(syntax::proofs::Views::expr_rows))]
fn add_names(names: &mut Vec<Name>, e: &Expr) -> Result<(), NoMemory>
    ensures { OnOk result (names.new.items ≡ names.old.items ++ names_in (ex_of e.now)) }
{
    match e {
        Expr::Int(_, _) => Ok(()),
        Expr::String(_, _) => Ok(()),
        Expr::Name(name) => Ok(names.push(*name)?),
        Expr::Unary(_, _, inner) => add_names(names, inner),
        Expr::Binary(_, _, left, right) => {
            add_names(names, left)?;
            add_names(names, right)
        }
        Expr::Paren(_, inner) => add_names(names, inner),
        Expr::Call(function, arguments, _) => {
            add_names(names, function)?;
            add_names_in_each(names, arguments)
        }
        Expr::Selector(value, _, _) => add_names(names, value),
        Expr::Index(value, _, index) => {
            add_names(names, value)?;
            add_names(names, index)
        }
        Expr::Slice(value, _, low, high) => {
            add_names(names, value)?;
            add_names_in_bound(names, low)?;
            add_names_in_bound(names, high)
        }
        Expr::ArrayType(_, length, element) => {
            add_names(names, length)?;
            add_names(names, element)
        }
        Expr::SliceType(_, element) => add_names(names, element),
        Expr::Literal(type_expr, list) => {
            add_names(names, type_expr)?;
            add_names_in_elements(names, list)
        }
        Expr::Elements(_, list) => add_names_in_elements(names, list),
    }
}

#[cycle(names)]
fn add_names_in_each(names: &mut Vec<Name>, es: &[Expr]) -> Result<(), NoMemory>
    ensures { OnOk result (names.new.items ≡ names.old.items ++ names_in_each (exs_of es.now)) }
{
    for e in es {
        add_names(names, e)?;
    }
    Ok(())
}

#[cycle(names)]
fn add_names_in_bound(names: &mut Vec<Name>, bound: &Bound) -> Result<(), NoMemory>
    ensures { OnOk result (names.new.items ≡ names.old.items ++ names_in_bound (bound_of bound.now)) }
{
    match bound {
        Bound::Absent => Ok(()),
        Bound::At(e) => add_names(names, e),
    }
}

#[cycle(names)]
fn add_names_in_elements(names: &mut Vec<Name>, list: &[Element]) -> Result<(), NoMemory>
    ensures { OnOk result (names.new.items ≡ names.old.items ++ names_in_elements (elements_of list.now)) }
{
    for element in list {
        add_names_in_element(names, element)?;
    }
    Ok(())
}

#[cycle(names)]
fn add_names_in_element(names: &mut Vec<Name>, element: &Element) -> Result<(), NoMemory>
    ensures { OnOk result (names.new.items ≡ names.old.items ++ names_in_element element.now) }
{
    match element {
        Element::Plain(e) => add_names(names, e),
        Element::Keyed(_, e) => add_names(names, e),
    }
}

/// The names in an expression or a type, where there is one.
fn add_names_in_some(names: &mut Vec<Name>, e: &Option<Expr>) -> Result<(), NoMemory>
    ensures { OnOk result (names.new.items ≡ names.old.items ++ names_in_some (ex_in e.now)) }
{
    match e {
        Some(e) => add_names(names, e),
        None => Ok(()),
    }
}

/// The names in the value that a name waits for, or in all values of its declaration.
fn add_names_waited(
    names: &mut Vec<Name>,
    value: Option<&Expr>,
    values: &[Expr],
) -> Result<(), NoMemory>
    ensures { OnOk result (names.new.items ≡ names.old.items
        ++ names_waited (option_map (λ e. ex_of e.now) value.entry) (exs_of values.now)) }
{
    match value {
        Some(value) => add_names(names, value),
        None => add_names_in_each(names, values),
    }
}

/// The number of a constant or a package variable, where a name stands for one.
fn value_number(declared: Option<Declared>) -> Option<u32>
    ensures { result ≡ value_number declared }
{
    match declared {
        Some(Declared::Constant(number) | Declared::Global(number, _)) => Some(number.0),
        _ => None,
    }
}

/// The numbers of the constants and variables among some names.
fn numbers_of(
    alloc: Global,
    text: &[u8],
    scope: &Scope,
    names: &[Name],
) -> Result<Vec<u32>, NoMemory>
    ensures { IfOk result (λ v. v.items ≡ numbers_of text.now (scope_of scope.now) names.now) }
{
    let mut numbers = Vec::new(alloc);
    for name in names {
        match value_number(scope.declaration(spelled(text, *name))) {
            Some(number) => numbers.push(number)?,
            None => {}
        }
    }
    Ok(numbers)
}

/// Whether a name may stand in a constant expression: it stands for no variable or function of the program.
fn may_be_constant(declared: Option<Declared>) -> bool
    ensures { result ≡ may_be_constant declared }
{
    match declared {
        Some(
            Declared::Variable(_, _)
            | Declared::Untyped
            | Declared::Global(_, _)
            | Declared::Function(_)
            | Declared::External(_, _),
        ) => false,
        _ => true,
    }
}

/// Whether an expression has the form of a constant one: numbers and names with operators.
pub fn has_form(text: &[u8], scope: &Scope, e: &Expr) -> bool
    ensures { result ≡ has_form text.now (scope_of scope.now) (ex_of e.now) }
{
    match e {
        Expr::Int(_, _) => true,
        Expr::Name(name) => may_be_constant(scope.declaration(spelled(text, *name))),
        Expr::Unary(_, _, inner) => has_form(text, scope, inner),
        Expr::Binary(_, _, left, right) => {
            has_form(text, scope, left) && has_form(text, scope, right)
        }
        Expr::Paren(_, inner) => has_form(text, scope, inner),
        _ => false,
    }
}

fn have_form(text: &[u8], scope: &Scope, es: &[Expr]) -> bool
    ensures { result ≡ have_form text.now (scope_of scope.now) (exs_of es.now) }
{
    let mut all = true;
    for e in es {
        all = all && has_form(text, scope, e);
    }
    all
}

/// Whether the value that a name waits for has the form of a constant, or all values of its declaration have it.
fn waited_form(text: &[u8], scope: &Scope, value: Option<&Expr>, values: &[Expr]) -> bool
    ensures { result ≡ waited_form text.now (scope_of scope.now) (option_map (λ e. ex_of e.now) value.entry) (exs_of values.now) }
{
    match value {
        Some(value) => has_form(text, scope, value),
        None => have_form(text, scope, values),
    }
}

/// The names that what is known of one rests on.
fn add_mentions(names: &mut Vec<Name>, item: &Item) -> Result<(), NoMemory>
    ensures { OnOk result (names.new.items ≡ names.old.items ++ mentions (item_of item.now)) }
{
    match item.role {
        Role::Constant => {
            add_names_in_some(names, item.type_expr)?;
            add_names_waited(names, item.value, item.values)
        }
        Role::Variable => match item.type_expr {
            Some(e) => add_names(names, e),
            None => add_names_waited(names, item.value, item.values),
        },
    }
}

/// The constants and variables among the names that what is known of one rests on.
fn mentioned_by(
    alloc: Global,
    text: &[u8],
    scope: &Scope,
    item: &Item,
) -> Result<Vec<u32>, NoMemory>
    ensures { IfOk result (λ v. v.items ≡ mentioned text.now (scope_of scope.now) (item_of item.now)) }
{
    let mut names = Vec::new(alloc);
    add_mentions(&mut names, item)?;
    numbers_of(alloc, text, scope, &names)
}

/// The same for each.
pub fn mentioned(
    alloc: Global,
    text: &[u8],
    scope: &Scope,
    items: &[Item],
) -> Result<Vec<Vec<u32>>, NoMemory>
    ensures { IfOk result (λ v. rows v.items ≡ map (mentioned text.now (scope_of scope.now)) (item_views items.now)) }
{
    let mut all = Vec::new(alloc);
    for index in 0..items.len() {
        all.push(mentioned_by(alloc, text, scope, &items[index])?)?;
    }
    Ok(all)
}

/// The constants and variables that a variable needs.
fn needed_by_variable(
    alloc: Global,
    text: &[u8],
    scope: &Scope,
    item: &Item,
) -> Result<Vec<u32>, NoMemory>
    ensures { IfOk result (λ v. v.items ≡ needed_as text.now (scope_of scope.now) VariableRole (item_of item.now)) }
{
    let mut names = Vec::new(alloc);
    match item.type_expr {
        Some(e) => add_names(&mut names, e)?,
        None => {
            if waited_form(text, scope, item.value, item.values) {
                add_names_waited(&mut names, item.value, item.values)?;
            }
        }
    }
    numbers_of(alloc, text, scope, &names)
}

/// The constants and variables that one needs.
fn needed(alloc: Global, text: &[u8], scope: &Scope, item: &Item) -> Result<Vec<u32>, NoMemory>
    ensures { IfOk result (λ v. v.items ≡ needed text.now (scope_of scope.now) (item_of item.now)) }
{
    match item.role {
        Role::Constant => mentioned_by(alloc, text, scope, item),
        Role::Variable => needed_by_variable(alloc, text, scope, item),
    }
}

/// For each constant and variable those that it needs.
pub fn needs(
    alloc: Global,
    text: &[u8],
    scope: &Scope,
    items: &[Item],
) -> Result<Vec<Vec<u32>>, NoMemory>
    ensures { IfOk result (λ v. rows v.items ≡ map (needed text.now (scope_of scope.now)) (item_views items.now)) }
{
    let mut table = Vec::new(alloc);
    for index in 0..items.len() {
        table.push(needed(alloc, text, scope, &items[index])?)?;
    }
    Ok(table)
}
