//! The steps of the machine of parameters and results in parentheses.

ghost use Rattle.std.specs.Prelude.{◌≡◌, ◌≤◌, IfOk, [], map};
ghost use Rattle.syntax.specs.declared.expression.Expr.TheVariants as expr;
ghost use Rattle.syntax.specs.Expressions.{ex_of, exs_of};
ghost use Rattle.syntax.specs.Lists.{with_ex};
ghost use Rattle.syntax.specs.Declarations.{unnamed, fields_of};
ghost use Rattle.parse_go.specs.Parameters.{at_name_or_type, at_names, at_next_type, at_field, at_next_name, at_field_names};
ghost use Rattle.parse_go.specs.Parameters.{ends, after_type, after_field, behind_type, behind_field, field_named};
ghost use Rattle.parse_go.specs.Parameters.{nesting_in_parens, type_begins, types_named, step, nesting};
ghost use Rattle.parse_go.specs.ParameterStates.{params_of, Steps};

use crate::parameters::{InNamedType, InType, Parameters, ParametersProgress};
use parse_expressions::{Progress, StepFault, Terminal, step, type_wanted};
use std::alloc::{AllocError, Global};
use syntax::{Expr, Field, Name, Params};

/// The opening parenthesis was read.
pub fn begin_parameters(alloc: Global) -> Parameters
    ensures { params_of result ≡ at_name_or_type [] }
{
    Parameters::NameOrType(Vec::new(alloc))
}

/// One token more.
pub fn step_parameters(
    alloc: Global,
    state: Parameters,
    token: Terminal,
) -> Result<ParametersProgress, StepFault>
    ensures { let s = params_of state in Steps result (step s token) (nesting s token) }
{
    match state {
        Parameters::NameOrType(names) => name_or_type(alloc, names, token),
        Parameters::Names(names) => behind_names(alloc, names, token),
        Parameters::NextType(before) => next_type(alloc, before, token),
        Parameters::Type(reading) => in_type(alloc, reading, token),
        Parameters::Named(before) => named(alloc, before, token),
        Parameters::NextName(before, names) => next_name(before, names, token),
        Parameters::NamedNames(before, names) => named_names(alloc, before, names, token),
        Parameters::NamedType(reading) => in_named_type(alloc, reading, token),
    }
}

/// Names as types.
fn types_named(alloc: Global, names: &[Name]) -> Result<Vec<Expr>, AllocError>
    ensures { IfOk result (λ ts. ts.items ≡ map (λ x. expr.Name x) names.now) }
{
    names.iter().map(|name| Expr::Name(*name)).collect(alloc)
}

/// The closing parenthesis was read after names that are types.
#[tactic(auto, using(crate::proofs::ParameterSteps::are_types))]
fn unnamed(alloc: Global, names: &[Name]) -> Result<ParametersProgress, StepFault>
    ensures { Steps result (ends (unnamed (types_named names.now))) 0 }
{
    let types = types_named(alloc, names)?;
    Ok(ParametersProgress::Ends(Params::Unnamed(types)))
}

/// A token after the opening parenthesis or a comma, after names that may be types.
fn name_or_type(
    alloc: Global,
    mut names: Vec<Name>,
    token: Terminal,
) -> Result<ParametersProgress, StepFault>
    ensures { let s = at_name_or_type names.items in
        Steps result (step s token) (nesting s token) }
{
    match token {
        Terminal::Identifier(name) => {
            names.push(name)?;
            Ok(ParametersProgress::Goes(Parameters::Names(names)))
        }
        Terminal::RightParen => unnamed(alloc, &names),
        _ => first_of_type(alloc, types_named(alloc, &names)?, token),
    }
}

/// The first token of a type, after the ones before.
fn first_of_type(
    alloc: Global,
    before: Vec<Expr>,
    token: Terminal,
) -> Result<ParametersProgress, StepFault>
    ensures { Steps result (after_type (exs_of before.items) token (type_begins token))
        (nesting_in_parens token) }
{
    let reading = type_wanted(alloc, 1);
    in_type(alloc, InType { before, reading }, token)
}

/// A token after the last of names that may be types.
fn behind_names(
    alloc: Global,
    names: Vec<Name>,
    token: Terminal,
) -> Result<ParametersProgress, StepFault>
    ensures { let s = at_names names.items in Steps result (step s token) (nesting s token) }
{
    match token {
        Terminal::Comma => Ok(ParametersProgress::Goes(Parameters::NameOrType(names))),
        Terminal::RightParen => unnamed(alloc, &names),
        _ => first_of_named_type(alloc, Vec::new(alloc), names, token),
    }
}

/// The first token of the type of some names, after the parameters before them.
fn first_of_named_type(
    alloc: Global,
    before: Vec<Field>,
    names: Vec<Name>,
    token: Terminal,
) -> Result<ParametersProgress, StepFault>
    ensures { let next = after_field (fields_of before.items) names.items token (type_begins token) in
        Steps result next (nesting_in_parens token) }
{
    let reading = type_wanted(alloc, 1);
    let state = InNamedType {
        before,
        names,
        reading,
    };
    in_named_type(alloc, state, token)
}

/// A token after a comma after types.
fn next_type(
    alloc: Global,
    before: Vec<Expr>,
    token: Terminal,
) -> Result<ParametersProgress, StepFault>
    ensures { let s = at_next_type (exs_of before.items) in
        Steps result (step s token) (nesting s token) }
{
    match token {
        Terminal::RightParen => Ok(ParametersProgress::Ends(Params::Unnamed(before))),
        _ => first_of_type(alloc, before, token),
    }
}

/// One type more.
#[tactic(auto, using(syntax::proofs::Rows::exs_push))]
fn with_type(mut types: Vec<Expr>, more: Expr) -> Result<Vec<Expr>, AllocError>
    ensures { IfOk result (λ ts. exs_of ts.items ≡ with_ex (exs_of types.items) (ex_of more)) }
{
    types.push(more)?;
    Ok(types)
}

/// A token after types.
fn behind_type(types: Vec<Expr>, token: Terminal) -> Result<ParametersProgress, StepFault>
    ensures { Steps result (behind_type (exs_of types.items) token) (nesting_in_parens token) }
{
    match token {
        Terminal::Comma => Ok(ParametersProgress::Goes(Parameters::NextType(types))),
        Terminal::RightParen => Ok(ParametersProgress::Ends(Params::Unnamed(types))),
        _ => Err(StepFault::Unexpected),
    }
}

/// A token in a type.
#[tactic(auto, using(crate::proofs::ParameterSteps::type_fails))]
fn in_type(alloc: Global, state: InType, token: Terminal) -> Result<ParametersProgress, StepFault>
    ensures { let s = params_of (Parameters.Type state) in
        Steps result (step s token) (nesting s token) }
{
    let InType { before, reading } = state;
    match step(alloc, reading, token) {
        Ok(Progress::Goes(reading)) => Ok(ParametersProgress::Goes(Parameters::Type(InType {
            before,
            reading,
        }))),
        Ok(Progress::Ends(part)) => behind_type(with_type(before, part.expr)?, token),
        Err(fault) => Err(fault),
    }
}

/// A token after a comma after parameters with names.
fn named(
    alloc: Global,
    before: Vec<Field>,
    token: Terminal,
) -> Result<ParametersProgress, StepFault>
    ensures { let s = at_field (fields_of before.items) in
        Steps result (step s token) (nesting s token) }
{
    match token {
        Terminal::Identifier(name) => {
            Ok(ParametersProgress::Goes(Parameters::NamedNames(before, vec![in alloc; name]?)))
        }
        Terminal::RightParen => Ok(ParametersProgress::Ends(Params::Named(before))),
        _ => Err(StepFault::Unexpected),
    }
}

/// A token after a comma between names.
fn next_name(
    before: Vec<Field>,
    mut names: Vec<Name>,
    token: Terminal,
) -> Result<ParametersProgress, StepFault>
    ensures { let s = at_next_name (fields_of before.items) names.items in
        Steps result (step s token) (nesting s token) }
{
    match token {
        Terminal::Identifier(name) => {
            names.push(name)?;
            Ok(ParametersProgress::Goes(Parameters::NamedNames(before, names)))
        }
        _ => Err(StepFault::Unexpected),
    }
}

/// A token after the last of some names.
fn named_names(
    alloc: Global,
    before: Vec<Field>,
    names: Vec<Name>,
    token: Terminal,
) -> Result<ParametersProgress, StepFault>
    ensures { let s = at_field_names (fields_of before.items) names.items in
        Steps result (step s token) (nesting s token) }
{
    match token {
        Terminal::Comma => Ok(ParametersProgress::Goes(Parameters::NextName(before, names))),
        _ => first_of_named_type(alloc, before, names, token),
    }
}

/// Some parameters with names more.
#[tactic(auto, using(crate::proofs::Rows::fields_push))]
fn with_named(
    mut before: Vec<Field>,
    names: Vec<Name>,
    type_expr: Expr,
) -> Result<Vec<Field>, AllocError>
    ensures { IfOk result (λ fs. fields_of fs.items
        ≡ field_named (fields_of before.items) names.items (ex_of type_expr)) }
{
    before.push(Field { names, type_expr })?;
    Ok(before)
}

/// A token after parameters with names.
fn behind_named(before: Vec<Field>, token: Terminal) -> Result<ParametersProgress, StepFault>
    ensures { Steps result (behind_field (fields_of before.items) token) (nesting_in_parens token) }
{
    match token {
        Terminal::Comma => Ok(ParametersProgress::Goes(Parameters::Named(before))),
        Terminal::RightParen => Ok(ParametersProgress::Ends(Params::Named(before))),
        _ => Err(StepFault::Unexpected),
    }
}

/// A token in the type of some names.
#[tactic(auto, using(crate::proofs::ParameterSteps::named_type_fails))]
fn in_named_type(
    alloc: Global,
    state: InNamedType,
    token: Terminal,
) -> Result<ParametersProgress, StepFault>
    ensures { let s = params_of (Parameters.NamedType state) in
        Steps result (step s token) (nesting s token) }
{
    let InNamedType {
        before,
        names,
        reading,
    } = state;
    match step(alloc, reading, token) {
        Ok(Progress::Goes(reading)) => Ok(ParametersProgress::Goes(Parameters::NamedType(
            InNamedType {
                before,
                names,
                reading,
            },
        ))),
        Ok(Progress::Ends(part)) => { behind_named(with_named(before, names, part.expr)?, token) }
        Err(fault) => Err(fault),
    }
}
