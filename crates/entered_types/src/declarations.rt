//! The array types in declarations.

ghost use Rattle.std.specs.Prelude.{◌≡◌, OnOk};
ghost use Rattle.syntax.specs.Declarations.{field_of, fields_of, parameters_of, type_spec_of, type_specs_of, body_in};
ghost use Rattle.syntax.specs.Declarations.{function_of, declaration_of, declarations_of};
ghost use Rattle.names.specs.Scope.{scope_of};
ghost use Rattle.entered_types.specs.Entered.{entered_field, entered_fields, entered_parameters, entered_type_spec};
ghost use Rattle.entered_types.specs.Entered.{entered_type_specs, entered_body, entered_function, entered_declaration};
ghost use Rattle.entered_types.specs.Entered.{entered_all, OnlyEnters};

use crate::expressions::{enter_each, enter_expr};
use crate::statements::{enter_specs, enter_stmts};
use base::NoMemory;
use names::Scope;
use std::alloc::Global;
use syntax::{Body, Decl, Field, Func, Params, TypeSpec};

/// Enters the array types in fields of a struct, in parameters or in results.
fn enter_fields(
    alloc: Global,
    text: &[u8],
    scope: &mut Scope,
    fields: &[Field],
) -> Result<(), NoMemory>
    ensures { OnOk result (scope_of scope.new ≡ entered_fields text.now (scope_of scope.old) (fields_of fields.now)) }
{
    for field in fields {
        enter_expr(alloc, text, scope, &field.type_expr)?;
    }
    Ok(())
}

/// Enters the array types in the parameters or results of a function.
fn enter_params(
    alloc: Global,
    text: &[u8],
    scope: &mut Scope,
    params: &Params,
) -> Result<(), NoMemory>
    ensures { OnOk result (scope_of scope.new ≡ entered_parameters text.now (scope_of scope.old) (parameters_of params.now)) }
{
    match params {
        Params::Unnamed(types) => enter_each(alloc, text, scope, types),
        Params::Named(fields) => enter_fields(alloc, text, scope, fields),
    }
}

/// Enters the array types in struct types.
fn enter_type_specs(
    alloc: Global,
    text: &[u8],
    scope: &mut Scope,
    specs: &[TypeSpec],
) -> Result<(), NoMemory>
    ensures { OnOk result (scope_of scope.new ≡ entered_type_specs text.now (scope_of scope.old) (type_specs_of specs.now)) }
{
    for spec in specs {
        enter_fields(alloc, text, scope, &spec.fields)?;
    }
    Ok(())
}

/// Enters the array types in the body of a function, where it has one.
fn enter_body(
    alloc: Global,
    text: &[u8],
    scope: &mut Scope,
    body: &Option<Body>,
) -> Result<(), NoMemory>
    ensures { OnOk result (scope_of scope.new ≡ entered_body text.now (scope_of scope.old) (body_in body.now)) }
{
    match body {
        Some(body) => enter_stmts(alloc, text, scope, &body.statements),
        None => Ok(()),
    }
}

fn enter_func(alloc: Global, text: &[u8], scope: &mut Scope, func: &Func) -> Result<(), NoMemory>
    ensures { OnOk result (scope_of scope.new ≡ entered_function text.now (scope_of scope.old) (function_of func.now)) }
{
    enter_params(alloc, text, scope, &func.params)?;
    enter_params(alloc, text, scope, &func.results)?;
    enter_body(alloc, text, scope, &func.body)
}

fn enter_decl(alloc: Global, text: &[u8], scope: &mut Scope, decl: &Decl) -> Result<(), NoMemory>
    ensures { OnOk result (scope_of scope.new ≡ entered_declaration text.now (scope_of scope.old) (declaration_of decl.now)) }
{
    match decl {
        Decl::Const(_, specs) => enter_specs(alloc, text, scope, specs),
        Decl::Var(_, specs) => enter_specs(alloc, text, scope, specs),
        Decl::Type(_, specs) => enter_type_specs(alloc, text, scope, specs),
        Decl::Func(func) => enter_func(alloc, text, scope, func),
    }
}

/// Enters all array types that declarations state, by the constants and types that a scope has.
pub fn enter_types(
    alloc: Global,
    text: &[u8],
    scope: &mut Scope,
    decls: &[Decl],
) -> Result<(), NoMemory>
    ensures entered { OnOk result (scope_of scope.new ≡ entered_all text.now (scope_of scope.old) (declarations_of decls.now)) }

    // All that the scope had stays, and each type keeps its number and its tree.
    ensures kept { OnOk result (OnlyEnters (scope_of scope.old) (scope_of scope.new)) }
{
    for decl in decls {
        enter_decl(alloc, text, scope, decl)?;
    }
    Ok(())
}
