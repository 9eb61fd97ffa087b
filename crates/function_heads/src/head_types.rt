//! The types of a function's parameters and results, and the fault in them.

ghost use Rattle.std.specs.Prelude.{◌≡◌, Option, Some, None, IfOk, List, map, ◌++◌, option_and_then};
ghost use Rattle.std.specs.Option.{option_map};
ghost use Rattle.syntax.specs.Expressions.{ex_of as tree_of, exs_of as trees_of};
ghost use Rattle.syntax.specs.Declarations.{parameters_of, field_of, fields_of, function_of};
ghost use Rattle.type_faults.specs.Least.{IsLeast};
ghost use Rattle.names.specs.Scope.{scope_of, signature_of};
ghost use Rattle.expression_types.specs.Typing.{stated_type};
ghost use Rattle.expression_types.specs.Faults.{StatedFails};
ghost use Rattle.signatures.specs.Signatures.{param_with, field_params, named_params, unnamed_params, params_of};
ghost use Rattle.function_heads.specs.HeadTypes.{slot_of, slots_of, signature_in};
ghost use Rattle.function_heads.specs.HeadFaults.{TypesFail};

use base::{NoMemory, ValueType};
use expression_types::check_stated;
use names::{Scope, Signature};
use signatures::{Slot, types_of};
use std::alloc::Global;
use syntax::{Expr, Field, Func, Name, Params};
use type_faults::{Fault, lesser};

/// The type that an expression states.
fn stated_in(
    alloc: Global,
    text: &[u8],
    heads: &Scope,
    type_expr: &Expr,
) -> Result<Option<ValueType>, NoMemory>
    ensures { IfOk result (λ t. t ≡ stated_type text.now (scope_of heads.now) (tree_of type_expr.now)) }
{
    let stated = check_stated(alloc, text, heads, type_expr)?;
    Ok(stated.value_type)
}

/// The fault in an expression as a type.
fn fault_in(
    alloc: Global,
    text: &[u8],
    scope: &Scope,
    type_expr: &Expr,
) -> Result<Option<Fault>, NoMemory>
    ensures { IfOk result (λ r. IsLeast (StatedFails text.now (scope_of scope.now) (tree_of type_expr.now)) r) }
{
    let stated = check_stated(alloc, text, scope, type_expr)?;
    Ok(stated.fault)
}

/// Those without names.
fn unnamed_slots(
    alloc: Global,
    text: &[u8],
    heads: &Scope,
    types: &[Expr],
) -> Result<Vec<Slot>, NoMemory>
    ensures { IfOk result (λ v. v.items ≡ map (slot_of text.now (scope_of heads.now)) (unnamed_params (trees_of types.now))) }
{
    let mut slots = Vec::new(alloc);
    for type_expr in types {
        let value_type = stated_in(alloc, text, heads, type_expr)?;
        slots.push(Slot {
            name: None,
            value_type,
        })?;
    }
    Ok(slots)
}

/// One for each name of a field after others. Its type is looked up once.
fn with_field(
    alloc: Global,
    slots: Vec<Slot>,
    text: &[u8],
    heads: &Scope,
    field: &Field,
) -> Result<Vec<Slot>, NoMemory>
    ensures { IfOk result (λ v. v.items ≡ slots.items
        ++ map (slot_of text.now (scope_of heads.now)) (field_params (field_of field.now))) }
{
    let value_type = stated_in(alloc, text, heads, &field.type_expr)?;
    let mut slots = slots;
    for name in &field.names {
        slots.push(Slot {
            name: Some(*name),
            value_type,
        })?;
    }
    Ok(slots)
}

/// Those with names.
fn named_slots(
    alloc: Global,
    text: &[u8],
    heads: &Scope,
    fields: &[Field],
) -> Result<Vec<Slot>, NoMemory>
    ensures { IfOk result (λ v. v.items ≡ map (slot_of text.now (scope_of heads.now)) (named_params (fields_of fields.now))) }
{
    let mut slots = Vec::new(alloc);
    for field in fields {
        slots = with_field(alloc, slots, text, heads, field)?;
    }
    Ok(slots)
}

/// Parameters or results one by one, with what their types stand for among the names of the package.
pub fn slots_of(
    alloc: Global,
    text: &[u8],
    heads: &Scope,
    params: &Params,
) -> Result<Vec<Slot>, NoMemory>
    ensures { IfOk result (λ v. v.items ≡ slots_of text.now (scope_of heads.now) (parameters_of params.now)) }
{
    match params {
        Params::Unnamed(types) => unnamed_slots(alloc, text, heads, types),
        Params::Named(fields) => named_slots(alloc, text, heads, fields),
    }
}

fn joined(params: Option<Vec<ValueType>>, results: Option<Vec<ValueType>>) -> Option<Signature>
    ensures { option_map signature_of result ≡ option_and_then
        (λ ps. option_map (λ rs. record { params = ps; results = rs }) (option_map (λ v. v.items) results))
        (option_map (λ v. v.items) params) }
{
    match (params, results) {
        (Some(params), Some(results)) => Some(Signature { params, results }),
        _ => None,
    }
}

/// The signature of a function, where all its types are known.
pub fn signature_in(
    alloc: Global,
    text: &[u8],
    heads: &Scope,
    f: &Func,
) -> Result<Option<Signature>, NoMemory>
    ensures { IfOk result (λ r. option_map signature_of r ≡ signature_in text.now (scope_of heads.now) (function_of f.now)) }
{
    let params = slots_of(alloc, text, heads, &f.params)?;
    let results = slots_of(alloc, text, heads, &f.results)?;
    let params = types_of(alloc, &params)?;
    let results = types_of(alloc, &results)?;
    Ok(joined(params, results))
}

fn unnamed_fault(
    alloc: Global,
    text: &[u8],
    scope: &Scope,
    types: &[Expr],
) -> Result<Option<Fault>, NoMemory>
    ensures { IfOk result (λ r. IsLeast (TypesFail text.now (scope_of scope.now) (unnamed_params (trees_of types.now))) r) }
{
    let mut fault = None;
    for type_expr in types {
        let own = fault_in(alloc, text, scope, type_expr)?;
        fault = lesser(fault, own);
    }
    Ok(fault)
}

/// The fault of the type that names share, looked at once.
fn field_fault(
    alloc: Global,
    text: &[u8],
    scope: &Scope,
    names: &[Name],
    type_expr: &Expr,
) -> Result<Option<Fault>, NoMemory>
    ensures { IfOk result
        (λ r. IsLeast (TypesFail text.now (scope_of scope.now) (map (param_with (tree_of type_expr.now)) names.now)) r) }
{
    if names.is_empty() {
        Ok(None)
    } else {
        fault_in(alloc, text, scope, type_expr)
    }
}

fn named_fault(
    alloc: Global,
    text: &[u8],
    scope: &Scope,
    fields: &[Field],
) -> Result<Option<Fault>, NoMemory>
    ensures { IfOk result (λ r. IsLeast (TypesFail text.now (scope_of scope.now) (named_params (fields_of fields.now))) r) }
{
    let mut fault = None;
    for field in fields {
        let own = field_fault(alloc, text, scope, &field.names, &field.type_expr)?;
        fault = lesser(fault, own);
    }
    Ok(fault)
}

/// The fault of their types.
pub fn types_fault(
    alloc: Global,
    text: &[u8],
    scope: &Scope,
    params: &Params,
) -> Result<Option<Fault>, NoMemory>
    ensures { IfOk result (λ r. IsLeast (TypesFail text.now (scope_of scope.now) (params_of (parameters_of params.now))) r) }
{
    match params {
        Params::Unnamed(types) => unnamed_fault(alloc, text, scope, types),
        Params::Named(fields) => named_fault(alloc, text, scope, fields),
    }
}
