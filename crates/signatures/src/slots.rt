//! Parameters and results one by one, each with its type.

ghost use Rattle.std.specs.Prelude.{◌≡◌, Option, IfOk, List, map, length, not, ◌==◌, option_and_then, slice_get};
ghost use Rattle.std.specs.Option.{option_map};
ghost use Rattle.syntax.specs.Declarations.{parameters_of, fields_of};
ghost use Rattle.type_faults.specs.Given.{with_last};
ghost use Rattle.signatures.specs.Entries.{slot_with, slots_each};
ghost use Rattle.signatures.specs.Signatures.{named_params, params_of, is_named, types_of};

use base::{NoMemory, ValueType};
use std::alloc::Global;
use syntax::{Field, Name, Params};

/// A parameter or a result: its name, if it has one, and its type, where that is known.
#[derive(Clone, Copy, Debug, PartialEq, Eq)]
pub struct Slot {
    pub name: Option<Name>,
    pub value_type: Option<ValueType>,
}

/// A name with a type.
fn slot_with(name: Name, value_type: Option<ValueType>) -> Slot
    ensures { result ≡ slot_with value_type name }
{
    Slot {
        name: Some(name),
        value_type,
    }
}

/// Names that share a type.
pub fn slots_with(
    alloc: Global,
    names: &[Name],
    value_type: Option<ValueType>,
) -> Result<Vec<Slot>, NoMemory>
    ensures { IfOk result (λ v. v.items ≡ map (slot_with value_type) names.now) }
{
    let mut slots = Vec::new(alloc);
    for name in names {
        slots.push(slot_with(*name, value_type))?;
    }
    Ok(slots)
}

fn type_at(types: &Option<Vec<ValueType>>, index: usize) -> Option<ValueType>
    ensures { result ≡ option_and_then (λ l. slice_get l index) (option_map (λ v. v.items) types.now) }
{
    match types {
        Some(types) => types.get(index).copied(),
        None => None,
    }
}

fn slot_count(slots: &Vec<Slot>) -> usize
    ensures { result ≡ length slots.now.items }
{
    slots.len()
}

/// Names with a type each, where the types are known.
pub fn slots_each(
    alloc: Global,
    names: &[Name],
    types: &Option<Vec<ValueType>>,
) -> Result<Vec<Slot>, NoMemory>
    ensures { IfOk result (λ v. v.items ≡ slots_each (option_map (λ v. v.items) types.now) names.now) }
{
    let mut slots = Vec::new(alloc);
    for name in names {
        let value_type = type_at(types, slot_count(&slots));
        slots.push(slot_with(*name, value_type))?;
    }
    Ok(slots)
}

/// The types of slots.
pub fn slot_types(alloc: Global, slots: &[Slot]) -> Result<Vec<Option<ValueType>>, NoMemory>
    ensures { IfOk result (λ v. v.items ≡ map (λ slot. slot.value_type) slots.now) }
{
    let mut types = Vec::new(alloc);
    for slot in slots {
        types.push(slot.value_type)?;
    }
    Ok(types)
}

/// Whether they have names.
pub fn is_named(params: &Params) -> bool
    ensures { result ≡ is_named (parameters_of params.now) }
{
    match params {
        Params::Unnamed(_) => false,
        Params::Named(_) => true,
    }
}

fn has_names(fields: &[Field]) -> bool
    ensures { result ≡ not (length (named_params (fields_of fields.now)) == 0) }
{
    let mut some = false;
    for field in fields {
        some = some || !field.names.is_empty();
    }
    some
}

/// Whether there is one.
#[tactic(auto, using(crate::proofs::Fields::unnamed_are))]
pub fn has_some(params: &Params) -> bool
    ensures { result ≡ not (length (params_of (parameters_of params.now)) == 0) }
{
    match params {
        Params::Unnamed(types) => !types.is_empty(),
        Params::Named(fields) => has_names(fields),
    }
}

fn with_type(
    types: Option<Vec<ValueType>>,
    value_type: Option<ValueType>,
) -> Result<Option<Vec<ValueType>>, NoMemory>
    ensures { IfOk result (λ r. option_map (λ v. v.items) r ≡ with_last (option_map (λ v. v.items) types) value_type) }
{
    match (types, value_type) {
        (Some(mut types), Some(value_type)) => {
            types.push(value_type)?;
            Ok(Some(types))
        }
        _ => Ok(None),
    }
}

/// Their types, where all are known.
pub fn types_of(alloc: Global, slots: &[Slot]) -> Result<Option<Vec<ValueType>>, NoMemory>
    ensures { IfOk result (λ r. option_map (λ v. v.items) r ≡ types_of slots.now) }
{
    let mut types = Some(Vec::new(alloc));
    for slot in slots {
        types = with_type(types, slot.value_type)?;
    }
    Ok(types)
}
