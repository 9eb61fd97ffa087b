//! Which types have pointers.

ghost use Rattle.std.specs.Prelude.{◌≡◌, ◌≤◌, Some, None, get_or, false, length, map, IfOk, IfSome, OnOk};
ghost use Rattle.std.specs.List.{list_any};
ghost use Rattle.typed.specs.Trees.{tree_named};
ghost use Rattle.typed_flows.specs.Pointers.{has_pointers};
ghost use Rattle.typed_flows.specs.Known.{AreAll, AreKnown, has_by};

use base::{NoMemory, TypeId, ValueType};
use components::strong_components;
use std::alloc::Global;
use typed::TypeTable;

/// What is known of the type that has a number.
fn entry(known: &[Option<bool>], number: u32) -> Option<bool>
    ensures { result ≡ get_or known.now number None }
{
    match known.get(number as usize) {
        Some(has) => *has,
        None => None,
    }
}

/// Whether the type that has a number has pointers, if that is known.
fn known_at(table: &TypeTable, known: &[Option<bool>], id: TypeId) -> Option<bool>
    requires { AreKnown table.now known.now }
    ensures { IfSome result (λ b. b ≡ has_pointers (tree_named table.now id.0)) }
{
    entry(known, id.0)
}

/// Whether one of some types has pointers, if that is known of all of them.
fn any_known(table: &TypeTable, known: &[Option<bool>], ids: &[TypeId]) -> Option<bool>
    requires { AreKnown table.now known.now }
    ensures { IfSome result (λ b. b ≡ list_any (λ e. has_pointers (tree_named table.now e.0)) ids.now) }
{
    let mut any = false;
    for id in ids {
        let has = known_at(table, known, *id)?;
        any = any || has;
    }
    Some(any)
}

/// Whether a type has pointers, if that is known of its parts.
fn known_by(table: &TypeTable, known: &[Option<bool>], value_type: ValueType) -> Option<bool>
    requires { AreKnown table.now known.now }
    ensures { IfSome result (λ b. b ≡ has_by table.now value_type) }
{
    match value_type {
        ValueType::Int | ValueType::Bool => Some(false),
        ValueType::Pointer(_) | ValueType::Slice(_) => Some(true),
        ValueType::Array(_, element) => known_at(table, known, element),
        ValueType::Struct(id) => match table.fields(id) {
            None => Some(false),
            Some(fields) => any_known(table, known, fields),
        },
    }
}

/// Whether the type that has a number has pointers, if that is known of its parts.
fn known_of(table: &TypeTable, known: &[Option<bool>], id: TypeId) -> Option<bool>
    requires { AreKnown table.now known.now }
    ensures { IfSome result (λ b. b ≡ has_pointers (tree_named table.now id.0)) }
{
    known_by(table, known, table.type_at(id))
}

/// Notes whether a type has pointers.
fn note(table: &TypeTable, known: &mut [Option<bool>], id: u32)
    requires { AreKnown table.now known.old }
    ensures { AreKnown table.now known.new }
{
    if (id as usize) < known.len() {
        let has = known_of(table, known, TypeId(id));
        known[id as usize] = has;
    }
}

/// Notes it of some types, in this order.
fn note_all(table: &TypeTable, known: &mut [Option<bool>], ids: &[u32])
    requires { AreKnown table.now known.old }
    ensures { AreKnown table.now known.new }
{
    for id in ids {
        note(table, known, *id);
    }
}

/// The numbers of the types of the parts of a type.
fn parts_of(alloc: Global, table: &TypeTable, id: TypeId) -> Result<Vec<u32>, NoMemory> {
    let mut parts = Vec::new(alloc);
    match table.type_at(id) {
        ValueType::Int | ValueType::Bool | ValueType::Pointer(_) | ValueType::Slice(_) => {}
        ValueType::Array(_, element) => parts.push(element.0)?,
        ValueType::Struct(struct_id) => {
            if let Some(fields) = table.fields(struct_id) {
                for field in fields {
                    parts.push(field.0)?;
                }
            }
        }
    }
    Ok(parts)
}

/// Whether a number is that of a type of the table.
fn is_type(table: &TypeTable, id: u32) -> bool
    ensures { result ≡ false → length table.now.types ≤ id }
{
    match table.find(table.type_at(TypeId(id))) {
        Some(found) => found.0 == id,
        None => false,
    }
}

/// How many types the table has.
fn type_count(table: &TypeTable) -> Result<u32, NoMemory>
    ensures { IfOk result (λ n. length table.now.types ≤ n) }
{
    for id in 0..u32::MAX {
        if !is_type(table, id) {
            return Ok(id);
        }
    }
    Err(NoMemory)
}

/// What is known, where all is.
fn all_of(alloc: Global, known: &[Option<bool>]) -> Result<Vec<bool>, NoMemory>
    ensures { IfOk result (λ v. map (λ b. Some b) v.items ≡ known.now) }
{
    let mut all = Vec::new(alloc);
    for has in known {
        all.push(has.ok_or(NoMemory)?)?;
    }
    Ok(all)
}

/// Whether each type of a table has pointers. The types come in the order in which each stands after its parts, so that each is looked at
/// once. One that were a part of itself would count as want of memory.
pub fn pointers(alloc: Global, table: &TypeTable) -> Result<Vec<bool>, NoMemory>
    ensures { IfOk result (λ v. AreAll table.now v.items) }
{
    let count = type_count(table)?;
    let mut parts = Vec::new(alloc);
    for id in 0..count {
        parts.push(parts_of(alloc, table, TypeId(id))?)?;
    }
    let order = strong_components(alloc, &parts)?;
    let mut known = vec![in alloc; None; count as usize]?;
    for component in &order.components {
        note_all(table, &mut known, &component.nodes);
    }
    all_of(alloc, &known)
}
