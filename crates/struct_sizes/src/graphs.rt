//! Which struct holds or mentions which.

ghost use Rattle.std.specs.Prelude.{◌≡◌, ◌++◌, IfOk, OnOk};
ghost use Rattle.std.specs.List.{flat_map};
ghost use Rattle.struct_sizes.specs.Structs.{field_of, fields_of, structs_of, named, is_in_place, held_in, mentioned_in, holds, mentions};
ghost use Rattle.components.specs.Graph.{rows};

use crate::forms::{Base, DeclaredStruct, Prefix, PrefixedType};
use base::NoMemory;
use std::alloc::Global;

/// Whether what stands behind prefixes stands in place: arrays alone, and no pointer or slice.
fn is_in_place(prefixes: &[Prefix]) -> bool
    ensures { result ≡ is_in_place prefixes.now }
{
    for prefix in prefixes {
        match prefix {
            Prefix::Array(_) => {}
            Prefix::Pointer | Prefix::Slice => return false,
        }
    }
    true
}

/// Adds the struct that a type begins from, if it is one.
fn add_named(ends: &mut Vec<u32>, base: Base) -> Result<(), NoMemory>
    ensures { OnOk result (ends.new.items ≡ ends.old.items ++ named base) }
{
    match base {
        Base::Int | Base::Bool => Ok(()),
        Base::Struct(id) => Ok(ends.push(id.0)?),
    }
}

/// Adds the struct that a field holds.
fn add_held(ends: &mut Vec<u32>, field: &Option<PrefixedType>) -> Result<(), NoMemory>
    ensures { OnOk result (ends.new.items ≡ ends.old.items ++ held_in (field_of field.now)) }
{
    match field {
        Some(t) if is_in_place(&t.prefixes) => add_named(ends, t.base),
        _ => Ok(()),
    }
}

/// Adds the struct that a field mentions.
fn add_mentioned(ends: &mut Vec<u32>, field: &Option<PrefixedType>) -> Result<(), NoMemory>
    ensures { OnOk result (ends.new.items ≡ ends.old.items ++ mentioned_in (field_of field.now)) }
{
    match field {
        Some(t) => add_named(ends, t.base),
        None => Ok(()),
    }
}

/// The structs that a struct holds.
fn held_by(alloc: Global, declared: &DeclaredStruct) -> Result<Vec<u32>, NoMemory>
    ensures { IfOk result (λ v. v.items ≡ flat_map held_in (fields_of declared.now)) }
{
    let mut ends = Vec::new(alloc);
    for field in &declared.fields {
        add_held(&mut ends, field)?;
    }
    Ok(ends)
}

/// The structs that a struct mentions.
fn mentioned_by(alloc: Global, declared: &DeclaredStruct) -> Result<Vec<u32>, NoMemory>
    ensures { IfOk result (λ v. v.items ≡ flat_map mentioned_in (fields_of declared.now)) }
{
    let mut ends = Vec::new(alloc);
    for field in &declared.fields {
        add_mentioned(&mut ends, field)?;
    }
    Ok(ends)
}

/// For each struct, those that it holds.
pub fn holds(alloc: Global, structs: &[DeclaredStruct]) -> Result<Vec<Vec<u32>>, NoMemory>
    ensures { IfOk result (λ v. rows v.items ≡ holds (structs_of structs.now)) }
{
    let mut all = Vec::new(alloc);
    for declared in structs {
        let ends = held_by(alloc, declared)?;
        all.push(ends)?;
    }
    Ok(all)
}

/// For each struct, those that it mentions.
pub fn mentions(alloc: Global, structs: &[DeclaredStruct]) -> Result<Vec<Vec<u32>>, NoMemory>
    ensures { IfOk result (λ v. rows v.items ≡ mentions (structs_of structs.now)) }
{
    let mut all = Vec::new(alloc);
    for declared in structs {
        let ends = mentioned_by(alloc, declared)?;
        all.push(ends)?;
    }
    Ok(all)
}
