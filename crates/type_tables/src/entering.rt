//! The types of fields enter a table in which no struct is told.

ghost use Rattle.std.specs.Prelude.{◌≡◌, length, map, OnOk, IfOk, None, Some};
ghost use Rattle.std.specs.List.{fold};
ghost use Rattle.std.specs.Option.{option_map};
ghost use Rattle.base.specs.declared.value_type.ValueType.TheVariants.{Array as ArrayType};
ghost use Rattle.typed.specs.declared.fault.TableFault.TheVariants.{NoMemory as OutOfMemory};
ghost use Rattle.struct_sizes.specs.Structs.{prefixed_of, field_of, fields_of, structs_of};
ghost use Rattle.typed.specs.Tables.{Holds, with_type, lists_of};
ghost use Rattle.typed.specs.Formed.{IsFormed, Stands, refusal};
ghost use Rattle.type_tables.specs.Told.{base_type, with_prefixed, with_field, with_struct, sized_struct, sized_structs};
ghost use Rattle.type_tables.specs.Types.{IsTypeOf, IsNumberOf, AreNumbersOf, IsToldAs};
ghost use Rattle.type_tables.specs.Fits.{IsArray, Fits, FieldsFit, StructFits, StructsFit, IsUntold, AreToldAs};

use base::{NoMemory, TypeId, ValueType};
use std::alloc::Global;
use struct_sizes::{Base, DeclaredStruct, Prefix, PrefixedType, Verdict};
use typed::{TableFault, TypeTable};

/// The one fault that is left where a type isn't refused.
fn out_of_memory(fault: TableFault) -> NoMemory
    requires { fault ≡ OutOfMemory }
{
    match fault {
        TableFault::NoMemory => NoMemory,
        TableFault::Empty | TableFault::TooLarge => unreachable!(),
    }
}

/// Gives a type that isn't refused a number, if it has none yet.
fn enter(table: &mut TypeTable, value_type: ValueType) -> Result<TypeId, NoMemory>
    requires stands { Stands table.old value_type }
    requires fine { refusal table.old value_type ≡ None }
    ensures entered { OnOk result (table.new ≡ with_type table.old value_type) }
    ensures held { IfOk result (λ id. Holds table.new id.0 value_type) }
    ensures formed { IsFormed table.new }
{
    match table.enter(value_type) {
        Ok(id) => Ok(id),
        Err(fault) => Err(out_of_memory(fault)),
    }
}

/// The type that a base is.
fn base_type(base: Base) -> ValueType
    ensures { result ≡ base_type base }
{
    match base {
        Base::Int => ValueType::Int,
        Base::Bool => ValueType::Bool,
        Base::Struct(id) => ValueType::Struct(id),
    }
}

/// The length of an array's prefix.
fn array_length(prefix: Prefix) -> u64
    requires { IsArray prefix }
    ensures { prefix ≡ Prefix.Array result }
{
    match prefix {
        Prefix::Array(length) => length,
        Prefix::Pointer | Prefix::Slice => unreachable!(),
    }
}

/// The number of a type: its base enters, and then its arrays, from the innermost outwards.
fn enter_type(table: &mut TypeTable, t: &PrefixedType) -> Result<TypeId, NoMemory>
    requires formed { IsFormed table.old }
    requires untold { IsUntold table.old }
    requires fits { Fits (Some (prefixed_of t.now)) }
    ensures entered { OnOk result (table.new ≡ with_prefixed table.old t.now.prefixes.items t.now.base) }
    ensures number { IfOk result (λ id. IsTypeOf table.new t.now.prefixes.items t.now.base id.0) }
    ensures formed { IsFormed table.new }
{
    let mut id = enter(table, base_type(t.base))?;
    let mut level = t.prefixes.len();
    while level > 0 {
        level -= 1;
        let length = array_length(t.prefixes[level]);
        id = enter(table, ValueType::Array(length, id))?;
    }
    Ok(id)
}

/// The number of a field's type. A field that isn't known to have one is in no struct that isn't refused.
fn enter_field(table: &mut TypeTable, field: &Option<PrefixedType>) -> Result<TypeId, NoMemory>
    requires formed { IsFormed table.old }
    requires untold { IsUntold table.old }
    requires fits { Fits (field_of field.now) }
    ensures entered { OnOk result (table.new ≡ with_field table.old (field_of field.now)) }
    ensures number { IfOk result (λ id. IsNumberOf table.new (field_of field.now) id) }
    ensures formed { IsFormed table.new }
{
    match field {
        Some(t) => enter_type(table, t),
        None => unreachable!(),
    }
}

/// The numbers of the types of fields.
fn enter_fields(
    alloc: Global,
    table: &mut TypeTable,
    fields: &[Option<PrefixedType>],
) -> Result<Vec<TypeId>, NoMemory>
    requires formed { IsFormed table.old }
    requires untold { IsUntold table.old }
    requires fit { FieldsFit (map field_of fields.now) }
    ensures entered { OnOk result (table.new ≡ fold with_field table.old (map field_of fields.now)) }
    ensures numbers { IfOk result (λ ids. AreNumbersOf table.new (map field_of fields.now) ids.items) }
    ensures formed { IsFormed table.new }
{
    let mut ids = Vec::with_capacity(alloc, fields.len())?;
    for field in fields {
        let id = enter_field(table, field)?;
        ids.push(id)?;
    }
    Ok(ids)
}

/// The numbers of the types of a struct's fields, if it isn't refused.
fn enter_struct(
    alloc: Global,
    table: &mut TypeTable,
    declared: &DeclaredStruct,
    verdict: Verdict,
) -> Result<Option<Vec<TypeId>>, NoMemory>
    requires formed { IsFormed table.old }
    requires untold { IsUntold table.old }
    requires fit { StructFits (sized_struct verdict (fields_of declared.now)) }
    ensures entered { OnOk result (table.new ≡ with_struct table.old (sized_struct verdict (fields_of declared.now))) }
    ensures told { IfOk result (λ ids. IsToldAs table.new (sized_struct verdict (fields_of declared.now))
        (option_map (λ l. l.items) ids)) }
    ensures formed { IsFormed table.new }
{
    match verdict {
        Verdict::Sized(_) => Ok(Some(enter_fields(alloc, table, &declared.fields)?)),
        Verdict::Refused(_) => Ok(None),
    }
}

/// The numbers of the types of the fields of each struct that isn't refused. The types enter in the order of the text.
pub fn enter_structs(
    alloc: Global,
    table: &mut TypeTable,
    structs: &[DeclaredStruct],
    verdicts: &[Verdict],
) -> Result<Vec<Option<Vec<TypeId>>>, NoMemory>
    requires formed { IsFormed table.old }
    requires untold { IsUntold table.old }
    requires size { length verdicts.now ≡ length structs.now }
    requires fit { StructsFit (sized_structs (structs_of structs.now) verdicts.now) }
    ensures entered { OnOk result (table.new ≡ fold with_struct table.old (sized_structs (structs_of structs.now) verdicts.now)) }
    ensures told { IfOk result (λ all. AreToldAs table.new (sized_structs (structs_of structs.now) verdicts.now)
        (lists_of all.items)) }
    ensures formed { IsFormed table.new }
{
    let mut all = Vec::with_capacity(alloc, structs.len())?;
    for index in 0..structs.len() {
        let ids = enter_struct(alloc, table, &structs[index], verdicts[index])?;
        all.push(ids)?;
    }
    Ok(all)
}
