//! The fields of structs by their names, and the parts of structs and arrays by their numbers.

ghost use Rattle.std.specs.Prelude.{◌≡◌};
ghost use Rattle.std.specs.Option.{option_map};
ghost use Rattle.names.specs.Scope.{scope_of};
ghost use Rattle.names.specs.Fields.{field_type, part_type, known_number, part_of, part_count, field_number, named_field};

use crate::scope::Scope;
use crate::type_names::is_known;
use base::{StructId, TypeId, ValueType};
use typed::TypeTable;

/// A part of a struct or an array: the number of the whole's type, the part's number in it, and its type.
#[derive(Clone, Copy, Debug, PartialEq, Eq)]
pub struct Part {
    pub owner: TypeId,
    pub number: u32,
    pub value_type: ValueType,
}

/// The type of a struct's field, by its number.
fn field_type(types: &TypeTable, id: StructId, number: u32) -> Option<ValueType>
    ensures { result ≡ field_type types.now id.0 number }
{
    let fields = types.fields(id)?;
    let type_id = fields.get(number as usize)?;
    Some(types.type_at(*type_id))
}

/// The type of the part that has a number, if there is one.
fn part_type(types: &TypeTable, whole: ValueType, number: u32) -> Option<ValueType>
    ensures { result ≡ part_type types.now whole number }
{
    match whole {
        ValueType::Struct(id) => field_type(types, id, number),
        ValueType::Array(length, element) if u64::from(number) < length => Some(types.type_at(
            element,
        )),
        _ => None,
    }
}

/// The number of a type that has words.
fn known_number(types: &TypeTable, value_type: ValueType) -> Option<TypeId>
    ensures { option_map (λ id. id.0) result ≡ known_number types.now value_type }
{
    if is_known(types, value_type) {
        types.find(value_type)
    } else {
        None
    }
}

/// The part of a type that has a number: a field of a struct that is told, or an element of an array.
pub fn part_of(types: &TypeTable, whole: ValueType, number: u32) -> Option<Part>
    ensures { result ≡ part_of types.now whole number }
{
    let owner = known_number(types, whole)?;
    let value_type = part_type(types, whole, number)?;
    Some(Part {
        owner,
        number,
        value_type,
    })
}

/// How many parts a type has: the fields of a struct, or the elements of an array.
pub fn part_count(types: &TypeTable, whole: ValueType) -> u64
    ensures { result ≡ part_count types.now whole }
{
    match whole {
        ValueType::Struct(id) => match types.fields(id) {
            Some(fields) => fields.len() as u64,
            None => 0,
        },
        ValueType::Array(length, _) => length,
        _ => 0,
    }
}

/// The number of a struct's field that has a name.
fn field_number(scope: &Scope, id: StructId, name: &[u8]) -> Option<u32>
    ensures { result ≡ field_number (scope_of scope.now) id.0 name.now }
{
    scope.fields.get(id.0 as usize)?.innermost(name)
}

/// The field of a type that has a name, where the type is a struct with such a field.
pub fn named_field(scope: &Scope, whole: ValueType, name: &[u8]) -> Option<Part>
    ensures { result ≡ named_field (scope_of scope.now) whole name.now }
{
    let ValueType::Struct(id) = whole else {
        return None;
    };
    let number = field_number(scope, id, name)?;
    part_of(&scope.types, whole, number)
}
