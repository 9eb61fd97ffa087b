//! The parts of values: the fields of structs and the elements of arrays, by the numbers of the types.

ghost use Rattle.std.specs.Prelude.{◌≡◌, MatchOption};
ghost use Rattle.typed_syntax.specs.Types.{ints, width, part_type, part_offset};
ghost use Rattle.typed.specs.View.{nil_type};
ghost use Rattle.typed.specs.Trees.{tree_named};
ghost use Rattle.typed.specs.Formed.{IsFormed};

use crate::table::TypeTable;
use base::{TypeId, ValueType};

/// The machine words of `nil` of a type of pointers or of slices.
pub fn nil_words(value_type: ValueType) -> u32
    ensures { result ≡ width (nil_type value_type) }
{
    match value_type {
        ValueType::Slice(_) => 3,
        _ => 1,
    }
}

impl TypeTable {
    /// The machine words of each value of the type that has a number; where it has no tree, those of a whole number.
    pub fn width(&self, id: TypeId) -> u32
        ensures { result ≡ width (tree_named self.now id.0) }
    {
        self.words_at(id).unwrap_or(1)
    }

    /// The type of whole numbers.
    pub fn int(&self) -> TypeId
        ensures { tree_named self.now result.0 ≡ ints }
    {
        self.find(ValueType::Int).unwrap_or(TypeId(0))
    }

    /// The type of a field or an element, by its number, of the values of the type that has a number; where they have no such part, that of
    /// whole numbers.
    pub fn part(&self, id: TypeId, index: u32) -> TypeId
        ensures { tree_named self.now result.0 ≡ part_type (tree_named self.now id.0) index }
    {
        self.find_part(id, index).unwrap_or(TypeId(0))
    }

    /// The words in front of it.
    pub fn part_offset(&self, id: TypeId, index: u32) -> u64
        ensures { result ≡ part_offset (tree_named self.now id.0) index }
    {
        match self.type_at(id) {
            ValueType::Int | ValueType::Bool => 0,
            ValueType::Pointer(_) | ValueType::Slice(_) => 0,
            ValueType::Struct(struct_id) => u64::from(self.field_offset(struct_id, index as usize)),
            ValueType::Array(length, element) => {
                let before = u64::from(index).min(length);
                before * u64::from(self.words_at(element).unwrap_or(0))
            }
        }
    }

    /// The type of that part, if they have it.
    fn find_part(&self, id: TypeId, index: u32) -> Option<TypeId>
        ensures part { MatchOption result
            (part_type (tree_named self.now id.0) index ≡ ints)
            (λ part. tree_named self.now part.0 ≡ part_type (tree_named self.now id.0) index) }
        ensures formed { IsFormed self.now }
    {
        match self.type_at(id) {
            ValueType::Int | ValueType::Bool => None,
            ValueType::Pointer(_) | ValueType::Slice(_) => None,
            ValueType::Struct(struct_id) => self.fields(struct_id)?.get(index as usize).copied(),
            ValueType::Array(length, element) => (u64::from(index) < length).then_some(element),
        }
    }
}
