//! Structs as they are declared.

use base::StructId;

/// What stands before the rest of a type: `*`, `[]`, or an array's length in brackets.
#[derive(Clone, Copy, Debug, PartialEq, Eq)]
pub enum Prefix {
    Pointer,
    Slice,
    Array(u64),
}

/// What a type begins from.
#[derive(Clone, Copy, Debug, PartialEq, Eq)]
pub enum Base {
    Int,
    Bool,
    Struct(StructId),
}

/// A type: its prefixes, the outermost first, and its base.
#[derive(Drop)]
pub struct PrefixedType {
    pub prefixes: Vec<Prefix>,
    pub base: Base,
}

/// A struct: the types of its fields in order, with none where what stands there isn't known to be a type.
#[derive(Drop)]
pub struct DeclaredStruct {
    pub fields: Vec<Option<PrefixedType>>,
}
