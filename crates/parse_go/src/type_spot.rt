//! Where a struct type stands, and its fields so far.

use syntax::{Field, Name, TypeSpec};

/// Where a struct type stands.
#[derive(Drop)]
pub enum TypeSpot {
    /// Alone after the word `type`.
    Alone,
    /// In parentheses, after these.
    Group(Vec<TypeSpec>),
}

/// A struct type whose brace is open, with its fields so far.
#[derive(Drop)]
pub struct StructFields {
    pub spot: TypeSpot,
    pub name: Name,
    pub fields: Vec<Field>,
}
