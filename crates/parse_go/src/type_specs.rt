//! What was read of a declaration of struct types, and what is wanted next.

ghost use Rattle.std.specs.Prelude.{◌≡◌};
ghost use Rattle.parse_expressions.specs.States.{context_in};
ghost use Rattle.parse_go.specs.TypeSpecs.{type_context};
ghost use Rattle.parse_go.specs.TypeSpots.{struct_of};

use crate::type_spot::{StructFields, TypeSpot};
use parse_expressions::Open;
use syntax::{Name, TypeSpec};

/// The type of some fields is read, after their names.
#[derive(Drop)]
pub struct InFieldType {
    pub owner: StructFields,
    pub names: Vec<Name>,
    pub reading: Open,
    ghost in_context: { context_in reading ≡ type_context (struct_of owner) },
}

/// What was read of a declaration, and what is wanted next.
#[derive(Drop)]
pub enum TypeSpecs {
    /// After the word `type`.
    First,
    /// In parentheses after the opening one or a semicolon, after these.
    Spec(Vec<TypeSpec>),
    /// After the name.
    Struct(TypeSpot, Name),
    /// After the word `struct`.
    Brace(TypeSpot, Name),
    /// In braces after the opening one or a semicolon.
    Field(StructFields),
    /// After a comma after these names.
    NextName(StructFields, Vec<Name>),
    /// After the last of these names.
    Names(StructFields, Vec<Name>),
    Type(InFieldType),
    /// After the closing brace.
    End(TypeSpot, TypeSpec),
    /// After the closing parenthesis.
    GroupEnd(Vec<TypeSpec>),
}

/// What a token does.
#[derive(Drop)]
pub enum TypesProgress {
    /// The declaration goes on.
    Goes(TypeSpecs),
    /// It ended before the token.
    Ends(Vec<TypeSpec>),
}
