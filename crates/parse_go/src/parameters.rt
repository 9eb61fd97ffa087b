//! What was read of parameters or results in parentheses, and what is wanted next.

ghost use Rattle.std.specs.Prelude.{◌≡◌};
ghost use Rattle.parse_expressions.specs.States.{context_in};
ghost use Rattle.parse_go.specs.Parameters.{type_context};

use parse_expressions::Open;
use syntax::{Expr, Field, Name, Params};

/// A type is read, after the ones before.
#[derive(Drop)]
pub struct InType {
    pub before: Vec<Expr>,
    pub reading: Open,
    ghost in_context: { context_in reading ≡ type_context },
}

/// The type of some names is read, after the parameters before them.
#[derive(Drop)]
pub struct InNamedType {
    pub before: Vec<Field>,
    pub names: Vec<Name>,
    pub reading: Open,
    ghost in_context: { context_in reading ≡ type_context },
}

/// What was read in the parentheses, and what is wanted next.
#[derive(Drop)]
pub enum Parameters {
    /// After the opening parenthesis or a comma, after names that may be types.
    NameOrType(Vec<Name>),
    /// After the last of such names.
    Names(Vec<Name>),
    /// After a comma after types.
    NextType(Vec<Expr>),
    Type(InType),
    /// After a comma after parameters with names.
    Named(Vec<Field>),
    /// After these and a comma between names.
    NextName(Vec<Field>, Vec<Name>),
    /// After the last of some names.
    NamedNames(Vec<Field>, Vec<Name>),
    NamedType(InNamedType),
}

/// What a token does.
#[derive(Drop)]
pub enum ParametersProgress {
    /// The parentheses stay open.
    Goes(Parameters),
    /// They are closed.
    Ends(Params),
}
