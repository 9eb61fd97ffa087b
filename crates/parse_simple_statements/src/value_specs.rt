//! What was read of a declaration of constants or variables, and what is wanted next.

ghost use Rattle.std.specs.Prelude.{◌≡◌};
ghost use Rattle.parse_expressions.specs.States.{context_in};
ghost use Rattle.parse_simple_statements.specs.ValueSpecs.{type_context, value_context};
ghost use Rattle.parse_simple_statements.specs.Spots.{spot_of};

use crate::depth::Depth;
use crate::spot::Spot;
use parse_expressions::Open;
use syntax::{Expr, Name, ValueSpec};

/// The names of one of them, and where it stands.
#[derive(Drop)]
pub struct Named {
    pub depth: Depth,
    pub spot: Spot,
    pub names: Vec<Name>,
}

/// Its type is read.
#[derive(Drop)]
pub struct InType {
    pub named: Named,
    pub reading: Open,
    ghost in_context: { context_in reading ≡ type_context named.depth.brackets (spot_of named.spot) },
}

/// Its names, the type if it stands there, and the values so far.
#[derive(Drop)]
pub struct Valued {
    pub named: Named,
    pub type_expr: Option<Expr>,
    pub values: Vec<Expr>,
}

/// One of its values is read, after the ones before.
#[derive(Drop)]
pub struct InValue {
    pub before: Valued,
    pub reading: Open,
    ghost in_context: { context_in reading ≡ value_context before.named.depth.brackets (spot_of before.named.spot) },
}

/// What was read of a declaration, and what is wanted next.
#[derive(Drop)]
pub enum ValueSpecs {
    /// After the word.
    First(Depth),
    /// In parentheses after the opening one or a semicolon, after these.
    Spec(Depth, Vec<ValueSpec>),
    /// After a comma after these names.
    NextName(Named),
    /// After the last of these names.
    Names(Named),
    Type(InType),
    Value(InValue),
    /// After the closing parenthesis.
    GroupEnd(Depth, Vec<ValueSpec>),
}

/// What a token does.
#[derive(Drop)]
pub enum SpecsProgress {
    /// The declaration goes on.
    Goes(ValueSpecs),
    /// It ended before the token.
    Ends(Vec<ValueSpec>),
}
