//! What was read of a simple statement, and what is wanted next.

ghost use Rattle.std.specs.Prelude.{◌≡◌};
ghost use Rattle.parse_expressions.specs.States.{context_in};
ghost use Rattle.parse_simple_statements.specs.Simples as simples;
ghost use Rattle.parse_simple_statements.specs.Contexts.{context_of};

use crate::context::{Context, Listed};
use base::Pos;
use parse_expressions::Open;
use syntax::{Expr, Simple, Targets};

/// An expression of the statement is read.
#[derive(Drop)]
pub struct InExpression {
    pub context: Context,
    pub reading: Open,
    ghost in_context: { context_in reading ≡ simples.expression_context (context_of context) },
}

/// What was read of a simple statement, and what is wanted next.
#[derive(Drop)]
pub enum Simples {
    /// An expression is read after these.
    Left(Vec<Expr>, InExpression),
    /// After the operator.
    Value(Context, Listed),
    /// A value is read after these.
    InValue(Listed, Vec<Expr>, InExpression),
    /// After `++` or `--`.
    End(Context, Simple),
}

/// What a token does.
#[derive(Drop)]
pub enum SimpleProgress {
    /// The statement goes on.
    Goes(Simples),
    /// It ended before the token.
    Ends(Simple),
    /// The token is a `range` after these, with its position.
    Ranges(Targets, Pos),
}
