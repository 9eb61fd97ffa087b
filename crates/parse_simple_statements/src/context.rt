//! Where a simple statement stands.

ghost use Rattle.std.specs.Prelude.{◌+◌, ◌≤◌};
ghost use Rattle.syntax.specs.declared.limit.TheConstants.{NESTING_LIMIT};

use base::Pos;
use syntax::{ArithmeticOp, Expr, Name};

/// How many brackets are open around a simple statement, whether a literal in it may begin with a name, whether it may be a
/// `:=`, and whether a `range` may follow its operator.
#[derive(Clone, Copy, PartialEq, Eq)]
pub struct Context {
    pub depth: usize,
    pub literals: bool,
    pub defines: bool,
    pub ranges: bool,
    ghost small: { depth ≤ NESTING_LIMIT + 2 },
}

/// A statement with values, up to its operator.
#[derive(Drop)]
pub enum Listed {
    /// The places that are assigned to, and the `=`.
    Assign(Vec<Expr>, Pos),
    /// An assignment with an operator, as `+=`.
    Update(Vec<Expr>, Pos, ArithmeticOp),
    /// The names, and the `:=`.
    Define(Vec<Name>, Pos),
}
