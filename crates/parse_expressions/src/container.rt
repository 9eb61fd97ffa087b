//! What elements in braces belong to.

use base::Pos;
use syntax::Expr;

/// What the elements in braces belong to.
#[derive(Drop)]
pub enum Container {
    /// A literal of this type.
    Typed(Expr),
    /// An element without a type, whose brace stands at this position.
    Untyped(Pos),
}
