//! Expressions and types that were read, with their heights.

ghost use Rattle.std.specs.Prelude.{◌+◌, ◌≡◌, min, false};
ghost use Rattle.syntax.specs.declared.limit.TheConstants.{NESTING_LIMIT};
ghost use Rattle.syntax.specs.Expressions.{call, ex_of, exs_of, bound_of};
ghost use Rattle.syntax.specs.Heights.{capped_height, bound_height};

use syntax::{Bound, Expr};

/// An expression or a type, and its height, counted to one above the limit.
#[derive(Drop)]
pub struct Part {
    pub expr: Expr,
    pub height: usize,
    ghost is_height: { height ≡ capped_height (ex_of expr) },
}

/// The low bound of a slice expression, and its height, counted to one above the limit.
#[derive(Drop)]
pub struct Low {
    pub bound: Bound,
    pub height: usize,
    ghost is_height: { height ≡ min (bound_height (bound_of bound)) (NESTING_LIMIT + 1) },
}

/// A call that is not closed: the function, the arguments so far, and the height of the call with these, counted to one
/// above the limit.
#[derive(Drop)]
pub struct Call {
    pub function: Expr,
    pub arguments: Vec<Expr>,
    pub height: usize,
    ghost is_height: { height ≡ capped_height (call (ex_of function) (exs_of arguments.items) false) },
}
