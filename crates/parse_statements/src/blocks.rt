//! Where a statement stands.

ghost use Rattle.std.specs.Prelude.{◌+◌, ◌≡◌, ◌≤◌, suc};
ghost use Rattle.syntax.specs.declared.limit.TheConstants.{NESTING_LIMIT};
ghost use Rattle.parse_statements.specs.Outer.{brace_depth, chain_depth};
ghost use Rattle.parse_statements.specs.Outers.{branches_of, outers_of};

use crate::outer::{Branch, Outer};
use base::Pos;
use syntax::{Expr, Simple, Stmt};

/// The blocks that are open in the body of a function: what each block but the outermost belongs to, the innermost last,
/// the statements of the innermost block so far, and the nesting of the next one.
#[derive(Drop)]
pub struct Blocks {
    pub outer: Vec<Outer>,
    pub done: Vec<Stmt>,
    pub depth: usize,
    ghost is_depth: { depth ≡ suc (brace_depth (outers_of outer.items)) },
    ghost small: { depth ≤ NESTING_LIMIT + 1 },
}

/// The header of an `if`: the branches that it is the else of, the innermost last, its position, and its nesting.
#[derive(Drop)]
pub struct IfHeader {
    pub blocks: Blocks,
    pub branches: Vec<Branch>,
    pub pos: Pos,
    pub depth: usize,
    ghost is_depth: { depth ≡ chain_depth (branches_of branches.items) (suc (brace_depth (outers_of blocks.outer.items))) },
    ghost small: { depth ≤ NESTING_LIMIT + 1 },
}

/// Where a simple statement stands.
#[derive(Drop)]
pub enum SimpleSpot {
    Body(Blocks),
    If(IfHeader),
    /// In the header of a `for`, with the position of the word.
    For(Blocks, Pos),
    /// A post statement, after the init statement and the condition.
    Post(Blocks, Pos, Option<Simple>, Option<Expr>),
}
