//! The blocks around a statement.

use base::Pos;
use syntax::{Clause, Guard, Stmt};

/// An `if` up to the end of its first body.
#[derive(Drop)]
pub struct Branch {
    pub pos: Pos,
    pub guard: Guard,
    pub body: Vec<Stmt>,
}

/// What a block that is open belongs to, with the statements before it in the block around it.
#[derive(Drop)]
pub enum Outer {
    /// It is a statement itself.
    Block(Vec<Stmt>),
    /// The body of a `for`, with its position and what stands before the body.
    For(Vec<Stmt>, Pos, Clause),
    /// The first body of an `if`, with its position and what stands before the body, after the branches that it is the else
    /// of, the innermost last.
    Then(Vec<Stmt>, Vec<Branch>, Pos, Guard),
    /// The last body of an `if`, after its branches.
    Else(Vec<Stmt>, Vec<Branch>, Branch),
}
