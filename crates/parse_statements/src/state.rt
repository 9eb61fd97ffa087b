//! What was read of the body of a function, and what is wanted next.

ghost use Rattle.std.specs.Prelude.{◌≡◌};
ghost use Rattle.parse_expressions.specs.States.{context_in};
ghost use Rattle.parse_statements.specs.Outer.{chain_depth, statement_depth};
ghost use Rattle.parse_statements.specs.Outers.{branches_of};
ghost use Rattle.parse_statements.specs.Bodies.{context_of, header_context, value_context};
ghost use Rattle.parse_statements.specs.BlocksInMemory.{blocks_of, blocks_at, spot_at};
ghost use Rattle.parse_simple_statements.specs.SpecStates.{depth_of};
ghost use Rattle.parse_simple_statements.specs.SimpleStates.{context_at};

use crate::blocks::{Blocks, IfHeader, SimpleSpot};
use crate::outer::Branch;
use base::Pos;
use parse_expressions::Open;
use parse_simple_statements::{Simples, ValueSpecs};
use syntax::{Body, Expr, Simple, Targets};

/// A declaration of variables is read, with the position of its word.
#[derive(Drop)]
pub struct InVar {
    pub blocks: Blocks,
    pub pos: Pos,
    pub specs: ValueSpecs,
    ghost is_depth: { depth_of specs ≡ statement_depth (blocks_of blocks) },
}

/// A simple statement is read.
#[derive(Drop)]
pub struct InSimple {
    pub spot: SimpleSpot,
    pub simples: Simples,
    ghost in_context: { context_at simples ≡ context_of (blocks_at spot) (spot_at spot) },
}

/// A value of a `return` is read, after the ones before.
#[derive(Drop)]
pub struct InReturn {
    pub blocks: Blocks,
    pub pos: Pos,
    pub values: Vec<Expr>,
    pub reading: Open,
    ghost in_context: { context_in reading ≡ value_context (blocks_of blocks) },
}

/// The condition of an `if` is read, after the semicolon and what stands before it.
#[derive(Drop)]
pub struct InCondition {
    pub header: IfHeader,
    pub init: Option<Simple>,
    pub reading: Open,
    ghost in_context: { context_in reading ≡ header_context
        (chain_depth (branches_of header.branches.items) (statement_depth (blocks_of header.blocks))) },
}

/// An expression in the header of a `for` is read, with the position of the word.
#[derive(Drop)]
pub struct InFor {
    pub blocks: Blocks,
    pub pos: Pos,
    pub reading: Open,
    ghost in_context: { context_in reading ≡ header_context (statement_depth (blocks_of blocks)) },
}

/// What was read, and what is wanted next.
#[derive(Drop)]
pub enum BodyState {
    /// A statement may begin.
    Statement(Blocks),
    Var(InVar),
    Simple(InSimple),
    /// After `return`, with its position.
    Return(Blocks, Pos),
    InReturn(InReturn),
    /// After `if`.
    If(IfHeader),
    Condition(InCondition),
    /// After `for`, with its position.
    For(Blocks, Pos),
    /// After the first semicolon of a `for`, and the init statement.
    Second(Blocks, Pos, Option<Simple>),
    /// In the condition after it.
    InSecond(InFor, Option<Simple>),
    /// After the second semicolon of a `for`, the init statement and the condition.
    Post(Blocks, Pos, Option<Simple>, Option<Expr>),
    /// In the operand of a `range`, after what it gives its values to and the position of the word.
    Range(InFor, Targets, Pos),
    /// After the first body of an `if`, the else of these branches, the innermost last.
    Then(Blocks, Vec<Branch>, Branch),
    /// After the `else` of such an `if`.
    Else(Blocks, Vec<Branch>, Branch),
    /// After a statement.
    Stop(Blocks),
}

/// What a token does.
#[derive(Drop)]
pub enum BodyProgress {
    /// The body goes on.
    Goes(BodyState),
    /// The token is its closing brace.
    Ends(Body),
}
