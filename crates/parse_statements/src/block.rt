//! The steps of the machine where blocks open and close.

ghost use Rattle.std.specs.Prelude.{◌+◌, ◌≡◌, ◌≤◌, ◌∷◌, suc, IfOk};
ghost use Rattle.syntax.specs.Statements.{nil, guard_of, clause_of, stm_of, stms_of};
ghost use Rattle.parse_statements.specs.Outer.{brace_depth, chain_depth, statement_depth};
ghost use Rattle.parse_statements.specs.Outer.{with_statement, around, opened_if, opened_for};
ghost use Rattle.parse_statements.specs.Outers.{branches_of, outer_of, outers_of};
ghost use Rattle.parse_statements.specs.Bodies.{at_statement, goes, behind_block, up, stop, nesting_at_stop};
ghost use Rattle.parse_statements.specs.BlocksInMemory.{blocks_of};
ghost use Rattle.parse_statements.specs.BodyStates.{state_of, Steps};

use crate::blocks::{Blocks, IfHeader};
use crate::nodes::{append, whole_if};
use crate::outer::{Branch, Outer};
use crate::state::{BodyProgress, BodyState};
use base::Pos;
use parse_expressions::{StepFault, Terminal};
use std::alloc::{AllocError, Global};
use syntax::{Body, Clause, Guard, NESTING_LIMIT, Stmt, block, else_block, for_stmt};

/// The next state, where the token's nesting keeps the limit.
pub fn limited(nesting: usize, next: BodyState) -> Result<BodyProgress, StepFault>
    ensures { Steps result (goes (state_of next)) nesting }
{
    if nesting > NESTING_LIMIT {
        drop(next);
        return Err(StepFault::TooDeep);
    }
    Ok(BodyProgress::Goes(next))
}

/// One statement more in the innermost block.
pub fn with_statement(blocks: Blocks, stmt: Stmt) -> Result<Blocks, AllocError>
    ensures blocks { IfOk result
        (λ b. blocks_of b ≡ with_statement (blocks_of blocks) (stm_of stmt)) }
    ensures depth { IfOk result (λ b. b.depth ≡ blocks.depth) }
{
    let Blocks { outer, done, depth } = blocks;
    let done = append(done, stmt)?;
    Ok(Blocks { outer, done, depth })
}

/// The blocks around the innermost one, where a statement has this nesting.
fn around(outer: Vec<Outer>, done: Vec<Stmt>, depth: usize) -> Blocks
    requires is_depth { depth ≡ suc (brace_depth (outers_of outer.items)) }
    requires small { depth ≤ NESTING_LIMIT + 1 }
    ensures { blocks_of result ≡ around (outers_of outer.items) (stms_of done.items) }
{
    Blocks { outer, done, depth }
}

/// The innermost block, whose closing brace stands at a position, is closed.
#[tactic(auto, using(crate::proofs::Chains::popped))]
fn close(alloc: Global, blocks: Blocks, end: Pos) -> Result<BodyProgress, StepFault>
    ensures { let b = blocks_of blocks in Steps result (up b.outer b.done end) (brace_depth b.outer) }
{
    let Blocks {
        mut outer,
        done: body,
        depth,
    } = blocks;
    match outer.pop() {
        None => Ok(BodyProgress::Ends(Body {
            statements: body,
            end,
        })),
        Some(inner) => {
            let next = behind_block(alloc, outer, inner, body, depth)?;
            Ok(BodyProgress::Goes(next))
        }
    }
}

/// The block of an outer construct is closed, in which a statement has this nesting.
#[tactic(auto, using(crate::proofs::Chains::code_chain_depth))]
fn behind_block(
    alloc: Global,
    outer: Vec<Outer>,
    inner: Outer,
    body: Vec<Stmt>,
    depth: usize,
) -> Result<BodyState, AllocError>
    requires is_depth { depth ≡ suc (brace_depth (outer_of inner ∷ outers_of outer.items)) }
    requires small { depth ≤ NESTING_LIMIT + 1 }
    ensures { IfOk result (λ s. state_of s
        ≡ behind_block (outers_of outer.items) (outer_of inner) (stms_of body.items)) }
{
    match inner {
        Outer::Block(done) => {
            let blocks = around(outer, done, depth - 1);
            Ok(BodyState::Stop(with_statement(blocks, block(body))?))
        }
        Outer::For(done, pos, clause) => {
            let blocks = around(outer, done, depth - 1);
            Ok(BodyState::Stop(with_statement(blocks, for_stmt(pos, clause, body))?))
        }
        Outer::Then(done, branches, pos, guard) => {
            let before = depth - 1 - branches.len();
            let blocks = around(outer, done, before);
            Ok(BodyState::Then(blocks, branches, Branch { pos, guard, body }))
        }
        Outer::Else(done, branches, last) => {
            let before = depth - 1 - branches.len();
            let blocks = around(outer, done, before);
            let whole = whole_if(alloc, branches, last, else_block(body))?;
            Ok(BodyState::Stop(with_statement(blocks, whole)?))
        }
    }
}

/// A token after a statement.
pub fn stop(alloc: Global, blocks: Blocks, token: Terminal) -> Result<BodyProgress, StepFault>
    ensures { let b = blocks_of blocks in
        Steps result (stop b token) (nesting_at_stop b token) }
{
    match token {
        Terminal::Semicolon => limited(blocks.depth, BodyState::Statement(blocks)),
        Terminal::RightBrace(end) => close(alloc, blocks, end),
        _ => Err(StepFault::Unexpected),
    }
}

/// A token after the end of a statement.
pub fn ends(
    alloc: Global,
    blocks: Blocks,
    stmt: Stmt,
    token: Terminal,
) -> Result<BodyProgress, StepFault>
    ensures { let b = with_statement (blocks_of blocks) (stm_of stmt) in
        Steps result (stop b token) (nesting_at_stop b token) }
{
    stop(alloc, with_statement(blocks, stmt)?, token)
}

/// A block opens, whose braces have this nesting.
pub fn enter(
    alloc: Global,
    mut outer: Vec<Outer>,
    inner: Outer,
    depth: usize,
) -> Result<BodyProgress, StepFault>
    requires { depth ≡ brace_depth (outer_of inner ∷ outers_of outer.items) }
    ensures { Steps result
        (goes (at_statement (around (outer_of inner ∷ outers_of outer.items) nil))) depth }
{
    if depth > NESTING_LIMIT {
        drop(inner);
        return Err(StepFault::TooDeep);
    }
    outer.push(inner)?;
    Ok(BodyProgress::Goes(BodyState::Statement(Blocks {
        outer,
        done: Vec::new(alloc),
        depth: depth + 1,
    })))
}

/// The first body of an `if` opens.
pub fn enter_if(alloc: Global, header: IfHeader, guard: Guard) -> Result<BodyProgress, StepFault>
    ensures { let b = blocks_of header.blocks in
        let bs = branches_of header.branches.items in
        Steps result (goes (at_statement (opened_if b bs header.pos (guard_of guard))))
        (chain_depth bs (statement_depth b)) }
{
    let IfHeader {
        blocks,
        branches,
        pos,
        depth,
    } = header;
    let inner = Outer::Then(blocks.done, branches, pos, guard);
    enter(alloc, blocks.outer, inner, depth)
}

/// The body of a `for` opens.
pub fn enter_for(
    alloc: Global,
    blocks: Blocks,
    pos: Pos,
    clause: Clause,
) -> Result<BodyProgress, StepFault>
    ensures { let b = blocks_of blocks in
        Steps result (goes (at_statement (opened_for b pos (clause_of clause)))) (statement_depth b) }
{
    let depth = blocks.depth;
    enter(
        alloc,
        blocks.outer,
        Outer::For(blocks.done, pos, clause),
        depth,
    )
}
