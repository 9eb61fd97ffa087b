//! The steps of the machine in the headers of `if` and `for`.

ghost use Rattle.std.specs.Prelude.{◌≡◌, ◌≤◌, [], Some, None};
ghost use Rattle.syntax.specs.Expressions.{ex_of, ex_in};
ghost use Rattle.syntax.specs.Statements.{simple_of, simple_in, targets_of};
ghost use Rattle.parse_expressions.specs.Machine as expression;
ghost use Rattle.parse_expressions.specs.States.{open_of, context_in};
ghost use Rattle.parse_statements.specs.Outer.{chain_depth, statement_depth};
ghost use Rattle.parse_statements.specs.Outers.{branch_of, branches_of};
ghost use Rattle.parse_statements.specs.Bodies.{in_if, in_for, at_if, in_condition, at_for, at_second, in_second};
ghost use Rattle.parse_statements.specs.Bodies.{at_post, in_range, at_then, at_else, goes, header_context};
ghost use Rattle.parse_statements.specs.Bodies.{behind_simple, ranges_at, step, nesting, nesting_behind};
ghost use Rattle.parse_statements.specs.BlocksInMemory.{blocks_of, blocks_at, spot_at};
ghost use Rattle.parse_statements.specs.BodyStates.{state_of, Steps};

use crate::block::{ends, enter, enter_for, enter_if, limited};
use crate::blocks::{Blocks, IfHeader, SimpleSpot};
use crate::nodes::whole_if;
use crate::outer::{Branch, Outer};
use crate::state::{BodyProgress, BodyState, InCondition, InFor};
use crate::statement::simple_begins;
use base::Pos;
use parse_expressions::{Open, Progress, StepFault, Terminal, expression, step};
use std::alloc::Global;
use syntax::{Clause, Else, Expr, Guard, NESTING_LIMIT, Simple, Stmt, Targets};

/// A token after a simple statement.
pub fn behind_simple(
    alloc: Global,
    spot: SimpleSpot,
    simple: Simple,
    token: Terminal,
) -> Result<BodyProgress, StepFault>
    ensures { let b = blocks_at spot in
        let s = spot_at spot in
        Steps result (behind_simple b s (simple_of simple) token) (nesting_behind b s token) }
{
    match spot {
        SimpleSpot::Body(blocks) => ends(alloc, blocks, Stmt::Simple(simple), token),
        SimpleSpot::If(header) => behind_init(alloc, header, simple, token),
        SimpleSpot::For(blocks, pos) => behind_first(alloc, blocks, pos, simple, token),
        SimpleSpot::Post(blocks, pos, init, condition) => match token {
            Terminal::LeftBrace(_) => {
                let clause = Clause::Counting(init, condition, Some(simple));
                enter_for(alloc, blocks, pos, clause)
            }
            _ => {
                drop(init);
                drop(condition);
                drop(simple);
                Err(StepFault::Unexpected)
            }
        },
    }
}

/// A token after a simple statement in the header of an `if`.
fn behind_init(
    alloc: Global,
    header: IfHeader,
    simple: Simple,
    token: Terminal,
) -> Result<BodyProgress, StepFault>
    ensures { let b = blocks_of header.blocks in
        let bs = branches_of header.branches.items in
        Steps result (behind_simple b (in_if bs header.pos) (simple_of simple) token)
        (chain_depth bs (statement_depth b)) }
{
    match token {
        Terminal::Semicolon => condition_wanted(alloc, header, Some(simple)),
        Terminal::LeftBrace(_) => match simple {
            Simple::Express(condition) => {
                let guard = Guard {
                    init: None,
                    condition,
                };
                enter_if(alloc, header, guard)
            }
            other => {
                drop(other);
                Err(StepFault::Unexpected)
            }
        },
        _ => {
            drop(simple);
            Err(StepFault::Unexpected)
        }
    }
}

/// A token after a simple statement that begins the header of a `for`.
fn behind_first(
    alloc: Global,
    blocks: Blocks,
    pos: Pos,
    simple: Simple,
    token: Terminal,
) -> Result<BodyProgress, StepFault>
    ensures { let b = blocks_of blocks in
        Steps result (behind_simple b (in_for pos) (simple_of simple) token) (statement_depth b) }
{
    match token {
        Terminal::Semicolon => {
            let depth = blocks.depth;
            limited(depth, BodyState::Second(blocks, pos, Some(simple)))
        }
        Terminal::LeftBrace(_) => match simple {
            Simple::Express(condition) => {
                enter_for(alloc, blocks, pos, Clause::While(condition))
            }
            other => {
                drop(other);
                Err(StepFault::Unexpected)
            }
        },
        _ => {
            drop(simple);
            Err(StepFault::Unexpected)
        }
    }
}

/// A token after `if`.
pub fn if_header(
    alloc: Global,
    header: IfHeader,
    token: Terminal,
) -> Result<BodyProgress, StepFault>
    ensures { let s = at_if (blocks_of header.blocks) (branches_of header.branches.items) header.pos in
        Steps result (step s token) (nesting s token) }
{
    match token {
        Terminal::Semicolon => condition_wanted(alloc, header, None),
        _ => simple_begins(alloc, SimpleSpot::If(header), token),
    }
}

/// The condition of an `if` is wanted after a semicolon.
fn condition_wanted(
    alloc: Global,
    header: IfHeader,
    init: Option<Simple>,
) -> Result<BodyProgress, StepFault>
    ensures { let b = blocks_of header.blocks in
        let bs = branches_of header.branches.items in
        let s = in_condition b bs header.pos (simple_in init) (expression.at_operand []) in
        Steps result (goes s) (chain_depth bs (statement_depth b)) }
{
    let depth = header.depth;
    let reading = expression(alloc, depth, false);
    let next = InCondition {
        header,
        init,
        reading,
    };
    limited(depth, BodyState::Condition(next))
}

/// A token inside the condition of an `if`.
pub fn condition(
    alloc: Global,
    state: InCondition,
    token: Terminal,
) -> Result<BodyProgress, StepFault>
    ensures { let s = state_of (BodyState.Condition state) in
        Steps result (step s token) (nesting s token) }
{
    let InCondition {
        header,
        init,
        reading,
    } = state;
    match step(alloc, reading, token) {
        Err(fault) => {
            drop(init);
            Err(fault)
        }
        Ok(Progress::Goes(reading)) => Ok(BodyProgress::Goes(BodyState::Condition(InCondition {
            header,
            init,
            reading,
        }))),
        Ok(Progress::Ends(part)) => match token {
            Terminal::LeftBrace(_) => {
                let guard = Guard {
                    init,
                    condition: part.expr,
                };
                enter_if(alloc, header, guard)
            }
            _ => {
                drop(init);
                drop(part);
                Err(StepFault::Unexpected)
            }
        },
    }
}

/// A token after `for`.
pub fn for_header(
    alloc: Global,
    blocks: Blocks,
    pos: Pos,
    token: Terminal,
) -> Result<BodyProgress, StepFault>
    ensures { let s = at_for (blocks_of blocks) pos in
        Steps result (step s token) (nesting s token) }
{
    match token {
        Terminal::LeftBrace(_) => enter_for(alloc, blocks, pos, Clause::Forever),
        Terminal::Semicolon => {
            let depth = blocks.depth;
            limited(depth, BodyState::Second(blocks, pos, None))
        }
        Terminal::Range(range_pos) => range_begins(alloc, blocks, pos, Targets::Absent, range_pos),
        _ => simple_begins(alloc, SimpleSpot::For(blocks, pos), token),
    }
}

/// A `range` in the header of a `for`.
fn range_begins(
    alloc: Global,
    blocks: Blocks,
    pos: Pos,
    targets: Targets,
    range_pos: Pos,
) -> Result<BodyProgress, StepFault>
    ensures { let b = blocks_of blocks in
        let s = in_range b pos (targets_of targets) range_pos (expression.at_operand []) in
        Steps result (goes s) (statement_depth b) }
{
    let depth = blocks.depth;
    let reading = for_expression(alloc, blocks, pos);
    limited(depth, BodyState::Range(reading, targets, range_pos))
}

/// An expression in the header of a `for` begins.
fn for_expression(alloc: Global, blocks: Blocks, pos: Pos) -> InFor
    ensures blocks { result.blocks ≡ blocks }
    ensures pos { result.pos ≡ pos }
    ensures wanted { open_of result.reading ≡ expression.at_operand [] }
{
    let reading = expression(alloc, blocks.depth, false);
    InFor {
        blocks,
        pos,
        reading,
    }
}

/// A `range` where a simple statement was read.
pub fn ranges(
    alloc: Global,
    spot: SimpleSpot,
    targets: Targets,
    range_pos: Pos,
) -> Result<BodyProgress, StepFault>
    ensures { let b = blocks_at spot in
        Steps result (ranges_at b (spot_at spot) (targets_of targets) range_pos) (statement_depth b) }
{
    match spot {
        SimpleSpot::For(blocks, pos) => range_begins(alloc, blocks, pos, targets, range_pos),
        other => {
            drop(other);
            drop(targets);
            Err(StepFault::Unexpected)
        }
    }
}

/// A token after the first semicolon of a `for`.
pub fn second(
    alloc: Global,
    blocks: Blocks,
    pos: Pos,
    init: Option<Simple>,
    token: Terminal,
) -> Result<BodyProgress, StepFault>
    ensures { let s = at_second (blocks_of blocks) pos (simple_in init) in
        Steps result (step s token) (nesting s token) }
{
    match token {
        Terminal::Semicolon => {
            let depth = blocks.depth;
            limited(depth, BodyState::Post(blocks, pos, init, None))
        }
        _ => in_second(alloc, for_expression(alloc, blocks, pos), init, token),
    }
}

/// A token inside the condition after it.
pub fn in_second(
    alloc: Global,
    header: InFor,
    init: Option<Simple>,
    token: Terminal,
) -> Result<BodyProgress, StepFault>
    ensures { let s = in_second (blocks_of header.blocks) header.pos (simple_in init) (open_of header.reading) in
        Steps result (step s token) (nesting s token) }
{
    let InFor {
        blocks,
        pos,
        reading,
    } = header;
    match step(alloc, reading, token) {
        Err(fault) => {
            drop(init);
            Err(fault)
        }
        Ok(Progress::Goes(reading)) => {
            let header = InFor {
                blocks,
                pos,
                reading,
            };
            Ok(BodyProgress::Goes(BodyState::InSecond(header, init)))
        }
        Ok(Progress::Ends(part)) => match token {
            Terminal::Semicolon => {
                let depth = blocks.depth;
                limited(depth, BodyState::Post(blocks, pos, init, Some(part.expr)))
            }
            _ => {
                drop(init);
                drop(part);
                Err(StepFault::Unexpected)
            }
        },
    }
}

/// A token after the second semicolon of a `for`.
pub fn post(
    alloc: Global,
    blocks: Blocks,
    pos: Pos,
    init: Option<Simple>,
    condition: Option<Expr>,
    token: Terminal,
) -> Result<BodyProgress, StepFault>
    ensures { let s = at_post (blocks_of blocks) pos (simple_in init) (ex_in condition) in
        Steps result (step s token) (nesting s token) }
{
    match token {
        Terminal::LeftBrace(_) => {
            let clause = Clause::Counting(init, condition, None);
            enter_for(alloc, blocks, pos, clause)
        }
        _ => simple_begins(alloc, SimpleSpot::Post(blocks, pos, init, condition), token),
    }
}

/// A token inside the operand of a `range`.
pub fn in_range(
    alloc: Global,
    header: InFor,
    targets: Targets,
    range_pos: Pos,
    token: Terminal,
) -> Result<BodyProgress, StepFault>
    ensures { let s = in_range (blocks_of header.blocks) header.pos (targets_of targets) range_pos (open_of header.reading) in
        Steps result (step s token) (nesting s token) }
{
    let InFor {
        blocks,
        pos,
        reading,
    } = header;
    match step(alloc, reading, token) {
        Err(fault) => {
            drop(targets);
            Err(fault)
        }
        Ok(Progress::Goes(reading)) => {
            let header = InFor {
                blocks,
                pos,
                reading,
            };
            Ok(BodyProgress::Goes(BodyState::Range(header, targets, range_pos)))
        }
        Ok(Progress::Ends(part)) => match token {
            Terminal::LeftBrace(_) => {
                let clause = Clause::Range(targets, range_pos, part.expr);
                enter_for(alloc, blocks, pos, clause)
            }
            _ => {
                drop(targets);
                drop(part);
                Err(StepFault::Unexpected)
            }
        },
    }
}

/// The nesting of an `if` that is the else of these branches.
#[tactic(auto, using(crate::proofs::Chains::code_chain_depth))]
fn chain_depth(blocks: &Blocks, branches: &[Branch]) -> usize
    ensures { result
        ≡ chain_depth (branches_of branches.now) (statement_depth (blocks_of blocks.now)) }
{
    blocks.depth + branches.len()
}

/// A token after the first body of an `if` that is the else of these branches.
pub fn behind_then(
    alloc: Global,
    blocks: Blocks,
    branches: Vec<Branch>,
    last: Branch,
    token: Terminal,
) -> Result<BodyProgress, StepFault>
    ensures { let s = at_then (blocks_of blocks) (branches_of branches.items) (branch_of last) in
        Steps result (step s token) (nesting s token) }
{
    match token {
        Terminal::Else => {
            let depth = chain_depth(&blocks, &branches);
            limited(depth, BodyState::Else(blocks, branches, last))
        }
        _ => {
            let whole = whole_if(alloc, branches, last, Else::Absent)?;
            ends(alloc, blocks, whole, token)
        }
    }
}

/// A token after the `else` of such an `if`.
pub fn behind_else(
    alloc: Global,
    blocks: Blocks,
    mut branches: Vec<Branch>,
    last: Branch,
    token: Terminal,
) -> Result<BodyProgress, StepFault>
    ensures { let s = at_else (blocks_of blocks) (branches_of branches.items) (branch_of last) in
        Steps result (step s token) (nesting s token) }
{
    let depth = chain_depth(&blocks, &branches);
    match token {
        Terminal::LeftBrace(_) => {
            let inner = Outer::Else(blocks.done, branches, last);
            enter(alloc, blocks.outer, inner, depth)
        }
        Terminal::If(pos) => {
            if depth >= NESTING_LIMIT {
                drop(last);
                return Err(StepFault::TooDeep);
            }
            branches.push(last)?;
            Ok(BodyProgress::Goes(BodyState::If(IfHeader {
                blocks,
                branches,
                pos,
                depth: depth + 1,
            })))
        }
        _ => {
            drop(last);
            Err(StepFault::Unexpected)
        }
    }
}
