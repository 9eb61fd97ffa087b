//! The steps of the machine in statements without blocks.

ghost use Rattle.std.specs.Prelude.{◌≡◌, []};
ghost use Rattle.syntax.specs.Expressions.{none, exs_of};
ghost use Rattle.syntax.specs.Statements.{simple_of};
ghost use Rattle.parse_expressions.specs.Machine as expression;
ghost use Rattle.parse_expressions.specs.States.{open_of, context_in};
ghost use Rattle.parse_simple_statements.specs.Grammar.{of_variables};
ghost use Rattle.parse_statements.specs.Outer.{statement_depth};
ghost use Rattle.parse_simple_statements.specs.ValueSpecs as value_specs;
ghost use Rattle.parse_simple_statements.specs.Simples as simples;
ghost use Rattle.parse_statements.specs.Bodies.{at_statement, in_var, in_simple, at_return, in_return, context_of};
ghost use Rattle.parse_statements.specs.Bodies.{simple_begins, behind_returned, spot_depth, step, nesting, nesting_at_stop};
ghost use Rattle.parse_simple_statements.specs.Contexts as contexts;
ghost use Rattle.parse_statements.specs.BlocksInMemory.{blocks_of, blocks_at, spot_at};
ghost use Rattle.parse_simple_statements.specs.SpecStates.{specs_of, depth_of};
ghost use Rattle.parse_simple_statements.specs.SimpleStates.{simples_of, context_at};
ghost use Rattle.parse_statements.specs.BodyStates.{state_of, Steps};

use crate::block::{ends, enter, limited, stop, with_statement};
use crate::blocks::{Blocks, IfHeader, SimpleSpot};
use crate::header::{behind_simple, ranges};
use crate::outer::Outer;
use crate::state::{BodyProgress, BodyState, InReturn, InSimple, InVar};
use base::Pos;
use parse_expressions::{Open, Progress, StepFault, Terminal, expression, step};
use parse_simple_statements::{
    Context, Declares, SimpleProgress, Simples, SpecsProgress, ValueSpecs, begin_simple,
    begin_specs, step_simple, step_specs, with_value,
};
use std::alloc::Global;
use syntax::{Expr, Stmt};

/// A token where a statement may begin.
pub fn statement(alloc: Global, blocks: Blocks, token: Terminal) -> Result<BodyProgress, StepFault>
    ensures { let s = at_statement (blocks_of blocks) in
        Steps result (step s token) (nesting s token) }
{
    let depth = blocks.depth;
    match token {
        Terminal::Var(pos) => {
            let specs = begin_specs(depth);
            limited(depth, BodyState::Var(InVar { blocks, pos, specs }))
        }
        Terminal::If(pos) => {
            let header = IfHeader {
                blocks,
                branches: Vec::new(alloc),
                pos,
                depth,
            };
            limited(depth, BodyState::If(header))
        }
        Terminal::For(pos) => limited(depth, BodyState::For(blocks, pos)),
        Terminal::Return(pos) => limited(depth, BodyState::Return(blocks, pos)),
        Terminal::Break(pos) => {
            let blocks = with_statement(blocks, Stmt::Break(pos))?;
            limited(depth, BodyState::Stop(blocks))
        }
        Terminal::Continue(pos) => {
            let blocks = with_statement(blocks, Stmt::Continue(pos))?;
            limited(depth, BodyState::Stop(blocks))
        }
        Terminal::LeftBrace(_) => enter(alloc, blocks.outer, Outer::Block(blocks.done), depth),
        Terminal::Semicolon | Terminal::RightBrace(_) => stop(alloc, blocks, token),
        _ => simple_begins(alloc, SimpleSpot::Body(blocks), token),
    }
}

/// A token inside a declaration of variables.
pub fn in_var(
    alloc: Global,
    blocks: Blocks,
    pos: Pos,
    specs: ValueSpecs,
    token: Terminal,
) -> Result<BodyProgress, StepFault>
    requires { depth_of specs ≡ statement_depth (blocks_of blocks) }
    ensures { let s = in_var (blocks_of blocks) pos (specs_of specs) in
        Steps result (step s token) (nesting s token) }
{
    match step_specs(alloc, Declares::Variables, specs, token) {
        Err(fault) => Err(fault),
        Ok(SpecsProgress::Goes(specs)) => {
            Ok(BodyProgress::Goes(BodyState::Var(InVar { blocks, pos, specs })))
        }
        Ok(SpecsProgress::Ends(specs)) => ends(alloc, blocks, Stmt::Var(pos, specs), token),
    }
}

/// Where a simple statement stands.
fn context_of(spot: &SimpleSpot) -> Context
    ensures { contexts.context_of result ≡ context_of (blocks_at spot.now) (spot_at spot.now) }
{
    match spot {
        SimpleSpot::Body(blocks) => Context {
            depth: blocks.depth,
            literals: true,
            defines: true,
            ranges: false,
        },
        SimpleSpot::If(header) => Context {
            depth: header.depth,
            literals: false,
            defines: true,
            ranges: false,
        },
        SimpleSpot::For(blocks, _) => Context {
            depth: blocks.depth,
            literals: false,
            defines: true,
            ranges: true,
        },
        SimpleSpot::Post(blocks, ..) => Context {
            depth: blocks.depth,
            literals: false,
            defines: false,
            ranges: false,
        },
    }
}

/// The first token of a simple statement.
pub fn simple_begins(
    alloc: Global,
    spot: SimpleSpot,
    token: Terminal,
) -> Result<BodyProgress, StepFault>
    ensures { let b = blocks_at spot in
        let s = spot_at spot in
        Steps result (simple_begins b s token) (spot_depth b s) }
{
    let simples = begin_simple(alloc, context_of(&spot));
    in_simple(alloc, spot, simples, token)
}

/// A token inside a simple statement.
pub fn in_simple(
    alloc: Global,
    spot: SimpleSpot,
    simples: Simples,
    token: Terminal,
) -> Result<BodyProgress, StepFault>
    requires { context_at simples ≡ context_of (blocks_at spot) (spot_at spot) }
    ensures { let s = in_simple (blocks_at spot) (spot_at spot) (simples_of simples) in
        Steps result (step s token) (nesting s token) }
{
    match step_simple(alloc, simples, token) {
        Err(fault) => {
            drop(spot);
            Err(fault)
        }
        Ok(SimpleProgress::Goes(simples)) => {
            Ok(BodyProgress::Goes(BodyState::Simple(InSimple { spot, simples })))
        }
        Ok(SimpleProgress::Ends(simple)) => behind_simple(alloc, spot, simple, token),
        Ok(SimpleProgress::Ranges(targets, range_pos)) => ranges(alloc, spot, targets, range_pos),
    }
}

/// A token after `return`.
pub fn returned(
    alloc: Global,
    blocks: Blocks,
    pos: Pos,
    token: Terminal,
) -> Result<BodyProgress, StepFault>
    ensures { let s = at_return (blocks_of blocks) pos in
        Steps result (step s token) (nesting s token) }
{
    match token {
        Terminal::Semicolon | Terminal::RightBrace(_) => {
            ends(alloc, blocks, Stmt::Return(pos, Vec::new(alloc)), token)
        }
        _ => {
            let reading = value_wanted(alloc, blocks, pos, Vec::new(alloc));
            in_return(alloc, reading, token)
        }
    }
}

/// A token inside a value of a `return`.
pub fn in_return(alloc: Global, state: InReturn, token: Terminal) -> Result<BodyProgress, StepFault>
    ensures { let s = state_of (BodyState.InReturn state) in
        Steps result (step s token) (nesting s token) }
{
    let InReturn {
        blocks,
        pos,
        values,
        reading,
    } = state;
    match step(alloc, reading, token) {
        Err(fault) => Err(fault),
        Ok(Progress::Goes(reading)) => Ok(BodyProgress::Goes(BodyState::InReturn(InReturn {
            blocks,
            pos,
            values,
            reading,
        }))),
        Ok(Progress::Ends(part)) => {
            let values = with_value(values, part.expr)?;
            behind_returned(alloc, blocks, pos, values, token)
        }
    }
}

/// A value of a `return` is wanted.
fn value_wanted(alloc: Global, blocks: Blocks, pos: Pos, values: Vec<Expr>) -> InReturn
    ensures { state_of (BodyState.InReturn result)
        ≡ in_return (blocks_of blocks) pos (exs_of values.items) (expression.at_operand []) }
{
    let reading = expression(alloc, blocks.depth, true);
    InReturn {
        blocks,
        pos,
        values,
        reading,
    }
}

/// A token after a value of a `return`.
fn behind_returned(
    alloc: Global,
    blocks: Blocks,
    pos: Pos,
    values: Vec<Expr>,
    token: Terminal,
) -> Result<BodyProgress, StepFault>
    ensures { let b = blocks_of blocks in
        Steps result (behind_returned b pos (exs_of values.items) token) (nesting_at_stop b token) }
{
    match token {
        Terminal::Comma => {
            let depth = blocks.depth;
            let next = value_wanted(alloc, blocks, pos, values);
            limited(depth, BodyState::InReturn(next))
        }
        _ => ends(alloc, blocks, Stmt::Return(pos, values), token),
    }
}
