//! The machine of the body of a function.

ghost use Rattle.std.specs.Prelude.{◌≡◌, []};
ghost use Rattle.syntax.specs.Statements.{nil};
ghost use Rattle.parse_statements.specs.Outer.{around};
ghost use Rattle.parse_statements.specs.Bodies.{at_statement, step, nesting};
ghost use Rattle.parse_statements.specs.BodyStates.{state_of, Steps};

use crate::block::stop;
use crate::blocks::Blocks;
use crate::header::{
    behind_else, behind_then, condition, for_header, if_header, in_range, in_second, post, second,
};
use crate::state::{BodyProgress, BodyState, InSimple, InVar};
use crate::statement::{in_return, in_simple, in_var, returned, statement};
use parse_expressions::{StepFault, Terminal};
use std::alloc::Global;

/// A body begins after its opening brace.
pub fn begin_body(alloc: Global) -> BodyState
    ensures { state_of result ≡ at_statement (around [] nil) }
{
    BodyState::Statement(Blocks {
        outer: Vec::new(alloc),
        done: Vec::new(alloc),
        depth: 1,
    })
}

/// One token more.
pub fn step_body(
    alloc: Global,
    state: BodyState,
    token: Terminal,
) -> Result<BodyProgress, StepFault>
    ensures { let s = state_of state in Steps result (step s token) (nesting s token) }
{
    match state {
        BodyState::Statement(blocks) => statement(alloc, blocks, token),
        BodyState::Var(InVar { blocks, pos, specs }) => in_var(alloc, blocks, pos, specs, token),
        BodyState::Simple(InSimple { spot, simples }) => in_simple(alloc, spot, simples, token),
        BodyState::Return(blocks, pos) => returned(alloc, blocks, pos, token),
        BodyState::InReturn(reading) => in_return(alloc, reading, token),
        BodyState::If(header) => if_header(alloc, header, token),
        BodyState::Condition(reading) => condition(alloc, reading, token),
        BodyState::For(blocks, pos) => for_header(alloc, blocks, pos, token),
        BodyState::Second(blocks, pos, init) => second(alloc, blocks, pos, init, token),
        BodyState::InSecond(header, init) => in_second(alloc, header, init, token),
        BodyState::Post(blocks, pos, init, condition) => {
            post(alloc, blocks, pos, init, condition, token)
        }
        BodyState::Range(header, targets, range_pos) => in_range(
            alloc, header, targets, range_pos, token,
        ),
        BodyState::Then(blocks, branches, last) => {
            behind_then(alloc, blocks, branches, last, token)
        }
        BodyState::Else(blocks, branches, last) => {
            behind_else(alloc, blocks, branches, last, token)
        }
        BodyState::Stop(blocks) => stop(alloc, blocks, token),
    }
}
