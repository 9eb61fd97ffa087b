//! Tokens inside a call.

ghost use Rattle.std.specs.Prelude.{◌≡◌, max, suc, ◌∷◌};
ghost use Rattle.syntax.specs.Expressions.{none, call, ex_of, exs_of};
ghost use Rattle.syntax.specs.Heights.{height};
ghost use Rattle.parse_expressions.specs.Machine.{goes, at_argument, at_operator, closes, closes_type, step};
ghost use Rattle.parse_expressions.specs.Machine.{nesting_at_closes, nesting};
ghost use Rattle.parse_expressions.specs.Stacks.{frame_of};
ghost use Rattle.parse_expressions.specs.States.{open_of, context_of, frames_in, depth_in, Steps};

use crate::fault::StepFault;
use crate::frame::Frame;
use crate::open::{Open, Progress};
use crate::operand::{limited, operand_inside};
use crate::part::{Call, Part};
use crate::parts::{opened_call, whole_call, with_argument};
use crate::reading::{Opened, Reading};
use crate::terminal::Terminal;
use std::alloc::Global;
use syntax::NESTING_LIMIT;

/// The opening parenthesis of a call after its function.
pub fn begin(alloc: Global, reading: Reading, function: Part) -> Result<Progress, StepFault>
    ensures { Steps result (context_of reading.context)
        (goes (at_argument (frames_in reading) (ex_of function.expr) none))
        (max (depth_in reading) (suc (height (ex_of function.expr)))) }
{
    if reading.depth > NESTING_LIMIT || function.height >= NESTING_LIMIT {
        drop(function);
        return Err(StepFault::TooDeep);
    }
    let call = opened_call(alloc, function);
    Ok(Progress::Goes(Open::Argument(Opened { outside: reading }, call)))
}

/// The closing parenthesis of a call.
fn end(alloc: Global, reading: Reading, pending: Call, spread: bool) -> Result<Progress, StepFault>
    ensures { let whole = call (ex_of pending.function) (exs_of pending.arguments.items) spread in
        Steps result (context_of reading.context) (goes (at_operator (frames_in reading) whole))
        (depth_in reading) }
{
    let whole = whole_call(alloc, pending, spread)?;
    limited(reading.depth, Open::Operator(reading, whole))
}

/// A comma after an argument.
fn comma(reading: Reading, call: Call) -> Result<Progress, StepFault>
    ensures { let es = exs_of call.arguments.items in
        Steps result (context_of reading.context)
        (goes (at_argument (frames_in reading) (ex_of call.function) es)) (suc (depth_in reading)) }
{
    if reading.depth >= NESTING_LIMIT {
        drop(call);
        return Err(StepFault::TooDeep);
    }
    Ok(Progress::Goes(Open::Argument(Opened { outside: reading }, call)))
}

/// A token after the whole of an argument, which is a value or a type.
pub fn behind_argument(
    alloc: Global,
    reading: Reading,
    pending: Call,
    part: Part,
    token: Terminal,
) -> Result<Progress, StepFault>
    ensures of_value { let fs = frame_of (Frame.Call pending) ∷ frames_in reading in
        Steps result (context_of reading.context) (closes fs (ex_of part.expr) token)
        (nesting_at_closes reading.context.depth fs token) }
    ensures of_type { let fs = frame_of (Frame.Call pending) ∷ frames_in reading in
        Steps result (context_of reading.context) (closes_type fs (ex_of part.expr) token)
        (nesting_at_closes reading.context.depth fs token) }
{
    match token {
        Terminal::Comma => comma(reading, with_argument(pending, part)?),
        Terminal::Ellipsis => {
            let call = with_argument(pending, part)?;
            limited(reading.depth + 1, Open::Spread(reading, call))
        }
        Terminal::RightParen => end(alloc, reading, with_argument(pending, part)?, false),
        _ => {
            drop(pending);
            drop(part);
            Err(StepFault::Unexpected)
        }
    }
}

/// A token where an argument or the closing parenthesis of a call is wanted.
pub fn argument(
    alloc: Global,
    opened: Opened,
    call: Call,
    token: Terminal,
) -> Result<Progress, StepFault>
    ensures { let s = open_of (Open.Argument opened call) in
        let b = context_of opened.outside.context in
        Steps result b (step b s token) (nesting b s token) }
{
    let reading = opened.outside;
    match token {
        Terminal::RightParen => end(alloc, reading, call, false),
        _ => operand_inside(reading, Frame::Call(call), token),
    }
}

/// A token after the `...` of a call.
pub fn behind_spread(
    alloc: Global,
    reading: Reading,
    call: Call,
    token: Terminal,
) -> Result<Progress, StepFault>
    ensures { let s = open_of (Open.Spread reading call) in
        let b = context_of reading.context in
        Steps result b (step b s token) (nesting b s token) }
{
    match token {
        Terminal::Comma => limited(reading.depth + 1, Open::CallEnd(reading, call)),
        Terminal::RightParen => end(alloc, reading, call, true),
        _ => {
            drop(call);
            Err(StepFault::Unexpected)
        }
    }
}

/// A token after such a `...` and a comma.
pub fn call_end(
    alloc: Global,
    reading: Reading,
    call: Call,
    token: Terminal,
) -> Result<Progress, StepFault>
    ensures { let s = open_of (Open.CallEnd reading call) in
        let b = context_of reading.context in
        Steps result b (step b s token) (nesting b s token) }
{
    match token {
        Terminal::RightParen => end(alloc, reading, call, true),
        _ => {
            drop(call);
            Err(StepFault::Unexpected)
        }
    }
}
