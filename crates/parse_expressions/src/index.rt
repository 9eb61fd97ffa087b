//! Tokens after a `.` and inside the brackets after an operand.

ghost use Rattle.std.specs.Prelude.{◌≡◌, max, suc, ◌∷◌};
ghost use Rattle.syntax.specs.Expressions.{ex_of, bound_of};
ghost use Rattle.syntax.specs.Heights.{height};
ghost use Rattle.parse_expressions.specs.Machine.{goes, at_selector, at_index, at_high, closes, nesting_at_closes, step, nesting};
ghost use Rattle.parse_expressions.specs.Stacks.{frame_of};
ghost use Rattle.parse_expressions.specs.States.{open_of, context_of, frames_in, depth_in, Steps};

use crate::fault::StepFault;
use crate::frame::Frame;
use crate::open::{Open, Progress};
use crate::operand::{limited, operand_inside};
use crate::part::{Low, Part};
use crate::parts::{bound_at, indexed, no_bound, selected, sliced};
use crate::reading::{Opened, Reading};
use crate::terminal::Terminal;
use base::Pos;
use std::alloc::Global;
use syntax::NESTING_LIMIT;

/// A `.` after an operand.
pub fn begin_selector(reading: Reading, value: Part, pos: Pos) -> Result<Progress, StepFault>
    ensures { Steps result (context_of reading.context)
        (goes (at_selector (frames_in reading) (ex_of value.expr) pos))
        (max (depth_in reading) (suc (height (ex_of value.expr)))) }
{
    if reading.depth > NESTING_LIMIT || value.height >= NESTING_LIMIT {
        drop(value);
        return Err(StepFault::TooDeep);
    }
    Ok(Progress::Goes(Open::Selector(reading, value, pos)))
}

/// A token after such a `.`.
pub fn behind_period(
    alloc: Global,
    reading: Reading,
    value: Part,
    pos: Pos,
    token: Terminal,
) -> Result<Progress, StepFault>
    ensures { let s = open_of (Open.Selector reading value pos) in
        let b = context_of reading.context in
        Steps result b (step b s token) (nesting b s token) }
{
    match token {
        Terminal::Identifier(name) => {
            let part = selected(alloc, value, pos, name)?;
            limited(reading.depth, Open::Operator(reading, part))
        }
        _ => {
            drop(value);
            Err(StepFault::Unexpected)
        }
    }
}

/// The opening bracket of an index or slice expression.
pub fn begin_index(reading: Reading, value: Part, pos: Pos) -> Result<Progress, StepFault>
    ensures { Steps result (context_of reading.context)
        (goes (at_index (frames_in reading) (ex_of value.expr) pos))
        (max (depth_in reading) (suc (height (ex_of value.expr)))) }
{
    if reading.depth > NESTING_LIMIT || value.height >= NESTING_LIMIT {
        drop(value);
        return Err(StepFault::TooDeep);
    }
    Ok(Progress::Goes(Open::Index(Opened { outside: reading }, value, pos)))
}

/// The colon of a slice expression.
fn colon(reading: Reading, value: Part, pos: Pos, low: Low) -> Result<Progress, StepFault>
    ensures { Steps result (context_of reading.context)
        (goes (at_high (frames_in reading) (ex_of value.expr) pos (bound_of low.bound)))
        (suc (depth_in reading)) }
{
    if reading.depth >= NESTING_LIMIT {
        drop(value);
        drop(low);
        return Err(StepFault::TooDeep);
    }
    Ok(Progress::Goes(Open::High(Opened { outside: reading }, value, pos, low)))
}

/// A token after the opening bracket.
pub fn behind_opening(
    opened: Opened,
    value: Part,
    pos: Pos,
    token: Terminal,
) -> Result<Progress, StepFault>
    ensures { let s = open_of (Open.Index opened value pos) in
        let b = context_of opened.outside.context in
        Steps result b (step b s token) (nesting b s token) }
{
    let reading = opened.outside;
    match token {
        Terminal::Colon => colon(reading, value, pos, no_bound()),
        _ => operand_inside(reading, Frame::Index(value, pos), token),
    }
}

/// A token after an index or a low bound.
pub fn behind_index(
    alloc: Global,
    reading: Reading,
    value: Part,
    pos: Pos,
    part: Part,
    token: Terminal,
) -> Result<Progress, StepFault>
    ensures { let fs = frame_of (Frame.Index value pos) ∷ frames_in reading in
        Steps result (context_of reading.context) (closes fs (ex_of part.expr) token)
        (nesting_at_closes reading.context.depth fs token) }
{
    match token {
        Terminal::RightBracket => {
            let part = indexed(alloc, value, pos, part)?;
            limited(reading.depth, Open::Operator(reading, part))
        }
        Terminal::Colon => match bound_at(alloc, part) {
            Ok(low) => colon(reading, value, pos, low),
            Err(_) => {
                drop(value);
                Err(StepFault::NoMemory)
            }
        },
        _ => {
            drop(value);
            drop(part);
            Err(StepFault::Unexpected)
        }
    }
}

/// A token after the colon of a slice expression.
pub fn behind_colon(
    alloc: Global,
    opened: Opened,
    value: Part,
    pos: Pos,
    low: Low,
    token: Terminal,
) -> Result<Progress, StepFault>
    ensures { let s = open_of (Open.High opened value pos low) in
        let b = context_of opened.outside.context in
        Steps result b (step b s token) (nesting b s token) }
{
    let reading = opened.outside;
    match token {
        Terminal::RightBracket => {
            let part = sliced(alloc, value, pos, low, no_bound())?;
            limited(reading.depth, Open::Operator(reading, part))
        }
        _ => operand_inside(reading, Frame::High(value, pos, low), token),
    }
}

/// A token after a high bound.
pub fn behind_high(
    alloc: Global,
    reading: Reading,
    value: Part,
    pos: Pos,
    low: Low,
    part: Part,
    token: Terminal,
) -> Result<Progress, StepFault>
    ensures { let fs = frame_of (Frame.High value pos low) ∷ frames_in reading in
        Steps result (context_of reading.context) (closes fs (ex_of part.expr) token)
        (nesting_at_closes reading.context.depth fs token) }
{
    match token {
        Terminal::RightBracket => {
            let high = bound_at(alloc, part)?;
            let part = sliced(alloc, value, pos, low, high)?;
            limited(reading.depth, Open::Operator(reading, part))
        }
        _ => {
            drop(value);
            drop(low);
            drop(part);
            Err(StepFault::Unexpected)
        }
    }
}
