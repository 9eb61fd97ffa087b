//! What a token closes after an operand.

ghost use Rattle.std.specs.Prelude.{◌+◌, ◌≡◌, ◌≤◌, ◌∷◌, IfOk};
ghost use Rattle.syntax.specs.Expressions.{ex_of};
ghost use Rattle.syntax.specs.Heights.{precedence};
ghost use Rattle.parse_expressions.specs.Machine.{reduce, closes, nesting_at_closes};
ghost use Rattle.parse_expressions.specs.Stacks.{frame_of};
ghost use Rattle.parse_expressions.specs.States.{context_of, frames_in, Steps};

use crate::call::behind_argument;
use crate::elements::behind_element;
use crate::fault::StepFault;
use crate::frame::Frame;
use crate::index::{behind_high, behind_index};
use crate::open::{Open, Progress};
use crate::operand::{deeper_type, limited};
use crate::part::Part;
use crate::parts::{in_parens, joined, prefixed};
use crate::reading::Reading;
use crate::stack::{pop, put_back};
use crate::terminal::Terminal;
use base::Pos;
use std::alloc::{AllocError, Global};
use syntax::{ArithmeticOp, BinOp, NESTING_LIMIT};

/// The precedence of a binary operator, from 1 to 5.
pub fn precedence(op: BinOp) -> u8
    ensures { result ≡ precedence op }
{
    match op {
        BinOp::Arithmetic(op) => match op {
            ArithmeticOp::Add | ArithmeticOp::Sub | ArithmeticOp::Or | ArithmeticOp::Xor => 4,
            _ => 5,
        },
        BinOp::Compare(_) => 3,
        BinOp::LogicalAnd => 2,
        BinOp::LogicalOr => 1,
    }
}

/// Closes all that binds at least as tightly as `p`.
pub fn reduce(
    alloc: Global,
    p: u8,
    mut reading: Reading,
    mut part: Part,
) -> Result<(Reading, Part), AllocError>
    ensures reduced { IfOk result (λ r. reduce p (frames_in reading) (ex_of part.expr)
        ≡ (frames_in r.0, ex_of r.1.expr)) }
    ensures context { IfOk result (λ r. r.0.context ≡ reading.context) }
{
    'tighter: loop {
        let (rest, frame) = pop(reading);
        match frame {
            Some(Frame::Prefix(pos, op)) => part = prefixed(alloc, pos, op, part)?,
            Some(Frame::Right(left, pos, op)) => {
                if p > precedence(op) {
                    return put_back(rest, Frame::Right(left, pos, op), part);
                }
                part = joined(alloc, left, pos, op, part)?;
            }
            Some(frame) => return put_back(rest, frame, part),
            None => return Ok((rest, part)),
        }
        reading = rest;
    }
}

/// A token after an expression in parentheses.
fn behind_enclosed(
    alloc: Global,
    reading: Reading,
    pos: Pos,
    part: Part,
    token: Terminal,
) -> Result<Progress, StepFault>
    ensures { let fs = frame_of (Frame.Paren pos) ∷ frames_in reading in
        Steps result (context_of reading.context) (closes fs (ex_of part.expr) token)
        (nesting_at_closes reading.context.depth fs token) }
{
    match token {
        Terminal::RightParen => {
            let part = in_parens(alloc, pos, part)?;
            limited(reading.depth, Open::Operator(reading, part))
        }
        _ => {
            drop(part);
            Err(StepFault::Unexpected)
        }
    }
}

/// A token after the length of an array type.
fn behind_length(
    reading: Reading,
    pos: Pos,
    part: Part,
    token: Terminal,
) -> Result<Progress, StepFault>
    requires { reading.depth ≤ NESTING_LIMIT + 1 }
    ensures { let fs = frame_of (Frame.Length pos) ∷ frames_in reading in
        Steps result (context_of reading.context) (closes fs (ex_of part.expr) token)
        (nesting_at_closes reading.context.depth fs token) }
{
    match token {
        Terminal::RightBracket => deeper_type(reading, Frame::Array(pos, part)),
        _ => {
            drop(part);
            Err(StepFault::Unexpected)
        }
    }
}

/// A token after what no operator or postfix goes on with.
fn closes(
    alloc: Global,
    reading: Reading,
    part: Part,
    token: Terminal,
) -> Result<Progress, StepFault>
    ensures { let fs = frames_in reading in
        Steps result (context_of reading.context) (closes fs (ex_of part.expr) token)
        (nesting_at_closes reading.context.depth fs token) }
{
    let (rest, frame) = pop(reading);
    match frame {
        None => Ok(Progress::Ends(part)),
        Some(Frame::Paren(pos)) => behind_enclosed(alloc, rest, pos, part, token),
        Some(Frame::Call(call)) => behind_argument(alloc, rest, call, part, token),
        Some(Frame::Index(value, pos)) => behind_index(alloc, rest, value, pos, part, token),
        Some(Frame::High(value, pos, low)) => {
            behind_high(alloc, rest, value, pos, low, part, token)
        }
        Some(Frame::Length(pos)) => behind_length(rest, pos, part, token),
        Some(Frame::Element(braces, key)) => {
            behind_element(alloc, rest, braces, key, part, token)
        }
        Some(frame) => {
            drop(frame);
            drop(part);
            Err(StepFault::Unexpected)
        }
    }
}

/// A token that is no operator and no postfix.
pub fn closes_reduced(
    alloc: Global,
    reading: Reading,
    part: Part,
    token: Terminal,
) -> Result<Progress, StepFault>
    ensures { let r = reduce 0 (frames_in reading) (ex_of part.expr) in
        Steps result (context_of reading.context) (closes r.0 r.1 token)
        (nesting_at_closes reading.context.depth r.0 token) }
{
    let (reading, part) = reduce(alloc, 0, reading, part)?;
    closes(alloc, reading, part, token)
}
