//! What a token closes after a type.

ghost use Rattle.std.specs.Prelude.{◌≡◌, ◌∷◌, [], IsTrue, IfOk};
ghost use Rattle.syntax.specs.Expressions.{ex_of};
ghost use Rattle.parse_expressions.specs.Machine.{is_bracket_type, reduce_type, allows_type, closes_type};
ghost use Rattle.parse_expressions.specs.Machine.{behind_inner_type, behind_type, nesting_at_closes, nesting_behind_type};
ghost use Rattle.parse_expressions.specs.Stacks.{frame_of, frames_of};
ghost use Rattle.parse_expressions.specs.States.{context_of, frames_in, depth_in, Steps};

use crate::call::behind_argument;
use crate::elements::begin_literal;
use crate::fault::StepFault;
use crate::frame::Frame;
use crate::open::{Open, Progress};
use crate::operand::limited;
use crate::part::Part;
use crate::parts::{in_parens, prefixed};
use crate::reading::Reading;
use crate::stack::{pop, push, put_back};
use crate::terminal::Terminal;
use base::Pos;
use std::alloc::{AllocError, Global};
use syntax::{Expr, UnOp};

fn is_bracket_type(expr: &Expr) -> bool
    ensures { result ≡ is_bracket_type (ex_of expr.now) }
{
    match expr {
        Expr::ArrayType(_, _, _) => true,
        Expr::SliceType(_, _) => true,
        _ => false,
    }
}

/// Closes the `*` before a type.
fn reduce_type(
    alloc: Global,
    mut reading: Reading,
    mut part: Part,
) -> Result<(Reading, Part), AllocError>
    ensures reduced { IfOk result (λ r. reduce_type (frames_in reading) (ex_of part.expr)
        ≡ (frames_in r.0, ex_of r.1.expr)) }
    ensures context { IfOk result (λ r. r.0.context ≡ reading.context) }
{
    'stars: loop {
        let (rest, frame) = pop(reading);
        match frame {
            Some(Frame::Prefix(pos, UnOp::Star)) => part = prefixed(alloc, pos, UnOp::Star, part)?,
            Some(frame) => return put_back(rest, frame, part),
            None => return Ok((rest, part)),
        }
        reading = rest;
    }
}

/// Whether a type may stand here.
#[tactic(auto, using(crate::proofs::Levels::last_frame))]
fn allows_type(reading: &Reading) -> bool
    ensures { result ≡ allows_type (frames_in reading.now) }
{
    let frames = &reading.frames;
    let mut i = frames.len();
    'around: while i > 0 {
        i -= 1;
        match &frames[i] {
            Frame::Prefix(_, UnOp::Star) => {}
            Frame::Paren(_) => {}
            Frame::Call(_) => return true,
            _ => return false,
        }
    }
    false
}

/// The closing parenthesis after a type.
fn behind_enclosed_type(
    alloc: Global,
    reading: Reading,
    pos: Pos,
    part: Part,
    token: Terminal,
) -> Result<Progress, StepFault>
    ensures { let fs = frame_of (Frame.Paren pos) ∷ frames_in reading in
        Steps result (context_of reading.context) (closes_type fs (ex_of part.expr) token)
        (nesting_at_closes reading.context.depth fs token) }
{
    match token {
        Terminal::RightParen => {
            if !allows_type(&reading) {
                drop(part);
                return Err(StepFault::Unexpected);
            }
            let part = in_parens(alloc, pos, part)?;
            limited(reading.depth, Open::Type(reading, part))
        }
        _ => {
            drop(part);
            Err(StepFault::Unexpected)
        }
    }
}

/// A token after a type that stands as an argument or in the parentheses of one.
fn closes_type(
    alloc: Global,
    reading: Reading,
    part: Part,
    token: Terminal,
) -> Result<Progress, StepFault>
    ensures { let fs = frames_in reading in
        Steps result (context_of reading.context) (closes_type fs (ex_of part.expr) token)
        (nesting_at_closes reading.context.depth fs token) }
{
    let (rest, frame) = pop(reading);
    match frame {
        Some(Frame::Paren(pos)) => behind_enclosed_type(alloc, rest, pos, part, token),
        Some(Frame::Call(call)) => behind_argument(alloc, rest, call, part, token),
        Some(frame) => {
            drop(frame);
            drop(part);
            Err(StepFault::Unexpected)
        }
        None => {
            drop(part);
            Err(StepFault::Unexpected)
        }
    }
}

/// A token after a type inside an expression.
fn behind_inner_type(
    alloc: Global,
    reading: Reading,
    part: Part,
    token: Terminal,
) -> Result<Progress, StepFault>
    ensures { let fs = frames_in reading in
        Steps result (context_of reading.context) (behind_inner_type fs (ex_of part.expr) token)
        (nesting_behind_type reading.context.depth fs (ex_of part.expr) token) }
{
    match token {
        Terminal::LeftBrace(_) => {
            if is_bracket_type(&part.expr) {
                begin_literal(alloc, reading, part)
            } else {
                drop(part);
                Err(StepFault::Unexpected)
            }
        }
        _ => {
            let (reading, part) = reduce_type(alloc, reading, part)?;
            closes_type(alloc, reading, part, token)
        }
    }
}

/// A token after a type.
pub fn behind_type(
    alloc: Global,
    reading: Reading,
    part: Part,
    token: Terminal,
) -> Result<Progress, StepFault>
    ensures { let b = context_of reading.context in
        Steps result b (behind_type b (frames_in reading) (ex_of part.expr) token)
        (nesting_behind_type b.depth (frames_in reading) (ex_of part.expr) token) }
{
    if !reading.context.types {
        return behind_inner_type(alloc, reading, part, token);
    }
    let (rest, frame) = pop(reading);
    match frame {
        None => Ok(Progress::Ends(part)),
        Some(frame) => behind_inner_type(alloc, push(rest, frame)?, part, token),
    }
}
