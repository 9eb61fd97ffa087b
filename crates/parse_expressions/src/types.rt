//! A token where a type is wanted, and the prefixes of a type.

ghost use Rattle.std.specs.Prelude.{◌≡◌, ◌∷◌, IfOk};
ghost use Rattle.syntax.specs.Expressions.{ex_of};
ghost use Rattle.parse_expressions.specs.Machine.{goes, type_operand, type_done, step, nesting};
ghost use Rattle.parse_expressions.specs.States.{open_of, stored_context, context_of, frames_in, depth_in, Steps};

use crate::fault::StepFault;
use crate::frame::Frame;
use crate::open::{Open, Progress};
use crate::operand::{bracket, deeper_type, limited};
use crate::part::Part;
use crate::parts::{array_type, in_parens, prefixed, slice_type};
use crate::reading::Reading;
use crate::stack::{pop, push};
use crate::terminal::Terminal;
use base::Pos;
use std::alloc::{AllocError, Global};
use syntax::{ArithmeticOp, BinOp, Expr, UnOp};

/// After a type, whose prefixes inside the same type are closed.
fn type_done(alloc: Global, mut reading: Reading, mut part: Part) -> Result<Open, AllocError>
    ensures is_open { IfOk result
        (λ o. open_of o ≡ type_done (frames_in reading) (ex_of part.expr)) }
    ensures context { IfOk result (λ o. stored_context o ≡ reading.context) }
{
    'prefixes: loop {
        let (rest, frame) = pop(reading);
        match frame {
            Some(Frame::Pointer(pos)) => part = prefixed(alloc, pos, UnOp::Star, part)?,
            Some(Frame::Array(pos, length)) => part = array_type(alloc, pos, length, part)?,
            Some(Frame::Slice(pos)) => part = slice_type(alloc, pos, part)?,
            Some(Frame::TypeParen(pos)) => return Ok(Open::TypeEnd(rest, pos, part)),
            Some(frame) => return Ok(Open::Type(push(rest, frame)?, part)),
            None => return Ok(Open::Type(rest, part)),
        }
        reading = rest;
    }
}

/// After the last token of a type.
fn whole_type(alloc: Global, reading: Reading, part: Part) -> Result<Progress, StepFault>
    ensures { Steps result (context_of reading.context)
        (goes (type_done (frames_in reading) (ex_of part.expr))) (depth_in reading) }
{
    limited(reading.depth, type_done(alloc, reading, part)?)
}

/// A token where a type is wanted.
pub fn type_operand(alloc: Global, reading: Reading, token: Terminal) -> Result<Progress, StepFault>
    ensures { Steps result (context_of reading.context)
        (type_operand (frames_in reading) token) (depth_in reading) }
{
    match token {
        Terminal::Identifier(name) => {
            let part = Part {
                expr: Expr::Name(name),
                height: 0,
            };
            whole_type(alloc, reading, part)
        }
        Terminal::LeftParen(pos) => deeper_type(reading, Frame::TypeParen(pos)),
        Terminal::LeftBracket(pos) => bracket(reading, pos),
        Terminal::Operator(pos, BinOp::Arithmetic(ArithmeticOp::Mul)) => {
            deeper_type(reading, Frame::Pointer(pos))
        }
        _ => Err(StepFault::Unexpected),
    }
}

/// After a type in parentheses inside a type.
pub fn type_end(
    alloc: Global,
    reading: Reading,
    pos: Pos,
    part: Part,
    token: Terminal,
) -> Result<Progress, StepFault>
    ensures { let s = open_of (Open.TypeEnd reading pos part) in
        let b = context_of reading.context in
        Steps result b (step b s token) (nesting b s token) }
{
    match token {
        Terminal::RightParen => whole_type(alloc, reading, in_parens(alloc, pos, part)?),
        _ => {
            drop(part);
            Err(StepFault::Unexpected)
        }
    }
}
