//! A token after an operand.

ghost use Rattle.std.specs.Prelude.{◌≡◌, ◌∷◌, max, suc, MatchOption};
ghost use Rattle.syntax.specs.declared.expression.Name.{Name};
ghost use Rattle.syntax.specs.Expressions.{name, ex_of};
ghost use Rattle.syntax.specs.Heights.{height};
ghost use Rattle.parse_expressions.specs.Frames.{awaiting};
ghost use Rattle.parse_expressions.specs.Machine.{goes, at_operand, reduce, closes_reduced, brace_behind_name, behind_operand};
ghost use Rattle.parse_expressions.specs.Machine.{nesting_at_closes, nesting_behind};
ghost use Rattle.parse_expressions.specs.States.{context_of, frames_in, depth_in, Steps};

use crate::call::begin as begin_call;
use crate::closing::{closes_reduced, precedence, reduce};
use crate::elements::{begin_literal, key_colon};
use crate::fault::StepFault;
use crate::frame::Frame;
use crate::index::{begin_index, begin_selector};
use crate::open::{Open, Progress};
use crate::part::Part;
use crate::reading::Reading;
use crate::stack::{allows_literal, pop, push};
use crate::terminal::Terminal;
use base::Pos;
use std::alloc::Global;
use syntax::{BinOp, Expr, NESTING_LIMIT, Name};

/// A binary operator after its left operand.
fn operator(reading: Reading, left: Part, pos: Pos, op: BinOp) -> Result<Progress, StepFault>
    ensures { let fs = awaiting (ex_of left.expr) pos op ∷ frames_in reading in
        Steps result (context_of reading.context) (goes (at_operand fs))
        (max (depth_in reading) (suc (height (ex_of left.expr)))) }
{
    if reading.depth > NESTING_LIMIT || left.height >= NESTING_LIMIT {
        drop(left);
        return Err(StepFault::TooDeep);
    }
    let reading = push(reading, Frame::Right(left, pos, op))?;
    Ok(Progress::Goes(Open::Operand(reading)))
}

/// The name that an expression is.
fn name_of(expr: &Expr) -> Option<Name>
    ensures { MatchOption result ((x : Name) → ex_of expr.now ≡ name x → ⊥)
        (λ x. ex_of expr.now ≡ name x) }
{
    match expr {
        Expr::Name(name) => Some(*name),
        _ => None,
    }
}

/// A brace that begins no literal.
#[tactic(auto, using(crate::proofs::Behind::brace_fails))]
fn ends_at_brace(
    alloc: Global,
    reading: Reading,
    part: Part,
    pos: Pos,
) -> Result<Progress, StepFault>
    ensures { Steps result (context_of reading.context)
        (closes_reduced (frames_in reading) (ex_of part.expr) (Terminal.LeftBrace pos))
        (depth_in reading) }
{
    let (reading, part) = reduce(alloc, 0, reading, part)?;
    let (_, frame) = pop(reading);
    match frame {
        None => Ok(Progress::Ends(part)),
        Some(frame) => {
            drop(frame);
            drop(part);
            Err(StepFault::Unexpected)
        }
    }
}

/// The operand that a name is.
fn named(x: Name) -> Part
    ensures { ex_of result.expr ≡ name x }
{
    Part {
        expr: Expr::Name(x),
        height: 0,
    }
}

/// A brace after a name.
fn brace_behind_name(
    alloc: Global,
    reading: Reading,
    x: Name,
    pos: Pos,
) -> Result<Progress, StepFault>
    ensures { let b = context_of reading.context in
        Steps result b (brace_behind_name b (frames_in reading) x pos) (depth_in reading) }
{
    if allows_literal(&reading) {
        begin_literal(alloc, reading, named(x))
    } else {
        ends_at_brace(alloc, reading, named(x), pos)
    }
}

/// An opening brace after an operand.
fn brace(alloc: Global, reading: Reading, part: Part, pos: Pos) -> Result<Progress, StepFault>
    ensures { let b = context_of reading.context in
        let t = Terminal.LeftBrace pos in
        Steps result b (behind_operand b (frames_in reading) (ex_of part.expr) t)
        (nesting_behind b.depth (frames_in reading) (ex_of part.expr) t) }
{
    match name_of(&part.expr) {
        Some(x) => brace_behind_name(alloc, reading, x, pos),
        None => closes_reduced(alloc, reading, part, Terminal::LeftBrace(pos)),
    }
}

/// A colon after a name that is no key.
fn colon_behind_operand(alloc: Global, reading: Reading, x: Name) -> Result<Progress, StepFault>
    ensures { let r = reduce 0 (frames_in reading) (name x) in
        Steps result (context_of reading.context)
        (closes_reduced (frames_in reading) (name x) Terminal.Colon)
        (nesting_at_closes reading.context.depth r.0 Terminal.Colon) }
{
    closes_reduced(alloc, reading, named(x), Terminal::Colon)
}

/// A colon after a name.
fn colon_behind_name(alloc: Global, reading: Reading, x: Name) -> Result<Progress, StepFault>
    ensures { let b = context_of reading.context in
        Steps result b (behind_operand b (frames_in reading) (name x) Terminal.Colon)
        (nesting_behind b.depth (frames_in reading) (name x) Terminal.Colon) }
{
    let (rest, frame) = pop(reading);
    match frame {
        None => colon_behind_operand(alloc, rest, x),
        Some(frame) => match frame {
            Frame::Element(braces, key) => match key {
                None => key_colon(rest, braces, x),
                Some(_) => {
                    let reading = push(rest, Frame::Element(braces, key))?;
                    colon_behind_operand(alloc, reading, x)
                }
            },
            _ => colon_behind_operand(alloc, push(rest, frame)?, x),
        },
    }
}

/// A colon after an operand.
fn colon(alloc: Global, reading: Reading, part: Part) -> Result<Progress, StepFault>
    ensures { let b = context_of reading.context in
        Steps result b (behind_operand b (frames_in reading) (ex_of part.expr) Terminal.Colon)
        (nesting_behind b.depth (frames_in reading) (ex_of part.expr) Terminal.Colon) }
{
    match name_of(&part.expr) {
        Some(x) => colon_behind_name(alloc, reading, x),
        None => closes_reduced(alloc, reading, part, Terminal::Colon),
    }
}

/// A token after an operand.
pub fn behind_operand(
    alloc: Global,
    reading: Reading,
    part: Part,
    token: Terminal,
) -> Result<Progress, StepFault>
    ensures { let b = context_of reading.context in
        Steps result b (behind_operand b (frames_in reading) (ex_of part.expr) token)
        (nesting_behind b.depth (frames_in reading) (ex_of part.expr) token) }
{
    match token {
        Terminal::Operator(pos, op) => {
            let (reading, part) = reduce(alloc, precedence(op), reading, part)?;
            operator(reading, part, pos, op)
        }
        Terminal::LeftParen(_) => begin_call(alloc, reading, part),
        Terminal::Period(pos) => begin_selector(reading, part, pos),
        Terminal::LeftBracket(pos) => begin_index(reading, part, pos),
        Terminal::LeftBrace(pos) => brace(alloc, reading, part, pos),
        Terminal::Colon => colon(alloc, reading, part),
        _ => closes_reduced(alloc, reading, part, token),
    }
}
