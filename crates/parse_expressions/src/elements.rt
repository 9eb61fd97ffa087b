//! Tokens inside the braces of a literal.

ghost use Rattle.std.specs.Prelude.{◌+◌, ◌≡◌, ◌≤◌, ◌∷◌, suc, IfOk};
ghost use Rattle.syntax.specs.Expressions.{no_elements, ex_of, elements_of};
ghost use Rattle.parse_expressions.specs.Frames.{of_type, of_element, open_depth};
ghost use Rattle.parse_expressions.specs.Containers.{container_of, is_typed};
ghost use Rattle.parse_expressions.specs.Machine.{goes, at_element, at_value, closes, filled, nesting_at_closes, step, nesting};
ghost use Rattle.parse_expressions.specs.Stacks.{frame_of};
ghost use Rattle.parse_expressions.specs.States.{open_of, stored_context, context_of, frames_in, depth_in};
ghost use Rattle.parse_expressions.specs.States.{element_operand, Steps};

use crate::container::Container;
use crate::fault::StepFault;
use crate::frame::{Braces, Frame};
use crate::open::{Open, Progress};
use crate::operand::{limited, operand_inside};
use crate::part::Part;
use crate::parts::{opened_element, opened_literal, whole_braces, with_element};
use crate::reading::{Opened, Reading};
use crate::stack::{pop, push};
use crate::terminal::Terminal;
use base::Pos;
use std::alloc::{AllocError, Global};
use syntax::{NESTING_LIMIT, Name};

/// The opening brace of a literal after its type.
pub fn begin_literal(
    alloc: Global,
    reading: Reading,
    type_part: Part,
) -> Result<Progress, StepFault>
    ensures { Steps result (context_of reading.context)
        (goes (at_element (frames_in reading) (of_type (ex_of type_part.expr)) no_elements))
        (depth_in reading) }
{
    if reading.depth > NESTING_LIMIT {
        drop(type_part);
        return Err(StepFault::TooDeep);
    }
    let braces = opened_literal(alloc, type_part);
    Ok(Progress::Goes(Open::Element(Opened { outside: reading }, braces)))
}

/// The opening brace of an element without a type.
fn begin_element(alloc: Global, reading: Reading, pos: Pos) -> Result<Progress, StepFault>
    ensures { Steps result (context_of reading.context)
        (goes (at_element (frames_in reading) (of_element pos) no_elements))
        (depth_in reading) }
{
    if reading.depth > NESTING_LIMIT {
        return Err(StepFault::TooDeep);
    }
    let braces = opened_element(alloc, pos);
    Ok(Progress::Goes(Open::Element(Opened { outside: reading }, braces)))
}

/// The token that an element begins with, after its key if it has one.
fn begin_value(
    alloc: Global,
    reading: Reading,
    braces: Braces,
    key: Option<Name>,
    token: Terminal,
) -> Result<Progress, StepFault>
    requires { reading.depth ≤ NESTING_LIMIT + 1 }
    ensures { let fs = frame_of (Frame.Element braces key) ∷ frames_in reading in
        Steps result (context_of reading.context) (element_operand fs token)
        (open_depth reading.context.depth fs) }
{
    let frame = Frame::Element(braces, key);
    match token {
        Terminal::LeftBrace(pos) => begin_element(alloc, push(reading, frame)?, pos),
        _ => operand_inside(reading, frame, token),
    }
}

/// After the closing brace of elements.
fn filled(alloc: Global, reading: Reading, braces: Braces) -> Result<Open, AllocError>
    ensures is_open { IfOk result (λ o. open_of o
        ≡ filled (frames_in reading) (container_of braces.container) (elements_of braces.elements.items)) }
    ensures context { IfOk result (λ o. stored_context o ≡ reading.context) }
{
    let is_typed = is_typed(&braces.container);
    let part = whole_braces(alloc, braces)?;
    if is_typed {
        return Ok(Open::Operator(reading, part));
    }
    let (rest, frame) = pop(reading);
    match frame {
        Some(frame) => match frame {
            Frame::Element(outer, key) => {
                Ok(Open::ElementEnd(rest, with_element(outer, key, part)?))
            }
            _ => Ok(Open::Operator(push(rest, frame)?, part)),
        },
        None => Ok(Open::Operator(rest, part)),
    }
}

fn is_typed(container: &Container) -> bool
    ensures { result ≡ is_typed (container_of container.now) }
{
    match container {
        Container::Typed(_) => true,
        Container::Untyped(_) => false,
    }
}

/// The closing brace of elements.
fn end(alloc: Global, reading: Reading, braces: Braces) -> Result<Progress, StepFault>
    ensures { let es = elements_of braces.elements.items in
        Steps result (context_of reading.context)
        (goes (filled (frames_in reading) (container_of braces.container) es)) (depth_in reading) }
{
    limited(reading.depth, filled(alloc, reading, braces)?)
}

/// A comma after an element.
fn comma(reading: Reading, braces: Braces) -> Result<Progress, StepFault>
    ensures { let es = elements_of braces.elements.items in
        Steps result (context_of reading.context)
        (goes (at_element (frames_in reading) (container_of braces.container) es))
        (suc (depth_in reading)) }
{
    if reading.depth >= NESTING_LIMIT {
        drop(braces);
        return Err(StepFault::TooDeep);
    }
    Ok(Progress::Goes(Open::Element(Opened { outside: reading }, braces)))
}

/// A token after an opening brace or a comma.
pub fn element(
    alloc: Global,
    opened: Opened,
    braces: Braces,
    token: Terminal,
) -> Result<Progress, StepFault>
    ensures { let s = open_of (Open.Element opened braces) in
        let b = context_of opened.outside.context in
        Steps result b (step b s token) (nesting b s token) }
{
    let reading = opened.outside;
    match token {
        Terminal::RightBrace(_) => end(alloc, reading, braces),
        _ => begin_value(alloc, reading, braces, None, token),
    }
}

/// A colon after the key of an element.
pub fn key_colon(reading: Reading, braces: Braces, key: Name) -> Result<Progress, StepFault>
    ensures { let es = elements_of braces.elements.items in
        Steps result (context_of reading.context)
        (goes (at_value (frames_in reading) (container_of braces.container) es key))
        (suc (depth_in reading)) }
{
    if reading.depth >= NESTING_LIMIT {
        drop(braces);
        return Err(StepFault::TooDeep);
    }
    Ok(Progress::Goes(Open::Value(Opened { outside: reading }, braces, key)))
}

/// A token after the key of an element and its colon.
pub fn behind_key(
    alloc: Global,
    opened: Opened,
    braces: Braces,
    key: Name,
    token: Terminal,
) -> Result<Progress, StepFault>
    ensures { let s = open_of (Open.Value opened braces key) in
        let b = context_of opened.outside.context in
        Steps result b (step b s token) (nesting b s token) }
{
    begin_value(alloc, opened.outside, braces, Some(key), token)
}

/// A token after an element that is an expression.
pub fn behind_element(
    alloc: Global,
    reading: Reading,
    braces: Braces,
    key: Option<Name>,
    part: Part,
    token: Terminal,
) -> Result<Progress, StepFault>
    ensures { let fs = frame_of (Frame.Element braces key) ∷ frames_in reading in
        Steps result (context_of reading.context) (closes fs (ex_of part.expr) token)
        (nesting_at_closes reading.context.depth fs token) }
{
    match token {
        Terminal::Comma => comma(reading, with_element(braces, key, part)?),
        Terminal::RightBrace(_) => end(alloc, reading, with_element(braces, key, part)?),
        _ => {
            drop(braces);
            drop(part);
            Err(StepFault::Unexpected)
        }
    }
}

/// A token after an element without a type.
pub fn element_end(
    alloc: Global,
    reading: Reading,
    braces: Braces,
    token: Terminal,
) -> Result<Progress, StepFault>
    ensures { let s = open_of (Open.ElementEnd reading braces) in
        let b = context_of reading.context in
        Steps result b (step b s token) (nesting b s token) }
{
    match token {
        Terminal::Comma => comma(reading, braces),
        Terminal::RightBrace(_) => end(alloc, reading, braces),
        _ => {
            drop(braces);
            Err(StepFault::Unexpected)
        }
    }
}
