//! The stack of what is open: one construct more, and the innermost of them.

ghost use Rattle.std.specs.Prelude.{◌≡◌, ◌+◌, ◌≤◌, [], ◌∷◌, IsTrue, IfOk, MatchOption};
ghost use Rattle.parse_expressions.specs.Frames.{allows, open_depth};
ghost use Rattle.parse_expressions.specs.Stacks.{frame_of, levels, parentheses_of, open_parentheses};
ghost use Rattle.parse_expressions.specs.States.{frames_in};

use crate::frame::Frame;
use crate::part::Part;
use crate::reading::Reading;
use std::alloc::AllocError;
use syntax::NESTING_LIMIT;

/// How many levels a construct adds to the nesting of what stands in it.
fn levels(frame: &Frame) -> usize
    ensures { result ≡ levels (frame_of frame.now) }
{
    match frame {
        Frame::Right(_, _, _) => 0,
        _ => 1,
    }
}

/// How many parentheses a construct is.
fn parentheses_of(frame: &Frame) -> usize
    ensures { result ≡ parentheses_of (frame_of frame.now) }
{
    match frame {
        Frame::Paren(_) | Frame::Call(_) | Frame::TypeParen(_) => 1,
        _ => 0,
    }
}

/// One construct more is open.
#[tactic(auto, using(crate::proofs::Levels::one_more_open))]
pub fn push(reading: Reading, frame: Frame) -> Result<Reading, AllocError>
    requires { reading.depth + levels (frame_of frame) ≤ NESTING_LIMIT + 2 }
    ensures frames { IfOk result (λ r. frames_in r ≡ frame_of frame ∷ frames_in reading) }
    ensures context { IfOk result (λ r. r.context ≡ reading.context) }
    ensures depth { IfOk result (λ r. r.depth ≡ reading.depth + levels (frame_of frame)) }
{
    let Reading {
        context,
        mut frames,
        depth,
        parentheses,
    } = reading;
    let depth = depth + levels(&frame);
    let parentheses = parentheses + parentheses_of(&frame);
    frames.push(frame)?;
    Ok(Reading {
        context,
        frames,
        depth,
        parentheses,
    })
}

/// A construct that was looked at stays open around a part.
pub fn put_back(reading: Reading, frame: Frame, part: Part) -> Result<(Reading, Part), AllocError>
    requires { reading.depth + levels (frame_of frame) ≤ NESTING_LIMIT + 2 }
    ensures frames { IfOk result (λ r. frames_in r.0 ≡ frame_of frame ∷ frames_in reading) }
    ensures context { IfOk result (λ r. r.0.context ≡ reading.context) }
    ensures part { IfOk result (λ r. r.1 ≡ part) }
{
    match push(reading, frame) {
        Ok(reading) => Ok((reading, part)),
        Err(error) => {
            drop(part);
            Err(error)
        }
    }
}

/// The innermost construct, and what is open outside of it.
#[tactic(auto, using(crate::proofs::Levels::deeper, crate::proofs::Levels::more_parentheses))]
pub fn pop(reading: Reading) -> (Reading, Option<Frame>)
    ensures frames { MatchOption result.1 (frames_in reading ≡ [])
        (λ f. frames_in reading ≡ frame_of f ∷ frames_in result.0) }
    ensures empty { MatchOption result.1 (frames_in result.0 ≡ []) (λ f. Unit {0}) }
    ensures context { result.0.context ≡ reading.context }
    ensures depth { MatchOption result.1 (result.0.depth ≡ reading.depth)
        (λ f. reading.depth ≡ result.0.depth + levels (frame_of f)) }
{
    let Reading {
        context,
        mut frames,
        depth,
        parentheses,
    } = reading;
    match frames.pop() {
        None => {
            let reading = Reading {
                context,
                frames,
                depth,
                parentheses,
            };
            (reading, None)
        }
        Some(frame) => {
            let depth = depth - levels(&frame);
            let parentheses = parentheses - parentheses_of(&frame);
            let reading = Reading {
                context,
                frames,
                depth,
                parentheses,
            };
            (reading, Some(frame))
        }
    }
}

/// Whether a literal may begin with a name.
#[tactic(auto, using(crate::proofs::Levels::literals_allowed))]
pub fn allows_literal(reading: &Reading) -> bool
    ensures { result ≡ allows reading.now.context.literals (frames_in reading.now) }
{
    reading.context.literals || reading.parentheses > 0
}
