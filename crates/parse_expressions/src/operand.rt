//! A token where an operand or a type is wanted.

ghost use Rattle.std.specs.Prelude.{◌≡◌, ◌+◌, ◌≤◌, ◌∷◌, Some, None, MatchOption};
ghost use Rattle.syntax.specs.Expressions.{ex_of};
ghost use Rattle.syntax.specs.Heights.{height};
ghost use Rattle.parse_expressions.specs.Terminals.{prefix, prefix_in, prefix_of};
ghost use Rattle.parse_expressions.specs.Frames.{open_depth};
ghost use Rattle.parse_expressions.specs.Machine.{goes, at_operand, at_bracket, at_type_operand, at_operator};
ghost use Rattle.parse_expressions.specs.Machine.{operand, step, nesting};
ghost use Rattle.parse_expressions.specs.Stacks.{frame_of, levels};
ghost use Rattle.parse_expressions.specs.States.{open_of, context_in, context_of, frames_in, depth_in, Steps};

use crate::fault::StepFault;
use crate::frame::Frame;
use crate::open::{Open, Progress};
use crate::part::Part;
use crate::reading::{Opened, Reading};
use crate::stack::push;
use crate::terminal::Terminal;
use base::Pos;
use syntax::{ArithmeticOp, BinOp, Expr, NESTING_LIMIT, UnOp};

/// The next state, where the token's nesting keeps the limit.
pub fn limited(nesting: usize, next: Open) -> Result<Progress, StepFault>
    ensures { Steps result (context_in next) (goes (open_of next)) nesting }
{
    if nesting > NESTING_LIMIT {
        drop(next);
        return Err(StepFault::TooDeep);
    }
    Ok(Progress::Goes(next))
}

/// The prefix that an operator on two operands is as well.
fn prefix_of(pos: Pos, op: BinOp) -> Option<(Pos, UnOp)>
    ensures { MatchOption result (prefix_of pos op ≡ None)
        (λ p. prefix_of pos op ≡ Some (prefix p.0 p.1)) }
{
    match op {
        BinOp::Arithmetic(ArithmeticOp::Add) => Some((pos, UnOp::Plus)),
        BinOp::Arithmetic(ArithmeticOp::Sub) => Some((pos, UnOp::Negate)),
        BinOp::Arithmetic(ArithmeticOp::Xor) => Some((pos, UnOp::Complement)),
        BinOp::Arithmetic(ArithmeticOp::Mul) => Some((pos, UnOp::Star)),
        BinOp::Arithmetic(ArithmeticOp::And) => Some((pos, UnOp::Address)),
        _ => None,
    }
}

/// The prefix that a token is.
fn prefix_in(token: Terminal) -> Option<(Pos, UnOp)>
    ensures { MatchOption result (prefix_in token ≡ None)
        (λ p. prefix_in token ≡ Some (prefix p.0 p.1)) }
{
    match token {
        Terminal::Operator(pos, op) => prefix_of(pos, op),
        Terminal::Not(pos) => Some((pos, UnOp::Not)),
        _ => None,
    }
}

/// An operand that is one token.
fn leaf(reading: Reading, expr: Expr) -> Result<Progress, StepFault>
    requires { height (ex_of expr) ≡ 0 }
    ensures { Steps result (context_of reading.context)
        (goes (at_operator (frames_in reading) (ex_of expr))) (depth_in reading) }
{
    limited(
        reading.depth,
        Open::Operator(reading, Part { expr, height: 0 }),
    )
}

/// A prefix or an opening parenthesis.
fn deeper(reading: Reading, frame: Frame) -> Result<Progress, StepFault>
    requires { levels (frame_of frame) ≤ 1 }
    ensures { Steps result (context_of reading.context)
        (goes (at_operand (frame_of frame ∷ frames_in reading))) (depth_in reading) }
{
    if reading.depth > NESTING_LIMIT {
        drop(frame);
        return Err(StepFault::TooDeep);
    }
    Ok(Progress::Goes(Open::Operand(push(reading, frame)?)))
}

/// The same inside a type.
pub fn deeper_type(reading: Reading, frame: Frame) -> Result<Progress, StepFault>
    requires { levels (frame_of frame) ≤ 1 }
    ensures { Steps result (context_of reading.context)
        (goes (at_type_operand (frame_of frame ∷ frames_in reading))) (depth_in reading) }
{
    if reading.depth > NESTING_LIMIT {
        drop(frame);
        return Err(StepFault::TooDeep);
    }
    Ok(Progress::Goes(Open::TypeOperand(push(reading, frame)?)))
}

/// The opening bracket of a type.
pub fn bracket(reading: Reading, pos: Pos) -> Result<Progress, StepFault>
    ensures { Steps result (context_of reading.context)
        (goes (at_bracket (frames_in reading) pos)) (depth_in reading) }
{
    if reading.depth > NESTING_LIMIT {
        return Err(StepFault::TooDeep);
    }
    Ok(Progress::Goes(Open::Bracket(Opened { outside: reading }, pos)))
}

/// A token where an operand is wanted.
pub fn operand(reading: Reading, token: Terminal) -> Result<Progress, StepFault>
    ensures { Steps result (context_of reading.context)
        (operand (frames_in reading) token) (depth_in reading) }
{
    match token {
        Terminal::Number(pos, n) => leaf(reading, Expr::Int(pos, n)),
        Terminal::String(pos, end) => leaf(reading, Expr::String(pos, end)),
        Terminal::Identifier(name) => leaf(reading, Expr::Name(name)),
        Terminal::LeftParen(pos) => deeper(reading, Frame::Paren(pos)),
        Terminal::LeftBracket(pos) => bracket(reading, pos),
        _ => match prefix_in(token) {
            Some((pos, op)) => deeper(reading, Frame::Prefix(pos, op)),
            None => Err(StepFault::Unexpected),
        },
    }
}

/// A token where an operand is wanted inside of one construct more.
pub fn operand_inside(
    reading: Reading,
    frame: Frame,
    token: Terminal,
) -> Result<Progress, StepFault>
    requires { reading.depth + levels (frame_of frame) ≤ NESTING_LIMIT + 2 }
    ensures { let fs = frame_of frame ∷ frames_in reading in
        Steps result (context_of reading.context) (operand fs token)
        (open_depth reading.context.depth fs) }
{
    operand(push(reading, frame)?, token)
}

/// After the opening bracket of a type.
pub fn behind_bracket(opened: Opened, pos: Pos, token: Terminal) -> Result<Progress, StepFault>
    ensures { let s = open_of (Open.Bracket opened pos) in
        let b = context_of opened.outside.context in
        Steps result b (step b s token) (nesting b s token) }
{
    let reading = opened.outside;
    match token {
        Terminal::RightBracket => deeper_type(reading, Frame::Slice(pos)),
        _ => operand_inside(reading, Frame::Length(pos), token),
    }
}
