//! The stack of what is open.

ghost use Rattle.std.specs.Prelude.{◌+◌, ◌≡◌, ◌≤◌};
ghost use Rattle.syntax.specs.declared.limit.TheConstants.{NESTING_LIMIT};
ghost use Rattle.parse_expressions.specs.Frames.{open_depth};
ghost use Rattle.parse_expressions.specs.Stacks.{frames_of, open_parentheses};

use crate::frame::Frame;

/// Where an expression or type stands: how many brackets are open around it, whether a literal in it may begin with a
/// name, and whether a type is wanted.
#[derive(Clone, Copy, PartialEq, Eq)]
pub struct Context {
    pub depth: usize,
    pub literals: bool,
    pub types: bool,
}

/// What is open, the innermost last, how many brackets, braces and prefixes are open around the next token, and how many of
/// them are parentheses.
#[derive(Drop)]
pub struct Reading {
    pub context: Context,
    pub frames: Vec<Frame>,
    pub depth: usize,
    pub parentheses: usize,
    ghost is_depth: { depth ≡ open_depth context.depth (frames_of frames.items) },
    ghost is_parentheses: { parentheses ≡ open_parentheses (frames_of frames.items) },
    ghost small: { depth ≤ NESTING_LIMIT + 2 },
}

/// After an opening bracket whose nesting keeps the limit: what is open outside of it.
#[derive(Drop)]
pub struct Opened {
    pub outside: Reading,
    ghost room: { outside.depth ≤ NESTING_LIMIT + 1 },
}
