//! How an expression or type begins, and one token more.

ghost use Rattle.std.specs.Prelude.{◌+◌, ◌≡◌, ◌≤◌, [], true, false};
ghost use Rattle.parse_expressions.specs.Machine.{at_operand, at_type_operand, step, nesting};
ghost use Rattle.parse_expressions.specs.States.{open_of, context_in, frames_in, Steps};

use crate::call::{argument, behind_spread, call_end};
use crate::closing_type::behind_type;
use crate::elements::{behind_key, element, element_end};
use crate::fault::StepFault;
use crate::index::{behind_colon, behind_opening, behind_period};
use crate::open::{Open, Progress};
use crate::operand::{behind_bracket, operand};
use crate::operator::behind_operand;
use crate::reading::{Context, Reading};
use crate::terminal::Terminal;
use crate::types::{type_end, type_operand};
use std::alloc::Global;
use syntax::NESTING_LIMIT;

/// An expression begins inside of `depth` brackets. With `literals` a literal in it may begin with a name.
pub fn expression(alloc: Global, depth: usize, literals: bool) -> Open
    requires { depth ≤ NESTING_LIMIT + 2 }
    ensures is_open { open_of result ≡ at_operand [] }
    ensures context { context_in result ≡ record { depth = depth; literals = literals; types = false } }
{
    let context = Context {
        depth,
        literals,
        types: false,
    };
    Open::Operand(nothing_open(alloc, context))
}

/// A type begins inside of `depth` brackets.
pub fn type_wanted(alloc: Global, depth: usize) -> Open
    requires { depth ≤ NESTING_LIMIT + 2 }
    ensures is_open { open_of result ≡ at_type_operand [] }
    ensures context { context_in result ≡ record { depth = depth; literals = true; types = true } }
{
    let context = Context {
        depth,
        literals: true,
        types: true,
    };
    Open::TypeOperand(nothing_open(alloc, context))
}

fn nothing_open(alloc: Global, context: Context) -> Reading
    requires { context.depth ≤ NESTING_LIMIT + 2 }
    ensures frames { frames_in result ≡ [] }
    ensures context { result.context ≡ context }
{
    Reading {
        context,
        frames: Vec::new(alloc),
        depth: context.depth,
        parentheses: 0,
    }
}

/// One token more.
pub fn step(alloc: Global, state: Open, token: Terminal) -> Result<Progress, StepFault>
    ensures { let s = open_of state in
        let b = context_in state in
        Steps result b (step b s token) (nesting b s token) }
{
    match state {
        Open::Operand(reading) => operand(reading, token),
        Open::Argument(opened, call) => argument(alloc, opened, call, token),
        Open::Spread(reading, call) => behind_spread(alloc, reading, call, token),
        Open::CallEnd(reading, call) => call_end(alloc, reading, call, token),
        Open::Bracket(opened, pos) => behind_bracket(opened, pos, token),
        Open::TypeOperand(reading) => type_operand(alloc, reading, token),
        Open::TypeEnd(reading, pos, part) => type_end(alloc, reading, pos, part, token),
        Open::Type(reading, part) => behind_type(alloc, reading, part, token),
        Open::Operator(reading, part) => behind_operand(alloc, reading, part, token),
        Open::Selector(reading, value, pos) => behind_period(alloc, reading, value, pos, token),
        Open::Index(opened, value, pos) => behind_opening(opened, value, pos, token),
        Open::High(opened, value, pos, low) => {
            behind_colon(alloc, opened, value, pos, low, token)
        }
        Open::Element(opened, braces) => element(alloc, opened, braces, token),
        Open::Value(opened, braces, key) => behind_key(alloc, opened, braces, key, token),
        Open::ElementEnd(reading, braces) => element_end(alloc, reading, braces, token),
    }
}
