//! The machine of a simple statement.

ghost use Rattle.std.specs.Prelude.{◌≡◌, [], IfOk, if◌then◌else◌};
ghost use Rattle.syntax.specs.Expressions.{ex_of, exs_of};
ghost use Rattle.syntax.specs.Statements.{simple_of};
ghost use Rattle.parse_expressions.specs.Machine as expression;
ghost use Rattle.parse_expressions.specs.States.{open_of};
ghost use Rattle.parse_simple_statements.specs.Simples.{expression_context, beginning, at_value, in_left, in_value, fails};
ghost use Rattle.parse_simple_statements.specs.Simples.{goes, names_in, defines_names, behind_one, behind_list, behind_left};
ghost use Rattle.parse_simple_statements.specs.Simples.{behind_value, ranges_over, step, nesting};
ghost use Rattle.parse_simple_statements.specs.Contexts.{context_of, listed_of, names_of};
ghost use Rattle.parse_simple_statements.specs.SimpleStates.{simples_of, context_at, Steps};

use crate::context::{Context, Listed};
use crate::nodes::{listed_simple, with_value};
use crate::simples::{InExpression, SimpleProgress, Simples};
use base::Pos;
use parse_expressions::{Progress, StepFault, Terminal, expression, step};
use std::alloc::{AllocError, Global};
use syntax::{Expr, NESTING_LIMIT, Name, Simple, Targets};

/// A simple statement begins.
pub fn begin_simple(alloc: Global, context: Context) -> Simples
    ensures begins { simples_of result ≡ beginning }
    ensures context { context_at result ≡ context_of context }
{
    Simples::Left(Vec::new(alloc), expression_wanted(alloc, context))
}

fn expression_wanted(alloc: Global, context: Context) -> InExpression
    ensures wanted { open_of result.reading ≡ expression.at_operand [] }
    ensures context { result.context ≡ context }
{
    InExpression {
        context,
        reading: expression(alloc, context.depth, context.literals),
    }
}

/// The next state, where the token's nesting keeps the limit.
fn limited(nesting: usize, next: Simples) -> Result<SimpleProgress, StepFault>
    ensures { Steps result (context_at next) (goes (simples_of next)) nesting }
{
    if nesting > NESTING_LIMIT {
        drop(next);
        return Err(StepFault::TooDeep);
    }
    Ok(SimpleProgress::Goes(next))
}

/// A token inside an expression on the left.
fn in_left(
    alloc: Global,
    before: Vec<Expr>,
    left: InExpression,
    token: Terminal,
) -> Result<SimpleProgress, StepFault>
    ensures { let p = context_of left.context in
        let s = in_left (exs_of before.items) (open_of left.reading) in
        Steps result p (step p s token) (nesting p s token) }
{
    let InExpression { context, reading } = left;
    match step(alloc, reading, token) {
        Err(fault) => Err(fault),
        Ok(Progress::Goes(reading)) => {
            let left = InExpression { context, reading };
            Ok(SimpleProgress::Goes(Simples::Left(before, left)))
        }
        Ok(Progress::Ends(part)) => behind_left(alloc, context, before, part.expr, token),
    }
}

/// A token after expressions on the left.
fn behind_left(
    alloc: Global,
    context: Context,
    before: Vec<Expr>,
    last: Expr,
    token: Terminal,
) -> Result<SimpleProgress, StepFault>
    ensures { let p = context_of context in
        Steps result p (behind_left p (exs_of before.items) (ex_of last) token) p.depth }
{
    match token {
        Terminal::Comma => {
            let before = with_value(before, last)?;
            let next = expression_wanted(alloc, context);
            limited(context.depth, Simples::Left(before, next))
        }
        Terminal::Assign(pos) => {
            let listed = Listed::Assign(with_value(before, last)?, pos);
            limited(context.depth, Simples::Value(context, listed))
        }
        Terminal::Update(pos, op) => {
            let listed = Listed::Update(with_value(before, last)?, pos, op);
            limited(context.depth, Simples::Value(context, listed))
        }
        Terminal::Define(pos) => defines(alloc, context, with_value(before, last)?, pos),
        _ => behind_list(context, before, last, token),
    }
}

/// A `:=` after expressions.
fn defines(
    alloc: Global,
    context: Context,
    left: Vec<Expr>,
    pos: Pos,
) -> Result<SimpleProgress, StepFault>
    ensures { let p = context_of context in
        let next = if p.defines then defines_names (names_in (exs_of left.items)) pos else fails in
        Steps result p next p.depth }
{
    if !context.defines {
        return Err(StepFault::Unexpected);
    }
    match names_in(alloc, &left)? {
        Some(names) => limited(
            context.depth,
            Simples::Value(context, Listed::Define(names, pos)),
        ),
        None => Err(StepFault::Unexpected),
    }
}

/// The names that some expressions are, if each is one.
fn names_in(alloc: Global, values: &[Expr]) -> Result<Option<Vec<Name>>, AllocError>
    ensures { IfOk result (λ o. names_in (exs_of values.now) ≡ names_of o) }
{
    let mut names = Vec::new(alloc);
    for value in values {
        match value {
            Expr::Name(name) => names.push(*name)?,
            _ => return Ok(None),
        }
    }
    Ok(Some(names))
}

/// A token that goes on with no list, after expressions.
fn behind_list(
    context: Context,
    before: Vec<Expr>,
    last: Expr,
    token: Terminal,
) -> Result<SimpleProgress, StepFault>
    ensures { let p = context_of context in
        Steps result p (behind_list (exs_of before.items) (ex_of last) token) p.depth }
{
    if before.is_empty() {
        behind_one(context, last, token)
    } else {
        drop(last);
        Err(StepFault::Unexpected)
    }
}

/// A token after the only expression.
fn behind_one(context: Context, value: Expr, token: Terminal) -> Result<SimpleProgress, StepFault>
    ensures { let p = context_of context in
        Steps result p (behind_one (ex_of value) token) p.depth }
{
    match token {
        Terminal::Increment(pos) => {
            limited(
                context.depth,
                Simples::End(context, Simple::Increment(value, pos)),
            )
        }
        Terminal::Decrement(pos) => {
            limited(
                context.depth,
                Simples::End(context, Simple::Decrement(value, pos)),
            )
        }
        _ => Ok(SimpleProgress::Ends(Simple::Express(value))),
    }
}

/// A token after the operator.
fn first_value(
    alloc: Global,
    context: Context,
    listed: Listed,
    token: Terminal,
) -> Result<SimpleProgress, StepFault>
    ensures { let p = context_of context in
        let s = at_value (listed_of listed) in
        Steps result p (step p s token) (nesting p s token) }
{
    match token {
        Terminal::Range(pos) => ranges(context, listed, pos),
        _ => {
            let value = expression_wanted(alloc, context);
            in_value(alloc, listed, Vec::new(alloc), value, token)
        }
    }
}

/// A `range` after the operator.
fn ranges(context: Context, listed: Listed, pos: Pos) -> Result<SimpleProgress, StepFault>
    ensures { let p = context_of context in
        let next = if p.ranges then ranges_over (listed_of listed) pos else fails in
        Steps result p next p.depth }
{
    if !context.ranges {
        drop(listed);
        return Err(StepFault::Unexpected);
    }
    let targets = match listed {
        Listed::Assign(places, operator) => Targets::Assign(places, operator),
        Listed::Update(..) => return Err(StepFault::Unexpected),
        Listed::Define(names, operator) => Targets::Define(names, operator),
    };
    if context.depth > NESTING_LIMIT {
        drop(targets);
        return Err(StepFault::TooDeep);
    }
    Ok(SimpleProgress::Ranges(targets, pos))
}

/// A token inside a value.
fn in_value(
    alloc: Global,
    listed: Listed,
    before: Vec<Expr>,
    value: InExpression,
    token: Terminal,
) -> Result<SimpleProgress, StepFault>
    ensures { let p = context_of value.context in
        let s = in_value (listed_of listed) (exs_of before.items) (open_of value.reading) in
        Steps result p (step p s token) (nesting p s token) }
{
    let InExpression { context, reading } = value;
    match step(alloc, reading, token) {
        Err(fault) => Err(fault),
        Ok(Progress::Goes(reading)) => {
            let value = InExpression { context, reading };
            Ok(SimpleProgress::Goes(Simples::InValue(listed, before, value)))
        }
        Ok(Progress::Ends(part)) => {
            let values = with_value(before, part.expr)?;
            behind_value(alloc, context, listed, values, token)
        }
    }
}

/// A token after a value.
fn behind_value(
    alloc: Global,
    context: Context,
    listed: Listed,
    values: Vec<Expr>,
    token: Terminal,
) -> Result<SimpleProgress, StepFault>
    ensures { let p = context_of context in
        Steps result p (behind_value (listed_of listed) (exs_of values.items) token) p.depth }
{
    match token {
        Terminal::Comma => {
            let next = expression_wanted(alloc, context);
            limited(context.depth, Simples::InValue(listed, values, next))
        }
        _ => Ok(SimpleProgress::Ends(listed_simple(listed, values))),
    }
}

/// One token more.
pub fn step_simple(
    alloc: Global,
    state: Simples,
    token: Terminal,
) -> Result<SimpleProgress, StepFault>
    ensures { let s = simples_of state in
        let p = context_at state in
        Steps result p (step p s token) (nesting p s token) }
{
    match state {
        Simples::Left(before, left) => in_left(alloc, before, left, token),
        Simples::Value(context, listed) => first_value(alloc, context, listed, token),
        Simples::InValue(listed, before, value) => in_value(alloc, listed, before, value, token),
        Simples::End(_, simple) => Ok(SimpleProgress::Ends(simple)),
    }
}
