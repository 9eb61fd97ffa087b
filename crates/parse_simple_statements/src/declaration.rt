//! The machine of declarations of constants and variables.

ghost use Rattle.std.specs.Prelude.{◌+◌, ◌≡◌, ℕ, ◌≤◌, ◌∷◌, ◌++◌, [], Some, None, IfOk};
ghost use Rattle.syntax.specs.Expressions.{none, ex_of, exs_of, ex_in};
ghost use Rattle.syntax.specs.Statements.{value_spec_of, value_specs_of};
ghost use Rattle.syntax.specs.Lists.{with_ex};
ghost use Rattle.parse_expressions.specs.Machine as expression;
ghost use Rattle.parse_expressions.specs.States.{open_of, context_in};
ghost use Rattle.parse_simple_statements.specs.Grammar.{Declares as AnyDeclares};
ghost use Rattle.parse_simple_statements.specs.ValueSpecs.{in_group, at_first, at_spec, at_next_name, at_names, goes};
ghost use Rattle.parse_simple_statements.specs.ValueSpecs.{spot_depth, type_context, value_context, spec_ends, value_wanted};
ghost use Rattle.parse_simple_statements.specs.ValueSpecs.{behind_type, after_type, behind_value, after_value, step, nesting};
ghost use Rattle.parse_simple_statements.specs.ValueSpecs.{nesting_at_end, nesting_after};
ghost use Rattle.parse_simple_statements.specs.Spots.{declares_of, spot_of};
ghost use Rattle.parse_simple_statements.specs.SpecStates.{specs_of, depth_of, whole_spec, Steps};

use crate::depth::Depth;
use crate::nodes::{with_spec, with_value};
use crate::spot::{Declares, Spot};
use crate::value_specs::{InType, InValue, Named, SpecsProgress, ValueSpecs, Valued};
use parse_expressions::{Open, Progress, StepFault, Terminal, expression, step, type_wanted};
use std::alloc::{AllocError, Global};
use syntax::{Expr, NESTING_LIMIT, Name, ValueSpec};

/// A declaration begins after its word, inside of `depth` brackets.
pub fn begin_specs(depth: usize) -> ValueSpecs
    requires { depth ≤ NESTING_LIMIT + 1 }
    ensures first { specs_of result ≡ at_first }
    ensures depth { depth_of result ≡ depth }
{
    ValueSpecs::First(Depth { brackets: depth })
}

/// The next state, where the token's nesting keeps the limit.
fn limited(nesting: usize, next: ValueSpecs) -> Result<SpecsProgress, StepFault>
    ensures { Steps result (depth_of next) (goes (specs_of next)) nesting }
{
    if nesting > NESTING_LIMIT {
        drop(next);
        return Err(StepFault::TooDeep);
    }
    Ok(SpecsProgress::Goes(next))
}

/// A token after the word.
fn first(alloc: Global, depth: Depth, token: Terminal) -> Result<SpecsProgress, StepFault>
    ensures { (k : AnyDeclares) → let d = depth.brackets in
        Steps result d (step k d at_first token) (nesting d at_first token) }
{
    match token {
        Terminal::Identifier(name) => {
            let named = Named {
                depth,
                spot: Spot::Alone,
                names: vec![in alloc; name]?,
            };
            limited(depth.brackets, ValueSpecs::Names(named))
        }
        Terminal::LeftParen(_) => {
            limited(depth.brackets, ValueSpecs::Spec(depth, Vec::new(alloc)))
        }
        _ => Err(StepFault::Unexpected),
    }
}

/// A token where one of them may begin in parentheses.
fn spec(
    alloc: Global,
    depth: Depth,
    specs: Vec<ValueSpec>,
    token: Terminal,
) -> Result<SpecsProgress, StepFault>
    ensures { (k : AnyDeclares) → let d = depth.brackets in
        let s = at_spec (value_specs_of specs.items) in
        Steps result d (step k d s token) (nesting d s token) }
{
    match token {
        Terminal::Identifier(name) => {
            let named = Named {
                depth,
                spot: Spot::Group(specs),
                names: vec![in alloc; name]?,
            };
            limited(depth.brackets + 1, ValueSpecs::Names(named))
        }
        Terminal::RightParen => limited(depth.brackets, ValueSpecs::GroupEnd(depth, specs)),
        _ => Err(StepFault::Unexpected),
    }
}

/// Inside of how many brackets one of them stands.
fn spot_depth(depth: Depth, spot: &Spot) -> usize
    ensures depth { result ≡ spot_depth depth.brackets (spot_of spot.now) }
    ensures small { result ≤ NESTING_LIMIT + 2 }
{
    match spot {
        Spot::Alone => depth.brackets,
        Spot::Group(_) => depth.brackets + 1,
    }
}

/// A token after names and a comma.
fn next_name(mut named: Named, token: Terminal) -> Result<SpecsProgress, StepFault>
    ensures { (k : AnyDeclares) → let d = named.depth.brackets in
        let s = at_next_name (spot_of named.spot) named.names.items in
        Steps result d (step k d s token) (nesting d s token) }
{
    match token {
        Terminal::Identifier(name) => {
            named.names.push(name)?;
            limited(
                spot_depth(named.depth, &named.spot),
                ValueSpecs::Names(named),
            )
        }
        _ => Err(StepFault::Unexpected),
    }
}

/// A token after the last of the names.
fn names(
    alloc: Global,
    kind: Declares,
    named: Named,
    token: Terminal,
) -> Result<SpecsProgress, StepFault>
    ensures { let d = named.depth.brackets in
        let s = at_names (spot_of named.spot) named.names.items in
        Steps result d (step (declares_of kind) d s token) (nesting d s token) }
{
    let depth = spot_depth(named.depth, &named.spot);
    match token {
        Terminal::Comma => limited(depth, ValueSpecs::NextName(named)),
        Terminal::Assign(_) => value_wanted(alloc, valued(named, None, Vec::new(alloc))),
        _ => in_type(alloc, kind, named, type_wanted(alloc, depth), token),
    }
}

fn valued(named: Named, type_expr: Option<Expr>, values: Vec<Expr>) -> Valued
    ensures { result ≡ record { named = named; type_expr = type_expr; values = values } }
{
    Valued {
        named,
        type_expr,
        values,
    }
}

/// A token inside the type, or where it may begin.
fn in_type(
    alloc: Global,
    kind: Declares,
    named: Named,
    reading: Open,
    token: Terminal,
) -> Result<SpecsProgress, StepFault>
    requires { context_in reading ≡ type_context named.depth.brackets (spot_of named.spot) }
    ensures { let d = named.depth.brackets in
        let s = spot_of named.spot in
        let b = type_context d s in
        let o = open_of reading in
        let next = expression.step b o token in
        Steps result d (after_type (declares_of kind) s named.names.items token next)
        (nesting_after d s b o token next) }
{
    match step(alloc, reading, token) {
        Err(fault) => Err(fault),
        Ok(Progress::Goes(reading)) => {
            Ok(SpecsProgress::Goes(ValueSpecs::Type(InType { named, reading })))
        }
        Ok(Progress::Ends(part)) => behind_type(alloc, kind, named, part.expr, token),
    }
}

/// A token after the type.
fn behind_type(
    alloc: Global,
    kind: Declares,
    named: Named,
    type_expr: Expr,
    token: Terminal,
) -> Result<SpecsProgress, StepFault>
    ensures { let d = named.depth.brackets in
        let s = spot_of named.spot in
        Steps result d (behind_type (declares_of kind) s named.names.items (ex_of type_expr) token)
        (nesting_at_end d s token) }
{
    let valued = valued(named, Some(type_expr), Vec::new(alloc));
    match token {
        Terminal::Assign(_) => value_wanted(alloc, valued),
        _ => match kind {
            Declares::Constants => {
                drop(valued);
                Err(StepFault::Unexpected)
            }
            Declares::Variables => spec_ends(alloc, valued, token),
        },
    }
}

/// A value is wanted.
fn value_wanted(alloc: Global, before: Valued) -> Result<SpecsProgress, StepFault>
    ensures { let d = before.named.depth.brackets in
        let s = spot_of before.named.spot in
        Steps result d
        (value_wanted s before.named.names.items (ex_in before.type_expr) (exs_of before.values.items))
        (spot_depth d s) }
{
    let depth = spot_depth(before.named.depth, &before.named.spot);
    let reading = expression(alloc, depth, true);
    limited(depth, ValueSpecs::Value(InValue { before, reading }))
}

/// A token inside a value.
fn in_value(
    alloc: Global,
    before: Valued,
    reading: Open,
    token: Terminal,
) -> Result<SpecsProgress, StepFault>
    requires { context_in reading ≡ value_context before.named.depth.brackets (spot_of before.named.spot) }
    ensures { let d = before.named.depth.brackets in
        let s = spot_of before.named.spot in
        let b = value_context d s in
        let o = open_of reading in
        let next = expression.step b o token in
        Steps result d
        (after_value s before.named.names.items (ex_in before.type_expr) (exs_of before.values.items) token next)
        (nesting_after d s b o token next) }
{
    match step(alloc, reading, token) {
        Err(fault) => {
            drop(before);
            Err(fault)
        }
        Ok(Progress::Goes(reading)) => {
            Ok(SpecsProgress::Goes(ValueSpecs::Value(InValue { before, reading })))
        }
        Ok(Progress::Ends(part)) => {
            let Valued {
                named,
                type_expr,
                values,
            } = before;
            let values = with_value(values, part.expr)?;
            behind_value(alloc, valued(named, type_expr, values), token)
        }
    }
}

/// A token after a value.
fn behind_value(alloc: Global, before: Valued, token: Terminal) -> Result<SpecsProgress, StepFault>
    ensures { let d = before.named.depth.brackets in
        let s = spot_of before.named.spot in
        Steps result d
        (behind_value s before.named.names.items (ex_in before.type_expr) (exs_of before.values.items) token)
        (nesting_at_end d s token) }
{
    match token {
        Terminal::Comma => value_wanted(alloc, before),
        _ => spec_ends(alloc, before, token),
    }
}

/// A token after a whole one of them.
fn spec_ends(alloc: Global, valued: Valued, token: Terminal) -> Result<SpecsProgress, StepFault>
    ensures { let d = valued.named.depth.brackets in
        let s = spot_of valued.named.spot in
        Steps result d (spec_ends s (whole_spec valued) token) (nesting_at_end d s token) }
{
    let Valued {
        named: Named { depth, spot, names },
        type_expr,
        values,
    } = valued;
    let spec = ValueSpec {
        names,
        type_expr,
        values,
    };
    match spot {
        Spot::Alone => Ok(SpecsProgress::Ends(vec![in alloc; spec]?)),
        Spot::Group(specs) => group_goes_on(depth, specs, spec, token),
    }
}

/// A token after a whole one of them in parentheses.
fn group_goes_on(
    depth: Depth,
    specs: Vec<ValueSpec>,
    spec: ValueSpec,
    token: Terminal,
) -> Result<SpecsProgress, StepFault>
    ensures { let d = depth.brackets in
        let s = in_group (value_specs_of specs.items) in
        Steps result d (spec_ends s (value_spec_of spec) token) (nesting_at_end d s token) }
{
    match token {
        Terminal::Semicolon => {
            let specs = with_spec(specs, spec)?;
            limited(depth.brackets + 1, ValueSpecs::Spec(depth, specs))
        }
        Terminal::RightParen => {
            let specs = with_spec(specs, spec)?;
            limited(depth.brackets, ValueSpecs::GroupEnd(depth, specs))
        }
        _ => {
            drop(spec);
            Err(StepFault::Unexpected)
        }
    }
}

/// One token more.
pub fn step_specs(
    alloc: Global,
    kind: Declares,
    state: ValueSpecs,
    token: Terminal,
) -> Result<SpecsProgress, StepFault>
    ensures { let s = specs_of state in
        let d = depth_of state in
        Steps result d (step (declares_of kind) d s token) (nesting d s token) }
{
    match state {
        ValueSpecs::First(depth) => first(alloc, depth, token),
        ValueSpecs::Spec(depth, specs) => spec(alloc, depth, specs, token),
        ValueSpecs::NextName(named) => next_name(named, token),
        ValueSpecs::Names(named) => names(alloc, kind, named, token),
        ValueSpecs::Type(InType { named, reading }) => {
            in_type(alloc, kind, named, reading, token)
        }
        ValueSpecs::Value(InValue { before, reading }) => in_value(alloc, before, reading, token),
        ValueSpecs::GroupEnd(_, specs) => Ok(SpecsProgress::Ends(specs)),
    }
}
