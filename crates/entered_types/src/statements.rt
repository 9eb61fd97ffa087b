//! The array types in statements.

ghost use Rattle.std.specs.Prelude.{◌≡◌, OnOk};
ghost use Rattle.syntax.specs.Statements.{value_spec_of, value_specs_of, simple_of, simple_in, guard_of, targets_of};
ghost use Rattle.syntax.specs.Statements.{clause_of, stm_of, els_of, stms_of};
ghost use Rattle.names.specs.Scope.{scope_of};
ghost use Rattle.entered_types.specs.Entered.{entered_spec, entered_specs, entered_simple, entered_simple_in, entered_guard};
ghost use Rattle.entered_types.specs.Entered.{entered_targets, entered_clause, entered_statement, entered_else};
ghost use Rattle.entered_types.specs.Entered.{entered_statements};

use crate::expressions::{enter_each, enter_expr, enter_some};
use base::NoMemory;
use names::Scope;
use std::alloc::Global;
use syntax::{Clause, Else, Guard, Simple, Stmt, Targets, ValueSpec};

/// Enters the array types in one declaration of constants or variables.
fn enter_spec(
    alloc: Global,
    text: &[u8],
    scope: &mut Scope,
    spec: &ValueSpec,
) -> Result<(), NoMemory>
    ensures { OnOk result (scope_of scope.new ≡ entered_spec text.now (scope_of scope.old) (value_spec_of spec.now)) }
{
    enter_some(alloc, text, scope, &spec.type_expr)?;
    enter_each(alloc, text, scope, &spec.values)
}

/// Enters the array types in declarations of constants or variables.
pub fn enter_specs(
    alloc: Global,
    text: &[u8],
    scope: &mut Scope,
    specs: &[ValueSpec],
) -> Result<(), NoMemory>
    ensures { OnOk result (scope_of scope.new ≡ entered_specs text.now (scope_of scope.old) (value_specs_of specs.now)) }
{
    for spec in specs {
        enter_spec(alloc, text, scope, spec)?;
    }
    Ok(())
}

fn enter_simple(
    alloc: Global,
    text: &[u8],
    scope: &mut Scope,
    simple: &Simple,
) -> Result<(), NoMemory>
    ensures { OnOk result (scope_of scope.new ≡ entered_simple text.now (scope_of scope.old) (simple_of simple.now)) }
{
    match simple {
        Simple::Express(e) => enter_expr(alloc, text, scope, e),
        Simple::Assign(places, _, values) => {
            enter_each(alloc, text, scope, places)?;
            enter_each(alloc, text, scope, values)
        }
        Simple::Update(places, _, _, values) => {
            enter_each(alloc, text, scope, places)?;
            enter_each(alloc, text, scope, values)
        }
        Simple::Define(_, _, values) => enter_each(alloc, text, scope, values),
        Simple::Increment(e, _) => enter_expr(alloc, text, scope, e),
        Simple::Decrement(e, _) => enter_expr(alloc, text, scope, e),
    }
}

/// Enters the array types in a simple statement, where there is one.
fn enter_simple_in(
    alloc: Global,
    text: &[u8],
    scope: &mut Scope,
    simple: &Option<Simple>,
) -> Result<(), NoMemory>
    ensures { OnOk result (scope_of scope.new ≡ entered_simple_in text.now (scope_of scope.old) (simple_in simple.now)) }
{
    match simple {
        Some(simple) => enter_simple(alloc, text, scope, simple),
        None => Ok(()),
    }
}

fn enter_guard(alloc: Global, text: &[u8], scope: &mut Scope, guard: &Guard) -> Result<(), NoMemory>
    ensures { OnOk result (scope_of scope.new ≡ entered_guard text.now (scope_of scope.old) (guard_of guard.now)) }
{
    enter_simple_in(alloc, text, scope, &guard.init)?;
    enter_expr(alloc, text, scope, &guard.condition)
}

/// Enters the array types in what a `range` gives its values to.
fn enter_targets(
    alloc: Global,
    text: &[u8],
    scope: &mut Scope,
    targets: &Targets,
) -> Result<(), NoMemory>
    ensures { OnOk result (scope_of scope.new ≡ entered_targets text.now (scope_of scope.old) (targets_of targets.now)) }
{
    match targets {
        Targets::Absent => Ok(()),
        Targets::Assign(places, _) => enter_each(alloc, text, scope, places),
        Targets::Define(_, _) => Ok(()),
    }
}

/// Enters the array types between a `for` and its body.
fn enter_clause(
    alloc: Global,
    text: &[u8],
    scope: &mut Scope,
    clause: &Clause,
) -> Result<(), NoMemory>
    ensures { OnOk result (scope_of scope.new ≡ entered_clause text.now (scope_of scope.old) (clause_of clause.now)) }
{
    match clause {
        Clause::Forever => Ok(()),
        Clause::While(e) => enter_expr(alloc, text, scope, e),
        Clause::Counting(init, test, post) => {
            enter_simple_in(alloc, text, scope, init)?;
            enter_some(alloc, text, scope, test)?;
            enter_simple_in(alloc, text, scope, post)
        }
        Clause::Range(targets, _, e) => {
            enter_targets(alloc, text, scope, targets)?;
            enter_expr(alloc, text, scope, e)
        }
    }
}

#[cycle(statements)]
#[tactic(auto, using(syntax::proofs::Views::stmt_rows))]
fn enter_stmt(alloc: Global, text: &[u8], scope: &mut Scope, s: &Stmt) -> Result<(), NoMemory>
    ensures { OnOk result (scope_of scope.new ≡ entered_statement text.now (scope_of scope.old) (stm_of s.now)) }
{
    match s {
        Stmt::Var(_, specs) => enter_specs(alloc, text, scope, specs),
        Stmt::Simple(simple) => enter_simple(alloc, text, scope, simple),
        Stmt::Block(body) => enter_stmts(alloc, text, scope, body),
        Stmt::If(_, guard, body, rest) => {
            enter_guard(alloc, text, scope, guard)?;
            enter_stmts(alloc, text, scope, body)?;
            enter_else(alloc, text, scope, rest)
        }
        Stmt::For(_, clause, body) => {
            enter_clause(alloc, text, scope, clause)?;
            enter_stmts(alloc, text, scope, body)
        }
        Stmt::Break(_) => Ok(()),
        Stmt::Continue(_) => Ok(()),
        Stmt::Return(_, es) => enter_each(alloc, text, scope, es),
    }
}

/// Enters the array types behind the body of an `if`.
#[cycle(statements)]
#[tactic(auto, using(syntax::proofs::Views::stmt_rows))]
fn enter_else(alloc: Global, text: &[u8], scope: &mut Scope, e: &Else) -> Result<(), NoMemory>
    ensures { OnOk result (scope_of scope.new ≡ entered_else text.now (scope_of scope.old) (els_of e.now)) }
{
    match e {
        Else::Absent => Ok(()),
        Else::Block(body) => enter_stmts(alloc, text, scope, body),
        Else::If(_, guard, body, rest) => {
            let rest: &Else = rest;
            enter_guard(alloc, text, scope, guard)?;
            enter_stmts(alloc, text, scope, body)?;
            enter_else(alloc, text, scope, rest)
        }
    }
}

/// Enters the array types in statements.
#[cycle(statements)]
pub fn enter_stmts(
    alloc: Global,
    text: &[u8],
    scope: &mut Scope,
    ms: &[Stmt],
) -> Result<(), NoMemory>
    ensures { OnOk result (scope_of scope.new ≡ entered_statements text.now (scope_of scope.old) (stms_of ms.now)) }
{
    for s in ms {
        enter_stmt(alloc, text, scope, s)?;
    }
    Ok(())
}
