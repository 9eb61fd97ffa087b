//! The types of conditions: a condition is a truth value.

ghost use Rattle.std.specs.Prelude.{◌≡◌, Option, Some, None, IfOk, option_and_then};
ghost use Rattle.std.specs.Option.{option_map};
ghost use Rattle.syntax.specs.Expressions.{ex_of as tree_of};
ghost use Rattle.syntax.specs.Statements.{clause_of};
ghost use Rattle.typed.specs.View.{ex_of, test_of};
ghost use Rattle.type_faults.specs.Least.{IsLeast};
ghost use Rattle.operators.specs.Passing.{operand_of};
ghost use Rattle.names.specs.Scope.{scope_of};
ghost use Rattle.given_values.specs.Given.{as_condition};
ghost use Rattle.expression_types.specs.Typing.{condition_in, condition, test};
ghost use Rattle.given_values.specs.GivenFaults.{condition_fault};
ghost use Rattle.expression_types.specs.Faults.{FailsInCondition, FailsInTest};

use crate::expressions::check_single;
use base::{NoMemory, Pos, ValueType};
use names::Scope;
use operators::{Operand, as_value, is_assignable};
use std::alloc::Global;
use syntax::{Clause, Expr as TreeExpr};
use type_faults::{Fault, FaultKind, lesser};
use typed::Expr;

/// What is known of a condition: its typed form, and the fault that is reported.
#[derive(Drop)]
pub struct Condition {
    pub value: Option<Expr>,
    pub fault: Option<Fault>,
}

/// A truth value.
fn as_condition(operand: Operand) -> Option<Expr>
    ensures { option_map ex_of result ≡ as_condition (operand_of operand) }
{
    if is_assignable(ValueType::Bool, &operand) {
        as_value(operand)
    } else {
        None
    }
}

fn condition_of(operand: Option<Operand>) -> Option<Expr>
    ensures { option_map ex_of result ≡ option_and_then as_condition (option_map operand_of operand) }
{
    match operand {
        Some(operand) => as_condition(operand),
        None => None,
    }
}

/// The fault of what is no truth value.
fn condition_fault(pos: Pos, operand: &Option<Operand>) -> Option<Fault>
    ensures { result ≡ condition_fault pos (option_map operand_of operand.now) }
{
    match operand {
        Some(operand) if !is_assignable(ValueType::Bool, operand) => Some(Fault {
            kind: FaultKind::Unfit,
            pos,
        }),
        _ => None,
    }
}

/// The condition of a statement whose word stands at a place.
pub fn check_condition(
    alloc: Global,
    text: &[u8],
    scope: &Scope,
    pos: Pos,
    e: &TreeExpr,
) -> Result<Condition, NoMemory>
    ensures value { IfOk result (λ r. option_map ex_of r.value ≡ condition text.now (scope_of scope.now) (tree_of e.now)) }
    ensures fault { IfOk result (λ r. IsLeast (FailsInCondition text.now (scope_of scope.now) pos (tree_of e.now)) r.fault) }
{
    let found = check_single(alloc, text, scope, e)?;
    let own = condition_fault(pos, &found.operand);
    Ok(Condition {
        value: condition_of(found.operand),
        fault: lesser(found.fault, own),
    })
}

/// What is known of a test that may be absent.
#[derive(Drop)]
pub struct Test {
    pub value: Option<Option<Expr>>,
    pub fault: Option<Fault>,
}

/// A test that is there.
fn check_present(
    alloc: Global,
    text: &[u8],
    scope: &Scope,
    pos: Pos,
    e: &TreeExpr,
) -> Result<Test, NoMemory>
    ensures value { IfOk result (λ r. option_map test_of r.value ≡ test text.now (scope_of scope.now) (Some (tree_of e.now))) }
    ensures fault { IfOk result (λ r. IsLeast (FailsInTest text.now (scope_of scope.now) pos (Some (tree_of e.now))) r.fault) }
{
    let found = check_condition(alloc, text, scope, pos, e)?;
    Ok(Test {
        value: found.value.map(Some),
        fault: found.fault,
    })
}

/// The condition of a loop, where it has one.
pub fn check_test(
    alloc: Global,
    text: &[u8],
    scope: &Scope,
    pos: Pos,
    clause: &Clause,
) -> Result<Test, NoMemory>
    ensures value { IfOk result (λ r. option_map test_of r.value
        ≡ test text.now (scope_of scope.now) (condition_in (clause_of clause.now))) }
    ensures fault { IfOk result (λ r. IsLeast
        (FailsInTest text.now (scope_of scope.now) pos (condition_in (clause_of clause.now))) r.fault) }
{
    match clause {
        Clause::While(e) => check_present(alloc, text, scope, pos, e),
        Clause::Counting(_, Some(e), _) => check_present(alloc, text, scope, pos, e),
        _ => Ok(Test {
            value: Some(None),
            fault: None,
        }),
    }
}
