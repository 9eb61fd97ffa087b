//! Assignments with an operator, `++` and `--`: a variable gets a value that is made of its own.

ghost use Rattle.std.specs.Prelude.{◌≡◌, ◌⊎◌, Option, Some, None, IfOk, is_some, not, ◌&&◌, option_and_then, if◌then◌else◌};
ghost use Rattle.std.specs.Option.{option_map};
ghost use Rattle.syntax.specs.declared.operator.BinOp.TheVariants.{Arithmetic as ArithmeticOf};
ghost use Rattle.syntax.specs.Expressions.{ex_of as tree_of, exs_of as trees_of};
ghost use Rattle.syntax.specs.FirstBytes.{first_pos};
ghost use Rattle.typed.specs.View.{ex_of, st_of};
ghost use Rattle.typed.specs.Positions.{position};
ghost use Rattle.type_faults.specs.Least.{IsLeast};
ghost use Rattle.type_faults.specs.Given.{both};
ghost use Rattle.type_faults.specs.Faults.{fault as fault_at, IsFault};
ghost use Rattle.type_faults.specs.declared.fault.FaultKind.TheVariants.{WrongCount as WrongNumber};
ghost use Rattle.base.specs.declared.value_type.ValueType.TheVariants.{Int as IntType};
ghost use Rattle.operators.specs.Operands.{value};
ghost use Rattle.operators.specs.Operators.{combined};
ghost use Rattle.operators.specs.Faults.{pair_fault};
ghost use Rattle.operators.specs.Passing.{operand_of};
ghost use Rattle.names.specs.Scope.{scope_of};
ghost use Rattle.names.specs.Naming.{name_in};
ghost use Rattle.given_values.specs.Given.{many, count, operand_in};
ghost use Rattle.expression_types.specs.Typing.{gives, seen};
ghost use Rattle.given_values.specs.GivenFaults.{refused_fault, ValuesFail};
ghost use Rattle.expression_types.specs.Faults.{FailsInEach, FailsAsOperand};
ghost use Rattle.given_values.specs.Passing.{seens};
ghost use Rattle.simple_statements.specs.SimpleStatements.{only, own_value, updated, stepped, update_one, update_statement, step_statement};
ghost use Rattle.simple_statements.specs.SimpleFaults.{step_fault, given_count, have_values, lefts_place, OwnSideFails, OwnSidesFail, FailsInUpdate, FailsInStep};

use crate::sides::{check_own, lefts_pos};
use crate::statements::Line;
use base::{NoMemory, Pos, ValueType};
use expression_types::{check_list, check_single};
use given_values::{Item, count, values_fault};
use names::Scope;
use operators::{Operand, is_assignable, pair_fault, paired};
use signatures::fault_where;
use std::alloc::Global;
use syntax::{ArithmeticOp, Expr};
use type_faults::{Fault, FaultKind, lesser};
use typed::BinOp;

/// What is known of left sides that have values of their own: whether each has one, and the fault.
#[derive(Clone, Copy, Debug, PartialEq, Eq)]
struct Sides {
    known: bool,
    fault: Option<Fault>,
}

/// Whether values are known, and one more.
fn with_known(known: bool, value: &Option<Operand>) -> bool
    ensures { result ≡ (known && is_some (option_map operand_of value.now)) }
{
    known && value.is_some()
}

/// Left sides whose values are asked for.
fn check_sides(alloc: Global, text: &[u8], scope: &Scope, es: &[Expr]) -> Result<Sides, NoMemory>
    ensures known { IfOk result (λ s. s.known ≡ have_values text.now (scope_of scope.now) (trees_of es.now)) }
    ensures fault { IfOk result (λ s. IsLeast (OwnSidesFail text.now (scope_of scope.now) (trees_of es.now)) s.fault) }
{
    let mut known = true;
    let mut fault = None;
    for e in es {
        let own = check_own(alloc, text, scope, e)?;
        known = with_known(known, &own.value);
        fault = lesser(fault, own.fault);
    }
    Ok(Sides { known, fault })
}

/// An assignment with an operator, of what the operator gives of the variable and the operand.
fn updated(operand: Operand) -> Option<typed::Stmt>
    ensures { option_map st_of result ≡ updated (operand_of operand) }
{
    let Operand::Value(_, e) = operand else {
        return None;
    };
    let typed::Expr::Binary(pos, op, left, right) = e else {
        return None;
    };
    match Box::into_inner(left) {
        typed::Expr::Read(place) => Some(typed::Stmt::Update(
            pos,
            place,
            op,
            Box::into_inner(right),
        )),
        _ => None,
    }
}

fn updated_of(operand: Option<Operand>) -> Option<typed::Stmt>
    ensures { option_map st_of result ≡ option_and_then updated (option_map operand_of operand) }
{
    match operand {
        Some(operand) => updated(operand),
        None => None,
    }
}

/// An assignment with an operator, at a position of its own, of one value to one variable.
fn check_one(
    alloc: Global,
    text: &[u8],
    scope: &Scope,
    e: &Expr,
    pos: Pos,
    op: ArithmeticOp,
    value: &Expr,
) -> Result<Line, NoMemory>
    ensures statement { IfOk result (λ c. option_map st_of c.statement
        ≡ update_one text.now (scope_of scope.now) pos op (tree_of e.now) (tree_of value.now)) }
    ensures fault { IfOk result (λ c. IsLeast
        (λ f. (OwnSideFails text.now (scope_of scope.now) (name_in (tree_of e.now)) (tree_of e.now) f
        ⊎ FailsAsOperand text.now (scope_of scope.now) (tree_of value.now) f)
        ⊎ IsFault (pair_fault (first_pos (tree_of e.now)) (first_pos (tree_of value.now)) (ArithmeticOf op)
        (own_value text.now (scope_of scope.now) (tree_of e.now))
        (operand_in (gives text.now (scope_of scope.now) (tree_of value.now)))) f) c.fault) }
{
    let left = check_own(alloc, text, scope, e)?;
    let right = check_single(alloc, text, scope, value)?;
    let tree_op = syntax::BinOp::Arithmetic(op);
    let own = pair_fault(tree_op, e.pos(), right.pos, &left.value, &right.operand);
    let operand = paired(alloc, tree_op, pos, left.value, right.operand)?;
    Ok(Line {
        statement: updated_of(operand),
        fault: lesser(lesser(left.fault, right.fault), own),
    })
}

fn given_count(known: bool, items: &[Item]) -> Option<usize>
    ensures { result ≡ given_count known (seens items.now) }
{
    if known { count(items) } else { None }
}

fn refused_fault(count: Option<usize>, own: Fault) -> Option<Fault>
    ensures { result ≡ refused_fault count own }
{
    match count {
        Some(_) => Some(own),
        None => None,
    }
}

/// An assignment with an operator of another number of values, or to another number of left sides.
fn check_refused(
    alloc: Global,
    text: &[u8],
    scope: &Scope,
    lefts: &[Expr],
    pos: Pos,
    es: &[Expr],
) -> Result<Line, NoMemory>
    ensures statement { IfOk result (λ c. option_map st_of c.statement ≡ None) }
    ensures fault { IfOk result (λ c. IsLeast
        (λ f. ((OwnSidesFail text.now (scope_of scope.now) (trees_of lefts.now) f
        ⊎ FailsInEach text.now (scope_of scope.now) (trees_of es.now) f)
        ⊎ ValuesFail (many (seen text.now (scope_of scope.now) (trees_of es.now)))
        (seen text.now (scope_of scope.now) (trees_of es.now)) f)
        ⊎ IsFault (refused_fault (given_count (have_values text.now (scope_of scope.now) (trees_of lefts.now))
        (seen text.now (scope_of scope.now) (trees_of es.now)))
        (fault_at WrongNumber (lefts_place (trees_of lefts.now) pos))) f) c.fault) }
{
    let sides = check_sides(alloc, text, scope, lefts)?;
    let listed = check_list(alloc, text, scope, es)?;
    let own = Fault {
        kind: FaultKind::WrongCount,
        pos: lefts_pos(lefts, pos),
    };
    let before = lesser(
        lesser(sides.fault, listed.fault),
        values_fault(&listed.items),
    );
    let counted = given_count(sides.known, &listed.items);
    Ok(Line {
        statement: None,
        fault: lesser(before, refused_fault(counted, own)),
    })
}

/// The expression that stands alone.
#[tactic(auto, using(crate::proofs::Items::only_first, crate::proofs::Items::only_other))]
fn only(es: &[Expr]) -> Option<&Expr>
    ensures { option_map (λ e. tree_of e.now) result ≡ only (trees_of es.now) }
{
    if es.len() == 1 { es.first() } else { None }
}

/// An assignment with an operator.
pub fn check_update(
    alloc: Global,
    text: &[u8],
    scope: &Scope,
    lefts: &[Expr],
    pos: Pos,
    op: ArithmeticOp,
    es: &[Expr],
) -> Result<Line, NoMemory>
    ensures statement { IfOk result (λ c. option_map st_of c.statement
        ≡ update_statement text.now (scope_of scope.now) pos op (only (trees_of lefts.now)) (only (trees_of es.now))) }
    ensures fault { IfOk result (λ c. IsLeast
        (FailsInUpdate text.now (scope_of scope.now) (trees_of lefts.now) pos op (trees_of es.now)) c.fault) }
{
    match only(lefts) {
        Some(left) => match only(es) {
            Some(value) => check_one(alloc, text, scope, left, pos, op, value),
            None => check_refused(alloc, text, scope, lefts, pos, es),
        },
        None => check_refused(alloc, text, scope, lefts, pos, es),
    }
}

/// `++` or `--` on a value that is an int, where it is read from a place.
fn stepped_int(pos: Pos, op: BinOp, e: typed::Expr) -> Option<typed::Stmt>
    ensures { option_map st_of result ≡ stepped (position pos) op (value IntType (ex_of e)) }
{
    match e {
        typed::Expr::Read(place) => Some(typed::Stmt::Bump(pos, place, op)),
        other => {
            drop(other);
            None
        }
    }
}

/// `++` or `--` on a variable, which is an int.
fn stepped(pos: Pos, op: BinOp, operand: Option<Operand>) -> Option<typed::Stmt>
    ensures { option_map st_of result ≡ option_and_then (stepped (position pos) op) (option_map operand_of operand) }
{
    match operand {
        Some(Operand::Value(ValueType::Int, e)) => stepped_int(pos, op, e),
        other => {
            drop(other);
            None
        }
    }
}

/// The fault of `++` or `--` on what is no int.
fn step_fault(operand: &Option<Operand>, pos: Pos) -> Option<Fault>
    ensures { result ≡ step_fault (option_map operand_of operand.now) pos }
{
    let own = Fault {
        kind: FaultKind::Unfit,
        pos,
    };
    match operand {
        Some(operand) => fault_where(!is_assignable(ValueType::Int, operand), own),
        None => None,
    }
}

/// `++` or `--`, which stand for the operators.
pub fn check_step(
    alloc: Global,
    text: &[u8],
    scope: &Scope,
    pos: Pos,
    op: BinOp,
    e: &Expr,
) -> Result<Line, NoMemory>
    ensures statement { IfOk result (λ c. option_map st_of c.statement
        ≡ step_statement text.now (scope_of scope.now) pos op (tree_of e.now)) }
    ensures fault { IfOk result (λ c. IsLeast (FailsInStep text.now (scope_of scope.now) (tree_of e.now)) c.fault) }
{
    let left = check_own(alloc, text, scope, e)?;
    let own = step_fault(&left.value, e.pos());
    Ok(Line {
        statement: stepped(pos, op, left.value),
        fault: lesser(left.fault, own),
    })
}
