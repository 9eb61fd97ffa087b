//! Prefixes: what each gives on what its operand gives, and the rule of it that fails.
//!
//! Constants are worked out exactly. What is no constant is worked out when the program runs.

ghost use Rattle.std.specs.Prelude.{◌≡◌, option_and_then, IfOk};
ghost use Rattle.std.specs.Option.{option_map};
ghost use Rattle.typed.specs.View.{ex_of};
ghost use Rattle.operators.specs.Operands.{value};
ghost use Rattle.operators.specs.Operators.{has_rules, takes_one, takes_operand, prefix_of, prefixed};
ghost use Rattle.operators.specs.Faults.{fitting_prefix_fault, prefix_fault};
ghost use Rattle.operators.specs.Passing.{operand_of};

use crate::folding::fold_one;
use crate::operand::{Operand, const_of, constant, constant_fault, type_of};
use base::{NoMemory, Pos, ValueType};
use constants::{Fixed, constant_type};
use std::alloc::Global;
use syntax::UnOp;
use type_faults::{Fault, FaultKind};
use typed::Expr;

/// Whether a prefix has rules.
pub fn has_rules(op: UnOp) -> bool
    ensures { result ≡ has_rules op }
{
    match op {
        UnOp::Plus | UnOp::Negate | UnOp::Complement | UnOp::Not => true,
        _ => false,
    }
}

/// Whether a prefix takes an operand of a type.
fn takes_one(op: UnOp, operand: ValueType) -> bool
    ensures { result ≡ takes_one op operand }
{
    match (op, operand) {
        (UnOp::Plus | UnOp::Negate | UnOp::Complement, ValueType::Int) => true,
        (UnOp::Not, ValueType::Bool) => true,
        _ => false,
    }
}

/// Whether a prefix takes an operand of a type or of none.
fn takes_operand(op: UnOp, operand: Option<ValueType>) -> bool
    ensures { result ≡ takes_operand op operand }
{
    match operand {
        Some(value_type) => takes_one(op, value_type),
        None => false,
    }
}

fn prefix_of(op: UnOp) -> Option<typed::UnOp>
    ensures { result ≡ prefix_of op }
{
    match op {
        UnOp::Plus => Some(typed::UnOp::Plus),
        UnOp::Negate => Some(typed::UnOp::Negate),
        UnOp::Complement => Some(typed::UnOp::Complement),
        UnOp::Not => Some(typed::UnOp::Not),
        _ => None,
    }
}

/// A prefix on a constant.
fn prefixed_constant(op: UnOp, fixed: Fixed) -> Option<Operand>
    ensures { option_map operand_of result ≡ prefixed op (Rattle.operators.specs.Operands.constant fixed) }
{
    if takes_one(op, constant_type(fixed)) {
        constant(fixed.value_type, fold_one(op, const_of(fixed.value)))
    } else {
        None
    }
}

/// A prefix on a value of a type.
fn prefixed_value(
    alloc: Global,
    op: UnOp,
    value_type: ValueType,
    e: Expr,
) -> Result<Option<Operand>, NoMemory>
    ensures { IfOk result (λ o. option_map operand_of o ≡ prefixed op (value value_type (ex_of e))) }
{
    if !takes_one(op, value_type) {
        drop(e);
        return Ok(None);
    }
    match prefix_of(op) {
        Some(typed_op) => {
            let e = Box::new(alloc, e)?;
            Ok(Some(Operand::Value(value_type, Expr::Unary(typed_op, e))))
        }
        None => {
            drop(e);
            Ok(None)
        }
    }
}

/// What a prefix gives on what its operand gives.
pub fn prefixed(
    alloc: Global,
    op: UnOp,
    operand: Option<Operand>,
) -> Result<Option<Operand>, NoMemory>
    ensures { IfOk result (λ o. option_map operand_of o ≡ option_and_then (prefixed op) (option_map operand_of operand)) }
{
    match operand {
        None => Ok(None),
        Some(Operand::Constant(fixed)) => Ok(prefixed_constant(op, fixed)),
        Some(Operand::Value(value_type, e)) => prefixed_value(alloc, op, value_type, e),
        Some(Operand::Nil) => Ok(None),
    }
}

/// The fault of a prefix on an operand of a type that it takes.
fn fitting_prefix_fault(op: UnOp, pos: Pos, operand: &Operand) -> Option<Fault>
    ensures { result ≡ fitting_prefix_fault pos op (operand_of operand.now) }
{
    match operand {
        Operand::Constant(fixed) => constant_fault(
            fixed.value_type,
            pos,
            pos,
            fold_one(op, const_of(fixed.value)),
        ),
        Operand::Value(_, _) | Operand::Nil => None,
    }
}

/// The fault of a prefix on what its operand gives.
pub fn prefix_fault(op: UnOp, pos: Pos, operand: &Option<Operand>) -> Option<Fault>
    ensures { result ≡ prefix_fault pos op (option_map operand_of operand.now) }
{
    match operand {
        None => None,
        Some(operand) => {
            if takes_operand(op, type_of(operand)) {
                fitting_prefix_fault(op, pos, operand)
            } else {
                Some(Fault {
                    kind: FaultKind::Unfit,
                    pos,
                })
            }
        }
    }
}
