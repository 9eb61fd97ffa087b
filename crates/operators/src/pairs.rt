//! Operators on two operands: what each gives on what its operands give, and the rule of it that fails.
//!
//! Constants are worked out exactly. What is no constant is worked out when the program runs.

ghost use Rattle.std.specs.Prelude.{◌≡◌, IfOk};
ghost use Rattle.std.specs.Option.{option_map};
ghost use Rattle.typed.specs.View.{ex_of};
ghost use Rattle.type_faults.specs.Given.{both};
ghost use Rattle.operators.specs.Operands.{as_value};
ghost use Rattle.operators.specs.Operators.{are_comparable, takes, takes_both, result_type, is_division, is_shift, stands_right, right_allowed, arithmetic_of, compare_of, typed_pair, both_values, value_pair, either_type, joint_type, converts, worked_out, constant_pair, combined};
ghost use Rattle.operators.specs.Faults.{are_alike, unfit_kind, right_fault, conversion_fault, constants_fault, fitting_fault, two_fault, pair_fault};
ghost use Rattle.operators.specs.Passing.{operand_of};

use crate::constant_faults::constant_range_fault;
use crate::folding::{Const, ConstFault, fold};
use crate::operand::{Operand, as_value, const_of, constant, constant_fault, type_of};
use base::{NoMemory, Pos, ValueType, same_type};
use constants::{Constant, Fixed, constant_type, is_held, is_negative, is_zero};
use std::alloc::Global;
use syntax::{ArithmeticOp, BinOp, CompareOp};
use type_faults::{Fault, FaultKind};
use typed::Expr;

/// Whether values of two types can be compared: these are one, and no two slices can be.
fn are_comparable(left: ValueType, right: ValueType) -> bool
    ensures { result ≡ are_comparable left right }
{
    !matches!(left, ValueType::Slice(_)) && same_type(left, right)
}

/// Whether an operator takes operands of two types.
fn takes(op: BinOp, left: ValueType, right: ValueType) -> bool
    ensures { result ≡ takes op left right }
{
    match (op, left, right) {
        (BinOp::Compare(CompareOp::Equal | CompareOp::NotEqual), left, right) => {
            are_comparable(left, right)
        }
        (BinOp::Arithmetic(_) | BinOp::Compare(_), ValueType::Int, ValueType::Int) => true,
        (BinOp::LogicalAnd | BinOp::LogicalOr, ValueType::Bool, ValueType::Bool) => true,
        _ => false,
    }
}

/// Whether an operator takes two operands of these types; `nil` has none.
fn takes_both(op: BinOp, left: Option<ValueType>, right: Option<ValueType>) -> bool
    ensures { result ≡ takes_both op left right }
{
    match (left, right) {
        (Some(left), Some(right)) => takes(op, left, right),
        _ => false,
    }
}

fn result_type(op: BinOp) -> ValueType
    ensures { result ≡ result_type op }
{
    match op {
        BinOp::Arithmetic(_) => ValueType::Int,
        _ => ValueType::Bool,
    }
}

fn is_division(op: BinOp) -> bool
    ensures { result ≡ is_division op }
{
    match op {
        BinOp::Arithmetic(ArithmeticOp::Div | ArithmeticOp::Rem) => true,
        _ => false,
    }
}

fn is_shift(op: BinOp) -> bool
    ensures { result ≡ is_shift op }
{
    match op {
        BinOp::Arithmetic(ArithmeticOp::ShiftLeft | ArithmeticOp::ShiftRight) => true,
        _ => false,
    }
}

/// Whether a constant is no divisor 0 and no negative count.
fn stands_right(op: BinOp, constant: Constant) -> bool
    ensures { result ≡ stands_right op constant }
{
    !(is_division(op) && is_zero(constant)) && !(is_shift(op) && is_negative(constant))
}

/// Whether an operand may stand on the right of one that is no constant.
fn right_allowed(op: BinOp, operand: &Operand) -> bool
    ensures { result ≡ right_allowed op (operand_of operand.now) }
{
    match operand {
        Operand::Constant(fixed) => stands_right(op, fixed.value),
        Operand::Value(_, _) | Operand::Nil => true,
    }
}

fn arithmetic_of(op: ArithmeticOp) -> typed::BinOp
    ensures { result ≡ arithmetic_of op }
{
    match op {
        ArithmeticOp::Add => typed::BinOp::Add,
        ArithmeticOp::Sub => typed::BinOp::Sub,
        ArithmeticOp::Mul => typed::BinOp::Mul,
        ArithmeticOp::Div => typed::BinOp::Div,
        ArithmeticOp::Rem => typed::BinOp::Rem,
        ArithmeticOp::And => typed::BinOp::And,
        ArithmeticOp::Or => typed::BinOp::Or,
        ArithmeticOp::Xor => typed::BinOp::Xor,
        ArithmeticOp::AndNot => typed::BinOp::AndNot,
        ArithmeticOp::ShiftLeft => typed::BinOp::ShiftLeft,
        ArithmeticOp::ShiftRight => typed::BinOp::ShiftRight,
    }
}

fn compare_of(op: CompareOp) -> typed::BinOp
    ensures { result ≡ compare_of op }
{
    match op {
        CompareOp::Equal => typed::BinOp::Equal,
        CompareOp::NotEqual => typed::BinOp::NotEqual,
        CompareOp::Less => typed::BinOp::Less,
        CompareOp::LessEqual => typed::BinOp::LessEqual,
        CompareOp::Greater => typed::BinOp::Greater,
        CompareOp::GreaterEqual => typed::BinOp::GreaterEqual,
    }
}

/// An operator on two values.
fn typed_pair(alloc: Global, pos: Pos, op: BinOp, left: Expr, right: Expr) -> Result<Expr, NoMemory>
    ensures { IfOk result (λ e. ex_of e ≡ typed_pair pos op (ex_of left) (ex_of right)) }
{
    let left = Box::new(alloc, left)?;
    let right = Box::new(alloc, right)?;
    Ok(match op {
        BinOp::Arithmetic(op) => Expr::Binary(pos, arithmetic_of(op), left, right),
        BinOp::Compare(op) => Expr::Binary(pos, compare_of(op), left, right),
        BinOp::LogicalAnd => Expr::LogicalAnd(left, right),
        BinOp::LogicalOr => Expr::LogicalOr(left, right),
    })
}

/// An operator on two operands as values.
fn both_values(
    alloc: Global,
    pos: Pos,
    op: BinOp,
    left: Operand,
    right: Operand,
) -> Result<Option<Operand>, NoMemory>
    ensures { IfOk result (λ o. option_map operand_of o
        ≡ both_values pos op (as_value (operand_of left)) (as_value (operand_of right))) }
{
    match (as_value(left), as_value(right)) {
        (Some(x), Some(y)) => {
            let e = typed_pair(alloc, pos, op, x, y)?;
            Ok(Some(Operand::Value(result_type(op), e)))
        }
        (x, y) => {
            drop(x);
            drop(y);
            Ok(None)
        }
    }
}

/// Two operands, one of which at least is no constant.
fn value_pair(
    alloc: Global,
    pos: Pos,
    op: BinOp,
    left: Operand,
    right: Operand,
) -> Result<Option<Operand>, NoMemory>
    ensures { IfOk result (λ o. option_map operand_of o ≡ value_pair pos op (operand_of left) (operand_of right)) }
{
    if takes_both(op, type_of(&left), type_of(&right)) && right_allowed(op, &right) {
        both_values(alloc, pos, op, left, right)
    } else {
        drop(left);
        drop(right);
        Ok(None)
    }
}

/// Whether two operands are of one type, or neither has one.
fn are_alike(left: Option<ValueType>, right: Option<ValueType>) -> bool
    ensures { result ≡ are_alike left right }
{
    match (left, right) {
        (Some(left), Some(right)) => same_type(left, right),
        (None, None) => true,
        _ => false,
    }
}

/// The kind of the fault of operands that an operator doesn't take.
fn unfit_kind(op: BinOp, left: Option<ValueType>, right: Option<ValueType>) -> FaultKind
    ensures { result ≡ unfit_kind op left right }
{
    if is_shift(op) || are_alike(left, right) {
        FaultKind::Unfit
    } else {
        FaultKind::Mismatch
    }
}

/// The fault of a constant on the right of what is none.
fn right_fault(pos: Pos, right_pos: Pos, op: BinOp, constant: Constant) -> Option<Fault>
    ensures { result ≡ right_fault pos right_pos op constant }
{
    if is_division(op) && is_zero(constant) {
        Some(Fault {
            kind: FaultKind::ConstZeroDivisor,
            pos: right_pos,
        })
    } else if is_shift(op) && is_negative(constant) {
        Some(Fault {
            kind: FaultKind::Unfit,
            pos,
        })
    } else {
        constant_range_fault(right_pos, constant)
    }
}

/// The type of two operands, where one of them has one.
fn either_type(left: Option<ValueType>, right: Option<ValueType>) -> Option<ValueType>
    ensures { result ≡ either_type left right }
{
    match left {
        Some(value_type) => Some(value_type),
        None => right,
    }
}

/// The type of what two constants give: a comparison gives an untyped truth value, and a shift has the type of its left operand.
fn joint_type(op: BinOp, left: Option<ValueType>, right: Option<ValueType>) -> Option<ValueType>
    ensures { result ≡ joint_type op left right }
{
    match op {
        BinOp::Compare(_) => None,
        op => {
            if is_shift(op) {
                left
            } else {
                either_type(left, right)
            }
        }
    }
}

/// Whether each of two constants can take the type of the other, but for the count of a shift.
fn converts(op: BinOp, left: Fixed, right: Fixed) -> bool
    ensures { result ≡ converts op left right }
{
    is_shift(op) || (is_held(right.value_type, left.value) && is_held(left.value_type, right.value))
}

fn worked_out(op: BinOp, left: Fixed, right: Fixed) -> Result<Const, ConstFault>
    ensures { result ≡ worked_out op left right }
{
    fold(op, const_of(left.value), const_of(right.value))
}

/// What two constants give together.
fn constant_pair(op: BinOp, left: Fixed, right: Fixed) -> Option<Operand>
    ensures { option_map operand_of result ≡ constant_pair op left right }
{
    if takes(op, constant_type(left), constant_type(right)) && converts(op, left, right) {
        constant(
            joint_type(op, left.value_type, right.value_type),
            worked_out(op, left, right),
        )
    } else {
        None
    }
}

/// The fault of two constants one of which the type of the other doesn't hold.
fn conversion_fault(pos: Pos, right_pos: Pos, left: Fixed, right: Fixed) -> Option<Fault>
    ensures { result ≡ conversion_fault pos right_pos left right }
{
    let pos = if is_held(right.value_type, left.value) {
        right_pos
    } else {
        pos
    };
    Some(Fault {
        kind: FaultKind::ConstRange,
        pos,
    })
}

/// The fault of an operator between constants of types that it takes.
fn constants_fault(op: BinOp, pos: Pos, right_pos: Pos, left: Fixed, right: Fixed) -> Option<Fault>
    ensures { result ≡ constants_fault pos right_pos op left right }
{
    if converts(op, left, right) {
        let value_type = joint_type(op, left.value_type, right.value_type);
        constant_fault(value_type, pos, right_pos, worked_out(op, left, right))
    } else {
        conversion_fault(pos, right_pos, left, right)
    }
}

/// The fault of an operator between operands of types that it takes.
fn fitting_fault(
    op: BinOp,
    pos: Pos,
    right_pos: Pos,
    left: &Operand,
    right: &Operand,
) -> Option<Fault>
    ensures { result ≡ fitting_fault pos right_pos op (operand_of left.now) (operand_of right.now) }
{
    match (left, right) {
        (Operand::Constant(y), Operand::Constant(z)) => {
            constants_fault(op, pos, right_pos, *y, *z)
        }
        (Operand::Constant(y), Operand::Value(_, _)) => constant_range_fault(pos, y.value),
        (Operand::Value(_, _), Operand::Constant(z)) => right_fault(pos, right_pos, op, z.value),
        _ => None,
    }
}

/// The fault of an operator between two operands that give something.
fn two_fault(op: BinOp, pos: Pos, right_pos: Pos, left: &Operand, right: &Operand) -> Option<Fault>
    ensures { result ≡ two_fault pos right_pos op (operand_of left.now) (operand_of right.now) }
{
    let left_type = type_of(left);
    let right_type = type_of(right);
    if takes_both(op, left_type, right_type) {
        fitting_fault(op, pos, right_pos, left, right)
    } else {
        Some(Fault {
            kind: unfit_kind(op, left_type, right_type),
            pos,
        })
    }
}

/// The fault of an operator on what its operands give.
pub fn pair_fault(
    op: BinOp,
    pos: Pos,
    right_pos: Pos,
    left: &Option<Operand>,
    right: &Option<Operand>,
) -> Option<Fault>
    ensures { result ≡ pair_fault pos right_pos op (option_map operand_of left.now) (option_map operand_of right.now) }
{
    match (left, right) {
        (Some(left), Some(right)) => two_fault(op, pos, right_pos, left, right),
        _ => None,
    }
}

/// What two operands that give something give together.
pub fn combined(
    alloc: Global,
    op: BinOp,
    pos: Pos,
    left: Operand,
    right: Operand,
) -> Result<Option<Operand>, NoMemory>
    ensures { IfOk result (λ o. option_map operand_of o ≡ combined pos op (operand_of left) (operand_of right)) }
{
    match (left, right) {
        (Operand::Constant(y), Operand::Constant(z)) => Ok(constant_pair(op, y, z)),
        (left, right) => value_pair(alloc, pos, op, left, right),
    }
}

/// What two operands give together, where both give something.
pub fn paired(
    alloc: Global,
    op: BinOp,
    pos: Pos,
    left: Option<Operand>,
    right: Option<Operand>,
) -> Result<Option<Operand>, NoMemory>
    ensures { IfOk result (λ o. option_map operand_of o
        ≡ both (combined pos op) (option_map operand_of left) (option_map operand_of right)) }
{
    match (left, right) {
        (Some(left), Some(right)) => combined(alloc, op, pos, left, right),
        (left, right) => {
            drop(left);
            drop(right);
            Ok(None)
        }
    }
}
