//! Operands: what expressions give as one value, and constants among them.

ghost use Rattle.std.specs.Prelude.{◌≡◌, option_and_then, is_some};
ghost use Rattle.std.specs.Option.{option_map};
ghost use Rattle.typed.specs.View.{ex_of};
ghost use Rattle.operators.specs.Operands.{type_of, is_assignable, place_of, as_value, constant_value, const_of, of_type, constant_of};
ghost use Rattle.operators.specs.Passing.{operand_of, typed_place_of};
ghost use Rattle.operators.specs.Faults.{constant_fault};

use crate::constant_faults::held_fault;
use crate::folding::{Const, ConstFault};
use base::{Pos, ValueType, same_type};
use constants::{Constant, Fixed, constant_type, int_constant, is_held};
use type_faults::{Fault, FaultKind};
use typed::{Const as TypedConst, Expr, Place};

/// What an expression gives as one value: a constant, a value of a type that is worked out when the program runs, or `nil`.
#[derive(Drop)]
pub enum Operand {
    Constant(Fixed),
    Value(ValueType, Expr),
    Nil,
}

/// The type of an operand; `nil` has none.
pub fn type_of(operand: &Operand) -> Option<ValueType>
    ensures { result ≡ type_of (operand_of operand.now) }
{
    match operand {
        Operand::Constant(fixed) => Some(constant_type(*fixed)),
        Operand::Value(value_type, _) => Some(*value_type),
        Operand::Nil => None,
    }
}

/// Whether a place of a type can be given an operand (Go specification, "Assignability").
pub fn is_assignable(value_type: ValueType, operand: &Operand) -> bool
    ensures { result ≡ is_assignable value_type (operand_of operand.now) }
{
    match type_of(operand) {
        Some(own_type) => same_type(value_type, own_type),
        None => false,
    }
}

/// A place of a type: a variable or a part of one, which can be given a value (Go specification, "Address operators", "Assignment
/// statements").
#[derive(Drop)]
pub struct TypedPlace {
    pub value_type: ValueType,
    pub place: Place,
}

/// The place whose value an operand is; what is worked out otherwise is that of none.
#[tactic(auto, using(typed::proofs::Rows::expr_rows))]
fn place_of(operand: Operand) -> Option<TypedPlace>
    ensures { option_map typed_place_of result ≡ place_of (operand_of operand) }
{
    match operand {
        Operand::Value(value_type, Expr::Read(place)) => Some(TypedPlace { value_type, place }),
        _ => None,
    }
}

/// The place whose value an operand is that may have failed.
pub fn place_in(operand: Option<Operand>) -> Option<TypedPlace>
    ensures { option_map typed_place_of result ≡ option_and_then place_of (option_map operand_of operand) }
{
    match operand {
        Some(operand) => place_of(operand),
        None => None,
    }
}

/// Whether an operand is the value of a place.
#[tactic(auto, using(typed::proofs::Rows::expr_rows))]
pub fn is_place(operand: &Operand) -> bool
    ensures { result ≡ is_some (place_of (operand_of operand.now)) }
{
    matches!(operand, Operand::Value(_, Expr::Read(_)))
}

/// A constant as a value of its type, where the type has one.
pub fn constant_value(constant: Constant) -> Option<Expr>
    ensures { option_map ex_of result ≡ constant_value constant }
{
    match constant {
        Constant::Number(value) => match int_constant(value) {
            Some(number) => Some(Expr::Constant(TypedConst::Int(number))),
            None => None,
        },
        Constant::Truth(truth) => Some(Expr::Constant(TypedConst::Bool(truth))),
    }
}

/// The value that an operand gives when the program runs.
pub fn as_value(operand: Operand) -> Option<Expr>
    ensures { option_map ex_of result ≡ as_value (operand_of operand) }
{
    match operand {
        Operand::Constant(fixed) => constant_value(fixed.value),
        Operand::Value(_, e) => Some(e),
        Operand::Nil => None,
    }
}

/// The value of an operand that may have failed.
pub fn value_of(operand: Option<Operand>) -> Option<Expr>
    ensures { option_map ex_of result ≡ option_and_then as_value (option_map operand_of operand) }
{
    match operand {
        Some(operand) => as_value(operand),
        None => None,
    }
}

/// A constant as one of the rules of constant expressions.
pub fn const_of(constant: Constant) -> Const
    ensures { result ≡ const_of constant }
{
    match constant {
        Constant::Number(value) => Const::Int(value),
        Constant::Truth(truth) => Const::Bool(truth),
    }
}

/// A constant of a type or of none.
pub fn of_type(value_type: Option<ValueType>, value: Constant) -> Option<Operand>
    ensures { option_map operand_of result ≡ of_type value_type value }
{
    if is_held(value_type, value) {
        Some(Operand::Constant(Fixed { value_type, value }))
    } else {
        None
    }
}

/// What a constant expression of a type or of none gives that was worked out.
pub fn constant(value_type: Option<ValueType>, value: Result<Const, ConstFault>) -> Option<Operand>
    ensures { option_map operand_of result ≡ constant_of value_type value }
{
    match value {
        Ok(Const::Int(number)) => of_type(value_type, Constant::Number(number)),
        Ok(Const::Bool(truth)) => of_type(value_type, Constant::Truth(truth)),
        _ => None,
    }
}

/// The fault of a constant expression: at its first byte, or at the operand on the right where that is a zero divisor.
pub fn constant_fault(
    value_type: Option<ValueType>,
    pos: Pos,
    right_pos: Pos,
    value: Result<Const, ConstFault>,
) -> Option<Fault>
    ensures { result ≡ constant_fault value_type pos right_pos value }
{
    let (kind, pos) = match value {
        Ok(Const::Int(number)) => return held_fault(value_type, pos, Constant::Number(number)),
        Ok(Const::Bool(truth)) => return held_fault(value_type, pos, Constant::Truth(truth)),
        Ok(Const::NoConst) => return None,
        Err(ConstFault::Overflow) => (FaultKind::ConstRange, pos),
        Err(ConstFault::ZeroDivisor) => (FaultKind::ConstZeroDivisor, right_pos),
        Err(ConstFault::NegativeShift | ConstFault::NotConstant) => (FaultKind::Unfit, pos),
    };
    Some(Fault { kind, pos })
}
