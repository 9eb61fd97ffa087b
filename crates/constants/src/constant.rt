//! Constants, with their exact values (Go specification, "Constants").

ghost use Rattle.std.specs.Prelude.{◌≡◌, Some, None, if◌then◌else◌};
ghost use Rattle.constants.specs.Constants.{is_int, constant_type, untyped, holds, is_held, is_zero, is_negative};

use base::ValueType;

/// The value of a constant.
#[derive(Clone, Copy, Debug, PartialEq, Eq)]
pub enum Constant {
    Number(i128),
    Truth(bool),
}

/// A constant: with no type of its own it is untyped.
#[derive(Clone, Copy, Debug, PartialEq, Eq)]
pub struct Fixed {
    pub value_type: Option<ValueType>,
    pub value: Constant,
}

/// A constant that has no type.
pub fn untyped(value: Constant) -> Fixed
    ensures { result ≡ untyped value }
{
    Fixed {
        value_type: None,
        value,
    }
}

/// The constant as an int, where one can hold it.
pub fn int_constant(value: i128) -> Option<i64>
    ensures { result ≡ (if is_int value then Some value else None) }
{
    if value < i64::MIN as i128 || value > i64::MAX as i128 {
        None
    } else {
        Some(value as i64)
    }
}

/// The type of a constant: its own, or else that of numbers or of truth values.
pub fn constant_type(fixed: Fixed) -> ValueType
    ensures { result ≡ constant_type fixed.value_type fixed.value }
{
    match (fixed.value_type, fixed.value) {
        (Some(value_type), _) => value_type,
        (None, Constant::Number(_)) => ValueType::Int,
        (None, Constant::Truth(_)) => ValueType::Bool,
    }
}

/// Whether a type holds a constant (Go specification, "Representability").
fn holds(value_type: ValueType, constant: Constant) -> bool
    ensures { result ≡ holds value_type constant }
{
    match (value_type, constant) {
        (ValueType::Int, Constant::Number(value)) => int_constant(value).is_some(),
        (ValueType::Bool, Constant::Truth(_)) => true,
        _ => false,
    }
}

/// Whether a type holds a constant, where there is one.
pub fn is_held(value_type: Option<ValueType>, constant: Constant) -> bool
    ensures { result ≡ is_held value_type constant }
{
    match value_type {
        Some(value_type) => holds(value_type, constant),
        None => true,
    }
}

pub fn is_zero(constant: Constant) -> bool
    ensures { result ≡ is_zero constant }
{
    match constant {
        Constant::Number(value) => value == 0,
        Constant::Truth(_) => false,
    }
}

pub fn is_negative(constant: Constant) -> bool
    ensures { result ≡ is_negative constant }
{
    match constant {
        Constant::Number(value) => value < 0,
        Constant::Truth(_) => false,
    }
}
