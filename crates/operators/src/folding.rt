//! Untyped constants.

ghost use Rattle.std.specs.Prelude.{◌≡◌, ◌≤◌, ◌^◌, pos, neg_ℤ, int_div, int_rem};
ghost use Rattle.operators.specs.Folding.{divided_by, shifted_left, shifted_right, complement, exact, in_range_or_fault, kept, as_constant, compared, compared_bools, folded, folded_one};

use syntax::{ArithmeticOp, BinOp, CompareOp, UnOp};
use thiserror::Error;

/// The value of a constant expression: a whole number from -2^127 to 2^127 - 1, a bool, or none where the expression is
/// not constant.
#[derive(Clone, Copy, Debug, PartialEq, Eq)]
pub enum Const {
    Int(i128),
    Bool(bool),
    NoConst,
}

/// Why a constant expression has no value.
#[derive(Clone, Copy, Debug, PartialEq, Eq, Error)]
pub enum ConstFault {
    #[error("the result lies outside of 128 bits")]
    Overflow,
    #[error("division by zero")]
    ZeroDivisor,
    #[error("a shift by a negative count")]
    NegativeShift,
    #[error("an operand is not a constant, or the operator takes none like it")]
    NotConstant,
}

impl ConstFault {
    ghost use Rattle.operators.specs.Folding.{fault_number, compared};

    /// The number of the fault.
    pub fn number(self) -> u32
        ensures { result ≡ fault_number self }
    {
        match self {
            ConstFault::Overflow => 1,
            ConstFault::ZeroDivisor => 2,
            ConstFault::NegativeShift => 3,
            ConstFault::NotConstant => 4,
        }
    }
}

fn quotient(x: i128, y: i128) -> Result<i128, ConstFault>
    ensures { result ≡ kept (divided_by y (int_div x y)) }
{
    if y == 0 {
        return Err(ConstFault::ZeroDivisor);
    }
    x.checked_div(y).ok_or(ConstFault::Overflow)
}

fn remainder(x: i128, y: i128) -> Result<i128, ConstFault>
    ensures { result ≡ kept (divided_by y (int_rem x y)) }
{
    if y == 0 {
        return Err(ConstFault::ZeroDivisor);
    }
    // The remainder of the least number and -1 is 0, though their quotient overflows.
    Ok(x.wrapping_rem(y))
}

fn power(exponent: u32) -> i128
    requires { exponent ≤ 64 }
    ensures { result ≡ pos (2 ^ exponent) }
{
    1 << exponent
}

/// A number times 2^count.
fn scaled(x: i128, count: u32) -> Result<i128, ConstFault>
    requires { count ≤ 127 }
    ensures { result ≡ kept (shifted_left x (pos count)) }
{
    // 2^127 itself is out of range, its two halves are not.
    let half = count / 2;
    match x.checked_mul(power(half)) {
        Some(shifted) => shifted
            .checked_mul(power(count - half))
            .ok_or(ConstFault::Overflow),
        None => Err(ConstFault::Overflow),
    }
}

fn shift_left(x: i128, count: i128) -> Result<i128, ConstFault>
    ensures { result ≡ kept (shifted_left x count) }
{
    if count < 0 {
        Err(ConstFault::NegativeShift)
    } else if x == 0 {
        Ok(0)
    } else if count > 127 {
        Err(ConstFault::Overflow)
    } else {
        scaled(x, count as u32)
    }
}

fn shift_right(x: i128, count: i128) -> Result<i128, ConstFault>
    ensures { result ≡ kept (shifted_right x count) }
{
    if count < 0 {
        return Err(ConstFault::NegativeShift);
    }
    // Only the sign is left after 127 bits.
    Ok(if count > 127 { x >> 127 } else { x >> count })
}

fn complement(x: i128) -> i128
    ensures { result ≡ complement x }
{
    -1 - x
}

/// The exact result of an operator on two numbers.
fn arithmetic(op: ArithmeticOp, x: i128, y: i128) -> Result<i128, ConstFault>
    ensures { result ≡ kept (exact op x y) }
{
    match op {
        ArithmeticOp::Add => x.checked_add(y).ok_or(ConstFault::Overflow),
        ArithmeticOp::Sub => x.checked_sub(y).ok_or(ConstFault::Overflow),
        ArithmeticOp::Mul => x.checked_mul(y).ok_or(ConstFault::Overflow),
        ArithmeticOp::Div => quotient(x, y),
        ArithmeticOp::Rem => remainder(x, y),
        ArithmeticOp::And => Ok(x & y),
        ArithmeticOp::Or => Ok(x | y),
        ArithmeticOp::Xor => Ok(x ^ y),
        ArithmeticOp::AndNot => Ok(x & complement(y)),
        ArithmeticOp::ShiftLeft => shift_left(x, y),
        ArithmeticOp::ShiftRight => shift_right(x, y),
    }
}

/// The exact result of an operator on two constants (Go specification, "Constant expressions"). Whether both are
/// constants that the operator takes is tested first.
pub fn fold(op: BinOp, a: Const, b: Const) -> Result<Const, ConstFault>
    ensures { result ≡ folded op a b }
{
    match (op, a, b) {
        (BinOp::Arithmetic(op), Const::Int(x), Const::Int(y)) => arithmetic(op, x, y).map(
            Const::Int,
        ),
        (BinOp::Compare(op), Const::Int(x), Const::Int(y)) => Ok(Const::Bool(compare(op, x, y))),
        (BinOp::Compare(op), Const::Bool(p), Const::Bool(q)) => compare_bools(op, p, q),
        (BinOp::LogicalAnd, Const::Bool(p), Const::Bool(q)) => Ok(Const::Bool(p && q)),
        (BinOp::LogicalOr, Const::Bool(p), Const::Bool(q)) => Ok(Const::Bool(p || q)),
        _ => Err(ConstFault::NotConstant),
    }
}

fn negated(x: i128) -> Result<Const, ConstFault>
    ensures { result ≡ as_constant (in_range_or_fault (neg_ℤ x)) }
{
    match x.checked_neg() {
        Some(z) => Ok(Const::Int(z)),
        None => Err(ConstFault::Overflow),
    }
}

/// The exact result of an operator on one constant.
pub fn fold_one(op: UnOp, a: Const) -> Result<Const, ConstFault>
    ensures { result ≡ folded_one op a }
{
    match (op, a) {
        (UnOp::Plus, Const::Int(x)) => Ok(Const::Int(x)),
        (UnOp::Negate, Const::Int(x)) => negated(x),
        (UnOp::Complement, Const::Int(x)) => Ok(Const::Int(complement(x))),
        (UnOp::Not, Const::Bool(p)) => Ok(Const::Bool(!p)),
        _ => Err(ConstFault::NotConstant),
    }
}

/// Whether a comparison of two constants holds, which is itself a constant.
pub fn compare(op: CompareOp, x: i128, y: i128) -> bool
    ensures { result ≡ compared op x y }
{
    match op {
        CompareOp::Equal => x == y,
        CompareOp::NotEqual => x != y,
        CompareOp::Less => x < y,
        CompareOp::LessEqual => x <= y,
        CompareOp::Greater => x > y,
        CompareOp::GreaterEqual => x >= y,
    }
}

/// A comparison of two bools, which have no order.
fn compare_bools(op: CompareOp, p: bool, q: bool) -> Result<Const, ConstFault>
    ensures { result ≡ compared_bools op p q }
{
    match op {
        CompareOp::Equal => Ok(Const::Bool(p == q)),
        CompareOp::NotEqual => Ok(Const::Bool(p != q)),
        _ => Err(ConstFault::NotConstant),
    }
}
