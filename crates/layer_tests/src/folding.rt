//! Worked constants of `operators`, and the numbers of its faults.

use operators::{Const, ConstFault, fold, fold_one};
use std::test::Fail;
use syntax::{ArithmeticOp, BinOp, CompareOp, UnOp};

const LEAST: i128 = -170141183460469231731687303715884105728;

const MOST: i128 = 170141183460469231731687303715884105727;

const OVERFLOW: Result<i128, ConstFault> = Err(ConstFault::Overflow);

const ZERO: Result<i128, ConstFault> = Err(ConstFault::ZeroDivisor);

const NEGATIVE: Result<i128, ConstFault> = Err(ConstFault::NegativeShift);

/// Sums, products and quotients at the edges of 128 bits. -2^64 squared is 2^128.
#[test]
fn results_are_exact(rt: HostRuntime) -> Result<(), Fail> {
    use ArithmeticOp::{Add, Div, Mul, Rem, Sub};
    let rows = [
        (Add, 9223372036854775807, 1, Ok(9223372036854775808)),
        (Sub, 2, 5, Ok(-3)),
        (Mul, -18446744073709551616, 9223372036854775808, Ok(LEAST)),
        (Mul, -18446744073709551616, -18446744073709551616, OVERFLOW),
        (Add, MOST, 1, OVERFLOW),
        (Sub, LEAST, 1, OVERFLOW),
        (Sub, -1, LEAST, Ok(MOST)),
        (Div, 7, 2, Ok(3)),
        (Div, -7, 2, Ok(-3)),
        (Div, LEAST, -1, OVERFLOW),
        (Div, LEAST, 1, Ok(LEAST)),
        (Div, 0, 0, ZERO),
        (Rem, 7, -2, Ok(1)),
        (Rem, -7, 2, Ok(-1)),
        (Rem, LEAST, -1, Ok(0)),
        (Rem, 1, 0, ZERO),
    ];
    for (op, a, b, want) in rows {
        assert_eq!(rt;
            fold(BinOp::Arithmetic(op), Const::Int(a), Const::Int(b)),
            want.map(Const::Int)
        );
    }
    Ok(())
}

/// Bits are those of two's complement, and a count may be of any size.
#[test]
fn bits_and_shifts(rt: HostRuntime) -> Result<(), Fail> {
    use ArithmeticOp::{And, AndNot, Or, ShiftLeft, ShiftRight, Xor};
    let rows = [
        (And, -4, 7, Ok(4)),
        (And, LEAST, -1, Ok(LEAST)),
        (Or, -8, 3, Ok(-5)),
        (Xor, -1, 5, Ok(-6)),
        (AndNot, 7, 2, Ok(5)),
        (AndNot, -1, MOST, Ok(LEAST)),
        (
            ShiftLeft,
            1,
            126,
            Ok(85070591730234615865843651857942052864),
        ),
        (ShiftLeft, 1, 127, OVERFLOW),
        (ShiftLeft, -1, 127, Ok(LEAST)),
        (ShiftLeft, -1, 128, OVERFLOW),
        (ShiftLeft, 1, 200, OVERFLOW),
        (ShiftLeft, 0, MOST, Ok(0)),
        (ShiftLeft, 0, -1, NEGATIVE),
        (ShiftRight, -5, 1, Ok(-3)),
        (ShiftRight, -1, 500, Ok(-1)),
        (ShiftRight, MOST, 126, Ok(1)),
        (ShiftRight, MOST, 128, Ok(0)),
        (ShiftRight, 1, LEAST, NEGATIVE),
    ];
    for (op, a, b, want) in rows {
        assert_eq!(rt;
            fold(BinOp::Arithmetic(op), Const::Int(a), Const::Int(b)),
            want.map(Const::Int)
        );
    }
    Ok(())
}

#[test]
fn prefixes(rt: HostRuntime) -> Result<(), Fail> {
    let rows = [
        (UnOp::Plus, LEAST, Ok(LEAST)),
        (UnOp::Negate, 7, Ok(-7)),
        (UnOp::Negate, MOST, Ok(-MOST)),
        (UnOp::Negate, LEAST, OVERFLOW),
        (UnOp::Complement, 0, Ok(-1)),
        (UnOp::Complement, MOST, Ok(LEAST)),
        (UnOp::Not, 1, Err(ConstFault::NotConstant)),
        (UnOp::Address, 1, Err(ConstFault::NotConstant)),
    ];
    for (op, a, want) in rows {
        assert_eq!(rt; fold_one(op, Const::Int(a)), want.map(Const::Int));
    }
    assert_eq!(rt;
        fold_one(UnOp::Not, Const::Bool(true)),
        Ok(Const::Bool(false))
    );
    Ok(())
}

/// Comparisons of numbers and of bools, and the operators on bools.
#[test]
fn bools(rt: HostRuntime) -> Result<(), Fail> {
    let (yes, no) = (Const::Bool(true), Const::Bool(false));
    let rows = [
        (
            BinOp::Compare(CompareOp::Less),
            Const::Int(LEAST),
            Const::Int(MOST),
            Ok(true),
        ),
        (
            BinOp::Compare(CompareOp::GreaterEqual),
            Const::Int(1),
            Const::Int(2),
            Ok(false),
        ),
        (BinOp::Compare(CompareOp::Equal), no, no, Ok(true)),
        (BinOp::Compare(CompareOp::NotEqual), no, no, Ok(false)),
        (
            BinOp::Compare(CompareOp::Less),
            no,
            yes,
            Err(ConstFault::NotConstant),
        ),
        (
            BinOp::Compare(CompareOp::Equal),
            no,
            Const::Int(0),
            Err(ConstFault::NotConstant),
        ),
        (BinOp::LogicalAnd, yes, no, Ok(false)),
        (BinOp::LogicalOr, yes, no, Ok(true)),
        (
            BinOp::LogicalAnd,
            Const::Int(1),
            yes,
            Err(ConstFault::NotConstant),
        ),
    ];
    for (op, a, b, want) in rows {
        assert_eq!(rt; fold(op, a, b), want.map(Const::Bool));
    }
    Ok(())
}

/// That both operands are constants is tested before anything else.
#[test]
fn operands_are_constants(rt: HostRuntime) -> Result<(), Fail> {
    let refused = Err(ConstFault::NotConstant);
    let rows = [
        (ArithmeticOp::Add, Const::NoConst, Const::Int(MOST)),
        (ArithmeticOp::Div, Const::NoConst, Const::Int(0)),
        (ArithmeticOp::ShiftLeft, Const::Bool(true), Const::Int(-1)),
    ];
    for (op, a, b) in rows {
        assert_eq!(rt; fold(BinOp::Arithmetic(op), a, b), refused);
    }
    assert_eq!(rt; fold_one(UnOp::Negate, Const::NoConst), refused);
    let faults = [
        (ConstFault::Overflow, 1),
        (ConstFault::ZeroDivisor, 2),
        (ConstFault::NegativeShift, 3),
        (ConstFault::NotConstant, 4),
    ];
    for (fault, number) in faults {
        assert_eq!(rt; fault.number(), number);
    }
    Ok(())
}
