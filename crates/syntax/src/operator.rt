//! Operators.

/// An operator on two ints (Go specification, "Arithmetic operators").
#[derive(Clone, Copy, Debug, PartialEq, Eq)]
pub enum ArithmeticOp {
    Add,
    Sub,
    Mul,
    Div,
    Rem,
    And,
    Or,
    Xor,
    AndNot,
    ShiftLeft,
    ShiftRight,
}

/// A comparison (Go specification, "Comparison operators").
#[derive(Clone, Copy, Debug, PartialEq, Eq)]
pub enum CompareOp {
    Equal,
    NotEqual,
    Less,
    LessEqual,
    Greater,
    GreaterEqual,
}

/// An operator on two operands (Go specification, "Operators").
#[derive(Clone, Copy, Debug, PartialEq, Eq)]
pub enum BinOp {
    Arithmetic(ArithmeticOp),
    Compare(CompareOp),
    /// `&&`
    LogicalAnd,
    /// `||`
    LogicalOr,
}

/// An operator on one operand.
#[derive(Clone, Copy, Debug, PartialEq, Eq)]
pub enum UnOp {
    Plus,
    Negate,
    Not,
    Complement,
    /// `*`: what a pointer points to, or a pointer type.
    Star,
    /// `&`
    Address,
}
