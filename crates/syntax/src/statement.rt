//! Statements, as they lie in memory.

use crate::expression::{Expr, Name};
use crate::operator::ArithmeticOp;
use base::Pos;

/// A simple statement (Go specification, "Statements"). The position is that of its operator.
#[derive(Drop)]
pub enum Simple {
    /// An expression as a statement.
    Express(Expr),
    /// The places that are assigned to, the `=`, and the values.
    Assign(Vec<Expr>, Pos, Vec<Expr>),
    /// An assignment with an operator, as `+=`.
    Update(Vec<Expr>, Pos, ArithmeticOp, Vec<Expr>),
    /// The names, the `:=`, and the values.
    Define(Vec<Name>, Pos, Vec<Expr>),
    /// `++`
    Increment(Expr, Pos),
    /// `--`
    Decrement(Expr, Pos),
}

/// What one declaration gives constants or variables: their names, the type if it stands there, and the values, none where
/// there is no `=`.
#[derive(Drop)]
pub struct ValueSpec {
    pub names: Vec<Name>,
    pub type_expr: Option<Expr>,
    pub values: Vec<Expr>,
}

/// What stands between an `if` and its body.
#[derive(Drop)]
pub struct Guard {
    pub init: Option<Simple>,
    pub condition: Expr,
}

/// What a `range` gives its values to.
#[derive(Drop)]
pub enum Targets {
    Absent,
    /// The places that are assigned to, and the `=`.
    Assign(Vec<Expr>, Pos),
    /// The names that are declared, and the `:=`.
    Define(Vec<Name>, Pos),
}

/// What stands between a `for` and its body (Go specification, "For statements").
#[derive(Drop)]
pub enum Clause {
    Forever,
    While(Expr),
    /// The init statement, the condition and the post statement, each of which may be absent.
    Counting(Option<Simple>, Option<Expr>, Option<Simple>),
    /// The position is that of the word `range`.
    Range(Targets, Pos, Expr),
}

/// A statement. The position is that of its word.
#[derive(Drop)]
#[cycle(statement)]
pub enum Stmt {
    Var(Pos, Vec<ValueSpec>),
    Simple(Simple),
    Block(Vec<Stmt>),
    If(Pos, Guard, Vec<Stmt>, Else),
    For(Pos, Clause, Vec<Stmt>),
    Break(Pos),
    Continue(Pos),
    Return(Pos, Vec<Expr>),
}

/// What stands after the body of an `if`.
#[derive(Drop)]
#[cycle(statement)]
pub enum Else {
    Absent,
    Block(Vec<Stmt>),
    /// Another `if`, with its position.
    If(Pos, Guard, Vec<Stmt>, Box<Else>),
}
