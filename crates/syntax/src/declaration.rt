//! Declarations and whole texts, as they lie in memory.

use crate::expression::{Expr, Name};
use crate::statement::{Stmt, ValueSpec};
use base::Pos;

/// Names that share a type: fields of a struct, parameters or results.
#[derive(Drop)]
pub struct Field {
    pub names: Vec<Name>,
    pub type_expr: Expr,
}

/// The parameters or results of a function: all have names, or none has.
#[derive(Drop)]
pub enum Params {
    /// Their types.
    Unnamed(Vec<Expr>),
    Named(Vec<Field>),
}

/// The declaration of a struct type.
#[derive(Drop)]
pub struct TypeSpec {
    pub name: Name,
    pub fields: Vec<Field>,
}

/// The body of a function, with the position of its closing brace.
#[derive(Drop)]
pub struct Body {
    pub statements: Vec<Stmt>,
    pub end: Pos,
}

/// A function, with the position of its word `func`.
#[derive(Drop)]
pub struct Func {
    pub pos: Pos,
    pub name: Name,
    pub params: Params,
    pub results: Params,
    pub body: Option<Body>,
}

/// A declaration at the level of the package. The position is that of its word.
#[derive(Drop)]
pub enum Decl {
    Const(Pos, Vec<ValueSpec>),
    Var(Pos, Vec<ValueSpec>),
    Type(Pos, Vec<TypeSpec>),
    Func(Func),
}

/// The tree of a text, with a copy of the text.
#[derive(Drop)]
pub struct Tree {
    pub text: Vec<u8>,
    pub package: Name,
    pub decls: Vec<Decl>,
}
