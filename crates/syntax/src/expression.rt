//! Expressions and types, as they lie in memory.

ghost use Rattle.std.specs.Prelude.{◌≡◌};

use crate::operator::{BinOp, UnOp};
use base::Pos;

/// A name of the text: where it begins, and the offset after its last byte.
#[derive(Clone, Copy, Debug, PartialEq, Eq)]
pub struct Name {
    pub pos: Pos,
    pub end: u32,
}

/// An expression or a type (Go specification, "Expressions", "Types"): which of them a name, a `*` or parentheses are is
/// often known only where names are looked up. A position is that of the node's own first token: of a prefix its operator, of
/// parentheses the opening one, of a binary operator, a `.` or an index that token.
#[derive(Drop)]
#[cycle(expression)]
pub enum Expr {
    Int(Pos, u128),
    /// A string in double quotes: its position, and the offset after its last byte.
    String(Pos, u32),
    Name(Name),
    Unary(Pos, UnOp, Box<Expr>),
    Binary(Pos, BinOp, Box<Expr>, Box<Expr>),
    Paren(Pos, Box<Expr>),
    /// The function, the arguments, and whether `...` stands after them.
    Call(Box<Expr>, Vec<Expr>, bool),
    /// A field of a value.
    Selector(Box<Expr>, Pos, Name),
    Index(Box<Expr>, Pos, Box<Expr>),
    /// A part of an array or slice, between a low and a high bound.
    Slice(Box<Expr>, Pos, Bound, Bound),
    /// The type of arrays of a length, and of elements of a type.
    ArrayType(Pos, Box<Expr>, Box<Expr>),
    SliceType(Pos, Box<Expr>),
    /// A composite literal: its type, and its elements.
    Literal(Box<Expr>, Vec<Element>),
    /// The elements of a composite literal without a type, which is itself an element of one.
    Elements(Pos, Vec<Element>),
}

/// A bound of a slice expression.
#[derive(Drop)]
#[cycle(expression)]
pub enum Bound {
    Absent,
    At(Box<Expr>),
}

/// An element of a composite literal, after the name of its field where that stands before it.
#[derive(Drop)]
#[cycle(expression)]
pub enum Element {
    Plain(Expr),
    Keyed(Name, Expr),
}

impl Expr {
    ghost use Rattle.syntax.specs.Expressions.{ex_of};
    ghost use Rattle.syntax.specs.FirstBytes.{first_pos};

    /// The position of its first byte.
    pub fn pos(&self) -> Pos
        ensures { result ≡ first_pos (ex_of self.now) }
    {
        match self {
            Expr::Int(pos, _) => *pos,
            Expr::String(pos, _) => *pos,
            Expr::Name(name) => name.pos,
            Expr::Unary(pos, _, _) => *pos,
            Expr::Binary(_, _, left, _) => left.pos(),
            Expr::Paren(pos, _) => *pos,
            Expr::Call(function, _, _) => function.pos(),
            Expr::Selector(value, _, _) => value.pos(),
            Expr::Index(value, _, _) => value.pos(),
            Expr::Slice(value, _, _, _) => value.pos(),
            Expr::ArrayType(pos, _, _) => *pos,
            Expr::SliceType(pos, _) => *pos,
            Expr::Literal(type_expr, _) => type_expr.pos(),
            Expr::Elements(pos, _) => *pos,
        }
    }
}
