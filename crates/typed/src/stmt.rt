//! Typed statements.

use crate::expr::{Expr, Place, Values};
use base::{Pos, SiteId, TypeId};
use typed_syntax::BinOp;

/// A left side of a declaration or an assignment.
#[derive(Drop)]
pub enum Left {
    /// The value is dropped.
    Blank,
    /// A new variable of a site.
    New(SiteId),
    /// A place that is there.
    To(Place),
}

/// An operand of `print`, `println` or `panic`.
#[derive(Drop)]
pub enum Piece {
    /// A string, by its number in the program's table.
    Text(u32),
    /// A value, with its type.
    Shown(TypeId, Expr),
}

/// A statement. One that can panic has the place that a panic names: its first byte.
#[derive(Drop)]
pub enum Stmt {
    /// New variables with their zero values.
    Declare(Vec<SiteId>),
    /// A declaration with values, or an assignment: as many left sides as values.
    Assign(Vec<Left>, Values),
    /// An assignment with an operator to a place.
    Update(Pos, Place, BinOp, Expr),
    /// `++` and `--`: the position of that operator, the place, and the operator on it and 1.
    Bump(Pos, Place, BinOp),
    /// A call whose results are not used, also one of `copy`.
    Discard(Values),
    Block(Vec<Stmt>),
    /// The condition, and what is done where it is true and where it is false.
    If(Expr, Vec<Stmt>, Vec<Stmt>),
    /// The variables of the header, of which each round has its own; the condition, if there is one; the post statement; and
    /// the body. The init statement stands before it.
    For(Vec<SiteId>, Option<Expr>, Vec<Stmt>, Vec<Stmt>),
    /// `range` over the numbers from 0 to one below an int, which the left side gets, and the body.
    Count(Expr, Left, Vec<Stmt>),
    /// `range` over the indices of an array of this length, which is not worked out; the left side gets them.
    Indices(u64, Left, Vec<Stmt>),
    /// `range` over the elements of an array of this length, of which a hidden variable of a site gets a copy; the left sides get the index
    /// and the element.
    Elements(SiteId, Expr, u64, Left, Left, Vec<Stmt>),
    /// `range` over a slice, whose elements are of this type; the left sides get the index and the element.
    SliceElements(Expr, TypeId, Left, Left, Vec<Stmt>),
    /// `range` over the array of this length that a pointer leads to, whose elements are of this type: the place that a panic would name,
    /// and the pointer.
    PointedElements(Pos, Expr, u64, TypeId, Left, Left, Vec<Stmt>),
    /// `range` over the indices of such an array, for which the pointer is not worked out.
    PointedIndices(u64, Left, Vec<Stmt>),
    Break,
    Continue,
    /// A return with these values. Without values, that of a function with named results gives these.
    Return(Values),
    /// `print` of these operands, or `println` where true is said.
    Print(bool, Vec<Piece>),
    /// `panic`
    Panic(Pos, Piece),
    /// `exit` with a status.
    Exit(Pos, Expr),
}
