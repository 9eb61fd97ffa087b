//! Typed expressions.

use base::{FuncId, Pos, SiteId, TypeId, ValueType};
use typed_syntax::{BinOp, UnOp};

/// A constant.
#[derive(Clone, Copy, Debug, PartialEq, Eq)]
pub enum Const {
    Int(i64),
    Bool(bool),
}

/// A step from a value to one of its parts.
#[derive(Drop)]
#[cycle(expression)]
pub enum Step {
    /// A field or an element, by its number.
    Inner(u32),
    /// An element of an array, by an index that is worked out: the place that a panic would name, the index, and how many elements the
    /// array has.
    Index(Pos, Expr, u64),
}

/// A place that can be read and written: where it begins, and the steps from there.
#[derive(Drop)]
#[cycle(expression)]
pub enum Place {
    /// A local variable, by its site.
    Local(SiteId, Vec<Step>),
    /// A package variable, by its number in the order of the text.
    Global(u32, Vec<Step>),
    /// What a pointer leads to: the place that a panic would name, the pointer, and the type of what it leads to.
    Indirect(Pos, Box<Expr>, TypeId, Vec<Step>),
    /// An element of a slice: the place that a panic would name, the slice, the index, and the type of the elements.
    SliceElement(Pos, Box<Expr>, Box<Expr>, TypeId, Vec<Step>),
}

/// A bound of a slicing, or the capacity of a `make`.
#[derive(Drop)]
#[cycle(expression)]
pub enum Bound {
    /// The text has none.
    Absent,
    At(Box<Expr>),
}

/// An element of a literal.
#[derive(Drop)]
#[cycle(expression)]
pub enum Element {
    /// The number of the field or the element that it is for, and its value.
    For(u32, Expr),
}

/// An expression with one value. An operator that can panic has the place that a panic would name: the first byte of
/// the whole expression.
#[derive(Drop)]
#[cycle(expression)]
pub enum Expr {
    Constant(Const),
    /// A read of a place.
    Read(Place),
    Unary(UnOp, Box<Expr>),
    Binary(Pos, BinOp, Box<Expr>, Box<Expr>),
    /// `&&`: the second operand is worked out where the first is true.
    LogicalAnd(Box<Expr>, Box<Expr>),
    /// `||`: the second operand is worked out where the first is false.
    LogicalOr(Box<Expr>, Box<Expr>),
    /// A call of a function with one result, and its arguments.
    Call(FuncId, Box<Values>),
    /// A field or an element, by its number, of a value of a type that is no place.
    Part(TypeId, u32, Box<Expr>),
    /// A struct or an array of a type, and its elements in the order of the text; what no element is for is zero.
    Literal(TypeId, Vec<Element>),
    /// `nil`, of a type of pointers or of slices.
    Nil(ValueType),
    /// `&` of a place.
    AddressOf(Place),
    /// `new`: a pointer to a new variable of a site.
    New(SiteId),
    /// `&` of a literal: a pointer to a new variable of a site, which begins with it.
    NewLiteral(SiteId, Box<Expr>),
    /// A slice literal: a slice of all elements of a new array of a site, whose type is that of the elements.
    SliceLiteral(SiteId, Vec<Expr>),
    /// `make`: the place that a panic would name, the site of the new array, whose type is that of the elements, the length and the
    /// capacity.
    Make(Pos, SiteId, Box<Expr>, Bound),
    /// `append` of elements to a slice; a new array is one of the site, whose type is that of the elements.
    Append(SiteId, Box<Expr>, Vec<Expr>),
    /// `append` of the elements of the second slice to the first.
    AppendSlice(SiteId, Box<Expr>, Box<Expr>),
    /// `copy` from the second slice to the first, and the type of their elements.
    Copy(TypeId, Box<Expr>, Box<Expr>),
    /// A part of a slice: the place that a panic would name, the type of the elements, the slice, and the bounds.
    Slicing(Pos, TypeId, Box<Expr>, Bound, Bound),
    /// A slice of the array of this length at a place.
    ArraySlicing(Pos, Place, u64, Bound, Bound),
    /// `len` and `cap` of a slice.
    Len(Box<Expr>),
    Cap(Box<Expr>),
}

/// The values of a declaration, an assignment, a call or a return.
#[derive(Drop)]
#[cycle(expression)]
pub enum Values {
    /// One value of each expression.
    Each(Vec<Expr>),
    /// All results of a call, and its arguments.
    Results(FuncId, Box<Values>),
    /// The two results of `readInt`: a number, and whether it is good.
    ReadInt,
}
