//! What is open inside an expression or a type.

ghost use Rattle.std.specs.Prelude.{◌≡◌};
ghost use Rattle.syntax.specs.Expressions.{elements_of};
ghost use Rattle.syntax.specs.Heights.{capped_height};
ghost use Rattle.parse_expressions.specs.Containers.{container_of, in_braces};

use crate::container::Container;
use crate::part::{Call, Low, Part};
use base::Pos;
use syntax::{BinOp, Element, Name, UnOp};

/// Braces that are not closed: what their elements belong to, the elements so far, and the height of the whole with these,
/// counted to one above the limit.
#[derive(Drop)]
pub struct Braces {
    pub container: Container,
    pub elements: Vec<Element>,
    pub height: usize,
    ghost is_height: { height ≡ capped_height (in_braces (container_of container) (elements_of elements.items)) },
}

/// A construct that is open.
#[derive(Drop)]
pub enum Frame {
    /// A prefix without its operand.
    Prefix(Pos, UnOp),
    /// Parentheses that are not closed.
    Paren(Pos),
    /// A left operand and its operator, without the right operand.
    Right(Part, Pos, BinOp),
    /// A call that is not closed.
    Call(Call),
    /// An index, or the low bound of a slice expression, after what it is an index of.
    Index(Part, Pos),
    /// The high bound of a slice expression, after the low one.
    High(Part, Pos, Low),
    /// The length of an array type.
    Length(Pos),
    /// An element of a literal, after the elements before and its key, if it has one.
    Element(Braces, Option<Name>),
    /// A `*` before a type.
    Pointer(Pos),
    /// The brackets of an array type, with the length.
    Array(Pos, Part),
    /// The brackets of a slice type.
    Slice(Pos),
    /// Parentheses inside a type.
    TypeParen(Pos),
}
