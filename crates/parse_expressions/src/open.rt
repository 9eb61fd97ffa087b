//! What was read of an expression or type, and what is wanted next.

use crate::frame::Braces;
use crate::part::{Call, Low, Part};
use crate::reading::{Opened, Reading};
use base::Pos;
use syntax::Name;

/// What was read of an expression or type, and what is wanted next.
#[derive(Drop)]
pub enum Open {
    /// An operand.
    Operand(Reading),
    /// An argument of a call or its closing parenthesis, after the opening one or a comma.
    Argument(Opened, Call),
    /// After the `...` of a call.
    Spread(Reading, Call),
    /// After the comma that follows such a `...`.
    CallEnd(Reading, Call),
    /// After a `[` that begins a type.
    Bracket(Opened, Pos),
    /// A type.
    TypeOperand(Reading),
    /// After a type in parentheses inside a type.
    TypeEnd(Reading, Pos, Part),
    /// After a type that is inside no other.
    Type(Reading, Part),
    /// After an operand.
    Operator(Reading, Part),
    /// After a `.`.
    Selector(Reading, Part, Pos),
    /// After the `[` of an index or slice expression.
    Index(Opened, Part, Pos),
    /// After the `:` of a slice expression.
    High(Opened, Part, Pos, Low),
    /// In braces after the opening one or a comma.
    Element(Opened, Braces),
    /// After the key of an element.
    Value(Opened, Braces, Name),
    /// After an element without a type.
    ElementEnd(Reading, Braces),
}

/// What a token does.
#[derive(Drop)]
pub enum Progress {
    /// The expression or type goes on.
    Goes(Open),
    /// It ended before the token.
    Ends(Part),
}
