//! Tokens, and where they stand.

use crate::spelling::{Keyword, Op};
use base::Pos;

/// What a token is.
#[derive(Clone, Copy, Debug, PartialEq, Eq)]
pub enum Kind {
    Name,
    Number(u128),
    /// A string in double quotes. The bytes at its span say which one.
    String,
    Keyword(Keyword),
    Op(Op),
}

/// A token: what it is, where it begins and the offset after its last byte. An inserted semicolon is empty.
#[derive(Clone, Copy, Debug, PartialEq, Eq)]
pub struct Token {
    pub kind: Kind,
    pub pos: Pos,
    pub end: u32,
}
