//! Pieces between the quotes: escapes, and bytes that stand for themselves.

ghost use Rattle.std.specs.Prelude.{◌≡◌, ◌+◌, ◌<◌, ◌≤◌, length, IfSome};
ghost use Rattle.string_value.specs.Pieces.{simple_escape, byte_piece, character_piece, escape, first_piece};

use crate::digits::{byte, character};
use crate::number_base::Base;

/// What a piece stands for.
#[derive(Clone, Copy, Debug, PartialEq, Eq)]
pub enum Meaning {
    Nothing,
    Byte(u8),
    /// The bytes of its UTF-8.
    Character(char),
}

/// A piece at the front of what is left: what it stands for, and how many bytes it takes.
#[derive(Clone, Copy, Debug, PartialEq, Eq)]
pub struct Piece {
    pub meaning: Meaning,
    pub len: usize,
}

/// A backslash that begins no escape.
const BARE_BACKSLASH: Piece = Piece {
    meaning: Meaning::Nothing,
    len: 1,
};

/// The byte that a letter stands for after a backslash.
#[tactic(auto, unfolding(crate::specs::Pieces::simple_escape))]
fn simple_escape(c: u8) -> Option<u8>
    ensures { result ≡ simple_escape c }
{
    match c {
        b'a' => Some(0x07),
        b'b' => Some(0x08),
        b'f' => Some(0x0C),
        b'n' => Some(b'\n'),
        b'r' => Some(b'\r'),
        b't' => Some(b'\t'),
        b'v' => Some(0x0B),
        b'\\' => Some(b'\\'),
        b'"' => Some(b'"'),
        _ => None,
    }
}

fn byte_piece(byte: Option<u8>, len: usize) -> Piece
    ensures { result ≡ byte_piece byte len }
{
    match byte {
        Some(b) => Piece {
            meaning: Meaning::Byte(b),
            len,
        },
        None => BARE_BACKSLASH,
    }
}

fn character_piece(character: Option<char>, len: usize) -> Piece
    ensures { result ≡ character_piece character len }
{
    match character {
        Some(c) => Piece {
            meaning: Meaning::Character(c),
            len,
        },
        None => BARE_BACKSLASH,
    }
}

/// An escape, without its backslash.
#[tactic(auto, unfolding(crate::specs::Pieces::escape))]
fn escape(rest: &[u8]) -> Piece
    ensures value { result ≡ escape rest.now }
    ensures some { 0 < result.len }
    ensures within { result.len ≤ 1 + length rest.now }
{
    if rest.is_empty() {
        return BARE_BACKSLASH;
    }
    let after = &rest[1..];
    match rest[0] {
        b'x' => byte_piece(byte(Base::Hexadecimal, 2, after), 4),
        b'u' => character_piece(character(4, after), 6),
        b'U' => character_piece(character(8, after), 10),
        b'0'..=b'7' => byte_piece(byte(Base::Octal, 3, rest), 4),
        c => byte_piece(simple_escape(c), 2),
    }
}

/// The piece at the front.
pub fn first_piece(rest: &[u8]) -> Piece
    requires { 0 < length rest.now }
    ensures value { result ≡ first_piece rest.now }
    ensures some { 0 < result.len }
    ensures within { result.len ≤ length rest.now }
{
    match rest[0] {
        b'\\' => escape(&rest[1..]),
        b => byte_piece(Some(b), 1),
    }
}
