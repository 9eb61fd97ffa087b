//! What stands at the front of a text.

ghost use Rattle.std.specs.Prelude.{◌≡◌, ◌<◌, length};
ghost use Rattle.scan_go.specs.Pieces.{piece_at, PieceFits};

use crate::character::{begins_other_literal, char_at, is_letter, is_space};
use crate::comment::{general_comment, line_comment};
use crate::fault::FaultKind;
use crate::number::{begins_fraction, number_piece};
use crate::operator::operator_piece;
use crate::string::string_piece;
use crate::token::Kind;
use crate::word::word_piece;

/// What stands at a place of a text.
#[derive(Clone, Copy, Debug, PartialEq, Eq)]
pub enum Piece {
    /// A space or a comment, with its number of bytes.
    Gap(usize),
    /// A token, with its number of bytes.
    Token(Kind, usize),
    /// A fault, with the number of bytes before it.
    Fault(FaultKind, usize),
}

/// The space, comment, token or fault at the front of the text.
#[tactic(auto, unfolding(crate::specs::Pieces::piece_at))]
pub fn piece_at(rest: &[u8]) -> Piece
    requires { 0 < length rest.now }
    ensures value { result ≡ piece_at rest.now }
    ensures within { PieceFits (length rest.now) result }
{
    let first = rest[0];
    if first == 0 {
        Piece::Fault(FaultKind::Nul, 0)
    } else if is_space(first) {
        Piece::Gap(1)
    } else if rest.starts_with(b"//") {
        line_comment(rest)
    } else if rest.starts_with(b"/*") {
        general_comment(rest)
    } else if is_letter(char_at(rest)) {
        word_piece(rest)
    } else if first.is_ascii_digit() {
        number_piece(rest)
    } else if first == b'"' {
        string_piece(rest)
    } else if begins_other_literal(first) || begins_fraction(rest) {
        Piece::Fault(FaultKind::OutOfProfile, 0)
    } else {
        operator_piece(rest)
    }
}
