//! A text cut into tokens and gaps.

ghost use Rattle.std.specs.Prelude.{◌≡◌, ◌≤◌, length, IfOk};
ghost use Rattle.scan_go.specs.Tokens.{GivesLexemes, InOrder, mark_len};

use crate::lexeme::{Lexeme, LexemesFault};
use crate::piece::{Piece, piece_at};
use std::alloc::Global;

/// The bytes of a byte order mark at the front.
fn mark_len(text: &[u8]) -> usize
    ensures value { result ≡ mark_len text.now }
    ensures within { result ≤ length text.now }
{
    if text.starts_with(b"\xef\xbb\xbf") {
        3
    } else {
        0
    }
}

/// The tokens of the text, or its first fault from the left.
pub fn lexemes(alloc: Global, text: &[u8]) -> Result<Vec<Lexeme>, LexemesFault>
    ensures found { GivesLexemes result text.now }
    ensures order { IfOk result (λ v. InOrder 0 v.items (length text.now)) }
{
    let mut found = Vec::new(alloc);
    let mut place = mark_len(text);
    while place < text.len() {
        match piece_at(&text[place..]) {
            Piece::Gap(len) => place += len,
            Piece::Token(kind, len) => {
                let (start, end) = (place, place + len);
                found.push(Lexeme { kind, start, end })?;
                place = end;
            }
            Piece::Fault(kind, len) => return Err(LexemesFault::Fault(kind, place + len)),
        }
    }
    Ok(found)
}
