//! Names and keywords.

ghost use Rattle.std.specs.Prelude.{◌≡◌, ◌<◌, ◌≤◌, ◌||◌, length, slice_index, IsTrue};
ghost use Rattle.scan_go.specs.Characters.{char_at, is_continuation, is_letter};
ghost use Rattle.scan_go.specs.Words.{goes_on, keyword_of, word_len, word_piece};
ghost use Rattle.scan_go.specs.Pieces.{PieceFits};

use crate::character::{char_at, is_continuation, is_letter_or_digit};
use crate::piece::Piece;
use crate::spelling::{KEYWORDS, Keyword};
use crate::token::Kind;

/// Whether a word goes on with the first byte of the text.
#[tactic(auto, unfolding(crate::specs::Words::goes_on))]
fn goes_on(rest: &[u8]) -> bool
    requires { 0 < length rest.now }
    ensures { result ≡ goes_on rest.now }
{
    is_continuation(rest[0]) || is_letter_or_digit(char_at(rest))
}

/// How many bytes from the front on belong to letters and digits.
fn word_len(rest: &[u8]) -> usize
    ensures value { result ≡ word_len rest.now }
    ensures within { result ≤ length rest.now }
{
    for i in 0..rest.len() {
        if !goes_on(&rest[i..]) {
            return i;
        }
    }
    rest.len()
}

fn keyword_of(word: &[u8]) -> Option<Keyword>
    ensures { result ≡ keyword_of word.now }
{
    KEYWORDS
        .iter()
        .copied()
        .find(|k| word == k.spelling().as_bytes())
}

/// A name or a keyword: the longest run of letters and digits.
#[tactic(auto, using(crate::proofs::WordEnd::letter_goes_on))]
pub fn word_piece(rest: &[u8]) -> Piece
    requires some { 0 < length rest.now }
    requires letter { IsTrue (is_letter (char_at rest.now)) }
    ensures value { result ≡ word_piece rest.now }
    ensures within { PieceFits (length rest.now) result }
{
    let len = word_len(rest);
    match keyword_of(&rest[..len]) {
        Some(keyword) => Piece::Token(Kind::Keyword(keyword), len),
        None => Piece::Token(Kind::Name, len),
    }
}
