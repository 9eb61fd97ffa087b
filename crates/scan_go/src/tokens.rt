//! The tokens of a text.

ghost use Rattle.std.specs.Prelude.{◌≡◌, ◌≤◌, All, length};
ghost use Rattle.scan_go.specs.Lines.{pos_at, AreSpans, IsSpan};
ghost use Rattle.scan_go.specs.TokenList.{IsWithin, most_bytes};

use crate::lines::{pos_of, text_start};
use crate::token::Token;
use base::Pos;
use std::marker::Model;

/// The tokens of a text beside a copy of the text, which their spans index. A text has at most `MOST_BYTES` bytes.
#[derive(Drop)]
pub struct Tokens {
    text: Vec<u8>,
    list: Vec<Token>,
}

impl Model for Tokens {
    ghost use Rattle.scan_go.specs.TokenList.{TokenList, IsWithin};

    ghost Value = { TokenList };

    ghost view = { λ t. record { text = t.text.items; list = t.list.items } };

    ghost invariant = { λ t. IsWithin t.text.items t.list.items };
}

impl Tokens {
    ghost use Rattle.scan_go.specs.TokenList.{TokenList};

    pub(crate) fn new(text: Vec<u8>, list: Vec<Token>) -> Tokens
        requires { IsWithin text.items list.items }
        ensures { result ≡ record { text = text.items; list = list.items } }
    {
        Tokens { text, list }
    }

    /// The text that was scanned.
    pub fn text(&self) -> &[u8]
        ensures value { result.now ≡ self.now.text }
        ensures short { length result.now ≤ most_bytes }
    {
        &self.text
    }

    /// The tokens in the order of the text, the inserted semicolons among them.
    pub fn list(&self) -> &[Token]
        ensures value { result.now ≡ self.now.list }

        // The spans follow one another, and lie within the text.
        ensures order { AreSpans 0 self.now.list (length self.now.text) }
        ensures spans { All (IsSpan (length self.now.text)) self.now.list }
    {
        &self.list
    }

    /// The text alone, for a caller that keeps it.
    pub fn into_text(self) -> Vec<u8>
        ensures { result.items ≡ self.text }
    {
        self.text
    }

    /// The position after the last byte of the text.
    #[tactic(auto, unfolding(crate::specs::Lines::pos_at))]
    pub fn end(&self) -> Pos
        ensures { result ≡ pos_at self.now.text (length self.now.text) }
    {
        pos_of(&self.text, text_start(), self.text.len())
    }
}
