//! The tokens of a text, or its first fault.

ghost use Rattle.std.specs.Prelude.{◌≡◌, ◌≤◌, ℕ, List, length, IfOk, Some, IsTrue, nat_eq};
ghost use Rattle.std.specs.List.{starts_with};
ghost use Rattle.scan_go.specs.declared.token.Token.{Token};
ghost use Rattle.scan_go.specs.declared.spelling.Op.{Op};
ghost use Rattle.scan_go.specs.Spelling.{op_spelling};
ghost use Rattle.scan_go.specs.Operators.{operator_of};
ghost use Rattle.scan_go.specs.Tokens.{Found, Lexes};
ghost use Rattle.scan_go.specs.TokenList.{most_bytes};
ghost use Rattle.scan_go.specs.Lines.{pos_at};
ghost use Rattle.scan_go.specs.Scan.{GivesTokens, AreTokens, OnlyTokens};

use crate::fault::ScanFault;
use crate::lexeme::LexemesFault;
use crate::lexing::lexemes;
use crate::lines::{pos_of, text_start, with_semicolons};
use crate::tokens::Tokens;
use base::Pos;
use std::alloc::Global;
use std::str;

/// The most bytes of a text.
const MOST_BYTES: usize = 1_048_576;

#[tactic(auto, unfolding(crate::specs::Lines::pos_at))]
fn pos_at(text: &[u8], offset: usize) -> Pos
    requires within { offset ≤ length text.now }
    requires room { length text.now ≤ most_bytes }
    ensures { result ≡ pos_at text.now offset }
{
    pos_of(text, text_start(), offset)
}

#[tactic(auto, unfolding(crate::specs::Lines::pos_at))]
fn scan_text(alloc: Global, text: &[u8]) -> Result<Tokens, ScanFault>
    ensures exact { GivesTokens result text.now }
    ensures text { IfOk result (λ t. t.text ≡ text.now) }
{
    if text.len() > MOST_BYTES {
        return Err(ScanFault::TooLong(text_start()));
    }
    if let Err(e) = str::from_utf8(text) {
        return Err(ScanFault::NotUtf8(pos_at(text, e.valid_up_to())));
    }
    match lexemes(alloc, text) {
        Ok(found) => {
            let list = with_semicolons(alloc, text, &found)?;
            Ok(Tokens::new(Vec::from_slice(alloc, text)?, list))
        }
        Err(LexemesFault::NoMemory) => Err(ScanFault::NoMemory),
        Err(LexemesFault::Fault(kind, place)) => Err(ScanFault::Fault(kind, pos_at(text, place))),
    }
}

/// The tokens of the text, with their positions and the semicolons that line ends bring.
pub fn scan(alloc: Global, text: &[u8]) -> Result<Tokens, ScanFault>
    // What is answered: the tokens, or the first fault from the left.
    ensures exact { GivesTokens result text.now }

    // Where the text has tokens they are answered, unless memory runs out.
    ensures only { (list : List Token) → AreTokens text.now list → OnlyTokens result list }
    ensures text { IfOk result (λ t. t.text ≡ text.now) }
{
    scan_text(alloc, text)
}

/// A text has one list of tokens, or one first fault.
pub fn one_answer()
    ensures { (text : List ℕ) (a b : Found) → Lexes text a → Lexes text b → a ≡ b }
{}

/// No operator that is longer than the one that is found stands in its place.
pub fn longest_operator()
    ensures { (rest : List ℕ) (x y : Op) → operator_of rest ≡ Some x
        → IsTrue (starts_with nat_eq rest (op_spelling y)) → length (op_spelling y) ≤ length (op_spelling x) }
{}
