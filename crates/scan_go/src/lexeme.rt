//! Tokens with their spans alone, before lines are counted.

ghost use Rattle.std.specs.Prelude.{◌≡◌};
ghost use Rattle.scan_go.specs.declared.lexeme.LexemesFault.TheVariants.{NoMemory};

use crate::fault::FaultKind;
use crate::token::Kind;
use std::alloc::AllocFailed;

/// A token and its span: its first byte, and the offset after its last one.
#[derive(Clone, Copy, Debug, PartialEq, Eq)]
pub struct Lexeme {
    pub kind: Kind,
    pub start: usize,
    pub end: usize,
}

/// Why a text was not cut: memory ran out, or a fault after this number of bytes.
#[derive(Clone, Copy, Debug, PartialEq, Eq)]
pub enum LexemesFault {
    NoMemory,
    Fault(FaultKind, usize),
}

impl<T: Drop> From<AllocFailed<T>> for LexemesFault {
    ghost from_gives = { λ _ e. e ≡ NoMemory };

    fn from(_: AllocFailed<T>) -> LexemesFault {
        LexemesFault::NoMemory
    }
}
