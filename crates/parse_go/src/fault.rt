//! Why tokens have no tree.

ghost use Rattle.std.specs.Prelude.{◌≡◌};
ghost use Rattle.parse_go.specs.declared.fault.ParseFault.TheVariants as parse_fault;

use base::Pos;
use std::alloc::AllocError;
use thiserror::Error;

/// Why tokens have no tree. Where several tokens fail, it is the first of them.
///
/// A token is unexpected where no text of the grammar begins with it and those before it; an inserted semicolon stands at its
/// line's end, and where the tokens end too early, the position is after the last byte of the text. A token is too deep where
/// its nesting passes `NESTING_LIMIT`: the number of brackets, prefixes and else-ifs that are open around it; at a binary
/// operator, a `.`, a `[` or a `(` after an expression at least one more than the height of the tree to its left.
#[derive(Clone, Copy, Debug, PartialEq, Eq, Error)]
pub enum ParseFault {
    #[error("no memory")]
    NoMemory,
    #[error("unexpected token")]
    Unexpected(Pos),
    #[error("nested too deeply")]
    TooDeep(Pos),
}

impl From<AllocError> for ParseFault {
    ghost from_gives = { λ _ e. e ≡ parse_fault.NoMemory };

    fn from(_: AllocError) -> ParseFault {
        ParseFault::NoMemory
    }
}

impl ParseFault {
    ghost use Rattle.parse_go.specs.FaultNumbers.{number_of, pos_of};

    /// The number of the fault's kind: 1 unexpected, 2 too deep. Want of memory has none.
    pub fn number(&self) -> Option<u32>
        ensures { result ≡ number_of self.now }
    {
        match self {
            ParseFault::NoMemory => None,
            ParseFault::Unexpected(_) => Some(1),
            ParseFault::TooDeep(_) => Some(2),
        }
    }

    /// Where the fault stands. Want of memory has no position.
    pub fn pos(&self) -> Option<Pos>
        ensures { result ≡ pos_of self.now }
    {
        match self {
            ParseFault::NoMemory => None,
            ParseFault::Unexpected(pos) => Some(*pos),
            ParseFault::TooDeep(pos) => Some(*pos),
        }
    }
}
