//! Why a text is refused.

ghost use Rattle.std.specs.Prelude.{◌≡◌};

use base::Pos;
use std::alloc::AllocError;
use thiserror::Error;

/// What is wrong at a place of a text. Each stands at the first byte of its token, but for `Nul` and `BadChar`, which
/// stand at the character, and `BadEscape`, which stands at the backslash.
#[derive(Clone, Copy, Debug, PartialEq, Eq, Error)]
pub enum FaultKind {
    #[error("the character 0")]
    Nul,
    #[error("a character that begins no token")]
    BadChar,
    #[error("a malformed number")]
    BadNumber,
    #[error("a number of 2^127 or more")]
    NumberTooBig,
    #[error("a comment that is not closed")]
    OpenComment,
    #[error("a string that is not closed")]
    OpenString,
    #[error("a backslash that begins no escape")]
    BadEscape,
    #[error("a literal that is not supported")]
    OutOfProfile,
}

impl FaultKind {
    ghost use Rattle.scan_go.specs.Faults.{kind_number};

    /// The number under which it is printed.
    pub fn number(self) -> u32
        ensures { result ≡ kind_number self }
    {
        match self {
            FaultKind::Nul => 3,
            FaultKind::BadChar => 4,
            FaultKind::BadNumber => 5,
            FaultKind::NumberTooBig => 6,
            FaultKind::OpenComment => 7,
            FaultKind::OpenString => 8,
            FaultKind::BadEscape => 9,
            FaultKind::OutOfProfile => 10,
        }
    }
}

/// Why a text has no tokens, and where. A text that is too long is refused at its start, one that is not UTF-8 at its
/// first bad byte.
#[derive(Clone, Copy, Debug, PartialEq, Eq, Error)]
pub enum ScanFault {
    #[error("no memory")]
    NoMemory,
    #[error("too many bytes")]
    TooLong(Pos),
    #[error("not UTF-8")]
    NotUtf8(Pos),
    #[error("{0}")]
    Fault(FaultKind, Pos),
}

impl ScanFault {
    ghost use Rattle.scan_go.specs.Faults.{fault_number, fault_pos};

    /// The number under which it is printed. Want of memory has none.
    pub fn number(&self) -> Option<u32>
        ensures { result ≡ fault_number self.now }
    {
        match self {
            ScanFault::NoMemory => None,
            ScanFault::TooLong(_) => Some(1),
            ScanFault::NotUtf8(_) => Some(2),
            ScanFault::Fault(kind, _) => Some(kind.number()),
        }
    }

    /// Where the text is refused. Want of memory has no position.
    pub fn pos(&self) -> Option<Pos>
        ensures { result ≡ fault_pos self.now }
    {
        match self {
            ScanFault::NoMemory => None,
            ScanFault::TooLong(pos) | ScanFault::NotUtf8(pos) | ScanFault::Fault(_, pos) => {
                Some(*pos)
            }
        }
    }
}

impl From<AllocError> for ScanFault {
    ghost use Rattle.scan_go.specs.declared.fault.ScanFault.TheVariants.{NoMemory};

    ghost from_gives = { λ _ e. e ≡ NoMemory };

    fn from(_: AllocError) -> ScanFault {
        ScanFault::NoMemory
    }
}
