//! Why a type is refused.

ghost use Rattle.std.specs.Prelude.{◌≡◌};
ghost use Rattle.typed.specs.declared.fault.TableFault.TheVariants.{NoMemory as OutOfMemory};

use base::NoMemory;
use std::alloc::{AllocError, AllocFailed};
use thiserror::Error;

/// Why a type doesn't enter a table, or a struct isn't told.
#[derive(Clone, Copy, Debug, PartialEq, Eq, Error)]
pub enum TableFault {
    /// A type would have no words.
    #[error("a type without words")]
    Empty,
    /// A type would have more words than it may.
    #[error("a type of too many words")]
    TooLarge,
    #[error("no memory")]
    NoMemory,
}

impl From<NoMemory> for TableFault {
    ghost from_gives = { λ _ e. e ≡ OutOfMemory };

    fn from(_: NoMemory) -> TableFault {
        TableFault::NoMemory
    }
}

impl From<AllocError> for TableFault {
    ghost from_gives = { λ _ e. e ≡ OutOfMemory };

    fn from(_: AllocError) -> TableFault {
        TableFault::NoMemory
    }
}

impl<T: Drop> From<AllocFailed<T>> for TableFault {
    ghost from_gives = { λ _ e. e ≡ OutOfMemory };

    fn from(_: AllocFailed<T>) -> TableFault {
        TableFault::NoMemory
    }
}
