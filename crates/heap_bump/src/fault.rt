//! Why a heap gives no words.

ghost use Rattle.std.specs.Prelude.{◌≡◌};
ghost use Rattle.heap_bump.specs.declared.fault.HeapFault.TheVariants.{NoMemory as OutOfMemory};

use base::NoMemory;
use std::alloc::AllocError;
use thiserror::Error;

/// Why a heap gives no words.
#[derive(Clone, Copy, Debug, PartialEq, Eq, Error)]
pub enum HeapFault {
    #[error("no memory")]
    NoMemory,
    /// There would be more words than there may be: the words taken, those asked for, and the most that there may be.
    #[error("heap used {used} asked {asked} limit {max}")]
    Limit { used: u64, asked: u64, max: u64 },
}

impl From<NoMemory> for HeapFault {
    ghost from_gives = { λ _ e. e ≡ OutOfMemory };

    fn from(_: NoMemory) -> HeapFault {
        HeapFault::NoMemory
    }
}

impl From<AllocError> for HeapFault {
    ghost from_gives = { λ _ e. e ≡ OutOfMemory };

    fn from(_: AllocError) -> HeapFault {
        HeapFault::NoMemory
    }
}
