//! Why a program has no layout.

ghost use Rattle.std.specs.Prelude.{◌≡◌};
ghost use Rattle.frame_layout.specs.declared.fault.LayoutFault.TheVariants.{NoMemory as OutOfMemory};

use base::{NoMemory, Pos};
use std::alloc::AllocFailed;
use thiserror::Error;

/// Why a program has no layout.
#[derive(Clone, Copy, Debug, PartialEq, Eq, Error)]
pub enum LayoutFault {
    #[error("no memory")]
    NoMemory,
    /// A function's frame has more than 65,535 words: the place of the function's name, and the words.
    #[error("a frame of {words} words is too large")]
    FrameTooLarge { pos: Pos, words: u64 },
}

impl From<NoMemory> for LayoutFault {
    ghost from_gives = { λ _ e. e ≡ OutOfMemory };

    fn from(_: NoMemory) -> LayoutFault {
        LayoutFault::NoMemory
    }
}

impl<T: Drop> From<AllocFailed<T>> for LayoutFault {
    ghost from_gives = { λ _ e. e ≡ OutOfMemory };

    fn from(_: AllocFailed<T>) -> LayoutFault {
        LayoutFault::NoMemory
    }
}
