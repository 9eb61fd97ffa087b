//! Why a step of the parser fails.

ghost use Rattle.std.specs.Prelude.{◌≡◌};
ghost use Rattle.parse_expressions.specs.declared.fault.StepFault.TheVariants as step_fault;

use std::alloc::{AllocError, AllocFailed};

/// Why a state takes no further token.
#[derive(Clone, Copy, Debug, PartialEq, Eq)]
pub enum StepFault {
    NoMemory,
    /// Nothing that begins with the token may follow.
    Unexpected,
    /// The token's nesting passes the limit.
    TooDeep,
}

impl From<AllocError> for StepFault {
    ghost from_gives = { λ _ e. e ≡ step_fault.NoMemory };

    fn from(_: AllocError) -> StepFault {
        StepFault::NoMemory
    }
}

impl<T: Drop> From<AllocFailed<T>> for StepFault {
    ghost from_gives = { λ _ e. e ≡ step_fault.NoMemory };

    fn from(_: AllocFailed<T>) -> StepFault {
        StepFault::NoMemory
    }
}
