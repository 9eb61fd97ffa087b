//! Why a tree has no typed program, and which of several faults is reported.

ghost use Rattle.std.specs.Prelude.{◌≡◌};
ghost use Rattle.type_faults.specs.declared.fault.TypeFault.TheVariants.{NoMemory as OutOfMemory};
ghost use Rattle.type_faults.specs.Least.{lesser, kind_number};

use base::{NoMemory, Pos};
use std::alloc::{AllocError, AllocFailed};
use thiserror::Error;

/// Which rule fails.
#[derive(Clone, Copy, Debug, PartialEq, Eq)]
pub enum FaultKind {
    /// A name that is not declared.
    Unknown,
    /// A name that its block, or the same statement, declares already.
    Redeclared,
    /// A `:=` that declares no new variable.
    NothingNew,
    /// A value of another type than its place asks for, or operands of two types.
    Mismatch,
    /// A left side that is no variable.
    NotAssignable,
    /// A call of what is no function.
    NotCallable,
    /// Another number of arguments than the function takes, or of values than there are left sides.
    WrongCount,
    /// A call that has another number of values than are wanted, or a `return` with another number than the function gives.
    ResultCount,
    /// A value alone, which is no statement.
    NotUsedValue,
    /// A function with results that may end without a `return`.
    MissingReturn,
    /// A constant that an int cannot hold, or that leaves 128 bits.
    ConstRange,
    /// A constant length or index that is out of range.
    ConstIndex,
    /// What does not fit its place: a value for a type, a type or a built-in function for a value, an operand that its operator doesn't
    /// take, a condition that is none, `...` after arguments, a shift by a negative count.
    Unfit,
    /// A constant that needs itself.
    SelfReference,
    /// An array type without elements.
    ZeroSize,
    /// A `break` or `continue` outside of a loop.
    BreakOutside,
    /// A package other than `main`, or one without a function `main` that has no parameters and results.
    NoMain,
    /// A function without a body that is none of those that the language has outside of the program.
    BadExternal,
    /// A form or a name of Go that the profile leaves out.
    OutOfProfile,
    /// A type with more than 65,535 words; more functions than 4,096, or one with more than 65,535 words of arguments and results.
    TooLarge,
    /// A constant divided by a constant that is zero.
    ConstZeroDivisor,
}

impl FaultKind {
    /// The number under which the kind is printed.
    pub fn number(self) -> u8
        ensures { result ≡ kind_number self }
    {
        match self {
            FaultKind::Unknown => 1,
            FaultKind::Redeclared => 2,
            FaultKind::NothingNew => 3,
            FaultKind::Mismatch => 4,
            FaultKind::NotAssignable => 6,
            FaultKind::NotCallable => 7,
            FaultKind::WrongCount => 8,
            FaultKind::ResultCount => 9,
            FaultKind::NotUsedValue => 10,
            FaultKind::MissingReturn => 11,
            FaultKind::ConstRange => 12,
            FaultKind::ConstIndex => 13,
            FaultKind::Unfit => 14,
            FaultKind::SelfReference => 15,
            FaultKind::ZeroSize => 16,
            FaultKind::BreakOutside => 17,
            FaultKind::NoMain => 18,
            FaultKind::BadExternal => 19,
            FaultKind::OutOfProfile => 20,
            FaultKind::TooLarge => 21,
            FaultKind::ConstZeroDivisor => 22,
        }
    }
}

/// A rule that fails, and where.
#[derive(Clone, Copy, Debug, PartialEq, Eq)]
pub struct Fault {
    pub kind: FaultKind,
    pub pos: Pos,
}

/// The fault that is reported of two: the one with the lesser offset, and then the lesser number of its kind.
pub fn lesser(a: Option<Fault>, b: Option<Fault>) -> Option<Fault>
    ensures { result ≡ lesser a b }
{
    match (a, b) {
        (None, _) => b,
        (Some(_), None) => a,
        (Some(f), Some(g)) => {
            if f.pos.offset < g.pos.offset
                || (f.pos.offset == g.pos.offset && f.kind.number() <= g.kind.number())
            {
                a
            } else {
                b
            }
        }
    }
}

/// Why there is no typed program.
#[derive(Clone, Copy, Debug, PartialEq, Eq, Error)]
pub enum TypeFault {
    #[error("no memory")]
    NoMemory,
    #[error("a rule of the language fails")]
    Fault(Fault),
}

impl From<NoMemory> for TypeFault {
    ghost from_gives = { λ _ e. e ≡ OutOfMemory };

    fn from(_: NoMemory) -> TypeFault {
        TypeFault::NoMemory
    }
}

impl From<AllocError> for TypeFault {
    ghost from_gives = { λ _ e. e ≡ OutOfMemory };

    fn from(_: AllocError) -> TypeFault {
        TypeFault::NoMemory
    }
}

impl<T: Drop> From<AllocFailed<T>> for TypeFault {
    ghost from_gives = { λ _ e. e ≡ OutOfMemory };

    fn from(_: AllocFailed<T>) -> TypeFault {
        TypeFault::NoMemory
    }
}
