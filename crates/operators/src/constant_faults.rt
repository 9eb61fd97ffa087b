//! Constants that their places don't hold.

ghost use Rattle.std.specs.Prelude.{◌≡◌};
ghost use Rattle.operators.specs.ConstantFaults.{constant_range_fault, held_fault};

use base::{Pos, ValueType};
use constants::{Constant, int_constant, is_held};
use type_faults::{Fault, FaultKind};

/// The fault of a constant as a value: no int can hold it.
pub fn constant_range_fault(pos: Pos, constant: Constant) -> Option<Fault>
    ensures { result ≡ constant_range_fault pos constant }
{
    match constant {
        Constant::Number(value) => match int_constant(value) {
            Some(_) => None,
            None => Some(Fault {
                kind: FaultKind::ConstRange,
                pos,
            }),
        },
        Constant::Truth(_) => None,
    }
}

/// The fault of a constant that its type doesn't hold.
pub fn held_fault(value_type: Option<ValueType>, pos: Pos, constant: Constant) -> Option<Fault>
    ensures { result ≡ held_fault value_type pos constant }
{
    if is_held(value_type, constant) {
        None
    } else {
        Some(Fault {
            kind: FaultKind::ConstRange,
            pos,
        })
    }
}
