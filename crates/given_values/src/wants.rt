//! Places for values: left sides, parameters, results and declared names.

ghost use Rattle.std.specs.Prelude.{◌≡◌, IfOk};
ghost use Rattle.given_values.specs.Given.{wanted_by, accepts, asked};

use base::{NoMemory, ValueType, same_type};
use std::alloc::Global;

/// What a place asks of its value.
#[derive(Clone, Copy, Debug, PartialEq, Eq)]
pub enum Wanted {
    /// The value's own type holds: any value that is one by itself.
    Own,
    /// What can be given to this type.
    Typed(ValueType),
    /// No type is known of the place: nothing is asked, and no rule of its value as the place's value is looked at.
    Unknown,
}

/// What a place of this type asks for; where its type is not known, nothing is known of that either.
pub fn wanted_by(value_type: Option<ValueType>) -> Wanted
    ensures { result ≡ wanted_by value_type }
{
    match value_type {
        Some(value_type) => Wanted::Typed(value_type),
        None => Wanted::Unknown,
    }
}

/// A place for each of these types.
pub fn asked(alloc: Global, types: &[ValueType]) -> Result<Vec<Wanted>, NoMemory>
    ensures { IfOk result (λ r. r.items ≡ asked types.now) }
{
    Ok(types.iter().map(|t| Wanted::Typed(*t)).collect(alloc)?)
}

/// Whether a place takes values of a type.
pub fn accepts(place: Wanted, value_type: ValueType) -> bool
    ensures { result ≡ accepts place value_type }
{
    match place {
        Wanted::Typed(wanted) => same_type(wanted, value_type),
        Wanted::Own | Wanted::Unknown => true,
    }
}
