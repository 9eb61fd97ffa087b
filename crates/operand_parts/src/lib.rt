//! The parts of operands and the forms that make wholes of parts: selectors, indices, the lengths of array types, and the form of composite
//! literals.
//!
//! A part of a place is a place, so that it can be given a value; a part of any other value is a value. A constant index is the number of an
//! element, and costs nothing when the program runs. Each rule looks at operands alone: what an expression gives is worked out above. `specs/`
//! says what each form gives, and apart from it which rules fail; the proofs show that exactly one of the two speaks, and that what is given
//! is in form.
#![tactic(auto)]

mod array_types;
mod indices;
mod literal_values;
mod literals;
mod selectors;

pub use array_types::{array_fault, array_with, length_fault, length_of};
pub use indices::{index_fault, indexed};
pub use literal_values::{Placed, composed, elements_fault};
pub use literals::{
    Elision, element_part, elided, elision_fault, shape_fault, shape_fits, type_elided,
};
pub use selectors::{selected, selector_fault};
