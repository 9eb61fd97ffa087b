//! What operators give operands, and the rules of them that fail.
//!
//! An operand is a constant, whose value is exact, or a value of a type that is worked out when the program runs. An operator on constants is
//! worked out here, on whole numbers from -2^127 to 2^127 - 1 and on truth values; a result outside is refused, and none wraps. All else
//! becomes an expression of the typed program. `specs/Operators` says what an operator gives, `specs/Faults` which of its rules fails and
//! where; exactly one of the two speaks (`proofs/DecidedOperators`).
#![tactic(auto)]

mod constant_faults;
mod folding;
mod operand;
mod pairs;
mod prefixes;

pub use constant_faults::{constant_range_fault, held_fault};
pub use folding::{Const, ConstFault, compare, fold, fold_one};
pub use operand::{
    Operand, TypedPlace, as_value, is_assignable, is_place, place_in, type_of, value_of,
};
pub use pairs::{combined, pair_fault, paired};
pub use prefixes::{has_rules, prefix_fault, prefixed};
