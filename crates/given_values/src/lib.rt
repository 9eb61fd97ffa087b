//! What expressions give, as far as their parts need not be looked at again: names, values side by side at the places that ask for them, and
//! calls with their arguments.
//!
//! An expression gives one operand, a string, or what a call gives: any number of results, or nothing where it only prints or ends the run.
//! `specs/Given` says what lists of such things are at places for values, and as arguments of what is called; `specs/GivenFaults` says which
//! rules fail of that, and where. Neither side is made from the other; the proofs show that exactly one of them speaks, where each of the
//! expressions gives something. The expressions themselves are looked at in a crate above.
#![tactic(auto)]

mod calls;
mod gives;
mod naming;
mod values;
mod wants;

pub use calls::{
    call_fault, call_value, callee_name_fault, callee_named, callee_value, spread_over,
};
pub use gives::{
    Callee, Gives, Item, Part, is_single, one_operand, one_type, own_type, single_fault,
};
pub use naming::{known_type, name_fault, name_value};
pub use values::{
    agrees, are_single, count, count_fault, many_types, placed_fault, singles_fault, take_fault,
    taken, taken_types, value_types, values_fault,
};
pub use wants::{Wanted, accepts, asked, wanted_by};
