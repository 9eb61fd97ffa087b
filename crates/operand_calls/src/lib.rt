//! Calls in an operand that isn't evaluated.
//!
//! Where the type of an array is enough, the array isn't evaluated, and then no function may be called in it: the call would not happen.
//! `specs/Calls` says which expressions have a call, where the first one stands, and which rule fails.
#![tactic(auto)]

mod first;
mod inside;
mod rule;

pub use first::first_call;
pub use inside::has_call;
pub use rule::{call_pos, unevaluated_fault};
