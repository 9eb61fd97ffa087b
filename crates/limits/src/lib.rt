//! The limits of a run: how many words the stack starts with, how many the stack and the heap may have, and how many
//! instructions may be run. Numbers that are no limits are refused with the first range that they leave.
#![tactic(auto)]

mod limits;

pub use limits::{LimitFault, Limits};
