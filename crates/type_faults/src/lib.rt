//! The faults of the rules of types, and which of several is reported.
//!
//! Of all rules that fail the one that stands first is reported, and of those at one place the one with the least number: `specs/Least` says
//! what it is for that to be so, and `proofs/Leasts` puts it together from parts. What the rules give is decided where they give something
//! and no rule fails, or nothing and some rule fails (`proofs/Decided`).
#![tactic(auto)]

mod fault;

pub use fault::{Fault, FaultKind, TypeFault, lesser};
