//! Terminating statements, after which nothing goes on: whether a list of statements ends in one.
//!
//! A call of the built-in `panic` is one, so it is asked in a scope what a name stands for. `specs/Terminating` has the rules.
#![tactic(auto)]

mod endings;

pub use endings::ends_in_terminating;
