//! What flows in a typed program.
//!
//! The escape analysis reads only which values may hold the addresses of which variables, and where each value goes
//! (`value_flows`). This crate makes that of a typed program, form by form: a number or a truth value goes nowhere, but what is
//! evaluated in it stays, since it may call; a read is the variable, or what lies behind a pointer or a slice; an assignment gives its
//! values to sites, or to the heap where they are stored anywhere else. The work is linear in the program.
//!
//! The idea is that of Go's escape analysis (the comments of cmd/compile/internal/escape, which turns each form of expression and
//! statement into flows between locations).
//!
//! `specs/Flows` is the contract, and `specs/Values` has the values of expressions.
#![tactic(auto)]

mod context;
mod making;
mod pointers;
mod program;
mod statements;
mod values;

pub use program::flows;
