//! The edges of a program: how its values flow from location to location.
//!
//! An edge goes to a location from another and has a weight: the first may get the second's value by so many dereferences, or,
//! by -1, its address. Where a value goes is a list of targets, each a location and the dereferences on the way there.
//! - A variable has an edge to each target of as many dereferences as the target's, and the address of one an edge of one less.
//! - What lies at an address: the address goes to the targets by one dereference more. The address of a part of what lies at an
//!   address: that address goes to the same targets, or where no pointers lie there, only to those by no dereference.
//! - Of values side by side each goes to the targets. What is evaluated beside a value goes nowhere, but the calls in it have
//!   edges too.
//! - A variable that a loop carries on goes to its carry, which stands outside of the loop, and back.
//!
//! Functions that call one another are lowered together, as a batch, after those that they call. A call of a function of the
//! batch is plain edges: its arguments go to the parameters, and its results, as locations of their own, to the targets of the
//! call. A call of any other function has its tags in their place: an argument goes to the heap by as many dereferences as the
//! tags of its parameter say, and by as many more to the targets of each result to which the parameter flows. A function
//! without tags is not looked at yet: nothing flows through it. A result without pointers goes nowhere.
//!
//! Targets are handed down as a list to the arguments of a call, each target once, so that each argument is sent once to all of
//! them. Were each result sent by itself, then with several results to a call the arguments of nested calls would be sent once
//! for each way through the results, of which there are twice as many or more with each call. So the edges are about as many as
//! the text is long, but for nested calls: each sends its arguments once more, to its parameters or to the heap.
//!
//! The idea is that of Go's escape analysis (the comments of cmd/compile/internal/escape, graph.go and call.go).
#![tactic(auto)]

mod batch;
mod functions;
mod locations;
mod lowering;
mod parts;
mod sending;
mod targets;
mod texts;

pub use lowering::{lower, whole};
pub use parts::{is_own, params_of, result_at, results_of, tags_of};
