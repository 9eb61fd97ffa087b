//! The functions of a program in batches, callees first.
//!
//! An analysis that goes from callees to callers wants each function after those that it calls. Functions that reach one another
//! by calls have no such order among them, so they stand in one batch: a batch is a strongly connected component of the graph
//! whose edges are the calls. Go's compiler orders functions so before its escape analysis.
//!
//! One depth-first search over the calls finds the components, each after those that it leads to, in time linear in functions
//! and calls. What is left is to sort the functions of each component, so that they stand in the order of the text.
#![tactic(auto)]

mod batches;
mod calls;
mod ordering;

pub use batches::{Batch, Batches};
pub use ordering::order;
