//! Which variables live on the heap.
//!
//! A variable whose address outlives the call that made it lives on the heap, and each other one in the frame of its call. A
//! placement tells which: for each site, where all its variables live. It's told by a bit for each number of a site up to the largest
//! on the heap, so that the passes ask it in one step; whatever has no bit lives in frames. The variables of the package belong to no
//! call, so each placement has them on the heap, and so it has those that a pointer or a slice may lead to. In `coarse`, which needs no
//! analysis, large variables are there, too, and nothing else.
#![tactic(auto)]

mod placement;

pub use placement::{Placement, coarse};
