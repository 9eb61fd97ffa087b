//! The heap of a run: words that are taken one after the other, and never given back.
//!
//! A contract sees a heap as the list of its words from the lowest address on, and the most that there may be. To take
//! words is to put zeros after the list; to set or to move some replaces those at their places. So each word keeps its
//! address for good, and is what was put there last, or 0.
#![tactic(auto)]

mod fault;
mod heap;

pub use fault::HeapFault;
pub use heap::{HEAP_LOW, Heap};
