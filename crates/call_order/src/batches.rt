//! Batches of functions.

use base::FuncId;

/// Functions that reach one another by calls, in the order of the text.
#[derive(Drop)]
pub struct Batch {
    pub funcs: Vec<FuncId>,
}

/// The batches of a program: a function that is called stands in its caller's batch or in an earlier one.
#[derive(Drop)]
pub struct Batches {
    pub batches: Vec<Batch>,
}
