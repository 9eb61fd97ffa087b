//! A batch of functions.

use base::FuncId;
use value_flows::{Program, Tags};

/// What edges depend on: a program, the functions of a batch of it, and the tags of the functions outside.
#[derive(Clone, Copy)]
pub struct Batch<'a> {
    pub program: &'a Program,
    pub funcs: &'a [FuncId],
    pub tags: &'a Tags,
}
