//! The tags of functions.

/// How a parameter flows to a result of its function: the result's number, and by how many dereferences at least.
#[derive(Clone, Copy, Debug, PartialEq, Eq)]
pub struct ResultTag {
    pub result: u32,
    pub by: u32,
}

/// How a parameter flows on: by how many dereferences at least to the heap, if it flows there, and to each result to which it
/// flows, in ascending order.
#[derive(Drop)]
pub struct ParamTags {
    pub heap: Option<u32>,
    pub results: Vec<ResultTag>,
}

/// The tags of the parameters of each function. A function without any is not looked at yet: nothing flows in it.
#[derive(Drop)]
pub struct Tags {
    pub funcs: Vec<Vec<ParamTags>>,
}
