//! Functions of a code.

/// A function: the words of its frame, with the link and the return place; the words of its arguments and those of its
/// results, which stand in the lowest words of its caller's frame, the arguments first; where it starts, and how many
/// instructions it has. Places are counted from 0 over the instructions of all functions.
#[derive(Clone, Copy, Debug, PartialEq, Eq)]
pub struct Func {
    pub frame: u16,
    pub arguments: u16,
    pub results: u16,
    pub start: u32,
    pub size: u32,
}
