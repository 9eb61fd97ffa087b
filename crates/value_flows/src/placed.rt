//! Where the variables of a site live, and why.

use deref_walk::Loc;

/// Why the variables of a site are on the heap, whatever flows.
#[derive(Clone, Copy, Debug, PartialEq, Eq)]
pub enum Known {
    /// It is a package variable.
    Package,
    /// They have too many words for a frame.
    Size,
    /// Their words are known only when the program runs.
    Unknown,
}

/// Where the variables of a site live.
#[derive(Clone, Copy, Debug, PartialEq, Eq)]
pub enum Placed {
    Stack,
    /// On the heap, whatever flows.
    Known(Known),
    /// On the heap, since this location may hold the address of one, and outlives it.
    Flow(Loc),
}
