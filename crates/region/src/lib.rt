//! The storage under a stack that moves: a block of 64-bit words at the addresses from `lo` to below `hi`.
//!
//! The stack grows downwards, from `hi`. Only its words from a mark on are initialised; those below it are raw memory, and
//! nothing reads them. So a stack that is full moves cheaply: a block of twice the size is taken as raw memory, what is in use
//! goes to its upper end, and no word is written twice. Each word keeps its distance from `hi` then. A block that was left can
//! be put at another place and serve again. Only `new` takes memory: what the other calls need fits the room that it took.
//!
//! The words lie in a `Vec` from the highest address down: the word at `hi - 1` is the first, and the one at the mark the last.
//! The initialised words are then those that the `Vec` has, its spare capacity is what is below the mark, and to move a stack is
//! to copy a front part of memory. No pointer is needed.
//!
//! The idea is that of Go's stacks (Randall's design document "Contiguous stacks", and `copystack` of runtime/stack.go, which
//! copies the used part of a stack to the upper end of the new one).
#![tactic(auto)]

mod region;

pub use region::Region;
