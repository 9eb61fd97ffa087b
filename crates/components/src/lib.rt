//! The strongly connected components of a directed graph.
//!
//! The nodes are numbers, and a graph is a list of rows: each node's row lists the ends of its edges. A component is a largest
//! set of nodes that all reach one another. Components come in the order in which each stands after those that it leads to, so
//! that a walk over them meets the end of an edge no later than its begin.
//!
//! One depth-first search finds them [Gabow, Path-based depth-first search for strong and biconnected components, 2000]. Its path
//! falls into groups, of which each is known to be strongly connected and leads to the next. An edge back to the path makes one
//! group of all those from its end on; a group that no edge leaves any more is a component. The search keeps its own stack, and
//! its time is linear in nodes and edges: an edge is put on the stack once, and each group that is joined to another had
//! been begun by a node of its own.
#![tactic(auto)]

mod component;
mod cycles;
mod path;
mod searching;

pub use component::{Component, Components};
pub use searching::strong_components;
