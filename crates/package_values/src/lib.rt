//! The constants and the variables of a package: the values of the one and the types of the other, whatever their order in the text, and the
//! rules of their declarations.
//!
//! What is known of one rests on what is known of those that its type and its value name. So one pass is enough that comes to each after those
//! that it names: in the order of the strongly connected components of the graph of names. What is named in a circle gives nothing, since
//! nothing is given by what names something unknown; so no order among those is of matter. What is not known after the pass has a fault of
//! its own, or needs one that has, or needs itself: the last is where it lies on a cycle of the graph of needs.
//!
//! `laws` says what is known without looks: the least that the declarations give.
#![tactic(auto)]

mod faults;
mod items;
pub mod laws;
mod needs;
mod values;

pub use faults::items_fault;
pub use items::{Item, Role, add_decl};
pub use values::{constant_in, settle};
