//! Which variables of a function a pointer or a slice may lead to by the address of a variable that has a name.
//!
//! A variable whose address is taken may outlive its call, so the placement wants to know of each site whether that happens to its
//! variables: by `&` of a place that begins at one of them, or by a slicing of an array there (Go specification, "Address operators",
//! "Slice expressions"; `addrtaken` in cmd/compile). What a pointer leads to begins at no variable: only names count. `specs/Takes` lists the sites
//! of such places in a body, and says which sites are marked then.
#![tactic(auto)]

mod addresses;
mod marking;

pub use marking::mark;
