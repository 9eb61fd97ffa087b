//! What the names of a program stand for: nested blocks of names, the names that the language declares, and those that are types.
//!
//! A declaration is entered under its name into the innermost block, and a name that is used is looked up from there
//! outwards, so that the innermost block that has it decides; what no block declares is looked up among the names of the language. Blocks
//! close in the order opposite to that in which they were opened. Each keeps its names in the order in which they were declared, with a
//! number of the caller's for each.
//!
//! A scope is the open blocks, what their numbers stand for, and what is known of the variables, functions, constants, strings, types and
//! structs of a program. It has a site for each variable of a type, and knows where new ones stand: in which function, in how many of its
//! loops, and what a declaration makes there.
#![tactic(auto)]

mod blocks;
mod fields;
mod naming;
mod scope;
mod settings;
mod type_names;
mod universe;

pub use blocks::Blocks;
pub use fields::{Part, named_field, part_count, part_of};
pub use naming::{between, name_in, spelled};
pub use scope::{
    Declared, External, GlobalId, Known, Measure, Scope, Signature, ValueId, beginning, type_id,
};
pub use settings::Setting;
pub use type_names::{array_type, declared_type, is_known, type_fault, type_in, type_name_fault};
pub use universe::{is_blank, is_main};
