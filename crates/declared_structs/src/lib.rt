//! The structs that a program declares: the types of their fields, and which rules fail in their declarations.
//!
//! A type has its words by the words of all structs, and these by the types of their fields, so each struct is taken first as
//! its text has it: for each field, the lengths of the arrays and the int, bool or struct that they begin from. `struct_sizes`
//! then says which structs are types, and how many words each has. Rules of names and of the types of fields are those of any
//! type, looked at in a scope whose table has the types; a struct that holds itself, or has no such size, is told at its name.
//! Where nothing else has to be mended before a struct, an array of its fields that has no such size is told at its bracket
//! also if its elements are of a struct that is refused.
//!
//! Where no rule fails and yet a struct is no type in the table, declarations go in a circle: `structs_open` tells the first such
//! struct at its name, as one that needs itself.
#![tactic(auto)]

mod forms;
mod open_structs;
mod program;
mod rules;
mod sizes;
mod type_specs;

pub use open_structs::structs_open;
pub use program::{ProgramTypes, program_types};
pub use rules::declarations_fault;
