//! The table of the types of a program, from its structs as they are declared.
//!
//! Structs hold each other in any order of the text. If each were told as soon as the types of its fields have words, types would
//! get their numbers in the order in which structs hold each other. But the words of structs are known already, by
//! `struct_sizes`. So all types enter first, in the order of the text, while no struct is told, and then all structs are told at
//! once, with their words.
//!
//! No array is refused as it enters: with the words of its elements it's within the limits, so it is also if they count as one
//! each. And since no struct that isn't refused holds itself, there is an order in which each comes after those that it holds. So
//! the table in which all are told at once could be reached one by one, and has all that holds of such a table.
//!
//! A struct that is refused has no types here and is not told.
#![tactic(auto)]

mod entering;
pub mod laws;
mod program;

pub use program::type_table;
