//! The typed program as plain data, and the types of a program, each once, by numbers.
//!
//! A type is a small value: a basic type, a declared struct by its number, an array, by its length and the number of its elements' type,
//! a pointer, by the number of the type that it leads to, or a slice, by that of its elements' type. Such types stand in the table, each
//! once, so that two types are identical exactly where these values are equal, and exactly where their numbers are (Go specification,
//! "Type identity").
//!
//! Structs may hold each other in any order of the text, so a table is made with a number of structs, none of which is told yet. A struct is
//! told once the types of its fields have words; then it has as many as these together. Where the words of all structs are known, they are
//! told at once instead, so that the numbers of types depend on the text alone. The words of each type are kept beside it: structs nest,
//! and to count the words of a type part by part could take exponential time. No type of more than 65,535 words, or of none, stands in the
//! table.
//!
//! A pointer has one word and a slice three, whatever they lead to, which may be a struct that is not told: so a struct can lead to itself.
//! It gets its number first, then the pointer to it, and then it is told with fields of that type.
//!
//! `specs/Tables` says what a contract sees of a table: the list of its types, and the fields of the structs that are told.
//! `specs/Trees` gives each type its tree (`value_trees`), from which its words and the offsets of its parts follow: a
//! total function of the table, with `tree_by` as its equation. `width`, `part` and `part_offset` answer by the tree of the type that
//! has a number; where there is none, by that of whole numbers. `specs/Formed` says what holds of each table, and what is refused.
//!
//! `specs/View` is how the data is seen as a program of `typed_syntax`.
#![tactic(auto)]

mod expr;
mod fault;
mod parts;
mod program;
mod sizes;
mod stmt;
mod table;
mod told;

pub use expr::{Bound, Const, Element, Expr, Place, Step, Values};
pub use fault::TableFault;
pub use parts::nil_words;
pub use program::{
    BOOL, Func, HeapReason, INT, NameRange, PackageVariable, Program, Site, SiteKind,
};
pub use stmt::{Left, Piece, Stmt};
pub use table::{ProgramTypes, TypeTable};
pub use typed_syntax::{BinOp, UnOp};
