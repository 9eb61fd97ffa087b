//! The types of a tree: the typed program that the rules of the language give it, or the first rule that fails in it.
//!
//! First the names of the package are noted, of its functions the names alone, and its constants get their values. By these the types of
//! the program are told: its structs, and all array types that the text states. With them the package block is declared, its functions with
//! their signatures; its constants get their values again, and its variables their types. Then its functions and variables are gone through
//! once, in the order of the text; the statements of a function are checked one after the other, each in the scope after those before it.
//!
//! Where no rule fails and yet the types in a function's head aren't known, or a struct is no type, these go in a circle, and are reported as
//! what needs itself.
//!
//! All rules are looked at, also after one that failed, but never one whose operands gave nothing;
//! of those that fail the one that stands first is reported. A form that is left out of the language fails at its first byte. `readInt` and
//! `exit`, which have no body, are no functions of the typed program.
//!
//! `specs/Statements` and `specs/Functions` say what a tree gives; `specs/StatementFaults` and `specs/FunctionFaults` which rules fail in it,
//! and where; heads and statements without statements in them have their own crates, as have expressions. Neither side is made from the
//! other, and the proofs show that exactly one of the two speaks.
#![tactic(auto)]

mod blocks;
mod checking;
mod functions;
mod heads;
mod members;
mod pass;
mod ranges;

pub use checking::check;
pub use type_faults::{Fault, FaultKind, TypeFault};
