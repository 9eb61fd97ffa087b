//! Which structs of a program are types, and how many machine words each has.
//!
//! A struct holds another where a field has it in place, alone or as the element of an array: its words are in those of the
//! struct. A struct mentions each that stands in a field's type, also behind pointers and slices, whose words are the same for any
//! target. The words of a struct are the sum over its fields, so one that holds itself has none. A struct is at fault where it holds
//! itself, has a field that is no type, or has too few or too many words; and a struct that mentions one that is refused is refused,
//! too.
//!
//! Both are graphs. The components of the one of holding come in an order in which the words of what a struct holds are known when
//! it is its turn. The components of the other come in an order in which a struct is refused where its component has a struct at
//! fault or mentions one that is refused already. A size is told only where nothing else is to be mended first, so not in a component
//! that mentions a refused struct or has another fault. A component that mentions no refused struct and has one at fault is a source:
//! of one of its structs something is told, or a field fails. There an array that fails is to be told even if its element is refused,
//! as in `type A struct { b [70000]B }` and `type B struct { a *A }`, of which neither has another fault.
//!
//! Numbers of words are kept up to one more than the limit. What is above it stays above it by a sum, and by a product with anything
//! but 0, so no sum or product overflows, and each that is within the limit is exact.
#![tactic(auto)]

mod faults;
mod filling;
mod forms;
mod graphs;
mod judging;
pub mod laws;
mod settling;
mod typing;
mod verdicts;
mod words;

pub use faults::level_fault;
pub use forms::{Base, DeclaredStruct, Prefix, PrefixedType};
pub use settling::settle;
pub use typing::type_words;
pub use verdicts::{LevelFault, Refusal, SizeFault, StructFault, TypeRefusal, Verdict, Verdicts};
