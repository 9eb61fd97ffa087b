//! The part of the parser that reads declarations of constants and variables, and simple statements, as machines that take
//! one token at a time.
//!
//! One machine reads a declaration, and one a simple statement or what stands before a `range`. A token inside an expression
//! goes to the machine of expressions first; where the expression ended before it, to what stands around that. Left sides
//! are read as expressions until a `:=` tells that they are names. Nothing is ever taken back, nothing is read ahead, and no
//! step calls itself. What a refused token leaves behind is let go by a call of `drop`, as in the machine of expressions.
#![tactic(auto)]

mod context;
mod declaration;
mod depth;
pub mod laws;
mod nodes;
mod simple;
mod simples;
mod spot;
mod value_specs;

pub use context::Context;
pub use declaration::{begin_specs, step_specs};
pub use nodes::with_value;
pub use simple::{begin_simple, step_simple};
pub use simples::{SimpleProgress, Simples};
pub use spot::Declares;
pub use value_specs::{SpecsProgress, ValueSpecs};
