//! The part of the parser that reads the bodies of functions, as a machine that takes one token at a time.
//!
//! A token inside an expression, a simple statement or a declaration goes to the machine of that first; where it ended before
//! the token, to the statement around it. The state of a body holds the blocks that are open in it, each with the
//! statements before it; a closing brace ends the innermost and gives it to what it belongs to, and an `if` that is an else
//! waits beside the ones before it until the last of them ends. Nothing is ever taken back, nothing is read ahead, and no
//! step calls itself. What a refused token leaves behind is let go by a call of `drop`, as in the machine of expressions.
#![tactic(auto)]

mod block;
mod blocks;
mod body;
mod header;
pub mod laws;
mod nodes;
mod outer;
mod state;
mod statement;

pub use body::{begin_body, step_body};
pub use state::{BodyProgress, BodyState};
