//! The part of the parser that reads one expression or type, as a machine that takes one token at a time.
//!
//! Its state holds the stack of what is open: prefixes, parentheses, operators that wait for their right operand, calls with
//! their arguments so far, indexes and bounds, literals with their elements so far, and the prefixes of a type. What stands
//! after an operand binds in the order of Go's precedences: a call, a `.`, an index or a slicing takes the operand just
//! before it; a binary operator first closes what binds at least as tightly, and then waits itself; any other token closes
//! all up to the innermost bracket, and if none is open, the expression ended before it. What began as a type goes on as an
//! operand once braces follow it, and stays a type where it is an argument. Whether a name may begin a literal is counted
//! with the stack: in the header of a statement only parentheses allow it. Nothing is ever taken back, nothing is read
//! ahead, and no step calls itself.
//!
//! What a refused token leaves behind is let go by a call of `drop`: let go in place, each form that it may have would stand in
//! the code, and in the proof, of every step that refuses.
//!
//! The state knows where the whole expression stands: how many brackets are open around it, whether a literal in it may
//! begin with a name, and whether it is a type. The parser above gives it one token after another, and takes it back with
//! the token that ended it.
#![tactic(auto)]

mod call;
mod closing;
mod closing_type;
mod container;
mod elements;
mod fault;
mod frame;
mod index;
pub mod laws;
mod machine;
mod open;
mod operand;
mod operator;
mod part;
mod parts;
mod reading;
mod stack;
mod terminal;
mod types;

pub use fault::StepFault;
pub use machine::{expression, step, type_wanted};
pub use open::{Open, Progress};
pub use part::Part;
pub use terminal::{Terminal, terminal_of};
