//! What flows in a program: its functions as the escape analysis reads them.
//!
//! The analysis asks of a text only which values may hold the addresses of which variables, and where each value goes. So
//! a program is here a list of sites, and of functions with acts: values that are given to targets, and variables that a
//! loop carries on. A value is a variable or its address, what lies at an address or inside of it, several values side by
//! side, or what a call gives; its numbers and truth values are left out. A target is a location and the dereferences on
//! the way there. What is evaluated beside a value, such as an index, stays with it, since it may call functions, and
//! these have targets of their own wherever the value goes.
//!
//! `specs/Syntax` is how contracts see it, without vectors and boxes, and `specs/View` how the data is seen so. The tags
//! of a function say how its parameters flow to the heap and to its results (the comments of
//! cmd/compile/internal/escape).
#![tactic(auto)]

mod placed;
mod program;
mod tags;
mod value;

pub use placed::{Known, Placed};
pub use program::{Act, Func, FuncResult, Program, Site};
pub use tags::{ParamTags, ResultTag, Tags};
pub use value::{Target, Value, Values};
