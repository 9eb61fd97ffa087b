//! Programs of a known shape, one for each number, with which the compiler shows itself.
//!
//! The program of number n has n + 1 functions that call one another in a row, each with a variable whose address it passes on, and a
//! package variable that keeps every third of these addresses: so in every third function the variable has to live on the heap, and in
//! the others it may live on the stack.
#![tactic(auto)]

mod programs;

pub use programs::text;
