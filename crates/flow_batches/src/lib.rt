//! The functions of a program of flows in batches, callees first.
//!
//! The escape analysis goes from callees to callers: what flows into an argument of a call is known from the tags of the
//! function that is called, so these are found before its callers are looked at. Functions that reach one another by calls
//! have no such order among them. They stand in one batch, whose functions are looked at together, and a call within it is
//! followed into its body in place of its tags.
//!
//! So the batches are the strongly connected components of the graph whose edges are the calls, each after those that it
//! leads to. One depth-first search finds them all in this order. A call counts wherever it stands in the text of a body: as
//! a value, among the arguments of another call, or beside a value. Go's escape analysis takes its functions in such batches
//! too (the comments of cmd/compile/internal/escape).
//!
//! `is_formed` tests what the analysis asks of a program: that the sites, targets and results in a function are its own, and
//! that each function that is called is there. `is_standing` tests what the graph of the whole program asks beside: that a
//! function's sites stand where it says, and that what values go to is there.
#![tactic(auto)]

mod batches;
mod calls;
mod form;
mod standing;

pub use batches::batches_of;
pub use form::is_formed;
pub use standing::is_standing;
