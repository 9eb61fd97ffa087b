//! Runs of a program's code.
//!
//! `run` puts the package variables into the heap, unless they pass its limit, refuses a first frame that passes the
//! limit of the stack, and stops after a number of steps. Its contract composes what the machine promises of a run with
//! the theorem of `simulated_code`, so it says what a run means for the program: an ending that is answered is the
//! program's own, with all its output, and where the steps were used up, the program has not ended in a sixteenth of
//! them as turns, and the output lies between what it shows in that number of turns and in as many turns as there were
//! steps. The items of the input aren't known before they are read, so the contract names the answers that came, in
//! order, and is told of all items that begin with them: the program asks for just this number of items, and where a
//! read failed, the program asks for the next one after just the output that was written. Where a write failed, the
//! program prints a piece after it asked for just these items, and the sink took all that is printed before and a part of
//! the piece.
//!
//! The code of a program meets no wild word: that follows from the theorem, so `run` has no answer for one.
#![tactic(auto)]

mod beginning;
mod running;

pub use running::{RunFault, run};
