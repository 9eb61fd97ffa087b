//! The code of typed programs.
//!
//! What the code of a program is, is a definition of the crate `program_code`, `code_of`, and that it does what the
//! program means is the theorem of `simulated_code`. `emit` gives just this code, so whatever is said of the definition
//! holds of what is emitted, and nothing here waits for the theorem. Each function is put after the others, with the moves of its arguments, its body and its return;
//! the functions here follow the definition form by form, over the code of expressions and places, which is that of
//! `expression_code`. Slots are numbers of 16 bits: that the frame which `frame_layout` has laid out suffices for all that a
//! body holds is proved of each program in form.
//!
//! A jump goes to a place that is known before the jump is emitted: the lengths of what it passes over are counted
//! first, so nothing is patched afterwards, and the statements of a loop are emitted with the places where `break` and
//! `continue` go on.
#![tactic(auto)]

mod arrays;
mod assigning;
mod births;
mod emitting;
mod looping;
mod program;
mod returning;
mod shown;
mod slices;
mod stmt_lengths;

pub use program::emit;
