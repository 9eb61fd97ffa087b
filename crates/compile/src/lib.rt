//! The compiler: from the bytes of a text to a code that does what the text means.
//!
//! The stages run one after another, each over what the one before answers: tokens, tree, typed program, frame, code. Each
//! answers exactly where its definition has a result, and else the fault that its definition names; so the compiler
//! accepts a text exactly where all definitions relate it to a program, and else answers the fault of the first stage that
//! refuses it.
#![tactic(auto)]

mod compiling;
mod fault;

pub use compiling::{Compiled, compile};
pub use fault::CompileFault;
