//! The code of a program.
//!
//! `code_of` gives the tables of a program's code: each function's instructions, one function after the other, with the
//! moves of its arguments, its body and its return. It is a definition over abstract syntax, form by form, and knows
//! nothing of what the code does: that is the theorem of `simulated_code`, which stands on this crate, as do those that
//! emit just this code.
//!
//! The lemmas of `proofs/` need the definition alone: `Sizes` says how long the code of each form is, `Compiled` and
//! `Stands` where functions stand in the tables, `Sites` where sites stand in a frame, `Wide` how many words expressions
//! have, and `Rooms` that temps suffice for addresses after values.
#![tactic(auto)]
