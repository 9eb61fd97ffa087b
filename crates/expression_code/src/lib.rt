//! The code of expressions and places.
//!
//! What the code of a program is, is a definition of the crate `program_code`. The functions here give just the code of an expression, of a
//! call's arguments, of the operands of a place, of its address, and of its read and write, form by form, and the numbers of their
//! instructions, which jumps go by: a place that a jump goes to is known before the jump is emitted. A value has as many temps side by side
//! as its type has words. Slots are numbers of 16 bits: that those of a frame suffice is asked by each contract (`specs/Temps`), and how many
//! an expression wants is laid out before, by `frame_layout`. Which variables live on the heap and the addresses of the package variables are
//! told once for a program (`Homes`) and go from the frame of one function to that of the next, so that no place is reached by a walk over
//! others.
//!
//! `codegen`, the code of statements, functions and programs, stands on this.
#![tactic(auto)]

mod access;
mod jumps;
mod lengths;
mod literals;
mod moving;
mod parts;
mod reaching;
mod slices;
mod slots;
mod values;
mod variables;
mod widths;

pub use access::Access;
pub use jumps::{Goals, here, jump, pass_unless, put};
pub use lengths::{expr_len, last_len, move_len, number, place_len, plus, test_len, values_len};
pub use moving::{silent, zeros};
pub use reaching::{
    above_address, above_operands, address_len, emit_address, emit_fetch, emit_land, emit_write,
};
pub use slots::{Frame, Homes, global_addresses};
pub use values::{emit_expr, emit_operation, emit_place, emit_values, word};
pub use variables::{born, fetch_variable, fill_variable, land_variable, local_root};
pub use widths::{nth_words, value_words};
