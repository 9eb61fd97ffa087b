//! What a string literal in double quotes stands for (Go specification, "String literals" and "Rune literals").
//!
//! What stands between the quotes is cut into pieces from left to right: an escape, or a byte that stands for itself. An
//! octal or a hexadecimal escape of two digits stands for a byte, `\u` and `\U` for the UTF-8 of a character, and a
//! letter for the byte that it names. The value of the literal is what its pieces stand for, one after the other.
//!
//! A backslash that begins no escape stands for nothing, so that each list of bytes has a value. No literal among the
//! tokens of a text has such a backslash: `laws` says so, and that the escapes here are just those of the tokens.
#![tactic(auto)]

mod digits;
pub mod laws;
mod literal;
mod number_base;
mod piece;

pub use literal::string_value;
