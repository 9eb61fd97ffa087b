//! Statements without statements in them: what the rules of the language give each, or the first rule that fails in it.
//!
//! A statement may declare names, which stand for their variables to the end of the innermost block; values are worked out before. All
//! rules are looked at, also after one that failed, but never one whose operands gave nothing. The strings of statements are numbered in
//! the order of the text. A call of `exit` is a statement of its own, and one of `readInt` gives the two values that are read.
//!
//! `specs/SimpleStatements` says what a statement gives in a scope, and what the scope after it is; `specs/SimpleFaults` which rules fail in
//! it, and where. Neither side is made from the other.
#![tactic(auto)]

mod declaring;
mod operands;
mod sides;
mod statements;
mod updating;
mod variables;

pub use declaring::names_pos;
pub use sides::{Lefts, check_lefts};
pub use statements::{Line, Lines, Returns, check_return, check_simple, left_out};
pub use variables::check_var;
