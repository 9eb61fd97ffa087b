//! The tokens of a Go text.
//!
//! The lexical grammar is that of the Go specification ("Lexical elements"), with all keywords, operators, names,
//! comments and inserted semicolons. Numbers are integer literals below 2^127, strings stand in double quotes, and a
//! text that has a number of another form, a rune or a raw string is refused.
//!
//! A text is cut in two passes. The first goes over its bytes from left to right. At each place stands a piece: a gap
//! (a space or a comment), a token, or a fault, and which one it is, each class of pieces says by itself from the
//! bytes that are left. So a text is a sequence of pieces, and the first fault is where they stop. The second pass
//! goes over the tokens. It counts lines and columns, and puts a semicolon after a token that can end a statement
//! where no token follows on its line: a gap breaks a line exactly where it has a newline in it, within a comment or
//! not. The semicolon stands at that newline, or at the end of the text.
#![tactic(auto)]

mod character;
mod comment;
mod fault;
mod lexeme;
mod lexing;
mod lines;
mod number;
mod number_base;
mod operator;
mod piece;
mod scanning;
mod spelling;
mod string;
mod token;
mod tokens;
mod word;

pub use fault::{FaultKind, ScanFault};
pub use scanning::{longest_operator, one_answer, scan};
pub use spelling::{KEYWORDS, Keyword, OPERATORS, Op};
pub use token::{Kind, Token};
pub use tokens::Tokens;
