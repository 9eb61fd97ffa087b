//! Laws of the tokens of a text, in the words of the Go specification ("Lexical elements").
//!
//! `scan_go` defines tokens as the code finds them. The laws here say what these definitions come to: the spans of tokens
//! are forms of the language, no longer span at their places is one, and between them stand only spaces and comments.
#![tactic(auto)]

mod laws;

pub use laws::{
    keywords_are_spelled, names_are_whole, numbers_are_literals, only_spaces_and_comments_between,
    operators_are_longest, strings_are_literals,
};
