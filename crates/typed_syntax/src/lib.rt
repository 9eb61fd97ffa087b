//! Typed programs as abstract syntax: types, values and programs. There is no code here but the operators, which the data of
//! `typed` shares, and no proof: the meaning of a program, its code and the theorem that ties them are of programs as they stand
//! here, without vectors, boxes and tables, so a change of the data or of its table of types proves none of them anew.
//!
//! A type is whole numbers, truth values, a struct of types or an array of a type, and stands whole, since none of these holds itself: a
//! program's table of types, in which each names those of its parts by their numbers, gives such types where parts stand before what
//! they are parts of. Types of pointers and of slices name what they lead to by its number there, and so end a type: what goes in
//! circles goes through them.
//! A value is a tree: a number, a truth value, or a composite of values, the fields of a struct or the elements of an array. A
//! struct and an array differ in their types alone, which say how many parts a value has, the type of each, and how many words
//! stand before it. So each fact of both is one recursion over parts. A pointer names a variable, by its number in the order of births,
//! and a path in it; a slice besides names elements of the array that is there. Neither has parts of its own.
//!
//! A path is a list of numbers of fields and indices. `at_path` reads the part at a path, `with_path` replaces it, and both are
//! functions of all values and paths: what is not there reads as 0, and nothing is put in its place. `Leads t path s` says that
//! the path leads from values of type t to parts of type s.
//!
//! What one machine word of a value holds is a `Content`, and a value's `contents` are those of its words in order. Which word
//! holds a content is said beside it, by `word_of`, or by any relation (`Hold`): so what is proved of parts and slices is proved
//! of contents, and then of words, also where the words that hold something change while the value stays. What holds of all these are
//! the laws of `value_laws`, in terms of `slice` and `with_slice`, which read and replace a number of words from an index on.
//!
//! `specs/Syntax` is the syntax of programs, and `specs/Form` says which programs are in form. What their frames hold, and which
//! variables live on the heap, is said in `frames`, on which no stage before the code stands.
#![tactic(auto)]

mod operators;

pub use operators::{BinOp, UnOp};
