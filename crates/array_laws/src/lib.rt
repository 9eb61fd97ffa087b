//! Laws of the array types that a text states.
//!
//! All of them enter the table of a scope's types in one pass, in the order of the text. A rule that meets an array type later
//! asks that table for it, and refuses it as one left out of the profile where the table lacks it. These laws say that this never
//! happens to an array type that stands in the text: where its length and the type of its elements are known and its size is
//! right, the table has it. So the rule refuses none but for its length, its elements or its size; also within a function, whose
//! own names may hide those of the package.
//!
//! They ask of the scope that its table is formed and has each type with a name (`specs/Laws.IsReady`), and of a scope in which a
//! rule meets the type that it has the same table, and no types and constants but those of the same names (`Within`).
//!
//! `specs/Occurs` says what it is to stand in a text, by the same walk as that of the pass. The proofs rest on two facts: the
//! length of an array is a constant, which doesn't depend on the table, and what the table has keeps its number and its words as
//! more enters.
#![tactic(auto)]

pub mod laws;
