//! Laws of types, values, paths and machine words.
//!
//! `laws` has a function for each law, whose clause it is. A law with a way to hold contents speaks of ways that a test tells; the
//! lemmas of `proofs/` under these (`held_parts`, `zero_held`, `compared`) take any relation. The heart of the proofs is
//! `split_at`: the words of a value are some, those of the part, and some, and with another part the first and the last are the
//! same.
#![tactic(auto)]

pub mod laws;
