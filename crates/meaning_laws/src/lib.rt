//! Laws of the meaning. Their proofs are instances of one induction over the syntax, for any family of relations of two traces
//! (`proofs/Family`, `proofs/Holding`). What pointers and slices name is a law of its own (`specs/Pointers`), as it needs to know of the
//! values that are given: so it has an induction of the same form, over states and values (`proofs/Named`, `proofs/Pointing`). A third
//! one goes by the types of a well typed program (`specs/Rules`), and gives type safety (`specs/Typing`, `proofs/Preserving`).
#![tactic(auto)]

pub mod laws;
