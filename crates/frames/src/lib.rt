//! The frames of a program's functions, and which variables live on the heap: definitions, without code and proofs.
//!
//! The code of a program, the pass that lays out its frames and the theorem stand on these. The checker and the meaning do not, so a
//! change here proves neither anew.
#![tactic(auto)]
