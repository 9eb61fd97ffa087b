//! What a typed program does.
//!
//! The meaning is written in continuation form: `Go` is what goes on from a state of the world, a trace, and `Then A`
//! is what goes on with something. The evaluator of an expression takes what follows the expression and gives what
//! goes on where it stands. Only a few primitives (`turn`, `note`, `see`, `read_part`, `bear` and the like) name the
//! world, which is the variables by birth and how many items of the input were read; every form of syntax is one line above them. What
//! a statement can lead to besides going on is one record, `Ways`: past its loop, to the next round, past the call,
//! and where a panic leads. The values that running evaluations hold go along in it.
//!
//! The trace marks each turn where it is taken. How many turns there are is no matter of the evaluator: a run with a
//! budget of n turns is the trace cut before turn n + 1, and with a greater budget a run only goes further. Calls and
//! loops take fuel, n + 1 for n turns, since each call inside another and each round has taken a turn. Marks in the trace, which show nothing,
//! are the states in which evaluations begin and end, for the invariants that speak of all of them.
//!
//! The definitions stand in `specs/`: the trace and the journal's entries, the store, the operators, the evaluator,
//! the journal of a bounded run, and what a run shows to those outside, both alone and under limits. What holds of every run
//! are the laws of `meaning_laws`.
#![tactic(auto)]
