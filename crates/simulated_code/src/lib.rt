//! The theorem: the code of a program does what the program means.
//!
//! `specs/Correct` states it. Both sides show bounded runs: the source, cut after n turns, and the machine, after k
//! instructions. `Simulated` says that what n turns show is shown by 16 * n instructions, and that what k instructions
//! show is shown by k turns; where they end, both end alike, with as many words of the heap taken. `laws::code_simulates`
//! carries it as its clause.
//!
//! How the proof goes, in `proofs/`:
//!
//! 1. *The state relation and the rules* are a crate of their own, `state_relation`: what a store stands for (`Good`), and
//!    how a trace is followed from a place of the code, whatever the stores are of which that holds (`At`). The meaning is
//!    in continuation form, so each lemma here has the shape: if what goes on is followed from the place after the form's
//!    code, then the form is followed from its own place.
//! 2. *Expressions.* `Numbers` and `Counting` tie operators on values to those on words. `Places`, `Settled` and `Reached`
//!    have places, whatever they begin at: their homes, their checks and addresses, and what is read, written and pointed to.
//!    `SlicesFollow` and `SliceValuesFollow` have slices. With `OperatorsFollow`, `EqualityFollows` and `ConditionsFollow`
//!    they come together in `EvaluationsFollow` (over `EvaluationEnds`), one induction over expressions, their operands and
//!    the elements of literals.
//! 3. *Statements.* `Leading` says where a statement may lead: past its end, to a loop's end or next round, to the call's
//!    return, to a panic. `SimpleFollow` (over `LeftsFollow`, `ReadyFollows`, `LinesFollow`) has the statements with none
//!    inside, `LoopsFollow`, `ArraysFollow` and `SliceRounds` (over `RoundsFollow`, `ArrayRounds`, `ElementsFollow`) those
//!    with others inside, by induction on the turns that are left; `Scopes` says which sites are in scope after them.
//!    `StatementsFollow` is the induction over all.
//! 4. *Calls and the program.* `Moves`, `EntriesFollow` and `ReturnsFollow` bring arguments and results across.
//!    `FunctionsFollow` closes the circle: calls by induction on the turns that are left. `PackageBirths` puts the package
//!    variables into the heap, and `Follows` has the whole program from the entry of `main`, under both bounds.
//!
//! The definition of the code, and what of it needs no meaning, is in `program_code`.
#![tactic(auto)]

pub mod laws;
