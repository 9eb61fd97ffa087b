//! Bounded runs of two sides, and when the one follows the other.
//!
//! A run of the source is a list of `Lines`: what it shows, with the turns marked in it where they are taken. Cut
//! before turn n + 1 it becomes an `Outcome`: the events up to there, and the ending if the run has come to it. A
//! machine is a step that goes on in a state or stops, with events; `exec step k` is the outcome of at most k steps.
//! So both sides are outcomes, and one order compares them: `Below` says that the first outcome is the second, or that
//! it stops earlier and left nothing out before.
//!
//! `Follows lo hi b t m` says of the lines t and the bounded run m of a machine that the machine keeps pace: what n
//! turns show is shown by 16 * n + lo steps, and what n + hi steps show is shown by n turns, for all n below the bound
//! b. Here lo is what the machine still owes for a turn that has been taken, and hi the steps that it is ahead within
//! it. The lemmas of `proofs/Rules.antt` are the rules by which a simulation is put together: one for a turn, one for
//! a step that shows nothing, one for a step that shows an event, one for the end. Each takes what follows as a premise
//! and speaks of the front, so that a proof has the shape of an evaluator in continuation form. The bound is for loops,
//! where the premise is an induction hypothesis at fewer turns; where nothing repeats it is any number.
//!
//! `many step k` is what k steps come to as one answer, with all their events. It is what a loop in a program
//! promises, and `shows` says that `exec` shows just that.
#![tactic(auto)]
