//! The relation between what the source means and what the machine holds.
//!
//! A run of the source is seen as a `View`, a fold of its trace: which calls run, and where each variable has its home. A
//! home is a place that never moves: so many words below the stack's upper end, or so many words from the heap's first one
//! on (`specs/Views`). `Good` says that a store of the machine stands for the world of the source, and has four parts
//! (`specs/Relation`): what is known of homes whatever the store is (`Homed`), the words of variables (`Cells`), the other
//! words of frames, which are what temps keep, return places and links (`Framed`), and lengths (`Sized`). Only the last
//! three name a store, so a change of other words, or of the stack's place, leaves the first as it is.
//!
//! Words are told by their types: a value is its words side by side, each of which has a type of one word (`specs/Leaves`),
//! and stands for a content of that type. A temp keeps such a word, or the address of a part of a variable, which may still
//! lack some words, or nothing that is needed. A pointer's word is the address of what it leads to, in the home of the
//! variable, if that has one. Which variables may be led to (`Leading`) is a parameter of the relation. Of a program with its
//! code (`Built`) it is those that live on the heap.
//!
//! In `proofs/`, `Changes` says what temps keep, `Births`, `Crossing` and `Boxes` how births, writes, calls and returns go
//! on standing for the world. `Rules` has a place of the code that a trace has come to (`At`): it speaks of all stores of which
//! something holds, so that the lemma of a form of the source names no store; the next store of a step is a function of the
//! one before. `Touches` says that a touch through an address comes to the home of the variable that it leads to, and
//! `Equal` that words are equal exactly where values are, if what is led to has homes. `Addresses` makes addresses of parts,
//! elements and slices of others. `Slices` has what a slice's header stands for, and `Stretches` elements side by side; on
//! these stand the instructions on slices: `SliceSteps` bear no variable, `SliceMoves` copy, `SliceBirths` and
//! `SliceLiterals` make arrays, `SliceAdds` and `SliceAppends` add elements.
#![tactic(auto)]

pub mod laws;
