//! What the stages make of real texts, from the outside: tests of their public calls, and nothing else.
//!
//! A test is proved like any function, and a crate with tests is proved a second time for them. So what tells of several stages stands
//! here, above all of them. The rows of a table are the lines of one text, each a Go text and what it has to come to, which is taken from
//! the Go specification and from `docs/LANGUAGE.md`. `trees` and `programs` write down what a stage answers.
#![tactic(auto)]

#[cfg(test)]
mod back_end;
#[cfg(test)]
mod checker;
#[cfg(test)]
mod compiling;
#[cfg(test)]
mod instructions;
#[cfg(test)]
mod package_words;
#[cfg(test)]
mod parser;
#[cfg(test)]
mod programs;
#[cfg(test)]
mod sites;
#[cfg(test)]
mod slice_steps;
#[cfg(test)]
mod trees;
