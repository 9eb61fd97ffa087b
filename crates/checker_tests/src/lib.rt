//! What the rules of types answer where a package has structs and arrays, from the outside: tests of public calls, and nothing else.
//!
//! The scope of the expressions is made by hand (`declarations`). The rows of a table are the lines of one text, each an expression of Go
//! and what it has to come to, which is taken from the Go specification and from `docs/LANGUAGE.md`.
#![tactic(auto)]

#[cfg(test)]
mod answers;
#[cfg(test)]
mod array_types;
#[cfg(test)]
mod declarations;
#[cfg(test)]
mod declared_types;
#[cfg(test)]
mod literals;
#[cfg(test)]
mod parts;
#[cfg(test)]
mod structs;
