//! The escape analysis from the outside: batches of functions, walks over hand-made graphs, the sites on the heap and the
//! tags of worked programs, and reports.
//!
//! Worked programs are Go texts of a few lines, which stand beside them, as what flows in them. Sites are numbered by
//! their offset in the text, as in a report.
#![tactic(auto)]

#[cfg(test)]
mod batches;
#[cfg(test)]
mod building;
#[cfg(test)]
mod chains;
#[cfg(test)]
mod explaining;
#[cfg(test)]
mod reports;
#[cfg(test)]
mod walks;
#[cfg(test)]
mod worked;
