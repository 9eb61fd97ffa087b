//! Writes the report of an escape analysis: where the variables of each site live and why, and how each parameter flows on.
//!
//! A report is read by people and by `report_checks`, which defines the text of a line and checks a report against the graph of
//! the program. So the contract here goes by lines: `specs/Lines` says which ones a report has, in their order, and its text is
//! theirs, with a newline after each. First come the sites, in ascending order, each with its name and its place in the text;
//! one that a flow put on the heap has the steps of its path after it. Then come the parameters that have names, in the order
//! of the text, with their tags: the heap first, then the results, or `none`.
//!
//! `laws` ties this to `report_checks`: the lines of a text are read back as those that were written, and the report of a
//! solution passes the check on a graph that has its sites, its paths, and locations that outlive what they should. That a
//! solution has such tags and locations is said by two further laws. `explained` does all of it: it analyses a program and
//! gives a report that passes on the program's own graph. `is_ready` tests what it asks of the program and the names.
#![tactic(auto)]

mod explaining;
pub mod laws;
mod lines;
mod names;
mod parts;
mod ready;
mod reporting;
mod sites;
mod tags;

pub use explaining::explained;
pub use names::SiteName;
pub use ready::is_ready;
pub use reporting::report;
