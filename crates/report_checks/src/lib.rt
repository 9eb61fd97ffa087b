//! Checks a report of placements against an escape graph, without the program that it is of, and without taking memory.
//!
//! A report says for each site of the graph whether its variables are in the stack or on the heap, and why. Where a flow is the
//! reason, it names the location at which an address of the site arrives, and the path by which it does, edge by edge, with the
//! number of dereferences after each. So whoever has the graph can see that each reason holds: the edges are there, the numbers add
//! up to -1, which is an address, and the location outlives the site. `docs/CONTRACTS.md` has the form of the lines.
//!
//! A report is read line by line, and each line is judged with the next one in view, since a path ends where no step follows. What
//! the lines are is defined by their texts (`specs/Texts`), whether they pass by a fold over them (`specs/Verdict`), and what it
//! means that they do by a relation on whole reports (`specs/Report`), to which the law `sound` leads.
#![tactic(auto)]

mod checking;
mod cuts;
mod fault;
mod gaps;
mod graph;
mod judging;
pub mod laws;
mod line;
mod lines;
mod numbers;
mod reading;
mod sites;
mod state;

pub use checking::check_report;
pub use fault::ReportFault;
pub use line::{Line, SiteLine, StepLine, TagFlow, TagLine};
pub use reading::read_line;
