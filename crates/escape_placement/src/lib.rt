//! Where the variables of a typed program live, by its escape analysis.
//!
//! `place` makes a placement of what the analysis found: the variables of a site live on the heap exactly where it has them
//! there, and in the frames of their calls otherwise. `analysed` does all of it: it takes the flows of a program, its functions
//! in the order of their calls, and gives the placement of the least heap set. The program must be in form, and its sites must
//! fit it: `specs/Sites` says how. `laws` says that its flows have then what the analysis asks of flows, and what is on the
//! heap.
#![tactic(auto)]

pub mod laws;
mod placing;
mod whole;

pub use placing::place;
pub use whole::analysed;
