//! The lines of a report of placements.

use base::{FuncId, SiteId};
use deref_walk::Loc;
use value_flows::Placed;

/// The line of a site: its number, the line and column of its place in the text, and where its variables are. Its name lies in the
/// report alone.
#[derive(Clone, Copy, Debug, PartialEq, Eq)]
pub struct SiteLine {
    pub site: SiteId,
    pub line: u32,
    pub col: u32,
    pub placed: Placed,
}

/// A step of a path: an edge from one location to the location before it, and the number at its end.
#[derive(Clone, Copy, Debug, PartialEq, Eq)]
pub struct StepLine {
    pub to: Loc,
    pub from: Loc,
    pub weight: i32,
    pub sum: i32,
}

/// Where the value of a parameter flows to, and by how many dereferences.
#[derive(Clone, Copy, Debug, PartialEq, Eq)]
pub enum TagFlow {
    Heap(u32),
    /// To the result with this number.
    Result(u32, u32),
    Nowhere,
}

/// A tag of a parameter: the function, the parameter's number, and a flow from it.
#[derive(Clone, Copy, Debug, PartialEq, Eq)]
pub struct TagLine {
    pub func: FuncId,
    pub param: u32,
    pub flow: TagFlow,
}

/// A line of a report.
#[derive(Clone, Copy, Debug, PartialEq, Eq)]
pub enum Line {
    Site(SiteLine),
    Step(StepLine),
    Tag(TagLine),
}
