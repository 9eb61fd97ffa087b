//! The faults of a line.

ghost use Rattle.std.specs.Prelude.{◌≡◌};
ghost use Rattle.report_checks.specs.Lines.{lines_of};
ghost use Rattle.report_checks.specs.Verdict.{on_heap, is_above, is_flow_after, is_tag_after, is_step, is_something, goes_on, is_rooted, site_fault, is_on_path, is_summed, tag_fault, step_fault, fault_of};

use crate::fault::ReportFault;
use crate::graph::{is_edge, is_there};
use crate::line::{Line, SiteLine, StepLine, TagFlow, TagLine};
use crate::sites::outlives;
use crate::state::{Next, PathEnd, State};
use base::SiteId;
use deref_walk::{Edge, Graph, Loc, Location, is_same, number_after};
use value_flows::Placed;

/// Whether a site comes after the last one.
#[tactic(auto, unfolding(crate::specs::Verdict::is_above))]
pub(crate) fn is_above(last: Option<SiteId>, site: SiteId) -> bool
    ensures { result ≡ is_above last site }
{
    match last {
        None => true,
        Some(last) => last.0 < site.0,
    }
}

/// Whether a flow of a parameter may stand behind another one of it.
#[tactic(auto, unfolding(crate::specs::Verdict::is_flow_after))]
fn is_flow_after(last: TagFlow, flow: TagFlow) -> bool
    ensures { result ≡ is_flow_after last flow }
{
    match (last, flow) {
        (TagFlow::Heap(_), TagFlow::Result(_, _)) => true,
        (TagFlow::Result(before, _), TagFlow::Result(number, _)) => before < number,
        _ => false,
    }
}

/// Whether a tag comes after another one.
#[tactic(auto, unfolding(crate::specs::Verdict::is_tag_after))]
fn is_tag_after(last: &TagLine, tag: &TagLine) -> bool
    ensures { result ≡ is_tag_after last.now tag.now }
{
    last.func.0 < tag.func.0
        || last.func.0 == tag.func.0
            && (last.param < tag.param
                || last.param == tag.param && is_flow_after(last.flow, tag.flow))
}

/// Whether a step stands behind a line.
fn is_step(next: Next) -> bool
    ensures { result ≡ is_step next }
{
    match next {
        Next::Step => true,
        Next::Nothing | Next::Other => false,
    }
}

/// Whether a line stands behind a line.
fn is_something(next: Next) -> bool
    ensures { result ≡ is_something next }
{
    match next {
        Next::Step | Next::Other => true,
        Next::Nothing => false,
    }
}

/// Whether a line stands behind a site's, where a path has to.
#[tactic(auto, unfolding(crate::specs::Verdict::goes_on))]
fn goes_on(placed: Placed, next: Next) -> bool
    ensures { result ≡ goes_on placed next }
{
    match placed {
        Placed::Stack | Placed::Known(_) => true,
        Placed::Flow(_) => is_something(next),
    }
}

/// Whether the root of a site, if it has one, outlives it.
#[tactic(auto, unfolding(crate::specs::Verdict::is_rooted))]
fn is_rooted(report: &[u8], locations: &[Location], line: &SiteLine) -> bool
    ensures { result ≡ is_rooted locations.now (on_heap (lines_of report.now)) line.now.placed line.now.site }
{
    match line.placed {
        Placed::Stack | Placed::Known(_) => true,
        Placed::Flow(root) => outlives(report, locations, root, line.site),
    }
}

/// The fault of a site's line.
#[tactic(auto, unfolding(crate::specs::Verdict::site_fault))]
fn site_fault(
    report: &[u8],
    locations: &[Location],
    last: Option<SiteId>,
    number: usize,
    line: &SiteLine,
    next: Next,
) -> Option<ReportFault>
    ensures { result ≡ site_fault locations.now (on_heap (lines_of report.now)) last number line.now next }
{
    let in_order = is_there(locations, Loc::Site(line.site))
        && is_above(last, line.site)
        && goes_on(line.placed, next);
    if !in_order {
        return Some(ReportFault::BadLine(number));
    }
    if !is_rooted(report, locations, line) {
        return Some(ReportFault::NotOutliving(number));
    }
    None
}

/// Whether a step goes on from where the path has come to, and ends at the site if it is the last one.
#[tactic(auto, unfolding(crate::specs::Verdict::is_on_path))]
fn is_on_path(site: SiteId, at: Loc, line: &StepLine, next: Next) -> bool
    ensures { result ≡ is_on_path site at line.now next }
{
    is_same(line.to, at) && (is_step(next) || is_same(line.from, Loc::Site(site)))
}

/// Whether the number of a step is the one after its edge, and -1 if it is the last one.
#[tactic(auto, unfolding(crate::specs::Verdict::is_summed))]
fn is_summed(sum: i32, line: &StepLine, next: Next) -> bool
    ensures { result ≡ is_summed sum line.now next }
{
    line.sum == number_after(sum, line.weight) && (is_step(next) || line.sum == -1)
}

/// The fault of a step on the path to a site.
#[tactic(auto, unfolding(crate::specs::Verdict::step_fault))]
fn step_fault(
    edges: &[Edge],
    path: &PathEnd,
    number: usize,
    line: &StepLine,
    next: Next,
) -> Option<ReportFault>
    ensures { result ≡ step_fault edges.now path.now number line.now next }
{
    if !is_on_path(path.site, path.at, line, next) {
        return Some(ReportFault::BadLine(number));
    }
    if !is_edge(edges, line.to, line.from, line.weight) {
        return Some(ReportFault::NoSuchEdge(number));
    }
    if !is_summed(path.sum, line, next) {
        return Some(ReportFault::WrongSum(number));
    }
    None
}

/// The fault of a tag behind another one.
#[tactic(auto, unfolding(crate::specs::Verdict::tag_fault))]
fn tag_fault(last: &TagLine, number: usize, line: &TagLine) -> Option<ReportFault>
    ensures { result ≡ tag_fault last.now number line.now }
{
    if is_tag_after(last, line) {
        None
    } else {
        Some(ReportFault::BadLine(number))
    }
}

/// The first fault of a line.
#[tactic(auto, unfolding(crate::specs::Verdict::fault_of))]
pub(crate) fn fault_of(
    report: &[u8],
    graph: &Graph,
    state: &State,
    number: usize,
    line: &Option<Line>,
    next: Next,
) -> Option<ReportFault>
    ensures { result ≡ fault_of graph.now.edges.items graph.now.locations.items (on_heap (lines_of report.now)) state.now number line.now next }
{
    match (state, line) {
        (State::Sites(last), Some(Line::Site(line))) => {
            site_fault(report, &graph.locations, *last, number, line, next)
        }
        (State::Sites(_), Some(Line::Tag(_))) => None,
        (State::Path(path), Some(Line::Step(line))) => {
            step_fault(&graph.edges, path, number, line, next)
        }
        (State::Tags(last), Some(Line::Tag(line))) => tag_fault(last, number, line),
        _ => Some(ReportFault::BadLine(number)),
    }
}
