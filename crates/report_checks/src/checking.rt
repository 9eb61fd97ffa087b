//! The check of a report.

ghost use Rattle.std.specs.Prelude.{◌≡◌, None};
ghost use Rattle.report_checks.specs.Lines.{lines_of};
ghost use Rattle.report_checks.specs.declared.state.State.TheVariants.{Sites};
ghost use Rattle.report_checks.specs.Verdict.{on_heap, first_fault, verdict};

use crate::fault::ReportFault;
use crate::gaps::first_gap;
use crate::judging::fault_of;
use crate::lines::{line_at, next_at};
use crate::state::{State, state_after};
use base::SiteId;
use deref_walk::Graph;

/// The first fault of the lines of a report.
fn first_fault(report: &[u8], graph: &Graph) -> Option<ReportFault>
    ensures { result ≡ first_fault graph.now.edges.items graph.now.locations.items (on_heap (lines_of report.now)) (Sites None) 1 (lines_of report.now) }
{
    let mut state = State::Sites(None);
    let mut number = 1;
    let mut at = 0;
    while at < report.len() {
        let read = line_at(report, at);
        let next = next_at(report, read.next);
        if let Some(fault) = fault_of(report, graph, &state, number, &read.line, next) {
            return Some(fault);
        }
        state = state_after(state, read.line, next);
        number += 1;
        at = read.next;
    }
    None
}

/// Checks a report against a graph. The fault is the least one of the first line that has one; where no line has a fault, it is the
/// least site of the graph that has no line.
#[tactic(auto, unfolding(crate::specs::Verdict::verdict, crate::specs::Verdict::answer))]
pub fn check_report(report: &[u8], graph: &Graph) -> Result<(), ReportFault>
    ensures { result ≡ verdict graph.now.edges.items graph.now.locations.items (lines_of report.now) }
{
    if let Some(fault) = first_fault(report, graph) {
        return Err(fault);
    }
    if let Some(site) = first_gap(report, &graph.locations) {
        return Err(ReportFault::SiteMissing(site));
    }
    Ok(())
}
