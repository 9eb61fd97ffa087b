//! What the lines of a report say of sites.

ghost use Rattle.std.specs.Prelude.{◌≡◌};
ghost use Rattle.report_checks.specs.Lines.{lines_of};
ghost use Rattle.report_checks.specs.Verdict.{is_on_heap, is_heap_line, on_heap, is_put_on_heap, outlives};

use crate::graph::{is_there, lies_outside, outlives_all};
use crate::line::Line;
use crate::lines::line_at;
use base::SiteId;
use deref_walk::{Loc, Location};
use value_flows::Placed;

/// Whether the variables of a site are on the heap.
#[tactic(auto, unfolding(crate::specs::Verdict::is_on_heap))]
fn is_on_heap(placed: Placed) -> bool
    ensures { result ≡ is_on_heap placed }
{
    match placed {
        Placed::Stack => false,
        Placed::Known(_) | Placed::Flow(_) => true,
    }
}

/// Whether a line puts a site on the heap.
#[tactic(auto, unfolding(crate::specs::Verdict::is_heap_line))]
fn is_heap_line(site: SiteId, line: Option<Line>) -> bool
    ensures { result ≡ is_heap_line site line }
{
    match line {
        Some(Line::Site(line)) => line.site.0 == site.0 && is_on_heap(line.placed),
        _ => false,
    }
}

/// Whether a report puts a site on the heap, by whichever of its lines.
fn on_heap(report: &[u8], site: SiteId) -> bool
    ensures { result ≡ on_heap (lines_of report.now) site }
{
    let mut at = 0;
    while at < report.len() {
        let read = line_at(report, at);
        if is_heap_line(site, read.line) {
            return true;
        }
        at = read.next;
    }
    false
}

/// Whether a report puts a location on the heap.
#[tactic(auto, unfolding(crate::specs::Verdict::is_put_on_heap))]
fn is_put_on_heap(report: &[u8], l: Loc) -> bool
    ensures { result ≡ is_put_on_heap (on_heap (lines_of report.now)) l }
{
    match l {
        Loc::Site(site) => on_heap(report, site),
        Loc::Heap | Loc::Result(_, _) | Loc::Carry(_) => false,
    }
}

/// Whether a location of a graph outlives a site, by what the report puts on the heap.
pub(crate) fn outlives(report: &[u8], locations: &[Location], root: Loc, site: SiteId) -> bool
    ensures { result ≡ outlives locations.now (on_heap (lines_of report.now)) root site }
{
    is_there(locations, root)
        && (outlives_all(locations, root)
            || lies_outside(locations, root, Loc::Site(site))
            || is_put_on_heap(report, root))
}
