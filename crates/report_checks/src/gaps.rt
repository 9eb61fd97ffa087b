//! The least site of a graph that has no line in a report.
//!
//! Where no line has a fault, the lines of sites ascend. So it is the least one in the first gap between them that has one, and each
//! line is read once.

ghost use Rattle.std.specs.Prelude.{◌≡◌, None};
ghost use Rattle.report_checks.specs.Lines.{lines_of};
ghost use Rattle.report_checks.specs.Verdict.{is_above, lesser, site_if, least_site};
ghost use Rattle.report_checks.specs.Gaps.{is_below, is_between, site_of, or_site, gap_before, first_gap};

use crate::judging::is_above;
use crate::line::Line;
use crate::lines::line_at;
use base::SiteId;
use deref_walk::{Loc, Location};

/// Whether a site comes before another one, if there is one.
#[tactic(auto, unfolding(crate::specs::Gaps::is_below))]
fn is_below(site: SiteId, end: Option<SiteId>) -> bool
    ensures { result ≡ is_below site end }
{
    match end {
        None => true,
        Some(end) => site.0 < end.0,
    }
}

/// Whether a site comes after the last one and before the next one.
#[tactic(auto, unfolding(crate::specs::Gaps::is_between))]
fn is_between(last: Option<SiteId>, end: Option<SiteId>, site: SiteId) -> bool
    ensures { result ≡ is_between last end site }
{
    is_above(last, site) && is_below(site, end)
}

/// The lesser site of two.
#[tactic(auto, unfolding(crate::specs::Verdict::lesser))]
fn lesser(a: Option<SiteId>, b: Option<SiteId>) -> Option<SiteId>
    ensures { result ≡ lesser a b }
{
    match (a, b) {
        (None, _) => b,
        (Some(_), None) => a,
        (Some(l), Some(m)) => { if m.0 < l.0 { b } else { a } }
    }
}

/// The site of a location, if it lies between two.
#[tactic(auto, unfolding(crate::specs::Verdict::site_if))]
fn between_at(last: Option<SiteId>, end: Option<SiteId>, location: &Location) -> Option<SiteId>
    ensures { result ≡ site_if (is_between last end) location.now.loc }
{
    match location.loc {
        Loc::Site(site) => {
            if is_between(last, end, site) {
                Some(site)
            } else {
                None
            }
        }
        Loc::Heap | Loc::Result(_, _) | Loc::Carry(_) => None,
    }
}

/// The least site of a graph between two.
fn least_between(
    locations: &[Location],
    last: Option<SiteId>,
    end: Option<SiteId>,
) -> Option<SiteId>
    ensures { result ≡ least_site (is_between last end) locations.now }
{
    let mut least = None;
    let mut left = locations.len();
    while left > 0 {
        left -= 1;
        least = lesser(between_at(last, end, &locations[left]), least);
    }
    least
}

/// The site whose line a line is.
#[tactic(auto, unfolding(crate::specs::Gaps::site_of))]
fn site_of(line: Option<Line>) -> Option<SiteId>
    ensures { result ≡ site_of line }
{
    match line {
        Some(Line::Site(line)) => Some(line.site),
        _ => None,
    }
}

/// The least site of a graph between the last one and the next one, if there is a next one.
#[tactic(auto, unfolding(crate::specs::Gaps::gap_before))]
fn gap_before(locations: &[Location], last: Option<SiteId>, next: Option<SiteId>) -> Option<SiteId>
    ensures { result ≡ gap_before locations.now last next }
{
    match next {
        None => None,
        Some(_) => least_between(locations, last, next),
    }
}

/// The first site, or the second one where there is none.
fn or_site(a: Option<SiteId>, b: Option<SiteId>) -> Option<SiteId>
    ensures { result ≡ or_site a b }
{
    match a {
        None => b,
        Some(_) => a,
    }
}

/// The least site of a graph in the first gap that has one.
pub(crate) fn first_gap(report: &[u8], locations: &[Location]) -> Option<SiteId>
    ensures { result ≡ first_gap locations.now None (lines_of report.now) }
{
    let mut last = None;
    let mut at = 0;
    while at < report.len() {
        let read = line_at(report, at);
        let site = site_of(read.line);
        if let Some(missing) = gap_before(locations, last, site) {
            return Some(missing);
        }
        last = or_site(site, last);
        at = read.next;
    }
    least_between(locations, last, None)
}
