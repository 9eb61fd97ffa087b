//! What is expected of the next line of a report.

ghost use Rattle.std.specs.Prelude.{◌≡◌};
ghost use Rattle.report_checks.specs.Verdict.{after_site, after_step, state_after};

use crate::line::{Line, StepLine, TagLine};
use base::SiteId;
use deref_walk::Loc;
use value_flows::Placed;

/// What stands behind a line.
#[derive(Clone, Copy, Debug, PartialEq, Eq)]
pub enum Next {
    Nothing,
    Step,
    /// A line that is no step.
    Other,
}

/// How far the path to a site has come: to this location, with this number.
#[derive(Clone, Copy, Debug, PartialEq, Eq)]
pub struct PathEnd {
    pub site: SiteId,
    pub at: Loc,
    pub sum: i32,
}

/// How far a report has come.
#[derive(Clone, Copy, Debug, PartialEq, Eq)]
pub enum State {
    /// Among the sites; the last one, if there was one.
    Sites(Option<SiteId>),
    /// On the path to a site.
    Path(PathEnd),
    /// Among the tags; the last one.
    Tags(TagLine),
}

/// What is expected behind the line of a site.
#[tactic(auto, unfolding(crate::specs::Verdict::after_site))]
fn after_site(site: SiteId, placed: Placed) -> State
    ensures { result ≡ after_site site placed }
{
    match placed {
        Placed::Stack | Placed::Known(_) => State::Sites(Some(site)),
        Placed::Flow(at) => State::Path(PathEnd { site, at, sum: 0 }),
    }
}

/// What is expected behind a step of the path to a site.
#[tactic(auto, unfolding(crate::specs::Verdict::after_step))]
fn after_step(site: SiteId, line: &StepLine, next: Next) -> State
    ensures { result ≡ after_step site line.now next }
{
    match next {
        Next::Step => State::Path(PathEnd {
            site,
            at: line.from,
            sum: line.sum,
        }),
        Next::Nothing | Next::Other => State::Sites(Some(site)),
    }
}

/// What is expected behind a line without a fault.
#[tactic(auto, unfolding(crate::specs::Verdict::state_after))]
pub(crate) fn state_after(state: State, line: Option<Line>, next: Next) -> State
    ensures { result ≡ state_after state line next }
{
    match (line, state) {
        (Some(Line::Site(line)), _) => after_site(line.site, line.placed),
        (Some(Line::Step(line)), State::Path(path)) => after_step(path.site, &line, next),
        (Some(Line::Tag(line)), _) => State::Tags(line),
        _ => state,
    }
}
