//! Reads the text of a line.

ghost use Rattle.std.specs.Prelude.{◌≡◌, None, Some, MatchOption};
ghost use Rattle.report_checks.specs.Texts.{IsLineOf};
ghost use Rattle.report_checks.specs.Reading.{read_result, read_site_number, read_loc, loc_before, read_known, read_heap, read_placed, after_name, read_site, read_step, read_result_flow, read_flow, read_tag, read_text};

use crate::cuts::{after, front, front_length, rest};
use crate::line::{Line, SiteLine, StepLine, TagFlow, TagLine};
use crate::numbers::{number_before, read_number, read_signed};
use base::{FuncId, SiteId};
use deref_walk::Loc;
use value_flows::{Known, Placed};

/// A result without a name, behind its `f`.
#[tactic(auto, unfolding(crate::specs::Reading::read_result))]
fn read_result(text: &[u8]) -> Option<Loc>
    ensures { result ≡ read_result text.now }
{
    let func = number_before(text, b'.')?;
    let digits = after(rest(text, b'.')?, b"r")?;
    let number = read_number(digits)?;
    Some(Loc::Result(FuncId(func), number))
}

/// The number of a site.
#[tactic(auto, unfolding(crate::specs::Reading::read_site_number))]
fn read_site_number(text: &[u8]) -> Option<SiteId>
    ensures { result ≡ read_site_number text.now }
{
    let number = read_number(text)?;
    Some(SiteId(number))
}

/// A location.
#[tactic(auto, unfolding(crate::specs::Reading::read_loc))]
fn read_loc(text: &[u8]) -> Option<Loc>
    ensures { result ≡ read_loc text.now }
{
    if text == b"heap".as_slice() {
        return Some(Loc::Heap);
    }
    if let Some(digits) = after(text, b"s") {
        let site = read_site_number(digits)?;
        return Some(Loc::Site(site));
    }
    if let Some(digits) = after(text, b"c") {
        let site = read_site_number(digits)?;
        return Some(Loc::Carry(site));
    }
    let behind = after(text, b"f")?;
    read_result(behind)
}

/// The location before the first space.
#[tactic(auto, unfolding(crate::specs::Reading::loc_before))]
fn loc_before(text: &[u8]) -> Option<Loc>
    ensures { result ≡ loc_before 32 text.now }
{
    read_loc(front(text, b' '))
}

/// Why a site is on the heap, where no flow is the reason.
#[tactic(auto, unfolding(crate::specs::Reading::read_known))]
fn read_known(text: &[u8]) -> Option<Known>
    ensures { result ≡ read_known text.now }
{
    if text == b"package".as_slice() {
        Some(Known::Package)
    } else if text == b"size".as_slice() {
        Some(Known::Size)
    } else if text == b"unknown".as_slice() {
        Some(Known::Unknown)
    } else {
        None
    }
}

/// Why a site is on the heap.
#[tactic(auto, unfolding(crate::specs::Reading::read_heap))]
fn read_heap(text: &[u8]) -> Option<Placed>
    ensures { result ≡ read_heap text.now }
{
    if let Some(known) = read_known(text) {
        return Some(Placed::Known(known));
    }
    let behind = after(text, b"flow ")?;
    let root = read_loc(behind)?;
    Some(Placed::Flow(root))
}

/// Where the variables of a site are.
#[tactic(auto, unfolding(crate::specs::Reading::read_placed))]
fn read_placed(text: &[u8]) -> Option<Placed>
    ensures { result ≡ read_placed text.now }
{
    if text == b"stack".as_slice() {
        return Some(Placed::Stack);
    }
    let behind = after(text, b"heap ")?;
    read_heap(behind)
}

/// What stands behind a name, which has a byte at least, and a space.
#[tactic(auto, unfolding(crate::specs::Reading::after_name))]
fn after_name(text: &[u8]) -> Option<&[u8]>
    ensures { MatchOption result (after_name text.now ≡ None) (λ r. after_name text.now ≡ Some r.now) }
{
    if front_length(text, b' ') == 0 {
        None
    } else {
        rest(text, b' ')
    }
}

/// The line of a site, behind its first word.
#[tactic(auto, unfolding(crate::specs::Reading::read_site))]
fn read_site(text: &[u8]) -> Option<Line>
    ensures { result ≡ read_site text.now }
{
    let site = number_before(text, b' ')?;
    let place = rest(text, b' ')?;
    let line = number_before(place, b':')?;
    let column = rest(place, b':')?;
    let col = number_before(column, b' ')?;
    let name = rest(column, b' ')?;
    let end = after_name(name)?;
    let placed = read_placed(end)?;
    let site = SiteId(site);
    Some(Line::Site(SiteLine {
        site,
        line,
        col,
        placed,
    }))
}

/// A step, behind its first word.
#[tactic(auto, unfolding(crate::specs::Reading::read_step))]
fn read_step(text: &[u8]) -> Option<Line>
    ensures { result ≡ read_step text.now }
{
    let to = loc_before(text)?;
    let behind_to = rest(text, b' ')?;
    let from = loc_before(behind_to)?;
    let behind_from = rest(behind_to, b' ')?;
    let weight = read_signed(front(behind_from, b' '))?;
    let behind_weight = rest(behind_from, b' ')?;
    let sum = read_signed(behind_weight)?;
    Some(Line::Step(StepLine {
        to,
        from,
        weight,
        sum,
    }))
}

/// The result and the number of a tag.
#[tactic(auto, unfolding(crate::specs::Reading::read_result_flow))]
fn read_result_flow(text: &[u8]) -> Option<TagFlow>
    ensures { result ≡ read_result_flow text.now }
{
    let index = number_before(text, b' ')?;
    let behind = rest(text, b' ')?;
    let number = read_number(behind)?;
    Some(TagFlow::Result(index, number))
}

/// Where the value of a parameter flows to.
#[tactic(auto, unfolding(crate::specs::Reading::read_flow))]
fn read_flow(text: &[u8]) -> Option<TagFlow>
    ensures { result ≡ read_flow text.now }
{
    if text == b"none".as_slice() {
        return Some(TagFlow::Nowhere);
    }
    if let Some(behind) = after(text, b"heap ") {
        let number = read_number(behind)?;
        return Some(TagFlow::Heap(number));
    }
    let behind = after(text, b"result ")?;
    read_result_flow(behind)
}

/// A tag, behind its first word.
#[tactic(auto, unfolding(crate::specs::Reading::read_tag))]
fn read_tag(text: &[u8]) -> Option<Line>
    ensures { result ≡ read_tag text.now }
{
    let func = number_before(text, b' ')?;
    let behind_func = rest(text, b' ')?;
    let param = number_before(behind_func, b' ')?;
    let behind_param = rest(behind_func, b' ')?;
    let flow = read_flow(behind_param)?;
    let func = FuncId(func);
    Some(Line::Tag(TagLine { func, param, flow }))
}

/// The line that a text stands for, if it stands for one.
#[tactic(auto, unfolding(crate::specs::Reading::read_text))]
fn read_text(text: &[u8]) -> Option<Line>
    ensures { result ≡ read_text text.now }
{
    if let Some(behind) = after(text, b"site ") {
        return read_site(behind);
    }
    if let Some(behind) = after(text, b"step ") {
        return read_step(behind);
    }
    let behind = after(text, b"tag ")?;
    read_tag(behind)
}

/// The line that a text without newlines stands for, if it stands for one.
pub fn read_line(text: &[u8]) -> Option<Line>
    ensures is { result ≡ read_text text.now }
    ensures exact { IsLineOf text.now result }
{
    read_text(text)
}
