//! The lines of a report.

ghost use Rattle.std.specs.Prelude.{◌≡◌, ◌∷◌, ◌<◌, ◌≤◌, length, drop};
ghost use Rattle.report_checks.specs.Lines.{lines_of};
ghost use Rattle.report_checks.specs.Verdict.{kind_of, next_of};

use crate::cuts::front_length;
use crate::line::Line;
use crate::reading::read_line;
use crate::state::Next;

/// A line that was read, if it is of the form of one, and where the next one begins.
#[derive(Clone, Copy, Debug, PartialEq, Eq)]
pub struct Read {
    pub line: Option<Line>,
    pub next: usize,
}

/// The line that begins at a place of a report.
pub(crate) fn line_at(report: &[u8], at: usize) -> Read
    requires { at < length report.now }
    ensures is { lines_of (drop at report.now) ≡ result.line ∷ lines_of (drop result.next report.now) }
    ensures onward { at < result.next }
    ensures within { result.next ≤ length report.now }
{
    let text = &report[at..];
    let length = front_length(text, b'\n');
    if length < text.len() {
        let line = read_line(&text[..length]);
        let next = at + length + 1;
        Read { line, next }
    } else {
        let next = report.len();
        Read { line: None, next }
    }
}

/// What a line is to the one before it.
#[tactic(auto, unfolding(crate::specs::Verdict::kind_of))]
fn kind_of(line: Option<Line>) -> Next
    ensures { result ≡ kind_of line }
{
    match line {
        Some(Line::Step(_)) => Next::Step,
        _ => Next::Other,
    }
}

/// What begins at a place of a report.
pub(crate) fn next_at(report: &[u8], at: usize) -> Next
    requires { at ≤ length report.now }
    ensures { result ≡ next_of (lines_of (drop at report.now)) }
{
    if at == report.len() {
        return Next::Nothing;
    }
    let read = line_at(report, at);
    kind_of(read.line)
}
