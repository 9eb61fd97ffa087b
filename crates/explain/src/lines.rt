//! Lines, each with its newline. An error is a want of memory.

ghost use Rattle.std.specs.Prelude.{◌≡◌, ◌∷◌, ◌++◌, ◌<◌, ◌^◌, [], OnOk};
ghost use Rattle.report_checks.specs.Texts.{LineFits};
ghost use Rattle.explain.specs.Lines.{site_line, step_line, tag_line, text_of};

use crate::names::SiteName;
use crate::parts::{put_flow, put_loc, put_placed};
use deref_walk::Step;
use report_checks::TagFlow;
use std::io;
use std::io::Write;
use value_flows::Placed;

/// Puts the line of a site with this number after a text.
pub(crate) fn put_site(
    text: &mut Vec<u8>,
    number: usize,
    site: &SiteName,
    placed: Placed,
) -> io::Result<()>
    ensures text { OnOk result (text.new.items ≡ text.old.items ++ text_of (site_line number site.now placed ∷ [])) }
    ensures fits { OnOk result (number < 2 ^ 32 → LineFits (site_line number site.now placed).line) }
{
    let line = site.pos.line;
    let col = site.pos.col;
    write!(text, "site {number} {line}:{col} ")?;
    text.extend_from_slice(&site.name)?;
    write!(text, " ")?;
    put_placed(text, placed)?;
    writeln!(text)
}

/// Puts the line of a step after a text.
pub(crate) fn put_step(text: &mut Vec<u8>, step: &Step) -> io::Result<()>
    ensures text { OnOk result (text.new.items ≡ text.old.items ++ text_of (step_line step.now ∷ [])) }
    ensures fits { OnOk result (LineFits (step_line step.now).line) }
{
    let to = step.to;
    let from = step.from;
    let weight = step.weight;
    let sum = step.sum;
    write!(text, "step ")?;
    put_loc(text, to)?;
    write!(text, " ")?;
    put_loc(text, from)?;
    writeln!(text, " {weight} {sum}")
}

/// Puts the line of a tag after a text: the function, the parameter, and where it flows to.
pub(crate) fn put_tag(
    text: &mut Vec<u8>,
    func: usize,
    param: usize,
    flow: TagFlow,
) -> io::Result<()>
    ensures text { OnOk result (text.new.items ≡ text.old.items ++ text_of (tag_line func param flow ∷ [])) }
    ensures fits { OnOk result (func < 2 ^ 32 → param < 2 ^ 32 → LineFits (tag_line func param flow).line) }
{
    write!(text, "tag {func} {param} ")?;
    put_flow(text, flow)?;
    writeln!(text)
}
