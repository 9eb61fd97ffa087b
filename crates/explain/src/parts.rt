//! The parts of lines. An error is a want of memory.

ghost use Rattle.std.specs.Prelude.{◌≡◌, ◌++◌, OnOk};
ghost use Rattle.report_checks.specs.Texts.{loc_text, known_text, placed_text, flow_text, LocFits, PlacedFits, FlowFits};

use deref_walk::Loc;
use report_checks::TagFlow;
use std::io;
use std::io::Write;
use value_flows::{Known, Placed};

/// Puts a location after a text.
pub(crate) fn put_loc(text: &mut Vec<u8>, l: Loc) -> io::Result<()>
    ensures text { OnOk result (text.new.items ≡ text.old.items ++ loc_text l) }
    ensures fits { LocFits l }
{
    match l {
        Loc::Site(site) => {
            let number = site.0;
            write!(text, "s{number}")
        }
        Loc::Result(func, index) => {
            let number = func.0;
            write!(text, "f{number}.r{index}")
        }
        Loc::Heap => write!(text, "heap"),
        Loc::Carry(site) => {
            let number = site.0;
            write!(text, "c{number}")
        }
    }
}

/// The word for a reason that is no flow.
fn known_word(known: Known) -> &'static str
    ensures { result.now ≡ known_text known }
{
    match known {
        Known::Package => "package",
        Known::Size => "size",
        Known::Unknown => "unknown",
    }
}

/// Puts where the variables of a site are, and why, after a text.
pub(crate) fn put_placed(text: &mut Vec<u8>, placed: Placed) -> io::Result<()>
    ensures text { OnOk result (text.new.items ≡ text.old.items ++ placed_text placed) }
    ensures fits { OnOk result (PlacedFits placed) }
{
    match placed {
        Placed::Stack => write!(text, "stack"),
        Placed::Known(known) => {
            let word = known_word(known);
            write!(text, "heap {word}")
        }
        Placed::Flow(root) => {
            write!(text, "heap flow ")?;
            put_loc(text, root)
        }
    }
}

/// Puts where a parameter flows to after a text.
pub(crate) fn put_flow(text: &mut Vec<u8>, flow: TagFlow) -> io::Result<()>
    ensures text { OnOk result (text.new.items ≡ text.old.items ++ flow_text flow) }
    ensures fits { FlowFits flow }
{
    match flow {
        TagFlow::Heap(by) => write!(text, "heap {by}"),
        TagFlow::Result(index, by) => write!(text, "result {index} {by}"),
        TagFlow::Nowhere => write!(text, "none"),
    }
}
