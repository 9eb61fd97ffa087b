//! Lines of several parts.
ghost use Rattle.std.specs.Prelude.{OnOk, OnErr, IfErr};
ghost use Rattle.outside.specs.Causes.{HasCause};
ghost use Rattle.outside.specs.Line.{text_of, part_text, StoppedIn};
ghost use Rattle.outside.specs.Puts.{Puts};
ghost use Rattle.outside.specs.Took.{Took, TookPrefix};

use crate::{Sink, WriteFault, put_bytes, put_int, put_number};

/// A part of a line.
#[derive(Clone, Copy)]
pub enum LinePart<'a> {
    Text(&'a [u8]),
    Number(u64),
    Int(i64),
}

/// Writes the parts in their order. A fault tells how many bytes were taken of the part at which it came.
pub fn put_line<S: Sink>(out: &mut S, parts: &[LinePart<'_>]) -> Result<(), WriteFault>
    ensures whole { OnOk result (Took (S.taken out.old) (S.taken out.new) (text_of parts.now)) }
    ensures stopped { IfErr result (λ e. StoppedIn (S.taken out.old) (S.taken out.new) parts.now e.gone) }
    ensures part { OnErr result (TookPrefix (S.taken out.old) (S.taken out.new) (text_of parts.now)) }
    ensures cause { HasCause (S.faults out.old) (S.faults out.new) result }
{
    'parts: for part in parts {
        put_part(out, *part)?;
    }
    Ok(())
}

fn put_part<S: Sink>(out: &mut S, part: LinePart<'_>) -> Result<(), WriteFault>
    ensures puts { Puts (S.taken out.old) (S.taken out.new) (S.number out.old) (S.number out.new) result (part_text part.entry) }
    ensures cause { HasCause (S.faults out.old) (S.faults out.new) result }
{
    match part {
        LinePart::Text(text) => put_bytes(out, text),
        LinePart::Number(n) => put_number(out, n),
        LinePart::Int(n) => put_int(out, n),
    }
}
