//! Whole pieces, over sinks that take less than they are given.
ghost use Rattle.std.specs.Fmt.{decimal, signed_decimal};
ghost use Rattle.std.specs.Prelude.{codes, if◌then◌else◌};
ghost use Rattle.outside.specs.Causes.{HasCause};
ghost use Rattle.outside.specs.Puts.{Puts};

use crate::{Sink, WriteFault};
use itoa::Buffer;

/// Writes the whole piece.
pub fn put_bytes<S: Sink>(out: &mut S, piece: &[u8]) -> Result<(), WriteFault>
    ensures puts { Puts (S.taken out.old) (S.taken out.new) (S.number out.old) (S.number out.new) result piece.now }
    ensures cause { HasCause (S.faults out.old) (S.faults out.new) result }
{
    let mut gone: usize = 0;
    'pieces: while gone < piece.len() {
        match out.write(&piece[gone..]) {
            Ok(n) => gone += n,
            Err(_) => return Err(WriteFault { gone: gone as u64 }),
        }
    }
    Ok(())
}

/// Writes a number in decimal, with a minus before it where it is negative.
pub fn put_int<S: Sink>(out: &mut S, n: i64) -> Result<(), WriteFault>
    ensures puts { Puts (S.taken out.old) (S.taken out.new) (S.number out.old) (S.number out.new) result (signed_decimal n) }
    ensures cause { HasCause (S.faults out.old) (S.faults out.new) result }
{
    let mut buffer = Buffer::new();
    put_bytes(out, buffer.format(n).as_bytes())
}

/// Writes a number without a sign in decimal.
pub fn put_number<S: Sink>(out: &mut S, n: u64) -> Result<(), WriteFault>
    ensures puts { Puts (S.taken out.old) (S.taken out.new) (S.number out.old) (S.number out.new) result (decimal n) }
    ensures cause { HasCause (S.faults out.old) (S.faults out.new) result }
{
    let mut buffer = Buffer::new();
    put_bytes(out, buffer.format(n).as_bytes())
}

/// Writes `true` or `false`.
pub fn put_bool<S: Sink>(out: &mut S, b: bool) -> Result<(), WriteFault>
    ensures puts { Puts (S.taken out.old) (S.taken out.new) (S.number out.old) (S.number out.new) result (if b then codes "true" else codes "false") }
    ensures cause { HasCause (S.faults out.old) (S.faults out.new) result }
{
    put_bytes(out, if b { b"true" } else { b"false" })
}
