//! Whole numbers from a source.
ghost use Rattle.std.specs.Prelude.{◌≡◌, [], None, false, true, IfOk, IfSome, OnErr};
ghost use Rattle.outside.specs.Causes.{HasCause};
ghost use Rattle.outside.specs.Items.{Reads, MeetsEnd, Loses};
ghost use Rattle.outside.specs.Pending.{to_come, KnowsEnd, Gives};

use crate::item::{Item, is_separator};
use crate::{ReadFault, Source};
use std::marker::Model;

/// The size of the buffer in bytes.
const BUFFER_SIZE: usize = 512;

/// The most bytes that one call takes.
const MOST_PER_CALL: u32 = 1 << 20;

/// Reads whole numbers through a buffer of `BUFFER_SIZE` bytes. Once it has seen the end of input, it doesn't read again.
#[derive(Drop)]
pub struct IntReader {
    buf: [u8; BUFFER_SIZE],
    at: usize,
    len: usize,
    ended: bool,
}

impl Model for IntReader {
    ghost use Rattle.std.specs.Prelude.{◌≡◌, ◌≤◌, true, take, drop};
    ghost use Rattle.outside.specs.Pending.{Pending, buffer_size};

    ghost Value = { Pending };

    ghost view = { λ r. record { bytes = drop r.at (take r.len r.buf); ended = r.ended } };

    ghost invariant = { λ r. (r.at ≤ r.len) × (r.len ≤ buffer_size) × (r.ended ≡ true → r.at ≡ r.len) };
}

impl IntReader {
    /// A reader that holds nothing, and has not seen the end.
    pub fn new() -> IntReader
        ensures { result ≡ record { bytes = []; ended = false } }
    {
        IntReader {
            buf: [0; BUFFER_SIZE],
            at: 0,
            len: 0,
            ended: false,
        }
    }

    // The next byte, or none at the end of input.
    fn byte<S: Source>(&mut self, src: &mut S) -> Result<Option<u8>, ReadFault>
        ensures gives { Gives result (to_come self.old (S.left src.old)) (to_come self.new (S.left src.new)) }
        ensures knows { KnowsEnd self.old (S.left src.old) → KnowsEnd self.new (S.left src.new) }
        ensures remembers { self.old.ended ≡ true → (self.new.ended ≡ true) × (src.new ≡ src.old) }
        ensures ended { IfOk result (λ b. b ≡ None → self.new.ended ≡ true) }
        ensures cause { HasCause (S.faults src.old) (S.faults src.new) result }
    {
        if self.at == self.len {
            if self.ended {
                return Ok(None);
            }
            match src.read(&mut self.buf) {
                Ok(count) => {
                    self.at = 0;
                    self.len = count;
                }
                Err(_) => return Err(ReadFault),
            }
            if self.len == 0 {
                self.ended = true;
                return Ok(None);
            }
        }
        let b = self.buf[self.at];
        self.at += 1;
        Ok(Some(b))
    }

    /// The next item if it is a whole number of 64 bits. None where it isn't one, where input ends before an item, and
    /// where `MOST_PER_CALL` bytes hold no separator after an item; a later call goes on after them.
    pub fn next<S: Source>(&mut self, src: &mut S) -> Result<Option<i64>, ReadFault>
        ensures reads { IfOk result (Reads (to_come self.old (S.left src.old)) (to_come self.new (S.left src.new))) }

        // An end of input that the call has met is remembered.
        ensures ended { IfOk result (λ _. IfSome (to_come self.old (S.left src.old)) (λ bytes. MeetsEnd bytes → self.new.ended ≡ true)) }

        // After a fault the bytes of the item that came before it are gone.
        ensures lost { OnErr result (Loses (to_come self.old (S.left src.old)) (to_come self.new (S.left src.new))) }

        // A remembered end is that of the source, if it is always the same one.
        ensures knows { KnowsEnd self.old (S.left src.old) → KnowsEnd self.new (S.left src.new) }
        ensures remembers { self.old.ended ≡ true → (self.new.ended ≡ true) × (src.new ≡ src.old) }
        ensures cause { HasCause (S.faults src.old) (S.faults src.new) result }
    {
        let mut item = Item::new();
        'bytes: for _turn in 0..MOST_PER_CALL {
            let Some(b) = self.byte(src)? else {
                return Ok(item.number());
            };
            if !is_separator(b) {
                item = item.pushed(b);
            } else if item.any {
                return Ok(item.number());
            }
        }
        Ok(None)
    }
}
