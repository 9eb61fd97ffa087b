//! A source and a sink in memory that never fail.
ghost use Rattle.std.specs.Prelude.{◌≡◌, ◌+◌, ◌<◌, ◌≤◌, ◌++◌, [], length, Ok, Some, None, IfOk, IfSome};
ghost use Rattle.outside.specs.Causes.{HasCause};
ghost use Rattle.outside.specs.Counts.{WriteGrew};
ghost use Rattle.outside.specs.Took.{WriteTook};

use crate::memory::copying::copy_front;
use crate::{Failed, Sink, Source};
use base::NoMemory;
use std::alloc::Global;
use std::marker::Model;

/// A sink that takes all, and tells its bytes while they fit the room that it reserved.
#[derive(Drop)]
pub struct CleanSink {
    held: Vec<u8>,
    fits: bool,
    number: u64,
    room: u64,
}

impl Model for CleanSink {
    ghost use Rattle.std.specs.Prelude.{ℕ, ◌≤◌, vec_len, vec_capacity, if◌then◌else◌, Some, None};
    ghost use Rattle.outside.specs.Memory.{Page};

    ghost Value = { Page };

    ghost view = { λ s. record { taken = (if s.fits then Some s.held.items else None); number = s.number; room = s.room } };

    ghost invariant = { λ s. (vec_len s.held ≤ s.room) × (s.room ≤ vec_capacity s.held) };
}

impl CleanSink {
    /// A sink with room for `room` bytes.
    pub fn new(alloc: Global, room: u64) -> Result<CleanSink, NoMemory>
        ensures { IfOk result (λ s. s ≡ record { taken = Some []; number = 0; room = room }) }
    {
        Ok(CleanSink {
            held: Vec::with_capacity(alloc, room as usize)?,
            fits: true,
            number: 0,
            room,
        })
    }

    /// The bytes taken, as long as they are told. Once a piece did not fit the room, nothing is said of the answer.
    pub fn bytes(&self) -> &[u8]
        ensures { IfSome self.now.taken (λ bytes. result.now ≡ bytes) }
    {
        self.held.as_slice()
    }
}

impl Sink for CleanSink {
    ghost taken = { λ s. s.taken };

    ghost number = { λ s. Some s.number };

    ghost faults = { λ _. 0 };

    fn write(&mut self, piece: &[u8]) -> Result<usize, Failed>
        ensures bound { IfOk result (λ n. n ≤ length piece.now) }
        ensures progress { IfOk result (λ n. 0 < length piece.now → 0 < n) }
        ensures bytes { WriteTook self.old.taken self.new.taken result piece.now }
        ensures number { WriteGrew (Some self.old.number) (Some self.new.number) result }
        ensures cause { HasCause 0 0 result }
        ensures empty { piece.now ≡ [] → (result ≡ Ok 0) × (self.new ≡ self.old) }

        // All is taken, and told as long as it fits.
        ensures whole { result ≡ Ok (length piece.now) }
        ensures told { IfSome self.old.taken (λ bytes. length bytes + length piece.now ≤ self.old.room → self.new.taken ≡ Some (bytes ++ piece.now)) }
        ensures room { self.new.room ≡ self.old.room }
    {
        if piece.is_empty() {
            return Ok(0);
        }
        self.number = self.number.saturating_add(piece.len() as u64);
        let spare = self.room as usize - self.held.len();
        self.fits = self.fits && piece.len() <= spare;
        if self.fits {
            let kept = self.held.extend_from_slice(piece);
            prove!(kept.is_ok());
        }
        Ok(piece.len())
    }
}

/// A source over bytes in memory.
#[derive(Drop)]
pub struct CleanSource {
    bytes: Vec<u8>,
    at: usize,
}

impl Model for CleanSource {
    ghost use Rattle.std.specs.Prelude.{List, ℕ, ◌≤◌, drop, length};

    ghost Value = { List ℕ };

    ghost view = { λ s. drop s.at s.bytes.items };

    ghost invariant = { λ s. s.at ≤ length s.bytes.items };
}

impl CleanSource {
    /// A source with these bytes left.
    pub fn new(bytes: Vec<u8>) -> CleanSource
        ensures { result ≡ bytes.items }
    {
        CleanSource { bytes, at: 0 }
    }
}

impl Source for CleanSource {
    ghost left = { λ s. Some s };

    ghost faults = { λ _. 0 };

    fn read(&mut self, buf: &mut [u8]) -> Result<usize, Failed> {
        let n = copy_front(&self.bytes[self.at..], buf);
        self.at += n;
        Ok(n)
    }
}
