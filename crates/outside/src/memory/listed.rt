//! A source and a sink in memory that fail at listed calls.
ghost use Rattle.std.specs.Prelude.{◌≡◌, ◌≢◌, ◌+◌, ◌<◌, ◌≤◌, [], length, min, Ok, Some, IfOk, IsErr, Contains};
ghost use Rattle.std.specs.Io.{ReadsAtMost};
ghost use Rattle.std.specs.Io.KnownBytes.{ReadConsumes};
ghost use Rattle.outside.specs.Causes.{HasCause};
ghost use Rattle.outside.specs.Counts.{capped, WriteGrew};
ghost use Rattle.outside.specs.Took.{WriteTook};

use crate::memory::copying::copy_front;
use crate::{Failed, Sink, Source};
use std::alloc::Global;
use std::marker::Model;

/// A source over bytes in memory. The listed calls fail, counted from 1. A read of an empty buffer is not counted.
#[derive(Drop)]
pub struct MemSource {
    bytes: Vec<u8>,
    at: usize,
    fails: Vec<u64>,
    calls: u64,
    faults: u64,
}

impl Model for MemSource {
    ghost use Rattle.std.specs.Prelude.{◌≤◌, drop, length};
    ghost use Rattle.outside.specs.Memory.{Input};

    ghost Value = { Input };

    ghost view = { λ s. record { left = drop s.at s.bytes.items; fails = s.fails.items; calls = s.calls; faults = s.faults } };

    ghost invariant = { λ s. s.at ≤ length s.bytes.items };
}

impl MemSource {
    /// A source with these bytes left, whose calls of these numbers fail.
    pub fn new(bytes: Vec<u8>, fails: Vec<u64>) -> MemSource
        ensures { result ≡ record { left = bytes.items; fails = fails.items; calls = 0; faults = 0 } }
    {
        MemSource {
            bytes,
            at: 0,
            fails,
            calls: 0,
            faults: 0,
        }
    }
}

impl Source for MemSource {
    ghost left = { λ s. Some s.left };

    ghost faults = { λ s. s.faults };

    fn read(&mut self, buf: &mut [u8]) -> Result<usize, Failed>
        ensures bound { ReadsAtMost result buf.new }
        ensures bytes { ReadConsumes (Some self.old.left) (Some self.new.left) result buf.new }
        ensures cause { HasCause self.old.faults self.new.faults result }
        ensures empty { buf.old ≡ [] → (result ≡ Ok 0) × (self.new ≡ self.old) }

        // As much comes as there is and fits.
        ensures amount { IfOk result (λ n. n ≡ min (length self.old.left) (length buf.old)) }

        // The listed calls fail, and no others.
        ensures listed { buf.old ≢ [] → Contains self.old.fails self.new.calls → IsErr result }
        ensures others { IsErr result → Contains self.old.fails self.new.calls }
        ensures counted { buf.old ≢ [] → self.new.calls ≡ capped (self.old.calls + 1) }
        ensures fails { self.new.fails ≡ self.old.fails }
    {
        if buf.is_empty() {
            return Ok(0);
        }
        self.calls = self.calls.saturating_add(1);
        if self.fails.contains(&self.calls) {
            self.faults = self.faults.saturating_add(1);
            return Err(Failed);
        }
        let n = copy_front(&self.bytes[self.at..], buf);
        self.at += n;
        Ok(n)
    }
}

/// A sink in memory. The listed calls fail, counted from 1. Another call may fail too, where the growth of its bytes is
/// refused; it counts as a fault like a listed one. A write of an empty piece is not counted.
#[derive(Drop)]
pub struct MemSink {
    bytes: Vec<u8>,
    fails: Vec<u64>,
    calls: u64,
    faults: u64,
}

impl Model for MemSink {
    ghost use Rattle.outside.specs.Memory.{Output};

    ghost Value = { Output };

    ghost view = { λ s. record { taken = s.bytes.items; fails = s.fails.items; calls = s.calls; faults = s.faults } };
}

impl MemSink {
    /// A sink that has taken nothing, whose calls of these numbers fail.
    pub fn new(alloc: Global, fails: Vec<u64>) -> MemSink
        ensures { result ≡ record { taken = []; fails = fails.items; calls = 0; faults = 0 } }
    {
        MemSink {
            bytes: Vec::new(alloc),
            fails,
            calls: 0,
            faults: 0,
        }
    }

    /// The bytes taken.
    pub fn bytes(&self) -> &[u8]
        ensures { result.now ≡ self.now.taken }
    {
        self.bytes.as_slice()
    }
}

impl Sink for MemSink {
    ghost taken = { λ s. Some s.taken };

    ghost number = { λ s. Some (length s.taken) };

    ghost faults = { λ s. s.faults };

    fn write(&mut self, piece: &[u8]) -> Result<usize, Failed>
        ensures bound { IfOk result (λ n. n ≤ length piece.now) }
        ensures progress { IfOk result (λ n. 0 < length piece.now → 0 < n) }
        ensures bytes { WriteTook (Some self.old.taken) (Some self.new.taken) result piece.now }
        ensures number { WriteGrew (Some (length self.old.taken)) (Some (length self.new.taken)) result }
        ensures cause { HasCause self.old.faults self.new.faults result }
        ensures empty { piece.now ≡ [] → (result ≡ Ok 0) × (self.new ≡ self.old) }

        // A call that doesn't fail takes all.
        ensures whole { IfOk result (λ n. n ≡ length piece.now) }

        // The listed calls fail; another may fail too, where its growth is refused.
        ensures listed { piece.now ≢ [] → Contains self.old.fails self.new.calls → IsErr result }
        ensures counted { piece.now ≢ [] → self.new.calls ≡ capped (self.old.calls + 1) }
        ensures fails { self.new.fails ≡ self.old.fails }
    {
        if piece.is_empty() {
            return Ok(0);
        }
        self.calls = self.calls.saturating_add(1);
        let fails = self.fails.contains(&self.calls);
        if fails || self.bytes.extend_from_slice(piece).is_err() {
            self.faults = self.faults.saturating_add(1);
            return Err(Failed);
        }
        Ok(piece.len())
    }
}
