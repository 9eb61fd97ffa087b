//! What gives bytes.
ghost use Rattle.std.specs.Prelude.{◌≡◌, ℕ, List, [], Option, Ok};
ghost use Rattle.std.specs.Io.{ReadsAtMost};
ghost use Rattle.std.specs.Io.KnownBytes.{ReadConsumes};
ghost use Rattle.outside.specs.Causes.{HasCause};

use crate::Failed;

/// What gives bytes.
pub trait Source {
    /// The bytes left, where they are told.
    ghost left: { Self → Option (List ℕ) };

    /// How often the source has failed. It stays at its last value, 2^64 - 1.
    ghost faults: { Self → ℕ };

    /// Puts bytes at the front of the buffer, and answers how many. For a buffer that isn't empty, none come at the
    /// end of input only.
    fn read(&mut self, buf: &mut [u8]) -> Result<usize, Failed>
        ensures bound { ReadsAtMost result buf.new }
        ensures bytes { ReadConsumes (left self.old) (left self.new) result buf.new }
        ensures cause { HasCause (faults self.old) (faults self.new) result }
        ensures empty { buf.old ≡ [] → (result ≡ Ok 0) × (self.new ≡ self.old) };
}
