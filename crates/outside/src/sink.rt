//! What takes bytes.
ghost use Rattle.std.specs.Prelude.{◌≡◌, ◌<◌, ◌≤◌, ℕ, List, [], Option, length, IfOk, Ok};
ghost use Rattle.outside.specs.Causes.{HasCause};
ghost use Rattle.outside.specs.Counts.{WriteGrew};
ghost use Rattle.outside.specs.Took.{WriteTook};

use crate::Failed;

/// What takes bytes. It may take less than it is given, but not nothing: a device that takes nothing has failed.
pub trait Sink {
    /// The bytes taken, where they are told.
    ghost taken: { Self → Option (List ℕ) };

    /// The number of bytes taken, where it is told. It stays at its last value, 2^64 - 1.
    ghost number: { Self → Option ℕ };

    /// How often the sink has failed. It stays at its last value, 2^64 - 1.
    ghost faults: { Self → ℕ };

    /// Takes a part of the piece from its front, and answers how many bytes.
    fn write(&mut self, piece: &[u8]) -> Result<usize, Failed>
        ensures bound { IfOk result (λ n. n ≤ length piece.now) }
        ensures progress { IfOk result (λ n. 0 < length piece.now → 0 < n) }
        ensures bytes { WriteTook (taken self.old) (taken self.new) result piece.now }
        ensures number { WriteGrew (number self.old) (number self.new) result }
        ensures cause { HasCause (faults self.old) (faults self.new) result }
        ensures empty { piece.now ≡ [] → (result ≡ Ok 0) × (self.new ≡ self.old) };
}
