//! Whole files by their paths.
ghost use Rattle.std.specs.Prelude.{◌≡◌, ◌≢◌, ℕ, List, IfOk, OnOk};
ghost use Rattle.outside.specs.Files.{Content, Call, ReadOf, WriteOf, ReadsAs, Lists};

use crate::FileFault;
use std::alloc::Global;

/// The length of the longest file that can be read, in bytes.
pub const MAX_FILE_LEN: usize = 64 << 20;

// A call on files, with its path.
#[derive(Debug, Drop)]
pub(crate) enum FileCall {
    Read(String),
    Write(String),
}

/// Whole files by their paths. A call that fails is listed; a want of memory is not.
pub trait Files {
    /// What stands under a path, where it is told.
    ghost content: { Self → List ℕ → Content };

    /// The calls that have failed, in their order. Their number is the count of faults.
    ghost failed: { Self → List Call };

    /// All bytes of a file.
    fn read_all(&mut self, alloc: Global, path: &str) -> Result<Vec<u8>, FileFault>
        ensures bytes { IfOk result (λ bytes. ReadsAs (content self.old path.now) bytes.items) }
        ensures contents { (p : List ℕ) → content self.new p ≡ content self.old p }
        ensures failed { Lists result (ReadOf path.now) (failed self.old) (failed self.new) };

    /// Makes a file of these bytes. What stands under its path after a fault is open.
    fn write_all(&mut self, alloc: Global, path: &str, bytes: &[u8]) -> Result<(), FileFault>
        ensures bytes { OnOk result (ReadsAs (content self.new path.now) bytes.now) }
        ensures others { (p : List ℕ) → p ≢ path.now → content self.new p ≡ content self.old p }
        ensures failed { Lists result (WriteOf path.now) (failed self.old) (failed self.new) };
}
