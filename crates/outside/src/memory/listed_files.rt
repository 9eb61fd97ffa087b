//! Files in memory that fail at listed calls.
ghost use Rattle.std.specs.Prelude.{◌≡◌, ◌≢◌, ◌≤◌, ◌+◌, ◌∷◌, ◌++◌, ◌⊎◌, [], ℕ, List, IfOk, OnOk, OnErr, IsErr, Contains, vec_len};
ghost use Rattle.outside.specs.Counts.{capped};
ghost use Rattle.outside.specs.Files.{ReadOf, WriteOf, ReadsAs, Lists, IsUnreadable, content_of};
ghost use Rattle.outside.specs.Calls.{call_of, calls_of};
ghost use Rattle.outside.specs.Entries.{entries_of, ShowsContent};

use crate::files::{FileCall, MAX_FILE_LEN};
use crate::memory::entries::{look_up, put_first};
use crate::{FileFault, Files};
use std::alloc::Global;
use std::marker::Model;

/// Files in memory. The listed calls fail, counted from 1. So does a read of a path that is not held, or whose content
/// is longer than `MAX_FILE_LEN`. Any call may fail with `NoMemory`, where memory is refused: it is counted, and is not
/// among the failed calls that are told.
#[derive(Drop)]
pub struct MemFiles {
    held: Vec<(String, Vec<u8>)>,
    failed: Vec<FileCall>,
    fails: Vec<u64>,
    calls: u64,
}

impl Model for MemFiles {
    ghost use Rattle.outside.specs.Calls.{calls_of};
    ghost use Rattle.outside.specs.Entries.{entries_of};
    ghost use Rattle.outside.specs.Memory.{Folder};

    ghost Value = { Folder };

    ghost view = { λ s. record { held = entries_of s.held.items; failed = calls_of s.failed.items; fails = s.fails.items; calls = s.calls } };
}

impl MemFiles {
    /// Files with these contents under these paths, whose calls of these numbers fail. Where a path stands twice, the
    /// first counts.
    pub fn new(alloc: Global, held: Vec<(String, Vec<u8>)>, fails: Vec<u64>) -> MemFiles
        ensures { result ≡ record { held = entries_of held.items; failed = []; fails = fails.items; calls = 0 } }
    {
        MemFiles {
            held,
            failed: Vec::new(alloc),
            fails,
            calls: 0,
        }
    }

    /// What stands under a path.
    pub fn held(&self, path: &str) -> Option<&[u8]>
        ensures { ShowsContent (content_of self.now.held path.now) result }
    {
        look_up(&self.held, path)
    }
}

// Keeps a failed call, or answers that memory was refused.
fn keep(failed: &mut Vec<FileCall>, call: FileCall) -> FileFault
    ensures failed { result ≡ FileFault.Failed → failed.new.items ≡ failed.old.items ++ call ∷ [] }
    ensures refused { result ≡ FileFault.NoMemory → failed.new.items ≡ failed.old.items }
{
    match failed.push(call) {
        Ok(()) => FileFault::Failed,
        Err(_) => FileFault::NoMemory,
    }
}

impl Files for MemFiles {
    ghost content = { λ s. content_of s.held };

    ghost failed = { λ s. s.failed };

    fn read_all(&mut self, alloc: Global, path: &str) -> Result<Vec<u8>, FileFault>
        ensures bytes { IfOk result (λ bytes. ReadsAs (content_of self.old.held path.now) bytes.items) }
        ensures contents { (p : List ℕ) → content_of self.new.held p ≡ content_of self.old.held p }
        ensures failed { Lists result (ReadOf path.now) self.old.failed self.new.failed }

        // The listed calls fail, and those of paths that can't be read, and no others.
        ensures listed { Contains self.old.fails self.new.calls → IsErr result }
        ensures unreadable { IsUnreadable (content_of self.old.held path.now) → IsErr result }
        ensures others { result ≡ Err FileFault.Failed → Contains self.old.fails self.new.calls ⊎ IsUnreadable (content_of self.old.held path.now) }
        ensures counted { self.new.calls ≡ capped (self.old.calls + 1) }
        ensures fails { self.new.fails ≡ self.old.fails }
    {
        self.calls = self.calls.saturating_add(1);
        let name = String::from_str(alloc, path).map_err(|_| FileFault::NoMemory)?;
        if self.fails.contains(&self.calls) {
            return Err(keep(&mut self.failed, FileCall::Read(name)));
        }
        match look_up(&self.held, path) {
            Some(bytes) if bytes.len() <= MAX_FILE_LEN => Vec::from_slice(alloc, bytes).map_err(
                |_| FileFault::NoMemory,
            ),
            _ => Err(keep(&mut self.failed, FileCall::Read(name))),
        }
    }

    fn write_all(&mut self, alloc: Global, path: &str, bytes: &[u8]) -> Result<(), FileFault>
        ensures bytes { OnOk result (ReadsAs (content_of self.new.held path.now) bytes.now) }
        ensures others { (p : List ℕ) → p ≢ path.now → content_of self.new.held p ≡ content_of self.old.held p }
        ensures failed { Lists result (WriteOf path.now) self.old.failed self.new.failed }

        // The listed calls fail, and no others. A call that fails changes nothing that is held.
        ensures listed { Contains self.old.fails self.new.calls → IsErr result }
        ensures only_listed { result ≡ Err FileFault.Failed → Contains self.old.fails self.new.calls }
        ensures counted { self.new.calls ≡ capped (self.old.calls + 1) }
        ensures fails { self.new.fails ≡ self.old.fails }
        ensures held { OnErr result (self.new.held ≡ self.old.held) }
    {
        self.calls = self.calls.saturating_add(1);
        let name = String::from_str(alloc, path).map_err(|_| FileFault::NoMemory)?;
        if self.fails.contains(&self.calls) {
            return Err(keep(&mut self.failed, FileCall::Write(name)));
        }
        put_first(alloc, &mut self.held, path, bytes).map_err(|_| FileFault::NoMemory)
    }
}
