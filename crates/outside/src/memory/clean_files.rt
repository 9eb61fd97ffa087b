//! Files in memory that never fail.
ghost use Rattle.std.specs.Prelude.{◌≡◌, ◌≢◌, ℕ, List, [], IfOk, OnOk, OnErr};
ghost use Rattle.outside.specs.Files.{ReadOf, WriteOf, ReadsAs, Lists, content_of, or_empty};
ghost use Rattle.outside.specs.Entries.{entries_of, ShowsContent};

use crate::memory::entries::{look_up, put_first};
use crate::{FileFault, Files};
use std::alloc::Global;
use std::marker::Model;

/// Files in memory that never fail. A path that is not held reads as empty, and no size is too large.
#[derive(Drop)]
pub struct CleanFiles {
    held: Vec<(String, Vec<u8>)>,
}

impl Model for CleanFiles {
    ghost use Rattle.std.specs.Prelude.{List, ℕ};
    ghost use Rattle.outside.specs.Entries.{entries_of};

    ghost Value = { List (List ℕ × List ℕ) };

    ghost view = { λ s. entries_of s.held.items };
}

impl CleanFiles {
    /// Files with these contents under these paths. Where a path stands twice, the first counts.
    pub fn new(_alloc: Global, held: Vec<(String, Vec<u8>)>) -> CleanFiles
        ensures { result ≡ entries_of held.items }
    {
        CleanFiles { held }
    }

    /// What stands under a path.
    pub fn held(&self, path: &str) -> Option<&[u8]>
        ensures { ShowsContent (content_of self.now path.now) result }
    {
        look_up(&self.held, path)
    }
}

impl Files for CleanFiles {
    ghost content = { λ s p. or_empty (content_of s p) };

    ghost failed = { λ _. [] };

    fn read_all(&mut self, alloc: Global, path: &str) -> Result<Vec<u8>, FileFault> {
        match look_up(&self.held, path) {
            Some(bytes) => Vec::from_slice(alloc, bytes).map_err(|_| FileFault::NoMemory),
            None => Ok(Vec::new(alloc)),
        }
    }

    fn write_all(&mut self, alloc: Global, path: &str, bytes: &[u8]) -> Result<(), FileFault> {
        put_first(alloc, &mut self.held, path, bytes).map_err(|_| FileFault::NoMemory)
    }
}
