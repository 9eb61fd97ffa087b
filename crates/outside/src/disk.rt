//! Real files. Nothing is told of their contents.
ghost use Rattle.std.specs.Prelude.{◌≡◌, ◌<◌, [], IfOk, OnOk, string_bytes, vec_len, vec_capacity};
ghost use Rattle.outside.specs.Files.{Untold};
ghost use Rattle.outside.specs.Calls.{calls_of};

use crate::files::{FileCall, MAX_FILE_LEN};
use crate::{FileFault, Files};
use std::alloc::{AllocError, Global};
use std::io::{ErrorKind, Read};
use std::{fs, io, rt};

/// The files of a runtime, with a list of the calls that failed. A relative path starts at the current folder.
#[derive(Drop)]
pub struct DiskFiles<R: rt::Files + Drop> {
    runtime: R,
    failed: Vec<FileCall>,
}

impl<R: rt::Files + Drop> DiskFiles<R> {
    /// The files of this runtime; no call has failed.
    pub fn new(alloc: Global, runtime: R) -> DiskFiles<R>
        ensures { ⟦<DiskFiles<R> as Files>⟧.failed result ≡ [] }
    {
        DiskFiles {
            runtime,
            failed: Vec::new(alloc),
        }
    }
}

// All bytes of a file that is not too long.
fn read_file<R: rt::Files>(runtime: &R, alloc: Global, path: &str) -> io::Result<Vec<u8>> {
    let file = fs::open(runtime, path)?;
    let mut bytes = Vec::new(alloc);
    file.take(MAX_FILE_LEN as u64 + 1).read_to_end(&mut bytes)?;
    if bytes.len() > MAX_FILE_LEN {
        return Err(io::Error::from(ErrorKind::FileTooLarge));
    }
    Ok(bytes)
}

// Takes the room for one more call before it is made, so that its failure can be kept.
fn make_room(failed: &mut Vec<FileCall>, alloc: Global, path: &str) -> Result<String, AllocError>
    ensures same { failed.new.items ≡ failed.old.items }
    ensures path { IfOk result (λ s. string_bytes s ≡ path.now) }
    ensures room { OnOk result (vec_len failed.new < vec_capacity failed.new) }
{
    let path = String::from_str(alloc, path)?;
    failed.reserve(1)?;
    Ok(path)
}

impl<R: rt::Files + Drop> Files for DiskFiles<R> {
    ghost content = { λ _ _. Untold };

    ghost failed = { λ s. calls_of s.failed.items };

    fn read_all(&mut self, alloc: Global, path: &str) -> Result<Vec<u8>, FileFault> {
        let Ok(own) = make_room(&mut self.failed, alloc, path) else {
            return Err(FileFault::NoMemory);
        };
        match read_file(&self.runtime, alloc, path) {
            Ok(bytes) => Ok(bytes),
            Err(e) if e.kind() == ErrorKind::OutOfMemory => Err(FileFault::NoMemory),
            Err(_) => {
                let kept = self.failed.push(FileCall::Read(own));
                prove!(kept.is_ok());
                Err(FileFault::Failed)
            }
        }
    }

    fn write_all(&mut self, alloc: Global, path: &str, bytes: &[u8]) -> Result<(), FileFault> {
        let Ok(own) = make_room(&mut self.failed, alloc, path) else {
            return Err(FileFault::NoMemory);
        };
        match fs::write(&self.runtime, path, bytes) {
            Ok(()) => Ok(()),
            Err(e) if e.kind() == ErrorKind::OutOfMemory => Err(FileFault::NoMemory),
            Err(_) => {
                let kept = self.failed.push(FileCall::Write(own));
                prove!(kept.is_ok());
                Err(FileFault::Failed)
            }
        }
    }
}
