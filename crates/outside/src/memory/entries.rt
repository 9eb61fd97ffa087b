//! Entries of paths with their contents, the newest first.
ghost use Rattle.std.specs.Prelude.{◌≡◌, ◌∷◌, OnOk, OnErr};
ghost use Rattle.outside.specs.Files.{content_of};
ghost use Rattle.outside.specs.Entries.{entries_of, ShowsContent};

use std::alloc::{AllocError, Global};

// The bytes of the first entry with this path.
pub(crate) fn look_up<'a>(held: &'a [(String, Vec<u8>)], path: &str) -> Option<&'a [u8]>
    ensures { ShowsContent (content_of (entries_of held.now) path.now) result }
{
    let mut rest = held;
    'entries: while let [entry, after @ ..] = rest {
        if entry.0.as_str() == path {
            return Some(entry.1.as_slice());
        }
        rest = after;
    }
    None
}

// Puts an entry before all others.
pub(crate) fn put_first(
    alloc: Global,
    held: &mut Vec<(String, Vec<u8>)>,
    path: &str,
    bytes: &[u8],
) -> Result<(), AllocError>
    ensures ok { OnOk result (entries_of held.new.items ≡ record { 0 = path.now; 1 = bytes.now } ∷ entries_of held.old.items) }
    ensures err { OnErr result (held.new.items ≡ held.old.items) }
{
    let name = String::from_str(alloc, path)?;
    let copy = Vec::from_slice(alloc, bytes)?;
    held.insert(0, (name, copy))?;
    Ok(())
}
