//! Blocks of names inside each other.

ghost use Rattle.std.specs.Prelude.{◌≡◌, ◌<◌, [], ◌∷◌, length, OnOk, OnErr};
ghost use Rattle.std.specs.Prelude.{reverse, map, ℕ, List, Some, if◌then◌else◌};
ghost use Rattle.std.specs.Str.{bytes_eq};
ghost use Rattle.names.specs.Blocks.{lookup, innermost, count, insert, names_of, entry_of, outer_of};

use base::NoMemory;
use indexmap::IndexMap;
use std::alloc::Global;
use std::marker::Model;

/// The names of the open blocks, each with a number that the caller gives it, such as that of a declaration
/// (Go specification, "Blocks", "Declarations and scope"). Names are told apart by their bytes. One block is always open.
#[derive(Drop)]
pub struct Blocks {
    innermost: IndexMap<Vec<u8>, u32>,
    // The next block out stands last.
    outer: Vec<IndexMap<Vec<u8>, u32>>,
    alloc: Global,
}

impl Model for Blocks {
    ghost use Rattle.std.specs.Prelude.{◌∷◌};
    ghost use Rattle.names.specs.Blocks.{Blocks as OpenBlocks, names_of, outer_of};

    ghost Value = { OpenBlocks };

    ghost view = { λ b. names_of b.innermost ∷ outer_of b.outer.items };
}

impl Blocks {
    /// One open block without names.
    pub fn new(alloc: Global) -> Blocks
        ensures { result ≡ [] ∷ [] }
    {
        Blocks {
            innermost: IndexMap::new(alloc),
            outer: Vec::new(alloc),
            alloc,
        }
    }

    /// Opens a block inside the innermost one.
    pub fn open(&mut self) -> Result<(), NoMemory>
        ensures opened { OnOk result (self.new ≡ [] ∷ self.old) }

        // One block is open at least, so that the new one can be closed.
        ensures outer { 0 < length self.old }
        ensures same { OnErr result (self.new ≡ self.old) }
    {
        self.outer.reserve(1)?;
        let around = std::mem::replace(&mut self.innermost, IndexMap::new(self.alloc));
        // Room is reserved, so that this cannot fail.
        let kept = self.outer.push(around);
        prove!(kept.is_ok());
        let _ = kept;
        Ok(())
    }

    /// Closes the innermost block: its names are forgotten.
    pub fn close(&mut self)
        requires { 1 < length self.old }
        ensures { (b : _) × (self.old ≡ b ∷ self.new) }
    {
        if let Some(around) = self.outer.pop() {
            self.innermost = around;
        }
    }

    /// How many names the innermost block has.
    pub fn count(&self) -> usize
        ensures { result ≡ count self.now }
    {
        self.innermost.len()
    }

    /// Gives a name of the innermost block a number, in place of the one that it had there.
    pub fn insert(&mut self, name: &[u8], entry: u32) -> Result<(), NoMemory>
        ensures inserted { OnOk result (self.new ≡ insert self.old name.now entry) }

        // The name then stands for this number, and every other name for what it stood for.
        ensures last { OnOk result ((other : List ℕ) → lookup self.new other
            ≡ (if bytes_eq other name.now then Some entry else lookup self.old other)) }
        ensures same { OnErr result (self.new ≡ self.old) }
    {
        let key = Vec::from_slice(self.alloc, name)?;
        self.innermost.insert(key, entry)?;
        Ok(())
    }

    /// The number of a name in the innermost block that has it.
    pub fn lookup(&self, name: &[u8]) -> Option<u32>
        ensures { result ≡ lookup self.now name.now }
    {
        match look_up(&self.innermost, name) {
            Some(entry) => Some(entry),
            None => look_up_outer(&self.outer, name),
        }
    }

    /// The number of a name in the innermost block.
    pub fn innermost(&self, name: &[u8]) -> Option<u32>
        ensures { result ≡ innermost self.now name.now }
    {
        look_up(&self.innermost, name)
    }
}

fn look_up(table: &IndexMap<Vec<u8>, u32>, name: &[u8]) -> Option<u32>
    ensures { result ≡ entry_of (names_of table.now) name.now }
{
    table.get(name).copied()
}

fn look_up_outer(tables: &Vec<IndexMap<Vec<u8>, u32>>, name: &[u8]) -> Option<u32>
    ensures { result ≡ lookup (outer_of tables.now.items) name.now }
{
    let mut open = tables.len();
    'outwards: while open > 0 {
        open -= 1;
        if let Some(entry) = look_up(&tables[open], name) {
            return Some(entry);
        }
    }
    None
}
