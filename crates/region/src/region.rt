//! The region.
ghost use Rattle.std.specs.Prelude.{◌≡◌, ℕ, ◌+◌, ◌-◌, ◌^◌, ◌<◌, ◌≤◌, ◌++◌, [], length, replicate, drop, IfOk};
ghost use Rattle.region.specs.Block.{mark_of, IsInUse, word_at, with_word, IsBounded};

use base::NoMemory;
use std::alloc::Global;
use std::marker::Model;

/// A block of words at the addresses from `lo` to below `hi`, initialised from the mark on.
#[derive(Drop)]
pub struct Region {
    lo: u64,
    hi: u64,
    capacity: u64,
    // The initialised words, from the highest address down.
    words: Vec<u64>,
}

impl Model for Region {
    ghost use Rattle.std.specs.Prelude.{◌+◌, ◌^◌, ◌<◌, ◌≤◌, vec_len, vec_capacity, reverse};
    ghost use Rattle.region.specs.Block.{Block};

    ghost Value = { Block };

    ghost view = { λ r. record { lo = r.lo; hi = r.hi; capacity = r.capacity; words = reverse r.words.items } };

    ghost invariant = { λ r. (r.lo + vec_len r.words ≤ r.hi) × (r.hi ≤ r.lo + r.capacity) × (r.hi < 2 ^ 64) × (r.capacity ≤ vec_capacity r.words) };
}

impl Region {
    /// A block of `size` words from the address `lo` on, none of them initialised.
    pub fn new(alloc: Global, lo: u64, size: u64) -> Result<Region, NoMemory>
        requires { lo + size < 2 ^ 64 }
        ensures { IfOk result (λ r. r ≡ record { lo = lo; hi = lo + size; capacity = size; words = [] }) }
    {
        Ok(Region {
            lo,
            hi: lo + size,
            capacity: size,
            words: Vec::with_capacity(alloc, size as usize)?,
        })
    }

    /// The lowest address.
    pub fn lo(&self) -> u64
        ensures is { result ≡ self.now.lo }
        ensures bounds { IsBounded self.now }
    {
        self.lo
    }

    /// The address after the highest one.
    pub fn hi(&self) -> u64
        ensures is { result ≡ self.now.hi }
        ensures bounds { IsBounded self.now }
    {
        self.hi
    }

    /// The most words that the block has room for, wherever it is put: the size that was given to `new`.
    pub fn capacity(&self) -> u64
        ensures is { result ≡ self.now.capacity }
        ensures bounds { IsBounded self.now }
    {
        self.capacity
    }

    /// The address of the lowest initialised word, or `hi`.
    pub fn mark(&self) -> u64
        ensures is { result ≡ mark_of self.now }
        ensures bounds { IsBounded self.now }
    {
        self.hi - self.words.len() as u64
    }

    /// Puts the mark at a lower address. The words that come in are zero.
    pub fn lower_mark(&mut self, to: u64)
        requires from { self.old.lo ≤ to }
        requires down { to ≤ mark_of self.old }
        ensures { self.new ≡ record self.old { words = replicate (mark_of self.old - to) 0 ++ self.old.words } }
    {
        // There is room.
        self.words.resize((self.hi - to) as usize, 0).unwrap();
    }

    /// Puts the mark at a higher address. The words below it are given up.
    pub fn raise_mark(&mut self, to: u64)
        requires up { mark_of self.old ≤ to }
        requires within { to ≤ self.old.hi }
        ensures { self.new ≡ record self.old { words = drop (to - mark_of self.old) self.old.words } }
    {
        self.words.truncate((self.hi - to) as usize);
    }

    /// Puts the block at other addresses, without words.
    pub fn reset(&mut self, lo: u64, size: u64)
        requires room { size ≤ self.old.capacity }
        requires addresses { lo + size < 2 ^ 64 }
        ensures { self.new ≡ record { lo = lo; hi = lo + size; capacity = self.old.capacity; words = [] } }
    {
        self.words.clear();
        self.lo = lo;
        self.hi = lo + size;
    }

    /// The word at an address.
    #[inline(always)]
    pub fn get(&self, at: u64) -> u64
        requires { IsInUse self.now at }
        ensures { result ≡ word_at self.now at }
    {
        self.words[(self.hi - 1 - at) as usize]
    }

    /// Puts a word at an address.
    #[inline(always)]
    pub fn set(&mut self, at: u64, word: u64)
        requires { IsInUse self.old at }
        ensures { self.new ≡ record self.old { words = with_word self.old at word } }
    {
        let index = (self.hi - 1 - at) as usize;
        self.words[index] = word;
    }

    /// Puts the words of another region at the upper end of this one, which has none.
    pub fn copy_top(&mut self, other: &Region)
        requires empty { self.old.words ≡ [] }
        requires fits { self.old.lo + length other.now.words ≤ self.old.hi }
        ensures { self.new ≡ record self.old { words = other.now.words } }
    {
        // There is room.
        self.words.extend_from_slice(&other.words).unwrap();
    }
}
