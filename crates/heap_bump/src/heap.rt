//! The heap.
ghost use Rattle.std.specs.Prelude.{◌≡◌, ◌+◌, ◌<◌, ◌≤◌, ◌++◌, [], length, replicate, Err, IfOk, IfErr, OnOk, OnErr};
ghost use Rattle.heap_bump.specs.Words.{first_address, most_words, AreTaken, word_at, with_word, with_moved, words_at, with_words};

use crate::HeapFault;
use std::alloc::Global;
use std::marker::Model;

/// The address of the first word. Addresses are numbers of words.
pub const HEAP_LOW: u64 = 1 << 20;

/// A heap: the words that are taken, one after the other, and the most that there may be.
#[derive(Drop)]
pub struct Heap {
    words: Vec<u64>,
    max: u64,
}

impl Model for Heap {
    ghost use Rattle.std.specs.Prelude.{◌≤◌, vec_len};
    ghost use Rattle.heap_bump.specs.Words.{Words, most_words};

    ghost Value = { Words };

    ghost view = { λ h. record { words = h.words.items; max = h.max } };

    ghost invariant = { λ h. (vec_len h.words ≤ h.max) × (h.max ≤ most_words) };
}

impl Heap {
    /// A heap without words, of which at most `max` may be taken.
    pub fn new(alloc: Global, max: u64) -> Heap
        requires { max ≤ most_words }
        ensures { result ≡ record { words = []; max = max } }
    {
        Heap {
            words: Vec::new(alloc),
            max,
        }
    }

    /// The number of words taken.
    pub fn used(&self) -> u64
        ensures is { result ≡ length self.now.words }
        ensures low { result ≤ most_words }
    {
        self.words.len() as u64
    }

    /// The number of words that may still be taken.
    pub fn room(&self) -> u64
        ensures { result + length self.now.words ≡ self.now.max }
    {
        self.max - self.used()
    }

    /// Takes n words, all zero, after those taken before. The answer is the address of the first.
    ///
    /// `Limit` exactly where there would be more words than there may be, and else `NoMemory` where memory is refused.
    /// The heap is then as it was.
    pub fn take(&mut self, n: u64) -> Result<u64, HeapFault>
        ensures address { IfOk result (λ at. at ≡ first_address + length self.old.words) }
        ensures words { OnOk result (self.new ≡ record self.old { words = self.old.words ++ replicate n 0 }) }
        ensures limit { self.old.max < length self.old.words + n → result ≡ Err (HeapFault.Limit (length self.old.words) n self.old.max) }
        ensures memory { IfErr result (λ e. length self.old.words + n ≤ self.old.max → e ≡ HeapFault.NoMemory) }
        ensures same { OnErr result (self.new ≡ self.old) }
    {
        let used = self.used();
        if n > self.room() {
            return Err(HeapFault::Limit {
                used,
                asked: n,
                max: self.max,
            });
        }
        self.words.resize((used + n) as usize, 0)?;
        Ok(HEAP_LOW + used)
    }

    /// The word at an address.
    #[inline(always)]
    pub fn get(&self, at: u64) -> u64
        requires { AreTaken self.now.words at 1 }
        ensures { result ≡ word_at self.now.words at }
    {
        self.words[(at - HEAP_LOW) as usize]
    }

    /// Puts a word at an address.
    #[inline(always)]
    pub fn set(&mut self, at: u64, word: u64)
        requires { AreTaken self.old.words at 1 }
        ensures { self.new ≡ record self.old { words = with_word self.old.words at word } }
    {
        let index = (at - HEAP_LOW) as usize;
        self.words[index] = word;
    }

    /// Puts the n words from one address on at another one, as if through a copy.
    pub fn move_words(&mut self, from: u64, to: u64, n: u64)
        requires from { AreTaken self.old.words from n }
        requires to { AreTaken self.old.words to n }
        ensures { self.new ≡ record self.old { words = with_moved self.old.words from to n } }
    {
        let words = &mut self.words;
        let first = (from - HEAP_LOW) as usize;
        words.copy_within(first..first + n as usize, (to - HEAP_LOW) as usize);
    }

    /// The n words from an address on.
    #[inline(always)]
    pub fn words(&self, at: u64, n: usize) -> &[u64]
        requires { AreTaken self.now.words at n }
        ensures { result.now ≡ words_at self.now.words at n }
    {
        let words = &self.words;
        let first = (at - HEAP_LOW) as usize;
        &words[first..first + n]
    }

    /// Puts words from an address on.
    #[inline(always)]
    pub fn put(&mut self, at: u64, put: &[u64])
        requires { AreTaken self.old.words at (length put.now) }
        ensures { self.new ≡ record self.old { words = with_words self.old.words at put.now } }
    {
        let words = &mut self.words;
        let first = (at - HEAP_LOW) as usize;
        words[first..first + put.len()].copy_from_slice(put);
    }
}
