//! Slots of the running frame, in the block of words.
ghost use Rattle.std.specs.Prelude.{◌≡◌, ◌+◌, ◌-◌, ◌<◌, ◌≤◌, ◌++◌, length, take, drop, replicate, slice_index, slice_set};
ghost use Rattle.machine.specs.Machine.{put_words, same_words, words_at, zeroed};

/// The word of a slot.
#[inline(always)]
#[tactic(auto, using(crate::proofs::Words::slot_read))]
pub fn slot(words: &Vec<u64>, base: usize, a: usize) -> u64
    requires { base + a < length words.now.items }
    ensures { result ≡ slice_index (drop base words.now.items) a }
{
    words[base + a]
}

/// A slot gets a word.
#[inline(always)]
#[tactic(auto, using(crate::proofs::Words::slot_written))]
pub fn set_slot(words: &mut Vec<u64>, base: usize, a: usize, word: u64)
    requires { base + a < length words.old.items }
    ensures words { drop base words.new.items ≡ slice_set (drop base words.old.items) a word }
    ensures length { length words.new.items ≡ length words.old.items }
{
    words[base + a] = word;
}

/// The words of `count` slots from `a` on.
#[inline(always)]
#[tactic(auto, using(crate::proofs::Words::slots_read))]
pub fn slots(words: &Vec<u64>, base: usize, a: usize, count: usize) -> &[u64]
    requires { base + (a + count) ≤ length words.now.items }
    ensures is { result.now ≡ words_at (drop base words.now.items) a count }
    ensures length { length result.now ≡ count }
{
    let from = base + a;
    &words[from..from + count]
}

/// Whether `count` slots from `a` on have the words of the slots from `b` on. It stands out of line, so that the
/// other instructions keep their registers.
#[inline(never)]
pub fn same_slots(words: &Vec<u64>, base: usize, a: usize, b: usize, count: usize) -> bool
    requires { (base + (a + count) ≤ length words.now.items) × (base + (b + count) ≤ length words.now.items) }
    ensures { result ≡ same_words (drop base words.now.items) a b count }
{
    slots(words, base, a, count) == slots(words, base, b, count)
}

// The words from an index on are replaced by these.
#[inline(always)]
fn put(words: &mut [u64], from: usize, put: &[u64])
    requires { from + length put.now ≤ length words.old }
    ensures is { words.new ≡ put_words words.old from put.now }
    ensures length { length words.new ≡ length words.old }
{
    words[from..from + put.len()].copy_from_slice(put);
}

// The same in a block.
#[inline(always)]
fn put_block(words: &mut Vec<u64>, from: usize, slots: &[u64])
    requires { from + length slots.now ≤ length words.old.items }
    ensures is { words.new.items ≡ put_words words.old.items from slots.now }
    ensures length { length words.new.items ≡ length words.old.items }
{
    put(words.as_mut_slice(), from, slots);
}

/// The slots from one on get these words.
#[inline(always)]
pub fn set_slots(words: &mut Vec<u64>, base: usize, a: usize, slots: &[u64])
    requires { base + (a + length slots.now) ≤ length words.old.items }
    ensures words { drop base words.new.items ≡ put_words (drop base words.old.items) a slots.now }
    ensures length { length words.new.items ≡ length words.old.items }
{
    put_block(words, base + a, slots);
}

// `count` words from `to` on get the words from `from` on.
#[inline(always)]
fn copy_words(words: &mut [u64], from: usize, to: usize, count: usize)
    requires { (from + count ≤ length words.old) × (to + count ≤ length words.old) }
    ensures is { words.new ≡ put_words words.old to (words_at words.old from count) }
    ensures length { length words.new ≡ length words.old }
{
    words.copy_within(from..from + count, to);
}

// The same in a block.
#[inline(always)]
fn copy_block(words: &mut Vec<u64>, from: usize, to: usize, count: usize)
    requires { (from + count ≤ length words.old.items) × (to + count ≤ length words.old.items) }
    ensures is { words.new.items ≡ put_words words.old.items to (words_at words.old.items from count) }
    ensures length { length words.new.items ≡ length words.old.items }
{
    copy_words(words.as_mut_slice(), from, to, count);
}

// `count` slots from `to` on get the words of the slots from `from` on, as through a copy. It stands out of line, so that the
// other instructions keep their registers.
#[inline(never)]
fn copy_apart(words: &mut Vec<u64>, base: usize, from: usize, to: usize, count: usize)
    requires { (base + (from + count) ≤ length words.old.items) × (base + (to + count) ≤ length words.old.items) }
    ensures words { drop base words.new.items
        ≡ put_words (drop base words.old.items) to (words_at (drop base words.old.items) from count) }
    ensures length { length words.new.items ≡ length words.old.items }
{
    copy_block(words, base + from, base + to, count);
}

/// The same. One word is most often copied, and then by no call.
#[inline(always)]
pub fn copy_slots(words: &mut Vec<u64>, base: usize, from: usize, to: usize, count: usize)
    requires { (base + (from + count) ≤ length words.old.items) × (base + (to + count) ≤ length words.old.items) }
    ensures words { drop base words.new.items
        ≡ put_words (drop base words.old.items) to (words_at (drop base words.old.items) from count) }
    ensures length { length words.new.items ≡ length words.old.items }
{
    if count == 1 {
        let word = slot(words, base, from);
        set_slot(words, base, to, word);
        return;
    }
    copy_apart(words, base, from, to, count);
}

// The words from one index up to another are zero.
#[inline(always)]
fn zero_words(words: &mut [u64], from: usize, to: usize)
    requires { (from ≤ to) × (to ≤ length words.old) }
    ensures is { words.new ≡ take from words.old ++ replicate (to - from) 0 ++ drop to words.old }
    ensures length { length words.new ≡ length words.old }
{
    words[from..to].fill(0);
}

// The words of a block from one index up to another are zero.
#[inline(always)]
fn zero(words: &mut Vec<u64>, from: usize, to: usize)
    requires { (from ≤ to) × (to ≤ length words.old.items) }
    ensures is { words.new.items ≡ take from words.old.items ++ replicate (to - from) 0 ++ drop to words.old.items }
    ensures length { length words.new.items ≡ length words.old.items }
{
    zero_words(words.as_mut_slice(), from, to);
}

/// `count` slots from `from` on get zeros.
#[inline(always)]
pub fn zero_slots(words: &mut Vec<u64>, base: usize, from: usize, count: usize)
    requires { base + (from + count) ≤ length words.old.items }
    ensures words { drop base words.new.items ≡ zeroed (drop base words.old.items) from count }
    ensures length { length words.new.items ≡ length words.old.items }
{
    zero(words, base + from, base + from + count);
}

// The same, out of line.
#[inline(never)]
fn zero_apart(words: &mut Vec<u64>, base: usize, from: usize, count: usize)
    requires { base + (from + count) ≤ length words.old.items }
    ensures words { drop base words.new.items ≡ zeroed (drop base words.old.items) from count }
    ensures length { length words.new.items ≡ length words.old.items }
{
    zero_slots(words, base, from, count);
}

/// The same. One slot is most often cleared, and then by no call.
#[inline(always)]
pub fn clear_slots(words: &mut Vec<u64>, base: usize, from: usize, count: usize)
    requires { base + (from + count) ≤ length words.old.items }
    ensures words { drop base words.new.items ≡ zeroed (drop base words.old.items) from count }
    ensures length { length words.new.items ≡ length words.old.items }
{
    if count == 1 {
        set_slot(words, base, from, 0);
        return;
    }
    zero_apart(words, base, from, count);
}
