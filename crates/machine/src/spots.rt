//! Words that move between spots of memory.
ghost use Rattle.std.specs.Prelude.{◌≡◌, ◌+◌, ◌*◌, ◌≤◌, ◌^◌, length, drop, IsFalse};
ghost use Rattle.machine.specs.Machine.{upper_end, words_at, put_words, spot_of, is_nowhere, words_in, stack_with, heap_with};
ghost use Rattle.machine.specs.Inside.{HasRoom};

use crate::Spot;
use crate::memory::find;
use crate::slots::{copy_slots, set_slots, slots};
use heap_bump::{HEAP_LOW, Heap};

/// Whether words lie nowhere.
#[inline(always)]
pub fn is_nowhere(spot: Spot) -> bool
    ensures { result ≡ is_nowhere spot }
{
    match spot {
        Spot::Nowhere => true,
        Spot::InHeap(_) | Spot::InStack(_) => false,
    }
}

/// Where `count` elements of w words from an address on lie.
pub fn find_elements(
    heap: &Heap,
    words: &Vec<u64>,
    stack_max: u64,
    base: usize,
    at: u64,
    count: u64,
    w: u16,
) -> Spot
    requires { (base ≤ length words.now.items) × (length words.now.items ≤ stack_max) × (stack_max ≤ 2 ^ 32) }
    ensures is { result ≡ spot_of (upper_end stack_max) heap.now.words (drop base words.now.items) at (count * w) }
    ensures room { HasRoom heap.now.words (length words.now.items) base (count * w) result }
    ensures small { IsFalse (is_nowhere result) → count * w ≤ 2 ^ 32 }
{
    find(
        heap,
        words,
        stack_max,
        base,
        at,
        count.saturating_mul(w as u64),
    )
}

// The `n` words of the heap from an index on.
#[inline(always)]
fn heap_words(heap: &Heap, index: usize, n: usize) -> &[u64]
    requires { index + n ≤ length heap.now.words }
    ensures is { result.now ≡ words_at heap.now.words index n }
    ensures length { length result.now ≡ n }
{
    let _used = heap.used();
    heap.words(HEAP_LOW + index as u64, n)
}

// The heap's words from an index on are replaced by these.
#[inline(always)]
fn put_heap(heap: &mut Heap, index: usize, put: &[u64])
    requires { index + length put.now ≤ length heap.old.words }
    ensures { heap.new ≡ record heap.old { words = put_words heap.old.words index put.now } }
{
    let _used = heap.used();
    heap.put(HEAP_LOW + index as u64, put);
}

// `n` words of the heap from `to` on get the words from `from` on.
#[inline(always)]
fn copy_heap(heap: &mut Heap, from: usize, to: usize, n: usize)
    requires { (from + n ≤ length heap.old.words) × (to + n ≤ length heap.old.words) }
    ensures { heap.new ≡ record heap.old { words = put_words heap.old.words to (words_at heap.old.words from n) } }
{
    let _used = heap.used();
    heap.move_words(HEAP_LOW + from as u64, HEAP_LOW + to as u64, n as u64);
}

/// The words of the heap from an index on get the `n` words at a spot, as through a copy.
#[inline(never)]
pub fn move_to_heap(
    words: &Vec<u64>,
    heap: &mut Heap,
    base: usize,
    source: Spot,
    to: usize,
    n: usize,
)
    requires source { HasRoom heap.old.words (length words.now.items) base n source × IsFalse (is_nowhere source) }
    requires target { to + n ≤ length heap.old.words }
    ensures { heap.new ≡ record heap.old {
      words = put_words heap.old.words to
          (words_in source heap.old.words (drop base words.now.items) n);
    } }
{
    match source {
        Spot::InHeap(from) => copy_heap(heap, from, to, n),
        Spot::InStack(from) => put_heap(heap, to, slots(words, base, from, n)),
        Spot::Nowhere => {}
    }
}

// The slots from one on get the `n` words at a spot, as through a copy.
#[inline(never)]
fn move_to_stack(words: &mut Vec<u64>, heap: &Heap, base: usize, source: Spot, to: usize, n: usize)
    requires source { HasRoom heap.now.words (length words.old.items) base n source × IsFalse (is_nowhere source) }
    requires target { base + (to + n) ≤ length words.old.items }
    ensures words { drop base words.new.items
        ≡ put_words (drop base words.old.items) to (words_in source heap.now.words (drop base words.old.items) n) }
    ensures length { length words.new.items ≡ length words.old.items }
{
    match source {
        Spot::InHeap(from) => set_slots(words, base, to, heap_words(heap, from, n)),
        Spot::InStack(from) => copy_slots(words, base, from, to, n),
        Spot::Nowhere => {}
    }
}

/// The `n` words at one spot move to another one, as through a copy.
#[inline(always)]
pub fn move_words(
    words: &mut Vec<u64>,
    heap: &mut Heap,
    base: usize,
    source: Spot,
    target: Spot,
    n: usize,
)
    requires source { HasRoom heap.old.words (length words.old.items) base n source × IsFalse (is_nowhere source) }
    requires target { HasRoom heap.old.words (length words.old.items) base n target }
    ensures words { drop base words.new.items
        ≡ stack_with target (drop base words.old.items) (words_in source heap.old.words (drop base words.old.items) n) }
    ensures heap { heap.new ≡ record heap.old {
      words = heap_with target heap.old.words
          (words_in source heap.old.words (drop base words.old.items) n);
    } }
    ensures length { length words.new.items ≡ length words.old.items }
{
    match target {
        Spot::InHeap(to) => move_to_heap(words, heap, base, source, to, n),
        Spot::InStack(to) => move_to_stack(words, heap, base, source, to, n),
        Spot::Nowhere => {}
    }
}
