//! Words that instructions take from the heap.
ghost use Rattle.std.specs.Prelude.{◌≡◌, ◌≢◌, ◌⊎◌, ◌+◌, ◌*◌, ◌<◌, ◌≤◌, ◌^◌, ◌++◌, length, drop, replicate, slice_index, IfOk, IfErr, OnOk, OnErr, IsTrue, Some, None};
ghost use Rattle.heap_bump.specs.Words.{first_address};
ghost use Rattle.machine.specs.Machine.{Range, allocates, makes, are_sizes};
ghost use Rattle.machine.specs.Answers.{ComesWith, StatusFits, TakeEnds};

use crate::slots::{set_slot, slot};
use crate::{Ending, Next, Panic, RunState};
use heap_bump::{Heap, HeapFault};

/// The most elements that a slice has room for.
pub const MOST_ELEMENTS: u64 = 1 << 40;

/// Takes `count` words of the heap, all zero. The answer is the address of the first one, or how the run ends.
#[inline(always)]
pub fn take(heap: &mut Heap, count: u64) -> Result<u64, Ending>
    ensures address { IfOk result (λ at. at ≡ first_address + length heap.old.words) }
    ensures words { OnOk result (heap.new ≡ record heap.old { words = heap.old.words ++ replicate count 0 }) }
    ensures fits { OnOk result (length heap.old.words + count ≤ heap.old.max) }
    ensures ends { IfErr result (λ e. TakeEnds heap.old count e) }
    ensures same { OnErr result (heap.new ≡ heap.old) }
{
    match heap.take(count) {
        Ok(at) => Ok(at),
        Err(HeapFault::NoMemory) => Err(Ending::NoMemory),
        Err(HeapFault::Limit { used, asked, max }) => Err(Ending::HeapLimit {
            used,
            asked,
            limit: max,
        }),
    }
}

/// The slot `a` gets the address of `count` new words of the heap.
#[inline(never)]
pub fn allocate(words: &mut Vec<u64>, heap: &mut Heap, at: RunState, a: u16, count: u64) -> Next
    requires slot { at.base + a < length words.old.items }
    requires place { at.pc < 2 ^ 40 }
    ensures allocates { (range : Range) → ComesWith range (λ s. allocates s a count) words.old.items heap.old at words.new.items heap.new result }
    ensures on { result.ending ≡ None → result.at ≡ record { pc = at.pc + 1; base = at.base } }
    ensures length { length words.new.items ≡ length words.old.items }
    ensures status { StatusFits result.ending }
    ensures memory { result.ending ≡ Some Ending.NoMemory
        → (length heap.old.words + count ≤ heap.old.max) × (words.new ≡ words.old) × (heap.new ≡ heap.old) }
    ensures read { result.ending ≢ Some Ending.ReadFault }
{
    match take(heap, count) {
        Ok(address) => {
            set_slot(words, at.base, a as usize, address);
            Next::on(at)
        }
        Err(ending) => Next::ended(at, ending),
    }
}

/// Whether words are the length and the capacity of a slice.
#[inline(always)]
pub fn are_sizes(long: u64, capacity: u64) -> bool
    ensures is { result ≡ are_sizes long capacity }
    ensures small { IsTrue result → (long ≤ capacity) × (capacity ≤ 2 ^ 40) }
{
    long <= capacity && capacity <= MOST_ELEMENTS
}

/// The slot `a` gets the address of a new array for elements of w words; the length of its slice stands in the slot behind it,
/// and then the capacity.
pub fn make(words: &mut Vec<u64>, heap: &mut Heap, at: RunState, a: u16, w: u16) -> Next
    requires slots { at.base + (a + 3) ≤ length words.old.items }
    requires place { at.pc < 2 ^ 40 }
    ensures makes { (range : Range) → ComesWith range (λ s. makes s a (slice_index s.words (a + 1)) (slice_index s.words (a + 2)) w)
        words.old.items heap.old at words.new.items heap.new result }
    ensures on { result.ending ≡ None → result.at ≡ record { pc = at.pc + 1; base = at.base } }
    ensures length { length words.new.items ≡ length words.old.items }
    ensures status { StatusFits result.ending }
    ensures memory { result.ending ≡ Some Ending.NoMemory
        → IsTrue (are_sizes (slice_index (drop at.base words.old.items) (a + 1))
        (slice_index (drop at.base words.old.items) (a + 2)))
        × (length heap.old.words + slice_index (drop at.base words.old.items) (a + 2) * w ≤ heap.old.max)
        × (words.new ≡ words.old) × (heap.new ≡ heap.old) }
    ensures read { result.ending ≢ Some Ending.ReadFault }
{
    let long = slot(words, at.base, a as usize + 1);
    let capacity = slot(words, at.base, a as usize + 2);
    if long > MOST_ELEMENTS {
        return Next::panicked(at, Panic::MakeLength(long.cast_signed()));
    }
    if !are_sizes(long, capacity) {
        let (capacity, length) = (capacity.cast_signed(), long.cast_signed());
        return Next::panicked(at, Panic::MakeCapacity { capacity, length });
    }
    allocate(words, heap, at, a, capacity * w as u64)
}
