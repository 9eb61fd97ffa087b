//! Memory that is reached by addresses: the heap's words that are taken, and the stack from the running frame on.
ghost use Rattle.std.specs.Prelude.{◌≡◌, ◌≢◌, ◌+◌, ◌-◌, ◌<◌, ◌≤◌, ◌^◌, length, drop, slice_index, IsFalse, IsTrue, Some, None};
ghost use Rattle.machine.specs.Machine.{Range, upper_end, full_range, words_at, lie_within, address_of, address_behind, spot_of, loads_from, loads, stores_at, stores, offsets, element_address, indexes};
ghost use Rattle.machine.specs.Inside.{Reached};
ghost use Rattle.machine.specs.Answers.{ComesTo, ComesWith, StatusFits, TouchComes};

use crate::links::address;
use crate::slots::{copy_slots, set_slot, set_slots, slot, slots};
use crate::{Ending, Next, Panic, RunState};
use heap_bump::{HEAP_LOW, Heap};

/// Where words lie: in the heap from an index on, counted from its lowest word, in the stack from an index on, counted from
/// the running frame's lowest word, or nowhere.
#[derive(Clone, Copy, Debug, PartialEq, Eq)]
pub enum Spot {
    InHeap(usize),
    InStack(usize),
    Nowhere,
}

// Whether `n` words from an address on lie from `low` up to `high`.
#[inline(always)]
fn lie_within(low: u64, high: u64, at: u64, n: u64) -> bool
    requires { low ≤ high }
    ensures { result ≡ lie_within low high at n }
{
    low <= at && at <= high && n <= high - at
}

/// Where `n` words from an address on lie.
#[inline(always)]
pub(crate) fn find(
    heap: &Heap,
    words: &Vec<u64>,
    stack_max: u64,
    base: usize,
    at: u64,
    n: u64,
) -> Spot
    requires { (base ≤ length words.now.items) × (length words.now.items ≤ stack_max) × (stack_max ≤ 2 ^ 32) }
    ensures is { result ≡ spot_of (upper_end stack_max) heap.now.words (drop base words.now.items) at n }
    ensures reached { Reached heap.now.words (length words.now.items) base at n result }
    ensures small { length heap.now.words ≤ 2 ^ 32 }
{
    if lie_within(HEAP_LOW, HEAP_LOW + heap.used(), at, n) {
        return Spot::InHeap((at - HEAP_LOW) as usize);
    }
    let low = address(stack_max, words.len() - base);
    if lie_within(low, address(stack_max, 0), at, n) {
        return Spot::InStack((at - low) as usize);
    }
    Spot::Nowhere
}

// The address that lies `off` above the word of a slot, unless that is 0.
#[inline(always)]
fn address_behind(words: &Vec<u64>, base: usize, a: u16, off: u16) -> Option<u64>
    requires { base + a < length words.now.items }
    ensures { result ≡ address_behind (slice_index (drop base words.now.items) a) off }
{
    let word = slot(words, base, a as usize);
    if word == 0 {
        return None;
    }
    Some(word.wrapping_add(off as u64))
}

// The slots from `a` on get `n` words from an address on, or they lie nowhere. It stands out of line, so that the other
// instructions keep their registers.
#[inline(never)]
fn load_words(
    words: &mut Vec<u64>,
    stack_max: u64,
    heap: &Heap,
    base: usize,
    a: u16,
    at: u64,
    n: u16,
) -> bool
    requires words { (length words.old.items ≤ stack_max) × (stack_max ≤ 2 ^ 32) }
    requires slots { base + (a + n) ≤ length words.old.items }
    ensures loads { TouchComes (full_range stack_max) (λ s. loads_from (spot_of s.range.hi s.heap.words s.words at n) s a n at) base at
        words.old.items heap.now words.new.items heap.now result }
    ensures length { length words.new.items ≡ length words.old.items }
{
    match find(heap, words, stack_max, base, at, n as u64) {
        Spot::InHeap(_) => {
            set_slots(words, base, a as usize, heap.words(at, n as usize));
            true
        }
        Spot::InStack(index) => {
            copy_slots(words, base, index, a as usize, n as usize);
            true
        }
        Spot::Nowhere => false,
    }
}

// The words from an address on get those of `n` slots from `c` on, or they lie nowhere.
#[inline(never)]
fn store_words(
    words: &mut Vec<u64>,
    stack_max: u64,
    heap: &mut Heap,
    base: usize,
    at: u64,
    c: u16,
    n: u16,
) -> bool
    requires words { (length words.old.items ≤ stack_max) × (stack_max ≤ 2 ^ 32) }
    requires slots { base + (c + n) ≤ length words.old.items }
    ensures stores { TouchComes (full_range stack_max) (λ s. stores_at (spot_of s.range.hi s.heap.words s.words at n) s (words_at s.words c n) at) base at
        words.old.items heap.old words.new.items heap.new result }
    ensures length { length words.new.items ≡ length words.old.items }
{
    match find(heap, words, stack_max, base, at, n as u64) {
        Spot::InHeap(_) => {
            heap.put(at, slots(words, base, c as usize, n as usize));
            true
        }
        Spot::InStack(index) => {
            copy_slots(words, base, c as usize, index, n as usize);
            true
        }
        Spot::Nowhere => false,
    }
}

/// The address of a slot.
#[inline(always)]
pub fn slot_address(words: &Vec<u64>, stack_max: u64, base: usize, a: u16) -> u64
    requires words { (length words.now.items ≤ stack_max) × (stack_max ≤ 2 ^ 32) }
    requires slot { base + a < length words.now.items }
    ensures { result ≡ address_of (upper_end stack_max) (length (drop base words.now.items) - a) }
{
    address(stack_max, words.len() - base - a as usize)
}

/// The slot `a` gets the address that lies `off` above the word of slot `b`.
#[inline(always)]
pub fn offset(words: &mut Vec<u64>, at: RunState, a: u16, b: u16, off: u16) -> Next
    requires slots { (at.base + a < length words.old.items) × (at.base + b < length words.old.items) }
    requires place { at.pc < 2 ^ 40 }
    ensures offsets { (range : Range) → ComesTo range (λ s. offsets s a b off) words.old.items at words.new.items result }
    ensures on { result.ending ≡ None → result.at ≡ record { pc = at.pc + 1; base = at.base } }
    ensures length { length words.new.items ≡ length words.old.items }
    ensures status { StatusFits result.ending }
    ensures memory { result.ending ≢ Some Ending.NoMemory }
    ensures read { result.ending ≢ Some Ending.ReadFault }
{
    match address_behind(words, at.base, b, off) {
        None => Next::panicked(at, Panic::NilPointer),
        Some(address) => {
            set_slot(words, at.base, a as usize, address);
            Next::on(at)
        }
    }
}

// The address of an element of w words, by its index in an array of len elements that begins at an address.
#[inline(always)]
fn element_address(first: u64, index: i64, len: u16, w: u16) -> Option<u64>
    ensures { result ≡ element_address first index len w }
{
    if (0..len as i64).contains(&index) {
        return Some(first.wrapping_add(index as u64 * w as u64));
    }
    None
}

/// The slot a gets the address of an element of w words: the one with the index in slot c of an array of len elements that
/// begins at the word of slot b.
#[inline(always)]
pub fn index(words: &mut Vec<u64>, at: RunState, a: u16, b: u16, c: u16, len: u16, w: u16) -> Next
    requires slots { (at.base + a < length words.old.items) × (at.base + b < length words.old.items)
        × (at.base + c < length words.old.items) }
    requires place { at.pc < 2 ^ 40 }
    ensures indexes { (range : Range) → ComesTo range (λ s. indexes s a b c len w) words.old.items at words.new.items result }
    ensures on { result.ending ≡ None → result.at ≡ record { pc = at.pc + 1; base = at.base } }
    ensures length { length words.new.items ≡ length words.old.items }
    ensures status { StatusFits result.ending }
    ensures memory { result.ending ≢ Some Ending.NoMemory }
    ensures read { result.ending ≢ Some Ending.ReadFault }
{
    match address_behind(words, at.base, b, 0) {
        None => Next::panicked(at, Panic::NilPointer),
        Some(first) => {
            let index = slot(words, at.base, c as usize).cast_signed();
            match element_address(first, index, len, w) {
                None => {
                    let length = len as i64;
                    Next::panicked(at, Panic::IndexOutOfRange { index, length })
                }
                Some(address) => {
                    set_slot(words, at.base, a as usize, address);
                    Next::on(at)
                }
            }
        }
    }
}

// The run goes on after a touch of words from an address on, if they lie somewhere.
#[inline(always)]
fn reached(at: RunState, address: u64, lie: bool) -> Next
    requires { at.pc < 2 ^ 40 }
    ensures on { IsTrue lie → result ≡ record { at = record { pc = at.pc + 1; base = at.base }; ending = None } }
    ensures wild { IsFalse lie → result ≡ record { at = at; ending = Some (Ending.WildAddress address) } }
{
    if lie {
        return Next::on(at);
    }
    Next::ended(at, Ending::WildAddress(address))
}

/// The slots from `a` on get the `n` words that lie `off` above the word of slot `b`.
#[inline(always)]
pub fn load(
    words: &mut Vec<u64>,
    stack_max: u64,
    heap: &Heap,
    at: RunState,
    a: u16,
    b: u16,
    off: u16,
    n: u16,
) -> Next
    requires words { (length words.old.items ≤ stack_max) × (stack_max ≤ 2 ^ 32) }
    requires slots { (at.base + (a + n) ≤ length words.old.items) × (at.base + b < length words.old.items) }
    requires place { at.pc < 2 ^ 40 }
    ensures loads { ComesWith (full_range stack_max) (λ s. loads s a b off n) words.old.items heap.now at words.new.items heap.now result }
    ensures on { result.ending ≡ None → result.at ≡ record { pc = at.pc + 1; base = at.base } }
    ensures length { length words.new.items ≡ length words.old.items }
    ensures status { StatusFits result.ending }
    ensures memory { result.ending ≢ Some Ending.NoMemory }
    ensures read { result.ending ≢ Some Ending.ReadFault }
{
    match address_behind(words, at.base, b, off) {
        None => Next::panicked(at, Panic::NilPointer),
        Some(address) => {
            let lie = load_words(words, stack_max, heap, at.base, a, address, n);
            reached(at, address, lie)
        }
    }
}

/// The `n` words that lie `off` above the word of slot `a` get those of the slots from `c` on.
#[inline(always)]
pub fn store(
    words: &mut Vec<u64>,
    stack_max: u64,
    heap: &mut Heap,
    at: RunState,
    a: u16,
    off: u16,
    c: u16,
    n: u16,
) -> Next
    requires words { (length words.old.items ≤ stack_max) × (stack_max ≤ 2 ^ 32) }
    requires slots { (at.base + a < length words.old.items) × (at.base + (c + n) ≤ length words.old.items) }
    requires place { at.pc < 2 ^ 40 }
    ensures stores { ComesWith (full_range stack_max) (λ s. stores s a off c n) words.old.items heap.old at words.new.items heap.new result }
    ensures on { result.ending ≡ None → result.at ≡ record { pc = at.pc + 1; base = at.base } }
    ensures length { length words.new.items ≡ length words.old.items }
    ensures status { StatusFits result.ending }
    ensures memory { result.ending ≢ Some Ending.NoMemory }
    ensures read { result.ending ≢ Some Ending.ReadFault }
{
    match address_behind(words, at.base, a, off) {
        None => Next::panicked(at, Panic::NilPointer),
        Some(address) => {
            let lie = store_words(words, stack_max, heap, at.base, address, c, n);
            reached(at, address, lie)
        }
    }
}
