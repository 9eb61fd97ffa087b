//! Instructions on slices.
ghost use Rattle.std.specs.Prelude.{◌≡◌, ◌≢◌, ◌+◌, ◌*◌, ◌<◌, ◌≤◌, ◌^◌, ◌++◌, [], ◌∷◌, length, drop, take, slice_index, IfOk, IfErr, OnOk, OnErr, IsTrue, IsFalse, Some, None};
ghost use Rattle.heap_bump.specs.Words.{first_address};
ghost use Rattle.machine.specs.Machine.{Range, full_range, slot, is_upto, is_below, element, header, element_of_slice, part_of_slice, are_sizes, grown, lesser, copies, adds_in_place, adds_in_new, adds, appends_slots, appends_slice, appends_to, appends, is_nowhere, renews, put_words};
ghost use Rattle.machine.specs.Inside.{AddedInside, HasRoom};
ghost use Rattle.machine.specs.Answers.{AppendNeeds, ComesTo, ComesWith, GrowthFits, Renewed, StatusFits};

use crate::allocating::{MOST_ELEMENTS, are_sizes, take};
use crate::slots::{set_slot, set_slots, slot};
use crate::spots::{find_elements, is_nowhere, move_to_heap, move_words};
use crate::{Ending, Next, Panic, RunState, Spot};
use heap_bump::Heap;
use isa::Added;
use std::cmp::max;

const FIRST_NEGATIVE: u64 = 1 << 63;

// Of two words, whether the number of the one is from 0 up to that of the other.
#[inline(always)]
fn is_upto(i: u64, n: u64) -> bool
    ensures is { result ≡ is_upto i n }
    ensures least { IsTrue result → i ≤ n }
{
    i <= n && n < FIRST_NEGATIVE
}

// Of two words, whether the number of the one is from 0 up to below that of the other.
#[inline(always)]
fn is_below(i: u64, n: u64) -> bool
    ensures { result ≡ is_below i n }
{
    i < n && n < FIRST_NEGATIVE
}

// The address of the element with an index.
#[inline(always)]
#[tactic(auto, using(crate::proofs::Words::element_wraps))]
fn element(first: u64, index: u64, w: u16) -> u64
    ensures { result ≡ element first index w }
{
    first.wrapping_add(index.wrapping_mul(w as u64))
}

/// The slot `a` gets the address of an element of w words: the one with the index in slot `c` of the slice whose header stands
/// in the slots from `b` on.
#[inline(always)]
pub fn slice_index(words: &mut Vec<u64>, at: RunState, a: u16, b: u16, c: u16, w: u16) -> Next
    requires slots { (at.base + a < length words.old.items) × (at.base + (b + 3) ≤ length words.old.items)
        × (at.base + c < length words.old.items) }
    requires place { at.pc < 2 ^ 40 }
    ensures indexes { (range : Range) → ComesTo range (λ s. element_of_slice s a (slot s b) (slot s c)
        (slot s (b + 1)) w) words.old.items at words.new.items result }
    ensures on { result.ending ≡ None → result.at ≡ record { pc = at.pc + 1; base = at.base } }
    ensures length { length words.new.items ≡ length words.old.items }
    ensures status { StatusFits result.ending }
    ensures memory { result.ending ≢ Some Ending.NoMemory }
    ensures read { result.ending ≢ Some Ending.ReadFault }
{
    let index = slot(words, at.base, c as usize);
    let long = slot(words, at.base, b as usize + 1);
    if !is_below(index, long) {
        let (index, length) = (index.cast_signed(), long.cast_signed());
        return Next::panicked(at, Panic::IndexOutOfRange { index, length });
    }
    let address = element(slot(words, at.base, b as usize), index, w);
    set_slot(words, at.base, a as usize, address);
    Next::on(at)
}

// The slots from `a` on get a slice's header.
#[inline(always)]
fn set_header(words: &mut Vec<u64>, base: usize, a: u16, first: u64, long: u64, capacity: u64)
    requires { base + (a + 3) ≤ length words.old.items }
    ensures words { drop base words.new.items ≡ put_words (drop base words.old.items) a (header first long capacity) }
    ensures length { length words.new.items ≡ length words.old.items }
{
    set_slots(words, base, a as usize, &[first, long, capacity]);
}

/// The slots from `a` on get the header of a part of the slice whose header stands in the slots from `b` on: from the index in
/// slot `c` up to the one in the slot behind it.
pub fn slice_part(words: &mut Vec<u64>, at: RunState, a: u16, b: u16, c: u16, w: u16) -> Next
    requires slots { (at.base + (a + 3) ≤ length words.old.items) × (at.base + (b + 3) ≤ length words.old.items)
        × (at.base + (c + 2) ≤ length words.old.items) }
    requires place { at.pc < 2 ^ 40 }
    ensures slices { (range : Range) → ComesTo range (λ s. part_of_slice s a (slot s b) (slot s (b + 2)) (slot s c) (slot s (c + 1)) w)
        words.old.items at words.new.items result }
    ensures on { result.ending ≡ None → result.at ≡ record { pc = at.pc + 1; base = at.base } }
    ensures length { length words.new.items ≡ length words.old.items }
    ensures status { StatusFits result.ending }
    ensures memory { result.ending ≢ Some Ending.NoMemory }
    ensures read { result.ending ≢ Some Ending.ReadFault }
{
    let base = at.base;
    let (low, high) = (
        slot(words, base, c as usize),
        slot(words, base, c as usize + 1),
    );
    let capacity = slot(words, base, b as usize + 2);
    if !is_upto(high, capacity) {
        let (high, capacity) = (high.cast_signed(), capacity.cast_signed());
        return Next::panicked(at, Panic::SliceHigh { high, capacity });
    }
    if !is_upto(low, high) {
        let (low, high) = (low.cast_signed(), high.cast_signed());
        return Next::panicked(at, Panic::SliceLow { low, high });
    }
    let first = element(slot(words, base, b as usize), low, w);
    set_header(words, base, a, first, high - low, capacity - low);
    Next::on(at)
}

// Of two words, the one that spells the lesser number.
#[inline(always)]
fn lesser(x: u64, y: u64) -> u64
    ensures { result ≡ lesser x y }
{
    if x.cast_signed() <= y.cast_signed() {
        return x;
    }
    y
}

// `count` elements of w words are copied from one address to another, and the slot `a` gets their number.
fn copy_elements(
    words: &mut Vec<u64>,
    stack_max: u64,
    heap: &mut Heap,
    at: RunState,
    a: u16,
    to: u64,
    from: u64,
    count: u64,
    w: u16,
) -> Next
    requires words { (length words.old.items ≤ stack_max) × (stack_max ≤ 2 ^ 32) }
    requires slot { at.base + a < length words.old.items }
    requires place { at.pc < 2 ^ 40 }
    ensures copies { ComesWith (full_range stack_max) (λ s. copies s a to from count w) words.old.items heap.old at words.new.items heap.new result }
    ensures on { result.ending ≡ None → result.at ≡ record { pc = at.pc + 1; base = at.base } }
    ensures length { length words.new.items ≡ length words.old.items }
    ensures status { StatusFits result.ending }
    ensures memory { result.ending ≢ Some Ending.NoMemory }
    ensures read { result.ending ≢ Some Ending.ReadFault }
{
    if is_below(0, count) {
        let source = find_elements(heap, words, stack_max, at.base, from, count, w);
        if is_nowhere(source) {
            return Next::ended(at, Ending::WildAddress(from));
        }
        let target = find_elements(heap, words, stack_max, at.base, to, count, w);
        if is_nowhere(target) {
            return Next::ended(at, Ending::WildAddress(to));
        }
        move_words(
            words,
            heap,
            at.base,
            source,
            target,
            count as usize * w as usize,
        );
    }
    set_slot(words, at.base, a as usize, count);
    Next::on(at)
}

/// The elements of the slice whose header stands in the slots from `c` on are copied over those of the slice with the header from
/// `b` on, as many as both have, and the slot `a` gets their number.
pub fn copy(
    words: &mut Vec<u64>,
    stack_max: u64,
    heap: &mut Heap,
    at: RunState,
    a: u16,
    b: u16,
    c: u16,
    w: u16,
) -> Next
    requires words { (length words.old.items ≤ stack_max) × (stack_max ≤ 2 ^ 32) }
    requires slots { (at.base + a < length words.old.items) × (at.base + (b + 3) ≤ length words.old.items)
        × (at.base + (c + 3) ≤ length words.old.items) }
    requires place { at.pc < 2 ^ 40 }
    ensures copies { ComesWith (full_range stack_max) (λ s. copies s a (slot s b) (slot s c) (lesser (slot s (b + 1)) (slot s (c + 1))) w)
        words.old.items heap.old at words.new.items heap.new result }
    ensures on { result.ending ≡ None → result.at ≡ record { pc = at.pc + 1; base = at.base } }
    ensures length { length words.new.items ≡ length words.old.items }
    ensures status { StatusFits result.ending }
    ensures memory { result.ending ≢ Some Ending.NoMemory }
    ensures read { result.ending ≢ Some Ending.ReadFault }
{
    let base = at.base;
    let count = lesser(
        slot(words, base, b as usize + 1),
        slot(words, base, c as usize + 1),
    );
    let to = slot(words, base, b as usize);
    let from = slot(words, base, c as usize);
    copy_elements(words, stack_max, heap, at, a, to, from, count, w)
}

// The header of a slice, whose length is at most its capacity, and that at most 2^40.
#[derive(Clone, Copy)]
struct Header {
    first: u64,
    long: u64,
    capacity: u64,
}

// The elements at a spot are put behind those of a slice, in its array.
fn add_in_place(
    words: &mut Vec<u64>,
    stack_max: u64,
    heap: &mut Heap,
    at: RunState,
    a: u16,
    old: Header,
    count: u64,
    w: u16,
    source: Spot,
) -> Next
    requires words { (length words.old.items ≤ stack_max) × (stack_max ≤ 2 ^ 32) }
    requires slots { at.base + (a + 3) ≤ length words.old.items }
    requires place { at.pc < 2 ^ 40 }
    requires source { HasRoom heap.old.words (length words.old.items) at.base (count * w) source × IsFalse (is_nowhere source) }
    requires sizes { (old.long + count ≤ 2 ^ 42) × (count ≤ 2 ^ 40) }
    ensures adds { ComesWith (full_range stack_max) (λ s. adds_in_place s a old.first old.long old.capacity count w source)
        words.old.items heap.old at words.new.items heap.new result }
    ensures on { result.ending ≡ None → result.at ≡ record { pc = at.pc + 1; base = at.base } }
    ensures length { length words.new.items ≡ length words.old.items }
    ensures status { StatusFits result.ending }
    ensures memory { result.ending ≢ Some Ending.NoMemory }
    ensures read { result.ending ≢ Some Ending.ReadFault }
{
    let behind = element(old.first, old.long, w);
    let target = find_elements(heap, words, stack_max, at.base, behind, count, w);
    if is_nowhere(target) {
        return Next::ended(at, Ending::WildAddress(behind));
    }
    move_words(
        words,
        heap,
        at.base,
        source,
        target,
        count as usize * w as usize,
    );
    set_header(words, at.base, a, old.first, old.long + count, old.capacity);
    Next::on(at)
}

// An array for `capacity` elements of w words is taken, and the old elements move to it. The answer is its address, or how the
// run ends.
fn renew(
    words: &Vec<u64>,
    stack_max: u64,
    heap: &mut Heap,
    base: usize,
    old: Header,
    capacity: u64,
    w: u16,
) -> Result<u64, Ending>
    requires words { (base ≤ length words.now.items) × (length words.now.items ≤ stack_max) × (stack_max ≤ 2 ^ 32) }
    requires sizes { (old.long ≤ capacity) × (capacity ≤ 2 ^ 42) }
    ensures renews { Renewed (full_range stack_max) old.first old.long capacity w (drop base words.now.items) heap.old heap.new result }
    ensures address { IfOk result (λ at. at ≡ first_address + length heap.old.words) }
    ensures kept { OnOk result (take (length heap.old.words) heap.new.words ≡ heap.old.words) }
    ensures long { OnOk result (length heap.new.words ≡ length heap.old.words + capacity * w) }
    ensures memory { IfErr result (λ e. e ≡ Ending.NoMemory
        → (length heap.old.words + capacity * w ≤ heap.old.max) × (heap.new ≡ heap.old)) }
    ensures status { IfErr result (λ e. StatusFits (Some e)) }
    ensures read { IfErr result (λ e. e ≢ Ending.ReadFault) }
{
    let used = heap.used() as usize;
    let first = match take(heap, capacity * w as u64) {
        Ok(first) => first,
        Err(ending) => return Err(ending),
    };
    if old.long == 0 {
        return Ok(first);
    }
    let source = find_elements(heap, words, stack_max, base, old.first, old.long, w);
    if is_nowhere(source) {
        return Err(Ending::WildAddress(old.first));
    }
    move_to_heap(
        words,
        heap,
        base,
        source,
        used,
        old.long as usize * w as usize,
    );
    Ok(first)
}

// The elements at a spot are put behind those of a slice, in a new array for `capacity` elements.
fn add_in_new(
    words: &mut Vec<u64>,
    stack_max: u64,
    heap: &mut Heap,
    at: RunState,
    a: u16,
    old: Header,
    capacity: u64,
    count: u64,
    w: u16,
    source: Spot,
) -> Next
    requires words { (length words.old.items ≤ stack_max) × (stack_max ≤ 2 ^ 32) }
    requires slots { at.base + (a + 3) ≤ length words.old.items }
    requires place { at.pc < 2 ^ 40 }
    requires source { HasRoom heap.old.words (length words.old.items) at.base (count * w) source × IsFalse (is_nowhere source) }
    requires sizes { (old.long + count ≤ capacity) × (capacity ≤ 2 ^ 42) }
    ensures adds { ComesWith (full_range stack_max) (λ s. adds_in_new s a old.first old.long capacity count w source)
        words.old.items heap.old at words.new.items heap.new result }
    ensures on { result.ending ≡ None → result.at ≡ record { pc = at.pc + 1; base = at.base } }
    ensures length { length words.new.items ≡ length words.old.items }
    ensures status { StatusFits result.ending }
    ensures memory { result.ending ≡ Some Ending.NoMemory
        → (length heap.old.words + capacity * w ≤ heap.old.max) × (words.new ≡ words.old) × (heap.new ≡ heap.old) }
    ensures read { result.ending ≢ Some Ending.ReadFault }
{
    let behind = heap.used() as usize + old.long as usize * w as usize;
    match renew(words, stack_max, heap, at.base, old, capacity, w) {
        Ok(first) => {
            move_to_heap(
                words,
                heap,
                at.base,
                source,
                behind,
                count as usize * w as usize,
            );
            set_header(words, at.base, a, first, old.long + count, capacity);
            Next::on(at)
        }
        Err(ending) => Next::ended(at, ending),
    }
}

// The elements at a spot are put behind those of a slice.
fn add(
    words: &mut Vec<u64>,
    stack_max: u64,
    heap: &mut Heap,
    at: RunState,
    a: u16,
    old: Header,
    count: u64,
    w: u16,
    source: Spot,
) -> Next
    requires words { (length words.old.items ≤ stack_max) × (stack_max ≤ 2 ^ 32) }
    requires slots { at.base + (a + 3) ≤ length words.old.items }
    requires place { at.pc < 2 ^ 40 }
    requires source { HasRoom heap.old.words (length words.old.items) at.base (count * w) source × IsFalse (is_nowhere source) }
    requires sizes { (old.long ≤ old.capacity) × (old.capacity ≤ 2 ^ 40) × (count ≤ 2 ^ 40) }
    ensures adds { ComesWith (full_range stack_max) (λ s. adds s a old.first old.long old.capacity count w source)
        words.old.items heap.old at words.new.items heap.new result }
    ensures on { result.ending ≡ None → result.at ≡ record { pc = at.pc + 1; base = at.base } }
    ensures length { length words.new.items ≡ length words.old.items }
    ensures status { StatusFits result.ending }
    ensures memory { result.ending ≡ Some Ending.NoMemory → GrowthFits heap.old old.long old.capacity count w
        × (words.new ≡ words.old) × (heap.new ≡ heap.old) }
    ensures read { result.ending ≢ Some Ending.ReadFault }
{
    let needed = old.long + count;
    if needed <= old.capacity {
        return add_in_place(words, stack_max, heap, at, a, old, count, w, source);
    }
    let capacity = max(needed, 2 * old.capacity);
    add_in_new(
        words, stack_max, heap, at, a, old, capacity, count, w, source,
    )
}

// The `d` elements in the slots from `c` on are put behind those of a slice.
fn append_slots(
    words: &mut Vec<u64>,
    stack_max: u64,
    heap: &mut Heap,
    at: RunState,
    a: u16,
    old: Header,
    c: u16,
    d: u16,
    w: u16,
) -> Next
    requires words { (length words.old.items ≤ stack_max) × (stack_max ≤ 2 ^ 32) }
    requires slots { (at.base + (a + 3) ≤ length words.old.items) × (at.base + (c + d * w) ≤ length words.old.items) }
    requires place { at.pc < 2 ^ 40 }
    requires sizes { (old.long ≤ old.capacity) × (old.capacity ≤ 2 ^ 40) }
    ensures appends { ComesWith (full_range stack_max) (λ s. appends_slots s a old.first old.long old.capacity c d w)
        words.old.items heap.old at words.new.items heap.new result }
    ensures on { result.ending ≡ None → result.at ≡ record { pc = at.pc + 1; base = at.base } }
    ensures length { length words.new.items ≡ length words.old.items }
    ensures status { StatusFits result.ending }
    ensures memory { result.ending ≡ Some Ending.NoMemory → GrowthFits heap.old old.long old.capacity d w
        × (words.new ≡ words.old) × (heap.new ≡ heap.old) }
    ensures read { result.ending ≢ Some Ending.ReadFault }
{
    if d == 0 {
        set_header(words, at.base, a, old.first, old.long, old.capacity);
        return Next::on(at);
    }
    let source = Spot::InStack(c as usize);
    add(words, stack_max, heap, at, a, old, d as u64, w, source)
}

// The `count` elements from an address on, which are those of a slice, are put behind those of another one.
fn append_slice(
    words: &mut Vec<u64>,
    stack_max: u64,
    heap: &mut Heap,
    at: RunState,
    a: u16,
    old: Header,
    from: u64,
    count: u64,
    w: u16,
) -> Next
    requires words { (length words.old.items ≤ stack_max) × (stack_max ≤ 2 ^ 32) }
    requires slots { at.base + (a + 3) ≤ length words.old.items }
    requires place { at.pc < 2 ^ 40 }
    requires sizes { (old.long ≤ old.capacity) × (old.capacity ≤ 2 ^ 40) }
    ensures appends { ComesWith (full_range stack_max) (λ s. appends_slice s a old.first old.long old.capacity from count w)
        words.old.items heap.old at words.new.items heap.new result }
    ensures on { result.ending ≡ None → result.at ≡ record { pc = at.pc + 1; base = at.base } }
    ensures length { length words.new.items ≡ length words.old.items }
    ensures status { StatusFits result.ending }
    ensures memory { result.ending ≡ Some Ending.NoMemory → GrowthFits heap.old old.long old.capacity count w
        × (words.new ≡ words.old) × (heap.new ≡ heap.old) }
    ensures read { result.ending ≢ Some Ending.ReadFault }
{
    if count > MOST_ELEMENTS {
        return Next::ended(at, Ending::WildHeader(count));
    }
    if count == 0 {
        set_header(words, at.base, a, old.first, old.long, old.capacity);
        return Next::on(at);
    }
    let source = find_elements(heap, words, stack_max, at.base, from, count, w);
    if is_nowhere(source) {
        return Next::ended(at, Ending::WildAddress(from));
    }
    add(words, stack_max, heap, at, a, old, count, w, source)
}

/// Elements of w words are put behind those of the slice whose header stands in the slots from `b` on, and the slots from `a` on
/// get the header of the longer slice.
#[inline(never)]
pub fn append(
    words: &mut Vec<u64>,
    stack_max: u64,
    heap: &mut Heap,
    at: RunState,
    added: Added,
    a: u16,
    b: u16,
    c: u16,
    d: u16,
    w: u16,
) -> Next
    requires words { (length words.old.items ≤ stack_max) × (stack_max ≤ 2 ^ 32) }
    requires slots { (at.base + (a + 3) ≤ length words.old.items) × (at.base + (b + 3) ≤ length words.old.items)
        × AddedInside (length words.old.items) at.base added c d w }
    requires place { at.pc < 2 ^ 40 }
    ensures appends { ComesWith (full_range stack_max) (λ s. appends s added a b c d w) words.old.items heap.old at words.new.items heap.new result }
    ensures on { result.ending ≡ None → result.at ≡ record { pc = at.pc + 1; base = at.base } }
    ensures length { length words.new.items ≡ length words.old.items }
    ensures status { StatusFits result.ending }
    ensures memory { result.ending ≡ Some Ending.NoMemory → AppendNeeds (drop at.base words.old.items) heap.old added b c d w
        × (words.new ≡ words.old) × (heap.new ≡ heap.old) }
    ensures read { result.ending ≢ Some Ending.ReadFault }
{
    let base = at.base;
    let (long, capacity) = (
        slot(words, base, b as usize + 1),
        slot(words, base, b as usize + 2),
    );
    if !are_sizes(long, capacity) {
        return Next::ended(at, Ending::WildHeader(long));
    }
    let first = slot(words, base, b as usize);
    let old = Header {
        first,
        long,
        capacity,
    };
    match added {
        Added::Slots => append_slots(words, stack_max, heap, at, a, old, c, d, w),
        Added::Slice => {
            let (from, count) = (
                slot(words, base, c as usize),
                slot(words, base, c as usize + 1),
            );
            append_slice(words, stack_max, heap, at, a, old, from, count, w)
        }
    }
}
