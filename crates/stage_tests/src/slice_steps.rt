//! Steps of the instructions that take words of the heap or work on slices, each at the start of the only function of a code, at
//! the edges of what they do.
ghost use Rattle.std.specs.Prelude.{◌≡◌};

use crate::back_end::{END, run_on};
use crate::instructions::{LOW, SLOTS, code_with, fits, slots_after, stack};
use heap_bump::{HEAP_LOW, Heap};
use isa::{Added, Instr};
use machine::{Ending, Next, Panic, RunState};
use outside::MemSink;
use std::alloc::Global;
use std::process::Abort;
use std::test::Fail;

/// The heap's words before each instruction, and how many there may be.
const HELD: [u64; 6] = [1, 2, 3, 4, 5, 6];

const HEAP_MOST: u64 = 16;

/// The address of the heap's first word, and the one after its words.
const H: u64 = HEAP_LOW;

const NEW: u64 = HEAP_LOW + 6;

/// The word of -1, and the most elements of a slice.
const MINUS: u64 = u64::MAX;

const MANY: u64 = 1 << 40;

/// Slots before an instruction: these, and zeros.
fn slots(first: &[u64]) -> [u64; SLOTS] {
    slots_after([0; SLOTS], first)
}

/// A heap that holds the words.
fn held(alloc: Global) -> Result<Heap, Fail> {
    let mut heap = Heap::new(alloc, HEAP_MOST);
    let at = heap.take(6).ok().ok_or("no words")?;
    heap.put(at, &HELD);
    Ok(heap)
}

/// What a step of an instruction comes to.
fn step_on(
    rt: &impl Abort,
    alloc: Global,
    instr: Instr,
    words: &mut Vec<u64>,
    heap: &mut Heap,
) -> Result<Next, Fail> {
    assert!(rt; fits(instr));
    let code = code_with(alloc, instr)?;
    let mut out = MemSink::new(alloc, Vec::new(alloc));
    let at = RunState { pc: 0, base: 0 };
    Ok(run_on(rt, alloc, &code, words, heap, at, 1, &mut out))
}

/// The step goes on, and the first slots and the heap are these; the other slots keep their words.
fn check_goes(
    rt: &impl Abort,
    alloc: Global,
    instr: Instr,
    before: &[u64],
    first: &[u64],
    want: &[u64],
) -> Result<(), Fail> {
    let before = slots(before);
    let mut words = stack(alloc, before, &[41, 42, 43])?;
    let mut heap = held(alloc)?;
    let next = step_on(rt, alloc, instr, &mut words, &mut heap)?;
    assert_eq!(rt; next.ending, None, "{instr:?}");
    let after = stack(alloc, slots_after(before, first), &[41, 42, 43])?;
    assert_eq!(rt; words, after, "{instr:?}");
    assert!(rt; heap.used() == want.len() as u64, "{instr:?}");
    assert_eq!(rt; heap.words(HEAP_LOW, want.len()), want, "{instr:?}");
    Ok(())
}

/// The run ends in the step.
fn check_ends(
    rt: &impl Abort,
    alloc: Global,
    instr: Instr,
    before: &[u64],
    ending: Ending,
) -> Result<(), Fail> {
    let mut words = stack(alloc, slots(before), &[41, 42, 43])?;
    let mut heap = held(alloc)?;
    let next = step_on(rt, alloc, instr, &mut words, &mut heap)?;
    assert_eq!(rt; next.ending, Some(ending), "{instr:?} {before:?}");
    Ok(())
}

const fn alloc_of(n: u16) -> Instr {
    Instr::Alloc { a: 0, n, site: 7 }
}

const fn born(a: u16, n: u16) -> Instr {
    Instr::Born { a, n, site: 7 }
}

const fn make(w: u16) -> Instr {
    Instr::Make { a: 0, w, site: 7 }
}

const fn append(added: Added, d: u16, w: u16) -> Instr {
    Instr::Append {
        added,
        a: 0,
        b: 0,
        c: 3,
        d,
        w,
        site: 7,
    }
}

const fn copy(w: u16) -> Instr {
    Instr::Copy {
        a: 6,
        b: 0,
        c: 3,
        w,
    }
}

const INDEX: Instr = Instr::SliceIndex {
    a: 6,
    b: 0,
    c: 3,
    w: 2,
};

const PART: Instr = Instr::Slice {
    a: 0,
    b: 0,
    c: 3,
    w: 2,
};

#[test]
fn words_are_taken(rt: HostRuntime) -> Result<(), Fail> {
    let rows: [(Instr, &[u64], &[u64], &[u64]); 9] = [
        (born(1, 2), &[8, 8, 8, 8], &[8, 0, 0], &HELD),
        (born(7, 0), &[8, 8, 8, 8], &[], &HELD),
        (alloc_of(3), &[8], &[NEW], &[1, 2, 3, 4, 5, 6, 0, 0, 0]),
        (alloc_of(0), &[8], &[NEW], &HELD),
        (
            alloc_of(10),
            &[8],
            &[NEW],
            &[1, 2, 3, 4, 5, 6, 0, 0, 0, 0, 0, 0, 0, 0, 0, 0],
        ),
        (
            make(2),
            &[8, 2, 3],
            &[NEW],
            &[1, 2, 3, 4, 5, 6, 0, 0, 0, 0, 0, 0],
        ),
        (
            make(2),
            &[8, 0, 5],
            &[NEW],
            &[1, 2, 3, 4, 5, 6, 0, 0, 0, 0, 0, 0, 0, 0, 0, 0],
        ),
        (make(1), &[8, 0, 0], &[NEW], &HELD),
        (make(3), &[8, 1, 1], &[NEW], &[1, 2, 3, 4, 5, 6, 0, 0, 0]),
    ];
    for (instr, before, first, want) in rows {
        check_goes(&rt, rt.alloc(), instr, before, first, want)?;
    }
    Ok(())
}

fn limit(asked: u64) -> Ending {
    Ending::HeapLimit {
        used: 6,
        asked,
        limit: HEAP_MOST,
    }
}

fn capacity(capacity: i64, length: i64) -> Ending {
    Ending::Panic(Panic::MakeCapacity { capacity, length })
}

#[test]
fn words_are_refused(rt: HostRuntime) -> Result<(), Fail> {
    let many = MANY as i64 + 1;
    let rows: [(Instr, &[u64], Ending); 8] = [
        (alloc_of(11), &[], limit(11)),
        (
            make(1),
            &[0, MINUS, MINUS],
            Ending::Panic(Panic::MakeLength(-1)),
        ),
        (
            make(1),
            &[0, MANY + 1, 0],
            Ending::Panic(Panic::MakeLength(many)),
        ),
        (make(1), &[0, 2, 1], capacity(1, 2)),
        (make(1), &[0, 0, MINUS], capacity(-1, 0)),
        (make(1), &[0, 1, MANY + 1], capacity(many, 1)),
        (make(1), &[0, MANY, MANY], limit(MANY)),
        (make(2), &[0, 0, 6], limit(12)),
    ];
    for (instr, before, ending) in rows {
        check_ends(&rt, rt.alloc(), instr, before, ending)?;
    }
    Ok(())
}

#[test]
fn slices_have_elements_and_parts(rt: HostRuntime) -> Result<(), Fail> {
    let rows: [(Instr, &[u64], &[u64], &[u64]); 8] = [
        (INDEX, &[H, 3, 3, 2], &[H, 3, 3, 2, 0, 0, H + 4], &HELD),
        (INDEX, &[5, 3, 3, 1], &[5, 3, 3, 1, 0, 0, 7], &HELD),
        (INDEX, &[MINUS, 3, 3, 1], &[MINUS, 3, 3, 1, 0, 0, 1], &HELD),
        (PART, &[H, 2, 3, 1, 3], &[H + 2, 2, 2], &HELD),
        (PART, &[H, 2, 3, 0, 0], &[H, 0, 3], &HELD),
        (PART, &[H, 2, 3, 3, 3], &[H + 6, 0, 0], &HELD),
        (PART, &[0, 0, 0, 0, 0], &[0, 0, 0], &HELD),
        (PART, &[MINUS, 1, 1, 1, 1], &[1, 0, 0], &HELD),
    ];
    for (instr, before, first, want) in rows {
        check_goes(&rt, rt.alloc(), instr, before, first, want)?;
    }
    Ok(())
}

fn out_of_range(index: i64, length: i64) -> Ending {
    Ending::Panic(Panic::IndexOutOfRange { index, length })
}

fn too_high(high: i64, capacity: i64) -> Ending {
    Ending::Panic(Panic::SliceHigh { high, capacity })
}

fn too_low(low: i64, high: i64) -> Ending {
    Ending::Panic(Panic::SliceLow { low, high })
}

#[test]
fn slices_end_where_they_end(rt: HostRuntime) -> Result<(), Fail> {
    let rows: [(Instr, &[u64], Ending); 11] = [
        (INDEX, &[H, 3, 3, 3], out_of_range(3, 3)),
        (INDEX, &[H, 3, 3, MINUS], out_of_range(-1, 3)),
        (INDEX, &[H, MINUS, 3, 0], out_of_range(0, -1)),
        (INDEX, &[H, MINUS, 3, MINUS], out_of_range(-1, -1)),
        (INDEX, &[0, 0, 0, 0], out_of_range(0, 0)),
        (PART, &[H, 2, 3, 0, 4], too_high(4, 3)),
        (PART, &[H, 2, 3, MINUS, MINUS], too_high(-1, 3)),
        (PART, &[H, 0, MINUS, 0, 0], too_high(0, -1)),
        (PART, &[H, 2, 3, MINUS, 4], too_high(4, 3)),
        (PART, &[H, 2, 3, 2, 1], too_low(2, 1)),
        (PART, &[H, 2, 3, MINUS, 1], too_low(-1, 1)),
    ];
    for (instr, before, ending) in rows {
        check_ends(&rt, rt.alloc(), instr, before, ending)?;
    }
    Ok(())
}

/// Elements that have room, and elements that need a new array: of what is needed, or of twice the old capacity.
#[test]
fn elements_are_appended(rt: HostRuntime) -> Result<(), Fail> {
    let (one, two, three) = (
        append(Added::Slots, 1, 1),
        append(Added::Slots, 2, 1),
        append(Added::Slots, 3, 1),
    );
    let slice = append(Added::Slice, 0, 1);
    let rows: [(Instr, &[u64], &[u64], &[u64]); 13] = [
        (two, &[H, 2, 4, 70, 71], &[H, 4, 4], &[1, 2, 70, 71, 5, 6]),
        (
            three,
            &[H, 2, 4, 70, 71, 72],
            &[NEW, 5, 8],
            &[1, 2, 3, 4, 5, 6, 1, 2, 70, 71, 72, 0, 0, 0],
        ),
        (
            three,
            &[H, 1, 1, 70, 71, 72],
            &[NEW, 4, 4],
            &[1, 2, 3, 4, 5, 6, 1, 70, 71, 72],
        ),
        (
            two,
            &[0, 0, 0, 70, 71],
            &[NEW, 2, 2],
            &[1, 2, 3, 4, 5, 6, 70, 71],
        ),
        (one, &[5, 0, 0, 70], &[NEW, 1, 1], &[1, 2, 3, 4, 5, 6, 70]),
        (append(Added::Slots, 0, 1), &[5, 0, 0], &[5, 0, 0], &HELD),
        (
            append(Added::Slots, 1, 2),
            &[H, 1, 3, 70, 71],
            &[H, 2, 3],
            &[1, 2, 70, 71, 5, 6],
        ),
        (slice, &[H, 2, 6, H, 2, 2], &[H, 4, 6], &[1, 2, 1, 2, 5, 6]),
        (slice, &[H, 1, 6, H, 4, 4], &[H, 5, 6], &[1, 1, 2, 3, 4, 6]),
        (slice, &[H, 2, 6, 0, 0, 0], &[H, 2, 6], &HELD),
        (slice, &[5, 2, 2, 7, 0, MINUS], &[5, 2, 2], &HELD),
        (
            slice,
            &[H, 2, 2, H + 3, 2, 2],
            &[NEW, 4, 4],
            &[1, 2, 3, 4, 5, 6, 1, 2, 4, 5],
        ),
        (
            slice,
            &[NEW, 1, 1, H, 1, 1],
            &[NEW, 2, 2],
            &[1, 2, 3, 4, 5, 6, 0, 1],
        ),
    ];
    for (instr, before, first, want) in rows {
        check_goes(&rt, rt.alloc(), instr, before, first, want)?;
    }
    Ok(())
}

#[test]
fn appends_end(rt: HostRuntime) -> Result<(), Fail> {
    let (none, one, two) = (
        append(Added::Slots, 0, 1),
        append(Added::Slots, 1, 1),
        append(Added::Slots, 2, 1),
    );
    let slice = append(Added::Slice, 0, 1);
    let rows: [(Instr, &[u64], Ending); 15] = [
        (none, &[5, 1, 0], Ending::WildHeader(1)),
        (one, &[H, MINUS, 4], Ending::WildHeader(MINUS)),
        (one, &[H, 3, 2], Ending::WildHeader(3)),
        (one, &[H, 3, MINUS], Ending::WildHeader(3)),
        (one, &[H, 3, MANY + 1], Ending::WildHeader(3)),
        (one, &[H, 6, 6], limit(12)),
        (two, &[5, 0, 4], Ending::WildAddress(5)),
        (two, &[H + 5, 0, 4], Ending::WildAddress(H + 5)),
        (one, &[5, 1, 1], Ending::WildAddress(5)),
        (one, &[5, 6, 6], limit(12)),
        (slice, &[H, 2, 6, H, MINUS, 1], Ending::WildHeader(MINUS)),
        (
            slice,
            &[H, 2, 6, H, MANY + 1, 1],
            Ending::WildHeader(MANY + 1),
        ),
        (slice, &[H, 2, 6, 0, 1, 1], Ending::WildAddress(0)),
        (slice, &[H, 6, 6, 5, 1, 1], Ending::WildAddress(5)),
        (slice, &[H, 2, 1, H, MINUS, 1], Ending::WildHeader(2)),
    ];
    for (instr, before, ending) in rows {
        check_ends(&rt, rt.alloc(), instr, before, ending)?;
    }
    Ok(())
}

/// Copies whose words overlap, between heap and stack, and of nothing.
#[test]
fn slices_are_copied(rt: HostRuntime) -> Result<(), Fail> {
    let rows: [(Instr, &[u64], &[u64], &[u64]); 9] = [
        (
            copy(1),
            &[H, 3, 3, H + 1, 3, 3],
            &[H, 3, 3, H + 1, 3, 3, 3],
            &[2, 3, 4, 4, 5, 6],
        ),
        (
            copy(1),
            &[H + 1, 3, 3, H, 3, 3],
            &[H + 1, 3, 3, H, 3, 3, 3],
            &[1, 1, 2, 3, 5, 6],
        ),
        (
            copy(1),
            &[H, 1, 3, H + 3, 3, 3],
            &[H, 1, 3, H + 3, 3, 3, 1],
            &[4, 2, 3, 4, 5, 6],
        ),
        (
            copy(2),
            &[H, 2, 2, H + 2, 1, 1],
            &[H, 2, 2, H + 2, 1, 1, 1],
            &[3, 4, 3, 4, 5, 6],
        ),
        (
            copy(1),
            &[H, 3, 3, H, MINUS, 3],
            &[H, 3, 3, H, MINUS, 3, MINUS],
            &HELD,
        ),
        (copy(1), &[0, 0, 0, 5, 3, 3], &[0, 0, 0, 5, 3, 3, 0], &HELD),
        (
            copy(1),
            &[LOW, 2, 2, H, 3, 3],
            &[1, 2, 2, H, 3, 3, 2],
            &HELD,
        ),
        (
            copy(1),
            &[H, 2, 2, LOW, 2, 2],
            &[H, 2, 2, LOW, 2, 2, 2],
            &[H, 2, 3, 4, 5, 6],
        ),
        (
            copy(1),
            &[LOW + 1, 3, 3, LOW, 9, 9],
            &[LOW + 1, LOW + 1, 3, 3, 9, 9, 3],
            &HELD,
        ),
    ];
    for (instr, before, first, want) in rows {
        check_goes(&rt, rt.alloc(), instr, before, first, want)?;
    }
    Ok(())
}

#[test]
fn copies_end(rt: HostRuntime) -> Result<(), Fail> {
    let huge = 1 << 62;
    let rows: [(Instr, &[u64], Ending); 6] = [
        (copy(1), &[5, 1, 1, 7, 1, 1], Ending::WildAddress(7)),
        (copy(1), &[5, 1, 1, H, 1, 1], Ending::WildAddress(5)),
        (copy(1), &[H, 7, 7, H, 7, 7], Ending::WildAddress(H)),
        (copy(1), &[H + 4, 3, 3, H, 3, 3], Ending::WildAddress(H + 4)),
        (copy(8), &[H, huge, 0, H, huge, 0], Ending::WildAddress(H)),
        (
            copy(1),
            &[H, 2, 2, END - 1, 2, 2],
            Ending::WildAddress(END - 1),
        ),
    ];
    for (instr, before, ending) in rows {
        check_ends(&rt, rt.alloc(), instr, before, ending)?;
    }
    Ok(())
}
