//! Package variables of several words: what the instructions that reach them come to, one after the other, as they stand in the code of
//! a program with `var n int = 2` and `var a [3]int`.

use crate::back_end::run_on;
use crate::instructions::{SLOTS, code_with, fits, stack};
use heap_bump::{HEAP_LOW, Heap, HeapFault};
use isa::{BinOp, Instr, StoreEvent};
use machine::{Ending, Panic, RunState};
use outside::MemSink;
use std::alloc::Global;
use std::process::Abort;
use std::test::Fail;

/// The word of `n`, and those of `a` after it.
const N: u64 = HEAP_LOW;

const A: u64 = HEAP_LOW + 1;

fn put(a: u16, word: u64) -> Instr {
    Instr::Const { a, word }
}

fn load(a: u16, b: u16, n: u16) -> Instr {
    Instr::Load { a, b, off: 0, n }
}

fn store(a: u16, c: u16) -> Instr {
    let event = StoreEvent::Write;
    Instr::Store {
        event,
        a,
        off: 0,
        c,
        n: 1,
    }
}

/// The address of `a` in a slot becomes that of the element with the index in slot 0.
fn index(a: u16) -> Instr {
    Instr::Index {
        a,
        b: a,
        c: 0,
        len: 3,
        w: 1,
    }
}

fn add(a: u16, c: u16) -> Instr {
    Instr::Bin {
        op: BinOp::Add,
        a,
        b: a,
        c,
    }
}

/// Runs instructions, each in a code of its own, until one ends the run.
fn ending_of(
    rt: &impl Abort,
    alloc: Global,
    instrs: &[Instr],
    words: &mut Vec<u64>,
    heap: &mut Heap,
) -> Result<Option<Ending>, Fail> {
    for instr in instrs {
        assert!(rt; fits(*instr));
        let code = code_with(alloc, *instr)?;
        let mut out = MemSink::new(alloc, Vec::new(alloc));
        let at = RunState { pc: 0, base: 0 };
        let next = run_on(rt, alloc, &code, words, heap, at, 1, &mut out);
        if next.ending.is_some() {
            return Ok(next.ending);
        }
    }
    Ok(None)
}

/// A heap in which `n` begins with 2, and `a` with zeros.
fn begun(rt: &impl Abort, alloc: Global) -> Result<Heap, Fail> {
    let mut heap = Heap::new(alloc, 4);
    assert_eq!(rt; heap.take(1), Ok(N));
    assert!(rt; heap.used() == 1);
    heap.put(N, &[2]);
    assert_eq!(rt; heap.take(3), Ok(A));
    Ok(heap)
}

/// What the slots and the heap hold after instructions that run one after the other, and how they end.
fn check(
    rt: &impl Abort,
    alloc: Global,
    instrs: &[Instr],
    slots: [u64; SLOTS],
    taken: &[u64],
    ending: Option<Ending>,
) -> Result<(), Fail> {
    let mut words = stack(alloc, [0; SLOTS], &[])?;
    let mut heap = begun(rt, alloc)?;
    let got = ending_of(rt, alloc, instrs, &mut words, &mut heap)?;
    assert_eq!(rt; got, ending, "{instrs:?}");
    assert_eq!(rt; words, stack(alloc, slots, &[])?, "{instrs:?}");
    assert!(rt; heap.used() == 4);
    assert_eq!(rt; heap.words(N, 4), taken, "{instrs:?}");
    Ok(())
}

#[test]
fn parts_of_package_variables(rt: HostRuntime) -> Result<(), Fail> {
    let past = Ending::Panic(Panic::IndexOutOfRange {
        index: 3,
        length: 3,
    });
    let rows: [(&[Instr], [u64; SLOTS], &[u64], Option<Ending>); 5] = [
        // n
        (
            &[put(0, N), load(0, 0, 1)],
            [2, 0, 0, 0, 0, 0, 0],
            &[2, 0, 0, 0],
            None,
        ),
        // a[n] = 9
        (
            &[
                put(1, N),
                load(0, 1, 1),
                put(1, 9),
                put(2, A),
                index(2),
                store(2, 1),
            ],
            [2, 9, A + 2, 0, 0, 0, 0],
            &[2, 0, 0, 9],
            None,
        ),
        // a[1] += 4
        (
            &[
                put(0, 1),
                put(1, A),
                index(1),
                load(2, 1, 1),
                put(3, 4),
                add(2, 3),
                store(1, 2),
            ],
            [1, A + 1, 4, 4, 0, 0, 0],
            &[2, 0, 4, 0],
            None,
        ),
        // a[0] = 7, and then the whole of a
        (
            &[
                put(1, 7),
                put(2, A),
                index(2),
                store(2, 1),
                put(4, A),
                load(4, 4, 3),
            ],
            [0, 7, A, 0, 7, 0, 0],
            &[2, 7, 0, 0],
            None,
        ),
        // a[3]
        (
            &[put(0, 3), put(1, A), index(1), store(1, 0)],
            [3, A, 0, 0, 0, 0, 0],
            &[2, 0, 0, 0],
            Some(past),
        ),
    ];
    for (instrs, slots, taken, ending) in rows {
        check(&rt, rt.alloc(), instrs, slots, taken, ending)?;
    }
    Ok(())
}

/// The second variable has no room: the words of those before it, its own, and the limit.
#[test]
fn no_room_for_the_second(rt: HostRuntime) -> Result<(), Fail> {
    let mut heap = Heap::new(rt.alloc(), 3);
    assert_eq!(rt; heap.take(1), Ok(N));
    let fault = HeapFault::Limit {
        used: 1,
        asked: 3,
        max: 3,
    };
    assert_eq!(rt; heap.take(3), Err(fault));
    assert_eq!(rt; heap.used(), 1);
    Ok(())
}
