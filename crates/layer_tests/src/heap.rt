//! What no clause of `heap_bump` says: that words are given where memory is ample, the texts of faults, and worked values.
ghost use Rattle.std.specs.Prelude.{◌≡◌, length, IfOk};

use heap_bump::{HEAP_LOW, Heap, HeapFault};
use std::alloc::Global;
use std::test::Fail;

// All words, from the lowest address on.
fn all_words(alloc: Global, heap: &Heap) -> Result<Vec<u64>, Fail> {
    let mut words = Vec::new(alloc);
    for place in 0..heap.used() {
        words.push(heap.get(HEAP_LOW + place))?;
    }
    Ok(words)
}

// A heap of 1 to 6.
fn six(alloc: Global) -> Result<Heap, Fail>
    ensures { IfOk result (λ h. length h.words ≡ 6) }
{
    let mut heap = Heap::new(alloc, 6);
    let at = heap.take(6)?;
    heap.set(at, 1);
    heap.set(at + 1, 2);
    heap.set(at + 2, 3);
    heap.set(at + 3, 4);
    heap.set(at + 4, 5);
    heap.set(at + 5, 6);
    Ok(heap)
}

#[test]
fn words_are_kept(rt: HostRuntime) -> Result<(), Fail> {
    let mut heap = Heap::new(rt.alloc(), 10);
    assert_eq!(rt; (heap.used(), heap.room()), (0, 10));
    let first = heap.take(3)?;
    assert_eq!(rt; first, 1_048_576);
    heap.set(first + 1, u64::MAX);
    heap.set(first + 2, 7);
    let second = heap.take(2)?;
    assert_eq!(rt; second, 1_048_579);
    heap.set(second + 1, 9);
    assert_eq!(rt; heap.take(0)?, 1_048_581);
    assert_eq!(rt; (heap.used(), heap.room()), (5, 5));
    assert_eq!(rt; heap.get(1_048_577), u64::MAX);
    let words = all_words(rt.alloc(), &heap)?;
    assert_eq!(rt; words.as_slice(), [0, u64::MAX, 7, 0, 9].as_slice());
    Ok(())
}

#[test]
fn moves_are_as_through_a_copy(rt: HostRuntime) -> Result<(), Fail> {
    // From where, to where, how many, and the words then.
    let table: [(u64, u64, u64, [u64; 6]); 6] = [
        (0, 2, 4, [1, 2, 1, 2, 3, 4]),
        (2, 0, 4, [3, 4, 5, 6, 5, 6]),
        (0, 3, 3, [1, 2, 3, 1, 2, 3]),
        (5, 0, 1, [6, 2, 3, 4, 5, 6]),
        (1, 1, 5, [1, 2, 3, 4, 5, 6]),
        (6, 0, 0, [1, 2, 3, 4, 5, 6]),
    ];
    for (i, (from, to, n, want)) in table.iter().enumerate() {
        let mut heap = six(rt.alloc())?;
        assert!(rt; *from <= 6 && *to <= 6 && *n <= 6);
        assert!(rt; *from + *n <= 6 && *to + *n <= 6);
        heap.move_words(HEAP_LOW + *from, HEAP_LOW + *to, *n);
        let words = all_words(rt.alloc(), &heap)?;
        assert_eq!(rt; words.as_slice(), want.as_slice(), "row {i}");
    }
    Ok(())
}

#[test]
fn limit_is_kept(rt: HostRuntime) -> Result<(), Fail> {
    let limit = |used, asked, max| HeapFault::Limit { used, asked, max };
    // Words that are taken, words asked for then, the most that there may be, the fault, and the words taken at last.
    let table: [(u64, u64, u64, Option<HeapFault>, u64); 7] = [
        (0, 10, 10, None, 10),
        (3, 7, 10, None, 10),
        (10, 0, 10, None, 10),
        (0, 1, 0, Some(limit(0, 1, 0)), 0),
        (0, 11, 10, Some(limit(0, 11, 10)), 0),
        (3, 8, 10, Some(limit(3, 8, 10)), 3),
        (3, u64::MAX, 10, Some(limit(3, u64::MAX, 10)), 3),
    ];
    for (i, (used, asked, max, fault, then)) in table.iter().enumerate() {
        assert!(rt; *max <= 10);
        let mut heap = Heap::new(rt.alloc(), *max);
        heap.take(*used)?;
        assert_eq!(rt; heap.take(*asked).err(), *fault, "row {i}");
        assert_eq!(rt; heap.used(), *then, "row {i}");
    }
    Ok(())
}

#[test]
fn faults_have_texts(rt: HostRuntime) -> Result<(), Fail> {
    let fault = HeapFault::Limit {
        used: 3,
        asked: 8,
        max: 10,
    };
    let text = format!(in rt.alloc(); "{fault}, {}", HeapFault::NoMemory)?;
    assert_eq!(rt; text.as_str(), "heap used 3 asked 8 limit 10, no memory");
    Ok(())
}
