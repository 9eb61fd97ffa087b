//! Runs of the machine that no program makes: one that is stopped and goes on, and some from a place with wild words in the stack.
ghost use Rattle.std.specs.Prelude.{◌≤◌, ◌^◌, IsTrue};
ghost use Rattle.machine.specs.Inside.{Inside};

use compile::compile;
use heap_bump::Heap;
use isa::{Code, Direction, Instr};
use machine::{Ending, Next, RunState, run};
use outside::{IntReader, MemSink, MemSource};
use std::alloc::Global;
use std::process::Abort;
use std::test::Fail;

const TEXT: &str =
    "package main; func main() { println(10, sum(10)) }; func sum(n int) int { if n == 0 { return 0 }; return n + sum(n-1) }";

/// The most words of the stack, and the address of its upper end.
const MOST: u64 = 100;

pub(crate) const END: u64 = (1 << 40) + MOST;

/// Whether a frame lies inside `long` words.
fn is_inside(code: &Code, long: usize, at: RunState) -> bool
    requires { at.base ≤ 2 ^ 32 }
    ensures { IsTrue result → Inside code.now long at.pc at.base }
{
    let (owners, funcs) = (code.owners(), code.funcs());
    if at.pc >= owners.len() {
        return false;
    }
    let f = owners[at.pc] as usize;
    f < funcs.len() && at.base + funcs[f].frame as usize <= long
}

/// Runs `steps` steps from a place, with this heap, and with nothing to read.
pub(crate) fn run_on(
    rt: &impl Abort,
    alloc: Global,
    code: &Code,
    words: &mut Vec<u64>,
    heap: &mut Heap,
    at: RunState,
    steps: u64,
    out: &mut MemSink,
) -> Next {
    assert!(rt; code.instrs().len() < 1 << 40);
    assert!(rt; words.len() <= 100 && at.base <= 1 << 32);
    assert!(rt; is_inside(code, words.len(), at));
    let mut reader = IntReader::new();
    let mut input = MemSource::new(Vec::new(alloc), Vec::new(alloc));
    run(
        alloc,
        code,
        words,
        MOST,
        heap,
        at,
        &mut reader,
        &mut input,
        out,
        steps,
    )
}

/// The same with an empty heap.
pub(crate) fn run_from(
    rt: &impl Abort,
    alloc: Global,
    code: &Code,
    words: &mut Vec<u64>,
    at: RunState,
    steps: u64,
    out: &mut MemSink,
) -> Next {
    let mut heap = Heap::new(alloc, 0);
    run_on(rt, alloc, code, words, &mut heap, at, steps, out)
}

/// A code whose run is stopped and goes on.
fn check_run(rt: &impl Abort, alloc: Global, code: &Code) -> Result<(), Fail> {
    let main = code.funcs().first().ok_or("no function")?;
    let mut words = vec![in alloc; 0; main.frame as usize]?;
    let mut out = MemSink::new(alloc, Vec::new(alloc));
    let mut at = RunState {
        pc: main.start as usize,
        base: 0,
    };
    for (steps, want) in [(0, None), (60, None), (1000, Some(Ending::Exit(0)))] {
        let next = run_from(rt, alloc, code, &mut words, at, steps, &mut out);
        assert_eq!(rt; next.ending, want);
        at = next.at;
    }
    assert_eq!(rt; out.bytes(), b"10 55\n".as_slice());
    Ok(())
}

#[test]
fn a_run_goes_on(rt: HostRuntime) -> Result<(), Fail> {
    let compiled = compile(rt.alloc(), TEXT.as_bytes())?;
    check_run(&rt, rt.alloc(), &compiled.code)
}

/// Places of the code: after the first call, of the only argument that is taken, and of the last results and return.
#[derive(Clone, Copy)]
struct Places {
    after: usize,
    argument: usize,
    results: usize,
    leave: usize,
}

fn places_of(code: &Code) -> Places {
    let mut places = Places {
        after: 0,
        argument: 0,
        results: 0,
        leave: 0,
    };
    for (place, instr) in code.instrs().iter().enumerate() {
        match instr {
            Instr::Call { .. } if places.after == 0 => places.after = place.saturating_add(1),
            Instr::Incoming {
                direction: Direction::ToSlots,
                ..
            } => places.argument = place,
            Instr::Incoming {
                direction: Direction::FromSlots,
                ..
            } => places.results = place,
            Instr::Return => places.leave = place,
            _ => {}
        }
    }
    places
}

/// The words of a frame with its link and return place at its upper end, and some words after it.
fn stack(alloc: Global, frame: u16, link: u64, place: u64, more: usize) -> Result<Vec<u64>, Fail> {
    let mut words = vec![in alloc; 0; (frame as usize).saturating_sub(2)]?;
    words.push(link)?;
    words.push(place)?;
    for _ in 0..more {
        words.push(0)?;
    }
    Ok(words)
}

fn ending_from(
    rt: &impl Abort,
    alloc: Global,
    code: &Code,
    pc: usize,
    mut words: Vec<u64>,
) -> Option<Ending> {
    let mut out = MemSink::new(alloc, Vec::new(alloc));
    let at = RunState { pc, base: 0 };
    run_from(rt, alloc, code, &mut words, at, 1000, &mut out).ending
}

/// The frame of `sum` lies alone, or before a frame of `main` or a part of it, and is left, or its incoming words are touched.
fn check_wild_words(rt: &impl Abort, alloc: Global, code: &Code) -> Result<(), Fail> {
    let places = places_of(code);
    let after = places.after as u64;
    let main = code.funcs().first().ok_or("no function")?.frame as usize;
    let sum = code.funcs().last().ok_or("no function")?.frame;
    let returns: [(u64, u64, usize, Ending); 10] = [
        (0, 0, 0, Ending::Exit(0)),
        (0, after, 0, Ending::WildReturn(after)),
        (END - MOST, 0, 0, Ending::WildLink(END - MOST)),
        (END - MOST, after, 0, Ending::WildReturn(after)),
        (END, after, main, Ending::Exit(0)),
        (END - 1, after, main, Ending::WildLink(END - 1)),
        (
            END + 1,
            after,
            main.saturating_sub(1),
            Ending::WildLink(END + 1),
        ),
        (END, 1, main, Ending::WildReturn(1)),
        (END, 0, main, Ending::WildReturn(0)),
        (END, u64::MAX, main, Ending::WildReturn(u64::MAX)),
    ];
    for (link, place, more, want) in returns {
        let words = stack(alloc, sum, link, place, more)?;
        let got = ending_from(rt, alloc, code, places.leave, words);
        assert_eq!(rt; got, Some(want), "link {link} place {place}");
    }
    for (pc, more) in [(places.argument, 0), (places.results, 1)] {
        let words = stack(alloc, sum, 0, 0, more)?;
        let got = ending_from(rt, alloc, code, pc, words);
        assert_eq!(rt;
            got,
            Some(Ending::WildAddress(END)),
            "{more} incoming words"
        );
    }
    Ok(())
}

#[test]
fn wild_words_are_found(rt: HostRuntime) -> Result<(), Fail> {
    let compiled = compile(rt.alloc(), TEXT.as_bytes())?;
    check_wild_words(&rt, rt.alloc(), &compiled.code)
}
