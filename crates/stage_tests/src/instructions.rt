//! Steps of instructions that no program has yet, and touches of memory that no program makes, each at the start of the only
//! function of a code.
ghost use Rattle.std.specs.Prelude.{◌≡◌, ◌+◌, ◌≤◌, [], ◌∷◌, IsTrue};
ghost use Rattle.isa.specs.Code.{AddedFits, Fits};
ghost use Rattle.isa.specs.declared.func.Func.{Func};

use crate::back_end::{END, run_from};
use heap_bump::HEAP_LOW;
use isa::{Added, Code, Direction, Func, Instr, MoveEvent, Sameness, StoreEvent};
use machine::{Ending, Panic, RunState};
use outside::MemSink;
use std::alloc::{AllocError, Global};
use std::process::Abort;
use std::test::Fail;

/// The slots of the function, which has three incoming words.
pub(crate) const SLOTS: usize = 7;

fn func() -> Func
    ensures { result ≡ record { frame = 9; arguments = 2; results = 1; start = 0; size = 2 } }
{
    Func {
        frame: 9,
        arguments: 2,
        results: 1,
        start: 0,
        size: 2,
    }
}

/// Whether the `n` slots from `a` on are slots of the function.
fn are_slots(a: u16, n: u16) -> bool
    ensures { IsTrue result → a + n ≤ 7 }
{
    a as usize + n as usize <= SLOTS
}

/// Whether what an append adds has room in the slots.
fn are_added(added: Added, c: u16, d: u16, w: u16) -> bool
    ensures { IsTrue result → AddedFits 7 added c d w }
{
    match added {
        Added::Slots => c as usize + d as usize * w as usize <= SLOTS,
        Added::Slice => are_slots(c, 3) && d == 0,
    }
}

/// Whether an instruction may stand there; of those that are tried here.
pub(crate) fn fits(instr: Instr) -> bool
    ensures { IsTrue result → let fn : Func = record { frame = 9; arguments = 2; results = 1; start = 0; size = 2 } in Fits
        (0 ∷ (0 ∷ [])) (fn ∷ []) 0 0 0 7 3 instr }
{
    match instr {
        Instr::Zero { a, n } => n >= 1 && are_slots(a, n),
        Instr::Move { a, b, n, .. } => n >= 1 && are_slots(a, n) && are_slots(b, n),
        Instr::Same { a, b, c, n, .. } => {
            n >= 1 && are_slots(a, 1) && are_slots(b, n) && are_slots(c, n)
        }
        Instr::Incoming { a, b, n, .. } => {
            n >= 1 && are_slots(a, n) && b as usize + n as usize <= 3
        }
        Instr::Address { a, b } | Instr::Offset { a, b, .. } => are_slots(a, 1) && are_slots(b, 1),
        Instr::Load { a, b, n, .. } => n >= 1 && are_slots(a, n) && are_slots(b, 1),
        Instr::Store { a, c, n, .. } => n >= 1 && are_slots(a, 1) && are_slots(c, n),
        Instr::SliceIndex { a, b, c, w } => {
            w >= 1 && are_slots(a, 1) && are_slots(b, 3) && are_slots(c, 1)
        }
        Instr::Slice { a, b, c, w } => {
            w >= 1 && are_slots(a, 3) && are_slots(b, 3) && are_slots(c, 2)
        }
        Instr::Born { a, n, .. } => are_slots(a, n),
        Instr::Alloc { a, .. } => are_slots(a, 1),
        Instr::Make { a, w, .. } => w >= 1 && are_slots(a, 3),
        Instr::Append {
            added,
            a,
            b,
            c,
            d,
            w,
            ..
        } => { w >= 1 && are_slots(a, 3) && are_slots(b, 3) && are_added(added, c, d, w) }
        Instr::Copy { a, b, c, w } => {
            w >= 1 && are_slots(a, 1) && are_slots(b, 3) && are_slots(c, 3)
        }
        Instr::Const { a, .. } => are_slots(a, 1),
        Instr::Bin { a, b, c, .. } => are_slots(a, 1) && are_slots(b, 1) && are_slots(c, 1),
        Instr::Index { a, b, c, len, w } => {
            len >= 1 && w >= 1 && are_slots(a, 1) && are_slots(b, 1) && are_slots(c, 1)
        }
        _ => false,
    }
}

/// A code of an instruction and a return.
#[tactic(auto, using(crate::proofs::Alone::alone))]
pub(crate) fn code_with(alloc: Global, instr: Instr) -> Result<Code, AllocError>
    requires { let fn : Func = record { frame = 9; arguments = 2; results = 1; start = 0; size = 2 } in Fits (0 ∷ (0 ∷ []))
        (fn ∷ []) 0 0 0 7 3 instr }
{
    let instrs = vec![in alloc; instr, Instr::Return]?;
    let owners = vec![in alloc; 0, 0]?;
    let funcs = vec![in alloc; func()]?;
    Ok(Code::made(instrs, owners, funcs, Vec::new(alloc)))
}

/// The slots, the link and the return place, and the incoming words, of which some may be missing.
pub(crate) fn stack(
    alloc: Global,
    slots: [u64; SLOTS],
    incoming: &[u64],
) -> Result<Vec<u64>, AllocError> {
    let mut words = Vec::new(alloc);
    words.extend_from_slice(&slots)?;
    words.extend_from_slice(&[0, 0])?;
    words.extend_from_slice(incoming)?;
    Ok(words)
}

/// The slots before each instruction, and the address of the lowest one, where all incoming words are there.
const BEFORE: [u64; SLOTS] = [10, 20, 30, 20, 30, 0, u64::MAX];

pub(crate) const LOW: u64 = END - 12;

/// The slots before a touch of memory: the address of the lowest one, the one below it, that of the second incoming word, and the
/// heap's first one.
const ADDRESSES: [u64; SLOTS] = [10, 20, 0, LOW, LOW - 1, END - 2, HEAP_LOW];

/// The first slots after an instruction; the others keep their words.
pub(crate) fn slots_after(before: [u64; SLOTS], first: &[u64]) -> [u64; SLOTS] {
    let mut slots = before;
    for (slot, word) in slots.iter_mut().zip(first.iter()) {
        *slot = *word;
    }
    slots
}

/// What a step of an instruction comes to, with these slots and incoming words: the slots, or how it ends.
fn check_step(
    rt: &impl Abort,
    alloc: Global,
    instr: Instr,
    before: [u64; SLOTS],
    incoming: &[u64],
    first: &[u64],
    ending: Option<Ending>,
) -> Result<(), Fail> {
    assert!(rt; fits(instr));
    let code = code_with(alloc, instr)?;
    let mut words = stack(alloc, before, incoming)?;
    let mut out = MemSink::new(alloc, Vec::new(alloc));
    let at = RunState { pc: 0, base: 0 };
    let next = run_from(rt, alloc, &code, &mut words, at, 1, &mut out);
    assert_eq!(rt; next.ending, ending, "{instr:?}");
    assert_eq!(rt;
        words,
        stack(alloc, slots_after(before, first), incoming)?,
        "{instr:?}"
    );
    Ok(())
}

/// The slots from 0 on get those from 1 on.
fn moved(event: MoveEvent, n: u16) -> Instr {
    Instr::Move {
        event,
        a: 0,
        b: 1,
        n,
    }
}

/// The slot 0 tells of the slots from 1 on and from 3 on.
fn compared(wanted: Sameness, n: u16) -> Instr {
    Instr::Same {
        wanted,
        a: 0,
        b: 1,
        c: 3,
        n,
    }
}

/// Two slots from `a` on get incoming words.
fn taken(a: u16, b: u16) -> Instr {
    Instr::Incoming {
        direction: Direction::ToSlots,
        a,
        b,
        n: 2,
    }
}

/// Two incoming words get the first slots.
#[test]
fn incoming_words_get_slots(rt: HostRuntime) -> Result<(), Fail> {
    let instr = Instr::Incoming {
        direction: Direction::FromSlots,
        a: 0,
        b: 1,
        n: 2,
    };
    assert!(&rt; fits(instr));
    let code = code_with(rt.alloc(), instr)?;
    let mut words = stack(rt.alloc(), BEFORE, &[41, 42, 43])?;
    let mut out = MemSink::new(rt.alloc(), Vec::new(rt.alloc()));
    let at = RunState { pc: 0, base: 0 };
    let next = run_from(&rt, rt.alloc(), &code, &mut words, at, 1, &mut out);
    assert_eq!(&rt; next.ending, None);
    assert_eq!(&rt; words, stack(rt.alloc(), BEFORE, &[41, 10, 20])?);
    Ok(())
}

#[test]
fn slots_get_words(rt: HostRuntime) -> Result<(), Fail> {
    let rows: [(Instr, &[u64]); 15] = [
        (Instr::Zero { a: 1, n: 2 }, &[10, 0, 0]),
        (Instr::Zero { a: 0, n: 7 }, &[0, 0, 0, 0, 0, 0, 0]),
        (moved(MoveEvent::Silent, 1), &[20]),
        (moved(MoveEvent::Read, 2), &[20, 30]),
        (moved(MoveEvent::Write, 6), &[20, 30, 20, 30, 0, u64::MAX]),
        (compared(Sameness::Equal, 2), &[1]),
        (compared(Sameness::Equal, 3), &[0]),
        (compared(Sameness::Different, 2), &[0]),
        (compared(Sameness::Different, 3), &[1]),
        (taken(1, 0), &[10, 41, 42]),
        (taken(0, 1), &[42, 43]),
        (Instr::Address { a: 0, b: 2 }, &[LOW + 2]),
        (Instr::Offset { a: 0, b: 1, off: 5 }, &[25]),
        (Instr::Offset { a: 1, b: 1, off: 0 }, &[10, 20]),
        (Instr::Offset { a: 0, b: 6, off: 5 }, &[4]),
    ];
    for (instr, first) in rows {
        check_step(&rt, rt.alloc(), instr, BEFORE, &[41, 42, 43], first, None)?;
    }
    Ok(())
}

#[test]
fn steps_end(rt: HostRuntime) -> Result<(), Fail> {
    let nil = Some(Ending::Panic(Panic::NilPointer));
    let wild = Some(Ending::WildAddress(END - 1));
    check_step(
        &rt,
        rt.alloc(),
        Instr::Offset { a: 0, b: 5, off: 5 },
        BEFORE,
        &[],
        &[],
        nil,
    )?;
    check_step(&rt, rt.alloc(), taken(0, 1), BEFORE, &[41, 42], &[], wild)
}

fn load(b: u16, off: u16, n: u16) -> Instr {
    Instr::Load { a: 0, b, off, n }
}

fn store(a: u16, off: u16, n: u16) -> Instr {
    let event = StoreEvent::Silent;
    Instr::Store {
        event,
        a,
        off,
        c: 0,
        n,
    }
}

/// The words of a touch lie in the stack from the running frame on, or the run ends; nothing is taken of the heap.
#[test]
fn memory_is_reached(rt: HostRuntime) -> Result<(), Fail> {
    let nil = Some(Ending::Panic(Panic::NilPointer));
    let rows: [(Instr, &[u64], Option<Ending>); 11] = [
        (load(3, 1, 1), &[20], None),
        (load(3, 0, 3), &[10, 20, 0], None),
        (load(5, 0, 2), &[42, 43], None),
        (load(5, 1, 2), &[], Some(Ending::WildAddress(END - 1))),
        (load(4, 0, 2), &[], Some(Ending::WildAddress(LOW - 1))),
        (load(4, 1, 1), &[10], None),
        (load(6, 7, 1), &[], Some(Ending::WildAddress(HEAP_LOW + 7))),
        (load(2, 7, 1), &[], nil),
        (store(3, 1, 1), &[10, 10], None),
        (store(5, 2, 1), &[], Some(Ending::WildAddress(END))),
        (store(2, 7, 1), &[], nil),
    ];
    for (instr, first, ending) in rows {
        let incoming = &[41, 42, 43];
        check_step(&rt, rt.alloc(), instr, ADDRESSES, incoming, first, ending)?;
    }
    Ok(())
}
