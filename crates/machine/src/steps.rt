//! One step.
ghost use Rattle.outside.specs.Causes.{HasCause, Rose};
ghost use Rattle.outside.specs.Items.{Reads, Loses};
ghost use Rattle.outside.specs.Pending.{to_come};
ghost use Rattle.outside.specs.Took.{Took, TookPrefix};
ghost use Rattle.std.specs.Fmt.{signed_decimal};
ghost use Rattle.std.specs.Int.{w64, cast_signed};
ghost use Rattle.std.specs.Prelude.{◌≡◌, ◌⊎◌, ◌≢◌, ℕ, List, Option, [], OnOk, OnErr, IfOk, IfErr, ◌+◌, ◌-◌, ◌<◌, ◌≤◌, ◌^◌, ◌==◌, length, drop, map, if◌then◌else◌, slice_get, slice_index, slice_set, Some, None, IfSome, FitsSigned};
ghost use Rattle.heap_bump.specs.Words.{Words};
ghost use Rattle.machine.specs.Machine.{Range, Item, upper_end, full_range, act, as_wanted, passed, reads_item, item_words, put_words, exit_of, prints, truth_bytes, panic_of, address_of, frame_of, owner_of};
ghost use Rattle.machine.specs.Inside.{Inside, IsRare, Leads, Touches};
ghost use Rattle.machine.specs.Answers.{Answers, StatusFits, NeedsMemory, NoRoom, PrintsAt, WithAnswers, state_of};

use crate::allocating::{allocate, make};
use crate::code_tables::Tables;
use crate::links::{address, call, leave};
use crate::memory::{index, load, offset, slot_address, store};
use crate::slices::{append, copy, slice_index, slice_part};
use crate::slots::{clear_slots, copy_slots, same_slots, set_slot, slot, zero_slots};
use crate::{Ending, Next, Panic, RunState};
use heap_bump::Heap;
use isa::{BinFault, Direction, Instr, Sameness, bin, bit, un};
use outside::{IntReader, ReadFault, Sink, Source, WriteFault, put_bool, put_bytes, put_int};
use std::alloc::Global;

const LARGEST_STATUS: i64 = 125;

// The run goes on after a piece, if it was written.
#[inline(always)]
fn printed(at: RunState, written: Result<(), WriteFault>) -> Next
    requires { at.pc < 2 ^ 40 }
    ensures ok { OnOk written (result ≡ record { at = record { pc = at.pc + 1; base = at.base }; ending = None }) }
    ensures err { OnErr written (result ≡ record { at = at; ending = Some Ending.WriteFault }) }
{
    match written {
        Ok(()) => Next::on(at),
        Err(_fault) => Next::ended(at, Ending::WriteFault),
    }
}

// Prints a piece.
#[inline(always)]
fn print<O: Sink>(_words: &Vec<u64>, at: RunState, piece: &[u8], out: &mut O) -> Next
    requires { at.pc < 2 ^ 40 }
    ensures step { PrintsAt _words.now.items at piece.now result
        (O.taken out.old) (O.taken out.new) (O.faults out.old) (O.faults out.new) }
    ensures later { O.faults out.old ≤ O.faults out.new }
    ensures on { result.ending ≡ None → result.at ≡ record { pc = at.pc + 1; base = at.base } }
    ensures status { StatusFits result.ending }
    ensures which { (result.ending ≡ None) ⊎ (result.ending ≡ Some Ending.WriteFault) }
{
    let written = put_bytes(out, piece);
    printed(at, written)
}

// Prints the number of a slot.
#[inline(always)]
fn print_int<O: Sink>(words: &Vec<u64>, at: RunState, a: u16, out: &mut O) -> Next
    requires slot { at.base + a < length words.now.items }
    requires place { at.pc < 2 ^ 40 }
    ensures step { PrintsAt words.now.items at
        (signed_decimal (cast_signed w64 (slice_index (drop at.base words.now.items) a))) result
        (O.taken out.old) (O.taken out.new) (O.faults out.old) (O.faults out.new) }
    ensures later { O.faults out.old ≤ O.faults out.new }
    ensures on { result.ending ≡ None → result.at ≡ record { pc = at.pc + 1; base = at.base } }
    ensures status { StatusFits result.ending }
    ensures which { (result.ending ≡ None) ⊎ (result.ending ≡ Some Ending.WriteFault) }
{
    let written = put_int(out, slot(words, at.base, a as usize).cast_signed());
    printed(at, written)
}

// Prints the truth value of a slot.
#[inline(always)]
fn print_bool<O: Sink>(words: &Vec<u64>, at: RunState, a: u16, out: &mut O) -> Next
    requires slot { at.base + a < length words.now.items }
    requires place { at.pc < 2 ^ 40 }
    ensures step { PrintsAt words.now.items at (truth_bytes (slice_index (drop at.base words.now.items) a)) result
        (O.taken out.old) (O.taken out.new) (O.faults out.old) (O.faults out.new) }
    ensures later { O.faults out.old ≤ O.faults out.new }
    ensures on { result.ending ≡ None → result.at ≡ record { pc = at.pc + 1; base = at.base } }
    ensures status { StatusFits result.ending }
    ensures which { (result.ending ≡ None) ⊎ (result.ending ≡ Some Ending.WriteFault) }
{
    let written = put_bool(out, slot(words, at.base, a as usize) != 0);
    printed(at, written)
}

// The index of `n` incoming words from `b` on, above a frame of `frame` words; counted from the frame's lowest word.
#[inline(always)]
fn incoming(
    words: &Vec<u64>,
    stack_max: u64,
    base: usize,
    frame: usize,
    b: u16,
    n: u16,
) -> Result<usize, Ending>
    requires words { (length words.now.items ≤ stack_max) × (stack_max ≤ 2 ^ 32) }
    requires frame { (frame < 2 ^ 16) × (base + frame ≤ length words.now.items) }
    ensures ok { IfOk result (λ i. (i ≡ frame + b) × (base + (i + n) ≤ length words.now.items)) }
    ensures wild { IfErr result (λ e.
        (e ≡ Ending.WildAddress (address_of (upper_end stack_max) (length words.now.items - base) + (frame + b)))
        × (length words.now.items < base + (frame + b + n))) }
{
    let index = frame + b as usize;
    if base + index + n as usize <= words.len() {
        return Ok(index);
    }
    Err(Ending::WildAddress(address(stack_max, words.len() - base) + index as u64))
}

// Words go between slots from `a` on and incoming words from an index on.
#[inline(always)]
fn pass(words: &mut Vec<u64>, base: usize, direction: Direction, a: u16, index: usize, n: u16)
    requires { (base + (a + n) ≤ length words.old.items) × (base + (index + n) ≤ length words.old.items) }
    ensures words { drop base words.new.items ≡ passed (drop base words.old.items) direction a index n }
    ensures length { length words.new.items ≡ length words.old.items }
{
    match direction {
        Direction::ToSlots => copy_slots(words, base, index, a as usize, n as usize),
        Direction::FromSlots => copy_slots(words, base, a as usize, index, n as usize),
    }
}

// Whether words that are the same, or are not, are as it is wanted.
fn as_wanted(wanted: Sameness, same: bool) -> bool
    ensures { result ≡ as_wanted wanted same }
{
    match wanted {
        Sameness::Equal => same,
        Sameness::Different => !same,
    }
}

// The panic of an operation that gives nothing.
fn panic_of(fault: BinFault) -> Panic
    ensures { result ≡ panic_of fault }
{
    match fault {
        BinFault::DivideByZero => Panic::DivideByZero,
        BinFault::ShiftCount(count) => Panic::ShiftCount(count),
    }
}

// How an exit with a status ends.
fn exit(status: i64) -> Ending
    ensures exits { result ≡ exit_of status }
    ensures status { StatusFits (Some result) }
    ensures memory { result ≢ Ending.NoMemory }
    ensures write { result ≢ Ending.WriteFault }
    ensures read { result ≢ Ending.ReadFault }
{
    if (0..=LARGEST_STATUS).contains(&status) {
        return Ending::Exit(status as u32);
    }
    Ending::Panic(Panic::ExitCode(status))
}

// What an item gives goes to the slots a and a + 1.
#[inline(always)]
fn set_item(words: &mut Vec<u64>, base: usize, a: usize, item: Option<i64>)
    requires { base + (a + 2) ≤ length words.old.items }
    ensures words { drop base words.new.items ≡ put_words (drop base words.old.items) a (item_words item) }
    ensures length { length words.new.items ≡ length words.old.items }
    ensures number { IfSome item (FitsSigned w64) }
{
    let (word, is_number) = match item {
        Some(number) => (number.cast_unsigned(), 1),
        None => (0, 0),
    };
    set_slot(words, base, a, word);
    set_slot(words, base, a + 1, is_number);
}

// What the next item of the input gives goes to two slots. The reader stands out of line, so that the other instructions
// keep their registers.
#[inline(never)]
fn read_item<I: Source>(
    words: &mut Vec<u64>,
    base: usize,
    a: u16,
    reader: &mut IntReader,
    input: &mut I,
) -> Result<(), ReadFault>
    requires { base + (a + 2) ≤ length words.old.items }
    ensures item { OnOk result ((item : Item)
        × Reads (to_come reader.old (I.left input.old)) (to_come reader.new (I.left input.new)) item
        × (drop base words.new.items ≡ put_words (drop base words.old.items) a (item_words item))
        × IfSome item (FitsSigned w64)) }
    ensures lost { OnErr result (Loses (to_come reader.old (I.left input.old)) (to_come reader.new (I.left input.new))) }
    ensures cause { HasCause (I.faults input.old) (I.faults input.new) result }
    ensures length { length words.new.items ≡ length words.old.items }
{
    let item = reader.next(input)?;
    set_item(words, base, a as usize, item);
    Ok(())
}

// Reads the next item of the input.
#[inline(always)]
fn read_int<I: Source>(
    words: &mut Vec<u64>,
    at: RunState,
    a: u16,
    reader: &mut IntReader,
    input: &mut I,
) -> Next
    requires slots { at.base + (a + 2) ≤ length words.old.items }
    requires place { at.pc < 2 ^ 40 }
    ensures step { WithAnswers result.ending (to_come reader.old (I.left input.old)) (to_come reader.new (I.left input.new))
        ((reader.new ≡ reader.old) × (input.new ≡ input.old))
        (λ items reads answered. (range : Range) (heap : Words) (taken : Option (List ℕ)) (faults : ℕ)
        → Answers (reads_item (state_of range words.old.items at reads heap) a (items reads))
        (state_of range words.new.items result.at (reads + answered) heap) answered result.ending taken taken faults faults) }
    ensures later { I.faults input.old ≤ I.faults input.new }
    ensures fault { result.ending ≡ Some Ending.ReadFault → Rose (I.faults input.old) (I.faults input.new) }
    ensures on { result.ending ≡ None → result.at ≡ record { pc = at.pc + 1; base = at.base } }
    ensures length { length words.new.items ≡ length words.old.items }
    ensures status { StatusFits result.ending }
    ensures which { (result.ending ≡ None) ⊎ (result.ending ≡ Some Ending.ReadFault) }
{
    match read_item(words, at.base, a, reader, input) {
        Ok(()) => Next::on(at),
        Err(_fault) => Next::ended(at, Ending::ReadFault),
    }
}

// Does an instruction that programs do seldom, which stands at a place. It stands out of line: a loop of steps calls it.
#[inline(never)]
fn rare_step<I: Source, O: Sink>(
    tables: &Tables<'_>,
    instr: &Instr,
    words: &mut Vec<u64>,
    stack_max: u64,
    heap: &mut Heap,
    at: RunState,
    reader: &mut IntReader,
    input: &mut I,
    out: &mut O,
) -> Next
    requires words { (length words.old.items ≤ stack_max) × (stack_max ≤ 2 ^ 32) }
    requires inside { Inside tables.now (length words.old.items) at.pc at.base }
    requires place { (at.pc < length tables.now.instrs) × (length tables.now.instrs < 2 ^ 40) }
    requires instr { slice_get tables.now.instrs at.pc ≡ Some instr.now }
    requires touches { Touches tables.now (length words.old.items) at.base instr.now }
    requires leads { Leads tables.now (length words.old.items) at.pc at.base instr.now }
    requires rare { IsRare instr.now }
    ensures step { WithAnswers result.ending (to_come reader.old (I.left input.old)) (to_come reader.new (I.left input.new))
        ((reader.new ≡ reader.old) × (input.new ≡ input.old))
        (λ items reads answered. Answers (act tables.now stack_max items (state_of (full_range stack_max) words.old.items at reads heap.old))
        (state_of (full_range stack_max) words.new.items result.at (reads + answered) heap.new) answered result.ending
        (O.taken out.old) (O.taken out.new) (O.faults out.old) (O.faults out.new)) }
    ensures later { O.faults out.old ≤ O.faults out.new }
    ensures source_later { I.faults input.old ≤ I.faults input.new }
    ensures read_fault { result.ending ≡ Some Ending.ReadFault → Rose (I.faults input.old) (I.faults input.new) }
    ensures stays { result.ending ≡ None → Inside tables.now (length words.new.items) result.at.pc result.at.base }
    ensures length { length words.new.items ≤ stack_max }
    ensures status { StatusFits result.ending }
    ensures memory { result.ending ≡ Some Ending.NoMemory
        → NeedsMemory tables.now stack_max at.pc (drop at.base words.old.items) heap.old
        × Took (O.taken out.old) (O.taken out.new) [] × (words.new ≡ words.old) × (heap.new ≡ heap.old) }
    ensures room { result.ending ≡ Some Ending.NoMemory → NoRoom tables.now at }
{
    let base = at.base;
    match *instr {
        Instr::Zero { a, n } => {
            zero_slots(words, base, a as usize, n as usize);
            Next::on(at)
        }
        Instr::Same { wanted, a, b, c, n } => {
            let same = same_slots(words, base, b as usize, c as usize, n as usize);
            set_slot(words, base, a as usize, bit(as_wanted(wanted, same)));
            Next::on(at)
        }
        Instr::Un { op, a, b } => {
            let word = un(op, slot(words, base, b as usize));
            set_slot(words, base, a as usize, word);
            Next::on(at)
        }
        Instr::Address { a, b } => {
            let word = slot_address(words, stack_max, base, b);
            set_slot(words, base, a as usize, word);
            Next::on(at)
        }
        Instr::Offset { a, b, off } => offset(words, at, a, b, off),
        Instr::Index { a, b, c, len, w } => index(words, at, a, b, c, len, w),
        Instr::SliceIndex { a, b, c, w } => slice_index(words, at, a, b, c, w),
        Instr::Slice { a, b, c, w } => slice_part(words, at, a, b, c, w),
        Instr::Alloc { a, n, site: _ } => allocate(words, heap, at, a, n as u64),
        Instr::Make { a, w, site: _ } => make(words, heap, at, a, w),
        Instr::Append {
            added,
            a,
            b,
            c,
            d,
            w,
            site: _,
        } => { append(words, stack_max, heap, at, added, a, b, c, d, w) }
        Instr::Copy { a, b, c, w } => copy(words, stack_max, heap, at, a, b, c, w),
        Instr::PrintInt { a } => print_int(words, at, a, out),
        Instr::PrintBool { a } => print_bool(words, at, a, out),
        Instr::PrintText { text } => print(words, at, tables.string(text), out),
        Instr::PrintSpace => print(words, at, b" ", out),
        Instr::PrintLine => print(words, at, b"\n", out),
        Instr::ReadInt { a } => read_int(words, at, a, reader, input),
        Instr::Exit { a } => { Next::ended(at, exit(slot(words, base, a as usize).cast_signed())) }
        Instr::PanicText { text } => Next::panicked(at, Panic::Text(text)),
        Instr::PanicInt { a } => Next::panicked(
            at,
            Panic::Int(slot(words, base, a as usize).cast_signed()),
        ),
        Instr::PanicBool { a } => Next::panicked(
            at,
            Panic::Bool(slot(words, base, a as usize) != 0),
        ),
        // These are no rare ones.
        Instr::Const { .. }
        | Instr::Move { .. }
        | Instr::Bin { .. }
        | Instr::Jump { .. }
        | Instr::JumpZero { .. }
        | Instr::Call { .. }
        | Instr::Incoming { .. }
        | Instr::Load { .. }
        | Instr::Store { .. }
        | Instr::Born { .. }
        | Instr::Return => unreachable!(),
    }
}

// The same. What the call answers in memory is made and read here alone, so that no other instruction writes it.
#[inline(always)]
fn rare_step_apart<I: Source, O: Sink>(
    tables: &Tables<'_>,
    instr: &Instr,
    words: &mut Vec<u64>,
    stack_max: u64,
    heap: &mut Heap,
    at: RunState,
    reader: &mut IntReader,
    input: &mut I,
    out: &mut O,
) -> Next
    requires words { (length words.old.items ≤ stack_max) × (stack_max ≤ 2 ^ 32) }
    requires inside { Inside tables.now (length words.old.items) at.pc at.base }
    requires place { (at.pc < length tables.now.instrs) × (length tables.now.instrs < 2 ^ 40) }
    requires instr { slice_get tables.now.instrs at.pc ≡ Some instr.now }
    requires touches { Touches tables.now (length words.old.items) at.base instr.now }
    requires leads { Leads tables.now (length words.old.items) at.pc at.base instr.now }
    requires rare { IsRare instr.now }
    ensures step { WithAnswers result.ending (to_come reader.old (I.left input.old)) (to_come reader.new (I.left input.new))
        ((reader.new ≡ reader.old) × (input.new ≡ input.old))
        (λ items reads answered. Answers (act tables.now stack_max items (state_of (full_range stack_max) words.old.items at reads heap.old))
        (state_of (full_range stack_max) words.new.items result.at (reads + answered) heap.new) answered result.ending
        (O.taken out.old) (O.taken out.new) (O.faults out.old) (O.faults out.new)) }
    ensures later { O.faults out.old ≤ O.faults out.new }
    ensures source_later { I.faults input.old ≤ I.faults input.new }
    ensures read_fault { result.ending ≡ Some Ending.ReadFault → Rose (I.faults input.old) (I.faults input.new) }
    ensures stays { result.ending ≡ None → Inside tables.now (length words.new.items) result.at.pc result.at.base }
    ensures length { length words.new.items ≤ stack_max }
    ensures status { StatusFits result.ending }
    ensures memory { result.ending ≡ Some Ending.NoMemory
        → NeedsMemory tables.now stack_max at.pc (drop at.base words.old.items) heap.old
        × Took (O.taken out.old) (O.taken out.new) [] × (words.new ≡ words.old) × (heap.new ≡ heap.old) }
    ensures room { result.ending ≡ Some Ending.NoMemory → NoRoom tables.now at }
{
    let next = rare_step(
        tables, instr, words, stack_max, heap, at, reader, input, out,
    );
    Next {
        at: next.at,
        ending: next.ending,
    }
}

/// Does one instruction, where the stack may have at most `stack_max` words. The place in the answer is that of the next one,
/// or where the run ended. The instructions that programs do most stand here, so that a loop of steps has its state in registers.
#[inline(always)]
pub fn step<I: Source, O: Sink>(
    alloc: Global,
    tables: &Tables<'_>,
    words: &mut Vec<u64>,
    stack_max: u64,
    heap: &mut Heap,
    at: RunState,
    reader: &mut IntReader,
    input: &mut I,
    out: &mut O,
) -> Next
    requires words { (length words.old.items ≤ stack_max) × (stack_max ≤ 2 ^ 32) }
    requires inside { Inside tables.now (length words.old.items) at.pc at.base }
    requires place { (at.pc < length tables.now.instrs) × (length tables.now.instrs < 2 ^ 40) }
    ensures step { WithAnswers result.ending (to_come reader.old (I.left input.old)) (to_come reader.new (I.left input.new))
        ((reader.new ≡ reader.old) × (input.new ≡ input.old))
        (λ items reads answered. Answers (act tables.now stack_max items (state_of (full_range stack_max) words.old.items at reads heap.old))
        (state_of (full_range stack_max) words.new.items result.at (reads + answered) heap.new) answered result.ending
        (O.taken out.old) (O.taken out.new) (O.faults out.old) (O.faults out.new)) }
    ensures later { O.faults out.old ≤ O.faults out.new }
    ensures source_later { I.faults input.old ≤ I.faults input.new }
    ensures read_fault { result.ending ≡ Some Ending.ReadFault → Rose (I.faults input.old) (I.faults input.new) }
    ensures stays { result.ending ≡ None → Inside tables.now (length words.new.items) result.at.pc result.at.base }
    ensures length { length words.new.items ≤ stack_max }
    ensures status { StatusFits result.ending }
    ensures memory { result.ending ≡ Some Ending.NoMemory
        → NeedsMemory tables.now stack_max at.pc (drop at.base words.old.items) heap.old
        × Took (O.taken out.old) (O.taken out.new) [] × (words.new ≡ words.old) × (heap.new ≡ heap.old) }
    ensures room { result.ending ≡ Some Ending.NoMemory → NoRoom tables.now at }
{
    let base = at.base;
    let instr = tables.fetch(words, at);
    match *instr {
        Instr::Const { a, word } => {
            set_slot(words, base, a as usize, word);
            Next::on(at)
        }
        Instr::Move { event: _, a, b, n } => {
            copy_slots(words, base, b as usize, a as usize, n as usize);
            Next::on(at)
        }
        Instr::Bin { op, a, b, c } => {
            let given = bin(
                op,
                slot(words, base, b as usize),
                slot(words, base, c as usize),
            );
            match given {
                Ok(word) => {
                    set_slot(words, base, a as usize, word);
                    Next::on(at)
                }
                Err(fault) => Next::panicked(at, panic_of(fault)),
            }
        }
        Instr::Jump { to } => Next::to(to as usize, base),
        Instr::JumpZero { a, to } => {
            if slot(words, base, a as usize) == 0 {
                Next::to(to as usize, base)
            } else {
                Next::on(at)
            }
        }
        Instr::Call { func } => {
            let frame = tables.own_frame(words, at);
            let callee = tables.callee(words, base, func);
            call(alloc, words, stack_max, at, frame, callee)
        }
        Instr::Incoming { direction, a, b, n } => {
            let frame = tables.own_frame(words, at);
            match incoming(words, stack_max, base, frame, b, n) {
                Ok(index) => {
                    pass(words, base, direction, a, index, n);
                    Next::on(at)
                }
                Err(ending) => Next::ended(at, ending),
            }
        }
        Instr::Load { a, b, off, n } => load(words, stack_max, heap, at, a, b, off, n),
        Instr::Store {
            event: _,
            a,
            off,
            c,
            n,
        } => store(words, stack_max, heap, at, a, off, c, n),
        Instr::Born { a, n, site: _ } => {
            clear_slots(words, base, a as usize, n as usize);
            Next::on(at)
        }
        Instr::Return => leave(tables, words, stack_max, at),
        _ => rare_step_apart(
            tables, instr, words, stack_max, heap, at, reader, input, out,
        ),
    }
}
