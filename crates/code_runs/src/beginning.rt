//! The heap with which a run begins: the words of each package variable, in their order.
ghost use Rattle.std.specs.Prelude.{◌≡◌, ℕ, ◌+◌, ◌<◌, ◌≤◌, ◌^◌, ◌++◌, length, IfOk, IfErr, IfSome, OnOk};
ghost use Rattle.heap_bump.specs.Words.{AreTaken};
ghost use Rattle.typed.specs.View.{program_of};
ghost use Rattle.expression_code.specs.Frame.{sites_in};
ghost use Rattle.simulated_code.specs.Correct.{first_words};
ghost use Rattle.code_runs.specs.Runs.{AreBegun, IsBeginFault, IsHeapFault, begun_words, with_first};
ghost use Rattle.code_runs.specs.declared.running.RunFault.{RunFault};

use crate::RunFault;
use expression_code::word;
use frame_layout::site_words;
use heap_bump::{Heap, HeapFault};
use std::alloc::Global;
use typed::{Const, PackageVariable, Program};

// Why no words could be taken, as a run's fault.
fn fault_of(fault: HeapFault) -> RunFault
    ensures none { fault ≡ HeapFault.NoMemory → result ≡ RunFault.NoMemory }
    ensures full { (used asked max : ℕ) → fault ≡ HeapFault.Limit used asked max → result ≡ RunFault.HeapLimit used asked max }
{
    match fault {
        HeapFault::NoMemory => RunFault::NoMemory,
        HeapFault::Limit { used, asked, max } => RunFault::HeapLimit {
            used,
            asked,
            limit: max,
        },
    }
}

// The number of words that a package variable begins with: a constant stands in one.
fn words_asked(program: &Program, global: PackageVariable) -> u64
    ensures { result ≡ length (begun_words (sites_in program.now) global) }
{
    match global.value {
        None => site_words(program, global.site),
        Some(_) => 1,
    }
}

// The first of some words gets the value of a constant, where there is one: all words of a zero value are 0.
fn put_first(heap: &mut Heap, at: u64, value: Option<Const>)
    requires { IfSome value (λ _. AreTaken heap.old.words at 1) }
    ensures { heap.new ≡ record heap.old { words = with_first heap.old.words at value } }
{
    match value {
        Some(constant) => heap.set(at, word(constant)),
        None => {}
    }
}

// The words of one more package variable are taken.
fn add(heap: &mut Heap, program: &Program, global: PackageVariable) -> Result<(), RunFault>
    ensures words { OnOk result (heap.new ≡ record heap.old {
      words = heap.old.words
          ++ begun_words (sites_in program.now) global;
    }) }
    ensures room { OnOk result (length heap.old.words + length (begun_words (sites_in program.now) global) ≤ heap.old.max) }
    ensures fault { IfErr result (IsHeapFault
        (heap.old.max < length heap.old.words + length (begun_words (sites_in program.now) global))
        (length heap.old.words) (length (begun_words (sites_in program.now) global)) heap.old.max) }
{
    match heap.take(words_asked(program, global)) {
        Ok(at) => {
            put_first(heap, at, global.value);
            Ok(())
        }
        Err(fault) => Err(fault_of(fault)),
    }
}

/// The heap of a run that begins: its words are those that the package variables begin with. The fault is want of memory, or
/// the heap's limit, at the first variable that has no room.
pub fn first_heap(alloc: Global, program: &Program, heap_max: u64) -> Result<Heap, RunFault>
    requires { heap_max ≤ 2 ^ 32 }
    ensures max { IfOk result (λ h. h.max ≡ heap_max) }
    ensures words { IfOk result (λ h. AreBegun heap_max (first_words (program_of program.now).globals) h.words) }
    ensures fault { IfErr result (IsBeginFault heap_max (first_words (program_of program.now).globals)) }
{
    let globals = program.globals.as_slice();
    let mut heap = Heap::new(alloc, heap_max);
    for global in globals {
        add(&mut heap, program, *global)?;
    }
    Ok(heap)
}
