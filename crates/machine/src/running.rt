//! A run of steps.
ghost use Rattle.outside.specs.Causes.{Rose};
ghost use Rattle.outside.specs.Pending.{to_come};
ghost use Rattle.std.specs.Prelude.{◌≡◌, ◌<◌, ◌≤◌, ◌^◌, length, Some, None};
ghost use Rattle.machine.specs.Inside.{Inside};
ghost use Rattle.machine.specs.Answers.{RunAnswers, StatusFits, WithAnswers};
ghost use Rattle.machine.specs.declared.run_state.Ending.{Ending};

use crate::code_tables::Tables;
use crate::steps::step;
use crate::{Next, RunState};
use heap_bump::Heap;
use isa::Code;
use outside::{IntReader, Sink, Source};
use std::alloc::Global;

/// Runs `steps` steps, or fewer where it ends before, with a stack of at most `stack_max` words and a heap. The items of the
/// input come from it through the reader. The answer says where the run then stands. The block of words grows at its low
/// end as calls need it.
#[inline(never)]
pub fn run<I: Source, O: Sink>(
    alloc: Global,
    code: &Code,
    words: &mut Vec<u64>,
    stack_max: u64,
    heap: &mut Heap,
    at: RunState,
    reader: &mut IntReader,
    input: &mut I,
    out: &mut O,
    steps: u64,
) -> Next
    requires words { (length words.old.items ≤ stack_max) × (stack_max ≤ 2 ^ 32) }
    requires inside { Inside code.now (length words.old.items) at.pc at.base }
    requires code { length code.now.instrs < 2 ^ 40 }
    ensures runs { WithAnswers result.ending (to_come reader.old (I.left input.old)) (to_come reader.new (I.left input.new))
        ((reader.new ≡ reader.old) × (input.new ≡ input.old))
        (RunAnswers code.now stack_max steps words.old.items heap.old at words.new.items heap.new result.at result.ending
        (O.taken out.old) (O.taken out.new) (O.faults out.old) (O.faults out.new)) }
    ensures source_later { I.faults input.old ≤ I.faults input.new }
    ensures read_fault { result.ending ≡ Some Ending.ReadFault → Rose (I.faults input.old) (I.faults input.new) }
    ensures stays { result.ending ≡ None → Inside code.now (length words.new.items) result.at.pc result.at.base }
    ensures length { length words.new.items ≤ stack_max }
    ensures status { StatusFits result.ending }
{
    let tables = Tables::of(code);
    let mut at = at;
    let mut left = steps;
    'steps: while left > 0 {
        let next = step(
            alloc, &tables, words, stack_max, heap, at, reader, input, out,
        );
        match next.ending {
            None => at = next.at,
            Some(_) => return next,
        }
        left -= 1;
        if left == 0 {
            return Next { at, ending: None };
        }
        let after = step(
            alloc, &tables, words, stack_max, heap, at, reader, input, out,
        );
        match after.ending {
            None => at = after.at,
            Some(_) => return after,
        }
        left -= 1;
    }
    Next { at, ending: None }
}
