//! Runs of a code to its end.
ghost use Rattle.std.specs.Prelude.{◌≡◌, ◌≢◌, ◌<◌, ◌≤◌, ◌^◌, length, slice_get, Some, None, Err};
ghost use Rattle.machine.specs.Inside.{Inside};
ghost use Rattle.machine.specs.Answers.{StatusFits};
ghost use Rattle.typed.specs.View.{program_of};
ghost use Rattle.typed_syntax.specs.Form.{IsInForm};
ghost use Rattle.outside.specs.Causes.{Rose};
ghost use Rattle.frames.specs.Placement.{coarse};
ghost use Rattle.program_code.specs.Code.{code_of};
ghost use Rattle.code_runs.specs.Runs.{RanUnder, ReadBy, answer_to};
ghost use Rattle.code_runs.specs.declared.running.RunFault.{RunFault};

use crate::beginning::first_heap;
use base::FuncId;
use isa::Code;
use machine::{Ending, Panic, RunState};
use outside::{IntReader, Sink, Source};
use std::alloc::{AllocError, Global};
use thiserror::Error;
use typed::Program;

/// Why a program's run did not come to its end.
#[derive(Clone, Copy, Debug, PartialEq, Eq, Error)]
pub enum RunFault {
    /// Memory for a frame, or for words of the heap, was refused. What was written is a beginning of the program's output.
    #[error("no memory")]
    NoMemory,
    /// The input failed where the program asked for an item. The sink took all that the program prints before.
    #[error("a read failed")]
    ReadFault,
    /// The sink failed at a piece, took a part of it, and had taken all that the program prints before.
    #[error("a write failed")]
    WriteFault,
    /// The program panicked.
    #[error("panic")]
    Panic(Panic),
    /// The run was stopped after the number of steps that it was given.
    #[error("no more steps")]
    Steps,
    /// A frame would have passed the limit of the stack: the words in use, those asked for, and the limit.
    #[error("stack used {used} asked {asked} limit {limit}")]
    StackLimit { used: u64, asked: u64, limit: u64 },
    /// Words would have passed the limit of the heap: those taken, those asked for, and the limit.
    #[error("heap used {used} asked {asked} limit {limit}")]
    HeapLimit { used: u64, asked: u64, limit: u64 },
}

impl From<AllocError> for RunFault {
    ghost use Rattle.code_runs.specs.declared.running.RunFault.{RunFault};

    ghost from_gives = { λ _ e. e ≡ RunFault.NoMemory };

    fn from(_: AllocError) -> RunFault {
        RunFault::NoMemory
    }
}

// What a run answers. The code of a program meets no wild word, so none is answered for.
fn answer(ending: Option<Ending>) -> Result<u8, RunFault>
    requires status { StatusFits ending }
    requires answered { answer_to ending ≢ None }
    ensures { answer_to ending ≡ Some result }
{
    match ending {
        None => Err(RunFault::Steps),
        Some(Ending::Exit(status)) => Ok(status as u8),
        Some(Ending::Panic(panic)) => Err(RunFault::Panic(panic)),
        Some(Ending::ReadFault) => Err(RunFault::ReadFault),
        Some(Ending::WriteFault) => Err(RunFault::WriteFault),
        Some(Ending::NoMemory) => Err(RunFault::NoMemory),
        Some(Ending::StackLimit { used, asked, limit }) => Err(RunFault::StackLimit {
            used,
            asked,
            limit,
        }),
        Some(Ending::HeapLimit { used, asked, limit }) => Err(RunFault::HeapLimit {
            used,
            asked,
            limit,
        }),
        Some(
            Ending::WildAddress(_)
            | Ending::WildReturn(_)
            | Ending::WildLink(_)
            | Ending::WildHeader(_),
        ) => unreachable!(),
    }
}

// The function by which a run begins: its frame and its first place lie inside the code.
fn entry(code: &Code, main: FuncId) -> isa::Func
    requires main { main.0 < length code.now.funcs }
    ensures is { slice_get code.now.funcs main.0 ≡ Some result }
    ensures inside { Inside code.now result.frame result.start 0 }
{
    // Its instructions say that a code is well formed.
    let _ = code.instrs();
    code.funcs()[main.0 as usize]
}

/// Runs the code of a program from the entry of its function `main`, for at most `steps` steps, with a stack of at most
/// `stack_max` and a heap of at most `heap_max` words. The package variables are put into the heap before. The program reads
/// its input through a buffer of its own. The answer is the status that the program ended with.
pub fn run<I: Source, O: Sink>(
    alloc: Global,
    program: &Program,
    code: &Code,
    stack_max: u64,
    heap_max: u64,
    steps: u64,
    input: &mut I,
    out: &mut O,
) -> Result<u8, RunFault>
    requires form { IsInForm (program_of program.now) }
    requires code { code.now ≡ code_of (program_of program.now) (coarse (program_of program.now)) }
    requires main { program.now.main.0 < length code.now.funcs }
    requires stack { stack_max ≤ 2 ^ 32 }
    requires heap { heap_max ≤ 2 ^ 32 }
    requires small { length code.now.instrs < 2 ^ 40 }
    ensures runs { ReadBy result (I.left input.old) (input.new ≡ input.old)
        (RanUnder (program_of program.now) stack_max heap_max steps result (O.taken out.old) (O.taken out.new)
        (O.faults out.old) (O.faults out.new)) }
    ensures source_later { I.faults input.old ≤ I.faults input.new }
    ensures read_fault { result ≡ Err RunFault.ReadFault → Rose (I.faults input.old) (I.faults input.new) }
{
    let mut heap = first_heap(alloc, program, heap_max)?;
    let first = entry(code, program.main);
    let asked = first.frame as u64;
    if asked > stack_max {
        return Err(RunFault::StackLimit {
            used: 0,
            asked,
            limit: stack_max,
        });
    }
    let mut words = vec![in alloc; 0; first.frame as usize]?;
    let at = RunState {
        pc: first.start as usize,
        base: 0,
    };
    let mut reader = IntReader::new();
    let next = machine::run(
        alloc,
        code,
        &mut words,
        stack_max,
        &mut heap,
        at,
        &mut reader,
        input,
        out,
        steps,
    );
    answer(next.ending)
}
