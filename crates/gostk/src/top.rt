//! The top call.
ghost use Rattle.std.specs.Prelude.{◌≡◌, ◌⊎◌, ℕ, ◌≤◌, List, [], map, get_or, IfOk};
ghost use Rattle.typed_syntax.specs.Syntax.{Program};
ghost use Rattle.compile.specs.Compiled.{Does, compiled_program};
ghost use Rattle.gostk.specs.Words.{texts_of};
ghost use Rattle.gostk.specs.Rows.{seen, streams, IsTextOf, Tells, Allowed, RanBy, RanText, Asking, RunsAsking, words_answer};
ghost use Rattle.gostk.specs.Contract.{Answers, moment};

use crate::answer::{Answer, Reason};
use crate::refusal::refusal_of;
use crate::reporting::report;
use crate::words::{Request, WordsFault, read_words};
use base::NoMemory;
use code_runs::{RunFault, run};
use compile::{Compiled, compile};
use limits::Limits;
use machine::Panic;
use outside::{FileFault, Files, Sink, Source};
use std::alloc::Global;

// What a panic comes to. Of a string the bytes are copied, for which memory may be refused.
fn panicked(alloc: Global, panic: Panic, strings: &[Vec<u8>]) -> Answer<'static>
    ensures { Tells panic (map (λ bytes. bytes.items) strings.now) result }
{
    let reason = match panic {
        Panic::DivideByZero => Reason::DivideByZero,
        Panic::NilPointer => Reason::NilPointer,
        Panic::ShiftCount(n) => Reason::ShiftCount(n),
        Panic::IndexOutOfRange { index, length } => Reason::IndexOutOfRange { index, length },
        Panic::SliceHigh { high, capacity } => Reason::SliceHigh { high, capacity },
        Panic::SliceLow { low, high } => Reason::SliceLow { low, high },
        Panic::MakeLength(n) => Reason::MakeLength(n),
        Panic::MakeCapacity { capacity, length } => Reason::MakeCapacity { capacity, length },
        Panic::ExitCode(n) => Reason::ExitCode(n),
        Panic::Text(number) => match text_of(alloc, number, strings) {
            Ok(bytes) => Reason::Text(bytes),
            Err(_) => return Answer::NoMemory,
        },
        Panic::Int(n) => Reason::Int(n),
        Panic::Bool(b) => Reason::Bool(b),
    };
    Answer::Panicked(reason)
}

// The bytes of a string by its number; none where there is no such string.
fn text_of(alloc: Global, number: u32, strings: &[Vec<u8>]) -> Result<Vec<u8>, NoMemory>
    ensures { IfOk result (λ bytes. bytes.items ≡ get_or (map (λ text. text.items) strings.now) number []) }
{
    let mut bytes = Vec::new(alloc);
    if let Some(text) = strings.get(number as usize) {
        bytes.extend_from_slice(text)?;
    }
    Ok(bytes)
}

// Runs a compiled text to its end or to its limits.
fn run_compiled<I: Source, O: Sink>(
    alloc: Global,
    compiled: &Compiled,
    limits: &Limits,
    input: &mut I,
    out: &mut O,
) -> Answer<'static>
    requires { Does compiled.now }
    ensures ran { RanBy (compiled_program compiled.now) limits.now result
        (streams (O.taken out.old) (O.faults out.old) (I.left input.old) (I.faults input.old))
        (streams (O.taken out.new) (O.faults out.new) (I.left input.new) (I.faults input.new)) }
    ensures input { (input.new ≡ input.old) ⊎ Asking (compiled_program compiled.now) limits.now (I.left input.old) }
{
    let steps = limits.steps();
    let (stack_max, heap_max) = (limits.stack_max(), limits.heap_max());
    let Compiled { program, code, .. } = compiled;
    match run(alloc, program, code, stack_max, heap_max, steps, input, out) {
        Ok(status) => Answer::Ended(status),
        Err(RunFault::Panic(panic)) => panicked(alloc, panic, code.strings()),
        Err(RunFault::Steps) => Answer::Steps(steps),
        Err(RunFault::StackLimit { used, asked, limit }) => Answer::StackLimit {
            used,
            asked,
            limit,
        },
        Err(RunFault::HeapLimit { used, asked, limit }) => Answer::HeapLimit { used, asked, limit },
        Err(RunFault::ReadFault) => Answer::ReadFault,
        Err(RunFault::WriteFault) => Answer::WriteFault,
        Err(RunFault::NoMemory) => Answer::NoMemory,
    }
}

// What words that are refused come to.
fn refused_words(fault: WordsFault) -> Answer<'static>
    ensures { result ≡ words_answer fault }
{
    match fault {
        WordsFault::NoMemory => Answer::NoMemory,
        WordsFault::Usage(text) => Answer::Usage(text),
        WordsFault::Limits(fault) => Answer::Limits(fault),
        WordsFault::SourceOnly => Answer::SourceOnly,
    }
}

// Compiles and runs the text of a file.
fn run_text<'a, I: Source, O: Sink>(
    alloc: Global,
    file: &'a str,
    text: &[u8],
    limits: &Limits,
    input: &mut I,
    out: &mut O,
) -> Answer<'a>
    ensures ran { RanText file.now text.now limits.now result
        (streams (O.taken out.old) (O.faults out.old) (I.left input.old) (I.faults input.old))
        (streams (O.taken out.new) (O.faults out.new) (I.left input.new) (I.faults input.new)) }
    ensures input { (input.new ≡ input.old) ⊎ (p : Program) × IsTextOf text.now p × Asking p limits.now (I.left input.old) }
{
    let compiled = match compile(alloc, text) {
        Ok(compiled) => compiled,
        Err(fault) => {
            return match refusal_of(fault) {
                Some(refusal) => Answer::Refused { file, refusal },
                None => Answer::NoMemory,
            };
        }
    };
    run_compiled(alloc, &compiled, limits, input, out)
}

// Does what the words ask for, and answers what it came to.
fn carry_out<'a, F: Files, I: Source, O: Sink>(
    alloc: Global,
    words: &'a [String],
    files: &mut F,
    input: &mut I,
    out: &mut O,
) -> Answer<'a>
    ensures allowed { Allowed
        (seen (F.content files.old) (F.failed files.old)
        (streams (O.taken out.old) (O.faults out.old) (I.left input.old) (I.faults input.old)))
        (seen (F.content files.new) (F.failed files.new)
        (streams (O.taken out.new) (O.faults out.new) (I.left input.new) (I.faults input.new)))
        (texts_of words.now) result }
    ensures contents { (path : List ℕ) → F.content files.new path ≡ F.content files.old path }
    ensures input { (input.new ≡ input.old) ⊎ RunsAsking
        (seen (F.content files.old) (F.failed files.old)
        (streams (O.taken out.old) (O.faults out.old) (I.left input.old) (I.faults input.old)))
        (seen (F.content files.new) (F.failed files.new)
        (streams (O.taken out.new) (O.faults out.new) (I.left input.new) (I.faults input.new))) (texts_of words.now) }
{
    let Request { file, limits } = match read_words(alloc, words) {
        Ok(request) => request,
        Err(fault) => return refused_words(fault),
    };
    let text = match files.read_all(alloc, file) {
        Ok(text) => text,
        Err(FileFault::Failed) => return Answer::ReadFault,
        Err(FileFault::NoMemory) => return Answer::NoMemory,
    };
    run_text(alloc, file, &text, &limits, input, out)
}

/// The program: does what the words ask for, with the files, the input and the output that are handed in, writes the
/// answer's line on `err`, and answers the exit status. The words begin with the program's name.
///
/// | Status | When | Line on `err` |
/// |---|---|---|
/// | 0 to 125 | the text is accepted, and its program ended with this status | none |
/// | 2 | the text is accepted, and its program panicked | `panic: TEXT` |
/// | 200 | clap refuses the words or is asked for help | clap's text |
/// | 200 | the numbers of the options are no limits | `gostk: limits kind N` |
/// | 200 | the file does not end in `.go` | `gostk: source only` |
/// | 201 | the text is refused | `FILE:L:C: STAGE kind N`, for a frame that is too large with ` words W` after it |
/// | 203 | the file was not read; or the input failed where the program asks for an item | `gostk: read fault` |
/// | 204 | `out` or `err` failed | `gostk: write fault`; where `err` failed, a part of the line of another row |
/// | 205 | N instructions ran, and the program has not ended | `gostk: steps N` |
/// | 206 | a variable would have passed the limit of the heap | `gostk: heap used U asked A limit M` |
/// | 207 | a call would have passed the limit of the stack | `gostk: stack used U asked A limit M` |
/// | 209 | memory was refused | `gostk: no memory` |
pub fn gostk<F: Files, I: Source, O: Sink, E: Sink>(
    alloc: Global,
    words: &[String],
    files: &mut F,
    input: &mut I,
    out: &mut O,
    err: &mut E,
) -> u8
    // What is promised of each status is a field of `Answers`, between what is seen before the call and after it.
    ensures { Answers (texts_of words.now) result (input.new ≡ input.old)
        (moment (F.content files.old) (F.failed files.old) (O.taken out.old) (O.faults out.old)
        (I.left input.old) (I.faults input.old) (E.taken err.old) (E.faults err.old))
        (moment (F.content files.new) (F.failed files.new) (O.taken out.new) (O.faults out.new)
        (I.left input.new) (I.faults input.new) (E.taken err.new) (E.faults err.new)) }
{
    let answer = carry_out(alloc, words, files, input, out);
    report(&answer, err)
}
