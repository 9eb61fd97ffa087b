//! How an answer is reported: its line on the error output, and its status.
ghost use Rattle.std.specs.Fmt.{signed_decimal};
ghost use Rattle.std.specs.Prelude.{◌++◌, OnOk, OnErr, codes};
ghost use Rattle.outside.specs.Causes.{HasCause};
ghost use Rattle.outside.specs.Line.{text_of};
ghost use Rattle.outside.specs.Took.{Took, TookPrefix};
ghost use Rattle.gostk.specs.Answer.{line_of, numbers_text, reason_text, panic_line, limits_line, steps_line, limit_line};
ghost use Rattle.gostk.specs.Refusal.{refusal_line};
ghost use Rattle.gostk.specs.Rows.{Reported};

use crate::answer::{Answer, Reason};
use crate::refusal::Refusal;
use limits::LimitFault;
use outside::{Failed, LinePart, Sink, put_bytes, put_line};

/// The status where the line can't be written.
const WRITE_FAULT: u8 = 204;

/// Writes the answer's line, and gives the status of the answer, or that of a write fault where the line was not
/// written.
pub fn report<E: Sink>(answer: &Answer<'_>, err: &mut E) -> u8
    ensures { Reported answer.now result (E.taken err.old) (E.taken err.new) (E.faults err.old) (E.faults err.new) }
{
    match put_answer(answer, err) {
        Ok(()) => answer.status(),
        Err(_) => WRITE_FAULT,
    }
}

// Writes a whole text.
fn put_text<E: Sink>(text: &[u8], err: &mut E) -> Result<(), Failed>
    ensures whole { OnOk result (Took (E.taken err.old) (E.taken err.new) text.now) }
    ensures part { OnErr result (TookPrefix (E.taken err.old) (E.taken err.new) text.now) }
    ensures cause { HasCause (E.faults err.old) (E.faults err.new) result }
{
    match put_bytes(err, text) {
        Ok(()) => Ok(()),
        Err(_) => Err(Failed),
    }
}

// Writes a line from its pieces.
fn put_pieces<E: Sink>(pieces: &[LinePart<'_>], err: &mut E) -> Result<(), Failed>
    ensures whole { OnOk result (Took (E.taken err.old) (E.taken err.new) (text_of pieces.now)) }
    ensures part { OnErr result (TookPrefix (E.taken err.old) (E.taken err.new) (text_of pieces.now)) }
    ensures cause { HasCause (E.faults err.old) (E.faults err.new) result }
{
    match put_line(err, pieces) {
        Ok(()) => Ok(()),
        Err(_) => Err(Failed),
    }
}

// Writes the answer's line, where it has one.
fn put_answer<E: Sink>(answer: &Answer<'_>, err: &mut E) -> Result<(), Failed>
    ensures whole { OnOk result (Took (E.taken err.old) (E.taken err.new) (line_of answer.now)) }
    ensures part { OnErr result (TookPrefix (E.taken err.old) (E.taken err.new) (line_of answer.now)) }
    ensures cause { HasCause (E.faults err.old) (E.faults err.new) result }
{
    match answer {
        Answer::Ended(_) => put_text(b"", err),
        Answer::Panicked(reason) => put_panic(reason, err),
        Answer::Usage(text) => put_text(text.as_bytes(), err),
        Answer::Limits(fault) => put_limits(*fault, err),
        Answer::SourceOnly => put_text(b"gostk: source only\n", err),
        Answer::Refused { file, refusal } => put_refusal(file, refusal, err),
        Answer::ReadFault => put_text(b"gostk: read fault\n", err),
        Answer::WriteFault => put_text(b"gostk: write fault\n", err),
        Answer::Steps(n) => put_steps(*n, err),
        Answer::StackLimit { used, asked, limit } => {
            put_limit(b"gostk: stack used ", *used, *asked, *limit, err)
        }
        Answer::HeapLimit { used, asked, limit } => {
            put_limit(b"gostk: heap used ", *used, *asked, *limit, err)
        }
        Answer::NoMemory => put_text(b"gostk: no memory\n", err),
    }
}

// Writes the line of a panic.
fn put_panic<E: Sink>(reason: &Reason, err: &mut E) -> Result<(), Failed>
    ensures whole { OnOk result (Took (E.taken err.old) (E.taken err.new) (panic_line (reason_text reason.now))) }
    ensures part { OnErr result (TookPrefix (E.taken err.old) (E.taken err.new) (panic_line (reason_text reason.now))) }
    ensures cause { HasCause (E.faults err.old) (E.faults err.new) result }
{
    match reason {
        Reason::DivideByZero => put_text(b"panic: divide by zero\n", err),
        Reason::NilPointer => put_text(b"panic: nil pointer\n", err),
        Reason::ShiftCount(n) => put_panic_number(b"shift count ", *n, err),
        Reason::IndexOutOfRange { index, length } => {
            put_panic_numbers(b"index ", *index, b" length ", *length, err)
        }
        Reason::SliceHigh { high, capacity } => {
            put_panic_numbers(b"slice high ", *high, b" capacity ", *capacity, err)
        }
        Reason::SliceLow { low, high } => {
            put_panic_numbers(b"slice low ", *low, b" high ", *high, err)
        }
        Reason::MakeLength(n) => put_panic_number(b"make length ", *n, err),
        Reason::MakeCapacity { capacity, length } => {
            put_panic_numbers(b"make capacity ", *capacity, b" length ", *length, err)
        }
        Reason::ExitCode(n) => put_panic_number(b"exit code ", *n, err),
        Reason::Text(bytes) => put_pieces(
            &[
                LinePart::Text(b"panic: "),
                LinePart::Text(bytes.as_slice()),
                LinePart::Text(b"\n"),
            ],
            err,
        ),
        Reason::Int(n) => put_panic_number(b"", *n, err),
        Reason::Bool(true) => put_text(b"panic: true\n", err),
        Reason::Bool(false) => put_text(b"panic: false\n", err),
    }
}

// Writes the line of a panic that has a number.
fn put_panic_number<'a, E: Sink>(before: &'a [u8], n: i64, err: &mut E) -> Result<(), Failed>
    ensures whole { OnOk result (Took (E.taken err.old) (E.taken err.new)
        (codes "panic: " ++ (before.now ++ (signed_decimal n ++ codes "\n")))) }
    ensures part { OnErr result (TookPrefix (E.taken err.old) (E.taken err.new)
        (codes "panic: " ++ (before.now ++ (signed_decimal n ++ codes "\n")))) }
    ensures cause { HasCause (E.faults err.old) (E.faults err.new) result }
{
    put_pieces(
        &[
            LinePart::Text(b"panic: "),
            LinePart::Text(before),
            LinePart::Int(n),
            LinePart::Text(b"\n"),
        ],
        err,
    )
}

// Writes the line of a panic that has two numbers.
fn put_panic_numbers<'a, E: Sink>(
    before: &'a [u8],
    first: i64,
    between: &'a [u8],
    second: i64,
    err: &mut E,
) -> Result<(), Failed>
    ensures whole { OnOk result (Took (E.taken err.old) (E.taken err.new)
        (panic_line (numbers_text before.now first between.now second))) }
    ensures part { OnErr result (TookPrefix (E.taken err.old) (E.taken err.new)
        (panic_line (numbers_text before.now first between.now second))) }
    ensures cause { HasCause (E.faults err.old) (E.faults err.new) result }
{
    put_pieces(
        &[
            LinePart::Text(b"panic: "),
            LinePart::Text(before),
            LinePart::Int(first),
            LinePart::Text(between),
            LinePart::Int(second),
            LinePart::Text(b"\n"),
        ],
        err,
    )
}

// Writes the line of limits that are refused.
fn put_limits<E: Sink>(fault: LimitFault, err: &mut E) -> Result<(), Failed>
    ensures whole { OnOk result (Took (E.taken err.old) (E.taken err.new) (limits_line fault)) }
    ensures part { OnErr result (TookPrefix (E.taken err.old) (E.taken err.new) (limits_line fault)) }
    ensures cause { HasCause (E.faults err.old) (E.faults err.new) result }
{
    let text = LinePart::Text(b"gostk: limits kind ");
    let kind = LinePart::Number(u64::from(fault.number()));
    put_pieces(&[text, kind, LinePart::Text(b"\n")], err)
}

// Writes the line of a run that was stopped after n instructions.
fn put_steps<E: Sink>(n: u64, err: &mut E) -> Result<(), Failed>
    ensures whole { OnOk result (Took (E.taken err.old) (E.taken err.new) (steps_line n)) }
    ensures part { OnErr result (TookPrefix (E.taken err.old) (E.taken err.new) (steps_line n)) }
    ensures cause { HasCause (E.faults err.old) (E.faults err.new) result }
{
    let text = LinePart::Text(b"gostk: steps ");
    put_pieces(&[text, LinePart::Number(n), LinePart::Text(b"\n")], err)
}

// Writes the line of a limit of the stack or the heap.
fn put_limit<E: Sink>(
    before: &[u8],
    used: u64,
    asked: u64,
    limit: u64,
    err: &mut E,
) -> Result<(), Failed>
    ensures whole { OnOk result (Took (E.taken err.old) (E.taken err.new) (limit_line before.now used asked limit)) }
    ensures part { OnErr result (TookPrefix (E.taken err.old) (E.taken err.new) (limit_line before.now used asked limit)) }
    ensures cause { HasCause (E.faults err.old) (E.faults err.new) result }
{
    put_pieces(
        &[
            LinePart::Text(before),
            LinePart::Number(used),
            LinePart::Text(b" asked "),
            LinePart::Number(asked),
            LinePart::Text(b" limit "),
            LinePart::Number(limit),
            LinePart::Text(b"\n"),
        ],
        err,
    )
}

// Writes the line of a refusal.
fn put_refusal<E: Sink>(file: &str, refusal: &Refusal, err: &mut E) -> Result<(), Failed>
    ensures whole { OnOk result (Took (E.taken err.old) (E.taken err.new) (refusal_line file.now refusal.now)) }
    ensures part { OnErr result (TookPrefix (E.taken err.old) (E.taken err.new) (refusal_line file.now refusal.now)) }
    ensures cause { HasCause (E.faults err.old) (E.faults err.new) result }
{
    let file = LinePart::Text(file.as_bytes());
    let colon = LinePart::Text(b":");
    let line = LinePart::Number(u64::from(refusal.pos.line));
    let col = LinePart::Number(u64::from(refusal.pos.col));
    let blank = LinePart::Text(b": ");
    let stage = LinePart::Text(refusal.stage.text());
    let of_kind = LinePart::Text(b" kind ");
    let kind = LinePart::Number(u64::from(refusal.kind));
    let newline = LinePart::Text(b"\n");
    match refusal.words {
        None => put_pieces(
            &[
                file, colon, line, colon, col, blank, stage, of_kind, kind, newline,
            ],
            err,
        ),
        Some(words) => {
            let of_words = LinePart::Text(b" words ");
            let words = LinePart::Number(words);
            put_pieces(
                &[
                    file, colon, line, colon, col, blank, stage, of_kind, kind, of_words, words,
                    newline,
                ],
                err,
            )
        }
    }
}
