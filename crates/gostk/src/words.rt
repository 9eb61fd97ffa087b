//! The words of the command line, by clap.
ghost use Rattle.std.specs.Prelude.{◌≡◌, List, IfOk, IfErr, []};
ghost use Rattle.limits.specs.Limits.{AreLimits, IsFirstFault};
ghost use Rattle.clap.specs.Words.{HasKind, Text, one_of, subcommand_rows_of};
ghost use Rattle.gostk.specs.Words.{texts_of, refusals, arguments, path_in, bounds_in, bounds_of, number_of, is_source, rows_in, Asks, RefusesWords};
ghost use Rattle.gostk.specs.declared.words.WordsFault.{WordsFault};

use crate::command::command_line;
use clap::error::ErrorKind;
use clap::{ArgMatches, Error};
use limits::{LimitFault, Limits};
use std::alloc::{AllocError, Global};

/// What the words ask for: the file of source that is to run, and the limits of the run.
#[derive(Drop)]
pub struct Request<'a> {
    pub file: &'a str,
    pub limits: Limits,
}

/// Why the words are refused.
#[derive(Debug, Drop)]
pub enum WordsFault {
    NoMemory,
    /// clap refuses the words, or shows help: its text.
    Usage(String),
    /// The numbers of the options are no limits.
    Limits(LimitFault),
    /// The file is not source: its name doesn't end in `.go`.
    SourceOnly,
}

impl From<AllocError> for WordsFault {
    ghost from_gives = { λ _ e. e ≡ WordsFault.NoMemory };

    fn from(_: AllocError) -> WordsFault {
        WordsFault::NoMemory
    }
}

impl From<LimitFault> for WordsFault {
    ghost from_gives = { λ f e. e ≡ WordsFault.Limits f };

    fn from(fault: LimitFault) -> WordsFault {
        WordsFault::Limits(fault)
    }
}

// Why clap refuses the words, with its text.
fn usage(alloc: Global, error: Error) -> WordsFault
    ensures { (words : List Text) → HasKind (refusals words) error → RefusesWords words result }
{
    match error.kind() {
        ErrorKind::OutOfMemory => WordsFault::NoMemory,
        _ => match error.to_string(alloc) {
            Ok(text) => WordsFault::Usage(text),
            Err(_) => WordsFault::NoMemory,
        },
    }
}

// What clap reads of the words.
fn matches_of<'a>(alloc: Global, words: &'a [String]) -> Result<ArgMatches<'a>, WordsFault>
    ensures taken { IfOk result (λ m. refusals (texts_of words.now) ≡ []) }
    ensures rows { IfOk result (λ m. rows_in (subcommand_rows_of m) ≡ arguments (texts_of words.now)) }
    ensures refused { IfErr result (RefusesWords (texts_of words.now)) }
{
    let command = command_line(alloc)?;
    match command.try_get_matches_from(words) {
        Ok(matches) => Ok(matches),
        Err(error) => Err(usage(alloc, error)),
    }
}

// The file that a command names.
fn file_in<'a>(matches: &ArgMatches<'a>) -> &'a str
    ensures { result.now ≡ path_in (rows_in (subcommand_rows_of matches.now)) }
{
    match matches.subcommand() {
        Some((_, below)) => below.get_str("file").unwrap_or(""),
        None => "",
    }
}

// The number of an option of a command.
fn number_in(matches: &ArgMatches<'_>, name: &str, default: u64) -> u64
    ensures { result ≡ number_of default (one_of name.now (rows_in (subcommand_rows_of matches.now))) }
{
    match matches.subcommand() {
        Some((_, below)) => below.get_one::<u64>(name).unwrap_or(default),
        None => default,
    }
}

// The limits that the options of a command give.
fn limits_in(matches: &ArgMatches<'_>) -> Result<Limits, LimitFault>
    ensures is { IfOk result (λ l. l ≡ bounds_in (rows_in (subcommand_rows_of matches.now))) }
    ensures taken { IfOk result (λ l. AreLimits (bounds_in (rows_in (subcommand_rows_of matches.now)))) }
    ensures refused { IfErr result (IsFirstFault (bounds_in (rows_in (subcommand_rows_of matches.now)))) }
{
    let start = number_in(matches, "stack", 64);
    let stack_max = number_in(matches, "max-stack", 131_072);
    let heap_max = number_in(matches, "heap", 1_048_576);
    let steps = number_in(matches, "steps", 1_000_000_000);
    Limits::new(start, stack_max, heap_max, steps)
}

// Whether a file is source.
fn is_source_path(path: &str) -> bool
    ensures { result ≡ is_source path.now }
{
    path.as_bytes().ends_with(b".go")
}

/// What the words ask for. They begin with the program's name. Words, numbers and file are looked at in this order.
pub fn read_words<'a>(alloc: Global, words: &'a [String]) -> Result<Request<'a>, WordsFault>
    ensures asks { IfOk result (λ r. Asks (texts_of words.now) r.file.now) }
    ensures limits { IfOk result (λ r. r.limits ≡ bounds_of (texts_of words.now)) }
    ensures refused { IfErr result (RefusesWords (texts_of words.now)) }
{
    let matches = matches_of(alloc, words)?;
    let limits = limits_in(&matches)?;
    let file = file_in(&matches);
    if !is_source_path(file) {
        return Err(WordsFault::SourceOnly);
    }
    Ok(Request { file, limits })
}
