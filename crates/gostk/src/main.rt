//! `gostk` compiles and runs programs of a one-package integer subset of Go.
//!
//! Everything that the program promises is a clause of one call, [`top::gostk`]: it takes the words of the command
//! line and the files, input, output and error output that it is to use, and answers the exit status. What a call
//! comes to is one `Answer`, a case for each row of the table of answers; each answer has its status and its line on
//! the error output. `main` makes the real objects, makes the one call, and exits with its status.
#![tactic(auto)]

mod answer;
mod command;
mod refusal;
mod reporting;
mod top;
mod words;

use outside::{DiskFiles, StdSink, StdSource};
use std::env;
use std::process::ExitCode;

// The words of the command line, or none where they can't be read as text.
fn arguments(rt: &HostRuntime) -> Vec<String> {
    match env::args(rt) {
        Ok(words) => words.collect(rt.alloc()).unwrap_or(Vec::new(rt.alloc())),
        Err(_) => Vec::new(rt.alloc()),
    }
}

fn main(rt: HostRuntime) -> ExitCode {
    let words = arguments(&rt);
    let mut files = DiskFiles::new(rt.alloc(), &rt);
    let mut input = StdSource::new(rt.stdin());
    let mut out = StdSink::new(rt.stdout());
    let mut err = StdSink::new(rt.stderr());
    let status = top::gostk(
        rt.alloc(),
        &words,
        &mut files,
        &mut input,
        &mut out,
        &mut err,
    );
    ExitCode::from(status)
}

#[cfg(test)]
mod tests;
