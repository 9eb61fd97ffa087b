//! The command line, as clap's builder has it.
ghost use Rattle.std.specs.Prelude.{◌≡◌, IfOk, false};
ghost use Rattle.clap.specs.Words.{app_of, new_app, rule_of, with_rule, with_subcommand};
ghost use Rattle.clap.specs.declared.builder.command.Command.TheViews.{out-Command as fields_of};
ghost use Rattle.gostk.specs.Command.{number_rule, file_rule, running, wanting, gostk_app};

use clap::builder::ValueParser;
use clap::{Arg, Command};
use std::alloc::{AllocError, Global};

// An option with a number, what help calls the number and says of it, and the text of its default.
fn number_option<'a>(
    alloc: Global,
    name: &'a str,
    value: &'a str,
    text: &'a str,
    default: &'a str,
) -> Arg<'a>
    ensures rule { rule_of result ≡ number_rule name.entry.now default.entry.now }
    ensures local { result.global ≡ false }
{
    Arg::new(alloc, name)
        .long(name)
        .value_name(value)
        .help(text)
        .value_parser(ValueParser::Signed(0, i64::MAX))
        .default_value(default)
}

// The file that a command reads.
fn file<'a>(alloc: Global) -> Arg<'a>
    ensures rule { rule_of result ≡ file_rule }
    ensures local { result.global ≡ false }
{
    Arg::new(alloc, "file")
        .required(true)
        .value_name("FILE")
        .help("The source file; its name ends in .go")
}

// Adds an argument that is not global.
fn with_arg<'a>(command: Command<'a>, arg: Arg<'a>) -> Result<Command<'a>, AllocError>
    requires { arg.global ≡ false }
    ensures app { IfOk result (λ c. app_of c ≡ with_rule (app_of command.entry) (rule_of arg.entry)) }
    ensures local { IfOk result (λ c. (fields_of c).has_globals ≡ (fields_of command.entry).has_globals) }
{
    command.arg(arg)
}

// Adds a command that has no global argument.
fn with_command<'a>(command: Command<'a>, below: Command<'a>) -> Result<Command<'a>, AllocError>
    requires { (fields_of below).has_globals ≡ false }
    ensures { IfOk result (λ c. app_of c ≡ with_subcommand (app_of command.entry) (app_of below.entry).top) }
{
    command.subcommand(below)
}

// A command of which help says this.
fn new_command<'a>(alloc: Global, name: &'a str, about: &'a str) -> Command<'a>
    ensures app { app_of result ≡ new_app name.entry.now }
    ensures local { (fields_of result).has_globals ≡ false }
{
    Command::new(alloc, name).about(about)
}

// A command that runs a file under limits, and of which help says this.
fn running_command<'a>(
    alloc: Global,
    name: &'a str,
    about: &'a str,
) -> Result<Command<'a>, AllocError>
    ensures app { IfOk result (λ c. app_of c ≡ running name.entry.now) }
    ensures local { IfOk result (λ c. (fields_of c).has_globals ≡ false) }
{
    let stack = "The words that a stack starts with";
    let max_stack = "The most words that a stack may have";
    let heap =
        "The words of the heap, which holds package variables and large variables of functions";
    let steps = "The most instructions that run";
    let one = with_arg(
        new_command(alloc, name, about),
        number_option(alloc, "stack", "WORDS", stack, "64"),
    )?;
    let two = with_arg(
        one,
        number_option(alloc, "max-stack", "WORDS", max_stack, "131072"),
    )?;
    let three = with_arg(two, number_option(alloc, "heap", "WORDS", heap, "1048576"))?;
    let four = with_arg(
        three,
        number_option(alloc, "steps", "N", steps, "1000000000"),
    )?;
    let five = with_arg(four, file(alloc))?;
    Ok(five)
}

// A command that wants one below it.
fn wanting_command<'a>(command: Command<'a>) -> Command<'a>
    ensures { app_of result ≡ wanting (app_of command.entry) }
{
    command.subcommand_required(true)
}

/// The whole command line.
pub fn command_line<'a>(alloc: Global) -> Result<Command<'a>, AllocError>
    ensures { IfOk result (λ c. app_of c ≡ gostk_app) }
{
    let about = "Compiles and runs programs of a subset of Go";
    let top = wanting_command(new_command(alloc, "gostk", about));
    let run = "Compiles a source file and runs the program";
    let all = with_command(top, running_command(alloc, "run", run)?)?;
    Ok(all)
}
