//! The text of such a program.

ghost use Rattle.std.specs.Prelude.{◌≡◌, ◌≤◌, ◌++◌, string_bytes, IfOk, OnOk};
ghost use Rattle.demo_gen.specs.Text.{most_functions, text, main_text, kept_text, function_text};

use base::NoMemory;
use std::alloc::{AllocError, Global};
use std::fmt::Write;

/// What stands before the functions that call another one.
const BEGINNING: &str =
    "package main\n\nvar keep *int\n\nfunc f0(p *int, d int) *int {\n\t*p += d\n\treturn p\n}\n";

/// The line by which every third function keeps the address that it gets.
fn kept_line(number: u32) -> &'static str
    ensures { result.now ≡ kept_text number }
{
    if number % 3 == 0 { "\tkeep = q\n" } else { "" }
}

/// Puts the function of a number after a text.
fn put_function(text: &mut String, number: u32) -> Result<(), AllocError>
    requires { 1 ≤ number }
    ensures { OnOk result (string_bytes text.new ≡ string_bytes text.old ++ function_text number) }
{
    let before = number - 1;
    let kept = kept_line(number);
    write!(
        text,
        "\nfunc f{number}(p *int, d int) *int {{\n\tx := d + {number}\n\tq := f{before}(&x, {number})\n{kept}\t*p += *q\n\treturn p\n}}\n"
    )
}

/// Puts `main`, which calls the function of a number, after a text.
fn put_main(text: &mut String, number: u32) -> Result<(), AllocError>
    ensures { OnOk result (string_bytes text.new ≡ string_bytes text.old ++ main_text number) }
{
    write!(
        text,
        "\nfunc main() {{\n\ts := 0\n\tprintln(*f{number}(&s, {number}))\n}}\n"
    )
}

/// The text of the program of a number, from 1 to `most_functions`.
pub fn text(alloc: Global, number: u32) -> Result<Vec<u8>, NoMemory>
    requires low { 1 ≤ number }
    requires high { number ≤ most_functions }
    ensures { IfOk result (λ bytes. bytes.items ≡ text number) }
{
    let mut text = String::from_str(alloc, BEGINNING)?;
    for k in 0..number {
        put_function(&mut text, k + 1)?;
    }
    put_main(&mut text, number)?;
    Ok(text.into_bytes())
}
