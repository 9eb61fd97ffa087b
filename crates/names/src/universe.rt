//! The names that the language declares before every program.

ghost use Rattle.std.specs.Prelude.{◌≡◌, codes};
ghost use Rattle.std.specs.List.{list_any};
ghost use Rattle.std.specs.Str.{bytes_eq};
ghost use Rattle.names.specs.Universe.{is_type_name, is_value_name, is_blank, is_main, left_out, predeclared_function, predeclared};

use crate::scope::{Declared, Measure};
use base::ValueType;

/// The predeclared types of Go 1.22 (Go specification, "Predeclared identifiers").
static TYPE_NAMES: [&str; 22] = [
    "any",
    "bool",
    "byte",
    "comparable",
    "complex64",
    "complex128",
    "error",
    "float32",
    "float64",
    "int",
    "int8",
    "int16",
    "int32",
    "int64",
    "rune",
    "string",
    "uint",
    "uint8",
    "uint16",
    "uint32",
    "uint64",
    "uintptr",
];

/// Its predeclared constants and functions.
static VALUE_NAMES: [&str; 22] = [
    "true", "false", "iota", "nil", "append", "cap", "clear", "close", "complex", "copy", "delete",
    "imag", "len", "make", "max", "min", "new", "panic", "print", "println", "real", "recover",
];

/// Whether a name is that of a predeclared type.
#[tactic(auto, unfolding(crate::specs::Universe::is_type_name))]
pub fn is_type_name(name: &[u8]) -> bool
    ensures { result ≡ is_type_name name.now }
{
    is_among(&TYPE_NAMES, name)
}

/// Whether a name is that of a predeclared constant or function.
#[tactic(auto, unfolding(crate::specs::Universe::is_value_name))]
pub fn is_value_name(name: &[u8]) -> bool
    ensures { result ≡ is_value_name name.now }
{
    is_among(&VALUE_NAMES, name)
}

pub fn is_blank(name: &[u8]) -> bool
    ensures { result ≡ is_blank name.now }
{
    name == "_".as_bytes()
}

pub fn is_main(name: &[u8]) -> bool
    ensures { result ≡ is_main name.now }
{
    name == "main".as_bytes()
}

/// What a predeclared name stands for that is left out of the profile.
fn left_out(name: &[u8]) -> Option<Declared>
    ensures { result ≡ left_out name.now }
{
    if is_type_name(name) {
        Some(Declared::LeftOutType)
    } else if is_value_name(name) {
        Some(Declared::LeftOutValue)
    } else {
        None
    }
}

/// The predeclared functions, and what is left out.
fn predeclared_function(name: &[u8]) -> Option<Declared>
    ensures { result ≡ predeclared_function name.now }
{
    if name == "println".as_bytes() {
        Some(Declared::Print(true))
    } else if name == "print".as_bytes() {
        Some(Declared::Print(false))
    } else if name == "panic".as_bytes() {
        Some(Declared::Panic)
    } else if name == "len".as_bytes() {
        Some(Declared::Measure(Measure::Length))
    } else if name == "cap".as_bytes() {
        Some(Declared::Measure(Measure::Capacity))
    } else {
        left_out(name)
    }
}

/// What a name stands for where the program doesn't declare it.
#[tactic(auto, unfolding(crate::specs::Universe::predeclared))]
pub fn predeclared(name: &[u8]) -> Option<Declared>
    ensures { result ≡ predeclared name.now }
{
    if name == "int".as_bytes() {
        Some(Declared::Type(ValueType::Int))
    } else if name == "bool".as_bytes() {
        Some(Declared::Type(ValueType::Bool))
    } else if name == "true".as_bytes() {
        Some(Declared::Truth(true))
    } else if name == "false".as_bytes() {
        Some(Declared::Truth(false))
    } else if name == "nil".as_bytes() {
        Some(Declared::Nil)
    } else {
        predeclared_function(name)
    }
}

fn is_among(words: &[&str], name: &[u8]) -> bool
    ensures { result ≡ list_any (λ word. bytes_eq name.now word.now) words.now }
{
    words.iter().any(|word| name == word.as_bytes())
}
