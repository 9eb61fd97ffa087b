//! What expressions give.

ghost use Rattle.std.specs.Prelude.{◌≡◌, is_some, option_and_then};
ghost use Rattle.std.specs.Option.{option_map};
ghost use Rattle.operators.specs.Passing.{operand_of};
ghost use Rattle.typed.specs.View.{type_of as tree_of};
ghost use Rattle.given_values.specs.Given.{length_in_type, length_in, shown_type, shown_of, as_part, operand_in, type_in_one, own_type, part_in, is_part, is_shown};
ghost use Rattle.given_values.specs.GivenFaults.{range_fault, single_fault, part_fault};
ghost use Rattle.given_values.specs.Passing.{part_view, gives_of};

use crate::wants::Wanted;
use base::{FuncId, Pos, TypeId, ValueType};
use constants::int_constant;
use names::Measure;
use operators::{Operand, as_value, constant_range_fault, type_of};
use type_faults::{Fault, FaultKind};
use typed::{BOOL, Expr, INT, Values};

/// An operand of `print`, `println` or `panic`.
#[derive(Drop)]
pub enum Part {
    /// A string, by its bytes.
    Said(Vec<u8>),
    /// A value, with its type.
    Valued(TypeId, Expr),
}

/// What an expression gives.
#[derive(Drop)]
pub enum Gives {
    One(Operand),
    /// The results of a call: its place, their types, the function and the arguments.
    Called(Pos, Vec<ValueType>, FuncId, Box<Values>),
    /// The two results of `readInt`, at a place: a number, and whether it is good.
    Asking(Pos),
    /// A string literal at a place, and its bytes.
    Quoted(Pos, Vec<u8>),
    /// Nothing: a `print` at a place, or a `println` where true is said, and its operands.
    Printed(Pos, bool, Vec<Part>),
    /// Nothing: a `panic` at a place, and its operand.
    Panicked(Pos, Part),
    /// Nothing: an `exit` at a place, and its status.
    Exited(Pos, Expr),
}

/// One of some expressions: its first byte, and what it gives.
#[derive(Drop)]
pub struct Item {
    pub pos: Pos,
    pub gives: Option<Gives>,
}

/// What is called.
#[derive(Drop)]
pub enum Callee {
    /// `print`, or `println` where true is said.
    Printer(bool),
    /// `panic`.
    Panicker,
    /// `len` or `cap`.
    Measurer(Measure),
    /// `readInt`.
    Reader,
    /// `exit`.
    Exiter,
    /// A function, the places for its arguments, and the types of its results.
    Function(FuncId, Vec<Wanted>, Vec<ValueType>),
    /// A type: a conversion.
    Conversion,
    /// A value that is no function.
    NoFunction,
    /// What takes no `...`, which stands after the arguments.
    NoSpread,
    /// The same, where the arguments may be strings.
    NoTextSpread,
    /// What has no type.
    Nothing,
}

/// The number of a type whose values `print`, `println` and `panic` show.
fn shown_type(value_type: ValueType) -> Option<TypeId>
    ensures { option_map (λ t. tree_of t.0) result ≡ shown_type value_type }
{
    match value_type {
        ValueType::Int => Some(INT),
        ValueType::Bool => Some(BOOL),
        _ => None,
    }
}

/// The type of an operand that they show.
fn shown_of(operand: &Operand) -> Option<TypeId>
    ensures { option_map (λ t. tree_of t.0) result ≡ shown_of (operand_of operand.now) }
{
    shown_type(type_of(operand)?)
}

/// An operand as one of `print`, `println` or `panic`.
fn as_part(operand: Operand) -> Option<Part>
    ensures { option_map part_view result ≡ as_part (operand_of operand) }
{
    let operand_type = shown_of(&operand);
    match (operand_type, as_value(operand)) {
        (Some(operand_type), Some(value)) => Some(Part::Valued(operand_type, value)),
        _ => None,
    }
}

/// The one value of an expression.
pub fn one_operand(gives: Option<Gives>) -> Option<Operand>
    ensures { option_map operand_of result ≡ operand_in (option_map gives_of gives) }
{
    match gives {
        Some(Gives::One(operand)) => Some(operand),
        Some(Gives::Called(_, types, function, arguments)) => match types.as_slice() {
            [value_type] => Some(Operand::Value(*value_type, Expr::Call(function, arguments))),
            _ => None,
        },
        _ => None,
    }
}

/// The type of the one value of an expression; `nil` has none.
pub fn one_type(gives: &Option<Gives>) -> Option<ValueType>
    ensures { result ≡ type_in_one (option_map gives_of gives.now) }
{
    match gives {
        Some(Gives::One(operand)) => type_of(operand),
        Some(Gives::Called(_, types, _, _)) => match types.as_slice() {
            [value_type] => Some(*value_type),
            _ => None,
        },
        _ => None,
    }
}

/// The type of what is a value by itself: no constant beyond `int`, and not `nil`.
pub fn own_type(gives: Option<Gives>) -> Option<ValueType>
    ensures { result ≡ own_type (option_map gives_of gives) }
{
    let operand = one_operand(gives)?;
    let value_type = type_of(&operand);
    match as_value(operand) {
        Some(value) => {
            drop(value);
            value_type
        }
        None => None,
    }
}

/// The length in an array's type, where an int holds it.
fn length_in_type(value_type: ValueType) -> Option<u64>
    ensures { result ≡ length_in_type value_type }
{
    match value_type {
        ValueType::Array(length, _) => int_constant(length as i128).and(Some(length)),
        _ => None,
    }
}

/// The length of the array that an expression has as its one value.
pub fn length_in(gives: &Option<Gives>) -> Option<u64>
    ensures { result ≡ option_and_then length_in (operand_in (option_map gives_of gives.now)) }
{
    match gives {
        Some(Gives::One(Operand::Value(value_type, _))) => length_in_type(*value_type),
        Some(Gives::Called(_, types, _, _)) => match types.as_slice() {
            [value_type] => length_in_type(*value_type),
            _ => None,
        },
        _ => None,
    }
}

/// Whether an expression has one value.
pub fn is_single(gives: &Option<Gives>) -> bool
    ensures { result ≡ is_some (operand_in (option_map gives_of gives.now)) }
{
    match gives {
        Some(Gives::One(_)) => true,
        Some(Gives::Called(_, types, _, _)) => types.len() == 1,
        _ => false,
    }
}

/// What an expression is as an operand of `print`, `println` or `panic`: a string, or its one value.
pub fn part_in(gives: Option<Gives>) -> Option<Part>
    ensures { option_map part_view result ≡ part_in (option_map gives_of gives) }
{
    match gives {
        Some(Gives::Quoted(_, bytes)) => Some(Part::Said(bytes)),
        gives => match one_operand(gives) {
            Some(operand) => as_part(operand),
            None => None,
        },
    }
}

/// Whether an expression may be such an operand.
pub fn is_part(gives: &Option<Gives>) -> bool
    ensures { result ≡ is_part (option_map gives_of gives.now) }
{
    match gives {
        Some(Gives::Quoted(_, _)) => true,
        gives => is_single(gives),
    }
}

/// Whether the one value of an expression, where it has one, is of a type whose values are shown.
pub fn is_shown(gives: &Option<Gives>) -> bool
    ensures { result ≡ is_shown (operand_in (option_map gives_of gives.now)) }
{
    match one_type(gives) {
        Some(value_type) => shown_type(value_type).is_some(),
        None => !is_single(gives),
    }
}

/// The fault of an expression where one value is wanted: a string, or a call that has another number of them.
pub fn single_fault(gives: &Option<Gives>) -> Option<Fault>
    ensures { result ≡ single_fault (option_map gives_of gives.now) }
{
    let (kind, pos) = match gives {
        Some(Gives::Called(pos, types, _, _)) => match types.as_slice() {
            [_] => return None,
            _ => (FaultKind::ResultCount, *pos),
        },
        Some(Gives::Asking(pos)) => (FaultKind::ResultCount, *pos),
        Some(Gives::Quoted(pos, _)) => (FaultKind::OutOfProfile, *pos),
        Some(Gives::Printed(pos, _, _)) => (FaultKind::ResultCount, *pos),
        Some(Gives::Panicked(pos, _)) => (FaultKind::ResultCount, *pos),
        Some(Gives::Exited(pos, _)) => (FaultKind::ResultCount, *pos),
        _ => return None,
    };
    Some(Fault { kind, pos })
}

/// The fault of an expression as an operand of `print`, `println` or `panic`.
pub fn part_fault(gives: &Option<Gives>) -> Option<Fault>
    ensures { result ≡ part_fault (option_map gives_of gives.now) }
{
    match gives {
        Some(Gives::Quoted(_, _)) => None,
        gives => single_fault(gives),
    }
}

/// The fault of an expression that is no value by itself: a constant that no int can hold, or `nil`.
pub fn range_fault(pos: Pos, gives: &Option<Gives>) -> Option<Fault>
    ensures { result ≡ range_fault pos (operand_in (option_map gives_of gives.now)) }
{
    match gives {
        Some(Gives::One(Operand::Constant(fixed))) => constant_range_fault(pos, fixed.value),
        Some(Gives::One(Operand::Nil)) => Some(Fault {
            kind: FaultKind::Unfit,
            pos,
        }),
        _ => None,
    }
}
