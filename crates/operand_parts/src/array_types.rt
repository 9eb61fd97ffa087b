//! Array types: their lengths and their sizes.

ghost use Rattle.std.specs.Prelude.{◌≡◌};
ghost use Rattle.std.specs.Option.{option_map};
ghost use Rattle.operators.specs.Passing.{operand_of};
ghost use Rattle.operand_parts.specs.ArrayTypes.{number_length, constant_length, length_of, length_fault, constant_length_fault, element_words, size_kind, array_fault, array_with};

use base::{Pos, ValueType};
use constants::{Constant, int_constant};
use names::array_type;
use operators::Operand;
use type_faults::{Fault, FaultKind};
use typed::TypeTable;

/// The most words that a type may have.
const MOST_WORDS: u64 = 65_535;

/// A length by its number: one that an int holds, and that is not negative.
fn number_length(number: i128) -> Option<u64>
    ensures { result ≡ number_length number }
{
    u64::try_from(int_constant(number)?).ok()
}

/// A length by a constant.
fn constant_length(constant: Constant) -> Option<u64>
    ensures { result ≡ constant_length constant }
{
    match constant {
        Constant::Number(number) => number_length(number),
        Constant::Truth(_) => None,
    }
}

/// The length of arrays that an operand is.
pub fn length_of(operand: &Operand) -> Option<u64>
    ensures { result ≡ length_of (operand_of operand.now) }
{
    match operand {
        Operand::Constant(fixed) => constant_length(fixed.value),
        _ => None,
    }
}

/// The fault of a constant as a length.
fn constant_length_fault(pos: Pos, constant: Constant) -> Option<Fault>
    ensures { result ≡ constant_length_fault pos constant }
{
    let kind = match constant {
        Constant::Number(number) => match number_length(number) {
            Some(_) => return None,
            None => FaultKind::ConstIndex,
        },
        Constant::Truth(_) => FaultKind::Unfit,
    };
    Some(Fault { kind, pos })
}

/// The rule of a length that fails, at its first byte: it is a constant that an int holds, and not negative.
pub fn length_fault(pos: Pos, operand: &Option<Operand>) -> Option<Fault>
    ensures { result ≡ length_fault pos (option_map operand_of operand.now) }
{
    match operand {
        None => None,
        Some(Operand::Constant(fixed)) => constant_length_fault(pos, fixed.value),
        Some(_) => Some(Fault {
            kind: FaultKind::Unfit,
            pos,
        }),
    }
}

/// The words of elements of a type.
fn element_words(types: &TypeTable, element: ValueType) -> u32
    ensures { result ≡ element_words types.now element }
{
    match types.find(element) {
        Some(id) => types.words_at(id).unwrap_or(0),
        None => 0,
    }
}

/// The kind of the fault of an array type that is none of the program: it has a word at least, and 65,535 at most.
fn size_kind(types: &TypeTable, length: u64, element: ValueType) -> Option<FaultKind>
    ensures { result ≡ size_kind types.now length element }
{
    let words = u64::from(element_words(types, element));
    if length == 0 || words == 0 {
        return Some(FaultKind::ZeroSize);
    }
    if length > MOST_WORDS || length * words > MOST_WORDS {
        return Some(FaultKind::TooLarge);
    }
    match array_type(types, length, element) {
        Some(_) => None,
        None => Some(FaultKind::OutOfProfile),
    }
}

/// The rule of an array type that fails, at its bracket, where its length and the type of its elements are known.
pub fn array_fault(
    types: &TypeTable,
    bracket: Pos,
    length: Option<u64>,
    element: Option<ValueType>,
) -> Option<Fault>
    ensures { result ≡ array_fault types.now bracket length element }
{
    let kind = size_kind(types, length?, element?)?;
    Some(Fault { kind, pos: bracket })
}

/// The type of arrays of a length and of elements of a type, where both are known and it is a type of the program.
pub fn array_with(
    types: &TypeTable,
    length: Option<u64>,
    element: Option<ValueType>,
) -> Option<ValueType>
    ensures { result ≡ array_with types.now length element }
{
    array_type(types, length?, element?)
}
