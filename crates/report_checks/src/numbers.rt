//! Reads numbers.

ghost use Rattle.std.specs.Prelude.{◌≡◌};
ghost use Rattle.report_checks.specs.Reading.{with_digit, with_digits, begins_number, read_number, positive, negative, read_signed, number_before};

use crate::cuts::{after, front};

/// A number with a digit behind it; nothing where that is none, or the number has more than 32 bits.
#[tactic(auto, unfolding(crate::specs::Reading::with_digit))]
fn with_digit(number: u32, digit: u8) -> Option<u32>
    ensures { result ≡ with_digit number digit }
{
    if !digit.is_ascii_digit() {
        return None;
    }
    let value = u64::from(number) * 10 + u64::from(digit - b'0');
    if value < 1 << 32 {
        Some(value as u32)
    } else {
        None
    }
}

/// The value of digits.
fn value_of(text: &[u8]) -> Option<u32>
    ensures { result ≡ with_digits 0 text.now }
{
    let mut value: u32 = 0;
    for byte in text {
        let Some(next) = with_digit(value, *byte) else {
            return None;
        };
        value = next;
    }
    Some(value)
}

/// Whether a text has a first byte, and this is no zero before other digits.
#[tactic(auto, unfolding(crate::specs::Reading::begins_number))]
fn begins_number(text: &[u8]) -> bool
    ensures { result ≡ begins_number text.now }
{
    match text {
        [] => false,
        [_] => true,
        [first, ..] => *first != b'0',
    }
}

/// A number: decimal digits, without a zero before others.
#[tactic(auto, unfolding(crate::specs::Reading::read_number))]
pub(crate) fn read_number(text: &[u8]) -> Option<u32>
    ensures { result ≡ read_number text.now }
{
    if begins_number(text) {
        value_of(text)
    } else {
        None
    }
}

/// A number that has 31 bits.
#[tactic(auto, unfolding(crate::specs::Reading::positive))]
fn positive(number: u32) -> Option<i32>
    ensures { result ≡ positive number }
{
    if number < 1 << 31 {
        Some(number as i32)
    } else {
        None
    }
}

/// A number with a minus before it.
#[tactic(auto, unfolding(crate::specs::Reading::negative))]
fn negative(number: u32) -> Option<i32>
    ensures { result ≡ negative number }
{
    if number == 0 || number > 1 << 31 {
        None
    } else {
        Some((-i64::from(number)) as i32)
    }
}

/// A number with a minus before it where it is below 0.
#[tactic(auto, unfolding(crate::specs::Reading::read_signed))]
pub(crate) fn read_signed(text: &[u8]) -> Option<i32>
    ensures { result ≡ read_signed text.now }
{
    match after(text, b"-") {
        None => positive(read_number(text)?),
        Some(digits) => negative(read_number(digits)?),
    }
}

/// The number before the first separator.
#[tactic(auto, unfolding(crate::specs::Reading::number_before))]
pub(crate) fn number_before(text: &[u8], separator: u8) -> Option<u32>
    ensures { result ≡ number_before separator text.now }
{
    read_number(front(text, separator))
}
