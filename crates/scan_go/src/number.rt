//! Integer literals.

ghost use Rattle.std.specs.Prelude.{◌≡◌, ◌+◌, ◌<◌, ◌≤◌, ◌^◌, length, slice_index, IsTrue, IfSome};
ghost use Rattle.std.specs.Option.{SomeIff};
ghost use Rattle.std.specs.Char.{is_ascii_digit, is_digit};
ghost use Rattle.std.specs.List.{prefix_len};
ghost use Rattle.scan_go.specs.declared.number_base.Base.{Base};
ghost use Rattle.scan_go.specs.Numbers.{is_digit_or_mark, begins_digit, digits_fit, add_digit, value, begins_other_form, literal, base_named, prefix_base, plain_base, plain_number, prefixed_number, number_piece, begins_fraction};
ghost use Rattle.scan_go.specs.Pieces.{PieceFits};

use crate::character::is_digit;
use crate::fault::FaultKind;
use crate::number_base::Base;
use crate::piece::Piece;
use crate::token::Kind;

/// The greatest value of a number.
const GREATEST_NUMBER: u128 = 170_141_183_460_469_231_731_687_303_715_884_105_727;

/// Whether the byte is a digit, or the mark `_` between digits.
fn is_digit_or_mark(base: Base, b: u8) -> bool
    ensures { result ≡ is_digit_or_mark base b }
{
    is_digit(b, base.writing_radix()) || b == b'_'
}

/// How many bytes from the front on are digits and marks.
fn run_len(base: Base, rest: &[u8]) -> usize
    ensures value { result ≡ prefix_len (λ c. is_digit_or_mark base c) rest.now }
    ensures within { result ≤ length rest.now }
{
    rest.iter()
        .take_while(|b| is_digit_or_mark(base, **b))
        .count()
}

fn begins_digit(base: Base, run: &[u8]) -> bool
    ensures { result ≡ begins_digit base run.now }
{
    match run.first() {
        Some(b) => is_digit(*b, base.radix()),
        None => false,
    }
}

/// Whether there are only digits of the base, and marks that such a digit follows.
fn digits_fit(base: Base, run: &[u8]) -> bool
    ensures { result ≡ digits_fit base run.now }
{
    for i in 0..run.len() {
        let fits = is_digit(run[i], base.radix())
            || (run[i] == b'_' && begins_digit(base, &run[i + 1..]));
        if !fits {
            return false;
        }
    }
    true
}

/// The value before it and one digit more, if it is below 2^127.
fn add_digit(base: Base, value: u128, b: u8) -> Option<u128>
    requires { value < 2 ^ 127 }
    ensures { SomeIff result (add_digit base value b < 2 ^ 127) (add_digit base value b) }
{
    match char::from(b).to_digit(base.radix()) {
        Some(digit) => {
            let grown = value
                .checked_mul(u128::from(base.radix()))?
                .checked_add(u128::from(digit))?;
            if grown <= GREATEST_NUMBER {
                Some(grown)
            } else {
                None
            }
        }
        None => Some(value),
    }
}

/// The value of the digits, if it is below 2^127.
pub fn value(base: Base, run: &[u8]) -> Option<u128>
    ensures { SomeIff result (value base run.now < 2 ^ 127) (value base run.now) }
{
    let mut value: u128 = 0;
    for b in run {
        value = add_digit(base, value, *b)?;
    }
    Some(value)
}

/// Whether the byte after a number makes it a floating-point or an imaginary one.
fn begins_other_form(b: u8) -> bool
    ensures { result ≡ begins_other_form b }
{
    b == b'.' || b == b'e' || b == b'E' || b == b'p' || b == b'P' || b == b'i'
}

/// A number by the bytes of its prefix, by its run of digits and marks, and by the byte after it.
#[tactic(auto, unfolding(crate::specs::Numbers::literal))]
fn literal(base: Base, front: usize, run: &[u8], next: u8) -> Piece
    requires some { 0 < front + length run.now }
    requires room { front ≤ 2 }
    ensures value { result ≡ literal base front run.now next }
    ensures within { PieceFits (front + length run.now) result }
{
    if begins_other_form(next) {
        return Piece::Fault(FaultKind::OutOfProfile, 0);
    }
    if run.is_empty() || !digits_fit(base, run) {
        return Piece::Fault(FaultKind::BadNumber, 0);
    }
    match value(base, run) {
        Some(value) => Piece::Token(Kind::Number(value), front + run.len()),
        None => Piece::Fault(FaultKind::NumberTooBig, 0),
    }
}

/// The base that the second byte of a prefix names.
fn base_named(b: u8) -> Option<Base>
    ensures { result ≡ base_named b }
{
    match b {
        b'x' | b'X' => Some(Base::Hexadecimal),
        b'b' | b'B' => Some(Base::Binary),
        b'o' | b'O' => Some(Base::Octal),
        _ => None,
    }
}

/// The base of a prefix `0x`, `0b` or `0o`.
fn prefix_base(rest: &[u8]) -> Option<Base>
    ensures value { result ≡ prefix_base rest.now }
    ensures within { IfSome result (λ _. 2 ≤ length rest.now) }
{
    if rest.len() > 1 && rest[0] == b'0' {
        base_named(rest[1])
    } else {
        None
    }
}

/// The base of a number without such a prefix: octal by a leading 0.
fn plain_base(run: &[u8]) -> Base
    requires { 0 < length run.now }
    ensures { result ≡ plain_base run.now }
{
    if run[0] == b'0' && run.len() > 1 {
        Base::Octal
    } else {
        Base::Decimal
    }
}

fn byte_at(rest: &[u8], place: usize) -> u8
    ensures { result ≡ slice_index rest.now place }
{
    rest.get(place).copied().unwrap_or(0)
}

fn plain_number(rest: &[u8]) -> Piece
    requires { IsTrue (is_ascii_digit (slice_index rest.now 0)) }
    ensures value { result ≡ plain_number rest.now }
    ensures within { PieceFits (length rest.now) result }
{
    let len = run_len(Base::Decimal, rest);
    let run = &rest[..len];
    literal(plain_base(run), 0, run, byte_at(rest, len))
}

/// A number, from the end of its prefix on.
fn prefixed_number(base: Base, rest: &[u8]) -> Piece
    ensures value { result ≡ prefixed_number base rest.now }
    ensures within { PieceFits (2 + length rest.now) result }
{
    let len = run_len(base, rest);
    literal(base, 2, &rest[..len], byte_at(rest, len))
}

/// A number: the longest run of digits and marks, after a prefix or without one.
pub fn number_piece(rest: &[u8]) -> Piece
    requires { IsTrue (is_ascii_digit (slice_index rest.now 0)) }
    ensures value { result ≡ number_piece rest.now }
    ensures within { PieceFits (length rest.now) result }
{
    match prefix_base(rest) {
        Some(base) => prefixed_number(base, &rest[2..]),
        None => plain_number(rest),
    }
}

/// Whether the text begins with a point before a digit.
pub fn begins_fraction(rest: &[u8]) -> bool
    ensures { result ≡ begins_fraction rest.now }
{
    rest.len() > 1 && rest[0] == b'.' && rest[1].is_ascii_digit()
}
