//! Strings in double quotes.

ghost use Rattle.std.specs.Prelude.{◌≡◌, ◌<◌, ◌≤◌, ◌+◌, false, length, slice_index, IfSome};
ghost use Rattle.scan_go.specs.Strings.{closes, hides, closing, is_simple_escape, begins_digits, begins_code_point, begins_byte, begins_escape, fault_at, fault_within, string_piece};
ghost use Rattle.scan_go.specs.Numbers.{radix};
ghost use Rattle.scan_go.specs.Pieces.{PieceFits};
ghost use Rattle.std.specs.List.{list_all};
ghost use Rattle.std.specs.Char.{is_digit};

use crate::character::{is_code_point, is_digit, is_within_line};
use crate::fault::FaultKind;
use crate::number::value;
use crate::number_base::Base;
use crate::piece::Piece;
use crate::token::Kind;

/// Whether the byte closes a string, unless a backslash hides it.
fn closes(hidden: bool, b: u8) -> bool
    ensures { result ≡ closes hidden b }
{
    !hidden && b == b'"'
}

/// Whether the byte hides the one after it, unless it is hidden itself.
fn hides(hidden: bool, b: u8) -> bool
    ensures { result ≡ hides hidden b }
{
    !hidden && b == b'\\'
}

/// How many bytes there are up to and including the closing quote, if it stands on the same line.
fn closing(after: &[u8]) -> Option<usize>
    ensures value { result ≡ closing false after.now }
    ensures within { IfSome result (λ n. (0 < n) × (n ≤ length after.now)) }
{
    let mut hidden = false;
    for i in 0..after.len() {
        let b = after[i];
        if !is_within_line(b) {
            return None;
        }
        if closes(hidden, b) {
            return Some(i + 1);
        }
        hidden = hides(hidden, b);
    }
    None
}

/// Whether the letter stands for a byte after a backslash, or is a backslash or a quote.
fn is_simple_escape(b: u8) -> bool
    ensures { result ≡ is_simple_escape b }
{
    b == b'a'
        || b == b'b'
        || b == b'f'
        || b == b'n'
        || b == b'r'
        || b == b't'
        || b == b'v'
        || b == b'\\'
        || b == b'"'
}

fn all_digits(base: Base, digits: &[u8]) -> bool
    ensures { result ≡ list_all (λ c. is_digit c (radix base)) digits.now }
{
    digits.iter().all(|b| is_digit(*b, base.radix()))
}

/// Whether `count` digits stand at the front.
fn begins_digits(base: Base, count: usize, rest: &[u8]) -> bool
    ensures { result ≡ begins_digits base count rest.now }
{
    count <= rest.len() && all_digits(base, &rest[..count])
}

/// Whether `count` hexadecimal digits stand at the front and give a code point.
fn begins_code_point(count: usize, rest: &[u8]) -> bool
    ensures { result ≡ begins_code_point count rest.now }
{
    if !begins_digits(Base::Hexadecimal, count, rest) {
        return false;
    }
    match value(Base::Hexadecimal, &rest[..count]) {
        Some(code) => is_code_point(code),
        None => false,
    }
}

/// Whether three octal digits stand at the front and give a byte.
fn begins_byte(rest: &[u8]) -> bool
    ensures { result ≡ begins_byte rest.now }
{
    if !begins_digits(Base::Octal, 3, rest) {
        return false;
    }
    match value(Base::Octal, &rest[..3]) {
        Some(code) => code < 256,
        None => false,
    }
}

/// Whether an escape stands after a backslash.
#[tactic(auto, unfolding(crate::specs::Strings::begins_escape))]
fn begins_escape(rest: &[u8]) -> bool
    ensures { result ≡ begins_escape rest.now }
{
    if rest.is_empty() {
        return false;
    }
    let after = &rest[1..];
    match rest[0] {
        b'x' => begins_digits(Base::Hexadecimal, 2, after),
        b'u' => begins_code_point(4, after),
        b'U' => begins_code_point(8, after),
        b if is_digit(b, 8) => begins_byte(rest),
        b => is_simple_escape(b),
    }
}

/// The fault at the first byte, unless a backslash hides it.
#[tactic(auto, unfolding(crate::specs::Strings::fault_at))]
fn fault_at(hidden: bool, rest: &[u8]) -> Option<FaultKind>
    requires { 0 < length rest.now }
    ensures { result ≡ fault_at hidden rest.now }
{
    if hidden {
        None
    } else if rest[0] == 0 {
        Some(FaultKind::Nul)
    } else if rest[0] == b'\\' && !begins_escape(&rest[1..]) {
        Some(FaultKind::BadEscape)
    } else {
        None
    }
}

/// The first fault between the quotes, and how many bytes stand before it.
fn fault_within(content: &[u8]) -> Option<(FaultKind, usize)>
    ensures value { result ≡ fault_within false content.now }
    ensures within { IfSome result (λ f. f.1 < length content.now) }
{
    let mut hidden = false;
    for i in 0..content.len() {
        if let Some(kind) = fault_at(hidden, &content[i..]) {
            return Some((kind, i));
        }
        hidden = hides(hidden, content[i]);
    }
    None
}

/// A string, from its opening quote on.
pub fn string_piece(rest: &[u8]) -> Piece
    requires { 0 < length rest.now }
    ensures value { result ≡ string_piece rest.now }
    ensures within { PieceFits (length rest.now) result }
{
    let after = &rest[1..];
    let Some(len) = closing(after) else {
        return Piece::Fault(FaultKind::OpenString, 0);
    };
    match fault_within(&after[..len - 1]) {
        Some((kind, place)) => Piece::Fault(kind, 1 + place),
        None => Piece::Token(Kind::String, 1 + len),
    }
}
