//! Digits of escapes, and the bytes and characters that they give.

ghost use Rattle.std.specs.Prelude.{◌≡◌, ◌≤◌, ◌<◌, ◌+◌, ◌*◌, ◌^◌, length, IfSome};
ghost use Rattle.string_value.specs.Digits.{radix, number, byte, character};

use crate::number_base::Base;

/// The number with one digit more at its end.
fn with_digit(base: Base, number: u32, digit: u32) -> u32
    requires small { number < 2 ^ 28 }
    requires fits { digit < radix base }
    ensures { result ≡ radix base * number + digit }
{
    base.radix() * number + digit
}

/// The number that `count` digits at the front give.
fn number(base: Base, count: usize, rest: &[u8]) -> Option<u32>
    requires { count ≤ 8 }
    ensures value { result ≡ number base count rest.now }
    ensures within { IfSome result (λ _. count ≤ length rest.now) }
{
    if count > rest.len() {
        return None;
    }
    let digits = &rest[..count];
    let mut number = 0;
    for b in digits {
        let digit = char::from(*b).to_digit(base.radix())?;
        number = with_digit(base, number, digit);
    }
    Some(number)
}

/// The byte that `count` digits at the front give.
pub fn byte(base: Base, count: usize, rest: &[u8]) -> Option<u8>
    requires { count ≤ 8 }
    ensures value { result ≡ byte base count rest.now }
    ensures within { IfSome result (λ _. count ≤ length rest.now) }
{
    u8::try_from(number(base, count, rest)?).ok()
}

/// The character that `count` hexadecimal digits at the front give.
pub fn character(count: usize, rest: &[u8]) -> Option<char>
    requires { count ≤ 8 }
    ensures value { result ≡ character count rest.now }
    ensures within { IfSome result (λ _. count ≤ length rest.now) }
{
    char::from_u32(number(Base::Hexadecimal, count, rest)?)
}
