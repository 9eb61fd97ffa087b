//! Characters and their classes.

ghost use Rattle.std.specs.Prelude.{◌≡◌, ◌+◌, ◌-◌, ◌*◌, ◌<◌, ◌≤◌, length};
ghost use Rattle.std.specs.Char.{is_digit};
ghost use Rattle.scan_go.specs.Characters.{char_at, is_continuation, is_code_point, is_letter_category, is_digit_category, is_letter, is_name_digit, is_letter_or_digit, is_space, begins_other_literal, is_within_line};

use unicode::properties::GeneralCategory;

/// The code of a character with one more byte of its UTF-8.
fn extended(code: u32, b: u8) -> u32
    requires { code < 16777216 }
    ensures { result ≡ code * 64 + (b - 128) }
{
    code * 64 + u32::from(b.saturating_sub(0x80))
}

/// The code of the character that a text begins with, or 0 where the text ends within it.
#[tactic(auto, using(crate::proofs::FirstCharacter::of_one, crate::proofs::FirstCharacter::of_two, crate::proofs::FirstCharacter::of_three, crate::proofs::FirstCharacter::of_four, crate::proofs::FirstCharacter::cut_two, crate::proofs::FirstCharacter::cut_three, crate::proofs::FirstCharacter::cut_four))]
pub fn char_at(rest: &[u8]) -> u32
    requires { 0 < length rest.now }
    ensures { result ≡ char_at rest.now }
{
    let lead = rest[0];
    if lead < 0x80 {
        u32::from(lead)
    } else if lead < 0xE0 {
        if rest.len() < 2 {
            return 0;
        }
        extended(u32::from(lead.saturating_sub(0xC0)), rest[1])
    } else if lead < 0xF0 {
        if rest.len() < 3 {
            return 0;
        }
        extended(extended(u32::from(lead - 0xE0), rest[1]), rest[2])
    } else {
        if rest.len() < 4 {
            return 0;
        }
        let front = extended(u32::from(lead - 0xF0), rest[1]);
        extended(extended(front, rest[2]), rest[3])
    }
}

pub fn is_continuation(b: u8) -> bool
    ensures { result ≡ is_continuation b }
{
    (0x80..0xC0).contains(&b)
}

/// Whether a character may have the number.
pub fn is_code_point(code: u128) -> bool
    ensures { result ≡ is_code_point code }
{
    code < 0xD800 || (0xDFFF < code && code < 0x11_0000)
}

fn is_letter_category(category: GeneralCategory) -> bool
    ensures { result ≡ is_letter_category category }
{
    match category {
        GeneralCategory::UppercaseLetter
        | GeneralCategory::LowercaseLetter
        | GeneralCategory::TitlecaseLetter
        | GeneralCategory::ModifierLetter
        | GeneralCategory::OtherLetter => true,
        _ => false,
    }
}

fn is_digit_category(category: GeneralCategory) -> bool
    ensures { result ≡ is_digit_category category }
{
    match category {
        GeneralCategory::DecimalNumber => true,
        _ => false,
    }
}

#[tactic(auto, unfolding(crate::specs::Characters::is_letter))]
pub fn is_letter(code: u32) -> bool
    ensures { result ≡ is_letter code }
{
    match char::from_u32(code) {
        Some(c) => c == '_' || is_letter_category(GeneralCategory::for_char(c)),
        None => false,
    }
}

#[tactic(auto, unfolding(crate::specs::Characters::is_name_digit))]
fn is_name_digit(code: u32) -> bool
    ensures { result ≡ is_name_digit code }
{
    match char::from_u32(code) {
        Some(c) => is_digit_category(GeneralCategory::for_char(c)),
        None => false,
    }
}

pub fn is_letter_or_digit(code: u32) -> bool
    ensures { result ≡ is_letter_or_digit code }
{
    is_letter(code) || is_name_digit(code)
}

/// Whether the byte is a digit in the radix.
pub fn is_digit(b: u8, radix: u32) -> bool
    requires least { 2 ≤ radix }
    requires most { radix ≤ 16 }
    ensures { result ≡ is_digit b radix }
{
    char::from(b).is_digit(radix)
}

pub fn is_space(b: u8) -> bool
    ensures { result ≡ is_space b }
{
    b == b' ' || b == b'\t' || b == b'\r' || b == b'\n'
}

/// Whether the byte begins a rune or a raw string.
pub fn begins_other_literal(b: u8) -> bool
    ensures { result ≡ begins_other_literal b }
{
    b == b'\'' || b == b'`'
}

pub fn is_within_line(b: u8) -> bool
    ensures { result ≡ is_within_line b }
{
    b != b'\n'
}
