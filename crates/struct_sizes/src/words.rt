//! The words of types, by those of the structs, up to one more than the limit.

ghost use Rattle.std.specs.Prelude.{◌≡◌, ◌*◌, map};
ghost use Rattle.struct_sizes.specs.Structs.{prefixed_of, field_of};
ghost use Rattle.struct_sizes.specs.Words.{prefix_words, prefixed_words, base_words, type_words, field_words, added, sum_words};
ghost use Rattle.struct_sizes.specs.Kept.{capped, kept, Agree};

use crate::forms::{Base, Prefix, PrefixedType};

/// The most words that a type may have.
pub const MOST_WORDS: u32 = 65_535;

/// What is kept for more.
const OVER: u32 = 65_536;

/// What is kept of a number of words.
fn capped(words: u64) -> u32
    ensures { result ≡ capped words }
{
    if words > u64::from(MOST_WORDS) {
        OVER
    } else {
        words as u32
    }
}

/// The words of an array by those of an element. A product that has no room is above the limit.
fn array_words(length: u64, element: u32) -> u32
    ensures { result ≡ capped (length * element) }
{
    match length.checked_mul(u64::from(element)) {
        Some(words) => capped(words),
        None => OVER,
    }
}

/// The words behind a prefix, by those of what follows it.
pub fn prefix_words(prefix: Prefix, words: Option<u32>) -> Option<u32>
    ensures { result ≡ kept (prefix_words prefix words) }
{
    match prefix {
        Prefix::Pointer => Some(1),
        Prefix::Slice => Some(3),
        Prefix::Array(length) => match words {
            Some(element) => Some(array_words(length, element)),
            None => None,
        },
    }
}

/// The words of a base.
pub fn base_words(table: &[Option<u32>], base: Base) -> Option<u32>
    ensures { result ≡ base_words table.now base }
{
    match base {
        Base::Int | Base::Bool => Some(1),
        Base::Struct(id) => table.get(id.0 as usize).copied().unwrap_or(None),
    }
}

/// The words of a type.
pub fn words_by(table: &[Option<u32>], t: &PrefixedType) -> Option<u32>
    ensures { Agree result (type_words table.now (prefixed_of t.now)) }
{
    let mut words = base_words(table, t.base);
    let mut level = t.prefixes.len();
    while level > 0 {
        level -= 1;
        words = prefix_words(t.prefixes[level], words);
    }
    words
}

/// The words of a field.
fn field_words(table: &[Option<u32>], field: &Option<PrefixedType>) -> Option<u32>
    ensures { Agree result (field_words table.now (field_of field.now)) }
{
    match field {
        Some(t) => words_by(table, t),
        None => None,
    }
}

/// The words of two together.
fn added(words: Option<u32>, more: Option<u32>) -> Option<u32>
    ensures { result ≡ kept (added words more) }
{
    match (words, more) {
        (Some(words), Some(more)) => Some(capped(u64::from(words) + u64::from(more))),
        _ => None,
    }
}

/// The words of fields together.
pub fn sum_words(table: &[Option<u32>], fields: &[Option<PrefixedType>]) -> Option<u32>
    ensures { Agree result (sum_words table.now (map field_of fields.now)) }
{
    let mut sum = Some(0);
    for field in fields {
        sum = added(sum, field_words(table, field));
    }
    sum
}
