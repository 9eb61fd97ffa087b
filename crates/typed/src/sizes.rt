//! The words of types, by those that are kept of all types and structs.

ghost use Rattle.std.specs.Prelude.{◌≡◌, ◌≤◌, ℕ, ◌*◌, sum_by, None, Some, true, false, IfOk, MatchResult};
ghost use Rattle.std.specs.Option.{unwrap_or};
ghost use Rattle.typed.specs.declared.fault.TableFault.TheVariants.{TooLarge as TypeTooLarge};
ghost use Rattle.typed.specs.Words.{within_limit, refusal_by, known, is_over};
ghost use Rattle.typed.specs.Formed.{IsFormed};
ghost use Rattle.typed.specs.Memory.{table_of, IsCounted, ToldWords, struct_words, words_by, least_by, told_by};

use crate::fault::TableFault;
use crate::told::Told;
use base::{NoMemory, StructId, TypeId, ValueType};
use std::alloc::Global;

/// The most words that a type may have.
pub const MOST_WORDS: u32 = 65_535;

/// The words of an array by those of an element.
fn array_words(length: u64, element: u32) -> Option<u32>
    ensures { result ≡ within_limit (length * element) }
{
    match length.checked_mul(u64::from(element)) {
        Some(words) if words <= u64::from(MOST_WORDS) => Some(words as u32),
        _ => None,
    }
}

/// The words of a struct, if it's told.
fn struct_words(structs: &[Option<Told>], id: StructId) -> Option<u32>
    ensures { result ≡ struct_words structs.now id.0 }
{
    match structs.get(id.0 as usize) {
        Some(Some(told)) => Some(told.words),
        _ => None,
    }
}

/// The words of a type, if they're known and within the limit.
pub fn words_by(
    words: &[Option<u32>],
    structs: &[Option<Told>],
    value_type: ValueType,
) -> Option<u32>
    ensures { result ≡ words_by words.now structs.now value_type }
{
    match value_type {
        ValueType::Int | ValueType::Bool => Some(1),
        ValueType::Pointer(_) => Some(1),
        ValueType::Slice(_) => Some(3),
        ValueType::Struct(id) => struct_words(structs, id),
        ValueType::Array(length, element) => match words.get(element.0 as usize) {
            Some(Some(words)) => array_words(length, *words),
            _ => None,
        },
    }
}

/// The words of a type that enters a table, if they're known already.
pub fn entry_words(
    words: &[Option<u32>],
    structs: &[Option<Told>],
    value_type: ValueType,
) -> Result<Option<u32>, TableFault>
    requires { (s : ℕ) → refusal_by (unwrap_or (struct_words structs.now s) 1) ≡ None }
    ensures { MatchResult result
        (λ w. (w ≡ words_by words.now structs.now value_type) × (refusal_by (least_by words.now structs.now value_type) ≡ None))
        (λ e. refusal_by (least_by words.now structs.now value_type) ≡ Some e) }
{
    let ValueType::Array(length, element) = value_type else {
        return Ok(words_by(words, structs, value_type));
    };
    let known = match words.get(element.0 as usize) {
        Some(Some(words)) => Some(*words),
        _ => None,
    };
    // A type has one word at least.
    match array_words(length, known.unwrap_or(1)) {
        None => Err(TableFault::TooLarge),
        Some(0) => Err(TableFault::Empty),
        Some(least) => Ok(known.map(|_| least)),
    }
}

/// The words of fields together, by those of all types.
pub fn sum_words(words: &[Option<u32>], fields: &[TypeId]) -> Option<u32>
    requires { (i : ℕ) → known words.now i ≤ 65535 }
    ensures { result ≡ within_limit (sum_by (λ e. known words.now e.0) fields.now) }
{
    let mut sum = 0;
    for field in fields {
        if let Some(Some(more)) = words.get(field.0 as usize) {
            sum += *more;
            if sum > MOST_WORDS {
                return None;
            }
        }
    }
    Some(sum)
}

/// The words of a type where one more struct is told and has `words` words, by those of the types before it.
pub fn words_when_told(
    before: &[Option<u32>],
    structs: &[Option<Told>],
    id: StructId,
    words: u32,
    value_type: ValueType,
) -> Result<Option<u32>, TableFault>
    requires words { words ≤ 65535 }
    requires structs { (s : ℕ) → is_over (struct_words structs.now s) ≡ false }
    ensures { MatchResult result
        (λ w. (w ≡ told_by before.now structs.now id.0 words value_type)
        × (is_over (told_by before.now structs.now id.0 words value_type) ≡ false))
        (λ e. (e ≡ TypeTooLarge) × (is_over (told_by before.now structs.now id.0 words value_type) ≡ true)) }
{
    match value_type {
        ValueType::Int | ValueType::Bool => Ok(Some(1)),
        ValueType::Pointer(_) => Ok(Some(1)),
        ValueType::Slice(_) => Ok(Some(3)),
        ValueType::Struct(other) if other == id => Ok(Some(words)),
        ValueType::Struct(other) => Ok(struct_words(structs, other)),
        ValueType::Array(length, element) => match before.get(element.0 as usize) {
            Some(Some(element)) => match array_words(length, *element) {
                Some(words) => Ok(Some(words)),
                None => Err(TableFault::TooLarge),
            },
            _ => Ok(None),
        },
    }
}

/// The words of all types, by those that are kept of the structs. An array stands after its elements' type, so that one pass is enough.
pub fn words_of_all(
    alloc: Global,
    types: &[ValueType],
    structs: &[Option<Told>],
) -> Result<Vec<Option<u32>>, NoMemory>
    requires formed { IsFormed (table_of types.now structs.now) }
    requires words { ToldWords (table_of types.now structs.now) structs.now }
    ensures { IfOk result (λ all. IsCounted (table_of types.now structs.now) all.items structs.now) }
{
    let mut all = Vec::with_capacity(alloc, types.len())?;
    for value_type in types {
        let words = words_by(&all, structs, *value_type);
        all.push(words)?;
    }
    Ok(all)
}
