//! What is wrong with types, and with structs by themselves.

ghost use Rattle.std.specs.Prelude.{◌≡◌, ℕ, ◌↔◌, IsTrue, IfOk, length, map};
ghost use Rattle.struct_sizes.specs.Structs.{prefixed_of, field_of, structs_of};
ghost use Rattle.struct_sizes.specs.Faults.{size_fault, prefix_fault, IsInnermost, FieldFails, FieldsFail, known_fault};
ghost use Rattle.struct_sizes.specs.Filling.{IsFlaw, AreFlaws};

use crate::forms::{DeclaredStruct, Prefix, PrefixedType};
use crate::verdicts::{LevelFault, SizeFault};
use crate::words::{MOST_WORDS, base_words, prefix_words};
use base::NoMemory;
use std::alloc::Global;

/// What is wrong with a struct by itself: nothing, a field, that it holds itself, or its size.
#[derive(Clone, Copy, Debug, PartialEq, Eq)]
pub enum Flaw {
    Fine,
    InForm,
    OnCycle,
    InSize(SizeFault),
}

/// The fault of a number of words.
fn size_fault(words: u32) -> Option<SizeFault>
    ensures { result ≡ size_fault words }
{
    if words == 0 {
        Some(SizeFault::ZeroSize)
    } else if words > MOST_WORDS {
        Some(SizeFault::TooLarge)
    } else {
        None
    }
}

/// The fault of words, where they're known.
fn known_fault(words: Option<u32>) -> Option<SizeFault>
    ensures { result ≡ known_fault words }
{
    match words {
        Some(words) => size_fault(words),
        None => None,
    }
}

/// The fault of the words behind a prefix: the rule is one of arrays.
fn prefix_fault(prefix: Prefix, words: Option<u32>) -> Option<SizeFault>
    ensures { result ≡ prefix_fault prefix words }
{
    match prefix {
        Prefix::Pointer | Prefix::Slice => None,
        Prefix::Array(_) => known_fault(words),
    }
}

/// The innermost array of a type that has too few or too many words, by those of the structs.
pub fn level_fault(table: &[Option<u32>], t: &PrefixedType) -> Option<LevelFault>
    ensures { IsInnermost table.now (prefixed_of t.now) result }
{
    let mut words = base_words(table, t.base);
    let mut level = t.prefixes.len();
    while level > 0 {
        level -= 1;
        words = prefix_words(t.prefixes[level], words);
        if let Some(kind) = prefix_fault(t.prefixes[level], words) {
            return Some(LevelFault { level, kind });
        }
    }
    None
}

/// Whether a field is at fault.
fn field_fails(table: &[Option<u32>], field: &Option<PrefixedType>) -> bool
    ensures { IsTrue result ↔ FieldFails table.now (field_of field.now) }
{
    match field {
        Some(t) => level_fault(table, t).is_some(),
        None => true,
    }
}

/// Whether one of some fields is at fault.
fn fields_fail(table: &[Option<u32>], fields: &[Option<PrefixedType>]) -> bool
    ensures { IsTrue result ↔ FieldsFail table.now (map field_of fields.now) }
{
    for field in fields {
        if field_fails(table, field) {
            return true;
        }
    }
    false
}

/// What is wrong with a struct by itself.
fn flaw_of(
    table: &[Option<u32>],
    fields: &[Option<PrefixedType>],
    is_on_cycle: bool,
    words: Option<u32>,
) -> Flaw
    ensures { IsFlaw table.now (map field_of fields.now) is_on_cycle words result }
{
    if is_on_cycle {
        return Flaw::OnCycle;
    }
    if fields_fail(table, fields) {
        return Flaw::InForm;
    }
    match known_fault(words) {
        Some(fault) => Flaw::InSize(fault),
        None => Flaw::Fine,
    }
}

/// What is wrong with each struct by itself.
pub fn flaws(
    alloc: Global,
    structs: &[DeclaredStruct],
    on_cycles: &[bool],
    table: &[Option<u32>],
) -> Result<Vec<Flaw>, NoMemory>
    ensures { IfOk result (λ v. (length v.items ≡ length structs.now) × AreFlaws table.now (structs_of structs.now) on_cycles.now v.items) }
{
    let mut flaws = Vec::new(alloc);
    for index in 0..structs.len() {
        let is_on_cycle = on_cycles.get(index).copied().unwrap_or(false);
        let words = table.get(index).copied().unwrap_or(None);
        flaws.push(flaw_of(table, &structs[index].fields, is_on_cycle, words))?;
    }
    Ok(flaws)
}
