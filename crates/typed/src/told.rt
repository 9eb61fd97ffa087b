//! Structs that are told.

ghost use Rattle.std.specs.Prelude.{◌≡◌, ℕ, [], map, slice_get, Some, IfOk, IfSome};
ghost use Rattle.std.specs.Option.{unwrap_or, option_map};
ghost use Rattle.typed.specs.declared.told.Told.{Told as ToldData};
ghost use Rattle.typed.specs.Tables.{lists_of};
ghost use Rattle.typed.specs.Words.{known};
ghost use Rattle.typed.specs.Memory.{fields_in};

use base::{NoMemory, TypeId};
use std::alloc::Global;

/// The types of a struct's fields, and the words that they have together.
#[derive(Drop)]
pub struct Told {
    pub fields: Vec<TypeId>,
    pub words: u32,
}

/// The fields of a struct; of one that's not told, none.
pub fn into_fields(alloc: Global, told: Option<Told>) -> Vec<TypeId>
    ensures { result.items ≡ unwrap_or (fields_in told) [] }
{
    match told {
        Some(told) => told.fields,
        None => Vec::new(alloc),
    }
}

/// The words that a struct has by those of all structs; 0 where none are known.
fn known_words(words: &[Option<u32>], index: usize) -> u32
    ensures { result ≡ known words.now index }
{
    match words.get(index) {
        Some(Some(words)) => *words,
        _ => 0,
    }
}

/// A struct as it's kept, if it has fields.
fn kept(fields: Option<Vec<TypeId>>, words: u32) -> Option<Told>
    ensures fields { fields_in result ≡ option_map (λ f. f.items) fields }
    ensures words { IfSome result (λ t. t.words ≡ words) }
{
    match fields {
        Some(fields) => Some(Told { fields, words }),
        None => None,
    }
}

/// The structs as they're kept, by the fields and the words of each.
pub fn kept_structs(
    alloc: Global,
    fields: Vec<Option<Vec<TypeId>>>,
    words: &[Option<u32>],
) -> Result<Vec<Option<Told>>, NoMemory>
    ensures fields { IfOk result (λ all. map fields_in all.items ≡ lists_of fields.items) }
    ensures words { IfOk result (λ all. (s : ℕ) (t : ToldData) → slice_get all.items s ≡ Some (Some t)
        → t.words ≡ known words.now s) }
{
    let mut structs = Vec::with_capacity(alloc, fields.len())?;
    for list in fields {
        let words = known_words(words, structs.len());
        structs.push(kept(list, words))?;
    }
    Ok(structs)
}
