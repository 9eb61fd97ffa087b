//! The table.

ghost use Rattle.std.specs.Prelude.{◌≡◌, ◌⊎◌, ◌<◌, ℕ, [], ◌∷◌, Option, None, Some, true, false, IsSome, All, length, map, replicate, OnOk, OnErr, IfOk, IfSome, MatchResult};
ghost use Rattle.std.specs.List.{list_any};
ghost use Rattle.std.specs.Option.{option_map, option_copied, unwrap_or};
ghost use Rattle.typed_syntax.specs.Types.{ints, bools};
ghost use Rattle.base.specs.declared.value_type.ValueType.TheVariants.{Int, Bool as Truth, Struct};
ghost use Rattle.typed.specs.declared.fault.TableFault.TheVariants.{NoMemory as OutOfMemory, TooLarge as TypeTooLarge};
ghost use Rattle.typed.specs.Tables.{Holds, finished, type_at, fields_of, number_of, with_type, with_fields, with_all, lists_of};
ghost use Rattle.typed.specs.Trees.{trees, tree_of, words_of, offset_in};
ghost use Rattle.typed.specs.Words.{IsInLimits, allowed};
ghost use Rattle.typed.specs.Formed.{IsFormed, TreesAreMade, KeepsTrees, Stands, HasWords, words_at, refusal, sum_of, is_too_large, struct_refusal, AreStructWords};

use crate::fault::TableFault;
use crate::sizes::{entry_words, sum_words, words_by, words_of_all, words_when_told};
use crate::told::{Told, into_fields, kept_structs};
use base::{NoMemory, StructId, TypeId, ValueType};
use indexmap::IndexSet;
use std::alloc::Global;
use std::marker::Model;

/// The types of a program, each once, with its words if it has some; and the structs of the program.
#[derive(Drop)]
pub struct TypeTable {
    types: IndexSet<ValueType>,
    words: Vec<Option<u32>>,
    structs: Vec<Option<Told>>,
    alloc: Global,
}

impl Model for TypeTable {
    ghost use Rattle.typed.specs.Tables.{Table};

    ghost Value = { Table };

    ghost use Rattle.typed.specs.Formed.{IsFormed};
    ghost use Rattle.typed.specs.Memory.{table_of, IsCounted};

    ghost view = { λ t. table_of t.types.keys t.structs.items };

    ghost invariant = { λ t. IsFormed (table_of t.types.keys t.structs.items)
        × IsCounted (table_of t.types.keys t.structs.items) t.words.items t.structs.items };
}

/// The types of a program as plain data.
#[derive(Drop)]
pub struct ProgramTypes {
    /// Each type, by its number.
    pub types: Vec<ValueType>,
    /// The types of each struct's fields; of a struct that was not told, none.
    pub structs: Vec<Vec<TypeId>>,
}

impl TypeTable {
    /// A table of the basic types, in a program with `structs` structs.
    pub fn new(alloc: Global, structs: u32) -> Result<TypeTable, NoMemory>
        ensures basic { IfOk result (λ t. t ≡ record { types = Int ∷ Truth ∷ []; structs = replicate structs None }) }
        ensures formed { IfOk result IsFormed }
        ensures trees { IfOk result (λ t. trees t ≡ ints ∷ bools ∷ []) }
    {
        let mut types = IndexSet::new(alloc);
        types.insert(ValueType::Int)?;
        types.insert(ValueType::Bool)?;
        let words = vec![in alloc; Some(1), Some(1)]?;
        let mut untold = Vec::new(alloc);
        for _ in 0..structs {
            untold.push(None)?;
        }
        Ok(TypeTable {
            types,
            words,
            structs: untold,
            alloc,
        })
    }

    /// The number of a type, if it has one.
    pub fn find(&self, value_type: ValueType) -> Option<TypeId>
        ensures number { option_map (λ id. id.0) result ≡ number_of self.now value_type }
        ensures held { IfSome result (λ id. Holds self.now id.0 value_type) }
        ensures within { IfSome result (λ id. id.0 < length self.now.types) }
        ensures formed { IsFormed self.now }
    {
        let index = self.types.get_index_of(&value_type)?;
        Some(TypeId(index as u32))
    }

    /// The type that has a number; where none has it, `Int`.
    pub fn type_at(&self, id: TypeId) -> ValueType
        ensures is { result ≡ type_at self.now id.0 }
        ensures formed { IsFormed self.now }
    {
        match self.types.get_index(id.0 as usize) {
            Some(value_type) => *value_type,
            None => ValueType::Int,
        }
    }

    /// How many structs the program has.
    pub fn struct_count(&self) -> usize
        ensures { result ≡ length self.now.structs }
    {
        self.structs.len()
    }

    /// The types of a struct's fields, if it's told.
    pub fn fields(&self, id: StructId) -> Option<&[TypeId]>
        ensures { option_copied result ≡ fields_of self.now id.0 }
    {
        match self.structs.get(id.0 as usize) {
            Some(Some(told)) => Some(told.fields.as_slice()),
            _ => None,
        }
    }

    /// The machine words of each value of a type, if these are known and no more than there may be.
    pub fn words(&self, value_type: ValueType) -> Option<u32>
        ensures words { result ≡ allowed (words_of self.now value_type) }
        ensures formed { IsFormed self.now }
        ensures made { TreesAreMade self.now }
    {
        words_by(&self.words, &self.structs, value_type)
    }

    /// The machine words of each value of the type that has a number, if they are known.
    pub fn words_at(&self, id: TypeId) -> Option<u32>
        ensures { result ≡ words_at self.now id.0 }
    {
        match self.words.get(id.0 as usize) {
            Some(words) => *words,
            None => None,
        }
    }

    /// The words in front of a field of a struct; of a struct that's not told, none.
    pub fn field_offset(&self, id: StructId, index: usize) -> u32
        ensures { result ≡ offset_in (tree_of self.now (Struct id)) index }
    {
        let Some(fields) = self.fields(id) else {
            return 0;
        };
        let front = &fields[..index.min(fields.len())];
        sum_words(&self.words, front).unwrap()
    }

    /// Gives a type a number, if it has none yet. An array whose element has no words yet enters unless it would be empty or too large with one
    /// word for each element.
    pub fn enter(&mut self, value_type: ValueType) -> Result<TypeId, TableFault>
        requires stands { Stands self.old value_type }
        ensures entered { OnOk result (self.new ≡ with_type self.old value_type) }
        ensures number { IfOk result (λ id. number_of self.new value_type ≡ Some id.0) }
        ensures held { IfOk result (λ id. Holds self.new id.0 value_type) }
        ensures within { IfOk result (λ id. id.0 < length self.new.types) }
        ensures refused { MatchResult result (λ _. refusal self.old value_type ≡ None)
            (λ e. (e ≡ OutOfMemory) ⊎ (refusal self.old value_type ≡ Some e)) }
        ensures unchanged { OnErr result (self.new ≡ self.old) }
        ensures kept { KeepsTrees self.old self.new }
        ensures formed { IsFormed self.new }
    {
        if let Some(id) = self.find(value_type) {
            return Ok(id);
        }
        let words = entry_words(&self.words, &self.structs, value_type)?;
        let Ok(number) = u32::try_from(self.types.len()) else {
            return Err(TableFault::NoMemory);
        };
        self.words.reserve(1)?;
        self.types.insert(value_type)?;
        // Room is reserved, so that this cannot fail.
        self.words.push(words).unwrap();
        Ok(TypeId(number))
    }

    /// Tells the types of a struct's fields, each of which has words. The types of the table that are made of the struct have words from then
    /// on.
    pub fn tell(&mut self, id: StructId, fields: Vec<TypeId>) -> Result<(), TableFault>
        requires known { id.0 < length self.old.structs }
        requires untold { fields_of self.old id.0 ≡ None }
        requires fields { All (HasWords self.old) fields.items }
        ensures told { OnOk result (self.new ≡ with_fields self.old id.0 fields.items) }
        ensures refused { MatchResult result (λ _. struct_refusal self.old id.0 fields.items ≡ None)
            (λ e. (e ≡ OutOfMemory) ⊎ (struct_refusal self.old id.0 fields.items ≡ Some e)) }
        ensures unchanged { OnErr result (self.new ≡ self.old) }
        ensures kept { KeepsTrees self.old self.new }
        ensures formed { IsFormed self.new }
    {
        let words = match sum_words(&self.words, &fields) {
            None => return Err(TableFault::TooLarge),
            Some(0) => return Err(TableFault::Empty),
            Some(words) => words,
        };
        let told = Told { fields, words };
        // Where the struct has no number yet, no type is made of it, and all words stay: looking at each would cost the square of the
        // structs.
        if self.find(ValueType::Struct(id)).is_none() {
            self.structs[id.0 as usize] = Some(told);
            return Ok(());
        }
        self.words = self.words_with(id, &told)?;
        self.structs[id.0 as usize] = Some(told);
        Ok(())
    }

    /// The words of all types where one more struct is told.
    fn words_with(&self, id: StructId, told: &Told) -> Result<Vec<Option<u32>>, TableFault>
        requires known { id.0 < length self.now.structs }
        requires untold { fields_of self.now id.0 ≡ None }
        requires fields { All (HasWords self.now) told.now.fields.items }
        requires words { told.now.words ≡ sum_of self.now told.now.fields.items }
        requires limits { IsInLimits told.now.words }
        ensures { MatchResult result
            (λ all. (all.items ≡ map (words_of (with_fields self.now id.0 told.now.fields.items)) self.now.types)
            × (list_any (is_too_large (with_fields self.now id.0 told.now.fields.items)) self.now.types ≡ false))
            (λ e. (e ≡ OutOfMemory) ⊎ ((e ≡ TypeTooLarge)
            × (list_any (is_too_large (with_fields self.now id.0 told.now.fields.items)) self.now.types ≡ true))) }
    {
        let mut all = Vec::with_capacity(self.alloc, self.types.len())?;
        for value_type in self.types.as_slice() {
            let words = words_when_told(&all, &self.structs, id, told.words, *value_type)?;
            all.push(words)?;
        }
        Ok(all)
    }

    /// Tells the types of the fields of all structs that have some at once, where `words` has the words of each of these.
    pub fn tell_all(
        self,
        fields: Vec<Option<Vec<TypeId>>>,
        words: &[Option<u32>],
    ) -> Result<TypeTable, NoMemory>
        requires formed { IsFormed (with_all self (lists_of fields.items)) }
        requires words { AreStructWords (with_all self (lists_of fields.items)) words.now }
        ensures told { IfOk result (λ t. t ≡ with_all self (lists_of fields.items)) }
        ensures formed { IfOk result IsFormed }
    {
        let structs = kept_structs(self.alloc, fields, words)?;
        let words = words_of_all(self.alloc, self.types.as_slice(), &structs)?;
        Ok(TypeTable {
            types: self.types,
            words,
            structs,
            alloc: self.alloc,
        })
    }

    /// The types as plain data.
    pub fn finish(self) -> Result<ProgramTypes, NoMemory>
        ensures types { IfOk result (λ p. p.types.items ≡ self.types) }
        ensures structs { IfOk result (λ p. map (λ s. s.items) p.structs.items ≡ map (λ s. unwrap_or s []) self.structs) }

        // Where each struct is told, they say as much as the table.
        ensures finished { All IsSome self.structs
            → IfOk result (λ p. finished p.types.items (map (λ s. s.items) p.structs.items) ≡ self) }
    {
        let types = Vec::from_slice(self.alloc, self.types.as_slice())?;
        let mut structs = Vec::with_capacity(self.alloc, self.structs.len())?;
        for told in self.structs {
            structs.push(into_fields(self.alloc, told))?;
        }
        Ok(ProgramTypes { types, structs })
    }
}
