//! What names stand for.

ghost use Rattle.std.specs.Prelude.{◌≡◌, ◌<◌, length, map, [], OnOk, IfOk, Option, None, Some, ◌+◌};
ghost use Rattle.std.specs.Option.{option_map};
ghost use Rattle.names.specs.Scope.{type_number, scope_of, signature_of, declaration, is_here, signature, known, beginning, with_declaration, with_site, with_variable, with_signature, with_value, with_global, with_known, with_strings, with_struct, opened, closed, heap_reason, site_function, site_at};

use crate::blocks::Blocks;
use crate::settings::Setting;
use crate::universe::predeclared;
use base::{FuncId, NoMemory, Pos, SiteId, TypeId, ValueType};
use constants::Fixed;
use std::alloc::Global;
use typed::{HeapReason, INT, NameRange, Site, SiteKind, TypeTable};

/// The most words of a variable in a frame.
const MOST_FRAME_WORDS: u32 = 8192;

/// The number of a type in a typed program with this table.
pub fn type_id(types: &TypeTable, value_type: ValueType) -> TypeId
    ensures { result.0 ≡ type_number types.now value_type }
{
    types.find(value_type).unwrap_or(INT)
}

/// The types of a function's parameters and of its results.
#[derive(Drop)]
pub struct Signature {
    pub params: Vec<ValueType>,
    pub results: Vec<ValueType>,
}

/// The functions that a program declares without a body.
#[derive(Clone, Copy, Debug, PartialEq, Eq)]
pub enum External {
    ReadInt,
    Exit,
}

/// The number of a constant or a package variable of the program, in the order of the text.
#[derive(Clone, Copy, Debug, PartialEq, Eq)]
pub struct ValueId(pub u32);

/// The number of a package variable with a name, in the order of the text.
#[derive(Clone, Copy, Debug, PartialEq, Eq)]
pub struct GlobalId(pub u32);

/// What is known of a constant or of a package variable of the program.
#[derive(Clone, Copy, Debug, PartialEq, Eq)]
pub enum Known {
    /// A constant's value.
    Constant(Fixed),
    /// A variable's type.
    Variable(ValueType),
}

/// What a built-in function tells of an array.
#[derive(Clone, Copy, Debug, PartialEq, Eq)]
pub enum Measure {
    Length,
    Capacity,
}

/// What a name stands for.
#[derive(Clone, Copy, Debug, PartialEq, Eq)]
pub enum Declared {
    /// A variable of a type.
    Variable(SiteId, ValueType),
    /// A variable whose value or type has no type.
    Untyped,
    /// A constant of the program.
    Constant(ValueId),
    /// A variable of the program that stands outside of its functions.
    Global(ValueId, GlobalId),
    /// A function of the program.
    Function(FuncId),
    /// A function that has no body, and the place of its name.
    External(External, Pos),
    /// A type: a predeclared one, or a struct of the program.
    Type(ValueType),
    /// `true` or `false`.
    Truth(bool),
    /// `nil`.
    Nil,
    /// `print`, or `println` where true is said.
    Print(bool),
    /// `panic`.
    Panic,
    /// `len` or `cap`.
    Measure(Measure),
    /// A predeclared type that is left out of the profile.
    LeftOutType,
    /// Any other predeclared name that is left out of it.
    LeftOutValue,
}

/// The declarations that are in scope: the open blocks number them. And the sites of the variables that have a type, the
/// signature of each function, where it has one, and the bytes of the strings that stand in statements so far. Of each
/// constant and each package variable, which are numbered together, it says what is known, where something is. And the
/// types of the program, and the fields of each struct: a block of names for each. And where new sites stand, and the bytes of the
/// names of the sites.
#[derive(Drop)]
pub struct Scope {
    pub names: Blocks,
    pub declared: Vec<Declared>,
    pub sites: Vec<Site>,
    pub signatures: Vec<Option<Signature>>,
    pub values: Vec<Option<Known>>,
    pub globals: Vec<ValueId>,
    pub strings: Vec<Vec<u8>>,
    pub types: TypeTable,
    pub fields: Vec<Blocks>,
    pub setting: Setting,
    pub site_names: Vec<u8>,
}

/// Where no name is declared.
pub fn beginning(alloc: Global) -> Result<Scope, NoMemory>
    ensures { IfOk result (λ s. scope_of s ≡ beginning) }
{
    Ok(Scope {
        names: Blocks::new(alloc),
        declared: Vec::new(alloc),
        sites: Vec::new(alloc),
        signatures: Vec::new(alloc),
        values: Vec::new(alloc),
        globals: Vec::new(alloc),
        strings: Vec::new(alloc),
        types: TypeTable::new(alloc, 0)?,
        fields: Vec::new(alloc),
        setting: Setting::first(),
        site_names: Vec::new(alloc),
    })
}

/// Why variables of a kind with so many words are on the heap, whatever flows.
fn heap_reason(kind: SiteKind, words: u32) -> Option<HeapReason>
    ensures { result ≡ heap_reason kind words }
{
    match kind {
        SiteKind::Package => Some(HeapReason::Package),
        _ => {
            if words > MOST_FRAME_WORDS {
                Some(HeapReason::Size)
            } else {
                None
            }
        }
    }
}

/// The function of a site.
fn site_function(kind: SiteKind, func: FuncId) -> Option<FuncId>
    ensures { result ≡ site_function kind func }
{
    match kind {
        SiteKind::Package => None,
        _ => Some(func),
    }
}

/// A site of a type, whose name has these bytes.
fn site_at(
    types: &TypeTable,
    setting: Setting,
    name: NameRange,
    value_type: ValueType,
    pos: Pos,
) -> Site
    ensures { result ≡ record (site_at setting types.now 0 [] value_type pos) { name = name } }
{
    let site_type = type_id(types, value_type);
    let words = types.width(site_type);
    Site {
        pos,
        type_id: site_type,
        kind: setting.kind,
        func: site_function(setting.kind, setting.func),
        depth: setting.depth,
        carried: setting.carried,
        words: words as u64,
        known: heap_reason(setting.kind, words),
        name,
        address_taken: false,
    }
}

impl Scope {
    /// What a name stands for: the innermost block that declares it says so, and outside of them all the language.
    pub fn declaration(&self, name: &[u8]) -> Option<Declared>
        ensures { result ≡ declaration (scope_of self.now) name.now }
    {
        match self.names.lookup(name) {
            Some(number) => self.declared.get(number as usize).copied(),
            None => predeclared(name),
        }
    }

    /// Whether the innermost block declares a name.
    pub fn is_here(&self, name: &[u8]) -> bool
        ensures { result ≡ is_here (scope_of self.now) name.now }
    {
        self.names.innermost(name).is_some()
    }

    /// Declares a name in the innermost block.
    pub fn declare(&mut self, name: &[u8], declared: Declared) -> Result<(), NoMemory>
        ensures { OnOk result (scope_of self.new ≡ with_declaration (scope_of self.old) name.now declared) }
    {
        let Ok(number) = u32::try_from(self.declared.len()) else {
            return Err(NoMemory);
        };
        self.names.insert(name, number)?;
        self.declared.push(declared)?;
        Ok(())
    }

    /// Declares a function with the next number, by its signature if it has one.
    pub fn add_signature(&mut self, signature: Option<Signature>) -> Result<(), NoMemory>
        ensures { OnOk result (scope_of self.new ≡ with_signature (scope_of self.old) (option_map signature_of signature)) }
    {
        self.signatures.push(signature)?;
        Ok(())
    }

    /// How many constants and package variables there are.
    pub fn value_count(&self) -> usize
        ensures { result ≡ length (scope_of self.now).values }
    {
        self.values.len()
    }

    /// What is known of a constant or a package variable.
    pub fn known(&self, number: ValueId) -> Option<Known>
        ensures { result ≡ known (scope_of self.now) number.0 }
    {
        match self.values.get(number.0 as usize) {
            Some(known) => *known,
            None => None,
        }
    }

    /// Adds a constant or a package variable with the next number, by what is known of it.
    pub fn add_value(&mut self, known: Option<Known>) -> Result<(), NoMemory>
        ensures { OnOk result (scope_of self.new ≡ with_value (scope_of self.old) known) }
    {
        self.values.push(known)?;
        Ok(())
    }

    /// Says that the constant or variable of the next number is a package variable with a name.
    pub fn add_global(&mut self) -> Result<(), NoMemory>
        ensures { OnOk result (scope_of self.new ≡ with_global (scope_of self.old)) }
    {
        let Ok(number) = u32::try_from(self.values.len()) else {
            return Err(NoMemory);
        };
        self.globals.push(ValueId(number))?;
        Ok(())
    }

    /// How many package variables have a name.
    pub fn global_count(&self) -> usize
        ensures { result ≡ length (scope_of self.now).globals }
    {
        self.globals.len()
    }

    /// Says what is known of a constant or a package variable.
    pub fn set_known(&mut self, number: ValueId, known: Option<Known>)
        ensures { scope_of self.new ≡ with_known (scope_of self.old) number.0 known }
    {
        let index = number.0 as usize;
        if index < self.values.len() {
            self.values[index] = known;
        }
    }

    /// How many strings stand in the statements so far.
    pub fn string_count(&self) -> usize
        ensures { result ≡ length (scope_of self.now).strings }
    {
        self.strings.len()
    }

    /// Puts these strings after those of the statements so far.
    pub fn add_strings(&mut self, strings: Vec<Vec<u8>>) -> Result<(), NoMemory>
        ensures { OnOk result (scope_of self.new ≡ with_strings (scope_of self.old)
            (map (λ string. string.items) strings.items)) }
    {
        let mut strings = strings;
        self.strings.append(&mut strings)?;
        Ok(())
    }

    /// How many structs there are.
    pub fn struct_count(&self) -> usize
        ensures { result ≡ length (scope_of self.now).fields }
    {
        self.fields.len()
    }

    /// Adds a struct with the next number, by the names of its fields.
    pub fn add_struct(&mut self, fields: Blocks) -> Result<(), NoMemory>
        ensures { OnOk result (scope_of self.new ≡ with_struct (scope_of self.old) fields) }
    {
        self.fields.push(fields)?;
        Ok(())
    }

    /// Opens a block.
    pub fn open(&mut self) -> Result<(), NoMemory>
        ensures { OnOk result (scope_of self.new ≡ opened (scope_of self.old)) }
    {
        self.names.open()
    }

    /// Closes the innermost block, outside of which another one is open.
    pub fn close(&mut self)
        requires { 1 < length self.old.names }
        ensures { scope_of self.new ≡ closed (scope_of self.old) }
    {
        self.names.close();
    }

    /// How many sites there are.
    pub fn site_count(&self) -> usize
        ensures { result ≡ length (scope_of self.now).sites }
    {
        self.sites.len()
    }

    /// The number of the next site.
    pub fn next_site(&self) -> Result<SiteId, NoMemory>
        ensures { IfOk result (λ site. site.0 ≡ length (scope_of self.now).sites) }
    {
        match u32::try_from(self.sites.len()) {
            Ok(number) => Ok(SiteId(number)),
            Err(_) => Err(NoMemory),
        }
    }

    /// The number of the site after the next `before` ones.
    pub fn site_behind(&self, before: usize) -> Result<SiteId, NoMemory>
        ensures { IfOk result (λ site. site.0 ≡ length (scope_of self.now).sites + before) }
    {
        let Some(place) = self.sites.len().checked_add(before) else {
            return Err(NoMemory);
        };
        match u32::try_from(place) {
            Ok(number) => Ok(SiteId(number)),
            Err(_) => Err(NoMemory),
        }
    }

    /// The bytes of one more name behind those of the sites.
    fn next_name(&self, name: &[u8]) -> Result<NameRange, NoMemory>
        ensures { IfOk result (λ r. r ≡ record {
          start = length (scope_of self.now).site_names;
          end = length (scope_of self.now).site_names + length name.now;
        }) }
    {
        let start = self.site_names.len();
        let Some(end) = start.checked_add(name.len()) else {
            return Err(NoMemory);
        };
        match (u32::try_from(start), u32::try_from(end)) {
            (Ok(start), Ok(end)) => Ok(NameRange { start, end }),
            _ => Err(NoMemory),
        }
    }

    /// Adds a site of a type, with a name or none.
    pub fn add_site(
        &mut self,
        setting: Setting,
        name: &[u8],
        value_type: ValueType,
        pos: Pos,
    ) -> Result<(), NoMemory>
        ensures { OnOk result (scope_of self.new ≡ with_site (scope_of self.old) setting name.now value_type pos) }
    {
        let range = self.next_name(name)?;
        self.sites
            .push(site_at(&self.types, setting, range, value_type, pos))?;
        self.site_names.extend_from_slice(name)?;
        Ok(())
    }

    /// Declares a variable in the innermost block; with a type it has a site of its own.
    pub fn declare_variable(
        &mut self,
        name: &[u8],
        pos: Pos,
        value_type: Option<ValueType>,
    ) -> Result<(), NoMemory>
        ensures { OnOk result (scope_of self.new ≡ with_variable value_type (scope_of self.old) name.now pos) }
    {
        match value_type {
            Some(value_type) => {
                let site = self.next_site()?;
                self.declare(name, Declared::Variable(site, value_type))?;
                self.add_site(self.setting, name, value_type, pos)
            }
            None => self.declare(name, Declared::Untyped),
        }
    }
}
