//! Typed programs.

ghost use Rattle.std.specs.Prelude.{◌≡◌};
ghost use Rattle.typed.specs.View.{is_made_kind};

use crate::expr::Const;
use crate::stmt::Stmt;
use crate::table::TypeTable;
use base::{FuncId, Pos, SiteId, TypeId};

/// The type of whole numbers, and of truth values.
pub const INT: TypeId = TypeId(0);

pub const BOOL: TypeId = TypeId(1);

/// What makes the variables of a site.
#[derive(Clone, Copy, Debug, PartialEq, Eq)]
pub enum SiteKind {
    /// A declaration at the level of the package.
    Package,
    Parameter,
    /// A result with a name.
    Result,
    /// A declaration in a function: a `var`, a `:=`, or a `range` with `:=`.
    Variable,
    New,
    Make,
    Append,
    /// A literal under `&`.
    Literal,
    SliceLiteral,
    /// A `range` over an array: the hidden copy.
    Range,
}

impl SiteKind {
    /// Whether an expression makes the variables: no name stands for them.
    pub fn is_made(self) -> bool
        ensures { result ≡ is_made_kind self }
    {
        match self {
            SiteKind::New
            | SiteKind::Make
            | SiteKind::Append
            | SiteKind::Literal
            | SiteKind::SliceLiteral => true,
            SiteKind::Package
            | SiteKind::Parameter
            | SiteKind::Result
            | SiteKind::Variable
            | SiteKind::Range => false,
        }
    }
}

/// Why variables are on the heap, whatever flows.
#[derive(Clone, Copy, Debug, PartialEq, Eq)]
pub enum HeapReason {
    /// They are of the package.
    Package,
    /// They have more words than a variable of a frame may have.
    Size,
    /// How many words they have shows only when the program runs.
    Unknown,
}

/// The bytes of a name among those of all names: from one on, up to another.
#[derive(Clone, Copy, Debug, PartialEq, Eq)]
pub struct NameRange {
    pub start: u32,
    pub end: u32,
}

/// A site: where variables come from.
#[derive(Clone, Copy, Debug, PartialEq, Eq)]
pub struct Site {
    /// The place of the variable's name; without one, that of the expression, or of the word `range`.
    pub pos: Pos,
    pub type_id: TypeId,
    pub kind: SiteKind,
    /// The function that it stands in; none for a package variable.
    pub func: Option<FuncId>,
    /// How many loops of its function are around it.
    pub depth: u32,
    /// Whether the init statement of a `for` declares it.
    pub carried: bool,
    /// The words of each of its variables; where these aren't known, those of an element.
    pub words: u64,
    /// Why its variables are on the heap, if they are there whatever flows.
    pub known: Option<HeapReason>,
    /// Its name; nothing where it has none.
    pub name: NameRange,
    /// Whether a place that begins at one of its variables is pointed to or sliced.
    pub address_taken: bool,
}

/// A function. Its sites stand together in the program's table, those of its parameters first, then those of its named
/// results, then the others in the order of the text.
#[derive(Drop)]
pub struct Func {
    /// The place of its name.
    pub pos: Pos,
    /// The number of its first site, and how many it has.
    pub first_site: u32,
    pub sites: u32,
    /// The site of each parameter; none for a blank or unnamed one.
    pub params: Vec<Option<SiteId>>,
    /// The type of each parameter.
    pub param_types: Vec<TypeId>,
    /// The type of each result.
    pub results: Vec<TypeId>,
    /// The sites of the results where they have names, else nothing.
    pub named: Vec<SiteId>,
    pub body: Vec<Stmt>,
}

/// A package variable: its site, and the value that it begins with, where it is not the zero value of its type.
#[derive(Clone, Copy, Debug, PartialEq, Eq)]
pub struct PackageVariable {
    pub site: SiteId,
    pub value: Option<Const>,
}

/// A program: its functions in the order of the text, the one that is `main`, its sites in the order of the text, by
/// which a `SiteId` counts, its types, by which a `TypeId` counts, the bytes of the strings that it shows, its package variables in
/// the order of the text, and the bytes of the names of its sites.
#[derive(Drop)]
pub struct Program {
    pub funcs: Vec<Func>,
    pub main: FuncId,
    pub sites: Vec<Site>,
    pub types: TypeTable,
    pub strings: Vec<Vec<u8>>,
    pub globals: Vec<PackageVariable>,
    pub names: Vec<u8>,
}
