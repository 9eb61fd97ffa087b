//! Programs.

use crate::placed::Known;
use crate::value::{Target, Values};
use base::{FuncId, SiteId};

/// A site.
#[derive(Clone, Copy, Debug, PartialEq, Eq)]
pub struct Site {
    /// The function that it stands in; none for a package variable.
    pub func: Option<FuncId>,
    /// How many loops of its function are around it.
    pub depth: u32,
    /// Whether it is a result of its function.
    pub result: bool,
    /// Whether the init statement of a `for` declares it.
    pub carried: bool,
    /// Why its variables are on the heap, if they are there whatever flows.
    pub known: Option<Known>,
}

/// A result of a function: its site where it has a name, and whether its values have pointers.
#[derive(Clone, Copy, Debug, PartialEq, Eq)]
pub struct FuncResult {
    pub site: Option<SiteId>,
    pub pointers: bool,
}

/// What a function does.
#[derive(Drop)]
pub enum Act {
    /// Values, each of which goes to its target, or nowhere.
    Give(Values, Vec<Option<Target>>),
    /// A variable of a `for` is carried on to the next iteration.
    Carry(SiteId),
}

/// A function. Its sites stand together in the program's table.
#[derive(Drop)]
pub struct Func {
    /// The number of its first site, and how many it has.
    pub first_site: u32,
    pub sites: u32,
    /// The site of each parameter; none for a blank or unnamed one.
    pub params: Vec<Option<SiteId>>,
    pub results: Vec<FuncResult>,
    pub body: Vec<Act>,
}

/// A program: its functions and its sites, in the order of the text.
#[derive(Drop)]
pub struct Program {
    pub funcs: Vec<Func>,
    pub sites: Vec<Site>,
}
