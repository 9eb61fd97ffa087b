//! Values, and where they go.

use base::{FuncId, SiteId};
use deref_walk::Loc;

/// Where a value goes: a location, and by how many dereferences.
#[derive(Clone, Copy, Debug, PartialEq, Eq)]
pub struct Target {
    pub to: Loc,
    pub by: u32,
}

/// A value, by the addresses that it may hold.
#[derive(Drop)]
#[cycle(value)]
pub enum Value {
    /// The value of a site's variable, or of a part of it.
    Variable(SiteId),
    /// The address of a site's variable, or of a part of it.
    Address(SiteId),
    /// An address, or that of a part of what lies at it; whether pointers lie there.
    Inside(bool, Box<Value>),
    /// What lies at an address, or a part of it.
    Behind(Box<Value>),
    /// Values side by side, as those of the fields of a struct.
    Parts(Vec<Value>),
    /// A value, and others that are evaluated beside it and go nowhere.
    Beside(Vec<Value>, Box<Value>),
    /// A value that also goes to this target, wherever else it goes.
    Sent(Target, Box<Value>),
    /// The result of a call of a function, and its arguments.
    Call(FuncId, Box<Values>),
}

/// The values of an assignment, a call or a return.
#[derive(Drop)]
#[cycle(value)]
pub enum Values {
    Each(Vec<Value>),
    /// All results of a call, and its arguments.
    Results(FuncId, Box<Values>),
}
