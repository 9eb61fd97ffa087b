//! Where a declaration of constants or variables stands.

use syntax::ValueSpec;

/// What a declaration declares.
#[derive(Clone, Copy, PartialEq, Eq)]
pub enum Declares {
    /// Constants have values, and may have a type.
    Constants,
    /// Variables have a type or values.
    Variables,
}

/// Where one of them stands.
#[derive(Drop)]
pub enum Spot {
    Alone,
    /// In parentheses, after these.
    Group(Vec<ValueSpec>),
}
