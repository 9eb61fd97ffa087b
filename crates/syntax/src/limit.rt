//! How deeply a text may be nested.

/// The greatest nesting of a token, which the parser keeps.
pub const NESTING_LIMIT: usize = 200;
