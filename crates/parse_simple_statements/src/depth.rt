//! How deep a declaration stands.

ghost use Rattle.std.specs.Prelude.{◌+◌, ◌≤◌};
ghost use Rattle.syntax.specs.declared.limit.TheConstants.{NESTING_LIMIT};

/// How many brackets are open around a declaration.
#[derive(Clone, Copy, PartialEq, Eq)]
pub struct Depth {
    pub brackets: usize,
    ghost small: { brackets ≤ NESTING_LIMIT + 1 },
}
