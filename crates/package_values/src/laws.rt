//! Laws of the definitions. Each function carries one as its clause, and does nothing.

ghost use Rattle.package_values.specs.Laws.{SettledIsLeast};

/// The values that looks find are the least that the declarations give.
pub fn settled_is_least()
    ensures { SettledIsLeast }
{}
