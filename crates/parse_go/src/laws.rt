//! Laws of the faults of a text. Each function carries one as its clause, and does nothing.

ghost use Rattle.parse_go.specs.Laws.{OneFault};

/// Tokens have at most one fault: its kind and its position are determined.
pub fn one_fault()
    ensures { OneFault }
{}
