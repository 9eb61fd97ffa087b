//! Laws of the definitions. Each function carries one as its clause, and does nothing.

ghost use Rattle.array_laws.specs.Laws.{LengthsStay, NoneLeftOut, NoneMissing, NoneUnknown, StaysFormed, TreesStay};

/// The table has each array type that stands in the text and isn't refused.
pub fn none_missing()
    ensures { NoneMissing }
{}

/// And so it is the type of these arrays.
pub fn none_unknown()
    ensures { NoneUnknown }
{}

/// No array type that stands in the text is reported as left out of the profile, also where a function declares more names.
pub fn none_left_out()
    ensures { NoneLeftOut }
{}

/// The lengths of arrays stay as array types enter.
pub fn lengths_stay()
    ensures { LengthsStay }
{}

/// A formed table stays formed as they enter.
pub fn stays_formed()
    ensures { StaysFormed }
{}

/// The types that it had keep their trees.
pub fn trees_stay()
    ensures { TreesStay }
{}
