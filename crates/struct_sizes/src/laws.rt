//! Laws. Each function carries one as its clause, and does nothing.

ghost use Rattle.struct_sizes.specs.Words.{OneTable};
ghost use Rattle.struct_sizes.specs.Verdicts.{OneAnswer, SizedIsType};

/// The words of the structs of a program are one table: what is said of it pins it.
pub fn one_table()
    ensures { OneTable }
{}

/// The verdicts on them are one answer, in the same way.
pub fn one_answer()
    ensures { OneAnswer }
{}

/// A struct that isn't refused is a type, with 1 to 65,535 words. So are its fields, whose words those are together, and the structs
/// that it holds.
pub fn sized_is_type()
    ensures { SizedIsType }
{}
