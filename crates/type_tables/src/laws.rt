//! Laws. Each function carries one as its clause, and does nothing.

ghost use Rattle.type_tables.specs.Types.{OneNumber, ProgramTells};

/// Where no type stands twice, a type has one number at most, and it's this one that the table of a program tells.
pub fn one_number()
    ensures { OneNumber }
{}

/// The table of a program tells each struct that isn't refused with the types of its fields, whatever its size.
pub fn program_tells()
    ensures { ProgramTells }
{}
