//! The table of a program.

ghost use Rattle.std.specs.Prelude.{◌≡◌, IfOk};
ghost use Rattle.struct_sizes.specs.Structs.{structs_of};
ghost use Rattle.struct_sizes.specs.Verdicts.{IsSettled};
ghost use Rattle.typed.specs.Formed.{IsFormed};
ghost use Rattle.type_tables.specs.Told.{sized_structs, program_table};
ghost use Rattle.type_tables.specs.Types.{AllArrays, TellsEach, HaveWords};

use crate::entering::enter_structs;
use base::NoMemory;
use std::alloc::Global;
use struct_sizes::{DeclaredStruct, Verdicts};
use typed::TypeTable;

/// The table of the types of a program: each struct that isn't refused with the types of its fields. The types are numbered in the
/// order of the text.
pub fn type_table(
    alloc: Global,
    structs: &[DeclaredStruct],
    found: &Verdicts,
) -> Result<TypeTable, NoMemory>
    requires settled { IsSettled (structs_of structs.now) found.now }
    requires arrays { AllArrays (structs_of structs.now) }
    ensures table { IfOk result (λ t. t ≡ program_table (sized_structs (structs_of structs.now) found.now.verdicts.items)) }
    ensures fields { IfOk result (λ t. TellsEach t (sized_structs (structs_of structs.now) found.now.verdicts.items)) }
    ensures words { IfOk result (λ t. HaveWords t found.now.verdicts.items) }
    ensures formed { IfOk result IsFormed }
{
    // Structs are numbered by 32 bits, so there are no more.
    let Ok(count) = u32::try_from(structs.len()) else {
        return Err(NoMemory);
    };
    let mut table = TypeTable::new(alloc, count)?;
    let fields = enter_structs(alloc, &mut table, structs, &found.verdicts)?;
    table.tell_all(fields, &found.words)
}
