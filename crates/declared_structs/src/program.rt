//! The table of the types of a program's structs, and the fault of their sizes.

ghost use Rattle.std.specs.Prelude.{◌≡◌, IfOk, OnOk};
ghost use Rattle.base.specs.declared.value_type.ValueType.TheVariants.{Struct as StructType};
ghost use Rattle.typed.specs.declared.fault.TableFault.TheVariants as TableFaults;
ghost use Rattle.typed.specs.Tables.{with_type};
ghost use Rattle.syntax.specs.Declarations.{declarations_of};
ghost use Rattle.type_faults.specs.Least.{IsLeast};
ghost use Rattle.typed.specs.Formed.{IsFormed};
ghost use Rattle.names.specs.Scope.{scope_of};
ghost use Rattle.declared_structs.specs.Forms.{structs_in};
ghost use Rattle.declared_structs.specs.Faults.{SizesOfAllFail};
ghost use Rattle.declared_structs.specs.Tables.{with_structs, IsTableOf};

use crate::forms::declared_structs;
use crate::sizes::sizes_fault;
use base::{NoMemory, StructId, ValueType};
use names::Scope;
use std::alloc::Global;
use struct_sizes::settle;
use syntax::Decl;
use type_faults::Fault;
use type_tables::type_table;
use typed::{TableFault, TypeTable};

/// The types of a program's structs, and the fault of their sizes.
#[derive(Drop)]
pub struct ProgramTypes {
    pub table: TypeTable,
    pub fault: Option<Fault>,
}

/// Why a type doesn't enter that has as many words as it may: memory.
fn out_of_memory(fault: TableFault) -> NoMemory
    requires { fault ≡ TableFaults.NoMemory }
{
    let _ = fault;
    NoMemory
}

/// Gives a struct a number.
fn enter_struct(table: &mut TypeTable, id: StructId) -> Result<(), NoMemory>
    requires { IsFormed table.old }
    ensures entered { OnOk result (table.new ≡ with_type table.old (StructType id)) }
    ensures formed { IsFormed table.new }
{
    match table.enter(ValueType::Struct(id)) {
        Ok(_) => Ok(()),
        Err(fault) => Err(out_of_memory(fault)),
    }
}

/// Gives each struct a number.
fn enter_structs(table: &mut TypeTable, count: usize) -> Result<(), NoMemory>
    requires { IsFormed table.old }
    ensures entered { OnOk result (table.new ≡ with_structs table.old count) }
    ensures formed { IsFormed table.new }
{
    for index in 0..count {
        let Ok(number) = u32::try_from(index) else {
            return Err(NoMemory);
        };
        enter_struct(table, StructId(number))?;
    }
    Ok(())
}

/// The table that has the structs of declarations that are types, and the types of their fields, by the constants and the names
/// of a scope; and of the rules that fail in their sizes, the one with the least offset, then the least number.
pub fn program_types(
    alloc: Global,
    text: &[u8],
    scope: &Scope,
    decls: &[Decl],
) -> Result<ProgramTypes, NoMemory>
    ensures table { IfOk result (λ r. IsTableOf (structs_in text.now (scope_of scope.now) (declarations_of decls.now)) r.table) }
    ensures formed { IfOk result (λ r. IsFormed r.table) }
    ensures fault { IfOk result
        (λ r. IsLeast (SizesOfAllFail text.now (scope_of scope.now) (declarations_of decls.now)) r.fault) }
{
    let structs = declared_structs(alloc, text, scope, decls)?;
    let found = settle(alloc, &structs)?;
    let fault = sizes_fault(alloc, text, scope, &found, decls)?;
    let mut table = type_table(alloc, &structs, &found)?;
    enter_structs(&mut table, structs.len())?;
    Ok(ProgramTypes { table, fault })
}
