//! The structs that are no types.

ghost use Rattle.std.specs.Prelude.{◌≡◌, Option, Some, None, IfOk, if◌then◌else◌};
ghost use Rattle.base.specs.declared.value_type.ValueType.TheVariants.{Struct as StructType};
ghost use Rattle.syntax.specs.Declarations.{declarations_of};
ghost use Rattle.type_faults.specs.Least.{IsLeast};
ghost use Rattle.type_faults.specs.Faults.{fault as fault_at};
ghost use Rattle.type_faults.specs.declared.fault.FaultKind.TheVariants.{SelfReference};
ghost use Rattle.names.specs.Types.{is_known};
ghost use Rattle.declared_structs.specs.Faults.{StructsOpen, type_specs_in};
ghost use Rattle.declared_structs.specs.Passing.{spec_views};

use crate::type_specs::type_specs;
use base::{NoMemory, Pos, StructId, ValueType};
use names::is_known;
use std::alloc::Global;
use syntax::{Decl, TypeSpec};
use type_faults::{Fault, FaultKind, lesser};
use typed::TypeTable;

/// The fault of the name of a struct that is no type in a table.
fn open_fault(types: &TypeTable, id: StructId, pos: Pos) -> Option<Fault>
    ensures { result ≡ (if is_known types.now (StructType id) then None else Some (fault_at SelfReference pos)) }
{
    if is_known(types, ValueType::Struct(id)) {
        return None;
    }
    Some(Fault {
        kind: FaultKind::SelfReference,
        pos,
    })
}

/// The fault of the structs that are no types.
fn each_open(types: &TypeTable, specs: &[&TypeSpec]) -> Result<Option<Fault>, NoMemory>
    ensures { IfOk result (λ r. IsLeast (StructsOpen types.now 0 (spec_views specs.now)) r) }
{
    let mut fault = None;
    for index in 0..specs.len() {
        let Ok(number) = u32::try_from(index) else {
            return Err(NoMemory);
        };
        let own = open_fault(types, StructId(number), specs[index].name.pos);
        fault = lesser(fault, own);
    }
    Ok(fault)
}

/// Of the structs of declarations that are no types in a table, the first one in the text: its fault (they need themselves), at
/// its name, which is the one with the least offset, then the least number.
pub fn structs_open(
    alloc: Global,
    types: &TypeTable,
    decls: &[Decl],
) -> Result<Option<Fault>, NoMemory>
    ensures { IfOk result (λ r. IsLeast (StructsOpen types.now 0 (type_specs_in (declarations_of decls.now))) r) }
{
    let specs = type_specs(alloc, decls)?;
    each_open(types, &specs)
}
