//! The words of all structs.

ghost use Rattle.std.specs.Prelude.{◌≡◌, ℕ, ◌<◌, List, Option, IfOk, length, replicate, None};
ghost use Rattle.struct_sizes.specs.Structs.{structs_of, holds};
ghost use Rattle.struct_sizes.specs.Kept.{AgreeAll};
ghost use Rattle.struct_sizes.specs.Filling.{filled_at, filled, filled_all};
ghost use Rattle.components.specs.Graph.{Among};
ghost use Rattle.components.specs.Components.{AreComponents, component_lists};

use crate::forms::DeclaredStruct;
use crate::words::sum_words;
use base::NoMemory;
use components::Components;
use std::alloc::Global;

/// Enters the words of a struct, if it isn't on a cycle.
fn fill_at(structs: &[DeclaredStruct], on_cycles: &[bool], table: &mut [Option<u32>], node: u32)
    requires declared { node < length structs.now }
    requires room { node < length table.old }
    ensures { (exact : List (Option ℕ)) → AgreeAll table.old exact → AgreeAll table.new (filled_at (structs_of structs.now) on_cycles.now exact node) }
{
    if !on_cycles.get(node as usize).copied().unwrap_or(false) {
        let words = sum_words(table, &structs[node as usize].fields);
        table[node as usize] = words;
    }
}

/// Enters the words of structs in turn.
fn fill(structs: &[DeclaredStruct], on_cycles: &[bool], table: &mut [Option<u32>], nodes: &[u32])
    requires declared { (k : ℕ) → Among k nodes.now → k < length structs.now }
    requires room { length table.old ≡ length structs.now }
    ensures { (exact : List (Option ℕ)) → AgreeAll table.old exact → AgreeAll table.new (filled (structs_of structs.now) on_cycles.now exact nodes.now) }
{
    for node in nodes {
        fill_at(structs, on_cycles, table, *node);
    }
}

/// The words of all structs, where each component stands after those that it leads to.
pub fn known_words(
    alloc: Global,
    structs: &[DeclaredStruct],
    on_cycles: &[bool],
    components: &Components,
) -> Result<Vec<Option<u32>>, NoMemory>
    requires { AreComponents (holds (structs_of structs.now)) (component_lists components.now.components.items) }
    ensures { IfOk result (λ v. AgreeAll v.items (filled_all (structs_of structs.now) on_cycles.now (replicate (length structs.now) None) (component_lists components.now.components.items))) }
{
    let mut table = vec![in alloc; None; structs.len()]?;
    for component in &components.components {
        fill(structs, on_cycles, &mut table, &component.nodes);
    }
    Ok(table)
}
