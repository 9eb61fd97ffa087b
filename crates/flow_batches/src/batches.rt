//! The batches.

ghost use Rattle.std.specs.Prelude.{◌≡◌, map, IfOk};
ghost use Rattle.components.specs.Components.{component_lists};
ghost use Rattle.value_flows.specs.View.{program_of};
ghost use Rattle.escape_graph.specs.Edges.{numbers};
ghost use Rattle.param_tags.specs.Order.{AreOrdered};
ghost use Rattle.flow_batches.specs.Batches.{CallsAreThere, HaveAll, AreSingle, AreTogether, number_lists};

use crate::calls::all_calls;
use base::{FuncId, NoMemory};
use components::{Component, strong_components};
use std::alloc::Global;
use value_flows::Program;

/// The functions with these numbers.
fn batch_of(alloc: Global, nodes: &[u32]) -> Result<Vec<FuncId>, NoMemory>
    ensures { IfOk result (λ v. numbers v.items ≡ nodes.now) }
{
    let mut batch = Vec::new(alloc);
    for node in nodes {
        batch.push(FuncId(*node))?;
    }
    Ok(batch)
}

/// Components as batches.
fn all_batches(alloc: Global, components: &[Component]) -> Result<Vec<Vec<FuncId>>, NoMemory>
    ensures { IfOk result (λ v. number_lists (map (λ b. b.items) v.items) ≡ component_lists components.now) }
{
    let mut batches = Vec::new(alloc);
    for component in components {
        let batch = batch_of(alloc, &component.nodes)?;
        batches.push(batch)?;
    }
    Ok(batches)
}

/// The functions of a program in batches, callees first: each function stands once, in one batch, and two stand in one where each
/// reaches the other by calls. Each function that is called must be there, as `is_formed` tests. More functions than can have
/// numbers count as want of memory.
pub fn batches_of(alloc: Global, program: &Program) -> Result<Vec<Vec<FuncId>>, NoMemory>
    requires calls { CallsAreThere (program_of program.now) }
    ensures ordered { IfOk result (λ v. AreOrdered (program_of program.now) (map (λ b. b.items) v.items)) }
    ensures all { IfOk result (λ v. HaveAll (program_of program.now) (map (λ b. b.items) v.items)) }
    ensures single { IfOk result (λ v. AreSingle (map (λ b. b.items) v.items)) }
    ensures together { IfOk result (λ v. AreTogether (program_of program.now) (map (λ b. b.items) v.items)) }
{
    let calls = all_calls(alloc, program)?;
    let found = strong_components(alloc, &calls)?;
    all_batches(alloc, &found.components)
}
