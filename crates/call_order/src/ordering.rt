//! The order.

ghost use Rattle.std.specs.Prelude.{◌≡◌, map, IfOk};
ghost use Rattle.components.specs.Components.{component_lists};
ghost use Rattle.typed.specs.View.{program_of};
ghost use Rattle.call_order.specs.Batches.{IsBatchOf, AreBatchesOf};
ghost use Rattle.call_order.specs.Order.{numbers, batch_lists, IsCallOrder};

use crate::batches::{Batch, Batches};
use crate::calls::all_calls;
use base::{FuncId, NoMemory};
use components::{Component, strong_components};
use std::alloc::Global;
use typed::Program;

/// The functions with these numbers.
fn funcs_of(alloc: Global, nodes: &[u32]) -> Result<Vec<FuncId>, NoMemory>
    ensures { IfOk result (λ v. map (λ f. f.0) v.items ≡ nodes.now) }
{
    let mut funcs = Vec::new(alloc);
    for node in nodes {
        funcs.push(FuncId(*node))?;
    }
    Ok(funcs)
}

/// The batch of a component: its functions in the order of the text.
fn batch_of(alloc: Global, nodes: &[u32]) -> Result<Batch, NoMemory>
    ensures { IfOk result (λ b. IsBatchOf nodes.now (numbers b)) }
{
    let mut funcs = funcs_of(alloc, nodes)?;
    funcs.sort_unstable_by_key(|f| f.0);
    Ok(Batch { funcs })
}

/// The batches of components.
fn batches_of(alloc: Global, components: &[Component]) -> Result<Vec<Batch>, NoMemory>
    ensures { IfOk result (λ v. AreBatchesOf (component_lists components.now) (batch_lists v.items)) }
{
    let mut batches = Vec::new(alloc);
    for component in components {
        let batch = batch_of(alloc, &component.nodes)?;
        batches.push(batch)?;
    }
    Ok(batches)
}

/// The functions of a program in batches, callees first. More functions than can have numbers count as want of memory.
pub fn order(alloc: Global, program: &Program) -> Result<Batches, NoMemory>
    ensures { IfOk result (λ r. IsCallOrder (program_of program.now) (batch_lists r.batches.items)) }
{
    let calls = all_calls(alloc, program)?;
    let found = strong_components(alloc, &calls)?;
    let batches = batches_of(alloc, &found.components)?;
    Ok(Batches { batches })
}
