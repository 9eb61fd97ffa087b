//! The edges of what functions do.

ghost use Rattle.std.specs.Prelude.{◌≡◌, ◌++◌, map, OnOk};
ghost use Rattle.value_flows.specs.View.{act_of, program_of, tags_of as tags_of_data};
ghost use Rattle.escape_graph.specs.Edges.{act_edges, acts_edges, batch_edges, func_edges, numbers};

use crate::batch::Batch;
use crate::parts::func_at;
use crate::sending::{add_value, send_all};
use crate::targets::target_lists;
use crate::texts::text_all;
use base::{FuncId, NoMemory};
use deref_walk::{Edge, Loc};
use std::alloc::Global;
use value_flows::{Act, Target};

/// Adds the edges of something that a function does.
fn add_act(
    edges: &mut Vec<Edge>,
    alloc: Global,
    batch: Batch<'_>,
    act: &Act,
) -> Result<(), NoMemory>
    ensures { OnOk result (edges.new.items ≡ edges.old.items
        ++ act_edges (program_of batch.entry.program.now) (numbers batch.entry.funcs.now) (tags_of_data batch.entry.tags.now)
        (act_of act.now)) }
{
    match act {
        Act::Give(values, targets) => {
            let lists = target_lists(alloc, targets)?;
            send_all(edges, alloc, batch, values, &lists)?;
            text_all(edges, alloc, batch, values)
        }
        Act::Carry(x) => {
            let (site, carry) = (Loc::Site(*x), Loc::Carry(*x));
            add_value(edges, site, Target { to: carry, by: 0 })?;
            add_value(edges, carry, Target { to: site, by: 0 })
        }
    }
}

/// Adds the edges of a body.
fn add_acts(
    edges: &mut Vec<Edge>,
    alloc: Global,
    batch: Batch<'_>,
    acts: &[Act],
) -> Result<(), NoMemory>
    ensures { OnOk result (edges.new.items ≡ edges.old.items
        ++ acts_edges (program_of batch.entry.program.now) (numbers batch.entry.funcs.now) (tags_of_data batch.entry.tags.now)
        (map act_of acts.now)) }
{
    for act in acts {
        add_act(edges, alloc, batch, act)?;
    }
    Ok(())
}

/// Adds the edges of a function.
fn add_func(
    edges: &mut Vec<Edge>,
    alloc: Global,
    batch: Batch<'_>,
    f: FuncId,
) -> Result<(), NoMemory>
    ensures { OnOk result (edges.new.items ≡ edges.old.items
        ++ func_edges (program_of batch.entry.program.now) (numbers batch.entry.funcs.now) (tags_of_data batch.entry.tags.now)
        f.0) }
{
    match func_at(batch.program, f) {
        None => Ok(()),
        Some(func) => add_acts(edges, alloc, batch, &func.body),
    }
}

/// Adds the edges of the functions of a batch.
pub fn add_batch(edges: &mut Vec<Edge>, alloc: Global, batch: Batch<'_>) -> Result<(), NoMemory>
    ensures { OnOk result (edges.new.items ≡ edges.old.items
        ++ batch_edges (program_of batch.entry.program.now) (tags_of_data batch.entry.tags.now) batch.entry.funcs.now) }
{
    for f in batch.funcs {
        add_func(edges, alloc, batch, *f)?;
    }
    Ok(())
}
