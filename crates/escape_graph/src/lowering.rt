//! The graph of a batch, and of a program.

ghost use Rattle.std.specs.Prelude.{◌≡◌, ◌++◌, map, IfOk, OnOk};
ghost use Rattle.value_flows.specs.View.{program_of, tags_of as tags_of_data};
ghost use Rattle.escape_graph.specs.Edges.{batch_edges, whole_edges};
ghost use Rattle.escape_graph.specs.Locations.{batch_locations, whole_locations};

use crate::batch::Batch;
use crate::functions::add_batch;
use crate::locations::{batch_locations, whole_locations};
use base::{FuncId, NoMemory};
use deref_walk::{Edge, Graph};
use std::alloc::Global;
use value_flows::{Program, Tags};

/// The graph of the functions of a batch, where the other functions have these tags. `NoMemory` says that memory was refused,
/// or that a number does not fit: the dereferences of a target, or the number of a site or a result.
pub fn lower(
    alloc: Global,
    program: &Program,
    batch: &[FuncId],
    tags: &Tags,
) -> Result<Graph, NoMemory>
    ensures edges { IfOk result (λ g. g.edges.items ≡ batch_edges (program_of program.now) (tags_of_data tags.now) batch.now) }
    ensures locations { IfOk result (λ g. g.locations.items ≡ batch_locations (program_of program.now) batch.now) }
{
    let locations = batch_locations(alloc, program, batch)?;
    let mut edges = Vec::new(alloc);
    let own = Batch {
        program,
        funcs: batch,
        tags,
    };
    add_batch(&mut edges, alloc, own)?;
    Ok(Graph { locations, edges })
}

/// Adds the edges of all batches.
fn add_batches(
    edges: &mut Vec<Edge>,
    alloc: Global,
    program: &Program,
    batches: &[Vec<FuncId>],
    tags: &Tags,
) -> Result<(), NoMemory>
    ensures { OnOk result (edges.new.items ≡ edges.old.items
        ++ whole_edges (program_of program.now) (tags_of_data tags.now) (map (λ b. b.items) batches.now)) }
{
    for funcs in batches {
        let own = Batch {
            program,
            funcs,
            tags,
        };
        add_batch(edges, alloc, own)?;
    }
    Ok(())
}

/// The graph of a program by its batches and the tags of all functions. `NoMemory` says that memory was refused, or that a
/// number does not fit: the dereferences of a target, or the number of a site or a result.
pub fn whole(
    alloc: Global,
    program: &Program,
    batches: &[Vec<FuncId>],
    tags: &Tags,
) -> Result<Graph, NoMemory>
    ensures edges { IfOk result (λ g. g.edges.items
        ≡ whole_edges (program_of program.now) (tags_of_data tags.now) (map (λ b. b.items) batches.now)) }
    ensures locations { IfOk result (λ g. g.locations.items
        ≡ whole_locations (program_of program.now) (map (λ b. b.items) batches.now)) }
{
    let locations = whole_locations(alloc, program, batches)?;
    let mut edges = Vec::new(alloc);
    add_batches(&mut edges, alloc, program, batches, tags)?;
    Ok(Graph { locations, edges })
}
