//! The tags of all functions, and the heap set.

ghost use Rattle.std.specs.Prelude.{◌≡◌, ◌<◌, ℕ, [], All, IfOk, OnOk, length, map};
ghost use Rattle.value_flows.specs.View.{program_of, tags_of};
ghost use Rattle.escape_graph.specs.Edges.{batch_edges, tags_of as tags_at, whole_edges};
ghost use Rattle.param_tags.specs.Order.{AreOrdered, IsFormed, BatchFits};
ghost use Rattle.param_tags.specs.Paths.{ArePaths, KeepsPaths};
ghost use Rattle.param_tags.specs.Solved.{Solves, first_placed, first_placements};
ghost use Rattle.param_tags.specs.Whole.{IsSolution};

use crate::paths::add_paths;
use crate::rounds::join;
use crate::tags::set_tags;
use crate::walks::{holds_of, walk_all};
use base::{FuncId, NoMemory};
use deref_walk::Step;
use escape_graph::lower;
use std::alloc::Global;
use value_flows::{Placed, Program, Site, Tags};

/// The tags of all functions; a home for each site; and, for each site that is on the heap by flow, a path from the location that
/// its home names.
#[derive(Drop)]
pub struct Solved {
    pub tags: Tags,
    pub placed: Vec<Placed>,
    pub paths: Vec<Option<Vec<Step>>>,
}

/// Solves one batch, where the earlier ones are solved: its tags are set, and its sites whose addresses flow to what outlives
/// them get their homes and paths. Errs where memory is refused, or a number is too great.
fn solve_batch(
    alloc: Global,
    program: &Program,
    batch: &[FuncId],
    tags: &mut Tags,
    placed: &mut [Placed],
    paths: &mut [Option<Vec<Step>>],
) -> Result<(), NoMemory>
    requires fits { BatchFits (program_of program.now) batch.now }
    requires tags { All (λ f. f.0 < length (tags_of tags.old)) batch.now }
    requires placed { length placed.old ≡ length program.now.sites.items }
    requires paths { length paths.old ≡ length program.now.sites.items }
    ensures solves { OnOk result (Solves (program_of program.now) batch.now (tags_of tags.old) placed.old
        (tags_of tags.new) placed.new) }
    ensures size { OnOk result (length paths.new ≡ length paths.old) }
    ensures paths { OnOk result (KeepsPaths (batch_edges (program_of program.now) (tags_of tags.old) batch.now)
        placed.old placed.new paths.old paths.new) }
{
    let graph = lower(alloc, program, batch, tags)?;
    let walks = walk_all(alloc, &graph)?;
    let holds = holds_of(alloc, &graph, &walks)?;
    join(program, placed, &holds);
    add_paths(alloc, placed, &walks, &holds, paths)?;
    set_tags(alloc, program, placed, &walks, batch, tags)
}

/// The home of a site to which nothing flows yet.
fn first_placed(site: &Site) -> Placed
    ensures { result ≡ first_placed site.now }
{
    match site.known {
        None => Placed::Stack,
        Some(why) => Placed::Known(why),
    }
}

/// A home for each site, before anything flows. Errs where memory is refused.
fn first_placements(alloc: Global, program: &Program) -> Result<Vec<Placed>, NoMemory>
    ensures { IfOk result (λ v. v.items ≡ first_placements program.now.sites.items) }
{
    let mut placed = Vec::new(alloc);
    for site in &program.sites {
        placed.push(first_placed(site))?;
    }
    Ok(placed)
}

/// No tags for so many functions. Errs where memory is refused.
fn no_tags(alloc: Global, count: usize) -> Result<Tags, NoMemory>
    ensures size { IfOk result (λ t. length (tags_of t) ≡ count) }
    ensures none { IfOk result (λ t. (f : ℕ) → tags_at (tags_of t) f ≡ []) }
{
    let mut funcs = Vec::new(alloc);
    for _ in 0..count {
        funcs.push(Vec::new(alloc))?;
    }
    Ok(Tags { funcs })
}

/// No path for so many sites. Errs where memory is refused.
fn no_paths(alloc: Global, count: usize) -> Result<Vec<Option<Vec<Step>>>, NoMemory>
    ensures { IfOk result (λ v. length v.items ≡ count) }
{
    let mut paths = Vec::new(alloc);
    for _ in 0..count {
        paths.push(None)?;
    }
    Ok(paths)
}

/// The tags of all functions, and the least heap set: a home for each site, which says why its variables are on the heap, and a
/// path for each that is there by flow. Errs where memory is refused, or a number is too great.
pub fn solve(alloc: Global, program: &Program, batches: &[Vec<FuncId>]) -> Result<Solved, NoMemory>
    requires formed { IsFormed (program_of program.now) }
    requires order { AreOrdered (program_of program.now) (map (λ b. b.items) batches.now) }
    ensures solution { IfOk result (λ s. IsSolution (program_of program.now) (map (λ b. b.items) batches.now)
        (tags_of s.tags) s.placed.items) }
    ensures paths { IfOk result (λ s. ArePaths
        (whole_edges (program_of program.now) (tags_of s.tags) (map (λ b. b.items) batches.now)) s.placed.items s.paths.items) }
    ensures funcs { IfOk result (λ s. length s.tags.funcs.items ≡ length program.now.funcs.items) }
    ensures sites { IfOk result (λ s. (length s.placed.items ≡ length program.now.sites.items)
        × (length s.paths.items ≡ length program.now.sites.items)) }
{
    let mut placed = first_placements(alloc, program)?;
    let mut tags = no_tags(alloc, program.funcs.len())?;
    let mut paths = no_paths(alloc, program.sites.len())?;
    for batch in batches {
        solve_batch(alloc, program, batch, &mut tags, &mut placed, &mut paths)?;
    }
    Ok(Solved {
        tags,
        placed,
        paths,
    })
}
