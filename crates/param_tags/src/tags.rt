//! The tags of a batch's functions.

ghost use Rattle.std.specs.Prelude.{◌≡◌, ◌⊎◌, ◌<◌, ◌++◌, ◌∷◌, [], ℕ, ℤ, List, All, false, length, map, IfOk, OnOk};
ghost use Rattle.std.specs.List.{Contains};
ghost use Rattle.std.specs.Option.{option_map};
ghost use Rattle.base.specs.declared.ids.FuncId.{FuncId as AnyFunc};
ghost use Rattle.deref_walk.specs.declared.graph.Edge.{Edge as AnyEdge};
ghost use Rattle.value_flows.specs.View.{param_tags_of, program_of, tags_of as view_of};
ghost use Rattle.escape_graph.specs.Targets.{site};
ghost use Rattle.escape_graph.specs.Edges.{is_own, numbers, params_of, results_of, tags_of};
ghost use Rattle.param_tags.specs.Heap.{listed, heap_of, AreTagged, IsAtMost, IsTag, IsTagged, IsTaggedAt};
ghost use Rattle.param_tags.specs.Walks.{AreListed, AreWalked, roots_of};

use crate::rounds::is_on_heap;
use crate::walks::{Walked, floored};
use base::{FuncId, NoMemory, SiteId};
use deref_walk::{Loc, is_same};
use escape_graph::{params_of, result_at, results_of};
use std::alloc::Global;
use value_flows::{ParamTags, Placed, Program, ResultTag, Tags};

/// Whether the flows of a tag end at a location: at the end that is given, or else at the heap and the sites on it.
fn is_root(placed: &[Placed], end: Option<Loc>, r: Loc) -> bool
    ensures { result ≡ roots_of (heap_of placed.now) end r }
{
    match end {
        Some(l) => is_same(l, r),
        None => match r {
            Loc::Site(m) => is_on_heap(placed, m),
            Loc::Heap => true,
            Loc::Result(_, _) => false,
            Loc::Carry(_) => false,
        },
    }
}

/// The lesser one of two numbers that may be there.
fn lesser(a: Option<u32>, b: Option<u32>) -> Option<u32>
    ensures first { (d : ℤ) → IsAtMost a d → IsAtMost result d }
    ensures second { (d : ℤ) → IsAtMost b d → IsAtMost result d }
    ensures either { (result ≡ a) ⊎ (result ≡ b) }
{
    match a {
        None => b,
        Some(m) => match b {
            None => a,
            Some(n) => { if m <= n { a } else { b } }
        },
    }
}

/// By how many dereferences at least a site flows to the end that is given, or else to the heap and the sites on it.
fn flow_to(placed: &[Placed], end: Option<Loc>, walks: &[Walked], l: SiteId) -> Option<u32>
    ensures { (edges : List AnyEdge) → AreWalked edges walks.now
        → IsTag (roots_of (heap_of placed.now) end) edges (site l.0) result }
{
    let mut lowest: Option<u32> = None;
    if is_root(placed, end, Loc::Site(l)) {
        lowest = Some(0);
    }
    for w in walks {
        if is_root(placed, end, w.root) {
            lowest = lesser(lowest, floored(&w.levels, Loc::Site(l)));
        }
    }
    lowest
}

/// Adds the number of a function's result, if it is there.
fn add_number(tags: &mut Vec<ResultTag>, j: u32, by: Option<u32>) -> Result<(), NoMemory>
    ensures { OnOk result (tags.new.items ≡ tags.old.items ++ listed j (by ∷ [])) }
{
    if let Some(by) = by {
        tags.push(ResultTag { result: j, by })?;
    }
    Ok(())
}

/// By how many dereferences at least a site flows to each result of a function.
fn tags_of_results(
    alloc: Global,
    program: &Program,
    placed: &[Placed],
    walks: &[Walked],
    f: FuncId,
    l: SiteId,
) -> Result<Vec<ResultTag>, NoMemory>
    ensures { IfOk result (λ v. (edges : List AnyEdge) → AreWalked edges walks.now
        → AreListed edges (site l.0) f.0 (results_of (program_of program.now) f.0) v.items) }
{
    let mut tags = Vec::new(alloc);
    for (place, which) in results_of(program, f).iter().enumerate() {
        let j = u32::try_from(place).map_err(|_| NoMemory)?;
        let by = flow_to(placed, Some(result_at(f, j, *which)), walks, l);
        add_number(&mut tags, j, by)?;
    }
    Ok(tags)
}

/// The tags of a parameter of a function; without a name it has none.
fn tags_of_param(
    alloc: Global,
    program: &Program,
    placed: &[Placed],
    walks: &[Walked],
    f: FuncId,
    param: Option<SiteId>,
) -> Result<ParamTags, NoMemory>
    ensures { IfOk result (λ t. (edges : List AnyEdge) → AreWalked edges walks.now
        → IsTaggedAt (program_of program.now) edges (heap_of placed.now) f.0 (option_map (λ x. x.0) param) (param_tags_of t)) }
{
    match param {
        None => Ok(ParamTags {
            heap: None,
            results: Vec::new(alloc),
        }),
        Some(l) => {
            let results = tags_of_results(alloc, program, placed, walks, f, l)?;
            Ok(ParamTags {
                heap: flow_to(placed, None, walks, l),
                results,
            })
        }
    }
}

/// The tags of the parameters of a function.
fn tags_of_function(
    alloc: Global,
    program: &Program,
    placed: &[Placed],
    walks: &[Walked],
    f: FuncId,
) -> Result<Vec<ParamTags>, NoMemory>
    ensures { IfOk result (λ v. (edges : List AnyEdge) → AreWalked edges walks.now
        → AreTagged (program_of program.now) edges (heap_of placed.now) f.0 (params_of (program_of program.now) f.0)
        (map param_tags_of v.items)) }
{
    let mut tags = Vec::new(alloc);
    for param in params_of(program, f) {
        tags.push(tags_of_param(alloc, program, placed, walks, f, *param)?)?;
    }
    Ok(tags)
}

/// Sets the tags of a batch's functions, by its walks. Errs where memory is refused, and then nothing is known of the tags.
pub fn set_tags(
    alloc: Global,
    program: &Program,
    placed: &[Placed],
    walks: &[Walked],
    batch: &[FuncId],
    tags: &mut Tags,
) -> Result<(), NoMemory>
    requires { All (λ f. f.0 < length (view_of tags.old)) batch.now }
    ensures size { OnOk result (length (view_of tags.new) ≡ length (view_of tags.old)) }
    ensures others { OnOk result ((g : ℕ) → is_own (numbers batch.now) g ≡ false
        → tags_of (view_of tags.new) g ≡ tags_of (view_of tags.old) g) }
    ensures tagged { OnOk result ((edges : List AnyEdge) → AreWalked edges walks.now → (f : AnyFunc) → Contains batch.now f
        → IsTagged (program_of program.now) edges (heap_of placed.now) (view_of tags.new) f.0) }
{
    for f in batch {
        tags.funcs[f.0 as usize] = tags_of_function(alloc, program, placed, walks, *f)?;
    }
    Ok(())
}
