//! The walk.

ghost use Rattle.std.specs.Prelude.{◌≡◌, ◌<◌, pos, negsuc, ◌≤ℤ◌, List, [], ◌∷◌, length, slice_get, Some, IfOk, OnOk};
ghost use Rattle.std.specs.List.{Contains};
ghost use Rattle.deref_walk.specs.Flow.{farthest, number_after};
ghost use Rattle.deref_walk.specs.Weights.{AreWeights};
ghost use Rattle.deref_walk.specs.Found.{IsLowest, IsWalked, IsKept, IsLook};
ghost use Rattle.deref_walk.specs.declared.found.Way.TheVariants.{Along};
ghost use Rattle.deref_walk.specs.declared.found.Found.{Found as AnyFound};
ghost use Rattle.deref_walk.specs.declared.graph.Edge.{Edge as AnyEdge};

use crate::found::{Found, Way, is_at_most, lowest};
use crate::graph::{Edge, Graph};
use crate::levels::Levels;
use crate::loc::Loc;
use base::NoMemory;
use std::alloc::Global;

/// What lies further away counts as lying this far away.
const FARTHEST: i64 = 1000;

/// The number after an edge of this weight, at whose near end the number is `near`.
pub fn number_after(near: i32, weight: i32) -> i32
    ensures { result ≡ number_after near weight }
{
    let sum = i64::from(near.max(0)) + i64::from(weight);
    sum.min(FARTHEST) as i32
}

/// The number at the far end of an edge, from what is found at its near end.
fn far_number(near: &Found, edge: &Edge) -> i32
    ensures { result ≡ number_after near.now.number edge.now.weight }
{
    number_after(near.number, edge.weight)
}

/// What is found at the far end of an edge, from the entry that stands at a place.
fn far_end(found: &[Found], before: usize, edge: &Edge) -> Found
    requires within { before < length found.now }
    requires weight { negsuc 0 ≤ℤ edge.now.weight }
    ensures loc { result.loc ≡ edge.now.from }
    ensures way { result.way ≡ Along before edge.now.weight }
    ensures number { (g : AnyFound) → slice_get found.now before ≡ Some g → result.number ≡ number_after g.number edge.now.weight }
    ensures low { negsuc 0 ≤ℤ result.number }
    ensures high { result.number ≤ℤ pos farthest }
{
    Found {
        loc: edge.from,
        number: far_number(&found[before], edge),
        way: Way::Along(before, edge.weight),
    }
}

/// Looks at an edge to the location of an entry that has its least number: where the number at the far end falls, that is noted, and
/// true is answered.
fn look_from(levels: &mut Levels, edge: &Edge, before: usize) -> Result<bool, NoMemory>
    requires lowest { IsLowest levels.old.found.items edge.now.to (Some before) }
    requires weight { negsuc 0 ≤ℤ edge.now.weight }
    ensures kept { OnOk result ((edges : List AnyEdge) → Contains edges edge.now
        → IsKept edges levels.old.found.items levels.new.found.items) }
    ensures fell { IfOk result (λ fell. (edges : List AnyEdge) → Contains edges edge.now
        → IsLook edges (edge.now ∷ []) levels.old.found.items levels.new.found.items fell) }
{
    let entry = far_end(&levels.found, before, edge);
    if is_at_most(&levels.found, lowest(&levels.found, edge.from), &entry) {
        return Ok(false);
    }
    levels.found.push(entry)?;
    Ok(true)
}

/// Looks at an edge.
fn look(levels: &mut Levels, edge: &Edge) -> Result<bool, NoMemory>
    requires { negsuc 0 ≤ℤ edge.now.weight }
    ensures kept { OnOk result ((edges : List AnyEdge) → Contains edges edge.now
        → IsKept edges levels.old.found.items levels.new.found.items) }
    ensures fell { IfOk result (λ fell. (edges : List AnyEdge) → Contains edges edge.now
        → IsLook edges (edge.now ∷ []) levels.old.found.items levels.new.found.items fell) }
{
    match lowest(&levels.found, edge.to) {
        None => Ok(false),
        Some(before) => look_from(levels, edge, before),
    }
}

/// Looks at all edges: whether a number fell.
fn look_at_all(levels: &mut Levels, edges: &[Edge]) -> Result<bool, NoMemory>
    requires { AreWeights edges.now }
    ensures kept { OnOk result (IsKept edges.now levels.old.found.items levels.new.found.items) }
    ensures fell { IfOk result (λ fell. IsLook edges.now edges.now levels.old.found.items levels.new.found.items fell) }
{
    let mut fell = false;
    for edge in edges {
        if look(levels, edge)? {
            fell = true;
        }
    }
    Ok(fell)
}

/// What may flow to a root, and by how many dereferences at least.
pub fn walk(alloc: Global, graph: &Graph, root: Loc) -> Result<Levels, NoMemory>
    ensures { IfOk result (λ v. IsWalked graph.now.edges.items root v.found.items) }
{
    let mut levels = Levels {
        found: vec![in alloc;
            Found {
                loc: root,
                number: 0,
                way: Way::Itself
            },
        ]?,
    };
    loop {
        if !look_at_all(&mut levels, &graph.edges)? {
            return Ok(levels);
        }
    }
}
