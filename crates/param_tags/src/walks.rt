//! The walks of a batch.

ghost use Rattle.std.specs.Prelude.{◌≡◌, ◌∷◌, [], List, Some, negsuc, true, IfOk, OnOk, MatchBool};
ghost use Rattle.std.specs.List.{Contains};
ghost use Rattle.deref_walk.specs.declared.graph.Edge.{Edge as AnyEdge};
ghost use Rattle.deref_walk.specs.declared.loc.Loc.{Loc as AnyLoc};
ghost use Rattle.deref_walk.specs.Flow.{IsLeast};
ghost use Rattle.deref_walk.specs.Found.{IsWalked};
ghost use Rattle.param_tags.specs.Walks.{AreWalked, AreHolds, Adds, AddsWalk, IsFloor};
ghost use Rattle.param_tags.specs.declared.walks.Walked.{Walked as AnyWalked};

use base::{NoMemory, SiteId};
use deref_walk::{Edge, Graph, Levels, Loc, is_same, walk};
use std::alloc::Global;

/// A location that an edge goes to, and what flows to it.
#[derive(Drop)]
pub struct Walked {
    pub root: Loc,
    pub levels: Levels,
}

/// A location, and a site whose address it may hold.
#[derive(Clone, Copy, Debug, PartialEq, Eq)]
pub struct Hold {
    pub root: Loc,
    pub site: SiteId,
}

/// Whether there is a walk from a location.
fn has_walk(walks: &[Walked], root: Loc) -> bool
    ensures { result ≡ true → (w : AnyWalked) × Contains walks.now w × (w.root ≡ root) }
{
    for w in walks {
        if is_same(w.root, root) {
            return true;
        }
    }
    false
}

/// Adds the walk from a location, if it is not there yet.
fn add_walk(
    alloc: Global,
    graph: &Graph,
    walks: &mut Vec<Walked>,
    root: Loc,
) -> Result<(), NoMemory>
    ensures { OnOk result (AddsWalk graph.now.edges.items root walks.old.items walks.new.items) }
{
    if has_walk(walks, root) {
        return Ok(());
    }
    let levels = walk(alloc, graph, root)?;
    walks.push(Walked { root, levels })?;
    Ok(())
}

/// A walk from each location that an edge goes to.
pub fn walk_all(alloc: Global, graph: &Graph) -> Result<Vec<Walked>, NoMemory>
    ensures { IfOk result (λ v. AreWalked graph.now.edges.items v.items) }
{
    let mut walks = Vec::new(alloc);
    for edge in &graph.edges {
        add_walk(alloc, graph, &mut walks, edge.to)?;
    }
    Ok(walks)
}

/// Whether the root of a walk may hold the address of a location.
fn is_held(levels: &Levels, l: Loc) -> bool
    ensures { (edges : List AnyEdge) (root : AnyLoc) → IsWalked edges root levels.now.found.items
        → MatchBool result (IsLeast edges root l (Some (negsuc 0))) (IsLeast edges root l (Some (negsuc 0)) → ⊥) }
{
    match levels.least(l) {
        None => false,
        Some(n) => n == -1,
    }
}

/// By how many dereferences at least a location flows to the root of a walk, where its address counts as its value.
pub fn floored(levels: &Levels, l: Loc) -> Option<u32>
    ensures { (edges : List AnyEdge) (root : AnyLoc) → IsWalked edges root levels.now.found.items → IsFloor edges root l result }
{
    match levels.least(l) {
        None => None,
        Some(n) => Some(n.max(0) as u32),
    }
}

/// Adds the pair of a walk's root and the site that an edge comes from, if the root may hold its address.
fn add_hold(holds: &mut Vec<Hold>, w: &Walked, edge: &Edge) -> Result<(), NoMemory>
    ensures { OnOk result ((edges : List AnyEdge) → IsWalked edges w.now.root w.now.levels.found.items
        → Adds edges w.now.root (edge.now ∷ []) holds.old.items holds.new.items) }
{
    match edge.from {
        Loc::Site(x) => {
            if is_held(&w.levels, edge.from) {
                holds.push(Hold {
                    root: w.root,
                    site: x,
                })?;
            }
            Ok(())
        }
        _ => Ok(()),
    }
}

/// Adds the pairs of a walk.
fn add_holds(holds: &mut Vec<Hold>, w: &Walked, edges: &[Edge]) -> Result<(), NoMemory>
    ensures { OnOk result ((all : List AnyEdge) → IsWalked all w.now.root w.now.levels.found.items
        → Adds all w.now.root edges.now holds.old.items holds.new.items) }
{
    for edge in edges {
        add_hold(holds, w, edge)?;
    }
    Ok(())
}

/// Which locations may hold the address of which site, by the walks of a graph.
pub fn holds_of(alloc: Global, graph: &Graph, walks: &[Walked]) -> Result<Vec<Hold>, NoMemory>
    requires { AreWalked graph.now.edges.items walks.now }
    ensures { IfOk result (λ v. AreHolds graph.now.edges.items v.items) }
{
    let mut holds = Vec::new(alloc);
    for w in walks {
        add_holds(&mut holds, w, &graph.edges)?;
    }
    Ok(holds)
}
