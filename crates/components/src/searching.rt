//! The search.

ghost use Rattle.std.specs.Prelude.{◌≡◌, ◌<◌, ◌+◌, ℕ, List, [], ◌∷◌, ◌++◌, length, IfOk, OnOk};
ghost use Rattle.components.specs.Graph.{rows};
ghost use Rattle.components.specs.Components.{AreComponents, component_lists};
ghost use Rattle.components.specs.Search.{search_of, IsSound, IsTaken, IsStep, IsSearched, measure};

use crate::component::Components;
use crate::path::{Edge, Place, Search, close, enter, is_new, join, next_edge, place_of};
use base::NoMemory;
use std::alloc::Global;

/// Follows an edge from the last group.
fn follow(edges: &[Vec<u32>], search: &mut Search, edge: Edge) -> Result<(), NoMemory>
    requires { IsTaken (rows edges.now) (search_of search.old) edge }
    ensures { OnOk result (IsStep (rows edges.now) (search_of search.old) (search_of search.new)
        (measure (rows edges.now) (search_of search.old) + 1)) }
{
    match place_of(&search.places, edge.to) {
        Place::Placed => Ok(()),
        Place::New => enter(edges, search, edge.to),
        Place::OnPath(place) => {
            join(&mut search.starts, place);
            Ok(())
        }
    }
}

/// Follows an edge that leaves the last group, or, where there is none, makes the group a component.
fn step(
    alloc: Global,
    edges: &[Vec<u32>],
    search: &mut Search,
    first: usize,
) -> Result<(), NoMemory>
    requires sound { IsSound (rows edges.now) (search_of search.old) }
    requires last { (rest : List ℕ) × (search.old.starts.items ≡ rest ++ first ∷ []) }
    ensures { OnOk result (IsStep (rows edges.now) (search_of search.old) (search_of search.new)
        (measure (rows edges.now) (search_of search.old))) }
{
    match next_edge(&mut search.ahead, first) {
        Some(edge) => follow(edges, search, edge),
        None => close(alloc, search, first),
    }
}

/// Finds the components of a node and of all that it reaches.
fn search_from(
    alloc: Global,
    edges: &[Vec<u32>],
    search: &mut Search,
    node: u32,
) -> Result<(), NoMemory>
    requires sound { IsSound (rows edges.now) (search_of search.old) }
    requires begin { search.old.path.items ≡ [] }
    requires node { node < length edges.now }
    ensures { OnOk result (IsSearched (rows edges.now) (search_of search.old) (search_of search.new) node) }
{
    if is_new(&search.places, node) {
        enter(edges, search, node)?;
    }
    while let Some(first) = search.starts.last().copied() {
        step(alloc, edges, search, first)?;
    }
    Ok(())
}

/// The strongly connected components of a graph, in which `edges[k]` lists the ends of node k's edges. A number that is no node's
/// counts for nothing. More nodes than can have numbers count as want of memory.
pub fn strong_components(alloc: Global, edges: &[Vec<u32>]) -> Result<Components, NoMemory>
    ensures { IfOk result (λ r. AreComponents (rows edges.now) (component_lists r.components.items)) }
{
    let count = u32::try_from(edges.len()).map_err(|_| NoMemory)?;
    let mut search = Search {
        places: vec![in alloc; Place::New; edges.len()]?,
        path: Vec::new(alloc),
        starts: Vec::new(alloc),
        ahead: Vec::new(alloc),
        components: Vec::new(alloc),
    };
    for node in 0..count {
        search_from(alloc, edges, &mut search, node)?;
    }
    Ok(Components {
        components: search.components,
    })
}
