//! The path of the search, and the edges that it has still to follow.

ghost use Rattle.std.specs.Prelude.{◌≡◌, ◌<◌, ◌≤◌, ℕ, List, [], ◌∷◌, ◌++◌, length, slice_index_or, OnOk, IsTrue, ◌↔◌};
ghost use Rattle.components.specs.declared.path.Place.TheVariants.{New, Placed};
ghost use Rattle.components.specs.Graph.{Among, rows};
ghost use Rattle.components.specs.Search.{search_of, leaving, entered, set_all, closed, Rises, IsJoined, IsNext};

use crate::component::Component;
use base::NoMemory;
use std::alloc::Global;

/// Where a node is.
#[derive(Clone, Copy, Debug, PartialEq, Eq)]
pub enum Place {
    /// The search has not come to it.
    New,
    /// At this place of the path.
    OnPath(usize),
    /// In a component.
    Placed,
}

/// An edge from the node at a place of the path.
#[derive(Clone, Copy, Debug, PartialEq, Eq)]
pub struct Edge {
    pub from: usize,
    pub to: u32,
}

/// A search: where each node is, the nodes of the path, the places of the path where its groups begin, the edges that are still
/// to be followed, and the components that have been found.
#[derive(Drop)]
pub struct Search {
    pub places: Vec<Place>,
    pub path: Vec<u32>,
    pub starts: Vec<usize>,
    pub ahead: Vec<Edge>,
    pub components: Vec<Component>,
}

/// Where a node is. A number that is no node's counts as placed, so that nothing is done about it.
pub fn place_of(places: &[Place], node: u32) -> Place
    ensures { result ≡ slice_index_or places.now node Placed }
{
    places.get(node as usize).copied().unwrap_or(Place::Placed)
}

/// Whether the search has not come to a node.
pub fn is_new(places: &[Place], node: u32) -> bool
    ensures { IsTrue result ↔ (slice_index_or places.now node Placed ≡ New) }
{
    place_of(places, node) == Place::New
}

/// Puts the edges of the node at a place of the path ahead.
fn leave(ahead: &mut Vec<Edge>, from: usize, row: &[u32]) -> Result<(), NoMemory>
    ensures { OnOk result (ahead.new.items ≡ ahead.old.items ++ leaving from row.now) }
{
    for to in row {
        ahead.push(Edge { from, to: *to })?;
    }
    Ok(())
}

/// Puts a new node on the path, as a group of its own.
pub fn enter(edges: &[Vec<u32>], search: &mut Search, node: u32) -> Result<(), NoMemory>
    requires edges { node < length edges.now }
    requires places { node < length search.old.places.items }
    ensures { OnOk result (search_of search.new ≡ entered (rows edges.now) (search_of search.old) node) }
{
    let place = search.path.len();
    search.places[node as usize] = Place::OnPath(place);
    search.starts.push(place)?;
    search.path.push(node)?;
    leave(&mut search.ahead, place, &edges[node as usize])
}

/// Joins the groups that begin after a place of the path to the group that has it.
pub fn join(starts: &mut Vec<usize>, place: usize)
    requires { Rises starts.old.items }
    ensures { IsJoined starts.old.items place starts.new.items }
{
    while let Some(start) = starts.last().copied() {
        if start <= place {
            return;
        }
        starts.pop();
    }
}

/// The last edge ahead, if it leaves the group that begins at a place of the path.
pub fn next_edge(ahead: &mut Vec<Edge>, first: usize) -> Option<Edge>
    ensures { IsNext ahead.old.items first ahead.new.items result }
{
    match ahead.last().copied() {
        Some(edge) if edge.from >= first => ahead.pop(),
        _ => None,
    }
}

/// Marks nodes as placed.
fn place_all(places: &mut [Place], nodes: &[u32])
    requires { (k : ℕ) → Among k nodes.now → k < length places.old }
    ensures { places.new ≡ set_all Placed places.old nodes.now }
{
    for node in nodes {
        places[*node as usize] = Place::Placed;
    }
}

/// Makes the last group, which begins at a place of the path, a component.
pub fn close(alloc: Global, search: &mut Search, first: usize) -> Result<(), NoMemory>
    requires first { first ≤ length search.old.path.items }
    requires nodes { (k : ℕ) → Among k search.old.path.items → k < length search.old.places.items }
    ensures { OnOk result ((rest : List ℕ) → search.old.starts.items ≡ rest ++ first ∷ []
        → search_of search.new ≡ closed (search_of search.old) rest first) }
{
    let nodes = Vec::from_slice(alloc, &search.path[first..])?;
    place_all(&mut search.places, &nodes);
    search.path.truncate(first);
    search.starts.pop();
    search.components.push(Component { nodes })?;
    Ok(())
}
