//! Locations and the edges between them.

ghost use Rattle.std.specs.Prelude.{IsTrue, IsFalse, negsuc, ◌<ℤ◌, ◌≤ℤ◌};
ghost use Rattle.deref_walk.specs.Weights.{AreWeights};

use crate::loc::Loc;
use base::FuncId;

/// An assignment: where the value goes to, where it comes from, and the number of dereferences between them, at least -1, which
/// stands for taking the address.
#[derive(Clone, Copy, Debug, PartialEq, Eq)]
pub struct Edge {
    pub to: Loc,
    pub from: Loc,
    pub weight: i32,
}

/// A location of a graph: the function that it lies in, if it lies in one, how many loops are around it, and whether it is a result
/// of its function. A result with a name is a site, so that its location doesn't tell.
#[derive(Clone, Copy, Debug, PartialEq, Eq)]
pub struct Location {
    pub loc: Loc,
    pub func: Option<FuncId>,
    pub depth: u32,
    pub result: bool,
}

/// The locations and the edges between them; no weight is below -1.
#[derive(Drop)]
pub struct Graph {
    pub locations: Vec<Location>,
    pub edges: Vec<Edge>,
    ghost weights: { AreWeights edges.items },
}

/// Whether the weight of an edge is below -1.
fn is_low(edge: &Edge) -> bool
    ensures low { IsTrue result → edge.now.weight <ℤ negsuc 0 }
    ensures high { IsFalse result → negsuc 0 ≤ℤ edge.now.weight }
{
    edge.weight < -1
}

impl Graph {
    ghost use Rattle.std.specs.Prelude.{◌≡◌, IfSome, IsNone};

    /// The graph with these locations and edges; nothing where a weight is below -1.
    pub fn new(locations: Vec<Location>, edges: Vec<Edge>) -> Option<Graph>
        ensures made { IfSome result (λ g. (g.locations ≡ locations) × (g.edges ≡ edges)) }
        ensures refused { IsNone result → AreWeights edges.items → ⊥ }
    {
        for edge in &edges {
            if is_low(edge) {
                return None;
            }
        }
        Some(Graph { locations, edges })
    }
}
