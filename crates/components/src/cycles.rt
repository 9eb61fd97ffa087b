//! Which nodes are on cycles.

ghost use Rattle.std.specs.Prelude.{◌≡◌, ◌<◌, ℕ, length, IfOk, IsTrue, ◌↔◌, true};
ghost use Rattle.components.specs.Graph.{Among, row, rows};
ghost use Rattle.components.specs.Components.{AreComponents, AreOnCycles, component_lists};
ghost use Rattle.components.specs.Cycles.{HasCycle};
ghost use Rattle.components.specs.Search.{set_all};

use crate::component::{Component, Components};
use base::NoMemory;
use std::alloc::Global;

/// Whether a node has an edge to itself.
fn has_loop(edges: &[Vec<u32>], node: u32) -> bool
    requires { node < length edges.now }
    ensures { IsTrue result ↔ Among node (row (rows edges.now) node) }
{
    edges[node as usize].contains(&node)
}

/// Whether the nodes of a component are on cycles: there are several, or the only one has an edge to itself.
fn has_cycle(edges: &[Vec<u32>], component: &Component) -> bool
    requires { (k : ℕ) → Among k component.now.nodes.items → k < length edges.now }
    ensures { IsTrue result ↔ HasCycle (rows edges.now) component.now.nodes.items }
{
    match component.nodes.as_slice() {
        [] => false,
        [node] => has_loop(edges, *node),
        _ => true,
    }
}

/// Marks nodes.
fn mark_all(marks: &mut [bool], nodes: &[u32])
    requires { (k : ℕ) → Among k nodes.now → k < length marks.old }
    ensures { marks.new ≡ set_all true marks.old nodes.now }
{
    for node in nodes {
        marks[*node as usize] = true;
    }
}

impl Components {
    /// Whether each node is on a cycle.
    pub fn on_cycles(&self, alloc: Global, edges: &[Vec<u32>]) -> Result<Vec<bool>, NoMemory>
        requires { AreComponents (rows edges.now) (component_lists self.now.components.items) }
        ensures { IfOk result (λ v. AreOnCycles (rows edges.now) v.items) }
    {
        let mut on_cycles = vec![in alloc; false; edges.len()]?;
        for component in &self.components {
            if has_cycle(edges, component) {
                mark_all(&mut on_cycles, &component.nodes);
            }
        }
        Ok(on_cycles)
    }
}
