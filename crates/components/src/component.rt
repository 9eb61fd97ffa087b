//! Components of nodes.

/// Nodes that reach one another.
#[derive(Drop)]
pub struct Component {
    pub nodes: Vec<u32>,
}

/// The components of a graph: each stands after those that it leads to.
#[derive(Drop)]
pub struct Components {
    pub components: Vec<Component>,
}
