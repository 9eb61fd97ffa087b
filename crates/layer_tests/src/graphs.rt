//! What no clause of `components` says: that memory is given where it is ample, and worked graphs.

use components::strong_components;
use std::alloc::Global;
use std::test::Fail;

// A row of a graph.
fn row(alloc: Global, ends: &[u32]) -> Result<Vec<u32>, Fail> {
    Ok(Vec::from_slice(alloc, ends)?)
}

#[test]
fn worked_graphs(rt: HostRuntime) -> Result<(), Fail> {
    let alloc = rt.alloc();
    let none: Vec<Vec<u32>> = Vec::new(alloc);
    assert!(rt; strong_components(alloc, &none)?.components.is_empty());
    // 0 and 1 reach each other and lead to 2 and 3, which do too; 4 has an edge to itself; 5 leads nowhere, since 9 is no node.
    let edges = vec![in alloc;
        row(alloc, &[1])?,
        row(alloc, &[0, 2, 2])?,
        row(alloc, &[3])?,
        row(alloc, &[2])?,
        row(alloc, &[5, 4])?,
        row(alloc, &[9])?,
    ]?;
    let found = strong_components(alloc, &edges)?;
    let mut sizes: Vec<usize> = Vec::new(alloc);
    for component in &found.components {
        sizes.push(component.nodes.len())?;
    }
    assert_eq!(rt; sizes.as_slice(), [2, 2, 1, 1].as_slice());
    let first = found.components.first().ok_or("no component")?;
    assert!(rt; first.nodes.contains(&2) && first.nodes.contains(&3));
    Ok(())
}

// Each node of a long chain leads to the next one.
#[test]
fn a_long_chain(rt: HostRuntime) -> Result<(), Fail> {
    let alloc = rt.alloc();
    let mut edges: Vec<Vec<u32>> = Vec::new(alloc);
    for k in 1..200_001 {
        edges.push(row(alloc, &[k])?)?;
    }
    assert_eq!(rt; strong_components(alloc, &edges)?.components.len(), 200_000);
    edges.push(row(alloc, &[0])?)?;
    assert_eq!(rt; strong_components(alloc, &edges)?.components.len(), 1);
    Ok(())
}
