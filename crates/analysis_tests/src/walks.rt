//! What no clause of `deref_walk` says: that memory is given where it is ample, and worked graphs.

use base::SiteId;
use deref_walk::{Edge, Graph, Levels, Loc, Step, walk};
use std::alloc::Global;
use std::test::Fail;

fn site(number: u32) -> Loc {
    Loc::Site(SiteId(number))
}

fn edge(to: u32, from: u32, weight: i32) -> Edge {
    Edge {
        to: site(to),
        from: site(from),
        weight,
    }
}

fn walked(alloc: Global, edges: Vec<Edge>) -> Result<Levels, Fail> {
    let graph = Graph::new(Vec::new(alloc), edges).ok_or("a weight is below -1")?;
    Ok(walk(alloc, &graph, site(0))?)
}

// The numbers of sites 0 to 5, where 9 stands for none.
fn numbers(levels: &Levels) -> [i32; 6] {
    [
        levels.least(site(0)).unwrap_or(9),
        levels.least(site(1)).unwrap_or(9),
        levels.least(site(2)).unwrap_or(9),
        levels.least(site(3)).unwrap_or(9),
        levels.least(site(4)).unwrap_or(9),
        levels.least(site(5)).unwrap_or(9),
    ]
}

#[test]
fn least_numbers(rt: HostRuntime) -> Result<(), Fail> {
    let alloc = rt.alloc();
    // 0 = &1; 1 = *2; 2 = &3; 1 = 4
    let edges = vec![in alloc;
        edge(0, 1, -1),
        edge(1, 2, 1),
        edge(2, 3, -1),
        edge(1, 4, 0),
    ]?;
    let levels = walked(alloc, edges)?;
    assert_eq!(rt; numbers(&levels), [0, -1, 1, 0, 0, 9]);
    assert_eq!(rt; levels.least(Loc::Heap), None);
    // 0.o = &1; 1.o = &0
    let edges = vec![in alloc; edge(0, 1, -1), edge(1, 0, -1)]?;
    assert_eq!(rt; numbers(&walked(alloc, edges)?), [-1, -1, 9, 9, 9, 9]);
    // The shorter of two ways, and one that is too far.
    let edges = vec![in alloc;
        edge(2, 3, 0),
        edge(0, 2, 7),
        edge(1, 3, 1),
        edge(0, 1, 2),
        edge(3, 4, 2000),
    ]?;
    assert_eq!(rt; numbers(&walked(alloc, edges)?), [0, 2, 7, 3, 1000, 9]);
    Ok(())
}

#[test]
fn paths(rt: HostRuntime) -> Result<(), Fail> {
    let alloc = rt.alloc();
    // 0 = *****1; 1 = &2; 2 = 1: each round lies one dereference nearer.
    let edges = vec![in alloc; edge(0, 1, 5), edge(1, 2, -1), edge(2, 1, 0)]?;
    let levels = walked(alloc, edges)?;
    assert_eq!(rt; numbers(&levels), [0, 0, -1, 9, 9, 9]);
    let steps = levels.path(alloc, site(2))?.ok_or("no path")?;
    let mut sums: Vec<i32> = Vec::new(alloc);
    for Step { sum, .. } in &steps {
        sums.push(*sum)?;
    }
    assert_eq!(rt;
        sums.as_slice(),
        [5, 4, 4, 3, 3, 2, 2, 1, 1, 0, 0, -1].as_slice()
    );
    assert!(rt; levels.path(alloc, site(0))?.ok_or("no path")?.is_empty());
    assert!(rt; levels.path(alloc, site(3))?.is_none());
    Ok(())
}
