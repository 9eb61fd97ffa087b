//! Reports of placements that `report_checks` takes, and its faults, on hand-made graphs.

use base::{FuncId, SiteId};
use deref_walk::{Edge, Graph, Loc, Location};
use report_checks::{
    Line, ReportFault, SiteLine, StepLine, TagFlow, TagLine, check_report, read_line,
};
use std::alloc::Global;
use std::test::Fail;
use value_flows::{Known, Placed};

fn site(number: u32) -> Loc {
    Loc::Site(SiteId(number))
}

// A location of function 0, at a depth.
fn at_depth(loc: Loc, depth: u32) -> Location {
    Location {
        loc,
        func: Some(FuncId(0)),
        depth,
        result: false,
    }
}

fn heap() -> Location {
    Location {
        loc: Loc::Heap,
        func: None,
        depth: 0,
        result: false,
    }
}

fn edge(to: Loc, from: Loc, weight: i32) -> Edge {
    Edge { to, from, weight }
}

fn graph(locations: Vec<Location>, edges: Vec<Edge>) -> Result<Graph, Fail> {
    Ok(Graph::new(locations, edges).ok_or("a weight is below -1")?)
}

// func f() *int { x := 5; return &x }
fn returned(alloc: Global) -> Result<Graph, Fail> {
    let result = Loc::Result(FuncId(0), 0);
    let locations = vec![in alloc; heap(), at_depth(site(0), 0), at_depth(result, 0)]?;
    graph(locations, vec![in alloc; edge(result, site(0), -1)]?)
}

// func set(q **int, r *int) { *q = r }
// func main() { var p *int; x := 3; set(&p, &x); println(*p) }
fn stored(alloc: Global) -> Result<Graph, Fail> {
    let locations = vec![in alloc;
        heap(),
        at_depth(site(0), 0),
        at_depth(site(1), 0),
        at_depth(site(2), 0),
        at_depth(site(3), 0),
    ]?;
    graph(
        locations,
        vec![in alloc; edge(Loc::Heap, site(1), 0), edge(Loc::Heap, site(3), -1)]?,
    )
}

// var p *int; for { x := 1; p = &x }, where 0 is p and 1 is x
fn in_loop(alloc: Global) -> Result<Graph, Fail> {
    let locations = vec![in alloc; at_depth(site(0), 0), at_depth(site(1), 1)]?;
    graph(locations, vec![in alloc; edge(site(0), site(1), -1)]?)
}

// 0 = *1; 1 = &2; 2 = &3; 3 = &1: sites of one depth, of which 0 is a result with a name
fn chained(alloc: Global) -> Result<Graph, Fail> {
    let named = Location {
        loc: site(0),
        func: Some(FuncId(0)),
        depth: 0,
        result: true,
    };
    let locations = vec![in alloc;
        named,
        at_depth(site(1), 0),
        at_depth(site(2), 0),
        at_depth(site(3), 0),
    ]?;
    let edges = vec![in alloc;
        edge(site(0), site(1), 1),
        edge(site(1), site(2), -1),
        edge(site(2), site(3), -1),
        edge(site(3), site(1), -1),
    ]?;
    graph(locations, edges)
}

fn fault(report: &[u8], graph: &Graph) -> Option<ReportFault> {
    match check_report(report, graph) {
        Ok(()) => None,
        Err(fault) => Some(fault),
    }
}

#[test]
fn a_returned_address(rt: HostRuntime) -> Result<(), Fail> {
    let rows: [(&[u8], Option<ReportFault>); 23] = [
        (
            b"site 0 2:17 x heap flow f0.r0\nstep f0.r0 s0 -1 -1\n",
            None,
        ),
        (b"site 0 2:17 x stack\n", None),
        (b"site 0 2:17 x heap package\n", None),
        (b"site 0 4294967295:0 !@# heap unknown\n", None),
        (b"", Some(ReportFault::SiteMissing(SiteId(0)))),
        (b"tag 0 0 none\n", Some(ReportFault::SiteMissing(SiteId(0)))),
        // The form of a line.
        (b"\n", Some(ReportFault::BadLine(1))),
        (b"site 0 2:17 x stack", Some(ReportFault::BadLine(1))),
        (b"site 0 2:17 x heap\n", Some(ReportFault::BadLine(1))),
        (b"site 0 2:17  stack\n", Some(ReportFault::BadLine(1))),
        (b"site 00 2:17 x stack\n", Some(ReportFault::BadLine(1))),
        (
            b"site 0 4294967296:1 x stack\n",
            Some(ReportFault::BadLine(1)),
        ),
        // Its order.
        (b"site 1 2:17 x stack\n", Some(ReportFault::BadLine(1))),
        (b"step f0.r0 s0 -1 -1\n", Some(ReportFault::BadLine(1))),
        (
            b"site 0 2:17 x stack\nsite 0 2:17 x stack\n",
            Some(ReportFault::BadLine(2)),
        ),
        (
            b"site 0 2:17 x heap flow f9.r0\n",
            Some(ReportFault::BadLine(1)),
        ),
        (
            b"site 0 2:17 x heap flow f0.r0\ntag 0 0 none\n",
            Some(ReportFault::BadLine(2)),
        ),
        // Its path.
        (
            b"site 0 2:17 x heap flow f0.r0\nstep heap s0 -1 -1\n",
            Some(ReportFault::BadLine(2)),
        ),
        (
            b"site 0 2:17 x heap flow f0.r0\nstep f0.r0 heap -1 -1\n",
            Some(ReportFault::BadLine(2)),
        ),
        (
            b"site 0 2:17 x heap flow heap\nstep heap s0 -1 -1\n",
            Some(ReportFault::NoSuchEdge(2)),
        ),
        (
            b"site 0 2:17 x heap flow f0.r0\nstep f0.r0 s0 0 -1\n",
            Some(ReportFault::NoSuchEdge(2)),
        ),
        (
            b"site 0 2:17 x heap flow f0.r0\nstep f0.r0 s0 -1 0\n",
            Some(ReportFault::WrongSum(2)),
        ),
        (
            b"site 0 2:17 x heap flow f9.r0\nstep f9.r0 s0 -1 -1\n",
            Some(ReportFault::NotOutliving(1)),
        ),
    ];
    let graph = returned(rt.alloc())?;
    for (i, (report, expected)) in rows.iter().enumerate() {
        assert_eq!(rt; fault(report, &graph), *expected, "row {i}");
    }
    Ok(())
}

#[test]
fn tags(rt: HostRuntime) -> Result<(), Fail> {
    // What stands behind the line of the only site.
    let rows: [(&[u8], Option<ReportFault>); 8] = [
        (
            b"site 0 1:1 x stack\ntag 0 0 heap 0\ntag 0 0 result 0 1\ntag 0 0 result 2 0\ntag 0 1 none\ntag 3 0 heap 1000\n",
            None,
        ),
        (
            b"site 0 1:1 x stack\ntag 0 0 none\ntag 0 0 none\n",
            Some(ReportFault::BadLine(3)),
        ),
        (
            b"site 0 1:1 x stack\ntag 0 0 none\ntag 0 0 heap 1\n",
            Some(ReportFault::BadLine(3)),
        ),
        (
            b"site 0 1:1 x stack\ntag 0 0 heap 1\ntag 0 0 none\n",
            Some(ReportFault::BadLine(3)),
        ),
        (
            b"site 0 1:1 x stack\ntag 0 0 result 1 0\ntag 0 0 result 1 1\n",
            Some(ReportFault::BadLine(3)),
        ),
        (
            b"site 0 1:1 x stack\ntag 0 0 result 1 0\ntag 0 0 heap 0\n",
            Some(ReportFault::BadLine(3)),
        ),
        (
            b"site 0 1:1 x stack\ntag 1 0 none\ntag 0 5 none\n",
            Some(ReportFault::BadLine(3)),
        ),
        (
            b"tag 0 0 none\nsite 0 1:1 x stack\n",
            Some(ReportFault::BadLine(2)),
        ),
    ];
    let graph = returned(rt.alloc())?;
    for (i, (report, expected)) in rows.iter().enumerate() {
        assert_eq!(rt; fault(report, &graph), *expected, "row {i}");
    }
    Ok(())
}

#[test]
fn a_stored_address(rt: HostRuntime) -> Result<(), Fail> {
    let graph = stored(rt.alloc())?;
    let report =
        b"site 0 2:10 q stack\nsite 1 2:19 r stack\nsite 2 3:19 p stack\nsite 3 3:27 x heap flow heap\nstep heap s3 -1 -1\ntag 0 0 none\ntag 0 1 heap 0\n";
    assert_eq!(rt; fault(report, &graph), None);
    let report = b"site 1 2:19 r stack\nsite 3 3:27 x heap flow heap\nstep heap s3 -1 -1\n";
    assert_eq!(rt;
        fault(report, &graph),
        Some(ReportFault::SiteMissing(SiteId(0)))
    );
    let report = b"site 0 2:10 q stack\nsite 1 2:19 r stack\nsite 3 3:27 x stack\n";
    assert_eq!(rt;
        fault(report, &graph),
        Some(ReportFault::SiteMissing(SiteId(2)))
    );
    let report = b"site 1 2:19 r stack\nsite 0 2:10 q stack\n";
    assert_eq!(rt; fault(report, &graph), Some(ReportFault::BadLine(2)));
    Ok(())
}

#[test]
fn depths(rt: HostRuntime) -> Result<(), Fail> {
    let graph = in_loop(rt.alloc())?;
    let report = b"site 0 3:5 p stack\nsite 1 4:5 i heap flow s0\nstep s0 s1 -1 -1\n";
    assert_eq!(rt; fault(report, &graph), None);
    let report = b"site 0 3:5 p heap flow s1\nstep s1 s0 -1 -1\nsite 1 4:5 i stack\n";
    assert_eq!(rt; fault(report, &graph), Some(ReportFault::NotOutliving(1)));
    // What the report puts on the heap is a root, even its own.
    let report = b"site 0 3:5 p stack\nsite 1 4:5 i heap flow s1\nstep s1 s1 -1 -1\n";
    assert_eq!(rt; fault(report, &graph), Some(ReportFault::NoSuchEdge(3)));
    let report = b"site 0 3:5 p stack\nsite 1 4:5 i heap flow c0\nstep c0 s1 -1 -1\n";
    assert_eq!(rt; fault(report, &graph), Some(ReportFault::NotOutliving(2)));
    Ok(())
}

#[test]
fn paths_and_roots(rt: HostRuntime) -> Result<(), Fail> {
    let rows: [(&[u8], Option<ReportFault>); 6] = [
        // A path of three steps from a result with a name.
        (
            b"site 0 1:1 r stack\nsite 1 1:2 a stack\nsite 2 1:3 b stack\nsite 3 1:4 c heap flow s0\nstep s0 s1 1 1\nstep s1 s2 -1 0\nstep s2 s3 -1 -1\n",
            None,
        ),
        (
            b"site 0 1:1 r stack\nsite 1 1:2 a stack\nsite 2 1:3 b heap flow s0\nstep s0 s1 1 1\nstep s1 s2 -1 0\n",
            Some(ReportFault::WrongSum(5)),
        ),
        (
            b"site 0 1:1 r stack\nsite 1 1:2 a stack\nsite 2 1:3 b stack\nsite 3 1:4 c heap flow s0\nstep s0 s1 1 1\nstep s1 s2 -1 0\n",
            Some(ReportFault::BadLine(6)),
        ),
        // A root that the report itself puts on the heap, or not.
        (
            b"site 0 1:1 r stack\nsite 1 1:2 a stack\nsite 2 1:3 b heap size\nsite 3 1:4 c heap flow s2\nstep s2 s3 -1 -1\n",
            None,
        ),
        (
            b"site 0 1:1 r stack\nsite 1 1:2 a stack\nsite 2 1:3 b stack\nsite 3 1:4 c heap flow s2\nstep s2 s3 -1 -1\n",
            Some(ReportFault::NotOutliving(4)),
        ),
        // The same, on a later line.
        (
            b"site 0 1:1 r stack\nsite 1 1:2 a heap flow s3\nstep s3 s1 -1 -1\nsite 2 1:3 b stack\nsite 3 1:4 c heap size\n",
            None,
        ),
    ];
    let graph = chained(rt.alloc())?;
    for (i, (report, expected)) in rows.iter().enumerate() {
        assert_eq!(rt; fault(report, &graph), *expected, "row {i}");
    }
    Ok(())
}

#[test]
fn lines(rt: HostRuntime) -> Result<(), Fail> {
    let line = SiteLine {
        site: SiteId(7),
        line: 3,
        col: 15,
        placed: Placed::Known(Known::Size),
    };
    assert_eq!(rt;
        read_line(b"site 7 3:15 x heap size"),
        Some(Line::Site(line))
    );
    let step = StepLine {
        to: Loc::Result(FuncId(2), 1),
        from: Loc::Carry(SiteId(9)),
        weight: -1,
        sum: 1000,
    };
    assert_eq!(rt; read_line(b"step f2.r1 c9 -1 1000"), Some(Line::Step(step)));
    let tag = TagLine {
        func: FuncId(0),
        param: 1,
        flow: TagFlow::Result(2, 3),
    };
    assert_eq!(rt; read_line(b"tag 0 1 result 2 3"), Some(Line::Tag(tag)));
    // One spelling for each line.
    let refused: [&[u8]; 7] = [
        b"step s0 s1 -0 0",
        b"step s0 s1 +1 0",
        b"step s0 s1 1 2147483648",
        b"step s0 s01 1 0",
        b"step s0  s1 1 0",
        b"tag 0 1 nowhere",
        b"Tag 0 1 none",
    ];
    for (i, text) in refused.iter().enumerate() {
        assert!(rt; read_line(text).is_none(), "row {i}");
    }
    Ok(())
}
