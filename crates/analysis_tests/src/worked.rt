//! Worked programs.

use crate::building::{
    address, behind, call, discard, func, give, local, number, placed, result, site, solved,
    variable,
};
use base::{FuncId, NoMemory, SiteId};
use deref_walk::Loc;
use escape_placement::place;
use param_tags::Solved;
use std::alloc::Global;
use std::test::Fail;
use value_flows::{Act, Placed, Program, ResultTag, Site, Value, Values};

// The tag of a parameter to the heap, and to the only result of its function.
fn tags(solved: &Solved, func: usize, param: usize) -> (Option<u32>, Option<u32>) {
    let Some(params) = solved.tags.funcs.get(func) else {
        return (None, None);
    };
    let Some(tags) = params.get(param) else {
        return (None, None);
    };
    (tags.heap, tags.results.first().map(|t: &ResultTag| t.by))
}

// var p [3]*int; for i := 0; i < 3; i++ { p[i] = &i }
fn looped(alloc: Global) -> Result<Program, NoMemory> {
    let header = Site {
        carried: true,
        ..local(0, 1)
    };
    let body = vec![in alloc; give(alloc, address(1), site(0))?]?;
    Ok(Program {
        funcs: vec![in alloc; func(alloc, (0, 2), 0, 0, body)?]?,
        sites: vec![in alloc; local(0, 0), header]?,
    })
}

// type N struct { o *N }; for i := 0; i < 2; i++ { var a, b N; a.o = &b; b.o = &a }
fn pair(alloc: Global) -> Result<Program, NoMemory> {
    let body = vec![in alloc;
        give(alloc, address(2), site(1))?,
        give(alloc, address(1), site(2))?,
    ]?;
    Ok(Program {
        funcs: vec![in alloc; func(alloc, (0, 3), 0, 0, body)?]?,
        sites: vec![in alloc; local(0, 1), local(0, 1), local(0, 1)]?,
    })
}

// func f() *int { x := 5; return &x }
// func main() { println(*f()) }
pub fn returned(alloc: Global) -> Result<Program, NoMemory> {
    let f = vec![in alloc; give(alloc, address(0), result(0))?]?;
    let called = call(alloc, 0, Vec::new(alloc))?;
    let main = vec![in alloc; discard(alloc, behind(alloc, called)?)?]?;
    Ok(Program {
        funcs: vec![in alloc;
            func(alloc, (0, 1), 0, 1, f)?,
            func(alloc, (1, 0), 0, 0, main)?,
        ]?,
        sites: vec![in alloc; local(0, 0)]?,
    })
}

// func id(p *int) *int { return p }
// func main() { x := 1; println(*id(&x)) }
pub fn handed_back(alloc: Global) -> Result<Program, NoMemory> {
    let id = vec![in alloc; give(alloc, variable(0), result(0))?]?;
    let called = call(alloc, 0, vec![in alloc; address(1)]?)?;
    let main = vec![in alloc; discard(alloc, behind(alloc, called)?)?]?;
    Ok(Program {
        funcs: vec![in alloc;
            func(alloc, (0, 1), 1, 1, id)?,
            func(alloc, (1, 1), 0, 0, main)?,
        ]?,
        sites: vec![in alloc; local(0, 0), local(1, 0)]?,
    })
}

// func set(q **int, r *int) { *q = r }
// func main() { var p *int; x := 3; set(&p, &x); println(*p) }
pub fn stored(alloc: Global) -> Result<Program, NoMemory> {
    let set = vec![in alloc; give(alloc, variable(1), Loc::Heap)?]?;
    let arguments = vec![in alloc; address(2), address(3)]?;
    let called = Values::Results(FuncId(0), Box::new(alloc, Values::Each(arguments))?);
    let main = vec![in alloc;
        Act::Give(called, Vec::new(alloc)),
        discard(alloc, behind(alloc, variable(2))?)?,
    ]?;
    Ok(Program {
        funcs: vec![in alloc;
            func(alloc, (0, 2), 2, 0, set)?,
            func(alloc, (2, 2), 0, 0, main)?,
        ]?,
        sites: vec![in alloc; local(0, 0), local(0, 0), local(1, 0), local(1, 0)]?,
    })
}

// A call of one of the two functions below with a number and an address.
fn turn(alloc: Global, func: u32, pointer: Value) -> Result<Value, NoMemory> {
    call(alloc, func, vec![in alloc; number(alloc), pointer]?)
}

// func a(n int, p *int) *int { if n == 0 { return p }; return b(n-1, p) }
// func b(n int, p *int) *int { x := 7; q := a(0, &x); println(*q); if n == 0 { return p }; return a(n-1, p) }
// func main() { y := 5; println(*a(3, &y)) }
fn mutual(alloc: Global) -> Result<Program, NoMemory> {
    let a = vec![in alloc;
        give(alloc, variable(1), result(0))?,
        give(alloc, turn(alloc, 1, variable(1))?, result(0))?,
    ]?;
    let b = vec![in alloc;
        give(alloc, turn(alloc, 0, address(4))?, site(5))?,
        discard(alloc, behind(alloc, variable(5))?)?,
        give(alloc, variable(3), result(1))?,
        give(alloc, turn(alloc, 0, variable(3))?, result(1))?,
    ]?;
    let main = vec![in alloc; discard(alloc, behind(alloc, turn(alloc, 0, address(6))?)?)?]?;
    Ok(Program {
        funcs: vec![in alloc;
            func(alloc, (0, 2), 2, 1, a)?,
            func(alloc, (2, 4), 2, 1, b)?,
            func(alloc, (6, 1), 0, 0, main)?,
        ]?,
        sites: vec![in alloc;
            local(0, 0),
            local(0, 0),
            local(1, 0),
            local(1, 0),
            local(1, 0),
            local(1, 0),
            local(2, 0),
        ]?,
    })
}

// type T struct { prev *T; v int }
// for p := new(T); p.v < 3; { var x T; x.prev = p; x.v = p.v + 1; p = &x; println(p.prev.v) }
fn carried(alloc: Global) -> Result<Program, NoMemory> {
    let header = Site {
        carried: true,
        ..local(0, 1)
    };
    let body = vec![in alloc;
        give(alloc, address(1), site(0))?,
        give(alloc, variable(0), site(2))?,
        give(alloc, address(2), site(0))?,
        Act::Carry(SiteId(0)),
    ]?;
    Ok(Program {
        funcs: vec![in alloc; func(alloc, (0, 3), 0, 0, body)?]?,
        sites: vec![in alloc; header, local(0, 0), local(0, 1)]?,
    })
}

#[test]
fn loops(rt: HostRuntime) -> Result<(), Fail> {
    let alloc = rt.alloc();
    let of_loop = solved(alloc, &looped(alloc)?)?;
    assert_eq!(rt; placed(&of_loop, 0), Placed::Stack);
    assert_eq!(rt; placed(&of_loop, 1), Placed::Flow(site(0)));
    let of_pair = solved(alloc, &pair(alloc)?)?;
    assert_eq!(rt; placed(&of_pair, 1), Placed::Stack);
    assert_eq!(rt; placed(&of_pair, 2), Placed::Stack);
    let of_carried = solved(alloc, &carried(alloc)?)?;
    assert_eq!(rt; placed(&of_carried, 0), Placed::Stack);
    assert_eq!(rt; placed(&of_carried, 1), Placed::Flow(site(2)));
    assert_eq!(rt; placed(&of_carried, 2), Placed::Flow(Loc::Carry(SiteId(0))));
    Ok(())
}

#[test]
fn placements(rt: HostRuntime) -> Result<(), Fail> {
    let alloc = rt.alloc();
    let of_loop = solved(alloc, &looped(alloc)?)?;
    let placement = place(alloc, &of_loop)?;
    assert!(rt; !placement.at(0));
    assert!(rt; placement.at(1));
    Ok(())
}

#[test]
fn calls(rt: HostRuntime) -> Result<(), Fail> {
    let alloc = rt.alloc();
    let of_result = solved(alloc, &returned(alloc)?)?;
    assert_eq!(rt; placed(&of_result, 0), Placed::Flow(result(0)));
    let of_id = solved(alloc, &handed_back(alloc)?)?;
    assert_eq!(rt; placed(&of_id, 1), Placed::Stack);
    assert_eq!(rt; tags(&of_id, 0, 0), (None, Some(0)));
    let of_set = solved(alloc, &stored(alloc)?)?;
    assert_eq!(rt; placed(&of_set, 2), Placed::Stack);
    assert_eq!(rt; placed(&of_set, 3), Placed::Flow(Loc::Heap));
    assert_eq!(rt; tags(&of_set, 0, 0), (None, None));
    assert_eq!(rt; tags(&of_set, 0, 1), (Some(0), None));
    Ok(())
}

#[test]
fn mutual_calls(rt: HostRuntime) -> Result<(), Fail> {
    let alloc = rt.alloc();
    let both = solved(alloc, &mutual(alloc)?)?;
    assert!(rt; matches!(placed(&both, 4), Placed::Flow(Loc::Result(_, _))));
    assert_eq!(rt; placed(&both, 6), Placed::Stack);
    assert_eq!(rt; tags(&both, 0, 1), (None, Some(0)));
    assert_eq!(rt; tags(&both, 1, 1), (None, Some(0)));
    assert_eq!(rt; tags(&both, 0, 0), (None, None));
    Ok(())
}
