//! Chains of functions, each of which calls the one before it:
//!
//! var keep *int
//! func f0(p *int, d int) *int { *p += d; return p }
//! func fK(p *int, d int) *int { x := d + K; q := fJ(&x, K); keep = q; *p += *q; return p }    (keep = q where 3 divides K)
//! func main() { s := 0; println(*fN(&s, N)) }

use crate::building::{
    address, behind, call, discard, func, give, local, number, result, site, solved, variable,
};
use base::NoMemory;
use deref_walk::Loc;
use std::alloc::Global;
use std::test::Fail;
use value_flows::{Act, Known, Placed, Program, Site};

// The first site of a function: those of f0 are two, those of the others four.
fn first_site(k: u32) -> u32 {
    if k == 0 {
        1
    } else {
        k.wrapping_mul(4).wrapping_sub(1)
    }
}

fn body_of(alloc: Global, k: u32) -> Result<Vec<Act>, NoMemory> {
    let first = first_site(k);
    let mut body = Vec::new(alloc);
    if k > 0 {
        let x = first.wrapping_add(2);
        let q = first.wrapping_add(3);
        let arguments = vec![in alloc; address(x), number(alloc)]?;
        body.push(give(alloc, call(alloc, k.wrapping_sub(1), arguments)?, site(q))?)?;
        if k % 3 == 0 {
            body.push(give(alloc, variable(q), Loc::Heap)?)?;
        }
        body.push(discard(alloc, behind(alloc, variable(q))?)?)?;
    }
    body.push(give(alloc, variable(first), result(k))?)?;
    Ok(body)
}

fn chain(alloc: Global, n: u32) -> Result<Program, NoMemory> {
    let keep = Site {
        func: None,
        known: Some(Known::Package),
        ..local(0, 0)
    };
    let mut sites = vec![in alloc; keep]?;
    let mut funcs = Vec::new(alloc);
    let count = n.wrapping_add(1);
    for k in 0..count {
        let own = if k == 0 { 2 } else { 4 };
        for _ in 0..own {
            sites.push(local(k, 0))?;
        }
        funcs.push(func(alloc, (first_site(k), own), 2, 1, body_of(alloc, k)?)?)?;
    }
    let s = first_site(count);
    sites.push(local(count, 0))?;
    let called = call(alloc, n, vec![in alloc; address(s), number(alloc)]?)?;
    let main = vec![in alloc; discard(alloc, behind(alloc, called)?)?]?;
    funcs.push(func(alloc, (s, 1), 0, 0, main)?)?;
    Ok(Program { funcs, sites })
}

fn heap_sites(alloc: Global, n: u32) -> Result<usize, Fail> {
    let chained = solved(alloc, &chain(alloc, n)?)?;
    Ok(
        chained
            .placed
            .iter()
            .filter(|placed| **placed != Placed::Stack)
            .count(),
    )
}

#[test]
fn chains_of_calls(rt: HostRuntime) -> Result<(), Fail> {
    let alloc = rt.alloc();
    assert_eq!(rt; heap_sites(alloc, 1)?, 1);
    assert_eq!(rt; heap_sites(alloc, 3)?, 2);
    assert_eq!(rt; heap_sites(alloc, 100)?, 34);
    assert_eq!(rt; heap_sites(alloc, 400)?, 134);
    Ok(())
}
