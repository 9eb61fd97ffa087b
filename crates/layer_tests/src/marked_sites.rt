//! The sites whose variables' address a body takes, by `taken_addresses`.

use crate::sites::variable;
use base::{Pos, SiteId, TypeId};
use std::alloc::Global;
use std::test::Fail;
use taken_addresses::mark;
use typed::{Bound, Expr, INT, Left, Place, Site, Step, Stmt, Values};

const AT: Pos = Pos {
    offset: 0,
    line: 1,
    col: 1,
};

/// A part of a variable of a site.
fn part(alloc: Global, site: u32) -> Result<Place, Fail> {
    let steps = vec![in alloc; Step::Inner(0)]?;
    Ok(Place::Local(SiteId(site), steps))
}

/// What the variable of a site leads to.
fn pointed(alloc: Global, site: u32) -> Result<Place, Fail> {
    let pointer = Expr::Read(Place::Local(SiteId(site), Vec::new(alloc)));
    let pointer = Box::new(alloc, pointer)?;
    Ok(Place::Indirect(AT, pointer, TypeId(2), Vec::new(alloc)))
}

/// The addresses of a part of the first variable and of what the second leads to, and a slice of the third's array.
fn body(alloc: Global) -> Result<Vec<Stmt>, Fail> {
    let address = Expr::AddressOf(part(alloc, 0)?);
    let through = Expr::AddressOf(pointed(alloc, 1)?);
    let array = Place::Local(SiteId(2), Vec::new(alloc));
    let slice = Expr::ArraySlicing(AT, array, 4, Bound::Absent, Bound::Absent);
    let values = vec![in alloc; address, through, slice]?;
    let lefts = vec![in alloc; Left::Blank, Left::Blank, Left::Blank]?;
    let all = Stmt::Assign(lefts, Values::Each(values));
    Ok(vec![in alloc; all]?)
}

fn is_marked(sites: &[Site], index: usize) -> bool {
    match sites.get(index) {
        Some(site) => site.address_taken,
        None => false,
    }
}

#[test]
fn variables_with_names_are_marked(rt: HostRuntime) -> Result<(), Fail> {
    let alloc = rt.alloc();
    let one = variable(AT, INT);
    let mut sites = vec![in alloc; one, one, one, one]?;
    mark(alloc, &mut sites, &body(alloc)?)?;
    assert_eq!(rt; is_marked(&sites, 0), true);
    assert_eq!(rt; is_marked(&sites, 1), false);
    assert_eq!(rt; is_marked(&sites, 2), true);
    assert_eq!(rt; is_marked(&sites, 3), false);
    Ok(())
}
