//! The locations of a graph.

ghost use Rattle.std.specs.Prelude.{◌≡◌, ◌++◌, drop, map, take, IfOk, OnOk};
ghost use Rattle.value_flows.specs.View.{program_of, result_of};
ghost use Rattle.escape_graph.specs.Locations.{batch_locations, func_locations, funcs_locations, heap_location, package_sites};
ghost use Rattle.escape_graph.specs.Locations.{site_locations, sites_from, unnamed, whole_locations};

use crate::parts::func_at;
use base::{FuncId, NoMemory, SiteId};
use deref_walk::{Loc, Location};
use std::alloc::Global;
use value_flows::{Func, FuncResult, Program, Site};

/// The location of the heap.
fn heap_location() -> Location
    ensures { result ≡ heap_location }
{
    Location {
        loc: Loc::Heap,
        func: None,
        depth: 0,
        result: false,
    }
}

/// Adds the location of a site, and of its carry after it where it has one.
fn add_site(locations: &mut Vec<Location>, x: u32, site: &Site) -> Result<(), NoMemory>
    ensures { OnOk result (locations.new.items ≡ locations.old.items ++ site_locations x site.now) }
{
    locations.push(Location {
        loc: Loc::Site(SiteId(x)),
        func: site.func,
        depth: site.depth,
        result: site.result,
    })?;
    if site.carried {
        locations.push(Location {
            loc: Loc::Carry(SiteId(x)),
            func: site.func,
            depth: site.depth.saturating_sub(1),
            result: false,
        })?;
    }
    Ok(())
}

/// Adds the locations of sites that are numbered from the first on.
fn add_sites(locations: &mut Vec<Location>, first: u32, sites: &[Site]) -> Result<(), NoMemory>
    ensures { OnOk result (locations.new.items ≡ locations.old.items ++ sites_from first sites.now) }
{
    let mut x = first;
    for site in sites {
        add_site(locations, x, site)?;
        x = x.checked_add(1).ok_or(NoMemory)?;
    }
    Ok(())
}

/// Adds the locations of the package variables.
fn add_package_sites(locations: &mut Vec<Location>, sites: &[Site]) -> Result<(), NoMemory>
    ensures { OnOk result (locations.new.items ≡ locations.old.items ++ package_sites 0 sites.now) }
{
    let mut x: u32 = 0;
    for site in sites {
        if site.func.is_none() {
            add_site(locations, x, site)?;
        }
        x = x.checked_add(1).ok_or(NoMemory)?;
    }
    Ok(())
}

/// Adds the locations of a function's results without a name.
fn add_unnamed(
    locations: &mut Vec<Location>,
    f: FuncId,
    results: &[FuncResult],
) -> Result<(), NoMemory>
    ensures { OnOk result (locations.new.items ≡ locations.old.items ++ unnamed f 0 (map result_of results.now)) }
{
    let mut j: u32 = 0;
    for which in results {
        if which.site.is_none() {
            locations.push(Location {
                loc: Loc::Result(f, j),
                func: Some(f),
                depth: 0,
                result: true,
            })?;
        }
        j = j.checked_add(1).ok_or(NoMemory)?;
    }
    Ok(())
}

/// The sites of a function.
fn sites_of<'a>(sites: &'a [Site], func: &Func) -> &'a [Site]
    ensures { result.now ≡ take func.now.sites (drop func.now.first_site sites.now) }
{
    let rest = &sites[(func.first_site as usize).min(sites.len())..];
    &rest[..(func.sites as usize).min(rest.len())]
}

/// Adds the locations of a function.
fn add_func(locations: &mut Vec<Location>, program: &Program, f: FuncId) -> Result<(), NoMemory>
    ensures { OnOk result (locations.new.items ≡ locations.old.items ++ func_locations (program_of program.now) f) }
{
    match func_at(program, f) {
        None => Ok(()),
        Some(func) => {
            add_sites(locations, func.first_site, sites_of(&program.sites, func))?;
            add_unnamed(locations, f, &func.results)
        }
    }
}

/// Adds the locations of some functions.
fn add_funcs(
    locations: &mut Vec<Location>,
    program: &Program,
    funcs: &[FuncId],
) -> Result<(), NoMemory>
    ensures { OnOk result (locations.new.items ≡ locations.old.items ++ funcs_locations (program_of program.now) funcs.now) }
{
    for f in funcs {
        add_func(locations, program, *f)?;
    }
    Ok(())
}

/// The locations of the graph of a batch: the heap and those of its functions.
pub fn batch_locations(
    alloc: Global,
    program: &Program,
    batch: &[FuncId],
) -> Result<Vec<Location>, NoMemory>
    ensures { IfOk result (λ v. v.items ≡ batch_locations (program_of program.now) batch.now) }
{
    let mut locations = Vec::new(alloc);
    locations.push(heap_location())?;
    add_funcs(&mut locations, program, batch)?;
    Ok(locations)
}

/// The locations of the graph of a program: the heap, the package variables, and those of the functions of all batches.
pub fn whole_locations(
    alloc: Global,
    program: &Program,
    batches: &[Vec<FuncId>],
) -> Result<Vec<Location>, NoMemory>
    ensures { IfOk result (λ v. v.items ≡ whole_locations (program_of program.now) (map (λ b. b.items) batches.now)) }
{
    let mut locations = Vec::new(alloc);
    locations.push(heap_location())?;
    add_package_sites(&mut locations, &program.sites)?;
    for batch in batches {
        add_funcs(&mut locations, program, batch)?;
    }
    Ok(locations)
}
