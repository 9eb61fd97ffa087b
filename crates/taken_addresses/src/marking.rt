//! The marks of sites.

ghost use Rattle.std.specs.Prelude.{◌≡◌, [], ◌∷◌, OnOk};
ghost use Rattle.typed.specs.View.{sts_of};
ghost use Rattle.taken_addresses.specs.Takes.{taken_by_all, marked};

use crate::addresses::add_stmts;
use base::NoMemory;
use std::alloc::Global;
use typed::{Site, Stmt};

/// Marks the site of a number, where there is one.
fn mark_site(sites: &mut Vec<Site>, number: u32)
    ensures { sites.new.items ≡ marked (number ∷ []) sites.old.items }
{
    let index = number as usize;
    if index < sites.len() {
        let mut site = sites[index];
        site.address_taken = true;
        sites[index] = site;
    }
}

/// Marks each site whose variables, or parts of them, a body takes the address of. Sites that were marked stay so.
pub fn mark(alloc: Global, sites: &mut Vec<Site>, body: &[Stmt]) -> Result<(), NoMemory>
    ensures { OnOk result (sites.new.items ≡ marked (taken_by_all (sts_of body.now)) sites.old.items) }
{
    let mut found = Vec::new(alloc);
    add_stmts(&mut found, body)?;
    for number in &found {
        mark_site(sites, *number);
    }
    Ok(())
}
