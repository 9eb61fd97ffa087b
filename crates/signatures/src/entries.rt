//! Names with types in a block: parameters, results, and the variables of a `var` or of a `range`.

ghost use Rattle.std.specs.Prelude.{◌≡◌, Option, Some, None, IfOk, OnOk, List, [], ◌∷◌, ◌++◌, map, length};
ghost use Rattle.std.specs.Option.{option_map};
ghost use Rattle.syntax.specs.Expressions.{spelled};
ghost use Rattle.typed.specs.View.{site_in, left_of as left_view};
ghost use Rattle.type_faults.specs.Least.{IsLeast};
ghost use Rattle.type_faults.specs.Faults.{IsFault};
ghost use Rattle.names.specs.Universe.{is_blank};
ghost use Rattle.names.specs.Scope.{scope_of, is_here};
ghost use Rattle.signatures.specs.Entries.{entry_of, entry_left, sites_of, named_entry, entry_in, behind_entry_name, behind_entry, entries, behind_entries};
ghost use Rattle.signatures.specs.EntryFaults.{EntryFails, EntriesFail, named_fault};
ghost use Rattle.type_faults.specs.Given.{with_last};

use crate::slots::Slot;
use base::{NoMemory, Pos, SiteId, ValueType};
use names::{Scope, is_blank, spelled};
use std::alloc::Global;
use syntax::Name;
use type_faults::{Fault, FaultKind, lesser};
use typed::Left;

/// Where a name with a type stands.
#[derive(Clone, Copy, Debug, PartialEq, Eq)]
pub enum Role {
    Parameter,
    Result,
}

/// What is known of parameters or results: the site of each, or none where it has no variable, and the fault.
#[derive(Drop)]
pub struct Entries {
    pub entries: Option<Vec<Option<SiteId>>>,
    pub fault: Option<Fault>,
}

fn entry_of(role: Role, blank: bool, here: bool, site: SiteId) -> Option<Option<SiteId>>
    ensures { option_map site_in result ≡ entry_of role blank here site.0 }
{
    match role {
        Role::Parameter if blank => Some(None),
        _ => {
            if blank || here {
                None
            } else {
                Some(Some(site))
            }
        }
    }
}

fn named_fault_of(role: Role, blank: bool, here: bool, pos: Pos) -> Option<Fault>
    ensures { result ≡ named_fault role blank here pos }
{
    let kind = match role {
        Role::Parameter if blank => return None,
        _ => {
            if blank {
                FaultKind::OutOfProfile
            } else if here {
                FaultKind::Redeclared
            } else {
                return None;
            }
        }
    };
    Some(Fault { kind, pos })
}

fn named_entry(
    text: &[u8],
    scope: &Scope,
    role: Role,
    name: Name,
) -> Result<Option<Option<SiteId>>, NoMemory>
    ensures { IfOk result (λ r. option_map site_in r ≡ named_entry text.now role (scope_of scope.now) name) }
{
    let bytes = spelled(text, name);
    let site = scope.next_site()?;
    Ok(entry_of(role, is_blank(bytes), scope.is_here(bytes), site))
}

fn entry_in(
    text: &[u8],
    scope: &Scope,
    role: Role,
    name: Option<Name>,
) -> Result<Option<Option<SiteId>>, NoMemory>
    ensures { IfOk result (λ r. option_map site_in r ≡ entry_in text.now role (scope_of scope.now) name) }
{
    match name {
        Some(name) => named_entry(text, scope, role, name),
        None => Ok(Some(None)),
    }
}

#[tactic(auto, using(type_faults::proofs::Leasts::leaf))]
fn named_fault(text: &[u8], scope: &Scope, role: Role, name: Name) -> Option<Fault>
    ensures { IsLeast (IsFault (named_fault role (is_blank (spelled text.now name))
        (is_here (scope_of scope.now) (spelled text.now name)) name.pos)) result }
{
    let bytes = spelled(text, name);
    named_fault_of(role, is_blank(bytes), scope.is_here(bytes), name.pos)
}

fn entry_fault(text: &[u8], scope: &Scope, role: Role, name: Option<Name>) -> Option<Fault>
    ensures { IsLeast (EntryFails text.now role (scope_of scope.now) name) result }
{
    match name {
        Some(name) => named_fault(text, scope, role, name),
        None => None,
    }
}

fn declare_entry_name(
    text: &[u8],
    scope: &mut Scope,
    name: Option<Name>,
    value_type: Option<ValueType>,
) -> Result<(), NoMemory>
    ensures { OnOk result (scope_of scope.new ≡ behind_entry_name text.now value_type (scope_of scope.old) name) }
{
    let Some(name) = name else {
        return Ok(());
    };
    let bytes = spelled(text, name);
    if !is_blank(bytes) && !scope.is_here(bytes) {
        scope.declare_variable(bytes, name.pos, value_type)
    } else {
        Ok(())
    }
}

fn declare_entry(text: &[u8], scope: &mut Scope, slot: Slot) -> Result<(), NoMemory>
    ensures { OnOk result (scope_of scope.new ≡ behind_entry text.now (scope_of scope.old) slot) }
{
    declare_entry_name(text, scope, slot.name, slot.value_type)
}

fn with_entry(
    entries: Option<Vec<Option<SiteId>>>,
    entry: Option<Option<SiteId>>,
) -> Result<Option<Vec<Option<SiteId>>>, NoMemory>
    ensures { IfOk result (λ r. option_map (λ v. map site_in v.items) r
        ≡ with_last (option_map (λ v. map site_in v.items) entries) (option_map site_in entry)) }
{
    match (entries, entry) {
        (Some(mut entries), Some(entry)) => {
            entries.push(entry)?;
            Ok(Some(entries))
        }
        _ => Ok(None),
    }
}

/// Declares parameters or results.
pub fn check_entries(
    alloc: Global,
    text: &[u8],
    scope: &mut Scope,
    role: Role,
    slots: &[Slot],
) -> Result<Entries, NoMemory>
    ensures entries { IfOk result (λ e. option_map (λ v. map site_in v.items) e.entries
        ≡ entries text.now role (scope_of scope.old) slots.now) }
    ensures fault { IfOk result (λ e. IsLeast (EntriesFail text.now role (scope_of scope.old) slots.now) e.fault) }
    ensures scope { OnOk result (scope_of scope.new ≡ behind_entries text.now (scope_of scope.old) slots.now) }
{
    let mut entries = Some(Vec::new(alloc));
    let mut fault = None;
    for slot in slots {
        fault = lesser(fault, entry_fault(text, scope, role, slot.name));
        let entry = entry_in(text, scope, role, slot.name)?;
        entries = with_entry(entries, entry)?;
        declare_entry(text, scope, *slot)?;
    }
    Ok(Entries { entries, fault })
}

fn with_site(sites: Vec<SiteId>, entry: Option<SiteId>) -> Result<Vec<SiteId>, NoMemory>
    ensures { IfOk result (λ v. map (λ site. site.0) v.items ≡ map (λ site. site.0) sites.items
        ++ sites_of (site_in entry ∷ [])) }
{
    let mut sites = sites;
    if let Some(site) = entry {
        sites.push(site)?;
    }
    Ok(sites)
}

/// The sites that there are.
pub fn sites_of(alloc: Global, entries: &[Option<SiteId>]) -> Result<Vec<SiteId>, NoMemory>
    ensures { IfOk result (λ v. map (λ site. site.0) v.items ≡ sites_of (map site_in entries.now)) }
{
    let mut sites = Vec::new(alloc);
    for entry in entries {
        sites = with_site(sites, *entry)?;
    }
    Ok(sites)
}

/// A new variable as a left side.
fn entry_left(entry: Option<SiteId>) -> Left
    ensures { left_view result ≡ entry_left (site_in entry) }
{
    match entry {
        Some(site) => Left::New(site),
        None => Left::Blank,
    }
}

fn lefts_of(alloc: Global, entries: &[Option<SiteId>]) -> Result<Vec<Left>, NoMemory>
    ensures { IfOk result (λ v. map left_view v.items ≡ map entry_left (map site_in entries.now)) }
{
    let mut lefts = Vec::new(alloc);
    for entry in entries {
        lefts.push(entry_left(*entry))?;
    }
    Ok(lefts)
}

/// New variables as left sides, where each may be declared.
pub fn entry_lefts(
    alloc: Global,
    entries: &Option<Vec<Option<SiteId>>>,
) -> Result<Option<Vec<Left>>, NoMemory>
    ensures { IfOk result (λ r. option_map (λ v. map left_view v.items) r
        ≡ option_map (map entry_left) (option_map (λ v. map site_in v.items) entries.now)) }
{
    match entries {
        Some(entries) => Ok(Some(lefts_of(alloc, entries)?)),
        None => Ok(None),
    }
}
