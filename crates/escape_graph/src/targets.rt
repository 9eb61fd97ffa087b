//! Where values go, as lists of targets.

ghost use Rattle.std.specs.Prelude.{◌≡◌, [], false, if◌then◌else◌, get_or, map, IfOk, OnOk};
ghost use Rattle.std.specs.List.{list_any};
ghost use Rattle.std.specs.Option.{option_map};
ghost use Rattle.value_flows.specs.View.{param_tags_of, result_of};
ghost use Rattle.escape_graph.specs.Targets.{further, reached, same_target, with_target, with_targets, pointing, tagged};
ghost use Rattle.escape_graph.specs.Targets.{passed_on, param_targets, heap_targets, target_list};

use base::{NoMemory, SiteId};
use deref_walk::{Loc, is_same};
use std::alloc::Global;
use value_flows::{FuncResult, ParamTags, ResultTag, Target};

/// The targets, each by some dereferences more.
pub fn further(alloc: Global, targets: &[Target], by: u32) -> Result<Vec<Target>, NoMemory>
    ensures { IfOk result (λ v. v.items ≡ further by targets.now) }
{
    let mut moved = Vec::new(alloc);
    for target in targets {
        let by = target.by.checked_add(by).ok_or(NoMemory)?;
        moved.push(Target { to: target.to, by })?;
    }
    Ok(moved)
}

/// Those of the targets to which nothing goes by a dereference.
pub fn unfollowed(alloc: Global, targets: &[Target]) -> Result<Vec<Target>, NoMemory>
    ensures { IfOk result (λ v. v.items ≡ reached false targets.now) }
{
    let mut near = Vec::new(alloc);
    for target in targets {
        if target.by == 0 {
            near.push(*target)?;
        }
    }
    Ok(near)
}

/// Whether a target is among some.
fn holds(targets: &[Target], target: Target) -> bool
    ensures { result ≡ list_any (same_target target) targets.now }
{
    for other in targets {
        if is_same(target.to, other.to) && target.by == other.by {
            return true;
        }
    }
    false
}

/// Adds a target, unless it is there.
fn add_target(targets: &mut Vec<Target>, target: Target) -> Result<(), NoMemory>
    ensures { OnOk result (targets.new.items ≡ with_target targets.old.items target) }
{
    if !holds(targets, target) {
        targets.push(target)?;
    }
    Ok(())
}

/// Adds targets, each by some dereferences more.
fn add_further(targets: &mut Vec<Target>, more: &[Target], by: u32) -> Result<(), NoMemory>
    ensures { OnOk result (targets.new.items ≡ with_targets targets.old.items (further by more.now)) }
{
    for target in more {
        let by = target.by.checked_add(by).ok_or(NoMemory)?;
        add_target(targets, Target { to: target.to, by })?;
    }
    Ok(())
}

/// The targets at a place of the list; none past its end.
fn targets_at<'a>(lists: &'a [Vec<Target>], j: u32) -> &'a [Target]
    ensures { result.now ≡ get_or (map (λ v. v.items) lists.now) j [] }
{
    match lists.get(j as usize) {
        None => &[],
        Some(targets) => targets,
    }
}

/// Where an argument goes whose parameter has these tags, where each result of the call goes to its own list of targets: to
/// those of each result to which it flows, each target once.
fn tagged(alloc: Global, tags: &[ResultTag], lists: &[Vec<Target>]) -> Result<Vec<Target>, NoMemory>
    ensures { IfOk result (λ v. v.items ≡ tagged [] tags.now (map (λ ts. ts.items) lists.now)) }
{
    let mut targets = Vec::new(alloc);
    for tag in tags {
        add_further(&mut targets, targets_at(lists, tag.result), tag.by)?;
    }
    Ok(targets)
}

/// Where each argument of a call goes by the tags of its function's parameters, where each result goes to its own list of
/// targets.
pub fn passed_on(
    alloc: Global,
    tags: &[ParamTags],
    lists: &[Vec<Target>],
) -> Result<Vec<Vec<Target>>, NoMemory>
    ensures { IfOk result (λ v. map (λ ts. ts.items) v.items
        ≡ passed_on (map param_tags_of tags.now) (map (λ ts. ts.items) lists.now)) }
{
    let mut passed = Vec::new(alloc);
    for param in tags {
        let targets = tagged(alloc, &param.results, lists)?;
        passed.push(targets)?;
    }
    Ok(passed)
}

/// The targets of a result; none where it has no pointers.
fn pointed(alloc: Global, pointers: bool, targets: &[Target]) -> Result<Vec<Target>, NoMemory>
    ensures { IfOk result (λ v. v.items ≡ (if pointers then targets.now else [])) }
{
    if !pointers {
        return Ok(Vec::new(alloc));
    }
    let copied = targets.to_vec(alloc)?;
    Ok(copied)
}

/// Where each result of a call goes, of these lists of targets: one without pointers goes nowhere.
pub fn pointing(
    alloc: Global,
    results: &[FuncResult],
    lists: &[Vec<Target>],
) -> Result<Vec<Vec<Target>>, NoMemory>
    ensures { IfOk result (λ v. map (λ ts. ts.items) v.items
        ≡ pointing (map result_of results.now) (map (λ ts. ts.items) lists.now)) }
{
    let mut pointing = Vec::new(alloc);
    for (which, targets) in results.iter().zip(lists) {
        let targets = pointed(alloc, which.pointers, targets)?;
        pointing.push(targets)?;
    }
    Ok(pointing)
}

/// A target as a list.
fn target_or_none(alloc: Global, target: Option<Target>) -> Result<Vec<Target>, NoMemory>
    ensures { IfOk result (λ v. v.items ≡ target_list target) }
{
    let mut targets = Vec::new(alloc);
    if let Some(target) = target {
        targets.push(target)?;
    }
    Ok(targets)
}

/// Where each of some values goes: to its target, or nowhere.
pub fn target_lists(alloc: Global, targets: &[Option<Target>]) -> Result<Vec<Vec<Target>>, NoMemory>
    ensures { IfOk result (λ v. map (λ ts. ts.items) v.items ≡ map target_list targets.now) }
{
    let mut lists = Vec::new(alloc);
    for target in targets {
        let list = target_or_none(alloc, *target)?;
        lists.push(list)?;
    }
    Ok(lists)
}

/// The parameter that an argument goes to, in a call of the same batch.
fn param_target(param: Option<SiteId>) -> Option<Target>
    ensures { target_list result ≡ param_targets (option_map (λ x. x.0) param) }
{
    let x = param?;
    Some(Target {
        to: Loc::Site(x),
        by: 0,
    })
}

/// Where each argument goes in a call of the same batch, whatever becomes of the results.
pub fn param_lists(alloc: Global, params: &[Option<SiteId>]) -> Result<Vec<Vec<Target>>, NoMemory>
    ensures { IfOk result (λ v. map (λ ts. ts.items) v.items ≡ map param_targets (map (option_map (λ x. x.0)) params.now)) }
{
    let mut lists = Vec::new(alloc);
    for param in params {
        let list = target_or_none(alloc, param_target(*param))?;
        lists.push(list)?;
    }
    Ok(lists)
}

/// The heap, where an argument flows there by so many dereferences.
fn heap_target(heap: Option<u32>) -> Option<Target>
    ensures { target_list result ≡ heap_targets heap }
{
    let by = heap?;
    Some(Target { to: Loc::Heap, by })
}

/// Where each argument goes in any other call, whatever becomes of the results: to the heap, where its tags say so.
pub fn heap_lists(alloc: Global, tags: &[ParamTags]) -> Result<Vec<Vec<Target>>, NoMemory>
    ensures { IfOk result (λ v. map (λ ts. ts.items) v.items ≡ map (λ t. heap_targets t.heap) (map param_tags_of tags.now)) }
{
    let mut lists = Vec::new(alloc);
    for param in tags {
        let list = target_or_none(alloc, heap_target(param.heap))?;
        lists.push(list)?;
    }
    Ok(lists)
}
