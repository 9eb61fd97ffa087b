//! The edges of values that are sent to targets.

ghost use Rattle.std.specs.Prelude.{◌≡◌, [], ◌∷◌, ◌++◌, pos, ◌-ℤ◌, map, IfOk, OnOk};
ghost use Rattle.value_flows.specs.View.{exs_of, program_of, result_of, tags_of as tags_of_data, val_of, vals_of};
ghost use Rattle.escape_graph.specs.Edges.{addressed, argument_targets, edge, numbers, result_edges, results_to, send, send_all};
ghost use Rattle.escape_graph.specs.Edges.{send_each, send_row, valued};

use crate::batch::Batch;
use crate::parts::{is_own, result_at, results_of, tags_of};
use crate::targets::{further, passed_on, pointing, unfollowed};
use base::{FuncId, NoMemory};
use deref_walk::{Edge, Loc};
use std::alloc::Global;
use value_flows::{FuncResult, Target, Value, Values};

/// Adds the edge of a location's value to a target.
pub fn add_value(edges: &mut Vec<Edge>, from: Loc, target: Target) -> Result<(), NoMemory>
    ensures { OnOk result (edges.new.items ≡ edges.old.items ++ edge target.to from (pos target.by) ∷ []) }
{
    let weight = i32::try_from(target.by).map_err(|_| NoMemory)?;
    edges.push(Edge {
        to: target.to,
        from,
        weight,
    })?;
    Ok(())
}

/// Adds the edge of a location's address to a target.
fn add_address(edges: &mut Vec<Edge>, from: Loc, target: Target) -> Result<(), NoMemory>
    ensures { OnOk result (edges.new.items ≡ edges.old.items ++ edge target.to from (pos target.by -ℤ pos 1) ∷ []) }
{
    let by = i32::try_from(target.by).map_err(|_| NoMemory)?;
    edges.push(Edge {
        to: target.to,
        from,
        weight: by - 1,
    })?;
    Ok(())
}

/// Adds the edges of a location's value to targets.
fn add_values(edges: &mut Vec<Edge>, from: Loc, targets: &[Target]) -> Result<(), NoMemory>
    ensures { OnOk result (edges.new.items ≡ edges.old.items ++ valued from targets.now) }
{
    for target in targets {
        add_value(edges, from, *target)?;
    }
    Ok(())
}

/// Adds the edges of a location's address to targets.
fn add_addresses(edges: &mut Vec<Edge>, from: Loc, targets: &[Target]) -> Result<(), NoMemory>
    ensures { OnOk result (edges.new.items ≡ edges.old.items ++ addressed from targets.now) }
{
    for target in targets {
        add_address(edges, from, *target)?;
    }
    Ok(())
}

/// Adds the edges of the results of a function, each to its own targets.
fn add_results(
    edges: &mut Vec<Edge>,
    f: FuncId,
    results: &[FuncResult],
    lists: &[Vec<Target>],
) -> Result<(), NoMemory>
    ensures { OnOk result (edges.new.items ≡ edges.old.items
        ++ results_to f.0 0 (map result_of results.now) (map (λ ts. ts.items) lists.now)) }
{
    let mut j: u32 = 0;
    for (which, targets) in results.iter().zip(lists) {
        add_values(edges, result_at(f, j, *which), targets)?;
        j = j.checked_add(1).ok_or(NoMemory)?;
    }
    Ok(())
}

/// Sends the results of a call, each to its own targets, where its function is of the batch. Gives where its arguments go then:
/// by the tags of its function, or nowhere where that is of the batch.
fn send_results(
    edges: &mut Vec<Edge>,
    alloc: Global,
    batch: Batch<'_>,
    f: FuncId,
    lists: &[Vec<Target>],
) -> Result<Vec<Vec<Target>>, NoMemory>
    ensures edges { OnOk result (edges.new.items ≡ edges.old.items
        ++ result_edges (program_of batch.entry.program.now) (numbers batch.entry.funcs.now) (tags_of_data batch.entry.tags.now)
        f.0 (map (λ ts. ts.items) lists.now)) }
    ensures targets { IfOk result (λ v. map (λ ts. ts.items) v.items
        ≡ argument_targets (program_of batch.entry.program.now) (numbers batch.entry.funcs.now)
        (tags_of_data batch.entry.tags.now) f.0 (map (λ ts. ts.items) lists.now)) }
{
    let results = results_of(batch.program, f);
    let to = pointing(alloc, results, lists)?;
    if is_own(batch.funcs, f) {
        add_results(edges, f, results, &to)?;
        return Ok(Vec::new(alloc));
    }
    passed_on(alloc, tags_of(batch.tags, f), &to)
}

/// The targets of one result, as a list of lists.
fn one_list(alloc: Global, targets: &[Target]) -> Result<Vec<Vec<Target>>, NoMemory>
    ensures { IfOk result (λ v. map (λ ts. ts.items) v.items ≡ targets.now ∷ []) }
{
    let mut lists = Vec::new(alloc);
    let list = targets.to_vec(alloc)?;
    lists.push(list)?;
    Ok(lists)
}

/// Sends a value to targets: adds the edges by which it goes there.
#[cycle(send)]
#[tactic(auto, using(value_flows::proofs::Rows::value_rows))]
pub fn send(
    edges: &mut Vec<Edge>,
    alloc: Global,
    batch: Batch<'_>,
    value: &Value,
    targets: &[Target],
) -> Result<(), NoMemory>
    ensures { OnOk result (edges.new.items ≡ edges.old.items
        ++ send (program_of batch.entry.program.now) (numbers batch.entry.funcs.now) (tags_of_data batch.entry.tags.now)
        (val_of value.now) targets.now) }
{
    match value {
        Value::Variable(x) => add_values(edges, Loc::Site(*x), targets),
        Value::Address(x) => add_addresses(edges, Loc::Site(*x), targets),
        Value::Inside(pointers, address) => {
            let address: &Value = address;
            if *pointers {
                return send(edges, alloc, batch, address, targets);
            }
            let near = unfollowed(alloc, targets)?;
            send(edges, alloc, batch, address, &near)
        }
        Value::Behind(address) => {
            let address: &Value = address;
            let next = further(alloc, targets, 1)?;
            send(edges, alloc, batch, address, &next)
        }
        Value::Parts(values) => send_each(edges, alloc, batch, values, targets),
        Value::Beside(_, value) | Value::Sent(_, value) => {
            let value: &Value = value;
            send(edges, alloc, batch, value, targets)
        }
        Value::Call(f, arguments) => {
            let arguments: &Values = arguments;
            let lists = one_list(alloc, targets)?;
            let on = send_results(edges, alloc, batch, *f, &lists)?;
            send_all(edges, alloc, batch, arguments, &on)
        }
    }
}

/// Sends each of some values to the same targets.
#[cycle(send)]
fn send_each(
    edges: &mut Vec<Edge>,
    alloc: Global,
    batch: Batch<'_>,
    values: &[Value],
    targets: &[Target],
) -> Result<(), NoMemory>
    ensures { OnOk result (edges.new.items ≡ edges.old.items
        ++ send_each (program_of batch.entry.program.now) (numbers batch.entry.funcs.now) (tags_of_data batch.entry.tags.now)
        (vals_of values.now) targets.now) }
{
    for value in values {
        send(edges, alloc, batch, value, targets)?;
    }
    Ok(())
}

/// Sends each of some values to its own targets.
#[cycle(send)]
fn send_row(
    edges: &mut Vec<Edge>,
    alloc: Global,
    batch: Batch<'_>,
    values: &[Value],
    lists: &[Vec<Target>],
) -> Result<(), NoMemory>
    ensures { OnOk result (edges.new.items ≡ edges.old.items
        ++ send_row (program_of batch.entry.program.now) (numbers batch.entry.funcs.now) (tags_of_data batch.entry.tags.now)
        (vals_of values.now) (map (λ ts. ts.items) lists.now)) }
{
    for (value, targets) in values.iter().zip(lists) {
        send(edges, alloc, batch, value, targets)?;
    }
    Ok(())
}

/// Sends the values of an assignment, a call or a return, each to its own targets.
#[cycle(send)]
#[tactic(auto, using(value_flows::proofs::Rows::value_rows))]
pub fn send_all(
    edges: &mut Vec<Edge>,
    alloc: Global,
    batch: Batch<'_>,
    values: &Values,
    lists: &[Vec<Target>],
) -> Result<(), NoMemory>
    ensures { OnOk result (edges.new.items ≡ edges.old.items
        ++ send_all (program_of batch.entry.program.now) (numbers batch.entry.funcs.now) (tags_of_data batch.entry.tags.now)
        (exs_of values.now) (map (λ ts. ts.items) lists.now)) }
{
    match values {
        Values::Each(values) => send_row(edges, alloc, batch, values, lists),
        Values::Results(f, arguments) => {
            let arguments: &Values = arguments;
            let on = send_results(edges, alloc, batch, *f, lists)?;
            send_all(edges, alloc, batch, arguments, &on)
        }
    }
}
