//! The edges of what stands in values, wherever these go: of the calls in them, and of the targets that they name.

ghost use Rattle.std.specs.Prelude.{◌≡◌, ◌++◌, map, IfOk, OnOk};
ghost use Rattle.value_flows.specs.View.{exs_of, program_of, tags_of as tags_of_data, val_of, vals_of};
ghost use Rattle.escape_graph.specs.Edges.{call_targets, numbers, send_all, text, text_all, texts};

use crate::batch::Batch;
use crate::parts::{is_own, params_of, tags_of};
use crate::sending::{send, send_all};
use crate::targets::{heap_lists, param_lists};
use base::{FuncId, NoMemory};
use deref_walk::Edge;
use std::alloc::Global;
use value_flows::{Target, Value, Values};

/// Where the arguments of a call go, whatever becomes of its results.
fn call_lists(alloc: Global, batch: Batch<'_>, f: FuncId) -> Result<Vec<Vec<Target>>, NoMemory>
    ensures { IfOk result (λ v. map (λ ts. ts.items) v.items
        ≡ call_targets (program_of batch.entry.program.now) (numbers batch.entry.funcs.now) (tags_of_data batch.entry.tags.now)
        f.0) }
{
    if is_own(batch.funcs, f) {
        return param_lists(alloc, params_of(batch.program, f));
    }
    heap_lists(alloc, tags_of(batch.tags, f))
}

/// Adds the edges of the arguments of a call, whatever becomes of its results.
fn pass(
    edges: &mut Vec<Edge>,
    alloc: Global,
    batch: Batch<'_>,
    f: FuncId,
    arguments: &Values,
) -> Result<(), NoMemory>
    ensures { OnOk result (edges.new.items ≡ edges.old.items
        ++ send_all (program_of batch.entry.program.now) (numbers batch.entry.funcs.now) (tags_of_data batch.entry.tags.now)
        (exs_of arguments.now) (call_targets (program_of batch.entry.program.now) (numbers batch.entry.funcs.now)
        (tags_of_data batch.entry.tags.now) f.0)) }
{
    let lists = call_lists(alloc, batch, f)?;
    send_all(edges, alloc, batch, arguments, &lists)
}

/// Adds the edges of what stands in a value, wherever it goes.
#[cycle(text)]
#[tactic(auto, using(value_flows::proofs::Rows::value_rows))]
fn text(
    edges: &mut Vec<Edge>,
    alloc: Global,
    batch: Batch<'_>,
    value: &Value,
) -> Result<(), NoMemory>
    ensures { OnOk result (edges.new.items ≡ edges.old.items
        ++ text (program_of batch.entry.program.now) (numbers batch.entry.funcs.now) (tags_of_data batch.entry.tags.now)
        (val_of value.now)) }
{
    match value {
        Value::Variable(_) | Value::Address(_) => Ok(()),
        Value::Inside(_, address) | Value::Behind(address) => {
            let address: &Value = address;
            text(edges, alloc, batch, address)
        }
        Value::Parts(values) => texts(edges, alloc, batch, values),
        Value::Beside(values, value) => {
            let value: &Value = value;
            texts(edges, alloc, batch, values)?;
            text(edges, alloc, batch, value)
        }
        Value::Sent(target, value) => {
            let value: &Value = value;
            send(edges, alloc, batch, value, &[*target])?;
            text(edges, alloc, batch, value)
        }
        Value::Call(f, arguments) => {
            let arguments: &Values = arguments;
            pass(edges, alloc, batch, *f, arguments)?;
            text_all(edges, alloc, batch, arguments)
        }
    }
}

/// Adds the edges of what stands in some values.
#[cycle(text)]
fn texts(
    edges: &mut Vec<Edge>,
    alloc: Global,
    batch: Batch<'_>,
    values: &[Value],
) -> Result<(), NoMemory>
    ensures { OnOk result (edges.new.items ≡ edges.old.items
        ++ texts (program_of batch.entry.program.now) (numbers batch.entry.funcs.now) (tags_of_data batch.entry.tags.now)
        (vals_of values.now)) }
{
    for value in values {
        text(edges, alloc, batch, value)?;
    }
    Ok(())
}

/// Adds the edges of what stands in the values of an assignment, a call or a return, wherever they go.
#[cycle(text)]
#[tactic(auto, using(value_flows::proofs::Rows::value_rows))]
pub fn text_all(
    edges: &mut Vec<Edge>,
    alloc: Global,
    batch: Batch<'_>,
    values: &Values,
) -> Result<(), NoMemory>
    ensures { OnOk result (edges.new.items ≡ edges.old.items
        ++ text_all (program_of batch.entry.program.now) (numbers batch.entry.funcs.now) (tags_of_data batch.entry.tags.now)
        (exs_of values.now)) }
{
    match values {
        Values::Each(values) => texts(edges, alloc, batch, values),
        Values::Results(f, arguments) => {
            let arguments: &Values = arguments;
            pass(edges, alloc, batch, *f, arguments)?;
            text_all(edges, alloc, batch, arguments)
        }
    }
}
