//! The functions that each function calls, in the order of the text, by their numbers.

ghost use Rattle.std.specs.Prelude.{◌≡◌, ◌++◌, map, OnOk, IfOk};
ghost use Rattle.components.specs.Graph.{rows};
ghost use Rattle.value_flows.specs.View.{val_of, vals_of, exs_of, act_of, program_of};
ghost use Rattle.flow_batches.specs.Called.{called, called_each, called_all, called_in, called_by, call_lists};

use base::NoMemory;
use std::alloc::Global;
use value_flows::{Act, Func, Program, Value, Values};

/// Adds the calls in a value.
#[cycle(values)]
#[tactic(auto, using(value_flows::proofs::Rows::value_rows, std::proofs::lemmas::List::append_assoc))]
fn add_value(calls: &mut Vec<u32>, v: &Value) -> Result<(), NoMemory>
    ensures { OnOk result (calls.new.items ≡ calls.old.items ++ called (val_of v.now)) }
{
    match v {
        Value::Variable(_) | Value::Address(_) => Ok(()),
        Value::Inside(_, v) | Value::Behind(v) | Value::Sent(_, v) => {
            let v: &Value = v;
            add_value(calls, v)
        }
        Value::Parts(vs) => add_row(calls, vs),
        Value::Beside(vs, v) => {
            let v: &Value = v;
            add_row(calls, vs)?;
            add_value(calls, v)
        }
        Value::Call(f, arguments) => {
            let arguments: &Values = arguments;
            calls.push(f.0)?;
            add_values(calls, arguments)
        }
    }
}

/// Adds the calls in some values.
#[cycle(values)]
fn add_row(calls: &mut Vec<u32>, vs: &[Value]) -> Result<(), NoMemory>
    ensures { OnOk result (calls.new.items ≡ calls.old.items ++ called_each (vals_of vs.now)) }
{
    for v in vs {
        add_value(calls, v)?;
    }
    Ok(())
}

/// Adds the calls in the values of an assignment, a call or a return.
#[cycle(values)]
#[tactic(auto, using(value_flows::proofs::Rows::value_rows))]
fn add_values(calls: &mut Vec<u32>, values: &Values) -> Result<(), NoMemory>
    ensures { OnOk result (calls.new.items ≡ calls.old.items ++ called_all (exs_of values.now)) }
{
    match values {
        Values::Each(vs) => add_row(calls, vs),
        Values::Results(f, inner) => {
            let inner: &Values = inner;
            calls.push(f.0)?;
            add_values(calls, inner)
        }
    }
}

/// Adds the calls in an act.
fn add_act(calls: &mut Vec<u32>, act: &Act) -> Result<(), NoMemory>
    ensures { OnOk result (calls.new.items ≡ calls.old.items ++ called_in (act_of act.now)) }
{
    match act {
        Act::Give(values, _) => add_values(calls, values),
        Act::Carry(_) => Ok(()),
    }
}

/// The functions that a function calls.
fn calls_of(alloc: Global, func: &Func) -> Result<Vec<u32>, NoMemory>
    ensures { IfOk result (λ v. v.items ≡ called_by (map act_of func.now.body.items)) }
{
    let mut calls = Vec::new(alloc);
    for act in &func.body {
        add_act(&mut calls, act)?;
    }
    Ok(calls)
}

/// The functions that each function of a program calls.
pub fn all_calls(alloc: Global, program: &Program) -> Result<Vec<Vec<u32>>, NoMemory>
    ensures { IfOk result (λ v. rows v.items ≡ call_lists (program_of program.now).funcs) }
{
    let mut all = Vec::new(alloc);
    for func in &program.funcs {
        let calls = calls_of(alloc, func)?;
        all.push(calls)?;
    }
    Ok(all)
}
