//! Values that are made of others.

ghost use Rattle.std.specs.Prelude.{◌≡◌, map, IfOk};
ghost use Rattle.value_flows.specs.View.{exs_of, val_of};
ghost use Rattle.value_flows.specs.Syntax as flow;
ghost use Rattle.typed_flows.specs.Values.{row, to_site, to_heap, nothing, nothing_of, held, copied};

use base::{NoMemory, SiteId};
use deref_walk::Loc;
use std::alloc::Global;
use value_flows::{Target, Value, Values};

/// The variables of a site, as the target of a value.
pub fn to_site(site: SiteId) -> Target
    ensures { result ≡ to_site site.0 }
{
    Target {
        to: Loc::Site(site),
        by: 0,
    }
}

/// The heap.
pub fn to_heap() -> Target
    ensures { result ≡ to_heap }
{
    Target {
        to: Loc::Heap,
        by: 0,
    }
}

/// A value without pointers.
#[tactic(auto, using(crate::proofs::Rows::flow_rows))]
pub fn nothing(alloc: Global) -> Value
    ensures { val_of result ≡ nothing }
{
    Value::Parts(Vec::new(alloc))
}

/// A value, and others that are evaluated beside it.
#[tactic(auto, using(crate::proofs::Rows::flow_rows))]
pub fn beside(alloc: Global, values: Vec<Value>, value: Value) -> Result<Value, NoMemory>
    ensures { IfOk result (λ v. val_of v ≡ flow.beside (row (map val_of values.items)) (val_of value)) }
{
    let value = Box::new(alloc, value)?;
    Ok(Value::Beside(values, value))
}

/// A value without pointers that comes of others.
pub fn nothing_of(alloc: Global, values: Vec<Value>) -> Result<Value, NoMemory>
    ensures { IfOk result (λ v. val_of v ≡ nothing_of (map val_of values.items)) }
{
    beside(alloc, values, nothing(alloc))
}

/// A value of a type that has pointers; of one that has none, nothing is left.
pub fn held(alloc: Global, has: bool, value: Value) -> Result<Value, NoMemory>
    ensures { IfOk result (λ v. val_of v ≡ held has (val_of value)) }
{
    if has {
        return Ok(value);
    }
    let mut values = Vec::new(alloc);
    values.push(value)?;
    nothing_of(alloc, values)
}

/// A value that also goes to a target.
pub fn sent(alloc: Global, target: Target, value: Value) -> Result<Value, NoMemory>
    ensures { IfOk result (λ v. val_of v ≡ flow.sent target (val_of value)) }
{
    let value = Box::new(alloc, value)?;
    Ok(Value::Sent(target, value))
}

/// A slice whose elements are copied elsewhere.
pub fn copied(alloc: Global, has: bool, slice: Value) -> Result<Value, NoMemory>
    ensures { IfOk result (λ v. val_of v ≡ copied has (val_of slice)) }
{
    if has {
        let target = Target {
            to: Loc::Heap,
            by: 1,
        };
        sent(alloc, target, slice)
    } else {
        Ok(slice)
    }
}

/// What lies at an address.
pub fn behind(alloc: Global, address: Value) -> Result<Value, NoMemory>
    ensures { IfOk result (λ v. val_of v ≡ flow.behind (val_of address)) }
{
    let address = Box::new(alloc, address)?;
    Ok(Value::Behind(address))
}

/// An address, or that of a part of what lies at it, in which there are pointers or not.
pub fn inside(alloc: Global, has: bool, address: Value) -> Result<Value, NoMemory>
    ensures { IfOk result (λ v. val_of v ≡ flow.inside has (val_of address)) }
{
    let address = Box::new(alloc, address)?;
    Ok(Value::Inside(has, address))
}

/// A pointer or a slice to a new variable of a site, in which these values are stored.
pub fn new_variable(alloc: Global, stored: Vec<Value>, site: SiteId) -> Result<Value, NoMemory>
    ensures { IfOk result (λ v. val_of v ≡ flow.beside (row (map val_of stored.items)) (flow.address site.0)) }
{
    beside(alloc, stored, Value::Address(site))
}

/// Values, each by itself.
#[tactic(auto, using(crate::proofs::Rows::flow_rows))]
pub fn each(values: Vec<Value>) -> Values
    ensures { exs_of result ≡ flow.each (row (map val_of values.items)) }
{
    Values::Each(values)
}
