//! How the programs of the tests are made, and solved.

use base::{FuncId, NoMemory, SiteId};
use deref_walk::Loc;
use flow_batches::{batches_of, is_formed};
use param_tags::{Solved, solve};
use std::alloc::Global;
use std::test::Fail;
use value_flows::{Act, Func, FuncResult, Placed, Program, Site, Target, Value, Values};

/// A site of a function, inside of some loops.
pub fn local(func: u32, depth: u32) -> Site {
    Site {
        func: Some(FuncId(func)),
        depth,
        result: false,
        carried: false,
        known: None,
    }
}

pub fn site(number: u32) -> Loc {
    Loc::Site(SiteId(number))
}

pub fn result(func: u32) -> Loc {
    Loc::Result(FuncId(func), 0)
}

pub fn variable(number: u32) -> Value {
    Value::Variable(SiteId(number))
}

pub fn address(number: u32) -> Value {
    Value::Address(SiteId(number))
}

/// A number, in which no address is held.
pub fn number(alloc: Global) -> Value {
    Value::Parts(Vec::new(alloc))
}

pub fn call(alloc: Global, func: u32, arguments: Vec<Value>) -> Result<Value, NoMemory> {
    Ok(Value::Call(FuncId(func), Box::new(alloc, Values::Each(arguments))?))
}

pub fn behind(alloc: Global, value: Value) -> Result<Value, NoMemory> {
    Ok(Value::Behind(Box::new(alloc, value)?))
}

/// A value goes to a location.
pub fn give(alloc: Global, value: Value, to: Loc) -> Result<Act, NoMemory> {
    let values = vec![in alloc; value]?;
    let targets = vec![in alloc; Some(Target { to, by: 0 })]?;
    Ok(Act::Give(Values::Each(values), targets))
}

/// A value goes nowhere.
pub fn discard(alloc: Global, value: Value) -> Result<Act, NoMemory> {
    let values = vec![in alloc; value]?;
    Ok(Act::Give(Values::Each(values), Vec::new(alloc)))
}

/// A function with parameters that have names, from its first site on, and one result that holds pointers and has no name, or none.
pub fn func(
    alloc: Global,
    sites: (u32, u32),
    params: u32,
    results: u32,
    body: Vec<Act>,
) -> Result<Func, NoMemory> {
    let (first_site, count) = sites;
    let mut named = Vec::new(alloc);
    for k in 0..params {
        named.push(Some(SiteId(first_site.wrapping_add(k))))?;
    }
    let mut unnamed = Vec::new(alloc);
    for _ in 0..results {
        unnamed.push(FuncResult {
            site: None,
            pointers: true,
        })?;
    }
    Ok(Func {
        first_site,
        sites: count,
        params: named,
        results: unnamed,
        body,
    })
}

/// The analysis of a program whose functions name sites of their own alone.
pub fn solved(alloc: Global, program: &Program) -> Result<Solved, Fail> {
    if !is_formed(program) {
        return Err("a site of another function")?;
    }
    let batches = batches_of(alloc, program)?;
    Ok(solve(alloc, program, &batches)?)
}

/// Where the variables of a site live.
pub fn placed(solved: &Solved, number: usize) -> Placed {
    solved.placed.get(number).copied().unwrap_or(Placed::Stack)
}
