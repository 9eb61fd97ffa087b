//! What the graph of a whole program asks of it: a function's sites stand where it says, and what values go to is there.

ghost use Rattle.std.specs.Prelude.{◌≡◌, ◌↔◌, IsTrue, map, take, drop, slice_get};
ghost use Rattle.std.specs.List.{list_all};
ghost use Rattle.value_flows.specs.View.{val_of, vals_of, exs_of, act_of, func_of, program_of};
ghost use Rattle.escape_graph.specs.Edges.{results_of};
ghost use Rattle.flow_batches.specs.Standing.{IsStanding};
ghost use Rattle.flow_batches.specs.Tested.{all_from, has_func, is_among, is_right, is_unnamed, is_carried, has, goes_to};
ghost use Rattle.flow_batches.specs.Tested.{stands, each_stands, all_stand, act_stands, func_stands};

use base::{FuncId, SiteId};
use deref_walk::Loc;
use value_flows::{Act, Func, FuncResult, Program, Site, Target, Value, Values};

/// Whether a site is a function's.
fn has_func(site: &Site, f: usize) -> bool
    ensures { result ≡ has_func f site.now }
{
    match site.func {
        Some(g) => g.0 as usize == f,
        None => false,
    }
}

/// The sites that a function says are its own.
fn sites_of<'a>(sites: &'a [Site], func: &Func) -> &'a [Site]
    ensures { result.now ≡ take func.now.sites (drop func.now.first_site sites.now) }
{
    let rest = &sites[(func.first_site as usize).min(sites.len())..];
    &rest[..(func.sites as usize).min(rest.len())]
}

/// Whether some sites are a function's.
fn have_func(sites: &[Site], f: usize) -> bool
    ensures { result ≡ list_all (has_func f) sites.now }
{
    sites.iter().all(|site| has_func(site, f))
}

/// Whether a number is among those of a function's sites.
fn is_among(program: &Program, x: usize, f: FuncId) -> bool
    ensures { result ≡ is_among x (slice_get (program_of program.now).funcs f.0) }
{
    match program.funcs.get(f.0 as usize) {
        Some(func) => {
            let first = func.first_site as usize;
            x >= first && x - first < func.sites as usize
        }
        None => false,
    }
}

/// Whether a site is among those of the function that it has, if it has one.
fn is_right(program: &Program, x: usize, site: &Site) -> bool
    ensures { result ≡ is_right (program_of program.now) x site.now }
{
    match site.func {
        Some(f) => is_among(program, x, f),
        None => true,
    }
}

/// Whether each site is.
fn are_right(program: &Program) -> bool
    ensures { result ≡ all_from (is_right (program_of program.now)) 0 program.now.sites.items }
{
    for (x, site) in program.sites.iter().enumerate() {
        if !is_right(program, x, site) {
            return false;
        }
    }
    true
}

/// Whether a result is there, and has no name.
fn is_unnamed(program: &Program, f: FuncId, index: u32) -> bool
    ensures { result ≡ is_unnamed (slice_get (results_of (program_of program.now) f.0) index) }
{
    match program.funcs.get(f.0 as usize) {
        Some(func) => matches!(
            func.results.get(index as usize),
            Some(FuncResult { site: None, .. })
        ),
        None => false,
    }
}

/// Whether a site is there, and a loop carries it.
fn is_carried(program: &Program, x: SiteId) -> bool
    ensures { result ≡ is_carried (program_of program.now) x.0 }
{
    match program.sites.get(x.0 as usize) {
        Some(site) => site.carried,
        None => false,
    }
}

/// Whether a location is there, where it is no site.
fn has(program: &Program, at: Loc) -> bool
    ensures { result ≡ has (program_of program.now) at }
{
    match at {
        Loc::Site(_) | Loc::Heap => true,
        Loc::Result(f, index) => is_unnamed(program, f, index),
        Loc::Carry(x) => is_carried(program, x),
    }
}

/// Whether a target is, if there is one.
fn goes_to(program: &Program, target: Option<Target>) -> bool
    ensures { result ≡ goes_to (program_of program.now) target }
{
    match target {
        Some(target) => has(program, target.to),
        None => true,
    }
}

/// Whether what a value is sent to is there.
#[cycle(values)]
#[tactic(auto, using(value_flows::proofs::Rows::value_rows))]
fn stands(program: &Program, v: &Value) -> bool
    ensures { result ≡ stands (program_of program.now) (val_of v.now) }
{
    match v {
        Value::Variable(_) | Value::Address(_) => true,
        Value::Inside(_, v) | Value::Behind(v) => {
            let v: &Value = v;
            stands(program, v)
        }
        Value::Parts(vs) => each_stands(program, vs),
        Value::Beside(vs, v) => {
            let v: &Value = v;
            each_stands(program, vs) && stands(program, v)
        }
        Value::Sent(target, v) => {
            let v: &Value = v;
            has(program, target.to) && stands(program, v)
        }
        Value::Call(_, arguments) => {
            let arguments: &Values = arguments;
            all_stand(program, arguments)
        }
    }
}

/// Whether that of each of some values is.
#[cycle(values)]
fn each_stands(program: &Program, vs: &[Value]) -> bool
    ensures { result ≡ each_stands (program_of program.now) (vals_of vs.now) }
{
    for v in vs {
        if !stands(program, v) {
            return false;
        }
    }
    true
}

/// Whether that of the values of an assignment, a call or a return is.
#[cycle(values)]
#[tactic(auto, using(value_flows::proofs::Rows::value_rows))]
fn all_stand(program: &Program, values: &Values) -> bool
    ensures { result ≡ all_stand (program_of program.now) (exs_of values.now) }
{
    match values {
        Values::Each(vs) => each_stands(program, vs),
        Values::Results(_, arguments) => {
            let arguments: &Values = arguments;
            all_stand(program, arguments)
        }
    }
}

/// Whether each of some targets is there, where there is one.
fn all_go_to(program: &Program, targets: &[Option<Target>]) -> bool
    ensures { result ≡ list_all (goes_to (program_of program.now)) targets.now }
{
    targets.iter().all(|target| goes_to(program, *target))
}

/// Whether what an act's values go to is there.
fn act_stands(program: &Program, act: &Act) -> bool
    ensures { result ≡ act_stands (program_of program.now) (act_of act.now) }
{
    match act {
        Act::Give(values, targets) => all_stand(program, values) && all_go_to(program, targets),
        Act::Carry(x) => is_carried(program, *x),
    }
}

/// Whether that of each of some acts is.
fn acts_stand(program: &Program, acts: &[Act]) -> bool
    ensures { result ≡ list_all (act_stands (program_of program.now)) (map act_of acts.now) }
{
    acts.iter().all(|act| act_stands(program, act))
}

/// Whether a function's sites are its own, and what its values go to is there.
fn func_stands(program: &Program, f: usize, func: &Func) -> bool
    ensures { result ≡ func_stands (program_of program.now) f (func_of func.now) }
{
    have_func(sites_of(&program.sites, func), f) && acts_stand(program, &func.body)
}

/// Whether each function's are.
fn funcs_stand(program: &Program) -> bool
    ensures { result ≡ all_from (func_stands (program_of program.now)) 0 (map func_of program.now.funcs.items) }
{
    for (f, func) in program.funcs.iter().enumerate() {
        if !func_stands(program, f, func) {
            return false;
        }
    }
    true
}

/// Whether what the graph of the whole program asks holds: a site has a function exactly where it is among the sites of this
/// function; and each result and each variable carried by a loop that values go to is there, a result without a name.
pub fn is_standing(program: &Program) -> bool
    ensures { IsTrue result ↔ IsStanding (program_of program.now) }
{
    are_right(program) && funcs_stand(program)
}
