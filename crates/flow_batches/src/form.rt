//! The form that the analysis asks of programs: what stands in a function is its own, and what it calls is there.

ghost use Rattle.std.specs.Prelude.{◌≡◌, ◌↔◌, IsTrue, map};
ghost use Rattle.std.specs.List.{list_all};
ghost use Rattle.std.specs.Option.{option_map};
ghost use Rattle.value_flows.specs.View.{val_of, vals_of, exs_of, act_of, result_of, func_of, program_of};
ghost use Rattle.param_tags.specs.Order.{IsFormed};
ghost use Rattle.flow_batches.specs.Batches.{CallsAreThere};
ghost use Rattle.flow_batches.specs.Form.{is_of, may_be_of, is_in, goes_in, fits, each_fits, all_fit, act_fits, func_fits};

use base::SiteId;
use deref_walk::Loc;
use value_flows::{Act, Func, FuncResult, Program, Site, Target, Value, Values};

/// Whether a site is a function's.
fn is_of(program: &Program, f: usize, x: SiteId) -> bool
    ensures { result ≡ is_of (program_of program.now) f x.0 }
{
    match program.sites.get(x.0 as usize) {
        Some(Site { func: Some(g), .. }) => g.0 as usize == f,
        _ => false,
    }
}

/// Whether a site is a function's, if there is one.
fn may_be_of(program: &Program, f: usize, x: Option<SiteId>) -> bool
    ensures { result ≡ may_be_of (program_of program.now) f (option_map (λ y. y.0) x) }
{
    match x {
        Some(x) => is_of(program, f, x),
        None => true,
    }
}

/// Whether a location is the heap or a function's.
fn is_in(program: &Program, f: usize, at: Loc) -> bool
    ensures { result ≡ is_in (program_of program.now) f at }
{
    match at {
        Loc::Site(x) | Loc::Carry(x) => is_of(program, f, x),
        Loc::Result(g, _) => g.0 as usize == f,
        Loc::Heap => true,
    }
}

/// Whether a target is, if there is one.
fn goes_in(program: &Program, f: usize, target: Option<Target>) -> bool
    ensures { result ≡ goes_in (program_of program.now) f target }
{
    match target {
        Some(target) => is_in(program, f, target.to),
        None => true,
    }
}

/// Whether the sites of a value are the function's, and each function that it calls is there.
#[cycle(values)]
#[tactic(auto, using(value_flows::proofs::Rows::value_rows))]
fn fits(program: &Program, f: usize, v: &Value) -> bool
    ensures { result ≡ fits (program_of program.now) f (val_of v.now) }
{
    match v {
        Value::Variable(x) | Value::Address(x) => is_of(program, f, *x),
        Value::Inside(_, v) | Value::Behind(v) => {
            let v: &Value = v;
            fits(program, f, v)
        }
        Value::Parts(vs) => each_fits(program, f, vs),
        Value::Beside(vs, v) => {
            let v: &Value = v;
            each_fits(program, f, vs) && fits(program, f, v)
        }
        Value::Sent(target, v) => {
            let v: &Value = v;
            is_in(program, f, target.to) && fits(program, f, v)
        }
        Value::Call(g, arguments) => {
            let arguments: &Values = arguments;
            (g.0 as usize) < program.funcs.len() && all_fit(program, f, arguments)
        }
    }
}

/// Whether each of some values fits so.
#[cycle(values)]
fn each_fits(program: &Program, f: usize, vs: &[Value]) -> bool
    ensures { result ≡ each_fits (program_of program.now) f (vals_of vs.now) }
{
    for v in vs {
        if !fits(program, f, v) {
            return false;
        }
    }
    true
}

/// Whether the values of an assignment, a call or a return do.
#[cycle(values)]
#[tactic(auto, using(value_flows::proofs::Rows::value_rows))]
fn all_fit(program: &Program, f: usize, values: &Values) -> bool
    ensures { result ≡ all_fit (program_of program.now) f (exs_of values.now) }
{
    match values {
        Values::Each(vs) => each_fits(program, f, vs),
        Values::Results(g, arguments) => {
            let arguments: &Values = arguments;
            (g.0 as usize) < program.funcs.len() && all_fit(program, f, arguments)
        }
    }
}

/// Whether each of some targets is in a function, where there is one.
fn all_go_in(program: &Program, f: usize, targets: &[Option<Target>]) -> bool
    ensures { result ≡ list_all (goes_in (program_of program.now) f) targets.now }
{
    targets.iter().all(|target| goes_in(program, f, *target))
}

/// Whether an act fits.
fn act_fits(program: &Program, f: usize, act: &Act) -> bool
    ensures { result ≡ act_fits (program_of program.now) f (act_of act.now) }
{
    match act {
        Act::Give(values, targets) => all_fit(program, f, values) && all_go_in(program, f, targets),
        Act::Carry(x) => is_of(program, f, *x),
    }
}

/// Whether the sites of parameters are the function's.
fn params_fit(program: &Program, f: usize, params: &[Option<SiteId>]) -> bool
    ensures { result ≡ list_all (may_be_of (program_of program.now) f) (map (option_map (λ x. x.0)) params.now) }
{
    params.iter().all(|x| may_be_of(program, f, *x))
}

/// Whether those of results are.
fn results_fit(program: &Program, f: usize, results: &[FuncResult]) -> bool
    ensures { result ≡ list_all (λ r. may_be_of (program_of program.now) f r.site) (map result_of results.now) }
{
    results.iter().all(|r| may_be_of(program, f, r.site))
}

/// Whether each of some acts fits.
fn acts_fit(program: &Program, f: usize, acts: &[Act]) -> bool
    ensures { result ≡ list_all (act_fits (program_of program.now) f) (map act_of acts.now) }
{
    acts.iter().all(|act| act_fits(program, f, act))
}

/// Whether a function fits: what stands in it is its own, and what it calls is there.
fn func_fits(program: &Program, f: usize, func: &Func) -> bool
    ensures { result ≡ func_fits (program_of program.now) f (func_of func.now) }
{
    params_fit(program, f, &func.params)
        && results_fit(program, f, &func.results)
        && acts_fit(program, f, &func.body)
}

/// Whether what the analysis asks of a program holds: the sites, targets and results in each function are its own, and each
/// function that is called is there.
pub fn is_formed(program: &Program) -> bool
    ensures { IsTrue result ↔ (IsFormed (program_of program.now) × CallsAreThere (program_of program.now)) }
{
    for (f, func) in program.funcs.iter().enumerate() {
        if !func_fits(program, f, func) {
            return false;
        }
    }
    true
}
