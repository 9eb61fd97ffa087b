//! What the analysis and its report ask of a program and of the names of its sites.

ghost use Rattle.std.specs.Prelude.{◌≡◌, ◌↔◌, ◌≤◌, ◌^◌, IsTrue, length};
ghost use Rattle.std.specs.List.{Contains};
ghost use Rattle.value_flows.specs.declared.program.Func.{Func as AnyFunc};
ghost use Rattle.value_flows.specs.View.{program_of};
ghost use Rattle.param_tags.specs.Order.{IsFormed};
ghost use Rattle.flow_batches.specs.Batches.{CallsAreThere};
ghost use Rattle.flow_batches.specs.Standing.{IsStanding};
ghost use Rattle.explain.specs.Lines.{IsGoodName, AreNames};
ghost use Rattle.explain.specs.Passing.{IsCounted};
ghost use Rattle.explain.specs.Ready.{IsReady};

use crate::names::SiteName;
use flow_batches::{is_formed, is_standing};
use value_flows::{Func, Program};

/// How many things numbers of 32 bits can count.
const MOST: usize = 1 << 32;

/// Whether a name has a byte at least, no space, and no newline.
fn is_good_name(name: &[u8]) -> bool
    ensures { IsTrue result ↔ IsGoodName name.now }
{
    !name.is_empty() && !name.contains(&b' ') && !name.contains(&b'\n')
}

/// Whether each name is such a one.
fn are_names(names: &[SiteName]) -> bool
    ensures { IsTrue result ↔ AreNames names.now }
{
    names.iter().all(|name| is_good_name(&name.name))
}

/// Whether the parameters of each function have numbers of 32 bits.
fn have_few_params(funcs: &[Func]) -> bool
    ensures { IsTrue result ↔ ((f : AnyFunc) → Contains funcs.now f → length f.params.items ≤ 2 ^ 32) }
{
    funcs.iter().all(|func| func.params.len() <= MOST)
}

/// Whether the sites, the functions, and the parameters of each of them have numbers of 32 bits.
fn is_counted(program: &Program) -> bool
    ensures { IsTrue result ↔ IsCounted program.now }
{
    program.sites.len() <= MOST && program.funcs.len() <= MOST && have_few_params(&program.funcs)
}

/// Whether a program has the form that the analysis asks, and its graph stands.
fn is_analysed(program: &Program) -> bool
    ensures { IsTrue result ↔ (IsFormed (program_of program.now) × CallsAreThere (program_of program.now)
        × IsStanding (program_of program.now)) }
{
    is_formed(program) && is_standing(program)
}

/// Whether each site has a name.
fn is_named(program: &Program, names: &[SiteName]) -> bool
    ensures { IsTrue result ↔ ((length names.now ≡ length program.now.sites.items) × AreNames names.now) }
{
    names.len() == program.sites.len() && are_names(names)
}

/// Whether `explained` takes a program with these names: the program has the form that `is_formed` and `is_standing` of
/// `flow_batches` test, each site has a name with a byte at least, no space and no newline, and there are at most 2^32 sites,
/// functions, and parameters of each function.
pub fn is_ready(program: &Program, names: &[SiteName]) -> bool
    ensures { IsTrue result ↔ IsReady program.now names.now }
{
    is_analysed(program) && is_named(program, names) && is_counted(program)
}
