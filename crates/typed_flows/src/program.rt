//! Functions, sites and programs.

ghost use Rattle.std.specs.Prelude.{◌≡◌, map, slice_get, IfOk};
ghost use Rattle.std.specs.Option.{option_map};
ghost use Rattle.typed.specs.View.{func_of, program_of, site_in};
ghost use Rattle.typed.specs.Trees.{trees};
ghost use Rattle.value_flows.specs.View.{func_of as flow_func_of, program_of as flow_program_of, result_of};
ghost use Rattle.typed_flows.specs.Flows.{flows_of, func_flows, funcs_flows, is_result, known_by, result_location, result_targets, results_of, site_flows};

use crate::context::Context;
use crate::pointers::pointers;
use crate::statements::add_stmts;
use base::{FuncId, NoMemory, SiteId};
use deref_walk::Loc;
use std::alloc::Global;
use typed::{HeapReason, SiteKind};
use value_flows::{Func, FuncResult, Known, Program, Site, Target};

/// The site of a result by its number, if results have names.
fn named_site(named: &[SiteId], j: usize) -> Option<SiteId>
    ensures { option_map (λ x. x.0) result ≡ slice_get (map (λ x. x.0) named.now) j }
{
    named.get(j).copied()
}

/// The results of a function, with the sites of those that have names.
fn results_of(context: Context<'_>, func: &typed::Func) -> Result<Vec<FuncResult>, NoMemory>
    ensures { IfOk result (λ v. map result_of v.items ≡ results_of
        (func_of (trees context.entry.program.now.types) func.now)) }
{
    let mut results = Vec::new(context.alloc);
    for (j, id) in func.results.iter().enumerate() {
        results.push(FuncResult {
            site: named_site(&func.named, j),
            pointers: context.has(*id),
        })?;
    }
    Ok(results)
}

/// The location of a function's result with this number: its site where it has a name.
fn result_location(f: FuncId, j: u32, which: FuncResult) -> Loc
    ensures { result ≡ result_location f.0 j (result_of which).site }
{
    match which.site {
        None => Loc::Result(f, j),
        Some(x) => Loc::Site(x),
    }
}

/// What gets the results of a function.
fn result_targets(
    alloc: Global,
    f: FuncId,
    results: &[FuncResult],
) -> Result<Vec<Option<Target>>, NoMemory>
    ensures { IfOk result (λ v. v.items ≡ result_targets f.0 0 (map result_of results.now)) }
{
    let mut targets = Vec::new(alloc);
    for (j, which) in results.iter().enumerate() {
        let number = u32::try_from(j).map_err(|_| NoMemory)?;
        targets.push(Some(Target {
            to: result_location(f, number, *which),
            by: 0,
        }))?;
    }
    Ok(targets)
}

/// What flows in the function that has this number.
fn func(context: Context<'_>, f: FuncId, func: &typed::Func) -> Result<Func, NoMemory>
    ensures { IfOk result (λ r. flow_func_of r ≡ func_flows (program_of context.entry.program.now) f.0
        (func_of (trees context.entry.program.now.types) func.now)) }
{
    let results = results_of(context, func)?;
    let returned = result_targets(context.alloc, f, &results)?;
    let mut body = Vec::new(context.alloc);
    add_stmts(&mut body, context, &returned, &func.body)?;
    let params = Vec::from_slice(context.alloc, &func.params)?;
    Ok(Func {
        first_site: func.first_site,
        sites: func.sites,
        params,
        results,
        body,
    })
}

/// What flows in the functions of a program.
fn funcs(context: Context<'_>) -> Result<Vec<Func>, NoMemory>
    ensures { IfOk result (λ v. map flow_func_of v.items
        ≡ funcs_flows (program_of context.entry.program.now) 0 (program_of context.entry.program.now).funcs) }
{
    let mut all = Vec::new(context.alloc);
    for (index, one) in context.program.funcs.iter().enumerate() {
        let number = u32::try_from(index).map_err(|_| NoMemory)?;
        all.push(func(context, FuncId(number), one)?)?;
    }
    Ok(all)
}

/// Why a site's variables are on the heap, if they are there whatever flows.
fn known_by(reason: Option<HeapReason>) -> Option<Known>
    ensures { result ≡ known_by reason }
{
    match reason {
        None => None,
        Some(HeapReason::Package) => Some(Known::Package),
        Some(HeapReason::Size) => Some(Known::Size),
        Some(HeapReason::Unknown) => Some(Known::Unknown),
    }
}

/// What makes variables of a kind is a result.
fn is_result(kind: SiteKind) -> bool
    ensures { result ≡ is_result kind }
{
    match kind {
        SiteKind::Result => true,
        SiteKind::Package
        | SiteKind::Parameter
        | SiteKind::Variable
        | SiteKind::New
        | SiteKind::Make
        | SiteKind::Append
        | SiteKind::Literal
        | SiteKind::SliceLiteral
        | SiteKind::Range => false,
    }
}

/// What flows ask of a site.
fn site(site: &typed::Site) -> Site
    ensures { result ≡ site_flows site.now }
{
    Site {
        func: site.func,
        depth: site.depth,
        result: is_result(site.kind),
        carried: site.carried,
        known: known_by(site.known),
    }
}

/// The sites of a program.
fn sites(alloc: Global, all: &[typed::Site]) -> Result<Vec<Site>, NoMemory>
    ensures { IfOk result (λ v. v.items ≡ map site_flows all.now) }
{
    let mut sites = Vec::new(alloc);
    for one in all {
        sites.push(site(one))?;
    }
    Ok(sites)
}

/// What flows in a program. More functions or results than can have numbers count as want of memory.
pub fn flows(alloc: Global, program: &typed::Program) -> Result<Program, NoMemory>
    ensures { IfOk result (λ r. flow_program_of r ≡ flows_of (program_of program.now) program.now.sites.items) }
{
    let pointers = pointers(alloc, &program.types)?;
    let context = Context {
        alloc,
        program,
        pointers: &pointers,
    };
    let funcs = funcs(context)?;
    let sites = sites(alloc, &program.sites)?;
    Ok(Program { funcs, sites })
}
