//! The report of an analysis.

ghost use Rattle.std.specs.Prelude.{◌≡◌, length, vec_len, IfOk};
ghost use Rattle.explain.specs.Lines.{report_text, AreNames};
ghost use Rattle.explain.specs.Passing.{IsCounted, IsReadable};

use crate::names::SiteName;
use crate::sites::put_sites;
use crate::tags::put_funcs;
use base::NoMemory;
use param_tags::Solved;
use std::alloc::Global;
use value_flows::Program;

/// The report of an analysis: a line for each site, with a path where a flow put it on the heap, and the tags of each
/// parameter that has a name. A parameter without tags flows nowhere. The lines can be read back where the program has at
/// most 2^32 sites, functions, and parameters of each function.
pub fn report(
    alloc: Global,
    program: &Program,
    names: &[SiteName],
    solved: &Solved,
) -> Result<Vec<u8>, NoMemory>
    requires sites { length names.now ≡ vec_len program.now.sites }
    requires placed { vec_len solved.now.placed ≡ vec_len program.now.sites }
    requires paths { vec_len solved.now.paths ≡ vec_len program.now.sites }
    requires named { AreNames names.now }
    ensures text { IfOk result (λ v. v.items ≡ report_text program.now names.now solved.now) }
    ensures readable { IfOk result (λ v. IsCounted program.now → IsReadable program.now names.now solved.now) }
{
    let mut text = Vec::new(alloc);
    let Ok(()) = put_sites(&mut text, names, solved) else {
        return Err(NoMemory);
    };
    let Ok(()) = put_funcs(&mut text, &program.funcs, &solved.tags) else {
        return Err(NoMemory);
    };
    Ok(text)
}
