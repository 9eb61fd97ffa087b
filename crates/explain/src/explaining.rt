//! The analysis of a program, and its report.

ghost use Rattle.std.specs.Prelude.{IfOk};
ghost use Rattle.explain.specs.Ready.{IsReady};
ghost use Rattle.explain.specs.Explained.{IsExplained};

use crate::names::SiteName;
use crate::reporting::report;
use base::NoMemory;
use flow_batches::batches_of;
use param_tags::solve;
use std::alloc::Global;
use value_flows::Program;

/// Analyses a program, and gives the report of its solution, which passes the check against the program's graph. The program
/// and the names of its sites must be as `is_ready` tests. Errs where memory is refused, or a number is too great.
pub fn explained(alloc: Global, program: &Program, names: &[SiteName]) -> Result<Vec<u8>, NoMemory>
    requires { IsReady program.now names.now }
    ensures { IfOk result (λ v. IsExplained program.now names.now v.items) }
{
    let batches = batches_of(alloc, program)?;
    let solved = solve(alloc, program, &batches)?;
    report(alloc, program, names, &solved)
}
