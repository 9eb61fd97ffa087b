//! The placement of a typed program by its analysis.

ghost use Rattle.std.specs.Prelude.{◌≡◌, map, IfOk};
ghost use Rattle.typed.specs.View.{program_of};
ghost use Rattle.call_order.specs.Order.{batch_lists};
ghost use Rattle.flow_batches.specs.Batches.{number_lists};
ghost use Rattle.placement.specs.Told.{placement_of};
ghost use Rattle.escape_placement.specs.Sites.{IsSited};
ghost use Rattle.escape_placement.specs.Whole.{IsEscapePlacement};

use crate::placing::place;
use base::{FuncId, NoMemory};
use call_order::{Batches, order};
use param_tags::solve;
use placement::Placement;
use std::alloc::Global;
use typed::Program;
use typed_flows::flows;

/// Batches as lists of functions.
fn lists_of(alloc: Global, batches: &Batches) -> Result<Vec<Vec<FuncId>>, NoMemory>
    ensures { IfOk result (λ v. number_lists (map (λ b. b.items) v.items) ≡ batch_lists batches.now.batches.items) }
{
    let mut lists = Vec::new(alloc);
    for batch in &batches.batches {
        let list = Vec::from_slice(alloc, &batch.funcs)?;
        lists.push(list)?;
    }
    Ok(lists)
}

/// The placement of a program by its escape analysis, which goes in the order of its calls. The program must be in form, and its
/// sites must fit it. Errs where memory is refused, or a number is too great.
pub fn analysed(alloc: Global, program: &Program) -> Result<Placement, NoMemory>
    requires { IsSited program.now }
    ensures { IfOk result (λ l. IsEscapePlacement (program_of program.now) program.now.sites.items (placement_of l)) }
{
    let flows = flows(alloc, program)?;
    let order = order(alloc, program)?;
    let batches = lists_of(alloc, &order)?;
    let solved = solve(alloc, &flows, &batches)?;
    place(alloc, &solved)
}
