//! The placement that the analysis gives.

ghost use Rattle.std.specs.Prelude.{◌≡◌, IfOk};
ghost use Rattle.placement.specs.Told.{placement_of};
ghost use Rattle.param_tags.specs.Heap.{is_on};
ghost use Rattle.escape_placement.specs.Placed.{placed_by};

use base::{NoMemory, SiteId};
use param_tags::Solved;
use placement::Placement;
use std::alloc::Global;
use value_flows::Placed;

/// Whether a home is one of the heap.
fn is_on(home: Placed) -> bool
    ensures { result ≡ is_on home }
{
    match home {
        Placed::Stack => false,
        Placed::Known(_) | Placed::Flow(_) => true,
    }
}

/// The placement of what was solved: the variables of a site live on the heap exactly where its home is there. Errs where memory
/// is refused; more sites than can have numbers count as such.
pub fn place(alloc: Global, solved: &Solved) -> Result<Placement, NoMemory>
    ensures { IfOk result (λ l. placement_of l ≡ placed_by solved.now.placed.items) }
{
    let mut placement = Placement::new(alloc);
    for (site, home) in solved.placed.iter().enumerate() {
        if is_on(*home) {
            let number = u32::try_from(site).map_err(|_| NoMemory)?;
            placement.put_on_heap(SiteId(number))?;
        }
    }
    Ok(placement)
}
