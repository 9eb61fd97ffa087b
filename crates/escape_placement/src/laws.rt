//! Laws. Each function carries one as its clause, and does nothing.

ghost use Rattle.escape_placement.specs.Laws.{FlowsAreFormed, OrderIsKept, PlacedExactly, ReasonsCount};

/// The flows of a program in form, whose sites fit it, have what the analysis asks of flows.
pub fn flows_are_formed()
    ensures { FlowsAreFormed }
{}

/// Its functions in the order of their calls are in the order that the analysis asks.
pub fn order_is_kept()
    ensures { OrderIsKept }
{}

/// Where a reason is told, the site is on the heap.
pub fn reasons_count()
    ensures { ReasonsCount }
{}

/// The variables of a site live on the heap exactly where they are there whatever flows, or something that outlives them may
/// hold their address.
pub fn placed_exactly()
    ensures { PlacedExactly }
{}
