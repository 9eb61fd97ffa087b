//! Laws.

ghost use Rattle.param_tags.specs.Monotone.{IsMonotone, IsOneSet};
ghost use Rattle.param_tags.specs.Whole.{FlowsWithin};

/// A flow to a location of a batch goes along edges of this batch alone.
pub fn flows_within()
    ensures { FlowsWithin }
{}

/// What the rules put on the heap under some sites, they put there under these and more.
pub fn rules_are_monotone()
    ensures { IsMonotone }
{}

/// A program has one least set of sites on the heap.
pub fn one_heap_set()
    ensures { IsOneSet }
{}
