//! Laws. Each function carries one as its clause, and does nothing.

ghost use Rattle.explain.specs.Passing.{IsReadBack, SupportedPasses, TagsAscend, OutlivesAlike};

/// The lines of a report's text are those that it was made of, where its names are whole and its numbers have 32 bits.
pub fn report_is_read_back()
    ensures { IsReadBack }
{}

/// The report of a solution passes on a graph that has its sites and the edges of its paths.
pub fn own_report_passes()
    ensures { SupportedPasses }
{}

/// The tags of a solution ascend, as its report asks.
pub fn solved_tags_ascend()
    ensures { TagsAscend }
{}

/// A location of a program that outlives a site there outlives it in the check of a report, too.
pub fn outlives_in_check()
    ensures { OutlivesAlike }
{}
