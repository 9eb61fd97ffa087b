//! Laws. Each function carries one as its clause, and does nothing.

ghost use Rattle.report_checks.specs.Report.{PassedIsReport};

/// A report that passes is one of the graph: each site of the graph has one line, the steps of each path are edges with their sums,
/// from its root to the address of the site, and the root is the heap, a result, of smaller depth, or put on the heap by the
/// report itself.
pub fn sound()
    ensures { PassedIsReport }
{}
