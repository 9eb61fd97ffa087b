//! What a graph says of locations and edges.

ghost use Rattle.std.specs.Prelude.{◌≡◌};
ghost use Rattle.report_checks.specs.Verdict.{is_there, is_edge, is_named_result, outlives_all, same_func, is_deeper, lies_outside};

use base::FuncId;
use deref_walk::{Edge, Loc, Location, is_same};

/// Whether a graph has a location.
pub(crate) fn is_there(locations: &[Location], l: Loc) -> bool
    ensures { result ≡ is_there locations.now l }
{
    locations.iter().any(|x| is_same(x.loc, l))
}

/// Whether a graph has an edge.
pub(crate) fn is_edge(edges: &[Edge], to: Loc, from: Loc, weight: i32) -> bool
    ensures { result ≡ is_edge edges.now to from weight }
{
    edges.iter().any(|e| is_same(e.to, to) && is_same(e.from, from) && e.weight == weight)
}

/// Whether a location is a result with a name.
fn is_named_result(locations: &[Location], l: Loc) -> bool
    ensures { result ≡ is_named_result locations.now l }
{
    locations.iter().any(|x| is_same(x.loc, l) && x.result)
}

/// Whether a location outlives every site: the heap and results do.
#[tactic(auto, unfolding(crate::specs::Verdict::outlives_all))]
pub(crate) fn outlives_all(locations: &[Location], l: Loc) -> bool
    ensures { result ≡ outlives_all locations.now l }
{
    match l {
        Loc::Heap | Loc::Result(_, _) => true,
        Loc::Site(_) => is_named_result(locations, l),
        Loc::Carry(_) => false,
    }
}

/// Whether two locations lie in one function.
#[tactic(auto, unfolding(crate::specs::Verdict::same_func))]
fn same_func(a: Option<FuncId>, b: Option<FuncId>) -> bool
    ensures { result ≡ same_func a b }
{
    match (a, b) {
        (Some(f), Some(g)) => f.0 == g.0,
        _ => false,
    }
}

/// Whether a location lies in the function of another one, at a greater depth.
fn is_deeper(locations: &[Location], outer: &Location, l: Loc) -> bool
    ensures { result ≡ is_deeper locations.now outer.now l }
{
    locations.iter().any(|x| is_same(x.loc, l)
        && same_func(outer.func, x.func)
        && outer.depth < x.depth)
}

/// Whether a location lies in the function of another one, at a smaller depth.
pub(crate) fn lies_outside(locations: &[Location], outer: Loc, l: Loc) -> bool
    ensures { result ≡ lies_outside locations.now outer l }
{
    locations
        .iter()
        .any(|x| is_same(x.loc, outer) && is_deeper(locations, x, l))
}
