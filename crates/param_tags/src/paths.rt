//! The paths that tell why sites are on the heap.

ghost use Rattle.std.specs.Prelude.{◌≡◌, ◌∷◌, [], ◌<◌, List, Some, negsuc, All, length, IfOk, OnOk};
ghost use Rattle.deref_walk.specs.declared.graph.Edge.{Edge as AnyEdge};
ghost use Rattle.deref_walk.specs.Flow.{IsLeast};
ghost use Rattle.escape_graph.specs.Targets.{site};
ghost use Rattle.param_tags.specs.Heap.{placed_at};
ghost use Rattle.param_tags.specs.Walks.{AreHolds, AreWalked};
ghost use Rattle.param_tags.specs.Paths.{AddsPaths, IsPath, names};

use crate::rounds::placed_at;
use crate::walks::{Hold, Walked};
use base::NoMemory;
use deref_walk::{Loc, Step, is_same};
use std::alloc::Global;
use value_flows::Placed;

/// Whether a home names a location.
fn names(home: Placed, root: Loc) -> bool
    ensures { result ≡ names home root }
{
    match home {
        Placed::Stack => false,
        Placed::Known(_) => false,
        Placed::Flow(r) => is_same(r, root),
    }
}

/// Whether a site is on the heap by this pair.
fn is_reason(placed: &[Placed], hold: &Hold) -> bool
    ensures { result ≡ names (placed_at placed.now hold.now.site.0) hold.now.root }
{
    names(placed_at(placed, hold.site), hold.root)
}

/// The steps by which a pair's location holds the address of its site, by the walk from there. Errs where memory is refused.
fn path_of(alloc: Global, walks: &[Walked], hold: &Hold) -> Result<Option<Vec<Step>>, NoMemory>
    ensures { IfOk result (λ o. (edges : List AnyEdge) → AreWalked edges walks.now
        → IsLeast edges hold.now.root (site hold.now.site.0) (Some (negsuc 0)) → IsPath edges hold.now.root hold.now.site.0 o) }
{
    for w in walks {
        if is_same(w.root, hold.root) {
            return w.levels.path(alloc, Loc::Site(hold.site));
        }
    }
    Ok(None)
}

/// Sets the path of a pair's site, if that is on the heap by this pair. Errs where memory is refused.
fn add_path(
    alloc: Global,
    placed: &[Placed],
    walks: &[Walked],
    hold: &Hold,
    paths: &mut [Option<Vec<Step>>],
) -> Result<(), NoMemory>
    requires { hold.now.site.0 < length paths.old }
    ensures size { OnOk result (length paths.new ≡ length paths.old) }
    ensures paths { OnOk result ((edges : List AnyEdge) → AreWalked edges walks.now
        → IsLeast edges hold.now.root (site hold.now.site.0) (Some (negsuc 0))
        → AddsPaths edges placed.now (hold.now ∷ []) paths.old paths.new) }
{
    if is_reason(placed, hold) {
        paths[hold.site.0 as usize] = path_of(alloc, walks, hold)?;
    }
    Ok(())
}

/// Sets the path of each site that is on the heap by one of the pairs. Errs where memory is refused.
pub fn add_paths(
    alloc: Global,
    placed: &[Placed],
    walks: &[Walked],
    holds: &[Hold],
    paths: &mut [Option<Vec<Step>>],
) -> Result<(), NoMemory>
    requires { All (λ h. h.site.0 < length paths.old) holds.now }
    ensures size { OnOk result (length paths.new ≡ length paths.old) }
    ensures paths { OnOk result ((edges : List AnyEdge) → AreWalked edges walks.now → AreHolds edges holds.now
        → AddsPaths edges placed.now holds.now paths.old paths.new) }
{
    for hold in holds {
        add_path(alloc, placed, walks, hold, paths)?;
    }
    Ok(())
}
