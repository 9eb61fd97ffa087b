//! Rounds over what locations may hold.

ghost use Rattle.std.specs.Prelude.{◌≡◌, ◌<◌, [], ◌∷◌, length, All};
ghost use Rattle.value_flows.specs.View.{program_of};
ghost use Rattle.param_tags.specs.Heap.{is_on, placed_at, heap_of, is_result, same_func, outside, outlives};
ghost use Rattle.param_tags.specs.Rounds.{Joins, IsRound, IsJoined};

use crate::walks::Hold;
use base::{FuncId, SiteId};
use deref_walk::Loc;
use value_flows::{Placed, Program};

/// Whether a home is one of the heap.
fn is_on(home: Placed) -> bool
    ensures { result ≡ is_on home }
{
    match home {
        Placed::Stack => false,
        Placed::Known(_) => true,
        Placed::Flow(_) => true,
    }
}

/// The home of a site.
pub fn placed_at(placed: &[Placed], l: SiteId) -> Placed
    ensures { result ≡ placed_at placed.now l.0 }
{
    match placed.get(l.0 as usize) {
        None => Placed::Stack,
        Some(home) => *home,
    }
}

/// Whether a site is on the heap.
pub fn is_on_heap(placed: &[Placed], site: SiteId) -> bool
    ensures { result ≡ heap_of placed.now site.0 }
{
    is_on(placed_at(placed, site))
}

/// Whether a site is a result of its function.
fn is_result(program: &Program, site: SiteId) -> bool
    ensures { result ≡ is_result (program_of program.now) site.0 }
{
    match program.sites.get(site.0 as usize) {
        None => false,
        Some(site) => site.result,
    }
}

/// Whether two sites stand in one function, by the functions that they stand in.
fn is_same_func(a: Option<FuncId>, b: Option<FuncId>) -> bool
    ensures { result ≡ same_func a b }
{
    match a {
        None => false,
        Some(f) => match b {
            None => false,
            Some(g) => f.0 == g.0,
        },
    }
}

/// Whether a site is of another one's function, at a smaller depth, where the first one's is less by so much.
fn is_outside(program: &Program, m: SiteId, less: u32, l: SiteId) -> bool
    ensures { result ≡ outside (program_of program.now) m.0 less l.0 }
{
    match program.sites.get(m.0 as usize) {
        None => false,
        Some(a) => match program.sites.get(l.0 as usize) {
            None => false,
            Some(b) => is_same_func(a.func, b.func) && a.depth.saturating_sub(less) < b.depth,
        },
    }
}

/// Whether a location outlives the variables of a site.
fn is_outliving(program: &Program, placed: &[Placed], r: Loc, l: SiteId) -> bool
    ensures { result ≡ outlives (program_of program.now) (heap_of placed.now) r l.0 }
{
    match r {
        Loc::Site(m) => is_on_heap(placed, m)
            || is_result(program, m)
            || is_outside(program, m, 0, l),
        Loc::Result(_, _) => true,
        Loc::Heap => true,
        Loc::Carry(m) => is_outside(program, m, 1, l),
    }
}

/// Looks at one pair: whether its site joins.
fn look(program: &Program, placed: &mut [Placed], hold: &Hold) -> bool
    requires { hold.now.site.0 < length placed.old }
    ensures joins { Joins (program_of program.now) (hold.now ∷ []) placed.old placed.new }
    ensures round { IsRound (program_of program.now) (hold.now ∷ []) placed.old placed.new result }
{
    if is_on_heap(placed, hold.site) || !is_outliving(program, placed, hold.root, hold.site) {
        return false;
    }
    placed[hold.site.0 as usize] = Placed::Flow(hold.root);
    true
}

/// Looks at all pairs: whether a site joined.
fn round(program: &Program, placed: &mut [Placed], holds: &[Hold]) -> bool
    requires { All (λ h. h.site.0 < length placed.old) holds.now }
    ensures joins { Joins (program_of program.now) holds.now placed.old placed.new }
    ensures round { IsRound (program_of program.now) holds.now placed.old placed.new result }
{
    let mut joined = false;
    for hold in holds {
        if look(program, placed, hold) {
            joined = true;
        }
    }
    joined
}

/// Lets sites join until none can.
pub fn join(program: &Program, placed: &mut [Placed], holds: &[Hold])
    requires { All (λ h. h.site.0 < length placed.old) holds.now }
    ensures { IsJoined (program_of program.now) holds.now placed.old placed.new }
{
    while round(program, placed, holds) {}
}
