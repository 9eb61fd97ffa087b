//! What statements do.

ghost use Rattle.std.specs.Prelude.{◌≡◌, [], ◌∷◌, ◌++◌, map, IfOk, OnOk};
ghost use Rattle.typed.specs.View.{ex_of, exs_of_values, left_of, piece_of, place_of, program_of, site_numbers, st_of, sts_of, test_of};
ghost use Rattle.typed_syntax.specs.Syntax.{blank, over_int, over_copy, over_slice};
ghost use Rattle.value_flows.specs.View.{act_of, exs_of as flow_exs_of, val_of};
ghost use Rattle.value_flows.specs.Syntax as flow;
ghost use Rattle.typed_flows.specs.Values.{arguments, place_value, value};
ghost use Rattle.typed_flows.specs.Flows.{acts as acts_of, all_acts, carried, evaluated, given, where_held, left_target, left_values, lefts_values, place_target};
ghost use Rattle.typed_flows.specs.Flows.{pieces_values, piece_values, test_values, for_head, range_head, gives, return_acts};

use crate::context::Context;
use crate::making::{behind, each, to_heap, to_site};
use crate::values::{place_value, value, values};
use base::{NoMemory, SiteId, TypeId};
use std::alloc::Global;
use typed::{Expr, Left, Piece, Place, Stmt, Values as TypedValues};
use value_flows::{Act, Target, Value};

/// Adds values that go nowhere.
fn evaluate(acts: &mut Vec<Act>, alloc: Global, values: Vec<Value>) -> Result<(), NoMemory>
    ensures { OnOk result (map act_of acts.new.items
        ≡ map act_of acts.old.items ++ evaluated (map val_of values.items) ∷ []) }
{
    acts.push(Act::Give(each(values), Vec::new(alloc)))?;
    Ok(())
}

/// Adds a value that goes to a target, if there is one.
fn give(
    acts: &mut Vec<Act>,
    alloc: Global,
    one: Value,
    target: Option<Target>,
) -> Result<(), NoMemory>
    ensures { OnOk result (map act_of acts.new.items
        ≡ map act_of acts.old.items ++ given (val_of one) target ∷ []) }
{
    let mut all = Vec::new(alloc);
    all.push(one)?;
    let mut targets = Vec::new(alloc);
    targets.push(target)?;
    acts.push(Act::Give(each(all), targets))?;
    Ok(())
}

/// What gets the value that is assigned to a left side.
fn left_target(left: &Left) -> Option<Target>
    ensures { result ≡ left_target (left_of left.now) }
{
    match left {
        Left::Blank => None,
        Left::New(site) => Some(to_site(*site)),
        Left::To(place) => Some(place_target(place)),
    }
}

/// What holds a value that is stored in a place.
#[tactic(auto, using(typed::proofs::Rows::expr_rows))]
fn place_target(place: &Place) -> Target
    ensures { result ≡ place_target (place_of place.now) }
{
    match place {
        Place::Local(site, _) => to_site(*site),
        Place::Global(..) | Place::Indirect(..) | Place::SliceElement(..) => to_heap(),
    }
}

/// What gets the values that are assigned to left sides.
fn left_targets(alloc: Global, lefts: &[Left]) -> Result<Vec<Option<Target>>, NoMemory>
    ensures { IfOk result (λ v. v.items ≡ map left_target (map left_of lefts.now)) }
{
    let mut targets = Vec::new(alloc);
    for left in lefts {
        targets.push(left_target(left))?;
    }
    Ok(targets)
}

/// Adds the operands of a left side.
fn add_left(all: &mut Vec<Value>, context: Context<'_>, left: &Left) -> Result<(), NoMemory>
    ensures { OnOk result (map val_of all.new.items
        ≡ map val_of all.old.items ++ left_values (program_of context.entry.program.now) (left_of left.now)) }
{
    match left {
        Left::Blank => Ok(()),
        Left::New(_) => Ok(()),
        Left::To(place) => {
            all.push(place_value(context, place)?)?;
            Ok(())
        }
    }
}

/// The operands of left sides.
fn lefts_values(context: Context<'_>, lefts: &[Left]) -> Result<Vec<Value>, NoMemory>
    ensures { IfOk result (λ v. map val_of v.items
        ≡ lefts_values (program_of context.entry.program.now) (map left_of lefts.now)) }
{
    let mut all = Vec::new(context.alloc);
    for left in lefts {
        add_left(&mut all, context, left)?;
    }
    Ok(all)
}

/// Adds the operands of the two left sides of a `range`.
fn evaluate_pair(
    acts: &mut Vec<Act>,
    context: Context<'_>,
    key: &Left,
    element: &Left,
) -> Result<(), NoMemory>
    ensures { OnOk result (map act_of acts.new.items ≡ map act_of acts.old.items
        ++ evaluated (lefts_values (program_of context.entry.program.now) (left_of key.now ∷ left_of element.now ∷ [])) ∷ []) }
{
    let mut all = Vec::new(context.alloc);
    add_left(&mut all, context, key)?;
    add_left(&mut all, context, element)?;
    evaluate(acts, context.alloc, all)
}

/// Adds an expression whose value goes nowhere.
fn evaluate_expr(acts: &mut Vec<Act>, context: Context<'_>, e: &Expr) -> Result<(), NoMemory>
    ensures { OnOk result (map act_of acts.new.items ≡ map act_of acts.old.items
        ++ evaluated (value (program_of context.entry.program.now) (ex_of e.now) ∷ []) ∷ []) }
{
    let mut all = Vec::new(context.alloc);
    all.push(value(context, e)?)?;
    evaluate(acts, context.alloc, all)
}

/// Adds a place that is read and written, and the operand of the operator.
fn add_update(
    acts: &mut Vec<Act>,
    context: Context<'_>,
    place: &Place,
    e: &Expr,
) -> Result<(), NoMemory>
    ensures { OnOk result (map act_of acts.new.items ≡ map act_of acts.old.items
        ++ evaluated (place_value (program_of context.entry.program.now) (place_of place.now)
        ∷ value (program_of context.entry.program.now) (ex_of e.now) ∷ []) ∷ []) }
{
    let mut all = Vec::new(context.alloc);
    all.push(place_value(context, place)?)?;
    all.push(value(context, e)?)?;
    evaluate(acts, context.alloc, all)
}

/// Adds a place that is counted up or down.
fn add_bump(acts: &mut Vec<Act>, context: Context<'_>, place: &Place) -> Result<(), NoMemory>
    ensures { OnOk result (map act_of acts.new.items ≡ map act_of acts.old.items
        ++ evaluated (place_value (program_of context.entry.program.now) (place_of place.now) ∷ []) ∷ []) }
{
    let mut all = Vec::new(context.alloc);
    all.push(place_value(context, place)?)?;
    evaluate(acts, context.alloc, all)
}

/// Adds an assignment: the operands of the left sides, and then the values.
fn add_assign(
    acts: &mut Vec<Act>,
    context: Context<'_>,
    lefts: &[Left],
    given: &TypedValues,
) -> Result<(), NoMemory>
    ensures { OnOk result (map act_of acts.new.items ≡ map act_of acts.old.items
        ++ (evaluated (lefts_values (program_of context.entry.program.now) (map left_of lefts.now))
        ∷ flow.give (arguments (program_of context.entry.program.now) (exs_of_values given.now))
        (map left_target (map left_of lefts.now)) ∷ [])) }
{
    let operands = lefts_values(context, lefts)?;
    evaluate(acts, context.alloc, operands)?;
    let targets = left_targets(context.alloc, lefts)?;
    acts.push(Act::Give(values(context, given)?, targets))?;
    Ok(())
}

/// Adds a call whose results are not used.
fn add_discard(
    acts: &mut Vec<Act>,
    context: Context<'_>,
    given: &TypedValues,
) -> Result<(), NoMemory>
    ensures { OnOk result (map act_of acts.new.items ≡ map act_of acts.old.items
        ++ flow.give (arguments (program_of context.entry.program.now) (exs_of_values given.now)) [] ∷ []) }
{
    acts.push(Act::Give(values(context, given)?, Vec::new(context.alloc)))?;
    Ok(())
}

/// Whether a return has values.
#[tactic(auto, using(typed::proofs::Rows::expr_rows, crate::proofs::Rows::gives_is))]
fn gives(given: &TypedValues) -> bool
    ensures { result ≡ gives (exs_of_values given.now) }
{
    match given {
        TypedValues::Each(es) => !es.is_empty(),
        TypedValues::Results(..) | TypedValues::ReadInt => true,
    }
}

/// Adds a return. One without values gives nothing: named results are there already.
fn add_return(
    acts: &mut Vec<Act>,
    context: Context<'_>,
    returned: &[Option<Target>],
    given: &TypedValues,
) -> Result<(), NoMemory>
    ensures { OnOk result (map act_of acts.new.items ≡ map act_of acts.old.items
        ++ return_acts (program_of context.entry.program.now) returned.now (exs_of_values given.now)) }
{
    if !gives(given) {
        return Ok(());
    }
    let targets = Vec::from_slice(context.alloc, returned)?;
    acts.push(Act::Give(values(context, given)?, targets))?;
    Ok(())
}

/// Adds the value of an operand of `print`, `println` or `panic`.
fn add_piece(all: &mut Vec<Value>, context: Context<'_>, piece: &Piece) -> Result<(), NoMemory>
    ensures { OnOk result (map val_of all.new.items
        ≡ map val_of all.old.items ++ piece_values (program_of context.entry.program.now) (piece_of piece.now)) }
{
    match piece {
        Piece::Text(_) => Ok(()),
        Piece::Shown(_, e) => {
            all.push(value(context, e)?)?;
            Ok(())
        }
    }
}

/// Adds what is printed.
fn add_print(acts: &mut Vec<Act>, context: Context<'_>, pieces: &[Piece]) -> Result<(), NoMemory>
    ensures { OnOk result (map act_of acts.new.items ≡ map act_of acts.old.items
        ++ evaluated (pieces_values (program_of context.entry.program.now) (map piece_of pieces.now)) ∷ []) }
{
    let mut all = Vec::new(context.alloc);
    for piece in pieces {
        add_piece(&mut all, context, piece)?;
    }
    evaluate(acts, context.alloc, all)
}

/// Adds what a panic shows.
fn add_panic(acts: &mut Vec<Act>, context: Context<'_>, piece: &Piece) -> Result<(), NoMemory>
    ensures { OnOk result (map act_of acts.new.items ≡ map act_of acts.old.items
        ++ evaluated (piece_values (program_of context.entry.program.now) (piece_of piece.now)) ∷ []) }
{
    let mut all = Vec::new(context.alloc);
    add_piece(&mut all, context, piece)?;
    evaluate(acts, context.alloc, all)
}

/// Adds the variables of a `for` that are carried on to the next round.
fn add_carried(acts: &mut Vec<Act>, context: Context<'_>, sites: &[SiteId]) -> Result<(), NoMemory>
    ensures { OnOk result (map act_of acts.new.items ≡ map act_of acts.old.items
        ++ carried (program_of context.entry.program.now) (site_numbers sites.now)) }
{
    for site in sites {
        if context.site_has(*site) {
            acts.push(Act::Carry(*site))?;
        }
    }
    Ok(())
}

/// Adds the header of a `for`.
fn add_for_head(
    acts: &mut Vec<Act>,
    context: Context<'_>,
    sites: &[SiteId],
    test: &Option<Expr>,
) -> Result<(), NoMemory>
    ensures { OnOk result (map act_of acts.new.items ≡ map act_of acts.old.items
        ++ for_head (program_of context.entry.program.now) (site_numbers sites.now) (test_of test.now)) }
{
    add_carried(acts, context, sites)?;
    let mut all = Vec::new(context.alloc);
    if let Some(e) = test {
        all.push(value(context, e)?)?;
    }
    evaluate(acts, context.alloc, all)
}

/// Adds the header of a `range` over an int.
fn add_count(
    acts: &mut Vec<Act>,
    context: Context<'_>,
    e: &Expr,
    key: &Left,
) -> Result<(), NoMemory>
    ensures { OnOk result (map act_of acts.new.items ≡ map act_of acts.old.items
        ++ range_head (program_of context.entry.program.now) (over_int (ex_of e.now)) (left_of key.now) blank) }
{
    evaluate_expr(acts, context, e)?;
    evaluate_pair(acts, context, key, &Left::Blank)
}

/// A target of elements, where these have pointers.
fn where_held(has: bool, target: Option<Target>) -> Option<Target>
    ensures { result ≡ where_held has target }
{
    if has { target } else { None }
}

/// Adds the header of a `range` over an array, of which a hidden variable of a site gets a copy.
fn add_elements(
    acts: &mut Vec<Act>,
    context: Context<'_>,
    site: SiteId,
    e: &Expr,
    key: &Left,
    element: &Left,
) -> Result<(), NoMemory>
    ensures { OnOk result (map act_of acts.new.items ≡ map act_of acts.old.items
        ++ range_head (program_of context.entry.program.now) (over_copy site.0 (ex_of e.now) 0) (left_of key.now)
        (left_of element.now)) }
{
    give(acts, context.alloc, value(context, e)?, Some(to_site(site)))?;
    let target = where_held(context.site_has(site), left_target(element));
    give(acts, context.alloc, Value::Variable(site), target)?;
    evaluate_pair(acts, context, key, element)
}

/// Adds the header of a `range` over a slice, or over an array by a pointer to it, with elements of a type.
fn add_elements_behind(
    acts: &mut Vec<Act>,
    context: Context<'_>,
    e: &Expr,
    id: TypeId,
    key: &Left,
    element: &Left,
) -> Result<(), NoMemory>
    ensures { OnOk result (map act_of acts.new.items ≡ map act_of acts.old.items
        ++ range_head (program_of context.entry.program.now) (over_slice (ex_of e.now) id.0) (left_of key.now)
        (left_of element.now)) }
{
    let root = behind(context.alloc, value(context, e)?)?;
    let target = where_held(context.has(id), left_target(element));
    give(acts, context.alloc, root, target)?;
    evaluate_pair(acts, context, key, element)
}

/// Adds what a statement does in a function whose results go to these targets.
#[cycle(statements)]
#[tactic(auto, using(typed::proofs::Rows::stmt_rows))]
fn add_stmt(
    acts: &mut Vec<Act>,
    context: Context<'_>,
    returned: &[Option<Target>],
    s: &Stmt,
) -> Result<(), NoMemory>
    ensures { OnOk result (map act_of acts.new.items ≡ map act_of acts.old.items
        ++ acts_of (program_of context.entry.program.now) returned.now (st_of s.now)) }
{
    match s {
        Stmt::Declare(_) | Stmt::Break | Stmt::Continue => Ok(()),
        Stmt::Assign(lefts, given) => add_assign(acts, context, lefts, given),
        Stmt::Update(_, place, _, e) => add_update(acts, context, place, e),
        Stmt::Bump(_, place, _) => add_bump(acts, context, place),
        Stmt::Discard(given) => add_discard(acts, context, given),
        Stmt::Return(given) => add_return(acts, context, returned, given),
        Stmt::Block(ss) => add_stmts(acts, context, returned, ss),
        Stmt::If(e, a, b) => {
            evaluate_expr(acts, context, e)?;
            add_stmts(acts, context, returned, a)?;
            add_stmts(acts, context, returned, b)
        }
        Stmt::For(sites, test, post, body) => {
            add_for_head(acts, context, sites, test)?;
            add_stmts(acts, context, returned, post)?;
            add_stmts(acts, context, returned, body)
        }
        Stmt::Count(e, key, body) => {
            add_count(acts, context, e, key)?;
            add_stmts(acts, context, returned, body)
        }
        Stmt::Indices(_, key, body) | Stmt::PointedIndices(_, key, body) => {
            evaluate_pair(acts, context, key, &Left::Blank)?;
            add_stmts(acts, context, returned, body)
        }
        Stmt::Elements(site, e, _, key, element, body) => {
            add_elements(acts, context, *site, e, key, element)?;
            add_stmts(acts, context, returned, body)
        }
        Stmt::SliceElements(e, id, key, element, body)
        | Stmt::PointedElements(_, e, _, id, key, element, body) => {
            add_elements_behind(acts, context, e, *id, key, element)?;
            add_stmts(acts, context, returned, body)
        }
        Stmt::Print(_, pieces) => add_print(acts, context, pieces),
        Stmt::Panic(_, piece) => add_panic(acts, context, piece),
        Stmt::Exit(_, e) => evaluate_expr(acts, context, e),
    }
}

/// Adds what statements do.
#[cycle(statements)]
pub fn add_stmts(
    acts: &mut Vec<Act>,
    context: Context<'_>,
    returned: &[Option<Target>],
    ss: &[Stmt],
) -> Result<(), NoMemory>
    ensures { OnOk result (map act_of acts.new.items ≡ map act_of acts.old.items
        ++ all_acts (program_of context.entry.program.now) returned.now (sts_of ss.now)) }
{
    for s in ss {
        add_stmt(acts, context, returned, s)?;
    }
    Ok(())
}
