//! The sites whose variables a body takes the address of, or of a part of them, by their numbers.

ghost use Rattle.std.specs.Prelude.{◌≡◌, [], ◌∷◌, ◌++◌, map, OnOk};
ghost use Rattle.typed.specs.View.{ex_of, exs_of, exs_of_values, place_of, bound_of, steps_of, elements_of, left_of, piece_of, test_of, st_of, sts_of};
ghost use Rattle.taken_addresses.specs.Takes.{taken, taken_all, taken_in_bound, taken_in_place, taken_in_steps, taken_in_elements, taken_in_left, taken_in_lefts, taken_in_piece, taken_in_pieces, taken_in_test, taken_by, taken_by_all, root_of};

use base::NoMemory;
use typed::{Bound, Element, Expr, Left, Piece, Place, Step, Stmt, Values};

/// Adds the site of the variable that a place begins at, where that is one of a function.
fn add_root(sites: &mut Vec<u32>, place: &Place) -> Result<(), NoMemory>
    ensures { OnOk result (sites.new.items ≡ sites.old.items ++ root_of (place_of place.now)) }
{
    match place {
        Place::Local(site, _) => Ok(sites.push(site.0)?),
        Place::Global(_, _) | Place::Indirect(_, _, _, _) | Place::SliceElement(_, _, _, _, _) =>
            Ok(()),
    }
}

/// Adds those taken in an expression.
#[cycle(values)]
#[tactic(auto, using(typed::proofs::Rows::expr_rows))]
fn add_expr(sites: &mut Vec<u32>, e: &Expr) -> Result<(), NoMemory>
    ensures { OnOk result (sites.new.items ≡ sites.old.items ++ taken (ex_of e.now)) }
{
    match e {
        Expr::Constant(_) | Expr::Nil(_) | Expr::New(_) => Ok(()),
        Expr::Read(place) => add_place(sites, place),
        Expr::AddressOf(place) => {
            add_root(sites, place)?;
            add_place(sites, place)
        }
        Expr::Unary(_, a)
        | Expr::Part(_, _, a)
        | Expr::NewLiteral(_, a)
        | Expr::Len(a)
        | Expr::Cap(a) => {
            let a: &Expr = a;
            add_expr(sites, a)
        }
        Expr::Binary(_, _, a, b)
        | Expr::LogicalAnd(a, b)
        | Expr::LogicalOr(a, b)
        | Expr::AppendSlice(_, a, b)
        | Expr::Copy(_, a, b) => {
            let a: &Expr = a;
            let b: &Expr = b;
            add_expr(sites, a)?;
            add_expr(sites, b)
        }
        Expr::Call(_, arguments) => {
            let arguments: &Values = arguments;
            add_values(sites, arguments)
        }
        Expr::Literal(_, elements) => add_elements(sites, elements),
        Expr::SliceLiteral(_, es) => add_exprs(sites, es),
        Expr::Append(_, a, es) => {
            let a: &Expr = a;
            add_expr(sites, a)?;
            add_exprs(sites, es)
        }
        Expr::Make(_, _, count, room) => {
            let count: &Expr = count;
            add_expr(sites, count)?;
            add_bound(sites, room)
        }
        Expr::Slicing(_, _, a, low, high) => {
            let a: &Expr = a;
            add_expr(sites, a)?;
            add_bound(sites, low)?;
            add_bound(sites, high)
        }
        Expr::ArraySlicing(_, place, _, low, high) => {
            add_root(sites, place)?;
            add_place(sites, place)?;
            add_bound(sites, low)?;
            add_bound(sites, high)
        }
    }
}

/// Adds those taken in a bound.
#[cycle(values)]
#[tactic(auto, using(typed::proofs::Rows::expr_rows))]
fn add_bound(sites: &mut Vec<u32>, bound: &Bound) -> Result<(), NoMemory>
    ensures { OnOk result (sites.new.items ≡ sites.old.items ++ taken_in_bound (bound_of bound.now)) }
{
    match bound {
        Bound::Absent => Ok(()),
        Bound::At(e) => {
            let e: &Expr = e;
            add_expr(sites, e)
        }
    }
}

/// Adds those taken in the operands of a place.
#[cycle(values)]
#[tactic(auto, using(typed::proofs::Rows::expr_rows))]
fn add_place(sites: &mut Vec<u32>, place: &Place) -> Result<(), NoMemory>
    ensures { OnOk result (sites.new.items ≡ sites.old.items ++ taken_in_place (place_of place.now)) }
{
    match place {
        Place::Local(_, steps) => add_steps(sites, steps),
        Place::Global(_, steps) => add_steps(sites, steps),
        Place::Indirect(_, e, _, steps) => {
            let e: &Expr = e;
            add_steps(sites, steps)?;
            add_expr(sites, e)
        }
        Place::SliceElement(_, e, index, _, steps) => {
            let e: &Expr = e;
            let index: &Expr = index;
            add_steps(sites, steps)?;
            add_expr(sites, e)?;
            add_expr(sites, index)
        }
    }
}

/// Adds those taken in the indices of steps.
#[cycle(values)]
fn add_steps(sites: &mut Vec<u32>, steps: &[Step]) -> Result<(), NoMemory>
    ensures { OnOk result (sites.new.items ≡ sites.old.items ++ taken_in_steps (steps_of steps.now)) }
{
    for step in steps {
        match step {
            Step::Inner(_) => {}
            Step::Index(_, index, _) => add_expr(sites, index)?,
        }
    }
    Ok(())
}

/// Adds those taken in the elements of a literal.
#[cycle(values)]
fn add_elements(sites: &mut Vec<u32>, elements: &[Element]) -> Result<(), NoMemory>
    ensures { OnOk result (sites.new.items ≡ sites.old.items ++ taken_in_elements (elements_of elements.now)) }
{
    for element in elements {
        let Element::For(_, e) = element;
        add_expr(sites, e)?;
    }
    Ok(())
}

/// Adds those taken in values.
#[cycle(values)]
#[tactic(auto, using(typed::proofs::Rows::expr_rows))]
fn add_values(sites: &mut Vec<u32>, values: &Values) -> Result<(), NoMemory>
    ensures { OnOk result (sites.new.items ≡ sites.old.items ++ taken_all (exs_of_values values.now)) }
{
    match values {
        Values::Each(es) => add_exprs(sites, es),
        Values::Results(_, arguments) => {
            let arguments: &Values = arguments;
            add_values(sites, arguments)
        }
        Values::ReadInt => Ok(()),
    }
}

/// Adds those taken in some expressions.
#[cycle(values)]
fn add_exprs(sites: &mut Vec<u32>, es: &[Expr]) -> Result<(), NoMemory>
    ensures { OnOk result (sites.new.items ≡ sites.old.items ++ taken_all (exs_of es.now)) }
{
    for e in es {
        add_expr(sites, e)?;
    }
    Ok(())
}

/// Adds those taken in the place of a left side.
fn add_left(sites: &mut Vec<u32>, left: &Left) -> Result<(), NoMemory>
    ensures { OnOk result (sites.new.items ≡ sites.old.items ++ taken_in_left (left_of left.now)) }
{
    match left {
        Left::Blank => Ok(()),
        Left::New(_) => Ok(()),
        Left::To(place) => add_place(sites, place),
    }
}

/// Adds those taken in the places of left sides.
fn add_lefts(sites: &mut Vec<u32>, lefts: &[Left]) -> Result<(), NoMemory>
    ensures { OnOk result (sites.new.items ≡ sites.old.items ++ taken_in_lefts (map left_of lefts.now)) }
{
    for left in lefts {
        add_left(sites, left)?;
    }
    Ok(())
}

/// Adds those taken in the places of the two left sides of a `range`.
fn add_pair(sites: &mut Vec<u32>, key: &Left, value: &Left) -> Result<(), NoMemory>
    ensures { OnOk result (sites.new.items ≡ sites.old.items ++ taken_in_lefts (left_of key.now ∷ left_of value.now ∷ [])) }
{
    add_left(sites, key)?;
    add_left(sites, value)
}

/// Adds those taken in an operand of `print`, `println` or `panic`.
fn add_piece(sites: &mut Vec<u32>, p: &Piece) -> Result<(), NoMemory>
    ensures { OnOk result (sites.new.items ≡ sites.old.items ++ taken_in_piece (piece_of p.now)) }
{
    match p {
        Piece::Text(_) => Ok(()),
        Piece::Shown(_, e) => add_expr(sites, e),
    }
}

/// Adds those taken in operands that are shown.
fn add_pieces(sites: &mut Vec<u32>, ps: &[Piece]) -> Result<(), NoMemory>
    ensures { OnOk result (sites.new.items ≡ sites.old.items ++ taken_in_pieces (map piece_of ps.now)) }
{
    for p in ps {
        add_piece(sites, p)?;
    }
    Ok(())
}

/// Adds those taken in a condition, where there is one.
fn add_test(sites: &mut Vec<u32>, test: &Option<Expr>) -> Result<(), NoMemory>
    ensures { OnOk result (sites.new.items ≡ sites.old.items ++ taken_in_test (test_of test.now)) }
{
    match test {
        None => Ok(()),
        Some(e) => add_expr(sites, e),
    }
}

/// Adds those taken in an assignment.
fn add_assign(sites: &mut Vec<u32>, lefts: &[Left], values: &Values) -> Result<(), NoMemory>
    ensures { OnOk result (sites.new.items ≡ sites.old.items
        ++ (taken_in_lefts (map left_of lefts.now) ++ taken_all (exs_of_values values.now))) }
{
    add_lefts(sites, lefts)?;
    add_values(sites, values)
}

/// Adds those taken in an assignment with an operator.
fn add_update(sites: &mut Vec<u32>, place: &Place, e: &Expr) -> Result<(), NoMemory>
    ensures { OnOk result (sites.new.items ≡ sites.old.items ++ (taken_in_place (place_of place.now) ++ taken (ex_of e.now))) }
{
    add_place(sites, place)?;
    add_expr(sites, e)
}

/// Adds those taken in a statement.
#[cycle(statements)]
#[tactic(auto, using(typed::proofs::Rows::stmt_rows))]
fn add_stmt(sites: &mut Vec<u32>, s: &Stmt) -> Result<(), NoMemory>
    ensures { OnOk result (sites.new.items ≡ sites.old.items ++ taken_by (st_of s.now)) }
{
    match s {
        Stmt::Declare(_) | Stmt::Break | Stmt::Continue => Ok(()),
        Stmt::Assign(lefts, values) => add_assign(sites, lefts, values),
        Stmt::Update(_, place, _, e) => add_update(sites, place, e),
        Stmt::Bump(_, place, _) => add_place(sites, place),
        Stmt::Discard(values) | Stmt::Return(values) => add_values(sites, values),
        Stmt::Block(ss) => add_stmts(sites, ss),
        Stmt::If(e, a, b) => {
            add_expr(sites, e)?;
            add_stmts(sites, a)?;
            add_stmts(sites, b)
        }
        Stmt::For(_, test, post, body) => {
            add_test(sites, test)?;
            add_stmts(sites, post)?;
            add_stmts(sites, body)
        }
        Stmt::Count(e, key, body) => {
            add_expr(sites, e)?;
            add_pair(sites, key, &Left::Blank)?;
            add_stmts(sites, body)
        }
        Stmt::Indices(_, key, body) | Stmt::PointedIndices(_, key, body) => {
            add_pair(sites, key, &Left::Blank)?;
            add_stmts(sites, body)
        }
        Stmt::Elements(_, e, _, key, value, body)
        | Stmt::SliceElements(e, _, key, value, body)
        | Stmt::PointedElements(_, e, _, _, key, value, body) => {
            add_expr(sites, e)?;
            add_pair(sites, key, value)?;
            add_stmts(sites, body)
        }
        Stmt::Print(_, ps) => add_pieces(sites, ps),
        Stmt::Panic(_, p) => add_piece(sites, p),
        Stmt::Exit(_, e) => add_expr(sites, e),
    }
}

/// Adds those taken in statements.
#[cycle(statements)]
pub fn add_stmts(sites: &mut Vec<u32>, ss: &[Stmt]) -> Result<(), NoMemory>
    ensures { OnOk result (sites.new.items ≡ sites.old.items ++ taken_by_all (sts_of ss.now)) }
{
    for s in ss {
        add_stmt(sites, s)?;
    }
    Ok(())
}
