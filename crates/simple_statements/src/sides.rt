//! Left sides of `=`, of an assignment with an operator, and before `++` and `--`: each is the blank name or a place.

ghost use Rattle.std.specs.Prelude.{◌≡◌, Option, Some, None, IfOk, List, map, if◌then◌else◌};
ghost use Rattle.std.specs.Option.{option_map};
ghost use Rattle.syntax.specs.Expressions.{spelled, ex_of as tree_of, exs_of as trees_of};
ghost use Rattle.syntax.specs.FirstBytes.{first_pos};
ghost use Rattle.typed.specs.View.{left_of as left_view};
ghost use Rattle.type_faults.specs.Least.{IsLeast};
ghost use Rattle.type_faults.specs.Faults.{IsFault};
ghost use Rattle.type_faults.specs.Given.{with_last};
ghost use Rattle.operators.specs.Passing.{operand_of, typed_place_of};
ghost use Rattle.names.specs.Universe.{is_blank};
ghost use Rattle.names.specs.Scope.{scope_of, declaration};
ghost use Rattle.names.specs.Naming.{name_in};
ghost use Rattle.given_values.specs.Given.{operand_in};
ghost use Rattle.expression_types.specs.Typing.{gives};
ghost use Rattle.expression_types.specs.Faults.{FailsAsOperand};
ghost use Rattle.simple_statements.specs.SimpleStatements.{target, place_type, place_value, left_of, wanted_of, is_blank_name, place_in, lefts, all_wanted, own_value};
ghost use Rattle.simple_statements.specs.SimpleFaults.{left_fault, own_fault, place_fault, LeftSideFails, LeftsFail, OwnSideFails, lefts_place};

use base::{NoMemory, Pos, ValueType};
use expression_types::{Single, check_single};
use given_values::{Wanted, wanted_by};
use names::{Declared, Scope, is_blank, name_in, spelled};
use operators::{Operand, TypedPlace, is_place, place_in};
use signatures::fault_where;
use std::alloc::Global;
use syntax::{Expr, Name};
use type_faults::{Fault, FaultKind, lesser};
use typed::Left;

/// A left side: whether it is the blank name, the place that it is, and the fault.
#[derive(Drop)]
struct Side {
    is_blank: bool,
    place: Option<TypedPlace>,
    fault: Option<Fault>,
}

/// The left sides of a `=`, where each is known, what each asks for, and the fault.
#[derive(Drop)]
pub struct Lefts {
    pub lefts: Option<Vec<Left>>,
    pub wanted: Vec<Wanted>,
    pub fault: Option<Fault>,
}

/// A left side that is given another value of its own: that value, and the fault.
#[derive(Drop)]
pub struct Own {
    pub value: Option<Operand>,
    pub fault: Option<Fault>,
}

/// A place as a left side.
pub fn target(place: Option<TypedPlace>) -> Option<Left>
    ensures { option_map left_view result ≡ target (option_map typed_place_of place) }
{
    match place {
        Some(place) => Some(Left::To(place.place)),
        None => None,
    }
}

/// The type of a place.
fn place_type(place: &Option<TypedPlace>) -> Option<ValueType>
    ensures { result ≡ place_type (option_map typed_place_of place.now) }
{
    match place {
        Some(place) => Some(place.value_type),
        None => None,
    }
}

/// The value of a place.
fn place_value(place: Option<TypedPlace>) -> Option<Operand>
    ensures { option_map operand_of result ≡ place_value (option_map typed_place_of place) }
{
    match place {
        Some(place) => Some(Operand::Value(place.value_type, typed::Expr::Read(place.place))),
        None => None,
    }
}

fn left_of(blank: bool, place: Option<TypedPlace>) -> Option<Left>
    ensures { option_map left_view result ≡ left_of blank (option_map typed_place_of place) }
{
    if blank {
        Some(Left::Blank)
    } else {
        target(place)
    }
}

/// What a left side of `=` asks for: nothing is known of that where it is no place.
pub fn wanted_of(blank: bool, place: &Option<TypedPlace>) -> Wanted
    ensures { result ≡ wanted_of blank (option_map typed_place_of place.now) }
{
    if blank {
        Wanted::Own
    } else {
        wanted_by(place_type(place))
    }
}

/// The value of a left side; the blank name has none.
fn own_value_of(blank: bool, place: Option<TypedPlace>) -> Option<Operand>
    ensures { option_map operand_of result ≡ (if blank then None else place_value (option_map typed_place_of place)) }
{
    if blank { None } else { place_value(place) }
}

pub fn with_left(
    lefts: Option<Vec<Left>>,
    left: Option<Left>,
) -> Result<Option<Vec<Left>>, NoMemory>
    ensures { IfOk result (λ r. option_map (λ v. map left_view v.items) r
        ≡ with_last (option_map (λ v. map left_view v.items) lefts) (option_map left_view left)) }
{
    match (lefts, left) {
        (Some(mut lefts), Some(left)) => {
            lefts.push(left)?;
            Ok(Some(lefts))
        }
        _ => Ok(None),
    }
}

pub fn left_fault_of(blank: bool, declared: Option<Declared>, pos: Pos, whole: Pos) -> Option<Fault>
    ensures { result ≡ left_fault blank declared pos whole }
{
    if blank {
        return None;
    }
    let (kind, pos) = match declared {
        None => (FaultKind::Unknown, pos),
        Some(Declared::Variable(_, _) | Declared::Untyped | Declared::Global(_, _)) => return None,
        Some(Declared::Type(_)) => (FaultKind::Unfit, pos),
        Some(Declared::LeftOutType | Declared::LeftOutValue) => (FaultKind::OutOfProfile, pos),
        Some(_) => (FaultKind::NotAssignable, whole),
    };
    Some(Fault { kind, pos })
}

/// The fault of a name as a left side, which begins at a place.
fn name_left_fault(text: &[u8], scope: &Scope, name: Name, whole: Pos) -> Option<Fault>
    ensures { IsLeast (IsFault (left_fault (is_blank (spelled text.now name))
        (declaration (scope_of scope.now) (spelled text.now name)) name.pos whole)) result }
{
    let bytes = spelled(text, name);
    left_fault_of(is_blank(bytes), scope.declaration(bytes), name.pos, whole)
}

/// The fault of what is no place.
fn place_fault(operand: &Option<Operand>, pos: Pos) -> Option<Fault>
    ensures { result ≡ place_fault (option_map operand_of operand.now) pos }
{
    let own = Fault {
        kind: FaultKind::NotAssignable,
        pos,
    };
    match operand {
        Some(operand) => fault_where(!is_place(operand), own),
        None => None,
    }
}

/// The fault of a left side that gives this.
fn side_fault(text: &[u8], scope: &Scope, e: &Expr, single: &Single) -> Option<Fault>
    requires operand { option_map operand_of single.now.operand
        ≡ operand_in (gives text.now (scope_of scope.now) (tree_of e.now)) }
    requires fault { IsLeast (FailsAsOperand text.now (scope_of scope.now) (tree_of e.now)) single.now.fault }
    ensures { IsLeast (LeftSideFails text.now (scope_of scope.now) (name_in (tree_of e.now)) (tree_of e.now)) result }
{
    match name_in(e) {
        Some(name) => name_left_fault(text, scope, name, e.pos()),
        None => lesser(single.fault, place_fault(&single.operand, e.pos())),
    }
}

fn is_blank_name(text: &[u8], name: Option<Name>) -> bool
    ensures { result ≡ is_blank_name text.now name }
{
    match name {
        Some(name) => is_blank(spelled(text, name)),
        None => false,
    }
}

/// A left side.
fn check_side(alloc: Global, text: &[u8], scope: &Scope, e: &Expr) -> Result<Side, NoMemory>
    ensures blank { IfOk result (λ c. c.is_blank ≡ is_blank_name text.now (name_in (tree_of e.now))) }
    ensures place { IfOk result (λ c. option_map typed_place_of c.place
        ≡ place_in text.now (scope_of scope.now) (tree_of e.now)) }
    ensures fault { IfOk result (λ c. IsLeast
        (LeftSideFails text.now (scope_of scope.now) (name_in (tree_of e.now)) (tree_of e.now)) c.fault) }
{
    let single = check_single(alloc, text, scope, e)?;
    let fault = side_fault(text, scope, e, &single);
    Ok(Side {
        is_blank: is_blank_name(text, name_in(e)),
        place: place_in(single.operand),
        fault,
    })
}

/// The left sides of a `=`.
pub fn check_lefts(
    alloc: Global,
    text: &[u8],
    scope: &Scope,
    es: &[Expr],
) -> Result<Lefts, NoMemory>
    ensures lefts { IfOk result (λ l. option_map (λ v. map left_view v.items) l.lefts
        ≡ lefts text.now (scope_of scope.now) (trees_of es.now)) }
    ensures wanted { IfOk result (λ l. l.wanted.items ≡ all_wanted text.now (scope_of scope.now) (trees_of es.now)) }
    ensures fault { IfOk result (λ l. IsLeast (LeftsFail text.now (scope_of scope.now) (trees_of es.now)) l.fault) }
{
    let mut lefts = Some(Vec::new(alloc));
    let mut wanted = Vec::new(alloc);
    let mut fault = None;
    for e in es {
        let side = check_side(alloc, text, scope, e)?;
        fault = lesser(fault, side.fault);
        wanted.push(wanted_of(side.is_blank, &side.place))?;
        lefts = with_left(lefts, left_of(side.is_blank, side.place))?;
    }
    Ok(Lefts {
        lefts,
        wanted,
        fault,
    })
}

fn own_fault_of(blank: bool, declared: Option<Declared>, pos: Pos, whole: Pos) -> Option<Fault>
    ensures { result ≡ own_fault blank declared pos whole }
{
    if blank {
        Some(Fault {
            kind: FaultKind::Unknown,
            pos,
        })
    } else {
        left_fault_of(false, declared, pos, whole)
    }
}

/// The fault of a name whose value is asked for, as a left side that begins at a place.
fn name_own_fault(text: &[u8], scope: &Scope, name: Name, whole: Pos) -> Option<Fault>
    ensures { IsLeast (IsFault (own_fault (is_blank (spelled text.now name))
        (declaration (scope_of scope.now) (spelled text.now name)) name.pos whole)) result }
{
    let bytes = spelled(text, name);
    own_fault_of(is_blank(bytes), scope.declaration(bytes), name.pos, whole)
}

/// The fault of a left side whose value is asked for, by its fault as a left side alone.
fn own_side_fault(text: &[u8], scope: &Scope, e: &Expr, fault: Option<Fault>) -> Option<Fault>
    requires { IsLeast (LeftSideFails text.now (scope_of scope.now) (name_in (tree_of e.now)) (tree_of e.now)) fault }
    ensures { IsLeast (OwnSideFails text.now (scope_of scope.now) (name_in (tree_of e.now)) (tree_of e.now)) result }
{
    match name_in(e) {
        Some(name) => name_own_fault(text, scope, name, e.pos()),
        None => fault,
    }
}

/// A left side whose value is asked for.
pub fn check_own(alloc: Global, text: &[u8], scope: &Scope, e: &Expr) -> Result<Own, NoMemory>
    ensures value { IfOk result (λ o. option_map operand_of o.value ≡ own_value text.now (scope_of scope.now) (tree_of e.now)) }
    ensures fault { IfOk result (λ o. IsLeast
        (OwnSideFails text.now (scope_of scope.now) (name_in (tree_of e.now)) (tree_of e.now)) o.fault) }
{
    let side = check_side(alloc, text, scope, e)?;
    let fault = own_side_fault(text, scope, e, side.fault);
    Ok(Own {
        value: own_value_of(side.is_blank, side.place),
        fault,
    })
}

/// Where a statement with expressions on its left begins.
pub fn lefts_pos(lefts: &[Expr], pos: Pos) -> Pos
    ensures { result ≡ lefts_place (trees_of lefts.now) pos }
{
    match lefts {
        [first, ..] => first.pos(),
        [] => pos,
    }
}
