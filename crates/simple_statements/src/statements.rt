//! The types of statements without statements in them, and what they declare.

ghost use Rattle.std.specs.Prelude.{◌≡◌, ◌⊎◌, Option, Some, None, IfOk, OnOk, List, map, length, not, option_and_then, if◌then◌else◌};
ghost use Rattle.std.specs.Option.{option_map};
ghost use Rattle.syntax.specs.Expressions.{ex_of as tree_of, exs_of as trees_of};
ghost use Rattle.syntax.specs.FirstBytes.{first_pos};
ghost use Rattle.syntax.specs.Statements.{simple_of, express, define};
ghost use Rattle.typed.specs.View.{exs_of_values, left_of as left_view, st_of};
ghost use Rattle.typed_syntax.specs.Syntax.{return_stmt as given_back, none};
ghost use Rattle.type_faults.specs.Least.{IsLeast};
ghost use Rattle.type_faults.specs.Faults.{fault as fault_at, IsFault, FormFails};
ghost use Rattle.names.specs.Scope.{scope_of, with_strings};
ghost use Rattle.given_values.specs.Given.{count, taken};
ghost use Rattle.expression_types.specs.Typing.{seen};
ghost use Rattle.expression_types.specs.Faults.{FailsInEach};
ghost use Rattle.given_values.specs.Passing.{gives_of, seens};
ghost use Rattle.simple_statements.specs.SimpleStatements.{returns_view, assignment, strings_in, expressed, returned, lefts, all_wanted, simple_statement, behind_simple};
ghost use Rattle.signatures.specs.Failing.{fault_where};
ghost use Rattle.simple_statements.specs.SimpleFaults.{use_fault, ReturnFails, FailsInSimple, FailsInAssignment, FailsInDefinition, lefts_place};

use crate::declaring::{
    all_new_wanted, check_names, check_new_lefts, declare_variables, names_pos, new_slots,
};
use crate::operands::{numbered, pieces};
use crate::sides::{check_lefts, lefts_pos};
use crate::updating::{check_step, check_update};
use base::{NoMemory, Pos, ValueType};
use expression_types::{check_expr, check_list};
use given_values::{
    Gives, Item, Wanted, count, count_fault, placed_fault, take_fault, taken, value_types,
};
use names::Scope;
use operators::Operand;
use signatures::{fault_where, slots_each};
use std::alloc::Global;
use syntax::{Expr, Name, Simple};
use type_faults::{Fault, FaultKind, lesser};
use typed::{BinOp, Left, Values};

/// What a function gives back: what the places of its values ask for, and whether a `return` may have none.
#[derive(Drop)]
pub struct Returns {
    pub wanted: Vec<Wanted>,
    pub may_be_bare: bool,
}

/// What is known of a statement: its typed form, and the fault that is reported of it.
#[derive(Drop)]
pub struct Line {
    pub statement: Option<typed::Stmt>,
    pub fault: Option<Fault>,
}

/// What is known of statements: their typed forms, where all have one, and the fault that is reported of them.
#[derive(Drop)]
pub struct Lines {
    pub statements: Option<Vec<typed::Stmt>>,
    pub fault: Option<Fault>,
}

/// A statement of a form that is left out.
pub fn left_out(pos: Pos) -> Line
    ensures statement { option_map st_of result.statement ≡ None }
    ensures fault { IsLeast (FormFails pos) result.fault }
{
    Line {
        statement: None,
        fault: Some(Fault {
            kind: FaultKind::OutOfProfile,
            pos,
        }),
    }
}

/// A declaration or an assignment, where its left sides and values are known.
pub fn assignment(lefts: Option<Vec<Left>>, values: Option<Values>) -> Option<typed::Stmt>
    ensures { option_map st_of result ≡ assignment (option_map (λ v. map left_view v.items) lefts)
        (option_map exs_of_values values) }
{
    match (lefts, values) {
        (Some(lefts), Some(values)) => Some(typed::Stmt::Assign(lefts, values)),
        _ => None,
    }
}

fn assignment_where(
    is_allowed: bool,
    lefts: Option<Vec<Left>>,
    values: Option<Values>,
) -> Option<typed::Stmt>
    ensures { option_map st_of result ≡ (if is_allowed then assignment (option_map (λ v. map left_view v.items) lefts)
        (option_map exs_of_values values) else None) }
{
    if is_allowed {
        assignment(lefts, values)
    } else {
        None
    }
}

/// The types of values that may be taken.
pub fn types_where(values: &Option<Values>, types: Option<Vec<ValueType>>) -> Option<Vec<ValueType>>
    ensures { option_map (λ v. v.items) result
        ≡ option_and_then (λ v. option_map (λ v. v.items) types) (option_map exs_of_values values.now) }
{
    match values {
        Some(_) => types,
        None => None,
    }
}

/// A `:=`, which declares its new names after its values.
fn check_define(
    alloc: Global,
    text: &[u8],
    scope: &mut Scope,
    names: &[Name],
    pos: Pos,
    es: &[Expr],
) -> Result<Line, NoMemory>
    ensures statement { IfOk result (λ c. option_map st_of c.statement
        ≡ simple_statement text.now (scope_of scope.old) (define names.now pos (trees_of es.now))) }
    ensures fault { IfOk result (λ c. IsLeast
        (FailsInDefinition text.now (scope_of scope.old) names.now pos (trees_of es.now)) c.fault) }
    ensures scope { OnOk result (scope_of scope.new
        ≡ behind_simple text.now (scope_of scope.old) (define names.now pos (trees_of es.now))) }
{
    let right = check_list(alloc, text, scope, es)?;
    let wanted = all_new_wanted(alloc, text, scope, names)?;
    let own = Fault {
        kind: FaultKind::WrongCount,
        pos: names_pos(names, pos),
    };
    let values_fault = take_fault(own, &wanted, &right.items);
    let declaration = check_names(alloc, text, scope, names, pos)?;
    let left = check_new_lefts(alloc, text, scope, names)?;
    let types = value_types(alloc, &right.items)?;
    let values = taken(alloc, &wanted, right.items)?;
    let types = types_where(&values, types);
    let slots = slots_each(alloc, names, &types)?;
    let slots = new_slots(alloc, text, scope, &slots)?;
    declare_variables(text, scope, &slots)?;
    let before = lesser(lesser(right.fault, values_fault), left.fault);
    Ok(Line {
        statement: assignment_where(declaration.is_allowed, left.lefts, values),
        fault: lesser(before, declaration.fault),
    })
}

/// How many values there are, where all left sides are known.
fn count_where(lefts: &Option<Vec<Left>>, items: &[Item]) -> Option<usize>
    ensures { result ≡ option_and_then (λ ls. count (seens items.now)) (option_map (λ v. map left_view v.items) lefts.now) }
{
    match lefts {
        Some(_) => count(items),
        None => None,
    }
}

fn place_count(places: &Vec<Wanted>) -> usize
    ensures { result ≡ length places.now.items }
{
    places.len()
}

/// A `=`.
fn check_assign(
    alloc: Global,
    text: &[u8],
    scope: &Scope,
    places: &[Expr],
    pos: Pos,
    es: &[Expr],
) -> Result<Line, NoMemory>
    ensures statement { IfOk result (λ c. option_map st_of c.statement
        ≡ assignment (lefts text.now (scope_of scope.now) (trees_of places.now))
        (taken (all_wanted text.now (scope_of scope.now) (trees_of places.now))
        (seen text.now (scope_of scope.now) (trees_of es.now)))) }
    ensures fault { IfOk result (λ c. IsLeast
        (FailsInAssignment text.now (scope_of scope.now) (trees_of places.now) pos (trees_of es.now)) c.fault) }
{
    let left = check_lefts(alloc, text, scope, places)?;
    let listed = check_list(alloc, text, scope, es)?;
    let own = Fault {
        kind: FaultKind::WrongCount,
        pos: lefts_pos(places, pos),
    };
    let counted = count_where(&left.lefts, &listed.items);
    let values_fault = lesser(
        placed_fault(&left.wanted, &listed.items),
        count_fault(counted, place_count(&left.wanted), own),
    );
    let values = taken(alloc, &left.wanted, listed.items)?;
    Ok(Line {
        statement: assignment(left.lefts, values),
        fault: lesser(lesser(left.fault, listed.fault), values_fault),
    })
}

/// A call as a statement, whose strings come after those of the statements before it.
fn expressed(
    alloc: Global,
    scope: &mut Scope,
    gives: Option<Gives>,
) -> Result<Option<typed::Stmt>, NoMemory>
    ensures statement { IfOk result (λ r. option_map st_of r
        ≡ option_and_then (expressed (length (scope_of scope.old).strings)) (option_map gives_of gives)) }
    ensures scope { OnOk result (scope_of scope.new
        ≡ with_strings (scope_of scope.old) (strings_in (option_map gives_of gives))) }
{
    match gives {
        Some(Gives::Called(_, _, function, arguments)) => {
            let results = Values::Results(function, arguments);
            Ok(Some(typed::Stmt::Discard(results)))
        }
        Some(Gives::Asking(_)) => Ok(Some(typed::Stmt::Discard(Values::ReadInt))),
        Some(Gives::Printed(_, line, parts)) => {
            let pieces = pieces(alloc, scope, parts)?;
            Ok(Some(typed::Stmt::Print(line, pieces)))
        }
        Some(Gives::Panicked(pos, part)) => {
            let piece = numbered(scope, part)?;
            Ok(Some(typed::Stmt::Panic(pos, piece)))
        }
        Some(Gives::Exited(pos, status)) => Ok(Some(typed::Stmt::Exit(pos, status))),
        _ => Ok(None),
    }
}

/// The fault of a value alone.
fn use_fault(gives: &Option<Gives>, pos: Pos) -> Option<Fault>
    ensures { result ≡ use_fault (option_map gives_of gives.now) pos }
{
    let (kind, pos) = match gives {
        Some(Gives::One(_)) => (FaultKind::NotUsedValue, pos),
        Some(Gives::Quoted(pos, _)) => (FaultKind::OutOfProfile, *pos),
        _ => return None,
    };
    Some(Fault { kind, pos })
}

/// An expression as a statement.
fn check_express(alloc: Global, text: &[u8], scope: &mut Scope, e: &Expr) -> Result<Line, NoMemory>
    ensures statement { IfOk result (λ c. option_map st_of c.statement
        ≡ simple_statement text.now (scope_of scope.old) (express (tree_of e.now))) }
    ensures fault { IfOk result (λ c. IsLeast (FailsInSimple text.now (scope_of scope.old) (express (tree_of e.now))) c.fault) }
    ensures scope { OnOk result (scope_of scope.new ≡ behind_simple text.now (scope_of scope.old) (express (tree_of e.now))) }
{
    let checked = check_expr(alloc, text, scope, e)?;
    let own = use_fault(&checked.gives, checked.pos);
    let statement = expressed(alloc, scope, checked.gives)?;
    Ok(Line {
        statement,
        fault: lesser(checked.fault, own),
    })
}

/// A simple statement. The scope becomes the one after it.
pub fn check_simple(
    alloc: Global,
    text: &[u8],
    scope: &mut Scope,
    s: &Simple,
) -> Result<Line, NoMemory>
    ensures statement { IfOk result (λ c. option_map st_of c.statement
        ≡ simple_statement text.now (scope_of scope.old) (simple_of s.now)) }
    ensures fault { IfOk result (λ c. IsLeast (FailsInSimple text.now (scope_of scope.old) (simple_of s.now)) c.fault) }
    ensures scope { OnOk result (scope_of scope.new ≡ behind_simple text.now (scope_of scope.old) (simple_of s.now)) }
{
    match s {
        Simple::Express(e) => check_express(alloc, text, scope, e),
        Simple::Assign(lefts, pos, es) => check_assign(alloc, text, scope, lefts, *pos, es),
        Simple::Update(lefts, pos, op, es) => {
            check_update(alloc, text, scope, lefts, *pos, *op, es)
        }
        Simple::Define(names, pos, es) => check_define(alloc, text, scope, names, *pos, es),
        Simple::Increment(e, pos) => check_step(alloc, text, scope, *pos, BinOp::Add, e),
        Simple::Decrement(e, pos) => check_step(alloc, text, scope, *pos, BinOp::Sub, e),
    }
}

/// The fault of values that a function does not give back.
fn return_fault(pos: Pos, returns: &Returns, items: &[Item]) -> Option<Fault>
    ensures { IsLeast (ReturnFails pos (returns_view returns.now) (seens items.now)) result }
{
    let own = Fault {
        kind: FaultKind::ResultCount,
        pos,
    };
    if items.is_empty() {
        bare_fault(returns.may_be_bare, own)
    } else {
        take_fault(own, &returns.wanted, items)
    }
}

/// The fault of a `return` without values.
#[tactic(auto, using(type_faults::proofs::Leasts::leaf))]
fn bare_fault(may_be_bare: bool, own: Fault) -> Option<Fault>
    ensures { IsLeast (IsFault (fault_where (not may_be_bare) own)) result }
{
    fault_where(!may_be_bare, own)
}

/// A `return` without values, where there may be none.
#[tactic(auto, using(typed::proofs::Rows::expr_rows))]
fn bare(alloc: Global, may_be_bare: bool) -> Option<typed::Stmt>
    ensures { option_map st_of result ≡ (if may_be_bare then Some (given_back none) else None) }
{
    if may_be_bare {
        Some(typed::Stmt::Return(Values::Each(Vec::new(alloc))))
    } else {
        None
    }
}

fn returned(
    alloc: Global,
    returns: &Returns,
    items: Vec<Item>,
) -> Result<Option<typed::Stmt>, NoMemory>
    ensures { IfOk result (λ r. option_map st_of r ≡ returned (returns_view returns.now) (seens items.items)) }
{
    if items.is_empty() {
        return Ok(bare(alloc, returns.may_be_bare));
    }
    match taken(alloc, &returns.wanted, items)? {
        Some(values) => Ok(Some(typed::Stmt::Return(values))),
        None => Ok(None),
    }
}

/// A `return`.
pub fn check_return(
    alloc: Global,
    text: &[u8],
    returns: &Returns,
    scope: &Scope,
    pos: Pos,
    es: &[Expr],
) -> Result<Line, NoMemory>
    ensures statement { IfOk result (λ c. option_map st_of c.statement
        ≡ returned (returns_view returns.now) (seen text.now (scope_of scope.now) (trees_of es.now))) }
    ensures fault { IfOk result (λ c. IsLeast
        (λ f. FailsInEach text.now (scope_of scope.now) (trees_of es.now) f
        ⊎ ReturnFails pos (returns_view returns.now) (seen text.now (scope_of scope.now) (trees_of es.now)) f) c.fault) }
{
    let listed = check_list(alloc, text, scope, es)?;
    let own = return_fault(pos, returns, &listed.items);
    let statement = returned(alloc, returns, listed.items)?;
    Ok(Line {
        statement,
        fault: lesser(listed.fault, own),
    })
}
