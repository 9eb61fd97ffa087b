//! The types of expressions: what each gives, and the least of the rules that fail in it.

ghost use Rattle.std.specs.Prelude.{◌≡◌, ◌⊎◌, None, Some, IfOk, true};
ghost use Rattle.std.specs.Option.{option_map};
ghost use Rattle.string_value.specs.StringValue.{string_value};
ghost use Rattle.syntax.specs.FirstBytes.{first_pos};
ghost use Rattle.syntax.specs.Expressions.{ex_of as tree_of, exs_of as trees_of, elements_of, name as name_of, unary, selector as selector_of};
ghost use Rattle.type_faults.specs.Least.{IsLeast, IsLesserWith, lesser as least};
ghost use Rattle.type_faults.specs.Faults.{IsFault, FormFails};
ghost use Rattle.type_faults.specs.Given.{both};
ghost use Rattle.operand_parts.specs.Parts.{indexed};
ghost use Rattle.operand_parts.specs.PartFaults.{index_fault};
ghost use Rattle.operand_parts.specs.LiteralFaults.{elision_fault};
ghost use Rattle.operand_parts.specs.Passing.{elision_of, placeds};
ghost use Rattle.operators.specs.Faults.{pair_fault};
ghost use Rattle.operators.specs.Passing.{operand_of};
ghost use Rattle.names.specs.Scope.{scope_of};
ghost use Rattle.names.specs.Naming.{between, name_in};
ghost use Rattle.given_values.specs.Given.{one as one_gives, quoted as quoted_gives, pair_gives, spread_over, operand_in, callee};
ghost use Rattle.expression_types.specs.Typing.{called_quietly, early_gives, gives, stated_type, literal_gives, placed, element_gives, seen};
ghost use Rattle.given_values.specs.GivenFaults.{CallFails, CalleeFails, single_fault};
ghost use Rattle.expression_types.specs.Faults.{FailsEarly, Fails, FailsInEach, FailsAsOperand, StatedFails, FailsInLiteral, FailsInElements, FailsInElement, literal_fault};
ghost use Rattle.given_values.specs.Passing.{gives_of, seens, callee_of};
ghost use Rattle.expression_types.specs.Passing.{element_value, is_bare, literal_operand};

use crate::literals::{
    PlacedList, Stated, array_of, key_of, literal_of, next_number, stated_name, typed_literal,
};
use crate::measures::{are_quiet, call_in, early, quiet_fault, quietly};
use base::{NoMemory, Pos, ValueType};
use constants::{Constant, untyped};
use given_values::{
    Callee, Gives, Item, call_fault, call_value, callee_name_fault, callee_named, callee_value,
    name_fault, name_value, one_operand, single_fault, spread_over,
};
use names::{Scope, between, name_in};
use operand_parts::{
    Elision, Placed, element_part, elided, elision_fault, index_fault, indexed, selected,
    selector_fault, type_elided,
};
use operators::{Operand, has_rules, pair_fault, paired, prefix_fault, prefixed};
use std::alloc::Global;
use string_value::string_value;
use syntax::{BinOp, Element, Expr, Name, UnOp};
use type_faults::{Fault, FaultKind, lesser};
use typed::TypeTable;

/// What is known of an expression: its first byte, what it gives, and the fault that is reported of it.
#[derive(Drop)]
pub struct Checked {
    pub pos: Pos,
    pub gives: Option<Gives>,
    pub fault: Option<Fault>,
}

/// What is known of an expression with one value.
#[derive(Drop)]
pub struct Single {
    pub pos: Pos,
    pub operand: Option<Operand>,
    pub fault: Option<Fault>,
}

/// What is known of expressions side by side.
#[derive(Drop)]
pub struct Listed {
    pub items: Vec<Item>,
    pub fault: Option<Fault>,
}

/// What is known of what is called.
#[derive(Drop)]
struct Called {
    callee: Callee,
    fault: Option<Fault>,
}

/// The fault of a form that is left out of the profile.
fn form_fault(pos: Pos) -> Option<Fault>
    ensures { IsLeast (FormFails pos) result }
{
    Some(Fault {
        kind: FaultKind::OutOfProfile,
        pos,
    })
}

/// A form that is left out of the profile.
fn left_out(pos: Pos) -> Checked
    ensures pos { result.pos ≡ pos }
    ensures gives { option_map gives_of result.gives ≡ None }
    ensures fault { IsLeast (FormFails pos) result.fault }
{
    Checked {
        pos,
        gives: None,
        fault: form_fault(pos),
    }
}

/// A number.
fn literal(pos: Pos, number: u128) -> Checked
    ensures pos { result.pos ≡ pos }
    ensures gives { option_map gives_of result.gives ≡ literal_operand number }
    ensures fault { result.fault ≡ literal_fault pos number }
{
    match i128::try_from(number) {
        Ok(value) => Checked {
            pos,
            gives: Some(Gives::One(Operand::Constant(untyped(Constant::Number(value))))),
            fault: None,
        },
        Err(_) => Checked {
            pos,
            gives: None,
            fault: Some(Fault {
                kind: FaultKind::ConstRange,
                pos,
            }),
        },
    }
}

/// A string literal, by its first byte and the offset after it.
fn quoted(alloc: Global, text: &[u8], pos: Pos, behind: u32) -> Result<Checked, NoMemory>
    ensures pos { IfOk result (λ c. c.pos ≡ pos) }
    ensures gives { IfOk result (λ c. option_map gives_of c.gives
        ≡ Some (quoted_gives pos (string_value (between text.now pos.offset behind)))) }
    ensures fault { IfOk result (λ c. c.fault ≡ None) }
{
    let bytes = string_value(alloc, between(text, pos.offset, behind))?;
    Ok(Checked {
        pos,
        gives: Some(Gives::Quoted(pos, bytes)),
        fault: None,
    })
}

/// A single value of what an expression gives.
fn as_single(checked: Checked) -> Single
    ensures pos { result.pos ≡ checked.pos }
    ensures operand { option_map operand_of result.operand ≡ operand_in (option_map gives_of checked.gives) }
    ensures fault { result.fault ≡ least checked.fault (single_fault (option_map gives_of checked.gives)) }
{
    let Checked { pos, gives, fault } = checked;
    let own = single_fault(&gives);
    Single {
        pos,
        operand: one_operand(gives),
        fault: lesser(fault, own),
    }
}

fn one(operand: Option<Operand>) -> Option<Gives>
    ensures { option_map gives_of result ≡ option_map one_gives (option_map operand_of operand) }
{
    match operand {
        Some(operand) => Some(Gives::One(operand)),
        None => None,
    }
}

/// An operator at a position of its own, on its operands.
fn pair(
    alloc: Global,
    pos: Pos,
    op: BinOp,
    left: Single,
    right: Single,
) -> Result<Checked, NoMemory>
    ensures pos { IfOk result (λ c. c.pos ≡ left.pos) }
    ensures gives { IfOk result (λ c. option_map gives_of c.gives
        ≡ pair_gives pos op (option_map operand_of left.operand) (option_map operand_of right.operand)) }
    ensures fault { IfOk result (λ c. c.fault
        ≡ least (least left.fault right.fault)
        (pair_fault left.pos right.pos op (option_map operand_of left.operand) (option_map operand_of right.operand))) }
{
    let own = pair_fault(op, left.pos, right.pos, &left.operand, &right.operand);
    let operand = paired(alloc, op, pos, left.operand, right.operand)?;
    Ok(Checked {
        pos: left.pos,
        gives: one(operand),
        fault: lesser(lesser(left.fault, right.fault), own),
    })
}

/// An element of an array, by an index in brackets at a position.
fn element(
    types: &TypeTable,
    bracket: Pos,
    whole: Single,
    index: Single,
) -> Result<Checked, NoMemory>
    ensures pos { IfOk result (λ c. c.pos ≡ whole.pos) }
    ensures gives { IfOk result (λ c. option_map gives_of c.gives
        ≡ option_map one_gives (both (indexed types.now bracket) (option_map operand_of whole.operand)
        (option_map operand_of index.operand))) }
    ensures fault { IfOk result (λ c. c.fault
        ≡ least (least whole.fault index.fault)
        (index_fault types.now whole.pos (option_map operand_of whole.operand) (option_map operand_of index.operand))) }
{
    let own = index_fault(types, whole.pos, &whole.operand, &index.operand);
    let operand = indexed(types, bracket, whole.operand, index.operand)?;
    Ok(Checked {
        pos: whole.pos,
        gives: one(operand),
        fault: lesser(lesser(whole.fault, index.fault), own),
    })
}

/// Whether an element has no type of its own.
fn is_bare(e: &Expr) -> bool
    ensures { result ≡ is_bare (tree_of e.now) }
{
    matches!(e, Expr::Elements(_, _))
}

/// An element without a type of its own, whose brace stands at a place.
fn elided_literal(pos: Pos, elision: Elision, literal: Checked) -> Single
    ensures pos { result.pos ≡ literal.pos }
    ensures operand { option_map operand_of result.operand ≡ operand_in (option_map gives_of literal.gives) }
    ensures fault { result.fault ≡ least (elision_fault pos (elision_of elision)) literal.fault }
{
    Single {
        pos: literal.pos,
        operand: one_operand(literal.gives),
        fault: lesser(elision_fault(pos, elision), literal.fault),
    }
}

/// A call at a place, of what is called and the arguments, with the fault of a call in what it doesn't evaluate.
fn call_of(
    alloc: Global,
    pos: Pos,
    called: Called,
    arguments: Listed,
    inner: Option<Fault>,
) -> Result<Checked, NoMemory>
    ensures pos { IfOk result (λ c. c.pos ≡ pos) }
    ensures gives { IfOk result (λ c. option_map gives_of c.gives
        ≡ called_quietly pos (callee_of called.callee) (seens arguments.items.items)) }
    ensures fault { IfOk result (λ c. IsLesserWith
        (λ f. CallFails pos (callee_of called.callee) (seens arguments.items.items) f ⊎ IsFault inner f)
        (least called.fault arguments.fault) c.fault) }
{
    let own = lesser(call_fault(pos, &called.callee, &arguments.items), inner);
    let is_quiet = are_quiet(&called.callee, &arguments.items);
    let gives = call_value(alloc, pos, called.callee, arguments.items)?;
    Ok(Checked {
        pos,
        gives: quietly(is_quiet, gives),
        fault: lesser(lesser(called.fault, arguments.fault), own),
    })
}

/// A name as a value.
fn named(alloc: Global, text: &[u8], scope: &Scope, name: Name) -> Checked
    ensures pos { result.pos ≡ name.pos }
    ensures gives { option_map gives_of result.gives ≡ gives text.now (scope_of scope.now) (name_of name) }
    ensures fault { IsLeast (Fails text.now (scope_of scope.now) (name_of name)) result.fault }
{
    Checked {
        pos: name.pos,
        gives: name_value(alloc, text, scope, name),
        fault: name_fault(text, scope, name),
    }
}

fn in_parentheses(pos: Pos, inner: Checked) -> Checked
    ensures pos { result.pos ≡ pos }
    ensures gives { option_map gives_of result.gives ≡ option_map gives_of inner.gives }
    ensures fault { result.fault ≡ inner.fault }
{
    Checked {
        pos,
        gives: inner.gives,
        fault: inner.fault,
    }
}

/// What is known of an expression in a scope.
#[cycle(expressions)]
#[tactic(auto, using(syntax::proofs::Views::expr_rows))]
pub fn check_expr(alloc: Global, text: &[u8], scope: &Scope, e: &Expr) -> Result<Checked, NoMemory>
    ensures pos { IfOk result (λ c. c.pos ≡ first_pos (tree_of e.now)) }

    // What the rules say that it gives, and nothing where they say so.
    ensures gives { IfOk result (λ c. option_map gives_of c.gives ≡ gives text.now (scope_of scope.now) (tree_of e.now)) }

    // Of the rules that fail in it, the one with the least offset, then the least number.
    ensures fault { IfOk result (λ c. IsLeast (Fails text.now (scope_of scope.now) (tree_of e.now)) c.fault) }
{
    match e {
        Expr::Int(pos, number) => Ok(literal(*pos, *number)),
        Expr::String(pos, behind) => quoted(alloc, text, *pos, *behind),
        Expr::Name(name) => Ok(named(alloc, text, scope, *name)),
        Expr::Unary(pos, op, inner) => check_prefix(alloc, text, scope, *pos, *op, inner),
        Expr::Binary(pos, op, left, right) => {
            let left = check_single(alloc, text, scope, left)?;
            let right = check_single(alloc, text, scope, right)?;
            pair(alloc, *pos, *op, left, right)
        }
        Expr::Paren(pos, inner) => {
            let inner = check_expr(alloc, text, scope, inner)?;
            Ok(in_parentheses(*pos, inner))
        }
        Expr::Call(function, arguments, spread) => {
            let called = check_callee(alloc, text, scope, function, *spread)?;
            let listed = check_list(alloc, text, scope, arguments)?;
            let inner = quiet_fault(text, scope, &called.callee, arguments, &listed.items);
            call_of(alloc, function.pos(), called, listed, inner)
        }
        Expr::Selector(value, dot, name) => {
            check_selector(alloc, text, scope, value, *dot, *name)
        }
        Expr::Index(whole, bracket, index) => {
            let whole = check_single(alloc, text, scope, whole)?;
            let index = check_single(alloc, text, scope, index)?;
            element(&scope.types, *bracket, whole, index)
        }
        Expr::Slice(value, _, _, _) => check_left_out(alloc, text, scope, value),
        Expr::ArrayType(pos, _, _) => Ok(left_out(*pos)),
        Expr::SliceType(pos, _) => Ok(left_out(*pos)),
        Expr::Literal(type_expr, list) => {
            let stated = check_stated(alloc, text, scope, type_expr)?;
            let pos = type_expr.pos();
            let literal = check_elements(alloc, text, scope, pos, stated.value_type, list)?;
            Ok(typed_literal(stated, literal))
        }
        Expr::Elements(pos, _) => Ok(left_out(*pos)),
    }
}

/// A prefix and its operand.
#[cycle(expressions)]
fn check_prefix(
    alloc: Global,
    text: &[u8],
    scope: &Scope,
    pos: Pos,
    op: UnOp,
    inner: &Expr,
) -> Result<Checked, NoMemory>
    ensures pos { IfOk result (λ c. c.pos ≡ pos) }
    ensures gives { IfOk result (λ c. option_map gives_of c.gives
        ≡ gives text.now (scope_of scope.now) (unary pos op (tree_of inner.now))) }
    ensures fault { IfOk result (λ c. IsLeast (Fails text.now (scope_of scope.now) (unary pos op (tree_of inner.now))) c.fault) }
{
    if !has_rules(op) {
        return Ok(left_out(pos));
    }
    let inner = check_single(alloc, text, scope, inner)?;
    let own = prefix_fault(op, pos, &inner.operand);
    let operand = prefixed(alloc, op, inner.operand)?;
    Ok(Checked {
        pos,
        gives: one(operand),
        fault: lesser(inner.fault, own),
    })
}

/// A form that is left out of the profile, by the expression that it begins with.
#[cycle(expressions)]
fn check_left_out(
    alloc: Global,
    text: &[u8],
    scope: &Scope,
    first: &Expr,
) -> Result<Checked, NoMemory>
    ensures pos { IfOk result (λ c. c.pos ≡ first_pos (tree_of first.now)) }
    ensures gives { IfOk result (λ c. option_map gives_of c.gives ≡ None) }
    ensures fault { IfOk result (λ c. IsLeast
        (λ f. Fails text.now (scope_of scope.now) (tree_of first.now) f ⊎ FormFails (first_pos (tree_of first.now)) f) c.fault) }
{
    let checked = check_expr(alloc, text, scope, first)?;
    Ok(Checked {
        pos: checked.pos,
        gives: None,
        fault: lesser(checked.fault, form_fault(checked.pos)),
    })
}

/// A field of a value, behind a dot.
#[cycle(expressions)]
fn check_selector(
    alloc: Global,
    text: &[u8],
    scope: &Scope,
    value: &Expr,
    dot: Pos,
    name: Name,
) -> Result<Checked, NoMemory>
    ensures pos { IfOk result (λ c. c.pos ≡ first_pos (tree_of value.now)) }
    ensures gives { IfOk result (λ c. option_map gives_of c.gives
        ≡ gives text.now (scope_of scope.now) (selector_of (tree_of value.now) dot name)) }
    ensures fault { IfOk result (λ c. IsLeast
        (Fails text.now (scope_of scope.now) (selector_of (tree_of value.now) dot name)) c.fault) }
{
    let value = check_single(alloc, text, scope, value)?;
    let own = selector_fault(text, scope, value.pos, name, &value.operand);
    let operand = selected(alloc, text, scope, name, value.operand)?;
    Ok(Checked {
        pos: value.pos,
        gives: one(operand),
        fault: lesser(value.fault, own),
    })
}

/// What an expression states as a type: the name of one, in parentheses or not, or an array type.
#[cycle(expressions)]
#[tactic(auto, using(syntax::proofs::Views::expr_rows))]
pub fn check_stated(alloc: Global, text: &[u8], scope: &Scope, e: &Expr) -> Result<Stated, NoMemory>
    ensures value_type { IfOk result (λ r. r.value_type ≡ stated_type text.now (scope_of scope.now) (tree_of e.now)) }
    ensures fault { IfOk result (λ r. IsLeast (StatedFails text.now (scope_of scope.now) (tree_of e.now)) r.fault) }
{
    match e {
        Expr::Name(name) => Ok(stated_name(text, scope, *name)),
        Expr::Paren(_, inner) => check_stated(alloc, text, scope, inner),
        Expr::ArrayType(bracket, length, element) => {
            let length = check_early(alloc, text, scope, length)?;
            let element = check_stated(alloc, text, scope, element)?;
            Ok(array_of(&scope.types, *bracket, length, element))
        }
        _ => Ok(Stated {
            value_type: None,
            fault: form_fault(e.pos()),
        }),
    }
}

/// The elements of a literal that begins at a place, of a type or of none that is known.
#[cycle(expressions)]
fn check_elements(
    alloc: Global,
    text: &[u8],
    scope: &Scope,
    first: Pos,
    whole: Option<ValueType>,
    list: &[Element],
) -> Result<Checked, NoMemory>
    ensures pos { IfOk result (λ c. c.pos ≡ first) }
    ensures gives { IfOk result (λ c. option_map gives_of c.gives
        ≡ literal_gives text.now (scope_of scope.now) whole (elements_of list.now)) }
    ensures fault { IfOk result (λ c. IsLeast
        (FailsInLiteral text.now (scope_of scope.now) first whole (elements_of list.now)) c.fault) }
{
    let listed = check_placed(alloc, text, scope, whole, list)?;
    literal_of(alloc, text, scope, first, whole, list, listed)
}

/// The elements of a literal, each with the part that it stands for.
#[cycle(expressions)]
fn check_placed(
    alloc: Global,
    text: &[u8],
    scope: &Scope,
    whole: Option<ValueType>,
    list: &[Element],
) -> Result<PlacedList, NoMemory>
    ensures placed { IfOk result (λ l. placeds l.placed.items
        ≡ placed text.now (scope_of scope.now) whole 0 (elements_of list.now)) }
    ensures fault { IfOk result (λ l. IsLeast
        (FailsInElements text.now (scope_of scope.now) whole (elements_of list.now)) l.fault) }
{
    let mut placed = Vec::new(alloc);
    let mut fault = None;
    let mut number = 0;
    for element in list {
        let Single {
            pos,
            operand,
            fault: own,
        } = check_element(alloc, text, scope, whole, element)?;
        let part = element_part(text, scope, whole, number, key_of(element));
        placed.push(Placed { part, pos, operand })?;
        fault = lesser(fault, own);
        number = next_number(number)?;
    }
    Ok(PlacedList { placed, fault })
}

/// An element of a literal of a type or of none that is known.
#[cycle(expressions)]
fn check_element(
    alloc: Global,
    text: &[u8],
    scope: &Scope,
    whole: Option<ValueType>,
    element: &Element,
) -> Result<Single, NoMemory>
    ensures pos { IfOk result (λ c. c.pos ≡ first_pos (element_value element.now)) }
    ensures operand { IfOk result (λ c. option_map operand_of c.operand
        ≡ operand_in (element_gives text.now (scope_of scope.now) whole (element_value element.now))) }
    ensures fault { IfOk result (λ c. IsLeast
        (FailsInElement text.now (scope_of scope.now) whole (element_value element.now)) c.fault) }
{
    match element {
        Element::Plain(e) => check_part(alloc, text, scope, whole, e),
        Element::Keyed(_, e) => check_part(alloc, text, scope, whole, e),
    }
}

/// The value of an element: where it has no type of its own, it is a literal of the type of the whole's elements.
#[cycle(expressions)]
#[tactic(auto, using(syntax::proofs::Views::expr_rows))]
fn check_part(
    alloc: Global,
    text: &[u8],
    scope: &Scope,
    whole: Option<ValueType>,
    e: &Expr,
) -> Result<Single, NoMemory>
    ensures pos { IfOk result (λ c. c.pos ≡ first_pos (tree_of e.now)) }
    ensures operand { IfOk result (λ c. option_map operand_of c.operand
        ≡ operand_in (element_gives text.now (scope_of scope.now) whole (tree_of e.now))) }
    ensures fault { IfOk result (λ c. IsLeast (FailsInElement text.now (scope_of scope.now) whole (tree_of e.now)) c.fault) }
{
    if !is_bare(e) {
        return check_single(alloc, text, scope, e);
    }
    let Expr::Elements(pos, list) = e else {
        unreachable!()
    };
    let elision = elided(&scope.types, whole);
    let own = type_elided(elision);
    let literal = check_elements(alloc, text, scope, *pos, own, list)?;
    Ok(elided_literal(*pos, elision, literal))
}

/// What is called, where `...` may stand after the arguments.
#[cycle(expressions)]
fn check_callee(
    alloc: Global,
    text: &[u8],
    scope: &Scope,
    e: &Expr,
    spread: bool,
) -> Result<Called, NoMemory>
    ensures callee { IfOk result (λ c. callee_of c.callee
        ≡ spread_over spread (callee text.now (scope_of scope.now) (name_in (tree_of e.now))
        (gives text.now (scope_of scope.now) (tree_of e.now)))) }
    ensures fault { IfOk result (λ c. IsLeast
        (CalleeFails text.now (scope_of scope.now) (name_in (tree_of e.now))
        (λ f. Fails text.now (scope_of scope.now) (tree_of e.now) f)
        (gives text.now (scope_of scope.now) (tree_of e.now))) c.fault) }
{
    match name_in(e) {
        Some(name) => {
            let callee = callee_named(alloc, text, scope, name)?;
            Ok(Called {
                callee: spread_over(spread, callee),
                fault: callee_name_fault(text, scope, name),
            })
        }
        None => {
            let checked = check_single(alloc, text, scope, e)?;
            Ok(Called {
                callee: spread_over(spread, callee_value(&checked.operand)),
                fault: checked.fault,
            })
        }
    }
}

/// An expression as a constant that is worked out before the types of variables are known.
#[cycle(expressions)]
pub fn check_early(alloc: Global, text: &[u8], scope: &Scope, e: &Expr) -> Result<Single, NoMemory>
    ensures pos { IfOk result (λ c. c.pos ≡ first_pos (tree_of e.now)) }
    ensures operand { IfOk result (λ c. option_map operand_of c.operand
        ≡ early_gives text.now (scope_of scope.now) (tree_of e.now)) }
    ensures fault { IfOk result (λ c. IsLeast (FailsEarly text.now (scope_of scope.now) (tree_of e.now)) c.fault) }
{
    let single = check_single(alloc, text, scope, e)?;
    Ok(early(call_in(e), single))
}

/// An expression with one value.
#[cycle(expressions)]
pub fn check_single(alloc: Global, text: &[u8], scope: &Scope, e: &Expr) -> Result<Single, NoMemory>
    ensures pos { IfOk result (λ c. c.pos ≡ first_pos (tree_of e.now)) }
    ensures operand { IfOk result (λ c. option_map operand_of c.operand
        ≡ operand_in (gives text.now (scope_of scope.now) (tree_of e.now))) }
    ensures fault { IfOk result (λ c. IsLeast (FailsAsOperand text.now (scope_of scope.now) (tree_of e.now)) c.fault) }
{
    let checked = check_expr(alloc, text, scope, e)?;
    Ok(as_single(checked))
}

/// Expressions side by side.
#[cycle(expressions)]
pub fn check_list(
    alloc: Global,
    text: &[u8],
    scope: &Scope,
    es: &[Expr],
) -> Result<Listed, NoMemory>
    ensures seen { IfOk result (λ l. seens l.items.items ≡ seen text.now (scope_of scope.now) (trees_of es.now)) }
    ensures fault { IfOk result (λ l. IsLeast (FailsInEach text.now (scope_of scope.now) (trees_of es.now)) l.fault) }
{
    let mut items = Vec::new(alloc);
    let mut fault = None;
    for e in es {
        let Checked {
            pos,
            gives,
            fault: own,
        } = check_expr(alloc, text, scope, e)?;
        items.push(Item { pos, gives })?;
        fault = lesser(fault, own);
    }
    Ok(Listed { items, fault })
}
