//! Expressions side by side: the values of an assignment, a call or a `return`.

ghost use Rattle.std.specs.Prelude.{◌≡◌, ◌⊎◌, Option, Some, None, IfOk, map};
ghost use Rattle.std.specs.Option.{option_map};
ghost use Rattle.typed.specs.View.{ex_of, exs_of_values};
ghost use Rattle.type_faults.specs.Least.{IsLeast};
ghost use Rattle.type_faults.specs.Faults.{fault as fault_at};
ghost use Rattle.given_values.specs.Given.{values, parts, are_single, are_parts, are_shown, part_count, single_types, many_in, many, count, value_types, is_typed, types_agree, operand_in, operand_agrees, each, fits, all_values, taken, taken_types};
ghost use Rattle.given_values.specs.GivenFaults.{type_fault, SinglesFail, PartsFail, ValuesFail, RangeFails, SidesFail, placed_range_fault, TypesFail, MismatchFails, PlacedFail, TakeFails, count_fault, shown_fault};
ghost use Rattle.type_faults.specs.Given.{with_last};
ghost use Rattle.given_values.specs.Passing.{part_view, gives_of, seens, results_of};

use crate::gives::{
    Gives, Item, Part, is_part, is_shown, is_single, one_operand, one_type, part_fault, part_in,
    range_fault, single_fault,
};
use crate::wants::{Wanted, accepts};
use base::{NoMemory, Pos, ValueType};
use operators::value_of;
use std::alloc::Global;
use type_faults::{Fault, FaultKind, lesser};
use typed::{Expr, Values};

/// The fault of expressions each of which is to have one value.
pub fn singles_fault(items: &[Item]) -> Option<Fault>
    ensures { IsLeast (SinglesFail (seens items.now)) result }
{
    let mut fault = None;
    for item in items {
        fault = lesser(fault, single_fault(&item.gives));
    }
    fault
}

/// The fault of expressions each of which is to be an operand of `print`, `println` or `panic`.
pub fn parts_fault(items: &[Item]) -> Option<Fault>
    ensures { IsLeast (PartsFail (seens items.now)) result }
{
    let mut fault = None;
    for item in items {
        fault = lesser(fault, part_fault(&item.gives));
    }
    fault
}

/// The fault of expressions that are no values by themselves.
pub fn range_faults(items: &[Item]) -> Option<Fault>
    ensures { IsLeast (RangeFails (seens items.now)) result }
{
    let mut fault = None;
    for item in items {
        fault = lesser(fault, range_fault(item.pos, &item.gives));
    }
    fault
}

/// The types of the two results of `readInt`.
const READ_TYPES: [ValueType; 2] = [ValueType::Int, ValueType::Bool];

/// The place of a call that stands alone and has more than one value, and the types of these.
pub fn many_types(items: &[Item]) -> Option<(Pos, &[ValueType])>
    ensures place { option_map (λ r. r.0) result ≡ option_map (λ m. m.at) (many (seens items.now)) }
    ensures types { option_map (λ r. r.1.now) result ≡ option_map (λ m. m.types) (many (seens items.now)) }
{
    match items {
        [item] => match &item.gives {
            Some(Gives::Called(pos, types, _, _)) if types.len() >= 2 => Some((*pos, types)),
            Some(Gives::Asking(pos)) => Some((*pos, &READ_TYPES)),
            _ => None,
        },
        _ => None,
    }
}

/// The fault of expressions each of which has one value, or of a call that stands alone and has some.
pub fn values_fault(items: &[Item]) -> Option<Fault>
    ensures { IsLeast (ValuesFail (many (seens items.now)) (seens items.now)) result }
{
    match many_types(items) {
        Some(_) => None,
        None => singles_fault(items),
    }
}

pub fn are_single(items: &[Item]) -> bool
    ensures { result ≡ are_single (seens items.now) }
{
    let mut all = true;
    for item in items {
        all = all && is_single(&item.gives);
    }
    all
}

/// How many values there are, where all expressions give some.
pub fn count(items: &[Item]) -> Option<usize>
    ensures { result ≡ count (seens items.now) }
{
    match many_types(items) {
        Some((_, types)) => Some(types.len()),
        None => {
            if are_single(items) {
                Some(items.len())
            } else {
                None
            }
        }
    }
}

fn are_parts(items: &[Item]) -> bool
    ensures { result ≡ are_parts (seens items.now) }
{
    let mut all = true;
    for item in items {
        all = all && is_part(&item.gives);
    }
    all
}

/// How many operands of `print`, `println` or `panic` there are, where all may be some.
pub fn part_count(items: &[Item]) -> Option<usize>
    ensures { result ≡ part_count (seens items.now) }
{
    if are_parts(items) {
        Some(items.len())
    } else {
        None
    }
}

/// Whether each that has one value is of a type whose values are shown.
fn are_shown(items: &[Item]) -> bool
    ensures { result ≡ are_shown (seens items.now) }
{
    let mut all = true;
    for item in items {
        all = all && is_shown(&item.gives);
    }
    all
}

/// The fault of a value of a type that is not shown, where all may be operands of `print`, `println` or `panic`.
pub fn shown_fault(items: &[Item], own: Fault) -> Option<Fault>
    ensures { result ≡ shown_fault (seens items.now) own }
{
    if are_parts(items) && !are_shown(items) {
        Some(own)
    } else {
        None
    }
}

/// One more, where all are some.
fn with_last<T: Drop>(list: Option<Vec<T>>, last: Option<T>) -> Result<Option<Vec<T>>, NoMemory>
    ensures { IfOk result (λ r. option_map (λ v. v.items) r ≡ with_last (option_map (λ v. v.items) list) last) }
{
    match (list, last) {
        (Some(mut list), Some(last)) => {
            list.push(last)?;
            Ok(Some(list))
        }
        _ => Ok(None),
    }
}

/// The types of expressions each of which has one value.
fn single_types(alloc: Global, items: &[Item]) -> Result<Option<Vec<ValueType>>, NoMemory>
    ensures { IfOk result (λ r. option_map (λ v. v.items) r ≡ single_types (seens items.now)) }
{
    let mut types = Some(Vec::new(alloc));
    for item in items {
        types = with_last(types, one_type(&item.gives))?;
    }
    Ok(types)
}

/// The types of the values, where all expressions give some.
pub fn value_types(alloc: Global, items: &[Item]) -> Result<Option<Vec<ValueType>>, NoMemory>
    ensures { IfOk result (λ r. option_map (λ v. v.items) r ≡ value_types (seens items.now)) }
{
    match many_types(items) {
        Some((_, types)) => Ok(Some(Vec::from_slice(alloc, types)?)),
        None => single_types(alloc, items),
    }
}

/// The fault of another number of values than is wanted.
pub fn count_fault(count: Option<usize>, wanted: usize, own: Fault) -> Option<Fault>
    ensures { result ≡ count_fault count wanted own }
{
    match count {
        Some(count) if count != wanted => Some(own),
        _ => None,
    }
}

/// Whether each type is one that its place asks for.
fn types_agree(places: &[Wanted], types: &[ValueType]) -> bool
    ensures { result ≡ types_agree places.now types.now }
{
    let mut agree = true;
    for index in 0..places.len().min(types.len()) {
        agree = agree && accepts(places[index], types[index]);
    }
    agree
}

/// Whether a place asks for a type.
fn asks(place: Wanted) -> bool
    ensures { result ≡ is_typed place }
{
    match place {
        Wanted::Typed(_) => true,
        Wanted::Own | Wanted::Unknown => false,
    }
}

/// Whether a place takes the one value of an expression, where it has one.
pub fn agrees(place: Wanted, gives: &Option<Gives>) -> bool
    ensures { result ≡ operand_agrees place (operand_in (option_map gives_of gives.now)) }
{
    match one_type(gives) {
        Some(value_type) => accepts(place, value_type),
        None => !asks(place) || !is_single(gives),
    }
}

/// The fault of a value that its place doesn't take.
fn type_fault(place: Wanted, item: &Item) -> Option<Fault>
    ensures { result ≡ type_fault place item.now.pos (operand_in (option_map gives_of item.now.gives)) }
{
    if agrees(place, &item.gives) {
        None
    } else {
        Some(Fault {
            kind: FaultKind::Mismatch,
            pos: item.pos,
        })
    }
}

/// The fault of values of other types than their places ask for, each of which has its own expression.
fn types_fault(places: &[Wanted], items: &[Item]) -> Option<Fault>
    ensures { IsLeast (TypesFail places.now (seens items.now)) result }
{
    let mut fault = None;
    for index in 0..places.len().min(items.len()) {
        fault = lesser(fault, type_fault(places[index], &items[index]));
    }
    fault
}

/// The fault of values of other types than their places ask for.
fn mismatch_fault(places: &[Wanted], items: &[Item]) -> Option<Fault>
    ensures { IsLeast (MismatchFails places.now (seens items.now) (many (seens items.now))) result }
{
    match many_types(items) {
        Some((pos, types)) => {
            if types_agree(places, types) {
                None
            } else {
                Some(Fault {
                    kind: FaultKind::Mismatch,
                    pos,
                })
            }
        }
        None => types_fault(places, items),
    }
}

/// The fault of what is no value by itself, at a place that has a rule.
fn placed_range_fault(place: Wanted, item: &Item) -> Option<Fault>
    ensures { result ≡ placed_range_fault place item.now.pos (operand_in (option_map gives_of item.now.gives)) }
{
    match place {
        Wanted::Own | Wanted::Typed(_) => range_fault(item.pos, &item.gives),
        Wanted::Unknown => None,
    }
}

/// The fault of what is no value by itself, where each place has its own expression.
fn placed_range_faults(places: &[Wanted], items: &[Item]) -> Option<Fault>
    ensures { IsLeast (SidesFail placed_range_fault places.now (seens items.now)) result }
{
    let mut fault = None;
    for index in 0..places.len().min(items.len()) {
        fault = lesser(fault, placed_range_fault(places[index], &items[index]));
    }
    fault
}

/// The fault of the values themselves at these places.
pub fn placed_fault(places: &[Wanted], items: &[Item]) -> Option<Fault>
    ensures { IsLeast (PlacedFail places.now (seens items.now)) result }
{
    let own = lesser(values_fault(items), placed_range_faults(places, items));
    lesser(own, mismatch_fault(places, items))
}

/// The fault of values at these places; `own` is that of another number.
pub fn take_fault(own: Fault, places: &[Wanted], items: &[Item]) -> Option<Fault>
    ensures { IsLeast (TakeFails own places.now (seens items.now)) result }
{
    lesser(
        placed_fault(places, items),
        count_fault(count(items), places.len(), own),
    )
}

/// The value of each expression.
pub fn values(alloc: Global, items: Vec<Item>) -> Result<Option<Vec<Expr>>, NoMemory>
    ensures { IfOk result (λ r. option_map (λ v. map ex_of v.items) r ≡ values (seens items.items)) }
{
    let mut values = Some(Vec::new(alloc));
    for item in items {
        let value = value_of(one_operand(item.gives));
        values = with_last(values, value)?;
    }
    Ok(values)
}

/// Each expression as an operand of `print`, `println` or `panic`.
pub fn parts(alloc: Global, items: Vec<Item>) -> Result<Option<Vec<Part>>, NoMemory>
    ensures { IfOk result (λ r. option_map (λ v. map part_view v.items) r ≡ parts (seens items.items)) }
{
    let mut parts = Some(Vec::new(alloc));
    for item in items {
        parts = with_last(parts, part_in(item.gives))?;
    }
    Ok(parts)
}

/// All results of a call that has more than one.
fn results_in(gives: Option<Gives>) -> Option<Values>
    ensures { option_map exs_of_values result ≡ option_map results_of (many_in (option_map gives_of gives)) }
{
    match gives {
        Some(Gives::Called(_, types, function, arguments)) => {
            if types.len() >= 2 {
                Some(Values::Results(function, arguments))
            } else {
                None
            }
        }
        Some(Gives::Asking(_)) => Some(Values::ReadInt),
        _ => None,
    }
}

/// One value of each expression.
fn each(values: Option<Vec<Expr>>) -> Option<Values>
    ensures { option_map exs_of_values result ≡ option_map (λ v. each (map ex_of v.items)) values }
{
    match values {
        Some(values) => Some(Values::Each(values)),
        None => None,
    }
}

/// All results of a call that stands alone and has more than one.
fn results(items: Vec<Item>) -> Option<Values>
    ensures { option_map exs_of_values result ≡ option_map results_of (many (seens items.items)) }
{
    let mut items = items;
    if items.len() != 1 {
        return None;
    }
    match items.pop() {
        Some(item) => results_in(item.gives),
        None => None,
    }
}

/// Whether there are as many values as places, of the types that these ask for.
pub fn fits(places: &[Wanted], items: &[Item]) -> bool
    ensures { result ≡ fits places.now (seens items.now) }
{
    match many_types(items) {
        Some((_, types)) => types.len() == places.len() && types_agree(places, types),
        None => items.len() == places.len() && types_fault(places, items).is_none(),
    }
}

/// The values of expressions that have some.
fn all_values(alloc: Global, items: Vec<Item>) -> Result<Option<Values>, NoMemory>
    ensures { IfOk result (λ r. option_map exs_of_values r ≡ all_values (seens items.items) (many (seens items.items))) }
{
    if many_types(&items).is_some() {
        return Ok(results(items));
    }
    let values = values(alloc, items)?;
    Ok(each(values))
}

/// The values at these places.
pub fn taken(alloc: Global, places: &[Wanted], items: Vec<Item>) -> Result<Option<Values>, NoMemory>
    ensures { IfOk result (λ r. option_map exs_of_values r ≡ taken places.now (seens items.items)) }
{
    if fits(places, &items) {
        all_values(alloc, items)
    } else {
        Ok(None)
    }
}

/// The types of the values at these places.
pub fn taken_types(
    alloc: Global,
    places: &[Wanted],
    items: &[Item],
) -> Result<Option<Vec<ValueType>>, NoMemory>
    ensures { IfOk result (λ r. option_map (λ v. v.items) r ≡ taken_types places.now (seens items.now)) }
{
    match range_faults(items) {
        Some(_) => Ok(None),
        None => {
            if fits(places, items) {
                value_types(alloc, items)
            } else {
                Ok(None)
            }
        }
    }
}
