//! The header of a `for` with a `range`: what it goes over, and what gets its values.

ghost use Rattle.std.specs.Prelude.{◌≡◌, ◌⊎◌, Option, Some, None, IfOk, OnOk, List, map, length, not, ◌&&◌, option_and_then, if◌then◌else◌};
ghost use Rattle.std.specs.Option.{option_map};
ghost use Rattle.syntax.specs.Expressions.{ex_of as tree_of, exs_of as trees_of, spelled};
ghost use Rattle.syntax.specs.FirstBytes.{first_pos};
ghost use Rattle.syntax.specs.Statements.{targets_of, targets_assigned, targets_defined};
ghost use Rattle.typed.specs.View.{ex_of, left_of as left_view};
ghost use Rattle.type_faults.specs.Least.{IsLeast};
ghost use Rattle.type_faults.specs.Given.{allowed};
ghost use Rattle.type_faults.specs.Faults.{fault as fault_at, IsFault};
ghost use Rattle.operators.specs.Passing.{operand_of};
ghost use Rattle.names.specs.Universe.{is_blank};
ghost use Rattle.names.specs.Scope.{scope_of, opened};
ghost use Rattle.given_values.specs.Given.{operand_in};
ghost use Rattle.expression_types.specs.Typing.{gives};
ghost use Rattle.given_values.specs.GivenFaults.{range_fault};
ghost use Rattle.signatures.specs.Entries.{slots_each, behind_entries};
ghost use Rattle.types_go.specs.Ranges.{ranged_type, ranged_of, ranged_in, given_by, given_types, most, each_accept, all_accept, target_slots, key_count, sides_of, over_numbers, over_array, ranging, range_with, range_of, copied_by, copied, behind_copy, over, ranged, given, all_blank, target_lefts, name_count, target_count, behind_targets, behind_range, range_in};
ghost use Rattle.types_go.specs.RangeFaults.{ranged_fault, over_fault, given_fault, EachFails, GivenFail, keys_fault, call_fault, array_call, call_in, FailsInOver, TargetsFail, FailsInRange};
ghost use Rattle.types_go.specs.StatementPassing.{ranged_view, sides_view, range_view};

use base::{NoMemory, Pos, SiteId, ValueType};
use expression_types::check_single;
use given_values::{Wanted, accepts};
use names::{Scope, is_blank, is_known, spelled};
use operand_calls::{has_call, unevaluated_fault};
use operators::{Operand, constant_range_fault, type_of, value_of};
use signatures::{Role, check_entries, entry_lefts, fault_where, slots_each};
use simple_statements::check_lefts;
use std::alloc::Global;
use syntax::{Expr, Name, Targets};
use type_faults::{Fault, FaultKind, lesser};
use typed::{Left, TypeTable};

/// What a `range` goes over.
#[derive(Clone, Copy, Debug, PartialEq, Eq)]
enum Ranged {
    /// The numbers below an int.
    Numbers,
    /// An array of a type: how many elements it has, and their type.
    Elements(ValueType, u64, ValueType),
}

/// The two left sides, of which one that is absent is blank.
#[derive(Drop)]
struct Sides {
    key: Left,
    value: Left,
}

/// What a `range` goes over, and what gets its values.
#[derive(Drop)]
pub enum Range {
    /// The int up to which the numbers go, and what gets them.
    Count(typed::Expr, Left),
    /// The length of an array, and what gets the indices.
    Indices(u64, Left),
    /// The hidden variable, the array that it gets a copy of, its length, and what gets the index and the element.
    Elements(SiteId, typed::Expr, u64, Left, Left),
}

/// What is known of the header of a `for` with a `range`.
#[derive(Drop)]
pub struct Ranging {
    pub range: Option<Range>,
    pub fault: Option<Fault>,
}

/// What is known of what a `range` goes over: what it is, its value, the fault of a call in what isn't evaluated, and any other fault.
#[derive(Drop)]
struct Over {
    ranged: Option<Ranged>,
    value: Option<typed::Expr>,
    call: Option<Fault>,
    fault: Option<Fault>,
}

/// What gets the values, and the site of the hidden variable, if there is to be one.
#[derive(Drop)]
struct Keyed {
    keys: Keys,
    site: SiteId,
}

/// What is known of what gets the values of a `range`: the left sides, how many there are, and the fault.
#[derive(Drop)]
struct Keys {
    lefts: Option<Vec<Left>>,
    count: Option<usize>,
    fault: Option<Fault>,
}

fn ranged_type(types: &TypeTable, value_type: ValueType) -> Option<Ranged>
    ensures { option_map ranged_view result ≡ ranged_type types.now value_type }
{
    match value_type {
        ValueType::Int => Some(Ranged::Numbers),
        ValueType::Bool | ValueType::Struct(_) => None,
        ValueType::Pointer(_) | ValueType::Slice(_) => None,
        ValueType::Array(length, element) => {
            if is_known(types, value_type) {
                let element_type = types.type_at(element);
                Some(Ranged::Elements(value_type, length, element_type))
            } else {
                None
            }
        }
    }
}

fn ranged_of(types: &TypeTable, operand: &Operand) -> Option<Ranged>
    ensures { option_map ranged_view result ≡ ranged_of types.now (operand_of operand.now) }
{
    match type_of(operand) {
        Some(value_type) => ranged_type(types, value_type),
        None => None,
    }
}

fn ranged_in(types: &TypeTable, operand: &Option<Operand>) -> Option<Ranged>
    ensures { option_map ranged_view result ≡ ranged_in types.now (option_map operand_of operand.now) }
{
    match operand {
        Some(operand) => ranged_of(types, operand),
        None => None,
    }
}

/// The types of the index and the element.
fn given_by(alloc: Global, ranged: Ranged) -> Result<Vec<ValueType>, NoMemory>
    ensures { IfOk result (λ v. v.items ≡ given_by (ranged_view ranged)) }
{
    let second = match ranged {
        Ranged::Numbers => ValueType::Int,
        Ranged::Elements(_, _, element) => element,
    };
    Ok(Vec::from_array(alloc, [ValueType::Int, second])?)
}

fn given_types(alloc: Global, ranged: Option<Ranged>) -> Result<Option<Vec<ValueType>>, NoMemory>
    ensures { IfOk result (λ r. option_map (λ v. v.items) r ≡ given_types (option_map ranged_view ranged)) }
{
    match ranged {
        Some(ranged) => Ok(Some(given_by(alloc, ranged)?)),
        None => Ok(None),
    }
}

/// How many left sides there may be.
fn most(ranged: Ranged) -> usize
    ensures { result ≡ most (ranged_view ranged) }
{
    match ranged {
        Ranged::Numbers => 1,
        Ranged::Elements(_, _, _) => 2,
    }
}

fn most_in(ranged: Option<Ranged>) -> Option<usize>
    ensures { result ≡ option_map most (option_map ranged_view ranged) }
{
    match ranged {
        Some(ranged) => Some(most(ranged)),
        None => None,
    }
}

/// The fault of what is no value by itself: a constant that no int can hold, or `nil`.
fn range_fault(operand: &Operand, pos: Pos) -> Option<Fault>
    ensures { result ≡ range_fault pos (Some (operand_of operand.now)) }
{
    match operand {
        Operand::Constant(fixed) => constant_range_fault(pos, fixed.value),
        Operand::Value(_, _) => None,
        Operand::Nil => Some(Fault {
            kind: FaultKind::Unfit,
            pos,
        }),
    }
}

fn ranged_fault(
    pos: Pos,
    value_pos: Pos,
    operand: &Operand,
    ranged: Option<Ranged>,
) -> Option<Fault>
    ensures { result ≡ ranged_fault pos value_pos (operand_of operand.now) (option_map ranged_view ranged) }
{
    match ranged {
        Some(_) => range_fault(operand, value_pos),
        None => Some(Fault {
            kind: FaultKind::Unfit,
            pos,
        }),
    }
}

/// The fault of what a `range` goes over, in a `for` whose word stands at a place.
fn over_fault(
    types: &TypeTable,
    pos: Pos,
    value_pos: Pos,
    operand: &Option<Operand>,
) -> Option<Fault>
    ensures { result ≡ over_fault types.now pos value_pos (option_map operand_of operand.now) }
{
    match operand {
        Some(operand) => ranged_fault(pos, value_pos, operand, ranged_of(types, operand)),
        None => None,
    }
}

/// The fault of a call in an array.
fn array_call(
    text: &[u8],
    scope: &Scope,
    e: &Expr,
    ranged: Ranged,
    value: &typed::Expr,
) -> Option<Fault>
    ensures { result ≡ array_call text.now (scope_of scope.now) (tree_of e.now) (ranged_view ranged) (ex_of value.now) }
{
    match ranged {
        Ranged::Numbers => None,
        Ranged::Elements(_, _, _) => unevaluated_fault(text, scope, e, value),
    }
}

fn call_in(
    text: &[u8],
    scope: &Scope,
    e: &Expr,
    ranged: Option<Ranged>,
    value: &Option<typed::Expr>,
) -> Option<Fault>
    ensures { result ≡ call_in text.now (scope_of scope.now) (tree_of e.now) (option_map ranged_view ranged)
        (option_map ex_of value.now) }
{
    match (ranged, value) {
        (Some(ranged), Some(value)) => array_call(text, scope, e, ranged, value),
        _ => None,
    }
}

/// What a `range` goes over.
fn check_over(
    alloc: Global,
    text: &[u8],
    scope: &Scope,
    pos: Pos,
    e: &Expr,
) -> Result<Over, NoMemory>
    ensures ranged { IfOk result (λ o. option_map ranged_view o.ranged ≡ ranged text.now (scope_of scope.now) (tree_of e.now)) }
    ensures value { IfOk result (λ o. option_map ex_of o.value ≡ over text.now (scope_of scope.now) (tree_of e.now)) }
    ensures call { IfOk result (λ o. o.call ≡ call_in text.now (scope_of scope.now) (tree_of e.now)
        (ranged text.now (scope_of scope.now) (tree_of e.now)) (over text.now (scope_of scope.now) (tree_of e.now))) }
    ensures fault { IfOk result (λ o. IsLeast (FailsInOver text.now (scope_of scope.now) pos (tree_of e.now)) o.fault) }
{
    let found = check_single(alloc, text, scope, e)?;
    let own = over_fault(&scope.types, pos, found.pos, &found.operand);
    let fault = lesser(found.fault, own);
    let ranged = ranged_in(&scope.types, &found.operand);
    let value = value_of(found.operand);
    let call = call_in(text, scope, e, ranged, &value);
    Ok(Over {
        ranged,
        value,
        call,
        fault,
    })
}

/// The fault of a left side of another type.
fn given_fault(given: ValueType, wanted: Wanted, pos: Pos) -> Option<Fault>
    ensures { result ≡ given_fault given wanted pos }
{
    let own = Fault {
        kind: FaultKind::Mismatch,
        pos,
    };
    fault_where(!accepts(wanted, given), own)
}

fn each_fault(types: &[ValueType], wanted: &[Wanted], es: &[Expr]) -> Option<Fault>
    ensures { IsLeast (EachFails types.now wanted.now (trees_of es.now)) result }
{
    let mut fault = None;
    let first = types.len().min(wanted.len());
    for index in 0..first.min(es.len()) {
        let own = given_fault(types[index], wanted[index], es[index].pos());
        fault = lesser(fault, own);
    }
    fault
}

fn given_faults(given: &Option<Vec<ValueType>>, wanted: &[Wanted], es: &[Expr]) -> Option<Fault>
    ensures { IsLeast (GivenFail (option_map (λ v. v.items) given.now) wanted.now (trees_of es.now)) result }
{
    match given {
        Some(types) => each_fault(types, wanted, es),
        None => None,
    }
}

fn each_accept(types: &[ValueType], wanted: &[Wanted]) -> bool
    ensures { result ≡ each_accept types.now wanted.now }
{
    let mut all = true;
    for index in 0..types.len().min(wanted.len()) {
        all = all && accepts(wanted[index], types[index]);
    }
    all
}

/// Whether left sides that ask for this may get values of these types.
fn all_accept(given: &Option<Vec<ValueType>>, wanted: &[Wanted]) -> bool
    ensures { result ≡ all_accept (option_map (λ v. v.items) given.now) wanted.now }
{
    match given {
        Some(types) => each_accept(types, wanted),
        None => true,
    }
}

fn lefts_where(is_allowed: bool, lefts: Option<Vec<Left>>) -> Option<Vec<Left>>
    ensures { option_map (λ v. map left_view v.items) result
        ≡ allowed is_allowed (option_map (λ v. map left_view v.items) lefts) }
{
    if is_allowed { lefts } else { None }
}

/// How many left sides there are; a blank one after another is as if absent.
fn key_count(lefts: &[Left]) -> usize
    ensures { result ≡ key_count (map left_view lefts.now) }
{
    match lefts {
        [_, Left::Blank] => 1,
        _ => lefts.len(),
    }
}

fn left_count(lefts: &Option<Vec<Left>>) -> Option<usize>
    ensures { result ≡ option_map key_count (option_map (λ v. map left_view v.items) lefts.now) }
{
    match lefts {
        Some(lefts) => Some(key_count(lefts)),
        None => None,
    }
}

/// Left sides of a `=` that get the values of a `range`.
fn check_assigned(
    alloc: Global,
    text: &[u8],
    scope: &Scope,
    given: &Option<Vec<ValueType>>,
    es: &[Expr],
    pos: Pos,
) -> Result<Keys, NoMemory>
    ensures lefts { IfOk result (λ k. option_map (λ v. map left_view v.items) k.lefts
        ≡ target_lefts text.now (scope_of scope.now) (option_map (λ v. v.items) given.now)
        (targets_assigned (trees_of es.now) pos)) }
    ensures count { IfOk result (λ k. k.count
        ≡ target_count text.now (scope_of scope.now) (targets_assigned (trees_of es.now) pos)) }
    ensures fault { IfOk result (λ k. IsLeast
        (TargetsFail text.now (scope_of scope.now) (option_map (λ v. v.items) given.now)
        (targets_assigned (trees_of es.now) pos)) k.fault) }
{
    let left = check_lefts(alloc, text, scope, es)?;
    let own = given_faults(given, &left.wanted, es);
    let count = left_count(&left.lefts);
    Ok(Keys {
        lefts: lefts_where(all_accept(given, &left.wanted), left.lefts),
        count,
        fault: lesser(left.fault, own),
    })
}

fn all_blank(text: &[u8], names: &[Name]) -> bool
    ensures { result ≡ all_blank text.now names.now }
{
    let mut all = true;
    for name in names {
        all = all && is_blank(spelled(text, *name));
    }
    all
}

/// How many names there are; a blank one after another is as if absent.
fn name_count(text: &[u8], names: &[Name]) -> usize
    ensures { result ≡ name_count text.now names.now }
{
    match names {
        [_, name] if is_blank(spelled(text, *name)) => 1,
        _ => names.len(),
    }
}

/// New variables that get the values of a `range`.
fn check_defined(
    alloc: Global,
    text: &[u8],
    scope: &mut Scope,
    given: &Option<Vec<ValueType>>,
    names: &[Name],
    pos: Pos,
) -> Result<Keys, NoMemory>
    ensures lefts { IfOk result (λ k. option_map (λ v. map left_view v.items) k.lefts
        ≡ target_lefts text.now (scope_of scope.old) (option_map (λ v. v.items) given.now) (targets_defined names.now pos)) }
    ensures count { IfOk result (λ k. k.count ≡ Some (name_count text.now names.now)) }
    ensures fault { IfOk result (λ k. IsLeast
        (TargetsFail text.now (scope_of scope.old) (option_map (λ v. v.items) given.now)
        (targets_defined names.now pos)) k.fault) }
    ensures scope { OnOk result (scope_of scope.new
        ≡ behind_entries text.now (scope_of scope.old) (slots_each (option_map (λ v. v.items) given.now) names.now)) }
{
    let slots = slots_each(alloc, names, given)?;
    let entries = check_entries(alloc, text, scope, Role::Parameter, &slots)?;
    let lefts = entry_lefts(alloc, &entries.entries)?;
    let blank = all_blank(text, names);
    let own = Fault {
        kind: FaultKind::NothingNew,
        pos,
    };
    Ok(Keys {
        lefts: lefts_where(!blank, lefts),
        count: Some(name_count(text, names)),
        fault: lesser(entries.fault, fault_where(blank, own)),
    })
}

/// What gets the values of a `range`.
fn check_targets(
    alloc: Global,
    text: &[u8],
    scope: &mut Scope,
    given: &Option<Vec<ValueType>>,
    targets: &Targets,
) -> Result<Keys, NoMemory>
    ensures lefts { IfOk result (λ k. option_map (λ v. map left_view v.items) k.lefts
        ≡ target_lefts text.now (scope_of scope.old) (option_map (λ v. v.items) given.now) (targets_of targets.now)) }
    ensures count { IfOk result (λ k. k.count ≡ target_count text.now (scope_of scope.old) (targets_of targets.now)) }
    ensures fault { IfOk result (λ k. IsLeast
        (TargetsFail text.now (scope_of scope.old) (option_map (λ v. v.items) given.now) (targets_of targets.now)) k.fault) }
    ensures scope { OnOk result (scope_of scope.new
        ≡ behind_entries text.now (scope_of scope.old)
        (target_slots (option_map (λ v. v.items) given.now) (targets_of targets.now))) }
{
    match targets {
        Targets::Absent => Ok(Keys {
            lefts: Some(Vec::new(alloc)),
            count: Some(0),
            fault: None,
        }),
        Targets::Assign(es, pos) => check_assigned(alloc, text, scope, given, es, *pos),
        Targets::Define(names, pos) => check_defined(alloc, text, scope, given, names, *pos),
    }
}

/// The fault of more left sides than there may be.
fn keys_fault(pos: Pos, most: Option<usize>, count: Option<usize>) -> Option<Fault>
    ensures { result ≡ keys_fault pos most count }
{
    let own = Fault {
        kind: FaultKind::WrongCount,
        pos,
    };
    match (most, count) {
        (Some(most), Some(count)) => fault_where(!(count <= most), own),
        _ => None,
    }
}

/// A fault of what isn't evaluated, which is so with one left side at most.
fn call_fault(count: Option<usize>, found: Option<Fault>) -> Option<Fault>
    ensures { result ≡ call_fault count found }
{
    match count {
        Some(count) => { if count <= 1 { found } else { None } }
        None => None,
    }
}

/// The two left sides, where there are no more.
fn sides_of(lefts: Vec<Left>) -> Option<Sides>
    ensures { option_map sides_view result ≡ sides_of (map left_view lefts.items) }
{
    let mut lefts = lefts;
    match lefts.len() {
        0 => Some(Sides {
            key: Left::Blank,
            value: Left::Blank,
        }),
        1 => Some(Sides {
            key: lefts.swap_remove(0),
            value: Left::Blank,
        }),
        2 => {
            let key = lefts.swap_remove(0);
            let value = lefts.swap_remove(0);
            Some(Sides { key, value })
        }
        _ => None,
    }
}

fn sides_in(lefts: Option<Vec<Left>>) -> Option<Sides>
    ensures { option_map sides_view result ≡ option_and_then sides_of (option_map (λ v. map left_view v.items) lefts) }
{
    match lefts {
        Some(lefts) => sides_of(lefts),
        None => None,
    }
}

/// The numbers below an int, which one left side gets.
fn range_numbers(value: typed::Expr, sides: Sides) -> Option<Range>
    ensures { option_map range_view result ≡ option_map (ranging (sides_view sides))
        (over_numbers (ex_of value) (left_view sides.value)) }
{
    let Sides { key, value: second } = sides;
    match second {
        Left::Blank => Some(Range::Count(value, key)),
        Left::New(_) | Left::To(_) => {
            drop(value);
            drop(key);
            None
        }
    }
}

/// An array: with a second left side its elements, and else the indices of one that isn't evaluated.
fn range_array(site: SiteId, length: u64, value: typed::Expr, sides: Sides) -> Option<Range>
    ensures { option_map range_view result ≡ option_map (ranging (sides_view sides))
        (over_array site.0 length (ex_of value) (left_view sides.value)) }
{
    let Sides { key, value: second } = sides;
    match second {
        Left::Blank => {
            let calls = has_call(&value);
            drop(value);
            if calls {
                drop(key);
                None
            } else {
                Some(Range::Indices(length, key))
            }
        }
        Left::New(new) => Some(Range::Elements(site, value, length, key, Left::New(new))),
        Left::To(place) => Some(Range::Elements(site, value, length, key, Left::To(place))),
    }
}

fn range_with(site: SiteId, ranged: Ranged, value: typed::Expr, sides: Sides) -> Option<Range>
    ensures { option_map range_view result ≡ range_with site.0 (ranged_view ranged) (ex_of value) (sides_view sides) }
{
    match ranged {
        Ranged::Numbers => range_numbers(value, sides),
        Ranged::Elements(_, length, _) => range_array(site, length, value, sides),
    }
}

fn range_of(
    site: SiteId,
    ranged: Option<Ranged>,
    value: Option<typed::Expr>,
    lefts: Option<Vec<Left>>,
) -> Option<Range>
    ensures { option_map range_view result ≡ range_of site.0 (option_map ranged_view ranged) (option_map ex_of value)
        (option_map (λ v. map left_view v.items) lefts) }
{
    match (ranged, value, sides_in(lefts)) {
        (Some(ranged), Some(value), Some(sides)) => range_with(site, ranged, value, sides),
        (_, value, sides) => {
            drop(value);
            drop(sides);
            None
        }
    }
}

/// The type of the hidden variable, by how many left sides there are.
fn copied_by(ranged: Ranged, count: usize) -> Option<ValueType>
    ensures { result ≡ copied_by (ranged_view ranged) count }
{
    match ranged {
        Ranged::Numbers => None,
        Ranged::Elements(value_type, _, _) => { if count <= 1 { None } else { Some(value_type) } }
    }
}

fn copied(ranged: Option<Ranged>, count: Option<usize>) -> Option<ValueType>
    ensures { result ≡ copied (option_map ranged_view ranged) count }
{
    match (ranged, count) {
        (Some(ranged), Some(count)) => copied_by(ranged, count),
        _ => None,
    }
}

/// Adds the site of the hidden variable, where there is one.
fn add_copy(scope: &mut Scope, value_type: Option<ValueType>, pos: Pos) -> Result<(), NoMemory>
    ensures { OnOk result (scope_of scope.new ≡ behind_copy (scope_of scope.old) value_type pos) }
{
    match value_type {
        Some(value_type) => scope.add_site(scope.setting.of_copy(), &[], value_type, pos),
        None => Ok(()),
    }
}

/// What gets the values, in the block of the header, and the site of the hidden variable behind the new ones.
fn check_sides(
    alloc: Global,
    text: &[u8],
    scope: &mut Scope,
    ranged: Option<Ranged>,
    targets: &Targets,
    range_pos: Pos,
) -> Result<Keyed, NoMemory>
    ensures site { IfOk result (λ k. k.site.0
        ≡ length (behind_entries text.now (opened (scope_of scope.old))
        (target_slots (given_types (option_map ranged_view ranged)) (targets_of targets.now))).sites) }
    ensures lefts { IfOk result (λ k. option_map (λ v. map left_view v.items) k.keys.lefts
        ≡ target_lefts text.now (opened (scope_of scope.old)) (given_types (option_map ranged_view ranged))
        (targets_of targets.now)) }
    ensures count { IfOk result (λ k. k.keys.count
        ≡ target_count text.now (opened (scope_of scope.old)) (targets_of targets.now)) }
    ensures fault { IfOk result (λ k. IsLeast
        (TargetsFail text.now (opened (scope_of scope.old)) (given_types (option_map ranged_view ranged))
        (targets_of targets.now)) k.keys.fault) }
    ensures scope { OnOk result (scope_of scope.new
        ≡ behind_copy (behind_entries text.now (opened (scope_of scope.old))
        (target_slots (given_types (option_map ranged_view ranged)) (targets_of targets.now)))
        (copied (option_map ranged_view ranged)
        (target_count text.now (opened (scope_of scope.old)) (targets_of targets.now))) range_pos) }
{
    let given = given_types(alloc, ranged)?;
    scope.open()?;
    let keys = check_targets(alloc, text, scope, &given, targets)?;
    let Ok(site) = scope.next_site() else {
        drop(keys);
        return Err(NoMemory);
    };
    let Ok(()) = add_copy(scope, copied(ranged, keys.count), range_pos) else {
        drop(keys);
        return Err(NoMemory);
    };
    Ok(Keyed { keys, site })
}

/// The header of a `for` whose word stands at a place, with a `range` whose word stands at another. Its block is open after it.
pub fn check_range(
    alloc: Global,
    text: &[u8],
    scope: &mut Scope,
    pos: Pos,
    targets: &Targets,
    range_pos: Pos,
    e: &Expr,
) -> Result<Ranging, NoMemory>
    ensures range { IfOk result (λ r. option_map range_view r.range
        ≡ range_in text.now (scope_of scope.old) (targets_of targets.now) (tree_of e.now)) }
    ensures fault { IfOk result (λ r. IsLeast
        (FailsInRange text.now (scope_of scope.old) pos (targets_of targets.now) (tree_of e.now)) r.fault) }
    ensures scope { OnOk result (scope_of scope.new
        ≡ behind_range text.now (scope_of scope.old) (targets_of targets.now) range_pos (tree_of e.now)) }
{
    let over = check_over(alloc, text, scope, pos, e)?;
    let Ok(sides) = check_sides(alloc, text, scope, over.ranged, targets, range_pos) else {
        drop(over);
        return Err(NoMemory);
    };
    let keys = sides.keys;
    let keys_own = keys_fault(pos, most_in(over.ranged), keys.count);
    let call_own = call_fault(keys.count, over.call);
    let fault = lesser(lesser(lesser(over.fault, keys.fault), keys_own), call_own);
    Ok(Ranging {
        range: range_of(sides.site, over.ranged, over.value, keys.lefts),
        fault,
    })
}
