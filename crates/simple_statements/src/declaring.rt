//! Names on the left of `:=`.

ghost use Rattle.std.specs.Prelude.{◌≡◌, Option, Some, None, IfOk, OnOk, List, map, length, is_some, [], ◌∷◌, not, ◌&&◌, ◌||◌, ◌⊎◌, ◌+◌, ◌++◌, if◌then◌else◌};
ghost use Rattle.std.specs.Option.{option_map};
ghost use Rattle.syntax.specs.Expressions.{spelled, name as name_of};
ghost use Rattle.typed.specs.View.{left_of as left_view};
ghost use Rattle.type_faults.specs.Least.{IsLeast};
ghost use Rattle.type_faults.specs.Faults.{fault as fault_at, IsFault};
ghost use Rattle.type_faults.specs.declared.fault.FaultKind.TheVariants.{NothingNew};
ghost use Rattle.names.specs.Universe.{is_blank};
ghost use Rattle.names.specs.Scope.{scope_of, declaration, is_here};
ghost use Rattle.operators.specs.Passing.{typed_place_of};
ghost use Rattle.simple_statements.specs.SimpleStatements.{place_in, new_left_of, new_wanted_of, declares, slot_declares, new_left, new_wanted, noted, is_noted, new_lefts, all_new_wanted, new_slots, with_slot, with_variables, has_all, may_define};
ghost use Rattle.signatures.specs.Failing.{fault_where};
ghost use Rattle.simple_statements.specs.SimpleFaults.{new_name_fault, NewNamesFail, TwiceFails, names_place};

use crate::sides::{left_fault_of, target, wanted_of, with_left};
use base::{NoMemory, Pos, SiteId};
use expression_types::check_single;
use given_values::Wanted;
use names::{Blocks, Declared, Scope, is_blank, spelled};
use operators::{TypedPlace, place_in};
use signatures::{Slot, fault_where};
use std::alloc::Global;
use syntax::{Expr, Name};
use type_faults::{Fault, FaultKind, lesser};
use typed::Left;

/// The left sides of a `:=`, and the fault.
#[derive(Drop)]
pub struct NewLefts {
    pub lefts: Option<Vec<Left>>,
    pub fault: Option<Fault>,
}

/// What is known of the names of a `:=` as a whole: whether they may stand there together, and the fault.
#[derive(Clone, Copy, Debug, PartialEq, Eq)]
pub struct Declaration {
    pub is_allowed: bool,
    pub fault: Option<Fault>,
}

/// The place that a name is.
fn name_place(
    alloc: Global,
    text: &[u8],
    scope: &Scope,
    name: Name,
) -> Result<Option<TypedPlace>, NoMemory>
    ensures { IfOk result (λ p. option_map typed_place_of p ≡ place_in text.now (scope_of scope.now) (name_of name)) }
{
    let single = check_single(alloc, text, scope, &Expr::Name(name))?;
    Ok(place_in(single.operand))
}

fn new_left_of(blank: bool, here: bool, place: Option<TypedPlace>, site: SiteId) -> Option<Left>
    ensures { option_map left_view result ≡ new_left_of blank here (option_map typed_place_of place) site.0 }
{
    if blank {
        Some(Left::Blank)
    } else if here {
        target(place)
    } else {
        Some(Left::New(site))
    }
}

/// What a name of a `:=` asks for: a new variable takes the type of its value.
fn new_wanted_of(blank: bool, here: bool, place: &Option<TypedPlace>) -> Wanted
    ensures { result ≡ new_wanted_of blank here (option_map typed_place_of place.now) }
{
    if here {
        wanted_of(blank, place)
    } else {
        Wanted::Own
    }
}

fn new_name_fault_of(blank: bool, here: bool, declared: Option<Declared>, pos: Pos) -> Option<Fault>
    ensures { result ≡ new_name_fault blank here declared pos }
{
    if blank {
        None
    } else if here {
        left_fault_of(false, declared, pos, pos)
    } else {
        None
    }
}

/// The left side that a name of a `:=` is, after `before` new ones.
fn new_left(
    alloc: Global,
    text: &[u8],
    scope: &Scope,
    before: usize,
    name: Name,
) -> Result<Option<Left>, NoMemory>
    ensures { IfOk result (λ l. option_map left_view l
        ≡ new_left text.now (scope_of scope.now) (length (scope_of scope.now).sites + before) name) }
{
    let bytes = spelled(text, name);
    let site = scope.site_behind(before)?;
    let place = name_place(alloc, text, scope, name)?;
    Ok(new_left_of(is_blank(bytes), scope.is_here(bytes), place, site))
}

fn new_wanted(alloc: Global, text: &[u8], scope: &Scope, name: Name) -> Result<Wanted, NoMemory>
    ensures { IfOk result (λ w. w ≡ new_wanted text.now (scope_of scope.now) name) }
{
    let bytes = spelled(text, name);
    let place = name_place(alloc, text, scope, name)?;
    Ok(new_wanted_of(is_blank(bytes), scope.is_here(bytes), &place))
}

/// What the left sides of a `:=` ask for.
pub fn all_new_wanted(
    alloc: Global,
    text: &[u8],
    scope: &Scope,
    names: &[Name],
) -> Result<Vec<Wanted>, NoMemory>
    ensures { IfOk result (λ v. v.items ≡ all_new_wanted text.now (scope_of scope.now) names.now) }
{
    let mut all = Vec::new(alloc);
    for name in names {
        let wanted = new_wanted(alloc, text, scope, *name)?;
        all.push(wanted)?;
    }
    Ok(all)
}

/// Whether a `:=` declares a name.
fn declares(text: &[u8], scope: &Scope, name: Name) -> bool
    ensures { result ≡ declares (scope_of scope.now) (spelled text.now name) }
{
    let bytes = spelled(text, name);
    !is_blank(bytes) && !scope.is_here(bytes)
}

/// The number of new sites so far, and that of one more, where there is one.
fn next_count(declared: bool, count: usize) -> Result<usize, NoMemory>
    ensures { IfOk result (λ n. n ≡ (if declared then 1 + count else count)) }
{
    if !declared {
        return Ok(count);
    }
    match count.checked_add(1) {
        Some(count) => Ok(count),
        None => Err(NoMemory),
    }
}

#[tactic(auto, using(type_faults::proofs::Leasts::leaf))]
fn new_name_fault(text: &[u8], scope: &Scope, name: Name) -> Option<Fault>
    ensures { IsLeast (IsFault (new_name_fault (is_blank (spelled text.now name))
        (is_here (scope_of scope.now) (spelled text.now name))
        (declaration (scope_of scope.now) (spelled text.now name)) name.pos)) result }
{
    let bytes = spelled(text, name);
    new_name_fault_of(
        is_blank(bytes),
        scope.is_here(bytes),
        scope.declaration(bytes),
        name.pos,
    )
}

/// The left sides of a `:=`.
pub fn check_new_lefts(
    alloc: Global,
    text: &[u8],
    scope: &Scope,
    names: &[Name],
) -> Result<NewLefts, NoMemory>
    ensures lefts { IfOk result (λ l. option_map (λ v. map left_view v.items) l.lefts
        ≡ new_lefts text.now (scope_of scope.now) (length (scope_of scope.now).sites) names.now) }
    ensures fault { IfOk result (λ l. IsLeast (NewNamesFail text.now (scope_of scope.now) names.now) l.fault) }
{
    let mut lefts = Some(Vec::new(alloc));
    let mut count = 0;
    let mut fault = None;
    for name in names {
        fault = lesser(fault, new_name_fault(text, scope, *name));
        let left = new_left(alloc, text, scope, count, *name)?;
        lefts = with_left(lefts, left)?;
        count = next_count(declares(text, scope, *name), count)?;
    }
    Ok(NewLefts { lefts, fault })
}

fn slot_declares(text: &[u8], scope: &Scope, name: Option<Name>) -> bool
    ensures { result ≡ slot_declares text.now (scope_of scope.now) name }
{
    match name {
        Some(name) => declares(text, scope, name),
        None => false,
    }
}

/// One more, where a `:=` declares it.
fn with_declared(
    text: &[u8],
    scope: &Scope,
    declared: Vec<Slot>,
    slot: Slot,
) -> Result<Vec<Slot>, NoMemory>
    ensures { IfOk result (λ v. v.items ≡ (if slot_declares text.now (scope_of scope.now) slot.name then declared.items ++ slot
        ∷ [] else declared.items)) }
{
    let mut declared = declared;
    if slot_declares(text, scope, slot.name) {
        declared.push(slot)?;
    }
    Ok(declared)
}

/// Those of some names with types that a `:=` declares.
pub fn new_slots(
    alloc: Global,
    text: &[u8],
    scope: &Scope,
    slots: &[Slot],
) -> Result<Vec<Slot>, NoMemory>
    ensures { IfOk result (λ v. v.items ≡ new_slots text.now (scope_of scope.now) slots.now) }
{
    let mut declared = Vec::new(alloc);
    for slot in slots {
        declared = with_declared(text, scope, declared, *slot)?;
    }
    Ok(declared)
}

fn declare_slot(text: &[u8], scope: &mut Scope, slot: Slot) -> Result<(), NoMemory>
    ensures { OnOk result (scope_of scope.new ≡ with_slot text.now slot.value_type (scope_of scope.old) slot.name) }
{
    match slot.name {
        Some(name) => scope.declare_variable(spelled(text, name), name.pos, slot.value_type),
        None => Ok(()),
    }
}

/// Declares new variables.
pub fn declare_variables(text: &[u8], scope: &mut Scope, slots: &[Slot]) -> Result<(), NoMemory>
    ensures { OnOk result (scope_of scope.new ≡ with_variables text.now (scope_of scope.old) slots.now) }
{
    for slot in slots {
        declare_slot(text, scope, *slot)?;
    }
    Ok(())
}

fn is_noted(names: &Blocks, name: &[u8]) -> bool
    ensures { result ≡ is_noted names.now name.now }
{
    !is_blank(name) && names.innermost(name).is_some()
}

fn note(names: &mut Blocks, name: &[u8]) -> Result<(), NoMemory>
    ensures { OnOk result (names.new ≡ noted names.old name.now) }
{
    if is_blank(name) {
        Ok(())
    } else {
        names.insert(name, 0)
    }
}

/// The fault of a name that stands twice.
fn twice_fault(alloc: Global, text: &[u8], names: &[Name]) -> Result<Option<Fault>, NoMemory>
    ensures { IfOk result (λ f. IsLeast (TwiceFails text.now ([] ∷ []) names.now) f) }
{
    let mut noted = Blocks::new(alloc);
    let mut fault = None;
    for name in names {
        let bytes = spelled(text, *name);
        let own = Fault {
            kind: FaultKind::Redeclared,
            pos: name.pos,
        };
        fault = lesser(fault, fault_where(is_noted(&noted, bytes), own));
        note(&mut noted, bytes)?;
    }
    Ok(fault)
}

fn has(text: &[u8], scope: &Scope, name: Name) -> bool
    ensures { result ≡ (is_blank (spelled text.now name) || is_here (scope_of scope.now) (spelled text.now name)) }
{
    let bytes = spelled(text, name);
    is_blank(bytes) || scope.is_here(bytes)
}

/// Whether each name is blank, or the innermost block has it.
fn has_all(text: &[u8], scope: &Scope, names: &[Name]) -> bool
    ensures { result ≡ has_all text.now (scope_of scope.now) names.now }
{
    let mut all = true;
    for name in names {
        all = all && has(text, scope, *name);
    }
    all
}

fn neither(one: bool, other: bool) -> bool
    ensures { result ≡ (not one && not other) }
{
    !one && !other
}

/// The names of a `:=` at a place.
pub fn check_names(
    alloc: Global,
    text: &[u8],
    scope: &Scope,
    names: &[Name],
    pos: Pos,
) -> Result<Declaration, NoMemory>
    ensures is_allowed { IfOk result (λ d. d.is_allowed ≡ may_define text.now (scope_of scope.now) names.now) }
    ensures fault { IfOk result (λ d. IsLeast
        (λ f. TwiceFails text.now ([] ∷ []) names.now f
        ⊎ IsFault (fault_where (has_all text.now (scope_of scope.now) names.now) (fault_at NothingNew pos)) f) d.fault) }
{
    let twice = twice_fault(alloc, text, names)?;
    let all = has_all(text, scope, names);
    let own = Fault {
        kind: FaultKind::NothingNew,
        pos,
    };
    Ok(Declaration {
        is_allowed: neither(twice.is_some(), all),
        fault: lesser(twice, fault_where(all, own)),
    })
}

/// Where a statement with names begins.
pub fn names_pos(names: &[Name], pos: Pos) -> Pos
    ensures { result ≡ names_place names.now pos }
{
    match names {
        [name, ..] => name.pos,
        [] => pos,
    }
}
