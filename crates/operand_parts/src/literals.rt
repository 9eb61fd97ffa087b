//! The form of composite literals.

ghost use Rattle.std.specs.Prelude.{◌≡◌, ◌⊎◌, [], ◌∷◌, IfOk};
ghost use Rattle.std.specs.Option.{option_map};
ghost use Rattle.syntax.specs.Expressions.{elements_of};
ghost use Rattle.type_faults.specs.Least.{IsLeast};
ghost use Rattle.type_faults.specs.Faults.{IsFault};
ghost use Rattle.names.specs.Scope.{scope_of};
ghost use Rattle.operand_parts.specs.Literals.{are_keyed, are_plain, as_literal, type_elided, elided, element_part, keys_fit, shape_fits};
ghost use Rattle.operand_parts.specs.LiteralFaults.{count_fault, elision_fault, shape_fault, key_fault, KeysFail, TypedShapeFails, ShapeFails};
ghost use Rattle.operand_parts.specs.Passing.{elision_of};

use base::{NoMemory, Pos, ValueType};
use names::{Blocks, Part, Scope, named_field, part_count, part_of, spelled};
use std::alloc::Global;
use syntax::{Element, Name};
use type_faults::{Fault, FaultKind, lesser};
use typed::TypeTable;

/// What an element without a type of its own is.
#[derive(Clone, Copy, Debug, PartialEq, Eq)]
pub enum Elision {
    /// A literal of this type.
    AsType(ValueType),
    /// Nothing: its type has to stand there.
    Refused,
    /// Of unknown type, where nothing is known of the whole.
    Unknown,
}

/// What an element without a type is, where it would have this type.
fn as_literal(value_type: ValueType) -> Elision
    ensures { elision_of result ≡ as_literal value_type }
{
    match value_type {
        ValueType::Struct(_) | ValueType::Array(_, _) => Elision::AsType(value_type),
        _ => Elision::Refused,
    }
}

/// What an element without a type is in a literal of a type: the type of an array's elements may be left out.
pub fn elided(types: &TypeTable, whole: Option<ValueType>) -> Elision
    ensures { elision_of result ≡ elided types.now whole }
{
    match whole {
        None => Elision::Unknown,
        Some(ValueType::Array(_, element)) => as_literal(types.type_at(element)),
        Some(_) => Elision::Refused,
    }
}

/// The type that an element without one has then.
pub fn type_elided(elision: Elision) -> Option<ValueType>
    ensures { result ≡ type_elided (elision_of elision) }
{
    match elision {
        Elision::AsType(value_type) => Some(value_type),
        Elision::Refused | Elision::Unknown => None,
    }
}

/// The fault of an element whose type has to stand there, at its brace.
pub fn elision_fault(pos: Pos, elision: Elision) -> Option<Fault>
    ensures { result ≡ elision_fault pos (elision_of elision) }
{
    match elision {
        Elision::Refused => Some(Fault {
            kind: FaultKind::Unfit,
            pos,
        }),
        Elision::AsType(_) | Elision::Unknown => None,
    }
}

/// The part of a whole that an element stands for: the field that its key names, or the part with its number.
pub fn element_part(
    text: &[u8],
    scope: &Scope,
    whole: Option<ValueType>,
    number: u32,
    key: Option<Name>,
) -> Option<Part>
    ensures { result ≡ element_part text.now (scope_of scope.now) whole number key }
{
    let whole = whole?;
    match key {
        Some(key) => named_field(scope, whole, spelled(text, key)),
        None => part_of(&scope.types, whole, number),
    }
}

/// Whether all elements have keys.
fn are_keyed(elements: &[Element]) -> bool
    ensures { result ≡ are_keyed (elements_of elements.now) }
{
    for element in elements {
        if let Element::Plain(_) = element {
            return false;
        }
    }
    true
}

/// Whether no element has a key.
fn are_plain(elements: &[Element]) -> bool
    ensures { result ≡ are_plain (elements_of elements.now) }
{
    for element in elements {
        if let Element::Keyed(_, _) = element {
            return false;
        }
    }
    true
}

/// The fault of a key that no field has, or that stands there already.
fn key_fault(is_field: bool, is_before: bool, pos: Pos) -> Option<Fault>
    ensures { result ≡ key_fault is_field is_before pos }
{
    let kind = match (is_field, is_before) {
        (false, _) => FaultKind::Unknown,
        (true, true) => FaultKind::Redeclared,
        (true, false) => return None,
    };
    Some(Fault { kind, pos })
}

/// The least fault of the keys of a struct literal.
fn keys_fault(
    alloc: Global,
    text: &[u8],
    scope: &Scope,
    whole: ValueType,
    elements: &[Element],
) -> Result<Option<Fault>, NoMemory>
    ensures { IfOk result (λ r. IsLeast (KeysFail text.now (scope_of scope.now) whole ([] ∷ []) (elements_of elements.now)) r) }
{
    let mut before = Blocks::new(alloc);
    let mut fault = None;
    for element in elements {
        if let Element::Keyed(key, _) = element {
            let name = spelled(text, *key);
            let is_field = named_field(scope, whole, name).is_some();
            let own = key_fault(is_field, before.innermost(name).is_some(), key.pos);
            before.insert(name, 0)?;
            fault = lesser(fault, own);
        }
    }
    Ok(fault)
}

/// Whether each key is the name of a field, and none of those before it.
fn keys_fit(
    alloc: Global,
    text: &[u8],
    scope: &Scope,
    whole: ValueType,
    elements: &[Element],
) -> Result<bool, NoMemory>
    ensures { IfOk result (λ r. r ≡ keys_fit text.now (scope_of scope.now) whole ([] ∷ []) (elements_of elements.now)) }
{
    Ok(keys_fault(alloc, text, scope, whole, elements)?.is_none())
}

/// Whether the elements of a struct have keys or there is one for each field; those of an array have none, and are no more than it has.
#[tactic(auto, using(crate::proofs::Keys::count_is))]
pub fn shape_fits(
    alloc: Global,
    text: &[u8],
    scope: &Scope,
    whole: ValueType,
    elements: &[Element],
) -> Result<bool, NoMemory>
    ensures { IfOk result (λ r. r ≡ shape_fits text.now (scope_of scope.now) whole (elements_of elements.now)) }
{
    let count = elements.len() as u64;
    match whole {
        ValueType::Struct(_) => {
            if are_plain(elements) && count == part_count(&scope.types, whole) {
                return Ok(true);
            }
            if !are_keyed(elements) {
                return Ok(false);
            }
            keys_fit(alloc, text, scope, whole, elements)
        }
        ValueType::Array(length, _) => Ok(are_plain(elements) && count <= length),
        _ => Ok(false),
    }
}

fn count_fault(fits: bool, first_pos: Pos) -> Option<Fault>
    ensures { result ≡ count_fault fits first_pos }
{
    if fits {
        None
    } else {
        Some(Fault {
            kind: FaultKind::WrongCount,
            pos: first_pos,
        })
    }
}

/// The fault of the elements together: keys beside none, a key in an array, or another number of them.
#[tactic(auto, using(crate::proofs::Keys::count_is))]
fn form_fault(
    types: &TypeTable,
    first_pos: Pos,
    whole: ValueType,
    elements: &[Element],
) -> Option<Fault>
    ensures { result ≡ shape_fault types.now first_pos whole (elements_of elements.now) }
{
    let count = elements.len() as u64;
    let kind = match whole {
        ValueType::Struct(_) if are_keyed(elements) => return None,
        ValueType::Struct(_) if are_plain(elements) => {
            return count_fault(count == part_count(types, whole), first_pos);
        }
        ValueType::Array(length, _) if are_plain(elements) => {
            return count_fault(count <= length, first_pos);
        }
        ValueType::Array(_, _) => FaultKind::OutOfProfile,
        _ => FaultKind::Unfit,
    };
    Some(Fault {
        kind,
        pos: first_pos,
    })
}

/// The least fault of the form of a literal of a type.
fn typed_shape_fault(
    alloc: Global,
    text: &[u8],
    scope: &Scope,
    first_pos: Pos,
    whole: ValueType,
    elements: &[Element],
) -> Result<Option<Fault>, NoMemory>
    ensures { IfOk result (λ r. IsLeast (TypedShapeFails text.now (scope_of scope.now) first_pos whole
        (elements_of elements.now)) r) }
{
    let form = form_fault(&scope.types, first_pos, whole, elements);
    match whole {
        ValueType::Struct(_) => {
            let keys = keys_fault(alloc, text, scope, whole, elements)?;
            Ok(lesser(form, keys))
        }
        _ => Ok(form),
    }
}

/// The least of the rules that fail in the form of a literal that begins at a place, where its type is known.
pub fn shape_fault(
    alloc: Global,
    text: &[u8],
    scope: &Scope,
    first_pos: Pos,
    whole: Option<ValueType>,
    elements: &[Element],
) -> Result<Option<Fault>, NoMemory>
    ensures { IfOk result (λ r. IsLeast (ShapeFails text.now (scope_of scope.now) first_pos whole (elements_of elements.now)) r) }
{
    match whole {
        Some(whole) => typed_shape_fault(alloc, text, scope, first_pos, whole, elements),
        None => Ok(None),
    }
}
