//! The rules of the sizes of structs.

ghost use Rattle.std.specs.Prelude.{◌≡◌, ℕ, List, Option, IfOk, slice_get};
ghost use Rattle.syntax.specs.Expressions.{ex_of as tree_of};
ghost use Rattle.syntax.specs.Declarations.{field_of, fields_of as tree_fields, type_spec_of, declarations_of};
ghost use Rattle.type_faults.specs.Least.{IsLeast};
ghost use Rattle.struct_sizes.specs.Structs.{Fields};
ghost use Rattle.struct_sizes.specs.Verdicts.{AreVerdicts, IsSettled};
ghost use Rattle.names.specs.Scope.{scope_of};
ghost use Rattle.declared_structs.specs.Forms.{structs_in};
ghost use Rattle.declared_structs.specs.Faults.{size_kind, struct_kind, bracket_at, LevelFails, FieldSizeFails, LevelsFail};
ghost use Rattle.declared_structs.specs.Faults.{SizesFail, SizesOfAllFail};
ghost use Rattle.declared_structs.specs.Passing.{view, whole_fault, RefusalFails, refusal_in, OptionalFails, AreOf, spec_views};

use crate::forms::prefixed;
use crate::type_specs::type_specs;
use base::{NoMemory, Pos};
use names::Scope;
use std::alloc::Global;
use struct_sizes::{PrefixedType, Refusal, SizeFault, StructFault, Verdict, Verdicts, level_fault};
use syntax::{Decl, Expr, Field, TypeSpec};
use type_faults::{Fault, FaultKind, lesser};

fn size_kind(size: SizeFault) -> FaultKind
    ensures { result ≡ size_kind size }
{
    match size {
        SizeFault::ZeroSize => FaultKind::ZeroSize,
        SizeFault::TooLarge => FaultKind::TooLarge,
    }
}

fn struct_kind(told: StructFault) -> FaultKind
    ensures { result ≡ struct_kind told }
{
    match told {
        StructFault::HoldsItself => FaultKind::SelfReference,
        StructFault::Size(size) => size_kind(size),
    }
}

/// The bracket of the array at a level of a type.
fn bracket_at(e: &Expr, level: usize) -> Pos
    ensures { result ≡ bracket_at (tree_of e.now) level }
{
    match e {
        Expr::Paren(_, inner) => {
            let inner: &Expr = inner;
            bracket_at(inner, level)
        }
        Expr::ArrayType(bracket, _, element) => {
            if level == 0 {
                return *bracket;
            }
            let element: &Expr = element;
            bracket_at(element, level - 1)
        }
        _ => e.pos(),
    }
}

/// The fault of an array of a type that has no such size.
fn array_fault(words: &[Option<u32>], e: &Expr, value_type: &Option<PrefixedType>) -> Option<Fault>
    ensures { IsLeast (LevelFails words.now (tree_of e.now) (view value_type.now)) result }
{
    let Some(value_type) = value_type else {
        return None;
    };
    match level_fault(words, value_type) {
        Some(found) => Some(Fault {
            kind: size_kind(found.kind),
            pos: bracket_at(e, found.level),
        }),
        None => None,
    }
}

/// The fault of the arrays in the type that fields share, where there are some.
fn field_fault(
    alloc: Global,
    text: &[u8],
    scope: &Scope,
    words: &[Option<u32>],
    field: &Field,
) -> Result<Option<Fault>, NoMemory>
    ensures { IfOk result (λ r. IsLeast (FieldSizeFails text.now (scope_of scope.now) words.now (field_of field.now)) r) }
{
    if field.names.is_empty() {
        return Ok(None);
    }
    let value_type = prefixed(alloc, text, scope, &field.type_expr)?;
    Ok(array_fault(words, &field.type_expr, &value_type))
}

/// The fault of the arrays in the types of fields, whatever their elements.
fn arrays_fault(
    alloc: Global,
    text: &[u8],
    scope: &Scope,
    words: &[Option<u32>],
    fields: &[Field],
) -> Result<Option<Fault>, NoMemory>
    ensures { IfOk result (λ r. IsLeast (LevelsFail text.now (scope_of scope.now) words.now (tree_fields fields.now)) r) }
{
    let mut fault = None;
    for field in fields {
        let own = field_fault(alloc, text, scope, words, field)?;
        fault = lesser(fault, own);
    }
    Ok(fault)
}

/// The fault of a struct as a whole, at its name.
fn whole_fault(told: Option<StructFault>, pos: Pos) -> Option<Fault>
    ensures { result ≡ whole_fault told pos }
{
    match told {
        Some(told) => Some(Fault {
            kind: struct_kind(told),
            pos,
        }),
        None => None,
    }
}

/// The fault of a struct that is refused.
fn refusal_fault(
    alloc: Global,
    text: &[u8],
    scope: &Scope,
    words: &[Option<u32>],
    refusal: Refusal,
    spec: &TypeSpec,
) -> Result<Option<Fault>, NoMemory>
    ensures { IfOk result
        (λ r. IsLeast (RefusalFails text.now (scope_of scope.now) words.now refusal (type_spec_of spec.now)) r) }
{
    let whole = whole_fault(refusal.told, spec.name.pos);
    if !refusal.is_source {
        return Ok(whole);
    }
    let arrays = arrays_fault(alloc, text, scope, words, &spec.fields)?;
    Ok(lesser(whole, arrays))
}

/// What is said of the struct of a number, if it is refused.
fn refusal_of(verdicts: &[Verdict], number: usize) -> Option<Refusal>
    ensures { result ≡ refusal_in (slice_get verdicts.now number) }
{
    match verdicts.get(number) {
        Some(Verdict::Refused(refusal)) => Some(*refusal),
        _ => None,
    }
}

/// The fault of a struct that is refused or not.
fn size_fault(
    alloc: Global,
    text: &[u8],
    scope: &Scope,
    words: &[Option<u32>],
    refusal: Option<Refusal>,
    spec: &TypeSpec,
) -> Result<Option<Fault>, NoMemory>
    ensures { IfOk result
        (λ r. IsLeast (OptionalFails text.now (scope_of scope.now) words.now refusal (type_spec_of spec.now)) r) }
{
    match refusal {
        Some(refusal) => refusal_fault(alloc, text, scope, words, refusal, spec),
        None => Ok(None),
    }
}

/// The fault of the sizes of structs.
fn each_fault(
    alloc: Global,
    text: &[u8],
    scope: &Scope,
    found: &Verdicts,
    specs: &[&TypeSpec],
) -> Result<Option<Fault>, NoMemory>
    ensures { (ss : List Fields) (table : List (Option ℕ)) → AreVerdicts ss table found.now
        → AreOf text.now (scope_of scope.now) specs.now ss
        → IfOk result (λ r. IsLeast (SizesFail text.now (scope_of scope.now) ss table 0 (spec_views specs.now)) r) }
{
    let mut fault = None;
    for index in 0..specs.len() {
        let refusal = refusal_of(&found.verdicts, index);
        let own = size_fault(alloc, text, scope, &found.words, refusal, specs[index])?;
        fault = lesser(fault, own);
    }
    Ok(fault)
}

/// Of the rules that fail in the sizes of structs, the one with the least offset, then the least number, by what was found of
/// the structs.
pub fn sizes_fault(
    alloc: Global,
    text: &[u8],
    scope: &Scope,
    found: &Verdicts,
    decls: &[Decl],
) -> Result<Option<Fault>, NoMemory>
    requires { IsSettled (structs_in text.now (scope_of scope.now) (declarations_of decls.now)) found.now }
    ensures { IfOk result (λ r. IsLeast (SizesOfAllFail text.now (scope_of scope.now) (declarations_of decls.now)) r) }
{
    let specs = type_specs(alloc, decls)?;
    each_fault(alloc, text, scope, found, &specs)
}
