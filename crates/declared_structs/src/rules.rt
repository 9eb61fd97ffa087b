//! The rules of structs by themselves: of their names, the names of their fields, and the types of these.

ghost use Rattle.std.specs.Prelude.{◌≡◌, [], ◌∷◌, IfOk, OnOk};
ghost use Rattle.syntax.specs.Declarations.{fields_of as tree_fields, type_spec_of, declarations_of};
ghost use Rattle.type_faults.specs.Least.{IsLeast};
ghost use Rattle.names.specs.Scope.{scope_of};
ghost use Rattle.declared_structs.specs.Faults.{is_this_struct, struct_name_fault, name_fault_in, StructFails, StructsFail};
ghost use Rattle.declared_structs.specs.Faults.{field_name_fault, noted, FieldNamesFail, field_names, FieldTypesFail};
ghost use Rattle.declared_structs.specs.Faults.{DeclarationsFail};
ghost use Rattle.declared_structs.specs.Passing.{spec_views};

use crate::type_specs::type_specs;
use base::{NoMemory, Pos, ValueType};
use expression_types::check_stated;
use names::{Blocks, Declared, Scope, is_blank, spelled};
use std::alloc::Global;
use syntax::{Decl, Field, Name, TypeSpec};
use type_faults::{Fault, FaultKind, lesser};

/// Whether a name stands for the struct of a number.
fn is_this_struct(number: usize, declared: Option<Declared>) -> bool
    ensures { result ≡ is_this_struct number declared }
{
    match declared {
        Some(Declared::Type(ValueType::Struct(id))) => id.0 as usize == number,
        _ => false,
    }
}

/// The fault of the name of the struct of a number: `init` is none, and the first declaration of a name stays.
fn struct_name_fault(
    number: usize,
    is_blank: bool,
    is_init: bool,
    declared: Option<Declared>,
    pos: Pos,
) -> Option<Fault>
    ensures { result ≡ struct_name_fault number is_blank is_init declared pos }
{
    if is_blank {
        return None;
    }
    let kind = if is_init {
        FaultKind::OutOfProfile
    } else if is_this_struct(number, declared) {
        return None;
    } else {
        FaultKind::Redeclared
    };
    Some(Fault { kind, pos })
}

fn name_fault(text: &[u8], scope: &Scope, number: usize, name: Name) -> Option<Fault>
    ensures { result ≡ name_fault_in text.now (scope_of scope.now) number name }
{
    let bytes = spelled(text, name);
    struct_name_fault(
        number,
        is_blank(bytes),
        bytes == "init".as_bytes(),
        scope.declaration(bytes),
        name.pos,
    )
}

/// The fault of a field's name.
fn field_name_fault(is_blank: bool, is_noted: bool, pos: Pos) -> Option<Fault>
    ensures { result ≡ field_name_fault is_blank is_noted pos }
{
    let kind = if is_blank {
        FaultKind::OutOfProfile
    } else if is_noted {
        FaultKind::Redeclared
    } else {
        return None;
    };
    Some(Fault { kind, pos })
}

/// Notes a name that is not blank.
fn note(names: &mut Blocks, name: &[u8]) -> Result<(), NoMemory>
    ensures { OnOk result (names.new ≡ noted names.old name.now) }
{
    if is_blank(name) {
        return Ok(());
    }
    names.insert(name, 0)
}

/// The names of fields.
fn field_names(alloc: Global, fields: &[Field]) -> Result<Vec<Name>, NoMemory>
    ensures { IfOk result (λ v. v.items ≡ field_names (tree_fields fields.now)) }
{
    let mut names = Vec::new(alloc);
    for field in fields {
        names.extend_from_slice(&field.names)?;
    }
    Ok(names)
}

/// The fault of the names of fields: a blank one is left out, and the first one of a name stays.
fn names_fault(alloc: Global, text: &[u8], names: &[Name]) -> Result<Option<Fault>, NoMemory>
    ensures { IfOk result (λ r. IsLeast (FieldNamesFail text.now ([] ∷ []) names.now) r) }
{
    let mut noted = Blocks::new(alloc);
    let mut fault = None;
    for name in names {
        let bytes = spelled(text, *name);
        let is_noted = noted.innermost(bytes).is_some();
        fault = lesser(fault, field_name_fault(is_blank(bytes), is_noted, name.pos));
        note(&mut noted, bytes)?;
    }
    Ok(fault)
}

/// The fault of the types of fields.
fn types_fault(
    alloc: Global,
    text: &[u8],
    scope: &Scope,
    fields: &[Field],
) -> Result<Option<Fault>, NoMemory>
    ensures { IfOk result (λ r. IsLeast (FieldTypesFail text.now (scope_of scope.now) (tree_fields fields.now)) r) }
{
    let mut fault = None;
    for field in fields {
        let stated = check_stated(alloc, text, scope, &field.type_expr)?;
        fault = lesser(fault, stated.fault);
    }
    Ok(fault)
}

/// The fault of the struct of a number by itself.
fn struct_fault(
    alloc: Global,
    text: &[u8],
    scope: &Scope,
    number: usize,
    spec: &TypeSpec,
) -> Result<Option<Fault>, NoMemory>
    ensures { IfOk result (λ r. IsLeast (StructFails text.now (scope_of scope.now) number (type_spec_of spec.now)) r) }
{
    let names = field_names(alloc, &spec.fields)?;
    let named = names_fault(alloc, text, &names)?;
    let typed = types_fault(alloc, text, scope, &spec.fields)?;
    let own = name_fault(text, scope, number, spec.name);
    Ok(lesser(own, lesser(named, typed)))
}

/// The fault of structs by themselves.
fn structs_fault(
    alloc: Global,
    text: &[u8],
    scope: &Scope,
    specs: &[&TypeSpec],
) -> Result<Option<Fault>, NoMemory>
    ensures { IfOk result (λ r. IsLeast (StructsFail text.now (scope_of scope.now) 0 (spec_views specs.now)) r) }
{
    let mut fault = None;
    for index in 0..specs.len() {
        let own = struct_fault(alloc, text, scope, index, specs[index])?;
        fault = lesser(fault, own);
    }
    Ok(fault)
}

/// Of the rules that fail in the declarations of structs by themselves, the one with the least offset, then the least number,
/// in a scope whose table has the types of the program.
pub fn declarations_fault(
    alloc: Global,
    text: &[u8],
    scope: &Scope,
    decls: &[Decl],
) -> Result<Option<Fault>, NoMemory>
    ensures { IfOk result (λ r. IsLeast (DeclarationsFail text.now (scope_of scope.now) (declarations_of decls.now)) r) }
{
    let specs = type_specs(alloc, decls)?;
    structs_fault(alloc, text, scope, &specs)
}
