//! The names that a package declares, and the words of a signature.

ghost use Rattle.std.specs.Prelude.{◌≡◌, ◌<◌, ◌+◌, Option, Some, None, OnOk, IfOk, MatchOption, length};
ghost use Rattle.std.specs.Option.{option_map};
ghost use Rattle.syntax.specs.Statements.{value_specs_of};
ghost use Rattle.syntax.specs.Declarations.{type_spec_of, type_specs_of, declaration_of, declarations_of};
ghost use Rattle.typed_syntax.specs.Syntax.{all_width};
ghost use Rattle.names.specs.Scope.{scope_of, signature_of, type_trees};
ghost use Rattle.signatures.specs.Signatures.{is_init, declares_name, with_name, with_type, with_types, with_head, with_heads};
ghost use Rattle.signatures.specs.Signatures.{with_constant_name, with_constant_names, with_constants, with_numbered_name};
ghost use Rattle.signatures.specs.Signatures.{with_variable_name, with_variable_names, with_package_variables};
ghost use Rattle.signatures.specs.Signatures.{is_number, may_be_named, is_small};
ghost use Rattle.signatures.specs.SignatureFaults.{function_name_fault, size_fault};

use crate::failing::fault_where;
use crate::structs::fields_of_struct;
use base::{NoMemory, Pos, StructId, ValueType};
use names::{Declared, GlobalId, Scope, Signature, ValueId, is_blank, spelled, type_id};
use std::alloc::Global;
use syntax::{Decl, Name, TypeSpec, ValueSpec};
use type_faults::{Fault, FaultKind};
use typed::TypeTable;

/// The most words that the arguments and results of a function may have.
const MOST_WORDS: u32 = 65_535;

/// Whether a name is `init`, which no package has.
pub fn is_init(name: &[u8]) -> bool
    ensures { result ≡ is_init name.now }
{
    name == "init".as_bytes()
}

fn declares_name(scope: &Scope, name: &[u8]) -> bool
    ensures { result ≡ declares_name (scope_of scope.now) name.now }
{
    !(is_blank(name) || is_init(name)) && !scope.is_here(name)
}

/// Declares a name, if it is the first one.
pub fn add_name(
    text: &[u8],
    scope: &mut Scope,
    name: Name,
    declared: Declared,
) -> Result<(), NoMemory>
    ensures { OnOk result (scope_of scope.new ≡ with_name text.now declared (scope_of scope.old) name) }
{
    let bytes = spelled(text, name);
    if declares_name(scope, bytes) {
        scope.declare(bytes, declared)
    } else {
        Ok(())
    }
}

/// The number of the next struct.
fn next_struct(scope: &Scope) -> Result<StructId, NoMemory>
    ensures { IfOk result (λ k. k.0 ≡ length (scope_of scope.now).fields) }
{
    match u32::try_from(scope.struct_count()) {
        Ok(number) => Ok(StructId(number)),
        Err(_) => Err(NoMemory),
    }
}

/// Declares a struct with the next number. The fields of each struct are noted by their names, also where its own name isn't declared.
fn add_type(alloc: Global, text: &[u8], scope: &mut Scope, spec: &TypeSpec) -> Result<(), NoMemory>
    ensures { OnOk result (scope_of scope.new ≡ with_type text.now (scope_of scope.old) (type_spec_of spec.now)) }
{
    let number = next_struct(scope)?;
    add_name(
        text,
        scope,
        spec.name,
        Declared::Type(ValueType::Struct(number)),
    )?;
    let fields = fields_of_struct(alloc, text, &spec.fields)?;
    scope.add_struct(fields)
}

/// Declares structs. The fields of each struct are noted by their names.
pub fn add_types(
    alloc: Global,
    text: &[u8],
    scope: &mut Scope,
    specs: &[TypeSpec],
) -> Result<(), NoMemory>
    ensures { OnOk result (scope_of scope.new ≡ with_types text.now (scope_of scope.old) (type_specs_of specs.now)) }
{
    for spec in specs {
        add_type(alloc, text, scope, spec)?;
    }
    Ok(())
}

/// The number of the next constant or package variable.
fn next_value(scope: &Scope) -> Result<ValueId, NoMemory>
    ensures { IfOk result (λ k. k.0 ≡ length (scope_of scope.now).values) }
{
    match u32::try_from(scope.value_count()) {
        Ok(number) => Ok(ValueId(number)),
        Err(_) => Err(NoMemory),
    }
}

/// The number of the next package variable with a name.
fn next_global(scope: &Scope) -> Result<GlobalId, NoMemory>
    ensures { IfOk result (λ g. g.0 ≡ length (scope_of scope.now).globals) }
{
    match u32::try_from(scope.global_count()) {
        Ok(number) => Ok(GlobalId(number)),
        Err(_) => Err(NoMemory),
    }
}

/// Declares a constant with the next number, of which nothing is known yet.
fn add_constant_name(text: &[u8], scope: &mut Scope, name: Name) -> Result<(), NoMemory>
    ensures { OnOk result (scope_of scope.new ≡ with_constant_name text.now (scope_of scope.old) name) }
{
    let number = next_value(scope)?;
    add_name(text, scope, name, Declared::Constant(number))?;
    scope.add_value(None)
}

fn add_constant_names(text: &[u8], scope: &mut Scope, names: &[Name]) -> Result<(), NoMemory>
    ensures { OnOk result (scope_of scope.new ≡ with_constant_names text.now (scope_of scope.old) names.now) }
{
    for name in names {
        add_constant_name(text, scope, *name)?;
    }
    Ok(())
}

/// Declares constants.
pub fn add_constants(text: &[u8], scope: &mut Scope, specs: &[ValueSpec]) -> Result<(), NoMemory>
    ensures { OnOk result (scope_of scope.new ≡ with_constants text.now (scope_of scope.old) (value_specs_of specs.now)) }
{
    for spec in specs {
        add_constant_names(text, scope, &spec.names)?;
    }
    Ok(())
}

/// Declares a package variable with a name.
fn add_numbered_name(text: &[u8], scope: &mut Scope, name: Name) -> Result<(), NoMemory>
    ensures { OnOk result (scope_of scope.new ≡ with_numbered_name text.now (scope_of scope.old) name) }
{
    let number = next_value(scope)?;
    let global = next_global(scope)?;
    add_name(text, scope, name, Declared::Global(number, global))?;
    scope.add_global()
}

/// Declares a package variable with the next number, of which nothing is known yet.
fn add_variable_name(text: &[u8], scope: &mut Scope, name: Name) -> Result<(), NoMemory>
    ensures { OnOk result (scope_of scope.new ≡ with_variable_name text.now (scope_of scope.old) name) }
{
    if !is_blank(spelled(text, name)) {
        add_numbered_name(text, scope, name)?;
    }
    scope.add_value(None)
}

fn add_variable_names(text: &[u8], scope: &mut Scope, names: &[Name]) -> Result<(), NoMemory>
    ensures { OnOk result (scope_of scope.new ≡ with_variable_names text.now (scope_of scope.old) names.now) }
{
    for name in names {
        add_variable_name(text, scope, *name)?;
    }
    Ok(())
}

/// Declares package variables.
pub fn add_package_variables(
    text: &[u8],
    scope: &mut Scope,
    specs: &[ValueSpec],
) -> Result<(), NoMemory>
    ensures { OnOk result (scope_of scope.new ≡ with_package_variables text.now (scope_of scope.old) (value_specs_of specs.now)) }
{
    for spec in specs {
        add_variable_names(text, scope, &spec.names)?;
    }
    Ok(())
}

/// Declares what a declaration does, or the name of a function, of which nothing is known yet.
fn add_head(alloc: Global, text: &[u8], heads: &mut Scope, decl: &Decl) -> Result<(), NoMemory>
    ensures { OnOk result (scope_of heads.new ≡ with_head text.now (scope_of heads.old) (declaration_of decl.now)) }
{
    match decl {
        Decl::Const(_, specs) => add_constants(text, heads, specs),
        Decl::Var(_, specs) => add_package_variables(text, heads, specs),
        Decl::Type(_, specs) => add_types(alloc, text, heads, specs),
        Decl::Func(f) => add_name(text, heads, f.name, Declared::Untyped),
    }
}

/// Declares what a package does, but for its functions, of which it has the names alone: what their heads state is looked up
/// there.
pub fn add_heads(
    alloc: Global,
    text: &[u8],
    heads: &mut Scope,
    decls: &[Decl],
) -> Result<(), NoMemory>
    ensures { OnOk result (scope_of heads.new ≡ with_heads text.now (scope_of heads.old) (declarations_of decls.now)) }
{
    for decl in decls {
        add_head(alloc, text, heads, decl)?;
    }
    Ok(())
}

fn is_number(number: usize, declared: Option<Declared>) -> bool
    ensures { result ≡ is_number number declared }
{
    match declared {
        Some(Declared::Function(function)) => function.0 as usize == number,
        Some(_) => false,
        None => true,
    }
}

/// Whether a function's name may stand for it.
pub fn may_be_named(number: usize, blank: bool, declared: Option<Declared>) -> bool
    ensures { result ≡ may_be_named number blank declared }
{
    blank || is_number(number, declared)
}

/// The fault of a function's name.
pub fn function_name_fault(
    number: usize,
    blank: bool,
    declared: Option<Declared>,
    pos: Pos,
) -> Option<Fault>
    ensures { result ≡ function_name_fault number blank declared pos }
{
    let own = Fault {
        kind: FaultKind::Redeclared,
        pos,
    };
    if blank {
        None
    } else {
        fault_where(!is_number(number, declared), own)
    }
}

/// How many of some words are left after values of these types; none where the values have more.
fn words_left(types: &TypeTable, room: u32, value_types: &[ValueType]) -> Option<u32>
    ensures { MatchOption result
        (room < all_width (type_trees types.now value_types.now))
        (λ left. left + all_width (type_trees types.now value_types.now) ≡ room) }
{
    let mut left = room;
    for value_type in value_types {
        let words = types.width(type_id(types, *value_type));
        left = left.checked_sub(words)?;
    }
    Some(left)
}

/// Whether the arguments and results of a function are not too many words, by the table of their types.
pub fn is_small(types: &TypeTable, signature: &Option<Signature>) -> bool
    ensures { result ≡ is_small types.now (option_map signature_of signature.now) }
{
    let Some(signature) = signature else {
        return false;
    };
    let Some(left) = words_left(types, MOST_WORDS, &signature.params) else {
        return false;
    };
    words_left(types, left, &signature.results).is_some()
}

/// The fault of a function whose arguments and results are too many words.
pub fn size_fault(types: &TypeTable, signature: &Option<Signature>, pos: Pos) -> Option<Fault>
    ensures { result ≡ size_fault types.now (option_map signature_of signature.now) pos }
{
    let own = Fault {
        kind: FaultKind::TooLarge,
        pos,
    };
    match signature {
        Some(_) => fault_where(!is_small(types, signature), own),
        None => None,
    }
}
