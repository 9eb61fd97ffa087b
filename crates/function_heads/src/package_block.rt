//! What a package declares: `readInt` and `exit`, which have no body, and all others.

ghost use Rattle.std.specs.Prelude.{◌≡◌, Option, Some, None, IfOk, OnOk, not, codes, ◌||◌, ◌&&◌};
ghost use Rattle.std.specs.Option.{option_map};
ghost use Rattle.std.specs.Str.{bytes_eq};
ghost use Rattle.syntax.specs.Expressions.{spelled};
ghost use Rattle.syntax.specs.Declarations.{parameters_of, function_of, declaration_of, declarations_of};
ghost use Rattle.names.specs.Scope.{scope_of, signature_of};
ghost use Rattle.signatures.specs.Signatures.{is_named};
ghost use Rattle.function_heads.specs.PackageBlock.{takes_one_int, is_of_exit, gives_int_and_bool, is_of_read_int};
ghost use Rattle.function_heads.specs.PackageBlock.{external_named, is_external, is_external_at};
ghost use Rattle.function_heads.specs.PackageBlock.{with_function, with_item, with_items};

use crate::head_types::signature_in;
use base::{FuncId, NoMemory, Pos, ValueType};
use names::{Declared, External, Scope, Signature, spelled};
use signatures::{add_constants, add_name, add_package_variables, add_types, is_named};
use std::alloc::Global;
use syntax::{Decl, Func};

/// Whether a signature is that of `exit`: one parameter, an int, and no results.
fn is_of_exit(signature: &Option<Signature>) -> bool
    ensures { result ≡ is_of_exit (option_map signature_of signature.now) }
{
    match signature {
        Some(signature) => takes_one_int(&signature.params, &signature.results),
        None => false,
    }
}

fn takes_one_int(params: &[ValueType], results: &[ValueType]) -> bool
    ensures { result ≡ takes_one_int params.now results.now }
{
    match (params, results) {
        ([ValueType::Int], []) => true,
        _ => false,
    }
}

/// Whether a signature is that of `readInt`: no parameters, and an int and a bool as results.
fn is_of_read_int(signature: &Option<Signature>) -> bool
    ensures { result ≡ is_of_read_int (option_map signature_of signature.now) }
{
    match signature {
        Some(signature) => gives_int_and_bool(&signature.params, &signature.results),
        None => false,
    }
}

fn gives_int_and_bool(params: &[ValueType], results: &[ValueType]) -> bool
    ensures { result ≡ gives_int_and_bool params.now results.now }
{
    match (params, results) {
        ([], [ValueType::Int, ValueType::Bool]) => true,
        _ => false,
    }
}

/// Which of the functions without a body has a name that one of them has.
fn external_named(name: &[u8]) -> External
    ensures { result ≡ external_named name.now }
{
    if name == "exit".as_bytes() {
        External::Exit
    } else {
        External::ReadInt
    }
}

/// Whether a function has the name and the types of `exit`.
fn has_exit_head(text: &[u8], f: &Func, signature: &Option<Signature>) -> bool
    ensures { result ≡ (bytes_eq (spelled text.now f.now.name) (codes "exit") && is_of_exit
        (option_map signature_of signature.now)) }
{
    spelled(text, f.name) == "exit".as_bytes() && is_of_exit(signature)
}

/// Whether a function has the name and the types of `readInt`, and no names for its results.
fn has_read_int_head(text: &[u8], f: &Func, signature: &Option<Signature>) -> bool
    ensures { result ≡ (bytes_eq (spelled text.now f.now.name) (codes "readInt") &&
        (is_of_read_int (option_map signature_of signature.now) && not (is_named (parameters_of f.now.results)))) }
{
    let has_types = is_of_read_int(signature) && !is_named(&f.results);
    spelled(text, f.name) == "readInt".as_bytes() && has_types
}

/// Whether a function is `readInt` or `exit`, which have no body.
pub fn is_external(alloc: Global, text: &[u8], heads: &Scope, f: &Func) -> Result<bool, NoMemory>
    ensures { IfOk result (λ b. b ≡ is_external text.now (scope_of heads.now) (function_of f.now)) }
{
    if f.body.is_some() {
        return Ok(false);
    }
    let signature = signature_in(alloc, text, heads, f)?;
    Ok(has_exit_head(text, f, &signature) || has_read_int_head(text, f, &signature))
}

/// Whether a name stands for the function without a body that is declared at a place.
pub fn is_external_at(pos: Pos, declared: Option<Declared>) -> bool
    ensures { result ≡ is_external_at pos declared }
{
    match declared {
        Some(Declared::External(_, declared_pos)) => declared_pos.offset == pos.offset,
        _ => false,
    }
}

/// Declares a function with the next number, or one without a body, which has none.
fn add_function(
    alloc: Global,
    text: &[u8],
    heads: &Scope,
    scope: &mut Scope,
    f: &Func,
) -> Result<(), NoMemory>
    ensures { OnOk result (scope_of scope.new
        ≡ with_function text.now (scope_of heads.now) (scope_of scope.old) (function_of f.now)) }
{
    if is_external(alloc, text, heads, f)? {
        return add_name(
            text,
            scope,
            f.name,
            Declared::External(external_named(spelled(text, f.name)), f.name.pos),
        );
    }
    let signature = signature_in(alloc, text, heads, f)?;
    let Ok(number) = u32::try_from(scope.signatures.len()) else {
        return Err(NoMemory);
    };
    add_name(text, scope, f.name, Declared::Function(FuncId(number)))?;
    scope.add_signature(signature)
}

fn add_item(
    alloc: Global,
    text: &[u8],
    heads: &Scope,
    scope: &mut Scope,
    decl: &Decl,
) -> Result<(), NoMemory>
    ensures { OnOk result (scope_of scope.new
        ≡ with_item text.now (scope_of heads.now) (scope_of scope.old) (declaration_of decl.now)) }
{
    match decl {
        Decl::Const(_, specs) => add_constants(text, scope, specs),
        Decl::Var(_, specs) => add_package_variables(text, scope, specs),
        Decl::Type(_, specs) => add_types(alloc, text, scope, specs),
        Decl::Func(f) => add_function(alloc, text, heads, scope, f),
    }
}

/// Declares what a package does. The fields of each struct are noted by their names.
pub fn add_items(
    alloc: Global,
    text: &[u8],
    heads: &Scope,
    scope: &mut Scope,
    decls: &[Decl],
) -> Result<(), NoMemory>
    ensures { OnOk result (scope_of scope.new
        ≡ with_items text.now (scope_of heads.now) (scope_of scope.old) (declarations_of decls.now)) }
{
    for decl in decls {
        add_item(alloc, text, heads, scope, decl)?;
    }
    Ok(())
}
