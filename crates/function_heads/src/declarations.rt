//! The declarations at the level of a package: the function `main`, and what a package may not declare.

ghost use Rattle.std.specs.Prelude.{◌≡◌, Option, Some, None, IfOk, slice_get, if◌then◌else◌, codes, ◌&&◌};
ghost use Rattle.std.specs.Option.{option_map};
ghost use Rattle.syntax.specs.Expressions.{spelled};
ghost use Rattle.syntax.specs.Declarations.{function as function_item, function_of, declaration_of, declarations_of};
ghost use Rattle.type_faults.specs.Least.{IsLeast};
ghost use Rattle.type_faults.specs.Faults.{fault as fault_at, IsFault};
ghost use Rattle.type_faults.specs.declared.fault.FaultKind.TheVariants.{NoMain};
ghost use Rattle.names.specs.Universe.{is_main};
ghost use Rattle.names.specs.Scope.{scope_of, declaration};
ghost use Rattle.signatures.specs.Signatures.{is_init};
ghost use Rattle.function_heads.specs.PackageBlock.{is_external};
ghost use Rattle.function_heads.specs.Heads.{number_of, is_plain, plain_number, functions_in};
ghost use Rattle.signatures.specs.Failing.{fault_where};
ghost use Rattle.function_heads.specs.HeadFaults.{init_fault, external_name_fault, HeadFails, DeclarationFails, DeclarationsFail, first_byte};

use crate::head_types::types_fault;
use crate::package_block::{is_external, is_external_at};
use base::{FuncId, NoMemory, Pos};
use names::{Declared, Scope, is_main, spelled};
use signatures::{fault_where, has_some, is_init};
use std::alloc::Global;
use syntax::{Decl, Func, Name};
use type_faults::{Fault, FaultKind, lesser};

fn number_of(declared: Option<Declared>) -> Option<FuncId>
    ensures { option_map (λ f. f.0) result ≡ number_of declared }
{
    match declared {
        Some(Declared::Function(function)) => Some(function),
        _ => None,
    }
}

/// Whether a function has no parameters and results.
fn is_plain(f: &Func) -> bool
    ensures { result ≡ is_plain (Some (function_of f.now)) }
{
    !has_some(&f.params) && !has_some(&f.results)
}

/// Whether there is a function of a number, and has no parameters and results.
fn is_plain_at(
    alloc: Global,
    text: &[u8],
    heads: &Scope,
    decls: &[Decl],
    number: usize,
) -> Result<bool, NoMemory>
    ensures { IfOk result (λ b. b ≡ is_plain (slice_get
        (functions_in text.now (scope_of heads.now) (declarations_of decls.now)) number)) }
{
    let mut before = number;
    for decl in decls {
        match decl {
            Decl::Const(_, _) => {}
            Decl::Var(_, _) => {}
            Decl::Type(_, _) => {}
            Decl::Func(f) => {
                if !is_external(alloc, text, heads, f)? {
                    if before == 0 {
                        return Ok(is_plain(f));
                    }
                    before -= 1;
                }
            }
        }
    }
    Ok(false)
}

/// The function of a number, if it has no parameters and results.
fn plain_number(
    alloc: Global,
    text: &[u8],
    heads: &Scope,
    decls: &[Decl],
    function: Option<FuncId>,
) -> Result<Option<FuncId>, NoMemory>
    ensures { IfOk result (λ r. option_map (λ f. f.0) r
        ≡ plain_number (functions_in text.now (scope_of heads.now) (declarations_of decls.now))
        (option_map (λ f. f.0) function)) }
{
    let Some(function) = function else {
        return Ok(None);
    };
    if is_plain_at(alloc, text, heads, decls, function.0 as usize)? {
        Ok(Some(function))
    } else {
        Ok(None)
    }
}

/// The function `main` of the package `main`.
pub fn main_number(
    alloc: Global,
    text: &[u8],
    heads: &Scope,
    scope: &Scope,
    package_name: Name,
    decls: &[Decl],
) -> Result<Option<FuncId>, NoMemory>
    ensures { IfOk result (λ r. option_map (λ f. f.0) r
        ≡ (if is_main (spelled text.now package_name) then plain_number
        (functions_in text.now (scope_of heads.now) (declarations_of decls.now))
        (number_of (declaration (scope_of scope.now) (codes "main"))) else None)) }
{
    if is_main(spelled(text, package_name)) {
        let function = number_of(scope.declaration("main".as_bytes()));
        plain_number(alloc, text, heads, decls, function)
    } else {
        Ok(None)
    }
}

/// The fault of the name of a function that may have no body.
fn external_name_fault(is_external: bool, declared: Option<Declared>, pos: Pos) -> Option<Fault>
    ensures { result ≡ external_name_fault is_external declared pos }
{
    let own = Fault {
        kind: FaultKind::Redeclared,
        pos,
    };
    fault_where(is_external && !is_external_at(pos, declared), own)
}

/// The fault of a function of the name `init`, at its word.
#[tactic(auto, using(type_faults::proofs::Leasts::leaf))]
fn init_fault(text: &[u8], f: &Func) -> Option<Fault>
    ensures { IsLeast (IsFault (init_fault (is_init (spelled text.now f.now.name)) f.now.pos)) result }
{
    let own = Fault {
        kind: FaultKind::OutOfProfile,
        pos: f.pos,
    };
    fault_where(is_init(spelled(text, f.name)), own)
}

/// The fault of a function without a body, after another declaration of its name.
#[tactic(auto, using(type_faults::proofs::Leasts::leaf))]
fn external_fault(
    alloc: Global,
    text: &[u8],
    heads: &Scope,
    scope: &Scope,
    f: &Func,
) -> Result<Option<Fault>, NoMemory>
    ensures { IfOk result (λ r. IsLeast (IsFault
        (external_name_fault (is_external text.now (scope_of heads.now) (function_of f.now))
        (declaration (scope_of scope.now) (spelled text.now f.now.name)) f.now.name.pos)) r) }
{
    let is_external = is_external(alloc, text, heads, f)?;
    let declared = scope.declaration(spelled(text, f.name));
    Ok(external_name_fault(is_external, declared, f.name.pos))
}

/// The fault of the types of a function's parameters and results.
fn head_fault(
    alloc: Global,
    text: &[u8],
    scope: &Scope,
    f: &Func,
) -> Result<Option<Fault>, NoMemory>
    ensures { IfOk result (λ r. IsLeast (HeadFails text.now (scope_of scope.now) (function_of f.now)) r) }
{
    let params = types_fault(alloc, text, scope, &f.params)?;
    let results = types_fault(alloc, text, scope, &f.results)?;
    Ok(lesser(params, results))
}

/// The fault of a function as a declaration.
fn function_fault(
    alloc: Global,
    text: &[u8],
    heads: &Scope,
    scope: &Scope,
    f: &Func,
) -> Result<Option<Fault>, NoMemory>
    ensures { IfOk result (λ r. IsLeast (DeclarationFails text.now (scope_of heads.now) (scope_of scope.now)
        (function_item (function_of f.now))) r) }
{
    let external = external_fault(alloc, text, heads, scope, f)?;
    let types = head_fault(alloc, text, scope, f)?;
    Ok(lesser(lesser(init_fault(text, f), external), types))
}

/// The fault of a declaration at the level of the package.
fn declaration_fault(
    alloc: Global,
    text: &[u8],
    heads: &Scope,
    scope: &Scope,
    decl: &Decl,
) -> Result<Option<Fault>, NoMemory>
    ensures { IfOk result (λ r. IsLeast (DeclarationFails text.now (scope_of heads.now) (scope_of scope.now)
        (declaration_of decl.now)) r) }
{
    match decl {
        Decl::Const(_, _) | Decl::Var(_, _) | Decl::Type(_, _) => Ok(None),
        Decl::Func(f) => function_fault(alloc, text, heads, scope, f),
    }
}

/// The fault of the declarations at the level of the package.
pub fn declaration_faults(
    alloc: Global,
    text: &[u8],
    heads: &Scope,
    scope: &Scope,
    decls: &[Decl],
) -> Result<Option<Fault>, NoMemory>
    ensures { IfOk result (λ r. IsLeast (DeclarationsFail text.now (scope_of heads.now) (scope_of scope.now)
        (declarations_of decls.now)) r) }
{
    let mut fault = None;
    for decl in decls {
        let own = declaration_fault(alloc, text, heads, scope, decl)?;
        fault = lesser(fault, own);
    }
    Ok(fault)
}

/// The fault of a package without a function `main`.
#[tactic(auto, using(type_faults::proofs::Leasts::leaf))]
pub fn no_main_fault(is_absent: bool) -> Option<Fault>
    ensures { IsLeast (IsFault (fault_where is_absent (fault_at NoMain first_byte))) result }
{
    let own = Fault {
        kind: FaultKind::NoMain,
        pos: Pos {
            offset: 0,
            line: 1,
            col: 1,
        },
    };
    fault_where(is_absent, own)
}
