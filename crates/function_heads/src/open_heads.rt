//! The functions of which the types in their heads aren't all known.

ghost use Rattle.std.specs.Prelude.{IfOk, [], ◌∷◌, not, is_some, if◌then◌else◌};
ghost use Rattle.syntax.specs.Declarations.{function_of, declaration_of, declarations_of};
ghost use Rattle.type_faults.specs.Least.{IsLeast};
ghost use Rattle.type_faults.specs.Faults.{fault as fault_at, IsFault};
ghost use Rattle.type_faults.specs.declared.fault.FaultKind.TheVariants.{SelfReference};
ghost use Rattle.names.specs.Scope.{scope_of};
ghost use Rattle.signatures.specs.Failing.{fault_where};
ghost use Rattle.function_heads.specs.HeadTypes.{signature_in};
ghost use Rattle.function_heads.specs.PackageBlock.{is_external};
ghost use Rattle.function_heads.specs.Heads.{functions_in};
ghost use Rattle.function_heads.specs.HeadFaults.{HeadsOpen};

use crate::head_types::signature_in;
use crate::package_block::is_external;
use base::NoMemory;
use names::Scope;
use signatures::fault_where;
use std::alloc::Global;
use syntax::{Decl, Func};
use type_faults::{Fault, FaultKind, lesser};

/// The fault of the name of a function that has no signature.
fn head_open(alloc: Global, text: &[u8], heads: &Scope, f: &Func) -> Result<Option<Fault>, NoMemory>
    ensures { IfOk result
        (λ r. IsLeast (IsFault (fault_where (not (is_some (signature_in text.now (scope_of heads.now) (function_of f.now))))
        (fault_at SelfReference f.now.name.pos))) r) }
{
    let signature = signature_in(alloc, text, heads, f)?;
    let own = Fault {
        kind: FaultKind::SelfReference,
        pos: f.name.pos,
    };
    Ok(fault_where(signature.is_none(), own))
}

/// The fault of a function that is not `readInt` or `exit`.
fn function_open(
    alloc: Global,
    text: &[u8],
    heads: &Scope,
    f: &Func,
) -> Result<Option<Fault>, NoMemory>
    ensures { IfOk result
        (λ r. IsLeast (HeadsOpen text.now (scope_of heads.now)
        (if is_external text.now (scope_of heads.now) (function_of f.now) then [] else function_of f.now ∷ [])) r) }
{
    if is_external(alloc, text, heads, f)? {
        return Ok(None);
    }
    head_open(alloc, text, heads, f)
}

/// The fault of a declaration.
fn declaration_open(
    alloc: Global,
    text: &[u8],
    heads: &Scope,
    decl: &Decl,
) -> Result<Option<Fault>, NoMemory>
    ensures { IfOk result
        (λ r. IsLeast (HeadsOpen text.now (scope_of heads.now)
        (functions_in text.now (scope_of heads.now) (declaration_of decl.now ∷ []))) r) }
{
    match decl {
        Decl::Const(_, _) | Decl::Var(_, _) | Decl::Type(_, _) => Ok(None),
        Decl::Func(f) => function_open(alloc, text, heads, f),
    }
}

/// Of the functions of declarations that have no signature, since the types in their heads aren't all known, the first one in
/// the text: its fault (they need themselves), at its name, which is the one with the least offset, then the least number.
pub fn heads_open(
    alloc: Global,
    text: &[u8],
    heads: &Scope,
    decls: &[Decl],
) -> Result<Option<Fault>, NoMemory>
    ensures { IfOk result
        (λ r. IsLeast (HeadsOpen text.now (scope_of heads.now)
        (functions_in text.now (scope_of heads.now) (declarations_of decls.now))) r) }
{
    let mut fault = None;
    for decl in decls {
        let own = declaration_open(alloc, text, heads, decl)?;
        fault = lesser(fault, own);
    }
    Ok(fault)
}
