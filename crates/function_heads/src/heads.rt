//! The heads of functions: names, numbers, types and their words, and a function of its parts.

ghost use Rattle.std.specs.Prelude.{◌≡◌, ◌<◌, Option, Some, None, IfOk, map, not, ◌-◌, ◌&&◌, nat_lt};
ghost use Rattle.std.specs.Option.{option_map};
ghost use Rattle.syntax.specs.Expressions.{spelled};
ghost use Rattle.syntax.specs.Declarations.{function_of};
ghost use Rattle.typed.specs.View.{site_in, func_of, sts_of};
ghost use Rattle.typed_syntax.specs.Syntax.{type_in};
ghost use Rattle.typed.specs.Trees.{trees};
ghost use Rattle.type_faults.specs.Least.{IsLeast};
ghost use Rattle.type_faults.specs.Faults.{fault as fault_at, IsFault};
ghost use Rattle.type_faults.specs.declared.fault.FaultKind.TheVariants.{TooLarge};
ghost use Rattle.names.specs.Universe.{is_blank};
ghost use Rattle.names.specs.Scope.{scope_of, declaration};
ghost use Rattle.function_heads.specs.Assembled.{assembled, IsAt};
ghost use Rattle.signatures.specs.Failing.{fault_where};
ghost use Rattle.signatures.specs.Signatures.{may_be_named, is_small};
ghost use Rattle.function_heads.specs.HeadTypes.{signature_in};
ghost use Rattle.function_heads.specs.Heads.{most_functions, number_or_int, slot_number, slot_tree, function_head};
ghost use Rattle.signatures.specs.SignatureFaults.{function_name_fault};
ghost use Rattle.function_heads.specs.HeadFaults.{FailsInHead, FailsInWords, external_fault, missing_body_fault};

use crate::head_types::signature_in;
use base::{NoMemory, Pos, SiteId, TypeId, ValueType};
use names::{Scope, is_blank, spelled, type_id};
use signatures::{
    Slot, fault_where, function_name_fault, is_small, may_be_named, sites_of, size_fault,
};
use std::alloc::Global;
use syntax::{Func, Name};
use type_faults::{Fault, FaultKind, lesser};
use typed::{INT, TypeTable};

/// The most functions that a program may have.
const MOST_FUNCTIONS: usize = 4096;

/// What is known of a part of a function: whether it is as it must be, and the fault.
#[derive(Clone, Copy, Debug, PartialEq, Eq)]
pub struct Check {
    pub is_allowed: bool,
    pub fault: Option<Fault>,
}

/// The fault of the name of a function of a number.
#[tactic(auto, using(type_faults::proofs::Leasts::leaf))]
fn name_fault(text: &[u8], scope: &Scope, number: usize, name: Name) -> Option<Fault>
    ensures { IsLeast (IsFault (function_name_fault number (is_blank (spelled text.now name))
        (declaration (scope_of scope.now) (spelled text.now name)) name.pos)) result }
{
    let bytes = spelled(text, name);
    function_name_fault(number, is_blank(bytes), scope.declaration(bytes), name.pos)
}

/// The fault of a function after too many others.
#[tactic(auto, using(type_faults::proofs::Leasts::leaf))]
fn number_fault(number: usize, pos: Pos) -> Option<Fault>
    ensures { IsLeast (IsFault (fault_where (not (nat_lt number most_functions)) (fault_at TooLarge pos))) result }
{
    let own = Fault {
        kind: FaultKind::TooLarge,
        pos,
    };
    fault_where(!(number < MOST_FUNCTIONS), own)
}

fn has_head(text: &[u8], scope: &Scope, number: usize, name: Name) -> bool
    ensures { result ≡ (may_be_named number (is_blank (spelled text.now name))
        (declaration (scope_of scope.now) (spelled text.now name)) && nat_lt number most_functions) }
{
    let bytes = spelled(text, name);
    may_be_named(number, is_blank(bytes), scope.declaration(bytes)) && number < MOST_FUNCTIONS
}

/// The name and the number of a function.
pub fn check_head(text: &[u8], scope: &Scope, number: usize, f: &Func) -> Check
    ensures is_allowed { result.is_allowed ≡ function_head text.now (scope_of scope.now) number (function_of f.now) }
    ensures fault { IsLeast (FailsInHead text.now (scope_of scope.now) number (function_of f.now)) result.fault }
{
    Check {
        is_allowed: has_head(text, scope, number, f.name),
        fault: lesser(
            name_fault(text, scope, number, f.name),
            number_fault(number, f.name.pos),
        ),
    }
}

/// The words of a function's arguments and results, where all their types are known.
pub fn check_words(alloc: Global, text: &[u8], heads: &Scope, f: &Func) -> Result<Check, NoMemory>
    ensures is_allowed { IfOk result (λ p. p.is_allowed
        ≡ is_small (scope_of heads.now).types (signature_in text.now (scope_of heads.now) (function_of f.now))) }
    ensures fault { IfOk result (λ p. IsLeast (FailsInWords text.now (scope_of heads.now) (function_of f.now)) p.fault) }
{
    let signature = signature_in(alloc, text, heads, f)?;
    Ok(Check {
        is_allowed: is_small(&heads.types, &signature),
        fault: size_fault(&heads.types, &signature, f.name.pos),
    })
}

/// The number of a type, where that is known.
fn number_or_int(types: &TypeTable, value_type: Option<ValueType>) -> TypeId
    ensures { result.0 ≡ number_or_int types.now value_type }
{
    match value_type {
        Some(value_type) => type_id(types, value_type),
        None => INT,
    }
}

/// The numbers of the types of parameters or results.
fn type_numbers(alloc: Global, types: &TypeTable, slots: &[Slot]) -> Result<Vec<TypeId>, NoMemory>
    ensures numbers { IfOk result (λ v. map (λ t. t.0) v.items ≡ map (slot_number types.now) slots.now) }
    ensures trees { IfOk result (λ v. map (λ t. type_in (trees types.now) t.0) v.items ≡ map (slot_tree types.now) slots.now) }
{
    let mut numbers = Vec::new(alloc);
    for slot in slots {
        numbers.push(number_or_int(types, slot.value_type))?;
    }
    Ok(numbers)
}

fn number_of(count: usize) -> Result<u32, NoMemory>
    ensures { IfOk result (λ n. n ≡ count) }
{
    match u32::try_from(count) {
        Ok(number) => Ok(number),
        Err(_) => Err(NoMemory),
    }
}

/// A function with a name at a place of its parts, with sites from one number on and before another.
pub fn assemble(
    alloc: Global,
    types: &TypeTable,
    pos: Pos,
    param_slots: &[Slot],
    result_slots: &[Slot],
    first: usize,
    behind: usize,
    params: Option<Vec<Option<SiteId>>>,
    results: Option<Vec<Option<SiteId>>>,
    body: Option<Vec<typed::Stmt>>,
) -> Result<Option<typed::Func>, NoMemory>
    ensures func { IfOk result (λ r. option_map (func_of (trees types.now)) r
        ≡ assembled types.now param_slots.now result_slots.now first behind (option_map (λ v. map site_in v.items) params)
        (option_map (λ v. map site_in v.items) results) (option_map (λ v. sts_of v.items) body)) }
    ensures pos { IfOk result (λ r. IsAt pos r) }
{
    match (params, results, body) {
        (Some(params), Some(results), Some(body)) => {
            let first_site = number_of(first)?;
            let sites = number_of(behind.saturating_sub(first))?;
            let named = sites_of(alloc, &results)?;
            let param_types = type_numbers(alloc, types, param_slots)?;
            let results = type_numbers(alloc, types, result_slots)?;
            Ok(Some(typed::Func {
                pos,
                first_site,
                sites,
                params,
                param_types,
                results,
                named,
                body,
            }))
        }
        _ => Ok(None),
    }
}

/// The fault of a function without a body.
fn external_fault(f: &Func) -> Fault
    ensures { result ≡ external_fault (function_of f.now) }
{
    Fault {
        kind: FaultKind::BadExternal,
        pos: f.name.pos,
    }
}

/// The fault of a function without a body, where the types of its head are known.
pub fn missing_body_fault(
    alloc: Global,
    text: &[u8],
    heads: &Scope,
    f: &Func,
) -> Result<Option<Fault>, NoMemory>
    ensures { IfOk result (λ r. r ≡ missing_body_fault (signature_in text.now (scope_of heads.now) (function_of f.now))
        (external_fault (function_of f.now))) }
{
    let signature = signature_in(alloc, text, heads, f)?;
    Ok(match signature {
        Some(_) => Some(external_fault(f)),
        None => None,
    })
}
