//! The type that stands before the names of a declaration, if one does.

ghost use Rattle.std.specs.Prelude.{◌≡◌, IfOk, map};
ghost use Rattle.std.specs.Option.{option_map};
ghost use Rattle.syntax.specs.Expressions.{ex_in};
ghost use Rattle.type_faults.specs.Least.{IsLeast};
ghost use Rattle.names.specs.Scope.{scope_of};
ghost use Rattle.given_values.specs.Given.{wanted_before};
ghost use Rattle.expression_types.specs.Typing.{stated_type};
ghost use Rattle.expression_types.specs.Faults.{FailsBefore};
ghost use Rattle.expression_types.specs.Passing.{type_before, fault_before};

use crate::expressions::check_stated;
use crate::literals::Stated;
use base::NoMemory;
use given_values::{Wanted, wanted_by};
use names::Scope;
use std::alloc::Global;
use syntax::{Expr, Name};
use type_faults::Fault;

/// What is known of that type.
pub fn check_before(
    alloc: Global,
    text: &[u8],
    scope: &Scope,
    type_expr: &Option<Expr>,
) -> Result<Option<Stated>, NoMemory>
    ensures types { IfOk result (λ r. type_before r
        ≡ option_map (stated_type text.now (scope_of scope.now)) (ex_in type_expr.now)) }
    ensures fault { IfOk result (λ r. IsLeast (FailsBefore text.now (scope_of scope.now) (ex_in type_expr.now))
        (fault_before r)) }
{
    match type_expr {
        Some(e) => Ok(Some(check_stated(alloc, text, scope, e)?)),
        None => Ok(None),
    }
}

/// Its fault.
pub fn fault_before(stated: &Option<Stated>) -> Option<Fault>
    ensures { result ≡ fault_before stated.now }
{
    match stated {
        Some(stated) => stated.fault,
        None => None,
    }
}

/// What the names of a declaration ask for.
fn wanted_before(stated: &Option<Stated>) -> Wanted
    ensures { result ≡ wanted_before (type_before stated.now) }
{
    match stated {
        Some(stated) => wanted_by(stated.value_type),
        None => Wanted::Own,
    }
}

/// What each name of a declaration asks for, by the type that stands before them, if one does.
pub fn spec_wanted(
    alloc: Global,
    stated: &Option<Stated>,
    names: &[Name],
) -> Result<Vec<Wanted>, NoMemory>
    ensures { IfOk result (λ v. v.items ≡ map (λ n. wanted_before (type_before stated.now)) names.now) }
{
    let wanted = wanted_before(stated);
    Ok(names.iter().map(|_| wanted).collect(alloc)?)
}
