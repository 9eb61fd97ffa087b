//! A `var` among statements.

ghost use Rattle.std.specs.Prelude.{◌≡◌, ◌⊎◌, Option, Some, None, IfOk, OnOk, List, map, true, if◌then◌else◌};
ghost use Rattle.std.specs.Option.{option_map};
ghost use Rattle.syntax.specs.Expressions.{ex_of as tree_of, exs_of as trees_of, ex_in};
ghost use Rattle.syntax.specs.Statements.{value_spec_of, value_specs_of};
ghost use Rattle.typed_syntax.specs.Syntax.{declare};
ghost use Rattle.typed.specs.View.{exs_of_values, st_of, sts_of, site_in, left_of as left_view};
ghost use Rattle.type_faults.specs.Least.{IsLeast};
ghost use Rattle.type_faults.specs.Given.{allowed};
ghost use Rattle.names.specs.Scope.{scope_of};
ghost use Rattle.given_values.specs.Given.{taken};
ghost use Rattle.expression_types.specs.Typing.{seen, stated_type, spec_wanted};
ghost use Rattle.expression_types.specs.Passing.{type_before};
ghost use Rattle.type_faults.specs.Given.{with_last};
ghost use Rattle.signatures.specs.Entries.{sites_of, entry_left};
ghost use Rattle.simple_statements.specs.SimpleStatements.{assignment, taken_types, is_bare, slots_before, spec_slots, is_known_before, spec_declared, spec_assigned, spec_statement, spec_statements, behind_spec, behind_specs};
ghost use Rattle.signatures.specs.declared.entries.Role.TheVariants.{Parameter};
ghost use Rattle.signatures.specs.EntryFaults.{EntriesFail};
ghost use Rattle.simple_statements.specs.SimpleFaults.{SpecTakeFails, SpecValuesFail, FailsInSpec, FailsInSpecs};

use crate::statements::{Line, Lines, assignment, types_where};
use base::{NoMemory, Pos, SiteId, ValueType};
use expression_types::{Stated, check_before, check_list, fault_before, spec_wanted};
use given_values::{take_fault, taken, value_types};
use names::Scope;
use signatures::{Role, Slot, check_entries, entry_lefts, sites_of, slots_each, slots_with};
use std::alloc::Global;
use syntax::{Expr, Name, ValueSpec};
use type_faults::{Fault, FaultKind, lesser};
use typed::Values;

/// What is known of the values of a declaration: they themselves, their types, and the fault.
#[derive(Drop)]
struct Given {
    values: Option<Values>,
    types: Option<Vec<ValueType>>,
    fault: Option<Fault>,
}

/// The values of a declaration.
fn check_values(
    alloc: Global,
    text: &[u8],
    scope: &Scope,
    pos: Pos,
    spec: &ValueSpec,
    stated: &Option<Stated>,
) -> Result<Given, NoMemory>
    requires { type_before stated.now ≡ option_map (stated_type text.now (scope_of scope.now)) (ex_in spec.now.type_expr) }
    ensures values { IfOk result (λ g. option_map exs_of_values g.values
        ≡ taken (spec_wanted text.now (scope_of scope.now) (value_spec_of spec.now))
        (seen text.now (scope_of scope.now) (trees_of spec.now.values.items))) }
    ensures types { IfOk result (λ g. option_map (λ v. v.items) g.types
        ≡ taken_types (spec_wanted text.now (scope_of scope.now) (value_spec_of spec.now))
        (seen text.now (scope_of scope.now) (trees_of spec.now.values.items))) }
    ensures fault { IfOk result (λ g. IsLeast
        (SpecTakeFails text.now (scope_of scope.now) pos (value_spec_of spec.now)) g.fault) }
{
    let listed = check_list(alloc, text, scope, &spec.values)?;
    let wanted = spec_wanted(alloc, stated, &spec.names)?;
    let own = Fault {
        kind: FaultKind::WrongCount,
        pos,
    };
    let values_fault = take_fault(own, &wanted, &listed.items);
    let types = value_types(alloc, &listed.items)?;
    let values = taken(alloc, &wanted, listed.items)?;
    let types = types_where(&values, types);
    Ok(Given {
        values,
        types,
        fault: lesser(listed.fault, values_fault),
    })
}

/// The names of a declaration with their types.
fn spec_slots(
    alloc: Global,
    stated: &Option<Stated>,
    names: &[Name],
    types: &Option<Vec<ValueType>>,
) -> Result<Vec<Slot>, NoMemory>
    ensures { IfOk result (λ v. v.items ≡ slots_before (type_before stated.now) (option_map (λ t. t.items) types.now) names.now) }
{
    match stated {
        Some(stated) => slots_with(alloc, names, stated.value_type),
        None => slots_each(alloc, names, types),
    }
}

/// New variables with their zero values.
fn declared(
    alloc: Global,
    entries: &Option<Vec<Option<SiteId>>>,
) -> Result<Option<typed::Stmt>, NoMemory>
    ensures { IfOk result (λ r. option_map st_of r
        ≡ option_map (λ es. declare (sites_of es)) (option_map (λ v. map site_in v.items) entries.now)) }
{
    match entries {
        Some(entries) => Ok(Some(typed::Stmt::Declare(sites_of(alloc, entries)?))),
        None => Ok(None),
    }
}

/// Whether the type of a declaration is known, where it stands there.
fn is_known(stated: &Option<Stated>) -> bool
    ensures { result ≡ is_known_before (type_before stated.now) }
{
    match stated {
        Some(stated) => stated.value_type.is_some(),
        None => true,
    }
}

/// Whether a declaration has a type and no values.
fn is_bare_with(type_expr: &Option<Expr>, values: &[Expr]) -> bool
    ensures { result ≡ is_bare (ex_in type_expr.now) (trees_of values.now) }
{
    match type_expr {
        Some(_) => values.is_empty(),
        None => false,
    }
}

fn is_bare(spec: &ValueSpec) -> bool
    ensures { result ≡ is_bare (ex_in spec.now.type_expr) (trees_of spec.now.values.items) }
{
    is_bare_with(&spec.type_expr, &spec.values)
}

fn statement_where(is_allowed: bool, statement: Option<typed::Stmt>) -> Option<typed::Stmt>
    ensures { option_map st_of result ≡ allowed is_allowed (option_map st_of statement) }
{
    if is_allowed { statement } else { None }
}

/// A declaration with a type and no values.
fn check_bare(
    alloc: Global,
    text: &[u8],
    scope: &mut Scope,
    spec: &ValueSpec,
    stated: &Option<Stated>,
) -> Result<Line, NoMemory>
    requires types { type_before stated.now ≡ option_map (stated_type text.now (scope_of scope.old)) (ex_in spec.now.type_expr) }
    requires bare { is_bare (ex_in spec.now.type_expr) (trees_of spec.now.values.items) ≡ true }
    ensures statement { IfOk result (λ c. option_map st_of c.statement
        ≡ spec_declared text.now (scope_of scope.old) (value_spec_of spec.now)) }
    ensures fault { IfOk result (λ c. IsLeast
        (EntriesFail text.now Parameter (scope_of scope.old)
        (spec_slots text.now (scope_of scope.old) (value_spec_of spec.now))) c.fault) }
    ensures scope { OnOk result (scope_of scope.new ≡ behind_spec text.now (scope_of scope.old) (value_spec_of spec.now)) }
{
    let slots = spec_slots(alloc, stated, &spec.names, &None)?;
    let entries = check_entries(alloc, text, scope, Role::Parameter, &slots)?;
    Ok(Line {
        statement: declared(alloc, &entries.entries)?,
        fault: entries.fault,
    })
}

/// A declaration with values.
fn check_given(
    alloc: Global,
    text: &[u8],
    scope: &mut Scope,
    pos: Pos,
    spec: &ValueSpec,
    stated: &Option<Stated>,
) -> Result<Line, NoMemory>
    requires types { type_before stated.now ≡ option_map (stated_type text.now (scope_of scope.old)) (ex_in spec.now.type_expr) }
    ensures statement { IfOk result (λ c. option_map st_of c.statement
        ≡ spec_assigned text.now (scope_of scope.old) (value_spec_of spec.now)) }
    ensures fault { IfOk result (λ c. IsLeast
        (λ f. SpecTakeFails text.now (scope_of scope.old) pos (value_spec_of spec.now) f
        ⊎ EntriesFail text.now Parameter (scope_of scope.old)
        (spec_slots text.now (scope_of scope.old) (value_spec_of spec.now)) f) c.fault) }
    ensures scope { OnOk result (scope_of scope.new ≡ behind_spec text.now (scope_of scope.old) (value_spec_of spec.now)) }
{
    let given = check_values(alloc, text, scope, pos, spec, stated)?;
    let slots = spec_slots(alloc, stated, &spec.names, &given.types)?;
    let entries = check_entries(alloc, text, scope, Role::Parameter, &slots)?;
    let lefts = entry_lefts(alloc, &entries.entries)?;
    Ok(Line {
        statement: assignment(lefts, given.values),
        fault: lesser(given.fault, entries.fault),
    })
}

/// The values and the names of a declaration.
fn check_names(
    alloc: Global,
    text: &[u8],
    scope: &mut Scope,
    pos: Pos,
    spec: &ValueSpec,
    stated: &Option<Stated>,
) -> Result<Line, NoMemory>
    requires types { type_before stated.now ≡ option_map (stated_type text.now (scope_of scope.old)) (ex_in spec.now.type_expr) }
    ensures statement { IfOk result (λ c. option_map st_of c.statement
        ≡ (if is_bare (ex_in spec.now.type_expr) (trees_of spec.now.values.items) then spec_declared text.now
        (scope_of scope.old) (value_spec_of spec.now) else spec_assigned text.now (scope_of scope.old)
        (value_spec_of spec.now))) }
    ensures fault { IfOk result (λ c. IsLeast
        (λ f. SpecValuesFail text.now (is_bare (ex_in spec.now.type_expr) (trees_of spec.now.values.items))
        (scope_of scope.old) pos (value_spec_of spec.now) f
        ⊎ EntriesFail text.now Parameter (scope_of scope.old)
        (spec_slots text.now (scope_of scope.old) (value_spec_of spec.now)) f) c.fault) }
    ensures scope { OnOk result (scope_of scope.new ≡ behind_spec text.now (scope_of scope.old) (value_spec_of spec.now)) }
{
    if is_bare(spec) {
        check_bare(alloc, text, scope, spec, stated)
    } else {
        check_given(alloc, text, scope, pos, spec, stated)
    }
}

/// One declaration of a `var` whose word stands at a place.
fn check_spec(
    alloc: Global,
    text: &[u8],
    scope: &mut Scope,
    pos: Pos,
    spec: &ValueSpec,
) -> Result<Line, NoMemory>
    ensures statement { IfOk result (λ c. option_map st_of c.statement
        ≡ spec_statement text.now (scope_of scope.old) (value_spec_of spec.now)) }
    ensures fault { IfOk result (λ c. IsLeast (FailsInSpec text.now (scope_of scope.old) pos (value_spec_of spec.now)) c.fault) }
    ensures scope { OnOk result (scope_of scope.new ≡ behind_spec text.now (scope_of scope.old) (value_spec_of spec.now)) }
{
    let stated = check_before(alloc, text, scope, &spec.type_expr)?;
    let line = check_names(alloc, text, scope, pos, spec, &stated)?;
    Ok(Line {
        statement: statement_where(is_known(&stated), line.statement),
        fault: lesser(fault_before(&stated), line.fault),
    })
}

/// One more statement after those that have typed forms.
fn with_statement(
    statements: Option<Vec<typed::Stmt>>,
    statement: Option<typed::Stmt>,
) -> Result<Option<Vec<typed::Stmt>>, NoMemory>
    ensures { IfOk result (λ r. option_map (λ v. v.items) r ≡ with_last (option_map (λ v. v.items) statements) statement) }
{
    match statements.zip(statement) {
        Some((mut statements, statement)) => {
            statements.push(statement)?;
            Ok(Some(statements))
        }
        None => Ok(None),
    }
}

/// The declarations of a `var` whose word stands at a place, one after the other.
pub fn check_var(
    alloc: Global,
    text: &[u8],
    scope: &mut Scope,
    pos: Pos,
    specs: &[ValueSpec],
) -> Result<Lines, NoMemory>
    ensures statements { IfOk result (λ c. option_map (λ v. sts_of v.items) c.statements
        ≡ spec_statements text.now (scope_of scope.old) (value_specs_of specs.now)) }
    ensures fault { IfOk result (λ c. IsLeast
        (FailsInSpecs text.now (scope_of scope.old) pos (value_specs_of specs.now)) c.fault) }
    ensures scope { OnOk result (scope_of scope.new ≡ behind_specs text.now (scope_of scope.old) (value_specs_of specs.now)) }
{
    let mut statements = Some(Vec::new(alloc));
    let mut fault = None;
    for spec in specs {
        let line = check_spec(alloc, text, scope, pos, spec)?;
        statements = with_statement(statements, line.statement)?;
        fault = lesser(fault, line.fault);
    }
    Ok(Lines { statements, fault })
}
