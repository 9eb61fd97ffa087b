//! Functions: their heads, their parts, and the end of their bodies; and the package variables between them.

ghost use Rattle.std.specs.Prelude.{◌≡◌, ◌<◌, ◌⊎◌, Option, Some, None, IfOk, OnOk, List, map, length, ◌-◌, ◌++◌, ◌&&◌, ◌||◌, ◌==◌};
ghost use Rattle.std.specs.Option.{option_map};
ghost use Rattle.base.specs.declared.pos.Pos.{Pos as Place};
ghost use Rattle.syntax.specs.Expressions.{ex_of, spelled};
ghost use Rattle.syntax.specs.Declarations.{parameters_of, body_of, function_of};
ghost use Rattle.typed.specs.View.{func_of, value_of};
ghost use Rattle.typed.specs.Trees.{trees};
ghost use Rattle.typed_syntax.specs.Types.{TypeTree};
ghost use Rattle.type_faults.specs.Least.{IsLeast};
ghost use Rattle.type_faults.specs.Given.{allowed};
ghost use Rattle.names.specs.Universe.{is_blank};
ghost use Rattle.names.specs.Scope.{scope_of, known, with_site};
ghost use Rattle.type_faults.specs.Given.{with_last};
ghost use Rattle.function_heads.specs.Assembled.{IsAt};
ghost use Rattle.types_go.specs.Passing.{AreAt, member_views, global_view};
ghost use Rattle.package_values.specs.Passing.{item_of};
ghost use Rattle.given_values.specs.Given.{wanted_by};
ghost use Rattle.simple_statements.specs.SimpleStatements.{returns_view};
ghost use Rattle.signatures.specs.Signatures.{is_named};
ghost use Rattle.types_go.specs.Functions.{returns_of, may_end, parts, function_with, function, functions_of, type_or_int, int_in, truth_in, begins, behind_variable, initial, globals_of, functions, globals, behind_body, behind_function, behind_members};
ghost use Rattle.types_go.specs.FunctionFaults.{FailsInParts, FailsWith, FailsInFunction, FailsInFunctions};

use crate::blocks::check_stmts;
use crate::members::Member;
use base::{NoMemory, ValueType};
use constants::{Constant, Fixed, int_constant};
use expression_types::check_expr;
use function_heads::{assemble, check_head, check_words, missing_body_fault, slots_of};
use given_values::{Wanted, known_type, wanted_by};
use names::{Known, Scope, ValueId, is_blank, spelled};
use package_values::{Item, constant_in};
use signatures::{Role, Slot, check_entries, fault_where, has_some, is_named, slot_types};
use simple_statements::Returns;
use std::alloc::Global;
use syntax::{Body, Expr, Func, Params};
use terminating::ends_in_terminating;
use type_faults::{Fault, FaultKind, lesser};
use typed::{Const, PackageVariable, SiteKind};

/// What is known of a function: its typed form, and the fault that is reported of it.
#[derive(Drop)]
pub struct Function {
    pub func: Option<typed::Func>,
    pub fault: Option<Fault>,
}

/// What is known of some functions and package variables: the typed forms of the functions, where all have one, the variables with a name,
/// and the fault.
#[derive(Drop)]
pub struct Members {
    pub funcs: Option<Vec<typed::Func>>,
    pub globals: Vec<PackageVariable>,
    pub fault: Option<Fault>,
}

/// What the places of results of these types ask for.
fn all_wanted_by(alloc: Global, types: &[Option<ValueType>]) -> Result<Vec<Wanted>, NoMemory>
    ensures { IfOk result (λ r. r.items ≡ map wanted_by types.now) }
{
    Ok(types.iter().map(|t| wanted_by(*t)).collect(alloc)?)
}

/// What the places of some results ask for.
fn results_wanted(alloc: Global, slots: &[Slot]) -> Result<Vec<Wanted>, NoMemory>
    ensures { IfOk result (λ v. v.items ≡ map (λ slot. wanted_by slot.value_type) slots.now) }
{
    let types = slot_types(alloc, slots)?;
    all_wanted_by(alloc, &types)
}

/// What a function with these results gives back.
fn returns_of(alloc: Global, results: &Params, slots: &[Slot]) -> Result<Returns, NoMemory>
    ensures { IfOk result (λ r. returns_view r
        ≡ record {
          wanted = map (λ slot. wanted_by slot.value_type) slots.now;
          may_be_bare =
              (length slots.now == 0) || is_named (parameters_of results.now);
        }) }
{
    let wanted = results_wanted(alloc, slots)?;
    Ok(Returns {
        wanted,
        may_be_bare: slots.is_empty() || is_named(results),
    })
}

fn may_end(text: &[u8], heads: &Scope, scope: &Scope, f: &Func, body: &Body) -> bool
    ensures { result ≡ may_end text.now (scope_of heads.now) (scope_of scope.now) (function_of f.now) (body_of body.now) }
{
    !has_some(&f.results) || ends_in_terminating(text, scope, &body.statements)
}

/// The parameters, results and statements of a function.
fn check_parts(
    alloc: Global,
    text: &[u8],
    heads: &Scope,
    scope: &mut Scope,
    f: &Func,
    body: &Body,
) -> Result<Function, NoMemory>
    requires { 0 < length scope.old.names }
    ensures func { IfOk result (λ r. option_map (func_of (trees (scope_of heads.now).types)) r.func
        ≡ parts text.now (scope_of heads.now) (scope_of scope.old) (function_of f.now) (body_of body.now)) }
    ensures pos { IfOk result (λ r. IsAt f.now.name.pos r.func) }
    ensures fault { IfOk result (λ r. IsLeast
        (FailsInParts text.now (scope_of heads.now) (scope_of scope.old) (function_of f.now) (body_of body.now)) r.fault) }
    ensures scope { OnOk result (scope_of scope.new
        ≡ behind_body text.now (scope_of heads.now) (scope_of scope.old) (function_of f.now) (Some (body_of body.now))) }
{
    let first = scope.site_count();
    let param_slots = slots_of(alloc, text, heads, &f.params)?;
    let result_slots = slots_of(alloc, text, heads, &f.results)?;
    let returns = returns_of(alloc, &f.results, &result_slots)?;
    let after = scope.setting.after_function()?;
    let of_params = scope.setting.declaring(SiteKind::Parameter);
    scope.setting = of_params;
    scope.open()?;
    let params = check_entries(alloc, text, scope, Role::Parameter, &param_slots)?;
    let of_results = scope.setting.declaring(SiteKind::Result);
    scope.setting = of_results;
    let results = check_entries(alloc, text, scope, Role::Result, &result_slots)?;
    let of_variables = scope.setting.declaring(SiteKind::Variable);
    scope.setting = of_variables;
    let lines = check_stmts(alloc, text, &returns, false, scope, &body.statements)?;
    scope.close();
    scope.setting = after;
    let fault = lesser(lesser(params.fault, results.fault), lines.fault);
    let func = assemble(
        alloc,
        &heads.types,
        f.name.pos,
        &param_slots,
        &result_slots,
        first,
        scope.site_count(),
        params.entries,
        results.entries,
        lines.statements,
    )?;
    Ok(Function { func, fault })
}

fn func_where(head: bool, types: bool, end: bool, func: Option<typed::Func>) -> Option<typed::Func>
    ensures func { (all : List TypeTree) → option_map (func_of all) result
        ≡ allowed head (allowed types (allowed end (option_map (func_of all) func))) }
    ensures pos { (p : Place) → IsAt p func → IsAt p result }
{
    if head && types && end { func } else { None }
}

/// A function with a body, by its number.
fn check_with_body(
    alloc: Global,
    text: &[u8],
    heads: &Scope,
    scope: &mut Scope,
    number: usize,
    f: &Func,
    body: &Body,
) -> Result<Function, NoMemory>
    requires { 0 < length scope.old.names }
    ensures func { IfOk result (λ r. option_map (func_of (trees (scope_of heads.now).types)) r.func
        ≡ function_with text.now (scope_of heads.now) (scope_of scope.old) number (function_of f.now) (Some (body_of body.now))) }
    ensures pos { IfOk result (λ r. IsAt f.now.name.pos r.func) }
    ensures fault { IfOk result (λ r. IsLeast
        (FailsWith text.now (scope_of heads.now) (scope_of scope.old) number (function_of f.now)
        (Some (body_of body.now))) r.fault) }
    ensures scope { OnOk result (scope_of scope.new
        ≡ behind_body text.now (scope_of heads.now) (scope_of scope.old) (function_of f.now) (Some (body_of body.now))) }
{
    let head = check_head(text, scope, number, f);
    let words = check_words(alloc, text, heads, f)?;
    let ends = may_end(text, heads, scope, f, body);
    let parts = check_parts(alloc, text, heads, scope, f, body)?;
    let own = Fault {
        kind: FaultKind::MissingReturn,
        pos: body.end,
    };
    let head_fault = lesser(head.fault, words.fault);
    let body_fault = lesser(parts.fault, fault_where(!ends, own));
    Ok(Function {
        func: func_where(head.is_allowed, words.is_allowed, ends, parts.func),
        fault: lesser(head_fault, body_fault),
    })
}

/// A function without a body, by its number.
fn check_external(
    alloc: Global,
    text: &[u8],
    heads: &Scope,
    scope: &Scope,
    number: usize,
    f: &Func,
) -> Result<Function, NoMemory>
    ensures func { IfOk result (λ r. (all : List TypeTree) → option_map (func_of all) r.func ≡ None) }
    ensures pos { IfOk result (λ r. (p : Place) → IsAt p r.func) }
    ensures fault { IfOk result (λ r. IsLeast
        (FailsWith text.now (scope_of heads.now) (scope_of scope.now) number (function_of f.now) None) r.fault) }
{
    let head = check_head(text, scope, number, f);
    let words = check_words(alloc, text, heads, f)?;
    let own = missing_body_fault(alloc, text, heads, f)?;
    Ok(Function {
        func: None,
        fault: lesser(lesser(head.fault, words.fault), own),
    })
}

/// A function, by its number.
fn check_function(
    alloc: Global,
    text: &[u8],
    heads: &Scope,
    scope: &mut Scope,
    number: usize,
    f: &Func,
) -> Result<Function, NoMemory>
    requires { 0 < length scope.old.names }
    ensures func { IfOk result (λ r. option_map (func_of (trees (scope_of heads.now).types)) r.func
        ≡ function text.now (scope_of heads.now) (scope_of scope.old) number (function_of f.now)) }
    ensures pos { IfOk result (λ r. IsAt f.now.name.pos r.func) }
    ensures fault { IfOk result (λ r. IsLeast
        (FailsInFunction text.now (scope_of heads.now) (scope_of scope.old) number (function_of f.now)) r.fault) }
    ensures scope { OnOk result (scope_of scope.new
        ≡ behind_function text.now (scope_of heads.now) (scope_of scope.old) (function_of f.now)) }
{
    match &f.body {
        Some(body) => check_with_body(alloc, text, heads, scope, number, f, body),
        None => check_external(alloc, text, heads, scope, number, f),
    }
}

fn with_func(
    funcs: Option<Vec<typed::Func>>,
    func: Option<typed::Func>,
) -> Result<Option<Vec<typed::Func>>, NoMemory>
    ensures { IfOk result (λ r. option_map (λ v. v.items) r ≡ with_last (option_map (λ v. v.items) funcs) func) }
{
    match (funcs, func) {
        (Some(mut funcs), Some(func)) => {
            funcs.push(func)?;
            Ok(Some(funcs))
        }
        _ => Ok(None),
    }
}

/// The type of a package variable of which this is known.
fn type_or_int(known: Option<Known>) -> ValueType
    ensures { result ≡ type_or_int known }
{
    match known {
        Some(known) => known_type(known),
        None => ValueType::Int,
    }
}

fn int_in(constant: Constant) -> i64
    ensures { result ≡ int_in constant }
{
    match constant {
        Constant::Number(value) => match int_constant(value) {
            Some(value) => value,
            None => 0,
        },
        Constant::Truth(_) => 0,
    }
}

fn truth_in(constant: Constant) -> bool
    ensures { result ≡ truth_in constant }
{
    match constant {
        Constant::Number(_) => false,
        Constant::Truth(value) => value,
    }
}

/// The constant that a variable begins with, where its value gives one: an int or a truth value.
fn begins(value_type: ValueType, initial: Option<Fixed>) -> Option<Const>
    ensures { option_map value_of result ≡ begins value_type initial }
{
    match (value_type, initial) {
        (ValueType::Int, Some(fixed)) => Some(Const::Int(int_in(fixed.value))),
        (ValueType::Bool, Some(fixed)) => Some(Const::Bool(truth_in(fixed.value))),
        _ => None,
    }
}

/// The constant that the value of a variable gives.
fn initial(
    alloc: Global,
    text: &[u8],
    scope: &Scope,
    value: Option<&Expr>,
) -> Result<Option<Fixed>, NoMemory>
    ensures { IfOk result (λ r. r ≡ initial text.now (scope_of scope.now) (option_map (λ e. ex_of e.now) value.entry)) }
{
    match value {
        Some(value) => {
            let checked = check_expr(alloc, text, scope, value)?;
            Ok(constant_in(&checked.gives))
        }
        None => Ok(None),
    }
}

/// A package variable with a name, which has a site.
fn check_named(
    alloc: Global,
    text: &[u8],
    scope: &mut Scope,
    number: ValueId,
    item: &Item,
) -> Result<PackageVariable, NoMemory>
    ensures scope { OnOk result (scope_of scope.new
        ≡ with_site (scope_of scope.old) (scope_of scope.old).setting (spelled text.now item.now.name)
        (type_or_int (known (scope_of scope.old) number.0)) item.now.name.pos) }
    ensures global { IfOk result (λ g. global_view g
        ≡ (
          length (scope_of scope.old).sites,
          begins (type_or_int (known (scope_of scope.old) number.0))
              (initial text.now (scope_of scope.old) (item_of item.now).value),
        )) }
{
    let value_type = type_or_int(scope.known(number));
    let initial = initial(alloc, text, scope, item.value)?;
    let site = scope.next_site()?;
    scope.add_site(
        scope.setting,
        spelled(text, item.name),
        value_type,
        item.name.pos,
    )?;
    Ok(PackageVariable {
        site,
        value: begins(value_type, initial),
    })
}

/// A package variable by its number, after others.
fn check_variable(
    alloc: Global,
    text: &[u8],
    scope: &mut Scope,
    globals: &mut Vec<PackageVariable>,
    number: ValueId,
    item: &Item,
) -> Result<(), NoMemory>
    ensures scope { OnOk result (scope_of scope.new ≡ behind_variable text.now (scope_of scope.old) number.0 (item_of item.now)) }
    ensures globals { OnOk result (map global_view globals.new.items ≡ map global_view globals.old.items
        ++ globals_of text.now (scope_of scope.old) number.0 (item_of item.now)) }
{
    if is_blank(spelled(text, item.name)) {
        return Ok(());
    }
    let global = check_named(alloc, text, scope, number, item)?;
    globals.push(global)?;
    Ok(())
}

/// The functions and the variables of a package, one after the other.
pub fn check_members(
    alloc: Global,
    text: &[u8],
    heads: &Scope,
    scope: &mut Scope,
    members: &[Member],
) -> Result<Members, NoMemory>
    requires { 0 < length scope.old.names }
    ensures funcs { IfOk result (λ r. option_map (λ v. map (func_of (trees (scope_of heads.now).types)) v.items) r.funcs
        ≡ functions text.now (scope_of heads.now) (scope_of scope.old) 0 (member_views members.now)) }
    ensures globals { IfOk result (λ r. map global_view r.globals.items
        ≡ globals text.now (scope_of heads.now) (scope_of scope.old) (member_views members.now)) }
    ensures places { IfOk result (λ r. AreAt (map (λ f. f.name.pos) (functions_of (member_views members.now)))
        (option_map (λ v. v.items) r.funcs)) }
    ensures fault { IfOk result (λ r. IsLeast
        (FailsInFunctions text.now (scope_of heads.now) (scope_of scope.old) 0 (member_views members.now)) r.fault) }
    ensures scope { OnOk result (scope_of scope.new
        ≡ behind_members text.now (scope_of heads.now) (scope_of scope.old) (member_views members.now)) }
{
    let mut funcs = Some(Vec::new(alloc));
    let mut globals = Vec::new(alloc);
    let mut fault = None;
    let mut number: usize = 0;
    for member in members {
        match member {
            Member::Function(f) => {
                let checked = check_function(alloc, text, heads, scope, number, f)?;
                funcs = with_func(funcs, checked.func)?;
                fault = lesser(fault, checked.fault);
                number += 1;
            }
            Member::Variable(value, item) => {
                check_variable(alloc, text, scope, &mut globals, *value, item)?;
            }
        }
    }
    Ok(Members {
        funcs,
        globals,
        fault,
    })
}
