//! The rules that fail in the declarations of constants and variables of a package.

ghost use Rattle.std.specs.Prelude.{◌≡◌, ◌⊎◌, Option, Some, None, IfOk, codes};
ghost use Rattle.std.specs.Option.{option_map};
ghost use Rattle.std.specs.Str.{bytes_eq};
ghost use Rattle.syntax.specs.Expressions.{exs_of, ex_in, spelled};
ghost use Rattle.syntax.specs.Statements.{value_spec_of, value_specs_of};
ghost use Rattle.syntax.specs.Declarations.{declaration_of, declarations_of};
ghost use Rattle.type_faults.specs.Least.{IsLeast};
ghost use Rattle.type_faults.specs.Faults.{IsFault};
ghost use Rattle.names.specs.Universe.{is_blank};
ghost use Rattle.names.specs.Scope.{scope_of, declaration};
ghost use Rattle.given_values.specs.Given.{operand_in};
ghost use Rattle.expression_types.specs.Typing.{seen, stated_type};
ghost use Rattle.given_values.specs.GivenFaults.{SinglesFail, CountFails};
ghost use Rattle.expression_types.specs.Faults.{FailsInEach};
ghost use Rattle.given_values.specs.Passing.{gives_of, seens};
ghost use Rattle.expression_types.specs.Passing.{type_before};
ghost use Rattle.package_values.specs.ValueFaults.{single_count, fitting_value_fault, value_fault, ValuesFail, EarlyFail, is_this_value, value_name_fault, asked_before, SpecFails, SpecsFail, form_fault, FormsFail, is_bare, InitialsFail, VariablesFail, AllVariablesFail, first_of, cycle_place, DeclarationsFail, NamesFail, Recurs, ItemsFail};
ghost use Rattle.package_values.specs.Passing.{item_views, DeclarationFails, recursion_fault, is_marked};

use crate::items::{Item, Role, items_in};
use crate::needs::{has_form, needs};
use crate::values::constant_in;
use base::{NoMemory, Pos, ValueType};
use components::strong_components;
use expression_types::{
    Stated, check_before, check_list, early_value_fault, fault_before, spec_wanted,
};
use given_values::{
    agrees, are_single, count_fault, is_single, singles_fault, take_fault, wanted_by,
};
use names::{Declared, Scope, is_blank, spelled};
use operators::held_fault;
use std::alloc::Global;
use syntax::{Decl, Expr, Name, ValueSpec};
use type_faults::{Fault, FaultKind, lesser};

/// The type that stands before the names of a declaration, where one is known.
fn type_asked(stated: &Option<Stated>) -> Option<ValueType>
    ensures { result ≡ asked_before (type_before stated.now) }
{
    match stated {
        Some(stated) => stated.value_type,
        None => None,
    }
}

/// How many values there are, where each expression gives one.
fn single_count(items: &[given_values::Item]) -> Option<usize>
    ensures { result ≡ single_count (seens items.now) }
{
    if are_single(items) {
        Some(items.len())
    } else {
        None
    }
}

/// The fault of a value of a type that a declaration has or not: of another type, beyond the type, or no constant.
fn value_fault(value_type: Option<ValueType>, item: &given_values::Item) -> Option<Fault>
    ensures { result ≡ value_fault value_type item.now.pos (operand_in (option_map gives_of item.now.gives)) }
{
    if !is_single(&item.gives) {
        return None;
    }
    if !agrees(wanted_by(value_type), &item.gives) {
        return Some(Fault {
            kind: FaultKind::Mismatch,
            pos: item.pos,
        });
    }
    match constant_in(&item.gives) {
        Some(fixed) => held_fault(value_type, item.pos, fixed.value),
        None => Some(Fault {
            kind: FaultKind::Unfit,
            pos: item.pos,
        }),
    }
}

fn values_fault(value_type: Option<ValueType>, items: &[given_values::Item]) -> Option<Fault>
    ensures { IsLeast (ValuesFail value_type (seens items.now)) result }
{
    let mut fault = None;
    for item in items {
        fault = lesser(fault, value_fault(value_type, item));
    }
    fault
}

/// The fault of values that are worked out by `len` or `cap`.
fn early_faults(values: &[Expr], items: &[given_values::Item]) -> Option<Fault>
    ensures { IsLeast (EarlyFail (exs_of values.now) (seens items.now)) result }
{
    let mut fault = None;
    for index in 0..values.len().min(items.len()) {
        fault = lesser(
            fault,
            early_value_fault(&values[index], &items[index].gives),
        );
    }
    fault
}

/// The fault of one declaration of a `const` whose word stands at a place: of its type, its values and their number.
fn spec_fault(
    alloc: Global,
    text: &[u8],
    scope: &Scope,
    pos: Pos,
    spec: &ValueSpec,
) -> Result<Option<Fault>, NoMemory>
    ensures { IfOk result (λ r. IsLeast (SpecFails text.now (scope_of scope.now) pos (value_spec_of spec.now)) r) }
{
    let stated = check_before(alloc, text, scope, &spec.type_expr)?;
    let listed = check_list(alloc, text, scope, &spec.values)?;
    let own = Fault {
        kind: FaultKind::WrongCount,
        pos,
    };
    let expressions = lesser(listed.fault, singles_fault(&listed.items));
    let typed = lesser(fault_before(&stated), expressions);
    let counted = lesser(
        count_fault(single_count(&listed.items), spec.names.len(), own),
        early_faults(&spec.values, &listed.items),
    );
    let values = lesser(values_fault(type_asked(&stated), &listed.items), counted);
    Ok(lesser(typed, values))
}

/// The fault of the declarations of a `const` whose word stands at a place.
fn specs_fault(
    alloc: Global,
    text: &[u8],
    scope: &Scope,
    pos: Pos,
    specs: &[ValueSpec],
) -> Result<Option<Fault>, NoMemory>
    ensures { IfOk result (λ r. IsLeast (SpecsFail text.now (scope_of scope.now) pos (value_specs_of specs.now)) r) }
{
    let mut fault = None;
    for spec in specs {
        let own = spec_fault(alloc, text, scope, pos, spec)?;
        fault = lesser(fault, own);
    }
    Ok(fault)
}

fn form_fault(has_form: bool, pos: Pos) -> Option<Fault>
    ensures { result ≡ form_fault has_form pos }
{
    if has_form {
        None
    } else {
        Some(Fault {
            kind: FaultKind::OutOfProfile,
            pos,
        })
    }
}

/// The fault of values that begin variables and have not the form of constants.
fn forms_fault(text: &[u8], scope: &Scope, values: &[Expr]) -> Option<Fault>
    ensures { IsLeast (FormsFail text.now (scope_of scope.now) (exs_of values.now)) result }
{
    let mut fault = None;
    for value in values {
        fault = lesser(fault, form_fault(has_form(text, scope, value), value.pos()));
    }
    fault
}

/// Whether a variable begins with the zero value of the type that stands there.
fn is_bare(type_expr: &Option<Expr>, values: &[Expr]) -> bool
    ensures { result ≡ is_bare (ex_in type_expr.now) (exs_of values.now) }
{
    match type_expr {
        Some(_) => values.is_empty(),
        None => false,
    }
}

/// The fault of the values of a declaration of a `var`, where there are to be some.
fn initials_fault(
    alloc: Global,
    text: &[u8],
    scope: &Scope,
    pos: Pos,
    spec: &ValueSpec,
    stated: &Option<Stated>,
    items: &[given_values::Item],
) -> Result<Option<Fault>, NoMemory>
    requires types { type_before stated.now ≡ option_map (stated_type text.now (scope_of scope.now)) (ex_in spec.now.type_expr) }
    requires values { seens items.now ≡ seen text.now (scope_of scope.now) (exs_of spec.now.values.items) }
    ensures { IfOk result (λ r. IsLeast (InitialsFail text.now (scope_of scope.now)
        (is_bare (ex_in spec.now.type_expr) (exs_of spec.now.values.items)) pos (value_spec_of spec.now)) r) }
{
    if is_bare(&spec.type_expr, &spec.values) {
        return Ok(None);
    }
    let own = Fault {
        kind: FaultKind::WrongCount,
        pos,
    };
    let wanted = spec_wanted(alloc, stated, &spec.names)?;
    let taken = take_fault(own, &wanted, items);
    Ok(lesser(taken, forms_fault(text, scope, &spec.values)))
}

/// The fault of one declaration of a `var` whose word stands at a place: of its type, its values, their number and their form.
fn variables_fault(
    alloc: Global,
    text: &[u8],
    scope: &Scope,
    pos: Pos,
    spec: &ValueSpec,
) -> Result<Option<Fault>, NoMemory>
    ensures { IfOk result (λ r. IsLeast (VariablesFail text.now (scope_of scope.now) pos (value_spec_of spec.now)) r) }
{
    let stated = check_before(alloc, text, scope, &spec.type_expr)?;
    let listed = check_list(alloc, text, scope, &spec.values)?;
    let initials = initials_fault(alloc, text, scope, pos, spec, &stated, &listed.items)?;
    let typed = lesser(fault_before(&stated), listed.fault);
    Ok(lesser(typed, initials))
}

/// The fault of the declarations of a `var` whose word stands at a place.
fn all_variables_fault(
    alloc: Global,
    text: &[u8],
    scope: &Scope,
    pos: Pos,
    specs: &[ValueSpec],
) -> Result<Option<Fault>, NoMemory>
    ensures { IfOk result (λ r. IsLeast (AllVariablesFail text.now (scope_of scope.now) pos (value_specs_of specs.now)) r) }
{
    let mut fault = None;
    for spec in specs {
        let own = variables_fault(alloc, text, scope, pos, spec)?;
        fault = lesser(fault, own);
    }
    Ok(fault)
}

/// The fault of a declaration that is one of constants or of variables.
fn declaration_fault(
    alloc: Global,
    text: &[u8],
    scope: &Scope,
    decl: &Decl,
) -> Result<Option<Fault>, NoMemory>
    ensures { IfOk result (λ r. IsLeast (DeclarationFails text.now (scope_of scope.now) (declaration_of decl.now)) r) }
{
    match decl {
        Decl::Const(pos, specs) => specs_fault(alloc, text, scope, *pos, specs),
        Decl::Var(pos, specs) => all_variables_fault(alloc, text, scope, *pos, specs),
        _ => Ok(None),
    }
}

fn declarations_fault(
    alloc: Global,
    text: &[u8],
    scope: &Scope,
    decls: &[Decl],
) -> Result<Option<Fault>, NoMemory>
    ensures { IfOk result (λ r. IsLeast (DeclarationsFail text.now (scope_of scope.now) (declarations_of decls.now)) r) }
{
    let mut fault = None;
    for decl in decls {
        let own = declaration_fault(alloc, text, scope, decl)?;
        fault = lesser(fault, own);
    }
    Ok(fault)
}

fn is_this_value(number: usize, declared: Option<Declared>) -> bool
    ensures { result ≡ is_this_value number declared }
{
    match declared {
        Some(Declared::Constant(value) | Declared::Global(value, _)) => value.0 as usize == number,
        _ => false,
    }
}

/// The fault of the name of the constant or variable of a number: `init` is none, and the first declaration of a name stays.
fn value_name_fault(
    number: usize,
    is_blank: bool,
    is_init: bool,
    declared: Option<Declared>,
    pos: Pos,
) -> Option<Fault>
    ensures { result ≡ value_name_fault number is_blank is_init declared pos }
{
    if is_blank {
        return None;
    }
    let kind = if is_init {
        FaultKind::OutOfProfile
    } else if is_this_value(number, declared) {
        return None;
    } else {
        FaultKind::Redeclared
    };
    Some(Fault { kind, pos })
}

fn name_fault(text: &[u8], scope: &Scope, number: usize, name: Name) -> Option<Fault>
    ensures { result ≡ value_name_fault number (is_blank (spelled text.now name))
        (bytes_eq (spelled text.now name) (codes "init")) (declaration (scope_of scope.now) (spelled text.now name)) name.pos }
{
    let bytes = spelled(text, name);
    value_name_fault(
        number,
        is_blank(bytes),
        bytes == "init".as_bytes(),
        scope.declaration(bytes),
        name.pos,
    )
}

/// The fault of the names of the constants and variables.
fn names_fault(text: &[u8], scope: &Scope, items: &[Item]) -> Option<Fault>
    ensures { IsLeast (NamesFail text.now (scope_of scope.now) 0 (item_views items.now)) result }
{
    let mut fault = None;
    for index in 0..items.len() {
        fault = lesser(fault, name_fault(text, scope, index, items[index].name));
    }
    fault
}

/// Where the first of some names stands, if there is one.
fn first_of(pos: Pos, names: &[Name]) -> Pos
    ensures { result ≡ first_of pos names.now }
{
    match names.first() {
        Some(name) => name.pos,
        None => pos,
    }
}

/// Where a constant or variable that needs itself is reported: a constant at its name, and a variable at the first name of its declaration.
fn cycle_pos(item: &Item) -> Pos
    ensures { result ≡ cycle_place item.now.role item.now.name item.now.names.now }
{
    match item.role {
        Role::Constant => item.name.pos,
        Role::Variable => first_of(item.name.pos, item.names),
    }
}

/// The fault of a constant or variable, where it needs itself.
fn item_recursion(needs_itself: bool, pos: Pos) -> Option<Fault>
    ensures { result ≡ recursion_fault needs_itself pos }
{
    if needs_itself {
        Some(Fault {
            kind: FaultKind::SelfReference,
            pos,
        })
    } else {
        None
    }
}

fn is_marked(marks: &[bool], number: usize) -> bool
    ensures { result ≡ is_marked marks.now number }
{
    match marks.get(number) {
        Some(mark) => *mark,
        None => false,
    }
}

/// The fault of the constants and variables that need themselves.
fn recursion_fault(
    alloc: Global,
    text: &[u8],
    scope: &Scope,
    items: &[Item],
) -> Result<Option<Fault>, NoMemory>
    ensures { IfOk result (λ r. IsLeast (Recurs text.now (scope_of scope.now) (item_views items.now)) r) }
{
    let needs = needs(alloc, text, scope, items)?;
    let found = strong_components(alloc, &needs)?;
    let on_cycles = found.on_cycles(alloc, &needs)?;
    let mut fault = None;
    for index in 0..items.len() {
        let needs_itself = is_marked(&on_cycles, index);
        let own = item_recursion(needs_itself, cycle_pos(&items[index]));
        fault = lesser(fault, own);
    }
    Ok(fault)
}

/// Of the rules that fail in the declarations of constants and variables of a package, the one with the least offset, then the least number,
/// where all is known of these that can be.
pub fn items_fault(
    alloc: Global,
    text: &[u8],
    scope: &Scope,
    decls: &[Decl],
) -> Result<Option<Fault>, NoMemory>
    ensures { IfOk result (λ r. IsLeast (ItemsFail text.now (scope_of scope.now) (declarations_of decls.now)) r) }
{
    let items = items_in(alloc, decls)?;
    let declared = declarations_fault(alloc, text, scope, decls)?;
    let recursion = recursion_fault(alloc, text, scope, &items)?;
    let named = names_fault(text, scope, &items);
    Ok(lesser(declared, lesser(named, recursion)))
}
