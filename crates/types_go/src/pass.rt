//! The pass over a package: its names, the types of the program, its block, and what it has one after the other.

ghost use Rattle.std.specs.Prelude.{◌≡◌, IfOk, map};
ghost use Rattle.std.specs.Option.{option_map};
ghost use Rattle.syntax.specs.declared.expression.Name.{Name as NameOf};
ghost use Rattle.syntax.specs.Declarations.{declarations_of};
ghost use Rattle.typed.specs.Formed.{IsFormed};
ghost use Rattle.type_faults.specs.Least.{IsLeast};
ghost use Rattle.names.specs.Scope.{scope_of};
ghost use Rattle.types_go.specs.Functions.{IsHeads};
ghost use Rattle.types_go.specs.FunctionFaults.{SizesFail, IsOpen};
ghost use Rattle.types_go.specs.Passing.{syntax_with, constants_of, block_of, rule_or_open, IsOfPackage, IsPassed};

use crate::functions::check_members;
use crate::members::members_in;
use base::{FuncId, NoMemory, ValueType};
use declared_structs::{ProgramTypes, declarations_fault, program_types, structs_open};
use entered_types::enter_types;
use function_heads::{add_items, declaration_faults, heads_open, main_number, no_main_fault};
use names::{Scope, beginning};
use package_values::{items_fault, settle};
use signatures::add_heads;
use std::alloc::Global;
use syntax::{Decl, Name};
use type_faults::{Fault, lesser};
use typed::{PackageVariable, Site, TypeTable};

/// All that holds of tables of types holds of this one.
fn hold_form(types: &TypeTable)
    ensures { IsFormed types.now }
{
    let _ = types.find(ValueType::Int);
}

/// What a package declares but for its functions, where all is known of its constants that can be.
fn constants_scope(alloc: Global, text: &[u8], decls: &[Decl]) -> Result<Scope, NoMemory>
    ensures { IfOk result (λ s. scope_of s ≡ constants_of text.now (declarations_of decls.now)) }
{
    let mut scope = beginning(alloc)?;
    add_heads(alloc, text, &mut scope, decls)?;
    settle(alloc, text, &mut scope, decls)?;
    Ok(scope)
}

/// The names of a package, with the types of the program, and the fault of the sizes of its structs.
#[derive(Drop)]
struct Names {
    heads: Scope,
    sizes_fault: Option<Fault>,
}

/// The names of a package, with the types of the program.
fn package_names(alloc: Global, text: &[u8], decls: &[Decl]) -> Result<Names, NoMemory>
    ensures heads { IfOk result
        (λ n. (own_name : NameOf) → IsHeads (syntax_with text.now own_name (declarations_of decls.now)) (scope_of n.heads)) }
    ensures sizes { IfOk result
        (λ n. (own_name : NameOf) → IsLeast (SizesFail
        (syntax_with text.now own_name (declarations_of decls.now))) n.sizes_fault) }
    ensures formed { IfOk result (λ n. IsFormed (scope_of n.heads).types) }
{
    let mut heads = constants_scope(alloc, text, decls)?;
    let ProgramTypes { table, fault } = program_types(alloc, text, &heads, decls)?;
    heads.types = table;
    enter_types(alloc, text, &mut heads, decls)?;
    hold_form(&heads.types);
    Ok(Names {
        heads,
        sizes_fault: fault,
    })
}

/// The package block, which begins with the types of the program, where all is known of the constants and variables that can be.
fn package_block(
    alloc: Global,
    text: &[u8],
    heads: &Scope,
    types: TypeTable,
    decls: &[Decl],
) -> Result<Scope, NoMemory>
    ensures { IfOk result (λ s. scope_of s ≡ block_of text.now (scope_of heads.now) types (declarations_of decls.now)) }
{
    let mut scope = beginning(alloc)?;
    scope.types = types;
    add_items(alloc, text, heads, &mut scope, decls)?;
    settle(alloc, text, &mut scope, decls)?;
    Ok(scope)
}

/// The fault of the declarations of a package, by that of the sizes of its structs.
fn package_fault(
    alloc: Global,
    text: &[u8],
    heads: &Scope,
    scope: &Scope,
    decls: &[Decl],
    sizes_fault: Option<Fault>,
) -> Result<Option<Fault>, NoMemory>
    ensures { IfOk result
        (λ r. IsOfPackage text.now (scope_of heads.now) (scope_of scope.now) (declarations_of decls.now) sizes_fault r) }
{
    let functions = declaration_faults(alloc, text, heads, scope, decls)?;
    let structs = declarations_fault(alloc, text, scope, decls)?;
    let values = items_fault(alloc, text, scope, decls)?;
    Ok(lesser(functions, lesser(lesser(sizes_fault, structs), values)))
}

/// The fault of functions of which the types in their heads aren't known, and of structs that are no types.
fn open_fault(
    alloc: Global,
    text: &[u8],
    heads: &Scope,
    decls: &[Decl],
) -> Result<Option<Fault>, NoMemory>
    ensures { IfOk result (λ r. (own_name : NameOf)
        → IsLeast (IsOpen (syntax_with text.now own_name (declarations_of decls.now)) (scope_of heads.now)) r) }
{
    let functions = heads_open(alloc, text, heads, decls)?;
    let structs = structs_open(alloc, &heads.types, decls)?;
    Ok(lesser(functions, structs))
}

/// The fault of a rule, or else of what is open.
fn rule_or_open(rules: Option<Fault>, others: Option<Fault>) -> Option<Fault>
    ensures { result ≡ rule_or_open rules others }
{
    match rules {
        Some(_) => rules,
        None => others,
    }
}

/// What the pass finds: the number of `main`, the typed functions, where all have a typed form, the sites and the bytes of their names, the
/// types, the strings, the package variables with a name, and the fault.
#[derive(Drop)]
pub struct Passed {
    pub main: Option<FuncId>,
    pub funcs: Option<Vec<typed::Func>>,
    pub sites: Vec<Site>,
    pub names: Vec<u8>,
    pub types: TypeTable,
    pub strings: Vec<Vec<u8>>,
    pub globals: Vec<PackageVariable>,
    pub fault: Option<Fault>,
}

/// The pass over a text with the name of its package and its declarations.
pub fn pass(alloc: Global, text: &[u8], own_name: Name, decls: &[Decl]) -> Result<Passed, NoMemory>
    ensures { IfOk result (λ r. IsPassed (syntax_with text.now own_name (declarations_of decls.now))
        (option_map (λ f. f.0) r.main) (option_map (λ v. v.items) r.funcs) r.sites.items r.names.items r.types
        (map (λ string. string.items) r.strings.items) r.globals.items r.fault) }
{
    let Names { heads, sizes_fault } = package_names(alloc, text, decls)?;
    // A scope has a table of its own, so that of the block is made anew.
    let Names {
        heads: others,
        sizes_fault: _,
    } = package_names(alloc, text, decls)?;
    let mut scope = package_block(alloc, text, &heads, others.types, decls)?;
    let main = main_number(alloc, text, &heads, &scope, own_name, decls)?;
    let declared = package_fault(alloc, text, &heads, &scope, decls, sizes_fault)?;
    let open = open_fault(alloc, text, &heads, decls)?;
    let members = members_in(alloc, text, &heads, decls)?;
    let checked = check_members(alloc, text, &heads, &mut scope, &members)?;
    let main_fault = no_main_fault(main.is_none());
    let rules = lesser(main_fault, lesser(declared, checked.fault));
    Ok(Passed {
        main,
        funcs: checked.funcs,
        sites: scope.sites,
        names: scope.site_names,
        types: heads.types,
        strings: scope.strings,
        globals: checked.globals,
        fault: rule_or_open(rules, open),
    })
}
