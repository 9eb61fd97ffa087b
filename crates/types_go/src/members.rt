//! What a package has one after the other: functions that have numbers, and package variables.

ghost use Rattle.std.specs.Prelude.{◌≡◌, ◌++◌, ◌∷◌, [], IfOk, OnOk, map, length, drop, if◌then◌else◌};
ghost use Rattle.syntax.specs.Declarations.{function_of, declaration_of, declarations_of};
ghost use Rattle.names.specs.Scope.{scope_of};
ghost use Rattle.function_heads.specs.PackageBlock.{is_external};
ghost use Rattle.package_values.specs.Passing.{item_views, items_of_decl};
ghost use Rattle.types_go.specs.Functions.{of_function, numbered, members_in};
ghost use Rattle.types_go.specs.Passing.{member_views, members_of_decl};

use base::NoMemory;
use function_heads::is_external;
use names::{Scope, ValueId};
use package_values::{Item, add_decl};
use std::alloc::Global;
use syntax::{Decl, Func};

/// A function, or a package variable by its number among the constants and variables.
#[derive(Clone, Copy)]
pub enum Member<'a> {
    Function(&'a Func),
    Variable(ValueId, Item<'a>),
}

/// The package variables from a number on.
fn add_variables<'a>(
    members: &mut Vec<Member<'a>>,
    items: &[Item<'a>],
    from: usize,
) -> Result<(), NoMemory>
    ensures { OnOk result (member_views members.new.items ≡ member_views members.old.items
        ++ numbered from (item_views (drop from items.now))) }
{
    for index in from..items.len() {
        let Ok(number) = u32::try_from(index) else {
            return Err(NoMemory);
        };
        members.push(Member::Variable(ValueId(number), items[index]))?;
    }
    Ok(())
}

/// The variables of a declaration, after the constants and variables so far.
fn add_declared<'a>(
    members: &mut Vec<Member<'a>>,
    items: &mut Vec<Item<'a>>,
    decl: &'a Decl,
) -> Result<(), NoMemory>
    ensures members { OnOk result (member_views members.new.items ≡ member_views members.old.items
        ++ numbered (length (item_views items.old.items)) (items_of_decl (declaration_of decl.now))) }
    ensures items { OnOk result (item_views items.new.items ≡ item_views items.old.items
        ++ items_of_decl (declaration_of decl.now)) }
{
    let from = items.len();
    add_decl(items, decl)?;
    add_variables(members, items, from)
}

/// A function, unless it is one of the two without a body.
fn add_function<'a>(
    alloc: Global,
    text: &[u8],
    heads: &Scope,
    members: &mut Vec<Member<'a>>,
    f: &'a Func,
) -> Result<(), NoMemory>
    ensures { OnOk result (member_views members.new.items ≡ member_views members.old.items
        ++ (if is_external text.now (scope_of heads.now) (function_of f.now) then [] else of_function (function_of f.now) ∷ [])) }
{
    let external = is_external(alloc, text, heads, f)?;
    if external {
        return Ok(());
    }
    members.push(Member::Function(f))?;
    Ok(())
}

/// What a declaration has, after the constants and variables so far.
fn add_members<'a>(
    alloc: Global,
    text: &[u8],
    heads: &Scope,
    members: &mut Vec<Member<'a>>,
    items: &mut Vec<Item<'a>>,
    decl: &'a Decl,
) -> Result<(), NoMemory>
    ensures members { OnOk result (member_views members.new.items ≡ member_views members.old.items
        ++ members_of_decl text.now (scope_of heads.now) (length (item_views items.old.items)) (declaration_of decl.now)) }
    ensures items { OnOk result (item_views items.new.items ≡ item_views items.old.items
        ++ items_of_decl (declaration_of decl.now)) }
{
    match decl {
        Decl::Const(_, _) => add_decl(items, decl),
        Decl::Var(_, _) => add_declared(members, items, decl),
        Decl::Type(_, _) => Ok(()),
        Decl::Func(f) => add_function(alloc, text, heads, members, f),
    }
}

/// The functions that have numbers and the package variables, in the order of the text.
pub fn members_in<'a>(
    alloc: Global,
    text: &[u8],
    heads: &Scope,
    decls: &'a [Decl],
) -> Result<Vec<Member<'a>>, NoMemory>
    ensures { IfOk result (λ v. member_views v.items ≡ members_in text.now (scope_of heads.now) 0 (declarations_of decls.now)) }
{
    let mut members = Vec::new(alloc);
    let mut items = Vec::new(alloc);
    for decl in decls {
        add_members(alloc, text, heads, &mut members, &mut items, decl)?;
    }
    Ok(members)
}
