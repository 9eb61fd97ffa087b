//! The constants and the package variables of a package one by one, in the order of the text.

ghost use Rattle.std.specs.Prelude.{◌≡◌, ◌++◌, IfOk, OnOk, map};
ghost use Rattle.syntax.specs.Expressions.{exs_of, ex_in};
ghost use Rattle.syntax.specs.Statements.{value_spec_of, value_specs_of};
ghost use Rattle.syntax.specs.Declarations.{declaration_of, declarations_of};
ghost use Rattle.package_values.specs.Values.{unvalued, items_of, items_in_specs, items_in};
ghost use Rattle.package_values.specs.Passing.{item_views, pairs, items_of_decl};

use base::NoMemory;
use std::alloc::Global;
use syntax::{Decl, Expr, Name, ValueSpec};

/// Whether a declaration is one of constants or of variables.
#[derive(Clone, Copy, Debug, PartialEq, Eq)]
pub enum Role {
    Constant,
    Variable,
}

/// One constant or package variable: its name, all names of its declaration, and which of them it is; the type that stands there, its own
/// value, where there are as many values as names, and all values of its declaration.
#[derive(Clone, Copy)]
pub struct Item<'a> {
    pub role: Role,
    pub name: Name,
    pub names: &'a [Name],
    pub place: usize,
    pub type_expr: &'a Option<Expr>,
    pub value: Option<&'a Expr>,
    pub values: &'a [Expr],
}

/// The names of a declaration with as many values as names.
fn add_valued<'a>(
    items: &mut Vec<Item<'a>>,
    role: Role,
    type_expr: &'a Option<Expr>,
    names: &'a [Name],
    values: &'a [Expr],
) -> Result<(), NoMemory>
    ensures { OnOk result (item_views items.new.items ≡ item_views items.old.items
        ++ pairs role names.now (ex_in type_expr.now) (exs_of values.now) 0 names.now values.now) }
{
    for index in 0..names.len().min(values.len()) {
        items.push(Item {
            role,
            name: names[index],
            names,
            place: index,
            type_expr,
            value: Some(&values[index]),
            values,
        })?;
    }
    Ok(())
}

/// The names of a declaration with another number of values.
fn add_unvalued<'a>(
    items: &mut Vec<Item<'a>>,
    role: Role,
    type_expr: &'a Option<Expr>,
    names: &'a [Name],
    values: &'a [Expr],
) -> Result<(), NoMemory>
    ensures { OnOk result (item_views items.new.items ≡ item_views items.old.items
        ++ unvalued role names.now (ex_in type_expr.now) (exs_of values.now) 0 names.now) }
{
    for index in 0..names.len() {
        items.push(Item {
            role,
            name: names[index],
            names,
            place: index,
            type_expr,
            value: None,
            values,
        })?;
    }
    Ok(())
}

/// The names of one declaration.
fn add_spec<'a>(items: &mut Vec<Item<'a>>, role: Role, spec: &'a ValueSpec) -> Result<(), NoMemory>
    ensures { OnOk result (item_views items.new.items ≡ item_views items.old.items ++ items_of role (value_spec_of spec.now)) }
{
    if spec.names.len() == spec.values.len() {
        add_valued(items, role, &spec.type_expr, &spec.names, &spec.values)
    } else {
        add_unvalued(items, role, &spec.type_expr, &spec.names, &spec.values)
    }
}

/// The names of the declarations of one `const` or `var`.
fn add_specs<'a>(
    items: &mut Vec<Item<'a>>,
    role: Role,
    specs: &'a [ValueSpec],
) -> Result<(), NoMemory>
    ensures { OnOk result (item_views items.new.items ≡ item_views items.old.items
        ++ items_in_specs role (value_specs_of specs.now)) }
{
    for spec in specs {
        add_spec(items, role, spec)?;
    }
    Ok(())
}

/// The names of a declaration, if it is one of constants or variables.
pub fn add_decl<'a>(items: &mut Vec<Item<'a>>, decl: &'a Decl) -> Result<(), NoMemory>
    ensures { OnOk result (item_views items.new.items ≡ item_views items.old.items ++ items_of_decl (declaration_of decl.now)) }
{
    match decl {
        Decl::Const(_, specs) => add_specs(items, Role::Constant, specs),
        Decl::Var(_, specs) => add_specs(items, Role::Variable, specs),
        Decl::Type(_, _) | Decl::Func(_) => Ok(()),
    }
}

/// The constants and variables of a package, which have numbers in this order.
pub fn items_in<'a>(alloc: Global, decls: &'a [Decl]) -> Result<Vec<Item<'a>>, NoMemory>
    ensures { IfOk result (λ v. item_views v.items ≡ items_in (declarations_of decls.now)) }
{
    let mut items = Vec::new(alloc);
    for decl in decls {
        add_decl(&mut items, decl)?;
    }
    Ok(items)
}
