//! The structs of a program, by the types of their fields.

ghost use Rattle.std.specs.Prelude.{◌≡◌, IfOk, OnOk};
ghost use Rattle.std.specs.Option.{option_map};
ghost use Rattle.syntax.specs.Expressions.{ex_of as tree_of};
ghost use Rattle.syntax.specs.Declarations.{field_of, fields_of as tree_fields};
ghost use Rattle.syntax.specs.Declarations.{type_specs_of, declarations_of};
ghost use Rattle.struct_sizes.specs.Structs.{fields_of, structs_of};
ghost use Rattle.names.specs.Scope.{scope_of};
ghost use Rattle.declared_structs.specs.Forms.{base_of, base_in, length_in, prefixed, struct_types, structs_in};
ghost use Rattle.declared_structs.specs.Passing.{view, views, prefixed_after, with_names, with_field, with_specs};

use base::{NoMemory, ValueType};
use expression_types::check_early;
use names::{Declared, Scope, spelled};
use operand_parts::length_of;
use std::alloc::Global;
use struct_sizes::{Base, DeclaredStruct, Prefix, PrefixedType};
use syntax::{Decl, Expr, Field, Name, TypeSpec};

/// What a type begins from that has a name.
fn base_of(value_type: ValueType) -> Option<Base>
    ensures { result ≡ base_of value_type }
{
    match value_type {
        ValueType::Int => Some(Base::Int),
        ValueType::Bool => Some(Base::Bool),
        ValueType::Struct(id) => Some(Base::Struct(id)),
        ValueType::Array(_, _) | ValueType::Pointer(_) | ValueType::Slice(_) => None,
    }
}

fn base_in(declared: Option<Declared>) -> Option<Base>
    ensures { result ≡ base_in declared }
{
    match declared {
        Some(Declared::Type(value_type)) => base_of(value_type),
        _ => None,
    }
}

/// A type with these prefixes, if it has a base.
fn with_base(prefixes: Vec<Prefix>, base: Option<Base>) -> Option<PrefixedType>
    ensures { view result ≡ option_map (λ b. record { prefixes = prefixes.items; base = b }) base }
{
    match base {
        Some(base) => Some(PrefixedType { prefixes, base }),
        None => None,
    }
}

/// The length that an expression gives an array type, if it gives one.
fn length_in(
    alloc: Global,
    text: &[u8],
    scope: &Scope,
    length: &Expr,
) -> Result<Option<u64>, NoMemory>
    ensures { IfOk result (λ n. n ≡ length_in text.now (scope_of scope.now) (tree_of length.now)) }
{
    let single = check_early(alloc, text, scope, length)?;
    match &single.operand {
        Some(operand) => Ok(length_of(operand)),
        None => Ok(None),
    }
}

/// The type that an expression states, after prefixes that stand before it.
#[tactic(auto, using(syntax::proofs::Views::expr_rows))]
fn prefixed_behind(
    alloc: Global,
    text: &[u8],
    scope: &Scope,
    prefixes: Vec<Prefix>,
    e: &Expr,
) -> Result<Option<PrefixedType>, NoMemory>
    ensures { IfOk result (λ r. view r ≡ prefixed_after text.now (scope_of scope.now) prefixes.items (tree_of e.now)) }
{
    match e {
        Expr::Name(name) => Ok(with_base(
            prefixes,
            base_in(scope.declaration(spelled(text, *name))),
        )),
        Expr::Paren(_, inner) => {
            let inner: &Expr = inner;
            prefixed_behind(alloc, text, scope, prefixes, inner)
        }
        Expr::ArrayType(_, length, element) => {
            let Some(length) = length_in(alloc, text, scope, length)? else {
                return Ok(None);
            };
            let mut prefixes = prefixes;
            prefixes.push(Prefix::Array(length))?;
            let element: &Expr = element;
            prefixed_behind(alloc, text, scope, prefixes, element)
        }
        _ => Ok(None),
    }
}

/// A type once more.
fn copied(
    alloc: Global,
    value_type: &Option<PrefixedType>,
) -> Result<Option<PrefixedType>, NoMemory>
    ensures { IfOk result (λ r. view r ≡ view value_type.now) }
{
    match value_type {
        Some(value_type) => Ok(Some(PrefixedType {
            prefixes: Vec::from_slice(alloc, &value_type.prefixes)?,
            base: value_type.base,
        })),
        None => Ok(None),
    }
}

/// Adds a field for each of these names, which share a type.
fn add_each(
    alloc: Global,
    fields: &mut Vec<Option<PrefixedType>>,
    names: &[Name],
    value_type: &Option<PrefixedType>,
) -> Result<(), NoMemory>
    ensures { OnOk result (views fields.new.items ≡ with_names (views fields.old.items) names.now (view value_type.now)) }
{
    for _ in names {
        fields.push(copied(alloc, value_type)?)?;
    }
    Ok(())
}

/// The type that an expression states.
pub fn prefixed(
    alloc: Global,
    text: &[u8],
    scope: &Scope,
    e: &Expr,
) -> Result<Option<PrefixedType>, NoMemory>
    ensures { IfOk result (λ r. view r ≡ prefixed text.now (scope_of scope.now) (tree_of e.now)) }
{
    prefixed_behind(alloc, text, scope, Vec::new(alloc), e)
}

/// Adds the fields that share a type, which is looked at once.
fn add_field(
    alloc: Global,
    text: &[u8],
    scope: &Scope,
    fields: &mut Vec<Option<PrefixedType>>,
    field: &Field,
) -> Result<(), NoMemory>
    ensures { OnOk result (views fields.new.items
        ≡ with_field text.now (scope_of scope.now) (views fields.old.items) (field_of field.now)) }
{
    let value_type = prefixed(alloc, text, scope, &field.type_expr)?;
    add_each(alloc, fields, &field.names, &value_type)
}

/// A struct by the types of its fields.
fn struct_of(
    alloc: Global,
    text: &[u8],
    scope: &Scope,
    fields: &[Field],
) -> Result<DeclaredStruct, NoMemory>
    ensures { IfOk result (λ d. fields_of d ≡ struct_types text.now (scope_of scope.now) (tree_fields fields.now)) }
{
    let mut types = Vec::new(alloc);
    for field in fields {
        add_field(alloc, text, scope, &mut types, field)?;
    }
    Ok(DeclaredStruct { fields: types })
}

/// Adds the structs of a declaration.
fn add_structs(
    alloc: Global,
    text: &[u8],
    scope: &Scope,
    structs: &mut Vec<DeclaredStruct>,
    specs: &[TypeSpec],
) -> Result<(), NoMemory>
    ensures { OnOk result
        (structs_of structs.new.items ≡ with_specs text.now (scope_of scope.now) (structs_of structs.old.items)
        (type_specs_of specs.now)) }
{
    for spec in specs {
        let declared = struct_of(alloc, text, scope, &spec.fields)?;
        structs.push(declared)?;
    }
    Ok(())
}

/// The structs of a program, in the order of the text, by the constants and the names of a scope.
pub fn declared_structs(
    alloc: Global,
    text: &[u8],
    scope: &Scope,
    decls: &[Decl],
) -> Result<Vec<DeclaredStruct>, NoMemory>
    ensures { IfOk result (λ v. structs_of v.items ≡ structs_in text.now (scope_of scope.now) (declarations_of decls.now)) }
{
    let mut structs = Vec::new(alloc);
    for decl in decls {
        if let Decl::Type(_, specs) = decl {
            add_structs(alloc, text, scope, &mut structs, specs)?;
        }
    }
    Ok(structs)
}
