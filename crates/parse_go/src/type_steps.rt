//! The steps of the machine of struct types.

ghost use Rattle.std.specs.Prelude.{◌≡◌, ◌≤◌, suc, IfOk, Ok, ◌++◌, ◌∷◌, []};
ghost use Rattle.syntax.specs.Expressions.{ex_of};
ghost use Rattle.syntax.specs.Declarations.{type_spec_of, type_specs_of};
ghost use Rattle.parse_go.specs.TypeSpecs.{at_first, at_spec, at_struct, at_brace, at_field, at_next_name, at_names};
ghost use Rattle.parse_go.specs.TypeSpecs.{at_end, at_group_end, behind_type, spec_of, goes, spot_depth, with_field};
ghost use Rattle.parse_go.specs.TypeSpecs.{step, nesting, nesting_in_braces, nesting_at_end};
ghost use Rattle.parse_go.specs.TypeSpots.{spot_of, struct_of};
ghost use Rattle.parse_go.specs.TypeStates.{types_of, Steps};

use crate::type_specs::{InFieldType, TypeSpecs, TypesProgress};
use crate::type_spot::{StructFields, TypeSpot};
use parse_expressions::{Progress, StepFault, Terminal, step, type_wanted};
use std::alloc::{AllocError, Global};
use syntax::{Expr, Field, Name, TypeSpec};

/// One token more.
pub fn step_types(
    alloc: Global,
    state: TypeSpecs,
    token: Terminal,
) -> Result<TypesProgress, StepFault>
    ensures { let s = types_of state in Steps result (step s token) (nesting s token) }
{
    match state {
        TypeSpecs::First => first(alloc, token),
        TypeSpecs::Spec(specs) => spec(specs, token),
        TypeSpecs::Struct(spot, name) => struct_word(spot, name, token),
        TypeSpecs::Brace(spot, name) => brace(alloc, spot, name, token),
        TypeSpecs::Field(owner) => field(alloc, owner, token),
        TypeSpecs::NextName(owner, names) => next_name(owner, names, token),
        TypeSpecs::Names(owner, names) => behind_names(alloc, owner, names, token),
        TypeSpecs::Type(reading) => in_type(alloc, reading, token),
        TypeSpecs::End(spot, spec) => spec_ends(alloc, spot, spec, token),
        TypeSpecs::GroupEnd(specs) => Ok(TypesProgress::Ends(specs)),
    }
}

/// A token after the word `type`.
fn first(alloc: Global, token: Terminal) -> Result<TypesProgress, StepFault>
    ensures { Steps result (step at_first token) (nesting at_first token) }
{
    match token {
        Terminal::Identifier(name) => {
            Ok(TypesProgress::Goes(TypeSpecs::Struct(TypeSpot::Alone, name)))
        }
        Terminal::LeftParen(_) => Ok(TypesProgress::Goes(TypeSpecs::Spec(Vec::new(alloc)))),
        _ => Err(StepFault::Unexpected),
    }
}

/// A token in parentheses after the opening one or a semicolon.
fn spec(specs: Vec<TypeSpec>, token: Terminal) -> Result<TypesProgress, StepFault>
    ensures { let s = at_spec (type_specs_of specs.items) in
        Steps result (step s token) (nesting s token) }
{
    match token {
        Terminal::Identifier(name) => Ok(TypesProgress::Goes(TypeSpecs::Struct(
            TypeSpot::Group(specs),
            name,
        ))),
        Terminal::RightParen => Ok(TypesProgress::Goes(TypeSpecs::GroupEnd(specs))),
        _ => Err(StepFault::Unexpected),
    }
}

/// A token after the name of a type.
#[tactic(auto, using(crate::proofs::TypeSteps::shallow))]
fn struct_word(spot: TypeSpot, name: Name, token: Terminal) -> Result<TypesProgress, StepFault>
    ensures { let s = at_struct (spot_of spot) name in
        Steps result (step s token) (nesting s token) }
{
    match token {
        Terminal::Struct => Ok(TypesProgress::Goes(TypeSpecs::Brace(spot, name))),
        _ => Err(StepFault::Unexpected),
    }
}

/// A token after the word `struct`.
#[tactic(auto, using(crate::proofs::TypeSteps::shallow))]
fn brace(
    alloc: Global,
    spot: TypeSpot,
    name: Name,
    token: Terminal,
) -> Result<TypesProgress, StepFault>
    ensures { let s = at_brace (spot_of spot) name in
        Steps result (step s token) (nesting s token) }
{
    match token {
        Terminal::LeftBrace(_) => Ok(TypesProgress::Goes(TypeSpecs::Field(StructFields {
            spot,
            name,
            fields: Vec::new(alloc),
        }))),
        _ => Err(StepFault::Unexpected),
    }
}

/// The closing brace was read.
fn closed(owner: StructFields) -> TypesProgress
    ensures { let s = struct_of owner in
        Steps (Ok result) (goes (at_end s.spot (spec_of s))) (spot_depth s.spot) }
{
    let StructFields { spot, name, fields } = owner;
    TypesProgress::Goes(TypeSpecs::End(spot, TypeSpec { name, fields }))
}

/// A token in braces after the opening one or a semicolon.
#[tactic(auto, using(crate::proofs::TypeSteps::shallow))]
fn field(alloc: Global, owner: StructFields, token: Terminal) -> Result<TypesProgress, StepFault>
    ensures { let s = at_field (struct_of owner) in
        Steps result (step s token) (nesting s token) }
{
    match token {
        Terminal::Identifier(name) => Ok(TypesProgress::Goes(TypeSpecs::Names(
            owner,
            vec![in alloc; name]?,
        ))),
        Terminal::RightBrace(_) => Ok(closed(owner)),
        _ => Err(StepFault::Unexpected),
    }
}

/// A token after names and a comma.
#[tactic(auto, using(crate::proofs::TypeSteps::shallow))]
fn next_name(
    owner: StructFields,
    mut names: Vec<Name>,
    token: Terminal,
) -> Result<TypesProgress, StepFault>
    ensures { let s = at_next_name (struct_of owner) names.items in
        Steps result (step s token) (nesting s token) }
{
    match token {
        Terminal::Identifier(name) => {
            names.push(name)?;
            Ok(TypesProgress::Goes(TypeSpecs::Names(owner, names)))
        }
        _ => Err(StepFault::Unexpected),
    }
}

/// Inside of how many brackets a field of a struct type stands.
fn field_depth(spot: &TypeSpot) -> usize
    ensures value { result ≡ suc (spot_depth (spot_of spot.now)) }
    ensures small { result ≤ 2 }
{
    match spot {
        TypeSpot::Alone => 1,
        TypeSpot::Group(_) => 2,
    }
}

/// A token after the last of some names.
#[tactic(auto, using(crate::proofs::TypeSteps::shallow))]
fn behind_names(
    alloc: Global,
    owner: StructFields,
    names: Vec<Name>,
    token: Terminal,
) -> Result<TypesProgress, StepFault>
    ensures { let s = at_names (struct_of owner) names.items in
        Steps result (step s token) (nesting s token) }
{
    match token {
        Terminal::Comma => Ok(TypesProgress::Goes(TypeSpecs::NextName(owner, names))),
        _ => {
            let reading = type_wanted(alloc, field_depth(&owner.spot));
            in_type(
                alloc,
                InFieldType {
                    owner,
                    names,
                    reading,
                },
                token,
            )
        }
    }
}

/// The fields so far, and some with a type more.
#[tactic(auto, using(crate::proofs::Rows::fields_push))]
fn with_field(
    owner: StructFields,
    names: Vec<Name>,
    type_expr: Expr,
) -> Result<StructFields, AllocError>
    ensures { IfOk result
        (λ s. struct_of s ≡ with_field (struct_of owner) names.items (ex_of type_expr)) }
{
    let StructFields {
        spot,
        name,
        mut fields,
    } = owner;
    fields.push(Field { names, type_expr })?;
    Ok(StructFields { spot, name, fields })
}

/// A token after the type of some fields.
#[tactic(auto, using(crate::proofs::TypeSteps::shallow))]
fn behind_type(owner: StructFields, token: Terminal) -> Result<TypesProgress, StepFault>
    ensures { let s = struct_of owner in
        Steps result (behind_type s token) (nesting_in_braces s token) }
{
    match token {
        Terminal::Semicolon => Ok(TypesProgress::Goes(TypeSpecs::Field(owner))),
        Terminal::RightBrace(_) => Ok(closed(owner)),
        _ => Err(StepFault::Unexpected),
    }
}

/// A token in the type of some fields.
#[tactic(auto, using(crate::proofs::TypeSteps::type_fails))]
fn in_type(alloc: Global, state: InFieldType, token: Terminal) -> Result<TypesProgress, StepFault>
    ensures { let s = types_of (TypeSpecs.Type state) in
        Steps result (step s token) (nesting s token) }
{
    let InFieldType {
        owner,
        names,
        reading,
    } = state;
    match step(alloc, reading, token) {
        Ok(Progress::Goes(reading)) => Ok(TypesProgress::Goes(TypeSpecs::Type(InFieldType {
            owner,
            names,
            reading,
        }))),
        Ok(Progress::Ends(part)) => behind_type(with_field(owner, names, part.expr)?, token),
        Err(fault) => Err(fault),
    }
}

/// One type more of those in parentheses.
#[tactic(auto, using(crate::proofs::Rows::type_specs_push))]
fn with_spec(mut specs: Vec<TypeSpec>, spec: TypeSpec) -> Result<Vec<TypeSpec>, AllocError>
    ensures { IfOk result
        (λ v. type_specs_of v.items ≡ type_specs_of specs.items ++ type_spec_of spec ∷ []) }
{
    specs.push(spec)?;
    Ok(specs)
}

/// A token after the closing brace.
fn spec_ends(
    alloc: Global,
    spot: TypeSpot,
    spec: TypeSpec,
    token: Terminal,
) -> Result<TypesProgress, StepFault>
    ensures { let s = at_end (spot_of spot) (type_spec_of spec) in
        Steps result (step s token) (nesting s token) }
{
    match spot {
        TypeSpot::Alone => Ok(TypesProgress::Ends(vec![in alloc; spec]?)),
        TypeSpot::Group(specs) => match token {
            Terminal::Semicolon => Ok(TypesProgress::Goes(TypeSpecs::Spec(with_spec(
                specs, spec,
            )?))),
            Terminal::RightParen => {
                Ok(TypesProgress::Goes(TypeSpecs::GroupEnd(with_spec(specs, spec)?)))
            }
            _ => Err(StepFault::Unexpected),
        },
    }
}
