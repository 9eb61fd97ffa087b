//! The steps of the machine between functions.

ghost use Rattle.std.specs.Prelude.{◌≡◌, IfOk};
ghost use Rattle.syntax.specs.Statements.{value_specs_of};
ghost use Rattle.syntax.specs.Declarations.{declaration_of};
ghost use Rattle.parse_simple_statements.specs.ValueSpecs.{at_first};
ghost use Rattle.parse_simple_statements.specs.Spots.{declares_of};
ghost use Rattle.parse_go.specs.TypeStates.{types_of};
ghost use Rattle.parse_go.specs.Machine.{at_package, at_package_name, at_package_end, at_declaration, in_values, in_types};
ghost use Rattle.parse_go.specs.Machine.{ends_declaration, values_declared, with_declaration, step, nesting};
ghost use Rattle.parse_go.specs.Signatures.{file_in};
ghost use Rattle.parse_go.specs.States.{state_of, Steps};

use crate::signature::File;
use crate::state::{InValues, State};
use crate::type_specs::{TypeSpecs, TypesProgress};
use crate::type_steps::step_types;
use base::Pos;
use parse_expressions::{StepFault, Terminal};
use parse_simple_statements::{Declares, SpecsProgress, begin_specs, step_specs};
use std::alloc::{AllocError, Global};
use syntax::{Decl, Name, ValueSpec};

/// The first token.
pub fn package(token: Terminal) -> Result<State, StepFault>
    ensures { Steps result (step at_package token) (nesting at_package token) }
{
    match token {
        Terminal::Package => Ok(State::PackageName),
        _ => Err(StepFault::Unexpected),
    }
}

/// A token after the word `package`.
pub fn package_name(token: Terminal) -> Result<State, StepFault>
    ensures { Steps result (step at_package_name token) (nesting at_package_name token) }
{
    match token {
        Terminal::Identifier(name) => Ok(State::PackageEnd(name)),
        _ => Err(StepFault::Unexpected),
    }
}

/// A token after the name of the package.
pub fn package_end(alloc: Global, package_name: Name, token: Terminal) -> Result<State, StepFault>
    ensures { let s = at_package_end package_name in Steps result (step s token) (nesting s token) }
{
    match token {
        Terminal::Semicolon => Ok(State::Declaration(File {
            package_name,
            decls: Vec::new(alloc),
        })),
        _ => Err(StepFault::Unexpected),
    }
}

/// A declaration of constants or variables begins after its word.
fn begin_values(file: File, kind: Declares, pos: Pos) -> State
    ensures { state_of result ≡ in_values (file_in file) (declares_of kind) pos at_first }
{
    State::Values(InValues {
        file,
        kind,
        pos,
        specs: begin_specs(0),
    })
}

/// A token where a declaration may begin.
pub fn declaration(file: File, token: Terminal) -> Result<State, StepFault>
    ensures { let s = at_declaration (file_in file) in
        Steps result (step s token) (nesting s token) }
{
    match token {
        Terminal::Const(pos) => Ok(begin_values(file, Declares::Constants, pos)),
        Terminal::Var(pos) => Ok(begin_values(file, Declares::Variables, pos)),
        Terminal::Type(pos) => Ok(State::Types(file, pos, TypeSpecs::First)),
        Terminal::Func(pos) => Ok(State::Function(file, pos)),
        _ => Err(StepFault::Unexpected),
    }
}

/// The declarations so far, and one more.
#[tactic(auto, using(crate::proofs::Rows::declarations_push))]
pub fn with_declaration(file: File, decl: Decl) -> Result<File, AllocError>
    ensures { IfOk result
        (λ f. file_in f ≡ with_declaration (file_in file) (declaration_of decl)) }
{
    let File {
        package_name,
        mut decls,
    } = file;
    decls.push(decl)?;
    Ok(File {
        package_name,
        decls,
    })
}

/// A token after a declaration.
pub fn ends_declaration(file: File, token: Terminal) -> Result<State, StepFault>
    ensures { Steps result (ends_declaration (file_in file) token) 0 }
{
    match token {
        Terminal::Semicolon => Ok(State::Declaration(file)),
        _ => Err(StepFault::Unexpected),
    }
}

/// The whole declaration of constants or variables.
fn values_declared(kind: Declares, pos: Pos, specs: Vec<ValueSpec>) -> Decl
    ensures { declaration_of result
        ≡ values_declared (declares_of kind) pos (value_specs_of specs.items) }
{
    match kind {
        Declares::Constants => Decl::Const(pos, specs),
        Declares::Variables => Decl::Var(pos, specs),
    }
}

/// A token in a declaration of constants or variables.
#[tactic(auto, using(crate::proofs::TextSteps::values_fail))]
pub fn in_values(alloc: Global, state: InValues, token: Terminal) -> Result<State, StepFault>
    ensures { let s = state_of (State.Values state) in
        Steps result (step s token) (nesting s token) }
{
    let InValues {
        file,
        kind,
        pos,
        specs,
    } = state;
    match step_specs(alloc, kind, specs, token) {
        Ok(SpecsProgress::Goes(specs)) => Ok(State::Values(InValues {
            file,
            kind,
            pos,
            specs,
        })),
        Ok(SpecsProgress::Ends(specs)) => {
            let decl = values_declared(kind, pos, specs);
            ends_declaration(with_declaration(file, decl)?, token)
        }
        Err(fault) => Err(fault),
    }
}

/// A token in a declaration of types.
#[tactic(auto, using(crate::proofs::TextSteps::types_fail))]
pub fn in_types(
    alloc: Global,
    file: File,
    pos: Pos,
    types: TypeSpecs,
    token: Terminal,
) -> Result<State, StepFault>
    ensures { let s = in_types (file_in file) pos (types_of types) in
        Steps result (step s token) (nesting s token) }
{
    match step_types(alloc, types, token) {
        Ok(TypesProgress::Goes(types)) => Ok(State::Types(file, pos, types)),
        Ok(TypesProgress::Ends(specs)) => {
            ends_declaration(with_declaration(file, Decl::Type(pos, specs))?, token)
        }
        Err(fault) => Err(fault),
    }
}
