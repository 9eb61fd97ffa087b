//! One token more.

ghost use Rattle.parse_go.specs.Machine.{step, nesting};
ghost use Rattle.parse_go.specs.States.{state_of, Steps};

use crate::declarations::{
    declaration, ends_declaration, in_types, in_values, package, package_end, package_name,
};
use crate::function::{
    behind_results, function, in_body, in_params, in_result, in_results, opening, results,
};
use crate::state::State;
use parse_expressions::{StepFault, Terminal};
use std::alloc::Global;

/// One token more.
pub fn step(alloc: Global, state: State, token: Terminal) -> Result<State, StepFault>
    ensures { let s = state_of state in Steps result (step s token) (nesting s token) }
{
    match state {
        State::Package => package(token),
        State::PackageName => package_name(token),
        State::PackageEnd(name) => package_end(alloc, name, token),
        State::Declaration(file) => declaration(file, token),
        State::Values(state) => in_values(alloc, state, token),
        State::Types(file, pos, types) => in_types(alloc, file, pos, types, token),
        State::Function(file, pos) => function(file, pos, token),
        State::Opening(named) => opening(alloc, named, token),
        State::Params(named, params) => in_params(alloc, named, params, token),
        State::Results(named, params) => results(alloc, named, params, token),
        State::Result(state) => in_result(alloc, state, token),
        State::ResultList(named, params, list) => in_results(alloc, named, params, list, token),
        State::Body(signature) => behind_results(alloc, signature, token),
        State::InBody(signature, body) => in_body(alloc, signature, body, token),
        State::End(file) => ends_declaration(file, token),
    }
}
