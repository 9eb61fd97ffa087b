//! The steps of the machine in a function.

ghost use Rattle.std.specs.Prelude.{◌≡◌, IfOk};
ghost use Rattle.syntax.specs.Declarations.{body_in, parameters_of};
ghost use Rattle.parse_statements.specs.BodyStates as bodies;
ghost use Rattle.parse_go.specs.ParameterStates.{params_of};
ghost use Rattle.parse_go.specs.Machine.{at_function, at_opening, in_params, at_results, in_results, at_body};
ghost use Rattle.parse_go.specs.Machine.{in_body, behind_results, with_function, step, nesting};
ghost use Rattle.parse_go.specs.Signatures.{file_in, named_of, signature_of};
ghost use Rattle.parse_go.specs.States.{state_of, Steps};

use crate::declarations::{ends_declaration, with_declaration};
use crate::parameter_steps::{begin_parameters, step_parameters};
use crate::parameters::{Parameters, ParametersProgress};
use crate::signature::{File, Named, Signature};
use crate::state::{InResult, State};
use base::Pos;
use parse_expressions::{Progress, StepFault, Terminal, step, type_wanted};
use parse_statements::{BodyProgress, BodyState, begin_body, step_body};
use std::alloc::{AllocError, Global};
use syntax::{Body, Decl, Func, Params};

/// A token after the word `func`.
pub fn function(file: File, pos: Pos, token: Terminal) -> Result<State, StepFault>
    ensures { let s = at_function (file_in file) pos in
        Steps result (step s token) (nesting s token) }
{
    match token {
        Terminal::Identifier(name) => Ok(State::Opening(Named { file, pos, name })),
        _ => Err(StepFault::Unexpected),
    }
}

/// A token after the name of a function.
pub fn opening(alloc: Global, named: Named, token: Terminal) -> Result<State, StepFault>
    ensures { let s = at_opening (named_of named) in Steps result (step s token) (nesting s token) }
{
    match token {
        Terminal::LeftParen(_) => Ok(State::Params(named, begin_parameters(alloc))),
        _ => Err(StepFault::Unexpected),
    }
}

/// A token in the parameters.
#[tactic(auto, using(crate::proofs::TextSteps::params_fail))]
pub fn in_params(
    alloc: Global,
    named: Named,
    params: Parameters,
    token: Terminal,
) -> Result<State, StepFault>
    ensures { let s = in_params (named_of named) (params_of params) in
        Steps result (step s token) (nesting s token) }
{
    match step_parameters(alloc, params, token) {
        Ok(ParametersProgress::Goes(params)) => Ok(State::Params(named, params)),
        Ok(ParametersProgress::Ends(params)) => Ok(State::Results(named, params)),
        Err(fault) => Err(fault),
    }
}

/// The whole function, after the declarations before it.
pub fn with_function(signature: Signature, body: Option<Body>) -> Result<File, AllocError>
    ensures { IfOk result
        (λ f. file_in f ≡ with_function (signature_of signature) (body_in body)) }
{
    let Signature {
        named,
        params,
        results,
    } = signature;
    let Named { file, pos, name } = named;
    let func = Func {
        pos,
        name,
        params,
        results,
        body,
    };
    with_declaration(file, Decl::Func(func))
}

/// A token after the results: the body opens, or there is none.
pub fn behind_results(
    alloc: Global,
    signature: Signature,
    token: Terminal,
) -> Result<State, StepFault>
    ensures { Steps result (behind_results (signature_of signature) token) 0 }
{
    match token {
        Terminal::LeftBrace(_) => Ok(State::InBody(signature, begin_body(alloc))),
        Terminal::Semicolon => Ok(State::Declaration(with_function(signature, None)?)),
        _ => {
            drop(signature);
            Err(StepFault::Unexpected)
        }
    }
}

/// A token after the parameters.
pub fn results(
    alloc: Global,
    named: Named,
    params: Params,
    token: Terminal,
) -> Result<State, StepFault>
    ensures { let s = at_results (named_of named) (parameters_of params) in
        Steps result (step s token) (nesting s token) }
{
    match token {
        Terminal::LeftParen(_) => { Ok(State::ResultList(named, params, begin_parameters(alloc))) }
        Terminal::LeftBrace(_) | Terminal::Semicolon => {
            let results = Params::Unnamed(Vec::new(alloc));
            let signature = Signature {
                named,
                params,
                results,
            };
            behind_results(alloc, signature, token)
        }
        _ => {
            let reading = type_wanted(alloc, 0);
            let state = InResult {
                named,
                params,
                reading,
            };
            in_result(alloc, state, token)
        }
    }
}

/// A token in a result without parentheses.
#[tactic(auto, using(crate::proofs::TextSteps::result_fails))]
pub fn in_result(alloc: Global, state: InResult, token: Terminal) -> Result<State, StepFault>
    ensures { let s = state_of (State.Result state) in
        Steps result (step s token) (nesting s token) }
{
    let InResult {
        named,
        params,
        reading,
    } = state;
    match step(alloc, reading, token) {
        Ok(Progress::Goes(reading)) => Ok(State::Result(InResult {
            named,
            params,
            reading,
        })),
        Ok(Progress::Ends(part)) => {
            let results = Params::Unnamed(vec![in alloc; part.expr]?);
            let signature = Signature {
                named,
                params,
                results,
            };
            behind_results(alloc, signature, token)
        }
        Err(fault) => Err(fault),
    }
}

/// A token in results in parentheses.
#[tactic(auto, using(crate::proofs::TextSteps::results_fail))]
pub fn in_results(
    alloc: Global,
    named: Named,
    params: Params,
    results: Parameters,
    token: Terminal,
) -> Result<State, StepFault>
    ensures { let s = in_results (named_of named) (parameters_of params) (params_of results) in
        Steps result (step s token) (nesting s token) }
{
    match step_parameters(alloc, results, token) {
        Ok(ParametersProgress::Goes(results)) => Ok(State::ResultList(named, params, results)),
        Ok(ParametersProgress::Ends(results)) => Ok(State::Body(Signature {
            named,
            params,
            results,
        })),
        Err(fault) => Err(fault),
    }
}

/// A token in the body.
#[tactic(auto, using(crate::proofs::TextSteps::body_fails))]
pub fn in_body(
    alloc: Global,
    signature: Signature,
    body: BodyState,
    token: Terminal,
) -> Result<State, StepFault>
    ensures { let s = in_body (signature_of signature) (bodies.state_of body) in
        Steps result (step s token) (nesting s token) }
{
    match step_body(alloc, body, token) {
        Ok(BodyProgress::Goes(body)) => Ok(State::InBody(signature, body)),
        Ok(BodyProgress::Ends(body)) => Ok(State::End(with_function(signature, Some(body))?)),
        Err(fault) => {
            drop(signature);
            Err(fault)
        }
    }
}
