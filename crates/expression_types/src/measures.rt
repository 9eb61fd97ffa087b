//! Operands of `len` and `cap`, which aren't evaluated, and constants that would need these before the types of variables are known: lengths
//! of arrays, and the constants of a package.

ghost use Rattle.std.specs.Prelude.{◌≡◌, None, option_and_then, if◌then◌else◌};
ghost use Rattle.std.specs.Option.{option_map};
ghost use Rattle.syntax.specs.Expressions.{ex_of as tree_of, exs_of as trees_of};
ghost use Rattle.operand_calls.specs.Calls.{first_of};
ghost use Rattle.type_faults.specs.Least.{lesser as least};
ghost use Rattle.operators.specs.Passing.{operand_of};
ghost use Rattle.names.specs.Scope.{scope_of};
ghost use Rattle.given_values.specs.Given.{operand_in};
ghost use Rattle.given_values.specs.Passing.{gives_of, seens, callee_of};
ghost use Rattle.expression_types.specs.Typing.{is_quiet, are_quiet, call_in, early};
ghost use Rattle.expression_types.specs.Faults.{inner_fault, quiet_fault, early_fault};

use crate::expressions::Single;
use base::{Pos, ValueType};
use given_values::{Callee, Gives, Item};
use names::Scope;
use operand_calls::{call_pos, has_call, unevaluated_fault};
use operators::Operand;
use syntax::Expr;
use type_faults::{Fault, FaultKind, lesser};

/// Whether no function is called in an operand, where it is an array.
fn is_quiet(gives: &Option<Gives>) -> bool
    ensures { result ≡ is_quiet (operand_in (option_map gives_of gives.now)) }
{
    match gives {
        Some(Gives::One(Operand::Value(ValueType::Array(_, _), value))) => !has_call(value),
        Some(Gives::Called(_, types, _, _)) => {
            !matches!(types.as_slice(), [ValueType::Array(_, _)])
        }
        _ => true,
    }
}

/// Whether no function is called in what a call doesn't evaluate.
pub fn are_quiet(callee: &Callee, arguments: &[Item]) -> bool
    ensures { result ≡ are_quiet (callee_of callee.now) (seens arguments.now) }
{
    match (callee, arguments) {
        (Callee::Measurer(_), [argument]) => is_quiet(&argument.gives),
        _ => true,
    }
}

/// The fault of a call in an array that isn't evaluated.
fn inner_fault(text: &[u8], scope: &Scope, e: &Expr, gives: &Option<Gives>) -> Option<Fault>
    ensures { result ≡ inner_fault text.now (scope_of scope.now) (tree_of e.now) (operand_in (option_map gives_of gives.now)) }
{
    match gives {
        Some(Gives::One(Operand::Value(ValueType::Array(_, _), value))) => {
            unevaluated_fault(text, scope, e, value)
        }
        Some(Gives::Called(_, types, _, _)) => match types.as_slice() {
            [ValueType::Array(_, _)] => Some(Fault {
                kind: FaultKind::OutOfProfile,
                pos: call_pos(text, scope, e),
            }),
            _ => None,
        },
        _ => None,
    }
}

/// The fault of a call in what a call doesn't evaluate.
pub fn quiet_fault(
    text: &[u8],
    scope: &Scope,
    callee: &Callee,
    arguments: &[Expr],
    items: &[Item],
) -> Option<Fault>
    ensures { result ≡ quiet_fault text.now (scope_of scope.now) (callee_of callee.now) (trees_of arguments.now)
        (seens items.now) }
{
    let Callee::Measurer(_) = callee else {
        return None;
    };
    let [e] = arguments else {
        return None;
    };
    let [item] = items else {
        return None;
    };
    inner_fault(text, scope, e, &item.gives)
}

/// What a call gives, where no function is called in what it doesn't evaluate.
pub fn quietly(is_quiet: bool, gives: Option<Gives>) -> Option<Gives>
    ensures { result ≡ (if is_quiet then gives else None) }
{
    if is_quiet {
        gives
    } else {
        drop(gives);
        None
    }
}

/// The first of two places, where there is one.
fn first_of(a: Option<Pos>, b: Option<Pos>) -> Option<Pos>
    ensures { result ≡ first_of a b }
{
    match a {
        Some(pos) => Some(pos),
        None => b,
    }
}

/// Where the first call stands by which a constant is worked out.
#[tactic(auto, using(syntax::proofs::Views::expr_rows))]
pub fn call_in(e: &Expr) -> Option<Pos>
    ensures { result ≡ call_in (tree_of e.now) }
{
    match e {
        Expr::Unary(_, _, e) | Expr::Paren(_, e) => call_in(e),
        Expr::Binary(_, _, a, b) => first_of(call_in(a), call_in(b)),
        Expr::Call(f, _, _) => Some(f.pos()),
        _ => None,
    }
}

/// The fault of a constant that is worked out by a call.
fn early_fault(call: Option<Pos>, operand: &Option<Operand>) -> Option<Fault>
    ensures { result ≡ early_fault call (option_map operand_of operand.now) }
{
    match (call, operand) {
        (Some(pos), Some(Operand::Constant(_))) => Some(Fault {
            kind: FaultKind::OutOfProfile,
            pos,
        }),
        _ => None,
    }
}

/// The fault of the value of a package's constant in which there is a call.
pub fn early_value_fault(e: &Expr, gives: &Option<Gives>) -> Option<Fault>
    ensures { result ≡ early_fault (call_in (tree_of e.now)) (operand_in (option_map gives_of gives.now)) }
{
    match gives {
        Some(Gives::One(Operand::Constant(_))) => match call_in(e) {
            Some(pos) => Some(Fault {
                kind: FaultKind::OutOfProfile,
                pos,
            }),
            None => None,
        },
        _ => None,
    }
}

fn early_operand(call: Option<Pos>, operand: Option<Operand>) -> Option<Operand>
    ensures { option_map operand_of result ≡ option_and_then (early call) (option_map operand_of operand) }
{
    match (call, operand) {
        (Some(_), Some(Operand::Constant(_))) => None,
        (_, operand) => operand,
    }
}

/// An expression as a constant that is worked out early, by the first call in it.
pub fn early(call: Option<Pos>, single: Single) -> Single
    ensures pos { result.pos ≡ single.pos }
    ensures operand { option_map operand_of result.operand ≡ option_and_then (early call) (option_map operand_of single.operand) }
    ensures fault { result.fault ≡ least single.fault (early_fault call (option_map operand_of single.operand)) }
{
    let Single {
        pos,
        operand,
        fault,
    } = single;
    let own = early_fault(call, &operand);
    Single {
        pos,
        operand: early_operand(call, operand),
        fault: lesser(fault, own),
    }
}
