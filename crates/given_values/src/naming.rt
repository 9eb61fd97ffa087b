//! Names as values.

ghost use Rattle.std.specs.Prelude.{◌≡◌};
ghost use Rattle.std.specs.Option.{option_map};
ghost use Rattle.syntax.specs.Expressions.{spelled};
ghost use Rattle.type_faults.specs.Least.{IsLeast};
ghost use Rattle.type_faults.specs.Faults.{IsFault};
ghost use Rattle.operators.specs.Passing.{operand_of};
ghost use Rattle.names.specs.Scope.{scope_of, declaration};
ghost use Rattle.given_values.specs.Given.{one, known_type, global_read, constant_read, name_operand};
ghost use Rattle.given_values.specs.GivenFaults.{name_fault};
ghost use Rattle.given_values.specs.Passing.{gives_of};

use crate::gives::Gives;
use base::{Pos, ValueType};
use constants::{Constant, constant_type, untyped};
use names::{Declared, GlobalId, Known, Scope, spelled};
use operators::Operand;
use std::alloc::Global;
use syntax::Name;
use type_faults::{Fault, FaultKind};
use typed::{Expr, Place};

/// The type of a constant or a package variable, by what is known of it.
pub fn known_type(known: Known) -> ValueType
    ensures { result ≡ known_type known }
{
    match known {
        Known::Constant(fixed) => constant_type(fixed),
        Known::Variable(value_type) => value_type,
    }
}

/// The read of a package variable, of which this is known.
#[tactic(auto, using(typed::proofs::Rows::expr_rows))]
fn global_read(alloc: Global, global: GlobalId, known: Known) -> Operand
    ensures { operand_of result ≡ global_read global.0 known }
{
    Operand::Value(
        known_type(known),
        Expr::Read(Place::Global(global.0, Vec::new(alloc))),
    )
}

/// The value of a constant of which this is known; a type is known of no constant.
fn constant_read(known: Known) -> Operand
    ensures { operand_of result ≡ constant_read known }
{
    match known {
        Known::Constant(fixed) => Operand::Constant(fixed),
        Known::Variable(_) => Operand::Nil,
    }
}

#[tactic(auto, using(typed::proofs::Rows::expr_rows))]
fn value_of(alloc: Global, scope: &Scope, declared: Option<Declared>) -> Option<Gives>
    ensures { option_map gives_of result ≡ option_map one (name_operand (scope_of scope.now) declared) }
{
    let operand = match declared {
        Some(Declared::Variable(site, value_type)) => Operand::Value(
            value_type,
            Expr::Read(Place::Local(site, Vec::new(alloc))),
        ),
        Some(Declared::Constant(number)) => constant_read(scope.known(number)?),
        Some(Declared::Global(number, global)) => {
            global_read(alloc, global, scope.known(number)?)
        }
        Some(Declared::Truth(truth)) => Operand::Constant(untyped(Constant::Truth(truth))),
        Some(Declared::Nil) => Operand::Nil,
        _ => return None,
    };
    Some(Gives::One(operand))
}

/// The constant or the variable that a name stands for.
pub fn name_value(alloc: Global, text: &[u8], scope: &Scope, name: Name) -> Option<Gives>
    ensures { option_map gives_of result ≡ option_map one
        (name_operand (scope_of scope.now) (declaration (scope_of scope.now) (spelled text.now name))) }
{
    value_of(alloc, scope, scope.declaration(spelled(text, name)))
}

fn declared_fault(declared: Option<Declared>, pos: Pos) -> Option<Fault>
    ensures { result ≡ name_fault declared pos }
{
    let kind = match declared {
        None => FaultKind::Unknown,
        Some(
            Declared::Variable(_, _)
            | Declared::Untyped
            | Declared::Constant(_)
            | Declared::Global(_, _)
            | Declared::Truth(_)
            | Declared::Nil,
        ) => return None,
        Some(Declared::Type(_) | Declared::Print(_) | Declared::Panic | Declared::Measure(_)) =>
            FaultKind::Unfit,
        Some(
            Declared::Function(_)
            | Declared::External(_, _)
            | Declared::LeftOutType
            | Declared::LeftOutValue,
        ) => FaultKind::OutOfProfile,
    };
    Some(Fault { kind, pos })
}

/// The fault of a name as a value.
#[tactic(auto, using(type_faults::proofs::Leasts::leaf))]
pub fn name_fault(text: &[u8], scope: &Scope, name: Name) -> Option<Fault>
    ensures { IsLeast (IsFault (name_fault (declaration (scope_of scope.now) (spelled text.now name)) name.pos)) result }
{
    declared_fault(scope.declaration(spelled(text, name)), name.pos)
}
