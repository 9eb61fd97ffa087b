//! Types.

ghost use Rattle.std.specs.Prelude.{◌≡◌, Option, Some, None};
ghost use Rattle.syntax.specs.Expressions.{ex_of as tree_of, spelled};
ghost use Rattle.type_faults.specs.Least.{IsLeast};
ghost use Rattle.type_faults.specs.Faults.{IsFault};
ghost use Rattle.names.specs.Scope.{scope_of, declaration};
ghost use Rattle.names.specs.Types.{is_known, declared_type, array_type, type_in};
ghost use Rattle.names.specs.Faults.{type_name_fault, FailsAsType};

use crate::naming::spelled;
use crate::scope::{Declared, Scope};
use base::{Pos, ValueType};
use syntax::{Expr, Name};
use type_faults::{Fault, FaultKind};
use typed::TypeTable;

/// Whether a type has a number, and words.
pub fn is_known(types: &TypeTable, value_type: ValueType) -> bool
    ensures { result ≡ is_known types.now value_type }
{
    match types.find(value_type) {
        Some(id) => types.words_at(id).is_some(),
        None => false,
    }
}

/// The type that a name stands for; one that is refused is none.
pub fn declared_type(types: &TypeTable, declared: Option<Declared>) -> Option<ValueType>
    ensures { result ≡ declared_type types.now declared }
{
    match declared {
        Some(Declared::Type(value_type)) if is_known(types, value_type) => Some(value_type),
        _ => None,
    }
}

/// The type of arrays of a length and of elements of a type; one that is refused, or that the table doesn't have, is none.
pub fn array_type(types: &TypeTable, length: u64, element: ValueType) -> Option<ValueType>
    ensures { result ≡ array_type types.now length element }
{
    let array = ValueType::Array(length, types.find(element)?);
    if is_known(types, array) {
        Some(array)
    } else {
        None
    }
}

/// The type that an expression is, where it is the name of one.
pub fn type_in(text: &[u8], scope: &Scope, e: &Expr) -> Option<ValueType>
    ensures { result ≡ type_in text.now (scope_of scope.now) (tree_of e.now) }
{
    match e {
        Expr::Name(name) => declared_type(&scope.types, scope.declaration(spelled(text, *name))),
        Expr::Paren(_, inner) => {
            let inner: &Expr = inner;
            type_in(text, scope, inner)
        }
        _ => None,
    }
}

/// The fault of what a name stands for as a type: another type of the language, or no type.
pub fn type_name_fault(declared: Option<Declared>, pos: Pos) -> Option<Fault>
    ensures { result ≡ type_name_fault declared pos }
{
    let kind = match declared {
        None => FaultKind::Unknown,
        Some(Declared::Type(_)) => return None,
        Some(Declared::LeftOutType) => FaultKind::OutOfProfile,
        Some(_) => FaultKind::Unfit,
    };
    Some(Fault { kind, pos })
}

/// The fault of a name as a type.
#[tactic(auto, using(type_faults::proofs::Leasts::leaf))]
fn name_fault(text: &[u8], scope: &Scope, name: Name) -> Option<Fault>
    ensures { IsLeast (IsFault (type_name_fault (declaration (scope_of scope.now) (spelled text.now name)) name.pos)) result }
{
    type_name_fault(scope.declaration(spelled(text, name)), name.pos)
}

/// The fault of an expression as a type.
pub fn type_fault(text: &[u8], scope: &Scope, e: &Expr) -> Option<Fault>
    ensures { IsLeast (FailsAsType text.now (scope_of scope.now) (tree_of e.now)) result }
{
    match e {
        Expr::Name(name) => name_fault(text, scope, *name),
        Expr::Paren(_, inner) => {
            let inner: &Expr = inner;
            type_fault(text, scope, inner)
        }
        _ => Some(Fault {
            kind: FaultKind::OutOfProfile,
            pos: e.pos(),
        }),
    }
}
