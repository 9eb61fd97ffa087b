//! The rule that an operand that isn't evaluated has no call.

ghost use Rattle.std.specs.Prelude.{◌≡◌};
ghost use Rattle.syntax.specs.Expressions.{ex_of as tree_of};
ghost use Rattle.typed.specs.View.{ex_of};
ghost use Rattle.names.specs.Scope.{scope_of};
ghost use Rattle.operand_calls.specs.Calls.{call_pos, unevaluated_fault};

use crate::first::first_call;
use crate::inside::has_call;
use base::Pos;
use names::Scope;
use syntax::Expr;
use type_faults::{Fault, FaultKind};

/// Where a call in an operand is reported.
pub fn call_pos(text: &[u8], scope: &Scope, e: &Expr) -> Pos
    ensures { result ≡ call_pos text.now (scope_of scope.now) (tree_of e.now) }
{
    match first_call(text, scope, e) {
        Some(pos) => pos,
        None => e.pos(),
    }
}

/// The fault of a call in an operand that isn't evaluated: the operand as it stands in the text, and with its types.
pub fn unevaluated_fault(
    text: &[u8],
    scope: &Scope,
    e: &Expr,
    operand: &typed::Expr,
) -> Option<Fault>
    ensures { result ≡ unevaluated_fault text.now (scope_of scope.now) (tree_of e.now) (ex_of operand.now) }
{
    if has_call(operand) {
        Some(Fault {
            kind: FaultKind::OutOfProfile,
            pos: call_pos(text, scope, e),
        })
    } else {
        None
    }
}
