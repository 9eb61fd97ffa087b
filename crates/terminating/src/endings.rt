//! Terminating statements: nothing goes on after them.

ghost use Rattle.std.specs.Prelude.{◌≡◌, false};
ghost use Rattle.syntax.specs.Expressions.{ex_of as tree_of};
ghost use Rattle.syntax.specs.Statements.{simple_of, clause_of, stm_of, stms_of, els_of};
ghost use Rattle.names.specs.Scope.{scope_of};
ghost use Rattle.names.specs.Naming.{name_in};
ghost use Rattle.terminating.specs.Terminating.{is_endless, is_panic, leaves, leaves_else, leaves_any, names_panic, panics, ends_simple, is_terminating, is_terminating_else, ends_after};

use names::{Declared, Scope, name_in, spelled};
use syntax::{Clause, Else, Expr, Name, Simple, Stmt};

/// Whether a loop has no condition.
fn is_endless(clause: &Clause) -> bool
    ensures { result ≡ is_endless (clause_of clause.now) }
{
    match clause {
        Clause::Forever => true,
        Clause::While(_) => false,
        Clause::Counting(_, test, _) => test.is_none(),
        Clause::Range(_, _, _) => false,
    }
}

/// Whether a `break` leaves the loop around a statement.
#[cycle(leaving)]
#[tactic(auto, using(syntax::proofs::Views::stmt_rows))]
fn leaves(s: &Stmt) -> bool
    ensures { result ≡ leaves (stm_of s.now) }
{
    match s {
        Stmt::Break(_) => true,
        Stmt::If(_, _, body, rest) => leaves_any(body) || leaves_else(rest),
        Stmt::Block(body) => leaves_any(body),
        _ => false,
    }
}

#[cycle(leaving)]
#[tactic(auto, using(syntax::proofs::Views::stmt_rows))]
fn leaves_else(e: &Else) -> bool
    ensures { result ≡ leaves_else (els_of e.now) }
{
    match e {
        Else::Absent => false,
        Else::Block(body) => leaves_any(body),
        Else::If(_, _, body, rest) => {
            let rest: &Else = rest;
            leaves_any(body) || leaves_else(rest)
        }
    }
}

/// Whether a `break` among statements leaves the loop around them.
#[cycle(leaving)]
fn leaves_any(ms: &[Stmt]) -> bool
    ensures { result ≡ leaves_any (stms_of ms.now) }
{
    let mut any = false;
    for s in ms {
        any = any || leaves(s);
    }
    any
}

fn is_panic(declared: Option<Declared>) -> bool
    ensures { result ≡ is_panic declared }
{
    match declared {
        Some(Declared::Panic) => true,
        _ => false,
    }
}

fn names_panic(text: &[u8], scope: &Scope, name: Option<Name>) -> bool
    ensures { result ≡ names_panic text.now (scope_of scope.now) name }
{
    match name {
        Some(name) => is_panic(scope.declaration(spelled(text, name))),
        None => false,
    }
}

/// Whether an expression is a call of the built-in `panic`, in parentheses or not.
#[tactic(auto, using(syntax::proofs::Views::expr_rows))]
fn panics(text: &[u8], scope: &Scope, e: &Expr) -> bool
    ensures { result ≡ panics text.now (scope_of scope.now) (tree_of e.now) }
{
    match e {
        Expr::Call(function, _, _) => names_panic(text, scope, name_in(function)),
        Expr::Paren(_, inner) => {
            let inner: &Expr = inner;
            panics(text, scope, inner)
        }
        _ => false,
    }
}

fn ends_simple(text: &[u8], scope: &Scope, simple: &Simple) -> bool
    ensures { result ≡ ends_simple text.now (scope_of scope.now) (simple_of simple.now) }
{
    match simple {
        Simple::Express(e) => panics(text, scope, e),
        _ => false,
    }
}

/// Whether a statement is terminating (Go specification, "Terminating statements").
#[cycle(endings)]
#[tactic(auto, using(syntax::proofs::Views::stmt_rows))]
fn is_terminating(text: &[u8], scope: &Scope, s: &Stmt) -> bool
    ensures { result ≡ is_terminating text.now (scope_of scope.now) (stm_of s.now) }
{
    match s {
        Stmt::Return(_, _) => true,
        Stmt::Simple(simple) => ends_simple(text, scope, simple),
        Stmt::If(_, _, body, rest) => {
            ends_in_terminating(text, scope, body) && is_terminating_else(text, scope, rest)
        }
        Stmt::For(_, clause, body) => is_endless(clause) && !leaves_any(body),
        Stmt::Block(body) => ends_in_terminating(text, scope, body),
        _ => false,
    }
}

#[cycle(endings)]
#[tactic(auto, using(syntax::proofs::Views::stmt_rows))]
fn is_terminating_else(text: &[u8], scope: &Scope, e: &Else) -> bool
    ensures { result ≡ is_terminating_else text.now (scope_of scope.now) (els_of e.now) }
{
    match e {
        Else::Absent => false,
        Else::Block(body) => ends_in_terminating(text, scope, body),
        Else::If(_, _, body, rest) => {
            let rest: &Else = rest;
            ends_in_terminating(text, scope, body) && is_terminating_else(text, scope, rest)
        }
    }
}

/// Whether statements end in a terminating one, in the scope around their function.
#[cycle(endings)]
pub fn ends_in_terminating(text: &[u8], scope: &Scope, ms: &[Stmt]) -> bool
    ensures { result ≡ ends_after text.now (scope_of scope.now) false (stms_of ms.now) }
{
    let mut ends = false;
    for s in ms {
        ends = is_terminating(text, scope, s);
    }
    ends
}
