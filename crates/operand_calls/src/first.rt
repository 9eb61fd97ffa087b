//! Where the first call in an expression stands.

ghost use Rattle.std.specs.Prelude.{◌≡◌};
ghost use Rattle.syntax.specs.Expressions.{ex_of, exs_of, bound_of, elements_of};
ghost use Rattle.names.specs.Scope.{scope_of};
ghost use Rattle.operand_calls.specs.Calls.{first_of, counts, call_at, counts_named, first_call, first_call_at, first_call_in, first_call_among};

use base::Pos;
use names::{Declared, Scope, name_in, spelled};
use syntax::{Bound, Element, Expr, Name};

/// The first of two places, where there is one.
fn first_of(a: Option<Pos>, b: Option<Pos>) -> Option<Pos>
    ensures { result ≡ first_of a b }
{
    match a {
        Some(pos) => Some(pos),
        None => b,
    }
}

/// Whether a call of this counts: that of a type is a conversion, which calls no function, and `len` and `cap` of an array
/// call none either.
fn counts(declared: Option<Declared>) -> bool
    ensures { result ≡ counts declared }
{
    match declared {
        Some(Declared::Type(_) | Declared::LeftOutType | Declared::Measure(_)) => false,
        Some(
            Declared::Variable(_, _)
            | Declared::Untyped
            | Declared::Constant(_)
            | Declared::Global(_, _)
            | Declared::Function(_)
            | Declared::External(_, _)
            | Declared::Truth(_)
            | Declared::Nil
            | Declared::Print(_)
            | Declared::Panic
            | Declared::LeftOutValue,
        )
        | None => true,
    }
}

fn counts_named(text: &[u8], scope: &Scope, name: Option<Name>) -> bool
    ensures { result ≡ counts_named text.now (scope_of scope.now) name }
{
    match name {
        Some(name) => counts(scope.declaration(spelled(text, name))),
        None => true,
    }
}

fn call_at(is_counted: bool, first: Pos, inner: Option<Pos>) -> Option<Pos>
    ensures { result ≡ call_at is_counted first inner }
{
    if is_counted { Some(first) } else { inner }
}

/// The first byte of the first call in an expression, in the order of the text.
#[cycle(first)]
#[tactic(auto, using(syntax::proofs::Views::expr_rows))]
pub fn first_call(text: &[u8], scope: &Scope, e: &Expr) -> Option<Pos>
    ensures { result ≡ first_call text.now (scope_of scope.now) (ex_of e.now) }
{
    match e {
        Expr::Int(_, _)
        | Expr::String(_, _)
        | Expr::Name(_)
        | Expr::ArrayType(_, _, _)
        | Expr::SliceType(_, _) => None,
        Expr::Unary(_, _, e) | Expr::Paren(_, e) | Expr::Selector(e, _, _) => {
            let e: &Expr = e;
            first_call(text, scope, e)
        }
        Expr::Binary(_, _, a, b) | Expr::Index(a, _, b) => {
            let a: &Expr = a;
            let b: &Expr = b;
            first_of(first_call(text, scope, a), first_call(text, scope, b))
        }
        Expr::Call(f, arguments, _) => {
            let f: &Expr = f;
            let is_counted = counts_named(text, scope, name_in(f));
            call_at(is_counted, f.pos(), first_call_in(text, scope, arguments))
        }
        Expr::Slice(e, _, low, high) => {
            let e: &Expr = e;
            let bounds = first_of(
                first_call_at(text, scope, low),
                first_call_at(text, scope, high),
            );
            first_of(first_call(text, scope, e), bounds)
        }
        Expr::Literal(_, elements) => first_call_among(text, scope, elements),
        Expr::Elements(_, elements) => first_call_among(text, scope, elements),
    }
}

#[cycle(first)]
#[tactic(auto, using(syntax::proofs::Views::expr_rows))]
fn first_call_at(text: &[u8], scope: &Scope, bound: &Bound) -> Option<Pos>
    ensures { result ≡ first_call_at text.now (scope_of scope.now) (bound_of bound.now) }
{
    match bound {
        Bound::Absent => None,
        Bound::At(e) => {
            let e: &Expr = e;
            first_call(text, scope, e)
        }
    }
}

#[cycle(first)]
fn first_call_in(text: &[u8], scope: &Scope, es: &[Expr]) -> Option<Pos>
    ensures { result ≡ first_call_in text.now (scope_of scope.now) (exs_of es.now) }
{
    let mut found = None;
    for e in es {
        found = first_of(found, first_call(text, scope, e));
    }
    found
}

#[cycle(first)]
fn first_call_among(text: &[u8], scope: &Scope, elements: &[Element]) -> Option<Pos>
    ensures { result ≡ first_call_among text.now (scope_of scope.now) (elements_of elements.now) }
{
    let mut found = None;
    for element in elements {
        match element {
            Element::Plain(e) | Element::Keyed(_, e) => {
                found = first_of(found, first_call(text, scope, e));
            }
        }
    }
    found
}
