//! The bytes of names, and the name that an expression is.

ghost use Rattle.std.specs.Prelude.{◌≡◌};
ghost use Rattle.syntax.specs.Expressions.{spelled, ex_of as tree_of};
ghost use Rattle.names.specs.Naming.{between, name_in};

use syntax::{Expr, Name};

/// The bytes of a text from one offset up to another.
pub fn between(text: &[u8], from: u32, behind: u32) -> &[u8]
    ensures { result.now ≡ between text.now from behind }
{
    let start = text.len().min(from as usize);
    let rest = &text[start..];
    let long = rest.len().min(behind.saturating_sub(from) as usize);
    &rest[..long]
}

/// The bytes of a name.
pub fn spelled(text: &[u8], name: Name) -> &[u8]
    ensures { result.now ≡ spelled text.now name }
{
    between(text, name.pos.offset, name.end)
}

/// The name that an expression is, in parentheses or not.
pub fn name_in(e: &Expr) -> Option<Name>
    ensures { result ≡ name_in (tree_of e.now) }
{
    match e {
        Expr::Name(name) => Some(*name),
        Expr::Paren(_, inner) => {
            let inner: &Expr = inner;
            name_in(inner)
        }
        _ => None,
    }
}
