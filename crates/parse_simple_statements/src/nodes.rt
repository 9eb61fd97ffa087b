//! Statements and declarations from their parts.

ghost use Rattle.std.specs.Prelude.{◌≡◌, ◌∷◌, ◌++◌, [], IfOk};
ghost use Rattle.syntax.specs.Expressions.{ex_of, exs_of};
ghost use Rattle.syntax.specs.Statements.{value_specs_of, value_spec_of, simple_of};
ghost use Rattle.syntax.specs.Lists.{with_ex};
ghost use Rattle.parse_simple_statements.specs.Simples.{listed_simple};
ghost use Rattle.parse_simple_statements.specs.Contexts.{listed_of};

use crate::context::Listed;
use std::alloc::AllocError;
use syntax::{Expr, Simple, ValueSpec};

/// The expressions of a list, and one more.
#[tactic(auto, using(syntax::proofs::Rows::exs_push))]
pub fn with_value(mut values: Vec<Expr>, value: Expr) -> Result<Vec<Expr>, AllocError>
    ensures { IfOk result (λ v. exs_of v.items ≡ with_ex (exs_of values.items) (ex_of value)) }
{
    values.push(value)?;
    Ok(values)
}

/// The declarations of a list, and one more.
pub fn with_spec(mut specs: Vec<ValueSpec>, spec: ValueSpec) -> Result<Vec<ValueSpec>, AllocError>
    ensures { IfOk result (λ v. value_specs_of v.items
        ≡ value_specs_of specs.items ++ value_spec_of spec ∷ []) }
{
    specs.push(spec)?;
    Ok(specs)
}

/// The statement with these values.
pub fn listed_simple(listed: Listed, values: Vec<Expr>) -> Simple
    ensures { simple_of result ≡ listed_simple (listed_of listed) (exs_of values.items) }
{
    match listed {
        Listed::Assign(places, pos) => Simple::Assign(places, pos, values),
        Listed::Update(places, pos, op) => Simple::Update(places, pos, op, values),
        Listed::Define(names, pos) => Simple::Define(names, pos, values),
    }
}
