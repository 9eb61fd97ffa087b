//! Expressions and types from their parts, with their heights.

ghost use Rattle.std.specs.Prelude.{◌≡◌, ◌+◌, [], min, IfOk, Bool};
ghost use Rattle.syntax.specs.Expressions.{unary, binary, paren, call, selector, index, slice, array_type, slice_type};
ghost use Rattle.syntax.specs.Expressions.{no_bound, bound_at, ex_of, exs_of, bound_of, elements_of};
ghost use Rattle.syntax.specs.Lists.{with_ex, with_element};
ghost use Rattle.parse_expressions.specs.Frames.{of_type, of_element};
ghost use Rattle.parse_expressions.specs.Containers.{container_of, in_braces};

use crate::container::Container;
use crate::frame::Braces;
use crate::part::{Call, Low, Part};
use base::Pos;
use std::alloc::{AllocError, Global};
use syntax::{BinOp, Bound, Element, Expr, NESTING_LIMIT, Name, UnOp, call, elements, literal};

/// A height that is counted to one above the limit, and one more.
pub fn one_higher(height: usize) -> usize
    ensures { result ≡ min (height + 1) (NESTING_LIMIT + 1) }
{
    if height >= NESTING_LIMIT {
        NESTING_LIMIT + 1
    } else {
        height + 1
    }
}

pub fn prefixed(alloc: Global, pos: Pos, op: UnOp, part: Part) -> Result<Part, AllocError>
    ensures { IfOk result (λ r. ex_of r.expr ≡ unary pos op (ex_of part.expr)) }
{
    let height = one_higher(part.height);
    let expr = Expr::Unary(pos, op, Box::new(alloc, part.expr)?);
    Ok(Part { expr, height })
}

pub fn joined(
    alloc: Global,
    left: Part,
    pos: Pos,
    op: BinOp,
    right: Part,
) -> Result<Part, AllocError>
    ensures { IfOk result
        (λ r. ex_of r.expr ≡ binary pos op (ex_of left.expr) (ex_of right.expr)) }
{
    let height = one_higher(left.height.max(right.height));
    let expr = Expr::Binary(
        pos,
        op,
        Box::new(alloc, left.expr)?,
        Box::new(alloc, right.expr)?,
    );
    Ok(Part { expr, height })
}

pub fn in_parens(alloc: Global, pos: Pos, part: Part) -> Result<Part, AllocError>
    ensures { IfOk result (λ r. ex_of r.expr ≡ paren pos (ex_of part.expr)) }
{
    let height = part.height;
    let expr = Expr::Paren(pos, Box::new(alloc, part.expr)?);
    Ok(Part { expr, height })
}

/// A call without arguments so far.
pub fn opened_call(alloc: Global, function: Part) -> Call
    ensures function { result.function ≡ function.expr }
    ensures arguments { result.arguments.items ≡ [] }
{
    let height = one_higher(function.height);
    Call {
        function: function.expr,
        arguments: Vec::new(alloc),
        height,
    }
}

/// One argument more.
#[tactic(auto, using(syntax::proofs::Rows::higher_push, syntax::proofs::Rows::exs_push))]
pub fn with_argument(pending: Call, argument: Part) -> Result<Call, AllocError>
    ensures function { IfOk result (λ r. r.function ≡ pending.function) }
    ensures arguments { IfOk result (λ r. exs_of r.arguments.items
        ≡ with_ex (exs_of pending.arguments.items) (ex_of argument.expr)) }
{
    let Call {
        function,
        arguments,
        height,
    } = pending;
    let height = height.max(one_higher(argument.height));
    let arguments = with_value(arguments, argument.expr)?;
    Ok(Call {
        function,
        arguments,
        height,
    })
}

/// The expressions of a list, and one more.
#[tactic(auto, using(syntax::proofs::Rows::exs_push))]
fn with_value(mut values: Vec<Expr>, value: Expr) -> Result<Vec<Expr>, AllocError>
    ensures { IfOk result (λ v. exs_of v.items ≡ with_ex (exs_of values.items) (ex_of value)) }
{
    values.push(value)?;
    Ok(values)
}

/// The whole call, with `...` after its arguments or not.
pub fn whole_call(alloc: Global, pending: Call, spread: bool) -> Result<Part, AllocError>
    ensures { IfOk result
        (λ r. ex_of r.expr ≡ call (ex_of pending.function) (exs_of pending.arguments.items) spread) }
{
    let height = pending.height;
    let expr = call(alloc, pending.function, pending.arguments, spread)?;
    Ok(Part { expr, height })
}

pub fn selected(alloc: Global, value: Part, pos: Pos, name: Name) -> Result<Part, AllocError>
    ensures { IfOk result (λ r. ex_of r.expr ≡ selector (ex_of value.expr) pos name) }
{
    let height = one_higher(value.height);
    let expr = Expr::Selector(Box::new(alloc, value.expr)?, pos, name);
    Ok(Part { expr, height })
}

pub fn indexed(alloc: Global, value: Part, pos: Pos, at: Part) -> Result<Part, AllocError>
    ensures { IfOk result (λ r. ex_of r.expr ≡ index (ex_of value.expr) pos (ex_of at.expr)) }
{
    let height = one_higher(value.height.max(at.height));
    let expr = Expr::Index(Box::new(alloc, value.expr)?, pos, Box::new(alloc, at.expr)?);
    Ok(Part { expr, height })
}

/// A bound that does not stand there.
pub fn no_bound() -> Low
    ensures { bound_of result.bound ≡ no_bound }
{
    Low {
        bound: Bound::Absent,
        height: 0,
    }
}

pub fn bound_at(alloc: Global, part: Part) -> Result<Low, AllocError>
    ensures { IfOk result (λ r. bound_of r.bound ≡ bound_at (ex_of part.expr)) }
{
    let height = part.height;
    let bound = Bound::At(Box::new(alloc, part.expr)?);
    Ok(Low { bound, height })
}

pub fn sliced(alloc: Global, value: Part, pos: Pos, low: Low, high: Low) -> Result<Part, AllocError>
    ensures { IfOk result (λ r. ex_of r.expr
        ≡ slice (ex_of value.expr) pos (bound_of low.bound) (bound_of high.bound)) }
{
    let height = one_higher(value.height.max(low.height.max(high.height)));
    let expr = Expr::Slice(Box::new(alloc, value.expr)?, pos, low.bound, high.bound);
    Ok(Part { expr, height })
}

pub fn array_type(alloc: Global, pos: Pos, length: Part, of: Part) -> Result<Part, AllocError>
    ensures { IfOk result (λ r. ex_of r.expr ≡ array_type pos (ex_of length.expr) (ex_of of.expr)) }
{
    let height = one_higher(length.height.max(of.height));
    let expr = Expr::ArrayType(
        pos,
        Box::new(alloc, length.expr)?,
        Box::new(alloc, of.expr)?,
    );
    Ok(Part { expr, height })
}

pub fn slice_type(alloc: Global, pos: Pos, of: Part) -> Result<Part, AllocError>
    ensures { IfOk result (λ r. ex_of r.expr ≡ slice_type pos (ex_of of.expr)) }
{
    let height = one_higher(of.height);
    let expr = Expr::SliceType(pos, Box::new(alloc, of.expr)?);
    Ok(Part { expr, height })
}

/// A literal of a type, without elements so far.
pub fn opened_literal(alloc: Global, part: Part) -> Braces
    ensures container { container_of result.container ≡ of_type (ex_of part.expr) }
    ensures elements { result.elements.items ≡ [] }
{
    let height = one_higher(part.height);
    Braces {
        container: Container::Typed(part.expr),
        elements: Vec::new(alloc),
        height,
    }
}

/// An element without a type, without elements of its own so far.
pub fn opened_element(alloc: Global, pos: Pos) -> Braces
    ensures container { container_of result.container ≡ of_element pos }
    ensures elements { result.elements.items ≡ [] }
{
    Braces {
        container: Container::Untyped(pos),
        elements: Vec::new(alloc),
        height: 0,
    }
}

/// One element more, after its key if it has one.
#[tactic(auto, using(crate::proofs::Pending::higher_braces))]
pub fn with_element(braces: Braces, key: Option<Name>, part: Part) -> Result<Braces, AllocError>
    ensures container { IfOk result (λ r. r.container ≡ braces.container) }
    ensures elements { IfOk result (λ r. elements_of r.elements.items
        ≡ with_element (elements_of braces.elements.items) key (ex_of part.expr)) }
{
    let Braces {
        container,
        elements,
        height,
    } = braces;
    let height = height.max(one_higher(part.height));
    let elements = with_item(elements, key, part.expr)?;
    Ok(Braces {
        container,
        elements,
        height,
    })
}

/// The elements of a list, and one more.
#[tactic(auto, using(syntax::proofs::Rows::elements_push_plain, syntax::proofs::Rows::elements_push_keyed))]
fn with_item(
    mut elements: Vec<Element>,
    key: Option<Name>,
    value: Expr,
) -> Result<Vec<Element>, AllocError>
    ensures { IfOk result
        (λ v. elements_of v.items ≡ with_element (elements_of elements.items) key (ex_of value)) }
{
    elements.push(match key {
        None => Element::Plain(value),
        Some(name) => Element::Keyed(name, value),
    })?;
    Ok(elements)
}

/// The whole literal, or the whole element without a type.
pub fn whole_braces(alloc: Global, braces: Braces) -> Result<Part, AllocError>
    ensures { IfOk result (λ r. ex_of r.expr
        ≡ in_braces (container_of braces.container) (elements_of braces.elements.items)) }
{
    let height = braces.height;
    let expr = braced(alloc, braces.container, braces.elements)?;
    Ok(Part { expr, height })
}

fn braced(alloc: Global, container: Container, list: Vec<Element>) -> Result<Expr, AllocError>
    ensures { IfOk result
        (λ e. ex_of e ≡ in_braces (container_of container) (elements_of list.items)) }
{
    match container {
        Container::Typed(type_expr) => literal(alloc, type_expr, list),
        Container::Untyped(pos) => Ok(elements(pos, list)),
    }
}
