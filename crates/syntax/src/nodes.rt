//! Expressions and statements with lists, from their parts.

ghost use Rattle.std.specs.Prelude.{◌≡◌, IfOk};
ghost use Rattle.syntax.specs.Expressions.{call, literal, elements, ex_of, exs_of, elements_of};
ghost use Rattle.syntax.specs.Statements.{block, if_stmt, for_stmt, else_block, else_if, guard_of, clause_of, stm_of, els_of, stms_of};

use crate::expression::{Element, Expr};
use crate::statement::{Clause, Else, Guard, Stmt};
use base::Pos;
use std::alloc::{AllocError, Global};

/// A call, with `...` after its arguments or not.
pub fn call(
    alloc: Global,
    function: Expr,
    arguments: Vec<Expr>,
    spread: bool,
) -> Result<Expr, AllocError>
    ensures { IfOk result (λ e. ex_of e ≡ call (ex_of function) (exs_of arguments.items) spread) }
{
    Ok(Expr::Call(Box::new(alloc, function)?, arguments, spread))
}

/// A composite literal of a type.
pub fn literal(alloc: Global, type_expr: Expr, list: Vec<Element>) -> Result<Expr, AllocError>
    ensures { IfOk result (λ e. ex_of e ≡ literal (ex_of type_expr) (elements_of list.items)) }
{
    Ok(Expr::Literal(Box::new(alloc, type_expr)?, list))
}

/// The elements of a literal without a type, whose brace stands at a position.
pub fn elements(pos: Pos, list: Vec<Element>) -> Expr
    ensures { ex_of result ≡ elements pos (elements_of list.items) }
{
    Expr::Elements(pos, list)
}

/// A block that is a statement.
pub fn block(body: Vec<Stmt>) -> Stmt
    ensures { stm_of result ≡ block (stms_of body.items) }
{
    Stmt::Block(body)
}

/// A `for`, with the position of its word.
pub fn for_stmt(pos: Pos, clause: Clause, body: Vec<Stmt>) -> Stmt
    ensures { stm_of result ≡ for_stmt pos (clause_of clause) (stms_of body.items) }
{
    Stmt::For(pos, clause, body)
}

/// An `if`, with the position of its word, and what stands after its body.
pub fn if_stmt(pos: Pos, guard: Guard, body: Vec<Stmt>, otherwise: Else) -> Stmt
    ensures { stm_of result ≡ if_stmt pos (guard_of guard) (stms_of body.items) (els_of otherwise) }
{
    Stmt::If(pos, guard, body, otherwise)
}

/// The last body of an `if`.
pub fn else_block(body: Vec<Stmt>) -> Else
    ensures { els_of result ≡ else_block (stms_of body.items) }
{
    Else::Block(body)
}

/// An `if` after an `else`, with the position of its word, and what stands after its body.
pub fn else_if(
    alloc: Global,
    pos: Pos,
    guard: Guard,
    body: Vec<Stmt>,
    otherwise: Else,
) -> Result<Else, AllocError>
    ensures { IfOk result
        (λ e. els_of e ≡ else_if pos (guard_of guard) (stms_of body.items) (els_of otherwise)) }
{
    Ok(Else::If(pos, guard, body, Box::new(alloc, otherwise)?))
}
