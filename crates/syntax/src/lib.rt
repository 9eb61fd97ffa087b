//! The tree of a Go text: plain data, with its abstract syntax in `specs`, and a little code on it: where an expression begins
//! (`Expr::pos`), and the nodes that have lists, made from their parts.
//!
//! Expressions and types are one kind of node: whether `T`, `*T` or `(T)` is a value or a type is known only where names
//! are looked up, and as arguments of a call both stand side by side. The position of each node's own first token is kept,
//! so every byte that a fault or a panic may speak of can be read off the tree. A name is a span; the tree owns a copy of
//! the text.
#![tactic(auto)]

mod declaration;
mod expression;
mod limit;
mod nodes;
mod operator;
mod statement;

pub use declaration::{Body, Decl, Field, Func, Params, Tree, TypeSpec};
pub use expression::{Bound, Element, Expr, Name};
pub use limit::NESTING_LIMIT;
pub use nodes::{block, call, elements, else_block, else_if, for_stmt, if_stmt, literal};
pub use operator::{ArithmeticOp, BinOp, CompareOp, UnOp};
pub use statement::{Clause, Else, Guard, Simple, Stmt, Targets, ValueSpec};
