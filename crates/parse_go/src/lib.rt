//! The tree of a Go text, from its tokens.
//!
//! The parser is a machine that takes one token at a time, in four crates: expressions and types, simple statements, bodies,
//! and whole texts, which are this one. Each machine runs inside the state of the one above it: a state holds what was read
//! (here the declarations before, and of the one that is open its part so far), and the machine of the part that is open. A
//! machine answers each token in one of three ways: the part goes on, nothing that begins with the token may follow, or the
//! part ended before it; then the machine above looks at the token. What may be a type or a name, as the parameters of `func
//! f(a, b`, waits until a token tells which it is. Nothing is ever taken back, nothing is read ahead, and no step calls
//! itself, so the work is linear in the number of tokens and the depth of the text needs no stack of the program's own.
//!
//! That the answer is right rests on one relation: for each state, which tokens may still follow, and to which tree
//! they lead (`Rest`). At the start these are the texts of the grammar. Reading a token divides them by it from the
//! left: a token with some others may follow exactly where the others may follow in the next state; where the machine
//! has no next state, nothing that begins with the token may follow. And in each state something may follow, so the
//! tokens that were read are always the beginning of some text (a viable prefix). The lower machines have the same
//! relation, for any relation of what may follow their whole part. From this come all that the contract of `parse` says:
//! what is answered is a tree of the tokens, there is no other, and the token that is reported is the first with which no
//! text begins.
//!
//! Each token has a nesting, which is bounded: the number of brackets, prefixes and else-ifs that are open around it and,
//! at an operator, a `.`, a `[` or a `(` after an expression, at least one more than the height of the tree to its left.
//! The grammar itself speaks of tokens with their nestings, so the bound is a fact of a text and not a second grammar.
#![tactic(auto)]

mod declarations;
mod fault;
mod function;
pub mod laws;
mod machine;
mod parameter_steps;
mod parameters;
mod parsing;
mod signature;
mod state;
mod type_specs;
mod type_spot;
mod type_steps;

pub use fault::ParseFault;
pub use parsing::parse;
pub use syntax::{
    ArithmeticOp, BinOp, Body, Bound, Clause, CompareOp, Decl, Element, Else, Expr, Field, Func,
    Guard, Name, Params, Simple, Stmt, Targets, Tree, TypeSpec, UnOp, ValueSpec,
};
