//! The array types that a program states, entered into the table of its types.
//!
//! A checker of expressions looks a stated type up in the scope's table, and changes nothing there. So one pass over all
//! declarations goes before it and enters each array type, wherever one stands: in declarations, parameters, results,
//! literals, lengths and function bodies. A type enters after the types of its length and of its elements, so that a type of
//! arrays of arrays finds its elements' type in the table; the pass answers the type that an expression states, so that no
//! level of such a type is looked at again. Where a length or an element's type is not known, or the table refuses the type,
//! nothing enters, and the checker says why.
//!
//! Each length is looked at in the package's scope, where the names that functions declare are not known. There it can be
//! another than in the function; then one type more enters, which no program can tell.
#![tactic(auto)]

mod declarations;
mod expressions;
mod statements;

pub use declarations::enter_types;
