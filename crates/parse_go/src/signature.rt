//! What was read before the body of a function.

use base::Pos;
use syntax::{Decl, Name, Params};

/// The package's name, and the declarations so far.
#[derive(Drop)]
pub struct File {
    pub package_name: Name,
    pub decls: Vec<Decl>,
}

/// A function up to its parameters, with the position of its word, after the declarations before it.
#[derive(Drop)]
pub struct Named {
    pub file: File,
    pub pos: Pos,
    pub name: Name,
}

/// A function up to its body.
#[derive(Drop)]
pub struct Signature {
    pub named: Named,
    pub params: Params,
    pub results: Params,
}
