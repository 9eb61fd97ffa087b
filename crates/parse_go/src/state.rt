//! What was read of a text, and what is wanted next.

ghost use Rattle.std.specs.Prelude.{◌≡◌};
ghost use Rattle.parse_expressions.specs.States.{context_in};
ghost use Rattle.parse_simple_statements.specs.SpecStates.{depth_of};
ghost use Rattle.parse_go.specs.Machine.{result_context};

use crate::parameters::Parameters;
use crate::signature::{File, Named, Signature};
use crate::type_specs::TypeSpecs;
use base::Pos;
use parse_expressions::Open;
use parse_simple_statements::{Declares, ValueSpecs};
use parse_statements::BodyState;
use syntax::{Name, Params};

/// A declaration of constants or variables is read, with the position of its word, after the declarations before it.
#[derive(Drop)]
pub struct InValues {
    pub file: File,
    pub kind: Declares,
    pub pos: Pos,
    pub specs: ValueSpecs,
    ghost outermost: { depth_of specs ≡ 0 },
}

/// A result without parentheses is read, after the parameters.
#[derive(Drop)]
pub struct InResult {
    pub named: Named,
    pub params: Params,
    pub reading: Open,
    ghost in_context: { context_in reading ≡ result_context },
}

/// What was read, and what is wanted next.
#[derive(Drop)]
pub enum State {
    /// The text begins.
    Package,
    /// After the word `package`.
    PackageName,
    /// After the name of the package.
    PackageEnd(Name),
    /// A declaration may begin, or the text may end.
    Declaration(File),
    Values(InValues),
    /// In a declaration of types, with the position of its word.
    Types(File, Pos, TypeSpecs),
    /// After the word `func`, with its position.
    Function(File, Pos),
    /// After the name of a function.
    Opening(Named),
    /// In the parameters of a function.
    Params(Named, Parameters),
    /// After them.
    Results(Named, Params),
    Result(InResult),
    /// In results in parentheses, after the parameters.
    ResultList(Named, Params, Parameters),
    /// After them.
    Body(Signature),
    /// In the body of a function.
    InBody(Signature, BodyState),
    /// After a declaration.
    End(File),
}
