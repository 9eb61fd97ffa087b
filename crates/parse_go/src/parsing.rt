//! The tree of a text.

ghost use Rattle.std.specs.Prelude.{◌≡◌, List, length, IfOk, IfErr};
ghost use Rattle.scan_go.specs.Lines.{pos_at};
ghost use Rattle.syntax.specs.Declarations.{Syntax, syntax_of};
ghost use Rattle.syntax.specs.Spans.{FileSpans};
ghost use Rattle.parse_expressions.specs.Terminals.{terminals_of};
ghost use Rattle.parse_go.specs.Grammar.{IsProgram, IsText};
ghost use Rattle.parse_go.specs.Faults.{IsFirstFault, GivesTree};
ghost use Rattle.parse_go.specs.Signatures.{file_in};
ghost use Rattle.parse_go.specs.States.{state_of, fault_at, Finishes, HasOneFile};

use crate::fault::ParseFault;
use crate::machine::step;
use crate::signature::File;
use crate::state::State;
use base::Pos;
use parse_expressions::{StepFault, terminal_of};
use scan_go::{Token, Tokens};
use std::alloc::Global;
use syntax::Tree;

fn finish(state: State) -> Option<File>
    ensures { Finishes result (state_of state) }
{
    match state {
        State::Declaration(file) => Some(file),
        other => {
            drop(other);
            None
        }
    }
}

fn fault_at(fault: StepFault, pos: Pos) -> ParseFault
    ensures { result ≡ fault_at fault pos }
{
    match fault {
        StepFault::NoMemory => ParseFault::NoMemory,
        StepFault::Unexpected => ParseFault::Unexpected(pos),
        StepFault::TooDeep => ParseFault::TooDeep(pos),
    }
}

/// The declarations of the tokens of a text that ends at a position.
fn file_of(alloc: Global, tokens: &[Token], end: Pos) -> Result<File, ParseFault>
    ensures found { IfOk result (λ f. IsProgram (terminals_of tokens.now) (file_in f)) }
    ensures one { IfOk result (λ f. HasOneFile (terminals_of tokens.now) (file_in f)) }
    ensures fault { IfErr result (IsFirstFault tokens.now end) }
{
    let mut state = State::Package;
    for token in tokens {
        match step(alloc, state, terminal_of(*token)) {
            Ok(next) => state = next,
            Err(fault) => return Err(fault_at(fault, token.pos)),
        }
    }
    match finish(state) {
        Some(file) => Ok(file),
        None => Err(ParseFault::Unexpected(end)),
    }
}

/// The tree of the tokens of a text [Go specification, Source file organization, Declarations and scope, Function
/// declarations, Types, Statements, Expressions]. It takes over the tokens' text.
pub fn parse(alloc: Global, tokens: Tokens) -> Result<Tree, ParseFault>
    // What is answered is the tree of these tokens, with their text.
    ensures found { IfOk result (λ tree. IsText tokens.text tokens.list (syntax_of tree)) }

    // Where they have a tree it is answered, unless memory runs out; so they have no other.
    ensures only { (tree : Syntax) → IsText tokens.text tokens.list tree
        → GivesTree result tree }

    // The span of each name lies in the text.
    ensures spans { IfOk result
        (λ tree. FileSpans (length tokens.text) (syntax_of tree).file) }

    // The first token with which no text begins, or the first whose nesting passes the limit.
    ensures fault { let end = pos_at tokens.text (length tokens.text) in
        IfErr result (IsFirstFault tokens.list end) }
{
    let file = file_of(alloc, tokens.list(), tokens.end())?;
    Ok(Tree {
        text: tokens.into_text(),
        package: file.package_name,
        decls: file.decls,
    })
}
