//! Operators and punctuation.

ghost use Rattle.std.specs.Prelude.{◌≡◌, ◌<◌, length};
ghost use Rattle.scan_go.specs.Operators.{operator_of, operator_piece, OperatorFits};
ghost use Rattle.scan_go.specs.Pieces.{PieceFits};

use crate::fault::FaultKind;
use crate::piece::Piece;
use crate::spelling::{OPERATORS, Op};
use crate::token::Kind;

#[tactic(auto, using(crate::proofs::LongestOperator::fits))]
fn operator_of(rest: &[u8]) -> Option<Op>
    ensures value { result ≡ operator_of rest.now }
    ensures within { OperatorFits (length rest.now) result }
{
    OPERATORS
        .iter()
        .copied()
        .find(|op| rest.starts_with(op.spelling().as_bytes()))
}

/// The longest operator, or a character at which no token begins.
pub fn operator_piece(rest: &[u8]) -> Piece
    requires { 0 < length rest.now }
    ensures value { result ≡ operator_piece (operator_of rest.now) }
    ensures within { PieceFits (length rest.now) result }
{
    match operator_of(rest) {
        Some(op) => Piece::Token(Kind::Op(op), op.spelling().len()),
        None => Piece::Fault(FaultKind::BadChar, 0),
    }
}
