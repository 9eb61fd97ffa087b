//! Positions and inserted semicolons.

ghost use Rattle.std.specs.Prelude.{◌≡◌, ◌+◌, ◌<◌, ◌≤◌, IfOk, OnOk, ◌++◌, length};
ghost use Rattle.scan_go.specs.Tokens.{InOrder};
ghost use Rattle.scan_go.specs.TokenList.{most_bytes};
ghost use Rattle.scan_go.specs.Lines.{text_start, pos_after, pos_at, PosFits, inserted, closes_line, gap_after, ends_line, with_semicolons};

use crate::comment::line_len;
use crate::lexeme::Lexeme;
use crate::spelling::{Keyword, Op};
use crate::token::{Kind, Token};
use base::Pos;
use std::alloc::{AllocError, Global};

/// The position of the first byte of a text.
pub fn text_start() -> Pos
    ensures value { result ≡ text_start }
    ensures fits { PosFits result }
{
    Pos {
        offset: 0,
        line: 1,
        col: 1,
    }
}

/// The position after the bytes.
fn pos_after(start: Pos, bytes: &[u8]) -> Pos
    requires start { PosFits start }
    requires room { start.offset + length bytes.now ≤ most_bytes }
    ensures value { result ≡ pos_after start bytes.now }
    ensures offset { result.offset ≡ start.offset + length bytes.now }
    ensures fits { PosFits result }
{
    let mut pos = start;
    for b in bytes {
        pos = if *b == b'\n' {
            Pos {
                offset: pos.offset + 1,
                line: pos.line + 1,
                col: 1,
            }
        } else {
            Pos {
                offset: pos.offset + 1,
                line: pos.line,
                col: pos.col + 1,
            }
        };
    }
    pos
}

/// The position of a later byte than the one at a position.
#[tactic(auto, using(crate::proofs::LinesSoFar::pos_later))]
pub fn pos_of(text: &[u8], pos: Pos, to: usize) -> Pos
    requires pos { pos ≡ pos_at text.now pos.offset }
    requires fits { PosFits pos }
    requires order { pos.offset ≤ to }
    requires within { to ≤ length text.now }
    requires room { length text.now ≤ most_bytes }
    ensures value { result ≡ pos_at text.now to }
    ensures offset { result.offset ≡ to }
    ensures fits { PosFits result }
{
    pos_after(pos, &text[pos.offset as usize..to])
}

/// Whether the token ends a statement where its line ends.
fn closes_line(kind: Kind) -> bool
    ensures { result ≡ closes_line kind }
{
    match kind {
        Kind::Name | Kind::Number(_) | Kind::String => true,
        Kind::Keyword(keyword) => match keyword {
            Keyword::Break | Keyword::Continue | Keyword::Fallthrough | Keyword::Return => true,
            _ => false,
        },
        Kind::Op(op) => match op {
            Op::Increment | Op::Decrement | Op::RightParen | Op::RightBracket | Op::RightBrace => {
                true
            }
            _ => false,
        },
    }
}

fn semicolon(pos: Pos) -> Token
    ensures { result ≡ record { kind = Kind.Op Op.Semicolon; pos = pos; end = pos.offset } }
{
    Token {
        kind: Kind::Op(Op::Semicolon),
        pos,
        end: pos.offset,
    }
}

/// The bytes between a token and the next one.
#[tactic(auto, using(crate::proofs::LinesSoFar::order_within))]
fn gap_after<'a>(text: &'a [u8], lexeme: &Lexeme, others: &[Lexeme]) -> &'a [u8]
    requires { InOrder lexeme.now.end others.now (length text.now) }
    ensures value { result.now ≡ gap_after text.now lexeme.now others.now }
    ensures within { lexeme.now.end + length result.now ≤ length text.now }
{
    match others.split_first() {
        None => &text[lexeme.end..],
        Some((next, _)) => &text[lexeme.end..next.start],
    }
}

/// Whether no token follows on the same line.
fn ends_line(gap: &[u8], others: &[Lexeme]) -> bool
    ensures { result ≡ ends_line gap.now others.now }
{
    others.is_empty() || line_len(gap) < gap.len()
}

/// Puts the semicolon after a token, where the end of its line brings one.
fn insert_semicolon(
    tokens: &mut Vec<Token>,
    text: &[u8],
    lexeme: &Lexeme,
    pos: Pos,
    others: &[Lexeme],
) -> Result<(), AllocError>
    requires pos { pos ≡ pos_at text.now pos.offset }
    requires offset { pos.offset ≡ lexeme.now.end }
    requires fits { PosFits pos }
    requires order { InOrder lexeme.now.end others.now (length text.now) }
    requires room { length text.now ≤ most_bytes }
    ensures { OnOk result (tokens.new.items ≡ tokens.old.items ++ inserted text.now lexeme.now others.now) }
{
    let gap = gap_after(text, lexeme, others);
    if closes_line(lexeme.kind) && ends_line(gap, others) {
        let line_end = lexeme.end + line_len(gap);
        tokens.push(semicolon(pos_of(text, pos, line_end)))?;
    }
    Ok(())
}

/// The tokens with their positions, and with the semicolons that the line ends bring.
#[tactic(auto, using(crate::proofs::LinesSoFar::order_within, crate::proofs::LinesSoFar::order_end), unfolding(crate::specs::Lines::pos_at))]
pub fn with_semicolons(
    alloc: Global,
    text: &[u8],
    lexemes: &[Lexeme],
) -> Result<Vec<Token>, AllocError>
    requires order { InOrder 0 lexemes.now (length text.now) }
    requires room { length text.now ≤ most_bytes }
    ensures { IfOk result (λ v. v.items ≡ with_semicolons text.now lexemes.now) }
{
    let mut tokens = Vec::new(alloc);
    let mut pos = text_start();
    let mut rest = lexemes;
    while let Some((lexeme, others)) = rest.split_first() {
        let start = pos_of(text, pos, lexeme.start);
        let end = pos_of(text, start, lexeme.end);
        tokens.push(Token {
            kind: lexeme.kind,
            pos: start,
            end: end.offset,
        })?;
        insert_semicolon(&mut tokens, text, lexeme, end, others)?;
        pos = end;
        rest = others;
    }
    Ok(tokens)
}
