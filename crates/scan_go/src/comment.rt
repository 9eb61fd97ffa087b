//! Comments.

ghost use Rattle.std.specs.Prelude.{◌≡◌, ◌+◌, ◌<◌, ◌≤◌, ◌==◌, length, position, IfSome};
ghost use Rattle.std.specs.List.{prefix_len};
ghost use Rattle.scan_go.specs.Characters.{is_within_line};
ghost use Rattle.scan_go.specs.Comments.{comment_end, gap_of, line_comment, general_comment};
ghost use Rattle.scan_go.specs.Pieces.{PieceFits};

use crate::character::is_within_line;
use crate::fault::FaultKind;
use crate::piece::Piece;

/// How many bytes there are up to the end of the line.
pub fn line_len(rest: &[u8]) -> usize
    ensures value { result ≡ prefix_len is_within_line rest.now }
    ensures within { result ≤ length rest.now }
{
    rest.iter().take_while(|b| is_within_line(**b)).count()
}

/// How many bytes there are up to the end of the first `*/`.
#[tactic(auto, unfolding(crate::specs::Comments::comment_end))]
fn comment_end(rest: &[u8]) -> Option<usize>
    ensures value { result ≡ comment_end rest.now }
    ensures within { IfSome result (λ n. n ≤ length rest.now) }
{
    for i in 0..rest.len() {
        if rest[i..].starts_with(b"*/") {
            return Some(i + 2);
        }
    }
    None
}

fn first_nul(bytes: &[u8]) -> Option<usize>
    ensures { result ≡ position (λ b. b == 0) bytes.now }
{
    bytes.iter().position(|b| *b == 0)
}

fn gap_of(rest: &[u8], len: usize) -> Piece
    requires some { 0 < len }
    requires within { len ≤ length rest.now }
    ensures value { result ≡ gap_of len rest.now }
    ensures within { PieceFits (length rest.now) result }
{
    match first_nul(&rest[..len]) {
        Some(nul) => Piece::Fault(FaultKind::Nul, nul),
        None => Piece::Gap(len),
    }
}

/// A comment that begins with `//`.
pub fn line_comment(rest: &[u8]) -> Piece
    requires { 0 < prefix_len is_within_line rest.now }
    ensures value { result ≡ line_comment rest.now }
    ensures within { PieceFits (length rest.now) result }
{
    gap_of(rest, line_len(rest))
}

/// A comment that begins with `/*`.
pub fn general_comment(rest: &[u8]) -> Piece
    requires { 2 ≤ length rest.now }
    ensures value { result ≡ general_comment rest.now }
    ensures within { PieceFits (length rest.now) result }
{
    match comment_end(&rest[2..]) {
        Some(len) => gap_of(rest, 2 + len),
        None => Piece::Fault(FaultKind::OpenComment, 0),
    }
}
