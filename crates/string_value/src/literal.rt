//! The value of a string literal.

ghost use Rattle.std.specs.Prelude.{◌≡◌, ◌++◌, IfOk, OnOk};
ghost use Rattle.string_value.specs.StringValue.{bytes_of, content, string_value};

use crate::piece::{Meaning, first_piece};
use base::NoMemory;
use std::alloc::Global;

/// What stands between the quotes.
fn content(spelling: &[u8]) -> &[u8]
    ensures { result.now ≡ content spelling.now }
{
    if spelling.len() < 2 {
        return &[];
    }
    &spelling[1..spelling.len() - 1]
}

/// Puts after the bytes what a piece stands for.
fn append(bytes: &mut Vec<u8>, meaning: Meaning) -> Result<(), NoMemory>
    ensures { OnOk result (bytes.new.items ≡ bytes.old.items ++ bytes_of meaning) }
{
    match meaning {
        Meaning::Nothing => {}
        Meaning::Byte(b) => bytes.push(b)?,
        Meaning::Character(c) => {
            let mut buffer = [0; 4];
            bytes.extend_from_slice(c.encode_utf8(&mut buffer).as_bytes())?;
        }
    }
    Ok(())
}

/// The bytes that a string literal in double quotes stands for (Go specification, "String literals"), from its spelling
/// with the quotes. It fails only where memory is refused. Of a spelling that is no well-formed literal, the first and
/// the last byte are taken for the quotes, and a backslash that begins no escape stands for nothing.
pub fn string_value(alloc: Global, spelling: &[u8]) -> Result<Vec<u8>, NoMemory>
    ensures { IfOk result (λ v. v.items ≡ string_value spelling.now) }
{
    let mut value = Vec::new(alloc);
    let mut rest = content(spelling);
    'pieces: while !rest.is_empty() {
        let piece = first_piece(rest);
        append(&mut value, piece.meaning)?;
        rest = &rest[piece.len..];
    }
    Ok(value)
}
