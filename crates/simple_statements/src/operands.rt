//! The operands of `print`, `println` and `panic`, whose strings get numbers.

ghost use Rattle.std.specs.Prelude.{◌≡◌, IfOk, OnOk, length, map, [], ◌∷◌};
ghost use Rattle.typed.specs.View.{piece_of};
ghost use Rattle.names.specs.Scope.{scope_of, with_strings};
ghost use Rattle.given_values.specs.Passing.{part_view};
ghost use Rattle.simple_statements.specs.SimpleStatements.{strings_of, piece_from, pieces_from};

use base::NoMemory;
use given_values::Part;
use names::Scope;
use std::alloc::Global;
use typed::Piece;

/// The number of the next string.
fn next_string(scope: &Scope) -> Result<u32, NoMemory>
    ensures { IfOk result (λ number. number ≡ length (scope_of scope.now).strings) }
{
    match u32::try_from(scope.string_count()) {
        Ok(number) => Ok(number),
        Err(_) => Err(NoMemory),
    }
}

/// Puts a string after those of the statements so far.
fn add_string(scope: &mut Scope, bytes: Vec<u8>) -> Result<(), NoMemory>
    ensures { OnOk result (scope_of scope.new ≡ with_strings (scope_of scope.old) (bytes.items ∷ [])) }
{
    scope.strings.push(bytes)?;
    Ok(())
}

/// One operand: a string comes after those of the statements so far.
pub fn numbered(scope: &mut Scope, part: Part) -> Result<Piece, NoMemory>
    ensures piece { IfOk result (λ q. piece_of q ≡ piece_from (length (scope_of scope.old).strings) (part_view part)) }
    ensures scope { OnOk result (scope_of scope.new ≡ with_strings (scope_of scope.old) (strings_of (part_view part ∷ []))) }
{
    match part {
        Part::Said(bytes) => {
            let number = next_string(scope)?;
            add_string(scope, bytes)?;
            Ok(Piece::Text(number))
        }
        Part::Valued(type_id, value) => Ok(Piece::Shown(type_id, value)),
    }
}

/// The operands of a call.
pub fn pieces(alloc: Global, scope: &mut Scope, parts: Vec<Part>) -> Result<Vec<Piece>, NoMemory>
    ensures pieces { IfOk result (λ v. map piece_of v.items
        ≡ pieces_from (length (scope_of scope.old).strings) (map part_view parts.items)) }
    ensures scope { OnOk result (scope_of scope.new
        ≡ with_strings (scope_of scope.old) (strings_of (map part_view parts.items))) }
{
    let mut pieces = Vec::new(alloc);
    for part in parts {
        let piece = numbered(scope, part)?;
        pieces.push(piece)?;
    }
    Ok(pieces)
}
