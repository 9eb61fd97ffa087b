//! The words of types, where the verdicts of the structs are known.

ghost use Rattle.std.specs.Prelude.{◌≡◌, ℕ, List, Option};
ghost use Rattle.struct_sizes.specs.Structs.{Fields, prefixed_of};
ghost use Rattle.struct_sizes.specs.Verdicts.{AreVerdicts, IsTypeVerdict};
ghost use Rattle.struct_sizes.specs.Filling.{is_base_refused};

use crate::faults::level_fault;
use crate::forms::{Base, PrefixedType};
use crate::judging::is_refused;
use crate::verdicts::{TypeRefusal, Verdict, Verdicts};
use crate::words::words_by;

/// Whether a base is a refused struct.
fn is_base_refused(verdicts: &[Verdict], base: Base) -> bool
    ensures { result ≡ is_base_refused verdicts.now base }
{
    match base {
        Base::Int | Base::Bool => false,
        Base::Struct(id) => is_refused(verdicts, id.0),
    }
}

/// The words of a type, by what `settle` found of the structs. It is refused where its base is, or else at the innermost array that
/// has too few or too many words.
pub fn type_words(found: &Verdicts, t: &PrefixedType) -> Result<u32, TypeRefusal>
    ensures { (ss : List Fields) (table : List (Option ℕ)) → AreVerdicts ss table found.now → IsTypeVerdict ss table (prefixed_of t.now) result }
{
    if is_base_refused(&found.verdicts, t.base) {
        return Err(TypeRefusal::Base);
    }
    if let Some(fault) = level_fault(&found.words, t) {
        return Err(TypeRefusal::Level(fault));
    }
    words_by(&found.words, t).ok_or(TypeRefusal::Base)
}
