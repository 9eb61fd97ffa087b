//! Laws of types, values and paths. Each function carries one as its clause, and does nothing.

ghost use Rattle.value_laws.specs.Laws.{ComparedByWords, ElementsAreEven, EqualWordsAreEqual, OtherPartsStay, PartsAreHeld, PartsAreSlices, PartsAreTyped, PartsFit, PartsLieApart, PathsJoin, PathsLeadOnce, ReplacedPartsAreRead, ReplacedPartsAreSlices, SameIsEqual, TableGivesTypes, TypedPathsJoin, TypesCountWords, WordsOfParts, ZerosAreHeld, ZerosAreZeros};

/// Each value of a type has as many words as the type says.
pub fn types_count_words()
    ensures { TypesCountWords }
{}

/// The words of the part at a path are a slice of those of the whole, within it.
pub fn parts_are_slices()
    ensures { PartsAreSlices }
{}

/// Where a part is replaced, its slice is, and no other word.
pub fn replaced_parts_are_slices()
    ensures { ReplacedPartsAreSlices }
{}

/// The same word by word.
pub fn words_of_parts()
    ensures { WordsOfParts }
{}

/// The same of words that hold what a value's words hold, in whatever way.
pub fn parts_are_held()
    ensures { PartsAreHeld }
{}

/// Parts neither of whose paths leads through the other have no word in common.
pub fn parts_lie_apart()
    ensures { PartsLieApart }
{}

/// The elements of an array lie one after the other, each with the words of its type.
pub fn elements_are_even()
    ensures { ElementsAreEven }
{}

/// A part is of the type that its path leads to, and the whole with another such part is of its type again.
pub fn parts_are_typed()
    ensures { PartsAreTyped }
{}

/// The numbers in a part fit in words where those of the whole do, and so with another part.
pub fn parts_fit()
    ensures { PartsFit }
{}

/// What is read at a path is what was put there last.
pub fn replaced_parts_are_read()
    ensures { ReplacedPartsAreRead }
{}

/// Parts whose paths and the replaced one's don't lead through each other stay.
pub fn other_parts_stay()
    ensures { OtherPartsStay }
{}

/// A part of a part is read and replaced by the joined path.
pub fn paths_join()
    ensures { PathsJoin }
{}

/// Offsets of joined paths add up, and joined paths lead where the second leads.
pub fn typed_paths_join()
    ensures { TypedPathsJoin }
{}

/// The zero value of a type is of the type, its words are 0, and its parts are zero values.
pub fn zeros_are_zeros()
    ensures { ZerosAreZeros }
{}

/// Words that are 0 hold the zero value of a type wherever 0 holds that of a number, that of a truth value, and no address.
pub fn zeros_are_held()
    ensures { ZerosAreHeld }
{}

/// `same` says whether two values are equal, where one has no slices but `nil`.
pub fn same_is_equal()
    ensures { SameIsEqual }
{}

/// Two values of one type are equal exactly where words that hold them are, where this is so of single words, as of values that
/// lead nowhere.
pub fn equal_words_are_equal()
    ensures { EqualWordsAreEqual }
{}

/// Comparing words one by one compares two values of a type, of which one has no slices but `nil`.
pub fn compared_by_words()
    ensures { ComparedByWords }
{}

/// In a table in which each type stands after those of its parts, each is made of the types that its entry names.
pub fn table_gives_types()
    ensures { TableGivesTypes }
{}

/// A path leads from a type to one type.
pub fn paths_lead_once()
    ensures { PathsLeadOnce }
{}
