//! The laws. Each function carries one as its clause, and does nothing.

ghost use Rattle.scan_laws.specs.Laws.{KeywordsAreSpelled, NamesAreWhole, NumbersAreLiterals, OnlySpacesAndCommentsBetween, OperatorsAreLongest, StringsAreLiterals};

/// Before the first token of a text, between two tokens and after the last one stand only spaces and comments.
pub fn only_spaces_and_comments_between()
    ensures { OnlySpacesAndCommentsBetween }
{}

/// A name begins with a letter, goes on with letters and digits, and none of them stands after it.
pub fn names_are_whole()
    ensures { NamesAreWhole }
{}

/// The bytes of a keyword are its spelling, and no letter or digit stands after them.
pub fn keywords_are_spelled()
    ensures { KeywordsAreSpelled }
{}

/// The bytes of an operator are its spelling, and no longer operator stands in its place.
pub fn operators_are_longest()
    ensures { OperatorsAreLongest }
{}

/// The bytes of a number are an integer literal, and no longer one stands in its place.
pub fn numbers_are_literals()
    ensures { NumbersAreLiterals }
{}

/// The bytes of a string are a string literal in double quotes.
pub fn strings_are_literals()
    ensures { StringsAreLiterals }
{}
