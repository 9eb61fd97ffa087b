//! Laws of the definitions. Each function carries one as its clause, and does nothing.

ghost use Rattle.string_value.specs.Laws.{EscapesAgree, LiteralsHaveNoBareBackslash};

/// After a backslash the tokens of a text allow just those escapes that stand for something.
pub fn escapes_agree()
    ensures { EscapesAgree }
{}

/// In a text that has tokens, no string literal has a backslash that stands for nothing.
pub fn literals_have_no_bare_backslash()
    ensures { LiteralsHaveNoBareBackslash }
{}
