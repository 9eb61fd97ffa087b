//! Parts of a text: what stands before a separator, behind it, or behind a beginning.

ghost use Rattle.std.specs.Prelude.{◌≡◌, ◌≤◌, length, None, Some, MatchOption};
ghost use Rattle.report_checks.specs.Cuts.{front, front_length, rest, after};

/// How many bytes stand before the first separator, or in the whole text where there is none.
pub(crate) fn front_length(text: &[u8], separator: u8) -> usize
    ensures is { result ≡ front_length separator text.now }
    ensures within { result ≤ length text.now }
{
    let mut length = 0;
    for byte in text {
        if *byte == separator {
            return length;
        }
        length += 1;
    }
    length
}

/// What stands before the first separator, or the whole text where there is none.
pub(crate) fn front(text: &[u8], separator: u8) -> &[u8]
    ensures { result.now ≡ front separator text.now }
{
    &text[..front_length(text, separator)]
}

/// What stands behind the first separator, if there is one.
pub(crate) fn rest(text: &[u8], separator: u8) -> Option<&[u8]>
    ensures { MatchOption result (rest separator text.now ≡ None) (λ r. rest separator text.now ≡ Some r.now) }
{
    let length = front_length(text, separator);
    if length < text.len() {
        Some(&text[length + 1..])
    } else {
        None
    }
}

/// What stands behind this beginning of a text, if the text has it.
pub(crate) fn after<'a>(text: &'a [u8], beginning: &[u8]) -> Option<&'a [u8]>
    ensures { MatchOption result (after beginning.now text.now ≡ None) (λ r. after beginning.now text.now ≡ Some r.now) }
{
    text.strip_prefix(beginning)
}
