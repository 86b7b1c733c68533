//! Parts of header values.
ghost use Rattle.std.specs.Prelude.{◌≡◌};
ghost use Rattle.common.specs.Splits.{before};
ghost use Rattle.tus_request.specs.Texts.{any_case, skipped, trimmed, lists_word};

/// Whether the text is the word, compared without case.
pub(crate) fn is_word(text: &[u8], word: &str) -> bool
    ensures { result ≡ any_case word.now text.now }
{
    text.eq_ignore_ascii_case(word.as_bytes())
}

/// The text without blanks at its start.
fn without_prefix<'t>(text: &'t [u8], blanks: &[u8]) -> &'t [u8]
    ensures { result.now ≡ skipped blanks.now text.now }
{
    let mut rest = text;
    while let Some((first, more)) = rest.split_first() {
        if !blanks.contains(first) {
            return rest;
        }
        rest = more;
    }
    rest
}

/// The text without blanks at both ends.
pub(crate) fn trimmed<'t>(text: &'t [u8], blanks: &[u8]) -> &'t [u8]
    ensures { result.now ≡ trimmed blanks.now text.now }
{
    let mut rest = without_prefix(text, blanks);
    while let Some((last, more)) = rest.split_last() {
        if !blanks.contains(last) {
            return rest;
        }
        rest = more;
    }
    rest
}

/// Whether a list with commas has the word, compared without case (RFC 9110, 5.6.1).
pub(crate) fn lists_word(text: &[u8], word: &str) -> bool
    ensures { result ≡ lists_word word.now text.now }
{
    text.split(|b| *b == b',')
        .any(|part| is_word(trimmed(part, b" \t"), word))
}

/// The path of a request target: the part before the first question mark.
pub(crate) fn path(target: &str) -> &str
    ensures { result.now ≡ before 63 target.now }
{
    match target.split_once('?') {
        Some((path, _)) => path,
        None => target,
    }
}
