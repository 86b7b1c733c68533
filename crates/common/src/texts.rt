//! Parts of texts: what is before and after a mark, and numbers.
ghost use Rattle.std.specs.Prelude.{◌≡◌, ◌==◌};
ghost use Rattle.std.specs.List.{position};
ghost use Rattle.common.specs.Splits.{before, rest_after};
ghost use Rattle.common.specs.Numbers.{number_of};

/// The position of the first mark.
fn place_of(text: &[u8], mark: u8) -> Option<usize>
    ensures { result ≡ position (λ b. b == mark) text.now }
{
    text.iter().position(|b| *b == mark)
}

/// The bytes before the first mark, or all of them.
#[tactic(auto, using(crate::proofs::Splits::cut_some, crate::proofs::Splits::cut_none))]
pub fn prefix(text: &[u8], mark: u8) -> &[u8]
    ensures { result.now ≡ before mark text.now }
{
    match place_of(text, mark) {
        Some(at) => &text[..at],
        None => text,
    }
}

/// The bytes after the first mark, or none.
pub fn after(text: &[u8], mark: u8) -> &[u8]
    ensures { result.now ≡ rest_after mark text.now }
{
    match place_of(text, mark) {
        Some(at) => &text[at + 1..],
        None => &[],
    }
}

/// The number of a text of 1 to 18 digits. Such a number fits 60 bits, so sums of a few don't overflow.
pub fn number(text: &[u8]) -> Option<u64>
    ensures { result ≡ number_of text.now }
{
    if text.is_empty() || text.len() > 18 {
        return None;
    }
    let mut value = 0;
    for digit in text {
        if !digit.is_ascii_digit() {
            return None;
        }
        value = 10 * value + (digit - b'0') as u64;
    }
    Some(value)
}
