//! The search for a head's end.
ghost use Rattle.std.specs.Prelude.{◌≡◌, ◌<◌, true, length};
ghost use Rattle.tus_request.specs.Searches.{after_byte, after_bytes, is_head_found, is_in_start};
ghost use Rattle.tus_request.specs.declared.search.Search.TheVariants.{Text};

use crate::lines::line_feed;

/// The state of the search.
#[derive(Clone, Copy, Drop)]
pub(crate) enum Search {
    /// At the start of a line; all lines so far are empty.
    Leading,
    /// After a CR at the start of such a line.
    LeadingCr,
    /// In a line that isn't empty.
    Text,
    /// At the start of a line after one that isn't empty.
    Start,
    /// After a CR at the start of such a line.
    StartCr,
    /// After the empty line that ends the head.
    Over,
}

impl Search {
    /// Whether the head's end was found.
    pub(crate) fn is_over(self) -> bool
        ensures { result ≡ is_head_found self }
    {
        matches!(self, Search::Over)
    }

    /// The state after one more byte at the start of a line, or after a CR there.
    fn after_byte(self, byte: u8) -> Self
        requires { is_in_start self ≡ true }
        ensures { result ≡ after_byte self byte }
    {
        match (self, byte) {
            (Search::Start | Search::StartCr, b'\n') => Search::Over,
            (Search::Leading | Search::LeadingCr, b'\n') => Search::Leading,
            (Search::Leading, b'\r') => Search::LeadingCr,
            (Search::Start, b'\r') => Search::StartCr,
            _ => Search::Text,
        }
    }

    /// The state after more bytes. Those after the head's end aren't read, and a line that isn't empty is passed at
    /// once.
    pub(crate) fn after(self, bytes: &[u8]) -> Self
        ensures { result ≡ after_bytes self bytes.now }
    {
        let mut search = self;
        let mut rest = bytes;
        while let Some((byte, more)) = rest.split_first() {
            match search {
                Search::Over => return search,
                Search::Text => (search, rest) = after_line(rest),
                _ => (search, rest) = (search.after_byte(*byte), more),
            }
        }
        search
    }
}

/// The state after the rest of a line that isn't empty, and the bytes after it.
fn after_line(bytes: &[u8]) -> (Search, &[u8])
    ensures same { after_bytes result.0 result.1.now ≡ after_bytes Text bytes.now }
    ensures shorter { 0 < length bytes.now → length result.1.now < length bytes.now }
{
    match line_feed(bytes) {
        Some(at) => (Search::Start, &bytes[at + 1..]),
        None => (Search::Text, &[]),
    }
}
