//! The end of a head.
ghost use Rattle.std.specs.Prelude.{◌≡◌, ◌==◌, ◌≤◌, length, IfSome, option_map};
ghost use Rattle.std.specs.List.{position};
ghost use Rattle.tus_request.specs.Lines.{head_extent, is_empty_line};
ghost use Rattle.tus_request.specs.Extents.{shown};

use memchr::memchr;

/// The extent of a head.
#[derive(Clone, Copy, Drop)]
pub(crate) struct Reach {
    /// Its length in bytes.
    pub(crate) len: usize,
    /// How many of its lines aren't empty.
    pub(crate) texts: usize,
}

/// Whether the line is empty. Both LF and CRLF end a line (RFC 9112, 2.2).
fn is_empty(line: &[u8]) -> bool
    ensures { result ≡ is_empty_line line.now }
{
    matches!(line, b"\n" | b"\r\n")
}

/// The position of the first LF.
#[tactic(auto, using(crate::proofs::Positions::position_is))]
pub(crate) fn line_feed(bytes: &[u8]) -> Option<usize>
    ensures { result ≡ position (λ b. b == 10) bytes.now }
{
    memchr(b'\n', bytes)
}

/// The extent of the head at the start of the bytes, if it is finished.
pub(crate) fn measure(bytes: &[u8]) -> Option<Reach>
    ensures extent { option_map shown result ≡ head_extent bytes.now }
    ensures within { IfSome result (λ r. r.len ≤ length bytes.now) }
{
    let mut rest = bytes;
    let mut len = 0;
    let mut texts = 0;
    while let Some(last) = line_feed(rest) {
        let (line, more) = rest.split_at(last + 1);
        rest = more;
        len += line.len();
        if !is_empty(line) {
            texts += 1;
        } else if texts > 0 {
            return Some(Reach { len, texts });
        }
    }
    None
}
