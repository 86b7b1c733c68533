//! Finding the well-formed text that bytes begin with.

ghost use Rattle.std.specs.Prelude.{◌≡◌, ◌<◌, ◌≤◌, length, take};
ghost use Rattle.enc_unicode.specs.Looks.{IsNarrow};

use crate::by_characters::text_before_fault;
use crate::guesses::{FEWEST, seeming_end};
use enc_feed::BLOCK;
use lane_kernels::ascii_front;
use simdutf8::basic;
use std::str::from_utf8_unchecked;

/// The length of the first window.
const FIRST: usize = 1024;

/// The length of the longest window.
const WIDEST: usize = 4096;

/// How many bytes are searched for a fault: few enough that a wrong guess is cheap.
const GUESSED: usize = 1024;

/// Faults are rare if the texts between them have at least this many bytes.
const LONG: usize = 48;

/// The most bytes that are decoded from a fault on if faults are rare.
const FAULT: usize = 8;

/// A block has few faults if its text is at most this many bytes longer than the block.
const FEW: usize = 32;

/// Where to look for a text.
#[derive(Clone, Copy)]
pub enum Look {
    /// In this many bytes, or else up to the first fault in them.
    Within(usize),
    /// Up to the first fault of a piece that follows a faulty one.
    Resumed,
    /// Up to the next fault.
    ToFault,
    /// Not here, since a fault was found here.
    AtFault,
    /// Nowhere, since faults are dense.
    Nowhere,
}

impl Look {
    /// The strategy before any fault.
    pub fn first() -> Self
        ensures { IsNarrow result }
    {
        Look::Within(FIRST)
    }

    /// The strategy after a text of this length: a longer window if it filled this one; else the fault after it, if the
    /// text was long.
    pub fn after_text(self, found: usize) -> Self
        ensures { IsNarrow result }
    {
        match self {
            Look::Within(reach) if reach - reach.min(4) <= found => {
                let reach = reach.min(WIDEST / 2);
                Look::Within(reach + reach)
            }
            Look::ToFault | Look::Resumed if GUESSED - 4 <= found => Look::first(),
            Look::Resumed => Look::AtFault,
            _ if found < LONG => Look::Nowhere,
            _ => Look::AtFault,
        }
    }

    /// The strategy after a text, or after a block of which this many bytes were read and written.
    pub fn after(self, found: usize, read: usize, written: usize) -> Self
        ensures { IsNarrow self → IsNarrow result }
    {
        match found {
            0 => self.after_block(read, written),
            _ => self.after_text(found),
        }
    }

    /// The strategy after a block: texts aren't sought any more if it had many faults. A block that is only the rest of
    /// a character doesn't count.
    fn after_block(self, read: usize, written: usize) -> Self
        ensures { IsNarrow self → IsNarrow result }
    {
        match (self, read) {
            (Look::AtFault, _) => Look::ToFault,
            (_, 0..4) => self,
            _ if written - written.min(read) <= FEW => Look::ToFault,
            _ => Look::Nowhere,
        }
    }

    /// How many bytes to decode as a block if no text is found.
    pub fn block_len(self, bytes: &[u8]) -> usize
        requires { 0 < length bytes.now }
        ensures some { (0 < result) × (result ≤ length bytes.now) }
        ensures few { result ≤ BLOCK }
    {
        match self {
            Look::AtFault => fault_len(bytes),
            _ => block_len(bytes),
        }
    }
}

/// How many of these bytes are whole characters, if all but the last are well-formed.
fn whole(bytes: &[u8]) -> usize
    ensures { result ≤ length bytes.now }
{
    let len = bytes.len();
    for back in 1..4 {
        if len < back {
            return len;
        }
        let byte = bytes[len - back];
        if byte < 0x80 {
            return len;
        }
        if byte >= 0xC0 {
            let wanted = if byte < 0xE0 {
                2
            } else if byte < 0xF0 {
                3
            } else {
                4
            };
            return if wanted > back { len - back } else { len };
        }
    }
    len
}

/// Whether a character may begin with this byte.
#[inline(always)]
fn begins(byte: u8) -> bool {
    matches!(byte, 0x00..=0x7F | 0xC2..=0xF4)
}

/// How many bytes to decode from a fault on: the first, and those after it that begin no character.
fn fault_len(bytes: &[u8]) -> usize
    requires { 0 < length bytes.now }
    ensures some { (0 < result) × (result ≤ length bytes.now) }
    ensures few { result ≤ BLOCK }
{
    let most = FAULT.min(bytes.len());
    let mut at = 1;
    'by_bytes: while at < most && !begins(bytes[at]) {
        at += 1;
    }
    at
}

/// How many bytes to decode as a block without cutting a character.
fn block_len(bytes: &[u8]) -> usize
    requires { 0 < length bytes.now }
    ensures some { (0 < result) × (result ≤ length bytes.now) }
    ensures few { result ≤ BLOCK }
{
    if bytes.len() <= BLOCK {
        return bytes.len();
    }
    let len = whole(&bytes[..BLOCK]);
    if len == 0 { BLOCK } else { len }
}

/// The text in the first `reach` bytes, without a character that their end cuts. Empty if they aren't a text.
fn text_within(bytes: &[u8], reach: usize) -> &str
    ensures { result.now ≡ take (length result.now) bytes.now }
{
    let window = if reach < bytes.len() {
        &bytes[..reach]
    } else {
        bytes
    };
    match basic::from_utf8(&window[..whole(window)]) {
        Ok(text) => text,
        Err(_) => "",
    }
}

/// The text before the guessed end, in the first `GUESSED` bytes. Empty if the guess is wrong. If there are few bytes,
/// they are searched character by character.
#[inline(always)]
fn text_before_guess(bytes: &[u8]) -> &str
    ensures { result.now ≡ take (length result.now) bytes.now }
{
    if bytes.len() < FEWEST {
        return text_before_fault(bytes);
    }
    let end = if GUESSED < bytes.len() {
        seeming_end(&bytes[..GUESSED])
    } else {
        seeming_end(bytes)
    };
    text_within(bytes, end)
}

/// The first `reach` bytes.
#[inline(always)]
fn window(bytes: &[u8], reach: usize) -> &[u8]
    ensures { result.now ≡ take (length result.now) bytes.now }
{
    if reach < bytes.len() {
        &bytes[..reach]
    } else {
        bytes
    }
}

/// The run of ASCII that the bytes begin with.
#[inline(always)]
#[tactic(auto, using(crate::proofs::Scans::ascii_text))]
fn ascii_text(bytes: &[u8]) -> &str
    ensures { result.now ≡ take (length result.now) bytes.now }
{
    let len = ascii_front(bytes);
    unsafe { from_utf8_unchecked(&bytes[..len]) }
}

/// The text in the first `reach` bytes, or the text before its first fault.
fn text_in_reach(bytes: &[u8], reach: usize) -> &str
    ensures { result.now ≡ take (length result.now) bytes.now }
{
    let text = text_within(bytes, reach);
    if text.is_empty() {
        text_before_guess(bytes)
    } else {
        text
    }
}

/// The text at the start of a piece: a long run of ASCII, or else the text in the first window.
fn text_at_first(bytes: &[u8]) -> &str
    ensures { result.now ≡ take (length result.now) bytes.now }
{
    let run = ascii_text(window(bytes, WIDEST));
    if FIRST.min(bytes.len()) <= run.len() {
        run
    } else {
        text_in_reach(bytes, FIRST)
    }
}

/// A text that the bytes begin with, by this strategy.
pub fn text_found(bytes: &[u8], look: Look) -> &str
    ensures { result.now ≡ take (length result.now) bytes.now }
{
    match look {
        Look::Within(FIRST) => text_at_first(bytes),
        Look::Within(reach) => text_in_reach(bytes, reach),
        Look::ToFault | Look::Resumed => text_before_guess(bytes),
        Look::AtFault | Look::Nowhere => "",
    }
}
