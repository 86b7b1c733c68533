//! Characters that are cut short by a byte that can't continue them.

ghost use Rattle.std.specs.Prelude.{◌≡◌, ◌+◌, ◌*◌, ◌<◌, ◌≤◌, ◌∷◌, [], ℕ, List, false, length, slice_index, true};
ghost use Rattle.enc_feed.specs.Batches.{BatchTook};
ghost use Rattle.enc_model.specs.Index.{within};
ghost use Rattle.enc_unicode.specs.Cuts.{AreCut, IsLead};

use crate::by_characters::follows;
use enc_feed::{Batch, ROOM};

/// How many continuation bytes these begin with, at most `most`.
#[inline(always)]
pub fn trail_len(bytes: &[u8], most: usize) -> usize
    ensures within { result ≤ length bytes.now }
    ensures few { result ≤ most }
    ensures trails { (k : ℕ) → k < result → within 0x80 0xBF (slice_index bytes.now k) ≡ true }
    ensures end { result < most → result < length bytes.now → within 0x80 0xBF (slice_index bytes.now result) ≡ false }
{
    let mut at = 0;
    while at < most && at < bytes.len() && follows(bytes[at]) {
        at += 1;
    }
    at
}

/// How many bytes follow this lead if all may be 80 to BF; 0 for all other bytes.
#[inline(always)]
fn needed_after(lead: u8) -> usize
    ensures { 0 < result → IsLead lead result }
{
    match lead {
        0xC2..=0xDF => 1,
        0xE1..=0xEC | 0xEE | 0xEF => 2,
        0xF1..=0xF3 => 3,
        _ => 0,
    }
}

/// How many bytes a cut character here has, or 0 if none begins here.
#[inline(always)]
fn cut_len(bytes: &[u8]) -> usize
    requires { 0 < length bytes.now }
    ensures within { result < length bytes.now }
    ensures cut { 0 < result → AreCut bytes.now result (0xFFFD ∷ []) }
{
    let needed = needed_after(bytes[0]);
    let len = 1 + trail_len(&bytes[1..], needed);
    if len <= needed && len < bytes.len() {
        len
    } else {
        0
    }
}

/// Appends U+FFFD for each of the cut characters that these begin with, and returns the length of all of them.
#[inline(always)]
pub fn push_cuts(bytes: &[u8], batch: &mut Batch) -> usize
    requires some { 0 < length bytes.now }
    requires room { length batch.old + 4 * length bytes.now ≤ ROOM }
    ensures within { result < length bytes.now }
    ensures took { (text : List ℕ) × AreCut bytes.now result text × BatchTook batch.old text batch.new }
    ensures few { length batch.new ≤ length batch.old + 4 * result }
{
    let mut at = 0;
    'by_characters: while at < bytes.len() {
        let len = cut_len(&bytes[at..]);
        if len == 0 {
            break;
        }
        batch.push('\u{FFFD}');
        at += len;
    }
    at
}
