//! Short runs in faulty text: bytes that begin no character, and a little ASCII.

ghost use Rattle.std.specs.Prelude.{◌≡◌, ◌+◌, ◌*◌, ◌<◌, ◌≤◌, false, length, take};
ghost use Rattle.enc_feed.specs.Batches.{BatchTook};
ghost use Rattle.enc_model.specs.Stream.{steps};
ghost use Rattle.enc_model.specs.Utf8.{utf8, utf8_start};
ghost use Rattle.enc_unicode.specs.Looks.{begins_none};

use enc_feed::{Batch, LANES, ROOM};
use lane_kernels::ascii_lanes;

/// The most ASCII that is stored here: more is read faster as a text.
const FEW: usize = 8;

/// Whether no character begins with this byte.
#[inline(always)]
fn begins_none(b: u8) -> bool
    ensures { result ≡ begins_none b }
{
    matches!(b, 0x80..=0xC1 | 0xF5..=0xFF)
}

/// Appends U+FFFD for each leading byte that begins no character, and returns their count.
#[inline(always)]
fn push_faults(bytes: &[u8], batch: &mut Batch) -> usize
    requires { length batch.old + 12 * length bytes.now ≤ ROOM }
    ensures within { result ≤ length bytes.now }
    ensures text { BatchTook batch.old (steps utf8 false utf8_start (take result bytes.now)).text batch.new }
    ensures state { utf8_start ≡ (steps utf8 false utf8_start (take result bytes.now)).state }
    ensures unchanged { result ≡ 0 → batch.new ≡ batch.old }
{
    let mut at = 0;
    while at < bytes.len() && begins_none(bytes[at]) {
        batch.push('\u{FFFD}');
        at += 1;
    }
    at
}

/// Appends the leading ASCII if it is short, and returns its length.
#[inline(always)]
fn push_little_ascii(bytes: &[u8], batch: &mut Batch) -> usize
    requires { length batch.old + 12 * length bytes.now ≤ ROOM }
    ensures within { result ≤ length bytes.now }
    ensures text { BatchTook batch.old (steps utf8 false utf8_start (take result bytes.now)).text batch.new }
    ensures state { utf8_start ≡ (steps utf8 false utf8_start (take result bytes.now)).state }
    ensures unchanged { result ≡ 0 → batch.new ≡ batch.old }
{
    if bytes.len() < LANES {
        return 0;
    }
    let prefix = ascii_lanes(bytes);
    if prefix == 0 || FEW < prefix {
        return 0;
    }
    batch.push_prefix(bytes, prefix);
    prefix
}

/// Appends leading faults or a little ASCII, and returns how many bytes they are. If they are none, the batch is
/// unchanged.
#[inline(always)]
pub fn push_few(bytes: &[u8], batch: &mut Batch) -> usize
    requires some { 0 < length bytes.now }
    requires room { length batch.old + 12 * length bytes.now ≤ ROOM }
    ensures within { result ≤ length bytes.now }
    ensures text { BatchTook batch.old (steps utf8 false utf8_start (take result bytes.now)).text batch.new }
    ensures state { utf8_start ≡ (steps utf8 false utf8_start (take result bytes.now)).state }
    ensures unchanged { result ≡ 0 → batch.new ≡ batch.old }
{
    match bytes[0] {
        0x00..=0x7F => push_little_ascii(bytes, batch),
        0xC2..=0xF4 => 0,
        _ => push_faults(bytes, batch),
    }
}
