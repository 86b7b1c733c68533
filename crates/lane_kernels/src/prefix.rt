//! The longest prefix of bytes in a class.

ghost use Rattle.std.specs.Prelude.{◌≡◌, ◌≤◌, ◌+◌, length, drop, take};
ghost use Rattle.std.specs.List.{prefix_len};
ghost use Rattle.std.specs.Char.{is_ascii};
ghost use Rattle.enc_model.specs.Index.{within};
ghost use Rattle.lane_kernels.specs.Classes.{is_plain_2022};

use crate::lanes::{
    Ascii, Class, LANES, LONGEST, Plain2022, Range, WIDE, WIDEST, are_ascii, are_long_ascii,
    wide_ascii,
};

/// The prefix's length, byte by byte.
fn prefix_by_bytes<C: Class>(class: &C, bytes: &[u8]) -> usize
    ensures { result ≡ prefix_len (C.has class.now) bytes.now }
{
    let mut at = 0;
    while at < bytes.len() && class.has(bytes[at]) {
        at += 1;
    }
    at
}

/// The prefix's length, vector by vector.
fn prefix<C: Class>(class: &C, bytes: &[u8]) -> usize
    ensures { result ≡ prefix_len (C.has class.now) bytes.now }
{
    let mut at = 0;
    'by_lanes: while bytes.len() - at >= LANES {
        let run = class.run(bytes, at);
        if run < LANES {
            return at + run;
        }
        at += LANES;
    }
    at + prefix_by_bytes(class, &bytes[at..])
}

/// The length of leading ASCII in whole blocks of 64 bytes.
#[inline(always)]
#[tactic(auto, using(crate::proofs::Prefixes::chunk_passes))]
fn skip_ascii(bytes: &[u8]) -> usize
    ensures within { result ≤ length bytes.now }
    ensures passed { prefix_len is_ascii bytes.now ≡ result + prefix_len is_ascii (drop result bytes.now) }
{
    let mut at = 0;
    while bytes.len() - at >= WIDE && wide_ascii(bytes, at) == WIDE {
        at += WIDE;
    }
    at
}

/// The length of leading ASCII in whole blocks of 256 bytes.
#[inline(always)]
#[tactic(auto, using(crate::proofs::Prefixes::on_true_at))]
fn skip_runs(bytes: &[u8]) -> usize
    ensures within { result ≤ length bytes.now }
    ensures passed { prefix_len is_ascii bytes.now ≡ result + prefix_len is_ascii (drop result bytes.now) }
{
    let mut at = 0;
    'by_runs: while bytes.len() - at >= WIDEST && are_ascii(bytes, at) {
        at += WIDEST;
    }
    at
}

/// The length of leading ASCII in whole blocks of 512 bytes.
#[inline(always)]
#[tactic(auto, using(crate::proofs::Prefixes::on_true_at))]
fn skip_pairs_of_runs(bytes: &[u8]) -> usize
    ensures within { result ≤ length bytes.now }
    ensures passed { prefix_len is_ascii bytes.now ≡ result + prefix_len is_ascii (drop result bytes.now) }
{
    let mut at = 0;
    'by_pairs: while bytes.len() - at >= LONGEST && are_long_ascii(bytes, at) {
        at += LONGEST;
    }
    at
}

/// The length of leading ASCII in whole blocks, or 0 if the first 256 bytes aren't ASCII. Blocks of 512 bytes are tried
/// only after a first one of 256.
#[inline(always)]
fn skip_long_ascii(bytes: &[u8]) -> usize
    ensures within { result ≤ length bytes.now }
    ensures passed { prefix_len is_ascii bytes.now ≡ result + prefix_len is_ascii (drop result bytes.now) }
{
    if bytes.len() < WIDEST || !are_ascii(bytes, 0) {
        return 0;
    }
    let skipped = WIDEST + skip_pairs_of_runs(&bytes[WIDEST..]);
    skipped + skip_runs(&bytes[skipped..])
}

/// The length of leading ASCII if no long run begins here.
#[inline(always)]
fn short_ascii_prefix(bytes: &[u8]) -> usize
    ensures { result ≡ prefix_len is_ascii bytes.now }
{
    let skipped = skip_ascii(bytes);
    skipped + prefix(&Ascii, &bytes[skipped..])
}

/// The length of leading ASCII.
pub fn ascii_front(bytes: &[u8]) -> usize
    ensures { result ≡ prefix_len is_ascii bytes.now }
{
    let skipped = skip_long_ascii(bytes);
    skipped + short_ascii_prefix(&bytes[skipped..])
}

/// The length of leading ASCII among the first 32 bytes.
#[inline(always)]
pub fn ascii_lanes(bytes: &[u8]) -> usize
    requires { LANES ≤ length bytes.now }
    ensures { result ≡ prefix_len is_ascii (take LANES bytes.now) }
{
    Ascii.run(bytes, 0)
}

/// The length of the prefix of ASCII without 0E, 0F and 1B.
pub fn plain_front_2022(bytes: &[u8]) -> usize
    ensures { result ≡ prefix_len is_plain_2022 bytes.now }
{
    prefix(&Plain2022, bytes)
}

/// The length of the prefix of bytes from `lo` to `hi`, both included. It is 0 if `hi` is below `lo`.
pub fn range_front(bytes: &[u8], lo: u8, hi: u8) -> usize
    ensures { result ≡ prefix_len (within lo hi) bytes.now }
{
    prefix(&Range { lo, hi }, bytes)
}

/// The length of leading ASCII among these 32 bytes.
#[inline(always)]
pub fn ascii_chunk(lanes: &[u8; 32]) -> usize
    ensures { result ≡ prefix_len is_ascii lanes.now }
{
    Ascii.run(lanes, 0)
}

/// The length of the prefix of ASCII without 0E, 0F and 1B among these 32 bytes.
#[inline(always)]
pub fn plain_chunk_2022(lanes: &[u8; 32]) -> usize
    ensures { result ≡ prefix_len is_plain_2022 lanes.now }
{
    Plain2022.run(lanes, 0)
}
