//! Finding the text before the first fault, character by character.

ghost use Rattle.std.specs.Prelude.{◌≡◌, ◌<◌, ◌≤◌, length, slice_index, take};
ghost use Rattle.std.specs.Str.{IsUtf8};
ghost use Rattle.enc_model.specs.Index.{within};

use lane_kernels::ascii_front;
use std::str::from_utf8_unchecked;

/// Whether this is a continuation byte.
#[inline(always)]
pub fn follows(byte: u8) -> bool
    ensures { result ≡ within 0x80 0xBF byte }
{
    matches!(byte, 0x80..=0xBF)
}

/// The length of the two-byte character here, or 0.
#[inline(always)]
#[tactic(auto, using(crate::proofs::Scans::two_text))]
fn two_len(bytes: &[u8]) -> usize
    requires some { 0 < length bytes.now }
    requires first { (0xC2 ≤ slice_index bytes.now 0) × (slice_index bytes.now 0 ≤ 0xDF) }
    ensures few { result ≤ length bytes.now }
    ensures utf8 { IsUtf8 (take result bytes.now) }
{
    if bytes.len() < 2 {
        return 0;
    }
    if follows(bytes[1]) { 2 } else { 0 }
}

/// The length of the three-byte character here, or 0. Its second byte may be any of 80 to BF.
#[inline(always)]
#[tactic(auto, using(crate::proofs::Scans::three_text))]
fn three_len(bytes: &[u8]) -> usize
    requires some { 0 < length bytes.now }
    requires first { (0xE1 ≤ slice_index bytes.now 0) × (slice_index bytes.now 0 ≤ 0xEC) }
    ensures few { result ≤ length bytes.now }
    ensures utf8 { IsUtf8 (take result bytes.now) }
{
    if bytes.len() < 3 {
        return 0;
    }
    if !follows(bytes[1]) {
        return 0;
    }
    if follows(bytes[2]) { 3 } else { 0 }
}

/// The first four bytes, or all if there are fewer.
fn first_four(bytes: &[u8]) -> &[u8]
    ensures { result.now ≡ take (length result.now) bytes.now }
{
    if 4 < bytes.len() { &bytes[..4] } else { bytes }
}

/// The longest text that the bytes begin with, as std finds it.
fn longest_text(bytes: &[u8]) -> &str
    ensures { result.now ≡ take (length result.now) bytes.now }
{
    match std::str::from_utf8(bytes) {
        Ok(text) => text,
        Err(error) => unsafe { from_utf8_unchecked(&bytes[..error.valid_up_to()]) },
    }
}

/// How many of the first four bytes are a text: the slow way, for rare characters.
#[tactic(auto, using(crate::proofs::Scans::prefix_of_prefix))]
fn other_len(bytes: &[u8]) -> usize
    ensures few { result ≤ length bytes.now }
    ensures utf8 { IsUtf8 (take result bytes.now) }
{
    longest_text(first_four(bytes)).len()
}

/// The length of a text that is found quickly: a run of ASCII or one character; 0 if none begins here.
#[inline(always)]
#[tactic(auto, using(crate::proofs::Scans::ascii_text))]
fn text_len(bytes: &[u8]) -> usize
    requires { 0 < length bytes.now }
    ensures few { result ≤ length bytes.now }
    ensures utf8 { IsUtf8 (take result bytes.now) }
{
    match bytes[0] {
        0x00..=0x7F => ascii_front(bytes),
        0xC2..=0xDF => two_len(bytes),
        0xE1..=0xEC => three_len(bytes),
        0x80..=0xC1 | 0xF5..=0xFF => 0,
        _ => other_len(bytes),
    }
}

/// The text that the bytes begin with, up to the first fault.
#[inline(always)]
pub fn text_before_fault(bytes: &[u8]) -> &str
    ensures { result.now ≡ take (length result.now) bytes.now }
{
    let mut at = 0;
    'by_characters: while at < bytes.len() {
        let len = text_len(&bytes[at..]);
        if len == 0 {
            break;
        }
        at += len;
    }
    unsafe { from_utf8_unchecked(&bytes[..at]) }
}
