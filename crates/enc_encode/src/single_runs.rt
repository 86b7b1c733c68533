//! The bytes of a text's start in a single-byte encoding.

ghost use Rattle.std.specs.Prelude.{◌≡◌, ◌<◌, ◌≤◌, ◌+◌, ◌++◌, ◌∷◌, [], ℕ, List, All, IfSome, length, take, drop};
ghost use Rattle.std.specs.Str.{IsUtf8};
ghost use Rattle.enc_encode.specs.Letters.{AreLetters};
ghost use Rattle.enc_encode.specs.Runs.{FirstGiven, RunPrefix};
ghost use Rattle.enc_encode.specs.Singles.{FewPointers, IsSingleByte};

use crate::buffer::{LANES, ROOM};
use crate::letters::{LETTERS_AT_ONCE, Letters, TWO_BYTES, lettered};
use enc_index::Pointers;
use lane_kernels::ascii_chunk;
use std::simd::prelude::*;

/// The byte that a single-byte encoding has for a text's first character, if this is one of two bytes. The two given
/// bytes are the text's first ones.
#[inline(always)]
fn first_single(pointers: &Pointers, lead: u8, trail: u8) -> Option<u8>
    requires { FewPointers pointers.now }
    ensures { IfSome result
        (λ byte. (more : List ℕ) → IsUtf8 (lead ∷ trail ∷ more) → FirstGiven (IsSingleByte pointers.now)
        (lead ∷ trail ∷ more) (byte ∷ []) more) }
{
    let c = (lead as u32 * 64 + trail as u32).wrapping_sub(TWO_BYTES);
    if 0x800 <= c {
        return None;
    }
    let pointer = pointers.find(char::from_u32(c)?)?;
    Some((pointer + 0x80) as u8)
}

/// Puts the bytes of characters of two bytes at a text's start after the first so many: as many as a single-byte
/// encoding has one after the other, and as there is room for. Gives the rest of the text, and how many bytes there are
/// then.
#[inline(always)]
fn put_singles<'a>(
    held: &mut [u8; ROOM],
    from: usize,
    pointers: &Pointers,
    text: &'a str,
) -> (&'a str, usize)
    requires few { FewPointers pointers.now }
    requires room { from ≤ ROOM }
    ensures more { (from ≤ result.1) × (result.1 ≤ ROOM) }
    ensures run { RunPrefix (IsSingleByte pointers.now) text.now result.0.now (take from held.old)
        (take result.1 held.new) }
{
    let bytes = text.as_bytes();
    let most = (bytes.len() / 2).min(ROOM - from);
    let mut count = 0;
    while count < most {
        let Some(byte) = first_single(pointers, bytes[2 * count], bytes[2 * count + 1]) else {
            break;
        };
        held[from + count] = byte;
        count += 1;
    }
    (&text[2 * count..], from + count)
}

/// Puts the first so many bytes of lanes after the first so many. All lanes are stored, so that nothing depends on how
/// many.
#[inline(always)]
#[tactic(auto, using(crate::proofs::Puts::stored))]
fn store_prefix(held: &mut [u8; ROOM], from: usize, lanes: &[u8; LANES], count: usize)
    requires few { count ≤ LANES }
    requires room { from + LANES ≤ ROOM }
    ensures { take (from + count) held.new ≡ take from held.old ++ take count lanes.now }
{
    u8x32::from_array(*lanes).copy_to_slice(&mut held[from..]);
}

/// How many of the lanes are ASCII before the first that isn't.
#[inline(always)]
fn ascii_in(lanes: &[u8; LANES]) -> usize
    ensures within { result ≤ LANES }
    ensures ascii { All (λ b. b < 128) (take result lanes.now) }
{
    ascii_chunk(lanes)
}

/// The lanes at a place.
#[inline(always)]
fn lanes_at(bytes: &[u8], at: usize) -> [u8; LANES]
    requires { at + LANES ≤ length bytes.now }
    ensures { result ≡ take LANES (drop at bytes.now) }
{
    match bytes[at..].first_chunk::<LANES>() {
        Some(lanes) => *lanes,
        None => unreachable!(),
    }
}

/// Puts ASCII that bytes begin with after the first so many, in lanes as long as there is room for them, and counts it.
/// A step over whole lanes doesn't wait for their count.
#[inline(always)]
fn put_lanes(held: &mut [u8; ROOM], from: usize, bytes: &[u8]) -> usize
    requires { from ≤ ROOM }
    ensures room { from + result ≤ ROOM }
    ensures within { result ≤ length bytes.now }
    ensures ascii { All (λ b. b < 128) (take result bytes.now) }
    ensures put { take (from + result) held.new ≡ take from held.old ++ take result bytes.now }
{
    let most = bytes.len().min(ROOM - from);
    let mut at = 0;
    while at + LANES <= most {
        let lanes = lanes_at(bytes, at);
        let count = ascii_in(&lanes);
        store_prefix(held, from + at, &lanes, count);
        if count < LANES {
            return at + count;
        }
        at += LANES;
    }
    at
}

/// Puts ASCII that bytes begin with after the first so many, byte by byte as far as there is room, and counts it.
#[inline(always)]
fn put_each(held: &mut [u8; ROOM], from: usize, bytes: &[u8]) -> usize
    requires { from ≤ ROOM }
    ensures room { from + result ≤ ROOM }
    ensures within { result ≤ length bytes.now }
    ensures ascii { All (λ b. b < 128) (take result bytes.now) }
    ensures put { take (from + result) held.new ≡ take from held.old ++ take result bytes.now }
{
    let most = bytes.len().min(ROOM - from);
    let mut at = 0;
    while at < most && bytes[at] < 0x80 {
        held[from + at] = bytes[at];
        at += 1;
    }
    at
}

/// Puts the bytes of a few letters after the first so many, as `store_prefix` those of lanes.
#[inline(always)]
#[tactic(auto, using(crate::proofs::Puts::stored))]
fn store_letters(held: &mut [u8; ROOM], from: usize, bytes: &[u8; LETTERS_AT_ONCE], count: usize)
    requires few { count ≤ LETTERS_AT_ONCE }
    requires room { from + LETTERS_AT_ONCE ≤ ROOM }
    ensures { take (from + count) held.new ≡ take from held.old ++ take count bytes.now }
{
    u8x16::from_array(*bytes).copy_to_slice(&mut held[from..]);
}

/// Puts the bytes of letters that a text begins with after the first so many: up to 16, if the text has 32 bytes and
/// there is room for 16. Gives the rest of the text, and how many bytes there are then. Nothing but the places
/// depends on how many, so that no branch waits for the end of a word.
#[inline(always)]
fn put_letters<'a>(
    held: &mut [u8; ROOM],
    from: usize,
    letters: Letters,
    pointers: &Pointers,
    text: &'a str,
) -> (&'a str, usize)
    requires few { FewPointers pointers.now }
    requires letters { AreLetters pointers.now letters.low letters.byte letters.count }
    requires room { from ≤ ROOM }
    ensures more { (from ≤ result.1) × (result.1 ≤ ROOM) }
    ensures run { RunPrefix (IsSingleByte pointers.now) text.now result.0.now (take from held.old)
        (take result.1 held.new) }
{
    if letters.count == 0 || text.len() < LANES || ROOM - from < LETTERS_AT_ONCE {
        return (text, from);
    }
    let (bytes, count) = lettered(letters, &lanes_at(text.as_bytes(), 0));
    store_letters(held, from, &bytes, count);
    (&text[2 * count..], from + count)
}

/// Puts the bytes of a text's start after the first so many: of ASCII in lanes, of letters at once, and then of
/// characters of two bytes that a single-byte encoding has. Gives the rest of the text, and how many bytes there are
/// then.
#[inline(always)]
pub fn put_run<'a>(
    held: &mut [u8; ROOM],
    from: usize,
    letters: Letters,
    pointers: &Pointers,
    text: &'a str,
) -> (&'a str, usize)
    requires few { FewPointers pointers.now }
    requires letters { AreLetters pointers.now letters.low letters.byte letters.count }
    requires room { from ≤ ROOM }
    ensures more { (from ≤ result.1) × (result.1 ≤ ROOM) }
    ensures run { RunPrefix (IsSingleByte pointers.now) text.now result.0.now (take from held.old)
        (take result.1 held.new) }
{
    let count = put_lanes(held, from, text.as_bytes());
    let (rest, end) = put_letters(held, from + count, letters, pointers, &text[count..]);
    put_singles(held, end, pointers, rest)
}

/// Puts the ASCII of a text's start after the first so many bytes, where it is short. Gives the rest of the text, and
/// how many bytes there are then.
#[inline(always)]
pub fn put_last_ascii<'a>(held: &mut [u8; ROOM], from: usize, text: &'a str) -> (&'a str, usize)
    requires { from ≤ ROOM }
    ensures more { result.1 ≤ ROOM }
    ensures run { (at : List ℕ) → RunPrefix (IsSingleByte at) text.now result.0.now (take from held.old)
        (take result.1 held.new) }
{
    let count = put_each(held, from, text.as_bytes());
    (&text[count..], from + count)
}
