//! Letters that a single-byte encoding has one after another, as windows-1251 has those of Russian: many at once.

ghost use Rattle.std.specs.Prelude.{◌≡◌, ◌<◌, ◌≤◌, ◌+◌, ◌*◌, ◌%◌, ℕ, Some, IfSome, ltb, map, slice_index, length};
ghost use Rattle.std.specs.Bool.{OnTrue};
ghost use Rattle.std.specs.List.{prefix_len};
ghost use Rattle.enc_index.specs.Entries.{found_pointer};
ghost use Rattle.enc_encode.specs.Letters.{AreLetters, IsLetter, pair_codes};
ghost use Rattle.enc_encode.specs.Singles.{FewPointers};
ghost use Rattle.lane_kernels.specs.Classes.{first_set};

use enc_index::Pointers;
use std::simd::prelude::*;

/// How many letters are looked at at once.
pub const LETTERS_AT_ONCE: usize = 16;

/// The first letter of the Cyrillic alphabet, from which on encodings have the others in its order.
const FIRST: u32 = 0x410;

/// What a lead and a trail of two bytes count, beside the code point, where the lead counts 64.
pub const TWO_BYTES: u32 = 0xC0 * 64 + 0x80;

/// Characters of two bytes that have bytes one after another, as the code points go: what lead and trail of the first
/// count, its byte, and how many they are.
#[derive(Clone, Copy)]
pub struct Letters {
    pub(crate) low: u16,
    pub(crate) byte: u16,
    pub(crate) count: u16,
}

/// Whether a code point has a pointer.
fn has_pointer(pointers: &Pointers, c: u32, pointer: u32) -> bool
    ensures { OnTrue result (found_pointer pointers.now c ≡ Some pointer) }
{
    match char::from_u32(c) {
        Some(c) => match pointers.find(c) {
            Some(found) => found == pointer,
            None => false,
        },
        None => false,
    }
}

/// How many code points have pointers one after another, from a first one of each on.
fn count_letters(pointers: &Pointers, pointer: u32) -> u32
    requires { pointer < 128 }
    ensures few { result ≤ 128 }
    ensures each { (k : ℕ) → k < result → found_pointer pointers.now (FIRST + k) ≡ Some (pointer + k) }
{
    let mut count = 0;
    while count < 128 && has_pointer(pointers, FIRST + count, pointer + count) {
        count += 1;
    }
    count
}

/// The letters of a single-byte encoding; none where it lacks the first.
fn letters_by(pointers: &Pointers) -> Option<Letters>
    requires { FewPointers pointers.now }
    ensures { IfSome result (λ r. AreLetters pointers.now r.low r.byte r.count) }
{
    let pointer = pointers.find(char::from_u32(FIRST)?)?;
    Some(Letters {
        low: (FIRST + TWO_BYTES) as u16,
        byte: (pointer + 0x80) as u16,
        count: count_letters(pointers, pointer) as u16,
    })
}

/// The letters of a single-byte encoding, where its pointers are given.
pub fn letters_of(singles: Option<&Pointers>) -> Letters
    requires { IfSome singles (λ p. FewPointers p.now) }
    ensures { IfSome singles.entry (λ p. AreLetters p.now result.low result.byte result.count) }
{
    let none = Letters {
        low: TWO_BYTES as u16,
        byte: 0,
        count: 0,
    };
    match singles {
        Some(pointers) => letters_by(pointers).unwrap_or(none),
        None => none,
    }
}

/// What leads and trails count.
#[inline(always)]
fn codes(lanes: u8x32) -> u16x16
    ensures { result ≡ pair_codes lanes }
{
    let pairs = u16x16::from_le_bytes(lanes);
    ((pairs & u16x16::splat(255)) << 6) + (pairs >> 8)
}

/// The place of the lowest bit that is set, or 16 where none is.
#[inline(always)]
fn first_of_16(mask: u64) -> usize
    ensures { result ≡ first_set mask 16 }
{
    if mask == 0 {
        LETTERS_AT_ONCE
    } else {
        mask.trailing_zeros() as usize
    }
}

/// How many places are below a number before the first that isn't.
#[inline(always)]
fn count_below(places: u16x16, count: u16) -> usize
    ensures { result ≡ prefix_len (λ p. ltb p count) places }
{
    first_of_16(places.simd_ge(u16x16::splat(count)).to_bitmask())
}

/// The bytes at places from a first one on.
#[inline(always)]
fn bytes_at(places: u16x16, byte: u16) -> [u8; LETTERS_AT_ONCE]
    ensures { result ≡ map (λ p. (p + byte) % 256) places }
{
    ((places + u16x16::splat(byte)) & u16x16::splat(255))
        .cast::<u8>()
        .to_array()
}

/// The letters' bytes of leads and trails, and how many are letters before the first that isn't.
#[inline(always)]
pub fn lettered(letters: Letters, lanes: &[u8; 32]) -> ([u8; LETTERS_AT_ONCE], usize)
    requires { letters.low + letters.count ≤ 14464 }
    ensures few { result.1 ≤ LETTERS_AT_ONCE }
    ensures long { length result.0 ≡ LETTERS_AT_ONCE }
    ensures letters { (k : ℕ) → k < result.1 → IsLetter letters.low letters.byte letters.count
        (slice_index lanes.now (2 * k)) (slice_index lanes.now (2 * k + 1)) (slice_index result.0 k) }
{
    let places = codes(u8x32::from_array(*lanes)) - u16x16::splat(letters.low);
    (
        bytes_at(places, letters.byte),
        count_below(places, letters.count),
    )
}
