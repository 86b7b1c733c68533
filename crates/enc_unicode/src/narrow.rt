//! Encoding units below 800 as UTF-8, eight at a time.

ghost use Rattle.std.specs.Prelude.{◌≡◌, ◌+◌, ◌<◌, ◌≤◌, ◌++◌, All, ltb, length, take, map};
ghost use Rattle.std.specs.Prelude.{encode_utf8_all};
ghost use Rattle.std.specs.Simd.Lanes.{chunk, mask_l};
ghost use Rattle.std.specs.Str.{IsUtf8};
ghost use Rattle.enc_unicode.specs.WroteUnits.{WroteUnits};
ghost use Rattle.enc_unicode.specs.Packing.{narrow_row_of, narrow_word, narrow_word_bytes};

use crate::narrow_packs::NARROW_PACKS;
use std::simd::prelude::*;

/// The room for 32 units below 800: two bytes each. A store of 16 bytes never writes beyond it.
const BLOCK_CODE: usize = 64;

/// For each unit a number of two bytes that begins with the unit's UTF-8, the lowest byte first.
#[inline(always)]
fn words(units: u16x8) -> u16x8
    requires { All (λ unit. unit < 2048) units }
    ensures { result ≡ map narrow_word units }
{
    let two = (units >> 6) + ((units & u16x8::splat(63)) << 8) + u16x8::splat(0x80C0);
    units.simd_lt(u16x8::splat(0x80)).select(units, two)
}

/// The same numbers as bytes.
#[inline(always)]
fn codes(units: u16x8) -> u8x16
    requires { All (λ unit. unit < 2048) units }
    ensures { result ≡ narrow_word_bytes (map narrow_word units) }
{
    words(units).to_le_bytes()
}

/// A bit for each unit below 80.
#[inline(always)]
fn ascii_class(units: u16x8) -> u64
    ensures mask { result ≡ mask_l (map (λ u. ltb u 128) units) }
    ensures few { result < 256 }
{
    units.simd_lt(u16x8::splat(0x80)).to_bitmask()
}

/// The places of the units' UTF-8 bytes within their words, and how many they are.
#[inline(always)]
fn pack(units: u16x8) -> ([u8; 16], usize)
    requires { All (λ unit. unit < 2048) units }
    ensures long { length result.0 ≡ 16 }
    ensures row { take result.1 result.0 ≡ narrow_row_of units }
    ensures few { result.1 ≤ 16 }
    ensures small { All (λ place. place < 16) result.0 }
{
    let class = ascii_class(units);
    (
        NARROW_PACKS[class as usize],
        16 - class.count_ones() as usize,
    )
}

/// The eight units at a place.
#[inline(always)]
fn eight_at(units: &[u16], at: usize) -> u16x8
    requires { at + 8 ≤ length units.now }
    ensures { result ≡ chunk at 8 units.now }
{
    u16x8::from_slice(&units[at..])
}

/// Encodes eight units at `from`, and returns the length after them.
#[inline(always)]
fn write_eight(units: u16x8, code: &mut [u8], from: usize) -> usize
    requires room { from + 16 ≤ length code.old }
    requires narrow { All (λ unit. unit < 2048) units }
    ensures code { take result code.new ≡ take from code.old ++ encode_utf8_all units }
    ensures few { result ≤ from + 16 }
{
    let (places, count) = pack(units);
    let bytes = codes(units).swizzle_dyn(u8x16::from_array(places));
    bytes.copy_to_slice(&mut code[from..]);
    from + count
}

/// Encodes the units at `from`, and returns the length after them.
#[inline(always)]
#[tactic(auto, using(crate::proofs::Written::written_more, std::proofs::lemmas::List::take_all))]
fn write_eights(units: &[u16; 32], code: &mut [u8], from: usize) -> usize
    requires room { from + BLOCK_CODE ≤ length code.old }
    requires narrow { All (λ unit. unit < 2048) units.now }
    ensures code { take result code.new ≡ take from code.old ++ encode_utf8_all units.now }
    ensures few { result ≤ from + BLOCK_CODE }
{
    let mut at = 0;
    let mut len = from;
    while at < 32 {
        len = write_eight(eight_at(units, at), code, len);
        at += 8;
    }
    len
}

/// Encodes units below 800 at `from`, after a text, and returns the length after them.
#[inline(always)]
pub fn write_narrow(units: u16x32, code: &mut [u8], from: usize) -> usize
    requires room { from + BLOCK_CODE ≤ length code.old }
    requires utf8 { IsUtf8 (take from code.old) }
    requires narrow { All (λ unit. unit < 2048) units }
    ensures wrote { WroteUnits units (take from code.old) (take result code.new) }
    ensures few { result ≤ from + BLOCK_CODE }
{
    write_eights(&units.to_array(), code, from)
}
