//! Encoding units without surrogates as UTF-8, four at a time.

ghost use Rattle.std.specs.Prelude.{◌≡◌, ◌+◌, ◌*◌, ◌%◌, ◌<◌, ◌≤◌, ◌++◌, All, ltb, length, take, map, slice_index};
ghost use Rattle.std.specs.Prelude.{encode_utf8_all};
ghost use Rattle.std.specs.List.{prefix_len};
ghost use Rattle.std.specs.Simd.Lanes.{chunk, mask_l};
ghost use Rattle.std.specs.Str.{IsUtf8};
ghost use Rattle.lane_kernels.specs.Units.{is_scalar_unit};
ghost use Rattle.enc_unicode.specs.WroteUnits.{WroteUnits};
ghost use Rattle.enc_unicode.specs.Packing.{row_of, utf8_word, word_bytes};

use crate::packs::PACKS;
use std::simd::prelude::*;

/// The room for 32 units: three bytes each, and 16 more, since each store writes 16 bytes.
pub const BLOCK_CODE: usize = 112;

/// The units in wider lanes.
#[inline(always)]
fn widened(units: u16x4) -> u32x4
    ensures { result ≡ units }
{
    units.cast::<u32>()
}

/// For each unit a number of four bytes that begins with the unit's UTF-8, the lowest byte first.
#[inline(always)]
fn words(units: u16x4) -> u32x4
    ensures { result ≡ map utf8_word units }
{
    let units = widened(units);
    let last = units & u32x4::splat(63);
    let middle = (units >> 6) & u32x4::splat(63);
    let two = (units >> 6) + (last << 8) + u32x4::splat(0x80C0);
    let three = (units >> 12) + (middle << 8) + (last << 16) + u32x4::splat(0x8080E0);
    let longer = units.simd_lt(u32x4::splat(0x800)).select(two, three);
    units.simd_lt(u32x4::splat(0x80)).select(units, longer)
}

/// The same numbers as bytes.
#[inline(always)]
fn codes(units: u16x4) -> u8x16
    ensures { result ≡ word_bytes (map utf8_word units) }
{
    words(units).to_le_bytes()
}

/// A bit for each unit below a limit.
#[inline(always)]
fn below(units: u16x4, limit: u32) -> u64
    ensures mask { result ≡ mask_l (map (λ u. ltb u limit) units) }
    ensures few { result < 16 }
{
    widened(units).simd_lt(u32x4::splat(limit)).to_bitmask()
}

/// The places of the units' UTF-8 bytes within their words, and in the last byte how many they are.
#[inline(always)]
fn pack(units: u16x4) -> [u8; 16]
    ensures long { length result ≡ 16 }
    ensures row { take (slice_index result 15) result ≡ row_of units }
    ensures few { slice_index result 15 ≤ 12 }
    ensures small { All (λ place. place < 16) result }
{
    let class = below(units, 0x80) + below(units, 0x800) * 16;
    PACKS[class as usize]
}

/// The four units at a place.
#[inline(always)]
fn four_at(units: &[u16], at: usize) -> u16x4
    requires { at + 4 ≤ length units.now }
    ensures { result ≡ chunk at 4 units.now }
{
    u16x4::from_slice(&units[at..])
}

/// Encodes four units at `from`, and returns the length after them.
#[inline(always)]
fn write_four(units: u16x4, code: &mut [u8], from: usize) -> usize
    requires room { from + 16 ≤ length code.old }
    ensures code { take result code.new ≡ take from code.old ++ encode_utf8_all units }
    ensures few { result ≤ from + 12 }
{
    let pack = pack(units);
    let bytes = codes(units).swizzle_dyn(u8x16::from_array(pack));
    bytes.copy_to_slice(&mut code[from..]);
    from + pack[15] as usize
}

/// Encodes the units at `from`, and returns the length after them.
#[inline(always)]
#[tactic(auto, using(crate::proofs::Written::written_more, std::proofs::lemmas::List::take_all))]
fn write_fours(units: &[u16; 32], code: &mut [u8], from: usize) -> usize
    requires { from + BLOCK_CODE ≤ length code.old }
    ensures code { take result code.new ≡ take from code.old ++ encode_utf8_all units.now }
    ensures few { result ≤ from + 96 }
{
    let mut at = 0;
    let mut len = from;
    while at < 32 {
        len = write_four(four_at(units, at), code, len);
        at += 4;
    }
    len
}

/// Encodes units without surrogates at `from`, after a text, and returns the length after them.
#[inline(always)]
pub fn write_units(units: u16x32, code: &mut [u8], from: usize) -> usize
    requires room { from + BLOCK_CODE ≤ length code.old }
    requires utf8 { IsUtf8 (take from code.old) }
    requires scalars { prefix_len is_scalar_unit units ≡ 32 }
    ensures wrote { WroteUnits units (take from code.old) (take result code.new) }
    ensures few { result ≤ from + BLOCK_CODE }
{
    write_fours(&units.to_array(), code, from)
}
