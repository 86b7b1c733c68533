//! Guessing where well-formed text ends, by comparing lead and continuation bytes.

ghost use Rattle.std.specs.Prelude.{◌+◌, ◌<◌, ◌≤◌, length};

use std::simd::prelude::*;

/// How many bytes are compared at once.
const LANES: usize = 64;

/// How many bytes before them decide what they should be.
const BEFORE: usize = 3;

/// How many bytes a guess needs.
pub const FEWEST: usize = LANES + BEFORE;

/// Compares 64 bytes from `at` on. A lane is high if a continuation byte is missing or superfluous there.
#[inline(always)]
fn seeming_faults(bytes: &[u8], at: usize) -> u8x64
    requires { (BEFORE ≤ at) × (at + LANES ≤ length bytes.now) }
{
    let block = u8x64::from_slice(&bytes[at..]);
    let second = u8x64::from_slice(&bytes[at - 1..]).saturating_sub(u8x64::splat(0x40));
    let third = u8x64::from_slice(&bytes[at - 2..]).saturating_sub(u8x64::splat(0x60));
    let fourth = u8x64::from_slice(&bytes[at - 3..]).saturating_sub(u8x64::splat(0x70));
    let follows = block & !(block + block);
    (second | third | fourth) ^ follows
}

/// A bit for each high lane.
#[inline(always)]
fn high(lanes: u8x64) -> u64 {
    lanes.simd_ge(u8x64::splat(0x80)).to_bitmask()
}

/// How many bytes precede the first seeming fault, in whole blocks.
#[inline(always)]
fn end_in_blocks(bytes: &[u8]) -> usize
    requires { FEWEST ≤ length bytes.now }
    ensures { (BEFORE ≤ result) × (result ≤ length bytes.now) }
{
    let mut at = BEFORE;
    'by_blocks: while bytes.len() - at >= LANES {
        let faults = high(seeming_faults(bytes, at));
        if faults != 0 {
            return at + faults.trailing_zeros() as usize;
        }
        at += LANES;
    }
    at
}

/// How many bytes precede the first seeming fault, at least three. The result has to be checked: overlong forms,
/// surrogates, code points above 10FFFF and faults in the first three bytes aren't seen.
pub fn seeming_end(bytes: &[u8]) -> usize
    requires { FEWEST ≤ length bytes.now }
    ensures { result ≤ length bytes.now }
{
    let end = end_in_blocks(bytes);
    let last = bytes.len() - LANES;
    if end <= last || end == bytes.len() {
        return end;
    }
    match high(seeming_faults(bytes, last)) >> (end - last) as u32 {
        0 => bytes.len(),
        faults => (end + faults.trailing_zeros() as usize).min(bytes.len()),
    }
}
