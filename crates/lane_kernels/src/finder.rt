//! Finding ASCII for decoders that store whole vectors.

ghost use Rattle.std.specs.Prelude.{◌≤◌, length};

use crate::lanes::LANES;
use crate::prefix::ascii_lanes;
use enc_feed::AsciiFinder;
use std::simd::prelude::*;

/// From this many bytes of 80 or more on, looking up each byte is faster.
const DENSE: u32 = 8;

/// Finds ASCII with vectors.
#[derive(Clone, Copy)]
pub struct AsciiLanes;

/// Whether many of the first 32 bytes are 80 or more. Either answer is correct; it only chooses the faster way.
#[inline(always)]
fn are_dense(bytes: &[u8]) -> bool
    requires { LANES ≤ length bytes.now }
{
    let lanes = u8x32::from_slice(bytes);
    lanes.simd_ge(u8x32::splat(0x80)).to_bitmask().count_ones() >= DENSE
}

impl AsciiFinder for AsciiLanes {
    #[inline(always)]
    fn prefix(&self, bytes: &[u8]) -> Option<usize> {
        if are_dense(bytes) {
            return None;
        }
        Some(ascii_lanes(bytes))
    }
}
