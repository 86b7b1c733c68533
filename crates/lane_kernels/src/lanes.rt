//! Classes of bytes, tested a vector at a time.

ghost use Rattle.std.specs.Prelude.{◌≡◌, ℕ, Bool, ◌+◌, ◌≤◌, length, drop};
ghost use Rattle.std.specs.Bool.{OnTrue};
ghost use Rattle.std.specs.Simd.Lanes.{chunk};
ghost use Rattle.std.specs.List.{prefix_len};
ghost use Rattle.std.specs.Char.{is_ascii};
ghost use Rattle.enc_model.specs.Index.{within};
ghost use Rattle.lane_kernels.specs.Classes.{is_plain_2022, first_set};

pub(crate) use enc_feed::LANES;
use std::simd::prelude::*;

/// How many bytes are loaded at once to skip ASCII.
pub(crate) const WIDE: usize = 64;

/// How many bytes are tested at once in a long run of ASCII.
pub(crate) const WIDEST: usize = 4 * WIDE;

/// How many bytes are tested at once further on in such a run.
pub(crate) const LONGEST: usize = 2 * WIDEST;

/// The index of the lowest set bit, or `lanes` if none is set.
#[inline(always)]
pub(crate) fn first_set(mask: u64, lanes: usize) -> usize
    ensures { result ≡ first_set mask lanes }
{
    if mask == 0 {
        lanes
    } else {
        mask.trailing_zeros() as usize
    }
}

/// A class of bytes.
pub(crate) trait Class {
    // The bytes of the class.
    ghost has: { Self → ℕ → Bool };

    /// Whether the byte is of the class.
    fn has(&self, byte: u8) -> bool
        ensures { result ≡ has self.now byte };

    /// How many of the 32 bytes from `at` on are of the class before the first other one.
    fn run(&self, bytes: &[u8], at: usize) -> usize
        requires { at + LANES ≤ length bytes.now }
        ensures { result ≡ prefix_len (has self.now) (chunk at LANES bytes.now) };
}

/// The bytes below 80.
#[derive(Clone, Copy)]
pub(crate) struct Ascii;

impl Class for Ascii {
    ghost has = { λ _. is_ascii };

    fn has(&self, byte: u8) -> bool {
        byte < 0x80
    }

    #[inline(always)]
    fn run(&self, bytes: &[u8], at: usize) -> usize {
        let lanes = u8x32::from_slice(&bytes[at..]);
        first_set(lanes.simd_ge(u8x32::splat(0x80)).to_bitmask(), LANES)
    }
}

/// How many of the 64 bytes from `at` on are below 80 before the first other one.
#[inline(always)]
pub(crate) fn wide_ascii(bytes: &[u8], at: usize) -> usize
    requires { at + WIDE ≤ length bytes.now }
    ensures { result ≡ prefix_len is_ascii (chunk at WIDE bytes.now) }
{
    let lanes = u8x64::from_slice(&bytes[at..]);
    first_set(lanes.simd_ge(u8x64::splat(0x80)).to_bitmask(), WIDE)
}

/// The 64 bytes from `at` on.
#[inline(always)]
fn wide_lanes(bytes: &[u8], at: usize) -> u8x64
    requires { at + WIDE ≤ length bytes.now }
    ensures { result ≡ chunk at WIDE bytes.now }
{
    u8x64::from_slice(&bytes[at..])
}

/// Whether the 256 bytes from `at` on are all below 80.
#[inline(always)]
pub(crate) fn are_ascii(bytes: &[u8], at: usize) -> bool
    requires { at + WIDEST ≤ length bytes.now }
    ensures { OnTrue result
        (prefix_len is_ascii (drop at bytes.now) ≡ 256 + prefix_len is_ascii (drop (at + 256) bytes.now)) }
{
    let limit = u8x64::splat(0x80);
    let first = wide_lanes(bytes, at).simd_ge(limit);
    let second = wide_lanes(bytes, at + WIDE).simd_ge(limit);
    let third = wide_lanes(bytes, at + 2 * WIDE).simd_ge(limit);
    let fourth = wide_lanes(bytes, at + 3 * WIDE).simd_ge(limit);
    ((first | second) | (third | fourth)).to_bitmask() == 0
}

/// Whether the 512 bytes from `at` on are all below 80.
#[inline(always)]
pub(crate) fn are_long_ascii(bytes: &[u8], at: usize) -> bool
    requires { at + LONGEST ≤ length bytes.now }
    ensures { OnTrue result
        (prefix_len is_ascii (drop at bytes.now) ≡ 512 + prefix_len is_ascii (drop (at + 512) bytes.now)) }
{
    are_ascii(bytes, at) & are_ascii(bytes, at + WIDEST)
}

/// The bytes below 80 except 0E, 0F and 1B.
#[derive(Clone, Copy)]
pub(crate) struct Plain2022;

impl Class for Plain2022 {
    ghost has = { λ _. is_plain_2022 };

    fn has(&self, byte: u8) -> bool {
        byte < 0x80 && byte != 0x0E && byte != 0x0F && byte != 0x1B
    }

    #[inline(always)]
    fn run(&self, bytes: &[u8], at: usize) -> usize {
        let lanes = u8x32::from_slice(&bytes[at..]);
        let stops = lanes.simd_ge(u8x32::splat(0x80))
            | lanes.simd_eq(u8x32::splat(0x0E))
            | lanes.simd_eq(u8x32::splat(0x0F))
            | lanes.simd_eq(u8x32::splat(0x1B));
        first_set(stops.to_bitmask(), LANES)
    }
}

/// The bytes from the lowest to the highest.
#[derive(Clone, Copy)]
pub(crate) struct Range {
    pub(crate) lo: u8,
    pub(crate) hi: u8,
}

impl Class for Range {
    ghost has = { λ c. within c.lo c.hi };

    fn has(&self, byte: u8) -> bool {
        self.lo <= byte && byte <= self.hi
    }

    #[inline(always)]
    fn run(&self, bytes: &[u8], at: usize) -> usize {
        let lanes = u8x32::from_slice(&bytes[at..]);
        let stops = lanes.simd_lt(u8x32::splat(self.lo)) | lanes.simd_gt(u8x32::splat(self.hi));
        first_set(stops.to_bitmask(), LANES)
    }
}
