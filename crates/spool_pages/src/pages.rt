//! The pages of a spool other than records and rows.
ghost use Rattle.std.specs.Prelude.{◌≡◌, ◌+◌, ◌≤◌, ◌<◌, ◌^◌, ◌↔◌};
ghost use Rattle.std.specs.Prelude.{ℕ, [], None, Some, IfSome, IsTrue, true, length, get_or};
ghost use Rattle.std.specs.Int.{to_be_bytes, w32};
ghost use Rattle.spool_journal.specs.Image.{byte_of};
ghost use Rattle.spool_pages.specs.Bytes.{IsPadded};
ghost use Rattle.spool_pages.specs.View.{AreAt, first_page, state_page, version_number};
ghost use Rattle.spool_pages.specs.declared.version.Version.{Version};

use crate::Version;
use crate::fields::{get_u32, get_u64, put};
use spool_journal::PAGE;
use std::simd::prelude::*;

/// The first bytes of a spool.
pub const MAGIC: [u8; 8] = *b"TUSSPOOL";

// How many bytes are looked at at once.
const WIDE: usize = 64;

/// A page of zeros.
pub fn blank_page() -> [u8; PAGE]
    ensures { IsPadded result [] }
{
    [0; PAGE]
}

/// Page 0 of a spool with this many text blocks.
pub fn first_page(blocks: u32) -> [u8; PAGE]
    ensures { IsPadded result (first_page blocks) }
{
    let mut page = [0; PAGE];
    put(&mut page, 0, &MAGIC);
    put(&mut page, 8, &blocks.to_be_bytes());
    page
}

/// The state page: the version and the next number.
pub fn state_page(version: Version, next: u64) -> [u8; PAGE]
    ensures { IsPadded result (state_page version next) }
{
    let mut page = [0; PAGE];
    put(&mut page, 0, &version.number().to_be_bytes());
    put(&mut page, 4, &next.to_be_bytes());
    page
}

// Whether the 64 bytes from `at` on are all 0.
#[inline(always)]
fn are_zeros(bytes: &[u8], at: usize) -> bool
    requires { at + 64 ≤ length bytes.now }
    ensures zeros { result ≡ true → (k : ℕ) → at ≤ k → k < at + 64 → get_or bytes.now k 0 ≡ 0 }
    ensures blank { IsPadded bytes.now [] → result ≡ true }
{
    let lanes = u8x64::from_slice(&bytes[at..]);
    lanes.simd_ne(u8x64::splat(0)).to_bitmask() == 0
}

// Whether the bytes, fewer than 64, are all 0.
fn is_short_blank(bytes: &[u8]) -> bool
    ensures { IsTrue result ↔ IsPadded bytes.now [] }
{
    bytes.iter().all(|byte| *byte == 0)
}

// Whether the bytes, at least 64, are all 0. The last 64 are looked at together, some of them for the second time.
fn is_long_blank(bytes: &[u8]) -> bool
    requires { 64 ≤ length bytes.now }
    ensures { IsTrue result ↔ IsPadded bytes.now [] }
{
    let last = bytes.len() - WIDE;
    let mut at = 0;
    while at < last {
        if !are_zeros(bytes, at) {
            return false;
        }
        at += WIDE;
    }
    are_zeros(bytes, last)
}

/// Whether all bytes are 0.
pub fn is_blank(bytes: &[u8]) -> bool
    ensures { IsTrue result ↔ IsPadded bytes.now [] }
{
    if bytes.len() < WIDE {
        is_short_blank(bytes)
    } else {
        is_long_blank(bytes)
    }
}

/// The version and the next number on a state page; None if the version is unknown.
pub fn version_and_next(page: &[u8; PAGE]) -> Option<(Version, u64)>
    ensures encoded { (version : Version) (next : ℕ) → next < 2 ^ 64 → IsPadded page.now (state_page version next)
        → result ≡ Some (version, next) }
    ensures there { IfSome result (λ encoded. AreAt (byte_of page.now) 0 12 (state_page encoded.0 encoded.1)) }
    ensures unknown { result ≡ None → (version : Version)
        → AreAt (byte_of page.now) 0 4 (to_be_bytes w32 (version_number version)) → ⊥ }
{
    match Version::of(get_u32(page, 0)) {
        Some(version) => Some((version, get_u64(page, 4))),
        None => None,
    }
}

/// Whether only zeros follow the 12 bytes of fields on page 0 or on the state page.
pub fn is_blank_after_fields(page: &[u8; PAGE]) -> bool
    ensures first { (blocks : ℕ) → AreAt (byte_of page.now) 0 12 (first_page blocks)
        → (IsTrue result ↔ AreAt (byte_of page.now) 0 PAGE (first_page blocks)) }
    ensures state { (version : Version) (next : ℕ) → AreAt (byte_of page.now) 0 12 (state_page version next)
        → (IsTrue result ↔ AreAt (byte_of page.now) 0 PAGE (state_page version next)) }
{
    is_blank(&page[12..])
}

/// The number of text blocks on page 0, of which the first 12 bytes are given; None if they aren't a spool's.
pub fn blocks_encoded(prefix: &[u8; 12]) -> Option<u32>
    ensures encoded { (blocks : ℕ) → blocks < 2 ^ 32
        → ((i : ℕ) → i < 12 → get_or prefix.now i 0 ≡ get_or (first_page blocks) i 0) → result ≡ Some blocks }
    ensures only { IfSome result (λ blocks. (i : ℕ) → i < 12
        → get_or prefix.now i 0 ≡ get_or (first_page blocks) i 0) }
{
    if !prefix.starts_with(&MAGIC) {
        return None;
    }
    Some(get_u32(prefix, 8))
}
