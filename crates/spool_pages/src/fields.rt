//! Bytes and numbers in a page. Numbers are big-endian.
ghost use Rattle.std.specs.Prelude.{◌≡◌, ◌≤◌, ◌<◌, ◌+◌, ◌^◌, ◌++◌, ℕ, List, length, get_or};
ghost use Rattle.std.specs.Int.{to_be_bytes, w16, w32, w64};
ghost use Rattle.spool_disk.specs.Disk.{In};
ghost use Rattle.spool_journal.specs.Image.{byte_of};
ghost use Rattle.spool_pages.specs.Bytes.{IsPadded};
ghost use Rattle.spool_pages.specs.View.{AreAt};

/// Copies bytes into a page.
#[tactic(auto, using(crate::proofs::Bytes::padded_more))]
pub(crate) fn put(page: &mut [u8], at: usize, bytes: &[u8])
    requires { at + length bytes.now ≤ length page.old }
    ensures outside { (p : ℕ) → (In at (length bytes.now) p → ⊥) → get_or page.new p 0 ≡ get_or page.old p 0 }
    ensures inside { (k : ℕ) → k < length bytes.now → get_or page.new (at + k) 0 ≡ get_or bytes.now k 0 }
    ensures padded { (xs : List ℕ) → length xs ≡ at → IsPadded page.old xs → IsPadded page.new (xs ++ bytes.now) }
{
    for i in 0..bytes.len() {
        page[at + i] = bytes[i];
    }
}

/// The number in two bytes of a page.
#[tactic(auto, using(crate::proofs::Numbers::two_are))]
pub(crate) fn get_u16(page: &[u8], at: usize) -> u16
    requires { at + 2 ≤ length page.now }
    ensures is { (n : ℕ) → n < 2 ^ 16 → AreAt (byte_of page.now) at 2 (to_be_bytes w16 n) → result ≡ n }
    ensures there { AreAt (byte_of page.now) at 2 (to_be_bytes w16 result) }
{
    u16::from_be_bytes([page[at], page[at + 1]])
}

/// The number in four bytes of a page.
#[tactic(auto, using(crate::proofs::Numbers::four_are))]
pub(crate) fn get_u32(page: &[u8], at: usize) -> u32
    requires { at + 4 ≤ length page.now }
    ensures is { (n : ℕ) → n < 2 ^ 32 → AreAt (byte_of page.now) at 4 (to_be_bytes w32 n) → result ≡ n }
    ensures there { AreAt (byte_of page.now) at 4 (to_be_bytes w32 result) }
{
    u32::from_be_bytes([page[at], page[at + 1], page[at + 2], page[at + 3]])
}

/// The number in eight bytes of a page.
#[tactic(auto, using(crate::proofs::Numbers::eight_are))]
pub(crate) fn get_u64(page: &[u8], at: usize) -> u64
    requires { at + 8 ≤ length page.now }
    ensures is { (n : ℕ) → n < 2 ^ 64 → AreAt (byte_of page.now) at 8 (to_be_bytes w64 n) → result ≡ n }
    ensures there { AreAt (byte_of page.now) at 8 (to_be_bytes w64 result) }
{
    u64::from_be_bytes([
        page[at],
        page[at + 1],
        page[at + 2],
        page[at + 3],
        page[at + 4],
        page[at + 5],
        page[at + 6],
        page[at + 7],
    ])
}
