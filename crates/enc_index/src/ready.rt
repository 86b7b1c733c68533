//! The code points of an index as UTF-8, so that decoding copies and doesn't compute.

ghost use Rattle.std.specs.Prelude.{◌≡◌, ℕ, ◌<◌, IfOk, length, slice_index};
ghost use Rattle.enc_index.specs.Entries.{pairs_from};
ghost use Rattle.enc_index.specs.Bytes.{byte_char};

use enc_model::Utf8Char;
use std::alloc::{AllocError, Global};

/// How many bytes there are.
const BYTES: usize = 256;

// A code point as UTF-8.
fn ready_code(code: Option<char>) -> Option<Utf8Char>
    ensures { result ≡ code }
{
    match code {
        Some(c) => Some(Utf8Char::of(c)),
        None => None,
    }
}

/// The code points at the pointers, as UTF-8.
pub fn ready(alloc: Global, codes: &[Option<char>]) -> Result<Vec<Option<Utf8Char>>, AllocError>
    ensures { IfOk result (λ ready. ready.items ≡ codes.now) }
{
    let mut ready = Vec::with_capacity(alloc, codes.len())?;
    for code in codes {
        ready.push(ready_code(*code))?;
    }
    Ok(ready)
}

/// The character of a byte, if this is the index of a single-byte encoding.
#[tactic(auto, using(crate::proofs::Lookups::code_entry))]
fn byte_char(codes: &[Option<char>], byte: u8) -> char
    ensures { result ≡ byte_char (pairs_from 0 codes.now) byte }
{
    if byte < 0x80 {
        return byte as char;
    }
    match codes.get(byte as usize - 0x80) {
        Some(Some(c)) => *c,
        _ => '\u{FFFD}',
    }
}

/// The characters of all bytes as UTF-8, if this is the index of a single-byte encoding.
pub fn ready_bytes(alloc: Global, codes: &[Option<char>]) -> Result<Vec<Utf8Char>, AllocError>
    ensures long { IfOk result (λ ready. length ready.items ≡ 256) }
    ensures chars { IfOk result
        (λ ready. (b : ℕ) → b < 256 → slice_index ready.items b ≡ byte_char (pairs_from 0 codes.now) b) }
{
    let mut ready = Vec::with_capacity(alloc, BYTES)?;
    for byte in 0..BYTES {
        ready.push(Utf8Char::of(byte_char(codes, byte as u8)))?;
    }
    Ok(ready)
}
