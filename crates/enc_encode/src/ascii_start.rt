//! How much of a text's start is ASCII.

ghost use Rattle.std.specs.Prelude.{◌≡◌, ◌<◌, IfSome, All};
ghost use Rattle.std.specs.Bool.{OnTrue};
ghost use Rattle.std.specs.List.{prefix_len};
ghost use Rattle.enc_encode.specs.State.{shift_of};
ghost use Rattle.enc_encode.specs.Held.{IsOwnPrefix, own_byte};

use crate::buffer::LANES;
use crate::shift::ShiftState;
use enc_model::Encoding;
use lane_kernels::{ascii_chunk, ascii_front, plain_chunk_2022};

/// How many of the lanes, from the first, are ASCII that an encoder writes as it is.
#[inline(always)]
#[tactic(auto, using(crate::proofs::Prefixes::own_switched, crate::proofs::Prefixes::own_other))]
fn own_lanes(to: Encoding, shift: ShiftState, lanes: &[u8; LANES]) -> usize
    ensures { result ≡ prefix_len (own_byte to (shift_of shift)) lanes.now }
{
    match to {
        Encoding::Iso2022Jp => match shift {
            ShiftState::Ascii => plain_chunk_2022(lanes),
            ShiftState::Roman | ShiftState::Jis => 0,
        },
        _ => ascii_chunk(lanes),
    }
}

/// Whether all bytes are ASCII, looked at many at a time.
#[inline(always)]
pub fn are_ascii(bytes: &[u8]) -> bool
    ensures { OnTrue result (All (λ b. b < 128) bytes.now) }
{
    ascii_front(bytes) == bytes.len()
}

/// Whether a text's first character is ASCII.
#[inline(always)]
pub fn starts_in_ascii(text: &str) -> bool {
    match text.as_bytes().first() {
        Some(byte) => *byte < 0x80,
        None => false,
    }
}

/// Whole lanes at the start of a text that begins with ASCII, and how much ASCII there is, if it is written as it is.
#[inline(always)]
pub fn own_prefix(to: Encoding, shift: ShiftState, text: &str) -> Option<(&[u8; LANES], usize)>
    ensures { IfSome result (λ r. IsOwnPrefix to (shift_of shift) text.now r.0.now r.1) }
{
    let lanes = text.as_bytes().first_chunk::<LANES>()?;
    let count = own_lanes(to, shift, lanes);
    if count == 0 {
        return None;
    }
    Some((lanes, count))
}
