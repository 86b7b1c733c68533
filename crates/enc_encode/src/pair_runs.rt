//! The bytes of a text's start in the Japanese encodings, where each character has two.

ghost use Rattle.std.specs.Prelude.{◌<◌, ◌≤◌, ◌+◌, ◌∷◌, [], ℕ, List, IfSome, take};
ghost use Rattle.std.specs.Str.{IsUtf8};
ghost use Rattle.enc_encode.specs.Pairs.{ArePairPointers, JisPointers};
ghost use Rattle.enc_encode.specs.Runs.{FirstGiven, RunPrefix, Stays};
ghost use Rattle.enc_encode.specs.State.{shift_of};
ghost use Rattle.enc_model.specs.Encode.{Tables, encoder};
ghost use Rattle.enc_model.specs.Indexes.{tables};

use crate::buffer::ROOM;
use crate::encoders::{pair, pair_pointers};
use crate::shift::ShiftState;
use enc_index::{IndexSet, Pointers};
use enc_model::Encoding;

/// What the three bytes of a character count, beside its code point, where the first counts 4,096 and the second 64.
const THREE_BYTES: u32 = 0xE0 * 4096 + 0x80 * 64 + 0x80;

/// The two bytes of a text's first character, whose first three bytes these are, if it is one that `pair` has. No
/// character outside U+3000 to U+FF60 has first three bytes that count from 3000 to FF60. The first byte alone decides
/// for most others, and is looked at before that. The two ranges are tested one by one, so that no code point is tested
/// for a surrogate.
#[inline(always)]
fn first_pair(
    pointers: &Pointers,
    to: Encoding,
    shift: ShiftState,
    lead: u8,
    second: u8,
    third: u8,
) -> Option<(u8, u8)>
    requires { JisPointers pointers.now }
    ensures { (t : Tables) → ArePairPointers t to pointers.now → IfSome result
        (λ r. (more : List ℕ) → IsUtf8 (lead ∷ second ∷ third ∷ more) →
        FirstGiven (Stays (encoder t to) (shift_of shift)) (lead ∷ second ∷ third ∷ more) (r.0 ∷ r.1 ∷ []) more) }
{
    if lead < 0xE3 {
        return None;
    }
    let c = (lead as u32 * 4096 + second as u32 * 64 + third as u32).wrapping_sub(THREE_BYTES);
    match c {
        0x3000..=0xD7FF => pair(pointers, to, shift, char::from_u32(c)?),
        0xE000..=0xFF60 => pair(pointers, to, shift, char::from_u32(c)?),
        _ => None,
    }
}

/// Puts the bytes of characters at a text's start after the first so many: as many as `pair` has one after the other,
/// and as there is room for. Gives the rest of the text, and how many bytes there are then. It is tried after each
/// other character too, so nothing but the pointers is made ready before the first character is looked at.
#[inline(always)]
pub fn put_pairs<'a>(
    held: &mut [u8; ROOM],
    from: usize,
    set: &IndexSet,
    to: Encoding,
    shift: ShiftState,
    text: &'a str,
) -> (&'a str, usize)
    requires { from ≤ ROOM }
    ensures room { result.1 ≤ ROOM }
    ensures run { RunPrefix (Stays (encoder (tables set.now) to) (shift_of shift)) text.now result.0.now
        (take from held.old) (take result.1 held.new) }
{
    let Some(pointers) = pair_pointers(set, to, shift) else {
        return (text, from);
    };
    let bytes = text.as_bytes();
    let mut at = 0;
    let mut len = from;
    while bytes.len() - at >= 3 && ROOM - len >= 2 {
        let Some((lead, trail)) = first_pair(
            pointers,
            to,
            shift,
            bytes[at],
            bytes[at + 1],
            bytes[at + 2],
        ) else {
            break;
        };
        held[len] = lead;
        held[len + 1] = trail;
        at += 3;
        len += 2;
    }
    (&text[at..], len)
}
