//! The references of characters at a text's start.

ghost use Rattle.std.specs.Prelude.{◌≤◌, IfSome, take};
ghost use Rattle.enc_encode.specs.Runs.{IsCoded, RunPrefix};
ghost use Rattle.enc_encode.specs.State.{shift_of};
ghost use Rattle.enc_model.specs.declared.Mode.TheVariants.{Html};
ghost use Rattle.enc_model.specs.Encode.{reference};
ghost use Rattle.enc_model.specs.Indexes.{tables};

use crate::buffer::ROOM;
use crate::encoders::written;
use crate::reference::{REFERENCE_ROOM, put_reference};
use crate::shift::ShiftState;
use crate::written::{Bytes, Written};
use enc_index::IndexSet;
use enc_model::Encoding;

/// The character whose reference is written for this one in html mode, if it is unmappable and the encoder stays in its
/// state.
#[inline(always)]
fn unmappable(set: &IndexSet, to: Encoding, shift: ShiftState, c: char) -> Option<char>
    ensures { IfSome result (λ d. IsCoded (tables set.now) to Html (shift_of shift) c (reference d)) }
{
    match written(set, to, shift, c) {
        Written::Unmappable(Bytes::Zero, next, d) if next == shift => Some(d),
        _ => None,
    }
}

/// Puts the references of characters at a text's start after the first so many bytes: of as many as are unmappable one
/// after the other, and as there is room for. Gives the rest of the text, and how many bytes there are then.
#[inline(always)]
pub fn put_references<'a>(
    held: &mut [u8; ROOM],
    from: usize,
    set: &IndexSet,
    to: Encoding,
    shift: ShiftState,
    text: &'a str,
) -> (&'a str, usize)
    requires { from ≤ ROOM }
    ensures room { result.1 ≤ ROOM }
    ensures run { RunPrefix (IsCoded (tables set.now) to Html (shift_of shift)) text.now result.0.now
        (take from held.old) (take result.1 held.new) }
{
    let mut len = from;
    let mut rest = text;
    while ROOM - len >= REFERENCE_ROOM {
        let mut chars = rest.chars();
        let Some(c) = chars.next() else {
            break;
        };
        let Some(d) = unmappable(set, to, shift, c) else {
            break;
        };
        len = put_reference(held, len, d);
        rest = chars.as_str();
    }
    (rest, len)
}
