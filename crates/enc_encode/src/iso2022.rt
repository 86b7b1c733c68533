//! The ISO-2022-JP encoder.

ghost use Rattle.std.specs.Prelude.{◌≡◌, ◌<◌, Option, Some, None};
ghost use Rattle.enc_encode.specs.Code.{written_of};
ghost use Rattle.enc_encode.specs.State.{shift_of};
ghost use Rattle.enc_model.specs.Encode.{minus, widened, iso2022_wide, iso2022_pointer, iso2022_encoder, below_8836};
ghost use Rattle.enc_model.specs.Index.{Index, pointer};
ghost use Rattle.enc_model.specs.Indexes.{tables};

use crate::encoders::{pair_of_94, pointer_below_8836, without_minus};
use crate::shift::ShiftState;
use crate::written::{Bytes, Written};
use enc_index::{IndexSet, Kind};

/// Bytes that switch to ASCII.
pub const TO_ASCII: Bytes = Bytes::Three([0x1B, 0x28, 0x42]);

/// The full-width form of a half-width katakana, where the index has it, and any other character as it is.
#[inline(always)]
fn widened(set: &IndexSet, c: char) -> Option<char>
    ensures { result ≡ widened (tables set.now).katakana c }
{
    match c {
        '\u{FF61}'..='\u{FF9F}' => set.code(Kind::Katakana, c as u32 - 0xFF61),
        _ => Some(c),
    }
}

/// The error for a character that jis0208 lacks.
#[inline(always)]
fn lacking(shift: ShiftState, c: char) -> Written
    ensures { written_of result ≡ iso2022_pointer (shift_of shift) c None }
{
    match shift {
        ShiftState::Jis => Written::Unmappable(TO_ASCII, ShiftState::Ascii, c),
        _ => Written::Unmappable(Bytes::Zero, shift, c),
    }
}

/// A character of jis0208.
#[inline(always)]
fn double_byte(set: &IndexSet, shift: ShiftState, c: char) -> Written
    ensures { written_of result ≡ iso2022_pointer (shift_of shift) c (below_8836 (pointer (tables set.now).jis0208 c)) }
{
    let Some(pointer) = pointer_below_8836(set, c) else {
        return lacking(shift, c);
    };
    let (lead, trail) = pair_of_94(0x21, pointer);
    let bytes = match shift {
        ShiftState::Jis => Bytes::Two([lead, trail]),
        _ => Bytes::Five([0x1B, 0x24, 0x42, lead, trail]),
    };
    Written::Wrote(bytes, ShiftState::Jis)
}

/// A character that is looked up in jis0208, half-width katakana in full width.
#[inline(always)]
fn looked_up(set: &IndexSet, shift: ShiftState, c: char) -> Written
    ensures { written_of result ≡ iso2022_wide (tables set.now).jis0208 (shift_of shift) (minus c)
        (widened (tables set.now).katakana (minus c)) }
{
    let c = without_minus(c);
    match widened(set, c) {
        Some(wide) => double_byte(set, shift, wide),
        None => lacking(shift, c),
    }
}

/// What the ISO-2022-JP encoder gives for ASCII, whatever the indexes are.
#[tactic(auto, unfolding(enc_model::specs::Encode::iso2022_encoder))]
#[inline(always)]
pub fn iso2022_ascii(shift: ShiftState, b: u8) -> Written
    requires { b < 128 }
    ensures { (jis0208 katakana : Index) → written_of result ≡ iso2022_encoder jis0208 katakana (shift_of shift) b }
{
    match (shift, b) {
        (ShiftState::Ascii | ShiftState::Roman, 0x0E | 0x0F | 0x1B) => {
            Written::Unmappable(Bytes::Zero, shift, '\u{FFFD}')
        }
        (ShiftState::Jis, _) | (ShiftState::Roman, 0x5C | 0x7E) => {
            Written::Restore(TO_ASCII, ShiftState::Ascii)
        }
        _ => Written::Wrote(Bytes::One([b]), shift),
    }
}

/// The ISO-2022-JP encoder.
#[tactic(auto, unfolding(enc_model::specs::Encode::iso2022_encoder))]
#[inline(always)]
pub fn iso2022_jp(set: &IndexSet, shift: ShiftState, c: char) -> Written
    ensures { written_of result
        ≡ iso2022_encoder (tables set.now).jis0208 (tables set.now).katakana (shift_of shift) c }
{
    match (shift, c) {
        (_, '\0'..='\u{7F}') => iso2022_ascii(shift, c as u8),
        (ShiftState::Roman, '\u{A5}') => Written::Wrote(Bytes::One([0x5C]), shift),
        (ShiftState::Roman, '\u{203E}') => Written::Wrote(Bytes::One([0x7E]), shift),
        (_, '\u{A5}' | '\u{203E}') => {
            Written::Restore(Bytes::Three([0x1B, 0x28, 0x4A]), ShiftState::Roman)
        }
        _ => looked_up(set, shift, c),
    }
}
