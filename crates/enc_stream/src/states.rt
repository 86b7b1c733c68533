//! The states of decoders as bytes.

ghost use Rattle.std.specs.Prelude.{◌≡◌, ◌∷◌, [], Some, None, IfSome};
ghost use Rattle.enc_model.specs.Utf8.{Utf8};
ghost use Rattle.enc_model.specs.Utf16.{Utf16};
ghost use Rattle.enc_model.specs.Japanese.{EucJp, Iso2022};
ghost use Rattle.enc_model.specs.Decode.{OfUtf8, OfUtf16, OfEucJp, OfIso2022};
ghost use Rattle.enc_legacy.specs.ShiftJis.{IsShiftJisState};
ghost use Rattle.lane_kernels.specs.Orders.{is_big};
ghost use Rattle.enc_stream.specs.StateBytes.{IsReached, padded, decoder_bytes};

use crate::numbers::{charset_at, number_of_charset};
use enc_legacy::{EucJpState, Iso2022State, ShiftJisState};
use enc_model::{Charset, Introducer, Place};
use enc_unicode::{Order, Utf8State, Utf16State};

/// The count of the bytes of an unfinished character, and the bytes.
pub fn utf8_bytes(state: &Utf8State) -> [u8; 4]
    ensures bytes { result ≡ padded 4 (decoder_bytes (OfUtf8 state.now)) }
    ensures reached { IsReached (OfUtf8 state.now) }
{
    match state.partial() {
        [] => [0; 4],
        [first] => [1, *first, 0, 0],
        [first, second] => [2, *first, *second, 0],
        [first, second, third] => [3, *first, *second, *third],
        _ => unreachable!(),
    }
}

/// The state of these bytes.
pub fn utf8_at(bytes: [u8; 4]) -> Option<Utf8State>
    ensures { (s : Utf8) → IsReached (OfUtf8 s) → padded 4 (decoder_bytes (OfUtf8 s)) ≡ bytes → result ≡ Some s }
{
    let [count, first, second, third] = bytes;
    match count {
        0 => Utf8State::after(&[]),
        1 => Utf8State::after(&[first]),
        2 => Utf8State::after(&[first, second]),
        3 => Utf8State::after(&[first, second, third]),
        _ => None,
    }
}

/// 1 for an odd byte plus 2 for a lead surrogate; the byte; the surrogate, its high byte first.
pub fn utf16_bytes(state: &Utf16State) -> [u8; 4]
    ensures bytes { result ≡ padded 4 (decoder_bytes (OfUtf16 state.now.big state.now.state)) }
    ensures reached { IsReached (OfUtf16 state.now.big state.now.state) }
{
    match (state.byte(), state.lead()) {
        (None, None) => [0; 4],
        (Some(byte), None) => [1, byte, 0, 0],
        (None, Some(lead)) => [2, 0, (lead / 256) as u8, (lead % 256) as u8],
        (Some(byte), Some(lead)) => [3, byte, (lead / 256) as u8, (lead % 256) as u8],
    }
}

/// The state of these bytes.
pub fn utf16_at(order: Order, bytes: [u8; 4]) -> Option<Utf16State>
    ensures same { (s : Utf16) → IsReached (OfUtf16 (is_big order) s) → padded 4
        (decoder_bytes (OfUtf16 (is_big order) s)) ≡ bytes → result ≡ Some (record { big = is_big order; state = s }) }
    ensures order { IfSome result (λ s. s.big ≡ is_big order) }
{
    let [partial, byte, high, low] = bytes;
    let lead = high as u16 * 256 + low as u16;
    let (byte, lead) = match partial {
        0 => (None, None),
        1 => (Some(byte), None),
        2 => (None, Some(lead)),
        3 => (Some(byte), Some(lead)),
        _ => return None,
    };
    match lead {
        None | Some(0xD800..=0xDBFF) => Some(Utf16State::in_state(order, byte, lead)),
        Some(_) => None,
    }
}

/// The state after this lead byte, or after none.
pub fn shift_jis_at(lead: u8) -> Option<ShiftJisState>
    ensures { IsShiftJisState lead → result ≡ Some lead }
{
    match lead {
        0 | 0x81..=0x9F | 0xE0..=0xFC => Some(ShiftJisState::in_state(lead)),
        _ => None,
    }
}

/// The lead byte, and 1 if the flag is set.
pub fn euc_jp_bytes(state: &EucJpState) -> [u8; 4]
    ensures bytes { result ≡ padded 4 (decoder_bytes (OfEucJp state.now)) }
    ensures reached { IsReached (OfEucJp state.now) }
{
    let (lead, flag) = state.parts();
    [lead, flag as u8, 0, 0]
}

/// The state with this lead byte and flag.
pub fn euc_jp_at(lead: u8, flag: u8) -> Option<EucJpState>
    ensures { (s : EucJp) → IsReached (OfEucJp s) → padded 4 (decoder_bytes (OfEucJp s)) ≡ lead ∷ flag ∷ 0 ∷ 0 ∷ []
        → result ≡ Some s }
{
    match (lead, flag) {
        (0 | 0x8E | 0x8F, 0) => Some(EucJpState::in_state(lead, false)),
        (0xA1..=0xFE, 0 | 1) => Some(EucJpState::in_state(lead, flag == 1)),
        _ => None,
    }
}

/// The place, the output state, the lead byte, and 1 if the flag is set.
pub fn iso2022_bytes(state: &Iso2022State) -> [u8; 4]
    ensures bytes { result ≡ padded 4 (decoder_bytes (OfIso2022 state.now)) }
    ensures reached { IsReached (OfIso2022 state.now) }
{
    let (place, output, flag) = state.parts();
    let (place, lead) = match place {
        Place::In(set) => (number_of_charset(set), 0),
        Place::Trail(lead) => (4, lead),
        Place::EscapeStart => (5, 0),
        Place::Escape(Introducer::Dollar) => (6, 0x24),
        Place::Escape(Introducer::Paren) => (6, 0x28),
    };
    [place, number_of_charset(output), lead, flag as u8]
}

/// The state of these bytes.
pub fn iso2022_at(bytes: [u8; 4]) -> Option<Iso2022State>
    ensures { (s : Iso2022) → IsReached (OfIso2022 s) → padded 4 (decoder_bytes (OfIso2022 s)) ≡ bytes
        → result ≡ Some s }
{
    let [place, output, lead, flag] = bytes;
    let output = charset_at(output)?;
    let place = match (place, lead) {
        (0..=3, _) => Place::In(output),
        (4, 0x21..=0x7E) if output == Charset::Lead && flag == 0 => Place::Trail(lead),
        (5, _) => Place::EscapeStart,
        (6, 0x24) => Place::Escape(Introducer::Dollar),
        (6, 0x28) => Place::Escape(Introducer::Paren),
        _ => return None,
    };
    Some(Iso2022State::in_state(place, output, flag == 1))
}
