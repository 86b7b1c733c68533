//! Answers that the Japanese decoders share.

ghost use Rattle.std.specs.Prelude.{◌≡◌, ◌+◌, ◌<◌, ℕ, Option, Some};
ghost use Rattle.enc_model.specs.Stream.{restored_bytes};
ghost use Rattle.enc_model.specs.Japanese.{point_or_error, pair_step};

use enc_model::{Answer, Restored};

/// The answer with this code point, or the error without one.
pub(crate) fn answer_for(code: Option<char>) -> Answer
    ensures { result ≡ point_or_error code }
{
    match code {
        Some(c) => Answer::Point(c),
        None => Answer::Error,
    }
}

/// A half-width katakana, counted from U+FF61.
pub(crate) fn half_width(from_first: u8) -> Answer
    requires { from_first < 63 }
    ensures { result ≡ point_or_error (Some (0xFF61 + from_first)) }
{
    answer_for(char::from_u32(0xFF61 + from_first as u32))
}

/// The answer to a lead and this byte, which have this code point or none. Without one, an ASCII byte is restored.
pub(crate) fn pair_answer(code: Option<char>, b: u8) -> (Answer, Restored)
    ensures answer { result.0 ≡ point_or_error code }
    ensures restored { restored_bytes result.1 ≡ (pair_step {S = ℕ} 0 code b).restored }
{
    match code {
        Some(c) => (Answer::Point(c), Restored::Zero),
        None if b < 0x80 => (Answer::Error, Restored::One(b)),
        None => (Answer::Error, Restored::Zero),
    }
}
