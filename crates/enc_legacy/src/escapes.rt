//! Escapes of ISO-2022-JP, and bytes outside of them.

ghost use Rattle.std.specs.Prelude.{◌≡◌};
ghost use Rattle.enc_model.specs.Japanese.{iso2022_answer, escape_of, introducer_byte};

use crate::kana::half_width;
use enc_model::{Answer, Charset, Introducer};

/// The answer to a byte other than 1B in a character set.
pub fn plain_answer(set: Charset, b: u8) -> Answer
    ensures { result ≡ iso2022_answer set b }
{
    match set {
        Charset::Roman if b == 0x5C => Answer::Point('\u{A5}'),
        Charset::Roman if b == 0x7E => Answer::Point('\u{203E}'),
        Charset::Ascii | Charset::Roman => {
            if b < 0x80 && b != 0x0E && b != 0x0F {
                Answer::Point(b as char)
            } else {
                Answer::Error
            }
        }
        Charset::Katakana => {
            if 0x21 <= b && b <= 0x5F {
                half_width(b - 0x21)
            } else {
                Answer::Error
            }
        }
        Charset::Lead => {
            if 0x21 <= b && b <= 0x7E {
                Answer::Nothing
            } else {
                Answer::Error
            }
        }
    }
}

/// The character set of an escape sequence.
pub fn escape(lead: Introducer, b: u8) -> Option<Charset>
    ensures { result ≡ escape_of lead b }
{
    match (lead, b) {
        (Introducer::Paren, 0x42) => Some(Charset::Ascii),
        (Introducer::Paren, 0x4A) => Some(Charset::Roman),
        (Introducer::Paren, 0x49) => Some(Charset::Katakana),
        (Introducer::Dollar, 0x40 | 0x42) => Some(Charset::Lead),
        _ => None,
    }
}

/// The byte after 1B.
pub fn byte_of(lead: Introducer) -> u8
    ensures { result ≡ introducer_byte lead }
{
    match lead {
        Introducer::Dollar => 0x24,
        Introducer::Paren => 0x28,
    }
}
