//! The numbers of encodings, modes and states in the state bytes. They are part of the spool's format.

ghost use Rattle.std.specs.Prelude.{◌≡◌, Some, MatchOption};
ghost use Rattle.enc_model.specs.declared.Encoding.{Encoding};
ghost use Rattle.enc_model.specs.declared.Mode.{Mode};
ghost use Rattle.enc_model.specs.declared.Charset.{Charset};
ghost use Rattle.enc_model.specs.Encode.{Shift};
ghost use Rattle.enc_encode.specs.State.{shift_of};
ghost use Rattle.enc_stream.specs.StateBytes.{encoding_number, mode_number, shift_number, charset_number};

use enc_encode::ShiftState;
use enc_model::{Charset, Encoding, Mode};

/// The number of the encoding.
pub fn number_of_encoding(encoding: Encoding) -> u8
    ensures { result ≡ encoding_number encoding }
{
    encoding as u8
}

/// The encoding of this number.
pub fn encoding_at(number: u8) -> Option<Encoding>
    ensures { (e : Encoding) → encoding_number e ≡ number → result ≡ Some e }
{
    Some(match number {
        0 => Encoding::Utf8,
        1 => Encoding::Utf16Be,
        2 => Encoding::Utf16Le,
        3 => Encoding::ShiftJis,
        4 => Encoding::EucJp,
        5 => Encoding::Iso2022Jp,
        6 => Encoding::Ibm866,
        7 => Encoding::Iso8859X2,
        8 => Encoding::Iso8859X5,
        9 => Encoding::Iso8859X15,
        10 => Encoding::Koi8R,
        11 => Encoding::Macintosh,
        12 => Encoding::Windows1250,
        13 => Encoding::Windows1251,
        14 => Encoding::Windows1252,
        15 => Encoding::Windows1253,
        16 => Encoding::Windows1254,
        17 => Encoding::Windows1255,
        18 => Encoding::Windows1256,
        19 => Encoding::Windows1257,
        20 => Encoding::Windows1258,
        _ => return None,
    })
}

/// The number of the mode.
pub fn number_of_mode(mode: Mode) -> u8
    ensures { result ≡ mode_number mode }
{
    mode as u8
}

/// The mode of this number.
pub fn mode_at(number: u8) -> Option<Mode>
    ensures { (m : Mode) → mode_number m ≡ number → result ≡ Some m }
{
    match number {
        0 => Some(Mode::Html),
        1 => Some(Mode::Fatal),
        _ => None,
    }
}

/// The number of the encoder's state.
pub fn number_of_shift(shift: ShiftState) -> u8
    ensures { result ≡ shift_number (shift_of shift) }
{
    shift as u8
}

/// The encoder's state of this number.
pub fn shift_at(number: u8) -> Option<ShiftState>
    ensures { (s : Shift) → shift_number s ≡ number → MatchOption result ⊥ (λ state. shift_of state ≡ s) }
{
    match number {
        0 => Some(ShiftState::Ascii),
        1 => Some(ShiftState::Roman),
        2 => Some(ShiftState::Jis),
        _ => None,
    }
}

/// The number of the character set.
pub fn number_of_charset(set: Charset) -> u8
    ensures { result ≡ charset_number set }
{
    set as u8
}

/// The character set of this number.
pub fn charset_at(number: u8) -> Option<Charset>
    ensures { (s : Charset) → charset_number s ≡ number → result ≡ Some s }
{
    match number {
        0 => Some(Charset::Ascii),
        1 => Some(Charset::Roman),
        2 => Some(Charset::Katakana),
        3 => Some(Charset::Lead),
        _ => None,
    }
}
