//! The Encoding Standard's encodings, decoders and encoders as definitions. What runs is in the crates above.
#![tactic(auto)]

mod laws;
mod sink;
mod utf8_char;

pub use laws::{in_any_cut, restored_first, text_grows, with_a_bom};
pub use sink::Sink;
pub use utf8_char::Utf8Char;

/// The encodings of this gateway. Their order is part of the spool's format.
#[derive(Clone, Copy, Debug, PartialEq, Eq)]
pub enum Encoding {
    Utf8,
    Utf16Be,
    Utf16Le,
    ShiftJis,
    EucJp,
    Iso2022Jp,
    Ibm866,
    Iso8859X2,
    Iso8859X5,
    Iso8859X15,
    Koi8R,
    Macintosh,
    Windows1250,
    Windows1251,
    Windows1252,
    Windows1253,
    Windows1254,
    Windows1255,
    Windows1256,
    Windows1257,
    Windows1258,
}

/// The error mode of an encoder (Encoding Standard, section 4.1): html writes a decimal reference, fatal is an error.
#[derive(Clone, Copy, Debug, PartialEq, Eq)]
pub enum Mode {
    Html,
    Fatal,
}

/// A decoder handler's answer to a byte or to the end.
#[derive(Clone, Copy, Debug, PartialEq, Eq)]
pub enum Answer {
    /// A code point.
    Point(char),
    /// An error, which gives one U+FFFD.
    Error,
    /// Continue: nothing yet.
    Nothing,
    /// Everything is decoded.
    Finished,
}

/// The bytes that a handler restores: they are read again before the others.
#[derive(Clone, Copy, Debug, PartialEq, Eq)]
pub enum Restored {
    Zero,
    One(u8),
    Two(u8, u8),
}

/// A character set of ISO-2022-JP (Encoding Standard, section 12.2.1).
#[derive(Clone, Copy, Debug, PartialEq, Eq)]
pub enum Charset {
    Ascii,
    Roman,
    Katakana,
    Lead,
}

/// The byte after 1B in an escape sequence of ISO-2022-JP.
#[derive(Clone, Copy, Debug, PartialEq, Eq)]
pub enum Introducer {
    Dollar,
    Paren,
}

/// The place of an ISO-2022-JP decoder.
#[derive(Clone, Copy, Debug, PartialEq, Eq)]
pub enum Place {
    /// In a character set.
    In(Charset),
    /// After this lead byte.
    Trail(u8),
    /// After 1B.
    EscapeStart,
    /// After 1B and this byte.
    Escape(Introducer),
}
