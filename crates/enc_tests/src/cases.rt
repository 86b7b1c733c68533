//! Parsers for lines of test cases, which have labels, modes, and bytes in hexadecimal.

use enc_labels::encoding_of;
use enc_model::{Encoding, Mode};
use enc_stream::Transcoder;
use std::alloc::Global;
use std::process::Abort;

/// The value of a hexadecimal digit.
fn digit(rt: &impl Abort, byte: u8) -> u8 {
    let value = (byte as char).to_digit(16).expect(rt, "a digit");
    assert!(rt; value < 16);
    value as u8
}

/// The bytes that `hex` encodes.
pub fn bytes_of(rt: &impl Abort, alloc: Global, hex: &str) -> Vec<u8> {
    let mut bytes = Vec::new(alloc);
    let digits = hex.as_bytes();
    for place in 0..digits.len() / 2 {
        let high = digit(rt, digits[2 * place]);
        let low = digit(rt, digits[2 * place + 1]);
        assert!(rt; high < 16 && low < 16);
        bytes.push(16 * high + low).expect(rt, "memory");
    }
    bytes
}

/// The first word of a line, and the rest.
pub fn word<'a>(rt: &impl Abort, line: &'a str) -> (&'a str, &'a str) {
    line.split_once(' ').expect(rt, "two words")
}

/// The encoding of a label.
pub fn labelled(rt: &impl Abort, label: &str) -> Encoding {
    encoding_of(label.as_bytes()).expect(rt, "a label")
}

/// A new transcoder between the encodings of two labels.
pub fn between(rt: &impl Abort, from: &str, to: &str, mode: Mode) -> Transcoder {
    let (from, to) = (labelled(rt, from), labelled(rt, to));
    assert!(rt; !matches!(to, Encoding::Utf16Be | Encoding::Utf16Le));
    Transcoder::new(from, to, mode)
}
