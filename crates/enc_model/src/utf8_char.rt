//! A character as its bytes in UTF-8.

ghost use Rattle.std.specs.Prelude.{◌≡◌, ◌≤◌, take, encode_utf8};
ghost use Rattle.std.specs.Char.{IsScalar};

use std::marker::Model;

/// A character in UTF-8 that can be stored without a branch: four bytes, of which the first `len` are the character's.
#[derive(Drop)]
pub struct Utf8Char {
    bytes: [u8; 4],
    len: u8,
}

impl Model for Utf8Char {
    ghost use Rattle.std.specs.Prelude.{ℕ};
    ghost use Rattle.enc_model.specs.Utf8Chars.{IsUtf8Char, char_in};

    ghost Value = { ℕ };

    ghost view = { λ c. char_in c.bytes c.len };

    ghost invariant = { λ c. IsUtf8Char c.bytes c.len };
}

impl Utf8Char {
    /// The bytes of a character.
    #[inline(always)]
    #[tactic(auto, using(crate::proofs::Ready::ready_each))]
    pub fn of(c: char) -> Self
        ensures { result ≡ c }
    {
        let c = c as u32;
        match c {
            0..=0x7F => Utf8Char {
                bytes: [c as u8, 0, 0, 0],
                len: 1,
            },
            0x80..=0x7FF => Utf8Char {
                bytes: [(0xC0 + c / 64) as u8, (0x80 + c % 64) as u8, 0, 0],
                len: 2,
            },
            0x800..=0xFFFF => Utf8Char {
                bytes: [
                    (0xE0 + c / 4096) as u8,
                    (0x80 + c / 64 % 64) as u8,
                    (0x80 + c % 64) as u8,
                    0,
                ],
                len: 3,
            },
            _ => Utf8Char {
                bytes: [
                    (0xF0 + c / 262144) as u8,
                    (0x80 + c / 4096 % 64) as u8,
                    (0x80 + c / 64 % 64) as u8,
                    (0x80 + c % 64) as u8,
                ],
                len: 4,
            },
        }
    }

    /// Four bytes, and how many of them are the character's.
    #[inline(always)]
    pub fn parts(&self) -> ([u8; 4], u8)
        ensures code { take result.1 result.0 ≡ encode_utf8 self.now }
        ensures scalar { IsScalar self.now }
        ensures few { result.1 ≤ 4 }
    {
        (self.bytes, self.len)
    }
}
