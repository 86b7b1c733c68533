//! Bytes written in hex digits.
ghost use Rattle.std.specs.Prelude.{◌≡◌, ℕ, ◌*◌, ◌<◌, None, Some, IfOk, if◌then◌else◌, length, option_map};
ghost use Rattle.hex.specs.Hex.{decode_pairs, hex_digit_value, pair_value};
ghost use Rattle.gateway_script.specs.Digits.{HaveValues};
ghost use Rattle.gateway_script.specs.Script.{hex_bytes};
ghost use Rattle.tus_request.specs.Value.{answered};

use hex::FromHex;
use std::alloc::{AllocError, Global};

/// How many values a byte has.
const BYTES: usize = 256;

/// The value of each byte as a hex digit, as the crate `hex` has it. A script's digits are looked up here, since
/// `hex::decode` asks of each whether it is a letter, which a processor can't foresee in random bytes.
#[derive(Drop)]
pub(crate) struct HexDigits {
    values: [Option<u8>; BYTES],
    ghost all: { HaveValues values 256 },
}

/// The value of a byte as a hex digit.
fn value(byte: u8) -> Option<u8>
    ensures { result ≡ hex_digit_value byte }
{
    match <[u8; 1]>::from_hex([b'0', byte]) {
        Ok(bytes) => Some(bytes[0]),
        Err(_) => None,
    }
}

impl HexDigits {
    /// The values of all bytes.
    pub(crate) fn new() -> Self {
        let mut values = [None; BYTES];
        for byte in 0..BYTES {
            values[byte] = value(byte as u8);
        }
        HexDigits { values }
    }

    /// The byte of two digits, if both are digits.
    #[inline(always)]
    fn pair(&self, high: u8, low: u8) -> Option<u8>
        ensures { (at : ℕ) → result ≡ answered (pair_value high low at) }
    {
        Some(self.values[high as usize]? * 16 + self.values[low as usize]?)
    }

    /// Reads two digits a byte. Whether all are digits.
    fn read(&self, text: &[u8], out: &mut [u8]) -> bool
        requires { length text.now ≡ 2 * length out.old }
        ensures { answered (decode_pairs 0 text.now) ≡ (if result then Some out.new else None) }
    {
        for i in 0..out.len() {
            let Some(byte) = self.pair(text[2 * i], text[2 * i + 1]) else {
                return false;
            };
            out[i] = byte;
        }
        true
    }

    /// The bytes that a text of hex digits writes, two digits a byte; none where it isn't such a text.
    pub(crate) fn decode(&self, alloc: Global, text: &[u8]) -> Result<Option<Vec<u8>>, AllocError>
        ensures { IfOk result (λ bytes. option_map (λ b. b.items) bytes ≡ hex_bytes text.now) }
    {
        if text.len() % 2 != 0 {
            return Ok(None);
        }
        let mut bytes = vec![in alloc; 0u8; text.len() / 2]?;
        Ok(if self.read(text, bytes.as_mut_slice()) {
            Some(bytes)
        } else {
            None
        })
    }
}
