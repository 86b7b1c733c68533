//! What an encoder gives for one character.

ghost use Rattle.std.specs.Prelude.{◌≡◌};
ghost use Rattle.enc_encode.specs.Code.{code_bytes};

use crate::shift::ShiftState;

/// The bytes for one character.
#[derive(Clone, Copy, Debug)]
pub enum Bytes {
    Zero,
    One([u8; 1]),
    Two([u8; 2]),
    Three([u8; 3]),
    Four([u8; 4]),
    Five([u8; 5]),
}

impl Bytes {
    /// The bytes.
    pub fn as_slice(&self) -> &[u8]
        ensures { result.now ≡ code_bytes self.now }
    {
        match self {
            Bytes::Zero => &[],
            Bytes::One(bytes) => bytes,
            Bytes::Two(bytes) => bytes,
            Bytes::Three(bytes) => bytes,
            Bytes::Four(bytes) => bytes,
            Bytes::Five(bytes) => bytes,
        }
    }
}

/// What an encoder gives for one character, and the state that it is in then.
#[derive(Clone, Copy, Debug)]
pub enum Written {
    /// the character's bytes
    Wrote(Bytes, ShiftState),
    /// bytes after which it wants the character again
    Restore(Bytes, ShiftState),
    /// bytes, and then the error for this character
    Unmappable(Bytes, ShiftState, char),
}
