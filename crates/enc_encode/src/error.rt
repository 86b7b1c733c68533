//! Why an encoder writes no more.

ghost use Rattle.enc_encode.specs.declared.error.EncodeError.TheVariants.{NoMemory};
ghost use Rattle.std.specs.Prelude.{◌≡◌};

use std::alloc::AllocError;

/// Why an encoder wrote no more.
#[derive(Clone, Copy, Debug, PartialEq, Eq)]
pub enum EncodeError {
    /// The output could not grow.
    NoMemory,
    /// The encoding lacks this character, and the mode is fatal.
    Unencodable(char),
}

impl From<AllocError> for EncodeError {
    ghost from_gives = { λ _ e. e ≡ NoMemory };

    fn from(_e: AllocError) -> EncodeError {
        EncodeError::NoMemory
    }
}
