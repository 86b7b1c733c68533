//! The errors of a transcoder.

ghost use Rattle.std.specs.Prelude.{◌≡◌};

use enc_encode::EncodeError;
use std::alloc::AllocError;

/// Why a transcoder stopped.
///
/// A character that Shift_JIS lacks, in fatal mode, and the call after it:
///
/// ```
/// let mut out = Vec::new(alloc);
/// let mut transcoder = Transcoder::new(Encoding::Utf8, Encoding::ShiftJis, Mode::Fatal);
/// let refused = transcoder.feed(&set, "\u{1F600}".as_bytes(), &mut out);
/// assert_eq!(rt; refused, Err(TranscodeError::Unencodable('\u{1F600}')));
/// let refused = transcoder.finish(&set, &mut out);
/// assert_eq!(rt; refused, Err(TranscodeError::Spent));
/// ```
#[derive(Clone, Copy, Debug, PartialEq, Eq)]
pub enum TranscodeError {
    /// The output could not grow.
    NoMemory,
    /// The target encoding lacks this character, and the mode is fatal.
    Unencodable(char),
    /// An earlier call was refused, or the end was decoded.
    Spent,
}

impl From<EncodeError> for TranscodeError {
    ghost use Rattle.std.specs.Prelude.{◌≡◌};
    ghost use Rattle.enc_stream.specs.Errors.{error_of};

    ghost from_gives = { λ e t. t ≡ error_of e };

    fn from(e: EncodeError) -> TranscodeError {
        match e {
            EncodeError::NoMemory => TranscodeError::NoMemory,
            EncodeError::Unencodable(c) => TranscodeError::Unencodable(c),
        }
    }
}

impl From<AllocError> for TranscodeError {
    ghost use Rattle.std.specs.Prelude.{◌≡◌};
    ghost use Rattle.enc_stream.specs.declared.error.TranscodeError.TheVariants.{NoMemory};

    ghost from_gives = { λ e t. t ≡ NoMemory };

    fn from(_e: AllocError) -> TranscodeError {
        TranscodeError::NoMemory
    }
}
