//! The errors of calls on uploads.
ghost use Rattle.std.specs.Prelude.{◌≡◌};

use common::Stop;
use enc_stream::EncodeError;

/// Why the rules refuse a call.
#[derive(Clone, Copy, Debug, PartialEq, Eq, Drop)]
pub enum UploadRefusal {
    /// The target encoding lacks a character of the text, and the mode is fatal.
    Unencodable,
    /// No upload has this number.
    NoSuch,
    /// The offset isn't the number of accepted bytes.
    Offset,
    /// The bytes exceed the declared length or, if that is unknown, 1,073,741,824.
    TooLong,
    /// No slot is free, or no number is left.
    Slots,
    /// The declared length is above 1,073,741,824.
    TooLarge,
    /// No block is free for the text.
    Full,
    /// The upload's length is known, and another one was declared.
    LengthSet,
}

/// Why a call on uploads fails.
#[derive(Clone, Copy, Debug, PartialEq, Eq, Drop)]
pub enum UploadError {
    /// Out of memory, or a disk fault.
    Stop(Stop),
    /// The rules refuse the call.
    Refused(UploadRefusal),
}

impl From<EncodeError> for UploadError {
    ghost use Rattle.upload_rules.specs.Errors.{encode_error};

    ghost from_gives = { λ error upload. upload ≡ encode_error error };

    fn from(error: EncodeError) -> UploadError {
        match error {
            EncodeError::NoMemory => UploadError::Stop(Stop::NoMemory),
            EncodeError::Unencodable(_) => UploadError::Refused(UploadRefusal::Unencodable),
        }
    }
}

impl From<Stop> for UploadError {
    ghost use Rattle.upload_rules.specs.declared.errors.UploadError.{UploadError};

    ghost from_gives = { λ stop error. error ≡ UploadError.Stop stop };

    fn from(stop: Stop) -> UploadError {
        UploadError::Stop(stop)
    }
}
