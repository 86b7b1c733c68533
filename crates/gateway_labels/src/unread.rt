//! Why a text has no labels.

use enc_stream::TranscodeError;
use gateway_outside::Refused;
use std::alloc::AllocError;

/// Why a text has no labels.
#[derive(Clone, Copy, Debug, PartialEq, Eq, Drop)]
pub enum Unread {
    /// Out of memory.
    NoMemory,
    /// The input was refused.
    Input,
    /// An encoding made no text of it, which none does.
    NoText,
}

impl From<AllocError> for Unread {
    ghost use Rattle.std.specs.Prelude.{◌≡◌};
    ghost use Rattle.gateway_labels.specs.declared.unread.Unread.{Unread};

    ghost from_gives = { λ _ unread. unread ≡ Unread.NoMemory };

    fn from(_error: AllocError) -> Self {
        Unread::NoMemory
    }
}

impl From<Refused> for Unread {
    ghost use Rattle.std.specs.Prelude.{◌≡◌};
    ghost use Rattle.gateway_labels.specs.declared.unread.Unread.{Unread};

    ghost from_gives = { λ _ unread. unread ≡ Unread.Input };

    fn from(_refused: Refused) -> Self {
        Unread::Input
    }
}

impl From<TranscodeError> for Unread {
    ghost use Rattle.gateway_labels.specs.Reasons.{transcode_reason};
    ghost use Rattle.std.specs.Prelude.{◌≡◌};

    ghost from_gives = { λ error unread. unread ≡ transcode_reason error };

    fn from(error: TranscodeError) -> Self {
        match error {
            TranscodeError::NoMemory => Unread::NoMemory,
            TranscodeError::Unencodable(_) | TranscodeError::Spent => Unread::NoText,
        }
    }
}
