//! The errors of a draft's text.
ghost use Rattle.std.specs.Prelude.{◌≡◌};

use common::Stop;
use spool_disk::DiskFault;
use std::alloc::AllocError;
use thiserror::Error;

/// Why the text of a draft can't begin or grow.
#[derive(Clone, Copy, Debug, PartialEq, Eq, Drop, Error)]
pub enum DraftError {
    /// Out of memory, or a disk fault.
    #[error(transparent)]
    Stop(Stop),
    /// No block is free.
    #[error("no block is free")]
    Full,
}

impl From<DiskFault> for DraftError {
    ghost use Rattle.common.specs.declared.stop.Stop.{Stop};
    ghost use Rattle.spool_texts.specs.declared.error.DraftError.{DraftError};

    ghost from_gives = { λ _ error. error ≡ DraftError.Stop Stop.DiskFault };

    fn from(_fault: DiskFault) -> DraftError {
        DraftError::Stop(Stop::DiskFault)
    }
}

impl From<AllocError> for DraftError {
    ghost use Rattle.common.specs.declared.stop.Stop.{Stop};
    ghost use Rattle.spool_texts.specs.declared.error.DraftError.{DraftError};

    ghost from_gives = { λ _ error. error ≡ DraftError.Stop Stop.NoMemory };

    fn from(_refused: AllocError) -> DraftError {
        DraftError::Stop(Stop::NoMemory)
    }
}
