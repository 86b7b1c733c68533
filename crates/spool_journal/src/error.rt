//! The errors of a recovery.
ghost use Rattle.std.specs.Prelude.{◌≡◌};

use spool_disk::DiskFault;
use thiserror::Error;

/// Why `recover` failed.
#[derive(Clone, Copy, Debug, PartialEq, Eq, Drop, Error)]
pub enum RecoverError {
    /// A disk fault.
    #[error("the disk failed")]
    DiskFault,
    /// The gate is open and the journal's head is invalid.
    #[error("the journal is damaged")]
    Damaged,
}

impl From<DiskFault> for RecoverError {
    ghost use Rattle.spool_journal.specs.declared.error.RecoverError.{RecoverError};

    ghost from_gives = { λ _ error. error ≡ RecoverError.DiskFault };

    fn from(_fault: DiskFault) -> RecoverError {
        RecoverError::DiskFault
    }
}
