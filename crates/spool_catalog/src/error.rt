//! Why a spool is not opened, and why no catalog is made of what was read.
ghost use Rattle.std.specs.Prelude.{◌≡◌};

use common::Stop;
use spool_disk::DiskFault;
use spool_journal::RecoverError;
use spool_pages::Damaged;
use std::alloc::AllocError;
use thiserror::Error;

/// Why a disk is not opened as a spool.
#[derive(Clone, Copy, Debug, PartialEq, Eq, Drop, Error)]
pub enum OpenFault {
    /// The disk doesn't begin with the first bytes of a spool and a number of text blocks from 16 to 65,536, or it is
    /// shorter than its layout.
    #[error("the disk is no spool")]
    NotASpool,
    /// The bytes are none that are ever written to a spool.
    #[error("the spool is damaged")]
    Damaged,
    /// The spool has another version.
    #[error("the spool has another version")]
    Version,
    /// Out of memory, or a disk fault.
    #[error(transparent)]
    Stop(Stop),
}

impl From<DiskFault> for OpenFault {
    ghost use Rattle.common.specs.declared.stop.Stop.{Stop};
    ghost use Rattle.spool_catalog.specs.declared.error.OpenFault.{OpenFault};

    ghost from_gives = { λ _ fault. fault ≡ OpenFault.Stop Stop.DiskFault };

    fn from(_fault: DiskFault) -> OpenFault {
        OpenFault::Stop(Stop::DiskFault)
    }
}

impl From<RecoverError> for OpenFault {
    ghost use Rattle.spool_catalog.specs.Faults.{open_fault_of};

    ghost from_gives = { λ error fault. fault ≡ open_fault_of error };

    fn from(error: RecoverError) -> OpenFault {
        match error {
            RecoverError::DiskFault => OpenFault::Stop(Stop::DiskFault),
            RecoverError::Damaged => OpenFault::Damaged,
        }
    }
}

/// Why no catalog is made of what was read of a spool.
#[derive(Clone, Copy, Debug, PartialEq, Eq, Drop, Error)]
pub enum CheckError {
    /// It is not what a spool may contain.
    #[error("the spool is damaged")]
    Damaged,
    /// Out of memory.
    #[error("no memory is left")]
    NoMemory,
}

impl From<Damaged> for CheckError {
    ghost use Rattle.spool_catalog.specs.declared.error.CheckError.{CheckError};

    ghost from_gives = { λ _ error. error ≡ CheckError.Damaged };

    fn from(_damaged: Damaged) -> CheckError {
        CheckError::Damaged
    }
}

impl From<AllocError> for CheckError {
    ghost use Rattle.spool_catalog.specs.declared.error.CheckError.{CheckError};

    ghost from_gives = { λ _ error. error ≡ CheckError.NoMemory };

    fn from(_error: AllocError) -> CheckError {
        CheckError::NoMemory
    }
}
