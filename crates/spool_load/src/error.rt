//! The errors of reading a spool.
ghost use Rattle.std.specs.Prelude.{◌≡◌};

use common::Stop;
use spool_catalog::{CheckError, OpenFault};
use spool_disk::DiskFault;
use spool_pages::Damaged;
use std::alloc::AllocError;
use thiserror::Error;

/// Why a spool that was found can't be read.
#[derive(Clone, Copy, Debug, PartialEq, Eq, Drop, Error)]
pub enum LoadError {
    /// Out of memory, or a disk fault.
    #[error(transparent)]
    Stop(Stop),
    /// What was read is not what a spool may contain.
    #[error("the spool is damaged")]
    Damaged,
}

impl From<DiskFault> for LoadError {
    ghost use Rattle.common.specs.declared.stop.Stop.{Stop};
    ghost use Rattle.spool_load.specs.declared.error.LoadError.{LoadError};

    ghost from_gives = { λ _ error. error ≡ LoadError.Stop Stop.DiskFault };

    fn from(_fault: DiskFault) -> LoadError {
        LoadError::Stop(Stop::DiskFault)
    }
}

impl From<CheckError> for LoadError {
    ghost use Rattle.spool_load.specs.Faults.{check_fault};

    ghost from_gives = { λ check error. error ≡ check_fault check };

    fn from(check: CheckError) -> LoadError {
        match check {
            CheckError::Damaged => LoadError::Damaged,
            CheckError::NoMemory => LoadError::Stop(Stop::NoMemory),
        }
    }
}

impl From<Damaged> for LoadError {
    ghost use Rattle.spool_load.specs.declared.error.LoadError.{LoadError};

    ghost from_gives = { λ _ error. error ≡ LoadError.Damaged };

    fn from(_damaged: Damaged) -> LoadError {
        LoadError::Damaged
    }
}

impl From<AllocError> for LoadError {
    ghost use Rattle.common.specs.declared.stop.Stop.{Stop};
    ghost use Rattle.spool_load.specs.declared.error.LoadError.{LoadError};

    ghost from_gives = { λ _ error. error ≡ LoadError.Stop Stop.NoMemory };

    fn from(_error: AllocError) -> LoadError {
        LoadError::Stop(Stop::NoMemory)
    }
}

impl From<LoadError> for OpenFault {
    ghost use Rattle.spool_load.specs.Faults.{load_fault};

    ghost from_gives = { λ error fault. fault ≡ load_fault error };

    fn from(error: LoadError) -> OpenFault {
        match error {
            LoadError::Stop(stop) => OpenFault::Stop(stop),
            LoadError::Damaged => OpenFault::Damaged,
        }
    }
}
