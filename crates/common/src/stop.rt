//! Why a call stops.
ghost use Rattle.std.specs.Prelude.{◌≡◌};

use std::alloc::AllocError;
use std::io;
use thiserror::Error;

/// A disk fault: the call failed.
#[derive(Clone, Copy, Debug, PartialEq, Eq, Drop, Error)]
#[error("the disk failed")]
pub struct DiskFault;

impl From<io::Error> for DiskFault {
    fn from(_error: io::Error) -> DiskFault {
        DiskFault
    }
}

/// Why a call stops that refuses nothing. Each call states what stays after it.
#[derive(Clone, Copy, Debug, PartialEq, Eq, Drop, Error)]
pub enum Stop {
    /// Out of memory: an allocation failed.
    #[error("out of memory")]
    NoMemory,
    /// A disk fault: the spool has to be opened again.
    #[error("the disk failed")]
    DiskFault,
}

impl From<AllocError> for Stop {
    ghost use Rattle.common.specs.declared.stop.Stop.{Stop};

    ghost from_gives = { λ _ stop. stop ≡ Stop.NoMemory };

    fn from(_error: AllocError) -> Stop {
        Stop::NoMemory
    }
}

impl From<DiskFault> for Stop {
    ghost use Rattle.common.specs.declared.stop.Stop.{Stop};

    ghost from_gives = { λ _ stop. stop ≡ Stop.DiskFault };

    fn from(_fault: DiskFault) -> Stop {
        Stop::DiskFault
    }
}
