//! The errors of formatting, upgrading and raising.
ghost use Rattle.std.specs.Prelude.{◌≡◌};

use common::Stop;
use spool_catalog::OpenFault;
use spool_disk::DiskFault;
use spool_load::LoadError;
use std::alloc::AllocError;
use thiserror::Error;

/// Why `format` makes no spool.
///
/// Too few blocks, and a disk that is a spool already:
///
/// ```
/// assert_eq!(rt; format(&mut disk, 15, &indexes), Err(FormatError::Size));
/// assert_eq!(rt; format(&mut disk, 16, &indexes), Ok(()));
/// let again = format(&mut disk, 16, &indexes);
/// assert_eq!(rt; again, Err(FormatError::AlreadySpool));
/// ```
#[derive(Clone, Copy, Debug, PartialEq, Eq, Drop, Error)]
pub enum FormatError {
    /// The disk begins as a spool.
    #[error("the disk is a spool already")]
    AlreadySpool,
    /// The number of text blocks isn't 16 to 65,536, or the disk is too short for it.
    #[error("a spool of this size can't be made there")]
    Size,
    /// A disk fault.
    #[error("the disk failed")]
    DiskFault,
}

impl From<DiskFault> for FormatError {
    ghost use Rattle.spool_image.specs.declared.error.FormatError.{FormatError};

    ghost from_gives = { λ _ error. error ≡ FormatError.DiskFault };

    fn from(_fault: DiskFault) -> FormatError {
        FormatError::DiskFault
    }
}

/// Why `upgrade` fails.
///
/// A disk of zeros, and a spool of version 2, which `format` makes:
///
/// ```
/// let no_spool = upgrade(alloc, &mut disk);
/// assert_eq!(rt; no_spool, Err(UpgradeError::Open(OpenFault::NotASpool)));
/// format(&mut disk, 16, &indexes).expect(rt, "a long disk");
/// let new_spool = upgrade(alloc, &mut disk);
/// assert_eq!(rt; new_spool, Err(UpgradeError::AlreadyNew));
/// ```
#[derive(Clone, Copy, Debug, PartialEq, Eq, Drop, Error)]
pub enum UpgradeError {
    /// The spool can't be opened.
    #[error(transparent)]
    Open(OpenFault),
    /// The spool has version 2 already.
    #[error("the spool is of version 2 already")]
    AlreadyNew,
}

impl From<OpenFault> for UpgradeError {
    ghost use Rattle.spool_image.specs.declared.error.UpgradeError.{UpgradeError};

    ghost from_gives = { λ fault error. error ≡ UpgradeError.Open fault };

    fn from(fault: OpenFault) -> UpgradeError {
        UpgradeError::Open(fault)
    }
}

impl From<LoadError> for UpgradeError {
    ghost use Rattle.spool_image.specs.declared.error.UpgradeError.{UpgradeError};
    ghost use Rattle.spool_load.specs.Faults.{load_fault};

    ghost from_gives = { λ load error. error ≡ UpgradeError.Open (load_fault load) };

    fn from(load: LoadError) -> UpgradeError {
        UpgradeError::Open(OpenFault::from(load))
    }
}

impl From<DiskFault> for UpgradeError {
    ghost use Rattle.common.specs.declared.stop.Stop.{Stop};
    ghost use Rattle.spool_catalog.specs.declared.error.OpenFault.{OpenFault};
    ghost use Rattle.spool_image.specs.declared.error.UpgradeError.{UpgradeError};

    ghost from_gives = { λ _ error. error ≡ UpgradeError.Open (OpenFault.Stop Stop.DiskFault) };

    fn from(_fault: DiskFault) -> UpgradeError {
        UpgradeError::Open(OpenFault::Stop(Stop::DiskFault))
    }
}

impl From<AllocError> for UpgradeError {
    ghost use Rattle.common.specs.declared.stop.Stop.{Stop};
    ghost use Rattle.spool_catalog.specs.declared.error.OpenFault.{OpenFault};
    ghost use Rattle.spool_image.specs.declared.error.UpgradeError.{UpgradeError};

    ghost from_gives = { λ _ error. error ≡ UpgradeError.Open (OpenFault.Stop Stop.NoMemory) };

    fn from(_error: AllocError) -> UpgradeError {
        UpgradeError::Open(OpenFault::Stop(Stop::NoMemory))
    }
}

/// Why `raise` fails.
///
/// A number that leaves fewer than 10^15, and a disk of zeros:
///
/// ```
/// let too_large = raise(alloc, &mut disk, 999_000_000_000_000_001);
/// assert_eq!(rt; too_large, Err(RaiseError::TooLarge));
/// let no_spool = raise(alloc, &mut disk, 7);
/// assert_eq!(rt; no_spool, Err(RaiseError::Open(OpenFault::NotASpool)));
/// ```
#[derive(Clone, Copy, Debug, PartialEq, Eq, Drop, Error)]
pub enum RaiseError {
    /// The spool can't be opened.
    #[error(transparent)]
    Open(OpenFault),
    /// The number would leave fewer than 10^15.
    #[error("too few numbers would be left")]
    TooLarge,
}

impl From<OpenFault> for RaiseError {
    ghost use Rattle.spool_image.specs.declared.error.RaiseError.{RaiseError};

    ghost from_gives = { λ fault error. error ≡ RaiseError.Open fault };

    fn from(fault: OpenFault) -> RaiseError {
        RaiseError::Open(fault)
    }
}

impl From<DiskFault> for RaiseError {
    ghost use Rattle.common.specs.declared.stop.Stop.{Stop};
    ghost use Rattle.spool_catalog.specs.declared.error.OpenFault.{OpenFault};
    ghost use Rattle.spool_image.specs.declared.error.RaiseError.{RaiseError};

    ghost from_gives = { λ _ error. error ≡ RaiseError.Open (OpenFault.Stop Stop.DiskFault) };

    fn from(_fault: DiskFault) -> RaiseError {
        RaiseError::Open(OpenFault::Stop(Stop::DiskFault))
    }
}

impl From<AllocError> for RaiseError {
    ghost use Rattle.common.specs.declared.stop.Stop.{Stop};
    ghost use Rattle.spool_catalog.specs.declared.error.OpenFault.{OpenFault};
    ghost use Rattle.spool_image.specs.declared.error.RaiseError.{RaiseError};

    ghost from_gives = { λ _ error. error ≡ RaiseError.Open (OpenFault.Stop Stop.NoMemory) };

    fn from(_error: AllocError) -> RaiseError {
        RaiseError::Open(OpenFault::Stop(Stop::NoMemory))
    }
}
