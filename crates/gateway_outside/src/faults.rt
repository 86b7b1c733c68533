//! Why the program ends before its work is done.
ghost use Rattle.std.specs.Prelude.{◌≡◌, Some, option_map};
ghost use Rattle.gateway_outside.specs.Faults.{failure_line, lengthening_fault, numbered_refusal_of, opening_fault};
ghost use Rattle.gateway_outside.specs.Faults.{exit_status_of, reading_fault, row};

use common::Stop;
use enc_index::ReadError;
use enc_stream::TranscodeError;
use gateway_streams::Refused;
use spool_disk::DiskFault;
use spool_image::{FormatError, OpenFault, RaiseError, UpgradeError};
use std::alloc::AllocError;
use std::io::ErrorKind;
use std::{fmt, io};

/// Why the program ends before its work is done.
#[derive(Clone, Copy, Debug, PartialEq, Eq, Drop)]
pub enum Fault {
    /// Out of memory, or the disk failed.
    Stop(Stop),
    /// The bytes of the file are none that are ever written to a spool.
    Damaged,
    /// A line of this index file isn't of the form, is out of range, or gives a pointer again.
    Index(&'static str, ReadError),
    /// The file is a spool already.
    AlreadySpool,
    /// The number of text blocks isn't 16 to 65,536.
    Size,
    /// The file is no spool.
    NotASpool,
    /// The spool is of no version that is known.
    Version,
    /// The spool is of version 2 already.
    AlreadyNew,
    /// A line of the script.
    Script(u64),
    /// A reader, a writer or a file failed.
    Io,
    /// A file that was there isn't the text that it is to have.
    FileDiffers,
    /// Another process has the spool's file open.
    InUse,
    /// The spool's file can't be opened or made: it or its folder isn't there, or is a folder, rights are missing, or
    /// as many files are open as may be.
    CannotOpen,
    /// The file that is to become a spool has bytes, and is none.
    NotEmpty,
    /// Index files that aren't the standard's, though they have to be.
    OtherIndexes,
    /// A next number that would leave fewer than 10^15 numbers.
    NumberTooLarge,
    /// A text has U+FFFD, though it has to have none.
    Lost,
    /// A number that no upload has.
    NoSuch,
    /// A label or a mode that isn't known, or an encoding whose index files aren't there.
    BadLabel,
    /// This character has no code in the encoding that is written, in the mode `fatal`; an earlier call met it, if none
    /// is here.
    Unencodable(Option<char>),
}

impl fmt::Display for Fault {
    ghost output = { λ fault. Some (failure_line fault) };

    fn fmt<W: fmt::Write>(&self, f: &mut fmt::Formatter<W>) -> fmt::Result {
        let Some((number, name)) = self.refusal() else {
            return f.write_str("device fault");
        };
        match self {
            Fault::Index(file, ReadError::Line(line))
            | Fault::Index(file, ReadError::Range(line))
            | Fault::Index(file, ReadError::Twice(line)) => {
                write!(f, "refused: {number} {name} {file} {line}")
            }
            Fault::Script(line) => write!(f, "refused: {number} {name} {line}"),
            _ => write!(f, "refused: {number} {name}"),
        }
    }
}

impl Fault {
    ghost use Rattle.gateway_outside.specs.declared.faults.Fault.{Fault};

    /// Why a file isn't opened or made as a spool, by the system's error.
    pub fn of_opening(kind: ErrorKind) -> Self
        ensures fault { result ≡ opening_fault kind }
        ensures never_io { result ≡ Fault.Io → ⊥ }
    {
        match kind {
            ErrorKind::ResourceBusy => Fault::InUse,
            ErrorKind::OutOfMemory => Fault::Stop(Stop::NoMemory),
            _ => Fault::CannotOpen,
        }
    }

    /// Why a file that is open doesn't become a spool's, by the system's error. No room is told as `CannotOpen` later.
    pub fn of_lengthening(kind: ErrorKind) -> Self
        ensures { result ≡ lengthening_fault kind }
    {
        match kind {
            ErrorKind::OutOfMemory => Fault::Stop(Stop::NoMemory),
            _ => Fault::Stop(Stop::DiskFault),
        }
    }

    /// Why a folder isn't found, or a file or a stream isn't read, by the system's error.
    pub fn of_reading(kind: ErrorKind) -> Self
        ensures { result ≡ reading_fault kind }
    {
        match kind {
            ErrorKind::OutOfMemory => Fault::Stop(Stop::NoMemory),
            _ => Fault::Io,
        }
    }

    /// The number and the name of the refusal. `None` for a disk fault, which is none.
    pub fn refusal(self) -> Option<(u8, &'static str)>
        ensures { option_map row result ≡ numbered_refusal_of self }
    {
        Some(match self {
            Fault::Stop(Stop::DiskFault) => return None,
            Fault::Stop(Stop::NoMemory) | Fault::Index(_, ReadError::NoMemory) => (0, "NoMemory"),
            Fault::Damaged => (2, "Damaged"),
            Fault::Index(_, ReadError::Line(_)) => (3, "Line"),
            Fault::Index(_, ReadError::Range(_)) => (4, "Range"),
            Fault::Index(_, ReadError::Twice(_)) => (5, "Twice"),
            Fault::Unencodable(_) => (6, "Unencodable"),
            Fault::NoSuch => (8, "NoSuch"),
            Fault::AlreadySpool => (13, "AlreadySpool"),
            Fault::Size => (14, "Size"),
            Fault::NotASpool => (15, "NotASpool"),
            Fault::Version => (16, "Version"),
            Fault::BadLabel => (28, "BadLabel"),
            Fault::Script(_) => (32, "Script"),
            Fault::Io => (33, "Io"),
            Fault::AlreadyNew => (35, "AlreadyNew"),
            Fault::FileDiffers => (37, "FileDiffers"),
            Fault::InUse => (38, "InUse"),
            Fault::CannotOpen => (39, "CannotOpen"),
            Fault::NotEmpty => (40, "NotEmpty"),
            Fault::OtherIndexes => (41, "OtherIndexes"),
            Fault::NumberTooLarge => (42, "NumberTooLarge"),
            Fault::Lost => (43, "Lost"),
        })
    }

    /// The status that the program ends with: 3 for a disk fault, 4 for `FileDiffers`, 2 for any other refusal.
    pub fn status(self) -> u8
        ensures { result ≡ exit_status_of self }
    {
        match self {
            Fault::Stop(Stop::DiskFault) => 3,
            Fault::FileDiffers => 4,
            _ => 2,
        }
    }
}

impl From<AllocError> for Fault {
    ghost use Rattle.common.specs.declared.stop.Stop.{Stop};
    ghost use Rattle.gateway_outside.specs.declared.faults.Fault.{Fault};

    ghost from_gives = { λ _ fault. fault ≡ Fault.Stop Stop.NoMemory };

    fn from(_error: AllocError) -> Self {
        Fault::Stop(Stop::NoMemory)
    }
}

impl From<io::Error> for Fault {
    ghost use Rattle.std.specs.Prelude.{◌⊎◌};
    ghost use Rattle.common.specs.declared.stop.Stop.{Stop};
    ghost use Rattle.gateway_outside.specs.declared.faults.Fault.{Fault};

    ghost from_gives = { λ _ fault. (fault ≡ Fault.Stop Stop.NoMemory) ⊎ (fault ≡ Fault.Io) };

    fn from(error: io::Error) -> Self {
        match error.kind() {
            ErrorKind::OutOfMemory => Fault::Stop(Stop::NoMemory),
            _ => Fault::Io,
        }
    }
}

impl From<Refused> for Fault {
    ghost use Rattle.gateway_outside.specs.declared.faults.Fault.{Fault};

    ghost from_gives = { λ _ fault. fault ≡ Fault.Io };

    fn from(_refused: Refused) -> Self {
        Fault::Io
    }
}

impl From<DiskFault> for Fault {
    ghost use Rattle.common.specs.declared.stop.Stop.{Stop};
    ghost use Rattle.gateway_outside.specs.declared.faults.Fault.{Fault};

    ghost from_gives = { λ _ fault. fault ≡ Fault.Stop Stop.DiskFault };

    fn from(_fault: DiskFault) -> Self {
        Fault::Stop(Stop::DiskFault)
    }
}

impl From<FormatError> for Fault {
    ghost use Rattle.gateway_outside.specs.Faults.{format_fault};

    ghost from_gives = { λ below fault. fault ≡ format_fault below };

    fn from(error: FormatError) -> Self {
        match error {
            FormatError::AlreadySpool => Fault::AlreadySpool,
            FormatError::Size => Fault::Size,
            FormatError::DiskFault => Fault::Stop(Stop::DiskFault),
        }
    }
}

impl From<OpenFault> for Fault {
    ghost use Rattle.gateway_outside.specs.Faults.{open_fault};

    ghost from_gives = { λ below fault. fault ≡ open_fault below };

    fn from(fault: OpenFault) -> Self {
        match fault {
            OpenFault::NotASpool => Fault::NotASpool,
            OpenFault::Damaged => Fault::Damaged,
            OpenFault::Version => Fault::Version,
            OpenFault::Stop(stop) => Fault::Stop(stop),
        }
    }
}

impl From<UpgradeError> for Fault {
    ghost use Rattle.gateway_outside.specs.Faults.{upgrade_fault};

    ghost from_gives = { λ below fault. fault ≡ upgrade_fault below };

    fn from(error: UpgradeError) -> Self {
        match error {
            UpgradeError::Open(fault) => Fault::from(fault),
            UpgradeError::AlreadyNew => Fault::AlreadyNew,
        }
    }
}

impl From<RaiseError> for Fault {
    ghost use Rattle.gateway_outside.specs.Faults.{raise_fault};

    ghost from_gives = { λ below fault. fault ≡ raise_fault below };

    fn from(error: RaiseError) -> Self {
        match error {
            RaiseError::Open(fault) => Fault::from(fault),
            RaiseError::TooLarge => Fault::NumberTooLarge,
        }
    }
}

impl From<TranscodeError> for Fault {
    ghost use Rattle.gateway_outside.specs.Faults.{transcode_fault};

    ghost from_gives = { λ below fault. fault ≡ transcode_fault below };

    fn from(error: TranscodeError) -> Self {
        match error {
            TranscodeError::NoMemory => Fault::Stop(Stop::NoMemory),
            TranscodeError::Unencodable(character) => Fault::Unencodable(Some(character)),
            // one is spent by such a character
            TranscodeError::Spent => Fault::Unencodable(None),
        }
    }
}
