//! Why a measurement fails.

use enc_index::ReadError;
use enc_stream::TranscodeError;
use std::alloc::{AllocError, AllocFailed};
use std::{fmt, io};

/// Why a measurement fails.
#[derive(Drop)]
pub(crate) enum Fault {
    /// Out of memory.
    NoMemory,
    /// A word isn't the label of a supported encoding.
    Label,
    /// An index file isn't well formed.
    Index,
    /// The transcoder refused a character.
    Refused,
    /// A file, the clock or an output failed.
    Io,
}

impl fmt::Display for Fault {
    fn fmt<W: fmt::Write>(&self, f: &mut fmt::Formatter<W>) -> fmt::Result {
        f.write_str(match self {
            Fault::NoMemory => "out of memory",
            Fault::Label => "no label of an encoding",
            Fault::Index => "a line of an index file isn't of the form",
            Fault::Refused => "the transcoder refused",
            Fault::Io => "a file, the clock or an output failed",
        })
    }
}

impl From<AllocError> for Fault {
    fn from(_error: AllocError) -> Self {
        Fault::NoMemory
    }
}

impl<T: Drop> From<AllocFailed<T>> for Fault {
    fn from(_error: AllocFailed<T>) -> Self {
        Fault::NoMemory
    }
}

impl From<io::Error> for Fault {
    fn from(_error: io::Error) -> Self {
        Fault::Io
    }
}

impl From<ReadError> for Fault {
    fn from(error: ReadError) -> Self {
        match error {
            ReadError::NoMemory => Fault::NoMemory,
            _ => Fault::Index,
        }
    }
}

impl From<TranscodeError> for Fault {
    fn from(error: TranscodeError) -> Self {
        match error {
            TranscodeError::NoMemory => Fault::NoMemory,
            _ => Fault::Refused,
        }
    }
}
