//! Why a job fails.

use enc_index::ReadError;
use enc_stream::TranscodeError;
use gateway_engine::ScriptFault;
use spool_image::{FormatError, OpenFault};
use std::alloc::{AllocError, AllocFailed};
use std::{fmt, io};
use tus_session::SessionError;

/// Why a job fails.
#[derive(Drop)]
pub(crate) enum Fault {
    /// The words aren't a job, its size and a seed.
    Usage,
    /// Out of memory.
    NoMemory,
    /// A file or an output failed.
    Io,
    /// An index file isn't well formed.
    Index,
    /// A text can't be made in its encoding.
    Text,
    /// The spool can't be made or opened.
    Spool,
    /// The gateway refused a call.
    Call,
    /// The gateway answered a request with 4xx or 5xx.
    Refused,
}

impl fmt::Display for Fault {
    fn fmt<W: fmt::Write>(&self, f: &mut fmt::Formatter<W>) -> fmt::Result {
        f.write_str(match self {
            Fault::Usage => "the words are the name of a job, its size and a seed below 2^32",
            Fault::NoMemory => "out of memory",
            Fault::Io => "a file or an output failed",
            Fault::Index => "an index file isn't of the form",
            Fault::Text => "a text can't be made in its encoding",
            Fault::Spool => "the spool can't be made or opened",
            Fault::Call => "the gateway refused a call",
            Fault::Refused => "a request was answered with 4xx or 5xx",
        })
    }
}

impl From<AllocError> for Fault {
    fn from(_error: AllocError) -> Self {
        Fault::NoMemory
    }
}

impl<T: Drop> From<AllocFailed<T>> for Fault {
    fn from(_error: AllocFailed<T>) -> Self {
        Fault::NoMemory
    }
}

impl From<io::Error> for Fault {
    fn from(_error: io::Error) -> Self {
        Fault::Io
    }
}

impl From<ReadError> for Fault {
    fn from(_error: ReadError) -> Self {
        Fault::Index
    }
}

impl From<TranscodeError> for Fault {
    fn from(_error: TranscodeError) -> Self {
        Fault::Text
    }
}

impl From<FormatError> for Fault {
    fn from(_error: FormatError) -> Self {
        Fault::Spool
    }
}

impl From<OpenFault> for Fault {
    fn from(_error: OpenFault) -> Self {
        Fault::Spool
    }
}

impl From<SessionError> for Fault {
    fn from(_error: SessionError) -> Self {
        Fault::Call
    }
}

impl From<ScriptFault> for Fault {
    fn from(_error: ScriptFault) -> Self {
        Fault::Call
    }
}
