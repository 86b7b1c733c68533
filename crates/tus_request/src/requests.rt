//! Requests as their heads give them.

use crate::faults::Fault;
use enc_model::{Encoding, Mode};

/// What a request asks for.
#[derive(Debug, PartialEq, Eq, Drop)]
pub enum Action {
    /// What the server can do.
    Options,
    /// A new upload.
    Create {
        /// Its length in bytes, if that is known.
        declared: Option<u64>,
        /// The encoding of its bytes.
        from: Encoding,
        /// The encoding of its text.
        to: Encoding,
        /// The error mode for characters that `to` lacks.
        mode: Mode,
        /// The metadata as given: at most 1,536 bytes of 20..7E, possibly none.
        metadata: String,
    },
    /// The offset of the upload of this number.
    Head(u64),
    /// The text of the upload of this number.
    Get(u64),
    /// More bytes for an upload.
    Patch {
        /// The upload's number.
        number: u64,
        /// The offset that the client expects.
        offset: u64,
        /// The upload's length, if the request declares it.
        declare: Option<u64>,
    },
    /// The deletion of the upload of this number.
    Delete(u64),
}

/// A request that passed its checks.
#[derive(Debug, PartialEq, Eq, Drop)]
pub struct Request {
    /// What it asks for.
    pub action: Action,
    /// The length of its body in bytes.
    pub length: u64,
    /// Whether the method is HEAD, so that the reply has no body.
    pub bare: bool,
    /// Whether it is a PATCH that awaits `100 Continue`.
    pub expects: bool,
    /// Whether the connection closes after the reply, whatever the reply is.
    pub closes: bool,
}

/// The result of parsing the start of a stream.
#[derive(Debug, PartialEq, Eq, Drop)]
pub enum Parsed {
    /// The head is unfinished.
    More,
    /// A request that passed its checks.
    Head {
        /// The length of the head in bytes.
        taken: usize,
        request: Request,
    },
    /// A request that is refused.
    Refused {
        /// The length of the head in bytes.
        taken: usize,
        /// The length of the body in bytes.
        length: u64,
        /// Why it is refused.
        fault: Fault,
        /// Whether its path is `/files`.
        on_files: bool,
        /// Whether the method is HEAD, so that the reply has no body.
        bare: bool,
        /// Whether the connection closes after the reply.
        closes: bool,
    },
}
