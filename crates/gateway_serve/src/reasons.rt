//! Why the sockets of connections end.
ghost use Rattle.std.specs.Prelude.{◌≡◌};
ghost use Rattle.gateway_serve.specs.Partings.{drains_for};

use crate::stays::Stay;
use std::io::ErrorKind;

/// Why the socket of a connection ended.
#[derive(Clone, Copy, Drop)]
pub enum Reason {
    /// The session closed the connection, and all that it gave was written.
    Closed,
    /// The connection was lost, which was reported to the session.
    Lost(Gone),
    /// Serving was over, and the connection was open.
    Over,
}

impl Reason {
    /// Whether the client may still send something, and what was sent to it last may be under way: its socket drains.
    pub(crate) fn drains(&self) -> bool
        ensures { result ≡ drains_for self.now }
    {
        match self {
            Reason::Closed => true,
            Reason::Lost(Gone::Late(stay)) => stay.has_just_moved(),
            Reason::Lost(Gone::Ended | Gone::Failed(_) | Gone::Stuck) | Reason::Over => false,
        }
    }
}

/// Why a connection was lost.
#[derive(Clone, Copy, Drop)]
pub enum Gone {
    /// A read gave nothing: the socket is at its end.
    Ended,
    /// A read or write failed so, and not because it would have waited or was interrupted.
    Failed(ErrorKind),
    /// A write took nothing.
    Stuck,
    /// Its time was over.
    Late(Stay),
}
