//! What is done at a connection next, and what a turn left of it.

ghost use Rattle.std.specs.Prelude.{◌≡◌, ◌≢◌, ◌↔◌, IsErr, IsErrOf, IfOk};
ghost use Rattle.gateway_serve.specs.Joined.{stage_by, stage_after, taken_after};
ghost use Rattle.gateway_serve.specs.Gone.{IfLost, IsFailure};
ghost use Rattle.std.specs.IoError.{error_kind};

use crate::reasons::Gone;
use common::{DiskFault, Stop};
use std::io::{self, ErrorKind};
use tus_session::{Answer, SessionError};

/// What is done at a connection once all is written.
#[derive(Clone, Copy, Debug, PartialEq, Eq, Drop)]
pub(crate) enum Stage {
    /// Bytes are taken.
    Taking,
    /// A text is still to be given.
    Giving,
    /// The session closed the connection.
    Closed,
}

/// What a turn left of a connection.
#[derive(Clone, Copy, Drop)]
pub(crate) enum Left {
    /// It is open.
    Open,
    /// It is open, and the socket had nothing to do, or was passed over.
    Idle,
    /// The session closed it, and all is written.
    Closed,
    /// It is lost, which is still to be reported to the session.
    Lost(Gone),
}

/// What follows an answer of the session.
#[derive(Clone, Copy, Drop)]
pub(crate) struct Next {
    /// What is done once all is written.
    pub(crate) stage: Stage,
    /// How many bytes the session took.
    pub(crate) taken: usize,
}

/// Nothing is taken by a refused call, which closes the connection.
pub(crate) fn next_after(answer: Result<Answer, SessionError>) -> Result<Next, DiskFault>
    ensures fault { IsErr result ↔ IsErrOf answer (SessionError.Stop Stop.DiskFault) }
    ensures stage { IfOk result (λ next. next.stage ≡ stage_after answer) }
    ensures taken { IfOk result (λ next. next.taken ≡ taken_after answer) }
{
    match answer {
        Ok(answer) => Ok(Next {
            stage: stage_by(answer),
            taken: answer.taken,
        }),
        Err(SessionError::Stop(Stop::DiskFault)) => Err(DiskFault),
        Err(
            SessionError::Stop(Stop::NoMemory)
            | SessionError::TooMany
            | SessionError::Closed
            | SessionError::Down,
        ) => Ok(Next {
            stage: Stage::Closed,
            taken: 0,
        }),
    }
}

// What is done after an answer, once all is written.
fn stage_by(answer: Answer) -> Stage
    ensures { result ≡ stage_by answer }
{
    if answer.closes {
        Stage::Closed
    } else if answer.more {
        Stage::Giving
    } else {
        Stage::Taking
    }
}

/// What a failed read or write leaves of a connection: one that would have waited is tried again in the next turn.
pub(crate) fn left_after(error: &io::Error) -> Left
    ensures unclosed { result ≢ Left.Closed }
    ensures lost { IfLost result (λ gone. (gone ≡ Gone.Failed (error_kind error.now)) × IsFailure
        (error_kind error.now)) }
{
    match error.kind() {
        ErrorKind::WouldBlock => Left::Idle,
        ErrorKind::Interrupted => Left::Open,
        kind => Left::Lost(Gone::Failed(kind)),
    }
}
