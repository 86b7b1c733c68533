//! The errors of a session.
ghost use Rattle.std.specs.Prelude.{◌≡◌};
ghost use Rattle.tus_session.specs.declared.errors.SessionError.{SessionError};

use common::Stop;

/// Why a session refuses a call.
///
/// A number that no connection has, and a connection that isn't open:
///
/// ```
/// assert_eq!(rt; session.opened(MOST_OPEN), Err(SessionError::TooMany));
/// let refused = session.came(&mut store, 0, b"OPTIONS", &mut out);
/// assert_eq!(rt; refused, Err(SessionError::Closed));
/// ```
#[derive(Clone, Copy, Debug, PartialEq, Eq, Drop)]
pub enum SessionError {
    /// Out of memory: nothing was committed, and the connection is closed. Or a disk fault.
    Stop(Stop),
    /// The connection's number isn't below `MOST_OPEN`, or that connection is open.
    TooMany,
    /// The connection isn't open.
    Closed,
    /// A disk fault at an earlier call. Only connections over a disk answer it, never a `Session`.
    Down,
}

impl From<Stop> for SessionError {
    ghost from_gives = { λ stop error. error ≡ SessionError.Stop stop };

    fn from(stop: Stop) -> Self {
        SessionError::Stop(stop)
    }
}
