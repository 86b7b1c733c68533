//! A place for a connection.
ghost use Rattle.std.specs.Prelude.{◌≡◌, ◌≢◌, ◌↔◌, ◌+◌, IsTrue, IsErr, IsErrOf, IfOk, Ok, List, length};
ghost use Rattle.std.specs.declared.time.Duration.{Duration};
ghost use Rattle.upload_rules.specs.Answers.{Counts};
ghost use Rattle.gateway_serve.specs.Counted.{one_if_open};
ghost use Rattle.gateway_serve.specs.Drains.{KeepsDrains, one_if_drains};
ghost use Rattle.gateway_serve.specs.Partings.{count_draining};
ghost use Rattle.gateway_serve.specs.Acceptors.{waits_in};
ghost use Rattle.gateway_serve.specs.declared.doors.AtDoor.{AtDoor};
ghost use Rattle.gateway_serve.specs.Gone.{IsAmong, IsTurn};
ghost use Rattle.gateway_serve.specs.Joined.{GoesAt, OthersStay, IsNew, MayEnd, PlaceWaits, with_place};
ghost use Rattle.gateway_serve.specs.Streams.{PlaceHas, PlaceIsOf, PlacePreserves};
ghost use Rattle.gateway_serve.specs.Reasons.{AllReasoned};
ghost use Rattle.gateway_serve.specs.Longest.{between_since};

use crate::drains::Drains;
use crate::idle::Tick;
use crate::links::Link;
use crate::reasons::Reason;
use crate::sockets::{Seen, Untouched};
use crate::stages::Left;
use common::{DiskFault, Stop, Trace};
use std::alloc::Global;
use std::io::{Read, Write};
use std::mem;
use std::time::{Clock, Duration};
use tus_session::{Connections, SessionError};

/// A place for a connection, whose number it has.
#[derive(Drop)]
pub(crate) enum Place<S> {
    /// No connection is open there.
    Free,
    /// A socket and its connection of the gateway.
    Open(Link<S>),
}

/// What a turn came to at a place.
#[derive(Clone, Copy, Debug, PartialEq, Eq, Drop)]
pub(crate) enum Turned {
    /// No connection is open there, or its socket had nothing to do.
    Idle,
    /// The connection went on.
    Moved,
    /// The connection was closed.
    Closed,
}

impl<S: Read + Write + Drop> Place<S> {
    /// A connection that was opened now for a socket.
    pub(crate) fn open(alloc: Global, accepted: Untouched<S>, now: Duration) -> Self
        ensures stream { (times : List Duration) → IsAmong now times
            → PlaceIsOf S.remaining S.contents times accepted result }
        ensures none { IsNew result }
    {
        Place::Open(Link::new(alloc, accepted, now))
    }

    /// Since when its connection has been between requests, if one is open that is.
    pub(crate) fn between_since(&self) -> Option<Duration>
        ensures { result ≡ between_since self.now }
    {
        match self {
            Place::Free => None,
            Place::Open(link) => link.between_since(),
        }
    }

    /// Whether no connection is open there.
    pub(crate) fn is_free(&self) -> bool
        ensures { IsTrue result ↔ (self.now ≡ Place.Free) }
    {
        matches!(self, Place::Free)
    }

    /// The turn of the connection, if one is open. Where it ends there, its socket is put to those that ended, and if
    /// the session closed it, or it gave way after a reply, to those that drain.
    ///
    /// Refused with `DiskFault` where a call of the session was.
    pub(crate) fn turn<C: Connections, T: Clock>(
        &mut self,
        clock: &T,
        gateway: &mut C,
        conn: usize,
        tick: Tick,
        ended: &mut Trace<Seen>,
        drains: &mut Drains<S>,
    ) -> Result<Turned, DiskFault>
        ensures reasons { (times : List Duration) (done : List AtDoor)
            → IsTurn tick.now tick.wanted times (waits_in done) → PlaceHas S.remaining S.contents times self.old
            → AllReasoned times done ended.old.items → AllReasoned times done ended.new.items }
        ensures streams { (times : List Duration) → IsAmong tick.now times
            → PlacePreserves S.remaining S.contents times self.old self.new ended.old.items ended.new.items }
        ensures serves { GoesAt C.Connections gateway.old gateway.new result self.old self.new
            ended.old.items ended.new.items conn }
        ensures others { OthersStay conn ended.old.items ended.new.items }
        ensures kept { length ended.new.items + one_if_open self.new ≡ length ended.old.items + one_if_open self.old }
        ensures closed { result ≡ Ok Turned.Closed → length ended.new.items ≡ length ended.old.items + 1 }
        ensures open { IfOk result
            (λ turned. turned ≢ Turned.Closed → length ended.new.items ≡ length ended.old.items) }
        ensures drains { KeepsDrains drains.old drains.new ended.old.items ended.new.items }
        ensures counts { Counts (IsErr result) (C.failures gateway.old) (C.failures gateway.new) }
    {
        let Place::Open(link) = self else {
            return Ok(Turned::Idle);
        };
        match link.turn(clock, gateway, conn, tick) {
            Ok(Left::Open) => Ok(Turned::Moved),
            Ok(Left::Idle) => Ok(Turned::Idle),
            Ok(Left::Closed) => {
                let reason = Reason::Closed;
                drains.let_go(self.free(conn, reason, ended), reason, tick.now);
                Ok(Turned::Closed)
            }
            Ok(Left::Lost(gone)) => {
                match self.end(gateway, conn, Reason::Lost(gone), ended, drains, tick.now) {
                    Ok(()) => Ok(Turned::Closed),
                    Err(fault) => Err(fault),
                }
            }
            Err(fault) => Err(fault),
        }
    }

    /// Ends the connection now for this reason, if one is open, and reports that to the session.
    ///
    /// Refused with `DiskFault` where the session was.
    pub(crate) fn end<C: Connections>(
        &mut self,
        gateway: &mut C,
        conn: usize,
        reason: Reason,
        ended: &mut Trace<Seen>,
        drains: &mut Drains<S>,
        now: Duration,
    ) -> Result<(), DiskFault>
        requires { MayEnd reason self.old }
        ensures ended { ended.new.items ≡ with_place conn reason self.old ended.old.items }
        ensures streams { (times : List Duration)
            → PlacePreserves S.remaining S.contents times self.old self.new ended.old.items ended.new.items }
        ensures serves { GoesAt C.Connections gateway.old gateway.new result self.old self.new
            ended.old.items ended.new.items conn }
        ensures free { self.new ≡ Place.Free }
        ensures kept { length ended.new.items ≡ length ended.old.items + one_if_open self.old }
        ensures others { OthersStay conn ended.old.items ended.new.items }
        ensures drains { KeepsDrains drains.old drains.new ended.old.items ended.new.items }
        ensures counts { Counts (IsErr result) (C.failures gateway.old) (C.failures gateway.new) }
    {
        if self.is_free() {
            return Ok(());
        }
        drains.let_go(self.free(conn, reason, ended), reason, now);
        unless_failed(gateway.ended(conn))
    }

    /// Hands the stream of the connection back, which ends for this reason, if one is there. Nothing is reported to the
    /// session.
    pub(crate) fn free(&mut self, conn: usize, reason: Reason, ended: &mut Trace<Seen>) -> Option<S>
        ensures waiting { PlaceWaits self.old }
        ensures streams { (times : List Duration)
            → PlacePreserves S.remaining S.contents times self.old self.new ended.old.items ended.new.items }
        ensures free { self.new ≡ Place.Free }
        ensures ended { ended.new.items ≡ with_place conn reason self.old ended.old.items }
        ensures kept { length ended.new.items ≡ length ended.old.items + one_if_open self.old }
        ensures drains { count_draining ended.new.items ≡ one_if_drains result reason + count_draining ended.old.items }
    {
        match mem::replace(self, Place::Free) {
            Place::Open(link) => Some(link.end(conn, reason, ended)),
            Place::Free => None,
        }
    }
}

/// What a call of the session comes to for serving, which goes on after every refusal but the disk fault. So it
/// meets `Down` only at a gateway that it was given so.
pub(crate) fn unless_failed(answer: Result<(), SessionError>) -> Result<(), DiskFault>
    ensures { IsErr result ↔ IsErrOf answer (SessionError.Stop Stop.DiskFault) }
{
    match answer {
        Err(SessionError::Stop(Stop::DiskFault)) => Err(DiskFault),
        Ok(())
        | Err(
            SessionError::Stop(Stop::NoMemory)
            | SessionError::TooMany
            | SessionError::Closed
            | SessionError::Down,
        ) => Ok(()),
    }
}
