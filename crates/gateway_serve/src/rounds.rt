//! Turns of all places.
ghost use Rattle.std.specs.Prelude.{◌≡◌, ◌≢◌, ◌⊎◌, ◌↔◌, ◌<◌, ◌≤◌, ◌+◌, ℕ, List, Bool, length};
ghost use Rattle.std.specs.Prelude.{IfSome, IsErr, IsFalse, IsNone, IsSomeAnd, IsTrue, OnOk};
ghost use Rattle.std.specs.declared.time.Duration.{Duration};
ghost use Rattle.upload_rules.specs.Answers.{Counts};
ghost use Rattle.tus_session.specs.History.{State, Marked};
ghost use Rattle.gateway_serve.specs.Counted.{Adds, count_closed, open_in};
ghost use Rattle.gateway_serve.specs.Acceptors.{waits_in};
ghost use Rattle.gateway_serve.specs.declared.doors.AtDoor.{AtDoor};
ghost use Rattle.gateway_serve.specs.Drains.{KeepsDrains};
ghost use Rattle.gateway_serve.specs.Gone.{IsAmong, IsTurn};
ghost use Rattle.gateway_serve.specs.Joined.{AllFell, StaysJoined, AllEnded, IsFreeAt};
ghost use Rattle.gateway_serve.specs.Longest.{BeganBy, IsLongest, pause_of, since_of};
ghost use Rattle.gateway_serve.specs.Partings.{count_draining};
ghost use Rattle.gateway_serve.specs.Reasons.{AllReasoned, AtMostOnce};
ghost use Rattle.gateway_serve.specs.Served.{AllLeft};
ghost use Rattle.gateway_serve.specs.Streams.{AllHad, AllHave, AllPreserve};
ghost use Rattle.gateway_serve.specs.Turns.{NoneIsFree};

use crate::drains::Drains;
use crate::idle::Tick;
use crate::places::{Place, Turned};
use crate::reasons::Reason;
use crate::sockets::Seen;
use common::{DiskFault, Trace};
use std::io::{Read, Write};
use std::time::{Clock, Duration};
use tus_session::Connections;

/// A turn of all places.
#[derive(Drop)]
pub(crate) struct Round {
    pub(crate) now: Duration,
    /// whether the turn before did something
    pub(crate) was_busy: bool,
    /// whether a socket waits for a place
    pub(crate) wanted: bool,
    /// the longest pause, where one is wanted
    pub(crate) longest: Option<Pause>,
    /// whether anything was done
    pub(crate) busy: bool,
    /// how many connections were closed
    pub(crate) closed: u64,
    /// it ends once so many were
    pub(crate) connections: u64,
}

impl Round {
    // The turn of the connection with this number.
    fn tick(&self, conn: usize) -> Tick
        ensures now { result.now ≡ self.entry.now.now }
        ensures wanted { result.wanted ≡ self.entry.now.wanted }
        ensures longest { IsTrue result.longest ↔ IsSomeAnd self.entry.now.longest (λ pause. pause.conn ≡ conn) }
        ensures busy { result.busy ≡ self.entry.now.was_busy }
    {
        Tick {
            now: self.now,
            wanted: self.wanted,
            longest: self.longest.is_some_and(|pause| pause.conn == conn),
            busy: self.was_busy,
        }
    }

    // The turn of a place came to this. Where it is free now, no other is wanted.
    fn add(&mut self, turned: Turned)
        ensures closed { turned ≡ Turned.Closed → self.old.closed < self.old.connections
            → self.new.closed ≡ self.old.closed + 1 }
        ensures open { turned ≢ Turned.Closed → self.new.closed ≡ self.old.closed }
        ensures connections { self.new.connections ≡ self.old.connections }
        ensures now { self.new.now ≡ self.old.now }
        ensures wanted { IsTrue self.new.wanted ↔ IsTrue self.old.wanted × (turned ≢ Turned.Closed) }
        ensures idle { IsFalse self.new.busy ↔ IsFalse self.old.busy × (turned ≡ Turned.Idle) }
    {
        let closed = turned == Turned::Closed;
        let _most = self.connections;
        let _now = self.now;
        self.closed = self.closed.saturating_add(u64::from(closed));
        self.wanted = self.wanted && !closed;
        self.busy = self.busy || turned != Turned::Idle;
    }
}

/// A connection that is between requests, and since when.
#[derive(Clone, Copy, Drop)]
pub(crate) struct Pause {
    conn: usize,
    since: Duration,
}

/// The longest pause, if a connection is between requests.
pub(crate) fn longest_pause<S: Read + Write + Drop>(places: &[Place<S>]) -> Option<Pause>
    ensures { IsLongest places.now (length places.now) result }
{
    let mut longest = None;
    for (conn, place) in places.iter().enumerate() {
        longest = longer(longest, conn, place.between_since());
    }
    longest
}

// The longer one of two pauses: of one that is known, and of the connection with this number, since this time.
fn longer(known: Option<Pause>, conn: usize, since: Option<Duration>) -> Option<Pause>
    ensures one { (result ≡ known) ⊎ (result ≡ pause_of conn since) }
    ensures known { BeganBy result (since_of known) }
    ensures other { BeganBy result since }
{
    match (known, since) {
        (known, None) => known,
        (None, Some(since)) => Some(Pause { conn, since }),
        (Some(pause), Some(since)) if pause.since.as_nanos() <= since.as_nanos() => Some(pause),
        (Some(_), Some(since)) => Some(Pause { conn, since }),
    }
}

/// The first place that is free.
pub(crate) fn first_free<S: Read + Write + Drop>(places: &[Place<S>]) -> Option<usize>
    ensures free { IfSome result (λ conn. IsFreeAt places.now conn) }
    ensures none { IsNone result → NoneIsFree places.now }
{
    for (conn, place) in places.iter().enumerate() {
        if place.is_free() {
            return Some(conn);
        }
    }
    None
}

/// Each open connection has its turn, in order, until so many were closed.
pub(crate) fn turn_each<S: Read + Write + Drop, C: Connections, T: Clock>(
    clock: &T,
    places: &mut [Place<S>],
    gateway: &mut C,
    ended: &mut Trace<Seen>,
    drains: &mut Drains<S>,
    round: &mut Round,
) -> Result<(), DiskFault>
    ensures streams { (times : List Duration) → IsAmong round.old.now times
        → AllPreserve S.remaining S.contents times places.old places.new ended.old.items ended.new.items }
    ensures reasons { (times : List Duration) (done : List AtDoor)
        → IsTurn round.old.now round.old.wanted times (waits_in done)
        → AllHave S.remaining S.contents times places.old → AllHad S.remaining S.contents times ended.old.items
        → AllReasoned times done ended.old.items → AllReasoned times done ended.new.items }
    ensures serves { (refused : ℕ) → StaysJoined C.Connections gateway.old gateway.new result places.old places.new
        ended.old.items ended.new.items refused refused }
    ensures counts { Counts (IsErr result) (C.failures gateway.old) (C.failures gateway.new) }
    ensures kept { Adds places.old places.new ended.old.items ended.new.items }
    ensures drains { KeepsDrains drains.old drains.new ended.old.items ended.new.items }

    // Serving stops once so many were closed.
    ensures closed { round.old.closed ≡ length ended.old.items → length ended.old.items ≤ round.old.connections
        → OnOk result (round.new.closed ≡ length ended.new.items) }
    ensures stops { round.old.closed ≡ length ended.old.items → length ended.old.items ≤ round.old.connections
        → length ended.new.items ≤ round.old.connections }
{
    for (conn, place) in places.iter_mut().enumerate() {
        if round.closed == round.connections {
            return Ok(());
        }
        match place.turn(clock, gateway, conn, round.tick(conn), ended, drains) {
            Ok(turned) => round.add(turned),
            Err(fault) => return Err(fault),
        }
    }
    Ok(())
}

/// Ends the connections that are open now, in order.
pub(crate) fn end_each<S: Read + Write + Drop, C: Connections>(
    places: &mut [Place<S>],
    gateway: &mut C,
    ended: &mut Trace<Seen>,
    drains: &mut Drains<S>,
    now: Duration,
) -> Result<(), DiskFault>
    ensures streams { (times : List Duration)
        → AllPreserve S.remaining S.contents times places.old places.new ended.old.items ended.new.items }
    ensures once { AtMostOnce ended.old.items ended.new.items }
    ensures kept { Adds places.old places.new ended.old.items ended.new.items }
    ensures drains { KeepsDrains drains.old drains.new ended.old.items ended.new.items }
    ensures more { length ended.old.items ≤ length ended.new.items }
    ensures none { OnOk result (open_in places.new ≡ 0) }
    ensures before { count_closed ended.new.items ≡ count_closed ended.old.items }
    ensures serves { (refused : ℕ) → AllEnded C.Connections gateway.old gateway.new result places.old places.new
        ended.old.items ended.new.items refused refused }
    ensures counts { Counts (IsErr result) (C.failures gateway.old) (C.failures gateway.new) }
{
    for (conn, place) in places.iter_mut().enumerate() {
        match place.end(gateway, conn, Reason::Over, ended, drains, now) {
            Ok(()) => {}
            Err(fault) => return Err(fault),
        }
    }
    Ok(())
}

/// Lets all sockets go. Nothing is reported to the session.
pub(crate) fn free_each<S: Read + Write + Drop>(places: &mut [Place<S>], ended: &mut Trace<Seen>)
    ensures streams { (times : List Duration)
        → AllPreserve S.remaining S.contents times places.old places.new ended.old.items ended.new.items }
    ensures once { AtMostOnce ended.old.items ended.new.items }
    ensures kept { length ended.new.items ≡ length ended.old.items + open_in places.old }
    ensures drains { count_draining ended.new.items ≡ count_draining ended.old.items }
    ensures before { count_closed ended.new.items ≡ count_closed ended.old.items }
    ensures left { (sure : Bool) (refused : ℕ) (st : State) (past : List Marked)
        → AllFell sure places.old ended.old.items refused st past → AllLeft sure ended.new.items refused st past }
{
    for (conn, place) in places.iter_mut().enumerate() {
        drop(place.free(conn, Reason::Over, ended));
    }
}
