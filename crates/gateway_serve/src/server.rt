//! A server: the connections that are open, and the listener's clients.
ghost use Rattle.std.specs.Prelude.{◌≡◌, ◌↔◌, ◌<◌, ◌≤◌, ◌+◌, ◌^◌, ℕ, List, [], ◌∷◌, Bool, is_some, length};
ghost use Rattle.std.specs.Prelude.{IfSome, IsErr, IsFalse, IsNone, IsTrue, None, OnOk, Option};
ghost use Rattle.std.specs.declared.time.Duration.{Duration};
ghost use Rattle.upload_rules.specs.Answers.{Counts};
ghost use Rattle.gateway_serve.specs.Acceptors.{HasServed, LetsInBy, TakesTurn, TakesTurns};
ghost use Rattle.gateway_serve.specs.Acceptors.{done_of, done_with, one_when};
ghost use Rattle.gateway_serve.specs.Counted.{count_closed, open_in};
ghost use Rattle.gateway_serve.specs.Gone.{IsAmong};
ghost use Rattle.gateway_serve.specs.Joined.{StaysJoined, AllEnded, LetsGo, IsFreeAt, SamePlaces, ended_of, places_of};
ghost use Rattle.gateway_serve.specs.Longest.{IsLongest};
ghost use Rattle.gateway_serve.specs.Reasons.{EndsReasoned, IsLeftReasoned};
ghost use Rattle.gateway_serve.specs.Streams.{AllHad};
ghost use Rattle.gateway_serve.specs.Times.{HasShown};
ghost use Rattle.gateway_serve.specs.Turns.{HasRoom, IsCounted, IsUnvisited, HasNoPlace, NoneIsFree, RestStays};
ghost use Rattle.gateway_serve.specs.Turns.{HasDrains, HasStreams, IsReasoned, ShowsBy};
ghost use Rattle.gateway_serve.specs.Turns.{closed_of, door_of, drains_of, opened_by, refused_by, times_of};

use crate::acceptors::Acceptor;
use crate::clocks::Timer;
use crate::doors::Door;
use crate::drains::Drains;
use crate::idle::Watch;
use crate::places::{Place, unless_failed};
use crate::rounds::{Round, end_each, first_free, free_each, longest_pause, turn_each};
use crate::sockets::{Seen, Untouched};
use common::{DiskFault, Trace};
use std::alloc::Global;
use std::io::{Read, Write};
use std::net::OpenStream;
use std::thread;
use std::time::{Clock, Duration};
use tus_session::{Connections, MOST_OPEN};

/// The connections that are open, and how many were closed.
#[derive(Drop)]
pub(crate) struct Server<S> {
    alloc: Global,
    pub(crate) door: Door<S>,
    /// By the connections' numbers. There are at most `MOST_OPEN` places; another one is made when it is needed.
    places: Vec<Place<S>>,
    pub(crate) ended: Trace<Seen>,
    /// at which each turn began
    pub(crate) times: Trace<Duration>,
    /// the sockets of connections that the session closed
    pub(crate) drains: Drains<S>,
    closed: u64,
    /// whether anything was done in the latest turn
    busy: bool,
    watch: Watch,
}

impl<S: Read + Write + OpenStream + Drop> Server<S> {
    /// No connection is open, and no client came.
    pub(crate) fn new(alloc: Global, watch: Watch) -> Self
        ensures places { places_of result ≡ [] }
        ensures ended { ended_of result ≡ [] }
        ensures clients { (before : List Bool) → LetsInBy before before 0 (door_of result) }
        ensures closed { closed_of result ≡ 0 }
        ensures opened { opened_by result ≡ 0 }
        ensures refused { refused_by result ≡ 0 }
        ensures times { times_of result ≡ [] }
        ensures watch { result.watch ≡ watch }
        ensures drains { HasDrains result }
    {
        Server {
            alloc,
            door: Door::new(watch.now),
            places: Vec::new(alloc),
            ended: Trace::new(),
            times: Trace::new(),
            drains: Drains::new(alloc),
            closed: 0,
            busy: false,
            watch,
        }
    }

    /// Takes turns until so many connections were closed, at most so many turns. Then the open connections are ended,
    /// in order. After a disk fault their sockets are let go.
    pub(crate) fn serve<A: Acceptor<Stream = S>, C: Connections, T: Timer>(
        &mut self,
        clock: &mut T,
        acceptor: &mut A,
        gateway: &mut C,
        connections: u64,
        turns: u64,
    ) -> Result<(), DiskFault>
        requires { IsUnvisited self.old }
        ensures times { (before : List (Option Duration)) → ShowsBy before (T.shown clock.old) self.old
            → HasShown before (T.shown clock.new) (done_of (door_of self.new)) (times_of self.new) }
        ensures reasons { IsLeftReasoned (times_of self.new) (done_of (door_of self.new)) (ended_of self.new) }
        ensures streams { AllHad S.remaining S.contents (times_of self.new) (ended_of self.new) }
        ensures drains { HasDrains self.new }
        ensures serves { LetsGo C.Connections gateway.old gateway.new result (places_of self.old)
            (ended_of self.old) (ended_of self.new) (refused_by self.old) (refused_by self.new) }
        ensures counts { Counts (IsErr result) (C.failures gateway.old) (C.failures gateway.new) }
        ensures clients { HasServed (A.answers acceptor.old) (A.answers acceptor.new) turns connections
            (done_of (door_of self.new)) (door_of self.new).clients (ended_of self.new) (IsErr result) }
    {
        match self.take_turns(clock, acceptor, gateway, connections, turns) {
            Ok(()) => Ok(()),
            Err(fault) => {
                free_each(&mut self.places, &mut self.ended);
                Err(fault)
            }
        }
    }

    // Takes turns, then ends the open connections.
    fn take_turns<A: Acceptor<Stream = S>, C: Connections, T: Timer>(
        &mut self,
        clock: &mut T,
        acceptor: &mut A,
        gateway: &mut C,
        connections: u64,
        turns: u64,
    ) -> Result<(), DiskFault>
        requires { IsUnvisited self.old }
        ensures times { (before : List (Option Duration)) → ShowsBy before (T.shown clock.old) self.old
            → HasShown before (T.shown clock.new) (done_of (door_of self.new)) (times_of self.new) }
        ensures reasons { EndsReasoned (times_of self.new) (done_of (door_of self.new)) (ended_of self.new) }
        ensures streams { HasStreams S.remaining S.contents self.new }
        ensures drains { HasDrains self.new }
        ensures serves { AllEnded C.Connections gateway.old gateway.new result (places_of self.old) (places_of self.new)
            (ended_of self.old) (ended_of self.new) (refused_by self.old) (refused_by self.new) }
        ensures counts { Counts (IsErr result) (C.failures gateway.old) (C.failures gateway.new) }
        ensures clients { TakesTurns (A.answers acceptor.old) (A.answers acceptor.new) turns connections
            (done_of (door_of self.new)) (door_of self.new).clients (ended_of self.new) (IsErr result) }
        ensures counted { IsCounted self.new }
        ensures none { OnOk result (open_in (places_of self.new) ≡ 0) }
        ensures stops { count_closed (ended_of self.new) ≤ connections }
    {
        let mut left = turns;
        while left > 0 && self.closed < connections {
            self.turn(clock.clock(), acceptor, gateway, connections)?;
            if let Some(rest) = self.watch.rest(clock.show(), self.busy) {
                thread::sleep(clock.clock(), rest);
            }
            left -= 1;
        }
        end_each(
            &mut self.places,
            gateway,
            &mut self.ended,
            &mut self.drains,
            self.watch.now,
        )
    }

    // A turn: the listener's, then that of the client who waits, then each connection's, in order, and then that of the
    // sockets that drain.
    fn turn<A: Acceptor<Stream = S>, C: Connections, T: Clock>(
        &mut self,
        clock: &T,
        acceptor: &mut A,
        gateway: &mut C,
        connections: u64,
    ) -> Result<(), DiskFault>
        requires room { HasRoom (door_of self.old).clients }
        requires waits { (door_of self.old).clients.waits + 1 < 2 ^ 64 }
        ensures times { times_of self.new ≡ self.old.watch.now ∷ times_of self.old }
        ensures watch { self.new.watch ≡ self.old.watch }
        ensures reasons { HasStreams S.remaining S.contents self.old → IsReasoned self.old → IsReasoned self.new }
        ensures streams { HasStreams S.remaining S.contents self.old → HasStreams S.remaining S.contents self.new }
        ensures drains { HasDrains self.old → HasDrains self.new }
        ensures serves { StaysJoined C.Connections gateway.old gateway.new result (places_of self.old)
            (places_of self.new) (ended_of self.old) (ended_of self.new) (refused_by self.old) (refused_by self.new) }
        ensures counts { Counts (IsErr result) (C.failures gateway.old) (C.failures gateway.new) }
        ensures clients { (before : List Bool) (turns : ℕ)
            → LetsInBy before (A.answers acceptor.old) turns (door_of self.old)
            → LetsInBy before (A.answers acceptor.new) (turns + 1) (door_of self.new) }
        ensures counted { IsCounted self.old → IsCounted self.new }
        ensures closed { closed_of self.old ≡ length (ended_of self.old) → length (ended_of self.old) ≤ connections
            → OnOk result (closed_of self.new ≡ length (ended_of self.new)) }
        ensures stops { closed_of self.old ≡ length (ended_of self.old) → length (ended_of self.old) ≤ connections
            → length (ended_of self.new) ≤ connections }
    {
        let (now, opened) = (self.watch.now, self.door.clients.opened);
        self.times = self.times.and(&now);
        self.door.ask(acceptor, self.busy, now);
        self.drains.make_room(acceptor.take_failure());
        self.seat(gateway)?;
        let mut round = self.round(now, opened, connections);
        let taken = turn_each(
            clock,
            &mut self.places,
            gateway,
            &mut self.ended,
            &mut self.drains,
            &mut round,
        );
        let flows = self.drains.turn(clock, now, self.busy);
        self.busy = round.busy || flows;
        self.closed = round.closed;
        taken
    }

    // The turn of all places at this time, where so many connections were opened before it.
    fn round(&self, now: Duration, opened: u64, connections: u64) -> Round
        ensures now { result.now ≡ now }
        ensures was_busy { result.was_busy ≡ self.now.busy }
        ensures wanted { result.wanted ≡ is_some (door_of self.now).waiting }
        ensures busy { IsTrue result.busy ↔ (opened < (door_of self.now).clients.opened) }
        ensures longest { IsTrue result.wanted
            → IsLongest (places_of self.now) (length (places_of self.now)) result.longest }
        ensures unwanted { IsFalse result.wanted → result.longest ≡ None }
        ensures closed { result.closed ≡ self.now.closed }
        ensures connections { result.connections ≡ connections }
    {
        let wanted = self.door.waits();
        Round {
            now,
            was_busy: self.busy,
            wanted,
            longest: if wanted {
                longest_pause(&self.places)
            } else {
                None
            },
            busy: self.door.clients.opened > opened,
            closed: self.closed,
            connections,
        }
    }

    // Opens a connection for the client who waits, where a place is free. Where the session refuses it, the client's
    // socket is closed.
    fn seat<C: Connections>(&mut self, gateway: &mut C) -> Result<(), DiskFault>
        requires { HasRoom (door_of self.old).clients }
        ensures watch { self.new.watch ≡ self.old.watch }
        ensures times { times_of self.new ≡ times_of self.old }
        ensures streams { IsAmong self.old.watch.now (times_of self.old)
            → HasStreams S.remaining S.contents self.old → HasStreams S.remaining S.contents self.new }
        ensures serves { StaysJoined C.Connections gateway.old gateway.new result (places_of self.old)
            (places_of self.new) (ended_of self.old) (ended_of self.new) (refused_by self.old) (refused_by self.new) }
        ensures counts { Counts (IsErr result) (C.failures gateway.old) (C.failures gateway.new) }
        ensures clients { (before answers : List Bool) (turns : ℕ) → LetsInBy before answers turns (door_of self.old)
            → LetsInBy before answers turns (door_of self.new) }
        ensures turn { (before : List Bool) → TakesTurn before (door_of self.old)
            → TakesTurn before (door_of self.new) }
        ensures takes { IsTrue (is_some (door_of self.new).waiting)
            → NoneIsFree (places_of self.new) × HasNoPlace self.old }
        ensures ended { ended_of self.new ≡ ended_of self.old }
        ensures closed { closed_of self.new ≡ closed_of self.old }
        ensures drains { drains_of self.new ≡ drains_of self.old }
        ensures counted { IsCounted self.old → IsCounted self.new }
    {
        let Some((conn, socket)) = self.next_place() else {
            return Ok(());
        };
        match gateway.opened(conn) {
            Ok(()) => {
                self.places[conn] = Place::open(self.alloc, socket, self.watch.now);
                self.door.clients.opened += 1;
                Ok(())
            }
            Err(error) => {
                self.door.clients.refused += 1;
                unless_failed(Err(error))
            }
        }
    }

    // The number of a free place, and the client who waits for it.
    fn next_place(&mut self) -> Option<(usize, Untouched<S>)>
        ensures free { IfSome result (λ next. IsFreeAt (places_of self.new) next.0) }
        ensures same { SamePlaces (places_of self.old) (places_of self.new) }
        ensures open { open_in (places_of self.new) ≡ open_in (places_of self.old) }
        ensures rest { RestStays self.old self.new }
        ensures done { done_of (door_of self.new) ≡ done_with result (done_of (door_of self.old)) }
        ensures waits { one_when (is_some (door_of self.old).waiting)
            ≡ one_when (is_some result) + one_when (is_some (door_of self.new).waiting) }
        ensures takes { IsTrue (is_some (door_of self.new).waiting)
            → NoneIsFree (places_of self.new) × HasNoPlace self.old }
    {
        if !self.door.waits() {
            return None;
        }
        let conn = self.free_place()?;
        Some((conn, self.door.let_in()?))
    }

    // The number of the first place that is free.
    fn free_place(&mut self) -> Option<usize>
        ensures free { IfSome result (λ conn. IsFreeAt (places_of self.new) conn) }
        ensures none { IsNone result → NoneIsFree (places_of self.new) × HasNoPlace self.old }
        ensures same { SamePlaces (places_of self.old) (places_of self.new) }
        ensures open { open_in (places_of self.new) ≡ open_in (places_of self.old) }
        ensures door { door_of self.new ≡ door_of self.old }
        ensures ended { ended_of self.new ≡ ended_of self.old }
        ensures closed { closed_of self.new ≡ closed_of self.old }
        ensures drains { drains_of self.new ≡ drains_of self.old }
        ensures watch { self.new.watch ≡ self.old.watch }
        ensures times { times_of self.new ≡ times_of self.old }
    {
        match first_free(&self.places) {
            Some(conn) => Some(conn),
            None => self.new_place(),
        }
    }

    // The number of another place, where there are fewer than `MOST_OPEN` and memory for it is there.
    fn new_place(&mut self) -> Option<usize>
        ensures free { IfSome result (λ conn. IsFreeAt (places_of self.new) conn) }
        ensures none { IsNone result → (places_of self.new ≡ places_of self.old) × HasNoPlace self.old }
        ensures same { SamePlaces (places_of self.old) (places_of self.new) }
        ensures open { open_in (places_of self.new) ≡ open_in (places_of self.old) }
        ensures door { door_of self.new ≡ door_of self.old }
        ensures ended { ended_of self.new ≡ ended_of self.old }
        ensures closed { closed_of self.new ≡ closed_of self.old }
        ensures drains { drains_of self.new ≡ drains_of self.old }
        ensures watch { self.new.watch ≡ self.old.watch }
        ensures times { times_of self.new ≡ times_of self.old }
    {
        let conn = self.places.len();
        if conn >= MOST_OPEN {
            return None;
        }
        match self.places.push(Place::Free) {
            Ok(()) => Some(conn),
            Err(_) => None,
        }
    }
}
