//! A socket and its connection of the gateway.

ghost use Rattle.std.specs.Prelude.{◌≡◌, ◌≢◌, ◌⊎◌, ◌<◌, IsErr, IfOk, IfSome, IsTrue, length};
ghost use Rattle.upload_rules.specs.Answers.{Counts};
ghost use Rattle.gateway_serve.specs.Joined.{Goes, IsOver, MayWrite, WritesPiece, ReadsPiece, joint_of};
ghost use Rattle.gateway_serve.specs.Joined.{nothing_yet, with_link};
ghost use Rattle.gateway_serve.specs.Joined.{at_of};
ghost use Rattle.gateway_serve.specs.Waiting.{FewWait, HasRoom};
ghost use Rattle.gateway_serve.specs.Bytes.{stream_of, latest_of, spell_of};
ghost use Rattle.gateway_serve.specs.Streams.{StaysOf, socket_of};
ghost use Rattle.gateway_serve.specs.Times.{StaysTimed};
ghost use Rattle.gateway_serve.specs.Gone.{EndsBy, IfLost, opened_at};
ghost use Rattle.gateway_serve.specs.declared.sockets.Latest.{Latest};
ghost use Rattle.gateway_serve.specs.Longest.{link_between_since};
ghost use Rattle.gateway_serve.specs.Reasons.{IsOutOfTime, IsLostBy, stay_of};
ghost use Rattle.gateway_serve.specs.Requests.{measured_by};
ghost use Rattle.gateway_serve.specs.Stays as stays;

use crate::buffers::{Input, Output, PIECE};
use crate::idle::{Pace, Tick, is_long};
use crate::reasons::{Gone, Reason};
use crate::requests::{Part, Request, request_after};
use crate::sockets::{Seen, Socket, Untouched};
use crate::stages::{Left, Stage, left_after, next_after};
use crate::stays::{At, Stay};
use common::{DiskFault, Trace};
use std::alloc::Global;
use std::io::{Read, Write};
use std::time::{Clock, Duration};
use tus_session::Connections;

/// A socket and its connection of the gateway.
#[derive(Drop)]
pub(crate) struct Link<S> {
    socket: Socket<S>,
    input: Input,
    output: Output,
    stage: Stage,
    /// the request of which a part comes
    request: Option<Request>,
    pace: Pace,
}

impl<S> Link<S> {
    /// Puts the socket to those that ended, and hands its stream back.
    pub(crate) fn end(self, conn: usize, reason: Reason, ended: &mut Trace<Seen>) -> S
        ensures ended { ended.new.items ≡ with_link conn reason self ended.old.items }
        ensures waiting { FewWait self.output }
    {
        let _few = self.output.left();
        let (seen, stream) = self.socket.ended(conn, reason);
        *ended = ended.and(&seen);
        stream
    }
}

impl<S: Read + Write> Link<S> {
    /// A connection of which nothing came, opened now.
    pub(crate) fn new(alloc: Global, accepted: Untouched<S>, now: Duration) -> Self
        ensures stream { stream_of (socket_of result) ≡ accepted }
        ensures latest { latest_of (socket_of result) ≡ Latest.None }
        ensures none { joint_of result ≡ nothing_yet }
        ensures spell { spell_of (socket_of result) ≡ opened_at now }
        ensures request { result.request ≡ None }
    {
        Link {
            socket: accepted.into_socket(now),
            input: Input::new(),
            output: Output::new(alloc),
            stage: Stage::Taking,
            request: None,
            pace: Pace::new(now),
        }
    }

    /// Since when it has been between requests, if it is.
    pub(crate) fn between_since(&self) -> Option<Duration>
        ensures { result ≡ link_between_since self.now }
    {
        match self.at() {
            At::Between => Some(self.socket.spell().moved),
            At::Head | At::Body | At::Reply => None,
        }
    }

    /// A turn: what is left is written, else the next piece of a text is asked for, else bytes are read and given to
    /// the session, and what that gives is written. Where nothing of this could be done, a body comes or a reply went
    /// whole, and its time is over, the connection is lost. One that had nothing to do is passed over in some of the
    /// turns, unless the turn before did nothing at all or took long.
    ///
    /// Refused with `DiskFault` where the session was.
    pub(crate) fn turn<C: Connections, T: Clock>(
        &mut self,
        clock: &T,
        gateway: &mut C,
        conn: usize,
        tick: Tick,
    ) -> Result<Left, DiskFault>
        ensures lost { IfOk result (λ left. IfLost left (λ gone. IsLostBy self.new tick gone)) }
        ensures stream { StaysOf S.remaining S.contents (socket_of self.old) (socket_of self.new) }
        ensures times { StaysTimed tick.now self.old self.new }
        ensures serves { Goes C.Connections gateway.old gateway.new result self.old self.new conn }
        ensures over { result ≡ Ok Left.Closed → IsOver (joint_of self.new) }
        ensures counts { Counts (IsErr result) (C.failures gateway.old) (C.failures gateway.new) }
    {
        if !self.pace.is_due(tick.busy, tick.now) {
            return Ok(Left::Idle);
        }
        match self.go_on(clock, gateway, conn, tick) {
            Ok(left) => Ok(self.left_at(left, tick)),
            Err(fault) => Err(fault),
        }
    }

    // What a turn leaves at its time: a connection whose socket had nothing to do, of which a body comes, or that is
    // between requests, is lost if its time is over.
    #[tactic(auto, using(crate::proofs::Lost::still_lost))]
    fn left_at(&mut self, left: Left, tick: Tick) -> Left
        ensures socket { socket_of self.new ≡ socket_of self.old }
        ensures times { StaysTimed tick.now self.old self.new }
        ensures same { joint_of self.new ≡ joint_of self.old }
        ensures over { result ≡ Left.Closed → left ≡ Left.Closed }
        ensures lost { IfLost result (λ gone. (left ≡ Left.Lost gone) ⊎ IsOutOfTime self.new tick gone) }
    {
        let moved = !matches!(left, Left::Idle);
        self.pace.asked(moved, tick.now);
        let stay = self.stay(tick);
        if may_be_late(left, stay.at) && stay.is_over() {
            return Left::Lost(Gone::Late(stay));
        }
        self.measure(&stay);
        left
    }

    // How it is at the time of a turn.
    fn stay(&self, tick: Tick) -> Stay
        ensures { result ≡ stay_of self.now tick }
    {
        let spell = self.socket.spell();
        let request = self
            .request
            .unwrap_or(Request::new(Part::Head, spell.moved));
        Stay {
            at: self.at(),
            wanted: tick.wanted,
            longest: tick.longest,
            opened: spell.opened,
            moved: spell.moved,
            begun: request.begun,
            since: request.since,
            brought: request.brought,
            turns: request.turns,
            time: tick.now,
        }
    }

    // What it is at.
    fn at(&self) -> At
        ensures { result ≡ at_of self.now }
    {
        if !self.output.left().is_empty() || self.stage != Stage::Taking {
            return At::Reply;
        }
        match &self.request {
            Some(request) => request.at(),
            None => At::Between,
        }
    }

    // Measures the speed of a request anew, where it was fast enough for long enough.
    fn measure(&mut self, stay: &Stay)
        ensures over { stays.IsOver stay.now → self.new.request ≡ self.old.request }
        ensures goes_on { (stays.IsOver stay.now → ⊥) → self.new.request ≡ measured_by self.old.request stay.now.time }
        ensures socket { socket_of self.new ≡ socket_of self.old }
        ensures times { StaysTimed stay.now.time self.old self.new }
        ensures same { joint_of self.new ≡ joint_of self.old }
    {
        if let (Some(request), false) = (&mut self.request, stay.is_over()) {
            request.measure(stay.time);
        }
    }

    // Writes, asks for the next piece of a text, or takes bytes.
    fn go_on<C: Connections, T: Clock>(
        &mut self,
        clock: &T,
        gateway: &mut C,
        conn: usize,
        tick: Tick,
    ) -> Result<Left, DiskFault>
        ensures lost { IfOk result (λ left. IfLost left (λ gone. EndsBy gone (latest_of (socket_of self.new)))) }
        ensures stream { StaysOf S.remaining S.contents (socket_of self.old) (socket_of self.new) }
        ensures times { StaysTimed tick.now self.old self.new }
        ensures serves { Goes C.Connections gateway.old gateway.new result self.old self.new conn }
        ensures over { result ≡ Ok Left.Closed → IsOver (joint_of self.new) }
        ensures counts { Counts (IsErr result) (C.failures gateway.old) (C.failures gateway.new) }
    {
        if !self.output.left().is_empty() {
            return Ok(self.write(tick.now));
        }
        match self.stage {
            Stage::Closed => Ok(Left::Closed),
            Stage::Giving => self.more(gateway, conn, tick.now),
            Stage::Taking => self.take(clock, gateway, conn, tick),
        }
    }

    // Writes of what is left as much as the socket takes.
    #[tactic(auto, using(crate::proofs::Lost::failed_lost))]
    fn write(&mut self, now: Duration) -> Left
        requires { 0 < length (joint_of self.old).output }
        ensures lost { IfLost result (λ gone. EndsBy gone (latest_of (socket_of self.new))) }
        ensures stream { StaysOf S.remaining S.contents (socket_of self.old) (socket_of self.new) }
        ensures times { StaysTimed now self.old self.new }
        ensures part { WritesPiece (joint_of self.old) (joint_of self.new) }
        ensures unclosed { result ≢ Left.Closed }
    {
        match self.output.write(&mut self.socket, now) {
            Ok(0) => Left::Lost(Gone::Stuck),
            Ok(_) => Left::Open,
            Err(error) => left_after(&error),
        }
    }

    // Asks the session for the next piece of a text.
    fn more<C: Connections>(
        &mut self,
        gateway: &mut C,
        conn: usize,
        now: Duration,
    ) -> Result<Left, DiskFault>
        requires { HasRoom (joint_of self.old).output }
        ensures lost { IfOk result (λ left. IfLost left (λ gone. EndsBy gone (latest_of (socket_of self.new)))) }
        ensures socket { socket_of self.new ≡ socket_of self.old }
        ensures times { StaysTimed now self.old self.new }
        ensures serves { Goes C.Connections gateway.old gateway.new result self.old self.new conn }
        ensures unclosed { result ≢ Ok Left.Closed }
        ensures counts { Counts (IsErr result) (C.failures gateway.old) (C.failures gateway.new) }
    {
        let answer = self.output.more(gateway, conn);
        match next_after(answer) {
            Ok(next) => {
                // Behind a text that was given whole a body may come.
                let at = gateway.at(conn);
                self.request = request_after(self.request, at, next.taken, now);
                self.stage = next.stage;
                Ok(Left::Open)
            }
            Err(fault) => Err(fault),
        }
    }

    // Gives the session what was read, or else what the socket has now, and writes what it gives.
    fn take<C: Connections, T: Clock>(
        &mut self,
        clock: &T,
        gateway: &mut C,
        conn: usize,
        tick: Tick,
    ) -> Result<Left, DiskFault>
        ensures lost { IfOk result (λ left. IfLost left (λ gone. EndsBy gone (latest_of (socket_of self.new)))) }
        ensures stream { StaysOf S.remaining S.contents (socket_of self.old) (socket_of self.new) }
        ensures times { StaysTimed tick.now self.old self.new }
        ensures serves { Goes C.Connections gateway.old gateway.new result self.old self.new conn }
        ensures unclosed { result ≢ Ok Left.Closed }
        ensures counts { Counts (IsErr result) (C.failures gateway.old) (C.failures gateway.new) }
    {
        match self.take_in(clock, gateway, conn, tick) {
            Ok(left) => Ok(self.write_given(left, tick.now)),
            Err(fault) => Err(fault),
        }
    }

    // Gives the session what was read, or else what the socket has now.
    fn take_in<C: Connections, T: Clock>(
        &mut self,
        clock: &T,
        gateway: &mut C,
        conn: usize,
        tick: Tick,
    ) -> Result<Left, DiskFault>
        ensures lost { IfOk result (λ left. IfLost left (λ gone. EndsBy gone (latest_of (socket_of self.new)))) }
        ensures stream { StaysOf S.remaining S.contents (socket_of self.old) (socket_of self.new) }
        ensures times { StaysTimed tick.now self.old self.new }
        ensures serves { Goes C.Connections gateway.old gateway.new result self.old self.new conn }
        ensures unclosed { result ≢ Ok Left.Closed }
        ensures counts { Counts (IsErr result) (C.failures gateway.old) (C.failures gateway.new) }
    {
        if let Some(left) = self.read(tick.now) {
            return Ok(left);
        }
        match self.give(clock, gateway, conn, tick) {
            Ok(()) => Ok(Left::Open),
            Err(fault) => Err(fault),
        }
    }

    // Writes of what the session gave as much as the socket takes, unless the turn left the connection otherwise.
    fn write_given(&mut self, left: Left, now: Duration) -> Left
        ensures lost { IfLost left (λ gone. EndsBy gone (latest_of (socket_of self.old)))
            → IfLost result (λ gone. EndsBy gone (latest_of (socket_of self.new))) }
        ensures stream { StaysOf S.remaining S.contents (socket_of self.old) (socket_of self.new) }
        ensures times { StaysTimed now self.old self.new }
        ensures part { MayWrite (joint_of self.old) (joint_of self.new) }
        ensures unclosed { result ≡ Left.Closed → left ≡ Left.Closed }
    {
        if !matches!(left, Left::Open) || self.output.left().is_empty() {
            return left;
        }
        match self.write(now) {
            // Bytes were given to the session.
            Left::Idle => Left::Open,
            after => after,
        }
    }

    // Reads what the socket has now, where the session took all that was read before. Where there is nothing to give:
    // what that leaves of the connection.
    #[tactic(auto, using(crate::proofs::Lost::failed_lost))]
    fn read(&mut self, now: Duration) -> Option<Left>
        ensures lost { IfSome result (λ left. IfLost left (λ gone. EndsBy gone (latest_of (socket_of self.new)))) }
        ensures stream { StaysOf S.remaining S.contents (socket_of self.old) (socket_of self.new) }
        ensures times { StaysTimed now self.old self.new }
        ensures part { ReadsPiece (joint_of self.old) (joint_of self.new) }
        ensures unclosed { IfSome result (λ left. left ≢ Left.Closed) }
    {
        if !self.input.left().is_empty() {
            return None;
        }
        match self.input.read(&mut self.socket, now) {
            Ok(0) => Some(Left::Lost(Gone::Ended)),
            Ok(_) => None,
            Err(error) => Some(left_after(&error)),
        }
    }

    // Gives the session what was read, until all is taken, enough waits to be written, a text is to be given, the
    // connection is closed or gives way, or the turn has taken long.
    fn give<C: Connections, T: Clock>(
        &mut self,
        clock: &T,
        gateway: &mut C,
        conn: usize,
        tick: Tick,
    ) -> Result<(), DiskFault>
        ensures socket { socket_of self.new ≡ socket_of self.old }
        ensures times { StaysTimed tick.now self.old self.new }
        ensures serves { Goes C.Connections gateway.old gateway.new result self.old self.new conn }
        ensures counts { Counts (IsErr result) (C.failures gateway.old) (C.failures gateway.new) }
    {
        // Each call takes at least a byte.
        let mut calls = PIECE;
        while calls > 0 && self.goes_on() {
            match self.came(gateway, conn, tick.now) {
                Ok(()) => {}
                Err(fault) => return Err(fault),
            }
            calls = self.calls_after(clock, tick, calls);
        }
        Ok(())
    }

    // How many of the calls that were to come may follow one of them: none where the connection gives way once its
    // replies are out, and none in a turn that has taken long.
    fn calls_after<T: Clock>(&self, clock: &T, tick: Tick, calls: usize) -> usize
        requires { 0 < calls }
        ensures { result < calls }
    {
        if self.goes_on() && (self.has_stayed(tick) || is_long(clock, tick.now)) {
            0
        } else {
            calls - 1
        }
    }

    // Whether it was given all of a request, and has had its place for long enough.
    fn has_stayed(&self, tick: Tick) -> bool {
        self.request.is_none() && self.stay(tick).has_stayed()
    }

    // Whether the session may be given more of what was read.
    fn goes_on(&self) -> bool
        ensures { IsTrue result → HasRoom (joint_of self.now).output }
    {
        self.stage == Stage::Taking && !self.input.left().is_empty() && self.output.has_room()
    }

    // Gives the session what was read once: it takes the bytes of at most one request.
    fn came<C: Connections>(
        &mut self,
        gateway: &mut C,
        conn: usize,
        now: Duration,
    ) -> Result<(), DiskFault>
        requires { HasRoom (joint_of self.old).output }
        ensures socket { socket_of self.new ≡ socket_of self.old }
        ensures times { StaysTimed now self.old self.new }
        ensures serves { Goes C.Connections gateway.old gateway.new result self.old self.new conn }
        ensures counts { Counts (IsErr result) (C.failures gateway.old) (C.failures gateway.new) }
    {
        let answer = self.output.came(gateway, conn, self.input.left());
        match next_after(answer) {
            Ok(next) => {
                self.request = request_after(self.request, gateway.at(conn), next.taken, now);
                self.stage = next.stage;
                self.input.take(next.taken);
                Ok(())
            }
            Err(fault) => Err(fault),
        }
    }
}

// Whether a connection may be lost because its time is over, after a turn that left it so: where its socket had nothing
// to do, while a body comes, or once no reply is owed.
fn may_be_late(left: Left, at: At) -> bool
    ensures { IsTrue result → (left ≡ Left.Idle) ⊎ (left ≡ Left.Open) }
{
    match left {
        Left::Idle => true,
        Left::Open => matches!(at, At::Between | At::Body),
        Left::Closed | Left::Lost(_) => false,
    }
}
