//! Sockets whose connections were closed, or gave way after a reply. What their clients still send is read and dropped,
//! so that none of them loses the end of its reply to a reset (RFC 9112, section 9.6).
ghost use Rattle.std.specs.Prelude.{◌≡◌, ◌↔◌, ◌<◌, ◌≤◌, ◌+◌, ◌-◌, [], length, IsTrue, IsFalse};
ghost use Rattle.gateway_serve.specs.Drains.{AllDrain, ClosesAll, EndsBy, HasEnded, IsDrain, IsLeft, IsShut, LeavesBy};
ghost use Rattle.gateway_serve.specs.Drains.{ShutsBy, count_drains, draining_of, longest_silence, one_if_drains};
ghost use Rattle.gateway_serve.specs.Parted.{calls_of};
ghost use Rattle.gateway_serve.specs.Stays.{seconds_from};

use crate::idle::{Pace, time};
use crate::parted::{Parted, Parting};
use crate::reasons::Reason;
use common::Trace;
use std::alloc::Global;
use std::io::{ErrorKind, Read};
use std::net::OpenStream;
use std::time::{Clock, Duration};

/// So many sockets drain at once, at most.
pub const MOST_DRAINING: usize = 64;

/// The most bytes that are dropped at once.
const PIECE: usize = 16_384;

/// The most bytes that are dropped of a socket: those of the longest body.
const MOST_DROPPED: u64 = 1_073_741_824;

/// A socket drains for so many seconds at most.
const LONGEST_DRAIN: u64 = 60;

/// A socket of which nothing came since it was closed is let go after so many seconds.
const LONGEST_SILENCE: u64 = 2;

/// One of which bytes came is let go once none came for so many seconds.
const LONGEST_GAP: u64 = 10;

/// Why a socket drains no more.
#[derive(Clone, Copy, Drop)]
pub enum DrainEnd {
    /// In its turn at this time: it was at its end, failed, was silent or drained for too long, or brought too much.
    Turn(Duration),
    /// Room was needed: as many drained as may when another one came, or no more files may be open.
    Room,
    /// Memory for it was refused.
    Memory,
    /// Serving was over.
    Over,
}

/// A socket that drained. Only clauses read it.
#[derive(Drop)]
pub struct Drained {
    /// All that was done with it since its connection ended, the latest first.
    pub calls: Trace<Parting>,
    /// Why it drains no more.
    pub end: DrainEnd,
}

/// A socket that drains.
#[derive(Drop)]
struct Drain<S> {
    stream: Parted<S>,
    /// when its writing side was shut, if it was
    shut: Option<Duration>,
    /// when that was, or when bytes last came
    moved: Duration,
    /// how many bytes came since then
    dropped: u64,
    pace: Pace,
}

/// What a turn left of a socket that drains.
#[derive(Clone, Copy, Debug, PartialEq, Eq, Drop)]
enum Rest {
    /// Bytes came.
    Flows,
    /// None came, and some may.
    Waits,
    /// It is at its end, failed, was silent or drained for too long, or brought too much.
    Over,
}

impl<S: Drop> Drain<S> {
    // Of a connection that ended now.
    fn new(stream: S, now: Duration) -> Self
        ensures drains { IsDrain result }
        ensures none { calls_of result.stream ≡ [] }
    {
        Drain {
            stream: Parted::new(stream),
            shut: None,
            moved: now,
            dropped: 0,
            pace: Pace::new(now),
        }
    }

    // Closes it, which drains no more for this reason.
    fn end(self, end: DrainEnd) -> Drained
        ensures ended { EndsBy end (calls_of self.stream) → HasEnded result }
        ensures left { end ≡ DrainEnd.Over → IsDrain self → IsLeft result }
    {
        let Drain {
            stream,
            shut: _,
            moved: _,
            dropped: _,
            pace: _,
        } = self;
        Drained {
            calls: stream.close(),
            end,
        }
    }
}

impl<S: Read + OpenStream> Drain<S> {
    // A turn at this time: shuts the writing side, and drops what came.
    fn turn(&mut self, now: Duration, busy: bool, buffer: &mut [u8]) -> Rest
        requires { 0 < length buffer.old }
        ensures { IsDrain self.old → LeavesBy result self.new now }
    {
        if !self.is_shut(now) {
            return Rest::Over;
        }
        if self.is_late(now) {
            return Rest::Over;
        }
        if !self.pace.is_due(busy, now) {
            return Rest::Waits;
        }
        let rest = self.read(now, buffer);
        self.pace.asked(rest == Rest::Flows, now);
        rest
    }

    // Whether the writing side is shut: if it wasn't, it is now, where that can be done, and from now on times count.
    fn is_shut(&mut self, now: Duration) -> bool
        ensures { IsDrain self.old → ShutsBy result self.new now }
    {
        if self.shut.is_some() {
            return true;
        }
        if !self.stream.shut(now) {
            return false;
        }
        self.shut = Some(now);
        self.moved = now;
        true
    }

    // Drops what came.
    fn read(&mut self, now: Duration, buffer: &mut [u8]) -> Rest
        requires { 0 < length buffer.old }
        ensures { IsShut self.old → LeavesBy result self.new now }
    {
        match self.stream.read(buffer, now) {
            Ok(0) => Rest::Over,
            Ok(count) => {
                self.dropped = self.dropped.saturating_add(count as u64);
                self.moved = now;
                if self.dropped < MOST_DROPPED {
                    Rest::Flows
                } else {
                    Rest::Over
                }
            }
            Err(error) => match error.kind() {
                ErrorKind::Interrupted => Rest::Flows,
                ErrorKind::WouldBlock => {
                    if self.is_silent(now) {
                        Rest::Over
                    } else {
                        Rest::Waits
                    }
                }
                _ => Rest::Over,
            },
        }
    }

    // Whether nothing came for too long.
    fn is_silent(&self, now: Duration) -> bool
        ensures { IsTrue result ↔ (longest_silence self.now.dropped ≤ seconds_from self.now.moved now) }
    {
        let longest = if self.dropped == 0 {
            LONGEST_SILENCE
        } else {
            LONGEST_GAP
        };
        now.saturating_sub(self.moved).as_secs() >= longest
    }

    // Whether it has drained for too long.
    fn is_late(&self, now: Duration) -> bool
        ensures { IsTrue result → IsShut self.now → LeavesBy Rest.Over self.now now }
    {
        match self.shut {
            Some(shut) => now.saturating_sub(shut).as_secs() >= LONGEST_DRAIN,
            None => false,
        }
    }
}

/// The sockets that drain, by the times at which they were closed, and those that did.
#[derive(Drop)]
pub(crate) struct Drains<S> {
    sockets: Vec<Drain<S>>,
    drained: Trace<Drained>,
}

impl<S: Drop> Drains<S> {
    /// No socket drains.
    pub(crate) fn new(alloc: Global) -> Self
        ensures all { AllDrain result }
        ensures none { count_drains result ≡ 0 }
    {
        Drains {
            sockets: Vec::new(alloc),
            drained: Trace::new(),
        }
    }

    /// Lets a socket go, if there is one, whose connection ended now for this reason: it drains or is closed.
    pub(crate) fn let_go(&mut self, stream: Option<S>, reason: Reason, now: Duration)
        ensures all { AllDrain self.old → AllDrain self.new }
        ensures one { count_drains self.new ≡ count_drains self.old + one_if_drains stream reason }
    {
        if let (Some(stream), true) = (stream, reason.drains()) {
            self.add(stream, now);
        }
    }

    /// Lets the socket go that was added first, if that is needed and one is there.
    pub(crate) fn make_room(&mut self, needed: bool)
        ensures all { AllDrain self.old → AllDrain self.new }
        ensures same { count_drains self.new ≡ count_drains self.old }
        ensures fewer { IsTrue needed → length (draining_of self.new) ≡ length (draining_of self.old) - 1 }
        ensures unneeded { IsFalse needed → self.new ≡ self.old }
    {
        if needed && !self.sockets.is_empty() {
            let first = self.sockets.remove(0);
            self.drained = self.drained.and(&first.end(DrainEnd::Room));
        }
    }

    // Adds the socket of a connection that ended now. Where as many drain as may, the one that was closed first
    // is let go. Out of memory, this one is.
    fn add(&mut self, stream: S, now: Duration)
        ensures all { AllDrain self.old → AllDrain self.new }
        ensures one { count_drains self.new ≡ count_drains self.old + 1 }
    {
        let full = self.sockets.len() >= MOST_DRAINING;
        self.make_room(full);
        if let Err(unadded) = self.sockets.push(Drain::new(stream, now)) {
            self.drained = self.drained.and(&unadded.value.end(DrainEnd::Memory));
        }
    }
}

impl<S: Drop> Drains<S> {
    /// Serving is over: all that drain are closed, and those that drained are handed back.
    pub(crate) fn end(self) -> Trace<Drained>
        ensures all { AllDrain self → ClosesAll self result.items }
        ensures each { length result.items ≡ count_drains self }
    {
        let Drains { sockets, drained } = self;
        let (mut left, mut all) = (sockets, drained);
        while let Some(drain) = left.pop() {
            all = all.and(&drain.end(DrainEnd::Over));
        }
        all
    }
}

impl<S: Read + OpenStream + Drop> Drains<S> {
    /// The turn of all of them, after a turn that did something or not, which began at this time: whether bytes came of
    /// one. Their times are those at which they are asked.
    pub(crate) fn turn<T: Clock>(&mut self, clock: &T, begun: Duration, busy: bool) -> bool
        ensures all { AllDrain self.old → AllDrain self.new }
        ensures same { count_drains self.new ≡ count_drains self.old }
    {
        if self.sockets.is_empty() {
            return false;
        }
        let now = time(clock).unwrap_or(begun);
        let mut buffer = [0; PIECE];
        let mut flows = false;
        let mut next = 0;
        while next < self.sockets.len() {
            let rest = self.sockets[next].turn(now, busy, &mut buffer);
            if rest == Rest::Over {
                let over = self.sockets.remove(next);
                self.drained = self.drained.and(&over.end(DrainEnd::Turn(now)));
            } else {
                flows = flows || rest == Rest::Flows;
                next += 1;
            }
        }
        flows
    }
}
