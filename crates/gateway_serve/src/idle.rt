//! How often a quiet socket is asked, and how long an idle server rests.
ghost use Rattle.std.specs.Prelude.{◌≡◌, ◌≤◌, ◌+◌, ◌↔◌, IsTrue, IsFalse, IfSome, IsNone, IsSome, false};
ghost use Rattle.std.specs.Duration.{as_nanos};
ghost use Rattle.gateway_serve.specs.Acceptors.{passes_of, asked_of};
ghost use Rattle.gateway_serve.specs.Rests.{IsIdle, watch_after, rest_at};
ghost use Rattle.gateway_serve.specs.Stays.{millis_from};

use std::time::{Clock, Duration};

/// A quiet socket is passed over in at most so many turns, one after the other.
const MOST_PASSED: u32 = 31;

/// A socket that wasn't asked for so many milliseconds isn't passed over. In a turn that has taken as long each
/// connection's session is called once more at most.
const LONGEST_TURN: u128 = 10;

/// A server doesn't rest before it was idle for so many microseconds.
const SHORTEST_IDLE: u64 = 200;

/// The longest rest, in milliseconds.
const LONGEST_REST: u64 = 10;

/// The turn of a connection: its time, whether a socket waits for a place, whether no other has been between requests
/// longer, and whether the turn before did something.
#[derive(Clone, Copy, Debug, PartialEq, Eq, Drop)]
pub(crate) struct Tick {
    pub(crate) now: Duration,
    pub(crate) wanted: bool,
    pub(crate) longest: bool,
    pub(crate) busy: bool,
}

/// How often a socket is asked: in each turn while it has something to do. After each time that it had nothing it is
/// asked half as often, down to once in 32 turns.
#[derive(Clone, Copy, Debug, PartialEq, Eq, Drop)]
pub(crate) struct Pace {
    /// turns that pass it over after it had nothing
    between: u32,
    /// those of them that are to come
    left: u32,
    /// when it was asked last
    asked: Duration,
}

impl Pace {
    /// Of a socket that came now, and is asked in the next turn.
    pub(crate) fn new(now: Duration) -> Self
        ensures passes { passes_of result ≡ 0 }
        ensures asked { asked_of result ≡ now }
    {
        Pace {
            between: 0,
            left: 0,
            asked: now,
        }
    }

    /// Whether the socket is asked in this turn. Each one is where the turn before did nothing, and one that wasn't
    /// asked for 10 milliseconds, however few turns these were.
    pub(crate) fn is_due(&mut self, busy: bool, now: Duration) -> bool
        ensures idle { busy ≡ false → IsTrue result }
        ensures waited { LONGEST_TURN ≤ millis_from (asked_of self.old) now → IsTrue result }
        ensures passed { IsFalse result → passes_of self.old ≡ passes_of self.new + 1 }
    {
        if busy && self.left > 0 && !has_passed(self.asked, now) {
            self.left -= 1;
            return false;
        }
        true
    }

    /// The socket was asked now, and had something to do or not.
    pub(crate) fn asked(&mut self, moved: bool, now: Duration)
        ensures passes { passes_of self.new ≤ 31 }
        ensures asked { asked_of self.new ≡ now }
    {
        self.between = if moved {
            0
        } else {
            (self.between.min(MOST_PASSED / 2) * 2) + 1
        };
        self.left = self.between;
        self.asked = now;
    }
}

// Whether 10 milliseconds passed.
fn has_passed(since: Duration, now: Duration) -> bool
    ensures { IsTrue result ↔ (LONGEST_TURN ≤ millis_from since now) }
{
    now.saturating_sub(since).as_millis() >= LONGEST_TURN
}

/// Whether a turn that began at this time has taken 10 milliseconds: one call of the clock. Not so where it can't be
/// read.
pub(crate) fn is_long<T: Clock>(clock: &T, begun: Duration) -> bool {
    time(clock).is_some_and(|now| has_passed(begun, now))
}

/// The time that a clock shows: one call of the clock. `None` where it can't be read.
pub(crate) fn time<T: Clock>(clock: &T) -> Option<Duration> {
    clock.monotonic().ok()
}

/// The time as a server read it last, and when it last had something to do.
#[derive(Clone, Copy, Debug, PartialEq, Eq, Drop)]
pub(crate) struct Watch {
    pub(crate) now: Duration,
    busy: Duration,
}

impl Watch {
    /// Started at this time. With a clock that can't be read the watch doesn't move.
    pub(crate) fn new(time: Option<Duration>) -> Self
        ensures read { IfSome time (λ now. result.now ≡ now) }
        ensures unread { IsNone time → as_nanos result.now ≡ 0 }
        ensures busy { result.busy ≡ result.now }
    {
        let now = time.unwrap_or(Duration::ZERO);
        Watch { now, busy: now }
    }

    /// After a turn, at this time: how long the server rests. Where no socket had anything to do for 200 microseconds
    /// that is a 32nd of the time since one had, at most 10 milliseconds: so a client waits at most a 32nd of its own
    /// silence longer.
    pub(crate) fn rest(&mut self, time: Option<Duration>, was_busy: bool) -> Option<Duration>
        ensures time { self.new ≡ watch_after self.old time was_busy }
        ensures rests { IsSome result ↔ IsIdle self.new }
        ensures rest { IfSome result (λ rest. as_nanos rest ≡ rest_at self.new) }
    {
        self.now = time.unwrap_or(self.now);
        if was_busy {
            self.busy = self.now;
        }
        let idle = self.now.saturating_sub(self.busy);
        if idle >= Duration::from_micros(SHORTEST_IDLE) {
            Some((idle / 32).min(Duration::from_millis(LONGEST_REST)))
        } else {
            None
        }
    }
}
