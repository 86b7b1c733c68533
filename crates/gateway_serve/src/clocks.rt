//! Clocks that are asked for the time.
ghost use Rattle.std.specs.Prelude.{◌≡◌, [], ◌∷◌, List, Option};
ghost use Rattle.std.specs.declared.time.Duration.{Duration};

use crate::idle::time;
use common::Trace;
use std::time::{Clock, Duration};

/// A clock that is asked for the time at which each turn begins. Its ghost record has each answer.
pub trait Timer {
    /// The clock itself.
    type Clock: Clock;

    /// What each call of `show` gave, the latest first.
    ghost shown: { Self → List (Option Duration) };

    /// The time. `None` where the clock can't be read.
    fn show(&mut self) -> Option<Duration>
        ensures { shown self.new ≡ result ∷ shown self.old };

    /// The clock, by which a server rests, and measures how long a turn takes.
    fn clock(&self) -> &Self::Clock;
}

/// A clock of the operating system, or one in its place. That each call of `show` makes one of the inner clock, and
/// answers what that gave, is trusted and not proved, since no contract of the kit states what a clock shows.
#[derive(Drop)]
pub struct Showing<'a, T> {
    clock: &'a T,
    shown: Trace<Option<Duration>>,
}

impl<'a, T: Clock> Showing<'a, T> {
    ghost use Rattle.gateway_serve.specs.Times.{shown_by};

    /// A clock that was asked nothing so far.
    pub fn new(clock: &'a T) -> Self
        ensures { shown_by result ≡ [] }
    {
        Showing {
            clock,
            shown: Trace::new(),
        }
    }
}

impl<T: Clock> Timer for Showing<'_, T> {
    type Clock = T;

    ghost use Rattle.gateway_serve.specs.Times.{shown_by};

    ghost shown = { shown_by };

    fn show(&mut self) -> Option<Duration> {
        let shown = time(self.clock);
        self.shown = self.shown.and(&shown);
        shown
    }

    fn clock(&self) -> &T {
        self.clock
    }
}
