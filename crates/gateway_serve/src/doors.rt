//! The clients that a listener gives.
ghost use Rattle.std.specs.Prelude.{◌≡◌, ◌<◌, ◌+◌, ◌^◌, ℕ, List, Bool, is_some, None};
ghost use Rattle.gateway_serve.specs.Acceptors.{LetsInBy, TakesTurn, done_of, done_with, waits_in};

use crate::acceptors::{Acceptor, Arrival};
use crate::idle::Pace;
use crate::sockets::Untouched;
use common::Trace;
use std::time::Duration;

/// What became of the clients that a listener gave.
#[derive(Clone, Copy, Debug, PartialEq, Eq, Drop)]
pub struct Clients {
    /// How many got a connection.
    pub opened: u64,
    /// How many were refused one by the session: their sockets were closed.
    pub refused: u64,
    /// In how many turns the listener wasn't asked, since a client waited for a place.
    pub waits: u64,
}

/// What was done for the clients of a listener. Only clauses read it.
#[derive(Clone, Copy, Debug, PartialEq, Eq, Drop)]
pub enum AtDoor {
    /// A turn in which the listener was asked: whether it gave a client.
    Asked(bool),
    /// A turn that passed the listener over.
    Passed,
    /// A turn in which the listener wasn't asked, since a client waited for a place.
    Waited,
    /// The client who waited got a connection, or was refused one.
    LetIn,
}

/// Where clients come in, one at a time.
#[derive(Drop)]
pub(crate) struct Door<S> {
    pub(crate) clients: Clients,
    pub(crate) done: Trace<AtDoor>,
    /// how often the listener is asked
    pace: Pace,
    /// the latest client, while it waits for a place
    waiting: Option<Untouched<S>>,
}

impl<S: Drop> Door<S> {
    /// Nobody came yet.
    pub(crate) fn new(now: Duration) -> Self
        ensures clients { (before : List Bool) → LetsInBy before before 0 result }
        ensures opened { result.clients.opened ≡ 0 }
        ensures refused { result.clients.refused ≡ 0 }
    {
        let pace = Pace::new(now);
        Door {
            clients: Clients {
                opened: 0,
                refused: 0,
                waits: 0,
            },
            done: Trace::new(),
            pace,
            waiting: None,
        }
    }

    /// The listener's turn, after a turn that did something or not. Where no client waits it is asked for one, unless
    /// it is passed over.
    pub(crate) fn ask<A: Acceptor<Stream = S>>(
        &mut self,
        acceptor: &mut A,
        busy: bool,
        now: Duration,
    )
        requires { self.old.clients.waits + 1 < 2 ^ 64 }
        ensures clients { (before : List Bool) (turns : ℕ) → LetsInBy before (A.answers acceptor.old) turns self.old
            → LetsInBy before (A.answers acceptor.new) (turns + 1) self.new }
        ensures turn { TakesTurn (waits_in (done_of self.old)) self.new }
        ensures opened { self.new.clients.opened ≡ self.old.clients.opened }
        ensures refused { self.new.clients.refused ≡ self.old.clients.refused }
    {
        if self.waiting.is_some() {
            self.clients.waits += 1;
            self.done = self.done.and(&AtDoor::Waited);
        } else if self.pace.is_due(busy, now) {
            let client = acceptor.accept();
            self.pace.asked(client.is_some(), now);
            self.done = self.done.and(&AtDoor::Asked(client.is_some()));
            if let Some(Arrival { stream, address: _ }) = client {
                self.waiting = Some(Untouched::of(stream));
            }
        } else {
            self.done = self.done.and(&AtDoor::Passed);
        }
    }

    /// Whether a client waits.
    pub(crate) fn waits(&self) -> bool
        ensures { result ≡ is_some self.now.waiting }
    {
        self.waiting.is_some()
    }

    /// The client that waits, who is let in now: it waits no more.
    pub(crate) fn let_in(&mut self) -> Option<Untouched<S>>
        ensures client { result ≡ self.old.waiting }
        ensures none { self.new.waiting ≡ None }
        ensures done { done_of self.new ≡ done_with result (done_of self.old) }
        ensures clients { self.new.clients ≡ self.old.clients }
        ensures pace { self.new.pace ≡ self.old.pace }
    {
        let client = self.waiting.take()?;
        self.done = self.done.and(&AtDoor::LetIn);
        Some(client)
    }
}
