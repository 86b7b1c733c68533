//! Listeners that are asked for clients.
ghost use Rattle.std.specs.Prelude.{◌≡◌, [], ◌∷◌, List, Bool, is_some};

use common::Trace;
use std::io::{self, ErrorKind};
use std::mem;
use std::net::{OpenListener, OpenStream, SocketAddr};

/// A client that connected.
#[derive(Drop)]
pub struct Arrival<S> {
    /// Its stream.
    pub stream: S,
    /// Where it connected from.
    pub address: SocketAddr,
}

/// A listener that is asked for clients, one at a time, and never waits for one. Its ghost record has each answer.
pub trait Acceptor {
    /// The stream of a client. Its reads and writes don't wait.
    type Stream;

    /// Whether each call of `accept` gave a client, the latest first.
    ghost answers: { Self → List Bool };

    /// A client that connected. `None` where there is none, and where accepting failed.
    fn accept(&mut self) -> Option<Arrival<Self::Stream>>
        ensures { answers self.new ≡ is_some result ∷ answers self.old };

    /// Whether the latest call of `accept` failed, as it does where no more files may be open: a client may be there
    /// nevertheless. That is told once.
    fn take_failure(&mut self) -> bool
        ensures { answers self.new ≡ answers self.old };
}

/// A listener of the operating system, or one in its place. That each call of `accept` makes one of the inner
/// listener, and answers what that gave, is trusted and not proved, since no contract of the kit states what a listener
/// gives.
#[derive(Drop)]
pub struct Listening<'a, L> {
    listener: &'a L,
    /// whether it could be made not to wait
    asks: bool,
    /// whether the latest call failed
    failed: bool,
    answers: Trace<bool>,
}

impl<'a, L: OpenListener> Listening<'a, L> {
    ghost use Rattle.gateway_serve.specs.Acceptors.{answers_of};

    /// A listener that was asked nothing so far. It is made not to wait; one that can't be is never asked.
    pub fn new(listener: &'a L) -> Self
        ensures { answers_of result ≡ [] }
    {
        Listening {
            listener,
            asks: listener.set_nonblocking(true).is_ok(),
            failed: false,
            answers: Trace::new(),
        }
    }
}

impl<L: OpenListener> Listening<'_, L>
where
    L::Stream: OpenStream,
{
    // The next client: one call of the listener. A stream that can't be made not to wait is closed. So whatever is put
    // round a stream later needn't be asked for that.
    fn next(&self) -> io::Result<Arrival<L::Stream>> {
        if !self.asks {
            return Err(io::Error::from(ErrorKind::WouldBlock));
        }
        let (stream, address) = self.listener.accept()?;
        stream.set_nonblocking(true)?;
        Ok(Arrival { stream, address })
    }
}

impl<L: OpenListener> Acceptor for Listening<'_, L>
where
    L::Stream: OpenStream,
{
    type Stream = L::Stream;

    ghost use Rattle.gateway_serve.specs.Acceptors.{answers_of};

    ghost answers = { answers_of };

    fn accept(&mut self) -> Option<Arrival<L::Stream>> {
        let next = self.next();
        self.failed = next
            .as_ref()
            .is_err_and(|error| error.kind() != ErrorKind::WouldBlock);
        let client = next.ok();
        self.answers = self.answers.and(&client.is_some());
        client
    }

    fn take_failure(&mut self) -> bool {
        mem::replace(&mut self.failed, false)
    }
}
