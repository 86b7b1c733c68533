//! Listeners whose clients are logged.
ghost use Rattle.std.specs.Prelude.{◌≡◌};
ghost use Rattle.gateway_up.specs.Logged.{acceptor_logged};

use gateway_log::{Log, LoggedStream};
use gateway_serve::{Acceptor, Arrival};
use std::io::Write;
use std::time::Clock;

/// A listener that gives the clients of another one, and counts the bytes of each stream for the log. The log is
/// written when a client is asked for, and once a second when a stream is read or written.
#[derive(Drop)]
pub struct Logged<'a, A, T: Clock, W: Write + Drop> {
    acceptor: A,
    log: &'a Log<'a, T, W>,
}

impl<'a, A, T: Clock, W: Write + Drop> Logged<'a, A, T, W> {
    /// A listener and its log.
    pub fn new(acceptor: A, log: &'a Log<'a, T, W>) -> Self
        ensures { acceptor_logged result ≡ acceptor }
    {
        Logged { acceptor, log }
    }
}

impl<'a, A: Acceptor, T: Clock, W: Write + Drop> Acceptor for Logged<'a, A, T, W> {
    type Stream = LoggedStream<'a, A::Stream, T, W>;

    ghost answers = { λ logged. A.answers (acceptor_logged logged) };

    fn accept(&mut self) -> Option<Arrival<LoggedStream<'a, A::Stream, T, W>>> {
        self.log.turn();
        let Arrival { stream, address } = self.acceptor.accept()?;
        let stream = LoggedStream::new(stream, self.log, address);
        Some(Arrival { stream, address })
    }

    fn take_failure(&mut self) -> bool {
        let failed = self.acceptor.take_failure();
        if failed {
            self.log.count_unaccepted();
        }
        failed
    }
}
