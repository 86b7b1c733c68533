//! Streams whose traffic is logged.

use crate::writing::Log;
use std::io::{self, Read, Write};
use std::net::{OpenStream, Shutdown, SocketAddr};
use std::time::Clock;

/// The end of a stream: dropping it tells the log.
struct Watch<'a, T: Clock, W: Write + Drop> {
    log: &'a Log<'a, T, W>,
    /// The client's number.
    client: u64,
}

impl<T: Clock, W: Write + Drop> Drop for Watch<'_, T, W> {
    fn drop(self) {
        let Watch { log, client } = self;
        log.hung_up(client);
    }
}

/// A stream that is read and written as the inner one. Its bytes are counted, and the log is told what was sent.
#[derive(Drop)]
pub struct LoggedStream<'a, S, T: Clock, W: Write + Drop> {
    stream: S,
    watch: Watch<'a, T, W>,
}

impl<'a, S, T: Clock, W: Write + Drop> LoggedStream<'a, S, T, W> {
    /// The stream of a client that was just accepted from this address: from now on the log has it. Whether its reads
    /// and writes wait is settled by then: nothing asks that of it.
    pub fn new(stream: S, log: &'a Log<'a, T, W>, address: SocketAddr) -> Self {
        let client = log.accept(address);
        let watch = Watch { log, client };
        LoggedStream { stream, watch }
    }
}

impl<S: Read, T: Clock, W: Write + Drop> Read for LoggedStream<'_, S, T, W> {
    ghost remaining = { λ logged. S.remaining logged.stream };

    fn read(&mut self, buf: &mut [u8]) -> io::Result<usize> {
        let read = self.stream.read(buf);
        self.watch.log.turn_if_late();
        self.watch.log.count_in(read?);
        read
    }
}

impl<S: Write, T: Clock, W: Write + Drop> Write for LoggedStream<'_, S, T, W> {
    ghost contents = { λ logged. S.contents logged.stream };

    fn write(&mut self, buf: &[u8]) -> io::Result<usize> {
        let written = self.stream.write(buf);
        self.watch.log.turn_if_late();
        self.watch.log.sent(self.watch.client, written?);
        written
    }

    fn flush(&mut self) -> io::Result<()> {
        self.stream.flush()
    }
}

// What a server needs once a connection is closed, and nothing else.
impl<S: OpenStream, T: Clock, W: Write + Drop> OpenStream for LoggedStream<'_, S, T, W> {
    fn shutdown(&self, how: Shutdown) -> io::Result<()> {
        self.stream.shutdown(how)
    }
}
