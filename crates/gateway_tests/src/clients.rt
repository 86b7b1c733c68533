//! Scripted clients, and a clock that advances at each reading. No real socket or time is used.

use crate::spools::opened;
use crate::talks::fresh;
use gateway_serve::{Listening, Outcome, Showing, serve_on};
use std::alloc::Global;
use std::cell::Cell;
use std::io::{self, ErrorKind, Read, Write};
use std::net::{Ipv4Addr, OpenListener, OpenStream, SocketAddr};
use std::process::Abort;
use std::time::{Clock, Duration};
use tus_session::MOST_OPEN;

/// A client's behaviour.
#[derive(Clone, Copy, Drop)]
pub(crate) struct Manner<'a> {
    /// The bytes that it sends first.
    pub(crate) sends: &'a [u8],
    /// The bytes that it sends at every second read after them.
    pub(crate) goes_on: &'a [u8],
    /// How many bytes it accepts before it pauses.
    pub(crate) takes: usize,
    /// For how many writes it pauses. After the pause it accepts everything.
    pub(crate) pauses: u32,
}

/// A client as the server's socket shows it. `replied` counts the bytes that it accepted.
#[derive(Drop)]
pub(crate) struct Client<'a> {
    manner: Manner<'a>,
    replied: &'a Cell<usize>,
}

impl Read for Client<'_> {
    fn read(&mut self, buf: &mut [u8]) -> io::Result<usize> {
        let sends = self.manner.sends;
        let count = sends.len().min(buf.len());
        if count == 0 {
            self.manner.sends = self.manner.goes_on;
            return Err(io::Error::from(ErrorKind::WouldBlock));
        }
        buf[..count].copy_from_slice(&sends[..count]);
        self.manner.sends = &sends[count..];
        Ok(count)
    }
}

impl Write for Client<'_> {
    fn write(&mut self, buf: &[u8]) -> io::Result<usize> {
        let manner = &mut self.manner;
        if manner.takes == 0 && manner.pauses > 0 {
            manner.pauses -= 1;
            return Err(io::Error::from(ErrorKind::WouldBlock));
        }
        let count = if manner.pauses > 0 {
            manner.takes.min(buf.len())
        } else {
            buf.len()
        };
        manner.takes = manner.takes.saturating_sub(count);
        self.replied.set(self.replied.get().saturating_add(count));
        Ok(count)
    }

    fn flush(&mut self) -> io::Result<()> {
        Ok(())
    }
}

impl OpenStream for Client<'_> {
    fn set_nonblocking(&self, _nonblocking: bool) -> io::Result<()> {
        Ok(())
    }
}

/// Clients that connect one after the other: the first one, others, and the last one. `left` counts those that are
/// still to come. Clients are numbered downwards: the first one is number `all`, and the last one is number 1. The
/// bytes that the client `watched` accepts are counted in `replied`, and those of all others in `rest`.
#[derive(Drop)]
pub(crate) struct Clients<'a> {
    pub(crate) left: Cell<usize>,
    pub(crate) all: usize,
    pub(crate) first: Manner<'a>,
    pub(crate) others: Manner<'a>,
    pub(crate) last: Manner<'a>,
    pub(crate) watched: usize,
    pub(crate) replied: &'a Cell<usize>,
    pub(crate) rest: &'a Cell<usize>,
}

impl<'a> OpenListener for Clients<'a> {
    type Stream = Client<'a>;

    fn accept(&self) -> io::Result<(Client<'a>, SocketAddr)> {
        let left = self.left.get();
        if left == 0 {
            return Err(io::Error::from(ErrorKind::WouldBlock));
        }
        self.left.set(left - 1);
        let manner = if left == self.all {
            self.first
        } else if left == 1 {
            self.last
        } else {
            self.others
        };
        let client = Client {
            manner,
            replied: if left == self.watched {
                self.replied
            } else {
                self.rest
            },
        };
        Ok((client, SocketAddr::from((Ipv4Addr::LOCALHOST, 1))))
    }

    fn set_nonblocking(&self, _nonblocking: bool) -> io::Result<()> {
        Ok(())
    }
}

/// A clock that advances by `step` microseconds at each reading, and counts the sleeps and their total time.
#[derive(Drop)]
pub(crate) struct Steps {
    step: u64,
    now: Cell<u64>,
    rests: Cell<u32>,
    rested: Cell<Duration>,
}

impl Steps {
    pub(crate) fn new(step: u64) -> Self {
        Steps {
            step,
            now: Cell::new(0),
            rests: Cell::new(0),
            rested: Cell::new(Duration::ZERO),
        }
    }

    /// How often the server slept, and for how long in all.
    pub(crate) fn rests(&self) -> (u32, Duration) {
        (self.rests.get(), self.rested.get())
    }
}

impl Clock for Steps {
    fn monotonic(&self) -> io::Result<Duration> {
        let now = self.now.get();
        self.now.set(now.saturating_add(self.step));
        Ok(Duration::from_micros(now))
    }

    fn since_1970(&self) -> io::Result<Duration> {
        self.monotonic()
    }

    fn sleep(&self, duration: Duration) {
        self.rests.set(self.rests.get().saturating_add(1));
        self.rested.set(self.rested.get().saturating_add(duration));
    }
}

/// Serves `clients` over a new spool of `blocks` blocks for `turns` turns, and returns how many connections were
/// closed. No test reaches the limit of `MOST_OPEN + 2` connections.
pub(crate) fn served<L: OpenListener, T: Clock>(
    rt: &impl Abort,
    alloc: Global,
    clock: &T,
    clients: &L,
    blocks: u32,
    turns: u64,
) -> u64
where
    L::Stream: Read + Write + OpenStream + Drop,
{
    let gateway = opened(rt, alloc, fresh(rt, alloc, blocks, None));
    let mut clock = Showing::new(clock);
    let mut acceptor = Listening::new(clients);
    let Outcome {
        gateway,
        served,
        clients,
        door: _,
        times: _,
        ended: _,
        drained: _,
    } = serve_on(
        &mut clock,
        alloc,
        &mut acceptor,
        gateway,
        MOST_OPEN as u64 + 2,
        turns,
    );
    assert!(rt; served.is_ok());
    drop(gateway.into_disk());
    clients.opened
}
