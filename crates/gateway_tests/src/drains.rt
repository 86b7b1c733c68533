//! A connection that the session closes drains, over a scripted socket.

use crate::clients::{Steps, served};
use std::cell::Cell;
use std::io::{self, ErrorKind, Read, Write};
use std::net::{Ipv4Addr, OpenListener, OpenStream, Shutdown, SocketAddr};

const NOT_HTTP: &[u8] = b"BAD\r\n\r\n";

const MALFORMED: &[u8] =
    b"HTTP/1.1 400 Bad Request\r\nTus-Resumable: 1.0.0\r\nCache-Control: no-store\r\n\
X-Refusal: 18\r\nContent-Length: 0\r\nConnection: close\r\n\r\n";

/// A client that sends what is no request, and then some bytes more, whatever it is told. What is seen of it: how many
/// of these the server left, how many bytes it was told, and how often the server shut its own side.
#[derive(Drop)]
struct Talker {
    connected: Cell<bool>,
    head: Cell<&'static [u8]>,
    left: Cell<usize>,
    told: Cell<usize>,
    shut: Cell<usize>,
}

impl Talker {
    /// It has so many bytes to send behind its head.
    fn new(left: usize) -> Self {
        Talker {
            connected: Cell::new(false),
            head: Cell::new(NOT_HTTP),
            left: Cell::new(left),
            told: Cell::new(0),
            shut: Cell::new(0),
        }
    }
}

/// Its socket.
#[derive(Drop)]
struct Socket<'a> {
    talker: &'a Talker,
}

impl Read for Socket<'_> {
    fn read(&mut self, buf: &mut [u8]) -> io::Result<usize> {
        let head = self.talker.head.get();
        if head.is_empty() {
            let count = self.talker.left.get().min(buf.len());
            buf[..count].fill(b'x');
            self.talker
                .left
                .set(self.talker.left.get().saturating_sub(count));
            return Ok(count);
        }
        let count = head.len().min(buf.len());
        buf[..count].copy_from_slice(&head[..count]);
        self.talker.head.set(&head[count..]);
        Ok(count)
    }
}

impl Write for Socket<'_> {
    fn write(&mut self, buf: &[u8]) -> io::Result<usize> {
        self.talker
            .told
            .set(self.talker.told.get().saturating_add(buf.len()));
        Ok(buf.len())
    }

    fn flush(&mut self) -> io::Result<()> {
        Ok(())
    }
}

impl OpenStream for Socket<'_> {
    fn set_nonblocking(&self, _nonblocking: bool) -> io::Result<()> {
        Ok(())
    }

    fn shutdown(&self, how: Shutdown) -> io::Result<()> {
        if matches!(how, Shutdown::Write) {
            self.talker
                .shut
                .set(self.talker.shut.get().saturating_add(1));
        }
        Ok(())
    }
}

/// A listener at which it connects, once. Then it fails so.
#[derive(Drop)]
struct Door<'a> {
    talker: &'a Talker,
    then: ErrorKind,
}

impl<'a> OpenListener for Door<'a> {
    type Stream = Socket<'a>;

    fn accept(&self) -> io::Result<(Socket<'a>, SocketAddr)> {
        if self.talker.connected.replace(true) {
            return Err(io::Error::from(self.then));
        }
        let socket = Socket {
            talker: self.talker,
        };
        Ok((socket, SocketAddr::from((Ipv4Addr::LOCALHOST, 1))))
    }

    fn set_nonblocking(&self, _nonblocking: bool) -> io::Result<()> {
        Ok(())
    }
}

#[test]
fn closed_connection_is_read_to_its_end(rt: HostRuntime) {
    let talker = Talker::new(100_000);
    let door = Door {
        talker: &talker,
        then: ErrorKind::WouldBlock,
    };
    served(&rt, rt.alloc(), &Steps::new(1000), &door, 16, 60);
    assert_eq!(rt;
        (talker.told.get(), talker.shut.get(), talker.left.get()),
        (MALFORMED.len(), 1, 0)
    );
}

/// Each row: how the listener fails, the microseconds between two readings of the clock, and how many pieces of 16,384
/// bytes are dropped at most of a client that never stops: those of a minute, or of two turns.
const ENDLESS: [(ErrorKind, u64, usize); 2] = [
    (ErrorKind::WouldBlock, 1_000_000, 60),
    (ErrorKind::Other, 1000, 2),
];

/// More bytes than are dropped in a minute.
const ALL: usize = 1_000_000_000;

#[test]
fn drain_ends(rt: HostRuntime) {
    for (then, step, most) in ENDLESS.iter() {
        let talker = Talker::new(ALL);
        let door = Door {
            talker: &talker,
            then: *then,
        };
        served(&rt, rt.alloc(), &Steps::new(*step), &door, 16, 200);
        let dropped = ALL.saturating_sub(talker.left.get());
        let most = most.saturating_mul(16_384);
        assert!(rt; dropped > 0 && dropped <= most, "{dropped} bytes");
        assert_eq!(rt; talker.shut.get(), 1);
    }
}
