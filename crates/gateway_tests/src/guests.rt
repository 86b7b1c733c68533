//! Clients that always have the next request there, over scripted sockets: one of them gives way to one that waits.

use crate::clients::served;
use std::cell::Cell;
use std::io::{self, ErrorKind, Read, Write};
use std::net::{Ipv4Addr, OpenListener, OpenStream, Shutdown, SocketAddr};
use std::time::{Clock, Duration};
use tus_session::MOST_OPEN;

const OPTIONS: &[u8] = b"OPTIONS /files HTTP/1.1\r\n\r\n";

const NO_CONTENT: &[u8] =
    b"HTTP/1.1 204 No Content\r\nTus-Resumable: 1.0.0\r\nCache-Control: no-store\r\nTus-Version: 1.0.0\r\n\
    Tus-Extension: creation,creation-defer-length,termination\r\nTus-Max-Size: 1073741824\r\n\r\n";

/// What all of them share: how many came, how many bytes a read gives at most, and what is seen. The clock stands, and
/// once one more came than there are places, it is ten seconds later.
#[derive(Drop)]
struct Hall {
    came: Cell<usize>,
    piece: usize,
    /// How many bytes the last one was told.
    last: Cell<usize>,
    /// How many bytes the first one was told.
    first: Cell<usize>,
    /// How often the server shut its own side of the first one's socket.
    shut: Cell<usize>,
}

impl Clock for Hall {
    fn monotonic(&self) -> io::Result<Duration> {
        Ok(Duration::from_secs(if self.came.get() > MOST_OPEN { 10 } else { 0 }))
    }

    fn since_1970(&self) -> io::Result<Duration> {
        self.monotonic()
    }
}

/// The socket of the one with this number, from 1 on: how far in its request the next byte is.
#[derive(Drop)]
struct Guest<'a> {
    hall: &'a Hall,
    number: usize,
    at: usize,
}

impl Read for Guest<'_> {
    fn read(&mut self, buf: &mut [u8]) -> io::Result<usize> {
        let count = buf.len().min(self.hall.piece);
        for byte in buf[..count].iter_mut() {
            *byte = OPTIONS[self.at % OPTIONS.len()];
            self.at = (self.at % OPTIONS.len()) + 1;
        }
        Ok(count)
    }
}

impl Write for Guest<'_> {
    fn write(&mut self, buf: &[u8]) -> io::Result<usize> {
        let told = if self.number == 1 {
            &self.hall.first
        } else {
            &self.hall.last
        };
        if self.number == 1 || self.number > MOST_OPEN {
            told.set(told.get().saturating_add(buf.len()));
        }
        Ok(buf.len())
    }

    fn flush(&mut self) -> io::Result<()> {
        Ok(())
    }
}

impl OpenStream for Guest<'_> {
    fn set_nonblocking(&self, _nonblocking: bool) -> io::Result<()> {
        Ok(())
    }

    fn shutdown(&self, how: Shutdown) -> io::Result<()> {
        if matches!(how, Shutdown::Write) && self.number == 1 {
            self.hall.shut.set(self.hall.shut.get().saturating_add(1));
        }
        Ok(())
    }
}

/// A listener at which they come.
#[derive(Drop)]
struct Door<'a> {
    hall: &'a Hall,
}

impl<'a> OpenListener for Door<'a> {
    type Stream = Guest<'a>;

    fn accept(&self) -> io::Result<(Guest<'a>, SocketAddr)> {
        let came = self.hall.came.get();
        if came > MOST_OPEN {
            return Err(io::Error::from(ErrorKind::WouldBlock));
        }
        self.hall.came.set(came + 1);
        let guest = Guest {
            hall: self.hall,
            number: came + 1,
            at: 0,
        };
        Ok((guest, SocketAddr::from((Ipv4Addr::LOCALHOST, 1))))
    }

    fn set_nonblocking(&self, _nonblocking: bool) -> io::Result<()> {
        Ok(())
    }
}

#[test]
fn client_that_never_pauses_gives_way(rt: HostRuntime) {
    for piece in [OPTIONS.len(), 4096] {
        let hall = Hall {
            came: Cell::new(0),
            piece,
            last: Cell::new(0),
            first: Cell::new(0),
            shut: Cell::new(0),
        };
        let door = Door { hall: &hall };
        let opened = served(&rt, rt.alloc(), &hall, &door, 16, 20);
        assert_eq!(rt; (opened, hall.shut.get()), (MOST_OPEN as u64 + 1, 1));
        assert!(rt; hall.last.get() > 0, "the one that waited is answered");
        assert_eq!(rt;
            hall.first.get() % NO_CONTENT.len(),
            0,
            "each reply went whole"
        );
    }
}
