//! The lines that a log writes for what clients send to a gateway over uploads in memory.

use enc_index::IndexSet;
use gateway_engine::Gateway;
use gateway_log::{Log, LoggedStream, Stock};
use gateway_up::Watched;
use std::alloc::Global;
use std::cell::Cell;
use std::io::{self, Read, Write};
use std::net::{Ipv4Addr, OpenStream, Shutdown, SocketAddr};
use std::process::Abort;
use std::time::{Clock, Duration};
use tus_session::Connections;
use upload_rules::{Table, Uploads};

/// A client: what it is still to send, in pieces of so many bytes, and how many bytes its socket takes.
#[derive(Drop)]
struct Peer {
    sends: Cell<&'static [u8]>,
    size: usize,
    room: Cell<usize>,
}

/// The stream of a client, a socket that doesn't block.
#[derive(Drop)]
struct Wire<'a> {
    peer: &'a Peer,
}

impl Read for Wire<'_> {
    fn read(&mut self, buf: &mut [u8]) -> io::Result<usize> {
        let sends = self.peer.sends.get();
        if sends.is_empty() {
            return Err(io::Error::from(io::ErrorKind::WouldBlock));
        }
        let count = sends.len().min(buf.len()).min(self.peer.size);
        buf[..count].copy_from_slice(&sends[..count]);
        self.peer.sends.set(&sends[count..]);
        Ok(count)
    }
}

impl Write for Wire<'_> {
    fn write(&mut self, buf: &[u8]) -> io::Result<usize> {
        let room = self.peer.room.get();
        let count = buf.len().min(room);
        self.peer.room.set(room.saturating_sub(count));
        Ok(count)
    }

    fn flush(&mut self) -> io::Result<()> {
        Ok(())
    }
}

impl OpenStream for Wire<'_> {
    fn shutdown(&self, _how: Shutdown) -> io::Result<()> {
        Ok(())
    }
}

/// The address of each client.
fn port_seven() -> SocketAddr {
    SocketAddr::from((Ipv4Addr::LOCALHOST, 7))
}

/// A clock that is set by hand. The time of day doesn't change.
#[derive(Drop)]
struct Millis {
    now: Cell<u64>,
}

impl Millis {
    fn advance(&self, millis: u64) {
        self.now.set(self.now.get().saturating_add(millis));
    }
}

impl Clock for Millis {
    fn monotonic(&self) -> io::Result<Duration> {
        Ok(Duration::from_millis(self.now.get()))
    }

    fn since_1970(&self) -> io::Result<Duration> {
        Ok(Duration::from_millis(1_700_000_000_123))
    }
}

/// A writer that appends to the bytes in a cell.
#[derive(Drop)]
struct Paper<'a> {
    alloc: Global,
    written: &'a Cell<Vec<u8>>,
}

impl Write for Paper<'_> {
    fn write(&mut self, buf: &[u8]) -> io::Result<usize> {
        let mut written = self.written.replace(Vec::new(self.alloc));
        let taken = written.extend_from_slice(buf);
        self.written.set(written);
        taken?;
        Ok(buf.len())
    }

    fn flush(&mut self) -> io::Result<()> {
        Ok(())
    }
}

/// More blanks than a line of the log has bytes.
const BLANKS: [u8; 300] = [b' '; 300];

/// As many bytes as a head has at most.
const LONG: [u8; 8192] = [b'x'; 8192];

/// What a client sends, one after the other, how many bytes of the replies its socket takes, and the lines of the log
/// without the time at their start, and without what `STOCK` adds to the last one. A millisecond goes by before each is
/// sent and before the connection ends. There is an upload with the number 1, which has 3 of 6 bytes.
#[derive(Drop)]
struct Row {
    sends: &'static [&'static [u8]],
    room: usize,
    lines: &'static str,
}

const ROWS: [Row; 18] = [
    // no bytes
    Row {
        sends: &[],
        room: 9999,
        lines: "1 127.0.0.1:7 - - status=none in=0 out=0 ms=1\n\
        minute connections=1 requests=0 2xx=0 4xx=0 5xx=0 in=0 out=0 bodies=0\n",
    },
    // a body, an empty line before the head, and field names in any case
    Row {
        sends: &[
            b"\r\nPATCH /files/1 HTTP/1.1\r\ntus-resumable: 1.0.0\r\n\
            content-type: application/offset+octet-stream\r\nupload-offset: 3\r\nContent-Length: 3\r\n\r\n\
            abc",
        ],
        room: 9999,
        lines: "1 127.0.0.1:7 PATCH /files/1 offset=3 body=3 status=204 in=138 out=92 ms=0 now=6\n\
        minute connections=1 requests=1 2xx=1 4xx=0 5xx=0 in=138 out=92 bodies=0\n",
    },
    // a head whose lines end in LF alone
    Row {
        sends: &[b"HEAD /files/1 HTTP/1.1\nTus-Resumable: 1.0.0\n\n"],
        room: 9999,
        lines: "1 127.0.0.1:7 HEAD /files/1 status=200 in=45 out=102 ms=0 now=3/6\n\
        minute connections=1 requests=1 2xx=1 4xx=0 5xx=0 in=45 out=102 bodies=0\n",
    },
    // the body of a refused request isn't the next one
    Row {
        sends: &[
            b"PATCH /files/9 HTTP/1.1\r\nTus-Resumable: 1.0.0\r\n\
            Content-Type: application/offset+octet-stream\r\nUpload-Offset: 0\r\nContent-Length: 28\r\n\
            \r\n",
            b"DELETE /files/1 HTTP/1.1\r\n\r\n",
            b"HEAD /files/1 HTTP/1.1\r\nTus-Resumable: 1.0.0\r\n\r\n",
        ],
        room: 9999,
        lines: "1 127.0.0.1:7 PATCH /files/9 offset=0 body=28 status=404 refusal=8:NoSuch in=134 out=106 ms=0\n\
        1 127.0.0.1:7 HEAD /files/1 status=200 in=48 out=102 ms=0 now=3/6\n\
        minute connections=1 requests=2 2xx=1 4xx=1 5xx=0 in=210 out=208 bodies=0\n",
    },
    // three at once: an interim reply is no reply
    Row {
        sends: &[
            b"POST /files HTTP/1.1\r\nTus-Resumable: 1.0.0\r\nUpload-Length: 10\r\n\r\n\
            PATCH /files/2 HTTP/1.1\r\nTus-Resumable: 1.0.0\r\n\
            Content-Type: application/offset+octet-stream\r\nUpload-Offset: 0\r\nContent-Length: 3\r\n\
            Expect: 100-continue\r\n\r\n",
        ],
        room: 9999,
        lines: "1 127.0.0.1:7 POST /files length=10 status=201 in=65 out=110 ms=0 number=2\n\
        1 127.0.0.1:7 PATCH /files/2 offset=0 body=3 status=none in=155 out=25 ms=1 now=0/10\n\
        minute connections=1 requests=2 2xx=1 4xx=0 5xx=0 in=220 out=135 bodies=0\n",
    },
    // bytes that a terminal would interpret
    Row {
        sends: &[b"G\x1bT /a\\b\x07\xff HTTP/1.1\r\n\r\n"],
        room: 9999,
        lines: "1 127.0.0.1:7 G\\x1bT /a\\x5cb\\x07\\xff status=400 refusal=18:Malformed in=23 out=128 ms=0\n\
        minute connections=1 requests=1 2xx=0 4xx=1 5xx=0 in=23 out=128 bodies=0\n",
    },
    // a label that isn't known
    Row {
        sends: &[
            b"POST /files HTTP/1.1\r\nTus-Resumable: 1.0.0\r\nUpload-Length: 5\r\n\
            Upload-Metadata: from a2xpbmdvbg==\r\n\r\n",
        ],
        room: 9999,
        lines: "1 127.0.0.1:7 POST /files length=5 status=400 refusal=28:BadLabel \
        metadata=from\\x20a2xpbmdvbg== in=100 out=109 ms=0 from=klingon\n\
        minute connections=1 requests=1 2xx=0 4xx=1 5xx=0 in=100 out=109 bodies=0\n",
    },
    // labels and a mode in any order
    Row {
        sends: &[
            b"POST /files HTTP/1.1\r\nTus-Resumable: 1.0.0\r\nUpload-Length: 5\r\n\
            Upload-Metadata: to dXRm, from dXRmLTg=, mode aGFyZCB0aW1lcw==\r\n\r\n",
        ],
        room: 9999,
        lines: "1 127.0.0.1:7 POST /files length=5 status=400 refusal=28:BadLabel \
        metadata=to\\x20dXRm,\\x20from\\x20dXRmLTg=,\\x20mode\\x20aGFyZCB0aW1lcw== in=128 out=109 ms=0 \
        from=utf-8 to=utf mode=hard\\x20times\n\
        minute connections=1 requests=1 2xx=0 4xx=1 5xx=0 in=128 out=109 bodies=0\n",
    },
    // a text that is cut, and a head that is cut
    Row {
        sends: &[b"GET /files/1 HTTP/1.1\r\n\r\n", b"HEAD "],
        room: 100,
        lines: "1 127.0.0.1:7 GET /files/1 status=200 cut in=25 out=100 ms=2\n\
        1 127.0.0.1:7 HEAD - status=none in=5 out=0 ms=1\n\
        minute connections=1 requests=1 2xx=0 4xx=0 5xx=0 in=30 out=100 bodies=0\n",
    },
    // a head without an end
    Row {
        sends: &[b"GET /files/1 HTTP/1.1\r\nX: ", &LONG],
        room: 9999,
        lines: "1 127.0.0.1:7 GET /files/1 status=431 refusal=19:HeadTooLong in=8192 out=148 ms=1\n\
        minute connections=1 requests=1 2xx=0 4xx=1 5xx=0 in=8218 out=148 bodies=0\n",
    },
    // blanks before the length of a body whose bytes look like a request, and blanks after it
    Row {
        sends: &[
            b"PATCH /files/1 HTTP/1.1\r\nTus-Resumable: 1.0.0\r\n\
            Content-Type: application/offset+octet-stream\r\nUpload-Offset:\t3 \r\nContent-Length:",
            &BLANKS,
            b"3",
            &BLANKS,
            b"\r\n\r\nG\n\n",
            b"HEAD /files/1 HTTP/1.1\r\nTus-Resumable: 1.0.0\r\n\r\n",
        ],
        room: 9999,
        lines: "1 127.0.0.1:7 PATCH /files/1 offset=3 body=3 status=204 in=736 out=92 ms=4 now=6\n\
        1 127.0.0.1:7 HEAD /files/1 status=200 in=48 out=102 ms=0 now=6/6\n\
        minute connections=1 requests=2 2xx=2 4xx=0 5xx=0 in=784 out=194 bodies=0\n",
    },
    // a path that is none
    Row {
        sends: &[b"GET /a: b HTTP/1.1\r\n\r\n"],
        room: 9999,
        lines: "1 127.0.0.1:7 GET /a: status=400 refusal=18:Malformed in=22 out=128 ms=0\n\
        minute connections=1 requests=1 2xx=0 4xx=1 5xx=0 in=22 out=128 bodies=0\n",
    },
    // lengths that the gateway refuses: a sign, and 19 digits
    Row {
        sends: &[
            b"POST /files HTTP/1.1\r\nTus-Resumable: 1.0.0\r\nUpload-Length: +5\r\nContent-Length: +3\r\n\r\n",
        ],
        room: 9999,
        lines: "1 127.0.0.1:7 POST /files status=400 refusal=21:BadLength in=85 out=128 ms=0\n\
        minute connections=1 requests=1 2xx=0 4xx=1 5xx=0 in=85 out=128 bodies=0\n",
    },
    Row {
        sends: &[
            b"POST /files HTTP/1.1\r\nTus-Resumable: 1.0.0\r\nContent-Length: 0000000000000000003\r\n\r\n",
        ],
        room: 9999,
        lines: "1 127.0.0.1:7 POST /files status=400 refusal=21:BadLength in=83 out=128 ms=0\n\
        minute connections=1 requests=1 2xx=0 4xx=1 5xx=0 in=83 out=128 bodies=0\n",
    },
    // new uploads
    Row {
        sends: &[
            b"POST /files HTTP/1.1\r\nTus-Resumable: 1.0.0\r\nUpload-Length: 10\r\n\r\n",
            b"POST /files HTTP/1.1\r\nTus-Resumable: 1.0.0\r\nUpload-Defer-Length: 1\r\n\r\n",
            b"HEAD /files/3 HTTP/1.1\r\nTus-Resumable: 1.0.0\r\n\r\n",
        ],
        room: 9999,
        lines: "1 127.0.0.1:7 POST /files length=10 status=201 in=65 out=110 ms=0 number=2\n\
        1 127.0.0.1:7 POST /files status=201 in=70 out=110 ms=0 number=3\n\
        1 127.0.0.1:7 HEAD /files/3 status=200 in=48 out=108 ms=0 now=0\n\
        minute connections=1 requests=3 2xx=3 4xx=0 5xx=0 in=183 out=328 bodies=0\n",
    },
    // another method counts than that of the first line: the first one that a field gives
    Row {
        sends: &[
            b"POST /files/1 HTTP/1.1\r\nTus-Resumable: 1.0.0\r\nX-HTTP-Method-Override: DELETE\r\n\
            x-http-method-override: HEAD\r\n\r\n",
            b"GET /files/2 HTTP/1.1\r\nX-HTTP-Method-Override:  \r\n\r\n",
        ],
        room: 9999,
        lines: "1 127.0.0.1:7 DELETE /files/1 by=POST status=204 in=110 out=74 ms=0\n\
        1 127.0.0.1:7 - /files/2 by=GET status=412 refusal=22:TusVersion in=52 out=137 ms=0\n\
        minute connections=1 requests=2 2xx=1 4xx=1 5xx=0 in=162 out=211 bodies=0\n",
    },
    // a body that is cut, whose upload has what came, also where its path has a query; and a reply of which nothing
    // could be sent
    Row {
        sends: &[
            b"PATCH /files/1?tok=1 HTTP/1.1\r\nTus-Resumable: 1.0.0\r\n\
            Content-Type: application/offset+octet-stream\r\nUpload-Offset: 3\r\nContent-Length: 3\r\n\r\n\
            ab",
        ],
        room: 9999,
        lines: "1 127.0.0.1:7 PATCH /files/1?tok=1 offset=3 body=3 status=none in=141 out=0 ms=1 now=5/6\n\
        minute connections=1 requests=1 2xx=0 4xx=0 5xx=0 in=141 out=0 bodies=0\n",
    },
    Row {
        sends: &[b"DELETE /files/1 HTTP/1.1\r\nTus-Resumable: 1.0.0\r\n\r\n"],
        room: 0,
        lines: "1 127.0.0.1:7 DELETE /files/1 status=204 cut in=50 out=0 ms=1\n\
        minute connections=1 requests=1 2xx=0 4xx=0 5xx=0 in=50 out=0 bodies=0\n",
    },
];

const POST: &[u8] = b"POST /files HTTP/1.1\r\nTus-Resumable: 1.0.0\r\nUpload-Length: 6\r\n\r\n";

const PATCH: &[u8] =
    b"PATCH /files/1 HTTP/1.1\r\nTus-Resumable: 1.0.0\r\nUpload-Offset: 0\r\nContent-Length: 3\r\n\
    Content-Type: application/offset+octet-stream\r\n\r\nabc";

const HEAD: &[u8] = b"HEAD /files/1 HTTP/1.1\r\nTus-Resumable: 1.0.0\r\n\r\n";
/// A body that is cut.
const CUT: &[u8] =
    b"PATCH /files/1 HTTP/1.1\r\nTus-Resumable: 1.0.0\r\nUpload-Offset: 3\r\nContent-Length: 3\r\n\
    Content-Type: application/offset+octet-stream\r\n\r\nde";

/// What is left in the spool, of eight blocks, while its only upload is that one.
const STOCK: Stock = Stock {
    free_blocks: 7,
    free_slots: 511,
    incomplete: 1,
};

/// A gateway over uploads in memory whose calls are logged, and what it gave that isn't written yet.
struct Served<'a, T: Clock, L: Write + Drop> {
    gateway: Watched<'a, Table, T, L>,
    out: Vec<u8>,
}

impl<'a, T: Clock, L: Write + Drop> Served<'a, T, L> {
    /// With one upload, of 6 bytes, of which 3 came, and a connection, of which the log is told.
    fn new(rt: &impl Abort, alloc: Global, log: &'a Log<'a, T, L>) -> Self {
        let store = Table::new(alloc, IndexSet::new(alloc).expect(rt, "memory for a set"));
        let opened = Gateway::new(alloc, store);
        let mut gateway = opened.ok().expect(rt, "memory");
        gateway.opened(0).expect(rt, "a place");
        let mut out = Vec::new(alloc);
        for request in [POST, PATCH] {
            let answer = gateway.came(0, request, &mut out).expect(rt, "memory");
            assert_eq!(rt; answer.taken, request.len());
        }
        gateway.ended(0).expect(rt, "memory");
        out.clear();
        let mut gateway = Watched::new(gateway, 8, log);
        gateway.opened(0).expect(rt, "a place");
        Served { gateway, out }
    }

    /// Takes bytes of the client, and writes the replies as far as its socket takes them.
    fn take<W: Write>(&mut self, rt: &impl Abort, bytes: &[u8], stream: &mut W) {
        let mut rest = bytes;
        for _ in 0..bytes.len() {
            let Ok(answer) = self.gateway.came(0, rest, &mut self.out) else {
                return;
            };
            rest = rest.get(answer.taken..).unwrap_or(&[]);
            self.give(stream, answer.more);
            if rest.is_empty() {
                return;
            }
        }
        assert!(rt; bytes.is_empty(), "each call takes a byte");
    }

    // Writes what was given, and asks for the rest of a text.
    fn give<W: Write>(&mut self, stream: &mut W, more: bool) {
        self.write(stream);
        if !more || !self.out.is_empty() {
            return;
        }
        if self.gateway.more(0, &mut self.out).is_ok() {
            self.write(stream);
        }
    }

    // Writes as much as the socket takes.
    fn write<W: Write>(&mut self, stream: &mut W) {
        if let Ok(count) = stream.write(&self.out) {
            let sent = count.min(self.out.len());
            drop(self.out.drain(..sent));
        }
    }

    /// The client is gone.
    fn end(self) {
        let Served {
            mut gateway,
            out: _,
        } = self;
        drop(gateway.ended(0));
        drop(gateway.into_gateway().close());
    }
}

/// Takes all that a client sends.
fn takes_all<T: Clock, L: Write + Drop, S: Read + Write>(
    rt: &impl Abort,
    served: &mut Served<'_, T, L>,
    stream: &mut S,
) {
    for _ in 0..=LONG.len() {
        let mut buf = [0; 512];
        let Ok(count) = stream.read(&mut buf) else {
            return;
        };
        served.take(rt, buf.get(..count).unwrap_or(&[]), stream);
    }
}

/// The log of a client that sends what a row has, in pieces of `size` bytes.
fn logged(rt: &impl Abort, alloc: Global, row: &Row, size: usize) -> Vec<u8> {
    let written = Cell::new(Vec::new(alloc));
    let peer = Peer {
        sends: Cell::new(b""),
        size,
        room: Cell::new(row.room),
    };
    let clock = Millis { now: Cell::new(0) };
    log_row(rt, alloc, row, &clock, &peer, &written);
    written.replace(Vec::new(alloc))
}

// Serves a client that sends what a row has, and logs that.
fn log_row(
    rt: &impl Abort,
    alloc: Global,
    row: &Row,
    clock: &Millis,
    peer: &Peer,
    written: &Cell<Vec<u8>>,
) {
    let log = Log::new(clock, alloc, Paper { alloc, written });
    serve_row(rt, alloc, row, clock, peer, &log);
    log.end();
}

// Serves a client that sends what a row has, with a log.
fn serve_row<L: Write + Drop>(
    rt: &impl Abort,
    alloc: Global,
    row: &Row,
    clock: &Millis,
    peer: &Peer,
    log: &Log<'_, Millis, L>,
) {
    log.turn();
    let mut stream = LoggedStream::new(Wire { peer }, log, port_seven());
    let mut served = Served::new(rt, alloc, log);
    log.take_stock(STOCK);
    for bytes in row.sends.iter() {
        clock.advance(1);
        peer.sends.set(*bytes);
        takes_all(rt, &mut served, &mut stream);
    }
    clock.advance(1);
    drop(stream);
    served.end();
}

/// The lines, each with the time before it.
fn timed(rt: &impl Abort, alloc: Global, lines: &str) -> Vec<u8> {
    let mut bytes = Vec::new(alloc);
    for line in lines.lines() {
        writeln!(&mut bytes, "2023-11-14T22:13:20.123Z {line}").expect(rt, "memory for a line");
    }
    bytes
}

#[test]
fn lines_of_a_log(rt: HostRuntime) {
    let alloc = rt.alloc();
    for row in ROWS.iter() {
        let lines = format!(in alloc;
            "{} free_blocks=7 free_slots=511 incomplete=1",
            row.lines.trim_end()
        )
        .expect(&rt, "memory for lines");
        let wanted = timed(&rt, alloc, lines.as_str());
        for size in [1, 512] {
            let written = logged(&rt, alloc, row, size);
            assert_eq!(rt; written, wanted, "{} in pieces of {size}", row.lines);
        }
    }
}

/// Each row: the time, and the lines that are written then by a read that finds nothing. The client waited for its
/// place until 5,000.
const LATER: [(u64, &str); 4] = [
    (5999, ""),
    (
        6000,
        "1 127.0.0.1:7 HEAD /files/1 status=200 in=48 out=102 ms=0 wait=5000 now=3/6\n",
    ),
    (59_999, ""),
    (
        60_999,
        "minute connections=1 requests=2 2xx=1 4xx=0 5xx=0 in=0 out=102 bodies=1 free_blocks=7 free_slots=511 \
        incomplete=1\n",
    ),
];

#[test]
fn lines_wait_a_second_and_counts_a_minute(rt: HostRuntime) {
    let alloc = rt.alloc();
    let written = Cell::new(Vec::new(alloc));
    let peer = Peer {
        sends: Cell::new(b""),
        size: 512,
        room: Cell::new(9999),
    };
    let clock = Millis { now: Cell::new(0) };
    waits_for_lines(&rt, alloc, &clock, &peer, &written);
    let line =
        "1 127.0.0.1:7 PATCH /files/1 offset=3 body=3 status=none in=135 out=0 ms=55999 now=5/6\n";
    assert_eq!(rt; taken(alloc, &written), timed(&rt, alloc, line));
}

// Logs a head and a body that is cut, and checks when their lines come, all but the last one.
fn waits_for_lines(
    rt: &impl Abort,
    alloc: Global,
    clock: &Millis,
    peer: &Peer,
    written: &Cell<Vec<u8>>,
) {
    let log = Log::new(clock, alloc, Paper { alloc, written });
    serve_later(rt, alloc, clock, peer, written, &log);
    log.end();
}

// Serves a client that waited for its place, sends a head and a part of a body, and goes after a minute.
fn serve_later<L: Write + Drop>(
    rt: &impl Abort,
    alloc: Global,
    clock: &Millis,
    peer: &Peer,
    written: &Cell<Vec<u8>>,
    log: &Log<'_, Millis, L>,
) {
    log.turn();
    let mut stream = LoggedStream::new(Wire { peer }, log, port_seven());
    clock.now.set(5000);
    let mut served = Served::new(rt, alloc, log);
    assert!(rt; log.wants_stock());
    served.take(rt, HEAD, &mut stream);
    assert!(rt; !log.wants_stock());
    served.take(rt, CUT, &mut stream);
    for (now, lines) in LATER.iter() {
        clock.now.set(*now);
        let mut buf = [0; 8];
        assert!(rt; stream.read(&mut buf).is_err());
        assert_eq!(rt; taken(alloc, written), timed(rt, alloc, lines), "at {now}");
    }
    assert!(rt; log.wants_stock());
    assert!(rt; stream.shutdown(Shutdown::Write).is_ok());
    drop(stream);
    served.end();
}

/// What was written since the last call.
fn taken(alloc: Global, written: &Cell<Vec<u8>>) -> Vec<u8> {
    written.replace(Vec::new(alloc))
}
