//! Clients that read late, over scripted sockets, and a server that has nothing to do.

use crate::clients::{Clients, Manner, Steps, served};
use crate::replies::{Wanted, replies};
use std::alloc::Global;
use std::cell::Cell;
use std::process::Abort;
use std::time::Duration;
use tus_session::MOST_OPEN;

/// Makes an upload of five bytes, then asks for its text.
const SAYS: &[u8] = b"POST /files HTTP/1.1\r\nTus-Resumable: 1.0.0\r\nUpload-Length: 5\r\n\r\n\
PATCH /files/1 HTTP/1.1\r\nTus-Resumable: 1.0.0\r\nContent-Type: application/offset+octet-stream\r\n\
Upload-Offset: 0\r\nContent-Length: 5\r\n\r\nhello\
GET /files/1 HTTP/1.1\r\n\r\n";

const TOLD: &[Wanted] = &[Wanted::Made(1), Wanted::Patched(5), Wanted::Text(b"hello")];

const SECOND: u64 = 1_000_000;

/// `count` clients. The first one sends `sends`, accepts ten bytes and then pauses for `pauses` writes. The others send
/// `others`.
fn comers<'a>(
    count: usize,
    sends: &'a [u8],
    others: &'a [u8],
    pauses: u32,
    replied: &'a Cell<usize>,
    rest: &'a Cell<usize>,
) -> Clients<'a> {
    let reads = Manner {
        sends: others,
        goes_on: others,
        takes: 10,
        pauses: 0,
    };
    Clients {
        left: Cell::new(count),
        all: count,
        first: Manner {
            sends,
            pauses,
            ..reads
        },
        others: reads,
        last: reads,
        watched: count,
        replied,
        rest,
    }
}

/// How many bytes the first client gets if it pauses for `pauses` writes. There are at most 120 turns of a second each,
/// and other clients have all other places.
fn replied(rt: &impl Abort, alloc: Global, pauses: u32) -> usize {
    let replied = Cell::new(0);
    let others = Cell::new(0);
    let clients = comers(MOST_OPEN, SAYS, b"", pauses, &replied, &others);
    let closed = served(rt, alloc, &Steps::new(SECOND), &clients, 16, 120);
    assert_eq!(rt; (closed, others.get()), (MOST_OPEN as u64, 0));
    replied.get()
}

#[test]
fn replies_under_way_are_kept_for_a_minute_where_all_places_are_taken(rt: HostRuntime) {
    let alloc = rt.alloc();
    assert_eq!(rt; replied(&rt, alloc, 5), replies(&rt, alloc, TOLD).len());
    assert_eq!(rt; replied(&rt, alloc, 100), 10);
}

/// Each row: how many clients connect, how many microseconds a turn takes, how many turns there are, how often the
/// server sleeps, and for how many nanoseconds in all. It doesn't sleep in a turn in which a client connects.
const IDLE: [(usize, u64, u64, u32, u64); 6] = [
    (0, SECOND, 20, 20, 200_000_000),
    (MOST_OPEN, SECOND, MOST_OPEN as u64, 0, 0),
    (MOST_OPEN - 1, SECOND, MOST_OPEN as u64 + 1, 2, 20_000_000),
    (0, 199, 1, 0, 0),
    (0, 200, 1, 1, 6250),
    // a 32nd of 200, 300 .. 2,000 microseconds
    (0, 100, 20, 19, 653_125),
];

#[test]
fn idle_server_rests(rt: HostRuntime) {
    for (count, step, turns, rests, nanos) in IDLE {
        let replied = Cell::new(0);
        let rest = Cell::new(0);
        let clients = comers(count, b"", b"", 0, &replied, &rest);
        let clock = Steps::new(step);
        served(&rt, rt.alloc(), &clock, &clients, 16, turns);
        assert_eq!(rt;
            clock.rests(),
            (rests, Duration::from_nanos(nanos)),
            "{count}, {step}"
        );
    }
}
