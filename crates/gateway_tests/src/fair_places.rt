//! Tests that a client can't hold its place for ever while another one waits: when each kind of idle or slow client is
//! closed.

use crate::clients::{Clients, Manner, Steps, served};
use std::alloc::Global;
use std::cell::Cell;
use std::process::Abort;
use tus_session::MOST_OPEN;

const OPTIONS: &[u8] = b"OPTIONS /files HTTP/1.1\r\n\r\n";

const HALF_A_HEAD: &[u8] = b"OPTIONS /files HTTP/1.1\r\n";

/// Makes an upload, then starts a PATCH of 200,000 bytes.
const BODY: &[u8] = b"POST /files HTTP/1.1\r\nTus-Resumable: 1.0.0\r\nUpload-Length: 200000\r\n\r\n\
PATCH /files/1 HTTP/1.1\r\nTus-Resumable: 1.0.0\r\nContent-Type: application/offset+octet-stream\r\n\
Upload-Offset: 0\r\nContent-Length: 200000\r\n\r\n";

/// The same, but the PATCH expects `100 Continue` first.
const EXPECTS: &[u8] =
    b"POST /files HTTP/1.1\r\nTus-Resumable: 1.0.0\r\nUpload-Length: 200000\r\n\r\n\
PATCH /files/1 HTTP/1.1\r\nTus-Resumable: 1.0.0\r\nContent-Type: application/offset+octet-stream\r\n\
Upload-Offset: 0\r\nContent-Length: 200000\r\nExpect: 100-continue\r\n\r\n";

/// A PATCH of 200,000 bytes for an upload that isn't there.
const REFUSED: &[u8] = b"PATCH /files/1 HTTP/1.1\r\nTus-Resumable: 1.0.0\r\n\
Content-Type: application/offset+octet-stream\r\nUpload-Offset: 0\r\nContent-Length: 200000\r\n\r\n";

/// Two empty lines, and a head that isn't whole.
const EMPTY_LINES: &[u8] = b"\r\n\r\nOPTIONS /files HTTP/1.1\r\n";

/// The first client: the bytes that it sends first, those that it sends later, and whether it reads its replies.
type First<'a> = (&'a [u8], &'a [u8], bool);

/// Whether the last client, which sends one request, gets a reply within `turns` turns of `step` microseconds. All
/// places are taken when it comes, by `first` and by others, which don't read their replies.
fn is_answered(rt: &impl Abort, alloc: Global, first: First, step: u64, turns: u64) -> bool {
    let replied = Cell::new(0);
    let others = Cell::new(0);
    let (sends, goes_on, reads) = first;
    let asks = Manner {
        sends: OPTIONS,
        goes_on: b"",
        takes: 0,
        pauses: 0,
    };
    let clients = Clients {
        left: Cell::new(MOST_OPEN + 1),
        all: MOST_OPEN + 1,
        first: Manner {
            sends,
            goes_on,
            takes: 0,
            pauses: if reads { 0 } else { u32::MAX },
        },
        others: Manner {
            pauses: u32::MAX,
            ..asks
        },
        last: asks,
        watched: 1,
        replied: &replied,
        rest: &others,
    };
    served(rt, alloc, &Steps::new(step), &clients, 64, turns);
    replied.get() > 0
}

const MILLIS: u64 = 1000;

/// How many clients connect, one a turn.
const COMERS: u64 = MOST_OPEN as u64 + 1;

/// Each row: the first client, how many microseconds a turn takes, how many turns there are, and whether the last
/// client gets a reply within them.
static KEEPERS: [(First, u64, u64, bool); 22] = [
    // It is idle between two requests: 20 milliseconds.
    ((OPTIONS, b"", true), 10 * MILLIS, COMERS, false),
    ((OPTIONS, b"", true), 10 * MILLIS, COMERS + 3, true),
    // It sends one request after another: ten seconds.
    ((OPTIONS, OPTIONS, true), 10 * MILLIS, 1000, false),
    ((OPTIONS, OPTIONS, true), 10 * MILLIS, 1010, true),
    // It doesn't finish a head: two seconds.
    ((HALF_A_HEAD, b"", true), 100 * MILLIS, COMERS + 2, false),
    ((HALF_A_HEAD, b"", true), 100 * MILLIS, 30, true),
    ((HALF_A_HEAD, b"a", true), 100 * MILLIS, COMERS + 2, false),
    ((HALF_A_HEAD, b"a", true), 100 * MILLIS, 30, true),
    // It sends no bytes of a body, one byte at a time, or none after `100 Continue`: two seconds.
    ((BODY, b"", true), 100 * MILLIS, COMERS + 2, false),
    ((BODY, b"", true), 100 * MILLIS, 30, true),
    ((BODY, b"a", true), 100 * MILLIS, COMERS + 2, false),
    ((BODY, b"a", true), 100 * MILLIS, 30, true),
    ((EXPECTS, b"", true), 100 * MILLIS, COMERS + 2, false),
    ((EXPECTS, b"", true), 100 * MILLIS, 30, true),
    // It sends 5,120 bytes of a body a second: ten seconds.
    ((BODY, &[b'a'; 1024], true), 100 * MILLIS, 100, false),
    ((BODY, &[b'a'; 1024], true), 100 * MILLIS, 110, true),
    // The body of a refused request comes as slowly: it is no head, and has as long.
    ((REFUSED, &[b'a'; 1024], true), 100 * MILLIS, 100, false),
    ((REFUSED, &[b'a'; 1024], true), 100 * MILLIS, 110, true),
    // Empty lines before a head belong to it: two seconds, and a minute where nobody waits.
    ((EMPTY_LINES, b"a", true), 100 * MILLIS, COMERS + 2, false),
    ((EMPTY_LINES, b"a", true), 100 * MILLIS, 30, true),
    // It doesn't read a reply: a minute.
    ((OPTIONS, b"", false), 100 * MILLIS, 600, false),
    ((OPTIONS, b"", false), 100 * MILLIS, 620, true),
];

#[test]
fn one_that_waits_gets_the_place_of_one_that_keeps_its_own(rt: HostRuntime) {
    for (first, step, turns, replied) in KEEPERS.iter() {
        assert_eq!(rt;
            is_answered(&rt, rt.alloc(), *first, *step, *turns),
            *replied,
            "{turns}"
        );
    }
}
