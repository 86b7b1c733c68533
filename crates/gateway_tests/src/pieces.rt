//! Uploads that change while a GET of them is between two pieces of the text.

use crate::spools::{ends, opened};
use crate::steps::Step::{self, Came, Made, Open, Patch, Patched};
use crate::stories::{LONG_TEXT, TEN_THOUSAND};
use crate::talks::{Talk, fresh};
use gateway_engine::{Connections, Gateway};
use spool_disk::MemoryDisk;
use spool_image::Spool;
use std::alloc::Global;
use std::process::Abort;

/// A call: the connection, the received bytes, and how many bytes are sent back.
type Call<'a> = (usize, &'a [u8], usize);

/// Makes a call, which takes all its bytes, leaves the connection open and sends back as many bytes as given.
fn gives(rt: &impl Abort, gateway: &mut Gateway<Spool<MemoryDisk>>, out: &mut Vec<u8>, call: Call) {
    let (conn, bytes, given) = call;
    out.clear();
    let answer = gateway.came(conn, bytes, out).expect(rt, "an answer");
    assert_eq!(rt; answer.taken, bytes.len());
    assert!(rt; !answer.closes);
    assert_eq!(rt; out.len(), given);
}

const GET: Call = (1, b"GET /files/1 HTTP/1.1\r\n\r\n", 65_666);

/// The upload is deleted, and another one reuses its blocks: the text has 18, and the spool 19.
const DELETED: [Call; 5] = [
    GET,
    (
        2,
        b"DELETE /files/1 HTTP/1.1\r\nTus-Resumable: 1.0.0\r\n\r\n",
        74,
    ),
    (
        2,
        b"POST /files HTTP/1.1\r\nTus-Resumable: 1.0.0\r\nUpload-Length: 70000\r\n\r\n",
        110,
    ),
    (
        2,
        b"PATCH /files/2 HTTP/1.1\r\nTus-Resumable: 1.0.0\r\nContent-Type: application/offset+octet-stream\r\n\
        Upload-Offset: 0\r\nContent-Length: 70000\r\n\r\n",
        0,
    ),
    (2, &[b'b'; 70_000], 96),
];

/// An upload that still lacks ten bytes.
const UNFINISHED: &[Step] = &[
    Open(1),
    Made(1, 70_010, ""),
    Patch(1, 1, 0, 70_000),
    Came(1, TEN_THOUSAND),
    Came(1, TEN_THOUSAND),
    Came(1, TEN_THOUSAND),
    Came(1, TEN_THOUSAND),
    Came(1, TEN_THOUSAND),
    Came(1, TEN_THOUSAND),
    Came(1, TEN_THOUSAND),
    Patched(1, 70_000),
];

/// The ten bytes arrive between the two pieces.
const PATCHED: [Call; 3] = [
    GET,
    (
        2,
        b"PATCH /files/1 HTTP/1.1\r\nTus-Resumable: 1.0.0\r\nContent-Type: application/offset+octet-stream\r\n\
        Upload-Offset: 70000\r\nContent-Length: 10\r\n\r\n",
        0,
    ),
    (2, b"bbbbbbbbbb", 96),
];

/// Checks the second piece of a GET. `steps` fill the spool, and `calls` follow: the first one is the GET, and the last
/// one is answered 204. Then the text goes on with `rest`, and the connection closes if `closes` is true.
fn rest_is(
    rt: &impl Abort,
    alloc: Global,
    steps: &[Step],
    calls: &[Call],
    closes: bool,
    rest: &[u8],
) {
    let talk = Talk::new(rt, alloc, steps);
    let disk = fresh(rt, alloc, 19, None);
    let disk = ends(rt, alloc, "a long text", &talk, disk, None);
    let mut gateway = opened(rt, alloc, disk);
    let mut out = Vec::new(alloc);
    gateway.opened(1).expect(rt, "a connection");
    gateway.opened(2).expect(rt, "a connection");
    for call in calls {
        gives(rt, &mut gateway, &mut out, *call);
    }
    assert!(rt; out.starts_with(b"HTTP/1.1 204 No Content\r\n"));
    out.clear();
    let answer = gateway.more(1, &mut out).expect(rt, "an answer");
    assert!(rt; answer.closes == closes && !answer.more);
    assert!(rt; out.as_slice() == rest);
    drop(gateway.into_disk());
}

/// The connection closes, because the rest of the text is gone.
#[test]
fn text_of_a_deleted_upload_ends(rt: HostRuntime) {
    rest_is(&rt, rt.alloc(), LONG_TEXT, &DELETED, true, b"");
}

/// The text has the length that its head gave, without the bytes that came later.
#[test]
fn text_of_a_patched_upload_is_as_it_began(rt: HostRuntime) {
    rest_is(&rt, rt.alloc(), UNFINISHED, &PATCHED, false, &[b'a'; 4464]);
}
