//! Clients over real sockets, in one thread: each client sends all its bytes before the server runs.

use crate::replies::{Wanted, replies};
use crate::spools::{calls_of_opening, opened};
use crate::talks::fresh;
use gateway_serve::{Listening, Outcome, Showing, serve_on};
use spool_disk::{Disk, FuseDisk, MemoryDisk};
use std::alloc::Global;
use std::io::{Read, Write};
use std::net::{Ipv4Addr, Net, Shutdown, TcpListener, TcpStream};
use std::process::Abort;
use std::time::Clock;

const POST: &[u8] = b"POST /files HTTP/1.1\r\nTus-Resumable: 1.0.0\r\nUpload-Length: 5\r\n\r\n";

const MADE_FIRST: &[Wanted] = &[Wanted::Made(1)];

const SECOND: &[u8] = b"POST /files HTTP/1.1\r\nTus-Resumable: 1.0.0\r\nUpload-Length: 5\r\n\r\n\
PATCH /files/2 HTTP/1.1\r\nTus-Resumable: 1.0.0\r\nContent-Type: application/offset+octet-stream\r\n\
Upload-Offset: 0\r\nContent-Length: 5\r\n\r\nhello\
HEAD /files/2 HTTP/1.1\r\nTus-Resumable: 1.0.0\r\n\r\n\
GET /files/2 HTTP/1.1\r\n\r\n";

const MADE_SECOND: &[Wanted] = &[
    Wanted::Made(2),
    Wanted::Patched(5),
    Wanted::Shown(5, Some(5), ""),
    Wanted::Text(b"hello"),
];

const CUT_BODY: &[u8] = b"POST /files HTTP/1.1\r\nTus-Resumable: 1.0.0\r\nUpload-Length: 10\r\n\r\n\
PATCH /files/1 HTTP/1.1\r\nTus-Resumable: 1.0.0\r\nContent-Type: application/offset+octet-stream\r\n\
Upload-Offset: 0\r\nContent-Length: 10\r\n\r\nabcd";

const HEAD: &[u8] = b"HEAD /files/1 HTTP/1.1\r\nTus-Resumable: 1.0.0\r\n\r\n";

const FOUR_OF_TEN: &[Wanted] = &[Wanted::Shown(4, Some(10), "")];

const NOT_HTTP: &[u8] = b"BAD\r\n\r\nGET /files/1 HTTP/1.1\r\n\r\n";

const MALFORMED: &[u8] =
    b"HTTP/1.1 400 Bad Request\r\nTus-Resumable: 1.0.0\r\nCache-Control: no-store\r\n\
X-Refusal: 18\r\nContent-Length: 0\r\nConnection: close\r\n\r\n";

/// A listener on any free port.
fn listen<R: Abort + Net<Listener = TcpListener, Stream = TcpStream>>(rt: &R) -> TcpListener {
    TcpListener::bind(rt, (Ipv4Addr::LOCALHOST, 0)).expect(rt, "a port")
}

/// A client that connects, sends these bytes and keeps its socket open.
fn stays<R: Abort + Net<Listener = TcpListener, Stream = TcpStream>>(
    rt: &R,
    listener: &TcpListener,
    sends: &[u8],
) -> TcpStream {
    let address = listener.local_addr().expect(rt, "an address");
    let mut stream = TcpStream::connect(rt, address).expect(rt, "a connection");
    stream
        .write_all(sends)
        .expect(rt, "a socket that takes bytes");
    stream
}

/// A client that connects, sends these bytes and closes its sending side.
fn client<R: Abort + Net<Listener = TcpListener, Stream = TcpStream>>(
    rt: &R,
    listener: &TcpListener,
    sends: &[u8],
) -> TcpStream {
    let stream = stays(rt, listener, sends);
    stream
        .shutdown(Shutdown::Write)
        .expect(rt, "an open socket");
    stream
}

/// Checks that a client receives exactly these bytes before the end of its stream.
fn is_answered(rt: &impl Abort, alloc: Global, client: &mut TcpStream, wanted: &[u8]) {
    let mut bytes = Vec::new(alloc);
    client
        .read_to_end(&mut bytes)
        .expect(rt, "a socket that gives bytes");
    assert_eq!(rt; bytes.as_slice(), wanted);
}

/// Serves `connections` connections over the spool on a disk, in at most 1,000 turns. Returns the disk, and whether
/// serving ended without an error.
fn served<R: Abort + Clock, D: Disk + Drop>(
    rt: &R,
    alloc: Global,
    listener: &TcpListener,
    disk: D,
    connections: u64,
) -> (D, bool) {
    let gateway = opened(rt, alloc, disk);
    let mut clock = Showing::new(rt);
    let mut acceptor = Listening::new(listener);
    let Outcome {
        gateway,
        served,
        clients: _,
        door: _,
        times: _,
        ended: _,
        drained: _,
    } = serve_on(&mut clock, alloc, &mut acceptor, gateway, connections, 1000);
    (gateway.into_disk(), served.is_ok())
}

/// Serves one connection over the spool on a disk.
fn serve<R: Abort + Clock>(
    rt: &R,
    alloc: Global,
    listener: &TcpListener,
    disk: MemoryDisk,
) -> MemoryDisk {
    let (disk, well) = served(rt, alloc, listener, disk, 1);
    assert!(rt; well);
    disk
}

#[test]
fn two_clients_are_served(rt: HostRuntime) {
    let alloc = rt.alloc();
    let listener = listen(&rt);
    let mut first = client(&rt, &listener, POST);
    let mut second = client(&rt, &listener, SECOND);
    let disk = fresh(&rt, alloc, 16, None);
    let (_disk, well) = served(&rt, alloc, &listener, disk, 2);
    assert!(rt; well);
    is_answered(&rt, alloc, &mut first, &replies(&rt, alloc, MADE_FIRST));
    is_answered(&rt, alloc, &mut second, &replies(&rt, alloc, MADE_SECOND));
}

#[test]
fn cut_body_counts_up_to_the_cut_and_a_close_is_told(rt: HostRuntime) {
    let alloc = rt.alloc();
    let listener = listen(&rt);
    let disk = fresh(&rt, alloc, 16, None);
    drop(client(&rt, &listener, CUT_BODY));
    let disk = serve(&rt, alloc, &listener, disk);
    let mut later = client(&rt, &listener, HEAD);
    let disk = serve(&rt, alloc, &listener, disk);
    is_answered(&rt, alloc, &mut later, &replies(&rt, alloc, FOUR_OF_TEN));
    let mut lost = stays(&rt, &listener, NOT_HTTP);
    drop(serve(&rt, alloc, &listener, disk));
    is_answered(&rt, alloc, &mut lost, MALFORMED);
}

/// The disk fails at the first call after the spool is open, and the client gets no reply.
#[test]
fn nothing_is_told_after_a_disk_fault(rt: HostRuntime) {
    let alloc = rt.alloc();
    let listener = listen(&rt);
    let mut client = client(&rt, &listener, POST);
    let calls = calls_of_opening(&rt, alloc, fresh(&rt, alloc, 16, None));
    let disk = FuseDisk::new(fresh(&rt, alloc, 16, None), calls);
    let (_disk, well) = served(&rt, alloc, &listener, disk, 1);
    assert!(rt; !well);
    is_answered(&rt, alloc, &mut client, b"");
}
