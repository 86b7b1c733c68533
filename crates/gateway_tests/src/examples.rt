//! The examples of tus_session. The docs of its types have the same lines. And what a connection is at.

use enc_index::IndexSet;
use gateway_engine::Gateway;
use std::alloc::Global;
use std::process::Abort;
use tus_session::{At, Connections, MOST_OPEN, Session, SessionError};
use upload_rules::Table;

/// A store in memory without uploads.
fn empty(rt: &impl Abort, alloc: Global) -> Table {
    Table::new(alloc, IndexSet::new(alloc).expect(rt, "memory for a set"))
}

#[test]
fn example_of_session(rt: HostRuntime) {
    let (rt, alloc) = (&rt, rt.alloc());
    let mut store = empty(rt, alloc);
    let mut out = Vec::new(alloc);
    let mut session = Session::new(alloc).expect(rt, "memory");
    session.opened(0).expect(rt, "a free place");
    let first = session.came(&mut store, 0, b"OPTIONS /files HT", &mut out);
    let second = session.came(&mut store, 0, b"TP/1.1\r\n\r\n", &mut out);
    assert!(rt; first.is_ok() && second.is_ok());
    session.close(&mut store);
    assert!(rt; out.starts_with(b"HTTP/1.1 204 No Content\r\n"));
}

#[test]
fn example_of_answer(rt: HostRuntime) {
    let (rt, alloc) = (&rt, rt.alloc());
    let mut store = empty(rt, alloc);
    let mut out = Vec::new(alloc);
    let mut session = Session::new(alloc).expect(rt, "memory");
    session.opened(0).expect(rt, "a free place");
    let bytes = b"OPTIONS /files HTTP/1.1\r\n\r\nOPTIONS";
    let came = session.came(&mut store, 0, bytes, &mut out);
    let answer = came.expect(rt, "memory");
    assert_eq!(rt; answer.taken, bytes.len() - 7);
    assert!(rt; !answer.closes && !answer.more);
    session.close(&mut store);
}

#[test]
fn example_of_session_error(rt: HostRuntime) {
    let (rt, alloc) = (&rt, rt.alloc());
    let mut store = empty(rt, alloc);
    let mut out = Vec::new(alloc);
    let mut session = Session::new(alloc).expect(rt, "memory");
    assert_eq!(rt; session.opened(MOST_OPEN), Err(SessionError::TooMany));
    let refused = session.came(&mut store, 0, b"OPTIONS", &mut out);
    assert_eq!(rt; refused, Err(SessionError::Closed));
    session.close(&mut store);
}

#[test]
fn example_of_connections(rt: HostRuntime) {
    let (rt, alloc) = (&rt, rt.alloc());
    let mut out = Vec::new(alloc);
    let gateway = Gateway::new(alloc, empty(rt, alloc));
    let mut conns = gateway.ok().expect(rt, "memory");
    conns.opened(0).expect(rt, "a free place");
    let bytes = b"OPTIONS /files HTTP/1.1\r\n\r\n";
    let answer = conns.came(0, bytes, &mut out).expect(rt, "memory");
    conns.ended(0).expect(rt, "an open connection");
    assert_eq!(rt; answer.taken, bytes.len());
    assert!(rt; out.starts_with(b"HTTP/1.1 204 No Content\r\n"));
    drop(conns.close());
}

/// Pieces that a connection gets one after the other, and what it is at after each: a head that is cut, a refused PATCH
/// whose body is dropped in two parts, and an empty line before a head.
const PIECES: [(&[u8], At); 6] = [
    (b"OPTIONS /files HT", At::Head),
    (b"TP/1.1\r\n\r\n", At::Between),
    (
        b"PATCH /files/9 HTTP/1.1\r\nContent-Length: 4\r\n\r\nab",
        At::Body,
    ),
    (b"c", At::Body),
    (b"d", At::Between),
    (b"\r\n", At::Head),
];

#[test]
fn connection_says_what_it_is_at(rt: HostRuntime) {
    let (rt, alloc) = (&rt, rt.alloc());
    let mut out = Vec::new(alloc);
    let gateway = Gateway::new(alloc, empty(rt, alloc));
    let mut conns = gateway.ok().expect(rt, "memory");
    assert_eq!(rt; conns.at(0), None);
    conns.opened(0).expect(rt, "a free place");
    for (bytes, at) in PIECES {
        conns.came(0, bytes, &mut out).expect(rt, "memory");
        assert_eq!(rt; conns.at(0), Some(at));
    }
    drop(conns.close());
}
