//! Commands over a file, listeners and streams in memory: those that serve and that run scripts.

use crate::clients::{Client, Clients, Manner, Steps};
use crate::spools::opened;
use crate::steps::Step::{self, Added, Made, Open};
use crate::talks::{Talk, fresh};
use common::Trace;
use gateway_orders::Service;
use gateway_outside::{MemoryFile, Noted};
use gateway_run::script_in;
use gateway_serve::Showing;
use gateway_up::{Bound, ListenCall, Listeners, serve_in};
use std::alloc::Global;
use std::cell::Cell;
use std::io::{self, ErrorKind};
use std::net::SocketAddr;
use std::process::Abort;
use upload_rules::Uploads;

/// A listener for whoever asks first, at any address.
#[derive(Drop)]
struct Harbour<'a> {
    clients: Option<Clients<'a>>,
    asked: Trace<ListenCall>,
}

impl<'a> Listeners for Harbour<'a> {
    type Stream = Client<'a>;

    type Listener = Clients<'a>;

    ghost asked = { λ harbour. harbour.asked.items };

    fn listen(&mut self, address: SocketAddr) -> io::Result<Bound<Clients<'a>>> {
        let bound = match self.clients.take() {
            Some(listener) => Ok(Bound { listener, address }),
            None => Err(io::Error::from(ErrorKind::AddrInUse)),
        };
        self.asked = self.asked.and(&ListenCall::new(address, bound.is_ok()));
        bound
    }

    fn room(&self, _alloc: Global, most: usize) -> usize {
        most
    }
}

const POST: &[u8] = b"POST /files HTTP/1.1\r\nTus-Resumable: 1.0.0\r\nUpload-Length: 5\r\n\
Connection: close\r\n\r\n";

/// A client that sends these bytes, and nobody else. The bytes that it accepts are counted.
fn one_client<'a>(sends: &'a [u8], replied: &'a Cell<usize>) -> Clients<'a> {
    let manner = Manner {
        sends,
        goes_on: b"",
        takes: 0,
        pauses: 0,
    };
    Clients {
        left: Cell::new(1),
        all: 1,
        first: manner,
        others: manner,
        last: manner,
        watched: 1,
        replied,
        rest: replied,
    }
}

/// A harbour that was asked for nothing.
fn fresh_harbour(clients: Option<Clients<'_>>) -> Harbour<'_> {
    Harbour {
        clients,
        asked: Trace::new(),
    }
}

/// One connection, in as many turns as it may take.
const ONE: Service = Service {
    spool: "spool",
    port: 8080,
    connections: 1,
    turns: 10_000,
};

/// A new spool of 64 blocks in a file.
fn in_file(rt: &impl Abort, alloc: Global) -> MemoryFile {
    let path = format!(in alloc; "spool").expect(rt, "a path");
    MemoryFile::new(alloc, path, fresh(rt, alloc, 64, None))
}

#[test]
fn one_client_is_served_at_the_port(rt: HostRuntime) {
    let alloc = rt.alloc();
    let mut files = in_file(&rt, alloc);
    let replied = Cell::new(0);
    let mut harbour = fresh_harbour(Some(one_client(POST, &replied)));
    let steps = Steps::new(1000);
    let mut clock = Showing::new(&steps);
    let mut output = Noted::new(Vec::new(alloc));
    let mut errors = Noted::new(Vec::new(alloc));
    let ended = serve_in(
        alloc,
        &mut clock,
        &mut files,
        &mut harbour,
        &mut output,
        &mut errors,
        ONE,
    );
    assert!(rt; ended.is_ok());
    assert_eq!(rt;
        output.into_stream().as_slice(),
        b"listening 127.0.0.1:8080\n".as_slice()
    );
    assert_eq!(rt;
        errors.into_stream().as_slice(),
        b"served 1 connections\n".as_slice()
    );
    assert!(rt; replied.get() > 0);
    let disk = files.into_disk().expect(&rt, "a file that is closed");
    let gateway = opened(&rt, alloc, disk);
    assert_eq!(rt; gateway.uploads().next_number(), 2);
    drop(gateway.into_disk());
}

#[test]
fn nobody_is_served_without_a_listener(rt: HostRuntime) {
    let alloc = rt.alloc();
    let mut files = in_file(&rt, alloc);
    let mut harbour = fresh_harbour(None);
    let steps = Steps::new(1000);
    let mut clock = Showing::new(&steps);
    let mut output = Noted::new(Vec::new(alloc));
    let mut errors = Noted::new(Vec::new(alloc));
    let ended = serve_in(
        alloc,
        &mut clock,
        &mut files,
        &mut harbour,
        &mut output,
        &mut errors,
        ONE,
    );
    let status = match ended {
        Ok(()) => 0,
        Err(failure) => failure.status(),
    };
    assert_eq!(rt; status, 2);
    assert!(rt; output.into_stream().is_empty());
    assert!(rt; errors.into_stream().is_empty());
    assert!(rt; files.into_disk().is_some());
}

/// An upload of five bytes, made and sent.
const STEPS: &[Step] = &[Open(1), Made(1, 5, ""), Added(1, 0, b"hello", 5)];

#[test]
fn script_runs_over_a_file_and_in_memory(rt: HostRuntime) {
    let alloc = rt.alloc();
    let talk = Talk::new(&rt, alloc, STEPS);
    for path in ["spool", "-"] {
        let mut files = in_file(&rt, alloc);
        let mut input = Noted::new(talk.script.as_slice());
        let mut output = Noted::new(Vec::new(alloc));
        let ran = script_in(alloc, &mut files, &mut input, &mut output, path);
        assert!(rt; ran.is_ok());
        assert_eq!(rt; output.into_stream().as_slice(), talk.wanted.as_slice());
        let disk = files.into_disk().expect(&rt, "a file that is closed");
        let gateway = opened(&rt, alloc, disk);
        let next = if path == "-" { 1 } else { 2 };
        assert_eq!(rt; gateway.uploads().next_number(), next);
        drop(gateway.into_disk());
    }
}
