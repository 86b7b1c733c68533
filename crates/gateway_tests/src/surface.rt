//! The program's messages and exit statuses.

use common::Stop;
use enc_index::ReadError;
use gateway_outside::{Failure, Fault, Input, Noted, Output, ended};
use std::alloc::Global;
use std::io::{self, ErrorKind, Read, Write};
use std::process::Abort;

/// Checks the message and the exit status of a failure.
fn fails(rt: &impl Abort, alloc: Global, failure: Failure, status: u8, message: &str) {
    let mut shown = Vec::new(alloc);
    assert_eq!(rt; ended(&mut shown, Err(failure)), status);
    assert_eq!(rt; shown.as_slice(), message.as_bytes());
}

/// A stream that fails.
#[derive(Drop)]
struct Lost;

impl Read for Lost {
    fn read(&mut self, _buf: &mut [u8]) -> io::Result<usize> {
        Err(io::Error::new(ErrorKind::Other, "it is lost"))
    }
}

impl Write for Lost {
    fn write(&mut self, _buf: &[u8]) -> io::Result<usize> {
        Ok(0)
    }

    fn flush(&mut self) -> io::Result<()> {
        Ok(())
    }
}

#[test]
fn failures_are_told(rt: HostRuntime) {
    let alloc = rt.alloc();
    for (fault, status, message) in [
        (Fault::Script(2), 2, "refused: 32 Script 2\n"),
        (
            Fault::Index("index-ibm866.txt", ReadError::Twice(7)),
            2,
            "refused: 5 Twice index-ibm866.txt 7\n",
        ),
        (Fault::AlreadySpool, 2, "refused: 13 AlreadySpool\n"),
        (Fault::InUse, 2, "refused: 38 InUse\n"),
        (Fault::CannotOpen, 2, "refused: 39 CannotOpen\n"),
        (Fault::Stop(Stop::DiskFault), 3, "device fault\n"),
    ] {
        fails(&rt, alloc, Failure::from(fault), status, message);
    }
    let mut input = Noted::new(Lost);
    assert!(rt; input.read_piece(&mut [0]).is_err());
    let failure = Failure::on_streams(Fault::Io, input.error(), None);
    fails(
        &rt,
        alloc,
        failure,
        2,
        "refused: 33 Io\ncannot read standard input: it is lost\n",
    );
    let mut output = Noted::new(Lost);
    assert!(rt; output.put(b"a").is_err());
    assert_eq!(rt;
        output.error().map(|error| error.kind()),
        Some(ErrorKind::WriteZero)
    );
}
