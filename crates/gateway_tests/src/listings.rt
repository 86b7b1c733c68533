//! `list` over a file in memory.

use crate::spools::ran;
use crate::steps::Step::{self, Added, Deferred, Made, Open};
use crate::talks::{Talk, fresh};
use gateway_list::{json_in, list_in};
use gateway_outside::{Fault, MemoryFile, Noted};
use std::io::{self, ErrorKind, Write};

/// Three uploads: a partial one with a lost byte, a complete one whose file name has characters that are escaped, and
/// one of unknown length.
const STEPS: &[Step] = &[
    Open(1),
    Made(1, 6, ""),
    Added(1, 0, b"hel\xFFo", 5),
    Made(2, 2, "filename YSJcCuKAjsOp,x eA=="),
    Added(2, 0, b"ab", 2),
    Deferred(3, ""),
];

const LINES: &[u8] =
    b"1 5/6 7 UTF-8 UTF-8 html\n2 2/2 2 UTF-8 UTF-8 html\n3 0/? 0 UTF-8 UTF-8 html\n";

const LONG: &[u8] = b"1 5/6 7 UTF-8 UTF-8 html\n\
    2 2/2 2 UTF-8 UTF-8 html filename YSJcCuKAjsOp,x eA==\n\
    3 0/? 0 UTF-8 UTF-8 html\n";

const JSON: &str =
    "{\"number\":1,\"accepted\":5,\"declared\":6,\"complete\":false,\"text\":7,\"from\":\"UTF-8\",\
    \"to\":\"UTF-8\",\"mode\":\"html\",\"filename\":null,\"metadata\":\"\",\"losses\":1}\n\
    {\"number\":2,\"accepted\":2,\"declared\":2,\"complete\":true,\"text\":2,\"from\":\"UTF-8\",\"to\":\"UTF-8\",\
    \"mode\":\"html\",\"filename\":\"a\\\"\\\\\\u000a\\u200eé\",\"metadata\":\"filename YSJcCuKAjsOp,x eA==\",\
    \"losses\":0}\n\
    {\"number\":3,\"accepted\":0,\"declared\":null,\"complete\":false,\"text\":0,\"from\":\"UTF-8\",\
    \"to\":\"UTF-8\",\"mode\":\"html\",\"filename\":null,\"metadata\":\"\",\"losses\":0}\n";

/// A stream that takes nothing.
#[derive(Drop)]
struct Lost;

impl Write for Lost {
    fn write(&mut self, _buf: &[u8]) -> io::Result<usize> {
        Err(io::Error::from(ErrorKind::BrokenPipe))
    }

    fn flush(&mut self) -> io::Result<()> {
        Ok(())
    }
}

#[test]
fn uploads_of_a_file_are_listed(rt: HostRuntime) {
    let alloc = rt.alloc();
    let talk = Talk::new(&rt, alloc, STEPS);
    let (disk, fault, written) = ran(alloc, &talk, fresh(&rt, alloc, 16, None));
    assert_eq!(rt; fault, None);
    assert_eq!(rt; written, talk.wanted);
    let path = format!(in alloc; "spool").expect(&rt, "a path");
    let mut files = MemoryFile::new(alloc, path, disk);
    let mut errors = Noted::new(Vec::new(alloc));
    let mut output = Noted::new(Vec::new(alloc));
    let elsewhere = list_in(alloc, &mut files, &mut output, &mut errors, "other", false);
    assert_eq!(rt;
        elsewhere.map_err(|failure| failure.fault()),
        Err(Fault::CannotOpen)
    );
    let lost = list_in(
        alloc,
        &mut files,
        &mut Noted::new(Lost),
        &mut errors,
        "spool",
        true,
    );
    assert_eq!(rt; lost.map_err(|failure| failure.fault()), Err(Fault::Io));
    let lost = json_in(alloc, &mut files, &mut Noted::new(Lost), "spool");
    assert_eq!(rt; lost.map_err(|failure| failure.fault()), Err(Fault::Io));
    let listed = list_in(
        alloc,
        &mut files,
        &mut output,
        &mut Noted::new(Lost),
        "spool",
        true,
    );
    assert!(rt; listed.is_ok());
    assert_eq!(rt; output.into_stream().as_slice(), LONG);
    let mut output = Noted::new(Vec::new(alloc));
    let listed = list_in(alloc, &mut files, &mut output, &mut errors, "spool", false);
    assert!(rt; listed.is_ok());
    assert_eq!(rt; output.into_stream().as_slice(), LINES);
    let mut output = Noted::new(Vec::new(alloc));
    let listed = list_in(alloc, &mut files, &mut output, &mut errors, "spool", true);
    assert!(rt; listed.is_ok());
    let told = errors.into_stream();
    assert!(rt; told.starts_with(b"version 2, 14 of 16 blocks free, 509 of 512 slots free\n"));
    assert!(rt; told.ends_with(b"U+FFFD in the text of 1: 1\n"));
    let mut output = Noted::new(Vec::new(alloc));
    let listed = json_in(alloc, &mut files, &mut output, "spool");
    assert!(rt; listed.is_ok());
    let json = output.into_stream();
    assert!(rt; json.starts_with(JSON.as_bytes()));
    assert!(rt; json.ends_with(b"}\n"));
}
