//! `delete` over a file in memory.

use crate::operators::spool_with_three;
use gateway_delete::{delete_in, incomplete_in};
use gateway_outside::{Fault, MemoryFile, Noted};
use std::io::{self, ErrorKind, Write};

/// What the commands of the test print, one after the other.
const PRINTED: &[u8] = b"would delete 1\ndeleted 2\nno upload 7\ndeleted 1\ndeleted 3\n";

/// A stream that takes nothing.
#[derive(Drop)]
struct Lost;

impl Write for Lost {
    fn write(&mut self, _buf: &[u8]) -> io::Result<usize> {
        Err(io::Error::from(ErrorKind::BrokenPipe))
    }

    fn flush(&mut self) -> io::Result<()> {
        Ok(())
    }
}

#[test]
fn uploads_of_a_file_are_deleted(rt: HostRuntime) {
    let alloc = rt.alloc();
    let path = format!(in alloc; "spool").expect(&rt, "a path");
    let mut files = MemoryFile::new(alloc, path, spool_with_three(&rt, alloc));
    let mut output = Noted::new(Vec::new(alloc));
    let mut errors = Noted::new(Vec::new(alloc));
    let elsewhere = delete_in(alloc, &mut files, &mut output, "other", &[1]);
    assert_eq!(rt;
        elsewhere.map_err(|failure| failure.fault()),
        Err(Fault::CannotOpen)
    );
    let refused = delete_in(alloc, &mut files, &mut Noted::new(Lost), "spool", &[9]);
    assert_eq!(rt; refused.map_err(|failure| failure.fault()), Err(Fault::Io));
    let shown = incomplete_in(
        alloc,
        &mut files,
        &mut output,
        &mut errors,
        "spool",
        &[3],
        false,
    );
    assert!(rt; shown.is_ok());
    let unknown = incomplete_in(
        alloc,
        &mut files,
        &mut output,
        &mut errors,
        "spool",
        &[3, 9],
        true,
    );
    assert_eq!(rt;
        unknown.map_err(|failure| failure.fault()),
        Err(Fault::NoSuch)
    );
    let deleted = delete_in(alloc, &mut files, &mut output, "spool", &[2, 7]);
    assert_eq!(rt;
        deleted.map_err(|failure| failure.fault()),
        Err(Fault::NoSuch)
    );
    let deleted = incomplete_in(
        alloc,
        &mut files,
        &mut output,
        &mut errors,
        "spool",
        &[],
        true,
    );
    assert!(rt; deleted.is_ok());
    let none = incomplete_in(
        alloc,
        &mut files,
        &mut output,
        &mut errors,
        "spool",
        &[],
        true,
    );
    assert!(rt; none.is_ok());
    assert_eq!(rt; output.into_stream().as_slice(), PRINTED);
    let told: &[u8] = b"nothing was deleted: --yes deletes them\nnothing to delete\n";
    assert_eq!(rt; errors.into_stream().as_slice(), told);
}
