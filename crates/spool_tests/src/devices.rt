//! Tests of each kind of disk.

ghost use Rattle.std.specs.Prelude.{◌≡◌, ◌≤◌};

use spool_disk::{Crash, Disk, DiskFault, FileDisk, HiccupDisk, MemoryDisk};
use std::fs::{self, Files};
use std::io;
use std::process::Abort;

const FOLDER: &str = "spool_disk_file_test";

const PATH: &str = "spool_disk_file_test/spool";

const SHARED: &str = "spool_disk_lock_test";

const SHORT: &str = "spool_disk_short_test";

// The first four bytes.
fn prefix<D: Disk>(disk: &mut D) -> Result<[u8; 4], DiskFault>
    requires { 4 ≤ D.size disk.old }
    ensures { D.size disk.new ≡ D.size disk.old }
{
    let mut bytes = [0; 4];
    disk.read(0, &mut bytes)?;
    Ok(bytes)
}

#[test]
fn crash_leaves_old_new_or_torn_bytes(rt: HostRuntime) {
    for (kind, want) in [
        (Crash::Old, *b"abc\0"),
        (Crash::New, *b"aXY\0"),
        (Crash::Torn(7), *b"a\x07\x07\0"),
    ] {
        let mut disk = MemoryDisk::new(rt.alloc(), 4).expect(&rt, "memory");
        assert_eq!(rt; disk.len(), 4);
        disk.write_at(0, b"abc").expect(&rt, "no call fails");
        disk.sync().expect(&rt, "no call fails");
        disk.write_at(1, b"XY").expect(&rt, "no call fails");
        let mut left = disk.crash(kind);
        assert_eq!(rt; prefix(&mut left), Ok(want), "{kind:?}");
    }
}

#[test]
fn failing_write_fills_its_range(rt: HostRuntime) {
    for (fill, want) in [
        (Some(7), *b"a\x07\x07d"),
        (Some(0), *b"a\0\0d"),
        (Some(0xA5), *b"a\xA5\xA5d"),
        (None, *b"abcd"),
    ] {
        let mut disk = MemoryDisk::new(rt.alloc(), 4).expect(&rt, "memory");
        disk.write_at(0, b"abcd").expect(&rt, "no call fails");
        let mut disk = HiccupDisk::new(disk, 0, fill);
        assert_eq!(rt; disk.write_at(1, b"XY"), Err(DiskFault));
        let mut left = disk.into_inner();
        assert_eq!(rt; prefix(&mut left), Ok(want), "{fill:?}");
    }
}

/// Checks the length of a file and its first four bytes.
fn begins(rt: &impl Abort, mut disk: FileDisk, length: u64, bytes: [u8; 4]) {
    assert!(rt; disk.len() == length && length >= 4);
    assert_eq!(rt; prefix(&mut disk), Ok(bytes));
}

/// Whether no disk was opened.
fn is_refused(answer: Result<FileDisk, DiskFault>) -> bool {
    matches!(answer, Err(DiskFault))
}

/// The length of the file at a path in bytes.
fn length_of<R: Abort + Files>(rt: &R, path: &str) -> u64 {
    fs::metadata(rt, path).expect(rt, "a file").len()
}

#[test]
fn file_holds_its_bytes_when_opened_again(rt: HostRuntime) {
    let _ = fs::remove_dir_all(&rt, FOLDER);
    fs::create_dir(&rt, FOLDER).expect(&rt, "a new folder");
    let mut made = FileDisk::create(&rt, PATH, 4).expect(&rt, "a new file");
    assert_eq!(rt; made.write_at(1, b"ab"), Ok(()));
    assert_eq!(rt; made.sync(), Ok(()));
    begins(&rt, made, 4, *b"\0ab\0");
    let found = FileDisk::open(&rt, PATH).expect(&rt, "the file is there");
    begins(&rt, found, 4, *b"\0ab\0");
    let longer = FileDisk::create(&rt, PATH, 9).expect(&rt, "the file is there");
    begins(&rt, longer, 9, *b"\0ab\0");
    assert_eq!(rt; length_of(&rt, PATH), 9);
    fs::remove_dir_all(&rt, FOLDER).expect(&rt, "the folder");
    assert!(rt; is_refused(FileDisk::open(&rt, PATH)));
    assert!(rt; is_refused(FileDisk::create(&rt, PATH, 4)));
}

#[test]
fn file_in_use_is_opened_once(rt: HostRuntime) {
    let made = FileDisk::create(&rt, SHARED, 4).expect(&rt, "a new file");
    assert!(rt; is_refused(FileDisk::open(&rt, SHARED)));
    assert!(rt; is_refused(FileDisk::create(&rt, SHARED, 9)));
    assert_eq!(rt; length_of(&rt, SHARED), 4);
    match FileDisk::try_open(&rt, SHARED) {
        Ok(_disk) => panic!(rt; "opened twice"),
        Err(error) => assert_eq!(rt; error.kind(), io::ErrorKind::ResourceBusy),
    }
    drop(made);
    let found = FileDisk::open(&rt, SHARED).expect(&rt, "the file is there");
    assert!(rt; FileDisk::try_create(&rt, SHARED, 4).is_err());
    drop(found);
    fs::remove_file(&rt, SHARED).expect(&rt, "the file");
}

#[test]
fn shortened_file_answers_faults(rt: HostRuntime) {
    let mut disk = FileDisk::create(&rt, SHORT, 4).expect(&rt, "a new file");
    fs::write(&rt, SHORT, b"abc".as_slice()).expect(&rt, "the file");
    assert_eq!(rt; prefix(&mut disk), Err(DiskFault));
    drop(disk);
    fs::remove_file(&rt, SHORT).expect(&rt, "the file");
}
