//! Openings of a spool with an open gate: they fail at any call, they are tried again, and the change is recovered.

use crate::images::{byte_at, put};
use crate::resumes::{GATE, ROWS, Row, stops};
use crate::uploads::{calls_of_opening, fresh, has_text, opened, plain};
use common::Stop;
use spool_disk::{Crash, Disk, FuseDisk, HiccupDisk, MemoryDisk};
use spool_image::{OpenFault, Spool};
use std::alloc::Global;
use std::process::Abort;
use upload_rules::Uploads;

/// The size of the disk in bytes.
const SIZE: usize = 557 * 4096;

/// A crash loses the unsynced bytes, leaves them, makes them zeros, or makes them the byte of an open gate.
const KINDS: [Crash; 4] = [Crash::Old, Crash::New, Crash::Torn(0), Crash::Torn(0xA5)];

/// The bytes of a disk.
fn bytes_of(rt: &impl Abort, alloc: Global, disk: &mut MemoryDisk) -> Vec<u8> {
    let mut bytes = vec![in alloc; 0; SIZE].expect(rt, "memory for a disk");
    let all = bytes.len() as u64;
    assert!(rt; all <= disk.len());
    disk.read(0, &mut bytes).expect(rt, "a read");
    bytes
}

/// A disk of these bytes.
fn disk_of(rt: &impl Abort, alloc: Global, bytes: &[u8]) -> MemoryDisk {
    let mut disk = MemoryDisk::new(alloc, SIZE).expect(rt, "memory for a disk");
    put(rt, &mut disk, 0, bytes);
    disk.sync().expect(rt, "a sync");
    disk
}

/// The bytes of a disk whose gate is open. The five bytes of upload 1 are in the journal alone: no page was copied to
/// its place.
fn with_open_gate(rt: &impl Abort, alloc: Global) -> Vec<u8> {
    let opening = calls_of_opening(rt, alloc, fresh(rt, alloc));
    for more in 0..100u64 {
        let mut spool = opened(rt, alloc, fresh(rt, alloc));
        assert_eq!(rt; spool.create(plain(alloc, 5)), Ok(1));
        let calls = opening.saturating_add(more);
        let (disk, _) = stops(alloc, spool.into_disk(), 0, b"hello", calls);
        let mut disk = disk.crash(Crash::Old);
        if byte_at(rt, &mut disk, GATE) == 0xA5 {
            return bytes_of(rt, alloc, &mut disk);
        }
    }
    panic!(rt; "the gate isn't opened")
}

/// The disk after an opening that it refuses.
fn refused<D: Disk>(rt: &impl Abort, alloc: Global, disk: D) -> D {
    match Spool::open(alloc, disk) {
        Ok(_spool) => panic!(rt; "it is opened"),
        Err((disk, fault)) => {
            assert_eq!(rt; fault, OpenFault::Stop(Stop::DiskFault));
            disk
        }
    }
}

/// The disk after an opening that stops after `calls` calls, and a crash.
fn stopped(
    rt: &impl Abort,
    alloc: Global,
    disk: MemoryDisk,
    calls: u64,
    kind: Crash,
) -> MemoryDisk {
    refused(rt, alloc, FuseDisk::new(disk, calls))
        .into_inner()
        .crash(kind)
}

/// How many calls an opening makes until it has recovered the spool: then a crash leaves the gate closed.
fn calls_of_recovery(rt: &impl Abort, alloc: Global, bytes: &[u8]) -> u64 {
    for calls in 0..100u64 {
        let disk = disk_of(rt, alloc, bytes);
        let mut left = stopped(rt, alloc, disk, calls, Crash::Old);
        if byte_at(rt, &mut left, GATE) == 0 {
            return calls;
        }
    }
    panic!(rt; "the gate isn't closed")
}

/// Checks that the upload has its five bytes, and that the gate is closed.
fn is_home(rt: &impl Abort, alloc: Global, disk: MemoryDisk) {
    let mut spool = opened(rt, alloc, disk);
    assert_eq!(rt; spool.record(1).map(|it| it.accepted), Some(5));
    assert!(rt; has_text(&mut spool, 1, b"hello"));
    let mut disk = spool.into_disk();
    assert_eq!(rt; byte_at(rt, &mut disk, GATE), 0);
}

/// Lets a call of an opening fail once. A failing write leaves nothing, zeros or the byte of an open gate.
fn fail_once(rt: &impl Abort, alloc: Global, bytes: &[u8], call: u64, kind: Crash) {
    for fill in [None, Some(0), Some(0xA5)] {
        let disk = HiccupDisk::new(disk_of(rt, alloc, bytes), call, fill);
        let left = refused(rt, alloc, disk).into_inner().crash(kind);
        is_home(rt, alloc, left);
    }
}

#[test]
fn each_call_of_a_recovery_fails_once(rt: HostRuntime) {
    let bytes = with_open_gate(&rt, rt.alloc());
    for call in 0..calls_of_recovery(&rt, rt.alloc(), &bytes) {
        for kind in KINDS {
            fail_once(&rt, rt.alloc(), &bytes, call, kind);
        }
    }
}

/// Two recoveries in a row stop, with a crash after each, and a third one ends. Each of the two stops at each call.
#[test]
fn three_openings_in_a_row(rt: HostRuntime) {
    let bytes = with_open_gate(&rt, rt.alloc());
    let calls = calls_of_recovery(&rt, rt.alloc(), &bytes);
    for first in 0..calls {
        for second in 0..calls {
            let kind = KINDS[(first % 2 * 2 + second % 2) as usize];
            let disk = disk_of(&rt, rt.alloc(), &bytes);
            let once = stopped(&rt, rt.alloc(), disk, first, kind);
            let twice = stopped(&rt, rt.alloc(), once, second, kind);
            is_home(&rt, rt.alloc(), twice);
        }
    }
}

/// Lets an opening that recovers the piece `bar` stop at each call, and the disk crash. The next opening finds the
/// piece, and the upload goes on. The kinds of crash take turns over the calls and the pieces.
fn stop_each(rt: &impl Abort, alloc: Global, row: &Row, bar: usize, opening: u64) {
    let mut disk = row.at_open_gate(rt, alloc, bar, opening);
    let bytes = bytes_of(rt, alloc, &mut disk);
    for calls in 0..calls_of_recovery(rt, alloc, &bytes) {
        let kind = KINDS[(calls.saturating_add(bar as u64) % 4) as usize];
        let disk = disk_of(rt, alloc, &bytes);
        let left = stopped(rt, alloc, disk, calls, kind);
        row.goes_on_after(rt, alloc, bar, left);
    }
}

#[test]
fn openings_after_each_piece_of_each_row_stop(rt: HostRuntime) {
    let opening = calls_of_opening(&rt, rt.alloc(), fresh(&rt, rt.alloc()));
    for row in ROWS {
        for bar in 0..row.pieces() {
            stop_each(&rt, rt.alloc(), &row, bar, opening);
        }
    }
}
