//! Spools of version 1, and upgrades of them.

use crate::images::{byte_at, put, refused};
use crate::uploads::{
    POWERS, calls_of_opening, declared, deferred, fresh, has_text, opened, patched, plain,
};
use common::Stop;
use spool_disk::{Crash, Disk, FuseDisk, MemoryDisk};
use spool_image::{OpenFault, Spool, UpgradeError, upgrade};
use std::alloc::Global;
use std::process::Abort;
use upload_rules::Uploads;

/// The address of the state page in a spool of 16 blocks.
pub(crate) const STATE: u64 = 283 * 4096;

/// The address of its second record.
const SECOND: u64 = 284 * 4096 + 2048;

/// Version 1: the version, the length of the second record, which is unknown, and its tag.
const OLD: (u8, [u8; 8], u8) = (1, [0xFF; 8], 0);

/// The same in version 2.
const NEW: (u8, [u8; 8], u8) = (2, [0; 8], 1);

/// Sets the version on the state page.
fn set_version(rt: &impl Abort, disk: &mut MemoryDisk, version: u8) {
    put(rt, disk, STATE, &[0, 0, 0, version]);
    disk.sync().expect(rt, "a sync");
}

/// Rewrites the spool with the three uploads in version 1.
fn make_old(rt: &impl Abort, disk: &mut MemoryDisk) {
    put(rt, disk, SECOND + 8, &[0xFF; 8]);
    put(rt, disk, SECOND + 1602, &[0]);
    set_version(rt, disk, 1);
}

/// The version on the state page, and the length and the tag of the second record.
fn form_of(rt: &impl Abort, disk: &mut MemoryDisk) -> (u8, [u8; 8], u8) {
    assert!(rt; SECOND + 16 <= disk.len());
    let mut length = [0; 8];
    disk.read(SECOND + 8, &mut length).expect(rt, "a read");
    let version = byte_at(rt, disk, STATE + 3);
    (version, length, byte_at(rt, disk, SECOND + 1602))
}

/// A disk with a spool of version 1 and three uploads: a complete one of five bytes, one of unknown length with two
/// bytes, and one with the first byte of a byte order mark.
pub(crate) fn old_spool(rt: &impl Abort, alloc: Global) -> MemoryDisk {
    let mut disk = fresh(rt, alloc);
    set_version(rt, &mut disk, 1);
    let mut spool = opened(rt, alloc, disk);
    assert_eq!(rt; spool.create(plain(alloc, 5)), Ok(1));
    assert_eq!(rt; patched(&mut spool, 1, 0, b"hello"), Ok(5));
    assert_eq!(rt; spool.create(deferred(alloc)), Ok(2));
    assert_eq!(rt; patched(&mut spool, 2, 0, b"ab"), Ok(2));
    assert_eq!(rt; spool.create(plain(alloc, 4)), Ok(3));
    assert_eq!(rt; patched(&mut spool, 3, 0, b"\xef"), Ok(1));
    spool.into_disk()
}

/// Whether the three uploads are unchanged, and the next number is this one.
pub(crate) fn are_there(spool: &mut Spool<MemoryDisk>, next: u64) -> bool {
    let first = spool.record(1).map(|r| (r.declared, r.accepted));
    let second = spool.record(2).map(|r| (r.declared, r.accepted));
    let third = spool.record(3).map(|r| (r.declared, r.accepted));
    first == Some((Some(5), 5))
        && second == Some((None, 2))
        && third == Some((Some(4), 1))
        && spool.next_number() == next
        && has_text(spool, 1, b"hello")
        && has_text(spool, 2, b"ab")
        && has_text(spool, 3, b"")
}

/// Opens the spool, checks that the three uploads are unchanged, and returns the disk.
fn looked_at(rt: &impl Abort, alloc: Global, disk: MemoryDisk) -> MemoryDisk {
    let mut spool = opened(rt, alloc, disk);
    assert!(rt; are_there(&mut spool, 4));
    spool.into_disk()
}

#[test]
fn upgraded_spool_has_its_uploads_and_goes_on(rt: HostRuntime) {
    let mut disk = old_spool(&rt, rt.alloc());
    assert_eq!(rt; form_of(&rt, &mut disk), OLD);
    assert_eq!(rt; upgrade(rt.alloc(), &mut disk), Ok(()));
    assert_eq!(rt; form_of(&rt, &mut disk), NEW);
    let mut spool = opened(&rt, rt.alloc(), disk);
    assert!(rt; are_there(&mut spool, 4));
    // The rest of the mark, and a letter.
    assert_eq!(rt; patched(&mut spool, 3, 1, b"\xbb\xbfA"), Ok(4));
    assert!(rt; has_text(&mut spool, 3, b"A"));
    assert_eq!(rt; declared(&mut spool, 2, 2, Some(3), b"c"), Ok(3));
    assert!(rt; has_text(&mut spool, 2, b"abc"));
    let mut left = spool.into_disk();
    assert_eq!(rt; form_of(&rt, &mut left), (2, [0, 0, 0, 0, 0, 0, 0, 3], 0));
    assert_eq!(rt;
        upgrade(rt.alloc(), &mut left),
        Err(UpgradeError::AlreadyNew)
    );
}

/// Upgrades on a disk that stops after `calls` calls and then crashes. Checks that the three uploads are unchanged, and
/// returns the disk and the upgrade's answer.
fn upgraded_within(
    rt: &impl Abort,
    alloc: Global,
    disk: MemoryDisk,
    calls: u64,
    kind: Crash,
) -> (MemoryDisk, Result<(), UpgradeError>) {
    let mut fuse = FuseDisk::new(disk, calls);
    let answer = upgrade(alloc, &mut fuse);
    (looked_at(rt, alloc, fuse.into_inner().crash(kind)), answer)
}

/// How many calls an upgrade makes. A binary search finds the greatest number of calls after which it still fails.
fn calls_of_upgrade(rt: &impl Abort, alloc: Global) -> u64 {
    let mut few = 0u64;
    for step in POWERS {
        let calls = few.saturating_add(step);
        let mut fuse = FuseDisk::new(old_spool(rt, alloc), calls);
        if upgrade(alloc, &mut fuse).is_err() {
            few = calls;
        }
    }
    few.saturating_add(1)
}

/// The calls after the write that opens the gate: a sync, 257 page writes, a sync, the write that closes the gate and a
/// sync.
const AFTER_THE_GATE: u64 = 261;

/// Whether the disk is of version 2 after a stop after `calls` of `all` calls, and a crash: whether the gate was
/// opened. An unsynced write of the gate is lost, survives, or is torn to a byte, which may be that of an open gate.
fn is_new(all: u64, calls: u64, kind: Crash) -> bool {
    let written = all.saturating_sub(AFTER_THE_GATE);
    match kind {
        Crash::New | Crash::Torn(0xA5) => calls >= written,
        Crash::Old | Crash::Torn(_) => calls > written,
    }
}

/// Lets the upgrade stop at each call from `first` on, and the disk crash.
fn stop_within(rt: &impl Abort, alloc: Global, first: u64, kind: Crash) {
    let stopped = Err(UpgradeError::Open(OpenFault::Stop(Stop::DiskFault)));
    let all = calls_of_upgrade(rt, alloc);
    let mut disk = old_spool(rt, alloc);
    for calls in first..all {
        let (back, answer) = upgraded_within(rt, alloc, disk, calls, kind);
        disk = back;
        assert_eq!(rt; answer, stopped, "{calls}");
        let wanted = if is_new(all, calls, kind) { NEW } else { OLD };
        assert_eq!(rt; form_of(rt, &mut disk), wanted, "{calls}");
        make_old(rt, &mut disk);
    }
    let (mut left, answer) = upgraded_within(rt, alloc, disk, all, kind);
    assert_eq!(rt; (answer, form_of(rt, &mut left)), (Ok(()), NEW));
}

/// The upgrade's own opening writes nothing, so its calls are tried with one kind of crash only. Torn bytes are zeros
/// or the byte of an open gate.
#[test]
fn upgrade_stops_and_bytes_are_lost_kept_or_torn(rt: HostRuntime) {
    let first = calls_of_opening(&rt, rt.alloc(), old_spool(&rt, rt.alloc()));
    for (from, kind) in [
        (0, Crash::Old),
        (first, Crash::New),
        (first, Crash::Torn(0)),
        (first, Crash::Torn(0xA5)),
    ] {
        stop_within(&rt, rt.alloc(), from, kind);
    }
}

/// Changes a byte in each row, checks how an opening and an upgrade refuse the spool, and changes it back.
fn refuse_all(
    rt: &impl Abort,
    alloc: Global,
    disk: MemoryDisk,
    rows: &[(u64, u8, OpenFault, UpgradeError)],
) -> MemoryDisk {
    let mut disk = disk;
    for &(at, byte, fault, error) in rows {
        let before = byte_at(rt, &mut disk, at);
        put(rt, &mut disk, at, &[byte]);
        let (back, got) = refused(alloc, disk);
        disk = back;
        let answer = upgrade(alloc, &mut disk);
        assert_eq!(rt; (got, answer), (Some(fault), Err(error)), "at {at}");
        put(rt, &mut disk, at, &[before]);
    }
    disk
}

/// Bytes that damage the spool of version 1. The upgrade refuses it for the same reason as the opening.
const OLD_ROWS: [(u64, u8, OpenFault, UpgradeError); 5] = [
    // another version
    (
        STATE + 3,
        9,
        OpenFault::Version,
        UpgradeError::Open(OpenFault::Version),
    ),
    // tags that version 1 lacks
    (
        SECOND + 1602,
        1,
        OpenFault::Damaged,
        UpgradeError::Open(OpenFault::Damaged),
    ),
    (
        SECOND + 1602,
        2,
        OpenFault::Damaged,
        UpgradeError::Open(OpenFault::Damaged),
    ),
    // a byte after the state page's fields
    (
        STATE + 12,
        1,
        OpenFault::Damaged,
        UpgradeError::Open(OpenFault::Damaged),
    ),
    // no spool
    (
        0,
        0,
        OpenFault::NotASpool,
        UpgradeError::Open(OpenFault::NotASpool),
    ),
];

/// Bytes that damage the spool of version 2. The upgrade answers that it is new already, except for another version.
const NEW_ROWS: [(u64, u8, OpenFault, UpgradeError); 5] = [
    // another tag
    (
        SECOND + 1602,
        2,
        OpenFault::Damaged,
        UpgradeError::AlreadyNew,
    ),
    // an unknown length with a byte of a length
    (SECOND + 15, 1, OpenFault::Damaged, UpgradeError::AlreadyNew),
    // bytes after the tag and after the state page's fields
    (
        SECOND + 1603,
        1,
        OpenFault::Damaged,
        UpgradeError::AlreadyNew,
    ),
    (STATE + 12, 1, OpenFault::Damaged, UpgradeError::AlreadyNew),
    // another version
    (
        STATE + 3,
        9,
        OpenFault::Version,
        UpgradeError::Open(OpenFault::Version),
    ),
];

#[test]
fn damaged_spool_is_refused_or_new_already(rt: HostRuntime) {
    let mut disk = looked_at(
        &rt,
        rt.alloc(),
        refuse_all(&rt, rt.alloc(), old_spool(&rt, rt.alloc()), &OLD_ROWS),
    );
    assert_eq!(rt; upgrade(rt.alloc(), &mut disk), Ok(()));
    let mut left = refuse_all(&rt, rt.alloc(), disk, &NEW_ROWS);
    // An unknown length of version 1 is a known length in version 2, and above the limit.
    make_old(&rt, &mut left);
    set_version(&rt, &mut left, 2);
    let (_, fault) = refused(rt.alloc(), left);
    assert_eq!(rt; fault, Some(OpenFault::Damaged));
}
