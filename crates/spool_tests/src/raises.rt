//! Later next numbers.

use crate::images::put;
use crate::upgrades::{STATE, are_there, old_spool};
use crate::uploads::{calls_of_opening, opened, plain};
use common::Stop;
use spool_disk::{Crash, Disk, FuseDisk};
use spool_image::{OpenFault, RaiseError, raise};
use std::alloc::Global;
use std::process::Abort;
use upload_rules::Uploads;

/// The latest number that a spool is raised to.
const LAST: u64 = 999_000_000_000_000_000;

/// Each row: a number, the answer of a raise to it, and the next number afterwards. Before the first it is 4.
const RAISES: [(u64, Result<u64, RaiseError>, u64); 7] = [
    (0, Ok(4), 4),
    (4, Ok(4), 4),
    (5, Ok(5), 5),
    (4, Ok(5), 5),
    (LAST + 1, Err(RaiseError::TooLarge), 5),
    (u64::MAX, Err(RaiseError::TooLarge), 5),
    (LAST, Ok(LAST), LAST),
];

#[test]
fn raise_gives_the_later_number_and_changes_no_upload(rt: HostRuntime) {
    let alloc = rt.alloc();
    let mut disk = old_spool(&rt, alloc);
    for (number, answer, next) in RAISES {
        assert_eq!(rt; raise(alloc, &mut disk, number), answer, "{number}");
        let mut spool = opened(&rt, alloc, disk);
        assert!(rt; are_there(&mut spool, next), "{number}");
        disk = spool.into_disk();
    }
    let mut spool = opened(&rt, alloc, disk);
    assert_eq!(rt; spool.create(plain(alloc, 1)), Ok(LAST));
    drop(spool.into_disk());
}

/// More calls than a raise makes after its opening.
const CALLS: u64 = 20;

/// Lets raises to 9 stop at each call from `first` on, and the disk crash. Each leaves the uploads, and one of the two
/// numbers; without a stop the new one.
fn stop_raises(rt: &impl Abort, alloc: Global, first: u64, kind: Crash) {
    let stopped = Err(RaiseError::Open(OpenFault::Stop(Stop::DiskFault)));
    let mut disk = old_spool(rt, alloc);
    for more in 0..CALLS {
        let mut fuse = FuseDisk::new(disk, first.saturating_add(more));
        let answer = raise(alloc, &mut fuse, 9);
        let mut spool = opened(rt, alloc, fuse.into_inner().crash(kind));
        let next = spool.next_number();
        assert!(rt; are_there(&mut spool, next), "{more}");
        disk = spool.into_disk();
        put(rt, &mut disk, STATE + 4, &4u64.to_be_bytes());
        disk.sync().expect(rt, "a sync");
        if answer == Ok(9) {
            assert_eq!(rt; (next, more > 5), (9, true));
            return;
        }
        assert_eq!(rt; (answer, next == 4 || next == 9), (stopped, true), "{more}");
    }
    panic!(rt; "it makes too many calls")
}

#[test]
fn raise_stops_and_bytes_are_lost_kept_or_torn(rt: HostRuntime) {
    let opening = calls_of_opening(&rt, rt.alloc(), old_spool(&rt, rt.alloc()));
    let first = opening.saturating_sub(1);
    for kind in [Crash::Old, Crash::New, Crash::Torn(0), Crash::Torn(0xA5)] {
        stop_raises(&rt, rt.alloc(), first, kind);
    }
}
