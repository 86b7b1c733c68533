//! The examples of spool_image. The docs of its types and of `Spool::open` have the same lines.

use crate::uploads::plain;
use enc_index::IndexSet;
use spool_disk::{Disk, MemoryDisk};
use spool_image::{
    FormatError, OpenFault, RaiseError, Spool, UpgradeError, format, raise, upgrade,
};
use std::alloc::Global;
use std::process::Abort;
use upload_rules::Uploads;

/// A set of no indexes, and a disk of zeros with room for a spool of 16 blocks.
fn blank(rt: &impl Abort, alloc: Global) -> (IndexSet, MemoryDisk) {
    let indexes = IndexSet::new(alloc).expect(rt, "memory for a set");
    let disk = MemoryDisk::new(alloc, 557 * 4096).expect(rt, "memory for a disk");
    (indexes, disk)
}

#[test]
fn example_of_spool(rt: HostRuntime) {
    let (rt, alloc) = (&rt, rt.alloc());
    let (indexes, mut disk) = blank(rt, alloc);
    let new = plain(alloc, 5);
    format(&mut disk, 16, &indexes).expect(rt, "a long disk");
    let mut spool = Spool::open(alloc, disk).ok().expect(rt, "a spool");
    let number = spool.create(new).expect(rt, "a free slot");
    let mut draft = spool.begin(number, 0, 5, None).expect(rt, "a draft");
    spool.append(&mut draft, b"hel").expect(rt, "room");
    spool.append(&mut draft, b"lo").expect(rt, "room");
    assert_eq!(rt; spool.commit(draft), Ok(5));
    let mut text = [0; 5];
    assert_eq!(rt; spool.read_text(number, 0, &mut text), Ok(5));
    let disk = spool.into_disk();
    assert_eq!(rt; text, *b"hello");
    drop(disk);
}

#[test]
fn example_of_open_fault(rt: HostRuntime) {
    let (rt, alloc) = (&rt, rt.alloc());
    let (_, disk) = blank(rt, alloc);
    let (disk, fault) = match Spool::open(alloc, disk) {
        Ok(_spool) => panic!(rt; "it is opened"),
        Err(refused) => refused,
    };
    assert_eq!(rt; fault, OpenFault::NotASpool);
    assert_eq!(rt; disk.len(), 557 * 4096);
}

#[test]
fn example_of_format_error(rt: HostRuntime) {
    let (rt, alloc) = (&rt, rt.alloc());
    let (indexes, mut disk) = blank(rt, alloc);
    assert_eq!(rt; format(&mut disk, 15, &indexes), Err(FormatError::Size));
    assert_eq!(rt; format(&mut disk, 16, &indexes), Ok(()));
    let again = format(&mut disk, 16, &indexes);
    assert_eq!(rt; again, Err(FormatError::AlreadySpool));
}

#[test]
fn example_of_upgrade_error(rt: HostRuntime) {
    let (rt, alloc) = (&rt, rt.alloc());
    let (indexes, mut disk) = blank(rt, alloc);
    let no_spool = upgrade(alloc, &mut disk);
    assert_eq!(rt; no_spool, Err(UpgradeError::Open(OpenFault::NotASpool)));
    format(&mut disk, 16, &indexes).expect(rt, "a long disk");
    let new_spool = upgrade(alloc, &mut disk);
    assert_eq!(rt; new_spool, Err(UpgradeError::AlreadyNew));
}

#[test]
fn example_of_raise_error(rt: HostRuntime) {
    let (rt, alloc) = (&rt, rt.alloc());
    let (_, mut disk) = blank(rt, alloc);
    let too_large = raise(alloc, &mut disk, 999_000_000_000_000_001);
    assert_eq!(rt; too_large, Err(RaiseError::TooLarge));
    let no_spool = raise(alloc, &mut disk, 7);
    assert_eq!(rt; no_spool, Err(RaiseError::Open(OpenFault::NotASpool)));
}
