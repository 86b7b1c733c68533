//! Runs of scripts over spools in memory, and openings of such spools.

use crate::talks::Talk;
use common::Stop;
use gateway_engine::{Gateway, run};
use gateway_rounds::RunFault;
use spool_disk::{Disk, FuseDisk, MemoryDisk};
use spool_image::{OpenFault, Spool};
use std::alloc::Global;
use std::io::{Read, Write};
use std::process::Abort;

/// The steps of a binary search for a number of calls below 4,096.
pub(crate) const POWERS: [u64; 12] = [2048, 1024, 512, 256, 128, 64, 32, 16, 8, 4, 2, 1];

/// Opens the spool on a disk, and runs a script from a reader into a writer. Returns the disk, and the fault if it
/// wasn't opened or the run was refused.
pub(crate) fn ran_between<D: Disk, R: Read, W: Write>(
    alloc: Global,
    reader: &mut R,
    writer: &mut W,
    disk: D,
) -> (D, Option<RunFault>) {
    match run(alloc, reader, writer, disk) {
        Ok(disk) => (disk, None),
        Err((disk, fault)) => (disk, Some(fault)),
    }
}

/// Runs a script over a disk. Returns the disk, the fault if there was one, and what it wrote.
pub(crate) fn ran<D: Disk>(alloc: Global, talk: &Talk, disk: D) -> (D, Option<RunFault>, Vec<u8>) {
    let mut writer = Vec::new(alloc);
    let (disk, fault) = ran_between(alloc, &mut talk.script.as_slice(), &mut writer, disk);
    (disk, fault, writer)
}

/// Runs a script, checks how it ended and what it wrote, and returns the disk.
pub(crate) fn ends(
    rt: &impl Abort,
    alloc: Global,
    what: &str,
    talk: &Talk,
    disk: MemoryDisk,
    refused: Option<RunFault>,
) -> MemoryDisk {
    let (disk, fault, written) = ran(alloc, talk, disk);
    assert_eq!(rt; fault, refused, "{what}");
    assert_eq!(rt; written, talk.wanted, "{what}");
    disk
}

/// The gateway on a disk.
pub(crate) fn opened<D: Disk>(rt: &impl Abort, alloc: Global, disk: D) -> Gateway<Spool<D>> {
    match Gateway::open(alloc, disk) {
        Ok(gateway) => gateway,
        Err((_, fault)) => panic!(rt; "{fault}"),
    }
}

/// How many calls an opening of the spool on a disk makes. A binary search finds the greatest number of calls after
/// which it still fails.
pub(crate) fn calls_of_opening(rt: &impl Abort, alloc: Global, disk: MemoryDisk) -> u64 {
    let mut few = 0u64;
    let mut disk = disk;
    for step in POWERS {
        let calls = few.saturating_add(step);
        match Spool::open(alloc, FuseDisk::new(disk, calls)) {
            Ok(spool) => disk = spool.into_disk().into_inner(),
            Err((left, fault)) => {
                assert_eq!(rt; fault, OpenFault::Stop(Stop::DiskFault));
                disk = left.into_inner();
                few = calls;
            }
        }
    }
    few.saturating_add(1)
}
