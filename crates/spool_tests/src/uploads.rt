//! The spool in use.

ghost use Rattle.std.specs.Prelude.{◌≡◌};
ghost use Rattle.upload_rules.specs.Records.{IsValidNew};

use common::Stop;
use enc_index::IndexSet;
use enc_model::{Encoding, Mode};
use spool_disk::{Disk, FuseDisk, MemoryDisk};
use spool_image::{OpenFault, Spool, format};
use std::alloc::Global;
use std::process::Abort;
use upload_rules::{New, UploadError, UploadRefusal, Uploads};

/// The steps of a binary search for a number of calls below 4,096.
pub(crate) const POWERS: [u64; 12] = [2048, 1024, 512, 256, 128, 64, 32, 16, 8, 4, 2, 1];

/// The fields of an upload from UTF-8 to UTF-8 with this length.
pub(crate) fn plain(alloc: Global, declared: u64) -> New
    ensures form { IsValidNew result }
    ensures from { result.from ≡ Encoding.Utf8 }
    ensures to { result.to ≡ Encoding.Utf8 }
{
    New {
        declared: Some(declared),
        ..deferred(alloc)
    }
}

/// The fields of an upload from UTF-8 to UTF-8 with a deferred length.
pub(crate) fn deferred(alloc: Global) -> New
    ensures form { IsValidNew result }
    ensures from { result.from ≡ Encoding.Utf8 }
    ensures to { result.to ≡ Encoding.Utf8 }
{
    New {
        declared: None,
        from: Encoding::Utf8,
        to: Encoding::Utf8,
        mode: Mode::Html,
        metadata: String::new(alloc),
    }
}

/// A disk with a spool of 16 blocks without uploads.
pub(crate) fn fresh(rt: &impl Abort, alloc: Global) -> MemoryDisk {
    let indexes = IndexSet::new(alloc).expect(rt, "memory for a set");
    let mut disk = MemoryDisk::new(alloc, 557 * 4096).expect(rt, "memory for a disk");
    format(&mut disk, 16, &indexes).expect(rt, "a spool");
    disk
}

/// The spool on a disk.
pub(crate) fn opened<D: Disk>(rt: &impl Abort, alloc: Global, disk: D) -> Spool<D> {
    match Spool::open(alloc, disk) {
        Ok(spool) => spool,
        Err((_, fault)) => panic!(rt; "{fault}"),
    }
}

/// How many calls an opening of the spool on a disk makes. A binary search finds the greatest number of calls after
/// which it still fails.
pub(crate) fn calls_of_opening(rt: &impl Abort, alloc: Global, disk: MemoryDisk) -> u64 {
    let mut few = 0u64;
    let mut disk = disk;
    for step in POWERS {
        let calls = few.saturating_add(step);
        match Spool::open(alloc, FuseDisk::new(disk, calls)) {
            Ok(spool) => disk = spool.into_disk().into_inner(),
            Err((left, fault)) => {
                assert_eq!(rt; fault, OpenFault::Stop(Stop::DiskFault));
                disk = left.into_inner();
                few = calls;
            }
        }
    }
    few.saturating_add(1)
}

/// A spool of 16 blocks with an empty upload of this length.
fn with_one(rt: &impl Abort, alloc: Global, length: u64) -> Spool<MemoryDisk> {
    let mut spool = opened(rt, alloc, fresh(rt, alloc));
    assert_eq!(rt; spool.create(plain(alloc, length)), Ok(1));
    spool
}

/// Appends bytes.
pub(crate) fn patched<U: Uploads>(
    uploads: &mut U,
    number: u64,
    offset: u64,
    bytes: &[u8],
) -> Result<u64, UploadError> {
    declared(uploads, number, offset, None, bytes)
}

/// Appends bytes, and declares the length if one is given.
pub(crate) fn declared<U: Uploads>(
    uploads: &mut U,
    number: u64,
    offset: u64,
    declare: Option<u64>,
    bytes: &[u8],
) -> Result<u64, UploadError> {
    let mut draft = uploads.begin(number, offset, bytes.len() as u64, declare)?;
    match uploads.append(&mut draft, bytes) {
        Ok(()) => uploads.commit(draft),
        Err(e) => {
            uploads.drop_open(draft);
            Err(UploadError::Stop(e))
        }
    }
}

/// Whether the text of an upload is `want`.
pub(crate) fn has_text(spool: &mut Spool<MemoryDisk>, number: u64, want: &[u8]) -> bool {
    let mut buf = [0; 65536];
    let read = spool.read_text(number, 0, &mut buf);
    read == Ok(want.len()) && buf.starts_with(want)
}

/// Each row: an upload's length without its last byte, whether another upload takes a block before that byte comes, and
/// the answer to the append of that byte.
const LAST_BYTES: [(u64, bool, Result<u64, UploadError>); 3] = [
    (40960, false, Ok(40961)),
    (61000, false, Ok(61001)),
    (61000, true, Err(UploadError::Refused(UploadRefusal::Full))),
];

#[test]
fn append_wants_a_block_for_the_unfinished_one_alone(rt: HostRuntime) {
    for (stored, between, want) in LAST_BYTES {
        let text = vec![in rt.alloc(); b'a'; stored as usize].expect(&rt, "memory for a text");
        let mut spool = with_one(&rt, rt.alloc(), stored + 1);
        assert_eq!(rt; spool.create(plain(rt.alloc(), 1)), Ok(2));
        assert_eq!(rt; patched(&mut spool, 1, 0, &text), Ok(stored));
        if between {
            assert_eq!(rt; patched(&mut spool, 2, 0, b"b"), Ok(1));
        }
        assert_eq!(rt; patched(&mut spool, 1, stored, b"a"), want);
        drop(spool.into_disk());
    }
}
