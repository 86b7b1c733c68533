//! The bytes of a spool without uploads and of one with uploads, and the damaged bytes that are refused.

use crate::uploads::{fresh, opened};
use enc_index::{Index, IndexSet, Kind};
use enc_model::{Encoding, Mode};
use enc_stream::Transcoder;
use spool_disk::{Disk, MemoryDisk};
use spool_image::{FormatError, OpenFault, Spool, format, pages_of};
use spool_pages::{BorrowedRecord, Version};
use std::alloc::Global;
use std::process::Abort;
use upload_rules::{UploadError, UploadRefusal, Uploads};

/// A disk of 557 pages, the size of a spool of 16 blocks.
fn small_disk(rt: &impl Abort, alloc: Global) -> MemoryDisk {
    MemoryDisk::new(alloc, 557 * 4096).expect(rt, "memory for a disk")
}

/// The byte of a disk at an address.
pub(crate) fn byte_at(rt: &impl Abort, disk: &mut MemoryDisk, at: u64) -> u8 {
    assert!(rt; at < disk.len());
    let mut byte = [0];
    disk.read(at, &mut byte).expect(rt, "a read");
    byte[0]
}

/// Writes bytes at an address.
pub(crate) fn put(rt: &impl Abort, disk: &mut MemoryDisk, at: u64, bytes: &[u8]) {
    let size = disk.len();
    let count = bytes.len() as u64;
    assert!(rt; count <= size && at <= size - count);
    disk.write_at(at, bytes).expect(rt, "a write");
}

/// Writes three uploads: 7 in slot 0; 3 in slot 4, with one accepted byte; and 2 in slot 6, of unknown length and with
/// as many accepted bytes as are allowed. The text of upload 7 has 4,097 bytes, in the blocks 3 and 9.
fn write_uploads(rt: &impl Abort, disk: &mut MemoryDisk) {
    let transcoder = Transcoder::new(Encoding::Utf8, Encoding::ShiftJis, Mode::Fatal);
    let mut record = BorrowedRecord {
        number: 7,
        declared: Some(5000),
        accepted: 0,
        text_len: 4097,
        state: transcoder.pack(),
        metadata: b"name",
    };
    put(rt, disk, 284 * 4096, &record.to_bytes(Version::Two));
    record.number = 3;
    record.accepted = 1;
    record.text_len = 0;
    // The phase is decoding.
    record.state[3] = 1;
    put(rt, disk, 286 * 4096, &record.to_bytes(Version::Two));
    record.number = 2;
    record.declared = None;
    record.accepted = 1_073_741_824;
    put(rt, disk, 287 * 4096, &record.to_bytes(Version::Two));
    put(rt, disk, 283 * 4096 + 11, &[8]);
    put(rt, disk, 540 * 4096 + 8 * 3 + 3, &[1]);
    put(rt, disk, 540 * 4096 + 8 * 9 + 3, &[1, 0, 0, 0, 1]);
    put(rt, disk, 544 * 4096 + 4094, b"ab");
    put(rt, disk, 550 * 4096, b"cd");
}

#[test]
fn pages_of_the_least_and_the_greatest_spool(rt: HostRuntime) {
    for (blocks, pages) in [
        (16, Some(557)),
        (65536, Some(66331)),
        (15, None),
        (65537, None),
    ] {
        assert_eq!(rt; pages_of(blocks), pages, "{blocks}");
    }
}

#[test]
fn record_lies_as_the_format_says(rt: HostRuntime) {
    let mut disk = small_disk(&rt, rt.alloc());
    write_uploads(&rt, &mut disk);
    // Upload 7: the number, the length of 5,000, the text length of 4,097, the metadata with its length, and the tag of
    // a known length. Upload 3: an accepted byte. Upload 2: the accepted bytes, and the tag of an unknown length.
    for (at, want) in [
        (284 * 4096 + 7, 7),
        (284 * 4096 + 14, 0x13),
        (284 * 4096 + 15, 0x88),
        (284 * 4096 + 30, 0x10),
        (284 * 4096 + 31, 1),
        (284 * 4096 + 65, 4),
        (284 * 4096 + 66, b'n'),
        (284 * 4096 + 69, b'e'),
        (284 * 4096 + 70, 0),
        (284 * 4096 + 1602, 0),
        (286 * 4096 + 23, 1),
        (287 * 4096 + 20, 0x40),
        (287 * 4096 + 1602, 1),
    ] {
        assert_eq!(rt; byte_at(&rt, &mut disk, at), want, "at {at}");
    }
}

#[test]
fn spool_is_not_formatted_again(rt: HostRuntime) {
    let index = Index::read(rt.alloc(), b"0\t3000\n", Kind::Jis0208).expect(&rt, "an index");
    let mut indexes = IndexSet::new(rt.alloc()).expect(&rt, "memory for a set");
    indexes.set(index);
    let mut disk = small_disk(&rt, rt.alloc());
    assert_eq!(rt; format(&mut disk, 16, &indexes), Ok(()));
    // The first page, the gate, the index area's flag and first code points, the state page, and the first record.
    for (at, want) in [
        (0, b'T'),
        (7, b'L'),
        (11, 16),
        (12, 0),
        (4096, 0),
        (261 * 4096, 1),
        (261 * 4096 + 34, 0x30),
        (261 * 4096 + 36, 0xFF),
        (283 * 4096 + 3, 2),
        (283 * 4096 + 11, 1),
        (283 * 4096 + 12, 0),
        (284 * 4096, 0),
    ] {
        assert_eq!(rt; byte_at(&rt, &mut disk, at), want, "at {at}");
    }
    let again = format(&mut disk, 16, &indexes);
    let less = format(&mut disk, 15, &indexes);
    assert_eq!(rt;
        (again, less),
        (
            Err(FormatError::AlreadySpool),
            Err(FormatError::AlreadySpool)
        )
    );
}

/// The disk after an opening, and the fault if it was refused.
pub(crate) fn refused(alloc: Global, disk: MemoryDisk) -> (MemoryDisk, Option<OpenFault>) {
    match Spool::open(alloc, disk) {
        Ok(spool) => (spool.into_disk(), None),
        Err((disk, fault)) => (disk, Some(fault)),
    }
}

/// Changes a byte in each row, checks how the opening refuses the spool, and changes it back. At the end the spool
/// opens again.
fn refuse_all(rt: &impl Abort, alloc: Global, disk: MemoryDisk, rows: &[(u64, u8, OpenFault)]) {
    let mut disk = disk;
    for &(at, byte, want) in rows {
        let before = byte_at(rt, &mut disk, at);
        put(rt, &mut disk, at, &[byte]);
        let (back, fault) = refused(alloc, disk);
        disk = back;
        assert_eq!(rt; fault, Some(want), "{at}: {byte}");
        put(rt, &mut disk, at, &[before]);
    }
    let (_, fault) = refused(alloc, disk);
    assert_eq!(rt; fault, None);
}

/// Bytes that damage a spool without uploads: an open gate with a count of 0, another version, a next number of 0,
/// flags of the index area, a byte after them, an entry of each of four files that aren't there, bytes after the last
/// entry, a number that isn't below the next number, a block of a free slot, and another first byte.
const DAMAGED_EMPTY: [(u64, u8, OpenFault); 15] = [
    (4096, 0xA5, OpenFault::Damaged),
    (283 * 4096 + 3, 9, OpenFault::Version),
    (283 * 4096 + 11, 0, OpenFault::Damaged),
    (261 * 4096, 2, OpenFault::Damaged),
    (261 * 4096 + 17, 2, OpenFault::Damaged),
    (261 * 4096 + 18, 1, OpenFault::Damaged),
    (261 * 4096 + 34, 0x30, OpenFault::Damaged),
    (261 * 4096 + 45154, 0x4E, OpenFault::Damaged),
    (261 * 4096 + 80498, 0x30, OpenFault::Damaged),
    (261 * 4096 + 80750, 0x20, OpenFault::Damaged),
    (261 * 4096 + 88428, 1, OpenFault::Damaged),
    (261 * 4096 + 90111, 1, OpenFault::Damaged),
    (284 * 4096 + 7, 1, OpenFault::Damaged),
    (540 * 4096 + 3, 1, OpenFault::Damaged),
    (0, 0, OpenFault::NotASpool),
];

/// A disk with the three uploads.
fn with_uploads(rt: &impl Abort, alloc: Global) -> MemoryDisk {
    let mut disk = fresh(rt, alloc);
    write_uploads(rt, &mut disk);
    disk
}

/// The output encoding and the declared length of an upload.
fn recorded(spool: &Spool<MemoryDisk>, number: u64) -> Option<(Encoding, Option<u64>)> {
    spool.record(number).map(|it| (it.to, it.declared))
}

/// The number of the upload that follows.
fn after_it(spool: &Spool<MemoryDisk>, number: u64) -> Option<u64> {
    spool.record_after(number).map(|it| it.number)
}

#[test]
fn uploads_are_told_of_and_read(rt: HostRuntime) {
    let mut spool = opened(&rt, rt.alloc(), with_uploads(&rt, rt.alloc()));
    assert_eq!(rt;
        (
            spool.next_number(),
            spool.indexes().offers(Encoding::ShiftJis)
        ),
        (8, false)
    );
    assert!(rt; spool.record(4).is_none());
    for (number, declared, after) in [
        (2, None, Some(3)),
        (3, Some(5000), Some(7)),
        (7, Some(5000), None),
    ] {
        assert_eq!(rt;
            recorded(&spool, number),
            Some((Encoding::ShiftJis, declared))
        );
        assert_eq!(rt; after_it(&spool, number), after);
    }
    let mut buf = [0; 4];
    let read = spool.read_text(7, 4094, &mut buf);
    assert_eq!(rt; (read, buf), (Ok(3), *b"abc\0"));
    assert_eq!(rt; spool.read_text(3, 0, &mut buf), Ok(0));
    assert_eq!(rt;
        spool.read_text(4, 0, &mut buf),
        Err(UploadError::Refused(UploadRefusal::NoSuch))
    );
    drop(spool.into_disk());
}

/// Bytes that damage the spool with the three uploads.
const DAMAGED: [(u64, u8, OpenFault); 31] = [
    // an open gate; a byte after the fields of page 0, after those of the state page, and after the index area's tables
    (4096, 0xA5, OpenFault::Damaged),
    (12, 1, OpenFault::Damaged),
    (283 * 4096 + 12, 1, OpenFault::Damaged),
    (261 * 4096 + 88428, 1, OpenFault::Damaged),
    // a number that is used twice, and one that isn't below the next number
    (286 * 4096 + 7, 7, OpenFault::Damaged),
    (284 * 4096 + 7, 8, OpenFault::Damaged),
    // more bytes accepted than declared, and a declared length above the limit
    (286 * 4096 + 21, 1, OpenFault::Damaged),
    (286 * 4096 + 11, 1, OpenFault::Damaged),
    // more accepted bytes of an unknown length than are allowed, and the phase after the end with an unknown length
    (287 * 4096 + 23, 1, OpenFault::Damaged),
    (287 * 4096 + 35, 2, OpenFault::Damaged),
    // a source that is no encoding; a phase of decoding before the first byte, one after the end, and one that doesn't
    // exist
    (284 * 4096 + 32, 21, OpenFault::Damaged),
    (284 * 4096 + 35, 1, OpenFault::Damaged),
    (284 * 4096 + 35, 2, OpenFault::Damaged),
    (284 * 4096 + 35, 3, OpenFault::Damaged),
    // no number; an unknown length with a known length's bytes, a tag that doesn't exist, and an unknown length with
    // one byte of a length
    (284 * 4096 + 7, 0, OpenFault::Damaged),
    (284 * 4096 + 1602, 1, OpenFault::Damaged),
    (287 * 4096 + 1602, 2, OpenFault::Damaged),
    (287 * 4096 + 15, 1, OpenFault::Damaged),
    // metadata that is too long, that isn't UTF-8, and that has a line feed; bytes after the metadata and after the
    // tag; and a byte in a free slot
    (284 * 4096 + 64, 7, OpenFault::Damaged),
    (284 * 4096 + 66, 0xFF, OpenFault::Damaged),
    (284 * 4096 + 66, 0x0A, OpenFault::Damaged),
    (284 * 4096 + 70, 1, OpenFault::Damaged),
    (284 * 4096 + 1603, 1, OpenFault::Damaged),
    (284 * 4096 + 2047, 1, OpenFault::Damaged),
    (284 * 4096 + 2048 + 100, 1, OpenFault::Damaged),
    // an ordinal that is used twice, one after the text, and one that is missing
    (540 * 4096 + 8 * 9 + 7, 0, OpenFault::Damaged),
    (540 * 4096 + 8 * 9 + 7, 2, OpenFault::Damaged),
    (540 * 4096 + 8 * 3 + 3, 0, OpenFault::Damaged),
    // a free row with an ordinal, a row of a free slot, and a row after the last block
    (540 * 4096 + 8 * 5 + 7, 1, OpenFault::Damaged),
    (540 * 4096 + 8 * 5 + 3, 2, OpenFault::Damaged),
    (540 * 4096 + 8 * 16 + 3, 1, OpenFault::Damaged),
];

#[test]
fn damaged_spools_are_refused(rt: HostRuntime) {
    let (_, fault) = refused(rt.alloc(), small_disk(&rt, rt.alloc()));
    assert_eq!(rt; fault, Some(OpenFault::NotASpool));
    refuse_all(&rt, rt.alloc(), fresh(&rt, rt.alloc()), &DAMAGED_EMPTY);
    let mut disk = with_uploads(&rt, rt.alloc());
    // The journal's head counts one page more than the journal has, which is damage only while the gate is open.
    put(&rt, &mut disk, 8192, &[0, 0, 1, 3]);
    refuse_all(&rt, rt.alloc(), disk, &DAMAGED);
}
