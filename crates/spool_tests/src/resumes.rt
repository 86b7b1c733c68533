//! An upload that is cut inside a character goes on after a crash. Its next append stops at any call of the disk, a
//! crash follows, and after the next opening the upload goes on to the same text and state as an uncut one.

use crate::images::byte_at;
use crate::uploads::{calls_of_opening, has_text, opened, patched};
use enc_index::{Index, IndexSet, Kind};
use enc_model::{Encoding, Mode};
use spool_disk::{Crash, FuseDisk, MemoryDisk};
use spool_image::{Spool, format};
use std::alloc::Global;
use std::process::Abort;
use upload_rules::{New, Uploads};

/// A piece of an upload, the text after it, and the state bytes after it. State bytes that aren't written out are
/// zeros.
type Bar<'a> = (&'a [u8], &'a [u8], &'a [u8]);

/// An upload in pieces.
#[derive(Clone, Copy)]
pub(crate) struct Row<'a> {
    from: Encoding,
    to: Encoding,
    bars: &'a [Bar<'a>],
}

/// The uploads. The state bytes were worked out by hand from FORMAT.md: the source, the output, the mode, the phase,
/// the encoding in effect and its decoder's state; at 16 the encoder's state.
pub(crate) const ROWS: [Row; 6] = [
    // a byte order mark in three pieces
    Row {
        from: Encoding::Utf8,
        to: Encoding::Utf8,
        bars: &[
            (b"\xef", b"", &[0, 0, 0, 0, 1, 0xEF]),
            (b"\xbb", b"", &[0, 0, 0, 0, 2, 0xEF, 0xBB]),
            (b"\xbfA", b"A", &[0, 0, 0, 2]),
        ],
    },
    // U+1F600, cut after its lead surrogate and inside its trail surrogate
    Row {
        from: Encoding::Utf16Le,
        to: Encoding::Utf8,
        bars: &[
            (b"\x3d\xd8", b"", &[2, 0, 0, 1, 2, 2, 0, 0xD8, 0x3D]),
            (b"\x00", b"", &[2, 0, 0, 1, 2, 3, 0, 0xD8, 0x3D]),
            (b"\xde", b"\xf0\x9f\x98\x80", &[2, 0, 0, 2]),
        ],
    },
    // U+3042, then a lead byte before a space
    Row {
        from: Encoding::ShiftJis,
        to: Encoding::Utf8,
        bars: &[
            (b"\x82", b"", &[3, 0, 0, 1, 3, 0x82]),
            (b"\xa0", b"\xe3\x81\x82", &[3, 0, 0, 1, 3]),
            (b"\x82 ", b"\xe3\x81\x82\xef\xbf\xbd ", &[3, 0, 0, 2]),
        ],
    },
    // U+4E02 of jis0212
    Row {
        from: Encoding::EucJp,
        to: Encoding::Utf8,
        bars: &[
            (b"\x8f", b"", &[4, 0, 0, 1, 4, 0x8F]),
            (b"\xb0", b"", &[4, 0, 0, 1, 4, 0xB0, 1]),
            (b"\xa1", b"\xe4\xb8\x82", &[4, 0, 0, 2]),
        ],
    },
    // an escape sequence in three pieces, U+3042, two escape sequences in a row
    Row {
        from: Encoding::Iso2022Jp,
        to: Encoding::Utf8,
        bars: &[
            (b"\x1b", b"", &[5, 0, 0, 1, 5, 5]),
            (b"$", b"", &[5, 0, 0, 1, 5, 6, 0, 0x24]),
            (b"B$\"", b"\xe3\x81\x82", &[5, 0, 0, 1, 5, 3, 3]),
            (
                b"\x1b(B\x1b(BA",
                b"\xe3\x81\x82\xef\xbf\xbdA",
                &[5, 0, 0, 2],
            ),
        ],
    },
    // U+3042 after an escape sequence, then an unmappable character, with which the output returns to ASCII
    Row {
        from: Encoding::Utf8,
        to: Encoding::Iso2022Jp,
        bars: &[
            (
                b"\xe3\x81\x82",
                b"\x1b$B$\"",
                &[0, 5, 0, 1, 0, 0, 0, 0, 0, 0, 0, 0, 0, 0, 0, 0, 2],
            ),
            (
                b"\xf0\x9f\x98\x80",
                b"\x1b$B$\"\x1b(B&#128512;",
                &[0, 5, 0, 2],
            ),
        ],
    },
];

/// The address of the gate.
pub(crate) const GATE: u64 = 4096;

/// The disk also stops at the last four calls of the opening, which read rows.
const LAST_CALLS: u64 = 4;

/// More calls than those four and an append make.
const MOST: u64 = 64;

/// A spool of 16 blocks without uploads, with the index files that the rows need.
fn with_files(rt: &impl Abort, alloc: Global) -> MemoryDisk {
    let mut indexes = IndexSet::new(alloc).expect(rt, "memory for a set");
    for (kind, lines) in [
        (Kind::Jis0208, b"283\t3042\n".as_slice()),
        (Kind::Jis0212, b"1410\t4E02\n"),
        (Kind::Katakana, b"0\t3002\n"),
    ] {
        indexes.set(Index::read(alloc, lines, kind).expect(rt, "an index file"));
    }
    let mut disk = MemoryDisk::new(alloc, 557 * 4096).expect(rt, "memory for a disk");
    format(&mut disk, 16, &indexes).expect(rt, "a spool");
    disk
}

/// 32 state bytes: `prefix`, then zeros.
fn with_zeros(prefix: &[u8]) -> [u8; 32] {
    let mut state = [0; 32];
    for (place, byte) in state.iter_mut().zip(prefix.iter()) {
        *place = *byte;
    }
    state
}

impl<'a> Row<'a> {
    /// The bar with this number.
    fn bar(&self, rt: &impl Abort, bar: usize) -> Bar<'a> {
        *self.bars.get(bar).expect(rt, "a bar")
    }

    /// How many bytes the pieces before `bar` have.
    fn offset(&self, bar: usize) -> u64 {
        let mut offset = 0u64;
        for (piece, _, _) in self.bars.iter().take(bar) {
            offset = offset.saturating_add(piece.len() as u64);
        }
        offset
    }

    /// Makes the upload.
    fn make(&self, rt: &impl Abort, alloc: Global, spool: &mut Spool<MemoryDisk>) {
        let indexes = spool.indexes();
        assert!(rt; indexes.offers(self.from));
        assert!(rt; indexes.offers(self.to));
        assert!(rt; self.to != Encoding::Utf16Be && self.to != Encoding::Utf16Le);
        let new = New {
            declared: Some(self.offset(self.bars.len())),
            from: self.from,
            to: self.to,
            mode: Mode::Html,
            metadata: String::new(alloc),
        };
        assert_eq!(rt; spool.create(new), Ok(1));
    }

    /// Checks the upload after `came` pieces against the row.
    fn check(&self, rt: &impl Abort, spool: &mut Spool<MemoryDisk>, came: usize) {
        let record = spool.record(1).expect(rt, "the upload");
        let (accepted, state) = (record.accepted, record.state);
        assert_eq!(rt; accepted, self.offset(came));
        if came > 0 {
            let (_, text, begins) = self.bar(rt, came - 1);
            assert_eq!(rt; state, with_zeros(begins));
            assert!(rt; has_text(spool, 1, text));
        }
    }

    /// Appends the pieces `from..to`, and checks the upload after each.
    fn go_on(&self, rt: &impl Abort, spool: &mut Spool<MemoryDisk>, from: usize, to: usize) {
        for bar in from..to {
            let (piece, _, _) = self.bar(rt, bar);
            let answer = patched(spool, 1, self.offset(bar), piece);
            assert_eq!(rt; answer, Ok(self.offset(bar + 1)));
            self.check(rt, spool, bar + 1);
        }
    }

    /// Makes the upload and appends the pieces before `bar`, and then that piece on a disk that stops after `calls`
    /// calls. Returns the disk, and whether the piece was answered.
    fn stops_at(
        &self,
        rt: &impl Abort,
        alloc: Global,
        bar: usize,
        calls: u64,
    ) -> (MemoryDisk, bool) {
        let mut spool = opened(rt, alloc, with_files(rt, alloc));
        self.make(rt, alloc, &mut spool);
        self.go_on(rt, &mut spool, 0, bar);
        let (piece, _, _) = self.bar(rt, bar);
        stops(alloc, spool.into_disk(), self.offset(bar), piece, calls)
    }

    /// How many pieces it has.
    pub(crate) fn pieces(&self) -> usize {
        self.bars.len()
    }

    /// A disk on which the append of the piece `bar` stopped once the gate was open, if an opening makes so many calls.
    /// The piece is in the journal alone: no page was copied to its place.
    pub(crate) fn at_open_gate(
        &self,
        rt: &impl Abort,
        alloc: Global,
        bar: usize,
        opening: u64,
    ) -> MemoryDisk {
        for more in 0..MOST {
            let (disk, _) = self.stops_at(rt, alloc, bar, opening.saturating_add(more));
            let mut disk = disk.crash(Crash::Old);
            if byte_at(rt, &mut disk, GATE) == 0xA5 {
                return disk;
            }
        }
        panic!(rt; "the gate isn't opened")
    }

    /// Opens the spool on a disk, checks that the piece `bar` is there, and appends the remaining ones.
    pub(crate) fn goes_on_after(
        &self,
        rt: &impl Abort,
        alloc: Global,
        bar: usize,
        disk: MemoryDisk,
    ) {
        let mut spool = opened(rt, alloc, disk);
        let came = bar.saturating_add(1);
        self.check(rt, &mut spool, came);
        self.go_on(rt, &mut spool, came, self.bars.len());
        drop(spool.into_disk());
    }

    /// Appends the piece `bar` on a disk that stops after `calls` calls, and lets the disk crash. The next opening
    /// finds the upload before this piece or after it, and the remaining pieces follow. Returns whether the piece was
    /// answered.
    fn resumes(&self, rt: &impl Abort, alloc: Global, bar: usize, calls: u64, kind: Crash) -> bool {
        let (disk, answered) = self.stops_at(rt, alloc, bar, calls);
        let mut spool = opened(rt, alloc, disk.crash(kind));
        let before = spool.record(1).map(|it| it.accepted) == Some(self.offset(bar));
        assert!(rt; !(answered && before));
        let came = bar.saturating_add(usize::from(!before));
        self.check(rt, &mut spool, came);
        self.go_on(rt, &mut spool, came, self.bars.len());
        drop(spool.into_disk());
        answered
    }

    /// Lets the append of a piece stop at each call in turn, until it is answered.
    fn resumes_at(&self, rt: &impl Abort, alloc: Global, bar: usize, kind: Crash) {
        let opening = calls_of_opening(rt, alloc, with_files(rt, alloc));
        let first = opening.saturating_sub(LAST_CALLS);
        let mut answered = false;
        for more in 0..MOST {
            if self.resumes(rt, alloc, bar, first.saturating_add(more), kind) {
                answered = more > LAST_CALLS;
                break;
            }
        }
        assert!(rt; answered);
    }
}

/// Appends bytes to upload 1 on a disk that stops after `calls` calls. Returns the disk, and whether the append was
/// answered.
pub(crate) fn stops(
    alloc: Global,
    disk: MemoryDisk,
    offset: u64,
    bytes: &[u8],
    calls: u64,
) -> (MemoryDisk, bool) {
    match Spool::open(alloc, FuseDisk::new(disk, calls)) {
        Ok(mut spool) => {
            let answer = patched(&mut spool, 1, offset, bytes);
            (spool.into_disk().into_inner(), answer.is_ok())
        }
        Err((disk, _)) => (disk.into_inner(), false),
    }
}

/// Lets the append of each piece of each row stop at each call, and the disk crash.
fn resume_all(rt: &impl Abort, alloc: Global, kind: Crash) {
    for row in ROWS {
        for bar in 0..row.bars.len() {
            row.resumes_at(rt, alloc, bar, kind);
        }
    }
}

#[test]
fn cut_uploads_go_on_after_bytes_were_lost_or_kept(rt: HostRuntime) {
    resume_all(&rt, rt.alloc(), Crash::Old);
    resume_all(&rt, rt.alloc(), Crash::New);
}

#[test]
fn cut_uploads_go_on_after_bytes_were_torn(rt: HostRuntime) {
    resume_all(&rt, rt.alloc(), Crash::Torn(0));
    resume_all(&rt, rt.alloc(), Crash::Torn(0xA5));
}
