//! Scripts over disks that fail at one call, or at all calls from one on.

use crate::spools::{calls_of_opening, ran};
use crate::steps::Step;
use crate::stories::{
    CUT_CHARACTER, DECLARED_AND_CUT, DECLARED_LAST, DELETED, FULL_SPOOL, HELLO, LONG_TEXT,
    ONE_WINNER, PATCH_OF_A_DELETED,
};
use crate::talks::{Files, Talk, put_upload, with_files};
use common::Stop;
use enc_index::Kind;
use gateway_engine::ScriptFault;
use gateway_rounds::RunFault;
use spool_disk::{Crash, FuseDisk, HiccupDisk, MemoryDisk};
use spool_image::{OpenFault, Spool};
use std::alloc::Global;
use std::process::Abort;
use upload_rules::Uploads;

/// In each story only the last five calls of the opening fail, which read rows. Other tests let the calls before them
/// fail.
const LAST_CALLS: u64 = 5;

/// More calls than any run makes after these.
const MOST: u64 = 700;

/// A talk over a new spool of `blocks` blocks with these index files.
#[derive(Clone, Copy)]
pub(crate) struct Story<'a> {
    pub(crate) alloc: Global,
    pub(crate) blocks: u32,
    pub(crate) files: Files<'a>,
    pub(crate) talk: &'a Talk,
}

impl Story<'_> {
    pub(crate) fn disk(&self, rt: &impl Abort) -> MemoryDisk {
        with_files(rt, self.alloc, self.blocks, self.files)
    }

    /// The first call that fails in the tests of this story.
    fn first(&self, rt: &impl Abort) -> u64 {
        calls_of_opening(rt, self.alloc, self.disk(rt)).saturating_sub(LAST_CALLS)
    }

    /// Checks that `written` is a prefix of the wanted output, and that the uploads on the disk are those after the
    /// last change that it acknowledges, or those after the next one.
    pub(crate) fn check(&self, rt: &impl Abort, disk: MemoryDisk, written: &[u8]) {
        assert!(rt; self.talk.wanted.starts_with(written));
        let left = replied(rt, self.alloc, disk);
        let mut fits = false;
        for stage in self.talk.stages.iter() {
            let fit = stage.uploads == left;
            if stage.written > written.len() {
                fits = fits || fit;
                break;
            }
            fits = fit;
        }
        assert!(rt; fits);
    }

    /// Runs the talk on a disk whose call number `call` fails. If that call is a write and `fill` is given, its range
    /// is filled with this byte. Returns whether the run was refused.
    fn fails_at(&self, rt: &impl Abort, fill: Option<u8>, call: u64) -> bool {
        let disk = HiccupDisk::new(self.disk(rt), call, fill);
        let (disk, fault, written) = ran(self.alloc, self.talk, disk);
        self.check(rt, disk.into_inner(), &written);
        assert!(rt; fault.is_some() || written == self.talk.wanted);
        is_disk_fault(rt, fault, call)
    }

    /// Lets each call fail in turn, until the run ends before the failing call.
    fn fails_once(&self, rt: &impl Abort, fill: Option<u8>) {
        let first = self.first(rt);
        let mut whole = false;
        for more in 0..MOST {
            if !self.fails_at(rt, fill, first.saturating_add(more)) {
                whole = true;
                break;
            }
        }
        assert!(rt; whole, "the run makes too many calls");
    }

    /// Runs the talk on a disk that fails from the call number `call` on, and then crashes. The next opening also
    /// stops, at one of its first 16 calls, where it would replay an open journal, and the disk crashes again. Returns
    /// whether the run was refused.
    fn stays_failed_at(&self, rt: &impl Abort, kind: Crash, call: u64) -> bool {
        let disk = FuseDisk::new(self.disk(rt), call);
        let (disk, fault, written) = ran(self.alloc, self.talk, disk);
        let left = stopped(rt, self.alloc, disk.into_inner().crash(kind), call % 16);
        self.check(rt, left.crash(kind), &written);
        is_disk_fault(rt, fault, call)
    }

    /// Lets the disk fail from each call on in turn, until the run ends before it.
    fn stays_failed(&self, rt: &impl Abort, kind: Crash) {
        let first = self.first(rt);
        let mut whole = false;
        for more in 0..MOST {
            if !self.stays_failed_at(rt, kind, first.saturating_add(more)) {
                whole = true;
                break;
            }
        }
        assert!(rt; whole, "the run makes too many calls");
    }
}

/// The story of a talk over 16 blocks, without index files.
pub(crate) fn hello(alloc: Global, talk: &Talk) -> Story<'_> {
    Story {
        alloc,
        blocks: 16,
        files: &[],
        talk,
    }
}

/// The disk after an opening that stops after `calls` calls.
fn stopped(rt: &impl Abort, alloc: Global, disk: MemoryDisk, calls: u64) -> MemoryDisk {
    match Spool::open(alloc, FuseDisk::new(disk, calls)) {
        Ok(_spool) => panic!(rt; "opened with {calls} calls"),
        Err((disk, fault)) => {
            assert_eq!(rt; fault, OpenFault::Stop(Stop::DiskFault));
            disk.into_inner()
        }
    }
}

/// Whether a run was refused. Fails the test if it was refused for anything but a disk fault.
fn is_disk_fault(rt: &impl Abort, fault: Option<RunFault>, call: u64) -> bool {
    match fault {
        Some(fault) => {
            let device = fault == RunFault::Script(ScriptFault::Stop(Stop::DiskFault))
                || fault == RunFault::Open(OpenFault::Stop(Stop::DiskFault));
            assert!(rt; device, "at {call}");
            true
        }
        None => false,
    }
}

/// Appends an upload of a spool to `to`, if the spool has it.
fn put_upload_of(
    rt: &impl Abort,
    alloc: Global,
    to: &mut Vec<u8>,
    spool: &mut Spool<MemoryDisk>,
    number: u64,
) {
    if let Some(record) = spool.record(number) {
        let (accepted, declared, count) = (record.accepted, record.declared, record.text_len);
        let mut text = vec![in alloc; 0; count as usize].expect(rt, "memory for a text");
        spool.read_text(number, 0, &mut text).expect(rt, "a text");
        put_upload(rt, alloc, to, number, accepted, declared, &text);
    }
}

/// The uploads on a disk in the form of `put_upload`, by their numbers. The greatest number is 2.
pub(crate) fn replied(rt: &impl Abort, alloc: Global, disk: MemoryDisk) -> Vec<u8> {
    match Spool::open(alloc, disk) {
        Ok(mut spool) => {
            let mut uploads = Vec::new(alloc);
            put_upload_of(rt, alloc, &mut uploads, &mut spool, 1);
            put_upload_of(rt, alloc, &mut uploads, &mut spool, 2);
            drop(spool.into_disk());
            uploads
        }
        Err((_, fault)) => panic!(rt; "{fault}"),
    }
}

/// An index of one character.
const JIS0208: Files = &[(Kind::Jis0208, b"283\t3042\n")];

/// How many blocks a spool has, its index files, and the steps of the talk.
type Row<'a> = (u32, Files<'a>, &'a [Step<'a>]);

static STORIES: [Row; 8] = [
    (16, &[], HELLO),
    (16, JIS0208, CUT_CHARACTER),
    (16, JIS0208, DECLARED_LAST),
    (16, &[], DECLARED_AND_CUT),
    (16, &[], ONE_WINNER),
    (16, &[], FULL_SPOOL),
    (16, &[], DELETED),
    (16, &[], PATCH_OF_A_DELETED),
];

/// A text that a GET returns in two pieces.
static PIECES: [Row; 1] = [(32, &[], LONG_TEXT)];

/// How a disk fails: each call once, with a byte that fills the range of a failing write if one is given; or all calls
/// from each one on, with a kind of crash.
#[derive(Clone, Copy)]
enum Failing {
    Once(Option<u8>),
    Stays(Crash),
}

/// Runs each story on disks that fail in this way.
fn fail(rt: &impl Abort, alloc: Global, rows: &[Row], failing: Failing) {
    for &(blocks, files, steps) in rows {
        let talk = Talk::new(rt, alloc, steps);
        let story = Story {
            alloc,
            blocks,
            files,
            talk: &talk,
        };
        match failing {
            Failing::Once(fill) => story.fails_once(rt, fill),
            Failing::Stays(kind) => story.stays_failed(rt, kind),
        }
    }
}

/// The same for the stories over 16 blocks.
fn fail_all(rt: &impl Abort, alloc: Global, failing: Failing) {
    fail(rt, alloc, &STORIES, failing);
}

#[test]
fn calls_that_fail_once(rt: HostRuntime) {
    for fill in [None, Some(0), Some(165)] {
        fail_all(&rt, rt.alloc(), Failing::Once(fill));
    }
}

#[test]
fn reads_of_a_text_that_fail_once(rt: HostRuntime) {
    fail(&rt, rt.alloc(), &PIECES, Failing::Once(None));
}

#[test]
fn disks_that_stop_and_lose_keep_or_tear_bytes(rt: HostRuntime) {
    for kind in [Crash::Old, Crash::New, Crash::Torn(0), Crash::Torn(165)] {
        fail_all(&rt, rt.alloc(), Failing::Stays(kind));
    }
}

/// Lets each call of an opening fail once, where a failing write leaves zeros; or, if a kind of crash is given, all
/// calls from each one on.
fn openings_fail(rt: &impl Abort, alloc: Global, kind: Option<Crash>) {
    let talk = Talk::new(rt, alloc, HELLO);
    let story = hello(alloc, &talk);
    for call in 0..story.first(rt) {
        let failed = match kind {
            Some(kind) => story.stays_failed_at(rt, kind, call),
            None => story.fails_at(rt, Some(0), call),
        };
        assert!(rt; failed, "at {call}");
    }
}

#[test]
fn calls_of_an_opening_that_fail_once(rt: HostRuntime) {
    openings_fail(&rt, rt.alloc(), None);
}

#[test]
fn disks_that_stop_in_an_opening(rt: HostRuntime) {
    openings_fail(&rt, rt.alloc(), Some(Crash::Torn(165)));
}
