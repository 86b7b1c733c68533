//! Disks that live through rounds and stop at each of their calls in turn.

use crate::replies::{Wanted, replies};
use crate::spools::{POWERS, calls_of_opening};
use crate::talks::fresh;
use enc_index::IndexSet;
use gateway_rounds::{End, Raise, Round, Run, Work, endure, live_through};
use spool_disk::{Crash, Disk, FuseDisk, MemoryDisk};
use spool_image::{RaiseError, UpgradeError, format};
use std::alloc::Global;
use std::process::Abort;

/// What the first round does with an upload.
#[derive(Drop)]
struct Deeds {
    script: &'static [u8],
    /// Each reply in turn, with what a HEAD of the upload gives after it. The first entry is the state before any
    /// reply.
    stages: &'static [(Option<Wanted<'static>>, Wanted<'static>)],
}

/// Makes an upload of five bytes, and fills it.
const FILLS: Deeds = Deeds {
    script: b"open 1
say 1 POST /files HTTP/1.1
say 1 Tus-Resumable: 1.0.0
say 1 Upload-Length: 5
say 1
say 1 PATCH /files/1 HTTP/1.1
say 1 Tus-Resumable: 1.0.0
say 1 Content-Type: application/offset+octet-stream
say 1 Upload-Offset: 0
say 1 Content-Length: 5
say 1
came 1 68656c6c6f
",
    stages: &[
        (None, NONE),
        (Some(Wanted::Made(1)), EMPTY),
        (Some(Wanted::Patched(5)), FULL),
    ],
};

/// Makes an upload of unknown length, declares the length with its bytes, and deletes it.
const DECLARES_AND_DELETES: Deeds = Deeds {
    script: b"open 1
say 1 POST /files HTTP/1.1
say 1 Tus-Resumable: 1.0.0
say 1 Upload-Defer-Length: 1
say 1
say 1 PATCH /files/1 HTTP/1.1
say 1 Tus-Resumable: 1.0.0
say 1 Content-Type: application/offset+octet-stream
say 1 Upload-Offset: 0
say 1 Upload-Length: 5
say 1 Content-Length: 5
say 1
came 1 68656c6c6f
say 1 DELETE /files/1 HTTP/1.1
say 1 Tus-Resumable: 1.0.0
say 1
",
    stages: &[
        (None, NONE),
        (Some(Wanted::Made(1)), DEFERRED),
        (Some(Wanted::Patched(5)), FULL),
        (Some(Wanted::Deleted), NONE),
    ],
};

/// Asks for the upload with HEAD.
const LOOKS: &[u8] = b"open 1\nsay 1 HEAD /files/1 HTTP/1.1\nsay 1 Tus-Resumable: 1.0.0\nsay 1\n";

/// Makes an upload.
const MAKES: &[u8] =
    b"open 1\nsay 1 POST /files HTTP/1.1\nsay 1 Tus-Resumable: 1.0.0\nsay 1 Upload-Length: 5\nsay 1\n";

/// What a HEAD shows: no such upload, an empty one, one of unknown length, and a full one.
const NONE: Wanted = Wanted::Gone;

const EMPTY: Wanted = Wanted::Shown(0, Some(5), "");

const DEFERRED: Wanted = Wanted::Shown(0, None, "");

const FULL: Wanted = Wanted::Shown(5, Some(5), "");

/// More calls than a round makes.
const NO_STOP: u64 = 100_000;

/// What a script's run writes when this reply is given on connection 1; nothing where there is none.
fn written_of(rt: &impl Abort, alloc: Global, reply: Option<Wanted>) -> Vec<u8> {
    let mut written = Vec::new(alloc);
    if let Some(reply) = reply {
        let bytes = replies(rt, alloc, &[reply]);
        let count = bytes.len();
        let line = format!(in alloc; "< 1 {count}\n").expect(rt, "memory");
        written
            .extend_from_slice(line.as_bytes())
            .expect(rt, "memory");
        written.extend_from_slice(&bytes).expect(rt, "memory");
        written.extend_from_slice(b"\n").expect(rt, "memory");
    }
    written
}

/// Checks that the upload is as after the last reply that was written, or as after the next one. Returns whether all
/// replies were written.
fn check(rt: &impl Abort, alloc: Global, deeds: &Deeds, written: &[u8], shown: &[u8]) -> bool {
    let mut left = written;
    let mut right = false;
    let mut whole = true;
    for (reply, after) in deeds.stages {
        let is_after = shown == written_of(rt, alloc, Some(*after)).as_slice();
        match left.strip_prefix(written_of(rt, alloc, *reply).as_slice()) {
            Some(rest) => {
                left = rest;
                right = is_after;
            }
            None => {
                right |= is_after;
                whole = false;
                break;
            }
        }
    }
    assert!(rt; left.is_empty());
    assert!(rt; right);
    whole
}

/// Runs the deeds in a first round, up to the call at which the disk stops, and asks for the upload in a second one.
/// Returns whether the first round ran to its end.
fn lives(
    rt: &impl Abort,
    alloc: Global,
    disk: FuseDisk<MemoryDisk>,
    kind: Crash,
    deeds: &Deeds,
) -> bool {
    let indexes = IndexSet::new(alloc).expect(rt, "there is memory");
    let mut rounds = [
        run_of(rt, alloc, deeds.script, kind),
        run_of(rt, alloc, LOOKS, kind),
    ];
    match endure(alloc, disk, 16, &indexes, &mut rounds) {
        Ok(_disk) => {}
        Err((_disk, fault)) => panic!(rt; "{fault}"),
    }
    let [first, later] = &rounds;
    match (&first.work, &later.work) {
        (Work::Run(first), Work::Run(later)) => {
            let whole = check(rt, alloc, deeds, &first.written.bytes, &later.written.bytes);
            assert!(rt; whole || first.fault.is_some());
            first.fault.is_none()
        }
        _ => panic!(rt; "a run became another work"),
    }
}

/// A round with this work. It ends in a crash if a kind of crash is given.
fn round_of(work: Work, kind: Option<Crash>) -> Round<(Crash, u64)> {
    let end = match kind {
        Some(kind) => End::Crash((kind, NO_STOP)),
        None => End::Nothing,
    };
    Round { work, end }
}

/// A round that runs a script and ends in a crash.
fn run_of(rt: &impl Abort, alloc: Global, script: &[u8], kind: Crash) -> Round<(Crash, u64)> {
    let script = script.to_vec(alloc).expect(rt, "there is memory");
    round_of(Work::Run(Run::new(alloc, script)), Some(kind))
}

/// A disk for 16 text blocks.
fn blank(rt: &impl Abort, alloc: Global) -> MemoryDisk {
    MemoryDisk::new(alloc, 557 * 4096).expect(rt, "there is memory")
}

/// How many calls come before the first stop, which is at the last call but one of the first round's opening. The calls
/// of the formatting come before the opening. A binary search finds their number.
fn first_stop(rt: &impl Abort, alloc: Global) -> u64 {
    let indexes = IndexSet::new(alloc).expect(rt, "there is memory");
    let mut few = 0u64;
    for step in POWERS {
        let calls = few.saturating_add(step);
        if format(&mut FuseDisk::new(blank(rt, alloc), calls), 16, &indexes).is_err() {
            few = calls;
        }
    }
    let opening = calls_of_opening(rt, alloc, fresh(rt, alloc, 16, None));
    few.saturating_add(opening).saturating_sub(1)
}

/// Lets the disk stop at each of its calls in turn and then crash.
fn stop_at_each_call(rt: &impl Abort, alloc: Global, kind: Crash, deeds: &Deeds) {
    let first = first_stop(rt, alloc);
    for more in 0..300u64 {
        let disk = FuseDisk::new(blank(rt, alloc), first.saturating_add(more));
        if lives(rt, alloc, disk, kind, deeds) {
            assert!(rt; more > 2);
            return;
        }
    }
    panic!(rt; "the round makes too many calls")
}

/// The crash loses the unsynced bytes, leaves them, or turns them into the byte of an open gate.
#[test]
fn stop_at_each_call_and_crash(rt: HostRuntime) {
    for kind in [Crash::Old, Crash::New, Crash::Torn(165)] {
        stop_at_each_call(&rt, rt.alloc(), kind, &FILLS);
        stop_at_each_call(&rt, rt.alloc(), kind, &DECLARES_AND_DELETES);
    }
}

/// An empty spool of version 1.
fn spool_of_version_1(rt: &impl Abort, alloc: Global) -> MemoryDisk {
    let mut disk = MemoryDisk::new(alloc, 557 * 4096).expect(rt, "there is memory");
    let indexes = IndexSet::new(alloc).expect(rt, "there is memory");
    format(&mut disk, 16, &indexes).expect(rt, "the disk has room");
    // The state page of a spool of 16 text blocks is page 283.
    disk.write_at(283 * 4096, &1u32.to_be_bytes())
        .expect(rt, "the disk has this page");
    disk
}

/// A spool of version 1 is filled, upgraded to version 2 and read. A second upgrade is refused.
#[test]
fn upgrade_is_a_round(rt: HostRuntime) {
    let alloc = rt.alloc();
    let disk = spool_of_version_1(&rt, alloc);
    let mut rounds = [
        run_of(&rt, alloc, FILLS.script, Crash::Old),
        round_of(Work::Upgrade(None), Some(Crash::Old)),
        round_of(Work::Upgrade(None), None),
        run_of(&rt, alloc, LOOKS, Crash::Old),
    ];
    let _disk = live_through(alloc, FuseDisk::new(disk, NO_STOP), &mut rounds);
    match &rounds[3].work {
        Work::Run(run) => {
            assert_eq!(rt;
                run.written.bytes.as_slice(),
                written_of(&rt, alloc, Some(FULL)).as_slice()
            );
        },
        _ => panic!(rt; "a run became another work"),
    }
    match (&rounds[1].work, &rounds[2].work) {
        (Work::Upgrade(first), Work::Upgrade(second)) => {
            assert_eq!(rt; (*first, *second), (None, Some(UpgradeError::AlreadyNew)));
        }
        _ => panic!(rt; "an upgrade became another work"),
    }
}

/// A round that raises.
fn raise_to(number: u64) -> Round<(Crash, u64)> {
    round_of(
        Work::Raise(Raise {
            number,
            fault: None,
        }),
        Some(Crash::Old),
    )
}

/// A spool is filled and raised, and the next upload gets the later number.
#[test]
fn raise_is_a_round(rt: HostRuntime) {
    let alloc = rt.alloc();
    let mut rounds = [
        run_of(&rt, alloc, FILLS.script, Crash::Old),
        raise_to(40),
        raise_to(7),
        raise_to(1_000_000_000_000_000_001),
        run_of(&rt, alloc, MAKES, Crash::Old),
    ];
    let disk = fresh(&rt, alloc, 16, None);
    let _disk = live_through(alloc, FuseDisk::new(disk, NO_STOP), &mut rounds);
    match (&rounds[1].work, &rounds[2].work, &rounds[3].work) {
        (Work::Raise(later), Work::Raise(lower), Work::Raise(high)) => {
            assert_eq!(rt; (later.fault, lower.fault), (None, None));
            assert_eq!(rt; high.fault, Some(RaiseError::TooLarge));
        }
        _ => panic!(rt; "a raise became another work"),
    }
    match &rounds[4].work {
        Work::Run(run) => {
            assert_eq!(rt;
                run.written.bytes.as_slice(),
                written_of(&rt, alloc, Some(Wanted::Made(40))).as_slice()
            );
        },
        _ => panic!(rt; "a run became another work"),
    }
}
