//! Scripts, and the output that each must write.

use crate::script_stories::{
    CHARACTERS, CUT_BODY, CUT_UNITS, DECLARED_END, DELETED_MEANWHILE, FULL_SHOWN, JAPANESE,
    LENGTHS, METADATA, NO_HEADS, NOT_ENCODED, OPENED_TWICE, OPTIONS, OTHER_METHOD,
    OTHER_METHOD_OF_PATCH, OTHER_PATCH, PASSED_OVER, REFUSED, REFUSED_LENGTHS, WAITERS,
    WINDOWS_1252, WINNER_SHOWN,
};
use crate::spools::ends;
use crate::steps::Step::{self, Came, Deleted, Line, Made, Open, Post, Refused, Shown, Written};
use crate::stories::{FREED, FULL_SPOOL, HELLO, LONG_TEXT, ONE_WINNER};
use crate::talks::{Files, Talk, fresh, with_files};
use common::SLOTS;
use gateway_engine::ScriptFault;
use gateway_list::list_on;
use gateway_outside::Noted;
use gateway_rounds::RunFault;
use std::alloc::Global;
use std::process::Abort;

// Each row of these tables: a name, the spool's blocks, its index files, a story, and the steps after it.

/// Texts.
const TEXTS: &[(&str, u32, Files, &[Step], &[Step])] = &[
    ("characters in UTF-8 that are cut", 32, &[], &[], CHARACTERS),
    (
        "texts that cannot be encoded",
        32,
        WINDOWS_1252,
        &[],
        NOT_ENCODED,
    ),
    (
        "a declared end that cannot be encoded",
        32,
        WINDOWS_1252,
        &[],
        DECLARED_END,
    ),
    ("a text in two pieces", 32, &[], &[], LONG_TEXT),
    (
        "characters in other encodings that are cut",
        32,
        JAPANESE,
        &[],
        CUT_UNITS,
    ),
];

/// Bodies.
const BODIES: &[(&str, u32, Files, &[Step], &[Step])] = &[
    ("one winner at an offset", 32, &[], ONE_WINNER, WINNER_SHOWN),
    ("a body that is cut is kept", 32, &[], &[], CUT_BODY),
    (
        "the body of a refused request is passed over",
        32,
        &[],
        &[],
        PASSED_OVER,
    ),
    ("PATCHes that wait for 100", 32, &[], &[], WAITERS),
];

/// Heads and connections.
const HEADS: &[(&str, u32, Files, &[Step], &[Step])] = &[
    ("OPTIONS, and connections that close", 32, &[], &[], OPTIONS),
    ("heads that are none", 32, &[], &[], NO_HEADS),
    ("HEAD by another method", 32, &[], HELLO, OTHER_METHOD),
    (
        "PATCH by another method",
        32,
        &[],
        &[],
        OTHER_METHOD_OF_PATCH,
    ),
    (
        "a connection that is open is not opened",
        32,
        &[],
        &[],
        OPENED_TWICE,
    ),
];

/// Refused requests.
const REFUSALS: &[(&str, u32, Files, &[Step], &[Step])] = &[
    ("requests that are refused", 32, &[], &[], REFUSED),
    ("metadata", 32, &[], &[], METADATA),
    ("lengths", 32, &[], &[], LENGTHS),
    (
        "a length that another PATCH declares",
        32,
        &[],
        &[],
        OTHER_PATCH,
    ),
    ("lengths that are refused", 32, &[], &[], REFUSED_LENGTHS),
];

/// Spools of 16 blocks.
const BLOCKS: &[(&str, u32, Files, &[Step], &[Step])] = &[
    (
        "blocks of a deleted upload are used again",
        16,
        &[],
        &[],
        FREED,
    ),
    (
        "a PATCH of a deleted upload",
        16,
        &[],
        &[],
        DELETED_MEANWHILE,
    ),
    ("all blocks are owned", 16, &[], FULL_SPOOL, FULL_SHOWN),
];

/// Runs each script and compares its output.
fn run_all(rt: &impl Abort, alloc: Global, rows: &[(&str, u32, Files, &[Step], &[Step])]) {
    for &(what, blocks, files, story, steps) in rows {
        let mut talk = Talk::new(rt, alloc, story);
        talk.go_on(rt, steps);
        let disk = with_files(rt, alloc, blocks, files);
        drop(ends(rt, alloc, what, &talk, disk, None));
    }
}

#[test]
fn texts(rt: HostRuntime) {
    run_all(&rt, rt.alloc(), TEXTS);
}

#[test]
fn bodies(rt: HostRuntime) {
    run_all(&rt, rt.alloc(), BODIES);
}

#[test]
fn heads(rt: HostRuntime) {
    run_all(&rt, rt.alloc(), HEADS);
}

#[test]
fn refusals(rt: HostRuntime) {
    run_all(&rt, rt.alloc(), REFUSALS);
}

#[test]
fn blocks(rt: HostRuntime) {
    run_all(&rt, rt.alloc(), BLOCKS);
}

#[test]
fn line_that_is_none_ends_a_script(rt: HostRuntime) {
    let steps = [Line("came 4 00"), Line("opne 1"), Written("! 4 30")];
    let talk = Talk::new(&rt, rt.alloc(), &steps);
    let disk = fresh(&rt, rt.alloc(), 32, None);
    let refused = Some(RunFault::Script(ScriptFault::Script(2)));
    drop(ends(&rt, rt.alloc(), "a line", &talk, disk, refused));
}

/// The head of a PATCH.
const HEAD: &[u8] =
    b"PATCH /files/1 HTTP/1.1\r\nTus-Resumable: 1.0.0\r\nContent-Type: application/offset+octet-stream\r\n\
    Upload-Offset: 0\r\nContent-Length: 5\r\n\r\n";

#[test]
fn heads_that_are_cut(rt: HostRuntime) {
    let mut talk = Talk::new(&rt, rt.alloc(), &[Open(1), Made(1, 5, "")]);
    for end in 1..HEAD.len() {
        let steps = [Line("open 2"), Came(2, &HEAD[..end]), Line("cut 2")];
        talk.go_on(&rt, &steps);
    }
    talk.go_on(&rt, &[Shown(1, 1, 0, Some(5), "")]);
    let disk = fresh(&rt, rt.alloc(), 32, None);
    drop(ends(&rt, rt.alloc(), "cut heads", &talk, disk, None));
}

#[test]
fn one_upload_too_many(rt: HostRuntime) {
    let mut talk = Talk::new(&rt, rt.alloc(), &[Open(1)]);
    let slots = SLOTS as u64;
    for number in 1..=slots {
        talk.go_on(&rt, &[Made(number, 0, "")]);
    }
    let refused = [
        Post(0, ""),
        Refused(1, "507 Insufficient Storage", 11),
        Shown(1, slots, 0, Some(0), ""),
        Deleted(1, 100),
        Made(slots + 1, 0, ""),
    ];
    talk.go_on(&rt, &refused);
    let disk = fresh(&rt, rt.alloc(), 32, None);
    let disk = ends(&rt, rt.alloc(), "one upload too many", &talk, disk, None);
    let mut lines = Noted::new(Vec::new(rt.alloc()));
    let (disk, listed) = list_on(rt.alloc(), &mut lines, disk, false);
    drop(disk);
    assert!(rt; listed.is_ok());
    let lines = lines.into_stream();
    let last = slots + 1;
    let ends_in = format!(in rt.alloc();
        "\n{slots} 0/0 0 UTF-8 UTF-8 html\n{last} 0/0 0 UTF-8 UTF-8 html\n"
    ).expect(&rt, "memory");
    assert!(rt; lines.ends_with(ends_in.as_bytes()));
    assert_eq!(rt;
        lines.iter().filter(|it| **it == b'\n').count(),
        SLOTS as usize
    );
}
