//! Spools in files: they are formatted, used, listed, upgraded and refused.

use crate::spools::{opened, ran};
use crate::steps::Step::{self, Added, Deferred, Made, Open};
use crate::talks::Talk;
use gateway_delete::incomplete_in;
use gateway_export::{SystemPlaces, export_in};
use gateway_format::{NewSpool, format_at, raise_in, upgrade_in};
use gateway_indexes::SystemFolders;
use gateway_list::{json_in, list_in, list_on};
use gateway_outside::{Failure, Noted, SystemFiles, open_in};
use spool_disk::{Disk, FileDisk};
use std::alloc::Global;
use std::fs;
use std::io::Write;
use std::process::Abort;
use upload_rules::Uploads;

const FOLDER: &str = "gateway_file_test";

const SPOOL: &str = "gateway_file_test/spool";

const OTHER: &str = "gateway_file_test/other";

/// What is said where index files aren't the standard's, though they have to be.
const OTHERS: &str = "refused: 41 OtherIndexes\n\
    gateway_file_test hasn't the standard's 18 index files, and no spool was made: take those of \
    /usr/share/wovelatsa/indexes or encoding.spec.whatwg.org";

const JIS0208: &str = "gateway_file_test/index-jis0208.txt";

const JIS0212: &str = "gateway_file_test/index-jis0212.txt";

/// The line of a new spool of 16 blocks.
const MADE: &[u8] = b"formatted 16 blocks, 557 pages\n";

/// The first lines on standard error then. No test has whole files but those of `tests/clients`.
const TOLD: &[u8] = b"index files read: 2\n\
    WARNING: index-jis0208.txt isn't whole: it has 1 entries, and the standard's 7724\n\
    WARNING: texts in Shift_JIS, EUC-JP and ISO-2022-JP will be spoiled for good: make the spool again, with the \
    standard's file\n\
    WARNING: index-jis0212.txt isn't whole: it has 1 entries, and the standard's 6067\n\
    WARNING: texts in EUC-JP will be spoiled for good: make the spool again, with the standard's file\n\
    not offered: ISO-2022-JP, since index-iso-2022-jp-katakana.txt isn't there\n\
    not offered: IBM866, since index-ibm866.txt isn't there\n";

const AGAIN: &str = "gateway_again_test";

/// Three uploads: a partial one, a complete one from UTF-16LE in the mode `fatal`, whose text has half as many bytes,
/// and one of unknown length.
const STEPS: &[Step] = &[
    Open(1),
    Made(1, 6, ""),
    Added(1, 0, b"hello", 5),
    Made(2, 4, "from dXRmLTE2bGU=,mode ZmF0YWw="),
    Added(2, 0, b"a\0b\0", 4),
    Deferred(3, ""),
];

const LISTED: &[u8] = b"1 5/6 5 UTF-8 UTF-8 html\n\
    2 4/4 2 UTF-16LE UTF-8 fatal from dXRmLTE2bGU=,mode ZmF0YWw=\n\
    3 0/? 0 UTF-8 UTF-8 html\n";

/// A new spool of 16 blocks with the index files of this folder.
fn small(indexes: &str) -> NewSpool<'_> {
    NewSpool {
        blocks: 16,
        indexes,
        overwrite: false,
        standard: false,
        first: None,
    }
}

/// Checks that the listing of a disk, with metadata, is `LISTED`.
fn lists(rt: &impl Abort, alloc: Global, disk: FileDisk) -> FileDisk {
    let mut lines = Noted::new(Vec::new(alloc));
    let (disk, listed) = list_on(alloc, &mut lines, disk, true);
    assert!(rt; listed.is_ok());
    assert_eq!(rt; lines.into_stream().as_slice(), LISTED);
    disk
}

/// Rewrites the spool in version 1: the version on its state page, and the unknown length of its third record.
fn make_old(rt: &impl Abort, disk: &mut FileDisk) {
    // A spool of 16 text blocks has 258 journal pages, so its state page is page 283.
    let state_page = 4096 * 283u64;
    let third_record = state_page + 4096 + 2 * 2048;
    assert!(rt; disk.len() >= third_record + 2048);
    let mut length = [1; 8];
    let mut tag = [0];
    disk.read(third_record + 8, &mut length)
        .expect(rt, "a length");
    disk.read(third_record + 1602, &mut tag).expect(rt, "a tag");
    assert_eq!(rt; (length, tag), ([0; 8], [1]));
    disk.write_at(state_page, &1u32.to_be_bytes())
        .expect(rt, "a version");
    disk.write_at(third_record + 8, &[0xFF; 8])
        .expect(rt, "no length");
    disk.write_at(third_record + 1602, &[0])
        .expect(rt, "no tag");
    disk.sync().expect(rt, "an old spool");
}

#[test]
fn spool_is_made_used_listed_and_upgraded(rt: HostRuntime) {
    let alloc = rt.alloc();
    let _ = fs::remove_dir_all(&rt, FOLDER);
    fs::create_dir(&rt, FOLDER).expect(&rt, "a folder");
    fs::write(&rt, JIS0208, "0\t3000\n").expect(&rt, "a file");
    fs::write(&rt, JIS0212, "# two\n108\t02D8\n").expect(&rt, "a file");
    let Outcome {
        ended,
        printed,
        told,
    } = formatted(&rt, alloc, SPOOL, small(FOLDER));
    ended.expect(&rt, "a spool");
    assert_eq!(rt; printed.as_slice(), MADE);
    assert!(rt; told.starts_with(TOLD));
    let talk = Talk::new(&rt, alloc, STEPS);
    let disk = open_in(&mut SystemFiles::new(&rt), SPOOL).expect(&rt, "a new spool");
    let (disk, fault, written) = ran(alloc, &talk, disk);
    assert_eq!(rt; fault, None);
    assert_eq!(rt; written, talk.wanted);
    let mut disk = lists(&rt, alloc, disk);
    make_old(&rt, &mut disk);
    drop(lists(&rt, alloc, disk));
    upgraded(&rt, alloc, SPOOL).expect(&rt, "an old spool");
    let disk = open_in(&mut SystemFiles::new(&rt), SPOOL).expect(&rt, "an upgraded spool");
    drop(lists(&rt, alloc, disk));
    let again = upgraded(&rt, alloc, SPOOL);
    let last_line =
        "refused: 35 AlreadyNew\ngateway_file_test/spool is of version 2: there is nothing to do";
    fails(&rt, alloc, again, 2, last_line);
    let standard = NewSpool {
        standard: true,
        ..small(FOLDER)
    };
    let other = formatted(&rt, alloc, OTHER, standard);
    assert!(rt; other.told.starts_with(TOLD));
    fails(&rt, alloc, other.ended, 2, OTHERS);
    assert!(rt; !fs::exists(&rt, OTHER).expect(&rt, "a folder"));
    fs::remove_dir_all(&rt, FOLDER).expect(&rt, "a folder");
}

/// How a command that makes a spool ended.
#[derive(Drop)]
struct Outcome<'a> {
    ended: Result<(), Failure<'a>>,
    printed: Vec<u8>,
    /// on standard error
    told: Vec<u8>,
}

/// Makes a spool in a file.
fn formatted<'a>(
    rt: &HostRuntime,
    alloc: Global,
    path: &'a str,
    wanted: NewSpool<'a>,
) -> Outcome<'a> {
    let mut output = Noted::new(Vec::new(alloc));
    let mut errors = Noted::new(Vec::new(alloc));
    let ended = format_at(
        alloc,
        &mut SystemFiles::new(rt),
        &mut SystemFolders::new(rt),
        &mut output,
        &mut errors,
        path,
        wanted,
    );
    Outcome {
        ended,
        printed: output.into_stream(),
        told: errors.into_stream(),
    }
}

/// Upgrades the spool in a file.
fn upgraded<'a>(rt: &HostRuntime, alloc: Global, path: &'a str) -> Result<(), Failure<'a>> {
    let mut output = Noted::new(Vec::new(alloc));
    upgrade_in(alloc, &mut SystemFiles::new(rt), &mut output, path)
}

/// Checks that a command fails with this status and this message.
fn fails(rt: &impl Abort, alloc: Global, ended: Result<(), Failure>, status: u8, last_line: &str) {
    let failure = ended.expect_err(rt, last_line);
    let replied = format!(in alloc; "{failure}").expect(rt, "memory for a line");
    assert_eq!(rt; (failure.status(), replied.as_str()), (status, last_line));
}

#[test]
fn spool_stays_as_it_is(rt: HostRuntime) {
    let alloc = rt.alloc();
    let _ = fs::remove_dir_all(&rt, AGAIN);
    fs::create_dir(&rt, AGAIN).expect(&rt, "a folder");
    fs::write(&rt, "gateway_again_test/spool", "no spool").expect(&rt, "a file");
    let foreign = formatted(&rt, alloc, "gateway_again_test/spool", small(AGAIN));
    assert!(rt; foreign.printed.is_empty());
    let message = "refused: 40 NotEmpty\n\
    gateway_again_test/spool isn't empty, and no spool: take another path, or --overwrite if nobody needs it. \
    An interrupted format leaves such a file; a damaged spool is one too: see docs/FORMAT.md";
    fails(&rt, alloc, foreign.ended, 2, message);
    let over = NewSpool {
        overwrite: true,
        ..small(AGAIN)
    };
    let made = formatted(&rt, alloc, "gateway_again_test/spool", over);
    made.ended.expect(&rt, "a spool");
    assert_eq!(rt; made.printed.as_slice(), MADE);
    let before = fs::read(&rt, "gateway_again_test/spool").expect(&rt, "its bytes");
    let longer = NewSpool { blocks: 32, ..over };
    let again = formatted(&rt, alloc, "gateway_again_test/spool", longer);
    let message = "refused: 13 AlreadySpool\n\
    gateway_again_test/spool is a spool, and stays as it is: take another path, or remove it yourself";
    fails(&rt, alloc, again.ended, 2, message);
    let index = "gateway_again_test/index-jis0212.txt";
    fs::write(&rt, index, "0\t3000\n8836\t3000\n").expect(&rt, "a file");
    let unread = formatted(&rt, alloc, "gateway_again_test/other", small(AGAIN));
    fails(
        &rt,
        alloc,
        unread.ended,
        2,
        "refused: 4 Range index-jis0212.txt 2\n\
        gateway_again_test/index-jis0212.txt is damaged, or no index file: fetch it again from \
        encoding.spec.whatwg.org",
    );
    let after = fs::read(&rt, "gateway_again_test/spool").expect(&rt, "its bytes");
    assert_eq!(rt; before.len(), 557 * 4096);
    assert!(rt; before == after);
    fs::remove_dir_all(&rt, AGAIN).expect(&rt, "a folder");
}

// Exports a spool into a folder.
fn exported<'a>(
    rt: &'a HostRuntime,
    alloc: Global,
    spool: &'a str,
    folder: &'a str,
) -> Result<(), Failure<'a>> {
    export_in(
        alloc,
        &mut SystemFiles::new(rt),
        &mut SystemPlaces::new(rt),
        &mut Noted::new(rt.stdout()),
        spool,
        folder,
        false,
    )
}

#[test]
fn failure_says_what_the_system_said(rt: HostRuntime) {
    let alloc = rt.alloc();
    let lost = open_in(&mut SystemFiles::new(&rt), "no_such_folder/spool").map(drop);
    let message = "refused: 39 CannotOpen\n\
    cannot open the spool no_such_folder/spool: No such file or directory (os error 2)";
    fails(&rt, alloc, lost, 2, message);
    let standard = NewSpool {
        standard: true,
        ..small("no_such_folder")
    };
    let unmade = formatted(&rt, alloc, "gateway_unmade_test", standard);
    let message = "refused: 33 Io\n\
    cannot look into the folder no_such_folder: No such file or directory (os error 2). The standard's index files \
    are in /usr/share/wovelatsa/indexes, or encoding.spec.whatwg.org has them";
    fails(&rt, alloc, unmade.ended, 2, message);
    assert!(rt; !fs::exists(&rt, "gateway_unmade_test").expect(&rt, "a folder"));
    let nowhere = exported(&rt, alloc, "gateway_unmade_test", "no_such_folder");
    let message = "refused: 33 Io\n\
    cannot look into the folder no_such_folder: No such file or directory (os error 2). The texts are written into a \
    folder that is there: make it first";
    fails(&rt, alloc, nowhere, 2, message);
    let used = FileDisk::create(&rt, "gateway_used_test", 4).expect(&rt, "a file");
    let message = "refused: 38 InUse\n\
    gateway_used_test is in use: stop the gateway that serves it (`fuser gateway_used_test` prints its process)";
    for ended in [
        open_in(&mut SystemFiles::new(&rt), "gateway_used_test").map(drop),
        list_in(
            alloc,
            &mut SystemFiles::new(&rt),
            &mut Noted::new(rt.stdout()),
            &mut Noted::new(rt.stderr()),
            "gateway_used_test",
            false,
        ),
        upgraded(&rt, alloc, "gateway_used_test"),
        exported(&rt, alloc, "gateway_used_test", "."),
        incomplete_in(
            alloc,
            &mut SystemFiles::new(&rt),
            &mut Noted::new(rt.stdout()),
            &mut Noted::new(rt.stderr()),
            "gateway_used_test",
            &[],
            true,
        ),
        json_in(
            alloc,
            &mut SystemFiles::new(&rt),
            &mut Noted::new(rt.stdout()),
            "gateway_used_test",
        ),
    ] {
        fails(&rt, alloc, ended, 2, message);
    }
    drop(used);
    fs::remove_file(&rt, "gateway_used_test").expect(&rt, "a file");
}

const RAISED: &str = "gateway_raised_test";

const RAISED_SPOOL: &str = "gateway_raised_test/spool";

/// Each row: the number of a new spool's first upload, the number that the spool is to get then, and the number that it
/// has.
static RAISES: [(Option<u64>, u64, u64); 5] = [
    (None, 7, 7),
    (Some(0), 0, 1),
    (Some(42), 7, 42),
    (Some(42), 43, 43),
    (None, 999_000_000_000_000_000, 999_000_000_000_000_000),
];

/// A number that would leave too few.
const TOO_LARGE: u64 = 999_000_000_000_000_001;

/// What is said of it.
const NOT_THAT_LARGE: &str =
    "refused: 42 NumberTooLarge\nthe number is at most 999000000000000000: nothing lowers it again";

/// What is printed of a new spool whose first upload gets this number.
fn printed_of(rt: &impl Abort, alloc: Global, first: Option<u64>) -> Vec<u8> {
    let mut lines = Vec::new(alloc);
    let written = match first {
        Some(first) => writeln!(
            &mut lines,
            "formatted 16 blocks, 557 pages\nnext number {}",
            first.max(1)
        ),
        None => writeln!(&mut lines, "formatted 16 blocks, 557 pages"),
    };
    written.expect(rt, "memory for lines");
    lines
}

#[test]
fn next_number_is_raised(rt: HostRuntime) {
    let alloc = rt.alloc();
    let _ = fs::remove_dir_all(&rt, RAISED);
    fs::create_dir(&rt, RAISED).expect(&rt, "a folder");
    let wanted = NewSpool {
        first: Some(TOO_LARGE),
        ..small(RAISED)
    };
    let unmade = formatted(&rt, alloc, RAISED_SPOOL, wanted);
    fails(&rt, alloc, unmade.ended, 2, NOT_THAT_LARGE);
    assert!(rt; !fs::exists(&rt, RAISED_SPOOL).expect(&rt, "a folder"));
    for (first, number, next) in RAISES.iter() {
        let wanted = NewSpool {
            first: *first,
            ..small(RAISED)
        };
        let made = formatted(&rt, alloc, RAISED_SPOOL, wanted);
        made.ended.expect(&rt, "a spool");
        assert_eq!(rt;
            made.printed.as_slice(),
            printed_of(&rt, alloc, *first).as_slice()
        );
        let mut lines = Noted::new(Vec::new(alloc));
        raise_in(
            alloc,
            &mut SystemFiles::new(&rt),
            &mut lines,
            RAISED_SPOOL,
            *number,
        )
        .expect(&rt, "a number");
        let line = format!(in alloc; "next number {next}\n").expect(&rt, "memory for a line");
        let refused = raise_in(
            alloc,
            &mut SystemFiles::new(&rt),
            &mut lines,
            RAISED_SPOOL,
            TOO_LARGE,
        );
        fails(&rt, alloc, refused, 2, NOT_THAT_LARGE);
        assert_eq!(rt; lines.into_stream().as_slice(), line.as_bytes());
        let disk = open_in(&mut SystemFiles::new(&rt), RAISED_SPOOL).expect(&rt, "a spool");
        let gateway = opened(&rt, alloc, disk);
        assert_eq!(rt; gateway.uploads().next_number(), *next);
        drop(gateway.into_disk());
        fs::remove_file(&rt, RAISED_SPOOL).expect(&rt, "a file");
    }
    fs::remove_dir_all(&rt, RAISED).expect(&rt, "a folder");
}
