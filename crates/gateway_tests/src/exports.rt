//! Exports of the texts of uploads to files.

use crate::shelves::{Call, Shelf};
use crate::spools::ends;
use crate::steps::Step::{self, Added, Deferred, Made, Open};
use crate::talks::{Talk, fresh};
use common::Stop;
use gateway_export::{
    ExportTally, FileFolder, Folder, FolderError, HeldText, MemoryPlace, MemoryTexts, export_in,
    export_on,
};
use gateway_outside::{Fault, MemoryFile, Noted};
use spool_disk::MemoryDisk;
use std::alloc::Global;
use std::fs;
use std::io::ErrorKind;
use std::os::unix::fs::symlink;
use std::process::Abort;

/// Five uploads: a partial one, three complete ones, and one of unknown length. Two of the complete ones have the same
/// file name, and one has a name with a slash.
const STEPS: &[Step] = &[
    Open(1),
    Made(1, 6, ""),
    Added(1, 0, b"hello", 5),
    Made(2, 2, "filename bGV0dGVyLnR4dA=="),
    Added(2, 0, b"ab", 2),
    Made(3, 2, "filename YS9i"),
    Added(3, 0, b"cd", 2),
    Made(4, 2, "filename bGV0dGVyLnR4dA=="),
    Added(4, 0, b"ef", 2),
    Deferred(5, "from dXRmLTg=, filename bGF0ZXI="),
];

/// An export into a folder that an earlier one left a part in.
struct Exported {
    folder: &'static str,
    /// What the file `4-letter.txt` has, where there is one.
    found: Option<&'static str>,
    all: bool,
    lines: &'static [u8],
    there: u64,
    differs: bool,
    /// Files that the folder has afterwards.
    files: &'static [(&'static str, &'static str)],
}

static EXPORTS: [Exported; 4] = [
    Exported {
        folder: "gateway_export_longer_test",
        found: Some("mine"),
        all: false,
        lines: b"incomplete 1\nexported 2 2-letter.txt\nexported 3 3.txt\ndiffers 4 4-letter.txt\nincomplete 5\n\
        exported 2 of 5 uploads, 0 there; a file that was there isn't the text of its upload\n",
        there: 0,
        differs: true,
        files: &[
            ("2-letter.txt", "ab"),
            ("3.txt", "cd"),
            ("4-letter.txt", "mine"),
        ],
    },
    Exported {
        folder: "gateway_export_all_test",
        found: Some("my"),
        all: true,
        lines: b"exported 1 1.txt\nexported 2 2-letter.txt\nexported 3 3.txt\ndiffers 4 4-letter.txt\n\
        exported 5 5-later\nexported 4 of 5 uploads, 0 there; a file that was there isn't the text of its upload\n",
        there: 0,
        differs: true,
        files: &[("1.txt", "hello"), ("4-letter.txt", "my"), ("5-later", "")],
    },
    Exported {
        folder: "gateway_export_again_test",
        found: Some("ef"),
        all: false,
        lines: b"incomplete 1\nexported 2 2-letter.txt\nexported 3 3.txt\nthere 4 4-letter.txt\nincomplete 5\n\
        exported 2 of 5 uploads, 1 there\n",
        there: 1,
        differs: false,
        files: &[
            ("2-letter.txt", "ab"),
            ("3.txt", "cd"),
            ("4-letter.txt", "ef"),
        ],
    },
    Exported {
        folder: "gateway_export_empty_test",
        found: None,
        all: false,
        lines: b"incomplete 1\nexported 2 2-letter.txt\nexported 3 3.txt\nexported 4 4-letter.txt\nincomplete 5\n\
        exported 3 of 5 uploads, 0 there\n",
        there: 0,
        differs: false,
        files: &[
            ("2-letter.txt", "ab"),
            ("3.txt", "cd"),
            ("4-letter.txt", "ef"),
        ],
    },
];

/// A spool with five uploads.
fn spool_with_five(rt: &impl Abort, alloc: Global) -> MemoryDisk {
    let talk = Talk::new(rt, alloc, STEPS);
    let disk = fresh(rt, alloc, 16, None);
    ends(rt, alloc, "five uploads", &talk, disk, None)
}

#[test]
fn texts_are_written_into_files(rt: HostRuntime) {
    let alloc = rt.alloc();
    let mut disk = spool_with_five(&rt, alloc);
    for row in EXPORTS.iter() {
        let folder = row.folder;
        let _ = fs::remove_dir_all(&rt, folder);
        fs::create_dir(&rt, folder).expect(&rt, "a folder");
        if let Some(text) = row.found {
            let path = format!(in alloc; "{folder}/4-letter.txt").expect(&rt, "memory for a path");
            fs::write(&rt, path.as_str(), text).expect(&rt, "a file");
        }
        let left = format!(in alloc; "{folder}/.gateway-export").expect(&rt, "memory for a path");
        fs::write(&rt, left.as_str(), "a part").expect(&rt, "a file");
        let mut into = FileFolder::find(&rt, alloc, folder).expect(&rt, "a folder");
        let mut lines = Noted::new(Vec::new(alloc));
        let (after, exported) = export_on(alloc, &mut lines, &mut into, disk, row.all);
        let done = exported.expect(&rt, "an export");
        assert_eq!(rt;
            (done.there, done.differs),
            (row.there, row.differs),
            "{folder}"
        );
        assert!(rt; !fs::exists(&rt, left.as_str()).expect(&rt, "a look at the folder"));
        assert_eq!(rt; lines.into_stream().as_slice(), row.lines);
        for (name, text) in row.files.iter() {
            let path = format!(in alloc; "{folder}/{name}").expect(&rt, "memory for a path");
            let found = fs::read(&rt, path.as_str()).expect(&rt, name);
            assert_eq!(rt; found.as_slice(), text.as_bytes(), "{path}");
        }
        fs::remove_dir_all(&rt, folder).expect(&rt, "a folder");
        disk = after;
    }
}

/// An export into a folder of which one call fails. It has the file `2-letter.txt`.
struct Hindered {
    /// What the file has.
    found: &'static str,
    call: Call,
    error: FolderError,
    lines: &'static [u8],
    outcome: Result<ExportTally, Fault>,
    /// What the file `4-letter.txt` has afterwards, where there is one.
    later: Option<&'static str>,
}

/// What comes of two new files.
const TWO: ExportTally = ExportTally {
    exported: 2,
    there: 0,
    differs: false,
    unread: false,
};

static HINDERED: [Hindered; 5] = [
    Hindered {
        found: "ab",
        call: Call::Read,
        error: FolderError::Refused,
        lines: b"incomplete 1\nunread 2 2-letter.txt\nexported 3 3.txt\nexported 4 4-letter.txt\nincomplete 5\n\
        exported 2 of 5 uploads, 0 there\n",
        outcome: Ok(ExportTally {
            unread: true,
            ..TWO
        }),
        later: Some("ef"),
    },
    Hindered {
        found: "ab",
        call: Call::Sync,
        error: FolderError::Refused,
        lines: b"incomplete 1\nunread 2 2-letter.txt\nexported 3 3.txt\nexported 4 4-letter.txt\nincomplete 5\n\
        exported 2 of 5 uploads, 0 there\n",
        outcome: Ok(ExportTally {
            unread: true,
            ..TWO
        }),
        later: Some("ef"),
    },
    // what isn't the text isn't synced
    Hindered {
        found: "xy",
        call: Call::Sync,
        error: FolderError::Refused,
        lines: b"incomplete 1\ndiffers 2 2-letter.txt\nexported 3 3.txt\nexported 4 4-letter.txt\nincomplete 5\n\
        exported 2 of 5 uploads, 0 there; a file that was there isn't the text of its upload\n",
        outcome: Ok(ExportTally {
            differs: true,
            ..TWO
        }),
        later: Some("ef"),
    },
    // out of memory ends the run
    Hindered {
        found: "ab",
        call: Call::Read,
        error: FolderError::NoMemory,
        lines: b"incomplete 1\n",
        outcome: Err(Fault::Stop(Stop::NoMemory)),
        later: None,
    },
    Hindered {
        found: "ab",
        call: Call::Name,
        error: FolderError::Refused,
        lines: b"incomplete 1\nthere 2 2-letter.txt\nfailed 3 3.txt\n",
        outcome: Err(Fault::Io),
        later: None,
    },
];

#[test]
fn others_are_written(rt: HostRuntime) {
    let alloc = rt.alloc();
    let mut disk = spool_with_five(&rt, alloc);
    for row in HINDERED.iter() {
        let failing = Some((row.call, row.error));
        let mut shelf = Shelf::new(&rt, alloc, "2-letter.txt", row.found, failing, None);
        let mut lines = Noted::new(Vec::new(alloc));
        let (after, exported) = export_on(alloc, &mut lines, &mut shelf, disk, false);
        assert_eq!(rt; lines.into_stream().as_slice(), row.lines);
        assert_eq!(rt; exported, row.outcome);
        assert_eq!(rt; shelf.text("2-letter.txt"), Some(row.found.as_bytes()));
        assert_eq!(rt;
            shelf.text("4-letter.txt"),
            row.later.map(|text| text.as_bytes())
        );
        disk = after;
    }
}

/// The lines of exports into a folder that takes the name `4-letter.txt` for no file, one after the other.
static REFUSED: [&[u8]; 2] = [
    b"incomplete 1\nthere 2 2-letter.txt\nexported 3 3.txt\nexported 4 4.txt\nincomplete 5\n\
    exported 2 of 5 uploads, 1 there\n",
    b"incomplete 1\nthere 2 2-letter.txt\nthere 3 3.txt\nthere 4 4.txt\nincomplete 5\n\
    exported 0 of 5 uploads, 3 there\n",
];

#[test]
fn refused_name_gives_way_to_the_number(rt: HostRuntime) {
    let alloc = rt.alloc();
    let mut disk = spool_with_five(&rt, alloc);
    let mut shelf = Shelf::new(&rt, alloc, "2-letter.txt", "ab", None, Some("4-letter.txt"));
    for wanted in REFUSED.iter() {
        let mut lines = Noted::new(Vec::new(alloc));
        let (after, exported) = export_on(alloc, &mut lines, &mut shelf, disk, false);
        exported.expect(&rt, "an export");
        assert_eq!(rt; lines.into_stream().as_slice(), *wanted);
        assert_eq!(rt; shelf.text("4-letter.txt"), None);
        assert_eq!(rt; shelf.text("4.txt"), Some(b"ef".as_slice()));
        disk = after;
    }
}

/// An order to export, over a spool and a folder in memory that takes names of at most 12 bytes.
struct Order {
    spool: &'static str,
    folder: &'static str,
    all: bool,
    /// The status that it ends with.
    status: u8,
    lines: &'static [u8],
}

static ORDERS: [Order; 5] = [
    Order {
        spool: "spool",
        folder: "elsewhere",
        all: false,
        status: 2,
        lines: b"",
    },
    Order {
        spool: "elsewhere",
        folder: "texts",
        all: false,
        status: 2,
        lines: b"",
    },
    Order {
        spool: "spool",
        folder: "texts",
        all: false,
        status: 4,
        lines: b"incomplete 1\nexported 2 2-letter.txt\nexported 3 3.txt\ndiffers 4 4-letter.txt\nincomplete 5\n\
        exported 2 of 5 uploads, 0 there; a file that was there isn't the text of its upload\n",
    },
    Order {
        spool: "spool",
        folder: "texts",
        all: true,
        status: 4,
        lines: b"exported 1 1.txt\nthere 2 2-letter.txt\nthere 3 3.txt\ndiffers 4 4-letter.txt\n\
        exported 5 5-later\nexported 2 of 5 uploads, 2 there; a file that was there isn't the text of its upload\n",
    },
    Order {
        spool: "spool",
        folder: "texts",
        all: false,
        status: 4,
        lines: b"incomplete 1\nthere 2 2-letter.txt\nthere 3 3.txt\ndiffers 4 4-letter.txt\nincomplete 5\n\
        exported 0 of 5 uploads, 2 there; a file that was there isn't the text of its upload\n",
    },
];

/// Exports as an order asks: the status that it ends with, and what is printed.
fn export_as(
    alloc: Global,
    files: &mut MemoryFile,
    places: &mut MemoryPlace,
    order: &Order,
) -> (u8, Vec<u8>) {
    let mut output = Noted::new(Vec::new(alloc));
    let (spool, folder) = (order.spool, order.folder);
    let status = match export_in(alloc, files, places, &mut output, spool, folder, order.all) {
        Ok(()) => 0,
        Err(failure) => failure.status(),
    };
    (status, output.into_stream())
}

/// Whether these are the bytes.
fn is_all(bytes: &Vec<u8>, wanted: &[u8]) -> bool {
    bytes.as_slice() == wanted
}

/// Whether the folder has this text under this name.
fn has(folder: &MemoryTexts, name: &str, text: &[u8]) -> bool {
    match folder.text(name) {
        Some(found) => found == text,
        None => false,
    }
}

#[test]
fn command_exports_into_a_folder_in_memory(rt: HostRuntime) {
    let alloc = rt.alloc();
    let spool = format!(in alloc; "spool").expect(&rt, "a path");
    let mut files = MemoryFile::new(alloc, spool, spool_with_five(&rt, alloc));
    let name = format!(in alloc; "4-letter.txt").expect(&rt, "a name");
    let content = b"mine".to_vec(alloc).expect(&rt, "a text");
    let mut held = Vec::new(alloc);
    let pushed = held.push(HeldText { name, content });
    assert!(rt; pushed.is_ok());
    let path = format!(in alloc; "texts").expect(&rt, "a path");
    let mut places = MemoryPlace::new(path, MemoryTexts::new(alloc, 12, held));
    for order in ORDERS.iter() {
        let (status, printed) = export_as(alloc, &mut files, &mut places, order);
        assert_eq!(rt; status, order.status);
        assert!(rt; is_all(&printed, order.lines));
    }
    let folder = places.into_folder().expect(&rt, "a folder");
    assert!(rt; has(&folder, "2-letter.txt", b"ab"));
    assert!(rt; has(&folder, "4-letter.txt", b"mine"));
    assert!(rt; has(&folder, "5-later", b""));
}

const UNSYNCED: &str = "gateway_unsynced_test";

/// A link to a file of the system that has no bytes, as the upload has none, and that can't be synced.
const LINK: &str = "gateway_unsynced_test/5-later";

#[test]
fn unread_file_is_named(rt: HostRuntime) {
    let alloc = rt.alloc();
    let _ = fs::remove_dir_all(&rt, UNSYNCED);
    fs::create_dir(&rt, UNSYNCED).expect(&rt, "a folder");
    symlink(&rt, "/proc/self/status", LINK).expect(&rt, "a link");
    let mut into = FileFolder::find(&rt, alloc, UNSYNCED).expect(&rt, "a folder");
    let mut lines = Noted::new(Vec::new(alloc));
    let disk = spool_with_five(&rt, alloc);
    let (_, exported) = export_on(alloc, &mut lines, &mut into, disk, true);
    let done = exported.expect(&rt, "an export");
    assert_eq!(rt; (done.exported, done.unread), (4, true));
    let error = into.unread_error().expect(&rt, "a reason");
    assert_eq!(rt; error.kind(), ErrorKind::InvalidInput);
    fs::remove_dir_all(&rt, UNSYNCED).expect(&rt, "a folder");
}
