//! Operators' commands: deletion, and the conversion of a text without an upload.

use crate::spools::{opened, ran};
use crate::steps::Step::{self, Added, Deferred, Made, Open};
use crate::talks::{Talk, fresh};
use enc_index::{Index, IndexSet, Kind};
use enc_model::{Encoding, Mode};
use gateway_delete::{delete_on, incomplete_on};
use gateway_indexes::{
    Found, HeldFile, MemoryFolder, Used, digest_of, entries_of, found_in, is_standard,
    read_indexes, read_wanted, report_indexes, standard_digest, standard_entries, used_of,
};
use gateway_list::list_on;
use gateway_outside::{Fault, Noted};
use gateway_text::{Conversion, WantedText, conversion_of, text_in, text_on};
use gateway_texts::{Signs, Tally};
use spool_disk::MemoryDisk;
use std::alloc::Global;
use std::io::{self, Write};
use std::process::Abort;

/// Three uploads: a partial one, a complete one, and one of unknown length.
const STEPS: &[Step] = &[
    Open(1),
    Made(1, 6, ""),
    Added(1, 0, b"hello", 5),
    Made(2, 2, ""),
    Added(2, 0, b"ab", 2),
    Deferred(3, ""),
];

/// Each row: the numbers that are deleted one after the other, whether each had an upload, the lines that are printed,
/// and the listing afterwards.
static DELETIONS: [(&[u64], bool, &[u8], &[u8]); 3] = [
    (
        &[],
        true,
        b"",
        b"1 5/6 5 UTF-8 UTF-8 html\n2 2/2 2 UTF-8 UTF-8 html\n3 0/? 0 UTF-8 UTF-8 html\n",
    ),
    (
        &[2, 7, 2],
        false,
        b"deleted 2\nno upload 7\nno upload 2\n",
        b"1 5/6 5 UTF-8 UTF-8 html\n3 0/? 0 UTF-8 UTF-8 html\n",
    ),
    (&[3, 1], true, b"deleted 3\ndeleted 1\n", b""),
];

/// A spool with three uploads.
pub(crate) fn spool_with_three(rt: &impl Abort, alloc: Global) -> MemoryDisk {
    let talk = Talk::new(rt, alloc, STEPS);
    let (disk, fault, written) = ran(alloc, &talk, fresh(rt, alloc, 16, None));
    assert_eq!(rt; fault, None);
    assert_eq!(rt; written, talk.wanted);
    disk
}

#[test]
fn uploads_are_deleted_by_their_numbers(rt: HostRuntime) {
    let alloc = rt.alloc();
    let mut disk = spool_with_three(&rt, alloc);
    for (numbers, all, printed, left) in DELETIONS.iter() {
        let mut lines = Noted::new(Vec::new(alloc));
        let (after, deleted) = delete_on(alloc, &mut lines, disk, numbers);
        assert!(rt; deleted == Ok(*all));
        assert_eq!(rt; lines.into_stream().as_slice(), *printed);
        let mut lines = Noted::new(Vec::new(alloc));
        let (after, listed) = list_on(alloc, &mut lines, after, false);
        assert!(rt; listed.is_ok());
        assert_eq!(rt; lines.into_stream().as_slice(), *left);
        disk = after;
    }
}

#[test]
fn uploads_that_are_not_complete(rt: HostRuntime) {
    let alloc = rt.alloc();
    let (disk, found) = incomplete_on(alloc, spool_with_three(&rt, alloc), &[]);
    let found = found.expect(&rt, "uploads");
    assert_eq!(rt; found.numbers.as_slice(), [1u64, 3].as_slice());
    assert_eq!(rt; (found.unknown, found.complete.len()), (None, 0));
    let (_, found) = incomplete_on(alloc, disk, &[2, 3, 9, 2, 8]);
    let found = found.expect(&rt, "uploads");
    assert_eq!(rt; found.numbers.as_slice(), [1u64].as_slice());
    assert_eq!(rt; found.unknown, Some(9));
    assert_eq!(rt; found.complete.as_slice(), [2u64, 2].as_slice());
}

#[test]
fn what_uploads_use(rt: HostRuntime) {
    let alloc = rt.alloc();
    let gateway = opened(&rt, alloc, spool_with_three(&rt, alloc));
    let used = Used {
        blocks: 2,
        free_slots: 509,
        incomplete: 2,
    };
    assert_eq!(rt; used_of(gateway.uploads()), used);
    drop(gateway.into_disk());
}

#[test]
fn entries_of_an_index(rt: HostRuntime) {
    let read = Index::read(rt.alloc(), b"0\t3000\n11279\t3001\n", Kind::Jis0208);
    let index = read.expect(&rt, "an index");
    assert_eq!(rt;
        (entries_of(&index), standard_entries(Kind::Katakana)),
        (2, 63)
    );
}

/// The SHA-256 digest of two entries, U+3000 at pointer 0 and U+0041 at pointer 2, by Python's hashlib.
const DIGEST: [u8; 32] = [
    0x4A, 0xFE, 0x80, 0x1F, 0xFE, 0x60, 0xE2, 0x9E, 0x17, 0xB5, 0x4B, 0xD6, 0x75, 0x4A, 0x84, 0x3C,
    0xE6, 0x4B, 0xAE, 0x13, 0xA2, 0x9B, 0x8C, 0xD8, 0x3E, 0x64, 0x78, 0x6E, 0x24, 0x39, 0x76, 0x4E,
];

#[test]
fn index_is_told_from_the_standards(rt: HostRuntime) {
    let read = Index::read(rt.alloc(), b"2\t41\n0\t3000\n", Kind::Katakana);
    let index = read.expect(&rt, "an index");
    assert!(rt; digest_of(&index) == DIGEST);
    assert!(rt; standard_digest(Kind::Katakana) != DIGEST);
    assert!(rt; !is_standard(Kind::Katakana, &index));
    assert_eq!(rt; Found::of(Kind::Katakana, &index), Found::Other(2));
    let mut set = IndexSet::new(rt.alloc()).expect(&rt, "a set");
    set.set(index);
    assert_eq!(rt; Found::of_set(&set, Kind::Katakana), Found::Other(2));
    assert_eq!(rt; Found::of_set(&set, Kind::Jis0212), Found::Missing);
    let mut lines = Noted::new(Vec::new(rt.alloc()));
    report_indexes(&mut lines, &found_in(&set)).expect(&rt, "lines");
    assert!(rt; lines.into_stream().starts_with(INDEXES));
}

#[test]
fn indexes_of_a_folder_in_memory(rt: HostRuntime) {
    let alloc = rt.alloc();
    let mut files = Vec::new(alloc);
    for (name, content) in [
        ("index-jis0212.txt", "108\t02D8\n"),
        ("readme.txt", "no index"),
        ("index-jis0208.txt", "0\t3000\n1\t3001\n"),
    ] {
        let file = HeldFile {
            name: String::from_str(alloc, name).expect(&rt, "memory for a name"),
            content: repeated(&rt, alloc, content.as_bytes(), 1),
        };
        files.push(file).expect(&rt, "memory for a file");
    }
    let path = String::from_str(alloc, "idx").expect(&rt, "memory for a path");
    let mut folder = MemoryFolder::new(path, files);
    let read = read_indexes(alloc, &mut folder, "idx").expect(&rt, "index files");
    for (at, file) in read.files.iter().enumerate() {
        let wanted = match at {
            0 => Found::Other(2),
            1 => Found::Other(1),
            _ => Found::Missing,
        };
        assert_eq!(rt; file.found, wanted);
    }
    let lost = read_indexes(alloc, &mut folder, "other").map(drop);
    assert!(rt; lost.is_err_and(|failure| failure.fault() == Fault::Io));
    let mut errors = Noted::new(Vec::new(alloc));
    let other = read_wanted(alloc, &mut folder, &mut errors, "idx", true).map(drop);
    assert!(rt; other.is_err_and(|failure| failure.fault() == Fault::OtherIndexes));
    assert!(rt; errors.into_stream().starts_with(b"index files read: 2\n"));
}

/// The first lines of what is told of a set with one index, which isn't the standard's.
const INDEXES: &[u8] =
    b"not offered: Shift_JIS, EUC-JP and ISO-2022-JP, since the spool has no index-jis0208.txt\n\
    not offered: EUC-JP, since the spool has no index-jis0212.txt\n\
    WARNING: index-iso-2022-jp-katakana.txt isn't whole: it has 2 entries, and the standard's 63\n\
    WARNING: texts in ISO-2022-JP will be spoiled for good: make the spool again, with the standard's file\n\
    not offered: IBM866, since the spool has no index-ibm866.txt\n";

/// Each row: the encoding of a text, its pieces, and how often it has the sign of lost bytes.
static SIGNS: [(Encoding, &[&[u8]], u64); 6] = [
    (Encoding::Utf8, &[b"", b"a"], 0),
    (Encoding::Utf8, &[b"\xEF\xBF\xBD\xEF\xBF", b"\xBDa"], 2),
    (Encoding::Utf8, &[b"\xEF\xEF\xBF\xBD\xEF\xBF\xBE"], 1),
    (Encoding::Utf8, &[b"&#65533;"], 0),
    (
        Encoding::Windows1252,
        &[b"&", b"#65533", b";&#6", b"&#65533;"],
        2,
    ),
    (Encoding::Windows1252, &[b"\xEF\xBF\xBD"], 0),
];

#[test]
fn signs_of_lost_bytes_are_counted(rt: HostRuntime) {
    for (to, pieces, losses) in SIGNS.iter() {
        let mut tally = Tally::new(io::sink(), *to);
        let mut signs = Signs::of(*to);
        let mut bytes = 0u64;
        for piece in pieces.iter() {
            tally.write_all(piece).expect(&rt, "a piece");
            signs.add(piece);
            bytes = bytes.saturating_add(piece.len() as u64);
        }
        assert_eq!(rt; (signs.bytes(), signs.losses()), (bytes, *losses));
        assert_eq!(rt; tally.losses(), *losses);
    }
}

/// Each row: two labels, a mode, and the conversion that they name.
static LABELS: [(&str, &str, &str, Option<Conversion>); 5] = [
    (
        " Latin1",
        "utf-16",
        "fatal",
        Some(Conversion {
            from: Encoding::Windows1252,
            to: Encoding::Utf8,
            mode: Mode::Fatal,
        }),
    ),
    (
        "sjis",
        "koi8",
        "html",
        Some(Conversion {
            from: Encoding::ShiftJis,
            to: Encoding::Koi8R,
            mode: Mode::Html,
        }),
    ),
    ("klingon", "utf-8", "html", None),
    ("utf-8", "big5", "html", None),
    ("utf-8", "utf-8", "strict", None),
];

#[test]
fn labels_ask_for_a_conversion(rt: HostRuntime) {
    for (from, to, mode, conversion) in LABELS.iter() {
        assert_eq!(rt;
            conversion_of(from, to, mode),
            *conversion,
            "{from} {to} {mode}"
        );
    }
}

/// A conversion, bytes that are repeated, and the text that an upload of them stores, which is repeated as often.
struct Input {
    conversion: Conversion,
    bytes: &'static [u8],
    times: usize,
    text: Result<&'static [u8], Fault>,
}

/// The inputs: UTF-16LE after its byte order mark, malformed UTF-8, an unmappable character in each mode, and a text of
/// which one character crosses the end of the first 4,096 bytes.
static INPUTS: [Input; 5] = [
    Input {
        conversion: Conversion {
            from: Encoding::Utf8,
            to: Encoding::Utf8,
            mode: Mode::Fatal,
        },
        bytes: b"\xFF\xFEa\0b\0\x53\x30",
        times: 1,
        text: Ok(b"ab\xE3\x81\x93"),
    },
    Input {
        conversion: Conversion {
            from: Encoding::Utf8,
            to: Encoding::Utf8,
            mode: Mode::Fatal,
        },
        bytes: b"a\xFFb\xE3\x81",
        times: 1,
        text: Ok(b"a\xEF\xBF\xBDb\xEF\xBF\xBD"),
    },
    Input {
        conversion: Conversion {
            from: Encoding::Utf8,
            to: Encoding::Windows1252,
            mode: Mode::Html,
        },
        bytes: b"a\xE3\x81\x93",
        times: 1,
        text: Ok(b"a&#12371;"),
    },
    Input {
        conversion: Conversion {
            from: Encoding::Utf8,
            to: Encoding::Windows1252,
            mode: Mode::Fatal,
        },
        bytes: b"a\xE3\x81\x93",
        times: 1,
        text: Err(Fault::Unencodable(Some('\u{3053}'))),
    },
    Input {
        conversion: Conversion {
            from: Encoding::Utf8,
            to: Encoding::Utf8,
            mode: Mode::Fatal,
        },
        bytes: b"\xE3\x81\x82",
        times: 1400,
        text: Ok(b"\xE3\x81\x82"),
    },
];

/// The bytes, repeated `times` times.
fn repeated(rt: &impl Abort, alloc: Global, bytes: &[u8], times: usize) -> Vec<u8> {
    let mut all = Vec::new(alloc);
    for _ in 0..times {
        all.extend_from_slice(bytes).expect(rt, "memory for bytes");
    }
    all
}

#[test]
fn input_is_written_as_it_would_be_stored(rt: HostRuntime) {
    let alloc = rt.alloc();
    let set = IndexSet::new(alloc).expect(&rt, "memory for a set");
    for input in INPUTS.iter() {
        let bytes = repeated(&rt, alloc, input.bytes, input.times);
        let mut output = Noted::new(Vec::new(alloc));
        let mut reader = Noted::new(bytes.as_slice());
        let mut signs = Signs::of(input.conversion.to);
        let ended = text_on(
            alloc,
            &set,
            input.conversion,
            &mut reader,
            &mut output,
            &mut signs,
        );
        let written = output.into_stream();
        assert_eq!(rt; signs.bytes(), written.len() as u64);
        match (ended, input.text) {
            (Ok(()), Ok(text)) => {
                assert!(rt; written == repeated(&rt, alloc, text, input.times));
            }
            (ended, text) => {
                assert!(rt; ended.err() == text.err());
                assert_eq!(rt; written.as_slice(), b"a".as_slice());
            }
        }
    }
}

/// Each row: the labels of an input and of its text, the folder, whether a loss is refused, and how it ends and what is
/// written. The folder has no index files.
static TEXTS: [(&str, &str, &str, bool, Option<Fault>, &[u8]); 6] = [
    ("utf-8", "utf-8", "idx", false, None, b"a\xEF\xBF\xBDb"),
    (
        "utf-8",
        "utf-8",
        "idx",
        true,
        Some(Fault::Lost),
        b"a\xEF\xBF\xBDb",
    ),
    (
        "utf-16le",
        "utf-8",
        "idx",
        true,
        Some(Fault::Lost),
        b"\xEF\xBD\xA1\xEF\xBF\xBD",
    ),
    ("koi8-r", "utf-8", "idx", false, Some(Fault::BadLabel), b""),
    (
        "utf-8",
        "no label",
        "idx",
        false,
        Some(Fault::BadLabel),
        b"",
    ),
    ("utf-8", "utf-8", "other", false, Some(Fault::Io), b""),
];

#[test]
fn text_of_an_input(rt: HostRuntime) {
    let alloc = rt.alloc();
    let path = String::from_str(alloc, "idx").expect(&rt, "memory for a path");
    let mut folder = MemoryFolder::new(path, Vec::new(alloc));
    for (from, to, at, strict, fault, written) in TEXTS.iter() {
        let mut input = Noted::new(b"a\xFFb".as_slice());
        let mut output = Noted::new(Vec::new(alloc));
        let mut errors = Noted::new(Vec::new(alloc));
        let wanted = WantedText {
            from: *from,
            to: *to,
            mode: "html",
            strict: *strict,
        };
        let ended = text_in(
            alloc,
            &mut folder,
            &mut input,
            &mut output,
            &mut errors,
            wanted,
            *at,
        );
        assert_eq!(rt; ended.err().map(|failure| failure.fault()), *fault);
        assert_eq!(rt; output.into_stream().as_slice(), *written);
        let losses = errors.into_stream().starts_with(b"U+FFFD in the text: ");
        assert_eq!(rt; losses, !written.is_empty());
    }
}
