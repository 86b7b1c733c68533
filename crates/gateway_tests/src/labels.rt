//! Which labels a text may have, without index files: by UTF-8 and UTF-16 alone.

use enc_index::IndexSet;
use gateway_indexes::MemoryFolder;
use gateway_labels::{FIRST, WantedLabels, json_of, labels_in, labels_on, lines_of};
use gateway_outside::Noted;
use std::process::Abort;

/// Each row: some bytes, how many of them are read at most, and the lines that are printed. A text of no bytes; one
/// with a byte order mark; a cut character, which isn't lost where the text goes on, and is at its end; and a control.
static TEXTS: [(&[u8], u64, &str); 5] = [
    (
        b"",
        FIRST,
        "any of these: UTF-8, UTF-16BE, UTF-16LE: ASCII alone\n",
    ),
    (
        b"\xEF\xBB\xBF\xC3\xA9\n",
        FIRST,
        "UTF-8, also UTF-16BE, UTF-16LE: 0 lost: \u{E9}\n",
    ),
    (
        b"a\xC3\xA9",
        2,
        "UTF-8: 0 lost: ASCII alone\nUTF-16BE: 0 lost: \u{61C3}\nUTF-16LE: 0 lost: \u{C361}\n",
    ),
    (
        b"a\xC3",
        FIRST,
        "UTF-16BE: 0 lost: \u{61C3}\nUTF-16LE: 0 lost: \u{C361}\nUTF-8: 1 lost: a\u{FFFD}\n",
    ),
    (
        b"\x01\xC3\xA9",
        FIRST,
        "UTF-8: 0 lost: \\x01\u{E9}\nUTF-16BE: 1 lost: \u{1C3}\u{FFFD}\nUTF-16LE: 1 lost: \u{C301}\u{FFFD}\n",
    ),
];

#[test]
fn labels_are_printed_in_order(rt: HostRuntime) {
    let alloc = rt.alloc();
    let set = IndexSet::new(alloc).expect(&rt, "memory for a set");
    for (bytes, most, lines) in TEXTS.iter() {
        let mut input = Noted::new(*bytes);
        let labels = labels_on(alloc, &set, &mut input, *most).expect(&rt, "it can be read");
        let printed = lines_of(alloc, &labels.choices).expect(&rt, "memory for lines");
        assert_eq!(&rt; printed.as_str(), *lines);
    }
    let bytes: &[u8] = b"a\xC3\xA9";
    let mut input = Noted::new(bytes);
    let labels = labels_on(alloc, &set, &mut input, 3).expect(&rt, "it can be read");
    let printed = json_of(alloc, &set, &labels).expect(&rt, "memory for lines");
    let first = "{\"labels\":[\"UTF-8\"],\"lost\":0,\"strangeness\":0,\"line\":\"a\u{E9}\"}\n";
    assert!(&rt; printed.starts_with(first));
}

#[test]
fn command_prints_the_labels_of_its_input(rt: HostRuntime) {
    let alloc = rt.alloc();
    let path = format!(in alloc; "indexes").expect(&rt, "a path");
    let mut folders = MemoryFolder::new(path, Vec::new(alloc));
    let wanted = WantedLabels {
        all: false,
        json: false,
    };
    let (bytes, _, lines) = TEXTS[1];
    let mut input = Noted::new(bytes);
    let mut output = Noted::new(Vec::new(alloc));
    let mut errors = Noted::new(Vec::new(alloc));
    let ended = labels_in(
        alloc,
        &mut folders,
        &mut input,
        &mut output,
        &mut errors,
        wanted,
        "indexes",
    );
    assert!(&rt; ended.is_ok());
    assert_eq!(&rt; output.into_stream().as_slice(), lines.as_bytes());
}
