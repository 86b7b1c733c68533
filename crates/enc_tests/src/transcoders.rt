//! The text of bytes that come in pieces, whatever the cuts between them.

ghost use Rattle.std.specs.Prelude.{◌≤◌};

use crate::cases::{between, bytes_of, word};
use crate::sets::{all_files, few_pairs};
use crate::strings::STRINGS;
use crate::texts::TEXTS;
use enc_index::IndexSet;
use enc_model::Mode;
use enc_stream::{TranscodeError, Transcoder};
use std::alloc::Global;
use std::process::Abort;

/// The transcoder of a direction and a label.
fn start_of(rt: &impl Abort, direction: &str, label: &str) -> Transcoder {
    match direction {
        "decode" => between(rt, label, "UTF-8", Mode::Html),
        "encode" => between(rt, "UTF-8", label, Mode::Html),
        _ => panic!(rt; "no direction"),
    }
}

/// The text of bytes that come in pieces of `size` bytes.
fn in_pieces(
    rt: &impl Abort,
    alloc: Global,
    start: &Transcoder,
    set: &IndexSet,
    bytes: &[u8],
    size: usize,
) -> Vec<u8> {
    let mut out = Vec::new(alloc);
    let mut transcoder = start.copy();
    for piece in bytes.chunks(size.max(1)) {
        transcoder
            .feed(set, piece, &mut out)
            .expect(rt, "each character has a code");
    }
    transcoder
        .finish(set, &mut out)
        .expect(rt, "each character has a code");
    out
}

/// The text of two pieces.
fn in_two(
    rt: &impl Abort,
    alloc: Global,
    start: &Transcoder,
    set: &IndexSet,
    pieces: (&[u8], &[u8]),
) -> Vec<u8> {
    let mut out = Vec::new(alloc);
    let mut transcoder = start.copy();
    transcoder
        .feed(set, pieces.0, &mut out)
        .expect(rt, "each character has a code");
    transcoder
        .feed(set, pieces.1, &mut out)
        .expect(rt, "each character has a code");
    transcoder
        .finish(set, &mut out)
        .expect(rt, "each character has a code");
    out
}

/// Checks the text of bytes that come one by one, and in two pieces with each possible cut, the ends included.
fn in_any_cut(
    rt: &impl Abort,
    alloc: Global,
    start: &Transcoder,
    set: &IndexSet,
    bytes: &[u8],
    text: &[u8],
) {
    let out = in_pieces(rt, alloc, start, set, bytes, 1);
    assert!(rt; out.as_slice() == text, "byte by byte");
    for cut in 0..bytes.len() + 1 {
        let out = in_two(rt, alloc, start, set, bytes.split_at(cut));
        assert!(rt; out.as_slice() == text, "cut at {cut}");
    }
}

/// Checks a line: a direction, a label, the bytes and their text.
fn holds(rt: &impl Abort, alloc: Global, set: &IndexSet, line: &str) {
    let (direction, rest) = word(rt, line);
    let (label, rest) = word(rt, rest);
    let (input, output) = word(rt, rest);
    let start = start_of(rt, direction, label);
    let bytes = bytes_of(rt, alloc, input);
    let text = bytes_of(rt, alloc, output);
    in_any_cut(rt, alloc, &start, set, &bytes, &text);
}

/// Checks each line.
pub(crate) fn all_hold(rt: &impl Abort, alloc: Global, set: &IndexSet, lines: &str) {
    for line in lines.lines() {
        holds(rt, alloc, set, line);
    }
}

/// Twelve strings are decoded from each of 21 encodings, and twelve are encoded to each of the 19 output encodings.
#[test]
fn strings_of_another_implementation(rt: HostRuntime) {
    let set = all_files(&rt, rt.alloc());
    let lines = STRINGS;
    assert_eq!(rt; lines.lines().count(), 12 * 21 + 12 * 19);
    all_hold(&rt, rt.alloc(), &set, lines);
}

/// The bytes that `hex` encodes, 80 times.
fn repeated(rt: &impl Abort, alloc: Global, hex: &str) -> Vec<u8> {
    let bytes = bytes_of(rt, alloc, hex);
    let mut all = Vec::new(alloc);
    for _ in 0..80 {
        all.extend_from_slice(&bytes).expect(rt, "memory");
    }
    all
}

/// Checks a line whose bytes are repeated, so that characters cross the ends of blocks and windows.
fn holds_repeated(rt: &impl Abort, alloc: Global, set: &IndexSet, line: &str) {
    let (direction, rest) = word(rt, line);
    let (label, rest) = word(rt, rest);
    let (input, output) = word(rt, rest);
    let start = start_of(rt, direction, label);
    let bytes = repeated(rt, alloc, input);
    let text = repeated(rt, alloc, output);
    for size in [61, 1000, 4096, 65536] {
        let out = in_pieces(rt, alloc, &start, set, &bytes, size);
        assert!(rt; out == text, "{direction} {label} in pieces of {size}");
    }
}

fn all_hold_repeated(rt: &impl Abort, alloc: Global, set: &IndexSet, lines: &str) {
    for line in lines.lines() {
        holds_repeated(rt, alloc, set, line);
    }
}

#[test]
fn long_texts_of_another_implementation(rt: HostRuntime) {
    let set = all_files(&rt, rt.alloc());
    all_hold_repeated(&rt, rt.alloc(), &set, TEXTS);
}

/// The letter a in the encoding of a label.
fn letter_of(label: &str) -> &'static [u8] {
    match label {
        "UTF-16BE" => b"\0a",
        "UTF-16LE" => b"a\0",
        _ => b"a",
    }
}

/// `times.0` letters, the bytes, and `times.1` letters.
fn among_letters(
    rt: &impl Abort,
    alloc: Global,
    letter: &[u8],
    bytes: &[u8],
    times: (usize, usize),
) -> Vec<u8> {
    let mut all = Vec::new(alloc);
    for _ in 0..times.0 {
        all.extend_from_slice(letter).expect(rt, "memory");
    }
    all.extend_from_slice(bytes).expect(rt, "memory");
    for _ in 0..times.1 {
        all.extend_from_slice(letter).expect(rt, "memory");
    }
    all
}

/// Checks a line with letters before and after its bytes, in two pieces. The cut is within the bytes or near them.
fn holds_among(
    rt: &impl Abort,
    alloc: Global,
    set: &IndexSet,
    line: &str,
    letters: (usize, usize),
) {
    let (direction, rest) = word(rt, line);
    let (label, rest) = word(rt, rest);
    let (input, output) = word(rt, rest);
    let start = start_of(rt, direction, label);
    let letter = letter_of(label);
    let bytes = among_letters(rt, alloc, letter, &bytes_of(rt, alloc, input), letters);
    let text = among_letters(rt, alloc, b"a", &bytes_of(rt, alloc, output), letters);
    let last = letters.0.saturating_mul(letter.len()).saturating_add(6);
    for back in 0..bytes.len().min(8) {
        let cut = last.min(bytes.len()).saturating_sub(back);
        let out = in_two(rt, alloc, &start, set, bytes.split_at(cut));
        assert!(rt;
            out == text,
            "{line} after {} letters, cut at {cut}",
            letters.0
        );
    }
}

/// One character in each encoding, and malformed bytes. They come between letters.
const AMONG: &str = "\
decode windows-1252 E9 C3A9
encode windows-1252 C3A9 E9
decode Shift_JIS 82A0 E38182
encode Shift_JIS E38182 82A0
decode EUC-JP A4A2 E38182
encode EUC-JP E38182 A4A2
decode ISO-2022-JP 1B244224221B2842 E38182
encode ISO-2022-JP E38182 1B244224221B2842
decode UTF-8 FF EFBFBD
decode UTF-8 E0A0FFE0A080 EFBFBDEFBFBDE0A080
decode UTF-8 ED9FF0908080 EFBFBDF0908080
decode Shift_JIS 8220 EFBFBD20
decode EUC-JP 8FA220 EFBFBD20
decode ISO-2022-JP 1B24422422FF1B2842 E38182EFBFBD
decode windows-1252 8DE981 EFBFBDC3A9EFBFBD
encode windows-1252 E38182 262331323335343B
encode Shift_JIS F09F9880 26233132383531323B
encode ISO-2022-JP F09F9880 26233132383531323B
decode UTF-16LE 3DD800DE F09F9880
decode UTF-16LE 3DD8 EFBFBD
decode UTF-16LE 00DE EFBFBD
decode UTF-16LE 3DD83DD800DE00DE EFBFBDF09F9880EFBFBD
decode UTF-16LE 00DE3DD8 EFBFBDEFBFBD
decode UTF-16BE D83DDE00 F09F9880
decode UTF-16BE D83D EFBFBD
decode UTF-16BE DE00 EFBFBD
decode UTF-16BE D83DD83DDE00DE00 EFBFBDF09F9880EFBFBD
decode UTF-16BE DE00D83D EFBFBDEFBFBD
";

/// Characters that the end of the text cuts. An odd byte of UTF-16, alone or after a lead surrogate, is one error.
const AT_THE_END: &str = "\
decode UTF-8 F09F98 EFBFBD
decode Shift_JIS 82 EFBFBD
decode EUC-JP 8FB0 EFBFBD
decode ISO-2022-JP 1B2442242224 E38182EFBFBD
decode UTF-16LE 41 EFBFBD
decode UTF-16LE 3DD800 EFBFBD
decode UTF-16LE 00DE41 EFBFBDEFBFBD
decode UTF-16BE D8 EFBFBD
decode UTF-16BE D83DDE EFBFBD
decode UTF-16BE DE0041 EFBFBDEFBFBD
";

#[test]
fn characters_and_faults_among_letters(rt: HostRuntime) {
    let set = few_pairs(&rt, rt.alloc());
    for before in 0..100usize {
        for line in AMONG.lines() {
            holds_among(&rt, rt.alloc(), &set, line, (before, 100 - before));
        }
        for line in AT_THE_END.lines() {
            holds_among(&rt, rt.alloc(), &set, line, (before, 0));
        }
    }
}

/// So many letters come first that the characters cross the ends of blocks, prefixes of 512 bytes and windows.
#[test]
fn characters_and_faults_after_many_letters(rt: HostRuntime) {
    let set = few_pairs(&rt, rt.alloc());
    for before in [
        250, 253, 255, 256, 510, 511, 512, 1020, 1023, 1024, 2000, 2047, 2048, 4090, 4095,
        4096usize,
    ] {
        for line in AMONG.lines() {
            holds_among(&rt, rt.alloc(), &set, line, (before, 300));
        }
        for line in AT_THE_END.lines() {
            holds_among(&rt, rt.alloc(), &set, line, (before, 0));
        }
    }
}

/// After a character without a code, and after its end, a transcoder takes nothing more.
#[test]
fn spent_transcoder_takes_nothing(rt: HostRuntime) {
    let alloc = rt.alloc();
    let set = few_pairs(&rt, alloc);
    let mut refused = between(&rt, "UTF-8", "Shift_JIS", Mode::Fatal);
    let mut ended = between(&rt, "UTF-8", "UTF-8", Mode::Html);
    let mut out = Vec::new(alloc);
    let fault = refused.feed(&set, "\u{1F600}".as_bytes(), &mut out);
    assert_eq!(rt; fault, Err(TranscodeError::Unencodable('\u{1F600}')));
    assert_eq!(rt; ended.feed(&set, b"a", &mut out), Ok(()));
    assert_eq!(rt; ended.finish(&set, &mut out), Ok(()));
    assert!(rt; out.as_slice() == b"a".as_slice());
    assert!(rt; refused.is_spent() && !ended.is_spent());
    for mut spent in [refused, ended] {
        assert_eq!(rt;
            spent.feed(&set, b"b", &mut out),
            Err(TranscodeError::Spent)
        );
        assert_eq!(rt; spent.finish(&set, &mut out), Err(TranscodeError::Spent));
        assert!(rt; out.as_slice() == b"a".as_slice());
    }
}
