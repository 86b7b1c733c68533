//! Texts that are refused in the mode `fatal`, whatever the cuts between their pieces.

use crate::cases::{between, bytes_of, word};
use crate::sets::few_pairs;
use enc_index::IndexSet;
use enc_model::Mode;
use enc_stream::{TranscodeError, Transcoder};
use std::alloc::Global;
use std::process::Abort;

/// Each line: two encodings, the bytes, the text before the first unmappable character, and this character, which is
/// refused in the mode `fatal`.
const FATAL: &str = "\
UTF-8 windows-1252 41C3A9E3818242 41E9 3042
UTF-8 windows-1252 41E08041 41 FFFD
UTF-8 windows-1252 41F09F98 41 FFFD
UTF-8 Shift_JIS E38182F09F988041 82A0 1F600
UTF-8 EUC-JP E38182E282AC A4A2 20AC
UTF-8 ISO-2022-JP E38182F09F988041 1B244224221B2842 1F600
UTF-16LE Shift_JIS 42303DD800DE4100 82A0 1F600
UTF-16LE windows-1252 41003DD84100 41 FFFD
UTF-16BE windows-1252 0041D83DDE 41 FFFD
Shift_JIS windows-1252 4182A041 41 3042
Shift_JIS EUC-JP 82A08220 A4A2 FFFD
EUC-JP windows-1252 418FB0A141 41 4E02
ISO-2022-JP windows-1252 411B244224221B284241 41 3042
ISO-2022-JP EUC-JP 410E41 41 FFFD
windows-1252 EUC-JP 418D 41 FFFD
";

/// The answer to two pieces and the end. `out` gets the text before a refusal.
fn answer_of(
    start: &Transcoder,
    set: &IndexSet,
    pieces: (&[u8], &[u8]),
    out: &mut Vec<u8>,
) -> Result<(), TranscodeError> {
    let mut transcoder = start.copy();
    transcoder.feed(set, pieces.0, out)?;
    transcoder.feed(set, pieces.1, out)?;
    transcoder.finish(set, out)
}

/// Checks a line: the bytes are refused in the same way in two pieces with each possible cut.
fn refuses_in_any_cut(rt: &impl Abort, alloc: Global, set: &IndexSet, line: &str) {
    let (from, rest) = word(rt, line);
    let (to, rest) = word(rt, rest);
    let (input, rest) = word(rt, rest);
    let (output, code) = word(rt, rest);
    let start = between(rt, from, to, Mode::Fatal);
    let refused = u32::from_str_radix(code, 16).ok().and_then(char::from_u32);
    let bytes = bytes_of(rt, alloc, input);
    let text = bytes_of(rt, alloc, output);
    for cut in 0..bytes.len() + 1 {
        let mut out = Vec::new(alloc);
        let answer = answer_of(&start, set, bytes.split_at(cut), &mut out);
        let Err(TranscodeError::Unencodable(c)) = answer else {
            panic!(rt; "{line}, cut at {cut}: {answer:?}")
        };
        assert_eq!(rt; Some(c), refused, "{line}, cut at {cut}");
        assert!(rt; text.starts_with(&out), "{line}, cut at {cut}");
    }
}

#[test]
fn refusals_in_any_cut(rt: HostRuntime) {
    let set = few_pairs(&rt, rt.alloc());
    for line in FATAL.lines() {
        refuses_in_any_cut(&rt, rt.alloc(), &set, line);
    }
}
