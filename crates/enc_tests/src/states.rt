//! The state bytes of a transcoder.

use crate::cases::{between, bytes_of, word};
use crate::sets::few_pairs;
use enc_index::IndexSet;
use enc_model::{Encoding, Mode};
use enc_stream::Transcoder;
use std::alloc::Global;
use std::process::Abort;

/// 32 state bytes: `prefix`, then zeros.
fn with_zeros(prefix: &[u8]) -> [u8; 32] {
    let mut bytes = [0; 32];
    for (place, byte) in bytes.iter_mut().zip(prefix.iter()) {
        *place = *byte;
    }
    bytes
}

/// Checks the state bytes after a first piece. A transcoder that is unpacked from them takes the second piece, and the
/// text of both is as wanted.
fn goes_on(rt: &impl Abort, alloc: Global, set: &IndexSet, mut first: Transcoder, line: &str) {
    let (prefix, rest) = word(rt, line);
    let (state, rest) = word(rt, rest);
    let (back, text) = word(rt, rest);
    let mut out = Vec::new(alloc);
    first
        .feed(set, &bytes_of(rt, alloc, prefix), &mut out)
        .expect(rt, "each character has a code");
    let bytes = first.pack();
    assert!(rt; bytes == with_zeros(&bytes_of(rt, alloc, state)), "{line}");
    let mut next = Transcoder::unpack(&bytes).expect(rt, "state bytes");
    next.feed(set, &bytes_of(rt, alloc, back), &mut out)
        .expect(rt, "each character has a code");
    next.finish(set, &mut out)
        .expect(rt, "each character has a code");
    assert!(rt; out == bytes_of(rt, alloc, text), "{line}");
    assert!(rt; next.pack()[3] == 2);
}

/// Each line: two encodings, a piece, the state bytes after it, another piece, and the text of both.
const STATES: &str = "\
UTF-8 UTF-8 EFBB 0000000002EFBB BF41 41
UTF-8 UTF-8 F09F98 000000010003F09F98 80 F09F9880
Shift_JIS UTF-8 82 030000010382 A0 E38182
ISO-2022-JP UTF-8 1B2442 050000010503030001 2422 E38182
KOI8-R UTF-8 FFFE3DD800 0A000001020300D83D DE F09F9880
EUC-JP ISO-2022-JP A4A28FA4 0405000104A40100000000000000000002 A2 1B244224221B2842262336353533333B
";

fn all_go_on(rt: &impl Abort, alloc: Global, set: &IndexSet) {
    for line in STATES.lines() {
        let (from, rest) = word(rt, line);
        let (to, rest) = word(rt, rest);
        goes_on(rt, alloc, set, between(rt, from, to, Mode::Html), rest);
    }
}

#[test]
fn state_bytes_after_a_piece(rt: HostRuntime) {
    let set = few_pairs(&rt, rt.alloc());
    all_go_on(&rt, rt.alloc(), &set);
}

/// Prefixes of state bytes that belong to no state.
static NO_STATES: [&[u8]; 23] = [
    // numbers that don't exist, and UTF-16 as the output
    &[21],
    &[0, 1],
    &[0, 0, 2],
    &[0, 0, 0, 3],
    // held bytes that aren't a proper prefix of a byte order mark
    &[0, 0, 0, 0, 1, 0x41],
    &[0, 0, 0, 0, 3, 0xEF, 0xBB, 0xBF],
    // an encoding in effect after the end
    &[0, 0, 0, 2, 1],
    // an encoding in effect that is neither the source's nor a byte order mark's
    &[0, 0, 0, 1, 3],
    // bytes that aren't a proper prefix of a character
    &[0, 0, 0, 1, 0, 2, 0xE0, 0x80],
    &[0, 0, 0, 1, 0, 4, 0xF0, 0x9F, 0x98, 0x80],
    &[0, 0, 0, 1, 0, 0, 0x80],
    // UTF-16: a lead that is no lead surrogate, and a lead whose flag is missing
    &[2, 0, 0, 1, 2, 2, 0, 0xDC, 0],
    &[2, 0, 0, 1, 2, 0, 0, 0xD8, 0],
    // Shift_JIS and EUC-JP: a byte that is no lead byte, and a jis0212 flag without a lead or with one that
    // excludes it
    &[3, 0, 0, 1, 3, 0xA0],
    &[4, 0, 0, 1, 4, 0, 1],
    &[4, 0, 0, 1, 4, 0x8E, 1],
    &[4, 0, 0, 1, 4, 0x8F, 1],
    // ISO-2022-JP: a state that doesn't match its output state, and an output flag after a lead byte
    &[5, 0, 0, 1, 5, 3, 0, 0, 0],
    &[5, 0, 0, 1, 5, 4, 3, 0x24, 1],
    // an encoder state for UTF-8, which has none; one before decoding and one after the end; and one that doesn't
    // exist
    &[0, 0, 0, 1, 0, 0, 0, 0, 0, 0, 0, 0, 0, 0, 0, 0, 1],
    &[0, 5, 0, 0, 0, 0, 0, 0, 0, 0, 0, 0, 0, 0, 0, 0, 2],
    &[0, 5, 0, 2, 0, 0, 0, 0, 0, 0, 0, 0, 0, 0, 0, 0, 1],
    &[0, 5, 0, 1, 0, 0, 0, 0, 0, 0, 0, 0, 0, 0, 0, 0, 3],
];

#[test]
fn state_bytes_of_no_state(rt: HostRuntime) {
    for prefix in NO_STATES.iter() {
        assert!(rt; Transcoder::unpack(&with_zeros(prefix)).is_none());
    }
    let ended = Transcoder::ended(Encoding::Koi8R, Encoding::Utf8, Mode::Fatal);
    assert!(rt; ended.pack() == with_zeros(&[10, 0, 1, 2]));
    let mut last = with_zeros(&[]);
    assert!(rt; Transcoder::unpack(&last).is_some());
    last[31] = 1;
    assert!(rt; Transcoder::unpack(&last).is_none());
}
