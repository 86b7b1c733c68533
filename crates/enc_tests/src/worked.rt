//! Worked examples, whatever the cuts between their pieces.

use crate::cases::{between, bytes_of, word};
use crate::sets::{few_pairs, set_of};
use crate::transcoders::all_hold;
use enc_index::{IndexSet, Kind};
use enc_model::Mode;
use std::alloc::Global;
use std::process::Abort;

/// Worked examples, which need only a few entries of the index files.
const WORKED: &str = "\
decode UTF-8 EFBBBF41 41
decode UTF-8 F09080 EFBFBD
decode UTF-8 E08041 EFBFBDEFBFBD41
decode UTF-16LE 3DD800DE F09F9880
decode UTF-16BE D80041 EFBFBD
decode UTF-16LE 3DD84100 EFBFBD41
decode Shift_JIS FEFF0041 41
decode Shift_JIS 82A08220 E38182EFBFBD20
decode Shift_JIS F040 EE8080
decode EUC-JP 8FB0A1 E4B882
decode EUC-JP B0A1 E4BA9C
decode EUC-JP 8EB1 EFBDB1
decode EUC-JP B041 EFBFBD41
decode ISO-2022-JP 1B244224221B28421B284241 E38182EFBFBD41
decode ISO-2022-JP 1B2842411B284241 4141
decode ISO-2022-JP 1B24 EFBFBD24
decode ISO-2022-JP 1B284A5C7E410E C2A5E280BE41EFBFBD
decode ISO-2022-JP 1B2849215F60 EFBDA1EFBE9FEFBFBD
decode ISO-2022-JP 1B24402422 E38182
decode ISO-2022-JP 1B284A1B58 EFBFBD58
decode ISO-2022-JP 1B284A1B2858 EFBFBD2858
decode ISO-2022-JP 1B2442241B284241 EFBFBD41
decode ISO-2022-JP 1B28 EFBFBD28
decode Shift_JIS EFFC EFBFBD
decode Shift_JIS F9FC EE9D97
decode Shift_JIS FA40 EFBFBD40
decode windows-1252 41E980 41C3A9E282AC
encode UTF-8 61C3A9E282ACF09F9880 61C3A9E282ACF09F9880
encode ISO-2022-JP E38182 1B244224221B2842
encode ISO-2022-JP E38182F09F9880 1B244224221B284226233132383531323B
encode Shift_JIS E28892 817C
encode EUC-JP E28892 A1DD
encode ISO-2022-JP E28892 1B2442215D1B2842
encode Shift_JIS E7BA8A FA5C
encode EUC-JP E7BA8A F9A1
encode ISO-2022-JP E7BA8A 1B244279211B2842
encode Shift_JIS EFBDA1 A1
encode EUC-JP EFBDA1 8EA1
encode ISO-2022-JP EFBDA1 1B244221231B2842
encode windows-1252 41C3A9E38182 41E9262331323335343B
";

#[test]
fn worked_examples(rt: HostRuntime) {
    let set = few_pairs(&rt, rt.alloc());
    all_hold(&rt, rt.alloc(), &set, WORKED);
}

/// Encoders with few index entries: the index files, and the lines.
const SPARSE: [(&[(Kind, &str)], &str); 4] = [
    (&[], "encode windows-1252 C3A9 26233233333B"),
    // two half-width katakana that map to each other
    (
        &[
            (Kind::Jis0208, "0\tFF61\n"),
            (Kind::Katakana, "0\tFF62\n1\tFF61\n"),
        ],
        "encode ISO-2022-JP EFBDA2EFBDA1 1B244221211B2842262336353337383B",
    ),
    // a pointer after the last row of two bytes, which has no bytes in EUC-JP and ISO-2022-JP
    (
        &[
            (Kind::Jis0208, "8836\t7E8A\n"),
            (Kind::Jis0212, ""),
            (Kind::Katakana, ""),
        ],
        "\
encode EUC-JP E7BA8A 262333323339343B
encode ISO-2022-JP E7BA8A 262333323339343B
encode Shift_JIS E7BA8A F040
",
    ),
    // characters that the encoder replaces with one without a pointer, and a katakana without an entry
    (
        &[
            (Kind::Jis0208, "0\t3000\n"),
            (Kind::Jis0212, ""),
            (Kind::Katakana, ""),
        ],
        "\
encode Shift_JIS E28892 262336353239333B
encode EUC-JP E28892 262336353239333B
encode ISO-2022-JP EFBDA2 262336353337383B
",
    ),
];

#[test]
fn indexes_of_few_entries(rt: HostRuntime) {
    for (files, lines) in SPARSE {
        all_hold(&rt, rt.alloc(), &set_of(&rt, rt.alloc(), files), lines);
    }
}

/// Checks a line: two encodings, and pieces, each with the text after it.
fn gives_so_far(rt: &impl Abort, alloc: Global, set: &IndexSet, line: &str) {
    let (from, rest) = word(rt, line);
    let (to, pieces) = word(rt, rest);
    let mut transcoder = between(rt, from, to, Mode::Html);
    let mut out = Vec::new(alloc);
    for piece in pieces.split_whitespace() {
        let (input, output) = piece.split_once('=').expect(rt, "a text");
        transcoder
            .feed(set, &bytes_of(rt, alloc, input), &mut out)
            .expect(rt, "each character has a code");
        assert!(rt; out == bytes_of(rt, alloc, output), "{line}");
    }
    transcoder
        .finish(set, &mut out)
        .expect(rt, "each character has a code");
}

#[test]
fn text_after_each_piece(rt: HostRuntime) {
    let set = few_pairs(&rt, rt.alloc());
    for line in [
        "UTF-8 UTF-8 EF= BB= BF41=41",
        "UTF-8 UTF-8 F090= 80=",
        "UTF-16LE UTF-8 3DD8= 00= DE=F09F9880",
        "Shift_JIS UTF-8 82= A0=E38182",
        "ISO-2022-JP UTF-8 1B= 2442= 2422=E38182",
        "UTF-8 ISO-2022-JP E38182=1B24422422 F09F9880=1B244224221B284226233132383531323B",
    ] {
        gives_so_far(&rt, rt.alloc(), &set, line);
    }
}
