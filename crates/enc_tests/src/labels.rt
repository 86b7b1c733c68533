//! The labels of the Encoding Standard's table (section 4.2).

use enc_labels::{encoding_of, name_of, output_of};
use enc_model::Encoding;

/// Each name with its labels.
static NAMES: [(&str, &str); 21] = [
    (
        "UTF-8",
        "unicode-1-1-utf-8, unicode11utf8, unicode20utf8, utf-8, utf8, x-unicode20utf8",
    ),
    ("UTF-16BE", "unicodefffe, utf-16be"),
    (
        "UTF-16LE",
        "csunicode, iso-10646-ucs-2, ucs-2, unicode, unicodefeff, utf-16, utf-16le",
    ),
    (
        "Shift_JIS",
        "csshiftjis, ms932, ms_kanji, shift-jis, shift_jis, sjis, windows-31j, x-sjis",
    ),
    ("EUC-JP", "cseucpkdfmtjapanese, euc-jp, x-euc-jp"),
    ("ISO-2022-JP", "csiso2022jp, iso-2022-jp"),
    ("IBM866", "866, cp866, csibm866, ibm866"),
    (
        "ISO-8859-2",
        "csisolatin2, iso-8859-2, iso-ir-101, iso8859-2, iso88592, iso_8859-2, iso_8859-2:1987, l2, latin2",
    ),
    (
        "ISO-8859-5",
        "csisolatincyrillic, cyrillic, iso-8859-5, iso-ir-144, iso8859-5, iso88595, iso_8859-5, iso_8859-5:1988",
    ),
    (
        "ISO-8859-15",
        "csisolatin9, iso-8859-15, iso8859-15, iso885915, iso_8859-15, l9",
    ),
    ("KOI8-R", "cskoi8r, koi, koi8, koi8-r, koi8_r"),
    ("macintosh", "csmacintosh, mac, macintosh, x-mac-roman"),
    ("windows-1250", "cp1250, windows-1250, x-cp1250"),
    ("windows-1251", "cp1251, windows-1251, x-cp1251"),
    (
        "windows-1252",
        "ansi_x3.4-1968, ascii, cp1252, cp819, csisolatin1, ibm819, iso-8859-1, iso-ir-100, iso8859-1, iso88591, \
        iso_8859-1, iso_8859-1:1987, l1, latin1, us-ascii, windows-1252, x-cp1252",
    ),
    ("windows-1253", "cp1253, windows-1253, x-cp1253"),
    (
        "windows-1254",
        "cp1254, csisolatin5, iso-8859-9, iso-ir-148, iso8859-9, iso88599, iso_8859-9, iso_8859-9:1989, l5, latin5, \
        windows-1254, x-cp1254",
    ),
    ("windows-1255", "cp1255, windows-1255, x-cp1255"),
    ("windows-1256", "cp1256, windows-1256, x-cp1256"),
    ("windows-1257", "cp1257, windows-1257, x-cp1257"),
    ("windows-1258", "cp1258, windows-1258, x-cp1258"),
];

#[test]
fn every_label(rt: HostRuntime) {
    let mut labels = 0u32;
    for (name, row) in NAMES.iter() {
        for label in row.split(", ") {
            let known = encoding_of(label.as_bytes()).map(name_of);
            assert_eq!(rt; known, Some(*name), "{label}");
            labels = labels.saturating_add(1);
        }
    }
    assert_eq!(rt; labels, 114);
}

/// Labels with whitespace or capital letters, and words that are no labels.
static OTHERS: [(&[u8], Option<Encoding>); 6] = [
    (b"\t Latin1\n", Some(Encoding::Windows1252)),
    (b"\r\x0CUTF-8 ", Some(Encoding::Utf8)),
    (b"utf-16", Some(Encoding::Utf16Le)),
    (b"lat in1", None),
    (b"\x0Blatin1", None),
    (b"utf-7", None),
];

#[test]
fn whitespace_case_and_outputs(rt: HostRuntime) {
    for (label, encoding) in OTHERS.iter() {
        assert_eq!(rt; encoding_of(label), *encoding);
    }
    assert_eq!(rt; output_of(Encoding::Utf16Le), Encoding::Utf8);
    assert_eq!(rt; output_of(Encoding::ShiftJis), Encoding::ShiftJis);
}
