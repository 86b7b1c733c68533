//! Index sets for the tests.

use crate::index_files::*;
use enc_index::{Index, IndexSet, Kind};
use enc_model::Encoding;
use std::alloc::Global;
use std::process::Abort;

/// The set of these files, each with its kind and its lines.
pub fn set_of(rt: &impl Abort, alloc: Global, files: &[(Kind, &str)]) -> IndexSet {
    let mut set = IndexSet::new(alloc).expect(rt, "memory");
    for (kind, lines) in files {
        set.set(Index::read(alloc, lines.as_bytes(), *kind).expect(rt, "lines of an index file"));
    }
    set
}

/// The lines of an index file. `codes` has the code point at each pointer, and 0000 at a pointer without one.
fn lines_of(rt: &impl Abort, alloc: Global, codes: &str) -> Vec<u8> {
    let mut lines = Vec::new(alloc);
    for (pointer, code) in codes.split_whitespace().enumerate() {
        if code != "0000" {
            let line = format!(in alloc; "{pointer:5}\t0x{code}\n").expect(rt, "memory");
            lines
                .extend_from_slice(line.as_bytes())
                .expect(rt, "memory");
        }
    }
    lines
}

/// The set of all index files.
pub fn all_files(rt: &impl Abort, alloc: Global) -> IndexSet {
    let files = [
        (Kind::Jis0208, JIS0208),
        (Kind::Jis0212, JIS0212),
        (Kind::Katakana, KATAKANA),
        (Kind::Single(Encoding::Ibm866), IBM866),
        (Kind::Single(Encoding::Iso8859X2), ISO_8859_2),
        (Kind::Single(Encoding::Iso8859X5), ISO_8859_5),
        (Kind::Single(Encoding::Iso8859X15), ISO_8859_15),
        (Kind::Single(Encoding::Koi8R), KOI8_R),
        (Kind::Single(Encoding::Macintosh), MACINTOSH),
        (Kind::Single(Encoding::Windows1250), WINDOWS_1250),
        (Kind::Single(Encoding::Windows1251), WINDOWS_1251),
        (Kind::Single(Encoding::Windows1252), WINDOWS_1252),
        (Kind::Single(Encoding::Windows1253), WINDOWS_1253),
        (Kind::Single(Encoding::Windows1254), WINDOWS_1254),
        (Kind::Single(Encoding::Windows1255), WINDOWS_1255),
        (Kind::Single(Encoding::Windows1256), WINDOWS_1256),
        (Kind::Single(Encoding::Windows1257), WINDOWS_1257),
        (Kind::Single(Encoding::Windows1258), WINDOWS_1258),
    ];
    let mut set = IndexSet::new(alloc).expect(rt, "memory");
    for (kind, codes) in &files {
        let lines = lines_of(rt, alloc, *codes);
        set.set(Index::read(alloc, &lines, *kind).expect(rt, "lines of an index file"));
    }
    set
}

/// The entries of the index files that the worked examples need.
pub fn few_pairs(rt: &impl Abort, alloc: Global) -> IndexSet {
    let jis0208 =
        "0\t3000\n2\t3002\n60\tFF0D\n283\t3042\n1410\t4E9C\n3569\t65E5\n4007\t672C\n8272\t7E8A\n10744\t7E8A\n";
    let windows = Kind::Single(Encoding::Windows1252);
    set_of(
        rt,
        alloc,
        &[
            (Kind::Jis0208, jis0208),
            (Kind::Jis0212, "1410\t4E02\n"),
            (Kind::Katakana, "0\t3002\n"),
            (windows, "0\t20AC\n105\t00E9\n"),
        ],
    )
}
