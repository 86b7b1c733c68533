//! Index files and look-ups in worked examples.

use enc_index::{Index, Kind, ReadError};
use enc_model::Encoding;
use std::alloc::Global;
use std::process::Abort;

const SMALL: &[u8] = b"# test\n\n  0\t0x3000\n60\tFF0D\n61\tFF0D\n";

fn looks_up(rt: &impl Abort, index: &Index) {
    assert!(rt; index.kind() == Kind::Jis0208);
    assert!(rt; index.code(0) == Some('\u{3000}') && index.code(1).is_none());
    assert!(rt;
        index.pointer('\u{FF0D}') == Some(60) && index.pointer_sjis('\u{FF0D}') == Some(60)
    );
    assert!(rt; index.pointer('\u{3001}').is_none());
}

#[test]
fn least_pointer_of_a_small_file(rt: HostRuntime) {
    let index = Index::read(rt.alloc(), SMALL, Kind::Jis0208).expect(&rt, "lines of an index file");
    looks_up(&rt, &index);
}

fn refusal(alloc: Global, bytes: &[u8], kind: Kind) -> Option<ReadError> {
    match Index::read(alloc, bytes, kind) {
        Ok(_) => None,
        Err(e) => Some(e),
    }
}

#[test]
fn first_bad_line(rt: HostRuntime) {
    let again = b"# test\n\n  0\t0x3000\n60\tFF0D\n61\tFF0D\n60\t3001\n";
    let rows: [(&[u8], Kind, ReadError); 8] = [
        (again, Kind::Jis0208, ReadError::Twice(6)),
        (b"11280\t3001", Kind::Jis0208, ReadError::Range(1)),
        (
            b"128\t3001",
            Kind::Single(Encoding::Koi8R),
            ReadError::Range(1),
        ),
        (b"0\tD800", Kind::Jis0212, ReadError::Range(1)),
        (b"0\t110000", Kind::Katakana, ReadError::Range(1)),
        (b"x", Kind::Jis0208, ReadError::Line(1)),
        (b"0000001\t3001", Kind::Jis0208, ReadError::Line(1)),
        (b"0\t0x", Kind::Jis0208, ReadError::Line(1)),
    ];
    for (bytes, kind, error) in rows {
        assert!(rt; refusal(rt.alloc(), bytes, kind) == Some(error));
    }
}
