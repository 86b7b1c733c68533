//! Heads, and the requests or refusals that each must parse to.

use enc_index::IndexSet;
use std::alloc::Global;
use std::process::Abort;
use tus_request::{Fault, MOST_HEAD, Parsed, parse};

/// The answer to a head without any index file.
pub(crate) fn parsed(rt: &impl Abort, alloc: Global, head: &[u8]) -> Parsed {
    let set = IndexSet::new(alloc).expect(rt, "memory for a set");
    parse(alloc, head, &set).expect(rt, "memory for an answer")
}

/// The answer as text.
fn shown(rt: &impl Abort, alloc: Global, answer: &Parsed) -> String {
    format!(in alloc; "{answer:?}").expect(rt, "memory for a text")
}

/// The text of a request whose head has `taken` bytes.
fn accepted(rt: &impl Abort, alloc: Global, taken: usize, request: &str) -> String {
    format!(in alloc; "Head {{ taken: {taken}, request: Request {{ action: {request} }} }}").expect(
        rt,
        "memory for a text",
    )
}

/// A refused request without a body.
pub(crate) fn refusal(taken: usize, fault: Fault, on_files: bool, closes: bool) -> Parsed {
    Parsed::Refused {
        taken,
        length: 0,
        fault,
        on_files,
        bare: false,
        closes,
    }
}

/// Each row: a head with the bytes after it, how many bytes follow the head, and the request.
const ACCEPTED: [(&str, usize, &str); 12] = [
    // A length. A field's name may be in any case.
    (
        "\r\n\nPOST /files?x HTTP/1.1\nTus-Resumable: 1.0.0\r\nupload-LENGTH:  5 \r\n\r\n",
        0,
        "Create { declared: Some(5), from: Utf8, to: Utf8, mode: Html, metadata: \"\" }, \
          length: 0, bare: false, expects: false, closes: false",
    ),
    // A deferred length.
    (
        "POST /files HTTP/1.1\r\nTus-Resumable: 1.0.0\r\nUpload-Defer-Length: 1\r\n\r\n",
        0,
        "Create { declared: None, from: Utf8, to: Utf8, mode: Html, metadata: \"\" }, \
          length: 0, bare: false, expects: false, closes: false",
    ),
    // Metadata pairs with spaces around them.
    (
        "POST /files HTTP/1.1\r\nTus-Resumable: 1.0.0\r\nUpload-Length: 5\r\n\
          Upload-Metadata: from dXRmLTE2bGU= ,  to dXRmLTE2,mode ZmF0YWw=, note\r\n\r\n",
        0,
        "Create { declared: Some(5), from: Utf16Le, to: Utf8, mode: Fatal, \
          metadata: \"from dXRmLTE2bGU= ,  to dXRmLTE2,mode ZmF0YWw=, note\" }, \
          length: 0, bare: false, expects: false, closes: false",
    ),
    // A PATCH that declares the length.
    (
        "PATCH /files/1 HTTP/1.1\nTus-Resumable: 1.0.0\nUpload-Offset: 0\nUpload-Length: 5\n\
          Content-Type: application/offset+octet-stream\n\n",
        0,
        "Patch { number: 1, offset: 0, declare: Some(5) }, length: 0, bare: false, expects: false, closes: false",
    ),
    // A PATCH with bytes after its head.
    (
        "PATCH /files/17 HTTP/1.1\r\nTus-Resumable: 1.0.0\r\nUpload-Offset: 2\r\n\
          Content-Type: Application/Offset+Octet-Stream;x\r\nContent-Length: 3\r\n\
          Expect: 100-Continue\r\nConnection: keep-alive, Close\r\n\r\nabcGET",
        6,
        "Patch { number: 17, offset: 2, declare: None }, \
          length: 3, bare: false, expects: true, closes: true",
    ),
    // X-HTTP-Method-Override replaces the method.
    (
        "POST /files/1 HTTP/1.0\r\nX-HTTP-Method-Override: GET\r\n\r\n",
        0,
        "Get(1), length: 0, bare: false, expects: false, closes: true",
    ),
    // HEAD on the request line.
    (
        "HEAD /files/1 HTTP/1.1\r\nTus-Resumable: 1.0.0\r\n\r\n",
        0,
        "Head(1), length: 0, bare: true, expects: false, closes: false",
    ),
    // A PATCH inside a POST.
    (
        "POST /files/2 HTTP/1.1\r\nTus-Resumable: 1.0.0\r\nX-HTTP-Method-Override: PATCH\r\n\
          Upload-Offset: 7\r\nContent-Type: application/offset+octet-stream\r\nContent-Length: 3\r\n\r\n",
        0,
        "Patch { number: 2, offset: 7, declare: None }, \
          length: 3, bare: false, expects: false, closes: false",
    ),
    // A HEAD inside a GET.
    (
        "GET /files/1 HTTP/1.1\r\nTus-Resumable: 1.0.0\r\nX-HTTP-Method-Override: HEAD\r\n\r\n",
        0,
        "Head(1), length: 0, bare: false, expects: false, closes: false",
    ),
    // A DELETE.
    (
        "DELETE /files/17 HTTP/1.1\r\nTus-Resumable: 1.0.0\r\n\r\n",
        0,
        "Delete(17), length: 0, bare: false, expects: false, closes: false",
    ),
    // A DELETE inside a POST.
    (
        "POST /files/1 HTTP/1.1\r\nTus-Resumable: 1.0.0\r\nX-HTTP-Method-Override: DELETE\r\n\r\n",
        0,
        "Delete(1), length: 0, bare: false, expects: false, closes: false",
    ),
    // A DELETE with a body.
    (
        "DELETE /files/1 HTTP/1.1\r\nTus-Resumable: 1.0.0\r\n\
          Content-Length: 3\r\nExpect: 100-continue\r\n\r\nabc",
        3,
        "Delete(1), length: 3, bare: false, expects: false, closes: true",
    ),
];

#[test]
fn requests_that_are_accepted(rt: HostRuntime) {
    for (head, after, request) in ACCEPTED {
        let answer = parsed(&rt, rt.alloc(), head.as_bytes());
        let want = accepted(&rt, rt.alloc(), head.len().saturating_sub(after), request);
        assert_eq!(rt;
            shown(&rt, rt.alloc(), &answer).as_str(),
            want.as_str(),
            "{head}"
        );
    }
}

/// The request of a GET of upload 1.
const GET: &str = "Get(1), length: 0, bare: false, expects: false, closes: false";

#[test]
fn heads_that_are_not_whole(rt: HostRuntime) {
    assert_eq!(rt;
        parsed(&rt, rt.alloc(), b"GET /files/1 HTTP/1.1\r\n"),
        Parsed::More
    );
    let letters = [b'a'; MOST_HEAD];
    assert_eq!(rt;
        parsed(&rt, rt.alloc(), &letters[..MOST_HEAD - 1]),
        Parsed::More
    );
    assert_eq!(rt;
        parsed(&rt, rt.alloc(), letters.as_slice()),
        refusal(MOST_HEAD, Fault::HeadTooLong, false, true)
    );
}

/// A GET whose head has `len` bytes.
fn padded(rt: &impl Abort, alloc: Global, len: usize) -> Vec<u8> {
    let mut head = Vec::new(alloc);
    head.extend_from_slice(b"GET /files/1 HTTP/1.1\r\nnote: ")
        .expect(rt, "memory");
    head.resize(len.saturating_sub(4), b'a')
        .expect(rt, "memory");
    head.extend_from_slice(b"\r\n\r\n").expect(rt, "memory");
    head
}

#[test]
fn heads_as_long_as_may_be(rt: HostRuntime) {
    for len in [MOST_HEAD - 1, MOST_HEAD] {
        let head = padded(&rt, rt.alloc(), len);
        assert_eq!(rt; head.len(), len);
        let answer = parsed(&rt, rt.alloc(), &head);
        assert_eq!(rt;
            shown(&rt, rt.alloc(), &answer).as_str(),
            accepted(&rt, rt.alloc(), len, GET).as_str()
        );
    }
    assert_eq!(rt;
        parsed(&rt, rt.alloc(), &padded(&rt, rt.alloc(), MOST_HEAD + 1)),
        refusal(MOST_HEAD, Fault::HeadTooLong, false, true)
    );
}

/// A GET with `lines` lines after its request line.
fn lined(rt: &impl Abort, alloc: Global, lines: usize) -> Vec<u8> {
    let mut head = Vec::new(alloc);
    head.extend_from_slice(b"GET /files/1 HTTP/1.1\n")
        .expect(rt, "memory");
    for _ in 0..lines {
        head.extend_from_slice(b"a: b\n").expect(rt, "memory");
    }
    head.push(b'\n').expect(rt, "memory");
    head
}

#[test]
fn as_many_lines_as_may_be(rt: HostRuntime) {
    let head = lined(&rt, rt.alloc(), 64);
    assert_eq!(rt; head.len(), 343);
    let answer = parsed(&rt, rt.alloc(), &head);
    assert_eq!(rt;
        shown(&rt, rt.alloc(), &answer).as_str(),
        accepted(&rt, rt.alloc(), 343, GET).as_str()
    );
    let many = lined(&rt, rt.alloc(), 65);
    assert_eq!(rt; many.len(), 348);
    assert_eq!(rt;
        parsed(&rt, rt.alloc(), &many),
        refusal(348, Fault::HeadTooLong, false, true)
    );
}
