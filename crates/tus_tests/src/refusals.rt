//! Requests that are refused: on `/files`, elsewhere, and those that close the connection.

use crate::requests::{parsed, refusal};
use std::alloc::Global;
use std::process::Abort;
use tus_request::Fault;

/// Checks that each head is refused for the fault beside it.
fn all_refused(
    rt: &impl Abort,
    alloc: Global,
    rows: &[(&str, Fault)],
    on_files: bool,
    closes: bool,
) {
    for &(head, fault) in rows {
        assert_eq!(rt;
            parsed(rt, alloc, head.as_bytes()),
            refusal(head.len(), fault, on_files, closes),
            "{head}"
        );
    }
}

/// Refused heads for `/files`, in the order of the checks.
const ON_FILES: [(&str, Fault); 6] = [
    (
        "DELETE /files HTTP/1.1\r\nTus-Resumable: 1.0.0\r\n\r\n",
        Fault::BadMethod,
    ),
    // A length and a deferred length.
    (
        "POST /files HTTP/1.1\nTus-Resumable: 1.0.0\nUpload-Length: 5\nUpload-Defer-Length: 1\n\n",
        Fault::BadHeader,
    ),
    // A key that is given twice.
    (
        "POST /files HTTP/1.1\r\nTus-Resumable: 1.0.0\r\nUpload-Length: 5\r\n\
          Upload-Metadata: from dXRmLTg=,from dXRmLTg=\r\n\r\n",
        Fault::BadMetadata,
    ),
    // A value with a stray bit at its end.
    (
        "POST /files HTTP/1.1\r\nTus-Resumable: 1.0.0\r\nUpload-Length: 5\r\n\
          Upload-Metadata: note YR==\r\n\r\n",
        Fault::BadMetadata,
    ),
    // The label `klingon`.
    (
        "POST /files HTTP/1.1\r\nTus-Resumable: 1.0.0\r\nUpload-Length: 5\r\n\
          Upload-Metadata: from a2xpbmdvbg==\r\n\r\n",
        Fault::BadLabel,
    ),
    // The label `shift_jis`, whose index file isn't set.
    (
        "POST /files HTTP/1.1\r\nTus-Resumable: 1.0.0\r\nUpload-Length: 5\r\n\
          Upload-Metadata: to c2hpZnRfamlz\r\n\r\n",
        Fault::BadLabel,
    ),
];

/// Refused heads for other paths, in the order of the checks.
const ELSEWHERE: [(&str, Fault); 12] = [
    ("DELETE /other HTTP/1.1\r\n\r\n", Fault::TusVersion),
    ("DELETE /files/1 HTTP/1.1\r\n\r\n", Fault::TusVersion),
    ("GET /files/01 HTTP/1.1\r\n\r\n", Fault::NoRoute),
    ("GET /files/0 HTTP/1.1\r\n\r\n", Fault::NoRoute),
    ("GET /files/ HTTP/1.1\r\n\r\n", Fault::NoRoute),
    ("GET /files/1/2 HTTP/1.1\r\n\r\n", Fault::NoRoute),
    (
        "GET /files/1234567890123456789 HTTP/1.1\r\n\r\n",
        Fault::NoRoute,
    ),
    (
        "DELETE /files/01 HTTP/1.1\r\nTus-Resumable: 1.0.0\r\n\r\n",
        Fault::NoRoute,
    ),
    (
        "delete /files/1 HTTP/1.1\r\nTus-Resumable: 1.0.0\r\n\r\n",
        Fault::BadMethod,
    ),
    (
        "PATCH /files/1 HTTP/1.1\r\nTus-Resumable: 1.0.0\r\nContent-Type: text/plain\r\n\r\n",
        Fault::MediaType,
    ),
    // No offset.
    (
        "PATCH /files/1 HTTP/1.1\r\nTus-Resumable: 1.0.0\r\nContent-Type: application/offset+octet-stream\r\n\r\n",
        Fault::BadHeader,
    ),
    // A length that is given twice.
    (
        "PATCH /files/1 HTTP/1.1\nTus-Resumable: 1.0.0\nUpload-Offset: 0\nUpload-Length: 5\n\
          Upload-Length: 5\nContent-Type: application/offset+octet-stream\n\n",
        Fault::BadHeader,
    ),
];

/// Heads that close the connection, because the start of the next request is unknown.
const CLOSING: [(&str, Fault); 9] = [
    ("BAD\r\n\r\n", Fault::Malformed),
    ("GET /files/\x001 HTTP/1.1\r\n\r\n", Fault::Malformed),
    (
        "GET /files/1 HTTP/1.1\nContent-Length: 0\nContent-Length: 0\n\n",
        Fault::BadLength,
    ),
    (
        "GET /files/1 HTTP/1.1\nContent-Length: 3\nContent-Length: 3\n\n",
        Fault::BadLength,
    ),
    (
        "GET /files/1 HTTP/1.1\nContent-Length: 3, 3\n\n",
        Fault::BadLength,
    ),
    (
        "GET /files/1 HTTP/1.1\nContent-Length: 1234567890123456789\n\n",
        Fault::BadLength,
    ),
    (
        "GET /files/1 HTTP/1.1\nContent-Length: -1\n\n",
        Fault::BadLength,
    ),
    (
        "GET /files/1 HTTP/1.1\nContent-Length: +3\n\n",
        Fault::BadLength,
    ),
    (
        "GET /files/1 HTTP/1.1\nContent-Length: 3 3\n\n",
        Fault::BadLength,
    ),
];

/// Heads for `/files` whose bodies have a transfer coding.
const CODED: [(&str, Fault); 2] = [
    (
        "GET /files HTTP/1.1\ntransfer-encoding: chunked\nContent-Length: x\n\n",
        Fault::Coding,
    ),
    (
        "GET /files HTTP/1.1\nTransfer-Encoding: gzip\nContent-Length: 3, 3\nTransfer-Encoding: chunked\n\n",
        Fault::Coding,
    ),
];

#[test]
fn requests_that_are_refused(rt: HostRuntime) {
    all_refused(&rt, rt.alloc(), &ON_FILES, true, false);
    all_refused(&rt, rt.alloc(), &ELSEWHERE, false, false);
    all_refused(&rt, rt.alloc(), &CLOSING, false, true);
    all_refused(&rt, rt.alloc(), &CODED, true, true);
}
