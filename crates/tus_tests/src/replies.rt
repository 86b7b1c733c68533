//! The replies, byte by byte.

use enc_model::Encoding;
use std::alloc::Global;
use std::process::Abort;
use tus_request::Fault;
use tus_request::replies::{
    reply_continue, reply_created, reply_deleted, reply_head, reply_options, reply_patched,
    reply_refused, reply_text,
};

/// A reply's printer, with its values.
#[derive(Clone, Copy)]
enum Printer {
    Options,
    Created(u64),
    Head(u64, Option<u64>, &'static str),
    Patched(u64),
    Deleted,
    Text(u64),
    Refused(Fault),
    Continue,
}

/// Each row: a reply, whether it is bare, whether the connection closes, and its bytes.
static ROWS: [(Printer, bool, bool, &str); 9] = [
    (
        Printer::Options,
        false,
        false,
        "HTTP/1.1 204 No Content\r\nTus-Resumable: 1.0.0\r\nCache-Control: no-store\r\nTus-Version: 1.0.0\r\n\
        Tus-Extension: creation,creation-defer-length,termination\r\nTus-Max-Size: 1073741824\r\n\r\n",
    ),
    (
        Printer::Created(7),
        false,
        false,
        "HTTP/1.1 201 Created\r\nTus-Resumable: 1.0.0\r\nCache-Control: no-store\r\nLocation: /files/7\r\n\
        Content-Length: 0\r\n\r\n",
    ),
    (
        Printer::Head(5, Some(10), "note"),
        true,
        false,
        "HTTP/1.1 200 OK\r\nTus-Resumable: 1.0.0\r\nCache-Control: no-store\r\nUpload-Offset: 5\r\n\
        Upload-Length: 10\r\nUpload-Metadata: note\r\n\r\n",
    ),
    (
        Printer::Head(0, None, ""),
        false,
        true,
        "HTTP/1.1 200 OK\r\nTus-Resumable: 1.0.0\r\nCache-Control: no-store\r\nUpload-Offset: 0\r\n\
        Upload-Defer-Length: 1\r\nContent-Length: 0\r\nConnection: close\r\n\r\n",
    ),
    (
        Printer::Patched(5),
        false,
        false,
        "HTTP/1.1 204 No Content\r\nTus-Resumable: 1.0.0\r\nCache-Control: no-store\r\nUpload-Offset: 5\r\n\r\n",
    ),
    (
        Printer::Deleted,
        false,
        true,
        "HTTP/1.1 204 No Content\r\nTus-Resumable: 1.0.0\r\nCache-Control: no-store\r\nConnection: close\r\n\r\n",
    ),
    (
        Printer::Text(5),
        false,
        false,
        "HTTP/1.1 200 OK\r\nTus-Resumable: 1.0.0\r\nCache-Control: no-store\r\n\
        Content-Type: text/plain; charset=UTF-8\r\nContent-Length: 5\r\n\r\n",
    ),
    (
        Printer::Refused(Fault::NoSuch),
        true,
        false,
        "HTTP/1.1 404 Not Found\r\nTus-Resumable: 1.0.0\r\nCache-Control: no-store\r\nX-Refusal: 8\r\n\r\n",
    ),
    (
        Printer::Continue,
        false,
        false,
        "HTTP/1.1 100 Continue\r\n\r\n",
    ),
];

/// The bytes that a printer appends.
fn printed(rt: &impl Abort, alloc: Global, printer: Printer, bare: bool, closes: bool) -> Vec<u8> {
    let mut out = Vec::new(alloc);
    let done = match printer {
        Printer::Options => reply_options(alloc, bare, closes, &mut out),
        Printer::Created(number) => reply_created(alloc, number, bare, closes, &mut out),
        Printer::Head(offset, declared, metadata) => {
            reply_head(alloc, offset, declared, metadata, bare, closes, &mut out)
        }
        Printer::Patched(offset) => reply_patched(alloc, offset, bare, closes, &mut out),
        Printer::Deleted => reply_deleted(alloc, bare, closes, &mut out),
        Printer::Text(length) => reply_text(alloc, Encoding::Utf8, length, bare, closes, &mut out),
        Printer::Refused(fault) => reply_refused(alloc, fault, false, bare, closes, &mut out),
        Printer::Continue => reply_continue(&mut out),
    };
    done.expect(rt, "memory for a reply");
    out
}

#[test]
fn each_reply_has_these_bytes(rt: HostRuntime) {
    for (printer, bare, closes, bytes) in ROWS {
        let out = printed(&rt, rt.alloc(), printer, bare, closes);
        assert!(rt; out.as_slice() == bytes.as_bytes());
    }
}

/// Each refusal: its status, and its own lines, on `/files` or on an upload.
static REFUSALS: [(Fault, bool, &str, &str); 20] = [
    (
        Fault::Unencodable,
        false,
        "422 Unprocessable Entity",
        "X-Refusal: 6\r\n",
    ),
    (Fault::NoSuch, false, "404 Not Found", "X-Refusal: 8\r\n"),
    (Fault::Offset, false, "409 Conflict", "X-Refusal: 9\r\n"),
    (
        Fault::TooLong,
        false,
        "413 Payload Too Large",
        "X-Refusal: 10\r\n",
    ),
    (
        Fault::Slots,
        true,
        "507 Insufficient Storage",
        "X-Refusal: 11\r\n",
    ),
    (
        Fault::TooLarge,
        true,
        "413 Payload Too Large",
        "X-Refusal: 12\r\n",
    ),
    (
        Fault::Full,
        false,
        "507 Insufficient Storage",
        "X-Refusal: 17\r\n",
    ),
    (
        Fault::Malformed,
        false,
        "400 Bad Request",
        "X-Refusal: 18\r\n",
    ),
    (
        Fault::HeadTooLong,
        false,
        "431 Request Header Fields Too Large",
        "X-Refusal: 19\r\n",
    ),
    (
        Fault::Coding,
        false,
        "501 Not Implemented",
        "X-Refusal: 20\r\n",
    ),
    (
        Fault::BadLength,
        false,
        "400 Bad Request",
        "X-Refusal: 21\r\n",
    ),
    (
        Fault::TusVersion,
        true,
        "412 Precondition Failed",
        "Tus-Version: 1.0.0\r\nX-Refusal: 22\r\n",
    ),
    (Fault::NoRoute, false, "404 Not Found", "X-Refusal: 23\r\n"),
    (
        Fault::BadMethod,
        true,
        "405 Method Not Allowed",
        "Allow: OPTIONS, POST\r\nX-Refusal: 24\r\n",
    ),
    (
        Fault::BadMethod,
        false,
        "405 Method Not Allowed",
        "Allow: OPTIONS, HEAD, PATCH, GET, DELETE\r\nX-Refusal: 24\r\n",
    ),
    (
        Fault::MediaType,
        false,
        "415 Unsupported Media Type",
        "X-Refusal: 25\r\n",
    ),
    (
        Fault::BadHeader,
        true,
        "400 Bad Request",
        "X-Refusal: 26\r\n",
    ),
    (
        Fault::BadMetadata,
        true,
        "400 Bad Request",
        "X-Refusal: 27\r\n",
    ),
    (
        Fault::BadLabel,
        true,
        "400 Bad Request",
        "X-Refusal: 28\r\n",
    ),
    (
        Fault::LengthSet,
        false,
        "400 Bad Request",
        "X-Refusal: 34\r\n",
    ),
];

#[test]
fn each_refusal_has_these_bytes(rt: HostRuntime) {
    let alloc = rt.alloc();
    for (fault, on_files, status, lines) in REFUSALS {
        let mut out = Vec::new(alloc);
        reply_refused(alloc, fault, on_files, false, true, &mut out).expect(
            &rt,
            "memory for a reply",
        );
        let wanted = format!(in alloc;
            "HTTP/1.1 {status}\r\nTus-Resumable: 1.0.0\r\nCache-Control: no-store\r\n{lines}Content-Length: 0\r\n\
            Connection: close\r\n\r\n"
        )
        .expect(&rt, "memory for a reply");
        assert_eq!(rt; out.as_slice(), wanted.as_bytes(), "{fault:?}");
    }
}

/// The names of the longest metadata that an upload may have, and of more: both are in the reply to a HEAD.
#[test]
fn metadata_of_any_length_is_replied(rt: HostRuntime) {
    let alloc = rt.alloc();
    for count in [1536, 5000] {
        let mut metadata = String::new(alloc);
        for _ in 0..count {
            metadata.push('a').expect(&rt, "memory for metadata");
        }
        let mut out = Vec::new(alloc);
        reply_head(alloc, 0, Some(1), metadata.as_str(), true, false, &mut out).expect(
            &rt,
            "memory for a reply",
        );
        let wanted = format!(in alloc;
            "HTTP/1.1 200 OK\r\nTus-Resumable: 1.0.0\r\nCache-Control: no-store\r\nUpload-Offset: 0\r\n\
            Upload-Length: 1\r\nUpload-Metadata: {metadata}\r\n\r\n"
        )
        .expect(&rt, "memory for a reply");
        assert_eq!(rt; out.as_slice(), wanted.as_bytes(), "{count}");
    }
}
