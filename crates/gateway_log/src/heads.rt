//! What the log shows of the heads of requests and replies.

use base64::engine::general_purpose::STANDARD;
use common::{after, number, prefix};
use httparse::{EMPTY_HEADER, Header, Request, Response, Status};
use std::alloc::Global;

/// The most lines that a head has after its first line.
const MOST_LINES: usize = 64;

/// Of a request's first line so many bytes are stored at most: two words of 200 bytes, and a few more.
const MOST_HELD: usize = 512;

/// What the log shows of a request's head.
#[derive(Drop)]
pub(crate) struct RequestHead {
    alloc: Global,
    /// The first line, or its first 512 bytes.
    line: Vec<u8>,
    /// `Upload-Offset`.
    pub(crate) offset: Option<u64>,
    /// `Upload-Length`.
    pub(crate) length: Option<u64>,
    /// `Content-Length`.
    pub(crate) body: Option<u64>,
    /// `X-HTTP-Method-Override`, the first one.
    method: Option<Vec<u8>>,
    /// `Upload-Metadata`, the first one.
    metadata: Vec<u8>,
}

impl RequestHead {
    /// Of a request that hasn't begun.
    pub(crate) fn new(alloc: Global) -> Self {
        RequestHead {
            alloc,
            line: Vec::new(alloc),
            offset: None,
            length: None,
            body: None,
            method: None,
            metadata: Vec::new(alloc),
        }
    }

    /// Of a request whose bytes begin so. One that isn't a whole head, or none at all, has no fields.
    pub(crate) fn read(alloc: Global, bytes: &[u8]) -> Self {
        let mut head = RequestHead::new(alloc);
        head.line = copied(alloc, first_line(bytes));
        let mut headers = [EMPTY_HEADER; MOST_LINES];
        let mut request = Request::new(&mut headers);
        if let Ok(Status::Complete(_)) = request.parse(bytes) {
            for header in request.headers.iter() {
                head.add(header);
            }
        }
        head
    }

    /// A word of the first line, by its place: 0 is the method and 1 the path.
    pub(crate) fn word(&self, place: usize) -> Option<&[u8]> {
        self.line.split(|byte| *byte == b' ').nth(place)
    }

    /// The number of the upload that the path names, if it is one of an upload. A query doesn't count.
    pub(crate) fn upload(&self) -> Option<u64> {
        number(prefix(self.word(1)?, b'?').strip_prefix(b"/files/")?)
    }

    /// The method that counts in place of the first line's, if a field gives one.
    pub(crate) fn method(&self) -> Option<&[u8]> {
        self.method.as_deref()
    }

    /// The value of `Upload-Metadata`, and nothing without it.
    pub(crate) fn metadata(&self) -> &[u8] {
        &self.metadata
    }

    /// The value of a key in the metadata, if it has one that is Base64.
    pub(crate) fn value_of(&self, key: &str) -> Option<Vec<u8>> {
        let pair = self
            .metadata
            .split(|byte| *byte == b',')
            .map(|part| part.trim_ascii())
            .find(|part| prefix(part, b' ') == key.as_bytes())?;
        STANDARD.decode(self.alloc, after(pair, b' ')).ok()
    }

    // Takes a field. One that should have a number and has none is as if it weren't there.
    fn add(&mut self, header: &Header) {
        let value = header.value.trim_ascii();
        if is_named(header, "Content-Length") {
            self.body = number(value).or(self.body);
        } else if is_named(header, "Upload-Offset") {
            self.offset = number(value).or(self.offset);
        } else if is_named(header, "Upload-Length") {
            self.length = number(value).or(self.length);
        } else if is_named(header, "Upload-Metadata") && self.metadata.is_empty() {
            self.metadata = copied(self.alloc, value);
        } else if is_named(header, "X-HTTP-Method-Override") && self.method.is_none() {
            self.method = Some(copied(self.alloc, value));
        }
    }
}

/// What the log shows of a reply's head.
#[derive(Clone, Copy, Drop)]
pub(crate) struct ReplyHead {
    pub(crate) status: u16,
    /// `X-Refusal`.
    pub(crate) refusal: Option<u64>,
    /// The number at the end of `Location`: that of the upload which was created.
    pub(crate) number: Option<u64>,
    /// `Upload-Offset`.
    pub(crate) offset: Option<u64>,
    /// `Upload-Length`.
    pub(crate) length: Option<u64>,
}

impl ReplyHead {
    /// The head of the final reply that begins in these bytes, if one does. An interim one may be before it.
    pub(crate) fn read(bytes: &[u8]) -> Option<Self> {
        let (head, len) = ReplyHead::first(bytes)?;
        if head.status >= 200 {
            return Some(head);
        }
        let (head, _) = ReplyHead::first(bytes.get(len..)?)?;
        Some(head)
    }

    // The head at the start of these bytes, and its length.
    fn first(bytes: &[u8]) -> Option<(Self, usize)> {
        let mut headers = [EMPTY_HEADER; MOST_LINES];
        let mut response = Response::new(&mut headers);
        let Ok(Status::Complete(len)) = response.parse(bytes) else {
            return None;
        };
        let mut head = ReplyHead {
            status: response.code?,
            refusal: None,
            number: None,
            offset: None,
            length: None,
        };
        for header in response.headers.iter() {
            head.add(header);
        }
        Some((head, len))
    }

    // Takes a field.
    fn add(&mut self, header: &Header) {
        if is_named(header, "X-Refusal") {
            self.refusal = number(header.value);
        } else if is_named(header, "Location") {
            self.number = number_at_end(header.value);
        } else if is_named(header, "Upload-Offset") {
            self.offset = number(header.value);
        } else if is_named(header, "Upload-Length") {
            self.length = number(header.value);
        }
    }
}

// Whether this is the field's name. Names are compared without case (RFC 9110, section 5.1).
fn is_named(header: &Header, field: &str) -> bool {
    header.name.eq_ignore_ascii_case(field)
}

// The first line that isn't empty, without its end. Empty lines before a head don't belong to it (RFC 9112, section
// 2.2).
fn first_line(bytes: &[u8]) -> &[u8] {
    let line = bytes
        .split(|byte| *byte == b'\n')
        .map(|line| line.trim_ascii_end())
        .find(|line| !line.is_empty())
        .unwrap_or(b"");
    &line[..line.len().min(MOST_HELD)]
}

// A copy of the bytes. Out of memory they are lost.
fn copied(alloc: Global, bytes: &[u8]) -> Vec<u8> {
    let mut copy = Vec::new(alloc);
    let stored = copy.extend_from_slice(bytes);
    drop(stored);
    copy
}

// The number after the last slash of a path.
fn number_at_end(path: &[u8]) -> Option<u64> {
    number(path.rsplit(|byte| *byte == b'/').next()?)
}
