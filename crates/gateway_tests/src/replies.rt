//! Wanted replies, made of their values by the program's printer. What it prints is checked byte by byte in tus_tests.

use common::MOST_METADATA;
use enc_model::Encoding;
use std::alloc::Global;
use std::process::Abort;
use tus_request::Fault;
use tus_request::replies::{
    reply_created, reply_deleted, reply_head, reply_patched, reply_refused, reply_text,
};

const MEMORY: &str = "memory for a reply";

/// A reply on a connection that stays open.
#[derive(Clone, Copy)]
pub(crate) enum Wanted<'a> {
    /// To a POST that made this upload.
    Made(u64),
    /// To a PATCH that reached this offset.
    Patched(u64),
    /// To a DELETE.
    Deleted,
    /// To a HEAD: the offset, the declared length and the metadata.
    Shown(u64, Option<u64>, &'a str),
    /// To a HEAD inside a POST, which names the length of its body: the offset and the declared length.
    ShownToPost(u64, Option<u64>),
    /// To a HEAD of an upload that is gone.
    Gone,
    /// To a GET of this text in UTF-8.
    Text(&'a [u8]),
}

impl Wanted<'_> {
    /// Appends the reply's bytes.
    pub(crate) fn put(self, rt: &impl Abort, alloc: Global, out: &mut Vec<u8>) {
        let printed = match self {
            Wanted::Made(number) => reply_created(alloc, number, false, false, out),
            Wanted::Patched(offset) => reply_patched(alloc, offset, false, false, out),
            Wanted::Deleted => reply_deleted(alloc, false, false, out),
            Wanted::Shown(offset, declared, metadata) => {
                assert!(rt; metadata.len() <= MOST_METADATA);
                reply_head(alloc, offset, declared, metadata, true, false, out)
            }
            Wanted::ShownToPost(offset, declared) => {
                reply_head(alloc, offset, declared, "", false, false, out)
            }
            Wanted::Gone => reply_refused(alloc, Fault::NoSuch, false, true, false, out),
            Wanted::Text(text) => {
                let length = text.len() as u64;
                reply_text(alloc, Encoding::Utf8, length, false, false, out)
            }
        };
        printed.expect(rt, MEMORY);
        if let Wanted::Text(text) = self {
            out.extend_from_slice(text).expect(rt, MEMORY);
        }
    }
}

/// The bytes of these replies, one after the other.
pub(crate) fn replies(rt: &impl Abort, alloc: Global, list: &[Wanted]) -> Vec<u8> {
    let mut bytes = Vec::new(alloc);
    for reply in list {
        reply.put(rt, alloc, &mut bytes);
    }
    bytes
}
