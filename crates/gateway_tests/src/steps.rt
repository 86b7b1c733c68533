//! The steps of a talk.

use crate::replies::Wanted;

/// A step of a talk: lines of its script, wanted output, or both.
#[derive(Clone, Copy)]
pub(crate) enum Step<'a> {
    /// Opens the connections from 1 up to this one.
    Open(u32),
    /// A line of the script.
    Line(&'a str),
    /// The lines of a head on a connection.
    Say(u32, &'a str),
    /// Bytes that are received on a connection.
    Came(u32, &'a [u8]),
    /// A wanted line of the output.
    Written(&'a str),
    /// Bytes that must be sent on a connection.
    Given(u32, &'a [u8]),
    /// A reply on a connection.
    Replied(u32, Wanted<'a>),
    /// A reply on a connection that no `Wanted` is: its status, its own lines and its body.
    Reply(u32, &'a str, &'a str, &'a [u8]),
    /// A refusal on a connection: its status and its number.
    Refused(u32, &'a str, u8),
    /// The latest reply has this many bytes.
    Bytes(usize),
    /// A POST on connection 1 with this length and metadata.
    Post(u64, &'a str),
    /// A POST on connection 1 that makes this upload, with this length and metadata.
    Made(u64, u64, &'a str),
    /// A POST on connection 1 that makes this upload with a deferred length and this metadata.
    Deferred(u64, &'a str),
    /// The head of a PATCH on a connection: the upload, the offset and the length of the body.
    Patch(u32, u64, u64, usize),
    /// The head of a PATCH on a connection that declares a length: the upload, the offset, the declared length and the
    /// length of the body.
    Declare(u32, u64, u64, u64, usize),
    /// The reply to a PATCH that reached this offset.
    Patched(u32, u64),
    /// A PATCH on connection 1 and its reply: the upload, the offset, the bytes and the offset that is reached.
    Added(u64, u64, &'a [u8], u64),
    /// A DELETE of an upload on a connection, which succeeds.
    Deleted(u32, u64),
    /// A HEAD of an upload that is gone, on a connection.
    Gone(u32, u64),
    /// A HEAD of an upload on a connection, and the offset, the declared length and the metadata that it shows.
    Shown(u32, u64, u64, Option<u64>, &'a str),
    /// A GET of an upload on connection 1, with the character set and the text of its reply.
    Text(u64, &'a str, &'a [u8]),
    /// The latest reply acknowledged a change. The uploads after it: the number, the accepted bytes, the declared
    /// length and the text.
    Changed(&'a [(u64, u64, Option<u64>, &'a [u8])]),
}
