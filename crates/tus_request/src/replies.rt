//! The replies of the server, each as its exact bytes without the body.
//!
//! Each call appends to `out`, and leaves it unchanged on an error. `bare` means that the request's method was HEAD,
//! `closes` that the connection closes after the reply. A reply is put together without memory of its own, so `alloc`
//! serves none of these calls.
ghost use Rattle.std.specs.Prelude.{◌≡◌, ◌<◌, ◌≤◌, ◌+◌, ◌++◌, OnOk, OnErr, length};
ghost use Rattle.std.specs.Vec.{vec_capacity, vec_len};
ghost use Rattle.tus_request.specs.Replies.{reply_options, reply_created, reply_head, reply_patched, reply_deleted};
ghost use Rattle.tus_request.specs.Replies.{reply_text, reply_refused, reply_continue, unless_bare};
ghost use Rattle.tus_request.specs.Replies.{longest_reply, GrowsBy};

use crate::faults::Fault;
use common::MOST_METADATA;
use enc_model::Encoding;
use itoa::Buffer;
use parts::{
    append, append_head, declared_line, length_line, location_line, offset_line, refusal_lead,
    refusal_line, status_of, type_line, whole_line,
};
use std::alloc::{AllocError, Global};

mod parts;

/// The most bytes of a reply without its body.
pub const LONGEST_REPLY: usize = 2048;

/// Appends the reply to OPTIONS.
///
/// # Errors
///
/// `AllocError` when out of memory.
pub fn reply_options(
    alloc: Global,
    _bare: bool,
    closes: bool,
    out: &mut Vec<u8>,
) -> Result<(), AllocError>
    ensures ok { OnOk result (out.new.items ≡ out.old.items ++ reply_options closes) }
    ensures err { OnErr result (out.new.items ≡ out.old.items) }
    ensures short { GrowsBy longest_reply out.old.items out.new.items }
{
    let own = whole_line(
        "Tus-Version: 1.0.0\r\nTus-Extension: creation,creation-defer-length,termination\r\n\
         Tus-Max-Size: 1073741824\r\n",
    );
    append("204 No Content", &[own], closes, out)
}

/// Appends the reply to a POST that created the upload of this number.
///
/// # Errors
///
/// `AllocError` when out of memory.
pub fn reply_created(
    alloc: Global,
    number: u64,
    bare: bool,
    closes: bool,
    out: &mut Vec<u8>,
) -> Result<(), AllocError>
    ensures ok { OnOk result (out.new.items ≡ out.old.items ++ reply_created number bare closes) }
    ensures err { OnErr result (out.new.items ≡ out.old.items) }
    ensures short { GrowsBy longest_reply out.old.items out.new.items }
{
    let (mut digits, mut size) = (Buffer::new(), Buffer::new());
    let location = location_line(number, &mut digits);
    let length = length_line(unless_bare(bare, 0), &mut size);
    append("201 Created", &[location, length], closes, out)
}

/// Appends the reply to a HEAD: the upload's offset, its length or that it is deferred, and its metadata.
///
/// # Errors
///
/// `AllocError` when out of memory.
pub fn reply_head(
    alloc: Global,
    offset: u64,
    declared: Option<u64>,
    metadata: &str,
    bare: bool,
    closes: bool,
    out: &mut Vec<u8>,
) -> Result<(), AllocError>
    ensures ok { OnOk result (out.new.items ≡ out.old.items ++ reply_head offset declared metadata.now bare closes) }
    ensures err { OnErr result (out.new.items ≡ out.old.items) }
    ensures short { length metadata.now ≤ MOST_METADATA → GrowsBy longest_reply out.old.items out.new.items }
{
    let (mut digits, mut known, mut size) = (Buffer::new(), Buffer::new(), Buffer::new());
    let offset = offset_line(offset, &mut digits);
    let declared = declared_line(declared, &mut known);
    let length = length_line(unless_bare(bare, 0), &mut size);
    append_head(offset, declared, metadata, length, closes, out)
}

/// Appends the reply to a PATCH that was accepted; `offset` is the upload's new offset.
///
/// # Errors
///
/// `AllocError` when out of memory.
pub fn reply_patched(
    alloc: Global,
    offset: u64,
    _bare: bool,
    closes: bool,
    out: &mut Vec<u8>,
) -> Result<(), AllocError>
    ensures ok { OnOk result (out.new.items ≡ out.old.items ++ reply_patched offset closes) }
    ensures err { OnErr result (out.new.items ≡ out.old.items) }
    ensures short { GrowsBy longest_reply out.old.items out.new.items }
{
    let mut digits = Buffer::new();
    let offset = offset_line(offset, &mut digits);
    append("204 No Content", &[offset], closes, out)
}

/// Appends the reply to a DELETE that deleted its upload.
///
/// # Errors
///
/// `AllocError` when out of memory.
pub fn reply_deleted(
    alloc: Global,
    _bare: bool,
    closes: bool,
    out: &mut Vec<u8>,
) -> Result<(), AllocError>
    ensures ok { OnOk result (out.new.items ≡ out.old.items ++ reply_deleted closes) }
    ensures err { OnErr result (out.new.items ≡ out.old.items) }
    ensures short { GrowsBy longest_reply out.old.items out.new.items }
{
    append("204 No Content", &[], closes, out)
}

/// Appends the head of the reply to a GET whose text has `length` bytes in the encoding `to`.
///
/// # Errors
///
/// `AllocError` when out of memory.
pub fn reply_text(
    alloc: Global,
    to: Encoding,
    length: u64,
    bare: bool,
    closes: bool,
    out: &mut Vec<u8>,
) -> Result<(), AllocError>
    ensures ok { OnOk result (out.new.items ≡ out.old.items ++ reply_text to length bare closes) }
    ensures err { OnErr result (out.new.items ≡ out.old.items) }
    ensures short { GrowsBy longest_reply out.old.items out.new.items }
{
    let mut size = Buffer::new();
    let length = length_line(unless_bare(bare, length), &mut size);
    append("200 OK", &[type_line(to), length], closes, out)
}

/// Appends the reply to a request that is refused.
///
/// # Errors
///
/// `AllocError` when out of memory.
pub fn reply_refused(
    alloc: Global,
    fault: Fault,
    on_files: bool,
    bare: bool,
    closes: bool,
    out: &mut Vec<u8>,
) -> Result<(), AllocError>
    ensures ok { OnOk result (out.new.items ≡ out.old.items ++ reply_refused fault on_files bare closes) }
    ensures err { OnErr result (out.new.items ≡ out.old.items) }
    ensures short { GrowsBy longest_reply out.old.items out.new.items }
{
    let (mut digits, mut size) = (Buffer::new(), Buffer::new());
    let lead = whole_line(refusal_lead(fault, on_files));
    let number = refusal_line(fault, &mut digits);
    let length = length_line(unless_bare(bare, 0), &mut size);
    append(status_of(fault), &[lead, number, length], closes, out)
}

/// Appends `100 Continue`.
///
/// # Errors
///
/// `AllocError` when out of memory, which needs an `out` with less than 25 bytes of free capacity.
pub fn reply_continue(out: &mut Vec<u8>) -> Result<(), AllocError>
    ensures ok { OnOk result (out.new.items ≡ out.old.items ++ reply_continue) }
    ensures err { OnErr result (out.new.items ≡ out.old.items) }
    ensures full { OnErr result (vec_capacity out.old < vec_len out.old + 25) }
{
    out.extend_from_slice(b"HTTP/1.1 100 Continue\r\n\r\n")
}

/// The value of `Content-Length`. A reply to a HEAD leaves it out.
fn unless_bare(bare: bool, length: u64) -> Option<u64>
    ensures { result ≡ unless_bare bare length }
{
    if bare { None } else { Some(length) }
}
