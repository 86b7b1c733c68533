//! Lookups in the fields of a head.
ghost use Rattle.std.specs.Prelude.{◌≡◌, codes, option_copied};
ghost use Rattle.std.specs.List.{list_any};
ghost use Rattle.tus_request.specs.Fields.{values};
ghost use Rattle.tus_request.specs.FoundFields.{found_values};
ghost use Rattle.tus_request.specs.Texts.{any_case, lists_word};
ghost use Rattle.tus_request.specs.Checks.{is_given, first_or, only, number_in, length_in, is_word_when};
ghost use Rattle.tus_request.specs.Checks.{optional_number_in, declared_in, is_patch_media};

use crate::fields::{Found, find, is_named};
use crate::texts::{is_word, lists_word};
use common::{number, prefix};
use http_header::{
    CONNECTION, CONTENT_LENGTH, CONTENT_TYPE, EXPECT, HeaderName, TRANSFER_ENCODING,
};
use httparse::Header;

/// Whether the body has a transfer coding.
pub(crate) fn has_coding(fields: &[Header<'_>]) -> bool
    ensures { result ≡ is_given (values fields.now (codes "transfer-encoding")) }
{
    is_given(fields, &TRANSFER_ENCODING)
}

/// Whether metadata are given.
pub(crate) fn has_metadata(fields: &[Header<'_>]) -> bool
    ensures { result ≡ is_given (values fields.now (codes "upload-metadata")) }
{
    is_given(fields, &HeaderName::from_static("upload-metadata"))
}

/// The first metadata that are given.
pub(crate) fn metadata_in<'f, 'b>(fields: &'f [Header<'b>]) -> Option<Found<'f, 'b>>
    ensures { values fields.now (codes "upload-metadata") ≡ found_values result (codes "upload-metadata") }
{
    find(fields, &HeaderName::from_static("upload-metadata"))
}

/// The method that is given in a field, or that of the request line.
pub(crate) fn method_or<'b>(fields: &[Header<'b>], method: &'b str) -> &'b [u8]
    ensures { result.now ≡ first_or (values fields.now (codes "x-http-method-override")) method.now }
{
    first_or(
        fields,
        &HeaderName::from_static("x-http-method-override"),
        method,
    )
}

/// Whether the client awaits `100 Continue`.
pub(crate) fn awaits_continue(fields: &[Header<'_>]) -> bool
    ensures { result ≡ list_any (any_case (codes "100-continue")) (values fields.now (codes "expect")) }
{
    has_word(fields, &EXPECT, "100-continue")
}

/// Whether the client asks that the connection closes after the reply.
pub(crate) fn wants_close(fields: &[Header<'_>]) -> bool
    ensures { result ≡ list_any (lists_word (codes "close")) (values fields.now (codes "connection")) }
{
    lists(fields, &CONNECTION, "close")
}

/// Whether the field is given.
fn is_given(fields: &[Header<'_>], name: &HeaderName) -> bool
    ensures { result ≡ is_given (values fields.now name.now) }
{
    find(fields, name).is_some()
}

/// The first value of the field, or `other`.
fn first_or<'b>(fields: &[Header<'b>], name: &HeaderName, other: &'b str) -> &'b [u8]
    ensures { result.now ≡ first_or (values fields.now name.now) other.now }
{
    match find(fields, name) {
        Some(found) => found.value,
        None => other.as_bytes(),
    }
}

/// The value of the field, if there is exactly one.
fn only<'b>(fields: &[Header<'b>], name: &HeaderName) -> Option<&'b [u8]>
    ensures { option_copied result ≡ only (values fields.now name.now) }
{
    let found = find(fields, name)?;
    if is_given(found.rest, name) {
        return None;
    }
    Some(found.value)
}

/// The number in the field, if it has exactly one value.
fn number_in(fields: &[Header<'_>], name: &HeaderName) -> Option<u64>
    ensures { result ≡ number_in (values fields.now name.now) }
{
    number(only(fields, name)?)
}

/// The length of the body: 0 without `Content-Length`, None if that is invalid.
pub(crate) fn body_length(fields: &[Header<'_>]) -> Option<u64>
    ensures { result ≡ length_in (values fields.now (codes "content-length")) }
{
    if !is_given(fields, &CONTENT_LENGTH) {
        return Some(0);
    }
    number_in(fields, &CONTENT_LENGTH)
}

/// The offset of the upload that the request names, if it is given once and is a number.
pub(crate) fn offset_in(fields: &[Header<'_>]) -> Option<u64>
    ensures { result ≡ number_in (values fields.now (codes "upload-offset")) }
{
    number_in(fields, &HeaderName::from_static("upload-offset"))
}

/// The upload's length that a PATCH declares; `Some(None)` without it, None if it is invalid.
pub(crate) fn new_length_in(fields: &[Header<'_>]) -> Option<Option<u64>>
    ensures { result ≡ optional_number_in (values fields.now (codes "upload-length")) }
{
    optional_number_in(fields, &HeaderName::from_static("upload-length"))
}

/// The number in the field; `Some(None)` without the field, None if it is invalid.
fn optional_number_in(fields: &[Header<'_>], name: &HeaderName) -> Option<Option<u64>>
    ensures { result ≡ optional_number_in (values fields.now name.now) }
{
    if !is_given(fields, name) {
        return Some(None);
    }
    number_in(fields, name).map(Some)
}

/// The length of a new upload (tus 1.0.0, Creation): `Upload-Length`, or `Upload-Defer-Length: 1`, never both.
pub(crate) fn declared_in(fields: &[Header<'_>]) -> Option<Option<u64>>
    ensures { result ≡ declared_in (values fields.now (codes "upload-length"))
        (values fields.now (codes "upload-defer-length")) }
{
    let name = HeaderName::from_static("upload-length");
    let other = HeaderName::from_static("upload-defer-length");
    declared_by(fields, &name, &other)
}

/// The same, by the names of the two fields.
fn declared_by(fields: &[Header<'_>], name: &HeaderName, other: &HeaderName) -> Option<Option<u64>>
    ensures { result ≡ declared_in (values fields.now name.now) (values fields.now other.now) }
{
    if !is_given(fields, other) {
        return number_in(fields, name).map(Some);
    }
    if is_given(fields, name) || !is_only(fields, other, "1") {
        return None;
    }
    Some(None)
}

/// Whether the protocol's version is given once and is 1.0.0.
pub(crate) fn has_version(fields: &[Header<'_>]) -> bool
    ensures { result ≡ is_word_when (codes "1.0.0") (only (values fields.now (codes "tus-resumable"))) }
{
    is_only(fields, &HeaderName::from_static("tus-resumable"), "1.0.0")
}

/// Whether the field has exactly this one value.
fn is_only(fields: &[Header<'_>], name: &HeaderName, word: &str) -> bool
    ensures { result ≡ is_word_when word.now (only (values fields.now name.now)) }
{
    match only(fields, name) {
        Some(value) => value == word.as_bytes(),
        None => false,
    }
}

/// Whether the media type is that of a PATCH. Parameters after a semicolon are ignored.
pub(crate) fn is_patch_media(fields: &[Header<'_>]) -> bool
    ensures { result ≡ is_patch_media (only (values fields.now (codes "content-type"))) }
{
    match only(fields, &CONTENT_TYPE) {
        Some(value) => is_word(prefix(value, b';'), "application/offset+octet-stream"),
        None => false,
    }
}

/// Whether one of the field's values is this word, compared without case.
fn has_word(fields: &[Header<'_>], name: &HeaderName, word: &str) -> bool
    ensures { result ≡ list_any (any_case word.now) (values fields.now name.now) }
{
    for field in fields {
        if is_named(field, name) && is_word(field.value, word) {
            return true;
        }
    }
    false
}

/// Whether one of the field's values is a list with this word, compared without case.
fn lists(fields: &[Header<'_>], name: &HeaderName, word: &str) -> bool
    ensures { result ≡ list_any (lists_word word.now) (values fields.now name.now) }
{
    for field in fields {
        if is_named(field, name) && lists_word(field.value, word) {
            return true;
        }
    }
    false
}
