//! File names that the metadata of uploads gives.
ghost use Rattle.std.specs.Prelude.{◌≡◌, IfOk, Some, option_map, string_bytes};
ghost use Rattle.std.specs.List.{find, list_all};
ghost use Rattle.tus_request.specs.Texts.{parts};
ghost use Rattle.tus_request.specs.Value.{value_of};
ghost use Rattle.gateway_texts.specs.Naming.{begins_with_sign, given_name, is_barred, is_clean, is_filler};
ghost use Rattle.gateway_texts.specs.Naming.{is_hidden, is_named, is_safe_name, pair, text_in};

use base64::DecodeAllocError;
use base64::engine::general_purpose::STANDARD;
use common::{after, prefix};
use std::alloc::{AllocError, Global};

/// The name that the metadata of an upload gives, where it gives one in UTF-8.
pub fn given_name(alloc: Global, metadata: &[u8]) -> Result<Option<String>, AllocError>
    ensures { IfOk result (λ name. option_map string_bytes name ≡ given_name metadata.now) }
{
    match named_part(metadata) {
        Some(part) => text_in(alloc, prefix(after(pair(part), b' '), b' ')),
        None => Ok(None),
    }
}

// The first pair of the key `filename`.
fn named_part(metadata: &[u8]) -> Option<&[u8]>
    ensures { option_map (λ part. part.now) result ≡ find is_named (parts metadata.now) }
{
    metadata.split(|b| *b == b',').find(|part| is_named(part))
}

// Whether a pair has the key `filename`.
fn is_named(part: &[u8]) -> bool
    ensures { result ≡ is_named part.now }
{
    prefix(pair(part), b' ') == b"filename".as_slice()
}

// A pair without the spaces at the start.
fn pair(part: &[u8]) -> &[u8]
    ensures { result.now ≡ pair part.now }
{
    let mut rest = part;
    while let Some((first, more)) = rest.split_first() {
        if *first != b' ' {
            return rest;
        }
        rest = more;
    }
    rest
}

// The text in UTF-8 that a value encodes.
fn text_in(alloc: Global, value: &[u8]) -> Result<Option<String>, AllocError>
    ensures { IfOk result (λ text. option_map string_bytes text ≡ text_in (value_of value.now)) }
{
    match STANDARD.decode(alloc, value) {
        Ok(bytes) => Ok(text_of(bytes)),
        Err(DecodeAllocError::OutOfMemory) => Err(AllocError),
        Err(DecodeAllocError::DecodeError(_)) => Ok(None),
    }
}

// The text that some bytes are in UTF-8.
fn text_of(bytes: Vec<u8>) -> Option<String>
    ensures { option_map string_bytes result ≡ text_in (Some bytes.items) }
{
    match String::from_utf8(bytes) {
        Ok(text) => Some(text),
        Err(_) => None,
    }
}

/// Whether a file's name may end so, after its upload's number: it has no path separator and no character that is
/// hidden, doesn't begin with a dot or a hyphen, and has more than blanks and `*`.
pub fn is_safe_name(name: &str) -> bool
    ensures { result ≡ is_safe_name name.now }
{
    !begins_with_sign(name.as_bytes()) && !is_filling(name.as_bytes()) && is_clean(name)
}

// Whether a dot or a hyphen is first.
fn begins_with_sign(name: &[u8]) -> bool
    ensures { result ≡ begins_with_sign name.now }
{
    match name.split_first() {
        Some((first, _)) => *first == b'-' || *first == b'.',
        None => false,
    }
}

// Whether there is nothing but blanks and `*`.
fn is_filling(name: &[u8]) -> bool
    ensures { result ≡ list_all is_filler name.now }
{
    name.iter().all(|b| is_filler(*b))
}

fn is_filler(byte: u8) -> bool
    ensures { result ≡ is_filler byte }
{
    byte == b' ' || byte == b'*'
}

/// Whether no character is barred.
pub fn is_clean(name: &str) -> bool
    ensures { result ≡ is_clean name.now }
{
    name.chars().all(|c| !is_barred(c as u32))
}

// Whether a character is a path separator, or is hidden.
fn is_barred(code: u32) -> bool
    ensures { result ≡ is_barred code }
{
    is_hidden(code) || code == 0x2F || code == 0x5C
}

/// Whether the character of this code point shows something else than itself: it is a control character, ends a line,
/// turns text round, or has neither width nor an effect on letters.
pub fn is_hidden(code: u32) -> bool
    ensures { result ≡ is_hidden code }
{
    code < 0x20
        || code >= 0x7F && code <= 0x9F
        || code == 0x61C
        || code == 0x200B
        || code >= 0x200E && code <= 0x200F
        || code >= 0x2028 && code <= 0x202E
        || code >= 0x2066 && code <= 0x2069
        || code == 0xFEFF
}
