//! The metadata of a new upload (tus 1.0.0, Upload-Metadata).
ghost use Rattle.std.specs.Prelude.{◌≡◌, IfOk, map, option_map, Some, [], ◌∷◌};
ghost use Rattle.tus_request.specs.Value.{IsValueOf, value_of};
ghost use Rattle.tus_request.specs.Texts.{parts, trimmed};
ghost use Rattle.std.specs.List.{list_all};
ghost use Rattle.tus_request.specs.Metadata.{is_plain, pair_value, key_value_of, has_key, key_values_from, is_metadata};
ghost use Rattle.tus_request.specs.Metadata.{metadata_of, setting, mode_of, choice_of};
ghost use Rattle.tus_request.specs.Pairs.{pair_shown, choice_shown, bytes_shown, pairs_shown};

use crate::texts::trimmed;
use base64::DecodeAllocError;
use base64::engine::general_purpose::STANDARD;
use common::{MOST_METADATA, after, prefix};
use enc_labels::{encoding_of, output_of};
use enc_model::{Encoding, Mode};
use std::alloc::{AllocError, Global};

/// A key and its decoded value.
#[derive(Drop)]
pub(crate) struct Pair<'m> {
    key: &'m [u8],
    value: Vec<u8>,
}

/// The encoding of the bytes, the encoding of the text, and the error mode for characters that the latter lacks.
#[derive(Clone, Copy, Drop)]
pub(crate) struct Choice {
    pub(crate) from: Encoding,
    pub(crate) to: Encoding,
    pub(crate) mode: Mode,
}

/// The bytes whose padded Base64 the text is, if it is one.
fn value(alloc: Global, text: &[u8]) -> Result<Option<Vec<u8>>, AllocError>
    ensures value { IfOk result (λ found. bytes_shown found ≡ value_of text.now) }
    ensures exact { IfOk result (λ found. IsValueOf text.now (bytes_shown found)) }
{
    match STANDARD.decode(alloc, text) {
        Ok(bytes) => Ok(Some(bytes)),
        Err(DecodeAllocError::OutOfMemory) => Err(AllocError),
        Err(DecodeAllocError::DecodeError(_)) => Ok(None),
    }
}

/// The same for a value, which may also be empty.
fn pair_value(alloc: Global, text: &[u8]) -> Result<Option<Vec<u8>>, AllocError>
    ensures { IfOk result (λ found. bytes_shown found ≡ pair_value text.now) }
{
    if text.is_empty() {
        return Ok(Some(Vec::new(alloc)));
    }
    value(alloc, text)
}

/// The key and value of a part, if it has the form of a pair.
fn read_pair<'m>(alloc: Global, part: &'m [u8]) -> Result<Option<Pair<'m>>, AllocError>
    ensures { IfOk result (λ found. option_map pair_shown found ≡ key_value_of part.now) }
{
    let key = prefix(part, b' ');
    if key.is_empty() {
        return Ok(None);
    }
    let value = pair_value(alloc, after(part, b' '))?;
    Ok(value.map(|value| Pair { key, value }))
}

/// Whether one of the pairs has the key.
fn has_key(pairs: &[Pair<'_>], key: &[u8]) -> bool
    ensures { result ≡ has_key key.now (map pair_shown pairs.now) }
{
    for pair in pairs {
        if pair.key == key {
            return true;
        }
    }
    false
}

/// The pairs of a list, if all its parts are pairs and no key occurs twice.
fn read_pairs<'m>(alloc: Global, text: &'m [u8]) -> Result<Option<Vec<Pair<'m>>>, AllocError>
    ensures { IfOk result
        (λ found. pairs_shown found ≡ key_values_from (Some []) (map (trimmed (32 ∷ [])) (parts text.now))) }
{
    let mut pairs = Vec::new(alloc);
    for part in text.split(|b| *b == b',') {
        let Some(pair) = read_pair(alloc, trimmed(part, b" "))? else {
            return Ok(None);
        };
        if has_key(&pairs, pair.key) {
            return Ok(None);
        }
        pairs.push(pair)?;
    }
    Ok(Some(pairs))
}

/// Whether the text is short enough and printable ASCII.
fn is_metadata(text: &[u8]) -> bool
    ensures { result ≡ is_metadata text.now }
{
    text.len() <= MOST_METADATA && are_plain(text)
}

/// Whether the byte is printable ASCII.
fn is_plain(byte: u8) -> bool
    ensures { result ≡ is_plain byte }
{
    byte >= 0x20 && byte <= 0x7E
}

/// Whether all bytes are printable ASCII.
fn are_plain(text: &[u8]) -> bool
    ensures { result ≡ list_all is_plain text.now }
{
    text.iter().all(|b| is_plain(*b))
}

/// The pairs of the metadata, if it is well-formed. Empty metadata has none.
pub(crate) fn read<'m>(
    alloc: Global,
    metadata: &'m [u8],
) -> Result<Option<Vec<Pair<'m>>>, AllocError>
    ensures { IfOk result (λ found. pairs_shown found ≡ metadata_of metadata.now) }
{
    if metadata.is_empty() {
        return Ok(Some(Vec::new(alloc)));
    }
    if !is_metadata(metadata) {
        return Ok(None);
    }
    read_pairs(alloc, metadata)
}

/// The value of the key, or a default.
fn setting<'p>(pairs: &'p [Pair<'_>], key: &[u8], other: &'p [u8]) -> &'p [u8]
    ensures { result.now ≡ setting key.now other.now (map pair_shown pairs.now) }
{
    for pair in pairs {
        if pair.key == key {
            return pair.value.as_slice();
        }
    }
    other
}

/// The error mode of this name.
fn mode_of(name: &[u8]) -> Option<Mode>
    ensures { result ≡ mode_of name.now }
{
    match name {
        b"html" => Some(Mode::Html),
        b"fatal" => Some(Mode::Fatal),
        _ => None,
    }
}

/// The choice that the keys `from`, `to` and `mode` make, if all three values are known. Other keys are ignored.
pub(crate) fn choice_of(pairs: &[Pair<'_>]) -> Option<Choice>
    ensures { option_map choice_shown result ≡ choice_of (map pair_shown pairs.now) }
{
    let from = encoding_of(setting(pairs, b"from", b"utf-8"))?;
    let to = encoding_of(setting(pairs, b"to", b"utf-8"))?;
    let mode = mode_of(setting(pairs, b"mode", b"html"))?;
    Some(Choice {
        from,
        to: output_of(to),
        mode,
    })
}
