//! Lengths of uploads, which may be unknown (tus 1.0.0, Upload-Defer-Length).

ghost use Rattle.std.specs.Prelude.{◌≡◌, ◌≤◌, ◌+◌, None, Some, MatchResult};
ghost use Rattle.upload_rules.specs.Lengths.{is_length, is_new, is_too_large, known_or, longest};
ghost use Rattle.upload_rules.specs.Calls.{length_refusal};

use crate::UploadRefusal;
use common::MOST_LENGTH;

/// Whether the length is known and above the limit.
pub fn is_too_large(length: Option<u64>) -> bool
    ensures { result ≡ is_too_large length }
{
    match length {
        Some(length) => length > MOST_LENGTH,
        None => false,
    }
}

/// Whether the length is known and equals the count.
pub fn is_length(length: Option<u64>, count: u64) -> bool
    ensures { result ≡ is_length length count }
{
    match length {
        Some(length) => count == length,
        None => false,
    }
}

/// Whether a length is declared and none was known.
pub fn is_new(known: Option<u64>, declare: Option<u64>) -> bool
    ensures { result ≡ is_new known declare }
{
    known.is_none() && declare.is_some()
}

/// The length of an upload once a patch declares one and puts `count` bytes at `offset`.
///
/// # Errors
///
/// `LengthSet`, `TooLong`.
pub fn length_then(
    known: Option<u64>,
    declare: Option<u64>,
    offset: u64,
    count: u64,
) -> Result<Option<u64>, UploadRefusal>
    ensures { MatchResult result
        (λ length. (length ≡ known_or known declare) × (offset + count ≤ longest length)
        × (length_refusal known declare (offset + count) ≡ None))
        (λ e. length_refusal known declare (offset + count) ≡ Some e) }
{
    let length = match (known, declare) {
        (Some(known), Some(declare)) if known != declare => return Err(UploadRefusal::LengthSet),
        (Some(known), _) => Some(known),
        (None, declare) => declare,
    };
    let longest = match length {
        Some(length) => length,
        None => MOST_LENGTH,
    };
    if longest < offset || longest - offset < count {
        return Err(UploadRefusal::TooLong);
    }
    Ok(length)
}
