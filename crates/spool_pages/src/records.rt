//! The record of an upload as the bytes of its slot.
ghost use Rattle.std.specs.Prelude.{◌≡◌, ◌≤◌, ℕ, Option, [], length, Ok, Some, None, IfOk, IfSome};
ghost use Rattle.std.specs.Int.{to_be_bytes};
ghost use Rattle.spool_pages.specs.Bytes.{IsPadded};
ghost use Rattle.spool_pages.specs.Fits.{FitsLength, FitsSlot};
ghost use Rattle.spool_pages.specs.View.{SlotRecord, length_number, length_tag, record_bytes, slot_bytes};

use crate::fields::{get_u16, get_u64, put};
use crate::{Damaged, Version, is_blank};
use common::MOST_METADATA;
use std::marker::Model;

/// The length of a slot in bytes.
pub const RECORD: usize = 2048;

// The offset of the length's tag in a slot.
const TAG: usize = 66 + MOST_METADATA;

// The number of an unknown length in version 1. Version 2 doesn't use it.
const UNKNOWN: u64 = u64::MAX;

// The number and the tag that encode a length.
fn length_fields(version: Version, declared: Option<u64>) -> (u64, u8)
    ensures { result ≡ (length_number version declared, length_tag version declared) }
{
    match (version, declared) {
        (_, Some(length)) => (length, 0),
        (Version::One, None) => (UNKNOWN, 0),
        (Version::Two, None) => (0, 1),
    }
}

// The length that a number and a tag encode.
fn declared_in(version: Version, number: u64, tag: u8) -> Result<Option<u64>, Damaged>
    ensures is { (declared : Option ℕ) → FitsLength declared → number ≡ length_number version declared
        → tag ≡ length_tag version declared → result ≡ Ok declared }
    ensures number { IfOk result (λ declared. length_number version declared ≡ number) }
    ensures tag { IfOk result (λ declared. length_tag version declared ≡ tag) }
    ensures fits { IfOk result FitsLength }
{
    let (unknown, unknown_tag) = length_fields(version, None);
    if number == unknown && tag == unknown_tag {
        return Ok(None);
    }
    if tag != 0 || number == UNKNOWN {
        return Err(Damaged);
    }
    Ok(Some(number))
}

/// The record of an upload in its slot.
#[derive(Drop)]
pub struct BorrowedRecord<'a> {
    /// The upload's number, from 1 on.
    pub number: u64,
    /// The length, if it is known.
    pub declared: Option<u64>,
    /// How many bytes were accepted.
    pub accepted: u64,
    /// The length of the text in bytes.
    pub text_len: u64,
    /// The state of transcoding after the accepted bytes.
    pub state: [u8; 32],
    /// The metadata as given.
    pub metadata: &'a [u8],
}

impl<'a> Model for BorrowedRecord<'a> {
    ghost Value = { SlotRecord };

    ghost view = { λ r. record {
      number = r.number;
      declared = r.declared;
      accepted = r.accepted;
      text_len = r.text_len;
      state = r.state;
      metadata = r.metadata.now;
    } };
}

impl<'a> BorrowedRecord<'a> {
    /// The slot's bytes in a spool of this version.
    pub fn to_bytes(&self, version: Version) -> [u8; RECORD]
        requires { length self.now.metadata ≤ MOST_METADATA }
        ensures { IsPadded result (record_bytes version self.now) }
    {
        let (length, tag) = length_fields(version, self.declared);
        let mut bytes = [0; RECORD];
        put(&mut bytes, 0, &self.number.to_be_bytes());
        put(&mut bytes, 8, &length.to_be_bytes());
        put(&mut bytes, 16, &self.accepted.to_be_bytes());
        put(&mut bytes, 24, &self.text_len.to_be_bytes());
        put(&mut bytes, 32, &self.state);
        put(&mut bytes, 64, &(self.metadata.len() as u16).to_be_bytes());
        put(&mut bytes, 66, self.metadata);
        put(&mut bytes, TAG, &[tag]);
        bytes
    }

    /// The record in a slot of a spool of this version; None if the slot is free.
    ///
    /// # Errors
    ///
    /// `Damaged` if the bytes are neither all 0 nor a record with zeros in the space that it leaves.
    pub fn from_bytes(
        version: Version,
        bytes: &'a [u8; RECORD],
    ) -> Result<Option<BorrowedRecord<'a>>, Damaged>
        ensures free { IsPadded bytes.now [] → result ≡ Ok None }
        ensures used { (r : SlotRecord) → FitsSlot r → IsPadded bytes.now (record_bytes version r)
            → result ≡ Ok (Some r) }
        ensures valid { IfOk result (λ found. IsPadded bytes.now (slot_bytes version found)) }
        ensures fits { IfOk result (λ found. IfSome found FitsSlot) }
    {
        if is_blank(bytes) {
            return Ok(None);
        }
        let number = get_u64(bytes, 0);
        let metadata_end = 66 + get_u16(bytes, 64) as usize;
        if number == 0
            || metadata_end > TAG
            || !is_blank(&bytes[metadata_end..TAG])
            || !is_blank(&bytes[TAG + 1..])
        {
            return Err(Damaged);
        }
        let declared = declared_in(version, get_u64(bytes, 8), bytes[TAG])?;
        let mut state = [0; 32];
        state.copy_from_slice(&bytes[32..64]);
        Ok(Some(BorrowedRecord {
            number,
            declared,
            accepted: get_u64(bytes, 16),
            text_len: get_u64(bytes, 24),
            state,
            metadata: &bytes[66..metadata_end],
        }))
    }
}
