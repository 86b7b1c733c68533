//! The record of an upload, in memory.
ghost use Rattle.std.specs.Prelude.{◌≡◌, ◌≤◌, All, None, Some, length, get_or, option_copied, IfOk, OnOk, IfSome};
ghost use Rattle.std.specs.Prelude.{IsOkUnless, IsTrue, ◌↔◌};
ghost use Rattle.upload_rules.specs.Records.{IsShort};
ghost use Rattle.upload_rules.specs.States.{SameEncodings};
ghost use Rattle.spool_catalog.specs.Longer.{longer_record};
ghost use Rattle.spool_catalog.specs.Records.{FitsCatalog, FitsMemory, IsReadable, IsUnpacked, slot_record_of};
ghost use Rattle.spool_pages.specs.View.{SlotRecord};

use crate::CheckError;
use crate::longer::Longer;
use common::MOST_METADATA;
use enc_stream::Transcoder;
use spool_pages::BorrowedRecord;
use std::alloc::Global;
use std::marker::Model;
use upload_rules::Record;

/// The record of an upload, with the encodings and the mode that its state bytes encode.
#[derive(Drop)]
pub struct CatalogRecord {
    record: Record,
}

impl Model for CatalogRecord {
    ghost use Rattle.spool_pages.specs.View.{SlotRecord};

    ghost Value = { SlotRecord };

    ghost use Rattle.spool_catalog.specs.Records.{FitsMemory, slot_record_of};

    ghost view = { λ k. slot_record_of k.record };

    ghost invariant = { λ k. FitsMemory k.record };
}

impl CatalogRecord {
    /// The record, with metadata of its own.
    ///
    /// # Errors
    ///
    /// `Damaged` where the state is none of a transcoder, or the metadata isn't printable ASCII; `NoMemory` where an
    /// allocation was refused.
    pub fn of(alloc: Global, record: &BorrowedRecord<'_>) -> Result<CatalogRecord, CheckError>
        requires { length «record».now.metadata ≤ MOST_METADATA }
        ensures passes { FitsCatalog (Some «record».now) → IsOkUnless result CheckError.NoMemory }
        ensures same { IfOk result (λ slot_used. slot_used ≡ «record».now) }
        ensures valid { OnOk result (IsReadable «record».now) }
    {
        let Some(transcoder) = Transcoder::unpack(&record.state) else {
            return Err(CheckError::Damaged);
        };
        let metadata = text_of(alloc, record.metadata)?;
        Ok(CatalogRecord {
            record: Record {
                number: record.number,
                declared: record.declared,
                accepted: record.accepted,
                text_len: record.text_len,
                from: transcoder.from(),
                to: transcoder.to(),
                mode: transcoder.mode(),
                state: record.state,
                metadata,
            },
        })
    }

    /// The record, with the encodings and the mode unpacked.
    pub fn record(&self) -> &Record
        ensures slot_record { slot_record_of result.now ≡ self.now }
        ensures unpacked { IsUnpacked result.now }
        ensures short { IsShort result.now }
    {
        &self.record
    }

    /// A record of the catalog.
    pub(crate) fn new(upload: Record) -> CatalogRecord
        requires { FitsMemory upload }
        ensures { result ≡ slot_record_of upload }
    {
        CatalogRecord { record: upload }
    }

    /// The upload gets longer, or its length.
    pub(crate) fn extend(&mut self, longer: &Longer)
        requires { SameEncodings self.old.state longer.now.state }
        ensures { self.new ≡ longer_record self.old longer.now }
    {
        self.record.declared = longer.declared;
        self.record.accepted = longer.accepted;
        self.record.text_len = longer.text_len;
        self.record.state = longer.state;
    }

    /// The record as its slot's bytes encode it.
    pub fn slot_record(&self) -> BorrowedRecord<'_>
        ensures slot_record { result ≡ self.now }
        ensures short { length result.metadata ≤ MOST_METADATA }
    {
        BorrowedRecord {
            number: self.record.number,
            declared: self.record.declared,
            accepted: self.record.accepted,
            text_len: self.record.text_len,
            state: self.record.state,
            metadata: self.record.metadata.as_bytes(),
        }
    }
}

/// The record of a slot, none where the slot is free or isn't there.
pub fn record_at(slots: &[Option<CatalogRecord>], slot: usize) -> Option<&CatalogRecord>
    ensures { option_copied result ≡ get_or slots.now slot None }
{
    match slots.get(slot) {
        Some(record) => record.as_ref(),
        None => None,
    }
}

/// The record of a slot as its bytes encode it, none where the slot is free or isn't there.
pub(crate) fn slot_record_at(
    slots: &[Option<CatalogRecord>],
    slot: usize,
) -> Option<BorrowedRecord<'_>>
    ensures slot_record { result ≡ get_or slots.now slot None }
    ensures short { IfSome result (λ r. length r.metadata ≤ MOST_METADATA) }
{
    Some(record_at(slots, slot)?.slot_record())
}

// Whether all bytes are printable ASCII.
fn are_printable(bytes: &[u8]) -> bool
    ensures { IsTrue result ↔ All (λ b. (0x20 ≤ b) × (b ≤ 0x7E)) bytes.now }
{
    bytes.iter().all(|byte| *byte >= b' ' && *byte <= b'~')
}

// The bytes as text. `Damaged` where one isn't printable ASCII.
fn text_of(alloc: Global, bytes: &[u8]) -> Result<String, CheckError>
    ensures passes { All (λ b. (0x20 ≤ b) × (b ≤ 0x7E)) bytes.now → IsOkUnless result CheckError.NoMemory }
    ensures same { IfOk result (λ text. text.bytes.items ≡ bytes.now) }
    ensures printable { OnOk result (All (λ b. (0x20 ≤ b) × (b ≤ 0x7E)) bytes.now) }
{
    // Memory is asked for before the check: of both faults, its lack is the one that is answered.
    let mut copy = Vec::with_capacity(alloc, bytes.len())?;
    if !are_printable(bytes) {
        return Err(CheckError::Damaged);
    }
    copy.extend_from_slice(bytes)?;
    match String::from_utf8(copy) {
        Ok(text) => Ok(text),
        Err(_) => Err(CheckError::Damaged),
    }
}
