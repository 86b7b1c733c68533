//! The page of two slots.
ghost use Rattle.std.specs.Prelude.{◌≤◌, IfSome, length, option_copied};
ghost use Rattle.spool_journal.specs.Image.{byte_of};
ghost use Rattle.spool_pages.specs.Bytes.{IsPadded};
ghost use Rattle.spool_pages.specs.Changes.{EncodesSlot, neighbour};
ghost use Rattle.spool_pages.specs.View.{AreAt, slot_bytes};

use crate::fields::put;
use crate::{BorrowedRecord, RECORD, Version};
use common::MOST_METADATA;
use spool_journal::PAGE;

// The bytes of a slot: zeros if it is free.
fn bytes_of(version: Version, slot: Option<&BorrowedRecord<'_>>) -> [u8; RECORD]
    requires { IfSome slot (λ r. length r.now.metadata ≤ MOST_METADATA) }
    ensures { IsPadded result (slot_bytes version (option_copied slot.entry)) }
{
    match slot {
        Some(own) => own.to_bytes(version),
        None => [0; RECORD],
    }
}

/// The page of two slots, each with its record or free.
pub(crate) fn record_page(
    version: Version,
    first: Option<&BorrowedRecord<'_>>,
    second: Option<&BorrowedRecord<'_>>,
) -> [u8; PAGE]
    requires first { IfSome first (λ r. length r.now.metadata ≤ MOST_METADATA) }
    requires second { IfSome second (λ r. length r.now.metadata ≤ MOST_METADATA) }
    ensures first { AreAt (byte_of result) 0 RECORD (slot_bytes version (option_copied first.entry)) }
    ensures second { AreAt (byte_of result) RECORD RECORD (slot_bytes version (option_copied second.entry)) }
{
    let mut page = [0; PAGE];
    put(&mut page, 0, &bytes_of(version, first));
    put(&mut page, RECORD, &bytes_of(version, second));
    page
}

/// The page of a slot that has this record or is free, with the record of the other slot of the same page.
pub(crate) fn page_with(
    version: Version,
    slot: u32,
    own: Option<&BorrowedRecord<'_>>,
    beside: Option<&BorrowedRecord<'_>>,
) -> [u8; PAGE]
    requires own { IfSome own (λ r. length r.now.metadata ≤ MOST_METADATA) }
    requires beside { IfSome beside (λ r. length r.now.metadata ≤ MOST_METADATA) }
    ensures own { EncodesSlot slot result (version, option_copied own.entry) }
    ensures beside { EncodesSlot (neighbour slot) result (version, option_copied beside.entry) }
{
    if slot % 2 == 0 {
        record_page(version, own, beside)
    } else {
        record_page(version, beside, own)
    }
}
