//! The pages of the upgrade to version 2.
ghost use Rattle.std.specs.Prelude.{◌≡◌, ◌≤◌, ◌<◌, ◌+◌, ℕ, None, IfOk, IfSome, length, get_or};
ghost use Rattle.spool_journal.specs.Image.{byte_of, journal_pages, InArea};
ghost use Rattle.spool_pages.specs.Changes.{Changes, upgraded};
ghost use Rattle.spool_pages.specs.View.{View, AreAt, slot_bytes};
ghost use Rattle.spool_pages.specs.declared.version.Version.TheVariants.{Two};

use crate::places::{FIRST_ROW_PAGE, record_number, state_number};
use crate::slot_pages::record_page;
use crate::{BorrowedRecord, RECORD, Version, state_page};
use common::{MOST_METADATA, SLOTS};
use spool_journal::{Layout, PAGE, Pages};
use std::alloc::{AllocError, Global};

// The page of a slot and the next one, in version 2.
fn pair_page(slots: &[Option<BorrowedRecord<'_>>], slot: usize) -> [u8; PAGE]
    requires within { slot + 1 < length slots.now }
    requires metadata { (s : ℕ) → IfSome (get_or slots.now s None) (λ r. length r.metadata ≤ MOST_METADATA) }
    ensures first { AreAt (byte_of result) 0 RECORD (slot_bytes Two (get_or slots.now slot None)) }
    ensures second { AreAt (byte_of result) RECORD RECORD (slot_bytes Two (get_or slots.now (slot + 1) None)) }
{
    record_page(Version::Two, slots[slot].as_ref(), slots[slot + 1].as_ref())
}

/// The pages that upgrade a spool with this next number and these records to version 2: all that come before the rows,
/// the state page and those of records.
///
/// # Errors
///
/// `AllocError`.
pub fn pages_of_upgrade(
    alloc: Global,
    layout: &Layout,
    next: u64,
    slots: &[Option<BorrowedRecord<'_>>],
) -> Result<Pages, AllocError>
    requires slots { length slots.now ≡ SLOTS }
    requires metadata { (s : ℕ) → IfSome (get_or slots.now s None) (λ r. length r.metadata ≤ MOST_METADATA) }
    ensures area { IfOk result (λ pages. InArea (journal_pages layout.now) pages) }
    ensures count { IfOk result (λ pages. length pages ≡ FIRST_ROW_PAGE) }
    ensures changes { (v : View) → v.blocks ≡ layout.now → v.next ≡ next → v.slots ≡ slots.now
        → IfOk result (λ pages. Changes pages v (upgraded v)) }
{
    let mut pages = Pages::new(alloc);
    pages.put(state_number(layout), &state_page(Version::Two, next))?;
    for pair in 0..SLOTS / 2 {
        let slot = 2 * pair;
        pages.put(
            record_number(layout, slot),
            &pair_page(slots, slot as usize),
        )?;
    }
    Ok(pages)
}
