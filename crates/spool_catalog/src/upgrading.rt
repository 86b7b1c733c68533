//! The catalog, brought to version 2.
ghost use Rattle.std.specs.Prelude.{◌≡◌, ◌≤◌, ℕ, None, IfOk, IfSome, length, get_or};
ghost use Rattle.spool_journal.specs.Image.{journal_pages, InArea};
ghost use Rattle.spool_catalog.specs.Catalog.{HasView};
ghost use Rattle.spool_catalog.specs.Shows.{IsValid, Shows};
ghost use Rattle.spool_pages.specs.Changes.{Changes, upgraded};
ghost use Rattle.spool_pages.specs.View.{View};
ghost use Rattle.upload_rules.specs.Store.{Store};

use crate::catalog::Catalog;
use crate::records::{CatalogRecord, slot_record_at};
use common::MOST_METADATA;
use spool_journal::Pages;
use spool_pages::{BorrowedRecord, pages_of_upgrade};
use std::alloc::{AllocError, Global};

/// In version 2 a valid spool is valid, and it shows the same uploads.
pub fn upgraded_shows()
    ensures valid { (v : View) → IsValid v → IsValid (upgraded v) }
    ensures shows { (v : View) (m : Store) → Shows v m → Shows (upgraded v) m }
{}

// The records of the slots, as their bytes encode them.
fn slot_records(
    alloc: Global,
    slots: &[Option<CatalogRecord>],
) -> Result<Vec<Option<BorrowedRecord<'_>>>, AllocError>
    ensures slot_record { IfOk result (λ records. records.items ≡ slots.now) }
    ensures short { IfOk result (λ records. (s : ℕ)
        → IfSome (get_or records.items s None) (λ r. length r.metadata ≤ MOST_METADATA)) }
{
    let mut records = Vec::with_capacity(alloc, slots.len())?;
    for slot in 0..slots.len() {
        records.push(slot_record_at(slots, slot))?;
    }
    Ok(records)
}

impl Catalog {
    /// The pages that bring the spool to version 2: the state page, and each page of records. Err only where memory
    /// runs out.
    pub fn pages_of_upgrade(&self, alloc: Global) -> Result<Pages, AllocError>
        ensures area { IfOk result (λ pages. InArea (journal_pages self.now.layout) pages) }
        ensures count { IfOk result (λ pages. length pages ≡ 257) }
        ensures changes { (v : View) → HasView self.now v → IfOk result (λ pages. Changes pages v (upgraded v)) }
    {
        let records = slot_records(alloc, &self.slots)?;
        pages_of_upgrade(alloc, &self.layout, self.next, &records)
    }
}
