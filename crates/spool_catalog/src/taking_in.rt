//! A new upload comes into the catalog.
ghost use Rattle.std.specs.Prelude.{◌≡◌, ◌⊎◌, ◌≤◌, ◌<◌, ◌+◌, ◌^◌, ℕ, None, length, get_or, IsErr, IsSome, IfOk};
ghost use Rattle.std.specs.Prelude.{OnOk, IfSome, MatchOption};
ghost use Rattle.spool_journal.specs.Image.{journal_pages, InArea};
ghost use Rattle.spool_pages.specs.Changes.{Changes, with_record};
ghost use Rattle.spool_pages.specs.View.{View};
ghost use Rattle.upload_rules.specs.Records.{IsValidNew};
ghost use Rattle.upload_rules.specs.Store.{Store};
ghost use Rattle.spool_catalog.specs.Catalog.{HasView};
ghost use Rattle.spool_catalog.specs.Shows.{Shows};
ghost use Rattle.spool_catalog.specs.TakenIn.{HasRoomAt, IsTakenIn, IsNewRecord};

use crate::catalog::Catalog;
use crate::order::put;
use crate::records::{CatalogRecord, record_at};
use common::SLOTS;
use spool_journal::Pages;
use spool_pages::pages_of_new;
use std::alloc::{AllocError, Global};
use upload_rules::{NUMBERS_END, New, Record};

// The first free slot.
fn free_slot(slots: &[Option<CatalogRecord>]) -> Option<u32>
    ensures { MatchOption result ((s : ℕ) → s < SLOTS → IsSome (get_or slots.now s None))
        (λ s. (s < SLOTS) × (get_or slots.now s None ≡ None)) }
{
    for slot in 0..SLOTS {
        if record_at(slots, slot as usize).is_none() {
            return Some(slot);
        }
    }
    None
}

impl Catalog {
    /// A slot for a new upload: none where 512 are in use, or the next number is the last one.
    pub fn slot_for_new(&self) -> Option<u32>
        ensures room { IfSome result (HasRoomAt self.now) }
        ensures few { (v : View) (m : Store) → HasView self.now v → Shows v m
            → MatchOption result ((SLOTS ≤ length m.uploads) ⊎ (10 ^ 18 ≤ m.next)) (λ s. length m.uploads < SLOTS) }
    {
        if self.order.len() >= SLOTS as usize || self.next >= NUMBERS_END {
            return None;
        }
        free_slot(&self.slots)
    }

    /// The record of a new upload, without bytes, under the next number.
    pub fn new_record(&self, new: New) -> CatalogRecord
        requires { IsValidNew new }
        ensures { IsNewRecord self.now.next new result }
    {
        CatalogRecord::new(Record::first(self.next, new))
    }

    // The pages that a new record in a slot makes.
    fn pages_with(
        &self,
        alloc: Global,
        slot: u32,
        record: &CatalogRecord,
    ) -> Result<Pages, AllocError>
        requires { HasRoomAt self.now slot }
        ensures area { IfOk result (λ pages. InArea (journal_pages self.now.layout) pages) }
        ensures some { IfOk result (λ pages. 1 ≤ length pages) }
        ensures changes { (v : View) → v.blocks ≡ self.now.layout → v.version ≡ self.now.version
            → v.slots ≡ self.now.slots → IfOk result (λ pages. Changes pages v (record (with_record v slot «record».now)
            { next = self.now.next + 1 })) }
    {
        let slot_used = record.slot_record();
        let beside = self.beside(slot);
        let next = self.next + 1;
        pages_of_new(
            alloc,
            &self.layout,
            self.version,
            next,
            slot,
            &slot_used,
            beside.as_ref(),
        )
    }

    // Takes a new upload's record in. When out of memory all is as it was.
    fn take_in(&mut self, slot: u32, record: CatalogRecord) -> Result<(), AllocError>
        requires room { HasRoomAt self.old slot }
        requires number { «record».number ≡ self.old.next }
        requires no_text { «record».text_len ≡ 0 }
        ensures taken { OnOk result (IsTakenIn self.old slot «record» self.new) }
        ensures unmade { IsErr result → self.new ≡ self.old }
    {
        put(&mut self.order, self.next, slot)?;
        self.slots[slot as usize] = Some(record);
        self.next += 1;
        Ok(())
    }

    /// Takes a new upload's record in, and answers the pages that it makes. When out of memory all is as it was.
    pub fn prepare_new(
        &mut self,
        alloc: Global,
        slot: u32,
        record: CatalogRecord,
    ) -> Result<Pages, AllocError>
        requires room { HasRoomAt self.old slot }
        requires number { «record».number ≡ self.old.next }
        requires no_text { «record».text_len ≡ 0 }
        ensures taken { IfOk result (λ pages. IsTakenIn self.old slot «record» self.new) }
        ensures area { IfOk result (λ pages. InArea (journal_pages self.old.layout) pages) }
        ensures some { IfOk result (λ pages. 1 ≤ length pages) }
        ensures changes { (v : View) → v.blocks ≡ self.old.layout → v.version ≡ self.old.version
            → v.slots ≡ self.old.slots → IfOk result (λ pages. Changes pages v (record (with_record v slot «record»)
            { next = self.old.next + 1 })) }
        ensures unmade { IsErr result → self.new ≡ self.old }
    {
        let pages = self.pages_with(alloc, slot, &record)?;
        self.take_in(slot, record)?;
        Ok(pages)
    }
}
