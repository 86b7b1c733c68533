//! The catalog, all of a spool that is in memory: its type, made of what was read, and its parts.
ghost use Rattle.std.specs.Prelude.{◌≡◌, ◌≤◌, ◌<◌, ℕ, None, Some, false, IfOk, OnOk, IfSome, MatchResult};
ghost use Rattle.std.specs.Prelude.{[], IsSome, replicate, length, get_or, option_copied};
ghost use Rattle.spool_blocks.specs.Chains.{OwnsOneEach};
ghost use Rattle.upload_rules.specs.Room.{blocks_of};
ghost use Rattle.spool_catalog.specs.Holding.{AreBelow, AreDistinct, FitsTogether};
ghost use Rattle.spool_catalog.specs.Catalog.{HasViewAlone};
ghost use Rattle.spool_catalog.specs.Shows.{IsValid};
ghost use Rattle.spool_pages.specs.Changes.{neighbour};
ghost use Rattle.spool_pages.specs.Fits.{FitsRow};
ghost use Rattle.spool_pages.specs.View.{SlotRecord, View};

use crate::CheckError;
use crate::lists::{BlockList, lists_of};
use crate::order::{NumberedSlot, order_of};
use crate::records::{CatalogRecord, record_at, slot_record_at};
use common::{MOST_METADATA, SLOTS};
use enc_index::IndexSet;
use spool_blocks::{BlockNo, Blocks};
use spool_journal::Layout;
use spool_pages::{BorrowedRecord, Version};
use std::alloc::Global;
use std::marker::Model;

/// What is in memory of a spool: all but the texts. Three of its parts are public, since a draft borrows them at
/// once and reserves blocks. Whoever changes one has to prove that it still fits the others.
#[derive(Drop)]
pub struct Catalog {
    /// How many text blocks the spool has, and where its pages are.
    pub layout: Layout,
    pub(crate) version: Version,
    /// The number of the next upload.
    pub(crate) next: u64,
    /// The index files.
    pub indexes: IndexSet,
    /// The 512 slots.
    pub(crate) slots: Vec<Option<CatalogRecord>>,
    /// The slots in use, by ascending numbers.
    pub(crate) order: Vec<NumberedSlot>,
    /// Each slot's blocks by ordinal.
    pub(crate) lists: Vec<BlockList>,
    /// Who owns which text block.
    pub blocks: Blocks,
}

impl Model for Catalog {
    ghost use Rattle.spool_catalog.specs.Holding.{Holding};

    ghost Value = { Holding };

    ghost use Rattle.spool_catalog.specs.Holding.{FitsTogether, held_of};

    ghost view = { held_of };

    ghost invariant = { λ k. FitsTogether (held_of k) };
}

impl Catalog {
    /// The catalog of what was read.
    ///
    /// # Errors
    ///
    /// `Damaged` where a number comes twice, or a slot's ordinals are not those of its text, each once; `NoMemory`
    /// when out of memory.
    pub fn of(
        alloc: Global,
        layout: Layout,
        version: Version,
        next: u64,
        indexes: IndexSet,
        slots: Vec<Option<CatalogRecord>>,
        blocks: Blocks,
    ) -> Result<Catalog, CheckError>
        requires slots { length slots.items ≡ SLOTS }
        requires rows { length blocks.rows ≡ layout }
        requires fits { (b : ℕ) → FitsRow (get_or blocks.rows b None) }
        requires below { AreBelow next slots.items }
        ensures layout { IfOk result (λ catalog. catalog.layout ≡ layout) }
        ensures version { IfOk result (λ catalog. catalog.version ≡ version) }
        ensures next { IfOk result (λ catalog. catalog.next ≡ next) }
        ensures indexes { IfOk result (λ catalog. catalog.indexes ≡ indexes) }
        ensures slots { IfOk result (λ catalog. catalog.slots ≡ slots.items) }
        ensures blocks { IfOk result (λ catalog. catalog.blocks ≡ blocks) }
        ensures distinct { OnOk result (AreDistinct slots.items) }
        ensures whole { OnOk result ((s : ℕ) (r : SlotRecord) → get_or slots.items s None ≡ Some r
            → OwnsOneEach blocks.rows s (blocks_of r.text_len)) }
        ensures decoded { (v : View) → IsValid v → v.blocks ≡ layout → version ≡ v.version → next ≡ v.next
            → indexes ≡ v.indexes → slots.items ≡ v.slots → blocks.rows ≡ v.rows
            → blocks.reserved ≡ replicate v.blocks false
            → MatchResult result (λ catalog. HasViewAlone catalog v) (λ e. e ≡ CheckError.NoMemory) }
    {
        let order = order_of(alloc, &slots)?;
        let lists = lists_of(alloc, &blocks, &slots)?;
        Ok(Catalog {
            layout,
            version,
            next,
            indexes,
            slots,
            order,
            lists,
            blocks,
        })
    }

    /// How many text blocks the spool has, and where its pages are.
    pub fn layout(&self) -> &Layout
        ensures { result.now ≡ self.now.layout }
    {
        &self.layout
    }

    /// The version of the spool's layout.
    pub fn version(&self) -> Version
        ensures { result ≡ self.now.version }
    {
        self.version
    }

    /// The record of a slot, none where the slot is free or isn't there.
    pub fn in_slot(&self, slot: u32) -> Option<&CatalogRecord>
        ensures slot { option_copied result ≡ get_or self.now.slots slot None }
        ensures below { IfSome (option_copied result) (λ r. slot < SLOTS) }
    {
        record_at(&self.slots, slot as usize)
    }

    /// The blocks of a slot's text by ordinal.
    pub(crate) fn list(&self, slot: u32) -> &[BlockNo]
        requires { IsSome (get_or self.now.slots slot None) }
        ensures blocks { result.now ≡ get_or self.now.lists slot [] }
        ensures below { slot < SLOTS }
        ensures fits { FitsTogether self.now }
    {
        self.lists[slot as usize].blocks()
    }

    /// The record of the other slot on a slot's page.
    pub fn beside(&self, slot: u32) -> Option<BorrowedRecord<'_>>
        requires { slot < SLOTS }
        ensures slot { result ≡ get_or self.now.slots (neighbour slot) None }
        ensures short { IfSome result (λ r. length r.metadata ≤ MOST_METADATA) }
    {
        slot_record_at(&self.slots, neighbour(slot) as usize)
    }
}

// The slot whose record is on the same page.
fn neighbour(slot: u32) -> u32
    requires { slot < SLOTS }
    ensures { result ≡ neighbour slot }
{
    if slot % 2 == 0 { slot + 1 } else { slot - 1 }
}
