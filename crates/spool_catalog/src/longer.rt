//! An upload of the catalog gets longer, or its length.
ghost use Rattle.std.specs.Prelude.{◌≡◌, ◌≤◌, ◌<◌, ◌/◌, ◌++◌, List, [], Some, None, length, get_or, drop, slice_set};
ghost use Rattle.std.specs.Prelude.{IfOk, OnOk, OnErr, IsSome};
ghost use Rattle.spool_blocks.specs.Blocks.{Row};
ghost use Rattle.spool_journal.specs.Image.{journal_pages, InArea};
ghost use Rattle.spool_pages.specs.Changes.{ChangesButRows, with_record, SameRowsBut};
ghost use Rattle.spool_pages.specs.View.{SlotRecord, View};
ghost use Rattle.spool_texts.specs.Drafts.{IsReserved};
ghost use Rattle.spool_texts.specs.TextOn.{AllBelow};
ghost use Rattle.upload_rules.specs.States.{SameEncodings};
ghost use Rattle.spool_catalog.specs.Longer.{MayExtend, HandsOn, HasLonger, longer_record};

use crate::catalog::Catalog;
use crate::lists::blocks_from;
use crate::records::CatalogRecord;
use common::MOST_BLOCKS;
use spool_blocks::BlockNo;
use spool_journal::{PAGE, Pages};
use spool_pages::{BorrowedRecord, pages_of_change};
use std::alloc::{AllocError, Global};

/// What an upload becomes.
#[derive(Drop)]
pub struct Longer {
    /// Its slot.
    pub slot: u32,
    /// The declared length in bytes, where it is known.
    pub declared: Option<u64>,
    /// How many bytes are accepted.
    pub accepted: u64,
    /// The length of the text in bytes.
    pub text_len: u64,
    /// The state of transcoding, as `Transcoder::pack` writes it.
    pub state: [u8; 32],
}

// The slot's upload gets longer.
fn set_record(slots: &mut Vec<Option<CatalogRecord>>, longer: &Longer)
    requires used { IsSome (get_or slots.old.items longer.now.slot None) }
    requires state { (r : SlotRecord) → get_or slots.old.items longer.now.slot None ≡ Some r
        → SameEncodings r.state longer.now.state }
    ensures { (r : SlotRecord) → get_or slots.old.items longer.now.slot None ≡ Some r
        → slots.new.items ≡ slice_set slots.old.items longer.now.slot (Some (longer_record r longer.now)) }
{
    if let Some(slot_used) = &mut slots[longer.slot as usize] {
        slot_used.extend(longer);
    }
}

impl Catalog {
    // How many full blocks a slot's text has.
    fn full_blocks(&self, slot: u32) -> u32
        requires { IsSome (get_or self.now.slots slot None) }
        ensures full { (r : SlotRecord) → get_or self.now.slots slot None ≡ Some r → result ≡ r.text_len / PAGE }
        ensures few { length self.now.blocks.rows ≤ MOST_BLOCKS }
        ensures listed { result ≤ length (get_or self.now.lists slot []) }
    {
        let _few = self.blocks.rows();
        let slot_used = self.in_slot(slot).unwrap();
        (slot_used.record().text_len / PAGE as u64) as u32
    }

    // The blocks whose rows change: the new ones, and the slot's last ones, which they replace. None where there are no
    // new ones.
    fn changed_blocks(
        &self,
        alloc: Global,
        slot: u32,
        more: &[BlockNo],
    ) -> Result<Vec<BlockNo>, AllocError>
        requires used { IsSome (get_or self.now.slots slot None) }
        requires reserved { IsReserved self.now.blocks more.now }
        ensures below { (r : SlotRecord) → get_or self.now.slots slot None ≡ Some r
            → IfOk result (λ blocks. AllBelow self.now.layout blocks.items) }
        ensures differ { (r : SlotRecord) → get_or self.now.slots slot None ≡ Some r → (old new : List Row)
            → (length more.now ≡ 0 → SameRowsBut [] old new)
            → (0 < length more.now
            → SameRowsBut (more.now ++ drop (r.text_len / PAGE) (get_or self.now.lists slot [])) old new)
            → IfOk result (λ blocks. SameRowsBut blocks.items old new) }
    {
        let mut blocks = Vec::new(alloc);
        if more.is_empty() {
            return Ok(blocks);
        }
        let full = self.full_blocks(slot) as usize;
        blocks.extend_from_slice(more)?;
        blocks.extend_from_slice(blocks_from(self.list(slot), full))?;
        Ok(blocks)
    }

    /// The pages that the change writes. Those with rows are blank.
    pub fn change_pages(
        &self,
        alloc: Global,
        longer: &Longer,
        more: &[BlockNo],
    ) -> Result<Pages, AllocError>
        requires may { MayExtend self.now longer.now more.now }
        requires reserved { IsReserved self.now.blocks more.now }
        ensures area { IfOk result (λ pages. InArea (journal_pages self.now.layout) pages) }
        ensures some { IfOk result (λ pages. 1 ≤ length pages) }
        ensures changes { (v : View) → v.blocks ≡ self.now.layout → v.version ≡ self.now.version
            → v.slots ≡ self.now.slots → (r : SlotRecord) → get_or self.now.slots longer.now.slot None ≡ Some r
            → (rows : List Row) → (length more.now ≡ 0 → SameRowsBut [] v.rows rows)
            → (0 < length more.now
            → SameRowsBut (more.now ++ drop (r.text_len / PAGE) (get_or self.now.lists longer.now.slot [])) v.rows rows)
            → IfOk result (λ pages. ChangesButRows pages v (record
            (with_record v longer.now.slot (longer_record r longer.now)) { rows = rows })) }
    {
        let slot = longer.slot;
        let blocks = self.changed_blocks(alloc, slot, more)?;
        let slot_used = self.in_slot(slot).unwrap();
        let next = BorrowedRecord {
            declared: longer.declared,
            accepted: longer.accepted,
            text_len: longer.text_len,
            state: longer.state,
            ..slot_used.slot_record()
        };
        let beside = self.beside(slot);
        pages_of_change(
            alloc,
            &self.layout,
            self.version,
            slot,
            Some(&next),
            beside.as_ref(),
            &blocks,
        )
    }

    /// The slot's upload gets longer in the catalog. It changes nothing where memory runs out.
    pub fn take_over(&mut self, longer: &Longer, more: &[BlockNo]) -> Result<(), AllocError>
        requires may { MayExtend self.old longer.now more.now }
        requires reserved { IsReserved self.old.blocks more.now }
        ensures layout { self.new.layout ≡ self.old.layout }
        ensures version { self.new.version ≡ self.old.version }
        ensures longer { OnOk result ((r : SlotRecord) → get_or self.old.slots longer.now.slot None ≡ Some r
            → HasLonger self.old r longer.now more.now self.new) }
        ensures reserved { OnOk result (HandsOn self.old.blocks.reserved self.new.blocks.reserved more.now) }
        ensures unmade { OnErr result (self.new ≡ self.old) }
    {
        if more.is_empty() {
            set_record(&mut self.slots, longer);
            return Ok(());
        }
        let full = self.full_blocks(longer.slot);
        self.lists[longer.slot as usize].replace_from(full as usize, more)?;
        self.blocks.own(longer.slot, full, more);
        set_record(&mut self.slots, longer);
        Ok(())
    }
}
