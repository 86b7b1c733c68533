//! The blocks of each slot, linked from the highest ordinal down.
ghost use Rattle.std.specs.Prelude.{◌≡◌, ◌≤◌, ◌<◌, ◌+◌, ℕ, List, Option, None, Some, IsNone, length, get_or, slice_set};
ghost use Rattle.std.specs.Prelude.{replicate, IfOk, IfSome};
ghost use Rattle.spool_blocks.specs.Blocks.{Row, slot_count, IsWholeText, IsInOrder};
ghost use Rattle.spool_blocks.specs.Chains.{Owns, rank, Linked, Taken};

use crate::link::Link;
use crate::{BlockNo, Row};
use common::{MOST_BLOCKS, SLOTS};
use std::alloc::{AllocError, Global};
use std::marker::Model;

/// The rows, with a link from each owned block to the slot's next lower one, so that the highest block of a slot is
/// found at once.
#[derive(Drop)]
pub(crate) struct Chains {
    rows: Vec<Row>,
    below: Vec<Link>,
    tops: Vec<Option<BlockNo>>,
    counts: Vec<u32>,
}

impl Model for Chains {
    ghost Value = { List Row };

    ghost view = { λ c. c.rows.items };

    ghost invariant = { λ c. Linked c.rows.items c.below.items c.tops.items c.counts.items };
}

impl Chains {
    /// No slot owns a block.
    pub(crate) fn new(alloc: Global, blocks: usize) -> Result<Self, AllocError>
        requires { blocks ≤ MOST_BLOCKS }
        ensures { IfOk result (λ chains. chains ≡ replicate blocks None) }
    {
        let rows = vec![in alloc; None; blocks]?;
        let below = vec![in alloc; Link::none(); blocks]?;
        let tops = vec![in alloc; None; SLOTS as usize]?;
        let counts = vec![in alloc; 0; SLOTS as usize]?;
        Ok(Chains {
            rows,
            below,
            tops,
            counts,
        })
    }

    pub(crate) fn rows(&self) -> &[Row]
        ensures same { result.now ≡ self.now }
        ensures few { length self.now ≤ MOST_BLOCKS }
        ensures slots { (b slot k : ℕ) → Owns self.now b slot k → slot < SLOTS }
    {
        &self.rows
    }

    /// Puts a free block above the slot's blocks.
    pub(crate) fn push(&mut self, block: BlockNo, slot: u32, ordinal: u32)
        requires below { block < length self.old }
        requires free { get_or self.old block None ≡ None }
        requires slot { slot < SLOTS }
        requires above { (c i : ℕ) → Owns self.old c slot i → rank c i < rank block ordinal }
        ensures { self.new ≡ slice_set self.old block (Some (slot, ordinal)) }
    {
        let at = slot as usize;
        self.below[block as usize] = Link::to(self.tops[at]);
        self.tops[at] = Some(block);
        self.counts[at] += 1;
        self.rows[block as usize] = Some((slot, ordinal));
    }

    /// Takes out the slot's highest block if its ordinal is `first` or more.
    pub(crate) fn pop(&mut self, slot: u32, first: u32) -> Option<BlockNo>
        requires { slot < SLOTS }
        ensures same { IsNone result → self.new ≡ self.old }
        ensures none { IsNone result → (b k : ℕ) → Owns self.old b slot k → k < first }
        ensures some { IfSome result (λ block. Taken self.old block slot first self.new) }
    {
        let at = slot as usize;
        let block = self.tops[at]?;
        let (_, ordinal) = self.rows[block as usize]?;
        if ordinal < first {
            return None;
        }
        self.tops[at] = self.below[block as usize].block();
        self.counts[at] -= 1;
        self.rows[block as usize] = None;
        Some(block)
    }

    /// The slot's blocks by ordinal, and those of one ordinal by number. One step for each block: the links lead from
    /// the highest down, so the list is filled from its end.
    pub(crate) fn list_of(&self, alloc: Global, slot: u32) -> Result<Vec<BlockNo>, AllocError>
        requires { slot < SLOTS }
        ensures size { IfOk result (λ list. length list.items ≡ slot_count slot self.now) }
        ensures listed { IfOk result
            (λ list. (i : ℕ) → i < length list.items → IsWholeText slot self.now
            → Owns self.now (get_or list.items i 0) slot i) }
        ensures ordered { IfOk result (λ list. IsInOrder slot self.now list.items) }
    {
        let mut at = self.counts[slot as usize] as usize;
        let mut list = vec![in alloc; 0; at]?;
        let mut next = self.tops[slot as usize];
        while let Some(block) = next {
            at -= 1;
            list[at] = block;
            next = self.below[block as usize].block();
        }
        Ok(list)
    }
}
