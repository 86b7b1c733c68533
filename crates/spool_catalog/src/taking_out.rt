//! An upload goes out of the catalog.
ghost use Rattle.std.specs.Prelude.{◌≡◌, ◌≤◌, ℕ, List, [], None, length, get_or, IfOk};
ghost use Rattle.spool_blocks.specs.Blocks.{Row};
ghost use Rattle.spool_journal.specs.Image.{journal_pages, InArea};
ghost use Rattle.spool_pages.specs.Changes.{ChangesButRows, with_slot, SameRowsBut};
ghost use Rattle.spool_pages.specs.View.{View};
ghost use Rattle.spool_catalog.specs.Holding.{IsUsedBy, IsListedAt, Rises};
ghost use Rattle.spool_catalog.specs.TakenOut.{IsTakenOut, IsWithout};

use crate::catalog::Catalog;
use crate::order::{NumberedSlot, places_to};
use spool_journal::Pages;
use spool_pages::pages_of_change;
use std::alloc::{AllocError, Global};

// Takes a number that is listed out of the order.
fn take_number(order: &mut Vec<NumberedSlot>, number: u64)
    requires rises { Rises order.old.items }
    requires listed { (s : ℕ) × IsListedAt order.old.items number s }
    ensures { IsWithout order.old.items number order.new.items }
{
    let place = places_to(order, number) - 1;
    order.remove(place);
}

impl Catalog {
    /// The pages that change where a slot becomes free. Those with rows are blank.
    pub fn pages_without(&self, alloc: Global, slot: u32) -> Result<Pages, AllocError>
        requires used { (n : ℕ) × IsUsedBy self.now.slots slot n }
        ensures area { IfOk result (λ pages. InArea (journal_pages self.now.layout) pages) }
        ensures some { IfOk result (λ pages. 1 ≤ length pages) }
        ensures changes { (v : View) → v.blocks ≡ self.now.layout → v.version ≡ self.now.version
            → v.slots ≡ self.now.slots → (rows : List Row) → SameRowsBut (get_or self.now.lists slot []) v.rows rows
            → IfOk result (λ pages. ChangesButRows pages v (record (with_slot v slot None) { rows = rows })) }
    {
        let list = self.list(slot);
        let beside = self.beside(slot);
        pages_of_change(
            alloc,
            &self.layout,
            self.version,
            slot,
            None,
            beside.as_ref(),
            list,
        )
    }

    /// Takes an upload out of its slot. It takes no memory.
    pub fn take_out(&mut self, number: u64, slot: u32)
        requires used { IsUsedBy self.old.slots slot number }
        ensures { IsTakenOut self.old slot self.new }
    {
        take_number(&mut self.order, number);
        self.lists[slot as usize].clear();
        self.blocks.disown(slot);
        self.slots[slot as usize] = None;
    }
}
