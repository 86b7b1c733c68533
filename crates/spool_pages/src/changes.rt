//! The pages that a change of the metadata writes.
ghost use Rattle.std.specs.Prelude.{◌≡◌, ◌≢◌, ◌↔◌, ◌≤◌, ◌<◌, ℕ, IsTrue, IsSome, OnOk, IfOk, List, IfSome, None, length};
ghost use Rattle.std.specs.Prelude.{get_or, option_copied};
ghost use Rattle.spool_blocks.specs.Blocks.{Row};
ghost use Rattle.spool_journal.specs.Image.{journal_pages, InMeta, InArea};
ghost use Rattle.spool_pages.specs.Changes.{page_in, ChangesButRows, Changes, with_next, with_record, with_slot};
ghost use Rattle.spool_pages.specs.Changes.{SameRowsBut, neighbour};
ghost use Rattle.spool_pages.specs.Fits.{FitsRow};
ghost use Rattle.spool_pages.specs.View.{View, slot_at};

use crate::places::{first_row_number, record_number, row_number, state_number};
use crate::slot_pages::page_with;
use crate::{BorrowedRecord, Version, blank_page, row_page, state_page};
use common::{MOST_METADATA, SLOTS};
use spool_blocks::{BlockNo, Row};
use spool_journal::{Layout, Pages};
use std::alloc::{AllocError, Global};

/// The page of another next number: the state page alone.
///
/// # Errors
///
/// `AllocError`.
pub fn pages_of_next(
    alloc: Global,
    layout: &Layout,
    version: Version,
    next: u64,
) -> Result<Pages, AllocError>
    ensures area { IfOk result (λ pages. InArea (journal_pages layout.now) pages) }
    ensures one { IfOk result (λ pages. length pages ≡ 1) }
    ensures changes { (v : View) → v.blocks ≡ layout.now → v.version ≡ version
        → IfOk result (λ pages. Changes pages v (with_next v next)) }
{
    let mut pages = Pages::new(alloc);
    pages.put(state_number(layout), &state_page(version, next))?;
    Ok(pages)
}

/// The pages of a new record and a new next number. `beside` is the record in the other slot of the same page; None if
/// that is free.
///
/// # Errors
///
/// `AllocError`.
pub fn pages_of_new(
    alloc: Global,
    layout: &Layout,
    version: Version,
    next: u64,
    slot: u32,
    own: &BorrowedRecord<'_>,
    beside: Option<&BorrowedRecord<'_>>,
) -> Result<Pages, AllocError>
    requires slot { slot < SLOTS }
    requires own { length own.now.metadata ≤ MOST_METADATA }
    requires beside { IfSome beside (λ r. length r.now.metadata ≤ MOST_METADATA) }
    ensures area { IfOk result (λ pages. InArea (journal_pages layout.now) pages) }
    ensures some { IfOk result (λ pages. 1 ≤ length pages) }
    ensures changes { (v : View) → v.blocks ≡ layout.now → v.version ≡ version → length v.slots ≡ SLOTS
        → slot_at v (neighbour slot) ≡ option_copied beside.entry
        → IfOk result (λ pages. Changes pages v (record (with_record v slot own.now) { next = next })) }
{
    let mut pages = Pages::new(alloc);
    pages.put(state_number(layout), &state_page(version, next))?;
    pages.put(
        record_number(layout, slot),
        &page_with(version, slot, Some(own), beside),
    )?;
    Ok(pages)
}

// Whether the page with this number is among them. `last` is the number of a page that is among them.
fn is_there(pages: &Pages, page: u32, last: u32) -> bool
    requires { IsSome (page_in last pages.now) }
    ensures { IsTrue result ↔ IsSome (page_in page pages.now) }
{
    page == last || pages.has(page)
}

// Adds a blank page with this number, unless it is there. `last` is the number of a page that is among them.
fn make_room(pages: &mut Pages, page: u32, last: u32) -> Result<(), AllocError>
    requires { IsSome (page_in last pages.old) }
    ensures there { OnOk result (IsSome (page_in page pages.new)) }
    ensures others { (other : ℕ) → page ≢ other → page_in other pages.new ≡ page_in other pages.old }
    ensures area { (j : ℕ) → InMeta j page → InArea j pages.old → InArea j pages.new }
{
    if !is_there(pages, page, last) {
        pages.put(page, &blank_page())?;
    }
    Ok(())
}

/// The pages of a slot that gets this record or becomes free, and of blocks whose rows change: the slot's page, and
/// each page that has one of the rows. The pages of rows are blank until `fill_rows` fills them. `beside` is the record
/// in the other slot of the same page; None if that is free. A block with its row on the same page as the one before it
/// costs no look at the pages, and another costs a search among them.
///
/// # Errors
///
/// `AllocError`.
pub fn pages_of_change(
    alloc: Global,
    layout: &Layout,
    version: Version,
    slot: u32,
    own: Option<&BorrowedRecord<'_>>,
    beside: Option<&BorrowedRecord<'_>>,
    blocks: &[BlockNo],
) -> Result<Pages, AllocError>
    requires slot { slot < SLOTS }
    requires own { IfSome own (λ r. length r.now.metadata ≤ MOST_METADATA) }
    requires beside { IfSome beside (λ r. length r.now.metadata ≤ MOST_METADATA) }
    requires blocks { (i : ℕ) → i < length blocks.now → get_or blocks.now i 0 < layout.now }
    ensures area { IfOk result (λ pages. InArea (journal_pages layout.now) pages) }
    ensures some { IfOk result (λ pages. 1 ≤ length pages) }
    ensures changes { (v : View) → v.blocks ≡ layout.now → v.version ≡ version → length v.slots ≡ SLOTS
        → slot_at v (neighbour slot) ≡ option_copied beside.entry
        → (rows : List Row) → SameRowsBut blocks.now v.rows rows
        → IfOk result (λ pages. ChangesButRows pages v
        (record (with_slot v slot (option_copied own.entry)) { rows = rows })) }
{
    let mut pages = Pages::new(alloc);
    let mut last = record_number(layout, slot);
    pages.put(last, &page_with(version, slot, own, beside))?;
    for block in blocks {
        let page = row_number(layout, *block);
        make_room(&mut pages, page, last)?;
        last = page;
    }
    Ok(pages)
}

/// Fills the pages of rows among these from the rows that all blocks are to have. It allocates nothing.
pub fn fill_rows(pages: &mut Pages, layout: &Layout, rows: &[Row])
    requires fits { (b : ℕ) → FitsRow (get_or rows.now b None) }
    requires area { InArea (journal_pages layout.now) pages.old }
    ensures area { InArea (journal_pages layout.now) pages.new }
    ensures same_length { length pages.new ≡ length pages.old }
    ensures changes { (v v' : View) → v.blocks ≡ layout.now → ChangesButRows pages.old v v' → v'.rows ≡ rows.now
        → Changes pages.new v v' }
{
    let first = first_row_number(layout);
    for at in 0..pages.len() {
        let number = pages.number(at);
        if number >= first {
            pages.set(at, &row_page(rows, (number - first) as usize));
        }
    }
}
