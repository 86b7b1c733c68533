//! The places of the index area and of the metadata: the state page, 256 pages of two records each, and the rows.
ghost use Rattle.std.specs.Prelude.{◌≡◌, ◌+◌, ◌*◌, ◌≤◌, ◌<◌};
ghost use Rattle.spool_journal.specs.Image.{journal_pages, InMeta};
ghost use Rattle.spool_pages.specs.Changes.{state_number, record_number, row_number};
ghost use Rattle.spool_pages.specs.View.{index_place, row_place, slot_place, state_place};

use crate::RECORD;
use common::{ROWS, SLOTS};
use enc_index::AREA_SIZE;
use spool_blocks::BlockNo;
use spool_journal::{Layout, PAGE};

/// How many pages the index area has.
pub const AREA_PAGES: u32 = (AREA_SIZE / PAGE) as u32;

/// The first page of the rows, counted from the state page: that page and those of the records come before it.
pub const FIRST_ROW_PAGE: u32 = 1 + SLOTS / 2;

/// The place of a page of the index area, in bytes.
pub fn index_place(layout: &Layout, page: u32) -> u64
    requires { page < AREA_PAGES }
    ensures place { result ≡ index_place layout.now + PAGE * page }
{
    PAGE as u64 * (layout.index_page() as u64 + page as u64)
}

/// The place of the state page, in bytes.
pub fn state_place(layout: &Layout) -> u64
    ensures place { result ≡ state_place layout.now }
    ensures few { journal_pages layout.now ≤ 385 }
{
    PAGE as u64 * state_number(layout) as u64
}

/// The place of a slot's record, in bytes.
pub fn slot_place(layout: &Layout, slot: u32) -> u64
    requires { slot < SLOTS }
    ensures place { result ≡ slot_place layout.now slot }
{
    state_place(layout) + PAGE as u64 + RECORD as u64 * slot as u64
}

/// The place of a page of rows, in bytes.
pub fn rows_place(layout: &Layout, page: u32) -> u64
    requires { page < 128 }
    ensures place { result ≡ row_place layout.now (ROWS * page) }
{
    state_place(layout) + PAGE as u64 * (FIRST_ROW_PAGE as u64 + page as u64)
}

/// How many pages the rows of all blocks take.
pub fn row_pages(layout: &Layout) -> u32
    ensures pages { result + FIRST_ROW_PAGE ≡ journal_pages layout.now }
    ensures few { result ≤ 128 }
{
    layout.journal() - FIRST_ROW_PAGE
}

/// The number of the state page, which is the first of the metadata.
pub(crate) fn state_number(layout: &Layout) -> u32
    ensures number { result ≡ state_number layout.now }
    ensures inside { InMeta (journal_pages layout.now) result }
    ensures some { 258 ≤ journal_pages layout.now }
    ensures few { journal_pages layout.now ≤ 385 }
{
    let _few = layout.journal();
    layout.metadata_page()
}

/// The number of the page of a slot's record.
pub(crate) fn record_number(layout: &Layout, slot: u32) -> u32
    requires { slot < SLOTS }
    ensures number { result ≡ record_number layout.now slot }
    ensures inside { InMeta (journal_pages layout.now) result }
{
    state_number(layout) + 1 + slot / 2
}

/// The number of the first page of rows.
pub(crate) fn first_row_number(layout: &Layout) -> u32
    ensures number { result ≡ 282 + journal_pages layout.now }
    ensures few { journal_pages layout.now ≤ 385 }
{
    state_number(layout) + FIRST_ROW_PAGE
}

/// The number of the page of a block's row.
#[tactic(auto, unfolding(spool_journal::specs::Image::journal_pages))]
pub(crate) fn row_number(layout: &Layout, block: BlockNo) -> u32
    requires { block < layout.now }
    ensures number { result ≡ row_number layout.now block }
    ensures inside { InMeta (journal_pages layout.now) result }
{
    first_row_number(layout) + block / ROWS as u32
}
