//! Reading the rows of the text blocks.
ghost use Rattle.std.specs.Prelude.{◌≡◌, ◌≢◌, ◌≤◌, ◌<◌, ◌*◌, ◌+◌, ◌-◌};
ghost use Rattle.std.specs.Prelude.{ℕ, List, Option, None, length, get_or, IsErrOf, IsOkAnd, IfOk, OnOk, OnErr};
ghost use Rattle.common.specs.declared.stop.Stop.{Stop};
ghost use Rattle.spool_disk.specs.Disk.{Counts};
ghost use Rattle.spool_disk.specs.Given.{Between, ReadsGave, ReadsOnce};
ghost use Rattle.spool_journal.specs.Image.{journal_pages, all_pages, byte_of};
ghost use Rattle.spool_pages.specs.Fits.{FitsRow};
ghost use Rattle.spool_load.specs.Faults.{Loads};
ghost use Rattle.spool_load.specs.Reads.{OnlyReads, IsFreeFrom, IsSameTo, RowsAreAt};
ghost use Rattle.spool_pages.specs.View.{AreAt, row_bytes, row_place};

use crate::LoadError;
use crate::reading::read_at;
use common::{MOST_BLOCKS, ROWS};
use spool_blocks::Row;
use spool_disk::Disk;
use spool_journal::{Layout, PAGE};
use spool_pages::{Damaged, FIRST_ROW_PAGE, are_free, row_at, row_pages, rows_place};
use std::alloc::Global;

// Stores a row at its place. `Damaged` if there is no such place and the row isn't free.
fn put_row(rows: &mut [Row], block: usize, row: Row) -> Result<(), Damaged>
    ensures put { OnOk result (get_or rows.new block None ≡ row) }
    ensures others { (b : ℕ) → b ≢ block → get_or rows.new b None ≡ get_or rows.old b None }
    ensures after { OnErr result (length rows.old ≤ block) }
    ensures used { OnErr result (row ≢ None) }
{
    if block < rows.len() {
        rows[block] = row;
    } else if row.is_some() {
        return Err(Damaged);
    }
    Ok(())
}

// Stores the rows of a page from `first` on. `Damaged` if a row has an ordinal without a slot, or isn't free after the
// last place.
fn put_rows(rows: &mut [Row], page: &[u8; PAGE], first: usize) -> Result<(), Damaged>
    requires { first ≤ MOST_BLOCKS }
    ensures decoded { (all : List (Option (ℕ × ℕ))) → length all ≡ length rows.old
        → ((b : ℕ) → FitsRow (get_or all b None))
        → ((k : ℕ) → k < ROWS → AreAt (byte_of page.now) (8 * k) 8 (row_bytes (get_or all (first + k) None)))
        → IsSameTo first all rows.old → IsOkAnd result (λ done. IsSameTo (first + ROWS) all rows.new) }
    ensures valid { OnOk result
        ((k : ℕ) → k < ROWS → AreAt (byte_of page.now) (8 * k) 8 (row_bytes (get_or rows.new (first + k) None))) }
    ensures before { (b : ℕ) → b < first → get_or rows.new b None ≡ get_or rows.old b None }
    ensures after { (b : ℕ) → first + ROWS ≤ b → get_or rows.new b None ≡ get_or rows.old b None }
{
    for k in 0..ROWS {
        put_row(rows, first + k, row_at(page, 8 * k)?)?;
    }
    Ok(())
}

// Stores the rows of a page from `first` on, where all are free so far. `Damaged` if a row has an ordinal without a
// slot, or isn't free after the last place.
fn fill(rows: &mut [Row], page: &[u8; PAGE], first: usize) -> Result<(), Damaged>
    requires few { first ≤ MOST_BLOCKS }
    requires free { IsFreeFrom first rows.old }
    ensures decoded { (all : List (Option (ℕ × ℕ))) → length all ≡ length rows.old
        → ((b : ℕ) → FitsRow (get_or all b None))
        → ((k : ℕ) → k < ROWS → AreAt (byte_of page.now) (8 * k) 8 (row_bytes (get_or all (first + k) None)))
        → IsSameTo first all rows.old → IsOkAnd result (λ done. IsSameTo (first + ROWS) all rows.new) }
    ensures valid { OnOk result
        ((k : ℕ) → k < ROWS → AreAt (byte_of page.now) (8 * k) 8 (row_bytes (get_or rows.new (first + k) None))) }
    ensures before { (b : ℕ) → b < first → get_or rows.new b None ≡ get_or rows.old b None }
    ensures after { OnOk result (IsFreeFrom (first + ROWS) rows.new) }
{
    if are_free(page) {
        return Ok(());
    }
    put_rows(rows, page, first)
}

// Reads a page of rows.
fn load_page<D: Disk>(
    disk: &mut D,
    layout: &Layout,
    rows: &mut [Row],
    page: u32,
) -> Result<(), LoadError>
    requires room { PAGE * all_pages layout.now ≤ D.size disk.old }
    requires page { FIRST_ROW_PAGE + page < journal_pages layout.now }
    requires few { page < 128 }
    requires free { IsFreeFrom (ROWS * page) rows.old }
    ensures reads { OnlyReads D.Disk disk.old disk.new }
    ensures once { ReadsOnce (Between (row_place layout.now (ROWS * page)) (row_place layout.now (ROWS * (page + 1))))
        (D.reads disk.old) (D.reads disk.new) }
    ensures counts { Counts (IsErrOf result (LoadError.Stop Stop.DiskFault)) (D.failures disk.old)
        (D.failures disk.new) }
    ensures decoded { (bytes : ℕ → ℕ) → ReadsGave bytes (D.reads disk.old) (D.reads disk.new)
        → (all : List (Option (ℕ × ℕ))) → length all ≡ length rows.old → ((b : ℕ) → FitsRow (get_or all b None))
        → ((b : ℕ) → b < ROWS * (journal_pages layout.now - FIRST_ROW_PAGE)
        → AreAt bytes (row_place layout.now b) 8 (row_bytes (get_or all b None)))
        → IsSameTo (ROWS * page) all rows.old → Loads result (λ done. IsSameTo (ROWS * (page + 1)) all rows.new) }
    ensures valid { (bytes : ℕ → ℕ) → ReadsGave bytes (D.reads disk.old) (D.reads disk.new)
        → RowsAreAt bytes layout.now (ROWS * page) rows.old
        → OnOk result (RowsAreAt bytes layout.now (ROWS * (page + 1)) rows.new) }
    ensures after { OnOk result (IsFreeFrom (ROWS * (page + 1)) rows.new) }
{
    let mut bytes = [0; PAGE];
    read_at(disk, rows_place(layout, page), &mut bytes)?;
    fill(rows, &bytes, ROWS * page as usize)?;
    Ok(())
}

// Reads all pages of rows.
fn load_pages<D: Disk>(disk: &mut D, layout: &Layout, rows: &mut [Row]) -> Result<(), LoadError>
    requires room { PAGE * all_pages layout.now ≤ D.size disk.old }
    requires free { IsFreeFrom 0 rows.old }
    ensures reads { OnlyReads D.Disk disk.old disk.new }
    ensures once { ReadsOnce (Between (row_place layout.now 0)
        (row_place layout.now (ROWS * (journal_pages layout.now - FIRST_ROW_PAGE)))) (D.reads disk.old)
        (D.reads disk.new) }
    ensures counts { Counts (IsErrOf result (LoadError.Stop Stop.DiskFault)) (D.failures disk.old)
        (D.failures disk.new) }
    ensures decoded { (bytes : ℕ → ℕ) → ReadsGave bytes (D.reads disk.old) (D.reads disk.new)
        → (all : List (Option (ℕ × ℕ))) → length all ≡ length rows.old → ((b : ℕ) → FitsRow (get_or all b None))
        → ((b : ℕ) → b < ROWS * (journal_pages layout.now - FIRST_ROW_PAGE)
        → AreAt bytes (row_place layout.now b) 8 (row_bytes (get_or all b None)))
        → Loads result (λ done. IsSameTo (ROWS * (journal_pages layout.now - FIRST_ROW_PAGE)) all rows.new) }
    ensures valid { (bytes : ℕ → ℕ) → ReadsGave bytes (D.reads disk.old) (D.reads disk.new)
        → OnOk result (RowsAreAt bytes layout.now (ROWS * (journal_pages layout.now - FIRST_ROW_PAGE)) rows.new) }
{
    for page in 0..row_pages(layout) {
        load_page(disk, layout, rows, page)?;
    }
    Ok(())
}

/// Reads all rows.
pub(crate) fn load_rows<D: Disk>(
    alloc: Global,
    disk: &mut D,
    layout: &Layout,
) -> Result<Vec<Row>, LoadError>
    requires { PAGE * all_pages layout.now ≤ D.size disk.old }
    ensures reads { OnlyReads D.Disk disk.old disk.new }
    ensures once { ReadsOnce (Between (row_place layout.now 0)
        (row_place layout.now (ROWS * (journal_pages layout.now - FIRST_ROW_PAGE)))) (D.reads disk.old)
        (D.reads disk.new) }
    ensures counts { Counts (IsErrOf result (LoadError.Stop Stop.DiskFault)) (D.failures disk.old)
        (D.failures disk.new) }
    ensures long { IfOk result (λ rows. length rows.items ≡ layout.now) }
    ensures decoded { (bytes : ℕ → ℕ) → ReadsGave bytes (D.reads disk.old) (D.reads disk.new)
        → (all : List (Option (ℕ × ℕ))) → length all ≡ layout.now → ((b : ℕ) → FitsRow (get_or all b None))
        → ((b : ℕ) → b < ROWS * (journal_pages layout.now - FIRST_ROW_PAGE)
        → AreAt bytes (row_place layout.now b) 8 (row_bytes (get_or all b None)))
        → Loads result (λ rows. rows.items ≡ all) }
    ensures valid { (bytes : ℕ → ℕ) → ReadsGave bytes (D.reads disk.old) (D.reads disk.new)
        → IfOk result
        (λ rows. RowsAreAt bytes layout.now (ROWS * (journal_pages layout.now - FIRST_ROW_PAGE)) rows.items) }
{
    let mut rows = vec![in alloc; None; layout.blocks() as usize]?;
    load_pages(disk, layout, &mut rows)?;
    Ok(rows)
}
