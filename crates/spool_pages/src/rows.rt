//! The rows: which slot owns a text block, and at which ordinal.
ghost use Rattle.std.specs.Prelude.{◌≡◌, ◌≤◌, ◌<◌, ◌+◌, ◌*◌};
ghost use Rattle.std.specs.Prelude.{ℕ, Option, [], None, Some, IsTrue, ◌↔◌, true, Ok, IfOk, length, get_or};
ghost use Rattle.std.specs.Int.{to_be_bytes, w32};
ghost use Rattle.spool_disk.specs.Disk.{In};
ghost use Rattle.spool_journal.specs.Image.{byte_of};
ghost use Rattle.spool_pages.specs.Bytes.{IsPadded};
ghost use Rattle.spool_pages.specs.Fits.{FitsRow};
ghost use Rattle.spool_pages.specs.View.{AreAt, row_bytes};

use crate::fields::{get_u32, put};
use crate::{Damaged, blank_page, is_blank};
use common::ROWS;
use spool_blocks::Row;
use spool_journal::PAGE;

// The two numbers of a row: its slot + 1 and its ordinal, or zeros if the block is free.
#[inline(always)]
#[tactic(auto, using(crate::proofs::RowBytes::owned_at, crate::proofs::RowBytes::free_of_zeros))]
fn fields_of(row: Row) -> (u32, u32)
    requires { FitsRow row }
    ensures { (image : ℕ → ℕ) → (at : ℕ) → AreAt image at 4 (to_be_bytes w32 result.0)
        → AreAt image (at + 4) 4 (to_be_bytes w32 result.1) → AreAt image at 8 (row_bytes row) }
{
    match row {
        Some((slot, ordinal)) => (slot + 1, ordinal),
        None => (0, 0),
    }
}

// Writes a row into a page. A free row is written as zeros: where owned and free rows are mixed, a branch for each row
// costs more than the writes. The two numbers go straight into the page, so that several rows can be written at once.
#[inline(always)]
fn put_row(page: &mut [u8], at: usize, row: Row)
    requires room { at + 8 ≤ length page.old }
    requires fits { FitsRow row }
    ensures outside { (p : ℕ) → (In at 8 p → ⊥) → get_or page.new p 0 ≡ get_or page.old p 0 }
    ensures are_at { AreAt (byte_of page.new) at 8 (row_bytes row) }
{
    let (slot, ordinal) = fields_of(row);
    put(page, at, &slot.to_be_bytes());
    put(page, at + 4, &ordinal.to_be_bytes());
}

// Writes at most 512 rows into a blank page.
fn write_rows(page: &mut [u8; PAGE], rows: &[Row])
    requires blank { IsPadded page.old [] }
    requires few { length rows.now ≤ ROWS }
    requires fits { (b : ℕ) → FitsRow (get_or rows.now b None) }
    ensures { (k : ℕ) → k < ROWS → AreAt (byte_of page.new) (8 * k) 8 (row_bytes (get_or rows.now k None)) }
{
    for k in 0..rows.len() {
        put_row(page, 8 * k, rows[k]);
    }
}

// The rows of a page: 512, or fewer at the end.
fn rows_of(rows: &[Row], page: usize) -> &[Row]
    requires { page < 128 }
    ensures few { length result.now ≤ ROWS }
    ensures rows { (k : ℕ) → k < ROWS → get_or result.now k None ≡ get_or rows.now (ROWS * page + k) None }
    ensures fits { ((b : ℕ) → FitsRow (get_or rows.now b None)) → (b : ℕ) → FitsRow (get_or result.now b None) }
{
    let first = rows.len().min(ROWS * page);
    let end = rows.len().min(first + ROWS);
    &rows[first..end]
}

// The rows up to the last owned one. Those after it are free, and a blank page has their zeros already.
fn up_to_owned(rows: &[Row]) -> &[Row]
    ensures few { length result.now ≤ length rows.now }
    ensures rows { (k : ℕ) → get_or result.now k None ≡ get_or rows.now k None }
{
    let mut len = rows.len();
    while len > 0 && rows[len - 1].is_none() {
        len -= 1;
    }
    &rows[..len]
}

/// The row at an offset in a page.
///
/// # Errors
///
/// `Damaged` if there is an ordinal without a slot.
pub fn row_at(page: &[u8], at: usize) -> Result<Row, Damaged>
    requires { at + 8 ≤ length page.now }
    ensures encoded { (row : Option (ℕ × ℕ)) → FitsRow row → AreAt (byte_of page.now) at 8 (row_bytes row)
        → result ≡ Ok row }
    ensures valid { IfOk result (λ row. AreAt (byte_of page.now) at 8 (row_bytes row)) }
    ensures fits { IfOk result (λ row. FitsRow row) }
{
    let slot = get_u32(page, at);
    let ordinal = get_u32(page, at + 4);
    if slot > 0 {
        return Ok(Some((slot - 1, ordinal)));
    }
    if ordinal > 0 {
        return Err(Damaged);
    }
    Ok(None)
}

/// Whether all 512 rows of a page are free.
pub fn are_free(page: &[u8; PAGE]) -> bool
    ensures free { IsTrue result ↔ ((k : ℕ) → k < ROWS → AreAt (byte_of page.now) (8 * k) 8 (row_bytes None)) }
    ensures only { result ≡ true → (k : ℕ) → k < ROWS → (row : Option (ℕ × ℕ)) → FitsRow row
        → AreAt (byte_of page.now) (8 * k) 8 (row_bytes row) → row ≡ None }
{
    is_blank(page)
}

/// A page of 512 rows. Those after the last row are free.
pub fn row_page(rows: &[Row], page: usize) -> [u8; PAGE]
    requires page { page < 128 }
    requires fits { (b : ℕ) → FitsRow (get_or rows.now b None) }
    ensures { (k : ℕ) → k < ROWS
        → AreAt (byte_of result) (8 * k) 8 (row_bytes (get_or rows.now (ROWS * page + k) None)) }
{
    let mut bytes = blank_page();
    write_rows(&mut bytes, up_to_owned(rows_of(rows, page)));
    bytes
}
