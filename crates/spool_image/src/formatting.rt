//! Making a spool without uploads.
ghost use Rattle.std.specs.Prelude.{◌≡◌, ◌≤◌, ◌<◌, ◌*◌, ◌+◌, ◌↔◌, ℕ, true, false, IsErr, IsOk, IfOk, OnOk, Err, get_or};
ghost use Rattle.enc_model.specs.Indexes.{IndexSet};
ghost use Rattle.enc_index.specs.Sets.{IsIndexSet};
ghost use Rattle.spool_disk.specs.Disk.{IsImage, Counts, Preserves};
ghost use Rattle.spool_disk.specs.Views.{Lasts};
ghost use Rattle.spool_journal.specs.Image.{all_pages};
ghost use Rattle.upload_rules.specs.Store.{no_uploads};
ghost use Rattle.spool_pages.specs.View.{index_place, state_place};
ghost use Rattle.spool_image.specs.Format.{FitsSpool, PrefixStays, HasMagic, IsNewest, IsRefusal, LeftByFormat};
ghost use Rattle.spool_image.specs.Fresh.{fresh_byte, IsFreshTo, IsFresh, PreservesFirstPage};
ghost use Rattle.spool_image.specs.LeftOnly.{AllShow};

use crate::FormatError;
use common::MOST_BLOCKS;
use enc_index::IndexSet;
use spool_disk::{Disk, DiskFault};
use spool_journal::{Layout, PAGE};
use spool_pages::{MAGIC, Version, blank_page, first_page, state_page};

// A page of a spool without uploads, other than page 0.
fn fresh_page(layout: &Layout, indexes: &IndexSet, page: u32) -> [u8; PAGE]
    ensures bytes { (i : ℕ) → i < PAGE → get_or result i 0 ≡ fresh_byte layout.now indexes.now (PAGE * page + i) }
    ensures valid { index_place layout.now ≤ PAGE * page → PAGE * page < state_place layout.now
        → IsIndexSet indexes.now }
{
    let index_page = layout.index_page();
    let metadata_page = layout.metadata_page();
    if page < index_page {
        return blank_page();
    }
    if page < metadata_page {
        return indexes.to_area((page - index_page) as usize);
    }
    if page == metadata_page {
        return state_page(Version::Two, 1);
    }
    blank_page()
}

// Writes all pages except page 0.
fn write_pages<D: Disk>(disk: &mut D, layout: &Layout, indexes: &IndexSet) -> Result<(), DiskFault>
    requires { PAGE * all_pages layout.now ≤ D.size disk.old }
    ensures size { D.size disk.new ≡ D.size disk.old }
    ensures honest { D.honest disk.old ↔ D.honest disk.new }
    ensures counts { Counts (IsErr result) (D.failures disk.old) (D.failures disk.new) }
    ensures fresh { D.honest disk.old → OnOk result
        (IsFreshTo layout.now indexes.now (PAGE * all_pages layout.now) (D.current disk.new)) }
    ensures valid { OnOk result (IsIndexSet indexes.now) }
    ensures prefix { D.honest disk.old
        → PreservesFirstPage (D.current disk.old) (D.current disk.new) (D.unsynced disk.old) (D.unsynced disk.new) }
    ensures crash { D.honest disk.old
        → Lasts D.Disk disk.old disk.new (PrefixStays (D.current disk.old) (D.unsynced disk.old)) }
{
    for page in 1..layout.pages() {
        disk.write_at(
            PAGE as u64 * page as u64,
            &fresh_page(layout, indexes, page),
        )?;
    }
    Ok(())
}

// Syncs the other pages, then writes page 0 and syncs: only then is the disk a spool.
fn write_first<D: Disk>(disk: &mut D, layout: &Layout) -> Result<(), DiskFault>
    requires { PAGE * all_pages layout.now ≤ D.size disk.old }
    ensures size { D.size disk.new ≡ D.size disk.old }
    ensures honest { D.honest disk.old ↔ D.honest disk.new }
    ensures counts { Counts (IsErr result) (D.failures disk.old) (D.failures disk.new) }
    ensures is_synced { D.honest disk.old → OnOk result ((p : ℕ) → D.unsynced disk.new p → ⊥) }
    ensures fresh { D.honest disk.old → OnOk result
        ((x : IndexSet) → IsFreshTo layout.now x (PAGE * all_pages layout.now) (D.current disk.old)
        → IsFresh layout.now x (D.current disk.new)) }
    ensures least { 16 ≤ layout.now }
    ensures most { layout.now ≤ MOST_BLOCKS }
    ensures crash { D.honest disk.old → (x : IndexSet) → IsIndexSet x
        → IsFreshTo layout.now x (PAGE * all_pages layout.now) (D.current disk.old)
        → Lasts D.Disk disk.old disk.new (LeftByFormat layout.now x (D.current disk.old) (D.unsynced disk.old)) }
{
    let prefix = first_page(layout.blocks());
    disk.sync()?;
    disk.write_at(0, &prefix)?;
    disk.sync()
}

/// Whether a disk begins as a spool does: with its eight magic bytes. It is read and no more.
///
/// # Errors
///
/// `DiskFault` if it can't be read.
pub fn is_spool<D: Disk>(disk: &mut D) -> Result<bool, DiskFault>
    ensures size { D.size disk.new ≡ D.size disk.old }
    ensures honest { D.honest disk.old ↔ D.honest disk.new }
    ensures counts { Counts (IsErr result) (D.failures disk.old) (D.failures disk.new) }
    ensures preserves { D.honest disk.old
        → Preserves (D.current disk.old) (D.current disk.new) (D.unsynced disk.old) (D.unsynced disk.new) }
    ensures lasts { D.honest disk.old → Lasts D.Disk disk.old disk.new
        (IsImage (D.current disk.old) (D.unsynced disk.old)) }
    ensures yes { D.honest disk.old → IfOk result (λ is. is ≡ true → HasMagic (D.size disk.old) (D.current disk.old)) }
    ensures no { D.honest disk.old → IfOk result (λ is. is ≡ false
        → HasMagic (D.size disk.old) (D.current disk.old) → ⊥) }
{
    if disk.len() < 8 {
        return Ok(false);
    }
    let mut prefix = [0; 8];
    disk.read(0, &mut prefix)?;
    Ok(prefix == MAGIC)
}

/// Makes a spool of version 2 with this many text blocks and no uploads. All pages but page 0 are written and synced,
/// then page 0 is. It allocates nothing.
///
/// # Errors
///
/// `AlreadySpool` if the disk begins as a spool; then `Size` if the number of text blocks isn't 16 to 65,536 or the
/// disk is too short: these two write nothing. `DiskFault` at a disk fault.
pub fn format<D: Disk>(disk: &mut D, blocks: u32, indexes: &IndexSet) -> Result<(), FormatError>
    ensures size { D.size disk.new ≡ D.size disk.old }
    ensures honest { D.honest disk.old ↔ D.honest disk.new }
    ensures counts { Counts (result ≡ Err FormatError.DiskFault) (D.failures disk.old) (D.failures disk.new) }

    // It refuses exactly a spool, and then a size that doesn't fit.
    ensures already { D.honest disk.old → result ≡ Err FormatError.AlreadySpool
        → HasMagic (D.size disk.old) (D.current disk.old) }
    ensures no_spool { D.honest disk.old → (result ≡ Err FormatError.AlreadySpool → ⊥)
        → (result ≡ Err FormatError.DiskFault → ⊥) → HasMagic (D.size disk.old) (D.current disk.old) → ⊥ }
    ensures fits { IsOk result → FitsSpool blocks (D.size disk.old) }
    ensures too_long { result ≡ Err FormatError.Size → FitsSpool blocks (D.size disk.old) → ⊥ }

    // After a refusal every crash image is one of before.
    ensures same { D.honest disk.old → IsRefusal result
        → Preserves (D.current disk.old) (D.current disk.new) (D.unsynced disk.old) (D.unsynced disk.new) }
    ensures lasts { D.honest disk.old → IsRefusal result
        → Lasts D.Disk disk.old disk.new (IsImage (D.current disk.old) (D.unsynced disk.old)) }

    // A crash at any moment leaves page 0 as it could be before, or torn, or a complete spool.
    ensures crash { D.honest disk.old → Lasts D.Disk disk.old disk.new
        (LeftByFormat blocks indexes.now (D.current disk.old) (D.unsynced disk.old)) }

    // Otherwise every crash image shows no uploads, these indexes and this many blocks, in version 2.
    ensures shows { D.honest disk.old → OnOk result (AllShow D.Disk disk.new blocks (no_uploads indexes.now)) }
    ensures newest { D.honest disk.old → OnOk result
        ((image : ℕ → ℕ) → IsImage (D.current disk.new) (D.unsynced disk.new) image → IsNewest image) }
    ensures is_synced { D.honest disk.old → OnOk result ((p : ℕ) → D.unsynced disk.new p → ⊥) }
{
    if is_spool(disk)? {
        return Err(FormatError::AlreadySpool);
    }
    let Some(layout) = Layout::of(blocks) else {
        return Err(FormatError::Size);
    };
    if disk.len() < PAGE as u64 * layout.pages() as u64 {
        return Err(FormatError::Size);
    }
    make(disk, &layout, indexes)?;
    Ok(())
}

// Writes all pages.
fn make<D: Disk>(disk: &mut D, layout: &Layout, indexes: &IndexSet) -> Result<(), DiskFault>
    requires { PAGE * all_pages layout.now ≤ D.size disk.old }
    ensures size { D.size disk.new ≡ D.size disk.old }
    ensures honest { D.honest disk.old ↔ D.honest disk.new }
    ensures counts { Counts (IsErr result) (D.failures disk.old) (D.failures disk.new) }
    ensures is_synced { D.honest disk.old → OnOk result ((p : ℕ) → D.unsynced disk.new p → ⊥) }
    ensures shows { D.honest disk.old → OnOk result (AllShow D.Disk disk.new layout.now (no_uploads indexes.now)) }
    ensures newest { D.honest disk.old → OnOk result
        ((image : ℕ → ℕ) → IsImage (D.current disk.new) (D.unsynced disk.new) image → IsNewest image) }
    ensures crash { D.honest disk.old → Lasts D.Disk disk.old disk.new
        (LeftByFormat layout.now indexes.now (D.current disk.old) (D.unsynced disk.old)) }
{
    write_pages(disk, layout, indexes)?;
    write_first(disk, layout)
}
