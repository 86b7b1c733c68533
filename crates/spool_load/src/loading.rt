//! Reading a spool into memory.
ghost use Rattle.std.specs.Prelude.{◌≡◌, ◌≤◌, ◌<◌, ◌*◌, ◌-◌};
ghost use Rattle.std.specs.Prelude.{ℕ, None, false, replicate, length, get_or, IfOk, IsErrOf};
ghost use Rattle.common.specs.declared.stop.Stop.{Stop};
ghost use Rattle.spool_disk.specs.Disk.{Counts};
ghost use Rattle.spool_disk.specs.Given.{Between, ReadsGave, ReadsOnce};
ghost use Rattle.spool_journal.specs.Image.{all_pages, journal_pages};
ghost use Rattle.spool_catalog.specs.Checks.{RowsPass};
ghost use Rattle.spool_load.specs.Faults.{Loads};
ghost use Rattle.spool_load.specs.Loaded.{IsFoundOf, LoadedFrom, FoundIsAt};
ghost use Rattle.spool_load.specs.ReadBy.{IsOfState};
ghost use Rattle.spool_load.specs.Reads.{OnlyReads, FieldsAreAt, RowsAreAt};
ghost use Rattle.spool_catalog.specs.Catalog.{HasViewAlone};
ghost use Rattle.spool_catalog.specs.Shows.{IsValid, Shows};
ghost use Rattle.enc_index.specs.Sets.{IsIndexSet};
ghost use Rattle.upload_rules.specs.Store.{Store};
ghost use Rattle.spool_pages.specs.Fits.{FitsRow};
ghost use Rattle.spool_pages.specs.View.{View, Encodes, row_place, state_place};

use crate::owners::load_rows;
use crate::reading::{check_first, load_indexes};
use crate::slots::load_slots;
use crate::{Found, LoadError};
use common::{ROWS, SLOTS};
use enc_index::IndexSet;
use spool_blocks::Blocks;
use spool_catalog::{Catalog, CatalogRecord, are_rows_valid, are_valid};
use spool_disk::Disk;
use spool_journal::{Layout, PAGE};
use spool_pages::FIRST_ROW_PAGE;
use std::alloc::Global;

// Checks page 0, and reads the index files.
fn load_fields<D: Disk>(alloc: Global, disk: &mut D, layout: &Layout) -> Result<IndexSet, LoadError>
    requires { PAGE * all_pages layout.now ≤ D.size disk.old }
    ensures reads { OnlyReads D.Disk disk.old disk.new }
    ensures once { ReadsOnce (Between 0 (state_place layout.now)) (D.reads disk.old) (D.reads disk.new) }
    ensures counts { Counts (IsErrOf result (LoadError.Stop Stop.DiskFault)) (D.failures disk.old)
        (D.failures disk.new) }
    ensures decoded { (bytes : ℕ → ℕ) → ReadsGave bytes (D.reads disk.old) (D.reads disk.new)
        → (v : View) → IsValid v → v.blocks ≡ layout.now → Encodes bytes v
        → Loads result (λ indexes. indexes ≡ v.indexes) }
    ensures set { IfOk result IsIndexSet }
    ensures valid { (bytes : ℕ → ℕ) → ReadsGave bytes (D.reads disk.old) (D.reads disk.new)
        → IfOk result (FieldsAreAt bytes layout.now) }
{
    check_first(disk, layout)?;
    load_indexes(alloc, disk, layout)
}

// Reads the rows, and checks them against the records.
fn load_blocks<D: Disk>(
    alloc: Global,
    disk: &mut D,
    layout: &Layout,
    slots: &[Option<CatalogRecord>],
) -> Result<Blocks, LoadError>
    requires room { PAGE * all_pages layout.now ≤ D.size disk.old }
    requires slots { length slots.now ≡ SLOTS }
    ensures long { IfOk result (λ blocks. length blocks.rows ≡ layout.now) }
    ensures fits { IfOk result (λ blocks. (b : ℕ) → FitsRow (get_or blocks.rows b None)) }
    ensures reads { OnlyReads D.Disk disk.old disk.new }
    ensures once { ReadsOnce (Between (row_place layout.now 0)
        (row_place layout.now (ROWS * (journal_pages layout.now - FIRST_ROW_PAGE)))) (D.reads disk.old)
        (D.reads disk.new) }
    ensures counts { Counts (IsErrOf result (LoadError.Stop Stop.DiskFault)) (D.failures disk.old)
        (D.failures disk.new) }
    ensures decoded { (bytes : ℕ → ℕ) → ReadsGave bytes (D.reads disk.old) (D.reads disk.new)
        → (v : View) → IsValid v → v.blocks ≡ layout.now → Encodes bytes v → slots.now ≡ v.slots
        → Loads result (λ blocks. (blocks.rows ≡ v.rows) × (blocks.reserved ≡ replicate v.blocks false)) }
    ensures valid { (bytes : ℕ → ℕ) → ReadsGave bytes (D.reads disk.old) (D.reads disk.new)
        → IfOk result
        (λ blocks. RowsAreAt bytes layout.now (ROWS * (journal_pages layout.now - FIRST_ROW_PAGE)) blocks.rows) }
    ensures owners { IfOk result (λ blocks. RowsPass slots.now blocks.rows) }
    ensures reserved { IfOk result (λ blocks. blocks.reserved ≡ replicate layout.now false) }
{
    let rows = load_rows(alloc, disk, layout)?;
    if !are_rows_valid(slots, &rows) {
        return Err(LoadError::Damaged);
    }
    let _few = layout.blocks();
    let blocks = Blocks::of(alloc, rows)?;
    Ok(blocks)
}

/// Reads a spool that was found; all its bytes are synced.
///
/// # Errors
///
/// `Damaged` if the spool is invalid; `Stop` when out of memory or at a disk fault.
pub fn read<D: Disk>(alloc: Global, disk: &mut D, found: Found) -> Result<Catalog, LoadError>
    requires { PAGE * all_pages found.layout ≤ D.size disk.old }
    ensures reads { OnlyReads D.Disk disk.old disk.new }
    ensures once { ReadsOnce (λ p. IsOfState found.layout p → ⊥) (D.reads disk.old) (D.reads disk.new) }
    ensures counts { Counts (IsErrOf result (LoadError.Stop Stop.DiskFault)) (D.failures disk.old)
        (D.failures disk.new) }
    ensures layout { IfOk result (λ catalog. catalog.layout ≡ found.layout) }
    ensures version { IfOk result (λ catalog. catalog.version ≡ found.version) }

    // A valid spool is read, unless memory or the disk refuses.
    ensures decoded { (bytes : ℕ → ℕ) → ReadsGave bytes (D.reads disk.old) (D.reads disk.new)
        → (v : View) → IsValid v → IsFoundOf v found → Encodes bytes v
        → Loads result (λ catalog. HasViewAlone catalog v) }

    // On any disk the catalog has a view, which shows uploads.
    ensures view { IfOk result (λ catalog. (v : View) × (m : Store) × HasViewAlone catalog v × Shows v m) }

    // What is read is valid, and is what the bytes encode.
    ensures valid { (bytes : ℕ → ℕ) → ReadsGave bytes (D.reads disk.old) (D.reads disk.new)
        → FoundIsAt bytes found
        → IfOk result (LoadedFrom bytes found.layout) }
{
    if !found.is_rest_blank {
        return Err(LoadError::Damaged);
    }
    let _few = found.layout.blocks();
    let indexes = load_fields(alloc, disk, &found.layout)?;
    let slots = load_slots(alloc, disk, &found.layout, found.version)?;
    if !are_valid(&slots, found.next) {
        return Err(LoadError::Damaged);
    }
    let blocks = load_blocks(alloc, disk, &found.layout, &slots)?;
    let catalog = Catalog::of(
        alloc,
        found.layout,
        found.version,
        found.next,
        indexes,
        slots,
        blocks,
    )?;
    Ok(catalog)
}
