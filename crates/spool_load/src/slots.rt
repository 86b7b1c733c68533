//! Reading the slots.
ghost use Rattle.std.specs.Prelude.{◌≡◌, ◌≤◌, ◌<◌, ◌*◌, ◌+◌, ◌-◌};
ghost use Rattle.std.specs.Prelude.{ℕ, List, Option, None, length, get_or, IfOk, IsErrOf, MatchResult, OnOk};
ghost use Rattle.spool_disk.specs.Disk.{Counts};
ghost use Rattle.spool_disk.specs.Given.{Between, ReadsGave, ReadsOnce};
ghost use Rattle.spool_journal.specs.Image.{all_pages};
ghost use Rattle.spool_pages.specs.Bytes.{IsPadded};
ghost use Rattle.spool_pages.specs.Fits.{FitsSlotOf};
ghost use Rattle.spool_catalog.specs.Records.{FitsCatalog};
ghost use Rattle.spool_load.specs.Faults.{Loads};
ghost use Rattle.spool_load.specs.Reads.{OnlyReads, IsPrefixOf, SlotsAreAt};
ghost use Rattle.spool_pages.specs.View.{SlotRecord, AreAt, slot_bytes, slot_place};

use crate::LoadError;
use crate::reading::read_at;
use common::{SLOTS, Stop};
use spool_catalog::{CatalogRecord, CheckError};
use spool_disk::Disk;
use spool_journal::{Layout, PAGE};
use spool_pages::{BorrowedRecord, RECORD, Version, slot_place};
use std::alloc::Global;

// The record in the bytes of a slot, with memory of its own.
fn catalog_record_of(
    alloc: Global,
    version: Version,
    bytes: &[u8; RECORD],
) -> Result<Option<CatalogRecord>, CheckError>
    ensures decoded { (slot : Option SlotRecord) → FitsCatalog slot → IsPadded bytes.now (slot_bytes version slot)
        → MatchResult result (λ slot_there. slot_there ≡ slot) (λ e. e ≡ CheckError.NoMemory) }
    ensures are_at { IfOk result (λ slot_there. IsPadded bytes.now (slot_bytes version slot_there)) }
    ensures fits { IfOk result FitsSlotOf }
{
    match BorrowedRecord::from_bytes(version, bytes)? {
        Some(record) => {
            let slot_there = CatalogRecord::of(alloc, &record)?;
            Ok(Some(slot_there))
        }
        None => Ok(None),
    }
}

// Reads the record of a slot.
fn load_slot<D: Disk>(
    alloc: Global,
    disk: &mut D,
    layout: &Layout,
    version: Version,
    slot: u32,
) -> Result<Option<CatalogRecord>, LoadError>
    requires room { PAGE * all_pages layout.now ≤ D.size disk.old }
    requires slot { slot < SLOTS }
    ensures reads { OnlyReads D.Disk disk.old disk.new }
    ensures once { ReadsOnce (Between (slot_place layout.now slot) (slot_place layout.now (slot + 1)))
        (D.reads disk.old) (D.reads disk.new) }
    ensures counts { Counts (IsErrOf result (LoadError.Stop Stop.DiskFault)) (D.failures disk.old)
        (D.failures disk.new) }
    ensures decoded { (bytes : ℕ → ℕ) → ReadsGave bytes (D.reads disk.old) (D.reads disk.new)
        → (decoded : Option SlotRecord) → FitsCatalog decoded
        → AreAt bytes (slot_place layout.now slot) RECORD (slot_bytes version decoded)
        → Loads result (λ slot_there. slot_there ≡ decoded) }
    ensures are_at { (bytes : ℕ → ℕ) → ReadsGave bytes (D.reads disk.old) (D.reads disk.new)
        → IfOk result (λ slot_there. AreAt bytes (slot_place layout.now slot) RECORD (slot_bytes version slot_there)) }
    ensures fits { IfOk result FitsSlotOf }
{
    let mut bytes = [0; RECORD];
    read_at(disk, slot_place(layout, slot), &mut bytes)?;
    Ok(catalog_record_of(alloc, version, &bytes)?)
}

// Appends the record of the next slot.
fn push_slot<D: Disk>(
    alloc: Global,
    disk: &mut D,
    layout: &Layout,
    version: Version,
    slots: &mut Vec<Option<CatalogRecord>>,
    slot: u32,
) -> Result<(), LoadError>
    requires room { PAGE * all_pages layout.now ≤ D.size disk.old }
    requires slot { slot < SLOTS }
    ensures reads { OnlyReads D.Disk disk.old disk.new }
    ensures once { ReadsOnce (Between (slot_place layout.now slot) (slot_place layout.now (slot + 1)))
        (D.reads disk.old) (D.reads disk.new) }
    ensures counts { Counts (IsErrOf result (LoadError.Stop Stop.DiskFault)) (D.failures disk.old)
        (D.failures disk.new) }
    ensures long { OnOk result (length slots.new.items ≡ length slots.old.items + 1) }
    ensures decoded { (bytes : ℕ → ℕ) → ReadsGave bytes (D.reads disk.old) (D.reads disk.new)
        → (decoded : List (Option SlotRecord)) → length decoded ≡ SLOTS → FitsCatalog (get_or decoded slot None)
        → AreAt bytes (slot_place layout.now slot) RECORD (slot_bytes version (get_or decoded slot None))
        → length slots.old.items ≡ slot → IsPrefixOf decoded slots.old.items
        → Loads result (λ done. IsPrefixOf decoded slots.new.items) }
    ensures valid { (bytes : ℕ → ℕ) → ReadsGave bytes (D.reads disk.old) (D.reads disk.new)
        → length slots.old.items ≡ slot → SlotsAreAt bytes layout.now version slots.old.items
        → OnOk result (SlotsAreAt bytes layout.now version slots.new.items) }
    ensures fits { ((s : ℕ) → FitsSlotOf (get_or slots.old.items s None))
        → OnOk result ((s : ℕ) → FitsSlotOf (get_or slots.new.items s None)) }
{
    let slot_there = load_slot(alloc, disk, layout, version, slot)?;
    match slots.push(slot_there) {
        Ok(()) => Ok(()),
        Err(_) => Err(LoadError::Stop(Stop::NoMemory)),
    }
}

/// Reads all slots.
pub(crate) fn load_slots<D: Disk>(
    alloc: Global,
    disk: &mut D,
    layout: &Layout,
    version: Version,
) -> Result<Vec<Option<CatalogRecord>>, LoadError>
    requires { PAGE * all_pages layout.now ≤ D.size disk.old }
    ensures reads { OnlyReads D.Disk disk.old disk.new }
    ensures once { ReadsOnce (Between (slot_place layout.now 0) (slot_place layout.now SLOTS))
        (D.reads disk.old) (D.reads disk.new) }
    ensures counts { Counts (IsErrOf result (LoadError.Stop Stop.DiskFault)) (D.failures disk.old)
        (D.failures disk.new) }
    ensures long { IfOk result (λ slots. length slots.items ≡ SLOTS) }
    ensures decoded { (bytes : ℕ → ℕ) → ReadsGave bytes (D.reads disk.old) (D.reads disk.new)
        → (decoded : List (Option SlotRecord)) → length decoded ≡ SLOTS
        → ((s : ℕ) → FitsCatalog (get_or decoded s None))
        → ((s : ℕ) → s < SLOTS → AreAt bytes (slot_place layout.now s) RECORD
        (slot_bytes version (get_or decoded s None)))
        → Loads result (λ slots. slots.items ≡ decoded) }
    ensures valid { (bytes : ℕ → ℕ) → ReadsGave bytes (D.reads disk.old) (D.reads disk.new)
        → IfOk result (λ slots. SlotsAreAt bytes layout.now version slots.items) }
    ensures fits { IfOk result (λ slots. (s : ℕ) → FitsSlotOf (get_or slots.items s None)) }
{
    let mut slots = Vec::new(alloc);
    for slot in 0..SLOTS {
        push_slot(alloc, disk, layout, version, &mut slots, slot)?;
    }
    Ok(slots)
}
