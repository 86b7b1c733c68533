//! Reading page 0 and the index area of a spool whose bytes are all synced.
ghost use Rattle.std.specs.Prelude.{◌≡◌, ◌≤◌, ◌<◌, ◌*◌, ◌+◌, ◌∷◌, ℕ, length, get_or, IsErr, IsErrOf, OnOk, OnErr, IfOk};
ghost use Rattle.enc_model.specs.Indexes.{IndexSet};
ghost use Rattle.enc_index.specs.Area.{area_byte};
ghost use Rattle.enc_index.specs.Sets.{IsIndexSet};
ghost use Rattle.spool_disk.specs.Disk.{Counts};
ghost use Rattle.spool_disk.specs.Given.{Between, ReadsGave, ReadsOnce, given};
ghost use Rattle.spool_journal.specs.Image.{all_pages};
ghost use Rattle.spool_load.specs.Faults.{Loads};
ghost use Rattle.spool_load.specs.Reads.{OnlyReads, IsReadAt, AreaIsAt};
ghost use Rattle.spool_pages.specs.View.{AreAt, first_page, index_place, state_place};

use crate::LoadError;
use common::Stop;
use enc_index::{AREA_SIZE, AreaError, IndexSet};
use spool_disk::{Disk, DiskFault};
use spool_journal::{Layout, PAGE};
use spool_pages::{AREA_PAGES, first_page, index_place};
use std::alloc::Global;

/// Fills the buffer from a place on.
pub(crate) fn read_at<D: Disk>(disk: &mut D, place: u64, buf: &mut [u8]) -> Result<(), DiskFault>
    requires { place + length buf.old ≤ D.size disk.old }
    ensures reads { OnlyReads D.Disk disk.old disk.new }
    ensures given { OnOk result (D.reads disk.new ≡ given place buf.new ∷ D.reads disk.old) }
    ensures none { OnErr result (D.reads disk.new ≡ D.reads disk.old) }
    ensures counts { Counts (IsErr result) (D.failures disk.old) (D.failures disk.new) }
{
    disk.read(place, buf)
}

/// Checks page 0, which is read anew and whole.
pub(crate) fn check_first<D: Disk>(disk: &mut D, layout: &Layout) -> Result<(), LoadError>
    requires { PAGE * all_pages layout.now ≤ D.size disk.old }
    ensures reads { OnlyReads D.Disk disk.old disk.new }
    ensures once { ReadsOnce (Between 0 PAGE) (D.reads disk.old) (D.reads disk.new) }
    ensures counts { Counts (IsErrOf result (LoadError.Stop Stop.DiskFault)) (D.failures disk.old)
        (D.failures disk.new) }
    ensures decoded { (bytes : ℕ → ℕ) → ReadsGave bytes (D.reads disk.old) (D.reads disk.new)
        → AreAt bytes 0 PAGE (first_page layout.now) → Loads result (λ done. Unit {0}) }
    ensures valid { (bytes : ℕ → ℕ) → ReadsGave bytes (D.reads disk.old) (D.reads disk.new)
        → OnOk result (AreAt bytes 0 PAGE (first_page layout.now)) }
{
    let mut page = [0; PAGE];
    read_at(disk, 0, &mut page)?;
    if page == first_page(layout.blocks()) {
        Ok(())
    } else {
        Err(LoadError::Damaged)
    }
}

// Appends a page of the index area to those before it.
fn push_area_page<D: Disk>(
    disk: &mut D,
    layout: &Layout,
    area: &mut Vec<u8>,
    page: u32,
) -> Result<(), LoadError>
    requires room { PAGE * all_pages layout.now ≤ D.size disk.old }
    requires page { page < AREA_PAGES }
    ensures reads { OnlyReads D.Disk disk.old disk.new }
    ensures once { ReadsOnce (Between (index_place layout.now + PAGE * page)
        (index_place layout.now + PAGE * (page + 1))) (D.reads disk.old) (D.reads disk.new) }
    ensures counts { Counts (IsErrOf result (LoadError.Stop Stop.DiskFault)) (D.failures disk.old)
        (D.failures disk.new) }
    ensures others { Loads result (λ done. length area.new.items ≡ length area.old.items + PAGE) }
    ensures pushed { (bytes : ℕ → ℕ) → ReadsGave bytes (D.reads disk.old) (D.reads disk.new)
        → IsReadAt bytes (index_place layout.now) area.old.items → length area.old.items ≡ PAGE * page
        → OnOk result (IsReadAt bytes (index_place layout.now) area.new.items) }
{
    let mut bytes = [0; PAGE];
    read_at(disk, index_place(layout, page), &mut bytes)?;
    area.extend_from_slice(&bytes)?;
    Ok(())
}

// Reads the index area.
fn load_area<D: Disk>(alloc: Global, disk: &mut D, layout: &Layout) -> Result<Vec<u8>, LoadError>
    requires { PAGE * all_pages layout.now ≤ D.size disk.old }
    ensures reads { OnlyReads D.Disk disk.old disk.new }
    ensures once { ReadsOnce (Between (index_place layout.now) (state_place layout.now))
        (D.reads disk.old) (D.reads disk.new) }
    ensures counts { Counts (IsErrOf result (LoadError.Stop Stop.DiskFault)) (D.failures disk.old)
        (D.failures disk.new) }
    ensures long { Loads result (λ area. length area.items ≡ AREA_SIZE) }
    ensures read { (bytes : ℕ → ℕ) → ReadsGave bytes (D.reads disk.old) (D.reads disk.new)
        → IfOk result (λ area. IsReadAt bytes (index_place layout.now) area.items) }
{
    let mut area = Vec::new(alloc);
    for page in 0..AREA_PAGES {
        push_area_page(disk, layout, &mut area, page)?;
    }
    Ok(area)
}

/// Reads the index files.
pub(crate) fn load_indexes<D: Disk>(
    alloc: Global,
    disk: &mut D,
    layout: &Layout,
) -> Result<IndexSet, LoadError>
    requires { PAGE * all_pages layout.now ≤ D.size disk.old }
    ensures reads { OnlyReads D.Disk disk.old disk.new }
    ensures once { ReadsOnce (Between (index_place layout.now) (state_place layout.now))
        (D.reads disk.old) (D.reads disk.new) }
    ensures counts { Counts (IsErrOf result (LoadError.Stop Stop.DiskFault)) (D.failures disk.old)
        (D.failures disk.new) }
    ensures decoded { (bytes : ℕ → ℕ) → ReadsGave bytes (D.reads disk.old) (D.reads disk.new)
        → (x : IndexSet) → IsIndexSet x
        → ((i : ℕ) → i < AREA_SIZE → bytes (index_place layout.now + i) ≡ area_byte x i)
        → Loads result (λ set. set ≡ x) }
    ensures set { IfOk result IsIndexSet }
    ensures valid { (bytes : ℕ → ℕ) → ReadsGave bytes (D.reads disk.old) (D.reads disk.new)
        → IfOk result (AreaIsAt bytes layout.now) }
{
    let area = load_area(alloc, disk, layout)?;
    match IndexSet::from_area(alloc, &area) {
        Ok(set) => Ok(set),
        Err(AreaError::NoMemory) => Err(LoadError::Stop(Stop::NoMemory)),
        Err(AreaError::Damaged) => Err(LoadError::Damaged),
    }
}
