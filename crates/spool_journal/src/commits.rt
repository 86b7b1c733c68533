//! Commits: all of the given pages change, or none.
ghost use Rattle.std.specs.Prelude.{◌≡◌, ◌⊎◌, ◌≤◌, ◌<◌, ◌*◌, ◌+◌, ◌↔◌, ℕ, length, IsErr, IsOk, OnOk};
ghost use Rattle.spool_disk.specs.Disk.{Counts};
ghost use Rattle.spool_disk.specs.Views.{Lasts};
ghost use Rattle.spool_journal.specs.Image.{journal_pages, all_pages, replayed, laid, page_number, InArea, Ascends};
ghost use Rattle.spool_journal.specs.Phases.{Idle, IsBefore, ReadsAs, Matches, Placing, Upto, Settled};

use crate::layout::JOURNAL_PAGE;
use crate::places::{close_gate, open_gate, place_pages};
use crate::staging::stage;
use crate::syncs::sync_places;
use crate::{HEAD, Layout, PAGE, Pages};
use spool_disk::{Disk, DiskFault};

// Writes the pages to their places, and closes the gate.
fn finish<D: Disk>(disk: &mut D, items: &[(u32, [u8; PAGE])]) -> Result<(), DiskFault>
    requires gate { HEAD ≤ D.size disk.old }
    requires room { (k : ℕ) → k < length items.now → PAGE * (page_number items.now k + 1) ≤ D.size disk.old }
    ensures size { D.size disk.new ≡ D.size disk.old }
    ensures honest { D.honest disk.old ↔ D.honest disk.new }
    ensures counts { Counts (IsErr result) (D.failures disk.old) (D.failures disk.new) }
    ensures reads { D.reads disk.new ≡ D.reads disk.old }
    ensures settled { D.honest disk.old → (j : ℕ) (opened : ℕ → ℕ) → Matches items.now opened
        → Placing j opened (D.current disk.old) (D.unsynced disk.old) → Upto opened (D.current disk.old) 0
        → OnOk result (Settled j (replayed opened) (D.current disk.new) (D.unsynced disk.new)) }
    ensures lasts { D.honest disk.old → (j : ℕ) → j ≤ 385 → (opened : ℕ → ℕ) → Matches items.now opened
        → Placing j opened (D.current disk.old) (D.unsynced disk.old) → Upto opened (D.current disk.old) 0
        → Lasts D.Disk disk.old disk.new (λ image. ReadsAs j image (replayed opened)) }
{
    place_pages(disk, items)?;
    sync_places(disk)?;
    close_gate(disk)
}

// Changes these pages, of which there is at least one.
fn commit_items<D: Disk>(
    disk: &mut D,
    journal: u32,
    items: &[(u32, [u8; PAGE])],
) -> Result<(), DiskFault>
    requires bound { journal ≤ 385 }
    requires some { 1 ≤ length items.now }
    requires few { length items.now ≤ 385 }
    requires staged { PAGE * (JOURNAL_PAGE + length items.now) ≤ D.size disk.old }
    requires room { (k : ℕ) → k < length items.now → PAGE * (page_number items.now k + 1) ≤ D.size disk.old }
    ensures size { D.size disk.new ≡ D.size disk.old }
    ensures honest { D.honest disk.old ↔ D.honest disk.new }
    ensures counts { Counts (IsErr result) (D.failures disk.old) (D.failures disk.new) }
    ensures reads { D.reads disk.new ≡ D.reads disk.old }
    ensures done { D.honest disk.old → Idle journal (D.current disk.old) (D.unsynced disk.old)
        → InArea journal items.now
        → Ascends items.now → OnOk result
        (Settled journal (laid items.now (D.current disk.old)) (D.current disk.new) (D.unsynced disk.new)) }
    ensures lasts { D.honest disk.old → Idle journal (D.current disk.old) (D.unsynced disk.old)
        → InArea journal items.now
        → Ascends items.now → Lasts D.Disk disk.old disk.new
        (λ image. IsBefore journal (D.current disk.old) (D.unsynced disk.old) image ⊎ ReadsAs journal image
        (laid items.now (D.current disk.old))) }
{
    stage(disk, items)?;
    open_gate(disk)?;
    finish(disk, items)
}

/// Changes the given pages, all or none, and makes all earlier writes durable, in four syncs. The gate has to be closed
/// and the metadata synced, as after an `Ok` of `recover` or `commit`. Without pages it makes no call of the disk, so
/// nothing becomes durable. It allocates nothing.
///
/// # Errors
///
/// `DiskFault`.
pub fn commit<D: Disk>(disk: &mut D, layout: &Layout, pages: &Pages) -> Result<(), DiskFault>
    requires room { PAGE * all_pages layout.now ≤ D.size disk.old }
    requires area { InArea (journal_pages layout.now) pages.now }
    ensures size { D.size disk.new ≡ D.size disk.old }
    ensures honest { D.honest disk.old ↔ D.honest disk.new }
    ensures counts { Counts (IsErr result) (D.failures disk.old) (D.failures disk.new) }
    ensures reads { D.reads disk.new ≡ D.reads disk.old }
    ensures nothing { length pages.now ≡ 0 → (disk.new ≡ disk.old) × IsOk result }
    ensures ascends { Ascends pages.now }

    // Every crash image then has exactly these pages changed, except for the gate and the journal.
    ensures done { D.honest disk.old → Idle (journal_pages layout.now) (D.current disk.old) (D.unsynced disk.old)
        → 1 ≤ length pages.now → OnOk result
        (Settled (journal_pages layout.now) (laid pages.now (D.current disk.old)) (D.current disk.new)
        (D.unsynced disk.new)) }

    // The next commit may follow.
    ensures idle { D.honest disk.old → Idle (journal_pages layout.now) (D.current disk.old) (D.unsynced disk.old)
        → OnOk result (Idle (journal_pages layout.now) (D.current disk.new) (D.unsynced disk.new)) }

    // A crash during the commit leaves all old pages, or all new ones with everything that a read gave.
    ensures lasts { D.honest disk.old → Idle (journal_pages layout.now) (D.current disk.old) (D.unsynced disk.old)
        → Lasts D.Disk disk.old disk.new
        (λ image. IsBefore (journal_pages layout.now) (D.current disk.old) (D.unsynced disk.old) image ⊎ ReadsAs
        (journal_pages layout.now) image (laid pages.now (D.current disk.old))) }
{
    let items = pages.items();
    if items.is_empty() {
        return Ok(());
    }
    commit_items(disk, layout.journal(), items)
}
