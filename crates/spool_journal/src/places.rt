//! The second half of a commit: the gate opens, the pages are written to their places, and the gate closes.
ghost use Rattle.std.specs.Prelude.{◌≡◌, ◌⊎◌, ◌≤◌, ◌<◌, ◌*◌, ◌+◌, ◌↔◌, ℕ, List, length, IsErr, OnOk};
ghost use Rattle.spool_disk.specs.Disk.{Counts};
ghost use Rattle.spool_disk.specs.Views.{Lasts};
ghost use Rattle.spool_journal.specs.Image.{count, journal_number, content, replayed, laid, byte_of, page_number};
ghost use Rattle.spool_journal.specs.Phases.{IsBefore, ReadsAs, Ready, Opened, Matches, Placing, Upto, PagesPlaced};
ghost use Rattle.spool_journal.specs.Phases.{Settled};

use crate::{GATE, HEAD, OPEN, PAGE};
use spool_disk::{Disk, DiskFault};

/// Opens the gate and syncs. From here on the commit is durable.
pub(crate) fn open_gate<D: Disk>(disk: &mut D) -> Result<(), DiskFault>
    requires { HEAD ≤ D.size disk.old }
    ensures size { D.size disk.new ≡ D.size disk.old }
    ensures honest { D.honest disk.old ↔ D.honest disk.new }
    ensures counts { Counts (IsErr result) (D.failures disk.old) (D.failures disk.new) }
    ensures reads { D.reads disk.new ≡ D.reads disk.old }
    ensures opened { D.honest disk.old → (j : ℕ) → j ≤ 385 → (pages : List (ℕ × List ℕ)) (was : ℕ → ℕ)
        → Ready j pages was (D.current disk.old) (D.unsynced disk.old) → OnOk result
        (Opened j pages was (D.current disk.new) (D.unsynced disk.new)) }
    ensures lasts { D.honest disk.old → (j : ℕ) → j ≤ 385 → (pages : List (ℕ × List ℕ)) (was : ℕ → ℕ)
        → Ready j pages was (D.current disk.old) (D.unsynced disk.old) → Lasts D.Disk disk.old disk.new
        (λ image. IsBefore j was (D.unsynced disk.old) image ⊎ ReadsAs j image (laid pages was)) }
{
    disk.write_at(GATE, &[OPEN])?;
    disk.sync()
}

/// Writes a page to its place.
pub(crate) fn place<D: Disk>(disk: &mut D, page: u32, bytes: &[u8; PAGE]) -> Result<(), DiskFault>
    requires { PAGE * (page + 1) ≤ D.size disk.old }
    ensures size { D.size disk.new ≡ D.size disk.old }
    ensures honest { D.honest disk.old ↔ D.honest disk.new }
    ensures counts { Counts (IsErr result) (D.failures disk.old) (D.failures disk.new) }
    ensures reads { D.reads disk.new ≡ D.reads disk.old }
    ensures placing { D.honest disk.old → (j i : ℕ) (opened : ℕ → ℕ) → Placing j opened (D.current disk.old)
        (D.unsynced disk.old) → i < count opened → journal_number opened i ≡ page
        → Placing j opened (D.current disk.new)
        (D.unsynced disk.new) }
    ensures upto { D.honest disk.old → (i : ℕ) (opened : ℕ → ℕ) → Upto opened (D.current disk.old) i
        → journal_number opened i ≡ page → ((x : ℕ) → x < PAGE → content opened i x ≡ byte_of bytes.now x)
        → OnOk result (Upto opened (D.current disk.new) (i + 1)) }
    ensures lasts { D.honest disk.old → (j i : ℕ) → j ≤ 385 → (opened : ℕ → ℕ)
        → Placing j opened (D.current disk.old) (D.unsynced disk.old) → i < count opened
        → journal_number opened i ≡ page
        → Lasts D.Disk disk.old disk.new (λ image. ReadsAs j image (replayed opened)) }
{
    disk.write_at(PAGE as u64 * page as u64, bytes)
}

/// Writes each page to its place.
pub(crate) fn place_pages<D: Disk>(
    disk: &mut D,
    items: &[(u32, [u8; PAGE])],
) -> Result<(), DiskFault>
    requires room { (k : ℕ) → k < length items.now → PAGE * (page_number items.now k + 1) ≤ D.size disk.old }
    ensures size { D.size disk.new ≡ D.size disk.old }
    ensures honest { D.honest disk.old ↔ D.honest disk.new }
    ensures counts { Counts (IsErr result) (D.failures disk.old) (D.failures disk.new) }
    ensures reads { D.reads disk.new ≡ D.reads disk.old }
    ensures placing { D.honest disk.old → (j : ℕ) (opened : ℕ → ℕ) → Matches items.now opened
        → Placing j opened (D.current disk.old) (D.unsynced disk.old)
        → Placing j opened (D.current disk.new) (D.unsynced disk.new) }
    ensures upto { D.honest disk.old → (opened : ℕ → ℕ) → Matches items.now opened → Upto opened (D.current disk.old) 0
        → OnOk result (Upto opened (D.current disk.new) (length items.now)) }
    ensures lasts { D.honest disk.old → (j : ℕ) → j ≤ 385 → (opened : ℕ → ℕ) → Matches items.now opened
        → Placing j opened (D.current disk.old) (D.unsynced disk.old) → Lasts D.Disk disk.old disk.new
        (λ image. ReadsAs j image (replayed opened)) }
{
    for i in 0..items.len() {
        place(disk, items[i].0, &items[i].1)?;
    }
    Ok(())
}

/// Closes the gate and syncs.
pub(crate) fn close_gate<D: Disk>(disk: &mut D) -> Result<(), DiskFault>
    requires { HEAD ≤ D.size disk.old }
    ensures size { D.size disk.new ≡ D.size disk.old }
    ensures honest { D.honest disk.old ↔ D.honest disk.new }
    ensures counts { Counts (IsErr result) (D.failures disk.old) (D.failures disk.new) }
    ensures reads { D.reads disk.new ≡ D.reads disk.old }
    ensures settled { D.honest disk.old → (j : ℕ) (opened : ℕ → ℕ) → PagesPlaced j opened (D.current disk.old)
        (D.unsynced disk.old) → OnOk result (Settled j (replayed opened) (D.current disk.new) (D.unsynced disk.new)) }
    ensures lasts { D.honest disk.old → (j : ℕ) → j ≤ 385 → (opened : ℕ → ℕ)
        → PagesPlaced j opened (D.current disk.old) (D.unsynced disk.old) → Lasts D.Disk disk.old disk.new
        (λ image. ReadsAs j image (replayed opened)) }
{
    disk.write_at(GATE, &[0])?;
    disk.sync()
}
