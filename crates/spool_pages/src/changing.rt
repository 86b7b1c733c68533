//! A change of a spool's metadata.
ghost use Rattle.std.specs.Prelude.{◌≡◌, ◌⊎◌, ◌≤◌, ◌*◌, ◌↔◌, ℕ, length, IsErr, OnOk};
ghost use Rattle.spool_disk.specs.Disk.{Counts};
ghost use Rattle.spool_disk.specs.Views.{Lasts};
ghost use Rattle.spool_journal.specs.Image.{journal_pages, all_pages, laid, InArea, text_page};
ghost use Rattle.spool_journal.specs.Phases.{Settled};
ghost use Rattle.spool_pages.specs.Changes.{Changes};
ghost use Rattle.spool_pages.specs.Rests.{Rests, HasTexts};
ghost use Rattle.spool_pages.specs.View.{View, IsViewOf};

use spool_disk::{Disk, DiskFault};
use spool_journal::{Layout, PAGE, Pages, commit};

/// Changes at least one page of a spool at rest, all of them or none, and syncs all earlier writes first. So the new
/// rows may own blocks that were written since the last sync. It allocates nothing.
///
/// # Errors
///
/// `DiskFault`.
pub fn change<D: Disk>(disk: &mut D, layout: &Layout, pages: &Pages) -> Result<(), DiskFault>
    requires room { PAGE * all_pages layout.now ≤ D.size disk.old }
    requires area { InArea (journal_pages layout.now) pages.now }
    requires some { 1 ≤ length pages.now }
    ensures size { D.size disk.new ≡ D.size disk.old }
    ensures honest { D.honest disk.old ↔ D.honest disk.new }
    ensures counts { Counts (IsErr result) (D.failures disk.old) (D.failures disk.new) }
    ensures reads { D.reads disk.new ≡ D.reads disk.old }

    // The spool is at rest with the new view.
    ensures done { D.honest disk.old → (v v' : View) → v.blocks ≡ layout.now
        → Rests v (D.current disk.old) (D.unsynced disk.old) → Changes pages.now v v' → HasTexts (D.current disk.old) v'
        → OnOk result (Rests v' (D.current disk.new) (D.unsynced disk.new)) }

    // Outside the gate and the journal, a read gives what it gave before with these pages laid over it: it was one
    // commit.
    ensures laid { D.honest disk.old → (v : View) → v.blocks ≡ layout.now
        → Rests v (D.current disk.old) (D.unsynced disk.old) → OnOk result (Settled (journal_pages layout.now)
        (laid pages.now (D.current disk.old)) (D.current disk.new) (D.unsynced disk.new)) }

    // All is synced, and no text block changed.
    ensures synced { D.honest disk.old → (v : View) → v.blocks ≡ layout.now
        → Rests v (D.current disk.old) (D.unsynced disk.old) → OnOk result ((p : ℕ) → D.unsynced disk.new p → ⊥) }
    ensures texts { D.honest disk.old → (v : View) → v.blocks ≡ layout.now
        → Rests v (D.current disk.old) (D.unsynced disk.old) → OnOk result
        ((p : ℕ) → PAGE * text_page layout.now ≤ p → D.current disk.new p ≡ D.current disk.old p) }

    // A crash during the change leaves the old view or the new one.
    ensures lasts { D.honest disk.old → (v v' : View) → v.blocks ≡ layout.now
        → Rests v (D.current disk.old) (D.unsynced disk.old) → Changes pages.now v v' → HasTexts (D.current disk.old) v'
        → Lasts D.Disk disk.old disk.new (λ image. IsViewOf image v ⊎ IsViewOf image v') }
{
    commit(disk, layout, pages)
}
