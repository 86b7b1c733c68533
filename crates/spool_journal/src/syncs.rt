//! The sync between writing the places and closing the gate.
ghost use Rattle.std.specs.Prelude.{◌≡◌, ◌≤◌, ◌↔◌, ℕ, IsErr, OnOk};
ghost use Rattle.spool_disk.specs.Disk.{Counts};
ghost use Rattle.spool_disk.specs.Views.{Lasts};
ghost use Rattle.spool_journal.specs.Image.{count, replayed};
ghost use Rattle.spool_journal.specs.Phases.{ReadsAs, Placing, Upto, PagesPlaced};

use spool_disk::{Disk, DiskFault};

/// Syncs the places.
#[tactic(auto, using(crate::proofs::SyncSteps::placed_after, crate::proofs::SyncSteps::image_after))]
pub(crate) fn sync_places<D: Disk>(disk: &mut D) -> Result<(), DiskFault>
    ensures size { D.size disk.new ≡ D.size disk.old }
    ensures honest { D.honest disk.old ↔ D.honest disk.new }
    ensures counts { Counts (IsErr result) (D.failures disk.old) (D.failures disk.new) }
    ensures reads { D.reads disk.new ≡ D.reads disk.old }
    ensures placed { D.honest disk.old → (j : ℕ) (opened : ℕ → ℕ) → Placing j opened (D.current disk.old)
        (D.unsynced disk.old) → Upto opened (D.current disk.old) (count opened)
        → OnOk result (PagesPlaced j opened (D.current disk.new) (D.unsynced disk.new)) }
    ensures lasts { D.honest disk.old → (j : ℕ) → j ≤ 385 → (opened : ℕ → ℕ)
        → Placing j opened (D.current disk.old) (D.unsynced disk.old) → Lasts D.Disk disk.old disk.new
        (λ image. ReadsAs j image (replayed opened)) }
{
    disk.sync()
}
