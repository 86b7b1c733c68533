//! An upload is taken away: its record and its blocks, in memory and on the disk.
ghost use Rattle.std.specs.Prelude.{◌≡◌, ◌↔◌, ◌≤◌, ◌<◌, ◌*◌, ℕ, Option, OnOk};
ghost use Rattle.std.specs.Prelude.{IsErrOf};
ghost use Rattle.std.specs.Prelude.{Bool, true};
ghost use Rattle.spool_disk.specs.Disk.{Counts};
ghost use Rattle.spool_disk.specs.Views.{Lasts};
ghost use Rattle.spool_journal.specs.Image.{all_pages, text_page};
ghost use Rattle.upload_rules.specs.Answers.{Answers};
ghost use Rattle.upload_rules.specs.Calls.{terminate_refusal, terminated, terminate_outcome};
ghost use Rattle.upload_rules.specs.World.{World};
ghost use Rattle.upload_rules.specs.declared.errors.UploadRefusal.{UploadRefusal};
ghost use Rattle.spool_kept.specs.Drafting.{DraftsFit, StandsFor};
ghost use Rattle.spool_catalog.specs.Holding.{IsUsedBy};
ghost use Rattle.spool_kept.specs.Stored.{ShowsEither};
ghost use Rattle.spool_kept.specs.Terminating.{EachForgets, ForgetsOf};
ghost use Rattle.spool_catalog.specs.TakenOut.{IsTakenOut};

use common::Stop;
use spool_catalog::Catalog;
use spool_disk::Disk;
use spool_drafts::SpoolDraft;
use spool_journal::PAGE;
use spool_pages::{change, fill_rows};
use std::alloc::Global;
use upload_rules::{UploadError, UploadRefusal};

// A draft of this number forgets its upload's last block. Another is as it was.
fn forget_tail(draft: &mut Option<SpoolDraft>, number: u64)
    ensures { ForgetsOf number draft.old draft.new }
{
    if let Some(draft) = draft {
        if draft.number() == number {
            draft.forget_tail();
        }
    }
}

// Each draft of this number forgets its upload's last block.
fn forget_tails(drafts: &mut Vec<Option<SpoolDraft>>, number: u64)
    ensures { EachForgets number drafts.old.items drafts.new.items }
{
    for place in 0..drafts.len() {
        forget_tail(&mut drafts[place], number);
    }
}

/// Takes the upload of a number away: refused with `NoSuch`, `NoMemory`, `DiskFault`. Its drafts keep their blocks, and
/// forget its text. Every growth comes before the first write. After a disk fault the catalog is ahead of the disk: the
/// spool must be opened again.
pub fn terminate<D: Disk>(
    alloc: Global,
    disk: &mut D,
    catalog: &mut Catalog,
    drafts: &mut Vec<Option<SpoolDraft>>,
    number: u64,
) -> Result<(), UploadError>
    requires room { PAGE * all_pages catalog.old.layout ≤ D.size disk.old }
    requires fits { DraftsFit catalog.old drafts.old.items }
    ensures fits { DraftsFit catalog.new drafts.new.items }
    ensures size { D.size disk.new ≡ D.size disk.old }
    ensures honest { D.honest disk.old ↔ D.honest disk.new }
    ensures counts { Counts (IsErrOf result (UploadError.Stop Stop.DiskFault)) (D.failures disk.old)
        (D.failures disk.new) }
    ensures reads { D.reads disk.new ≡ D.reads disk.old }
    ensures layout { catalog.new.layout ≡ catalog.old.layout }
    ensures version { catalog.new.version ≡ catalog.old.version }

    // Whatever the disk gave, it is refused so exactly where no slot has the number.
    ensures no_such { IsErrOf result (UploadError.Refused UploadRefusal.NoSuch)
        ↔ ((slot : ℕ) → IsUsedBy catalog.old.slots slot number → ⊥) }
    ensures taken_out { (IsErrOf result (UploadError.Stop Stop.NoMemory) → ⊥) → (slot : ℕ)
        → IsUsedBy catalog.old.slots slot number → IsTakenOut catalog.old slot catalog.new }
    ensures forgets { (IsErrOf result (UploadError.Stop Stop.NoMemory) → ⊥) → (slot : ℕ)
        → IsUsedBy catalog.old.slots slot number → EachForgets number drafts.old.items drafts.new.items }
    ensures unmade { IsErrOf result (UploadError.Stop Stop.NoMemory)
        → (disk.new ≡ disk.old) × (catalog.new ≡ catalog.old) × (drafts.new.items ≡ drafts.old.items) }
    ensures refused { (e : UploadRefusal) → IsErrOf result (UploadError.Refused e)
        → (disk.new ≡ disk.old) × (catalog.new ≡ catalog.old) × (drafts.new.items ≡ drafts.old.items) }
    ensures answer { (sure : Bool) (w : World) → StandsFor sure D.Disk disk.old catalog.old drafts.old.items w
        → Answers (terminate_refusal w number) result
        (λ done. StandsFor sure D.Disk disk.new catalog.new drafts.new.items (terminated w number))
        (StandsFor sure D.Disk disk.new catalog.new drafts.new.items w) }

    // A crash during it leaves the upload or its deletion.
    ensures crash { (w : World) → StandsFor true D.Disk disk.old catalog.old drafts.old.items w
        → Lasts D.Disk disk.old disk.new (ShowsEither catalog.old.layout w.store (terminate_outcome w number)) }

    // No block is written by it.
    ensures texts { (w : World) → StandsFor true D.Disk disk.old catalog.old drafts.old.items w
        → OnOk result ((p : ℕ) → PAGE * text_page catalog.old.layout ≤ p
        → D.current disk.new p ≡ D.current disk.old p) }
{
    let Some(slot) = catalog.slot_of(number) else {
        return Err(UploadError::Refused(UploadRefusal::NoSuch));
    };
    let Ok(mut pages) = catalog.pages_without(alloc, slot) else {
        return Err(UploadError::Stop(Stop::NoMemory));
    };
    catalog.take_out(number, slot);
    forget_tails(drafts, number);
    fill_rows(&mut pages, &catalog.layout, catalog.blocks.rows());
    match change(disk, &catalog.layout, &pages) {
        Ok(()) => Ok(()),
        Err(_) => Err(UploadError::Stop(Stop::DiskFault)),
    }
}
