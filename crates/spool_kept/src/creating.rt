//! A new upload is made.
ghost use Rattle.std.specs.Prelude.{◌≡◌, ◌↔◌, ◌≤◌, ◌<◌, ◌*◌, ℕ, List, Option, Some, None};
ghost use Rattle.std.specs.Prelude.{get_or, IsErrOf, OnOk};
ghost use Rattle.std.specs.Prelude.{Bool, true};
ghost use Rattle.spool_disk.specs.Disk.{Counts};
ghost use Rattle.spool_disk.specs.Views.{Lasts};
ghost use Rattle.spool_journal.specs.Image.{all_pages, text_page};
ghost use Rattle.spool_drafts.specs.declared.draft.SpoolDraft.{SpoolDraft};
ghost use Rattle.spool_pages.specs.View.{SlotRecord};
ghost use Rattle.upload_rules.specs.Answers.{Answers};
ghost use Rattle.upload_rules.specs.Calls.{create_refusal, outcome};
ghost use Rattle.upload_rules.specs.Records.{IsValidNew};
ghost use Rattle.upload_rules.specs.Store.{Store, created_store};
ghost use Rattle.upload_rules.specs.World.{at_rest};
ghost use Rattle.spool_kept.specs.Drafting.{DraftsFit};
ghost use Rattle.spool_kept.specs.Stored.{Stored, ShowsEither};

use common::Stop;
use spool_catalog::Catalog;
use spool_disk::Disk;
use spool_journal::PAGE;
use spool_pages::change;
use std::alloc::Global;
use upload_rules::{New, UploadError, UploadRefusal, is_too_large};

/// Makes an upload without bytes, and answers its number: refused with `TooLarge`, `Slots`, `NoMemory`, `DiskFault`.
/// Every growth comes before the first write. After a disk fault the catalog is ahead of the disk: the spool
/// must be opened again.
pub fn create<D: Disk>(
    alloc: Global,
    disk: &mut D,
    catalog: &mut Catalog,
    new: New,
) -> Result<u64, UploadError>
    requires room { PAGE * all_pages catalog.old.layout ≤ D.size disk.old }
    requires well_formed { IsValidNew new }
    ensures size { D.size disk.new ≡ D.size disk.old }
    ensures honest { D.honest disk.old ↔ D.honest disk.new }
    ensures counts { Counts (IsErrOf result (UploadError.Stop Stop.DiskFault)) (D.failures disk.old)
        (D.failures disk.new) }
    ensures layout { catalog.new.layout ≡ catalog.old.layout }
    ensures version { catalog.new.version ≡ catalog.old.version }
    ensures blocks { catalog.new.blocks ≡ catalog.old.blocks }
    ensures slots { (slot : ℕ) (r : SlotRecord) → get_or catalog.old.slots slot None ≡ Some r
        → get_or catalog.new.slots slot None ≡ Some r }
    ensures fits { (drafts : List (Option SpoolDraft)) → DraftsFit catalog.old drafts → DraftsFit catalog.new drafts }
    ensures answer { (sure : Bool) (m : Store) → Stored sure D.Disk disk.old catalog.old m
        → Answers (create_refusal (at_rest m None) new) result
        (λ n. (n ≡ m.next) × Stored sure D.Disk disk.new catalog.new (created_store m new))
        (Stored sure D.Disk disk.new catalog.new m) }
    ensures crash { (m : Store) → Stored true D.Disk disk.old catalog.old m
        → Lasts D.Disk disk.old disk.new (ShowsEither catalog.old.layout m
        (outcome (create_refusal (at_rest m None) new) m (created_store m new))) }
    ensures unmade { IsErrOf result (UploadError.Stop Stop.NoMemory) → (disk.new ≡ disk.old)
        × (catalog.new ≡ catalog.old) }
    ensures refused { (e : UploadRefusal) → IsErrOf result (UploadError.Refused e)
        → (disk.new ≡ disk.old) × (catalog.new ≡ catalog.old) }
    ensures texts { (m : Store) → Stored true D.Disk disk.old catalog.old m
        → OnOk result ((p : ℕ) → PAGE * text_page catalog.old.layout ≤ p
        → D.current disk.new p ≡ D.current disk.old p) }
{
    if is_too_large(new.declared) {
        return Err(UploadError::Refused(UploadRefusal::TooLarge));
    }
    let Some(slot) = catalog.slot_for_new() else {
        return Err(UploadError::Refused(UploadRefusal::Slots));
    };
    let number = catalog.next_number();
    let record = catalog.new_record(new);
    let Ok(pages) = catalog.prepare_new(alloc, slot, record) else {
        return Err(UploadError::Stop(Stop::NoMemory));
    };
    match change(disk, &catalog.layout, &pages) {
        Ok(()) => Ok(number),
        Err(_) => Err(UploadError::Stop(Stop::DiskFault)),
    }
}
