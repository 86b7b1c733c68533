//! The text of a draft is put after its upload's.

ghost use Rattle.std.specs.Prelude.{◌≡◌, ◌≤◌, ◌*◌, ◌↔◌, ℕ, false, List, [], Option, Some, None, get_or, slice_set};
ghost use Rattle.std.specs.Prelude.{IsErrOf, IfOk, OnOk, Bool, true};
ghost use Rattle.spool_disk.specs.Views.{Lasts};
ghost use Rattle.spool_journal.specs.Image.{journal_pages, all_pages};
ghost use Rattle.spool_drafts.specs.Drafts.{IsTailPlaced, list_of, upload_number_of};
ghost use Rattle.spool_drafts.specs.Effect.{Effect};
ghost use Rattle.spool_drafts.specs.declared.draft.SpoolDraft.{SpoolDraft};
ghost use Rattle.spool_pages.specs.View.{SlotRecord};
ghost use Rattle.spool_texts.specs.Drafts.{IsReserved};
ghost use Rattle.upload_rules.specs.Answers.{Counts, Answers};
ghost use Rattle.upload_rules.specs.Calls.{commit_outcome, commit_refusal, committed, dropped};
ghost use Rattle.upload_rules.specs.Drafts.{draft_at};
ghost use Rattle.upload_rules.specs.Lengths.{is_too_large};
ghost use Rattle.upload_rules.specs.Store.{Store, find, patched_store};
ghost use Rattle.upload_rules.specs.World.{Patch, World, reached};
ghost use Rattle.upload_rules.specs.declared.errors.UploadRefusal.{UploadRefusal};
ghost use Rattle.spool_kept.specs.Committing.{HasOtherCount, IsAfterSlot, IsCommit, IsFound, MayDeclare, PreservesDisk};
ghost use Rattle.spool_kept.specs.Committing.{IsEndRefusal, with_length_at};
ghost use Rattle.spool_kept.specs.Drafting.{DraftsFit, OnlyReserves, StandsFor};
ghost use Rattle.spool_kept.specs.Extending.{Advances, IsPending};
ghost use Rattle.spool_catalog.specs.Longer.{MayExtend};
ghost use Rattle.spool_catalog.specs.Holding.{IsUsedBy};
ghost use Rattle.spool_catalog.specs.Shows.{ImageShows};
ghost use Rattle.spool_kept.specs.Stored.{ShowsEither, Stored};

use crate::extending::extend;
use crate::finding::{Found, found_for};
use common::Stop;
use spool_catalog::{Catalog, Longer};
use spool_disk::Disk;
use spool_drafts::{DraftEnd, SpoolDraft};
use spool_journal::PAGE;
use std::alloc::Global;
use upload_rules::{UploadError, UploadRefusal, is_length, taken};

// Ends a draft's text after its upload's, and answers what the upload becomes, and the bytes that are still to be
// written: refused with `Unencodable`, `TooLong`, `Full`, `NoMemory`, `DiskFault`. The blocks stay the draft's. Nothing
// is written.
fn ended<D: Disk>(
    alloc: Global,
    disk: &mut D,
    catalog: &mut Catalog,
    draft: &mut SpoolDraft,
    found: Found,
) -> Result<(Longer, Vec<u8>), UploadError>
    requires room { PAGE * all_pages catalog.old.layout ≤ D.size disk.old }
    requires found { IsFound catalog.old.slots draft.old found }
    requires after { IsAfterSlot catalog.old.slots found.slot draft.old }
    requires goes { found.stays ≡ false }
    requires reserved { IsReserved catalog.old.blocks (list_of draft.old) }
    requires placed { IsTailPlaced catalog.old.layout draft.old }
    ensures size { D.size disk.new ≡ D.size disk.old }
    ensures honest { D.honest disk.old ↔ D.honest disk.new }
    ensures counts { Counts (IsErrOf result (UploadError.Stop Stop.DiskFault)) (D.failures disk.old)
        (D.failures disk.new) }
    ensures same { OnlyReserves catalog.old catalog.new }
    ensures reserved { IsReserved catalog.new.blocks (list_of draft.new) }
    ensures placed { IsTailPlaced catalog.old.layout draft.new }
    ensures effect { Effect D.Disk (journal_pages catalog.old.layout) (list_of draft.old) (list_of draft.new) disk.old
        disk.new catalog.old.blocks catalog.new.blocks }
    ensures only { D.honest disk.old → PreservesDisk D.Disk disk.old disk.new }
    ensures may { IfOk result (λ e. MayExtend catalog.new e.0 (list_of draft.new)) }
    ensures more { IfOk result (λ e. (r : SlotRecord) → get_or catalog.new.slots e.0.slot None ≡ Some r
        → Advances r e.0) }
    ensures refusal { (e : UploadRefusal) → IsErrOf result (UploadError.Refused e) → IsEndRefusal e }
    ensures answer { (sure : Bool) (drafts : List (Option SpoolDraft)) (number : ℕ) (w : World) (p : Patch)
        → IsCommit sure D.Disk disk.old catalog.old drafts number draft.old w p
        → Answers (commit_refusal w number p) result
        (λ e. (e.0.accepted ≡ reached p)
        × IsPending sure D.Disk disk.new catalog.new w.store p.number p.declare p.body e.0 (list_of draft.new)
        e.1.items)
        (Unit {0}) }
    ensures stored { (sure : Bool) (drafts : List (Option SpoolDraft)) (number : ℕ) (w : World) (p : Patch)
        → IsCommit sure D.Disk disk.old catalog.old drafts number draft.old w p
        → Stored sure D.Disk disk.new catalog.new w.store }
    ensures quiet { (drafts : List (Option SpoolDraft)) (number : ℕ) (w : World) (p : Patch)
        → IsCommit true D.Disk disk.old catalog.old drafts number draft.old w p
        → Lasts D.Disk disk.old disk.new (λ image. ImageShows catalog.old.layout image w.store) }
{
    let Found { slot, declared, .. } = found;
    let accepted = draft.offset().saturating_add(draft.came());
    let completes = is_length(declared, accepted);
    let _rows = catalog.blocks.rows();
    let DraftEnd {
        state,
        text_len,
        last,
    } = draft.end(
        alloc,
        disk,
        &catalog.layout,
        &mut catalog.blocks,
        &catalog.indexes,
        completes,
    )?;
    let longer = Longer {
        slot,
        declared,
        accepted,
        text_len,
        state,
    };
    Ok((longer, last))
}

// Puts a draft's text after its upload's, which gets the length that was found, and answers the new offset. The draft
// is spent.
fn append_to<D: Disk>(
    alloc: Global,
    disk: &mut D,
    catalog: &mut Catalog,
    draft: SpoolDraft,
    found: Found,
) -> Result<u64, UploadError>
    requires room { PAGE * all_pages catalog.old.layout ≤ D.size disk.old }
    requires found { IsFound catalog.old.slots draft found }
    requires after { IsAfterSlot catalog.old.slots found.slot draft }
    requires goes { found.stays ≡ false }
    requires reserved { IsReserved catalog.old.blocks (list_of draft) }
    requires placed { IsTailPlaced catalog.old.layout draft }
    ensures size { D.size disk.new ≡ D.size disk.old }
    ensures honest { D.honest disk.old ↔ D.honest disk.new }
    ensures counts { Counts (IsErrOf result (UploadError.Stop Stop.DiskFault)) (D.failures disk.old)
        (D.failures disk.new) }
    ensures layout { catalog.new.layout ≡ catalog.old.layout }
    ensures version { catalog.new.version ≡ catalog.old.version }
    ensures fits { (drafts : List (Option SpoolDraft)) (number : ℕ) → DraftsFit catalog.old drafts
        → draft_at drafts number ≡ Some draft → DraftsFit catalog.new (slice_set drafts number None) }
    ensures refusal { (e : UploadRefusal) → IsErrOf result (UploadError.Refused e) → IsEndRefusal e }
    ensures answer { (sure : Bool) (drafts : List (Option SpoolDraft)) (number : ℕ) (w : World) (p : Patch)
        → IsCommit sure D.Disk disk.old catalog.old drafts number draft w p
        → Answers (commit_refusal w number p) result
        (λ n. (n ≡ reached p)
        × StandsFor sure D.Disk disk.new catalog.new (slice_set drafts number None) (committed w number p))
        (StandsFor sure D.Disk disk.new catalog.new (slice_set drafts number None) (dropped w number)) }
    ensures crash { (drafts : List (Option SpoolDraft)) (number : ℕ) (w : World) (p : Patch)
        → IsCommit true D.Disk disk.old catalog.old drafts number draft w p
        → Lasts D.Disk disk.old disk.new (ShowsEither catalog.old.layout w.store (commit_outcome w number p)) }
    ensures unmade { (drafts : List (Option SpoolDraft)) (number : ℕ) (w : World) (p : Patch)
        → IsCommit true D.Disk disk.old catalog.old drafts number draft w p
        → IsErrOf result (UploadError.Stop Stop.NoMemory)
        → Lasts D.Disk disk.old disk.new (λ image. ImageShows catalog.old.layout image w.store) }

    // Every growth comes before the first write.
    ensures unwritten { D.honest disk.old → IsErrOf result (UploadError.Stop Stop.NoMemory)
        → PreservesDisk D.Disk disk.old disk.new }
{
    let mut draft = draft;
    let (longer, last) = match ended(alloc, disk, catalog, &mut draft, found) {
        Ok(end) => end,
        Err(error) => {
            draft.give_back(&mut catalog.blocks);
            return Err(error);
        }
    };
    match extend(alloc, disk, catalog, &longer, draft.list(), &last) {
        Ok(()) => Ok(longer.accepted),
        Err(Stop::NoMemory) => {
            draft.give_back(&mut catalog.blocks);
            Err(UploadError::Stop(Stop::NoMemory))
        }
        Err(Stop::DiskFault) => Err(UploadError::Stop(Stop::DiskFault)),
    }
}

// Gives the upload of a slot its length, on the disk and in memory, and answers how many bytes it has accepted: refused
// with `NoMemory`, `DiskFault`. Its text stays.
fn set_length<D: Disk>(
    alloc: Global,
    disk: &mut D,
    catalog: &mut Catalog,
    slot: u32,
    declared: Option<u64>,
) -> Result<u64, Stop>
    requires room { PAGE * all_pages catalog.old.layout ≤ D.size disk.old }
    requires may { MayDeclare catalog.old.slots slot declared }
    ensures size { D.size disk.new ≡ D.size disk.old }
    ensures honest { D.honest disk.old ↔ D.honest disk.new }
    ensures counts { Counts (IsErrOf result Stop.DiskFault) (D.failures disk.old) (D.failures disk.new) }
    ensures layout { catalog.new.layout ≡ catalog.old.layout }
    ensures version { catalog.new.version ≡ catalog.old.version }
    ensures count { (r : SlotRecord) → get_or catalog.old.slots slot None ≡ Some r → IfOk result (λ n. n ≡ r.accepted) }
    ensures fits { (drafts : List (Option SpoolDraft)) → DraftsFit catalog.old drafts → DraftsFit catalog.new drafts }
    ensures answer { (sure : Bool) (drafts : List (Option SpoolDraft)) (w : World) (n : ℕ)
        → StandsFor sure D.Disk disk.old catalog.old drafts w → IsUsedBy catalog.old.slots slot n
        → is_too_large declared ≡ false
        → OnOk result (StandsFor sure D.Disk disk.new catalog.new drafts (with_length_at w n declared)) }
    ensures crash { (m : Store) (n : ℕ)
        → Stored true D.Disk disk.old catalog.old m → IsUsedBy catalog.old.slots slot n → is_too_large declared ≡ false
        → Lasts D.Disk disk.old disk.new (ShowsEither catalog.old.layout m (patched_store m n declared [])) }
    ensures unmade { IsErrOf result Stop.NoMemory → (disk.new ≡ disk.old) × (catalog.new ≡ catalog.old) }
{
    let used = catalog.in_slot(slot).unwrap().record();
    let longer = Longer {
        slot,
        declared,
        accepted: used.accepted,
        text_len: used.text_len,
        state: used.state,
    };
    extend(alloc, disk, catalog, &longer, &[], &[])?;
    Ok(longer.accepted)
}

/// Puts the text of a draft after the text of its upload, and answers the new offset. If the draft declares a length
/// and the upload has none, the upload gets it. It is refused with `NoSuch`, `Offset`, `LengthSet`, `TooLong`,
/// `Unencodable`, `Full`, `NoMemory`, `DiskFault`. The draft is spent in every case. After a disk fault the catalog may
/// be ahead of the disk: the spool must be opened again.
pub fn commit<D: Disk>(
    alloc: Global,
    disk: &mut D,
    catalog: &mut Catalog,
    drafts: &mut Vec<Option<SpoolDraft>>,
    number: usize,
) -> Result<u64, UploadError>
    requires room { PAGE * all_pages catalog.old.layout ≤ D.size disk.old }
    requires fits { DraftsFit catalog.old drafts.old.items }
    ensures fits { DraftsFit catalog.new drafts.new.items }
    ensures layout { catalog.new.layout ≡ catalog.old.layout }
    ensures version { catalog.new.version ≡ catalog.old.version }
    ensures size { D.size disk.new ≡ D.size disk.old }
    ensures honest { D.honest disk.old ↔ D.honest disk.new }
    ensures counts { Counts (IsErrOf result (UploadError.Stop Stop.DiskFault)) (D.failures disk.old)
        (D.failures disk.new) }

    // Whatever the disk gave: it is refused with `NoSuch` exactly if the draft's upload is gone, and with `Offset`
    // exactly if the upload has another count of bytes than when the draft began.
    ensures no_such { (o : SpoolDraft) → draft_at drafts.old.items number ≡ Some o
        → (IsErrOf result (UploadError.Refused UploadRefusal.NoSuch)
        ↔ ((s : ℕ) → IsUsedBy catalog.old.slots s (upload_number_of o) → ⊥)) }
    ensures offset { (o : SpoolDraft) → draft_at drafts.old.items number ≡ Some o
        → (IsErrOf result (UploadError.Refused UploadRefusal.Offset) ↔ HasOtherCount catalog.old.slots o) }
    ensures answer { (sure : Bool) (w : World) (p : Patch)
        → StandsFor sure D.Disk disk.old catalog.old drafts.old.items w
        → find number w.patches ≡ Some p
        → Answers (commit_refusal w number p) result
        (λ n. (n ≡ reached p) × StandsFor sure D.Disk disk.new catalog.new drafts.new.items (committed w number p))
        (StandsFor sure D.Disk disk.new catalog.new drafts.new.items (dropped w number)) }
    ensures crash { (w : World) (p : Patch) → StandsFor true D.Disk disk.old catalog.old drafts.old.items w
        → find number w.patches ≡ Some p
        → Lasts D.Disk disk.old disk.new (ShowsEither catalog.old.layout w.store (commit_outcome w number p)) }
    ensures unmade { (w : World) (p : Patch) → StandsFor true D.Disk disk.old catalog.old drafts.old.items w
        → find number w.patches ≡ Some p
        → IsErrOf result (UploadError.Stop Stop.NoMemory)
        → Lasts D.Disk disk.old disk.new (λ image. ImageShows catalog.old.layout image w.store) }

    // Every growth comes before the first write.
    ensures unwritten { D.honest disk.old → IsErrOf result (UploadError.Stop Stop.NoMemory)
        → PreservesDisk D.Disk disk.old disk.new }
{
    let Some(draft) = taken(drafts, number) else {
        return Err(UploadError::Refused(UploadRefusal::NoSuch));
    };
    let found = match found_for(catalog, &draft) {
        Ok(found) => found,
        Err(refusal) => {
            draft.give_back(&mut catalog.blocks);
            return Err(UploadError::Refused(refusal));
        }
    };
    if !found.stays {
        return append_to(alloc, disk, catalog, draft, found);
    }
    let offset = draft.offset();
    draft.give_back(&mut catalog.blocks);
    if found.declares {
        return Ok(set_length(alloc, disk, catalog, found.slot, found.declared)?);
    }
    Ok(offset)
}
