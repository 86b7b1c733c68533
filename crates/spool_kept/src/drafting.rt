//! The open drafts of a spool by their numbers: begun, made longer and dropped.
ghost use Rattle.std.specs.Prelude.{◌≡◌, ◌≤◌, ◌<◌, ◌*◌, ◌+◌, ◌↔◌, ℕ, [], Some, None, length, IsErrOf, IfOk};
ghost use Rattle.std.specs.Prelude.{Bool, true};
ghost use Rattle.spool_disk.specs.Disk.{Counts};
ghost use Rattle.spool_disk.specs.Views.{Lasts};
ghost use Rattle.spool_journal.specs.Image.{all_pages, text_page};
ghost use Rattle.upload_rules.specs.Answers.{Answers, DoesOrStops};
ghost use Rattle.upload_rules.specs.Calls.{appended, begin_refusal, begun, dropped};
ghost use Rattle.upload_rules.specs.Store.{Store, find};
ghost use Rattle.upload_rules.specs.World.{Patch, World, free_number};
ghost use Rattle.spool_drafts.specs.Drafts.{IsTailPlaced, list_of, upload_number_of, tail_of};
ghost use Rattle.spool_pages.specs.View.{View, Encodes};
ghost use Rattle.spool_catalog.specs.Catalog.{HasView};
ghost use Rattle.spool_kept.specs.Drafting.{CarriesFor, DraftsFit, IsOfUpload, OnlyReserves, OpensDraftAs};
ghost use Rattle.spool_catalog.specs.Holding.{IsOwnedBy};
ghost use Rattle.spool_kept.specs.Drafting.{StandsFor};
ghost use Rattle.spool_catalog.specs.Shows.{ImageShows, Shows};

use common::Stop;
use spool_catalog::Catalog;
use spool_disk::Disk;
use spool_drafts::SpoolDraft;
use spool_journal::PAGE;
use std::alloc::Global;
use upload_rules::{UploadError, UploadRefusal, placed, put_back, taken};

// The draft that `begin` opens: refused with `NoSuch`, `Offset`, `TooLarge`, `LengthSet`, `TooLong`.
fn opened(
    alloc: Global,
    catalog: &Catalog,
    number: u64,
    offset: u64,
    count: u64,
    declare: Option<u64>,
) -> Result<SpoolDraft, UploadRefusal>
    ensures none { IfOk result (λ o. list_of o ≡ []) }
    ensures placed { IfOk result (λ o. IsTailPlaced catalog.now.layout o) }
    ensures owned { IfOk result (λ o. IsOwnedBy catalog.now.slots catalog.now.blocks.rows number (tail_of o)) }
    ensures below { IfOk result (λ o. upload_number_of o < catalog.now.next) }
    ensures of_upload { IfOk result (IsOfUpload catalog.now.slots) }
    ensures opened { (v : View) (m : Store) → HasView catalog.now v → Shows v m
        → OpensDraftAs m number offset count declare result }
    ensures carries { (v : View) (m : Store) (bytes : ℕ → ℕ) → HasView catalog.now v → Shows v m → Encodes bytes v
        → IfOk result (CarriesFor m number count declare bytes (text_page catalog.now.layout)) }
{
    let Some(found) = catalog.upload(number) else {
        return Err(UploadRefusal::NoSuch);
    };
    SpoolDraft::begin(alloc, found.upload, found.list, offset, count, declare)
}

/// Opens a draft of `count` bytes at an offset, which may declare the upload's length, under the least number that is
/// free: refused with `NoSuch`, `Offset`, `TooLarge`, `LengthSet`, `TooLong`, `NoMemory`.
pub fn begin<D: Disk>(
    alloc: Global,
    catalog: &Catalog,
    drafts: &mut Vec<Option<SpoolDraft>>,
    number: u64,
    offset: u64,
    count: u64,
    declare: Option<u64>,
) -> Result<usize, UploadError>
    requires fits { DraftsFit catalog.now drafts.old.items }
    ensures fits { DraftsFit catalog.now drafts.new.items }
    ensures no_disk_fault { IsErrOf result (UploadError.Stop Stop.DiskFault) → ⊥ }
    ensures answer { (sure : Bool) (disk : D) (w : World) → StandsFor sure D.Disk disk catalog.now drafts.old.items w
        → Answers (begin_refusal w number offset count declare) result
        (λ d. (d ≡ free_number w) × StandsFor sure D.Disk disk catalog.now drafts.new.items
        (begun w number count declare))
        (StandsFor sure D.Disk disk catalog.now drafts.new.items w) }
{
    let draft = match opened(alloc, catalog, number, offset, count, declare) {
        Ok(draft) => draft,
        Err(refusal) => return Err(UploadError::Refused(refusal)),
    };
    match placed(drafts, draft) {
        Ok(number) => Ok(number),
        Err(_) => Err(UploadError::Stop(Stop::NoMemory)),
    }
}

/// Adds bytes to the draft of a number, at most its count in all: `NoMemory`, after which it is as before, or
/// `DiskFault`, after which it may only be dropped. No sync is made. Where no draft has the number, nothing is done.
pub fn append<D: Disk>(
    alloc: Global,
    disk: &mut D,
    catalog: &mut Catalog,
    drafts: &mut Vec<Option<SpoolDraft>>,
    number: usize,
    piece: &[u8],
) -> Result<(), Stop>
    requires room { PAGE * all_pages catalog.old.layout ≤ D.size disk.old }
    requires fits { DraftsFit catalog.old drafts.old.items }
    ensures fits { DraftsFit catalog.new drafts.new.items }
    ensures same { OnlyReserves catalog.old catalog.new }
    ensures size { D.size disk.new ≡ D.size disk.old }
    ensures honest { D.honest disk.old ↔ D.honest disk.new }
    ensures counts { Counts (IsErrOf result Stop.DiskFault) (D.failures disk.old) (D.failures disk.new) }
    ensures answer { (sure : Bool) (w : World) (p : Patch)
        → StandsFor sure D.Disk disk.old catalog.old drafts.old.items w
        → find number w.patches ≡ Some p → length p.body + length piece.now ≤ p.count
        → DoesOrStops result
        (λ done. StandsFor sure D.Disk disk.new catalog.new drafts.new.items (appended w number piece.now))
        (StandsFor sure D.Disk disk.new catalog.new drafts.new.items w) }
    // A crash during it leaves what shows the same.
    ensures quiet { (w : World) (p : Patch) → StandsFor true D.Disk disk.old catalog.old drafts.old.items w
        → find number w.patches ≡ Some p
        → Lasts D.Disk disk.old disk.new
        (λ image. (n : ℕ) (m : Store) → ImageShows n (D.current disk.old) m → ImageShows n image m) }
{
    let Some(mut draft) = taken(drafts, number) else {
        return Ok(());
    };
    let _rows = catalog.blocks.rows();
    let answer = draft.append(
        alloc,
        disk,
        &catalog.layout,
        &mut catalog.blocks,
        &catalog.indexes,
        piece,
    );
    put_back(drafts, number, draft);
    answer
}

/// Gives the draft of a number up, and its blocks back.
pub fn drop_open<D: Disk>(
    catalog: &mut Catalog,
    drafts: &mut Vec<Option<SpoolDraft>>,
    number: usize,
)
    requires fits { DraftsFit catalog.old drafts.old.items }
    ensures fits { DraftsFit catalog.new drafts.new.items }
    ensures same { OnlyReserves catalog.old catalog.new }
    ensures represents { (sure : Bool) (disk : D) (w : World)
        → StandsFor sure D.Disk disk catalog.old drafts.old.items w
        → StandsFor sure D.Disk disk catalog.new drafts.new.items (dropped w number) }
{
    if let Some(draft) = taken(drafts, number) {
        draft.give_back(&mut catalog.blocks);
    }
}
