//! An upload gets longer, or its length: its record and its blocks, in memory and on the disk.
ghost use Rattle.std.specs.Prelude.{◌≡◌, ◌↔◌, ◌≤◌, ◌<◌, ◌*◌, ◌/◌, ℕ, List, Some, None, Ok, Err, length};
ghost use Rattle.std.specs.Prelude.{Option, get_or, OnOk};
ghost use Rattle.std.specs.Prelude.{Bool, true};
ghost use Rattle.spool_disk.specs.Disk.{Counts};
ghost use Rattle.spool_disk.specs.Views.{Lasts};
ghost use Rattle.spool_journal.specs.Image.{all_pages};
ghost use Rattle.spool_texts.specs.Drafts.{IsReserved};
ghost use Rattle.upload_rules.specs.Store.{Store, patched_store};
ghost use Rattle.spool_catalog.specs.Longer.{MayExtend, HandsOn, HasLonger};
ghost use Rattle.spool_kept.specs.Extending.{IsPending, IsLastWritten};
ghost use Rattle.spool_kept.specs.Stored.{Stored, ShowsEither};
ghost use Rattle.spool_pages.specs.View.{SlotRecord};

use common::Stop;
use spool_blocks::BlockNo;
use spool_catalog::{Catalog, Longer};
use spool_disk::Disk;
use spool_journal::PAGE;
use spool_pages::{change, fill_rows};
use spool_texts::write_last;
use std::alloc::Global;

/// An upload gets longer, or its length, on the disk and in memory: its text by these reserved blocks, which replace
/// its last, unfinished one. Where there are none its text stays. It writes the last bytes to them, once no growth is
/// left, and syncs them.
///
/// # Errors
///
/// `NoMemory` when out of memory, and then nothing has changed. `DiskFault` where the disk failed: then the
/// catalog is ahead of the disk, and the spool has to be opened again.
pub(crate) fn extend<D: Disk>(
    alloc: Global,
    disk: &mut D,
    catalog: &mut Catalog,
    longer: &Longer,
    more: &[BlockNo],
    last: &[u8],
) -> Result<(), Stop>
    requires room { PAGE * all_pages catalog.old.layout ≤ D.size disk.old }
    requires may { MayExtend catalog.old longer.now more.now }
    requires reserved { IsReserved catalog.old.blocks more.now }
    ensures size { D.size disk.new ≡ D.size disk.old }
    ensures honest { D.honest disk.old ↔ D.honest disk.new }
    ensures counts { Counts (result ≡ Err Stop.DiskFault) (D.failures disk.old) (D.failures disk.new) }
    ensures layout { catalog.new.layout ≡ catalog.old.layout }
    ensures version { catalog.new.version ≡ catalog.old.version }
    ensures unmade { result ≡ Err Stop.NoMemory → (catalog.new ≡ catalog.old) × (disk.new ≡ disk.old) }
    ensures blocks { (result ≡ Err Stop.NoMemory → ⊥)
        → HandsOn catalog.old.blocks.reserved catalog.new.blocks.reserved more.now }
    ensures longer { (result ≡ Err Stop.NoMemory → ⊥) → (r : SlotRecord)
        → get_or catalog.old.slots longer.now.slot None ≡ Some r
        → HasLonger catalog.old r longer.now more.now catalog.new }

    // The disk and the catalog represent the store with the longer upload.
    ensures answer { (sure : Bool) (m : Store) (n : ℕ) (declare : Option ℕ) (bytes : List ℕ)
        → IsPending sure D.Disk disk.old catalog.old m n declare bytes longer.now more.now last.now
        → OnOk result (Stored sure D.Disk disk.new catalog.new (patched_store m n declare bytes)) }

    // A crash during it leaves the store before or after it.
    ensures crash { (m : Store) (n : ℕ) (declare : Option ℕ) (bytes : List ℕ)
        → IsPending true D.Disk disk.old catalog.old m n declare bytes longer.now more.now last.now
        → Lasts D.Disk disk.old disk.new (ShowsEither catalog.old.layout m (patched_store m n declare bytes)) }

    // Of the text blocks only those of its text are written.
    ensures written { (sure : Bool) (m : Store) (n : ℕ) (declare : Option ℕ) (bytes : List ℕ)
        → IsPending sure D.Disk disk.old catalog.old m n declare bytes longer.now more.now last.now
        → OnOk result (IsLastWritten sure D.Disk disk.old disk.new catalog.old m n declare bytes longer.now more.now) }
{
    let mut pages = catalog.change_pages(alloc, longer, more)?;
    catalog.take_over(longer, more)?;
    fill_rows(&mut pages, &catalog.layout, catalog.blocks.rows());
    // After the last growth the first write comes.
    write_last(disk, &catalog.layout, more, last)?;
    change(disk, &catalog.layout, &pages)?;
    Ok(())
}
