//! Finding, recovering and reading a spool.
ghost use Rattle.std.specs.Prelude.{◌≡◌, ◌⊎◌, ◌≤◌, ◌*◌, ◌↔◌};
ghost use Rattle.std.specs.Prelude.{Err, IfOk, IfErr};
ghost use Rattle.common.specs.declared.stop.Stop.{Stop};
ghost use Rattle.spool_disk.specs.Disk.{IsImage, Counts, Preserves};
ghost use Rattle.spool_disk.specs.Views.{Lasts};
ghost use Rattle.spool_journal.specs.Image.{journal_pages, all_pages, overlaid};
ghost use Rattle.spool_journal.specs.Phases.{Settled, ReadsAs};
ghost use Rattle.spool_catalog.specs.Catalog.{HasViewAlone};
ghost use Rattle.spool_catalog.specs.Loads.{LoadsAs};
ghost use Rattle.spool_catalog.specs.Shows.{IsValid, Shows};
ghost use Rattle.spool_load.specs.Loaded.{LoadsBy, OpenedFrom};
ghost use Rattle.spool_load.specs.ReadBy.{ReadsBy};
ghost use Rattle.spool_load.specs.Recovered.{LeavesRead, OfView, ReadsSame, Recovered, Unwritten};
ghost use Rattle.spool_load.specs.Refusals.{RefusedFor};
ghost use Rattle.spool_pages.specs.View.{View, IsViewOf};
ghost use Rattle.upload_rules.specs.Store.{Store};

use crate::finding::find;
use crate::loading::read;
use spool_catalog::{Catalog, OpenFault};
use spool_disk::Disk;
use spool_journal::PAGE;
use std::alloc::Global;

/// Finds a spool, recovers it and reads it. A crash during it does no harm: it may be called again.
///
/// # Errors
///
/// `NotASpool` if the first 12 bytes aren't a spool's or the disk is shorter than its layout; then those of `recover`;
/// then `Version` if the version is unknown; then `Damaged` if the spool is invalid. `NoMemory` when out of memory, and
/// `DiskFault` at a disk fault.
pub fn load<D: Disk>(alloc: Global, disk: &mut D) -> Result<Catalog, OpenFault>
    ensures size { D.size disk.new ≡ D.size disk.old }
    ensures honest { D.honest disk.old ↔ D.honest disk.new }
    ensures counts { Counts (result ≡ Err (OpenFault.Stop Stop.DiskFault)) (D.failures disk.old) (D.failures disk.new) }
    ensures room { IfOk result (λ catalog. PAGE * all_pages catalog.layout ≤ D.size disk.old) }

    // If a read gives a valid spool, that one is read into memory, unless memory or the disk refuses.
    ensures decoded { D.honest disk.old → OfView (D.size disk.old) (D.current disk.old)
        (λ v. LoadsAs result (λ catalog. HasViewAlone catalog v)) }

    // On any disk the catalog has a view, which shows uploads.
    ensures view { IfOk result (λ catalog. (v : View) × (m : Store) × HasViewAlone catalog v × Shows v m) }

    // The catalog has the view that a read gives, and it is valid. Each error has its reason.
    ensures valid { D.honest disk.old → IfOk result (OpenedFrom (D.size disk.old) (D.current disk.old)) }
    ensures refused { D.honest disk.old → IfErr result (RefusedFor (D.size disk.old) (D.current disk.old)) }

    // On any disk the answer follows from the bytes that the reads gave: they encode the view that is then in memory,
    // or are the reason of the error.
    ensures given { ReadsBy (D.reads disk.old) (D.reads disk.new)
        (λ before after. LoadsBy (D.size disk.old) before after result) }

    // All of the disk is synced then, and the gate is closed.
    ensures settled { D.honest disk.old → IfOk result (λ catalog.
        Recovered D.Disk catalog.layout disk.old disk.new) }

    // A crash leaves an image of before, or one that reads the same.
    ensures lasts { D.honest disk.old → OfView (D.size disk.old) (D.current disk.old)
        (λ v. LeavesRead D.Disk v.blocks disk.old disk.new) }

    // Without a journal to replay nothing is written: every crash image is one of before, and a read gives the same.
    ensures unwritten { D.honest disk.old → Unwritten D.Disk disk.old disk.new }
    ensures same { D.honest disk.old → ReadsSame D.Disk disk.old disk.new
        (result ≡ Err (OpenFault.Stop Stop.DiskFault)) }
{
    let found = find(disk)?;
    let catalog = read(alloc, disk, found)?;
    Ok(catalog)
}
