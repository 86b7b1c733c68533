//! Giving a spool a later next number.
ghost use Rattle.std.specs.Prelude.{◌≡◌, ◌⊎◌, ◌≤◌, ◌<◌, ◌*◌, ◌↔◌, ℕ, max, Err, IfOk, IfErr, OnOk};
ghost use Rattle.common.specs.declared.stop.Stop.{Stop};
ghost use Rattle.spool_disk.specs.Disk.{Counts, IsImage, Preserves};
ghost use Rattle.spool_disk.specs.Views.{Lasts};
ghost use Rattle.spool_journal.specs.Image.{all_pages};
ghost use Rattle.upload_rules.specs.Store.{Store};
ghost use Rattle.spool_catalog.specs.Catalog.{HasView};
ghost use Rattle.spool_catalog.specs.Raising.{raised};
ghost use Rattle.spool_catalog.specs.Shows.{IsValid};
ghost use Rattle.spool_catalog.specs.declared.error.OpenFault.{OpenFault};
ghost use Rattle.spool_load.specs.Reads.{NeedsReplay};
ghost use Rattle.spool_load.specs.Recovered.{OfView};
ghost use Rattle.spool_load.specs.Refusals.{HasOtherVersion, IsDamaged, IsNoSpool};
ghost use Rattle.spool_pages.specs.Changes.{with_next};
ghost use Rattle.spool_pages.specs.Rests.{Rests};
ghost use Rattle.spool_pages.specs.View.{View, IsViewOf};
ghost use Rattle.spool_image.specs.LeftOnly.{AllShow, IsSpool};
ghost use Rattle.spool_image.specs.Opening.{ReadsBy};
ghost use Rattle.spool_image.specs.Raise.{CommitOfRaise, IsStopOfRaise, LeftOrRaised, MayRaise, RaisedFrom};
ghost use Rattle.spool_image.specs.Raise.{RaiseRefusedFor, RaisesBy, RefusesRaiseAs, latest};

use crate::RaiseError;
use spool_catalog::Catalog;
use spool_disk::Disk;
use spool_journal::PAGE;
use spool_load::load;
use spool_pages::change;
use std::alloc::Global;
use upload_rules::NUMBERS_END;

/// The latest next number that a spool is given: 10^15 numbers are left then, since nothing lowers it again.
pub const LATEST: u64 = NUMBERS_END - 1_000_000_000_000_000;

// Gives a spool at rest this next number, unless its own is as late or later: the later of the two.
fn put_next<D: Disk>(
    alloc: Global,
    disk: &mut D,
    catalog: &Catalog,
    number: u64,
) -> Result<u64, RaiseError>
    requires { PAGE * all_pages catalog.now.layout ≤ D.size disk.old }
    ensures size { D.size disk.new ≡ D.size disk.old }
    ensures honest { D.honest disk.old ↔ D.honest disk.new }
    ensures counts { Counts (result ≡ Err (RaiseError.Open (OpenFault.Stop Stop.DiskFault))) (D.failures disk.old)
        (D.failures disk.new) }
    ensures reads { D.reads disk.new ≡ D.reads disk.old }
    ensures stopped { IfErr result IsStopOfRaise }
    ensures later { IfOk result (λ next. next ≡ max catalog.now.next number) }
    ensures done { D.honest disk.old → (v : View) → HasView catalog.now v
        → Rests v (D.current disk.old) (D.unsynced disk.old)
        → IfOk result (λ next. Rests (with_next v next) (D.current disk.new) (D.unsynced disk.new)) }
    ensures commit { D.honest disk.old → (v : View) → HasView catalog.now v
        → Rests v (D.current disk.old) (D.unsynced disk.old)
        → OnOk result (((number ≤ v.next) × (disk.new ≡ disk.old)) ⊎ ((v.next < number)
        × CommitOfRaise v number (D.current disk.old) (D.current disk.new) (D.unsynced disk.new))) }
    ensures lasts { D.honest disk.old → (v : View) → HasView catalog.now v
        → Rests v (D.current disk.old) (D.unsynced disk.old) → Lasts D.Disk disk.old disk.new (λ image.
        IsViewOf image v ⊎ (MayRaise result × (v.next < number) × IsViewOf image (with_next v number))) }
    ensures untouched { IfErr result (λ e. (e ≡ RaiseError.Open (OpenFault.Stop Stop.DiskFault) → ⊥)
        → disk.new ≡ disk.old) }
{
    let next = catalog.next_number();
    if number <= next {
        return Ok(next);
    }
    let pages = catalog.pages_of_next(alloc, number)?;
    change(disk, catalog.layout(), &pages)?;
    Ok(number)
}

/// Gives a spool this next number, by one commit of its state page, unless its own is as late or later: the later of
/// the two. No upload changes, and no number below it is given again. A crash during it does no harm: it may be called
/// again, or the spool opened.
///
/// # Errors
///
/// `TooLarge` if the number is above `LATEST`; then `Open(NotASpool)`; then those of `recover`; then `Open(Version)`;
/// then `Open(Damaged)`: each as in `Spool::open`. `Open(Stop)` when out of memory or at a disk fault. Without a disk
/// fault an error changes nothing except by the recovery.
pub fn raise<D: Disk>(alloc: Global, disk: &mut D, number: u64) -> Result<u64, RaiseError>
    ensures size { D.size disk.new ≡ D.size disk.old }
    ensures honest { D.honest disk.old ↔ D.honest disk.new }
    ensures counts { Counts (result ≡ Err (RaiseError.Open (OpenFault.Stop Stop.DiskFault))) (D.failures disk.old)
        (D.failures disk.new) }

    // A number that would leave fewer than 10^15 is refused before anything is asked of the disk.
    ensures too_large { latest < number → (disk.new ≡ disk.old) × (result ≡ Err RaiseError.TooLarge) }

    // If a read gives a valid spool, it gets the later number, unless memory or the disk refuses.
    ensures raises { D.honest disk.old → number ≤ latest → OfView (D.size disk.old) (D.current disk.old)
        (λ v. IfErr result IsStopOfRaise) }

    // It was a valid spool, and each crash image now has the same view with the later number, which is the answer. At
    // most one commit of one page did this; nothing else changed in the plain reading.
    ensures valid { D.honest disk.old → IfOk result (RaisedFrom (D.size disk.old) number (D.current disk.old)
        (D.current disk.new) (D.unsynced disk.new)) }

    // Each error has its reason, and each reason leads to its error, unless memory or the disk refuses.
    ensures refused { D.honest disk.old
        → IfErr result (RaiseRefusedFor (D.size disk.old) number (D.current disk.old)) }
    ensures not_a_spool { D.honest disk.old → number ≤ latest → IsNoSpool (D.size disk.old) (D.current disk.old)
        → RefusesRaiseAs result OpenFault.NotASpool }
    ensures version { D.honest disk.old → number ≤ latest → HasOtherVersion (D.size disk.old) (D.current disk.old)
        → RefusesRaiseAs result OpenFault.Version }
    ensures damaged { D.honest disk.old → number ≤ latest → IsDamaged (D.size disk.old) (D.current disk.old)
        → RefusesRaiseAs result OpenFault.Damaged }

    // On any disk it answers by what its reads gave.
    ensures given { ReadsBy (D.reads disk.old) (D.reads disk.new) (RaisesBy (D.size disk.old) number result) }

    // An error writes nothing if no journal has to be replayed, whatever is on the disk.
    ensures unwritten { D.honest disk.old → (NeedsReplay (D.size disk.old) (D.current disk.old) → ⊥)
        → IfErr result (λ e. (e ≡ RaiseError.Open (OpenFault.Stop Stop.DiskFault) → ⊥)
        → Lasts D.Disk disk.old disk.new (IsImage (D.current disk.old) (D.unsynced disk.old))) }
    ensures same { D.honest disk.old → (NeedsReplay (D.size disk.old) (D.current disk.old) → ⊥)
        → IfErr result (λ e. (e ≡ RaiseError.Open (OpenFault.Stop Stop.DiskFault) → ⊥)
        → Preserves (D.current disk.old) (D.current disk.new) (D.unsynced disk.old) (D.unsynced disk.new)) }

    // A crash leaves an image of before, or the same view, or that with the later number. So it shows the same uploads,
    // and the later number only where it was given or the disk failed.
    ensures lasts { D.honest disk.old → (v : View) → IsValid v → IsViewOf (D.current disk.old) v
        → PAGE * all_pages v.blocks ≤ D.size disk.old → Lasts D.Disk disk.old disk.new (λ image.
        IsImage (D.current disk.old) (D.unsynced disk.old) image ⊎ IsViewOf image v
        ⊎ (MayRaise result × (v.next < number) × IsViewOf image (with_next v number))) }
    ensures crash { (n : ℕ) (m : Store) → IsSpool D.Disk disk.old n m
        → Lasts D.Disk disk.old disk.new (LeftOrRaised D.Disk disk.old n number m result) }

    // Afterwards every crash image shows them with the later number.
    ensures shows { (n : ℕ) (m : Store) → IsSpool D.Disk disk.old n m
        → IfOk result (λ next. (next ≡ max m.next number) × AllShow D.Disk disk.new n (raised m next)) }
{
    if number > LATEST {
        return Err(RaiseError::TooLarge);
    }
    let catalog = load(alloc, disk)?;
    put_next(alloc, disk, &catalog, number)
}
