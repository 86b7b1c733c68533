//! Upgrading a spool to version 2.
ghost use Rattle.std.specs.Prelude.{◌≡◌, ◌⊎◌, ◌≤◌, ◌*◌, ◌↔◌, ℕ, Err, IfOk, IfErr, OnOk};
ghost use Rattle.common.specs.declared.stop.Stop.{Stop};
ghost use Rattle.spool_disk.specs.Disk.{Counts, IsImage, Preserves};
ghost use Rattle.spool_disk.specs.Views.{Lasts};
ghost use Rattle.spool_journal.specs.Image.{all_pages, journal_pages, overlaid};
ghost use Rattle.spool_journal.specs.Phases.{ReadsAs, Settled};
ghost use Rattle.upload_rules.specs.Store.{Store};
ghost use Rattle.spool_catalog.specs.Catalog.{HasViewAlone, HasView};
ghost use Rattle.spool_catalog.specs.Shows.{IsValid};
ghost use Rattle.spool_load.specs.Loaded.{OpenedFrom};
ghost use Rattle.spool_load.specs.Reads.{NeedsReplay};
ghost use Rattle.spool_load.specs.Recovered.{LeavesRead, OfView, ReadsSame, Recovered, Unwritten};
ghost use Rattle.spool_catalog.specs.declared.error.OpenFault.{OpenFault};
ghost use Rattle.spool_load.specs.Refusals.{HasOtherVersion, IsNoSpool};
ghost use Rattle.spool_pages.specs.Changes.{upgraded};
ghost use Rattle.spool_pages.specs.Rests.{Rests};
ghost use Rattle.spool_pages.specs.View.{View, IsViewOf};
ghost use Rattle.spool_pages.specs.declared.version.Version.{Version};
ghost use Rattle.spool_image.specs.LeftOnly.{AllShow, IsSpool, LeftOrShows};
ghost use Rattle.spool_image.specs.Upgrade.{CommitOfUpgrade, IsAlreadyNew, IsLateRefusal, IsOldDamaged};
ghost use Rattle.spool_image.specs.Opening.{ReadsBy};
ghost use Rattle.spool_image.specs.Upgrade.{RefusesUpgradeAs, UpgradedFrom, UpgradeRefusedFor, UpgradesBy, UpgradesOf};

use crate::UpgradeError;
use spool_catalog::Catalog;
use spool_disk::Disk;
use spool_journal::PAGE;
use spool_load::{find, read};
use spool_pages::{Version, change};
use std::alloc::Global;

// Finds, recovers and reads a spool of version 1.
fn load_old<D: Disk>(alloc: Global, disk: &mut D) -> Result<Catalog, UpgradeError>
    ensures size { D.size disk.new ≡ D.size disk.old }
    ensures honest { D.honest disk.old ↔ D.honest disk.new }
    ensures counts { Counts (result ≡ Err (UpgradeError.Open (OpenFault.Stop Stop.DiskFault))) (D.failures disk.old)
        (D.failures disk.new) }
    ensures room { IfOk result (λ catalog. PAGE * all_pages catalog.layout ≤ D.size disk.old) }
    ensures decoded { D.honest disk.old → OfView (D.size disk.old) (D.current disk.old)
        (λ v. UpgradesOf v.version result) }
    ensures has { D.honest disk.old → OfView (D.size disk.old) (D.current disk.old)
        (λ v. IfOk result (λ catalog. HasViewAlone catalog v)) }
    ensures valid { D.honest disk.old → IfOk result (OpenedFrom (D.size disk.old) (D.current disk.old)) }
    ensures version { IfOk result (λ catalog. catalog.version ≡ Version.One) }
    ensures refused { D.honest disk.old → IfErr result (UpgradeRefusedFor (D.size disk.old) (D.current disk.old)) }
    ensures settled { D.honest disk.old → IfOk result (λ catalog.
        Recovered D.Disk catalog.layout disk.old disk.new) }
    ensures stays { D.honest disk.old → OfView (D.size disk.old) (D.current disk.old)
        (λ v. IfErr result (λ e. (e ≡ UpgradeError.Open (OpenFault.Stop Stop.DiskFault) → ⊥)
        → Rests v (D.current disk.new) (D.unsynced disk.new))) }
    ensures lasts { D.honest disk.old → OfView (D.size disk.old) (D.current disk.old)
        (λ v. LeavesRead D.Disk v.blocks disk.old disk.new) }
    ensures unwritten { D.honest disk.old → Unwritten D.Disk disk.old disk.new }
    ensures same { D.honest disk.old → ReadsSame D.Disk disk.old disk.new
        (result ≡ Err (UpgradeError.Open (OpenFault.Stop Stop.DiskFault))) }
    ensures given { ReadsBy (D.reads disk.old) (D.reads disk.new) (UpgradesBy (D.size disk.old) result) }
{
    let found = find(disk)?;
    if found.version == Version::Two {
        return Err(UpgradeError::AlreadyNew);
    }
    let catalog = read(alloc, disk, found)?;
    Ok(catalog)
}

// Upgrades a spool at rest.
fn rewrite<D: Disk>(alloc: Global, disk: &mut D, catalog: &Catalog) -> Result<(), UpgradeError>
    requires { PAGE * all_pages catalog.now.layout ≤ D.size disk.old }
    ensures size { D.size disk.new ≡ D.size disk.old }
    ensures honest { D.honest disk.old ↔ D.honest disk.new }
    ensures counts { Counts (result ≡ Err (UpgradeError.Open (OpenFault.Stop Stop.DiskFault))) (D.failures disk.old)
        (D.failures disk.new) }
    ensures reads { D.reads disk.new ≡ D.reads disk.old }
    ensures done { D.honest disk.old → (v : View) → HasView catalog.now v
        → Rests v (D.current disk.old) (D.unsynced disk.old)
        → OnOk result (Rests (upgraded v) (D.current disk.new) (D.unsynced disk.new)) }
    ensures commit { D.honest disk.old → (v : View) → HasView catalog.now v
        → Rests v (D.current disk.old) (D.unsynced disk.old)
        → OnOk result (CommitOfUpgrade v (D.current disk.old) (D.current disk.new) (D.unsynced disk.new)) }
    ensures late { IfErr result IsLateRefusal }
    ensures lasts { D.honest disk.old → (v : View) → HasView catalog.now v
        → Rests v (D.current disk.old) (D.unsynced disk.old)
        → Lasts D.Disk disk.old disk.new (λ image. IsViewOf image v ⊎ IsViewOf image (upgraded v)) }
    ensures untouched { IfErr result (λ e. (e ≡ UpgradeError.Open (OpenFault.Stop Stop.DiskFault) → ⊥)
        → disk.new ≡ disk.old) }
{
    let pages = catalog.pages_of_upgrade(alloc)?;
    change(disk, catalog.layout(), &pages)?;
    Ok(())
}

/// Upgrades a spool to version 2, by one commit of its state page and its 256 pages of records. There is no way back. A
/// crash during it does no harm: it may be called again, or the spool opened.
///
/// # Errors
///
/// `Open(NotASpool)`; then those of `recover`; then `Open(Version)`; then `AlreadyNew` if the spool has version 2; then
/// `Open(Damaged)`: each as in `Spool::open`. `Open(Stop)` when out of memory or at a disk fault.
/// Without a disk fault an error changes nothing except by the recovery.
pub fn upgrade<D: Disk>(alloc: Global, disk: &mut D) -> Result<(), UpgradeError>
    ensures size { D.size disk.new ≡ D.size disk.old }
    ensures honest { D.honest disk.old ↔ D.honest disk.new }
    ensures counts { Counts (result ≡ Err (UpgradeError.Open (OpenFault.Stop Stop.DiskFault))) (D.failures disk.old)
        (D.failures disk.new) }

    // If a read gives a valid spool of version 1, it is upgraded, unless memory or the disk refuses.
    ensures upgraded { D.honest disk.old → OfView (D.size disk.old) (D.current disk.old)
        (λ v. UpgradesOf v.version result) }

    // It was a valid spool of version 1, and each crash image now has the same view in version 2. One commit of 257
    // pages did this; nothing else changed in the plain reading.
    ensures valid { D.honest disk.old
        → OnOk result (UpgradedFrom (D.size disk.old) (D.current disk.old) (D.current disk.new) (D.unsynced disk.new)) }

    // Each error has its reason, and each reason leads to its error, unless memory or the disk refuses.
    ensures refused { D.honest disk.old → IfErr result (UpgradeRefusedFor (D.size disk.old) (D.current disk.old)) }
    ensures not_a_spool { D.honest disk.old → IsNoSpool (D.size disk.old) (D.current disk.old)
        → RefusesUpgradeAs result (UpgradeError.Open OpenFault.NotASpool) }
    ensures version { D.honest disk.old → HasOtherVersion (D.size disk.old) (D.current disk.old)
        → RefusesUpgradeAs result (UpgradeError.Open OpenFault.Version) }
    ensures already_new { D.honest disk.old → IsAlreadyNew (D.size disk.old) (D.current disk.old)
        → RefusesUpgradeAs result UpgradeError.AlreadyNew }
    ensures damaged { D.honest disk.old → IsOldDamaged (D.size disk.old) (D.current disk.old)
        → RefusesUpgradeAs result (UpgradeError.Open OpenFault.Damaged) }

    // On any disk it answers by what its reads gave.
    ensures given { ReadsBy (D.reads disk.old) (D.reads disk.new) (UpgradesBy (D.size disk.old) result) }

    // An error leaves what a read gives, in the old version.
    ensures stays { D.honest disk.old → OfView (D.size disk.old) (D.current disk.old)
        (λ v. IfErr result (λ e. (e ≡ UpgradeError.Open (OpenFault.Stop Stop.DiskFault) → ⊥)
        → Rests v (D.current disk.new) (D.unsynced disk.new))) }

    // An error writes nothing if no journal has to be replayed, whatever is on the disk.
    ensures unwritten { D.honest disk.old → (NeedsReplay (D.size disk.old) (D.current disk.old) → ⊥)
        → IfErr result (λ e. (e ≡ UpgradeError.Open (OpenFault.Stop Stop.DiskFault) → ⊥)
        → Lasts D.Disk disk.old disk.new (IsImage (D.current disk.old) (D.unsynced disk.old))) }
    ensures same { D.honest disk.old → (NeedsReplay (D.size disk.old) (D.current disk.old) → ⊥)
        → IfErr result (λ e. (e ≡ UpgradeError.Open (OpenFault.Stop Stop.DiskFault) → ⊥)
        → Preserves (D.current disk.old) (D.current disk.new) (D.unsynced disk.old) (D.unsynced disk.new)) }

    // A crash leaves an image of before, or the same view in the old version or in version 2.
    ensures lasts { D.honest disk.old → (v : View) → IsValid v → IsViewOf (D.current disk.old) v
        → PAGE * all_pages v.blocks ≤ D.size disk.old → Lasts D.Disk disk.old disk.new (λ image.
        IsImage (D.current disk.old) (D.unsynced disk.old) image ⊎ IsViewOf image v ⊎ IsViewOf image (upgraded v)) }

    // So each crash image is one possible before, or shows the same uploads and block count.
    ensures crash { (n : ℕ) (m : Store) → IsSpool D.Disk disk.old n m
        → Lasts D.Disk disk.old disk.new (LeftOrShows D.Disk disk.old n m) }

    // Afterwards every crash image shows them, unless there was a disk fault.
    ensures shows { (n : ℕ) (m : Store) → IsSpool D.Disk disk.old n m
        → (result ≡ Err (UpgradeError.Open (OpenFault.Stop Stop.DiskFault)) → ⊥) → AllShow D.Disk disk.new n m }
{
    let catalog = load_old(alloc, disk)?;
    rewrite(alloc, disk, &catalog)
}
