//! A disk's life, from its formatting on.
ghost use Rattle.std.specs.Prelude.{◌≡◌, ◌↔◌, ℕ, List, IsOk, IfOk, IfErr};
ghost use Rattle.spool_disk.specs.Disk.{Counts, IsImage, Preserves};
ghost use Rattle.spool_disk.specs.Views.{Lasts};
ghost use Rattle.spool_image.specs.Format.{FitsSpool, HasMagic, LeftByFormat};
ghost use Rattle.upload_rules.specs.Store.{Store, no_uploads};
ghost use Rattle.gateway_engine.specs.RanOn.{AllShowOne};
ghost use Rattle.gateway_rounds.specs.Making.{IsUnwritten, RefusesSpool};
ghost use Rattle.gateway_rounds.specs.Rounds.{HasLived, Lives};

use crate::Round;
use crate::round::live;
use enc_index::IndexSet;
use spool_disk::CrashDisk;
use spool_image::{FormatError, format};
use std::alloc::Global;

/// Makes a spool of so many text blocks on a disk, and then lives through the rounds, one after the other. In each the
/// disk is opened and the script is run over it, or it is brought to version 2, or it gets a later next number. This
/// ends by itself, or at the call at which the disk stops. Then the disk goes on with one of the images that a crash
/// leaves, or as it is. What came of each round is in it afterwards.
///
/// # Errors
///
/// As `format`, and the disk comes back. Then no round was begun. If the disk was formatted, no round is left out, and
/// none refuses to open the disk, unless memory or the disk refuses.
pub fn endure<D: CrashDisk>(
    alloc: Global,
    disk: D,
    blocks: u32,
    indexes: &IndexSet,
    rounds: &mut [Round<D::How>],
) -> Result<D, (D, FormatError)>
    // After each run the disk has the uploads after the first events of its script, in order. Each of them is whole and
    // has its text. Each event of which a reply was written is one of these events. An upgrade changes no upload, and
    // after one that was done the disk has a valid spool of version 2. Nor does a raise, and after one that was done no
    // number below is given.
    ensures lives { D.honest disk → IfOk result
        (λ last. HasLived D.Disk D.chosen disk blocks (no_uploads indexes.now) rounds.old rounds.new last) }

    // It is refused where `format` is, and then no round was begun.
    ensures fits { IsOk result → FitsSpool blocks (D.size disk) }
    ensures already { D.honest disk
        → IfErr result (λ e. e.1 ≡ FormatError.AlreadySpool → HasMagic (D.size disk) (D.current disk)) }
    ensures no_spool { D.honest disk → HasMagic (D.size disk) (D.current disk) → RefusesSpool result }
    ensures too_long { IfErr result (λ e. e.1 ≡ FormatError.Size → FitsSpool blocks (D.size disk) → ⊥) }
    ensures counts { IfErr result (λ e. Counts (e.1 ≡ FormatError.DiskFault) (D.failures disk) (D.failures e.0)) }
    ensures unbegun { IfErr result (λ e. rounds.new ≡ rounds.old) }

    // The disk then comes back as `format` left it.
    ensures size { IfErr result (λ e. D.size e.0 ≡ D.size disk) }
    ensures honest { IfErr result (λ e. D.honest disk ↔ D.honest e.0) }
    ensures same { D.honest disk → IfErr result (λ e. IsUnwritten e.1
        → Preserves (D.current disk) (D.current e.0) (D.unsynced disk) (D.unsynced e.0)) }
    ensures lasts { D.honest disk → IfErr result (λ e. IsUnwritten e.1
        → Lasts D.Disk disk e.0 (IsImage (D.current disk) (D.unsynced disk))) }
    ensures crash { D.honest disk → IfErr result (λ e.
        Lasts D.Disk disk e.0 (LeftByFormat blocks indexes.now (D.current disk) (D.unsynced disk))) }
{
    let mut disk = disk;
    match format(&mut disk, blocks, indexes) {
        Ok(()) => Ok(live_through(alloc, disk, rounds)),
        Err(fault) => Err((disk, fault)),
    }
}

/// Lives through the rounds as `endure` does, on a disk of which every image shows one of some stores, in either
/// version. Such a disk is one whose images all show the same uploads.
pub fn live_through<D: CrashDisk>(alloc: Global, disk: D, rounds: &mut [Round<D::How>]) -> D
    ensures { (n : ℕ) (stores : List Store) → AllShowOne D.Disk disk n stores
        → (last : List Store) × Lives D.Disk D.chosen n disk stores rounds.old rounds.new result last }
{
    let mut disk = disk;
    for i in 0..rounds.len() {
        disk = live(alloc, disk, &mut rounds[i]);
    }
    disk
}
