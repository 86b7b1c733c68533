//! The uploads of a spool, line by line.

ghost use Rattle.std.specs.Prelude.{◌≡◌, ◌⊎◌, ℕ, Err, IfErr, IfOk, IsErrAnd, IsErrOf, IsOk, None, OnOk, Bool};
ghost use Rattle.std.specs.Io.KnownBytes.{Appends};
ghost use Rattle.common.specs.declared.stop.Stop.{Stop};
ghost use Rattle.spool_disk.specs.Disk.{Counts, IsImage};
ghost use Rattle.spool_disk.specs.Views.{Lasts};
ghost use Rattle.upload_rules.specs.Store.{Store};
ghost use Rattle.upload_rules.specs.World.{World};
ghost use Rattle.spool_load.specs.Reads.{NeedsReplay};
ghost use Rattle.spool_load.specs.Refusals.{HasOtherVersion, IsDamaged, IsNoSpool};
ghost use Rattle.spool_image.specs.LeftOnly.{AllShow, IsSpool, LeftOrShows};
ghost use Rattle.spool_image.specs.Opening.{ReadsBy};
ghost use Rattle.gateway_outside.specs.declared.faults.Fault.{Fault};
ghost use Rattle.gateway_outside.specs.Failures.{fault_in};
ghost use Rattle.gateway_outside.specs.InOrder.{IsInOrder};
ghost use Rattle.gateway_outside.specs.Listing.{AnswersAs, IsLineFault, ListRefusedFor, IsListResult, RefusesListAs};
ghost use Rattle.gateway_outside.specs.SpoolFiles.{Disks, Leaves, with_disk};
ghost use Rattle.gateway_list.specs.Listed.{ListedIn, ListsAt};
ghost use Rattle.gateway_list.specs.Lines.{list_lines};

use crate::losses::tell_losses;
use crate::upload_lines::lines_of;
use gateway_indexes::{Survey, open_surveyed, report_free, report_indexes};
use gateway_outside::{Failure, Fault, Output, SpoolFiles, open_in, refused_by};
use spool_disk::Disk;
use std::alloc::Global;
use upload_rules::Uploads;

/// Prints the uploads of the spool in the file at this path, by number, with their metadata or without. It tells how
/// much of the spool is free, which indexes it hasn't or are others than the standard's, and, with the metadata, which
/// texts have U+FFFD.
pub fn list_in<'a, F: SpoolFiles, W: Output, E: Output>(
    alloc: Global,
    files: &mut F,
    output: &mut W,
    errors: &mut E,
    path: &'a str,
    long: bool,
) -> Result<(), Failure<'a>>
    // The file was opened, and its uploads listed with what `list_on` promises; then, with the metadata, their texts
    // were read with what `losses_on` promises. Or the one call that was to open it failed, and nothing was printed.
    // The other files stay.
    ensures lists { ListsAt F.File.Disk (F.holds files.old) (F.holds files.new) (F.unopened files.old)
        (F.unopened files.new) path.now (W.contents output.old) (W.contents output.new) result long }

    // `Io` is answered exactly where the output refused: what can't be told is left out.
    ensures io { Counts (IsErrAnd result (λ failure. fault_in failure ≡ Fault.Io)) (W.refusals output.old)
        (W.refusals output.new) }
{
    let disk = match open_in(files, path) {
        Ok(disk) => disk,
        Err(failure) => return Err(failure),
    };
    list_at(alloc, files, output, errors, path, disk, long)
}

// Lists the spool at this path, which is open, as `list_in` does. It is closed.
fn list_at<'a, F: SpoolFiles, W: Output, E: Output>(
    alloc: Global,
    files: &mut F,
    output: &mut W,
    errors: &mut E,
    path: &'a str,
    disk: F::File,
    long: bool,
) -> Result<(), Failure<'a>>
    ensures lists { (disks : Disks F.File) → F.holds files.old (with_disk disks path.now None)
        → Leaves (F.holds files.new) disks path.now
        (ListedIn F.File.Disk disk long (W.contents output.old) (W.contents output.new) result) }
    ensures io { Counts (IsErrAnd result (λ failure. fault_in failure ≡ Fault.Io)) (W.refusals output.old)
        (W.refusals output.new) }
{
    let (disk, listed) = list_on(alloc, output, disk, long);
    match listed {
        Ok(survey) => {
            // What isn't taken is left out.
            drop(report_free(errors, &survey));
            drop(report_indexes(errors, &survey.indexes));
            return tell_losses(alloc, files, errors, path, disk, long);
        }
        Err(fault) => return Err(refused_by(files, fault, output.error(), path, disk)),
    }
}

/// Writes a line for each upload of the spool on a disk, by number, with its metadata or without, and surveys the
/// spool. The disk is handed back.
pub fn list_on<D: Disk + Drop, W: Output>(
    alloc: Global,
    writer: &mut W,
    disk: D,
    long: bool,
) -> (D, Result<Survey, Fault>)
    // What was written is the lines of the uploads that the disk shows, and it shows them still.
    ensures lines { (n : ℕ) (m : Store) → IsSpool D.Disk disk n m
        → OnOk result.1 (Appends (W.contents writer.old) (W.contents writer.new) (list_lines long m)) }
    ensures shows { (n : ℕ) (m : Store) → IsSpool D.Disk disk n m → IsOk result.1 → AllShow D.Disk result.0 n m }
    ensures blocks { (n : ℕ) (m : Store) → IsSpool D.Disk disk n m → IfOk result.1 (λ survey. survey.blocks ≡ n) }

    // A crash during it leaves what it might have left before, or what shows the same uploads.
    ensures lasts { (n : ℕ) (m : Store) → IsSpool D.Disk disk n m
        → Lasts D.Disk disk result.0 (LeftOrShows D.Disk disk n m) }

    // Where no journal is to be replayed, nothing is written to the disk: a crash leaves what it might have left
    // before.
    ensures unwritten { D.honest disk → (NeedsReplay (D.size disk) (D.current disk) → ⊥)
        → Lasts D.Disk disk result.0 (IsImage (D.current disk) (D.unsynced disk)) }

    // A spool is listed, unless memory, the disk or the writer refuses it.
    ensures listed { (n : ℕ) (m : Store) → IsSpool D.Disk disk n m → IsListResult result.1 }

    // On any disk it answers by what the reads of its opening gave: for the uploads of the view that they encode.
    ensures given { ReadsBy (D.reads disk) (D.reads result.0) (AnswersAs
        (λ m. Appends (W.contents writer.old) (W.contents writer.new) (list_lines long m)) (D.size disk) result.1) }

    // Each refusal has its reason, and each reason is answered so, unless memory or the disk refuses it.
    ensures refused { D.honest disk → IfErr result.1 (ListRefusedFor (D.size disk) (D.current disk)) }
    ensures not_a_spool { D.honest disk → IsNoSpool (D.size disk) (D.current disk)
        → RefusesListAs result.1 Fault.NotASpool }
    ensures version { D.honest disk → HasOtherVersion (D.size disk) (D.current disk)
        → RefusesListAs result.1 Fault.Version }
    ensures damaged { D.honest disk → IsDamaged (D.size disk) (D.current disk) → RefusesListAs result.1 Fault.Damaged }
    ensures counts { Counts (result.1 ≡ Err (Fault.Stop Stop.DiskFault)) (D.failures disk) (D.failures result.0) }

    // `Io` is answered exactly where the writer refused.
    ensures io { Counts (IsErrOf result.1 Fault.Io) (W.refusals writer.old) (W.refusals writer.new) }
{
    match open_surveyed(alloc, disk) {
        Ok((spool, survey)) => {
            let written = write_uploads(alloc, writer, &spool, long);
            let disk = spool.into_disk();
            match written {
                Ok(()) => (disk, Ok(survey)),
                Err(fault) => (disk, Err(fault)),
            }
        }
        Err((disk, fault)) => (disk, Err(Fault::from(fault))),
    }
}

/// Writes a line for each upload, by number, with its metadata or without: all of them at once.
///
/// Refused with `Stop(NoMemory)` before anything was written, and with `Io` where the writer refused.
pub fn write_uploads<W: Output, U: Uploads>(
    alloc: Global,
    writer: &mut W,
    uploads: &U,
    long: bool,
) -> Result<(), Fault>
    // On any disk: for the uploads that they represent.
    ensures lines { (sure : Bool) (w : World) → U.represents uploads.now sure w → IsInOrder w.store
        → OnOk result (Appends (W.contents writer.old) (W.contents writer.new) (list_lines long w.store)) }
    ensures refused { IfErr result IsLineFault }
    ensures io { Counts (IsErrOf result Fault.Io) (W.refusals writer.old) (W.refusals writer.new) }
{
    let lines = lines_of(alloc, uploads, long)?;
    writer.put(lines.as_bytes())?;
    Ok(())
}
