//! The uploads of a spool as lines of JSON.

ghost use Rattle.std.specs.Prelude.{◌≡◌, [], ◌∷◌, ℕ, Bool, Err, IfErr, IsErrAnd, IsErrOf, IsOk, List, None, OnOk};
ghost use Rattle.std.specs.Io.KnownBytes.{Appends};
ghost use Rattle.common.specs.Given.{MoreReads};
ghost use Rattle.common.specs.declared.stop.Stop.{Stop};
ghost use Rattle.upload_rules.specs.Answers.{Counts, Quiet};
ghost use Rattle.upload_rules.specs.Store.{Store};
ghost use Rattle.upload_rules.specs.World.{World};
ghost use Rattle.spool_load.specs.Refusals.{HasOtherVersion, IsDamaged, IsNoSpool};
ghost use Rattle.spool_image.specs.LeftOnly.{AllShow, IsSpool};
ghost use Rattle.spool_image.specs.Opening.{OpeningReadsBy};
ghost use Rattle.gateway_outside.specs.declared.faults.Fault.{Fault};
ghost use Rattle.gateway_outside.specs.Changing.{IsChangeFault, IsChangeResult};
ghost use Rattle.gateway_outside.specs.Failures.{fault_in};
ghost use Rattle.gateway_outside.specs.Leaving.{LeavesOne};
ghost use Rattle.gateway_outside.specs.Listing.{AnswersAs, IsLineFault, ListRefusedFor, RefusesListAs};
ghost use Rattle.gateway_outside.specs.SpoolFiles.{Disks, Leaves, with_disk};
ghost use Rattle.gateway_outside.specs.InOrder.{IsInOrder};
ghost use Rattle.gateway_list.specs.Json.{AppendsLine, WritesJson, WritesLines};
ghost use Rattle.gateway_list.specs.Listed.{JsonAt, ReadsTextsIn};

use crate::json_heads::head_of;
use crate::losses::losses_in;
use common::Stop;
use enc_model::Encoding;
use gateway_indexes::{Doubtful, doubtful_of};
use gateway_outside::{Failure, Fault, Output, SpoolFiles, open_in, refused_by};
use serde::Serialize;
use spool_disk::Disk;
use spool_image::Spool;
use std::alloc::Global;
use upload_rules::Uploads;

/// The last line: which of the spool's indexes are in doubt.
#[derive(Drop, Serialize)]
struct IndexesLine {
    indexes: Doubtful,
}

/// Prints a line of JSON for each upload of the spool in the file at this path, by number, and one for its indexes.
/// Each text is read for that.
pub fn json_in<'a, F: SpoolFiles, W: Output>(
    alloc: Global,
    files: &mut F,
    output: &mut W,
    path: &'a str,
) -> Result<(), Failure<'a>>
    // The file was opened, and its uploads and their texts read with what `json_on` promises; or the one call that was
    // to open it failed, and nothing was printed. The other files stay.
    ensures reads { JsonAt F.File.Disk (F.holds files.old) (F.holds files.new) (F.unopened files.old)
        (F.unopened files.new) path.now (W.contents output.old) (W.contents output.new) result }

    // `Io` is answered exactly where the output refused.
    ensures io { Counts (IsErrAnd result (λ failure. fault_in failure ≡ Fault.Io)) (W.refusals output.old)
        (W.refusals output.new) }
{
    let disk = match open_in(files, path) {
        Ok(disk) => disk,
        Err(failure) => return Err(failure),
    };
    json_at(alloc, files, output, path, disk)
}

// Prints the lines of the spool at this path, which is open, as `json_in` does. It is closed.
fn json_at<'a, F: SpoolFiles, W: Output>(
    alloc: Global,
    files: &mut F,
    output: &mut W,
    path: &'a str,
    disk: F::File,
) -> Result<(), Failure<'a>>
    ensures reads { (disks : Disks F.File) → F.holds files.old (with_disk disks path.now None)
        → Leaves (F.holds files.new) disks path.now
        (ReadsTextsIn F.File.Disk disk (WritesJson (W.contents output.old) (W.contents output.new)) result) }
    ensures io { Counts (IsErrAnd result (λ failure. fault_in failure ≡ Fault.Io)) (W.refusals output.old)
        (W.refusals output.new) }
{
    let (disk, written) = json_on(alloc, output, disk);
    match written {
        Ok(()) => {
            files.close(path, disk);
            return Ok(());
        }
        Err(fault) => return Err(refused_by(files, fault, output.error(), path, disk)),
    }
}

/// Writes a line of JSON for each upload of the spool on a disk, by number, and one for its indexes. Each text is read
/// for that. The disk is handed back.
pub fn json_on<D: Disk + Drop, W: Output>(
    alloc: Global,
    writer: &mut W,
    disk: D,
) -> (D, Result<(), Fault>)
    // What was written is the lines of the uploads that the disk shows, and then that of its indexes.
    ensures lines { (n : ℕ) (m : Store) → IsSpool D.Disk disk n m
        → OnOk result.1 (WritesJson (W.contents writer.old) (W.contents writer.new) m) }

    // The disk shows the same uploads still, and a crash at any moment of it leaves them.
    ensures shows { (n : ℕ) (m : Store) → IsSpool D.Disk disk n m → IsOk result.1 → AllShow D.Disk result.0 n m }
    ensures lasts { (n : ℕ) (m : Store) → IsSpool D.Disk disk n m → LeavesOne D.Disk disk result.0 n m (m ∷ []) }

    // A spool's texts are read, unless memory, the disk or the writer refuses it.
    ensures reads { (n : ℕ) (m : Store) → IsSpool D.Disk disk n m → IsChangeResult result.1 }

    // On any disk it answers by what the opening's reads gave: for the uploads of the view that they encode.
    ensures given { OpeningReadsBy (D.reads disk) (D.reads result.0) (AnswersAs
        (WritesJson (W.contents writer.old) (W.contents writer.new)) (D.size disk) result.1) }

    // Each refusal has its reason, and each reason is answered so, unless memory or the disk refuses it.
    ensures refused { D.honest disk → IfErr result.1 (ListRefusedFor (D.size disk) (D.current disk)) }
    ensures not_a_spool { D.honest disk → IsNoSpool (D.size disk) (D.current disk)
        → RefusesListAs result.1 Fault.NotASpool }
    ensures version { D.honest disk → HasOtherVersion (D.size disk) (D.current disk)
        → RefusesListAs result.1 Fault.Version }
    ensures damaged { D.honest disk → IsDamaged (D.size disk) (D.current disk) → RefusesListAs result.1 Fault.Damaged }
    ensures counts { Counts (result.1 ≡ Err (Fault.Stop Stop.DiskFault)) (D.failures disk) (D.failures result.0) }

    // `Io` is answered exactly where the writer refused.
    ensures io { Counts (IsErrOf result.1 Fault.Io) (W.refusals writer.old) (W.refusals writer.new) }
{
    match Spool::open(alloc, disk) {
        Ok(mut spool) => {
            let written = write_all(alloc, writer, &mut spool);
            (spool.into_disk(), written)
        }
        Err((disk, fault)) => (disk, Err(Fault::from(fault))),
    }
}

// Writes a line for each upload, and the line of the indexes.
fn write_all<W: Output, U: Uploads>(
    alloc: Global,
    writer: &mut W,
    uploads: &mut U,
) -> Result<(), Fault>
    ensures lines { (sure : Bool) (w : World) → U.represents uploads.old sure w → IsInOrder w.store
        → OnOk result (WritesJson (W.contents writer.old) (W.contents writer.new) w.store) }
    ensures represents { (sure : Bool) (w : World) → U.represents uploads.old sure w
        → OnOk result (U.represents uploads.new sure w) }
    ensures crash { Quiet (U.moment uploads.old) (U.moment uploads.new) (U.left_only uploads.old)
        (U.left_only uploads.new) }
    ensures refused { IfErr result IsChangeFault }
    ensures counts { Counts (IsErrOf result (Fault.Stop Stop.DiskFault)) (U.failures uploads.old)
        (U.failures uploads.new) }
    ensures reads { MoreReads (U.reads uploads.old) (U.reads uploads.new) }
    ensures io { Counts (IsErrOf result Fault.Io) (W.refusals writer.old) (W.refusals writer.new) }
{
    write_uploads(alloc, writer, uploads)?;
    write_indexes(alloc, writer, uploads)?;
    Ok(())
}

// Writes a line for each upload, by number.
fn write_uploads<W: Output, U: Uploads>(
    alloc: Global,
    writer: &mut W,
    uploads: &mut U,
) -> Result<(), Fault>
    ensures lines { (sure : Bool) (w : World) → U.represents uploads.old sure w → IsInOrder w.store
        → OnOk result (WritesLines (W.contents writer.old) (W.contents writer.new) w.store) }
    ensures represents { (sure : Bool) (w : World) → U.represents uploads.old sure w
        → OnOk result (U.represents uploads.new sure w) }
    ensures crash { Quiet (U.moment uploads.old) (U.moment uploads.new) (U.left_only uploads.old)
        (U.left_only uploads.new) }
    ensures refused { IfErr result IsChangeFault }
    ensures counts { Counts (IsErrOf result (Fault.Stop Stop.DiskFault)) (U.failures uploads.old)
        (U.failures uploads.new) }
    ensures reads { MoreReads (U.reads uploads.old) (U.reads uploads.new) }
    ensures io { Counts (IsErrOf result Fault.Io) (W.refusals writer.old) (W.refusals writer.new) }
{
    let mut number = 0;
    for _ in 0..u64::MAX {
        let Some(record) = uploads.record_after(number) else {
            return Ok(());
        };
        let head = head_of(alloc, record)?;
        number = record.number;
        let to = record.to;
        write_line(writer, uploads, &head, number, to)?;
    }
    // No spool has so many uploads.
    Err(Fault::Stop(Stop::NoMemory))
}

// Writes the line of the upload of a number, which begins so. Its text is in this encoding.
fn write_line<W: Output, U: Uploads>(
    writer: &mut W,
    uploads: &mut U,
    head: &str,
    number: u64,
    to: Encoding,
) -> Result<(), Fault>
    ensures line { OnOk result (AppendsLine (W.contents writer.old) (W.contents writer.new) head.now) }
    ensures represents { (sure : Bool) (w : World) → U.represents uploads.old sure w
        → OnOk result (U.represents uploads.new sure w) }
    ensures crash { Quiet (U.moment uploads.old) (U.moment uploads.new) (U.left_only uploads.old)
        (U.left_only uploads.new) }
    ensures refused { IfErr result IsChangeFault }
    ensures counts { Counts (IsErrOf result (Fault.Stop Stop.DiskFault)) (U.failures uploads.old)
        (U.failures uploads.new) }
    ensures reads { MoreReads (U.reads uploads.old) (U.reads uploads.new) }
    ensures io { Counts (IsErrOf result Fault.Io) (W.refusals writer.old) (W.refusals writer.new) }
{
    let losses = losses_in(uploads, number, to)?;
    writeln!(writer, "{head},\"losses\":{losses}}}")?;
    Ok(())
}

// Writes the line of the indexes.
fn write_indexes<W: Output, U: Uploads>(
    alloc: Global,
    writer: &mut W,
    uploads: &U,
) -> Result<(), Fault>
    ensures line { OnOk result ((line : List ℕ) × Appends (W.contents writer.old) (W.contents writer.new) line) }
    ensures refused { IfErr result IsLineFault }
    ensures io { Counts (IsErrOf result Fault.Io) (W.refusals writer.old) (W.refusals writer.new) }
{
    let indexes = doubtful_of(alloc, uploads.indexes())?;
    // It fails only when out of memory.
    let Ok(line) = serde_json::to_string(alloc, &IndexesLine { indexes }) else {
        return Err(Fault::Stop(Stop::NoMemory));
    };
    writeln!(writer, "{line}")?;
    Ok(())
}
