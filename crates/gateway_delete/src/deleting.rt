//! Uploads of a spool, deleted by their numbers.
ghost use Rattle.std.specs.Prelude.{◌≡◌, ℕ, Bool, Err, IfErr, IfOk, IsErr, IsErrAnd, IsErrOf, IsOk, None, Ok, OnOk};
ghost use Rattle.std.specs.Prelude.{true};
ghost use Rattle.std.specs.Io.KnownBytes.{Appends};
ghost use Rattle.common.specs.declared.stop.Stop.{Stop};
ghost use Rattle.upload_rules.specs.Answers.{Counts, Limits};
ghost use Rattle.upload_rules.specs.Calls.{terminated};
ghost use Rattle.upload_rules.specs.Store.{Store, deleted_store, upload_of};
ghost use Rattle.upload_rules.specs.World.{World, is_there};
ghost use Rattle.spool_load.specs.Refusals.{HasOtherVersion, IsDamaged, IsNoSpool};
ghost use Rattle.spool_image.specs.LeftOnly.{AllShow, IsSpool};
ghost use Rattle.spool_image.specs.Opening.{ReadsBy};
ghost use Rattle.gateway_outside.specs.declared.faults.Fault.{Fault};
ghost use Rattle.gateway_outside.specs.Changing.{IsChangeResult, IsChangeFault, LimitsToAll};
ghost use Rattle.gateway_outside.specs.Failures.{fault_in};
ghost use Rattle.gateway_outside.specs.Leaving.{LeavesOne};
ghost use Rattle.gateway_outside.specs.Listing.{AnswersAs, ListRefusedFor, RefusesListAs};
ghost use Rattle.gateway_outside.specs.SpoolFiles.{Disks, Leaves, with_disk};
ghost use Rattle.gateway_delete.specs.Deleted.{AnswersDeletion, DeletedIn, DeletesAt};
ghost use Rattle.gateway_delete.specs.Deleting.{all_there, deletion_line, deletion_lines, left, stages};

use gateway_outside::{Advice, Failure, Fault, Output, Refused, SpoolFiles, open_in, refused_by};
use spool_disk::Disk;
use spool_image::Spool;
use std::alloc::Global;
use upload_rules::{UploadError, Uploads};

/// Deletes the uploads of these numbers from the spool in the file at this path, and prints a line for each number.
/// Where one has no upload, the others are deleted all the same, and it is refused at the end with `NoSuch`.
pub fn delete_in<'a, F: SpoolFiles, W: Output>(
    alloc: Global,
    files: &mut F,
    output: &mut W,
    path: &'a str,
    numbers: &[u64],
) -> Result<(), Failure<'a>>
    // The file was opened, and its uploads deleted with what `delete_on` promises; or the one call that was to open it
    // failed, and nothing was printed. The other files stay.
    ensures deletes { DeletesAt F.File.Disk (F.holds files.old) (F.holds files.new) (F.unopened files.old)
        (F.unopened files.new) path.now (W.contents output.old) (W.contents output.new) result numbers.now }

    // `Io` is answered exactly where the output refused.
    ensures io { Counts (IsErrAnd result (λ failure. fault_in failure ≡ Fault.Io)) (W.refusals output.old)
        (W.refusals output.new) }
{
    let disk = match open_in(files, path) {
        Ok(disk) => disk,
        Err(failure) => return Err(failure),
    };
    delete_at(alloc, files, output, path, disk, numbers)
}

/// Deletes the uploads of these numbers from the spool at this path, which is open, as `delete_in` does. It is closed.
pub(crate) fn delete_at<'a, F: SpoolFiles, W: Output>(
    alloc: Global,
    files: &mut F,
    output: &mut W,
    path: &'a str,
    disk: F::File,
    numbers: &[u64],
) -> Result<(), Failure<'a>>
    ensures deletes { (disks : Disks F.File) → F.holds files.old (with_disk disks path.now None)
        → Leaves (F.holds files.new) disks path.now
        (DeletedIn F.File.Disk disk numbers.now (W.contents output.old) (W.contents output.new) result) }
    ensures io { Counts (IsErrAnd result (λ failure. fault_in failure ≡ Fault.Io)) (W.refusals output.old)
        (W.refusals output.new) }
{
    let (disk, deleted) = delete_on(alloc, output, disk, numbers);
    match deleted {
        Ok(all) => {
            files.close(path, disk);
            return ended(all);
        }
        Err(fault) => return Err(refused_by(files, fault, output.error(), path, disk)),
    }
}

// How a deletion ends that was done: whether all numbers had an upload.
fn ended<'a>(all: bool) -> Result<(), Failure<'a>>
    ensures answers { AnswersDeletion (Ok all) result }
    ensures never_io { IfErr result (λ failure. fault_in failure ≡ Fault.Io → ⊥) }
{
    if all {
        return Ok(());
    }
    Err(Failure::advised(Fault::NoSuch, Advice::Undeleted))
}

/// Deletes the uploads of these numbers from the spool on a disk, one commit each, and writes a line for each number:
/// whether each had an upload when it was its turn. The disk is handed back.
pub fn delete_on<D: Disk + Drop, W: Output>(
    alloc: Global,
    writer: &mut W,
    disk: D,
    numbers: &[u64],
) -> (D, Result<bool, Fault>)
    // Each image then shows the uploads of all other numbers, and the line of each number is by whether it had one.
    ensures shows { (n : ℕ) (m : Store) → IsSpool D.Disk disk n m → IsOk result.1
        → AllShow D.Disk result.0 n (left m numbers.now) }
    ensures lines { (n : ℕ) (m : Store) → IsSpool D.Disk disk n m
        → OnOk result.1 (Appends (W.contents writer.old) (W.contents writer.new) (deletion_lines m numbers.now)) }
    ensures all { (n : ℕ) (m : Store) → IsSpool D.Disk disk n m
        → IfOk result.1 (λ all. all ≡ all_there m numbers.now) }

    // A crash at any moment of it, refused or not, leaves the uploads without those of the first so many numbers.
    ensures lasts { (n : ℕ) (m : Store) → IsSpool D.Disk disk n m
        → LeavesOne D.Disk disk result.0 n m (stages m numbers.now) }

    // A spool's uploads are deleted, unless memory, the disk or the writer refuses it.
    ensures deletes { (n : ℕ) (m : Store) → IsSpool D.Disk disk n m → IsChangeResult result.1 }

    // On any disk it answers by what its reads gave: for the uploads of the view that they encode.
    ensures given { ReadsBy (D.reads disk) (D.reads result.0) (AnswersAs
        (λ m. Appends (W.contents writer.old) (W.contents writer.new) (deletion_lines m numbers.now)
        × IfOk result.1 (λ all. all ≡ all_there m numbers.now)) (D.size disk) result.1) }

    // Each refusal has its reason, and each reason is answered so, unless memory or the disk refuses it.
    ensures refused { D.honest disk → IfErr result.1 (ListRefusedFor (D.size disk) (D.current disk)) }
    ensures not_a_spool { D.honest disk → IsNoSpool (D.size disk) (D.current disk)
        → RefusesListAs result.1 Fault.NotASpool }
    ensures version { D.honest disk → HasOtherVersion (D.size disk) (D.current disk)
        → RefusesListAs result.1 Fault.Version }
    ensures damaged { D.honest disk → IsDamaged (D.size disk) (D.current disk) → RefusesListAs result.1 Fault.Damaged }
    ensures counts { Counts (result.1 ≡ Err (Fault.Stop Stop.DiskFault)) (D.failures disk) (D.failures result.0) }

    // `Io` is answered exactly where the writer refused.
    ensures io { Counts (IsErrOf result.1 Fault.Io) (W.refusals writer.old) (W.refusals writer.new) }
{
    match Spool::open(alloc, disk) {
        Ok(mut spool) => {
            let deleted = delete_uploads(writer, &mut spool, numbers);
            (spool.into_disk(), deleted)
        }
        Err((disk, fault)) => (disk, Err(Fault::from(fault))),
    }
}

/// Deletes the uploads of these numbers, one after the other, and writes a line for each: whether each had one.
///
/// Refused with `Stop` or `Io` at one of them: the others before it are deleted.
pub fn delete_uploads<W: Output, U: Uploads>(
    writer: &mut W,
    uploads: &mut U,
    numbers: &[u64],
) -> Result<bool, Fault>
    // On any disk, for the uploads that they represent: those of all other numbers are left, and the line of each
    // number is by whether it had one.
    ensures represents { (sure : Bool) (w : World) → U.represents uploads.old sure w
        → OnOk result (U.represents uploads.new sure (record w { store = left w.store numbers.now })) }
    ensures lines { (sure : Bool) (w : World) → U.represents uploads.old sure w
        → OnOk result (Appends (W.contents writer.old) (W.contents writer.new)
        (deletion_lines w.store numbers.now)) }
    ensures all { (sure : Bool) (w : World) → U.represents uploads.old sure w
        → IfOk result (λ all. all ≡ all_there w.store numbers.now) }
    ensures crash { (w : World) → U.represents uploads.old true w
        → LimitsToAll (U.moment uploads.old) (U.moment uploads.new) (U.left_only uploads.old) (U.left_only uploads.new)
        (stages w.store numbers.now) }
    ensures refused { IfErr result IsChangeFault }
    ensures counts { Counts (IsErrOf result (Fault.Stop Stop.DiskFault)) (U.failures uploads.old)
        (U.failures uploads.new) }
    ensures reads { U.reads uploads.new ≡ U.reads uploads.old }
    ensures io { Counts (IsErrOf result Fault.Io) (W.refusals writer.old) (W.refusals writer.new) }
{
    let mut all = true;
    for number in numbers {
        let there = delete_one(writer, uploads, *number)?;
        all = all && there;
    }
    Ok(all)
}

// Deletes the upload of a number, and writes a line: whether there was one.
fn delete_one<W: Output, U: Uploads>(
    writer: &mut W,
    uploads: &mut U,
    number: u64,
) -> Result<bool, Fault>
    ensures represents { (sure : Bool) (w : World) → U.represents uploads.old sure w
        → OnOk result (U.represents uploads.new sure (terminated w number)) }
    ensures there { (sure : Bool) (w : World) → U.represents uploads.old sure w
        → IfOk result (λ there. there ≡ is_there (upload_of w.store number)) }
    ensures line { IfOk result (λ there. Appends (W.contents writer.old) (W.contents writer.new)
        (deletion_line there number)) }
    ensures crash { (w : World) → U.represents uploads.old true w
        → Limits (U.moment uploads.old) (U.moment uploads.new) (U.left_only uploads.old) (U.left_only uploads.new)
        w.store (deleted_store w.store number) }
    ensures refused { IfErr result IsChangeFault }
    ensures counts { Counts (IsErrOf result (Fault.Stop Stop.DiskFault)) (U.failures uploads.old)
        (U.failures uploads.new) }
    ensures reads { U.reads uploads.new ≡ U.reads uploads.old }
    ensures io { Counts (IsErrOf result Fault.Io) (W.refusals writer.old) (W.refusals writer.new) }
{
    let there = terminate(uploads, number)?;
    report_deleted(writer, number, there)?;
    Ok(there)
}

// Deletes the upload of a number: whether there was one.
fn terminate<U: Uploads>(uploads: &mut U, number: u64) -> Result<bool, Fault>
    ensures represents { (sure : Bool) (w : World) → U.represents uploads.old sure w
        → OnOk result (U.represents uploads.new sure (terminated w number)) }
    ensures there { (sure : Bool) (w : World) → U.represents uploads.old sure w
        → IfOk result (λ there. there ≡ is_there (upload_of w.store number)) }
    ensures crash { (w : World) → U.represents uploads.old true w
        → Limits (U.moment uploads.old) (U.moment uploads.new) (U.left_only uploads.old) (U.left_only uploads.new)
        w.store (deleted_store w.store number) }
    ensures refused { IfErr result IsChangeFault }
    ensures never_io { IfErr result (λ fault. fault ≡ Fault.Io → ⊥) }
    ensures counts { Counts (IsErrOf result (Fault.Stop Stop.DiskFault)) (U.failures uploads.old)
        (U.failures uploads.new) }
    ensures reads { U.reads uploads.new ≡ U.reads uploads.old }
{
    match uploads.terminate(number) {
        Ok(()) => Ok(true),
        Err(UploadError::Refused(_)) => Ok(false),
        Err(UploadError::Stop(stop)) => Err(Fault::Stop(stop)),
    }
}

// Prints whether an upload was there, and so is deleted.
fn report_deleted<W: Output>(writer: &mut W, number: u64, there: bool) -> Result<(), Refused>
    ensures line { OnOk result (Appends (W.contents writer.old) (W.contents writer.new) (deletion_line there number)) }
    ensures counts { Counts (IsErr result) (W.refusals writer.old) (W.refusals writer.new) }
{
    if there {
        writeln!(writer, "deleted {number}")
    } else {
        writeln!(writer, "no upload {number}")
    }
}
