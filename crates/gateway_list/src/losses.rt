//! Which texts of a spool have U+FFFD: they are read for that.

ghost use Rattle.std.specs.Prelude.{◌≡◌, [], ◌∷◌, ℕ, Bool, Err, IfErr, IsErrOf, IsOk, None, OnOk};
ghost use Rattle.common.specs.Given.{MoreReads};
ghost use Rattle.common.specs.declared.stop.Stop.{Stop};
ghost use Rattle.upload_rules.specs.Answers.{Counts, Quiet};
ghost use Rattle.upload_rules.specs.Store.{Store};
ghost use Rattle.upload_rules.specs.World.{World};
ghost use Rattle.spool_load.specs.Refusals.{HasOtherVersion, IsDamaged, IsNoSpool};
ghost use Rattle.spool_image.specs.LeftOnly.{AllShow, IsSpool};
ghost use Rattle.spool_image.specs.Opening.{OpeningReadsBy};
ghost use Rattle.gateway_outside.specs.declared.faults.Fault.{Fault};
ghost use Rattle.gateway_outside.specs.Changing.{IsChangeFault, IsChangeResult};
ghost use Rattle.gateway_outside.specs.Failures.{fault_in};
ghost use Rattle.gateway_outside.specs.Leaving.{LeavesOne};
ghost use Rattle.gateway_outside.specs.Listing.{AnswersAs, ListRefusedFor, RefusesListAs};
ghost use Rattle.gateway_outside.specs.SpoolFiles.{Disks, Leaves, with_disk};
ghost use Rattle.gateway_list.specs.Listed.{ReadsTextsIn, TellsLosses};

use common::{SLOTS, Stop};
use enc_model::Encoding;
use gateway_outside::{Failure, Fault, Output, SpoolFiles, refused_in};
use gateway_texts::{losses_of, report_losses_of};
use spool_disk::Disk;
use spool_image::Spool;
use std::alloc::Global;
use upload_rules::Uploads;

/// Tells of each text of the spool at this path, which is open, that has U+FFFD how often, where that is asked for. It
/// is closed.
pub(crate) fn tell_losses<'a, F: SpoolFiles, E: Output>(
    alloc: Global,
    files: &mut F,
    errors: &mut E,
    path: &'a str,
    disk: F::File,
    asked: bool,
) -> Result<(), Failure<'a>>
    ensures tells { (disks : Disks F.File) → F.holds files.old (with_disk disks path.now None)
        → Leaves (F.holds files.new) disks path.now (TellsLosses F.File.Disk disk asked result) }
    ensures never_io { IfErr result (λ failure. fault_in failure ≡ Fault.Io → ⊥) }
{
    if asked {
        return tell_losses_at(alloc, files, errors, path, disk);
    }
    files.close(path, disk);
    Ok(())
}

// Tells of each text of the spool at this path, which is open, that has U+FFFD how often. It is closed.
fn tell_losses_at<'a, F: SpoolFiles, E: Output>(
    alloc: Global,
    files: &mut F,
    errors: &mut E,
    path: &'a str,
    disk: F::File,
) -> Result<(), Failure<'a>>
    ensures tells { (disks : Disks F.File) → F.holds files.old (with_disk disks path.now None)
        → Leaves (F.holds files.new) disks path.now (ReadsTextsIn F.File.Disk disk (λ m. Unit {0}) result) }
    ensures never_io { IfErr result (λ failure. fault_in failure ≡ Fault.Io → ⊥) }
{
    let (disk, told) = losses_on(alloc, errors, disk);
    match told {
        Ok(()) => {
            files.close(path, disk);
            return Ok(());
        }
        Err(fault) => return Err(refused_in(files, fault, path, disk)),
    }
}

/// Tells of each text of the spool on a disk that has U+FFFD how often. The disk is handed back.
pub fn losses_on<D: Disk + Drop, E: Output>(
    alloc: Global,
    errors: &mut E,
    disk: D,
) -> (D, Result<(), Fault>)
    // The disk shows the same uploads still, and a crash at any moment of it leaves them.
    ensures shows { (n : ℕ) (m : Store) → IsSpool D.Disk disk n m → IsOk result.1 → AllShow D.Disk result.0 n m }
    ensures lasts { (n : ℕ) (m : Store) → IsSpool D.Disk disk n m → LeavesOne D.Disk disk result.0 n m (m ∷ []) }

    // A spool's texts are read, unless memory or the disk refuses it. What can't be told is left out.
    ensures reads { (n : ℕ) (m : Store) → IsSpool D.Disk disk n m → IsChangeResult result.1 }
    ensures never_io { IfErr result.1 (λ fault. fault ≡ Fault.Io → ⊥) }

    // On any disk it answers by what the opening's reads gave.
    ensures given { OpeningReadsBy (D.reads disk) (D.reads result.0) (AnswersAs (λ m. Unit {0}) (D.size disk)
        result.1) }

    // Each refusal has its reason, and each reason is answered so, unless memory or the disk refuses it.
    ensures refused { D.honest disk → IfErr result.1 (ListRefusedFor (D.size disk) (D.current disk)) }
    ensures not_a_spool { D.honest disk → IsNoSpool (D.size disk) (D.current disk)
        → RefusesListAs result.1 Fault.NotASpool }
    ensures version { D.honest disk → HasOtherVersion (D.size disk) (D.current disk)
        → RefusesListAs result.1 Fault.Version }
    ensures damaged { D.honest disk → IsDamaged (D.size disk) (D.current disk) → RefusesListAs result.1 Fault.Damaged }
    ensures counts { Counts (result.1 ≡ Err (Fault.Stop Stop.DiskFault)) (D.failures disk) (D.failures result.0) }
{
    match Spool::open(alloc, disk) {
        Ok(mut spool) => {
            let told = tell_all(errors, &mut spool);
            (spool.into_disk(), told)
        }
        Err((disk, fault)) => (disk, Err(Fault::from(fault))),
    }
}

// Tells of each text that has U+FFFD how often.
fn tell_all<E: Output, U: Uploads>(errors: &mut E, uploads: &mut U) -> Result<(), Fault>
    ensures represents { (sure : Bool) (w : World) → U.represents uploads.old sure w
        → OnOk result (U.represents uploads.new sure w) }
    ensures crash { Quiet (U.moment uploads.old) (U.moment uploads.new) (U.left_only uploads.old)
        (U.left_only uploads.new) }
    ensures refused { IfErr result IsChangeFault }
    ensures never_io { IfErr result (λ fault. fault ≡ Fault.Io → ⊥) }
    ensures counts { Counts (IsErrOf result (Fault.Stop Stop.DiskFault)) (U.failures uploads.old)
        (U.failures uploads.new) }
    ensures reads { MoreReads (U.reads uploads.old) (U.reads uploads.new) }
{
    let mut number = 0;
    for _ in 0..SLOTS {
        let Some(record) = uploads.record_after(number) else {
            return Ok(());
        };
        number = record.number;
        let to = record.to;
        let losses = losses_in(uploads, number, to)?;
        if losses > 0 {
            // What isn't taken is left out.
            drop(report_losses_of(errors, number, losses));
        }
    }
    Ok(())
}

/// How many signs of lost bytes the text of an upload has, which is in this encoding. They are written nowhere, so
/// there is no writer to refuse them.
pub(crate) fn losses_in<U: Uploads>(
    uploads: &mut U,
    number: u64,
    to: Encoding,
) -> Result<u64, Fault>
    ensures represents { (sure : Bool) (w : World) → U.represents uploads.old sure w
        → OnOk result (U.represents uploads.new sure w) }
    ensures crash { Quiet (U.moment uploads.old) (U.moment uploads.new) (U.left_only uploads.old)
        (U.left_only uploads.new) }
    ensures refused { IfErr result IsChangeFault }
    ensures never_io { IfErr result (λ fault. fault ≡ Fault.Io → ⊥) }
    ensures counts { Counts (IsErrOf result (Fault.Stop Stop.DiskFault)) (U.failures uploads.old)
        (U.failures uploads.new) }
    ensures reads { MoreReads (U.reads uploads.old) (U.reads uploads.new) }
{
    match losses_of(uploads, number, to) {
        Ok(losses) => Ok(losses),
        Err(fault) => Err(stopped(fault)),
    }
}

// Why a text wasn't read. It has as many bytes as its record says, so `Io` never comes.
fn stopped(fault: Fault) -> Fault
    ensures refused { IsChangeFault fault → IsChangeFault result }
    ensures never_io { result ≡ Fault.Io → ⊥ }
    ensures disk { result ≡ Fault.Stop Stop.DiskFault → fault ≡ Fault.Stop Stop.DiskFault }
    ensures same { fault ≡ Fault.Stop Stop.DiskFault → result ≡ Fault.Stop Stop.DiskFault }
{
    match fault {
        Fault::Io => Fault::Stop(Stop::NoMemory),
        _ => fault,
    }
}
