//! The uploads of a spool that aren't complete.
ghost use Rattle.std.specs.Prelude.{◌≡◌, ◌++◌, ℕ, Bool, Err, IfErr, IfOk, IsErr, IsErrAnd, IsOk, None, OnOk, filter};
ghost use Rattle.std.specs.Prelude.{flat_map, not, option_copied};
ghost use Rattle.std.specs.Io.KnownBytes.{Appends};
ghost use Rattle.spool_disk.specs.Disk.{Counts, IsImage};
ghost use Rattle.spool_disk.specs.Views.{Lasts};
ghost use Rattle.upload_rules.specs.Store.{Store};
ghost use Rattle.upload_rules.specs.World.{World};
ghost use Rattle.spool_load.specs.Reads.{NeedsReplay};
ghost use Rattle.spool_load.specs.Refusals.{HasOtherVersion, IsDamaged, IsNoSpool};
ghost use Rattle.spool_image.specs.LeftOnly.{AllShow, IsSpool, LeftOrShows};
ghost use Rattle.spool_image.specs.Opening.{ReadsBy};
ghost use Rattle.gateway_outside.specs.declared.faults.Fault.{Fault};
ghost use Rattle.gateway_outside.specs.Failures.{fault_in};
ghost use Rattle.gateway_outside.specs.InOrder.{IsInOrder};
ghost use Rattle.gateway_outside.specs.Listing.{AnswersAs, ListRefusedFor, IsListResult, RefusesListAs};
ghost use Rattle.gateway_outside.specs.Openings.{EndsWellBut};
ghost use Rattle.gateway_outside.specs.SpoolFiles.{Disks, Leaves, with_disk};
ghost use Rattle.gateway_delete.specs.Deleted.{DoesBut, DoesWith, FindsAt};
ghost use Rattle.gateway_delete.specs.Deleting.{Finds, complete_among, doomed_line, first_unknown, incomplete_but};
ghost use Rattle.gateway_delete.specs.Deleting.{has_all, incomplete_of, incomplete_record, is_among, kept_line};

use crate::deleting::delete_at;
use common::Stop;
use gateway_outside::{Advice, Failure, Fault, Output, Refused, SpoolFiles, open_in, refused_in};
use spool_disk::Disk;
use spool_image::Spool;
use std::alloc::{AllocError, Global};
use upload_rules::{Record, Uploads, is_length};

/// What is found of the uploads of a spool that aren't complete, where those of some numbers are to be kept.
#[derive(Drop)]
pub struct Incomplete {
    /// The numbers of those that aren't to be kept, in order.
    pub numbers: Vec<u64>,
    /// The first number of those to be kept that has no upload.
    pub unknown: Option<u64>,
    /// The numbers of those to be kept whose upload is complete, as they were given. They are kept anyhow.
    pub complete: Vec<u64>,
}

/// Deletes the uploads that aren't complete from the spool in the file at this path, but those with some numbers, and
/// prints a line for each. Without `yes` it deletes none, and prints which it would delete. Where a number to be kept
/// has no upload, it is refused with `NoSuch`, and nothing is deleted.
pub fn incomplete_in<'a, F: SpoolFiles, W: Output, E: Output>(
    alloc: Global,
    files: &mut F,
    output: &mut W,
    errors: &mut E,
    path: &'a str,
    but: &[u64],
    yes: bool,
) -> Result<(), Failure<'a>>
    // The file was opened and searched, as `incomplete_on` promises, and what was found is deleted only with `yes`; or
    // the one call that was to open it failed, and nothing was printed. The other files stay.
    ensures deletes { FindsAt F.File.Disk (F.holds files.old) (F.holds files.new) (F.unopened files.old)
        (F.unopened files.new) path.now (W.contents output.old) (W.contents output.new) result but.now yes }

    // `Io` is answered exactly where the output refused.
    ensures io { Counts (IsErrAnd result (λ failure. fault_in failure ≡ Fault.Io)) (W.refusals output.old)
        (W.refusals output.new) }
{
    let disk = match open_in(files, path) {
        Ok(disk) => disk,
        Err(failure) => return Err(failure),
    };
    let (disk, found) = incomplete_on(alloc, disk, but);
    match found {
        Ok(found) => delete_unless(alloc, files, output, errors, path, disk, &found, yes),
        Err(fault) => Err(refused_in(files, fault, path, disk)),
    }
}

// As `delete_found`, unless a number to be kept has no upload.
fn delete_unless<'a, F: SpoolFiles, W: Output, E: Output>(
    alloc: Global,
    files: &mut F,
    output: &mut W,
    errors: &mut E,
    path: &'a str,
    disk: F::File,
    found: &Incomplete,
    yes: bool,
) -> Result<(), Failure<'a>>
    ensures does { (disks : Disks F.File) → F.holds files.old (with_disk disks path.now None)
        → Leaves (F.holds files.new) disks path.now (DoesBut F.File.Disk disk yes found.now.unknown
        found.now.numbers.items (W.contents output.old) (W.contents output.new) result) }
    ensures io { Counts (IsErrAnd result (λ failure. fault_in failure ≡ Fault.Io)) (W.refusals output.old)
        (W.refusals output.new) }
{
    match found.unknown {
        Some(number) => {
            files.close(path, disk);
            return Err(Failure::advised(Fault::NoSuch, Advice::NoneToKeep(number)));
        }
        None => {
            // If standard error can't be written, this is left out.
            drop(report_complete(errors, &found.complete));
            return delete_found(
                alloc,
                files,
                output,
                errors,
                path,
                disk,
                &found.numbers,
                yes,
            );
        }
    }
}

// Deletes the uploads of these numbers from the spool at this path, which is open, or prints that it would, without
// `yes`. It is closed.
fn delete_found<'a, F: SpoolFiles, W: Output, E: Output>(
    alloc: Global,
    files: &mut F,
    output: &mut W,
    errors: &mut E,
    path: &'a str,
    disk: F::File,
    numbers: &[u64],
    yes: bool,
) -> Result<(), Failure<'a>>
    ensures does { (disks : Disks F.File) → F.holds files.old (with_disk disks path.now None)
        → Leaves (F.holds files.new) disks path.now
        (DoesWith F.File.Disk disk yes numbers.now (W.contents output.old) (W.contents output.new) result) }
    ensures io { Counts (IsErrAnd result (λ failure. fault_in failure ≡ Fault.Io)) (W.refusals output.old)
        (W.refusals output.new) }
{
    if numbers.is_empty() {
        files.close(path, disk);
        // If standard error can't be written, this is left out.
        drop(writeln!(errors, "nothing to delete"));
        return Ok(());
    }
    if yes {
        return delete_at(alloc, files, output, path, disk, numbers);
    }
    files.close(path, disk);
    show_doomed(output, errors, numbers)
}

// Prints which uploads would be deleted.
fn show_doomed<'a, W: Output, E: Output>(
    output: &mut W,
    errors: &mut E,
    numbers: &[u64],
) -> Result<(), Failure<'a>>
    ensures lines { OnOk result (Appends (W.contents output.old) (W.contents output.new)
        (flat_map doomed_line numbers.now)) }
    ensures refused { EndsWellBut result Fault.Io }
    ensures io { Counts (IsErr result) (W.refusals output.old) (W.refusals output.new) }
{
    match report_doomed(output, numbers) {
        Ok(()) => {
            // If standard error can't be written, this is left out.
            drop(writeln!(errors, "nothing was deleted: --yes deletes them"));
            Ok(())
        }
        Err(_) => Err(Failure::on_streams(Fault::Io, None, output.error())),
    }
}

/// The uploads on a disk that aren't complete, but these: their length isn't known yet, or fewer bytes came. The disk
/// is handed back.
pub fn incomplete_on<D: Disk + Drop>(
    alloc: Global,
    disk: D,
    but: &[u64],
) -> (D, Result<Incomplete, Fault>)
    ensures finds { (n : ℕ) (m : Store) → IsSpool D.Disk disk n m
        → IfOk result.1 (λ found. Finds found m but.now) }

    // The disk shows its uploads still, and a crash leaves what it might have left before, or what shows the same.
    ensures shows { (n : ℕ) (m : Store) → IsSpool D.Disk disk n m → IsOk result.1 → AllShow D.Disk result.0 n m }
    ensures lasts { (n : ℕ) (m : Store) → IsSpool D.Disk disk n m
        → Lasts D.Disk disk result.0 (LeftOrShows D.Disk disk n m) }

    ensures unwritten { D.honest disk → (NeedsReplay (D.size disk) (D.current disk) → ⊥)
        → Lasts D.Disk disk result.0 (IsImage (D.current disk) (D.unsynced disk)) }

    // Each refusal has its reason, and each reason is answered so, unless memory or the disk refuses it. On any disk it
    // answers by what the reads of its opening gave.
    ensures listed { (n : ℕ) (m : Store) → IsSpool D.Disk disk n m → IsListResult result.1 }
    ensures given { ReadsBy (D.reads disk) (D.reads result.0) (AnswersAs
        (λ m. IfOk result.1 (λ found. Finds found m but.now)) (D.size disk) result.1) }
    ensures refused { D.honest disk → IfErr result.1 (ListRefusedFor (D.size disk) (D.current disk)) }
    ensures not_a_spool { D.honest disk → IsNoSpool (D.size disk) (D.current disk)
        → RefusesListAs result.1 Fault.NotASpool }
    ensures version { D.honest disk → HasOtherVersion (D.size disk) (D.current disk)
        → RefusesListAs result.1 Fault.Version }
    ensures damaged { D.honest disk → IsDamaged (D.size disk) (D.current disk) → RefusesListAs result.1 Fault.Damaged }
    ensures counts { Counts (result.1 ≡ Err (Fault.Stop Stop.DiskFault)) (D.failures disk) (D.failures result.0) }
    ensures never_io { IfErr result.1 (λ fault. fault ≡ Fault.Io → ⊥) }
{
    match Spool::open(alloc, disk) {
        Ok(spool) => {
            let found = find_incomplete(alloc, &spool, but);
            (spool.into_disk(), found)
        }
        Err((disk, fault)) => (disk, Err(Fault::from(fault))),
    }
}

// What is found of the uploads that aren't complete, but these.
fn find_incomplete<U: Uploads>(alloc: Global, uploads: &U, but: &[u64]) -> Result<Incomplete, Fault>
    ensures finds { (sure : Bool) (w : World) → U.represents uploads.now sure w → IsInOrder w.store
        → IfOk result (λ found. Finds found w.store but.now) }
    ensures refused { IfErr result (λ fault. fault ≡ Fault.Stop Stop.NoMemory) }
{
    Ok(Incomplete {
        numbers: numbers_but(alloc, uploads, but)?,
        unknown: unknown_among(uploads, but),
        complete: whole_among(alloc, uploads, but)?,
    })
}

// The first of these numbers that has no upload.
fn unknown_among<U: Uploads>(uploads: &U, numbers: &[u64]) -> Option<u64>
    ensures { (sure : Bool) (w : World) → U.represents uploads.now sure w
        → result ≡ first_unknown w.store numbers.now }
{
    for number in numbers {
        let Some(_) = uploads.record(*number) else {
            return Some(*number);
        };
    }
    None
}

// Those of these numbers whose upload is complete.
fn whole_among<U: Uploads>(
    alloc: Global,
    uploads: &U,
    numbers: &[u64],
) -> Result<Vec<u64>, AllocError>
    ensures { (sure : Bool) (w : World) → U.represents uploads.now sure w
        → IfOk result (λ complete. complete.items ≡ complete_among w.store numbers.now) }
{
    let mut complete = Vec::new(alloc);
    for number in numbers {
        if has_all(uploads.record(*number)) {
            complete.push(*number)?;
        }
    }
    Ok(complete)
}

// Whether there is an upload, and it is complete.
fn has_all(found: Option<&Record>) -> bool
    ensures { result ≡ has_all (option_copied found.entry) }
{
    found.is_some_and(|record| is_length(record.declared, record.accepted))
}

// The numbers of the uploads that aren't complete, in order, but these.
fn numbers_but<U: Uploads>(alloc: Global, uploads: &U, but: &[u64]) -> Result<Vec<u64>, Fault>
    ensures numbers { (sure : Bool) (w : World) → U.represents uploads.now sure w → IsInOrder w.store
        → IfOk result (λ numbers. numbers.items ≡ incomplete_but w.store but.now) }
    ensures refused { IfErr result (λ fault. fault ≡ Fault.Stop Stop.NoMemory) }
{
    let mut numbers = incomplete_numbers(alloc, uploads)?;
    take_out(&mut numbers, but);
    Ok(numbers)
}

// Takes these numbers out of others.
fn take_out(numbers: &mut Vec<u64>, but: &[u64])
    ensures { numbers.new.items ≡ filter (λ n. not (is_among but.now n)) numbers.old.items }
{
    numbers.retain(|number| !is_one_of(but, *number))
}

// Whether a number is one of these.
fn is_one_of(numbers: &[u64], number: u64) -> bool
    ensures { result ≡ is_among numbers.now number }
{
    numbers.iter().any(|other| number == *other)
}

/// The numbers of the uploads that aren't complete, in order.
///
/// Refused with `Stop(NoMemory)` alone.
pub fn incomplete_numbers<U: Uploads>(alloc: Global, uploads: &U) -> Result<Vec<u64>, Fault>
    // On any disk: for the uploads that they represent.
    ensures numbers { (sure : Bool) (w : World) → U.represents uploads.now sure w → IsInOrder w.store
        → IfOk result (λ numbers. numbers.items ≡ incomplete_of w.store) }
    ensures refused { IfErr result (λ fault. fault ≡ Fault.Stop Stop.NoMemory) }
{
    let mut numbers = Vec::new(alloc);
    let mut number = 0;
    for _ in 0..u64::MAX {
        let Some(record) = uploads.record_after(number) else {
            return Ok(numbers);
        };
        push_incomplete(&mut numbers, record)?;
        number = record.number;
    }
    // No memory holds so many numbers.
    Err(Fault::Stop(Stop::NoMemory))
}

// Adds the number of an upload, unless it is complete.
fn push_incomplete(numbers: &mut Vec<u64>, record: &Record) -> Result<(), AllocError>
    ensures { OnOk result (numbers.new.items ≡ numbers.old.items ++ incomplete_record record.now) }
{
    if !is_length(record.declared, record.accepted) {
        numbers.push(record.number)?;
    }
    Ok(())
}

// Prints of each of these uploads, which were to be kept, that it is complete.
fn report_complete<W: Output>(writer: &mut W, numbers: &[u64]) -> Result<(), Refused>
    ensures { OnOk result (Appends (W.contents writer.old) (W.contents writer.new) (flat_map kept_line numbers.now)) }
{
    for number in numbers {
        writeln!(writer, "{number} is complete, and kept anyhow")?;
    }
    Ok(())
}

// Prints of each of these uploads that it would be deleted.
fn report_doomed<W: Output>(writer: &mut W, numbers: &[u64]) -> Result<(), Refused>
    ensures lines { OnOk result (Appends (W.contents writer.old) (W.contents writer.new)
        (flat_map doomed_line numbers.now)) }
    ensures counts { Counts (IsErr result) (W.refusals writer.old) (W.refusals writer.new) }
{
    for number in numbers {
        writeln!(writer, "would delete {number}")?;
    }
    Ok(())
}
