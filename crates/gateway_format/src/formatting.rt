//! A new spool in a file.
ghost use Rattle.std.specs.Prelude.{◌≡◌, ◌⊎◌, ◌↔◌, ◌<◌, ◌≤◌, ℕ, Bool, Err, IfErr, IfOk, IsErr, IsErrAnd, IsOk, OnOk};
ghost use Rattle.std.specs.Prelude.{Some, max, true, false};
ghost use Rattle.std.specs.Io.KnownBytes.{Appends};
ghost use Rattle.std.specs.IoError.{error_kind};
ghost use Rattle.std.specs.declared.io.ErrorKind.{ErrorKind};
ghost use Rattle.common.specs.declared.limits.TheConstants.{LEAST_BLOCKS, MOST_BLOCKS};
ghost use Rattle.spool_disk.specs.Disk.{Counts, IsImage, Preserves};
ghost use Rattle.spool_disk.specs.Views.{Lasts};
ghost use Rattle.spool_journal.specs.Image.{all_pages};
ghost use Rattle.upload_rules.specs.Store.{no_uploads};
ghost use Rattle.spool_catalog.specs.Raising.{raised};
ghost use Rattle.spool_image.specs.Format.{FitsSpool, HasMagic, IsRefusal, LeftByFormat};
ghost use Rattle.spool_image.specs.LeftOnly.{AllShow};
ghost use Rattle.spool_image.specs.Raise.{latest};
ghost use Rattle.gateway_outside.specs.declared.faults.Fault.{Fault};
ghost use Rattle.gateway_outside.specs.Failures.{fault_in};
ghost use Rattle.gateway_outside.specs.Faults.{creating_fault, opening_fault};
ghost use Rattle.gateway_outside.specs.Openings.{EndsWellBut};
ghost use Rattle.gateway_outside.specs.SpoolFiles.{Disks, Leaves, LeavesOthers, OnlyRead};
ghost use Rattle.gateway_format.specs.Blanks.{IsBlank};
ghost use Rattle.gateway_format.specs.Formatting.{Formats, FormatsAt, IsHonestAt, IsReason, IsRefusedFor};
ghost use Rattle.gateway_format.specs.Reports.{formatted_lines};

use crate::blanks::is_blank;
use crate::raising::raise_to;
use crate::reports::{report_formatted, report_longer};
use enc_index::IndexSet;
use gateway_indexes::{IndexFile, IndexFolders, read_wanted, report_read};
use gateway_outside::{Advice, Failure, Fault, Output, Refused, SpoolFiles, Task};
use spool_disk::{CreateError, Disk};
use spool_image::{FormatError, LATEST, format, is_spool, pages_of};
use spool_journal::PAGE;
use std::alloc::Global;
use std::io::{self, ErrorKind};

/// What a new spool is to be.
#[derive(Clone, Copy, Debug, PartialEq, Eq, Drop)]
pub struct NewSpool<'a> {
    /// How many text blocks it has.
    pub blocks: u32,
    /// The folder with the index files.
    pub indexes: &'a str,
    /// Whether it may be made in a file that has a byte other than zero, but is no spool.
    pub overwrite: bool,
    /// Whether the index files have to be the standard's.
    pub standard: bool,
    /// The number of its first upload. Without one, and for 0, that is 1.
    pub first: Option<u64>,
}

/// Makes a spool without uploads on a disk, of so many text blocks, as `spool_image::format` does: how many pages it
/// has.
pub fn format_on<D: Disk>(disk: &mut D, blocks: u32, indexes: &IndexSet) -> Result<u32, FormatError>
    ensures size { D.size disk.new ≡ D.size disk.old }
    ensures honest { D.honest disk.old ↔ D.honest disk.new }
    ensures counts { Counts (result ≡ Err FormatError.DiskFault) (D.failures disk.old) (D.failures disk.new) }

    // It refuses exactly a spool, and then a size that doesn't fit.
    ensures already { D.honest disk.old → result ≡ Err FormatError.AlreadySpool
        → HasMagic (D.size disk.old) (D.current disk.old) }
    ensures no_spool { D.honest disk.old → (result ≡ Err FormatError.AlreadySpool → ⊥)
        → (result ≡ Err FormatError.DiskFault → ⊥) → HasMagic (D.size disk.old) (D.current disk.old) → ⊥ }
    ensures fits { IsOk result → FitsSpool blocks (D.size disk.old) }
    ensures too_long { result ≡ Err FormatError.Size → FitsSpool blocks (D.size disk.old) → ⊥ }

    // Then every image is one from before.
    ensures same { D.honest disk.old → IsRefusal result
        → Preserves (D.current disk.old) (D.current disk.new) (D.unsynced disk.old) (D.unsynced disk.new) }
    ensures lasts { D.honest disk.old → IsRefusal result
        → Lasts D.Disk disk.old disk.new (IsImage (D.current disk.old) (D.unsynced disk.old)) }

    // A crash at any moment of it leaves page 0 as it might have been before, or torn, or a whole spool.
    ensures crash { D.honest disk.old → Lasts D.Disk disk.old disk.new
        (LeftByFormat blocks indexes.now (D.current disk.old) (D.unsynced disk.old)) }

    // Else every image shows no uploads, these indexes and so many blocks, and the answer is the number of pages.
    ensures shows { D.honest disk.old → OnOk result (AllShow D.Disk disk.new blocks (no_uploads indexes.now)) }
    ensures pages { IfOk result (λ pages. pages ≡ all_pages blocks) }
{
    format(disk, blocks, indexes)?;
    pages_of(blocks).ok_or(FormatError::Size)
}

/// Makes a spool without uploads in the file at this path, which is made or lengthened, and prints that. One that is a
/// spool stays as it is, and so does one that has a byte other than zero, unless it may be overwritten. With `standard`
/// the index files have to be the standard's: if some aren't, the file isn't even opened. What warns is told first, on
/// standard error: of the index files, and of a file that is longer than the spool.
pub fn format_at<'a, F: SpoolFiles, R: IndexFolders, W: Output, E: Output>(
    alloc: Global,
    files: &mut F,
    folders: &mut R,
    output: &mut W,
    errors: &mut E,
    path: &'a str,
    wanted: NewSpool<'a>,
) -> Result<(), Failure<'a>>
    // The index files were read and the spool made with them, or it was refused, each for its reason. The other files
    // stay.
    ensures formats { FormatsAt F.File.Disk (F.holds files.old) (F.holds files.new) (R.have folders.old)
        (R.calls folders.old) (R.calls folders.new) path.now (W.contents output.old) (W.contents output.new) result
        wanted.entry.blocks wanted.entry.overwrite wanted.entry.standard wanted.entry.first wanted.entry.indexes.now }
{
    let read = match read_wanted(alloc, folders, errors, wanted.indexes, wanted.standard) {
        Ok(read) => read,
        Err(failure) => return Err(failure),
    };
    match format_wanted(alloc, files, path, &wanted, &read.set) {
        Ok(made) => return tell_made(output, errors, path, &wanted, made, &read.files),
        Err(failure) => return Err(failure),
    }
}

// Makes the spool that is wanted, with these indexes.
fn format_wanted<'a, F: SpoolFiles>(
    alloc: Global,
    files: &mut F,
    path: &'a str,
    wanted: &NewSpool<'a>,
    indexes: &IndexSet,
) -> Result<Made, Failure<'a>>
    ensures { Formats F.File.Disk (F.holds files.old) (F.holds files.new) path.now wanted.now.blocks indexes.now
        wanted.now.overwrite wanted.now.first result }
{
    let (blocks, overwrite) = (wanted.blocks, wanted.overwrite);
    match wanted.first {
        Some(first) => return format_raised_in(
            alloc, files, path, blocks, indexes, overwrite, first,
        ),
        None => return format_in(files, path, blocks, indexes, overwrite),
    }
}

// Tells of a spool that was made. First what warns, since it has to be seen whatever becomes of the rest.
fn tell_made<'a, W: Output, E: Output>(
    output: &mut W,
    errors: &mut E,
    path: &str,
    wanted: &NewSpool,
    made: Made,
    files: &[IndexFile],
) -> Result<(), Failure<'a>>
    ensures line { OnOk result (Appends (W.contents output.old) (W.contents output.new)
        (formatted_lines wanted.now.blocks made.pages wanted.now.first)) }
    ensures refused { EndsWellBut result Fault.Io }
{
    // If standard error can't be written, neither the index files nor the file's length are reported.
    drop(report_read(errors, files));
    drop(warn_of_length(errors, path, made));
    report_formatted(output, wanted.blocks, made.pages, wanted.first)
}

// Tells of a file that is longer than the spool that was made in it.
fn warn_of_length<E: Output>(errors: &mut E, path: &str, made: Made) -> Result<(), Refused> {
    match made.there {
        Some(len) if len > PAGE as u64 * made.pages as u64 => report_longer(errors, path, len),
        _ => Ok(()),
    }
}

/// Makes a spool as `format_in` does, whose first upload gets this number, or 1 for 0. A number that would leave fewer
/// than 10^15 is refused with `NumberTooLarge` before anything else. If memory or the disk refuses the number, the
/// spool is made nevertheless, and `raise_in` gives it one.
pub fn format_raised_in<'a, F: SpoolFiles>(
    alloc: Global,
    files: &mut F,
    path: &'a str,
    blocks: u32,
    indexes: &IndexSet,
    overwrite: bool,
    first: u64,
) -> Result<Made, Failure<'a>>
    ensures too_large { latest < first → (files.new ≡ files.old)
        × IsErrAnd result (λ failure. fault_in failure ≡ Fault.NumberTooLarge) }

    // What `format_in` refuses is refused, and only read.
    ensures untouched { (disks : Disks F.File) (d : F.File) → F.holds files.old disks → disks path.now ≡ Some d
        → F.File.honest d → HasMagic (F.File.size d) (F.File.current d)
        → IsErr result × Leaves (F.holds files.new) disks path.now (OnlyRead F.File.Disk d) }
    ensures foreign { (disks : Disks F.File) (d : F.File) → F.holds files.old disks → disks path.now ≡ Some d
        → F.File.honest d → (IsBlank (F.File.size d) (F.File.current d) → ⊥) → overwrite ≡ false
        → IsErr result × Leaves (F.holds files.new) disks path.now (OnlyRead F.File.Disk d) }

    // What is made shows what `format_in` makes, with this next number.
    ensures made { (disks : Disks F.File) → F.holds files.old disks → OnOk result (Leaves (F.holds files.new) disks
        path.now (λ d. AllShow F.File.Disk d blocks (raised (no_uploads indexes.now) (max 1 first)))) }
    ensures pages { IfOk result (λ made. made.pages ≡ all_pages blocks) }

    // Refused or not, the other files stay.
    ensures others { (disks : Disks F.File) → F.holds files.old disks
        → LeavesOthers (F.holds files.new) disks path.now }
{
    if first > LATEST {
        return Err(Failure::advised(Fault::NumberTooLarge, Advice::Number));
    }
    let made = match format_in(files, path, blocks, indexes, overwrite) {
        Ok(made) => made,
        Err(failure) => return Err(failure),
    };
    match raise_to(alloc, files, path, first) {
        Ok(_next) => Ok(made),
        Err(failure) => Err(failure),
    }
}

/// What `format_in` came to.
#[derive(Clone, Copy, Debug, PartialEq, Eq, Drop)]
pub struct Made {
    /// How many pages the spool has.
    pub pages: u32,
    /// The length of the file that was there, in bytes. `None` where there was none.
    pub there: Option<u64>,
}

/// Makes a spool without uploads, of so many text blocks, in the file at this path, which is made or lengthened, and
/// never shortened.
///
/// Refused with `Size`; then with `InUse`, `CannotOpen` and the like where the file isn't opened; then with
/// `AlreadySpool` for a spool, and, unless the file may be overwritten, with `NotEmpty` for one that has a byte other
/// than zero: these stay as they are. Where the system says that there is no room, it is refused with `CannotOpen`, and
/// a file that wasn't there before is removed again. Any other failure to lengthen or sync the file is a disk fault.
pub fn format_in<'a, F: SpoolFiles>(
    files: &mut F,
    path: &'a str,
    blocks: u32,
    indexes: &IndexSet,
    overwrite: bool,
) -> Result<Made, Failure<'a>>
    // A spool is refused, and only read.
    ensures untouched { (disks : Disks F.File) (d : F.File) → F.holds files.old disks → disks path.now ≡ Some d
        → F.File.honest d → HasMagic (F.File.size d) (F.File.current d)
        → IsErr result × Leaves (F.holds files.new) disks path.now (OnlyRead F.File.Disk d) }

    // So is whatever else has a byte other than zero, unless it may be overwritten.
    ensures foreign { (disks : Disks F.File) (d : F.File) → F.holds files.old disks → disks path.now ≡ Some d
        → F.File.honest d → (IsBlank (F.File.size d) (F.File.current d) → ⊥) → overwrite ≡ false
        → IsErr result × Leaves (F.holds files.new) disks path.now (OnlyRead F.File.Disk d) }

    // What is made shows no uploads, these indexes and so many blocks, and the answer has the number of pages.
    ensures made { (disks : Disks F.File) → F.holds files.old disks → OnOk result (Leaves (F.holds files.new) disks
        path.now (λ d. AllShow F.File.Disk d blocks (no_uploads indexes.now))) }
    ensures pages { IfOk result (λ made. made.pages ≡ all_pages blocks) }

    // Refused or not, the other files stay.
    ensures others { (disks : Disks F.File) → F.holds files.old disks
        → LeavesOthers (F.holds files.new) disks path.now }

    // Each refusal has its reason.
    ensures reasons { (disks : Disks F.File) → F.holds files.old disks → IsHonestAt F.File.Disk disks path.now
        → IfErr result (λ failure. IsReason F.File.Disk (F.holds files.new) disks path.now blocks overwrite
        (fault_in failure)) }
{
    let Some(pages) = pages_of(blocks) else {
        return Err(Failure::advised(Fault::Size, Advice::Blocks));
    };
    let there = match look(files, path, overwrite) {
        Ok(there) => there,
        Err(failure) => return Err(failure),
    };
    match make_spool(files, path, there.is_none(), pages, blocks, indexes) {
        Ok(()) => Ok(Made { pages, there }),
        Err(failure) => Err(failure),
    }
}

// Refuses a file that may not become a spool, before it is lengthened. The length of the file, where there is one.
fn look<'a, F: SpoolFiles>(
    files: &mut F,
    path: &'a str,
    overwrite: bool,
) -> Result<Option<u64>, Failure<'a>>
    ensures spool { (disks : Disks F.File) (d : F.File) → F.holds files.old disks → disks path.now ≡ Some d
        → F.File.honest d → HasMagic (F.File.size d) (F.File.current d)
        → IsErr result × Leaves (F.holds files.new) disks path.now (OnlyRead F.File.Disk d) }
    ensures foreign { (disks : Disks F.File) (d : F.File) → F.holds files.old disks → disks path.now ≡ Some d
        → F.File.honest d → (IsBlank (F.File.size d) (F.File.current d) → ⊥) → overwrite ≡ false
        → IsErr result × Leaves (F.holds files.new) disks path.now (OnlyRead F.File.Disk d) }
    ensures others { (disks : Disks F.File) → F.holds files.old disks
        → LeavesOthers (F.holds files.new) disks path.now }
    ensures reasons { (disks : Disks F.File) (blocks : ℕ) → F.holds files.old disks
        → IsHonestAt F.File.Disk disks path.now → IfErr result (λ failure. IsReason F.File.Disk (F.holds files.new)
        disks path.now blocks overwrite (fault_in failure)) }
{
    let mut disk = match files.open(path) {
        Ok(disk) => disk,
        Err(error) => return if_missing(path, error),
    };
    let len = disk.len();
    let looked = refuse_bytes(&mut disk, overwrite);
    let error = files.error_of(&disk);
    files.close(path, disk);
    match looked {
        Ok(()) => Ok(Some(len)),
        Err(fault) => Err(refused_bytes(fault, path, error)),
    }
}

// Refuses a spool, and, unless it may be overwritten, what has a byte other than zero.
fn refuse_bytes<D: Disk>(disk: &mut D, overwrite: bool) -> Result<(), Fault>
    ensures read { OnlyRead D.Disk disk.old disk.new }
    ensures spool { D.honest disk.old → HasMagic (D.size disk.old) (D.current disk.old) → IsErr result }
    ensures foreign { D.honest disk.old → (IsBlank (D.size disk.old) (D.current disk.old) → ⊥) → overwrite ≡ false
        → IsErr result }
    ensures reasons { D.honest disk.old → IfErr result (IsRefusedFor (D.size disk.old) (D.current disk.old) overwrite) }
{
    if is_spool(disk)? {
        return Err(Fault::AlreadySpool);
    }
    if overwrite || is_blank(disk)? {
        return Ok(());
    }
    Err(Fault::NotEmpty)
}

// The refusal of a file that is there, with what to do. `error` is the disk's.
fn refused_bytes<'a>(fault: Fault, path: &'a str, error: Option<io::Error>) -> Failure<'a>
    ensures { fault_in result ≡ fault }
{
    match fault {
        Fault::AlreadySpool => Failure::advised(fault, Advice::AlreadySpool(path)),
        Fault::NotEmpty => Failure::advised(fault, Advice::NotEmpty(path)),
        _ => Failure::on_disk(fault, path, error),
    }
}

// A file wasn't opened: that is well where there is none.
fn if_missing<'a>(path: &'a str, error: io::Error) -> Result<Option<u64>, Failure<'a>>
    ensures missing { IsOk result → error_kind error ≡ ErrorKind.NotFound }
    ensures fault { IfErr result (λ failure. fault_in failure ≡ opening_fault (error_kind error)) }
{
    match error.kind() {
        ErrorKind::NotFound => Ok(None),
        _ => Err(Failure::on_opening(Task::MakeSpool(path), path, error)),
    }
}

// Makes a spool of so many pages in a file. `is_new` is whether there was none.
fn make_spool<'a, F: SpoolFiles>(
    files: &mut F,
    path: &'a str,
    is_new: bool,
    pages: u32,
    blocks: u32,
    indexes: &IndexSet,
) -> Result<(), Failure<'a>>
    requires least { LEAST_BLOCKS ≤ blocks }
    requires most { blocks ≤ MOST_BLOCKS }
    requires pages { pages ≡ all_pages blocks }
    ensures made { (disks : Disks F.File) → F.holds files.old disks → OnOk result (Leaves (F.holds files.new) disks
        path.now (λ d. AllShow F.File.Disk d blocks (no_uploads indexes.now))) }
    ensures others { (disks : Disks F.File) → F.holds files.old disks
        → LeavesOthers (F.holds files.new) disks path.now }
    ensures reasons { (disks : Disks F.File) (overwrite : Bool) → F.holds files.old disks
        → IfErr result (λ failure. IsReason F.File.Disk (F.holds files.new) disks path.now blocks overwrite
        (fault_in failure)) }
{
    let mut disk = match files.create(path, PAGE as u64 * pages as u64) {
        Ok(disk) => disk,
        Err(error) => {
            let (failure, error) = not_created(path, error);
            return Err(not_made(files, path, is_new, failure, Some(error)));
        }
    };
    let made = format_on(&mut disk, blocks, indexes);
    let error = files.error_of(&disk);
    files.close(path, disk);
    match made {
        Ok(_pages) => Ok(()),
        Err(fault) => {
            let failure = Failure::on_disk(Fault::from(fault), path, error);
            Err(not_made(files, path, is_new, failure, error))
        }
    }
}

// The failure to make a spool's file, and the system's reason.
fn not_created<'a>(path: &'a str, error: CreateError) -> (Failure<'a>, io::Error)
    ensures { fault_in result.0 ≡ creating_fault error }
{
    match error {
        CreateError::Open(error) => (
            Failure::on_opening(Task::MakeSpool(path), path, error),
            error,
        ),
        CreateError::Lengthen(error) => (
            Failure::on_disk(Fault::of_lengthening(error.kind()), path, Some(error)),
            error,
        ),
    }
}

// The failure to make a spool. Where there was no room for it, a new file is removed again.
fn not_made<'a, F: SpoolFiles>(
    files: &mut F,
    path: &'a str,
    is_new: bool,
    failure: Failure<'a>,
    error: Option<io::Error>,
) -> Failure<'a>
    ensures others { (disks : Disks F.File) → F.holds files.old disks
        → LeavesOthers (F.holds files.new) disks path.now }
    ensures told { ((result ≡ failure.entry) × (files.new ≡ files.old)) ⊎ (fault_in result ≡ Fault.CannotOpen) }
{
    let Some(error) = error else {
        return failure;
    };
    if !is_full(error.kind()) {
        return failure;
    }
    let task = if take_back(files, path, is_new) {
        Task::FitNewSpool(path)
    } else {
        Task::FitSpool(path)
    };
    Failure::new(Fault::CannotOpen, task, error)
}

// Removes a file that is new. Whether it is gone.
fn take_back<F: SpoolFiles>(files: &mut F, path: &str, is_new: bool) -> bool
    ensures others { (disks : Disks F.File) → F.holds files.old disks
        → LeavesOthers (F.holds files.new) disks path.now }
{
    if !is_new {
        return false;
    }
    files.remove(path).is_ok()
}

// Whether the system said that there is no room.
fn is_full(kind: ErrorKind) -> bool {
    matches!(
        kind,
        ErrorKind::StorageFull | ErrorKind::QuotaExceeded | ErrorKind::FileTooLarge
    )
}
