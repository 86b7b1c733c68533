//! The command: the spool in a file, exported into a folder.
ghost use Rattle.std.specs.Prelude.{◌≡◌, ◌⊎◌, Err, IfErr, IsErrAnd, None, Ok, Some};
ghost use Rattle.gateway_outside.specs.Failures.{fault_in};
ghost use Rattle.gateway_outside.specs.Faults.{reading_fault};
ghost use Rattle.gateway_outside.specs.SpoolFiles.{Disks, Leaves, OnlyRead, with_disk};
ghost use Rattle.gateway_outside.specs.declared.faults.Fault.{Fault};
ghost use Rattle.gateway_export.specs.Command.{AnswersExport, ExportedIn, ExportsAt, ExportsInto, StaysOut, ToldIn};
ghost use Rattle.gateway_export.specs.Places.{find_kind};

use crate::exporting::{ExportTally, export_on};
use crate::folders::Folder;
use crate::places::{FindError, Places};
use gateway_outside::{Advice, Failure, Fault, Output, SpoolFiles, Task, open_in, refused_by};
use std::alloc::Global;
use std::io;

/// Writes the text of each complete upload of the spool in the file at this path, or of each upload, into a file of its
/// own in a folder, and prints a line for each upload. A file gets its name once it is whole. A file that was there
/// before stays as it is, and the others are still written. If such a file couldn't be read or synced, the call is
/// refused at the end, with `Io`; or else, if one isn't its upload's text, byte for byte, with `FileDiffers`.
pub fn export_in<'a, F: SpoolFiles, P: Places, W: Output>(
    alloc: Global,
    files: &mut F,
    places: &mut P,
    output: &mut W,
    spool: &'a str,
    folder: &'a str,
    all: bool,
) -> Result<(), Failure<'a>>
    // The folder at this path was found by one call, and the spool exported into it with what `export_on` promises; or
    // one of the two calls that were to find the folder and to open the spool's file failed, and nothing was printed.
    // `Io` is answered by what the output and the folder refused, and where a file of the folder couldn't be read. The
    // other files and folders stay.
    ensures exports { ExportsAt F.File.Disk P.Folder.Folder (F.holds files.old) (F.holds files.new)
        (F.unopened files.old) (F.unopened files.new) spool.now (W.contents output.old) (W.contents output.new)
        (W.refusals output.old) (W.refusals output.new) result all (P.holds places.old) (P.holds places.new)
        (P.searches places.old) (P.searches places.new) folder.now
        ((files.new ≡ files.old) × (output.new ≡ output.old)) }
{
    match places.find(alloc, folder) {
        Ok(found) => {
            let mut found = found;
            let exported = export_into(alloc, files, output, spool, folder, &mut found, all);
            places.leave(folder, found);
            return exported;
        }
        Err(error) => return Err(not_found(folder, error)),
    }
}

// The folder at this path isn't found.
fn not_found<'a>(folder: &'a str, error: FindError) -> Failure<'a>
    ensures { fault_in result ≡ reading_fault (find_kind error) }
{
    let fault = Fault::of_reading(error.kind());
    match error {
        FindError::Look(error) => Failure::new(fault, Task::FindTextFolder(folder), error),
        FindError::Lock(error) => Failure::new(fault, Task::WriteInto(folder), error),
    }
}

// Exports the spool in the file at this path into a folder, as `export_in` does.
fn export_into<'a, F: SpoolFiles, G: Folder, W: Output>(
    alloc: Global,
    files: &mut F,
    output: &mut W,
    spool: &'a str,
    folder: &'a str,
    found: &mut G,
    all: bool,
) -> Result<(), Failure<'a>>
    ensures exports { ExportsInto F.File.Disk G.Folder (F.holds files.old) (F.holds files.new) (F.unopened files.old)
        (F.unopened files.new) spool.now (W.contents output.old) (W.contents output.new) (W.refusals output.old)
        (W.refusals output.new) result all found.old found.new }
    ensures tells { StaysOut (F.unopened files.old) (F.unopened files.new) spool.now found.old found.new
        (W.contents output.old) (W.contents output.new) (W.refusals output.old) (W.refusals output.new) result
        ⊎ ToldIn G.Folder found.old found.new (W.refusals output.old) (W.refusals output.new) result }
{
    let disk = match open_in(files, spool) {
        Ok(disk) => disk,
        Err(failure) => return Err(failure),
    };
    export_at(alloc, files, output, spool, disk, folder, found, all)
}

// Exports the spool at this path, which is open. It is closed.
fn export_at<'a, F: SpoolFiles, G: Folder, W: Output>(
    alloc: Global,
    files: &mut F,
    output: &mut W,
    spool: &'a str,
    disk: F::File,
    folder: &'a str,
    found: &mut G,
    all: bool,
) -> Result<(), Failure<'a>>
    ensures exports { (disks : Disks F.File) → F.holds files.old (with_disk disks spool.now None)
        → Leaves (F.holds files.new) disks spool.now
        (ExportedIn F.File.Disk G.Folder disk found.old found.new all (W.contents output.old) (W.contents output.new)
        (W.refusals output.old) (W.refusals output.new) result) }
    ensures tells { ToldIn G.Folder found.old found.new (W.refusals output.old) (W.refusals output.new) result }
{
    let (disk, exported) = export_on(alloc, output, found, disk, all);
    match exported {
        Ok(done) => {
            files.close(spool, disk);
            return ended(folder, done, found.unread_error());
        }
        Err(fault) => {
            return Err(refused_at(
                files,
                fault,
                found.error(),
                output.error(),
                spool,
                disk,
                folder,
            ));
        }
    }
}

// How an export ends that was done. If files of this folder couldn't be read or synced, the first wasn't for this
// reason.
fn ended<'a>(
    folder: &'a str,
    done: ExportTally,
    unread: Option<io::Error>,
) -> Result<(), Failure<'a>>
    ensures { AnswersExport (Ok done) result }
{
    if done.unread {
        return Err(unread_in(folder, unread));
    }
    if done.differs {
        return Err(Failure::advised(Fault::FileDiffers, Advice::Differs(folder)));
    }
    Ok(())
}

// Some files of this folder couldn't be read or synced, the first for this reason.
fn unread_in<'a>(folder: &'a str, error: Option<io::Error>) -> Failure<'a>
    ensures { fault_in result ≡ Fault.Io }
{
    match error {
        Some(error) => Failure::new(Fault::Io, Task::ReadTexts(folder), error),
        None => Failure::from(Fault::Io),
    }
}

// As `refused_by`, where it may have been this folder that failed, for this reason.
fn refused_at<'a, F: SpoolFiles>(
    files: &mut F,
    fault: Fault,
    error: Option<io::Error>,
    output: Option<io::Error>,
    spool: &'a str,
    disk: F::File,
    folder: &'a str,
) -> Failure<'a>
    ensures fault { fault_in result ≡ fault }
    ensures left { (disks : Disks F.File) → F.holds files.old disks
        → Leaves (F.holds files.new) disks spool.now (OnlyRead F.File.Disk disk) }
{
    match (fault, error) {
        (Fault::Io, Some(error)) => {
            files.close(spool, disk);
            Failure::new(fault, Task::WriteInto(folder), error)
        }
        _ => refused_by(files, fault, output, spool, disk),
    }
}
