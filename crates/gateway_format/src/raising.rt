//! A spool in a file, given a later next number.
ghost use Rattle.std.specs.Prelude.{◌≡◌, ◌⊎◌, IfErr, IsErrAnd, Some};
ghost use Rattle.spool_disk.specs.Disk.{Counts};
ghost use Rattle.gateway_outside.specs.declared.faults.Fault.{Fault};
ghost use Rattle.gateway_outside.specs.Failures.{fault_in};
ghost use Rattle.gateway_outside.specs.Openings.{StaysShut};
ghost use Rattle.gateway_outside.specs.SpoolFiles.{Disks, Leaves};
ghost use Rattle.gateway_format.specs.Raising.{FailsAs, RaisedIn, RaisesAt};

use crate::reports::report_raised;
use gateway_outside::{Failure, Fault, Output, SpoolFiles, open_in, refused_in};
use spool_image::raise;
use std::alloc::Global;

/// Gives the spool in the file at this path this next number, unless its own is as late or later, and prints the later
/// of the two. Refused as `upgrade_in` is, but with `NumberTooLarge`, before anything is read, if fewer than 10^15
/// numbers would be left.
pub fn raise_in<'a, F: SpoolFiles, W: Output>(
    alloc: Global,
    files: &mut F,
    output: &mut W,
    path: &'a str,
    number: u64,
) -> Result<(), Failure<'a>>
    // The file was opened and raised, with what `spool_image::raise` promises; or the one call that was to open it
    // failed, and nothing was printed. The other files stay.
    ensures raises { RaisesAt F.File.Disk (F.holds files.old) (F.holds files.new) (F.unopened files.old)
        (F.unopened files.new) path.now (W.contents output.old) (W.contents output.new) result number }

    // `Io` is answered exactly where the output refused: then it was raised.
    ensures io { Counts (IsErrAnd result (λ failure. fault_in failure ≡ Fault.Io)) (W.refusals output.old)
        (W.refusals output.new) }
{
    match raise_to(alloc, files, path, number) {
        Ok(next) => return report_raised(output, next),
        Err(failure) => return Err(failure),
    }
}

/// Raises the spool in the file at this path as `raise_in` does: the next number that it has then.
pub(crate) fn raise_to<'a, F: SpoolFiles>(
    alloc: Global,
    files: &mut F,
    path: &'a str,
    number: u64,
) -> Result<u64, Failure<'a>>
    ensures raises { (disks : Disks F.File) (d : F.File) → F.holds files.old disks → disks path.now ≡ Some d
        → Leaves (F.holds files.new) disks path.now (λ d'. IsErrAnd result
        (λ failure. StaysShut (F.unopened files.old) (F.unopened files.new) path.now d failure d')
        ⊎ RaisedIn F.File.Disk d number (λ answer. FailsAs answer result) d') }
    ensures never_io { IfErr result (λ failure. fault_in failure ≡ Fault.Io → ⊥) }
{
    let mut disk = match open_in(files, path) {
        Ok(disk) => disk,
        Err(failure) => return Err(failure),
    };
    match raise(alloc, &mut disk, number) {
        Ok(next) => {
            files.close(path, disk);
            Ok(next)
        }
        Err(error) => Err(refused_in(files, Fault::from(error), path, disk)),
    }
}
