//! A spool in a file, brought to version 2.
ghost use Rattle.std.specs.Prelude.{◌≡◌, IsErrAnd};
ghost use Rattle.spool_disk.specs.Disk.{Counts};
ghost use Rattle.gateway_outside.specs.declared.faults.Fault.{Fault};
ghost use Rattle.gateway_outside.specs.Failures.{fault_in};
ghost use Rattle.gateway_format.specs.Upgrading.{UpgradesAt};

use crate::reports::report_upgraded;
use gateway_outside::{Failure, Fault, Output, SpoolFiles, open_in, refused_in};
use spool_image::upgrade;
use std::alloc::Global;

/// Brings the spool in the file at this path to version 2, and prints that.
pub fn upgrade_in<'a, F: SpoolFiles, W: Output>(
    alloc: Global,
    files: &mut F,
    output: &mut W,
    path: &'a str,
) -> Result<(), Failure<'a>>
    // The file was opened and upgraded, with what `spool_image::upgrade` promises; or the one call that was to open it
    // failed, and nothing was printed. The other files stay.
    ensures upgrades { UpgradesAt F.File.Disk (F.holds files.old) (F.holds files.new) (F.unopened files.old)
        (F.unopened files.new) path.now (W.contents output.old) (W.contents output.new) result }

    // `Io` is answered exactly where the output refused: then it was upgraded.
    ensures io { Counts (IsErrAnd result (λ failure. fault_in failure ≡ Fault.Io)) (W.refusals output.old)
        (W.refusals output.new) }
{
    let mut disk = match open_in(files, path) {
        Ok(disk) => disk,
        Err(failure) => return Err(failure),
    };
    match upgrade(alloc, &mut disk) {
        Ok(()) => {
            files.close(path, disk);
            return report_upgraded(output);
        }
        Err(error) => return Err(refused_in(files, Fault::from(error), path, disk)),
    }
}
