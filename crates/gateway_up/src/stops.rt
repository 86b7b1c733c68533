//! Why serving a spool stopped.
ghost use Rattle.std.specs.Prelude.{◌≡◌};
ghost use Rattle.gateway_outside.specs.Failures.{fault_in};
ghost use Rattle.gateway_outside.specs.SpoolFiles.{Disks, Leaves, OnlyRead};
ghost use Rattle.gateway_up.specs.Stops.{fault_of};

use gateway_outside::{Failure, Fault, SpoolFiles, refused_in};

/// Why serving a spool stopped.
#[derive(Clone, Copy, Debug, Drop)]
pub enum Stopped<'a> {
    /// The spool didn't open, or its disk failed.
    Spool(Fault),
    /// Something else of the program's outside failed.
    Outside(Failure<'a>),
}

/// Serving the spool at this path stopped so. The file is closed.
pub(crate) fn stopped_in<'a, F: SpoolFiles>(
    files: &mut F,
    stopped: Stopped<'a>,
    path: &'a str,
    disk: F::File,
) -> Failure<'a>
    ensures fault { fault_in result ≡ fault_of stopped.entry }
    ensures left { (disks : Disks F.File) → F.holds files.old disks
        → Leaves (F.holds files.new) disks path.now (OnlyRead F.File.Disk disk) }
{
    match stopped {
        Stopped::Spool(fault) => refused_in(files, fault, path, disk),
        Stopped::Outside(failure) => {
            files.close(path, disk);
            failure
        }
    }
}
