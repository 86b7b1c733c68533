//! Spools in files.
ghost use Rattle.std.specs.Prelude.{◌≡◌, ◌∷◌, [], Err, IfErr, IfOk, List, None, OnErr, OnOk, Some};
ghost use Rattle.std.specs.IoError.{error_kind};
ghost use Rattle.std.specs.declared.io.ErrorKind.{ErrorKind};
ghost use Rattle.gateway_outside.specs.declared.faults.Fault.{Fault};
ghost use Rattle.gateway_outside.specs.Failures.{fault_in};
ghost use Rattle.gateway_outside.specs.Openings.{FailedToOpen, failed_opening};
ghost use Rattle.gateway_outside.specs.SpoolFiles.{Disks, Leaves, LeavesOthers, OnlyRead};
ghost use Rattle.gateway_outside.specs.SpoolFiles.{with_disk};

use crate::advice::{Advice, Task};
use crate::failures::Failure;
use crate::faults::Fault;
use crate::openings::Unopened;
use common::Trace;
use spool_disk::{CreateError, Disk, FileDisk};
use spool_image::is_spool;
use std::{fs, io};

/// Files that spools are in, opened by their paths. One that is open is out until it is closed.
pub trait SpoolFiles {
    ghost use Rattle.gateway_outside.specs.declared.openings.Unopened.{Unopened};

    /// A file that is open, as a disk.
    type File: Disk + Drop;

    /// They hold these disks.
    ghost holds: { Self → Disks Self.File → Type 0 };

    /// Which openings failed, the latest first.
    ghost unopened: { Self → List Unopened };

    /// Opens the file at this path. Where it fails they hold what they held.
    fn open(&mut self, path: &str) -> io::Result<Self::File>
        ensures opened { (disks : Disks Self.File) → holds self.old disks
            → IfOk result (λ disk. (disks path.now ≡ Some disk) × holds self.new (with_disk disks path.now None)) }
        ensures failed { (disks : Disks Self.File) → holds self.old disks → OnErr result (holds self.new disks) }
        ensures missing { (disks : Disks Self.File) → holds self.old disks
            → IfErr result (λ error. error_kind error ≡ ErrorKind.NotFound → disks path.now ≡ None) }
        ensures noted { IfErr result (λ error. unopened self.new
            ≡ failed_opening path.now (error_kind error) ∷ unopened self.old) }
        ensures unnoted { OnOk result (unopened self.new ≡ unopened self.old) };

    /// Opens the file at this path, or makes it, as a disk of so many bytes. Where it fails the others stay.
    fn create(&mut self, path: &str, len: u64) -> Result<Self::File, CreateError>
        ensures made { (disks : Disks Self.File) → holds self.old disks
            → IfOk result (λ disk. (Self.File.size disk ≡ len) × Self.File.honest disk
            × holds self.new (with_disk disks path.now None)) }
        ensures failed { (disks : Disks Self.File) → holds self.old disks
            → OnErr result (LeavesOthers (holds self.new) disks path.now) };

    /// Closes a file, which is at this path then.
    fn close(&mut self, path: &str, disk: Self::File)
        ensures closed { (disks : Disks Self.File) → holds self.old disks
            → holds self.new (with_disk disks path.now (Some disk)) }
        ensures unnoted { unopened self.new ≡ unopened self.old };

    /// Removes the file at this path, and no link to it. The others stay.
    fn remove(&mut self, path: &str) -> io::Result<()>
        ensures others { (disks : Disks Self.File) → holds self.old disks
            → LeavesOthers (holds self.new) disks path.now };

    /// Why a call of an open file failed last. `None` where none did.
    fn error_of(&self, disk: &Self::File) -> Option<io::Error>;
}

/// The files of the file system.
///
/// No contract states which files a file system holds, so it isn't proved that these hold any disks. Whoever relies on
/// them has the premise that they behave as `SpoolFiles`.
#[derive(Drop)]
pub struct SystemFiles<'a> {
    rt: &'a HostRuntime,
    log: Trace<Unopened>,
}

impl<'a> SystemFiles<'a> {
    ghost use Rattle.gateway_outside.specs.System.{unopened_of};

    /// The files that this runtime reaches. No opening failed so far.
    pub fn new(rt: &'a HostRuntime) -> Self
        ensures { unopened_of result ≡ [] }
    {
        SystemFiles {
            rt,
            log: Trace::new(),
        }
    }
}

impl SpoolFiles for SystemFiles<'_> {
    ghost use Rattle.gateway_outside.specs.System.{unopened_of};

    type File = FileDisk;

    // of no disks it is known
    ghost holds = { λ files disks. ⊥ };

    ghost unopened = { unopened_of };

    fn open(&mut self, path: &str) -> io::Result<FileDisk> {
        match FileDisk::try_open(self.rt, path) {
            Ok(disk) => Ok(disk),
            Err(error) => {
                self.log = self.log.and(&Unopened::new(path, error.kind()));
                Err(error)
            }
        }
    }

    fn create(&mut self, path: &str, len: u64) -> Result<FileDisk, CreateError> {
        FileDisk::try_create(self.rt, path, len)
    }

    fn close(&mut self, _path: &str, disk: FileDisk) {
        drop(disk);
    }

    fn remove(&mut self, path: &str) -> io::Result<()> {
        let file = fs::canonicalize(self.rt, path)?;
        fs::remove_file(self.rt, file.as_path())
    }

    fn error_of(&self, disk: &FileDisk) -> Option<io::Error> {
        disk.error()
    }
}

/// The spool in the file at this path.
pub fn open_in<'a, F: SpoolFiles>(files: &mut F, path: &'a str) -> Result<F::File, Failure<'a>>
    ensures opened { (disks : Disks F.File) → F.holds files.old disks
        → IfOk result (λ disk. (disks path.now ≡ Some disk) × F.holds files.new (with_disk disks path.now None)) }
    ensures failed { (disks : Disks F.File) → F.holds files.old disks → OnErr result (F.holds files.new disks) }

    // A failure is that of the one call, and never told as a stream's.
    ensures noted { IfErr result (FailedToOpen (F.unopened files.old) (F.unopened files.new) path.now) }
    ensures never_io { IfErr result (λ failure. fault_in failure ≡ Fault.Io → ⊥) }
{
    match files.open(path) {
        Ok(disk) => Ok(disk),
        Err(error) => Err(Failure::on_opening(Task::OpenSpool(path), path, error)),
    }
}

/// Work on the spool at this path was refused, with an advice where the file can't be read as one. The file is closed.
pub fn refused_in<'a, F: SpoolFiles>(
    files: &mut F,
    fault: Fault,
    path: &'a str,
    disk: F::File,
) -> Failure<'a>
    ensures fault { fault_in result ≡ fault }
    ensures left { (disks : Disks F.File) → F.holds files.old disks
        → Leaves (F.holds files.new) disks path.now (OnlyRead F.File.Disk disk) }
{
    let mut disk = disk;
    let cut_short = is_cut_short(fault, &mut disk);
    let error = files.error_of(&disk);
    files.close(path, disk);
    refusal(fault, path, cut_short, error)
}

/// As `refused_in`, where it may have been a writer that failed, for this reason.
#[tactic(auto, using(crate::specs::Held::unread))]
pub fn refused_by<'a, F: SpoolFiles>(
    files: &mut F,
    fault: Fault,
    output: Option<io::Error>,
    path: &'a str,
    disk: F::File,
) -> Failure<'a>
    ensures fault { fault_in result ≡ fault }
    ensures left { (disks : Disks F.File) → F.holds files.old disks
        → Leaves (F.holds files.new) disks path.now (OnlyRead F.File.Disk disk) }
{
    if fault == Fault::Io {
        files.close(path, disk);
        return Failure::on_streams(fault, None, output);
    }
    refused_in(files, fault, path, disk)
}

// Whether a file that is no spool begins as one, as far as it can be read.
fn is_cut_short<D: Disk>(fault: Fault, disk: &mut D) -> bool
    ensures { OnlyRead D.Disk disk.old disk.new }
{
    fault == Fault::NotASpool && matches!(is_spool(disk), Ok(true))
}

// The refusal of a file. `cut_short` is whether it begins as a spool though it is none, and `error` is the disk's.
fn refusal<'a>(
    fault: Fault,
    path: &'a str,
    cut_short: bool,
    error: Option<io::Error>,
) -> Failure<'a>
    ensures { fault_in result ≡ fault }
{
    if cut_short {
        return Failure::advised(fault, Advice::CutShort(path));
    }
    Failure::on_given(fault, path, error)
}
