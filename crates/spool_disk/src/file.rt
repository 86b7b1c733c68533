//! A file as a disk.
ghost use Rattle.std.specs.Prelude.{◌≡◌, ◌↔◌, ◌++◌, ℕ, [], ◌∷◌, true, false, is_ok, IfOk, IfErr, IsErr, OnOk, Some};
ghost use Rattle.spool_disk.specs.Disk.{Counts, IsImage};
ghost use Rattle.spool_disk.specs.Positioned.{made, opened, lengthened, calls_to_make};
ghost use Rattle.spool_disk.specs.SystemFile.{calls_of};

use crate::{Disk, DiskFault, FileCall, Positioned, SystemFile};
use std::fs::{File, Files};
use std::io;

/// A file as a disk. Its length is the one that it had when it was opened.
///
/// No contract states what a file gives or stores, so no file is proved to be honest: that it behaves as a disk is a
/// premise of its users. The contracts state which calls of the file each call of the disk makes (`made`), that the
/// length stays, and that each failed call is counted.
#[derive(Drop)]
pub struct PositionedDisk<F> {
    file: F,
    len: u64,
    failed: u64,
    /// The system's reason for the latest failed call.
    error: Option<io::Error>,
}

/// A file of the operating system as a disk.
///
/// It has the file's exclusive lock (`flock`) until it is dropped, so that no other `FileDisk` of any process uses the
/// file meanwhile. The lock is advisory: other programs can still write to the file.
pub type FileDisk = PositionedDisk<SystemFile>;

/// Why no file became a disk.
#[derive(Clone, Copy, Debug, Drop)]
pub enum CreateError {
    /// It can't be opened or made, or another disk has its lock (`ResourceBusy`).
    Open(io::Error),
    /// Its length can't be asked for or set, or it or its folder can't be synced.
    Lengthen(io::Error),
}

impl From<CreateError> for DiskFault {
    fn from(_error: CreateError) -> Self {
        DiskFault
    }
}

impl PositionedDisk<SystemFile> {
    ghost use Rattle.spool_disk.specs.File.{length_of, failed_in, calls_in};

    /// Opens the file at the path, or creates it. Its contents stay; if it is shorter than `len`, it is filled with
    /// zeros up to that.
    ///
    /// # Errors
    ///
    /// `DiskFault` for any error of the file system, and if another disk has the file's lock.
    pub fn create<R: Files<File = File> + Alloc>(
        rt: &R,
        path: &str,
        len: u64,
    ) -> Result<Self, DiskFault>
        ensures len { IfOk result (λ disk. length_of disk ≡ len) }
        ensures none { IfOk result (λ disk. failed_in disk ≡ 0) }
        ensures made { IfOk result (λ disk. (found : ℕ) × (calls_in disk ≡ calls_to_make found len)) }
    {
        FileDisk::try_create(rt, path, len).map_err(DiskFault::from)
    }

    /// Opens the file at the path with its current length.
    ///
    /// # Errors
    ///
    /// `DiskFault` for any error of the file system, and if another disk has the file's lock.
    pub fn open<R: Files<File = File>>(rt: &R, path: &str) -> Result<Self, DiskFault>
        ensures none { IfOk result (λ disk. failed_in disk ≡ 0) }
        ensures made { IfOk result (λ disk.
            calls_in disk ≡ made (FileCall.Len (length_of disk)) [] true ∷ opened false) }
    {
        FileDisk::try_open(rt, path).map_err(DiskFault::from)
    }

    /// As `create`, with the call that failed and the system's error.
    pub fn try_create<R: Files<File = File> + Alloc>(
        rt: &R,
        path: &str,
        len: u64,
    ) -> Result<Self, CreateError>
        ensures len { IfOk result (λ disk. length_of disk ≡ len) }
        ensures none { IfOk result (λ disk. failed_in disk ≡ 0) }
        ensures made { IfOk result (λ disk. (found : ℕ) × (calls_in disk ≡ calls_to_make found len)) }
    {
        let mut file = match SystemFile::create(rt, path) {
            Ok(file) => file,
            Err(error) => return Err(CreateError::Open(error)),
        };
        match make_last(rt, path, &mut file, len) {
            Ok(()) => Ok(PositionedDisk::new(file, len)),
            Err(error) => Err(CreateError::Lengthen(error)),
        }
    }

    /// As `open`, with the system's error: `ResourceBusy` if another disk has the file's lock.
    pub fn try_open<R: Files<File = File>>(rt: &R, path: &str) -> io::Result<Self>
        ensures none { IfOk result (λ disk. failed_in disk ≡ 0) }
        ensures made { IfOk result (λ disk.
            calls_in disk ≡ made (FileCall.Len (length_of disk)) [] true ∷ opened false) }
    {
        let mut file = SystemFile::open(rt, path)?;
        let len = file.len()?;
        Ok(PositionedDisk::new(file, len))
    }
}

impl<F> PositionedDisk<F> {
    ghost use Rattle.spool_disk.specs.File.{file_of, length_of, failed_in, latest_error};

    /// A disk over a file that has at least `len` bytes.
    pub fn new(file: F, len: u64) -> Self
        ensures file { file_of result ≡ file }
        ensures len { length_of result ≡ len }
        ensures none { failed_in result ≡ 0 }
    {
        PositionedDisk {
            file,
            len,
            failed: 0,
            error: None,
        }
    }

    /// The system's error of the latest failed call, if any failed.
    pub fn error(&self) -> Option<io::Error>
        ensures { result ≡ latest_error self.now }
    {
        self.error
    }

    // Counts a failed call and stores its error.
    fn note(&mut self, outcome: io::Result<()>) -> Result<(), DiskFault>
        ensures file { file_of self.new ≡ file_of self.old }
        ensures len { length_of self.new ≡ length_of self.old }
        ensures same { is_ok result ≡ is_ok outcome }
        ensures counts { Counts (IsErr result) (failed_in self.old) (failed_in self.new) }
        ensures why { IfErr outcome (λ error. latest_error self.new ≡ Some error) }
    {
        match outcome {
            Ok(()) => Ok(()),
            Err(error) => {
                self.failed = self.failed.saturating_add(1);
                self.error = Some(error);
                Err(DiskFault)
            }
        }
    }
}

// Makes the file at the path at least `len` bytes long, and makes it and its name last.
fn make_last<R: Files<File = File> + Alloc>(
    rt: &R,
    path: &str,
    file: &mut SystemFile,
    len: u64,
) -> io::Result<()>
    ensures { OnOk result ((found : ℕ)
        × (calls_of file.new ≡ made FileCall.SyncFolder [] true ∷ lengthened found len ++ calls_of file.old)) }
{
    lengthen(file, len)?;
    file.sync_folder(rt, path)
}

// Makes the file at least `len` bytes long, and syncs all of it.
fn lengthen<F: Positioned>(file: &mut F, len: u64) -> io::Result<()>
    ensures { OnOk result ((found : ℕ) × (F.calls file.new ≡ lengthened found len ++ F.calls file.old)) }
{
    if file.len()? < len {
        file.set_len(len)?;
    }
    file.sync_all()
}

impl<F: Positioned> Disk for PositionedDisk<F> {
    ghost use Rattle.spool_disk.specs.File.{file_of, length_of, failed_in};
    ghost use Rattle.spool_disk.specs.Positioned.{reads_in};

    ghost size = { length_of };

    // No file is known to be honest.
    ghost honest = { λ d. ⊥ };

    ghost current = { λ d p. 0 };

    // A crash may leave any bytes.
    ghost unsynced = { λ d p. Unit {0} };

    ghost moment = { λ d. 0 };

    ghost left_since = { λ d t image. IsImage (λ p. 0) (λ p. Unit {0}) image };

    ghost failures = { failed_in };

    // The trace of the file's calls has the reads.
    ghost reads = { λ d. reads_in (F.calls (file_of d)) };

    ghost fails_by = { λ failed old new. Unit {0} };

    ghost counts_now = { λ d t image le now. now };

    ghost only_now = { λ d image left. left };

    fn len(&self) -> u64 {
        self.len
    }

    /// Makes one read of the file, of this range.
    fn read(&mut self, at: u64, buf: &mut [u8]) -> Result<(), DiskFault>
        ensures size { length_of self.new ≡ length_of self.old }
        ensures counts { Counts (IsErr result) (failed_in self.old) (failed_in self.new) }
        ensures made { F.calls (file_of self.new)
            ≡ made (FileCall.ReadAt at) buf.new (is_ok result) ∷ F.calls (file_of self.old) }
    {
        let outcome = self.file.read_exact_at(buf, at);
        self.note(outcome)
    }

    /// Makes one write to the file, of these bytes at this place.
    fn write_at(&mut self, at: u64, bytes: &[u8]) -> Result<(), DiskFault>
        ensures size { length_of self.new ≡ length_of self.old }
        ensures counts { Counts (IsErr result) (failed_in self.old) (failed_in self.new) }
        ensures made { F.calls (file_of self.new)
            ≡ made (FileCall.WriteAt at) bytes.now (is_ok result) ∷ F.calls (file_of self.old) }
    {
        let outcome = self.file.write_all_at(bytes, at);
        self.note(outcome)
    }

    /// Makes one sync of the file's bytes. The file's length was synced when it was opened.
    fn sync(&mut self) -> Result<(), DiskFault>
        ensures size { length_of self.new ≡ length_of self.old }
        ensures counts { Counts (IsErr result) (failed_in self.old) (failed_in self.new) }
        ensures made { F.calls (file_of self.new)
            ≡ made FileCall.SyncData [] (is_ok result) ∷ F.calls (file_of self.old) }
    {
        let outcome = self.file.sync_data();
        self.note(outcome)
    }
}
