//! Files of the operating system. That each call here is the one that its clause names is trusted and not proved, since
//! no contract of the kit states what a file does.
ghost use Rattle.std.specs.Prelude.{◌≡◌, [], ◌∷◌, true, false, is_ok, IfOk};
ghost use Rattle.spool_disk.specs.Positioned.{made, opened};

use crate::{FileCall, Made, Positioned};
use common::Trace;
use std::fs::{self, File, Files, OpenOptions, TryLockError};
use std::io;
use std::os::unix::fs::FileExt;
use std::path::Path;

/// A file of the operating system with its exclusive lock (`flock`), until it is dropped.
#[derive(Drop)]
pub struct SystemFile {
    file: File,
    log: Trace<Made>,
}

impl SystemFile {
    ghost use Rattle.spool_disk.specs.SystemFile.{calls_of};

    /// Opens the file at the path, or creates it. Its contents stay.
    ///
    /// # Errors
    ///
    /// `ResourceBusy` if it is locked.
    pub fn create<R: Files<File = File>>(rt: &R, path: &str) -> io::Result<Self>
        ensures { IfOk result (λ file. calls_of file ≡ opened true) }
    {
        SystemFile::opened(rt, path, true, false)?.locked()
    }

    /// Opens the file at the path. Its contents stay.
    ///
    /// # Errors
    ///
    /// `ResourceBusy` if it is locked.
    pub fn open<R: Files<File = File>>(rt: &R, path: &str) -> io::Result<Self>
        ensures { IfOk result (λ file. calls_of file ≡ opened false) }
    {
        SystemFile::opened(rt, path, false, false)?.locked()
    }

    // Opens the file at the path: one call of the system.
    fn opened<R: Files<File = File>>(
        rt: &R,
        path: &str,
        create: bool,
        truncate: bool,
    ) -> io::Result<Self>
        ensures { IfOk result (λ file. calls_of file ≡ made (FileCall.Open create truncate) [] true ∷ []) }
    {
        let file = OpenOptions::new()
            .read(true)
            .write(true)
            .create(create)
            .truncate(truncate)
            .open(rt, path)?;
        let log = Trace::new().and(&Made::new(FileCall::Open { create, truncate }, &[], true));
        Ok(SystemFile { file, log })
    }

    // Takes the file's exclusive lock: one call of the system.
    fn locked(self) -> io::Result<Self>
        ensures { IfOk result (λ file. calls_of file ≡ made FileCall.Lock [] true ∷ calls_of self) }
    {
        match self.file.try_lock() {
            Ok(()) => Ok(SystemFile {
                file: self.file,
                log: self.log.and(&Made::new(FileCall::Lock, &[], true)),
            }),
            Err(TryLockError::WouldBlock) => {
                Err(io::Error::new(io::ErrorKind::ResourceBusy, "it is in use"))
            }
            Err(TryLockError::Error(error)) => Err(error),
        }
    }

    /// Syncs the folder of the file that the path leads to, through links, so that the file's name is durable.
    pub fn sync_folder<R: Files<File = File> + Alloc>(
        &mut self,
        rt: &R,
        path: &str,
    ) -> io::Result<()>
        ensures { calls_of self.new ≡ made FileCall.SyncFolder [] (is_ok result) ∷ calls_of self.old }
    {
        let outcome = sync_folder_of(rt, path);
        self.log = self
            .log
            .and(&Made::new(FileCall::SyncFolder, &[], outcome.is_ok()));
        outcome
    }
}

// Syncs the folder of the file that the path leads to. Where the path is a link, that is not the link's own folder.
fn sync_folder_of<R: Files<File = File> + Alloc>(rt: &R, path: &str) -> io::Result<()> {
    let target = fs::canonicalize(rt, path)?;
    let folder = target.parent().unwrap_or(Path::new("/"));
    File::open(rt, folder)?.sync_all()
}

impl Positioned for SystemFile {
    ghost use Rattle.spool_disk.specs.SystemFile.{calls_of};

    ghost calls = { calls_of };

    fn len(&mut self) -> io::Result<u64> {
        let len = self.file.metadata()?.len();
        self.log = self.log.and(&Made::new(FileCall::Len(len), &[], true));
        Ok(len)
    }

    fn read_exact_at(&mut self, buf: &mut [u8], at: u64) -> io::Result<()> {
        let outcome = self.file.read_exact_at(buf, at);
        self.log = self
            .log
            .and(&Made::new(FileCall::ReadAt(at), buf, outcome.is_ok()));
        outcome
    }

    fn write_all_at(&mut self, bytes: &[u8], at: u64) -> io::Result<()> {
        let outcome = self.file.write_all_at(bytes, at);
        self.log = self
            .log
            .and(&Made::new(FileCall::WriteAt(at), bytes, outcome.is_ok()));
        outcome
    }

    fn set_len(&mut self, len: u64) -> io::Result<()> {
        let outcome = self.file.set_len(len);
        self.log = self
            .log
            .and(&Made::new(FileCall::SetLen(len), &[], outcome.is_ok()));
        outcome
    }

    fn sync_data(&mut self) -> io::Result<()> {
        let outcome = self.file.sync_data();
        self.log = self
            .log
            .and(&Made::new(FileCall::SyncData, &[], outcome.is_ok()));
        outcome
    }

    fn sync_all(&mut self) -> io::Result<()> {
        let outcome = self.file.sync_all();
        self.log = self
            .log
            .and(&Made::new(FileCall::SyncAll, &[], outcome.is_ok()));
        outcome
    }
}
