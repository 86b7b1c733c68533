//! A spool's file in memory.
ghost use Rattle.std.specs.Prelude.{◌≡◌, [], ◌∷◌, Some, bytes_eq, string_bytes};
ghost use Rattle.std.specs.IoError.{error_kind};
ghost use Rattle.std.specs.declared.io.ErrorKind.{ErrorKind};
ghost use Rattle.gateway_outside.specs.Openings.{failed_opening};

use crate::openings::Unopened;
use crate::spool_files::SpoolFiles;
use common::Trace;
use spool_disk::{CreateError, MemoryDisk};
use std::alloc::Global;
use std::io::{self, ErrorKind};

/// A file in memory, at one path: the disk that is at this path is the one that it has. Of other paths nothing is
/// known, and no file is opened or made there.
#[derive(Drop)]
pub struct MemoryFile {
    alloc: Global,
    path: String,
    disk: Option<MemoryDisk>,
    log: Trace<Unopened>,
}

impl MemoryFile {
    ghost use Rattle.gateway_outside.specs.Memory.{disk_at, path_at, unopened_at};

    /// This disk in the file at this path.
    pub fn new(alloc: Global, path: String, disk: MemoryDisk) -> Self
        ensures path { path_at result ≡ string_bytes path }
        ensures disk { disk_at result ≡ Some disk }
        ensures none { unopened_at result ≡ [] }
    {
        MemoryFile {
            alloc,
            path,
            disk: Some(disk),
            log: Trace::new(),
        }
    }

    /// The disk, where the file is there and closed.
    pub fn into_disk(self) -> Option<MemoryDisk>
        ensures { result ≡ disk_at self }
    {
        self.disk
    }

    // Whether its path is this one.
    fn is_at(&self, path: &str) -> bool
        ensures { result ≡ bytes_eq (path_at self.now) path.now }
    {
        self.path.as_str() == path
    }

    // An opening failed at this path.
    fn refuse(&mut self, path: &str) -> io::Error
        ensures path { path_at self.new ≡ path_at self.old }
        ensures disk { disk_at self.new ≡ disk_at self.old }
        ensures noted { unopened_at self.new ≡ failed_opening path.now (error_kind result) ∷ unopened_at self.old }
        ensures kind { error_kind result ≡ ErrorKind.PermissionDenied }
    {
        let error = io::Error::from(ErrorKind::PermissionDenied);
        self.log = self.log.and(&Unopened::new(path, error.kind()));
        error
    }
}

impl SpoolFiles for MemoryFile {
    ghost use Rattle.gateway_outside.specs.Memory.{disk_at, path_at, unopened_at};

    type File = MemoryDisk;

    ghost holds = { λ file disks. disks (path_at file) ≡ disk_at file };

    ghost unopened = { unopened_at };

    fn open(&mut self, path: &str) -> io::Result<MemoryDisk> {
        if !self.is_at(path) {
            return Err(self.refuse(path));
        }
        match self.disk.take() {
            Some(disk) => Ok(disk),
            None => Err(self.refuse(path)),
        }
    }

    fn create(&mut self, path: &str, len: u64) -> Result<MemoryDisk, CreateError> {
        if !self.is_at(path) || self.disk.is_some() {
            return Err(CreateError::Open(io::Error::from(ErrorKind::PermissionDenied)));
        }
        match MemoryDisk::new(self.alloc, len as usize) {
            Ok(disk) => Ok(disk),
            Err(_) => Err(CreateError::Lengthen(io::Error::from(ErrorKind::OutOfMemory))),
        }
    }

    fn close(&mut self, path: &str, disk: MemoryDisk) {
        if self.is_at(path) {
            self.disk = Some(disk);
        }
    }

    fn remove(&mut self, path: &str) -> io::Result<()> {
        if self.is_at(path) {
            self.disk = None;
        }
        Ok(())
    }

    fn error_of(&self, _disk: &MemoryDisk) -> Option<io::Error> {
        None
    }
}
