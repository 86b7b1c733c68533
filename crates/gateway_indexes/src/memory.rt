//! A folder of index files in memory.
ghost use Rattle.std.specs.Prelude.{◌≡◌, ◌∷◌, [], IfOk, bytes_eq, string_bytes, option_map};
ghost use Rattle.std.specs.IoError.{error_kind};
ghost use Rattle.gateway_indexes.specs.Folders.{failed_call};
ghost use Rattle.gateway_indexes.specs.Memory.{calls_in, content_in, files_in, path_in};

use crate::folders::{FolderAnswer, FolderCall, IndexFolders, answer_of};
use common::Trace;
use std::alloc::{AllocError, Global};
use std::io::{self, ErrorKind};

/// A file in memory.
#[derive(Debug, Drop)]
pub struct HeldFile {
    /// Its name.
    pub name: String,
    /// Its bytes.
    pub content: Vec<u8>,
}

/// A folder in memory, at one path, with these files: of several with one name the first. Of other paths nothing is
/// known, and no folder is found there.
#[derive(Drop)]
pub struct MemoryFolder {
    path: String,
    files: Vec<HeldFile>,
    log: Trace<FolderCall>,
}

impl MemoryFolder {
    /// These files in the folder at this path. Nothing was asked so far.
    pub fn new(path: String, files: Vec<HeldFile>) -> Self
        ensures path { path_in result ≡ string_bytes path }
        ensures files { files_in result ≡ files.items }
        ensures none { calls_in result ≡ [] }
    {
        MemoryFolder {
            path,
            files,
            log: Trace::new(),
        }
    }

    // Whether its path is this one.
    fn is_at(&self, path: &str) -> bool
        ensures { result ≡ bytes_eq (path_in self.now) path.now }
    {
        self.path.as_str() == path
    }

    // This was asked and answered.
    fn note(&mut self, call: FolderCall)
        ensures calls { calls_in self.new ≡ call ∷ calls_in self.old }
        ensures path { path_in self.new ≡ path_in self.old }
        ensures files { files_in self.new ≡ files_in self.old }
    {
        self.log = self.log.and(&call);
    }

    // The content of the file of this name.
    fn content_of(&self, name: &str) -> Option<&[u8]>
        ensures { option_map (λ bytes. bytes.now) result ≡ content_in name.now (files_in self.now) }
    {
        for file in &self.files {
            if file.name.as_str() == name {
                return Some(file.content.as_slice());
            }
        }
        None
    }

    // A call failed.
    fn refuse(&mut self, path: &str, name: &str, kind: ErrorKind) -> io::Error
        ensures calls { calls_in self.new ≡ failed_call path.now name.now kind ∷ calls_in self.old }
        ensures path { path_in self.new ≡ path_in self.old }
        ensures files { files_in self.new ≡ files_in self.old }
        ensures kind { error_kind result ≡ kind }
    {
        self.note(FolderCall::new(path, name, FolderAnswer::Failed(kind)));
        io::Error::from(kind)
    }
}

impl IndexFolders for MemoryFolder {
    ghost use Rattle.gateway_indexes.specs.Memory.{AreIn, calls_in};

    ghost have = { AreIn };

    ghost calls = { calls_in };

    fn find(&mut self, path: &str) -> io::Result<()> {
        if self.is_at(path) {
            self.note(FolderCall::new(path, "", FolderAnswer::Found));
            return Ok(());
        }
        Err(self.refuse(path, "", ErrorKind::NotFound))
    }

    fn read(&mut self, alloc: Global, path: &str, name: &str) -> io::Result<Option<Vec<u8>>> {
        if !self.is_at(path) {
            return Err(self.refuse(path, name, ErrorKind::NotFound));
        }
        match copy_of(alloc, self.content_of(name)) {
            Ok(found) => {
                self.note(FolderCall::new(path, name, answer_of(&found)));
                Ok(found)
            }
            Err(_) => Err(self.refuse(path, name, ErrorKind::OutOfMemory)),
        }
    }
}

// The same bytes.
fn copy_of(alloc: Global, content: Option<&[u8]>) -> Result<Option<Vec<u8>>, AllocError>
    ensures { IfOk result
        (λ copy. option_map (λ bytes. bytes.items) copy ≡ option_map (λ bytes. bytes.now) content.entry) }
{
    let Some(bytes) = content else {
        return Ok(None);
    };
    let mut copy = Vec::new(alloc);
    copy.extend_from_slice(bytes)?;
    Ok(Some(copy))
}
