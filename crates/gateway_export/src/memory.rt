//! A folder in memory, at a path.
ghost use Rattle.std.specs.Prelude.{◌≡◌, ◌∷◌, ◌++◌, [], ℕ, List, None, OnErr, OnOk, Option, Some, bytes_eq, drop};
ghost use Rattle.std.specs.Prelude.{length, nat_le, option_map, string_bytes, take};
ghost use Rattle.common.specs.Counts.{Counts};
ghost use Rattle.common.specs.Traces.{trace_of};
ghost use Rattle.gateway_export.specs.declared.folders.FolderError.{FolderError};
ghost use Rattle.gateway_export.specs.declared.memory.HeldText.{HeldText};
ghost use Rattle.gateway_export.specs.Memory.{content_in, files_in, folder_at, lasting_in, longest_in, path_at};
ghost use Rattle.gateway_export.specs.Memory.{refusals_in, searches_at, takes_in, text_in, unread_in};
ghost use Rattle.gateway_export.specs.Places.{find_kind, search_for};

use crate::folders::{Folder, FolderError};
use crate::places::{FindError, FolderSearch, Places};
use common::Trace;
use std::alloc::{AllocError, Global};
use std::io::{self, ErrorKind};

/// A file in memory.
#[derive(Debug, Drop)]
pub struct HeldText {
    /// Its name.
    pub name: String,
    /// Its bytes.
    pub content: Vec<u8>,
}

/// A folder in memory. It holds these files, of several with one name the first, and takes names of at most so many
/// bytes.
#[derive(Drop)]
pub struct MemoryTexts {
    alloc: Global,
    longest: usize,
    files: Vec<HeldText>,
    lasting: Trace<Trace<u8>>,
    refusals: u64,
    unread: u64,
}

impl MemoryTexts {
    /// A folder with these files, which takes names of at most `longest` bytes. It refused nothing so far.
    pub fn new(alloc: Global, longest: usize, files: Vec<HeldText>) -> Self
        ensures files { files_in result ≡ files.items }
        ensures takes { (name : List ℕ) → takes_in result name ≡ nat_le (length name) longest }
        ensures none { (refusals_in result ≡ 0) × (unread_in result ≡ 0) }
    {
        MemoryTexts {
            alloc,
            longest,
            files,
            lasting: Trace::new(),
            refusals: 0,
            unread: 0,
        }
    }

    /// What the file of this name has, where there is one.
    pub fn text(&self, name: &str) -> Option<&[u8]>
        ensures { option_map (λ bytes. bytes.now) result ≡ text_in self.now name.now }
    {
        if self.takes(name) {
            self.content_of(name)
        } else {
            None
        }
    }

    // The content of the first file of this name.
    fn content_of(&self, name: &str) -> Option<&[u8]>
        ensures { option_map (λ bytes. bytes.now) result ≡ content_in name.now (files_in self.now) }
    {
        for file in &self.files {
            if name == file.name.as_str() {
                return Some(file.content.as_slice());
            }
        }
        None
    }

    // Whether a file may have this name.
    fn takes(&self, name: &str) -> bool
        ensures { result ≡ takes_in self.now name.now }
    {
        name.len() <= self.longest
    }

    // Refuses a call that writes a file.
    fn refuse(&mut self) -> FolderError
        ensures refused { result ≡ FolderError.Refused }
        ensures counts { Counts (Unit {0}) (refusals_in self.old) (refusals_in self.new) }
        ensures texts { text_in self.new ≡ text_in self.old }
        ensures takes { takes_in self.new ≡ takes_in self.old }
        ensures lasting { lasting_in self.new ≡ lasting_in self.old }
        ensures unread { unread_in self.new ≡ unread_in self.old }
    {
        self.refusals = self.refusals.saturating_add(1);
        FolderError::Refused
    }

    // Refuses a call that reads a file.
    fn miss(&mut self) -> FolderError
        ensures refused { result ≡ FolderError.Refused }
        ensures counts { Counts (Unit {0}) (unread_in self.old) (unread_in self.new) }
        ensures texts { text_in self.new ≡ text_in self.old }
        ensures takes { takes_in self.new ≡ takes_in self.old }
        ensures lasting { lasting_in self.new ≡ lasting_in self.old }
        ensures refusals { refusals_in self.new ≡ refusals_in self.old }
    {
        self.unread = self.unread.saturating_add(1);
        FolderError::Refused
    }

    // Adds a file of this name, and makes it last.
    fn add(&mut self, content: Vec<u8>, name: &str) -> Result<(), AllocError>
        ensures added { OnOk result ((file : HeldText) × (files_in self.new ≡ files_in self.old ++ file ∷ [])
            × (string_bytes file.name ≡ name.now) × (file.content.items ≡ content.items)) }
        ensures same { OnErr result (files_in self.new ≡ files_in self.old) }
        ensures longest { longest_in self.new ≡ longest_in self.old }
        ensures lasts { OnOk result (lasting_in self.new ≡ trace_of name.now ∷ lasting_in self.old) }
        ensures lasted { OnErr result (lasting_in self.new ≡ lasting_in self.old) }
        ensures refusals { refusals_in self.new ≡ refusals_in self.old }
        ensures unread { unread_in self.new ≡ unread_in self.old }
    {
        let name_of = format!(in self.alloc; "{name}")?;
        match self.files.push(HeldText {
            name: name_of,
            content,
        }) {
            Ok(()) => {
                self.lasting = self.lasting.and(&Trace::new().then(name.as_bytes()));
                Ok(())
            }
            Err(full) => Err(AllocError::from(full)),
        }
    }
}

impl Folder for MemoryTexts {
    ghost use Rattle.std.specs.Prelude.{Some};
    ghost use Rattle.gateway_export.specs.Memory.{HoldsFiles, LastsIn, refusals_in, takes_in, unread_in};

    type File = Vec<u8>;

    ghost holds = { HoldsFiles };

    ghost takes = { takes_in };

    ghost lasting = { LastsIn };

    ghost content = { λ file. Some file.items };

    ghost refusals = { refusals_in };

    ghost unread = { unread_in };

    fn may_take(&self, name: &str) -> Result<bool, AllocError> {
        Ok(self.takes(name))
    }

    fn is_there(&self, name: &str) -> bool {
        self.text(name).is_some()
    }

    fn len_of(&mut self, name: &str) -> Result<Option<u64>, FolderError> {
        match self.text(name) {
            Some(text) => Ok(Some(text.len() as u64)),
            None => Ok(None),
        }
    }

    fn has_at(&mut self, name: &str, at: u64, piece: &[u8]) -> Result<bool, FolderError> {
        match self.text(name) {
            Some(text) => Ok(is_at(text, at, piece)),
            None => Err(self.miss()),
        }
    }

    fn settle(&mut self, name: &str) -> Result<(), FolderError> {
        self.lasting = self.lasting.and(&Trace::new().then(name.as_bytes()));
        Ok(())
    }

    fn begin(&mut self) -> Result<Vec<u8>, FolderError> {
        Ok(Vec::new(self.alloc))
    }

    fn put(&mut self, file: &mut Vec<u8>, bytes: &[u8]) -> Result<(), FolderError> {
        match file.extend_from_slice(bytes) {
            Ok(()) => Ok(()),
            Err(_) => Err(FolderError::NoMemory),
        }
    }

    fn end(&mut self, file: Vec<u8>, name: &str, needed: bool) -> Result<bool, FolderError> {
        if !self.takes(name) {
            return if needed {
                Err(self.refuse())
            } else {
                Ok(false)
            };
        }
        if self.text(name).is_some() {
            return Err(self.refuse());
        }
        match self.add(file, name) {
            Ok(()) => Ok(true),
            Err(_) => Err(FolderError::NoMemory),
        }
    }

    fn give_up(&mut self, file: Vec<u8>) {
        drop(file);
    }

    fn error(&self) -> Option<io::Error> {
        None
    }

    fn unread_error(&self) -> Option<io::Error> {
        None
    }
}

// Whether a text has these bytes from `at` on.
fn is_at(text: &[u8], at: u64, piece: &[u8]) -> bool
    ensures { result ≡ bytes_eq (take (length piece.now) (drop at text.now)) piece.now }
{
    let rest = &text[text.len().min(at as usize)..];
    &rest[..rest.len().min(piece.len())] == piece
}

/// A folder in memory, at a path. At other paths none is found.
#[derive(Drop)]
pub struct MemoryPlace {
    path: String,
    folder: Option<MemoryTexts>,
    log: Trace<FolderSearch>,
}

impl MemoryPlace {
    /// This folder at this path. None was looked for so far.
    pub fn new(path: String, folder: MemoryTexts) -> Self
        ensures path { path_at result ≡ string_bytes path }
        ensures folder { folder_at result ≡ Some folder }
        ensures none { searches_at result ≡ [] }
    {
        MemoryPlace {
            path,
            folder: Some(folder),
            log: Trace::new(),
        }
    }

    /// The folder, where it isn't out.
    pub fn into_folder(self) -> Option<MemoryTexts>
        ensures { result ≡ folder_at self }
    {
        self.folder
    }

    // Whether its path is this one.
    fn is_at(&self, path: &str) -> bool
        ensures { result ≡ bytes_eq (path_at self.now) path.now }
    {
        self.path.as_str() == path
    }

    // The folder at this path was looked for, and this answered.
    fn note(&mut self, path: &str, failed: Option<ErrorKind>)
        ensures path { path_at self.new ≡ path_at self.old }
        ensures folder { folder_at self.new ≡ folder_at self.old }
        ensures noted { searches_at self.new ≡ search_for path.now failed ∷ searches_at self.old }
    {
        self.log = self.log.and(&FolderSearch::new(path, failed));
    }

    // None is found at this path.
    fn miss(&mut self, path: &str) -> FindError
        ensures path { path_at self.new ≡ path_at self.old }
        ensures folder { folder_at self.new ≡ folder_at self.old }
        ensures noted { searches_at self.new ≡ search_for path.now (Some (find_kind result)) ∷ searches_at self.old }
    {
        self.note(path, Some(ErrorKind::NotFound));
        FindError::Look(io::Error::from(ErrorKind::NotFound))
    }
}

impl Places for MemoryPlace {
    ghost use Rattle.std.specs.Prelude.{◌≡◌};
    ghost use Rattle.gateway_export.specs.Memory.{folder_at, path_at, searches_at};

    type Folder = MemoryTexts;

    ghost holds = { λ place folders. folders (path_at place) ≡ folder_at place };

    ghost searches = { searches_at };

    fn find(&mut self, _alloc: Global, path: &str) -> Result<MemoryTexts, FindError> {
        if !self.is_at(path) {
            return Err(self.miss(path));
        }
        match self.folder.take() {
            Some(folder) => {
                self.note(path, None);
                Ok(folder)
            }
            None => Err(self.miss(path)),
        }
    }

    fn leave(&mut self, path: &str, folder: MemoryTexts) {
        if self.is_at(path) {
            self.folder = Some(folder);
        }
    }
}
