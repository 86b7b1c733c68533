//! A folder in memory, of which one call fails.

ghost use Rattle.std.specs.Prelude.{◌≡◌};
ghost use Rattle.common.specs.Counts.{Counts};
ghost use Rattle.gateway_export.specs.declared.folders.FolderError.{FolderError};

use gateway_export::{Folder, FolderError};
use std::alloc::{AllocError, Global};
use std::io;
use std::process::Abort;

/// A call of a folder.
#[derive(Clone, Copy, PartialEq, Eq, Drop)]
pub enum Call {
    /// It compares a file.
    Read,
    /// It makes a file last that is there.
    Sync,
    /// It gives a file its name.
    Name,
}

/// A folder in memory, for texts of one piece. A call of one kind always fails, and one name is refused when a file is
/// to get it.
#[derive(Drop)]
pub struct Shelf {
    alloc: Global,
    files: Vec<(String, Vec<u8>)>,
    failing: Option<(Call, FolderError)>,
    refused: Option<&'static str>,
    refusals: u64,
    unread: u64,
}

impl Shelf {
    /// A folder with one file.
    pub fn new(
        rt: &impl Abort,
        alloc: Global,
        name: &str,
        text: &str,
        failing: Option<(Call, FolderError)>,
        refused: Option<&'static str>,
    ) -> Self {
        let mut shelf = Shelf {
            alloc,
            files: Vec::new(alloc),
            failing,
            refused,
            refusals: 0,
            unread: 0,
        };
        let bytes = text
            .as_bytes()
            .to_vec(alloc)
            .expect(rt, "memory for a text");
        add(alloc, &mut shelf.files, bytes, name).expect(rt, "memory for a file");
        shelf
    }

    /// What the file of this name has, where there is one.
    pub fn text(&self, name: &str) -> Option<&[u8]> {
        self.files
            .iter()
            .find(|file| file.0.as_str() == name)
            .map(|file| file.1.as_slice())
    }

    // Counts a call that looks for a file or writes one, where it was refused.
    fn refuse(&mut self, error: FolderError) -> FolderError
        ensures same { result ≡ error }
        ensures refusals { Counts (error ≡ FolderError.Refused) self.old.refusals self.new.refusals }
        ensures unread { self.new.unread ≡ self.old.unread }
    {
        if error == FolderError::Refused {
            self.refusals = self.refusals.saturating_add(1);
        }
        error
    }

    // The same of one that reads a file or makes it last.
    fn miss(&mut self, error: FolderError) -> FolderError
        ensures same { result ≡ error }
        ensures refusals { self.new.refusals ≡ self.old.refusals }
        ensures unread { Counts (error ≡ FolderError.Refused) self.old.unread self.new.unread }
    {
        if error == FolderError::Refused {
            self.unread = self.unread.saturating_add(1);
        }
        error
    }

    // Why a call of this kind fails.
    fn fails(&self, call: Call) -> Option<FolderError> {
        match self.failing {
            Some((failing, error)) if failing == call => Some(error),
            _ => None,
        }
    }
}

// Adds a file.
fn add(
    alloc: Global,
    files: &mut Vec<(String, Vec<u8>)>,
    text: Vec<u8>,
    name: &str,
) -> Result<(), AllocError> {
    let name = format!(in alloc; "{name}")?;
    match files.push((name, text)) {
        Ok(()) => Ok(()),
        Err(full) => Err(AllocError::from(full)),
    }
}

impl Folder for Shelf {
    ghost use Rattle.std.specs.Prelude.{true, Some};

    type File = Vec<u8>;

    // its tests are of what no clause states
    ghost holds = { λ folder files. ⊥ };

    ghost takes = { λ folder name. true };

    ghost lasting = { λ folder name. ⊥ };

    ghost content = { λ file. Some file.items };

    ghost refusals = { λ folder. folder.refusals };

    ghost unread = { λ folder. folder.unread };

    fn may_take(&self, _name: &str) -> Result<bool, AllocError> {
        Ok(true)
    }

    fn is_there(&self, name: &str) -> bool {
        self.text(name).is_some()
    }

    fn len_of(&mut self, name: &str) -> Result<Option<u64>, FolderError> {
        Ok(self.text(name).map(|text| text.len() as u64))
    }

    fn has_at(&mut self, name: &str, at: u64, piece: &[u8]) -> Result<bool, FolderError> {
        match self.fails(Call::Read) {
            Some(error) => Err(self.miss(error)),
            None => Ok(at == 0 && self.text(name) == Some(piece)),
        }
    }

    fn settle(&mut self, _name: &str) -> Result<(), FolderError> {
        match self.fails(Call::Sync) {
            Some(error) => Err(self.miss(error)),
            None => Ok(()),
        }
    }

    fn begin(&mut self) -> Result<Vec<u8>, FolderError> {
        Ok(Vec::new(self.alloc))
    }

    fn put(&mut self, file: &mut Vec<u8>, bytes: &[u8]) -> Result<(), FolderError> {
        match file.extend_from_slice(bytes) {
            Ok(()) => Ok(()),
            Err(_) => Err(FolderError::NoMemory),
        }
    }

    fn end(&mut self, file: Vec<u8>, name: &str, needed: bool) -> Result<bool, FolderError> {
        if let Some(error) = self.fails(Call::Name) {
            return Err(self.refuse(error));
        }
        if self.refused == Some(name) {
            if needed {
                return Err(self.refuse(FolderError::Refused));
            }
            return Ok(false);
        }
        match add(self.alloc, &mut self.files, file, name) {
            Ok(()) => Ok(true),
            Err(_) => Err(FolderError::NoMemory),
        }
    }

    fn give_up(&mut self, file: Vec<u8>) {
        drop(file);
    }

    fn error(&self) -> Option<io::Error> {
        None
    }

    fn unread_error(&self) -> Option<io::Error> {
        None
    }
}
