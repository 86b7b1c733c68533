//! Folders by their paths.
ghost use Rattle.std.specs.Prelude.{◌≡◌, ◌∷◌, [], IfErr, IfOk, List, None, OnErr, OnOk, Option, Some};
ghost use Rattle.std.specs.declared.io.ErrorKind.{ErrorKind};
ghost use Rattle.gateway_outside.specs.SpoolFiles.{Disks, with_disk};
ghost use Rattle.gateway_export.specs.Places.{find_kind, search_for, searches_of};
ghost use Rattle.gateway_export.specs.declared.places.FolderSearch.{FolderSearch};

use crate::folders::{FileFolder, Folder};
use common::Trace;
use std::alloc::Global;
use std::io::{self, ErrorKind};

/// Why a folder isn't found.
#[derive(Clone, Copy, Debug, Drop)]
pub enum FindError {
    /// It can't be looked into.
    Look(io::Error),
    /// It can't be locked, or made ready for texts.
    Lock(io::Error),
}

impl FindError {
    /// What the system answered.
    pub fn kind(self) -> ErrorKind
        ensures { result ≡ find_kind self }
    {
        match self {
            FindError::Look(error) => error.kind(),
            FindError::Lock(error) => error.kind(),
        }
    }
}

/// A folder was looked for. Only clauses read it.
#[derive(Drop)]
pub struct FolderSearch {
    /// The folder's path.
    pub path: Trace<u8>,
    /// What the system answered. `None` where the folder was found.
    pub failed: Option<ErrorKind>,
}

impl FolderSearch {
    /// The folder at this path was looked for, and this answered.
    pub fn new(path: &str, failed: Option<ErrorKind>) -> FolderSearch
        ensures { result ≡ search_for path.now failed }
    {
        FolderSearch {
            path: Trace::new().then(path.as_bytes()),
            failed,
        }
    }
}

/// Folders that texts are written into, by their paths. One that was found is out until it is left.
pub trait Places {
    /// A folder that was found.
    type Folder: Folder + Drop;

    /// These folders are there.
    ghost holds: { Self → Disks Self.Folder → Type 0 };

    /// Which folders were looked for, the latest first.
    ghost searches: { Self → List FolderSearch };

    /// Finds the folder at this path. Where it isn't found, the folders are those that were there.
    fn find(&mut self, alloc: Global, path: &str) -> Result<Self::Folder, FindError>
        ensures found { (folders : Disks Self.Folder) → holds self.old folders
            → IfOk result (λ folder. (folders path.now ≡ Some folder)
            × holds self.new (with_disk folders path.now None)) }
        ensures failed { (folders : Disks Self.Folder) → holds self.old folders
            → OnErr result (holds self.new folders) }
        ensures noted { OnOk result (searches self.new ≡ search_for path.now None ∷ searches self.old) }
        ensures missed { IfErr result (λ error.
            searches self.new ≡ search_for path.now (Some (find_kind error)) ∷ searches self.old) };

    /// Leaves a folder, which is at this path then.
    fn leave(&mut self, path: &str, folder: Self::Folder)
        ensures left { (folders : Disks Self.Folder) → holds self.old folders
            → holds self.new (with_disk folders path.now (Some folder)) }
        ensures unnoted { searches self.new ≡ searches self.old };
}

/// The folders of the file system.
///
/// No contract states which folders a file system holds, so it isn't proved that these hold any. Whoever relies on them
/// has the premise that they behave as `Places`.
#[derive(Drop)]
pub struct SystemPlaces<'a> {
    rt: &'a HostRuntime,
    log: Trace<FolderSearch>,
}

impl<'a> SystemPlaces<'a> {
    /// The folders that this runtime reaches. None was looked for so far.
    pub fn new(rt: &'a HostRuntime) -> Self
        ensures { searches_of result ≡ [] }
    {
        SystemPlaces {
            rt,
            log: Trace::new(),
        }
    }
}

impl<'a> Places for SystemPlaces<'a> {
    type Folder = FileFolder<'a>;

    // of no folders it is known
    ghost holds = { λ places folders. ⊥ };

    ghost searches = { searches_of };

    fn find(&mut self, alloc: Global, path: &str) -> Result<FileFolder<'a>, FindError> {
        match FileFolder::find(self.rt, alloc, path) {
            Ok(folder) => {
                self.log = self.log.and(&FolderSearch::new(path, None));
                Ok(folder)
            }
            Err(error) => {
                self.log = self.log.and(&FolderSearch::new(path, Some(error.kind())));
                Err(error)
            }
        }
    }

    fn leave(&mut self, _path: &str, folder: FileFolder<'a>) {
        drop(folder);
    }
}
