//! Folders that texts are written into.

ghost use Rattle.std.specs.Prelude.{◌≡◌, ℕ, Bool, List, [], Option, Some, IfOk, IfSome, IsErrOf, OnErr, OnOk, bytes_eq};
ghost use Rattle.std.specs.Prelude.{drop, false, length, option_map, take, true};
ghost use Rattle.std.specs.Io.KnownBytes.{Appends};
ghost use Rattle.common.specs.Counts.{Counts};
ghost use Rattle.gateway_outside.specs.Files.{Files};
ghost use Rattle.gateway_export.specs.declared.folders.FolderError.{FolderError};
ghost use Rattle.gateway_export.specs.Folders.{EndsAs, HoldsAll, HoldsEither, StillLast, new_file};

use crate::places::FindError;
use common::Stop;
use gateway_outside::{Fault, look_into};
use std::alloc::{AllocError, Global};
use std::fs::{self, File, TryLockError};
use std::io::{self, ErrorKind, Write};
use std::os::unix::fs::FileExt;

/// Why a folder's call failed.
#[derive(Clone, Copy, Debug, PartialEq, Eq, Drop)]
pub enum FolderError {
    /// Out of memory, which is no refusal.
    NoMemory,
    /// The folder refused it.
    Refused,
}

impl From<FolderError> for Fault {
    ghost use Rattle.gateway_export.specs.Folders.{folder_fault};

    ghost from_gives = { λ error fault. fault ≡ folder_fault error };

    fn from(error: FolderError) -> Self {
        match error {
            FolderError::NoMemory => Fault::Stop(Stop::NoMemory),
            FolderError::Refused => Fault::Io,
        }
    }
}

/// A folder that texts are written into, each into a new file, which gets its name once it is whole. It counts what it
/// refuses.
pub trait Folder {
    /// A file that is being written, and has no name yet.
    type File;

    /// The folder holds these files.
    ghost holds: { Self → Files → Type 0 };

    /// A file may have this name there. No call changes that.
    ghost takes: { Self → List ℕ → Bool };

    /// The file of this name outlasts a crash, with what it holds.
    ghost lasting: { Self → List ℕ → Type 0 };

    /// The bytes that a file has so far, where they are known.
    ghost content: { Self.File → Option (List ℕ) };

    /// How many calls it refused that look for a file or write one, up to 2^64 - 1.
    ghost refusals: { Self → ℕ };

    /// How many calls it refused that read a file that is there or make it last, up to 2^64 - 1.
    ghost unread: { Self → ℕ };

    /// Whether a file may have this name there, as far as the file system tells before one gets it.
    fn may_take(&self, name: &str) -> Result<bool, AllocError>
        ensures takes { (files : Files) → holds self.now files
            → IfOk result (λ may. may ≡ false → takes self.now name.now ≡ false) };

    /// Whether there is something of this name, as far as it can be seen: only what is printed depends on it.
    fn is_there(&self, name: &str) -> bool;

    /// How many bytes the file of this name has. `None` where there is none. A file that is there may have its name.
    fn len_of(&mut self, name: &str) -> Result<Option<u64>, FolderError>
        ensures taken { (files : Files) → holds self.old files
            → IfOk result (λ len. IfSome len (λ _. takes self.old name.now ≡ true)) }
        ensures len { (files : Files) → holds self.old files
            → IfOk result (λ len. len ≡ option_map length (files name.now)) }
        ensures preserves { (files : Files) → holds self.old files → holds self.new files }
        ensures names { takes self.new ≡ takes self.old }
        ensures still { StillLast (lasting self.old) (lasting self.new) }
        ensures refusals { Counts (IsErrOf result FolderError.Refused) (refusals self.old) (refusals self.new) }
        ensures unread { unread self.new ≡ unread self.old };

    /// Whether the file of this name has these bytes from `at` on.
    fn has_at(&mut self, name: &str, at: u64, piece: &[u8]) -> Result<bool, FolderError>
        ensures same { (files : Files) (bytes : List ℕ) → holds self.old files → files name.now ≡ Some bytes
            → IfOk result (λ same. same ≡ bytes_eq (take (length piece.now) (drop at bytes)) piece.now) }
        ensures preserves { (files : Files) → holds self.old files → holds self.new files }
        ensures names { takes self.new ≡ takes self.old }
        ensures still { StillLast (lasting self.old) (lasting self.new) }
        ensures refusals { refusals self.new ≡ refusals self.old }
        ensures unread { Counts (IsErrOf result FolderError.Refused) (unread self.old) (unread self.new) };

    /// Makes the file of this name last, and its name.
    fn settle(&mut self, name: &str) -> Result<(), FolderError>
        ensures settled { (files : Files) → holds self.old files → OnOk result (lasting self.new name.now) }
        ensures preserves { (files : Files) → holds self.old files → holds self.new files }
        ensures names { takes self.new ≡ takes self.old }
        ensures still { StillLast (lasting self.old) (lasting self.new) }
        ensures refusals { refusals self.new ≡ refusals self.old }
        ensures unread { Counts (IsErrOf result FolderError.Refused) (unread self.old) (unread self.new) };

    /// Begins a file. The folder holds what it held.
    fn begin(&mut self) -> Result<Self::File, FolderError>
        ensures empty { (files : Files) → holds self.old files → IfOk result (λ file. content file ≡ Some []) }
        ensures preserves { (files : Files) → holds self.old files → holds self.new files }
        ensures names { takes self.new ≡ takes self.old }
        ensures still { StillLast (lasting self.old) (lasting self.new) }
        ensures refusals { Counts (IsErrOf result FolderError.Refused) (refusals self.old) (refusals self.new) }
        ensures unread { unread self.new ≡ unread self.old };

    /// Writes all of the bytes to a file. The folder holds what it held.
    fn put(&mut self, file: &mut Self::File, bytes: &[u8]) -> Result<(), FolderError>
        ensures wrote { OnOk result (Appends (content file.old) (content file.new) bytes.now) }
        ensures preserves { (files : Files) → holds self.old files → holds self.new files }
        ensures names { takes self.new ≡ takes self.old }
        ensures still { StillLast (lasting self.old) (lasting self.new) }
        ensures refusals { Counts (IsErrOf result FolderError.Refused) (refusals self.old) (refusals self.new) }
        ensures unread { unread self.new ≡ unread self.old };

    /// Ends a file: it has this name, and what was written to it lasts from then on. `false` where no file may have the
    /// name: then nothing of it stays. If the file needs the name, that is refused. It fails where a file has the name
    /// already, which stays as it is. Where it fails for another reason, the folder may have the whole file or none.
    fn end(&mut self, file: Self::File, name: &str, needed: bool) -> Result<bool, FolderError>
        ensures taken { (files : Files) → holds self.old files
            → IfOk result (λ taken. taken ≡ takes self.old name.now) }
        ensures needed { needed ≡ true → IfOk result (λ taken. taken ≡ true) }
        ensures ended { (files : Files) (bytes : List ℕ) → holds self.old files → content file ≡ Some bytes
            → IfOk result (λ taken. EndsAs taken (holds self.new) files name.now bytes) }
        ensures settled { (files : Files) → holds self.old files
            → IfOk result (λ taken. taken ≡ true → lasting self.new name.now) }
        ensures failed { (files : Files) (bytes : List ℕ) → holds self.old files → content file ≡ Some bytes
            → OnErr result (HoldsEither (takes self.old name.now) (holds self.new) files
            (new_file (files name.now) files name.now bytes)) }
        ensures preserves { (files : Files) → holds self.old files → HoldsAll (holds self.new) files }
        ensures names { takes self.new ≡ takes self.old }
        ensures still { StillLast (lasting self.old) (lasting self.new) }
        ensures refusals { Counts (IsErrOf result FolderError.Refused) (refusals self.old) (refusals self.new) }
        ensures unread { unread self.new ≡ unread self.old };

    /// Gives a file up, of which nothing stays. The folder holds what it held.
    fn give_up(&mut self, file: Self::File)
        ensures preserves { (files : Files) → holds self.old files → holds self.new files }
        ensures names { takes self.new ≡ takes self.old }
        ensures still { StillLast (lasting self.old) (lasting self.new) }
        ensures refusals { refusals self.new ≡ refusals self.old }
        ensures unread { unread self.new ≡ unread self.old };

    /// Why a file couldn't be looked for or written. `None` where each could.
    fn error(&self) -> Option<io::Error>;

    /// Why a file that is there couldn't be read or made to last: the first such one. `None` where each could.
    fn unread_error(&self) -> Option<io::Error>;
}

// The name of the file that is being written. It begins with a dot, as the name of no upload's file does.
const PART: &str = ".gateway-export";

/// A folder of the file system, and why its calls failed. It is locked against other exports. While a file is
/// written, it has the name `.gateway-export`. If a run ended in between, the next run removes that file. If the file
/// system has no locks, it isn't removed, since another export may be writing it, and then no file can be begun.
///
/// No contract states which files a file system holds, so it isn't proved that this folder holds any. Whoever relies on
/// it has the premise that it behaves as a `Folder`. What it refuses is counted all the same.
#[derive(Drop)]
pub struct FileFolder<'a> {
    rt: &'a HostRuntime,
    alloc: Global,
    path: String,
    folder: File,
    error: Option<io::Error>,
    // why the first file that couldn't be read or synced couldn't
    unread_error: Option<io::Error>,
    refusals: u64,
    unread: u64,
}

impl<'a> FileFolder<'a> {
    ghost use Rattle.gateway_export.specs.System.{refusals_of, unread_of};

    /// The folder at this path, which has to be there, and into which nobody else exports.
    pub fn find(rt: &'a HostRuntime, alloc: Global, path: &str) -> Result<Self, FindError> {
        match look_into(rt, path) {
            Ok(()) => {}
            Err(error) => return Err(FindError::Look(error)),
        }
        match FileFolder::lock(rt, alloc, path) {
            Ok(folder) => Ok(folder),
            Err(error) => Err(FindError::Lock(error)),
        }
    }

    // Locks the folder, takes away what an ended run left, and makes the names last that it gave.
    fn lock(rt: &'a HostRuntime, alloc: Global, path: &str) -> io::Result<Self> {
        let folder = File::open(rt, path)?;
        let locked = folder.try_lock();
        let found = FileFolder {
            rt,
            alloc,
            path: format!(in alloc; "{path}")?,
            folder,
            error: None,
            unread_error: None,
            refusals: 0,
            unread: 0,
        };
        match locked {
            Ok(()) => found.clear()?,
            Err(TryLockError::WouldBlock) => {
                return Err(io::Error::new(ErrorKind::ResourceBusy, "it is in use"));
            }
            Err(TryLockError::Error(_)) => {}
        }
        found.folder.sync_all()?;
        Ok(found)
    }

    // Keeps why a call failed, and counts it where it was refused.
    fn refuse(&mut self, error: io::Error) -> FolderError
        ensures refusals { Counts (result ≡ FolderError.Refused) (refusals_of self.old) (refusals_of self.new) }
        ensures unread { unread_of self.new ≡ unread_of self.old }
    {
        self.error = Some(error);
        if error.kind() == ErrorKind::OutOfMemory {
            return FolderError::NoMemory;
        }
        self.refusals = self.refusals.saturating_add(1);
        FolderError::Refused
    }

    // The same of a file that is there, of which the first one's reason is kept.
    fn miss(&mut self, error: io::Error) -> FolderError
        ensures refusals { refusals_of self.new ≡ refusals_of self.old }
        ensures unread { Counts (result ≡ FolderError.Refused) (unread_of self.old) (unread_of self.new) }
    {
        if self.unread_error.is_none() {
            self.unread_error = Some(error);
        }
        if error.kind() == ErrorKind::OutOfMemory {
            return FolderError::NoMemory;
        }
        self.unread = self.unread.saturating_add(1);
        FolderError::Refused
    }

    // The path of a file.
    fn path_of(&self, name: &str) -> Result<String, AllocError> {
        format!(in self.alloc; "{}/{name}", self.path)
    }

    // Takes away a file that has no name yet, where there is one.
    fn clear(&self) -> io::Result<()> {
        let part = self.path_of(PART)?;
        match fs::remove_file(self.rt, part.as_str()) {
            Err(error) if error.kind() == ErrorKind::NotFound => Ok(()),
            outcome => outcome,
        }
    }

    // A new file that has no name yet.
    fn make_part(&self) -> io::Result<File> {
        let part = self.path_of(PART)?;
        File::create_new(self.rt, part.as_str())
    }

    // Gives a file its name. A link never replaces a file. Why the file system refuses the name, as some do only then.
    fn name_part(&self, file: File, name: &str) -> io::Result<Option<io::Error>> {
        file.sync_all()?;
        let part = self.path_of(PART)?;
        let path = self.path_of(name)?;
        match fs::hard_link(self.rt, part.as_str(), path.as_str()) {
            Err(error) if is_of_name(error) => return Ok(Some(error)),
            linked => linked?,
        }
        let settled = self.keep_name(part.as_str());
        if settled.is_err() {
            // What fails has no name: the next run writes it again.
            let taken_back = fs::remove_file(self.rt, path.as_str());
            drop(taken_back);
        }
        settled.map(|()| None)
    }

    // Takes the other name of a file away that has its own, which lasts then.
    fn keep_name(&self, part: &str) -> io::Result<()> {
        fs::remove_file(self.rt, part)?;
        self.folder.sync_all()
    }

    // Whether a file has these bytes from `at` on.
    fn compare(&self, name: &str, at: u64, piece: &[u8]) -> io::Result<bool> {
        let file = File::open(self.rt, self.path_of(name)?.as_str())?;
        let mut there = vec![in self.alloc; 0; piece.len()]?;
        match file.read_exact_at(&mut there, at) {
            Ok(()) => Ok(there.as_slice() == piece),
            Err(error) if error.kind() == ErrorKind::UnexpectedEof => Ok(false),
            Err(error) => Err(error),
        }
    }

    // Syncs a file that is there, and the folder.
    fn sync_file(&self, name: &str) -> io::Result<()> {
        File::open(self.rt, self.path_of(name)?.as_str())?.sync_all()?;
        self.folder.sync_all()
    }

    // The length of the file of this name. What is no file, as a folder or a link to nowhere, is longer than any text.
    fn find_len(&self, name: &str) -> io::Result<Option<u64>> {
        let path = self.path_of(name)?;
        match fs::metadata(self.rt, path.as_str()) {
            Ok(found) if found.is_file() => return Ok(Some(found.len())),
            Ok(_) => return Ok(Some(u64::MAX)),
            Err(_) => {}
        }
        match fs::symlink_metadata(self.rt, path.as_str()) {
            Ok(_) => Ok(Some(u64::MAX)),
            Err(error) if error.kind() == ErrorKind::NotFound => Ok(None),
            Err(error) => Err(error),
        }
    }
}

impl Folder for FileFolder<'_> {
    ghost use Rattle.std.specs.Prelude.{None, true};
    ghost use Rattle.gateway_export.specs.System.{refusals_of, unread_of};

    type File = File;

    // of no files it is known
    ghost holds = { λ folder files. ⊥ };

    ghost takes = { λ folder name. true };

    ghost lasting = { λ folder name. ⊥ };

    ghost content = { λ file. None };

    ghost refusals = { refusals_of };

    ghost unread = { unread_of };

    fn may_take(&self, name: &str) -> Result<bool, AllocError> {
        let path = self.path_of(name)?;
        match fs::symlink_metadata(self.rt, path.as_str()) {
            Err(error) => Ok(!is_of_name(error)),
            Ok(_) => Ok(true),
        }
    }

    fn is_there(&self, name: &str) -> bool {
        match self.path_of(name) {
            Ok(path) => fs::symlink_metadata(self.rt, path.as_str()).is_ok(),
            Err(_) => true,
        }
    }

    fn len_of(&mut self, name: &str) -> Result<Option<u64>, FolderError> {
        self.error = None;
        match self.find_len(name) {
            Ok(len) => Ok(len),
            Err(error) => Err(self.refuse(error)),
        }
    }

    fn has_at(&mut self, name: &str, at: u64, piece: &[u8]) -> Result<bool, FolderError> {
        match self.compare(name, at, piece) {
            Ok(same) => Ok(same),
            Err(error) => Err(self.miss(error)),
        }
    }

    fn settle(&mut self, name: &str) -> Result<(), FolderError> {
        match self.sync_file(name) {
            Ok(()) => Ok(()),
            Err(error) => Err(self.miss(error)),
        }
    }

    fn begin(&mut self) -> Result<File, FolderError> {
        match self.make_part() {
            Ok(file) => Ok(file),
            Err(error) => Err(self.refuse(error)),
        }
    }

    fn put(&mut self, file: &mut File, bytes: &[u8]) -> Result<(), FolderError> {
        match file.write_all(bytes) {
            Ok(()) => Ok(()),
            Err(error) => Err(self.refuse(error)),
        }
    }

    fn end(&mut self, file: File, name: &str, needed: bool) -> Result<bool, FolderError> {
        self.error = None;
        let ended = self.name_part(file, name);
        if !matches!(ended, Ok(None)) {
            let cleared = self.clear();
            drop(cleared);
        }
        match ended {
            Ok(None) => Ok(true),
            Ok(Some(error)) => {
                if needed {
                    return Err(self.refuse(error));
                }
                Ok(false)
            }
            Err(error) => Err(self.refuse(error)),
        }
    }

    fn give_up(&mut self, file: File) {
        drop(file);
        let cleared = self.clear();
        drop(cleared);
    }

    fn error(&self) -> Option<io::Error> {
        self.error
    }

    fn unread_error(&self) -> Option<io::Error> {
        self.unread_error
    }
}

// Whether a file system refuses the name itself.
fn is_of_name(error: io::Error) -> bool {
    matches!(
        error.kind(),
        ErrorKind::InvalidFilename | ErrorKind::InvalidInput
    )
}
