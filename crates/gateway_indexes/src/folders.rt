//! Folders that index files are in.
ghost use Rattle.std.specs.Prelude.{◌≡◌, ◌∷◌, [], ℕ, IfErr, IfOk, List, OnOk, option_map};
ghost use Rattle.std.specs.IoError.{error_kind};
ghost use Rattle.gateway_indexes.specs.Folders.{Folders, failed_call, file_given, folder_found, folder_call};
ghost use Rattle.gateway_indexes.specs.declared.folders.FolderCall.{FolderCall};

use common::Trace;
use gateway_outside::look_into;
use std::alloc::Global;
use std::fs::File;
use std::io::{self, ErrorKind, Read};

// The most bytes of an index file.
const MOST: u64 = 1_048_576;

/// What was answered where a folder was looked for, or a file of it was asked for.
#[derive(Drop)]
pub enum FolderAnswer {
    /// The call failed so.
    Failed(ErrorKind),
    /// The folder is there.
    Found,
    /// The file isn't there.
    Missing,
    /// The file has these bytes.
    Content(Trace<u8>),
}

/// A folder was looked for, or a file of it was asked for. Only clauses read it.
#[derive(Drop)]
pub struct FolderCall {
    /// The folder's path.
    pub folder: Trace<u8>,
    /// The file's name, empty where the folder was looked for.
    pub file: Trace<u8>,
    /// What was answered.
    pub answer: FolderAnswer,
}

impl FolderCall {
    ghost use Rattle.gateway_indexes.specs.Folders.{folder_call};

    /// This was answered of the file of this name in the folder at this path.
    pub fn new(folder: &str, file: &str, answer: FolderAnswer) -> FolderCall
        ensures { result ≡ folder_call folder.now file.now answer }
    {
        FolderCall {
            folder: Trace::new().then(folder.as_bytes()),
            file: Trace::new().then(file.as_bytes()),
            answer,
        }
    }
}

/// Folders that index files are in, by their paths.
pub trait IndexFolders {
    /// They have these files.
    ghost have: { Self → Folders → Type 0 };

    /// What was asked and answered, the latest first.
    ghost calls: { Self → List FolderCall };

    /// Looks for the folder at this path.
    fn find(&mut self, path: &str) -> io::Result<()>
        ensures found { OnOk result (calls self.new ≡ folder_found path.now ∷ calls self.old) }
        ensures failed { IfErr result (λ error.
            calls self.new ≡ failed_call path.now [] (error_kind error) ∷ calls self.old) }
        ensures have { (folders : Folders) → have self.old folders → have self.new folders };

    /// The content of the file of this name in the folder at this path. `None` where there is none.
    fn read(&mut self, alloc: Global, path: &str, name: &str) -> io::Result<Option<Vec<u8>>>
        ensures given { IfOk result (λ found. calls self.new
            ≡ file_given path.now name.now (option_map (λ bytes. bytes.items) found) ∷ calls self.old) }
        ensures failed { IfErr result (λ error.
            calls self.new ≡ failed_call path.now name.now (error_kind error) ∷ calls self.old) }
        ensures have { (folders : Folders) → have self.old folders → have self.new folders }
        ensures agrees { (folders : Folders) → have self.old folders
            → IfOk result (λ found. option_map (λ bytes. bytes.items) found ≡ folders path.now name.now) };
}

/// The folders of the file system.
///
/// No contract states which files a file system holds, so it isn't proved that these have any. Whoever relies on them
/// has the premise that they behave as `IndexFolders`.
#[derive(Drop)]
pub struct SystemFolders<'a> {
    rt: &'a HostRuntime,
    log: Trace<FolderCall>,
}

impl<'a> SystemFolders<'a> {
    ghost use Rattle.gateway_indexes.specs.Folders.{calls_to};

    /// The folders that this runtime reaches. Nothing was asked so far.
    pub fn new(rt: &'a HostRuntime) -> Self
        ensures { calls_to result ≡ [] }
    {
        SystemFolders {
            rt,
            log: Trace::new(),
        }
    }

    // This was asked and answered.
    fn note(&mut self, call: FolderCall)
        ensures { calls_to self.new ≡ call ∷ calls_to self.old }
    {
        self.log = self.log.and(&call);
    }
}

impl IndexFolders for SystemFolders<'_> {
    ghost use Rattle.gateway_indexes.specs.Folders.{calls_to};

    // of no files it is known
    ghost have = { λ folders files. ⊥ };

    ghost calls = { calls_to };

    fn find(&mut self, path: &str) -> io::Result<()> {
        match look_into(self.rt, path) {
            Ok(()) => {
                self.note(FolderCall::new(path, "", FolderAnswer::Found));
                Ok(())
            }
            Err(error) => {
                self.note(FolderCall::new(path, "", FolderAnswer::Failed(error.kind())));
                Err(error)
            }
        }
    }

    fn read(&mut self, alloc: Global, path: &str, name: &str) -> io::Result<Option<Vec<u8>>> {
        match content_of(self.rt, alloc, path, name) {
            Ok(found) => {
                self.note(FolderCall::new(path, name, answer_of(&found)));
                Ok(found)
            }
            Err(error) => {
                self.note(FolderCall::new(path, name, FolderAnswer::Failed(error.kind())));
                Err(error)
            }
        }
    }
}

/// What is answered of a file with this content.
pub(crate) fn answer_of(found: &Option<Vec<u8>>) -> FolderAnswer
    ensures { (path : List ℕ) (name : List ℕ) → folder_call path name result
        ≡ file_given path name (option_map (λ bytes. bytes.items) found.now) }
{
    match found {
        Some(bytes) => FolderAnswer::Content(Trace::new().then(bytes)),
        None => FolderAnswer::Missing,
    }
}

// The content of the file of this name in a folder. One that is too long is a fault, as one that can't be read.
fn content_of(
    rt: &HostRuntime,
    alloc: Global,
    folder: &str,
    name: &str,
) -> io::Result<Option<Vec<u8>>> {
    let path = format!(in alloc; "{folder}/{name}")?;
    let file = match File::open(rt, path.as_str()) {
        Ok(file) => file,
        Err(error) if error.kind() == ErrorKind::NotFound => return Ok(None),
        Err(error) => return Err(error),
    };
    let mut bytes = Vec::new(alloc);
    file.take(MOST + 1).read_to_end(&mut bytes)?;
    if bytes.len() as u64 > MOST {
        return Err(io::Error::new(ErrorKind::FileTooLarge, "it has more than 1,048,576 bytes"));
    }
    Ok(Some(bytes))
}
