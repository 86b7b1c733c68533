//! The operator's index files.
ghost use Rattle.std.specs.Prelude.{◌≡◌, ◌++◌, ◌∷◌, [], true, IfErr, IfOk, OnOk, map};
ghost use Rattle.std.specs.IoError.{error_kind};
ghost use Rattle.gateway_outside.specs.declared.faults.Fault.{Fault};
ghost use Rattle.gateway_outside.specs.Failures.{fault_in};
ghost use Rattle.gateway_outside.specs.Faults.{reading_fault};
ghost use Rattle.gateway_indexes.specs.IndexFiles.{index_files, indexes_of, named, standard_entries};
ghost use Rattle.gateway_indexes.specs.Folders.{Folders, IsFileUnread, IsFolderUnread, IsUnread, IsUnwanted, ReadsFile};
ghost use Rattle.gateway_indexes.specs.Folders.{ReadsFolder, ReadsRows};
ghost use Rattle.gateway_indexes.specs.Found.{all_standard, found_by, row_for, row_of};

use crate::folders::IndexFolders;
use crate::found::Found;
use crate::reports::report_read;
use enc_index::{Index, IndexSet, Kind, ReadError};
use enc_labels::name_of;
use enc_model::Encoding;
use gateway_outside::{Advice, Failure, Fault, Output, Task};
use std::alloc::{AllocError, Global};
use std::{fmt, io};

// The names of the files in their folder (the Encoding Standard, section 5), in the order of a spool's index area.
pub(crate) static FILES: [(&str, Kind); 18] = [
    ("index-jis0208.txt", Kind::Jis0208),
    ("index-jis0212.txt", Kind::Jis0212),
    ("index-iso-2022-jp-katakana.txt", Kind::Katakana),
    ("index-ibm866.txt", Kind::Single(Encoding::Ibm866)),
    ("index-iso-8859-2.txt", Kind::Single(Encoding::Iso8859X2)),
    ("index-iso-8859-5.txt", Kind::Single(Encoding::Iso8859X5)),
    ("index-iso-8859-15.txt", Kind::Single(Encoding::Iso8859X15)),
    ("index-koi8-r.txt", Kind::Single(Encoding::Koi8R)),
    ("index-macintosh.txt", Kind::Single(Encoding::Macintosh)),
    (
        "index-windows-1250.txt",
        Kind::Single(Encoding::Windows1250),
    ),
    (
        "index-windows-1251.txt",
        Kind::Single(Encoding::Windows1251),
    ),
    (
        "index-windows-1252.txt",
        Kind::Single(Encoding::Windows1252),
    ),
    (
        "index-windows-1253.txt",
        Kind::Single(Encoding::Windows1253),
    ),
    (
        "index-windows-1254.txt",
        Kind::Single(Encoding::Windows1254),
    ),
    (
        "index-windows-1255.txt",
        Kind::Single(Encoding::Windows1255),
    ),
    (
        "index-windows-1256.txt",
        Kind::Single(Encoding::Windows1256),
    ),
    (
        "index-windows-1257.txt",
        Kind::Single(Encoding::Windows1257),
    ),
    (
        "index-windows-1258.txt",
        Kind::Single(Encoding::Windows1258),
    ),
];

/// An index file, and what was found of it.
#[derive(Clone, Copy, Debug, PartialEq, Eq, Drop)]
pub struct IndexFile {
    /// Its name.
    pub name: &'static str,
    /// The encodings that need it.
    pub encodings: &'static str,
    /// How many entries the standard's file has.
    pub standard: u32,
    /// What was found of it.
    pub found: Found,
}

impl IndexFile {
    /// The file of this name for an index of this kind, and what was found of it.
    pub(crate) fn new(name: &'static str, kind: Kind, found: Found) -> Self
        ensures row { row_of result ≡ row_for (name.now, kind) }
        ensures found { result.found ≡ found }
    {
        IndexFile {
            name,
            encodings: encodings_of(kind),
            standard: standard_entries(kind),
            found,
        }
    }
}

/// What is found of a file: whether it is the standard's. Another one is accepted too, so this is a warning.
impl fmt::Display for IndexFile {
    ghost use Rattle.std.specs.Prelude.{Some};
    ghost use Rattle.gateway_indexes.specs.Reports.{file_lines};

    ghost output = { λ file. Some (file_lines file) };

    fn fmt<W: fmt::Write>(&self, f: &mut fmt::Formatter<W>) -> fmt::Result {
        let IndexFile {
            name,
            encodings,
            standard,
            found,
        } = self;
        match found {
            Found::Missing => writeln!(f, "not offered: {encodings}, since {name} isn't there"),
            Found::Standard => writeln!(f, "{name}: {standard} entries"),
            Found::Other(count) if count == standard => writeln!(
                f,
                "WARNING: {name} isn't the standard's: other entries, though as many ({count})\n\
                WARNING: texts in {encodings} will be spoiled for good: make the spool again, with the standard's file"
            ),
            Found::Other(count) => writeln!(
                f,
                "WARNING: {name} isn't whole: it has {count} entries, and the standard's {standard}\n\
                WARNING: texts in {encodings} will be spoiled for good: make the spool again, with the standard's file"
            ),
        }
    }
}

/// The index files of a folder.
#[derive(Drop)]
pub struct IndexFiles {
    /// The indexes that they have.
    pub set: IndexSet,
    /// Each file, in the order of a spool's index area.
    pub files: Vec<IndexFile>,
}

/// Reads the index files that are in the folder at this path, which has to be there. A file that isn't there isn't set.
pub fn read_indexes<'a, R: IndexFolders>(
    alloc: Global,
    folders: &mut R,
    path: &'a str,
) -> Result<IndexFiles, Failure<'a>>
    // All files of the standard are read, each once, and told of as what they have; the set has their indexes.
    ensures read { IfOk result (λ read. ReadsFolder (R.have folders.old) path.now (R.calls folders.old)
        (R.calls folders.new) read.set read.files.items) }

    // Where it is known which files there are, these are the indexes and what is told.
    ensures set { (had : Folders) → R.have folders.old had
        → IfOk result (λ read. read.set ≡ indexes_of (had path.now)) }
    ensures found { (had : Folders) → R.have folders.old had → IfOk result
        (λ read. map (λ file. file.found) read.files.items ≡ map (found_by (had path.now)) index_files) }

    // A refusal has its reason: a call that failed, a file that is no index of its kind, or memory.
    ensures refused { IfErr result (λ failure. IsFolderUnread path.now (R.calls folders.old) (R.calls folders.new)
        (fault_in failure)) }
    ensures have { (had : Folders) → R.have folders.old had → R.have folders.new had }
{
    match folders.find(path) {
        Ok(()) => return read_rows(alloc, folders, path, &FILES),
        Err(error) => return Err(unread(Task::FindFolder(path), error)),
    }
}

/// Reads the index files of a folder as `read_indexes` does. With `standard` they have to be the standard's: if some
/// aren't, they are refused with `OtherIndexes`, and told of on standard error.
pub fn read_wanted<'a, R: IndexFolders, E: Output>(
    alloc: Global,
    folders: &mut R,
    errors: &mut E,
    path: &'a str,
    standard: bool,
) -> Result<IndexFiles, Failure<'a>>
    ensures read { IfOk result (λ read. ReadsFolder (R.have folders.old) path.now (R.calls folders.old)
        (R.calls folders.new) read.set read.files.items) }
    ensures standard { IfOk result (λ read. standard ≡ true → all_standard read.files.items ≡ true) }
    ensures refused { IfErr result (λ failure. IsUnwanted (R.have folders.old) path.now (R.calls folders.old)
        (R.calls folders.new) standard (fault_in failure)) }
    ensures have { (had : Folders) → R.have folders.old had → R.have folders.new had }
{
    let read = match read_indexes(alloc, folders, path) {
        Ok(read) => read,
        Err(failure) => return Err(failure),
    };
    if !standard || are_standard(&read.files) {
        return Ok(read);
    }
    // If standard error can't be written, they aren't told of.
    drop(report_read(errors, &read.files));
    Err(Failure::advised(Fault::OtherIndexes, Advice::OtherIndexes(path)))
}

// The failure of a call that reads.
fn unread<'a>(task: Task<'a>, error: io::Error) -> Failure<'a>
    ensures { fault_in result ≡ reading_fault (error_kind error) }
{
    Failure::new(Fault::of_reading(error.kind()), task, error)
}

// Reads the files of a table, each as an index of its kind.
fn read_rows<'a, R: IndexFolders>(
    alloc: Global,
    folders: &mut R,
    path: &'a str,
    table: &[(&'static str, Kind)],
) -> Result<IndexFiles, Failure<'a>>
    ensures read { IfOk result (λ read. ReadsRows (R.have folders.old) path.now (map named table.now)
        (R.calls folders.old) (R.calls folders.new) read.set read.files.items) }
    ensures refused { IfErr result (λ failure. IsUnread path.now (R.calls folders.old) (R.calls folders.new)
        (fault_in failure)) }
    ensures have { (had : Folders) → R.have folders.old had → R.have folders.new had }
{
    let mut set = IndexSet::new(alloc)?;
    let mut files = Vec::new(alloc);
    for (name, kind) in table {
        let found = read_into(alloc, &mut set, folders, path, name, *kind)?;
        tell(&mut files, IndexFile::new(name, *kind, found))?;
    }
    Ok(IndexFiles { set, files })
}

// Adds a file to those that are told of.
fn tell(files: &mut Vec<IndexFile>, file: IndexFile) -> Result<(), AllocError>
    ensures { OnOk result (files.new.items ≡ files.old.items ++ file ∷ []) }
{
    files.push(file)?;
    Ok(())
}

// Reads the index file of this name, where it is there, into a set: what was found of it.
fn read_into<'a, R: IndexFolders>(
    alloc: Global,
    set: &mut IndexSet,
    folders: &mut R,
    path: &'a str,
    name: &'static str,
    kind: Kind,
) -> Result<Found, Failure<'a>>
    ensures read { IfOk result (ReadsFile (R.have folders.old) path.now (name.now, kind) (R.calls folders.old)
        (R.calls folders.new) set.old set.new) }
    ensures refused { IfErr result (λ failure. IsFileUnread path.now (name.now, kind) (R.calls folders.old)
        (R.calls folders.new) (fault_in failure)) }
    ensures have { (had : Folders) → R.have folders.old had → R.have folders.new had }
{
    let bytes = match folders.read(alloc, path, name) {
        Ok(Some(bytes)) => bytes,
        Ok(None) => return Ok(Found::Missing),
        Err(error) => return Err(unread(Task::ReadIndex(path, name), error)),
    };
    match Index::read(alloc, &bytes, kind) {
        Ok(index) => {
            let found = Found::of(kind, &index);
            set.set(index);
            Ok(found)
        }
        Err(error) => Err(refused_index(path, name, error)),
    }
}

// The refusal of an index file, with an advice where it isn't of the form.
fn refused_index<'a>(path: &'a str, name: &'static str, error: ReadError) -> Failure<'a>
    ensures { fault_in result ≡ Fault.Index name.entry error }
{
    let fault = Fault::Index(name, error);
    match error {
        ReadError::NoMemory => Failure::from(fault),
        _ => Failure::advised(fault, Advice::IndexFile(path, name)),
    }
}

// Whether all of them are the standard's.
fn are_standard(files: &[IndexFile]) -> bool
    ensures { result ≡ all_standard files.now }
{
    files.iter().all(|file| file.found.is_standard())
}

/// How many entries an index of this kind has in the Encoding Standard, section 5.
pub fn standard_entries(kind: Kind) -> u32
    ensures { result ≡ standard_entries kind }
{
    match kind {
        Kind::Jis0208 => 7724,
        Kind::Jis0212 => 6067,
        Kind::Katakana => 63,
        Kind::Single(Encoding::Windows1253) => 125,
        Kind::Single(Encoding::Windows1255) => 118,
        Kind::Single(Encoding::Windows1257) => 126,
        Kind::Single(_) => 128,
    }
}

// The names of the encodings that need an index of this kind.
fn encodings_of(kind: Kind) -> &'static str {
    match kind {
        Kind::Jis0208 => "Shift_JIS, EUC-JP and ISO-2022-JP",
        Kind::Jis0212 => "EUC-JP",
        Kind::Katakana => "ISO-2022-JP",
        Kind::Single(encoding) => name_of(encoding),
    }
}
