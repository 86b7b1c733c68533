//! What the system failed at, and what to do next.

use std::fmt;
use std::io::ErrorKind;
use std::net::SocketAddr;

/// What the system failed at.
#[derive(Clone, Copy, Debug, PartialEq, Eq, Drop)]
pub enum Task<'a> {
    /// Making, lengthening or locking the spool at this path.
    MakeSpool(&'a str),
    /// Making a new spool at this path, for which there is no room. What there was of it is removed.
    FitNewSpool(&'a str),
    /// Making a spool in the file at this path, for which there is no room.
    FitSpool(&'a str),
    /// Opening or locking the spool at this path.
    OpenSpool(&'a str),
    /// Reading, writing or syncing the spool at this path.
    UseSpool(&'a str),
    /// Looking into this folder for index files.
    FindFolder(&'a str),
    /// Looking into this folder, into which texts are to be written.
    FindTextFolder(&'a str),
    /// Making or writing a file in this folder.
    WriteInto(&'a str),
    /// Reading or syncing a file of this folder, which an upload's text is to be in.
    ReadTexts(&'a str),
    /// Reading the index file of this name in this folder.
    ReadIndex(&'a str, &'static str),
    /// Listening at this address.
    Listen(SocketAddr),
    /// Reading the command line.
    ReadWords,
    /// Reading standard input.
    ReadInput,
    /// Writing to standard output or standard error.
    Print,
}

impl fmt::Display for Task<'_> {
    fn fmt<W: fmt::Write>(&self, f: &mut fmt::Formatter<W>) -> fmt::Result {
        match self {
            Task::MakeSpool(path) => write!(f, "cannot make the spool {path}"),
            Task::FitNewSpool(path) => write!(
                f,
                "no room for the spool {path}, and what there was of it is removed again"
            ),
            Task::FitSpool(path) => write!(f, "no room for the spool {path}"),
            Task::OpenSpool(path) => write!(f, "cannot open the spool {path}"),
            Task::UseSpool(path) => write!(f, "cannot read or write the spool {path}"),
            Task::FindFolder(path) | Task::FindTextFolder(path) => {
                write!(f, "cannot look into the folder {path}")
            }
            Task::WriteInto(path) => write!(f, "cannot write into the folder {path}"),
            Task::ReadTexts(path) => write!(f, "cannot read or sync a file in {path}"),
            Task::ReadIndex(folder, file) => write!(f, "cannot read {folder}/{file}"),
            Task::Listen(address) => write!(f, "cannot listen at {address}"),
            Task::ReadWords => f.write_str("cannot read the command line"),
            Task::ReadInput => f.write_str("cannot read standard input"),
            Task::Print => f.write_str("cannot write to standard output or standard error"),
        }
    }
}

impl Task<'_> {
    /// What to do next, where that is known, behind the system's error.
    pub(crate) fn advice(&self, error: ErrorKind) -> &'static str {
        match (self, error) {
            (Task::OpenSpool(_), ErrorKind::PermissionDenied | ErrorKind::ReadOnlyFilesystem) => {
                ". Each command needs the right to write it, `list` and `export` too"
            }
            (Task::FindFolder(_), ErrorKind::NotFound) => {
                ". The standard's index files are in /usr/share/wovelatsa/indexes, or encoding.spec.whatwg.org has them"
            }
            (Task::FindTextFolder(_), ErrorKind::NotFound) => {
                ". The texts are written into a folder that is there: make it first"
            }
            (Task::ReadTexts(_), _) => {
                ". Make what is `unread` readable, or move it away, and export again: the others are written"
            }
            _ => "",
        }
    }
}

/// What is wrong with what a command was given, and what to do next.
#[derive(Clone, Copy, Debug, PartialEq, Eq, Drop)]
pub enum Advice<'a> {
    /// The file at this path is no spool.
    NoSpool(&'a str),
    /// The file at this path begins as a spool, but hasn't the length that it names, or names no valid one.
    CutShort(&'a str),
    /// The file at this path holds what no gateway writes.
    Damaged(&'a str),
    /// The spool at this path is of a version that isn't known.
    Version(&'a str),
    /// The spool at this path is of version 2 already.
    AlreadyNew(&'a str),
    /// The file at this path is a spool already.
    AlreadySpool(&'a str),
    /// The file at this path is no spool, and has a byte other than zero.
    NotEmpty(&'a str),
    /// Another process has the spool at this path open.
    InUse(&'a str),
    /// The index file of this name in this folder isn't of the form.
    IndexFile(&'a str, &'static str),
    /// Some of the index files of this folder aren't the standard's.
    OtherIndexes(&'a str),
    /// Some of the numbers that were to be deleted have no upload.
    Undeleted,
    /// This number, whose upload was to be kept, has none.
    NoneToKeep(u64),
    /// The number of blocks is out of range.
    Blocks,
    /// The number would leave too few.
    Number,
    /// A file in this folder isn't its upload's text.
    Differs(&'a str),
    /// A text can't be shown as asked.
    Text(TextAdvice<'a>),
}

impl fmt::Display for Advice<'_> {
    fn fmt<W: fmt::Write>(&self, f: &mut fmt::Formatter<W>) -> fmt::Result {
        match self {
            Advice::NoSpool(path) => write!(f, "{path} is no spool: see whether the path is right"),
            Advice::CutShort(path) => write!(
                f,
                "{path} begins as a spool, but is cut short or damaged: go back to another copy of it, or see what \
                tools/read-spool finds"
            ),
            Advice::Damaged(path) => write!(
                f,
                "{path} is damaged: go back to another copy of it, or see what tools/read-spool finds"
            ),
            Advice::Version(path) => write!(
                f,
                "{path} is of another version: take a newer program"
            ),
            Advice::AlreadyNew(path) => write!(f, "{path} is of version 2: there is nothing to do"),
            Advice::AlreadySpool(path) => write!(
                f,
                "{path} is a spool, and stays as it is: take another path, or remove it yourself"
            ),
            Advice::NotEmpty(path) => {
                write!(
                    f,
                    "{path} isn't empty, and no spool: take another path, or --overwrite if nobody needs it. "
                )?;
                f.write_str(
                    "An interrupted format leaves such a file; a damaged spool is one too: see docs/FORMAT.md",
                )
            }
            Advice::InUse(path) => write!(
                f,
                "{path} is in use: stop the gateway that serves it (`fuser {path}` prints its process)"
            ),
            Advice::IndexFile(folder, name) => write!(
                f,
                "{folder}/{name} is damaged, or no index file: fetch it again from encoding.spec.whatwg.org"
            ),
            Advice::OtherIndexes(folder) => write!(
                f,
                "{folder} hasn't the standard's 18 index files, and no spool was made: take those of \
                /usr/share/wovelatsa/indexes or encoding.spec.whatwg.org"
            ),
            Advice::Undeleted => {
                f.write_str(
                    "all others are deleted; `gateway list` prints the numbers that there are",
                )
            }
            Advice::NoneToKeep(number) => write!(
                f,
                "there is no upload {number} to keep, so nothing is deleted; `gateway list` prints the numbers that \
                there are"
            ),
            Advice::Blocks => f.write_str("the number of blocks is 16 to 65536"),
            Advice::Number => f.write_str(
                "the number is at most 999000000000000000: nothing lowers it again",
            ),
            Advice::Differs(folder) => write!(
                f,
                "{folder} has a file that isn't its upload's text, which is in no file: look before you delete the \
                upload"
            ),
            Advice::Text(advice) => write!(f, "{advice}"),
        }
    }
}

/// Why a text can't be shown as asked, and what to do next.
#[derive(Clone, Copy, Debug, PartialEq, Eq, Drop)]
pub enum TextAdvice<'a> {
    /// This option has this label, which is of no encoding that the gateway has.
    Label(&'static str, &'a str),
    /// This is neither of the two modes.
    Mode(&'a str),
    /// The folder lacks an index file of the encoding that this label names.
    NoIndex(&'a str, &'a str),
    /// The encoding that this label names lacks this character. So many bytes were written before it.
    Lacks(&'a str, Option<char>, u64),
    /// By this label the text has characters that stand for lost bytes.
    Losses(&'a str),
}

impl fmt::Display for TextAdvice<'_> {
    fn fmt<W: fmt::Write>(&self, f: &mut fmt::Formatter<W>) -> fmt::Result {
        match self {
            TextAdvice::Label(option, label) => write!(
                f,
                "{option} {label}: no label of an encoding that the gateway has, see docs/PROTOCOL.md"
            ),
            TextAdvice::Mode(mode) => write!(f, "--mode {mode}: the modes are html and fatal"),
            TextAdvice::NoIndex(folder, label) => write!(
                f,
                "{folder} lacks an index file that {label} needs: fetch it from encoding.spec.whatwg.org"
            ),
            TextAdvice::Lacks(label, Some(character), bytes) => write!(
                f,
                "{label} lacks U+{:04X}, after the {bytes} bytes that were written: --mode html writes `&#NUMBER;`",
                u32::from(*character)
            ),
            TextAdvice::Lacks(label, None, bytes) => write!(
                f,
                "{label} lacks a character, after the {bytes} bytes that were written: --mode html writes `&#NUMBER;`"
            ),
            TextAdvice::Losses(label) => write!(
                f,
                "bytes are lost: {label} is another label than theirs, or they are damaged (or they have U+FFFD). \
                `gateway labels` tries the others"
            ),
        }
    }
}
