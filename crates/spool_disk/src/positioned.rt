//! Files that are read and written at places, with a record of their calls.
ghost use Rattle.std.specs.Prelude.{◌≡◌, List, [], ◌∷◌, true, is_ok, IfOk, OnErr};
ghost use Rattle.spool_disk.specs.Positioned.{made};

use common::Trace;
use std::io;

/// A call of a file.
#[derive(Clone, Copy, Debug)]
pub enum FileCall {
    /// It was opened, to be read and written.
    Open {
        /// Whether it is made where there is none.
        create: bool,
        /// Whether it is emptied.
        truncate: bool,
    },
    /// Its exclusive lock was taken (`flock`).
    Lock,
    /// It was asked for its length in bytes; this was the answer.
    Len(u64),
    /// It was read from this place on.
    ReadAt(u64),
    /// It was written from this place on.
    WriteAt(u64),
    /// It was made this many bytes long.
    SetLen(u64),
    /// Its bytes were made durable, with what is needed to read them (`fdatasync`).
    SyncData,
    /// All of it was made durable, its length too (`fsync`).
    SyncAll,
    /// Its name in its folder was made durable.
    SyncFolder,
}

/// A call that was made. Only clauses read it.
#[derive(Drop)]
pub struct Made {
    /// The call.
    pub call: FileCall,
    /// The bytes that it read or wrote.
    pub bytes: Trace<u8>,
    /// Whether it succeeded.
    pub done: bool,
}

impl Made {
    ghost use Rattle.spool_disk.specs.Positioned.{made};

    /// Such a call.
    pub(crate) fn new(call: FileCall, bytes: &[u8], done: bool) -> Made
        ensures { result ≡ made call bytes.now done }
    {
        Made {
            call,
            bytes: Trace::new().then(bytes),
            done,
        }
    }
}

/// A file that is read and written at places. Its ghost record has every call, with the bytes that were read or written
/// and whether the call succeeded.
pub trait Positioned {
    ghost use Rattle.spool_disk.specs.declared.positioned.Made.{Made};

    /// The calls that were made, the latest first.
    ghost calls: { Self → List Made };

    /// The number of bytes.
    fn len(&mut self) -> io::Result<u64>
        ensures asked { IfOk result (λ n. calls self.new ≡ made (FileCall.Len n) [] true ∷ calls self.old) }
        ensures none { OnErr result (calls self.new ≡ calls self.old) };

    /// Fills the buffer with the bytes from `at` on. It is an error if the file ends before.
    fn read_exact_at(&mut self, buf: &mut [u8], at: u64) -> io::Result<()>
        ensures { calls self.new ≡ made (FileCall.ReadAt at) buf.new (is_ok result) ∷ calls self.old };

    /// Writes all the bytes from `at` on.
    fn write_all_at(&mut self, bytes: &[u8], at: u64) -> io::Result<()>
        ensures { calls self.new ≡ made (FileCall.WriteAt at) bytes.now (is_ok result) ∷ calls self.old };

    /// Makes the file `len` bytes long. New bytes are zeros.
    fn set_len(&mut self, len: u64) -> io::Result<()>
        ensures { calls self.new ≡ made (FileCall.SetLen len) [] (is_ok result) ∷ calls self.old };

    /// Makes all writes durable, but not a change of the length.
    fn sync_data(&mut self) -> io::Result<()>
        ensures { calls self.new ≡ made FileCall.SyncData [] (is_ok result) ∷ calls self.old };

    /// Makes all writes and the length durable.
    fn sync_all(&mut self) -> io::Result<()>
        ensures { calls self.new ≡ made FileCall.SyncAll [] (is_ok result) ∷ calls self.old };
}
