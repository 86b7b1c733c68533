//! Files that are there, compared with the texts of uploads.
ghost use Rattle.std.specs.Prelude.{◌≡◌, ◌<◌, ◌≤◌, ◌+◌, ◌-◌, ℕ, Bool, List, IfErr, IfOk, IsErrOf, Ok, OnOk, Some};
ghost use Rattle.std.specs.Prelude.{drop, length, min, take};
ghost use Rattle.common.specs.Given.{MoreReads};
ghost use Rattle.common.specs.declared.stop.Stop.{Stop};
ghost use Rattle.upload_rules.specs.Answers.{Counts, Quiet};
ghost use Rattle.upload_rules.specs.Reading.{text_at};
ghost use Rattle.upload_rules.specs.Store.{upload_of};
ghost use Rattle.upload_rules.specs.World.{World};
ghost use Rattle.gateway_outside.specs.declared.faults.Fault.{Fault};
ghost use Rattle.gateway_outside.specs.Changing.{IsChangeFault};
ghost use Rattle.gateway_outside.specs.Files.{Files};
ghost use Rattle.gateway_export.specs.Exporting.{IsLike};
ghost use Rattle.gateway_export.specs.declared.comparing.Likeness.{Likeness};
ghost use Rattle.gateway_export.specs.Folders.{StillLast};

use crate::folders::{Folder, FolderError};
use common::Stop;
use gateway_outside::Fault;
use gateway_texts::{PIECE, read_at};
use upload_rules::Uploads;

/// Whether a file that is there is a text.
#[derive(Clone, Copy, Drop)]
pub(crate) enum Likeness {
    /// It is, byte for byte.
    Same,
    /// It isn't.
    Other,
    /// It couldn't be read.
    Unread,
}

/// Whether the file of this name, which has so many bytes, is the text of an upload, byte for byte. The text is read up
/// to the first piece that differs, or that couldn't be read in the file.
pub(crate) fn compare_text<F: Folder, U: Uploads>(
    folder: &mut F,
    uploads: &mut U,
    number: u64,
    name: &str,
    len: u64,
) -> Result<Likeness, Fault>
    ensures same { (sure : Bool) (w : World) → U.represents uploads.old sure w → (files : Files) (bytes : List ℕ)
        → F.holds folder.old files → files name.now ≡ Some bytes → len ≡ length bytes
        → IfOk result (IsLike sure bytes (text_at w.store (upload_of w.store number))) }
    ensures preserves { (files : Files) → F.holds folder.old files → F.holds folder.new files }
    ensures names { F.takes folder.new ≡ F.takes folder.old }
    ensures still { StillLast (F.lasting folder.old) (F.lasting folder.new) }
    ensures represents { (sure : Bool) (w : World) → U.represents uploads.old sure w
        → OnOk result (U.represents uploads.new sure w) }
    ensures crash { Quiet (U.moment uploads.old) (U.moment uploads.new) (U.left_only uploads.old)
        (U.left_only uploads.new) }
    ensures refused { IfErr result IsChangeFault }
    ensures counts { Counts (IsErrOf result (Fault.Stop Stop.DiskFault)) (U.failures uploads.old)
        (U.failures uploads.new) }
    ensures reads { MoreReads (U.reads uploads.old) (U.reads uploads.new) }

    // It couldn't be read exactly where the folder refused that.
    ensures unread { Counts (result ≡ Ok Likeness.Unread) (F.unread folder.old) (F.unread folder.new) }
    ensures refusals { F.refusals folder.new ≡ F.refusals folder.old }
    ensures never_io { (sure : Bool) (w : World) → U.represents uploads.old sure w
        → IfErr result (λ fault. fault ≡ Fault.Io → ⊥) }
{
    if len != text_len(uploads, number) {
        return Ok(Likeness::Other);
    }
    let mut at = 0;
    while at < len {
        let count = (len - at).min(PIECE as u64);
        match compare_piece(folder, uploads, number, name, at, count as usize)? {
            Likeness::Same => at += count,
            Likeness::Other => return Ok(Likeness::Other),
            Likeness::Unread => return Ok(Likeness::Unread),
        }
    }
    Ok(Likeness::Same)
}

/// How many bytes the text of an upload has.
pub(crate) fn text_len<U: Uploads>(uploads: &U, number: u64) -> u64
    ensures { (sure : Bool) (w : World) → U.represents uploads.now sure w
        → result ≡ length (text_at w.store (upload_of w.store number)) }
{
    match uploads.record(number) {
        Some(record) => record.text_len,
        None => 0,
    }
}

// Whether the file of this name has so many bytes of a text, from `at` on.
fn compare_piece<F: Folder, U: Uploads>(
    folder: &mut F,
    uploads: &mut U,
    number: u64,
    name: &str,
    at: u64,
    count: usize,
) -> Result<Likeness, Fault>
    requires { count ≤ PIECE }
    ensures same { (sure : Bool) (w : World) → U.represents uploads.old sure w → (files : Files) (bytes : List ℕ)
        → F.holds folder.old files → files name.now ≡ Some bytes
        → at + count ≤ length (text_at w.store (upload_of w.store number))
        → IfOk result (IsLike sure (take count (drop at bytes))
        (take count (drop at (text_at w.store (upload_of w.store number))))) }
    ensures preserves { (files : Files) → F.holds folder.old files → F.holds folder.new files }
    ensures names { F.takes folder.new ≡ F.takes folder.old }
    ensures still { StillLast (F.lasting folder.old) (F.lasting folder.new) }
    ensures represents { (sure : Bool) (w : World) → U.represents uploads.old sure w
        → OnOk result (U.represents uploads.new sure w) }
    ensures crash { Quiet (U.moment uploads.old) (U.moment uploads.new) (U.left_only uploads.old)
        (U.left_only uploads.new) }
    ensures refused { IfErr result IsChangeFault }
    ensures counts { Counts (IsErrOf result (Fault.Stop Stop.DiskFault)) (U.failures uploads.old)
        (U.failures uploads.new) }
    ensures reads { MoreReads (U.reads uploads.old) (U.reads uploads.new) }
    ensures unread { Counts (result ≡ Ok Likeness.Unread) (F.unread folder.old) (F.unread folder.new) }
    ensures refusals { F.refusals folder.new ≡ F.refusals folder.old }
    ensures never_io { (sure : Bool) (w : World) → U.represents uploads.old sure w → 0 < count
        → at + count ≤ length (text_at w.store (upload_of w.store number))
        → IfErr result (λ fault. fault ≡ Fault.Io → ⊥) }
{
    let mut buffer = [0; PIECE];
    let piece = &mut buffer[..count];
    read_at(uploads, number, at, piece)?;
    match folder.has_at(name, at, piece) {
        Ok(true) => Ok(Likeness::Same),
        Ok(false) => Ok(Likeness::Other),
        // That a file that is there can't be read is no reason to leave the others.
        Err(FolderError::Refused) => Ok(Likeness::Unread),
        Err(FolderError::NoMemory) => Err(Fault::Stop(Stop::NoMemory)),
    }
}
