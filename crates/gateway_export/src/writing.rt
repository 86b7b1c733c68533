//! Texts of uploads, written into files of a folder.
ghost use Rattle.std.specs.Prelude.{◌≡◌, ◌<◌, ◌+◌, ◌-◌, ℕ, Bool, IfErr, IfOk, IsErrOf, OnOk, drop, length, min, take};
ghost use Rattle.common.specs.Given.{MoreReads};
ghost use Rattle.common.specs.declared.stop.Stop.{Stop};
ghost use Rattle.upload_rules.specs.Answers.{Counts, Quiet};
ghost use Rattle.upload_rules.specs.Reading.{text_at};
ghost use Rattle.upload_rules.specs.Store.{upload_of};
ghost use Rattle.upload_rules.specs.World.{World};
ghost use Rattle.gateway_outside.specs.declared.faults.Fault.{Fault};
ghost use Rattle.gateway_outside.specs.Changing.{IsChangeFault};
ghost use Rattle.gateway_outside.specs.Files.{Files};
ghost use Rattle.gateway_texts.specs.Copies.{AppendsOf};
ghost use Rattle.gateway_export.specs.Folders.{StillLast};

use crate::comparing::text_len;
use crate::folders::Folder;
use gateway_outside::Fault;
use gateway_texts::{PIECE, read_at};
use upload_rules::Uploads;

/// Writes the text of an upload into a file of a folder, all that there is of it so far: nothing where no upload has
/// the number.
pub(crate) fn copy_into<F: Folder, U: Uploads>(
    folder: &mut F,
    file: &mut F::File,
    uploads: &mut U,
    number: u64,
) -> Result<(), Fault>
    // Whatever the disk, as many bytes were written as the text has, and exactly the text if the store is sure of it.
    ensures copied { (sure : Bool) (w : World) → U.represents uploads.old sure w
        → OnOk result (AppendsOf sure (F.content file.old) (F.content file.new)
        (text_at w.store (upload_of w.store number))) }
    ensures names { F.takes folder.new ≡ F.takes folder.old }
    ensures still { StillLast (F.lasting folder.old) (F.lasting folder.new) }
    ensures preserves { (files : Files) → F.holds folder.old files → F.holds folder.new files }
    ensures represents { (sure : Bool) (w : World) → U.represents uploads.old sure w
        → OnOk result (U.represents uploads.new sure w) }
    ensures crash { Quiet (U.moment uploads.old) (U.moment uploads.new) (U.left_only uploads.old)
        (U.left_only uploads.new) }
    ensures refused { IfErr result IsChangeFault }
    ensures counts { Counts (IsErrOf result (Fault.Stop Stop.DiskFault)) (U.failures uploads.old)
        (U.failures uploads.new) }
    ensures reads { MoreReads (U.reads uploads.old) (U.reads uploads.new) }

    // `Io` is answered exactly where the folder refused.
    ensures io { (sure : Bool) (w : World) → U.represents uploads.old sure w
        → Counts (IsErrOf result Fault.Io) (F.refusals folder.old) (F.refusals folder.new) }
    ensures unread { F.unread folder.new ≡ F.unread folder.old }
{
    let len = text_len(uploads, number);
    let mut at = 0;
    while at < len {
        at = copy_piece(folder, file, uploads, number, at, len)?;
    }
    Ok(())
}

// Writes the next piece of a text that is so long: where it ends.
fn copy_piece<F: Folder, U: Uploads>(
    folder: &mut F,
    file: &mut F::File,
    uploads: &mut U,
    number: u64,
    at: u64,
    len: u64,
) -> Result<u64, Fault>
    requires { at < len }
    ensures next { IfOk result (λ next. next ≡ at + min (len - at) PIECE) }
    ensures copied { (sure : Bool) (w : World) → U.represents uploads.old sure w
        → len ≡ length (text_at w.store (upload_of w.store number))
        → IfOk result (λ next. AppendsOf sure (F.content file.old) (F.content file.new)
        (take (next - at) (drop at (text_at w.store (upload_of w.store number))))) }
    ensures names { F.takes folder.new ≡ F.takes folder.old }
    ensures still { StillLast (F.lasting folder.old) (F.lasting folder.new) }
    ensures preserves { (files : Files) → F.holds folder.old files → F.holds folder.new files }
    ensures represents { (sure : Bool) (w : World) → U.represents uploads.old sure w
        → OnOk result (U.represents uploads.new sure w) }
    ensures crash { Quiet (U.moment uploads.old) (U.moment uploads.new) (U.left_only uploads.old)
        (U.left_only uploads.new) }
    ensures refused { IfErr result IsChangeFault }
    ensures counts { Counts (IsErrOf result (Fault.Stop Stop.DiskFault)) (U.failures uploads.old)
        (U.failures uploads.new) }
    ensures reads { MoreReads (U.reads uploads.old) (U.reads uploads.new) }
    ensures io { (sure : Bool) (w : World) → U.represents uploads.old sure w
        → len ≡ length (text_at w.store (upload_of w.store number))
        → Counts (IsErrOf result Fault.Io) (F.refusals folder.old) (F.refusals folder.new) }
    ensures unread { F.unread folder.new ≡ F.unread folder.old }
{
    let count = (len - at).min(PIECE as u64);
    let mut buffer = [0; PIECE];
    let piece = &mut buffer[..count as usize];
    read_at(uploads, number, at, piece)?;
    folder.put(file, piece)?;
    Ok(at + count)
}
