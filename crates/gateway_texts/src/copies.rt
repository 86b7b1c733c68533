//! Texts of uploads, copied to writers.
ghost use Rattle.std.specs.Prelude.{◌≡◌, ◌<◌, ◌≤◌, ◌+◌, ◌-◌, Bool, IfErr, IfOk, IsErrOf, OnOk, drop, length, min, take};
ghost use Rattle.common.specs.Given.{MoreReads};
ghost use Rattle.common.specs.declared.stop.Stop.{Stop};
ghost use Rattle.upload_rules.specs.Answers.{Counts, Quiet};
ghost use Rattle.upload_rules.specs.Reading.{text_at};
ghost use Rattle.upload_rules.specs.Store.{upload_of};
ghost use Rattle.upload_rules.specs.World.{World};
ghost use Rattle.gateway_outside.specs.declared.faults.Fault.{Fault};
ghost use Rattle.gateway_outside.specs.Changing.{IsChangeFault};
ghost use Rattle.gateway_texts.specs.Copies.{AppendsOf, AreOf};

use gateway_outside::Fault;
use spool_journal::PAGE;
use std::io::Write;
use upload_rules::{UploadError, Uploads};

// How many bytes are read at once: a block of a text.
pub const PIECE: usize = PAGE;

/// Writes the text of an upload, all that there is of it so far: nothing where no upload has the number.
pub fn copy_text<W: Write, U: Uploads>(
    writer: &mut W,
    uploads: &mut U,
    number: u64,
) -> Result<(), Fault>
    // Whatever the disk, as many bytes were written as the text has, and exactly the text if the store is sure of it.
    ensures copied { (sure : Bool) (w : World) → U.represents uploads.old sure w
        → OnOk result (AppendsOf sure (W.contents writer.old) (W.contents writer.new)
        (text_at w.store (upload_of w.store number))) }

    // The uploads stay as they are, and whatever a crash may leave.
    ensures represents { (sure : Bool) (w : World) → U.represents uploads.old sure w
        → OnOk result (U.represents uploads.new sure w) }
    ensures crash { Quiet (U.moment uploads.old) (U.moment uploads.new) (U.left_only uploads.old)
        (U.left_only uploads.new) }
    ensures refused { IfErr result IsChangeFault }
    ensures counts { Counts (IsErrOf result (Fault.Stop Stop.DiskFault)) (U.failures uploads.old)
        (U.failures uploads.new) }
    ensures reads { MoreReads (U.reads uploads.old) (U.reads uploads.new) }
{
    let Some(record) = uploads.record(number) else {
        return Ok(());
    };
    let len = record.text_len;
    copy_bytes(writer, uploads, number, len)
}

// Writes the text of an upload that is so long.
fn copy_bytes<W: Write, U: Uploads>(
    writer: &mut W,
    uploads: &mut U,
    number: u64,
    len: u64,
) -> Result<(), Fault>
    ensures copied { (sure : Bool) (w : World) → U.represents uploads.old sure w
        → len ≡ length (text_at w.store (upload_of w.store number))
        → OnOk result (AppendsOf sure (W.contents writer.old) (W.contents writer.new)
        (text_at w.store (upload_of w.store number))) }
    ensures represents { (sure : Bool) (w : World) → U.represents uploads.old sure w
        → OnOk result (U.represents uploads.new sure w) }
    ensures crash { Quiet (U.moment uploads.old) (U.moment uploads.new) (U.left_only uploads.old)
        (U.left_only uploads.new) }
    ensures refused { IfErr result IsChangeFault }
    ensures counts { Counts (IsErrOf result (Fault.Stop Stop.DiskFault)) (U.failures uploads.old)
        (U.failures uploads.new) }
    ensures reads { MoreReads (U.reads uploads.old) (U.reads uploads.new) }
{
    let mut at = 0;
    while at < len {
        at = copy_piece(writer, uploads, number, at, len)?;
    }
    Ok(())
}

// Writes the next piece of a text that is so long: where it ends.
fn copy_piece<W: Write, U: Uploads>(
    writer: &mut W,
    uploads: &mut U,
    number: u64,
    at: u64,
    len: u64,
) -> Result<u64, Fault>
    requires { at < len }
    ensures next { IfOk result (λ next. next ≡ at + min (len - at) PIECE) }
    ensures copied { (sure : Bool) (w : World) → U.represents uploads.old sure w
        → len ≡ length (text_at w.store (upload_of w.store number))
        → IfOk result (λ next. AppendsOf sure (W.contents writer.old) (W.contents writer.new)
        (take (next - at) (drop at (text_at w.store (upload_of w.store number))))) }
    ensures represents { (sure : Bool) (w : World) → U.represents uploads.old sure w
        → OnOk result (U.represents uploads.new sure w) }
    ensures crash { Quiet (U.moment uploads.old) (U.moment uploads.new) (U.left_only uploads.old)
        (U.left_only uploads.new) }
    ensures refused { IfErr result IsChangeFault }
    ensures counts { Counts (IsErrOf result (Fault.Stop Stop.DiskFault)) (U.failures uploads.old)
        (U.failures uploads.new) }
    ensures reads { MoreReads (U.reads uploads.old) (U.reads uploads.new) }
{
    let count = (len - at).min(PIECE as u64);
    let mut buffer = [0; PIECE];
    let piece = &mut buffer[..count as usize];
    read_at(uploads, number, at, piece)?;
    writer.write_all(piece)?;
    Ok(at + count)
}

/// Reads as many bytes of a text as the piece has. Refused with `Io` where there are fewer.
pub fn read_at<U: Uploads>(
    uploads: &mut U,
    number: u64,
    at: u64,
    piece: &mut [u8],
) -> Result<(), Fault>
    ensures read { (sure : Bool) (w : World) → U.represents uploads.old sure w
        → at + length piece.old ≤ length (text_at w.store (upload_of w.store number))
        → OnOk result (AreOf sure piece.new
        (take (length piece.old) (drop at (text_at w.store (upload_of w.store number))))) }
    ensures represents { (sure : Bool) (w : World) → U.represents uploads.old sure w
        → OnOk result (U.represents uploads.new sure w) }
    ensures crash { Quiet (U.moment uploads.old) (U.moment uploads.new) (U.left_only uploads.old)
        (U.left_only uploads.new) }
    ensures refused { IfErr result IsChangeFault }
    ensures counts { Counts (IsErrOf result (Fault.Stop Stop.DiskFault)) (U.failures uploads.old)
        (U.failures uploads.new) }
    ensures reads { MoreReads (U.reads uploads.old) (U.reads uploads.new) }
    ensures never_io { (sure : Bool) (w : World) → U.represents uploads.old sure w → 0 < length piece.old
        → at + length piece.old ≤ length (text_at w.store (upload_of w.store number))
        → IfErr result (λ fault. fault ≡ Fault.Io → ⊥) }
{
    match uploads.read_text(number, at, piece) {
        Ok(count) if count == piece.len() => Ok(()),
        Ok(_) | Err(UploadError::Refused(_)) => Err(Fault::Io),
        Err(UploadError::Stop(stop)) => Err(Fault::Stop(stop)),
    }
}
