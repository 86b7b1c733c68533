//! Requests that read uploads: HEAD, GET, and the further pieces of a text.
ghost use Rattle.std.specs.Prelude.{◌≡◌, ◌+◌, IsErrOf, Bool};
ghost use Rattle.upload_rules.specs.Store.{upload_of};
ghost use Rattle.upload_rules.specs.World.{World};
ghost use Rattle.upload_rules.specs.Answers.{Counts, Quiet};
ghost use Rattle.tus_request.specs.Requests.{Request};
ghost use Rattle.tus_action.specs.Acts as acts;
ghost use Rattle.tus_action.specs.Acts.{head, get};
ghost use Rattle.tus_action.specs.Serves.{Serves, GivesMore, IsGiving};
ghost use Rattle.tus_request.specs.Replies.{longest_reply, GrowsBy};

use crate::acts::{Done, Given, Giving};
use crate::refusals::refused;
use common::Stop;
use std::alloc::Global;
use tus_request::replies::{reply_head, reply_text};
use upload_rules::{UploadError, UploadRefusal, Uploads};

/// The most bytes of a text that one call gives.
pub const PIECE: usize = 65536;

/// A buffer for a piece of a text. It is made once, so that no piece needs to fill memory first.
pub type PieceBuffer = [u8; PIECE];

/// Answers a HEAD: the upload's offset, length and metadata.
pub(crate) fn show<U: Uploads>(
    alloc: Global,
    store: &mut U,
    number: u64,
    bare: bool,
    closes: bool,
    out: &mut Vec<u8>,
) -> Result<Done<U::Draft>, Stop>
    ensures answer { (sure : Bool) (w : World) (r : Request) → U.represents store.old sure w → bare ≡ r.bare
        → closes ≡ r.closes
        → Serves U.Uploads sure store.new result out.old.items out.new.items w (head w r (upload_of w.store number)) }
    ensures same { store.new ≡ store.old }
    ensures no_disk_fault { IsErrOf result Stop.DiskFault → ⊥ }
    ensures few { GrowsBy longest_reply out.old.items out.new.items }
{
    let Some(record) = store.record(number) else {
        return refused(
            alloc,
            UploadError::Refused(UploadRefusal::NoSuch),
            false,
            bare,
            closes,
            out,
        );
    };
    match reply_head(
        alloc,
        record.accepted,
        record.declared,
        record.metadata.as_str(),
        bare,
        closes,
        out,
    ) {
        Ok(()) => Ok(Done::Replied { closes }),
        Err(_) => Err(Stop::NoMemory),
    }
}

/// Appends the next piece of a text to `out`: 65,536 bytes, or the rest if that is shorter. If the upload was deleted,
/// nothing is appended.
///
/// # Errors
///
/// `NoMemory`, `DiskFault`. Both leave `out` unchanged.
pub fn give_more<U: Uploads>(
    store: &mut U,
    giving: Giving,
    buffer: &mut PieceBuffer,
    out: &mut Vec<u8>,
) -> Result<Given, Stop>
    ensures answer { (sure : Bool) (w : World) (h : acts.Giving) → U.represents store.old sure w
        → IsGiving w.store giving h → GivesMore U.Uploads sure store.new result out.old.items out.new.items w h }
    ensures crash { Quiet (U.moment store.old) (U.moment store.new) (U.left_only store.old) (U.left_only store.new) }
    ensures counts { Counts (IsErrOf result Stop.DiskFault) (U.failures store.old) (U.failures store.new) }
    ensures few { GrowsBy PIECE out.old.items out.new.items }
{
    let left = giving.length.saturating_sub(giving.given);
    let count = left.min(PIECE as u64) as usize;
    let piece = &mut buffer[..count];
    match store.read_text(giving.number, giving.given, piece) {
        Ok(_count) => {}
        Err(UploadError::Refused(_)) => return Ok(Given::Gone),
        Err(UploadError::Stop(stop)) => return Err(stop),
    }
    match out.extend_from_slice(piece) {
        Ok(()) => Ok(giving.after(count as u64)),
        Err(_) => Err(Stop::NoMemory),
    }
}

/// Answers a GET: the reply's head and the first piece of the text.
pub(crate) fn give_text<U: Uploads>(
    alloc: Global,
    store: &mut U,
    number: u64,
    bare: bool,
    closes: bool,
    buffer: &mut PieceBuffer,
    out: &mut Vec<u8>,
) -> Result<Done<U::Draft>, Stop>
    ensures answer { (sure : Bool) (w : World) (r : Request) → U.represents store.old sure w → bare ≡ r.bare
        → closes ≡ r.closes
        → Serves U.Uploads sure store.new result out.old.items out.new.items w
        (get w r number (upload_of w.store number)) }
    ensures crash { Quiet (U.moment store.old) (U.moment store.new) (U.left_only store.old) (U.left_only store.new) }
    ensures counts { Counts (IsErrOf result Stop.DiskFault) (U.failures store.old) (U.failures store.new) }
    ensures few { GrowsBy (longest_reply + PIECE) out.old.items out.new.items }
{
    let Some(record) = store.record(number) else {
        let error = UploadError::Refused(UploadRefusal::NoSuch);
        return refused(alloc, error, false, bare, closes, out);
    };
    let length = record.text_len;
    let before = out.as_slice().len();
    let Ok(()) = reply_text(alloc, record.to, length, bare, closes, out) else {
        return Err(Stop::NoMemory);
    };
    if bare {
        return Ok(Done::Replied { closes });
    }
    let giving = Giving {
        number,
        length,
        given: 0,
        closes,
    };
    match give_more(store, giving, buffer, out) {
        Ok(given) => Ok(Done::giving(given, closes)),
        Err(stop) => {
            out.truncate(before);
            Err(stop)
        }
    }
}
