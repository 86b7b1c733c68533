//! Replies to refusals of the upload rules.
ghost use Rattle.std.specs.Prelude.{◌≡◌, IsErrOf, ◌↔◌};
ghost use Rattle.tus_action.specs.Faults.{reply_fault_of};
ghost use Rattle.tus_action.specs.Serves.{RepliesOnly, RepliesTo};
ghost use Rattle.tus_request.specs.Replies.{longest_reply, GrowsBy};

use crate::acts::Done;
use common::Stop;
use std::alloc::Global;
use tus_request::Fault;
use tus_request::replies::reply_refused;
use upload_rules::{UploadError, UploadRefusal};

/// The reply's refusal for one of the rules.
pub fn fault_of(refusal: UploadRefusal) -> Fault
    ensures { result ≡ reply_fault_of refusal }
{
    match refusal {
        UploadRefusal::Unencodable => Fault::Unencodable,
        UploadRefusal::NoSuch => Fault::NoSuch,
        UploadRefusal::Offset => Fault::Offset,
        UploadRefusal::TooLong => Fault::TooLong,
        UploadRefusal::Slots => Fault::Slots,
        UploadRefusal::TooLarge => Fault::TooLarge,
        UploadRefusal::Full => Fault::Full,
        UploadRefusal::LengthSet => Fault::LengthSet,
    }
}

/// Appends the reply to a refusal of the rules. Other errors append nothing and stop the call.
pub(crate) fn refuse(
    alloc: Global,
    error: UploadError,
    on_files: bool,
    bare: bool,
    closes: bool,
    out: &mut Vec<u8>,
) -> Result<(), Stop>
    ensures answer { RepliesTo result error on_files bare closes out.old.items out.new.items }
    ensures fault { IsErrOf result Stop.DiskFault ↔ (error ≡ UploadError.Stop Stop.DiskFault) }
    ensures few { GrowsBy longest_reply out.old.items out.new.items }
{
    match error {
        UploadError::Refused(refusal) => {
            match reply_refused(alloc, fault_of(refusal), on_files, bare, closes, out) {
                Ok(()) => Ok(()),
                Err(_) => Err(Stop::NoMemory),
            }
        }
        UploadError::Stop(stop) => Err(stop),
    }
}

/// The same at a request's head: nothing is open afterwards.
pub(crate) fn refused<B>(
    alloc: Global,
    error: UploadError,
    on_files: bool,
    bare: bool,
    closes: bool,
    out: &mut Vec<u8>,
) -> Result<Done<B>, Stop>
    ensures answer { RepliesOnly result error on_files bare closes out.old.items out.new.items }
    ensures fault { IsErrOf result Stop.DiskFault ↔ (error ≡ UploadError.Stop Stop.DiskFault) }
    ensures few { GrowsBy longest_reply out.old.items out.new.items }
{
    match refuse(alloc, error, on_files, bare, closes, out) {
        Ok(()) => Ok(Done::Replied { closes }),
        Err(stop) => Err(stop),
    }
}
