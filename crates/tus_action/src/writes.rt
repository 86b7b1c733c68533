//! Requests that change uploads: POST, DELETE, and PATCH at its head.
ghost use Rattle.std.specs.Prelude.{◌≡◌, ◌++◌, [], Some, IsErrOf, OnOk, OnErr, if◌then◌else◌, Bool, true};
ghost use Rattle.upload_rules.specs.World.{World};
ghost use Rattle.upload_rules.specs.Calls.{create_refusal, create_outcome, terminate_refusal, terminate_outcome};
ghost use Rattle.upload_rules.specs.Calls.{begin_refusal};
ghost use Rattle.upload_rules.specs.Answers.{Counts, Limits, Quiet};
ghost use Rattle.upload_rules.specs.Records.{IsValidNew, IsOffered};
ghost use Rattle.tus_request.specs.Requests.{Request};
ghost use Rattle.tus_request.specs.Replies.{reply_continue};
ghost use Rattle.tus_action.specs.Acts.{post, delete, patch};
ghost use Rattle.tus_action.specs.Serves.{Serves};
ghost use Rattle.tus_request.specs.Replies.{longest_reply, GrowsBy};

use crate::acts::Done;
use crate::refusals::refused;
use common::Stop;
use std::alloc::{AllocError, Global};
use tus_request::replies::{reply_continue, reply_created, reply_deleted};
use upload_rules::{New, Uploads};

/// Creates an upload (tus 1.0.0, Creation). The reply is built first, so that no memory is needed after the commit.
pub(crate) fn create<U: Uploads>(
    alloc: Global,
    store: &mut U,
    new: New,
    bare: bool,
    closes: bool,
    out: &mut Vec<u8>,
) -> Result<Done<U::Draft>, Stop>
    requires well_formed { IsValidNew new }
    requires offered { (sure : Bool) (w : World) → U.represents store.old sure w → IsOffered w.store.indexes new }
    ensures answer { (sure : Bool) (w : World) (r : Request) → U.represents store.old sure w → bare ≡ r.bare
        → closes ≡ r.closes
        → Serves U.Uploads sure store.new result out.old.items out.new.items w (post w r new (create_refusal w new)) }
    ensures crash { (w : World) → U.represents store.old true w
        → Limits (U.moment store.old) (U.moment store.new) (U.left_only store.old) (U.left_only store.new) w.store
        (create_outcome w new) }
    ensures unmade { (w : World) → U.represents store.old true w → IsErrOf result Stop.NoMemory
        → Limits (U.moment store.old) (U.moment store.new) (U.left_only store.old)
        (U.left_only store.new) w.store w.store }
    ensures counts { Counts (IsErrOf result Stop.DiskFault) (U.failures store.old) (U.failures store.new) }
    ensures few { GrowsBy longest_reply out.old.items out.new.items }
{
    let before = out.as_slice().len();
    let number = store.next_number();
    let Ok(()) = reply_created(alloc, number, bare, closes, out) else {
        return Err(Stop::NoMemory);
    };
    match store.create(new) {
        Ok(_number) => Ok(Done::Replied { closes }),
        Err(error) => {
            out.truncate(before);
            refused(alloc, error, true, bare, closes, out)
        }
    }
}

/// Deletes an upload (tus 1.0.0, Termination). The reply is built first, so that no memory is needed after the commit.
pub(crate) fn delete<U: Uploads>(
    alloc: Global,
    store: &mut U,
    number: u64,
    bare: bool,
    closes: bool,
    out: &mut Vec<u8>,
) -> Result<Done<U::Draft>, Stop>
    ensures answer { (sure : Bool) (w : World) (r : Request) → U.represents store.old sure w → bare ≡ r.bare
        → closes ≡ r.closes
        → Serves U.Uploads sure store.new result out.old.items out.new.items w
        (delete w r number (terminate_refusal w number)) }
    ensures crash { (w : World) → U.represents store.old true w
        → Limits (U.moment store.old) (U.moment store.new) (U.left_only store.old) (U.left_only store.new) w.store
        (terminate_outcome w number) }
    ensures unmade { (w : World) → U.represents store.old true w → IsErrOf result Stop.NoMemory
        → Limits (U.moment store.old) (U.moment store.new) (U.left_only store.old)
        (U.left_only store.new) w.store w.store }
    ensures counts { Counts (IsErrOf result Stop.DiskFault) (U.failures store.old) (U.failures store.new) }
    ensures few { GrowsBy longest_reply out.old.items out.new.items }
{
    let before = out.as_slice().len();
    let Ok(()) = reply_deleted(alloc, bare, closes, out) else {
        return Err(Stop::NoMemory);
    };
    match store.terminate(number) {
        Ok(()) => Ok(Done::Replied { closes }),
        Err(error) => {
            out.truncate(before);
            refused(alloc, error, false, bare, closes, out)
        }
    }
}

/// Appends `100 Continue` if the request expects it (RFC 9110, 10.1.1).
fn append_continue(expects: bool, out: &mut Vec<u8>) -> Result<(), AllocError>
    ensures ok { OnOk result (out.new.items ≡ out.old.items ++ (if expects then reply_continue else [])) }
    ensures err { OnErr result (out.new.items ≡ out.old.items) }
    ensures few { GrowsBy longest_reply out.old.items out.new.items }
{
    if !expects {
        return Ok(());
    }
    reply_continue(out)
}

/// Begins a PATCH. If it is refused, a client that expects `100 Continue` gets the refusal and a close, since its body
/// may or may not follow.
pub(crate) fn begin<U: Uploads>(
    alloc: Global,
    store: &mut U,
    number: u64,
    offset: u64,
    length: u64,
    declare: Option<u64>,
    bare: bool,
    expects: bool,
    closes: bool,
    out: &mut Vec<u8>,
) -> Result<Done<U::Draft>, Stop>
    ensures answer { (sure : Bool) (w : World) (r : Request) → U.represents store.old sure w → length ≡ r.length
        → bare ≡ r.bare
        → expects ≡ r.expects → closes ≡ r.closes
        → Serves U.Uploads sure store.new result out.old.items out.new.items w
        (patch w r number declare (begin_refusal w number offset length declare)) }
    ensures crash { Quiet (U.moment store.old) (U.moment store.new) (U.left_only store.old) (U.left_only store.new) }
    ensures counts { Counts (IsErrOf result Stop.DiskFault) (U.failures store.old) (U.failures store.new) }
    ensures few { GrowsBy longest_reply out.old.items out.new.items }
{
    let before = out.as_slice().len();
    let Ok(()) = append_continue(expects, out) else {
        return Err(Stop::NoMemory);
    };
    match store.begin(number, offset, length, declare) {
        Ok(draft) => Ok(Done::Opened(draft)),
        Err(error) => {
            out.truncate(before);
            refused(alloc, error, false, bare, closes || expects, out)
        }
    }
}
