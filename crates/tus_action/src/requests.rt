//! A request whose head is complete.
ghost use Rattle.std.specs.Prelude.{◌+◌, IsErrOf, Bool, true};
ghost use Rattle.upload_rules.specs.World.{World};
ghost use Rattle.upload_rules.specs.Answers.{Counts, Limits};
ghost use Rattle.tus_request.specs.Requests.{Asks};
ghost use Rattle.tus_request.specs.Shown.{request_shown};
ghost use Rattle.tus_action.specs.Acts.{acted};
ghost use Rattle.tus_action.specs.Serves.{Serves, CanBeMade, CanBeRead};
ghost use Rattle.tus_request.specs.Replies.{longest_reply, GrowsBy};

use crate::acts::Done;
use crate::reads::{PIECE, PieceBuffer, give_text, show};
use crate::writes::{begin, create, delete};
use common::Stop;
use std::alloc::Global;
use tus_request::replies::reply_options;
use tus_request::{Action, Request};
use upload_rules::{New, Uploads};

/// Does what a request asks for at its head, and appends the reply to `out`. The reply to a GET ends in the first piece
/// of the text, which is read into `buffer`.
///
/// # Errors
///
/// `NoMemory`, with no upload changed; `DiskFault`. Both leave `out` unchanged.
pub fn act<U: Uploads>(
    alloc: Global,
    store: &mut U,
    request: Request,
    buffer: &mut PieceBuffer,
    out: &mut Vec<u8>,
) -> Result<Done<U::Draft>, Stop>
    requires well_formed { CanBeMade (request_shown request).action }
    requires offered { (sure : Bool) (w : World) → U.represents store.old sure w
        → CanBeRead w (request_shown request).action }
    ensures answer { (sure : Bool) (w : World) → U.represents store.old sure w
        → Serves U.Uploads sure store.new result out.old.items out.new.items w
        (acted w (Asks (request_shown request))) }
    ensures crash { (w : World) → U.represents store.old true w
        → Limits (U.moment store.old) (U.moment store.new) (U.left_only store.old) (U.left_only store.new) w.store
        (acted w (Asks (request_shown request))).world.store }
    ensures unmade { (w : World) → U.represents store.old true w → IsErrOf result Stop.NoMemory
        → Limits (U.moment store.old) (U.moment store.new) (U.left_only store.old)
        (U.left_only store.new) w.store w.store }
    ensures counts { Counts (IsErrOf result Stop.DiskFault) (U.failures store.old) (U.failures store.new) }
    ensures few { GrowsBy (longest_reply + PIECE) out.old.items out.new.items }
{
    let Request {
        action,
        length,
        bare,
        expects,
        closes,
    } = request;
    match action {
        Action::Options => {
            reply_options(alloc, bare, closes, out)?;
            Ok(Done::Replied { closes })
        }
        Action::Create {
            declared,
            from,
            to,
            mode,
            metadata,
        } => {
            let new = New {
                declared,
                from,
                to,
                mode,
                metadata,
            };
            create(alloc, store, new, bare, closes, out)
        }
        Action::Head(number) => show(alloc, store, number, bare, closes, out),
        Action::Get(number) => give_text(alloc, store, number, bare, closes, buffer, out),
        Action::Patch {
            number,
            offset,
            declare,
        } => begin(
            alloc, store, number, offset, length, declare, bare, expects, closes, out,
        ),
        Action::Delete(number) => delete(alloc, store, number, bare, closes, out),
    }
}
