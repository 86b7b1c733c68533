//! Received bytes: a head is parsed and acted on, a body goes to `bodies`.
ghost use Rattle.std.specs.Prelude.{◌≡◌, ◌+◌, ◌-◌, ◌<◌, ◌≤◌, ◌^◌, ℕ, List, [], Bool};
ghost use Rattle.std.specs.Prelude.{length, min, true, false, None, Some, IsErrOf, if◌then◌else◌};
ghost use Rattle.tus_request.specs.Requests.{Asks};
ghost use Rattle.upload_rules.specs.World.{World};
ghost use Rattle.upload_rules.specs.Answers.{Counts, Limits};
ghost use Rattle.tus_request.specs.Shown.{request_shown};
ghost use Rattle.tus_request.specs.Buffers.{head_bytes};
ghost use Rattle.tus_action.specs.Serves.{CanBeMade, CanBeRead};
ghost use Rattle.tus_session.specs.Turns.{Conn, came_turn};
ghost use Rattle.tus_session.specs.Bodies.{BackTo};
ghost use Rattle.tus_session.specs.Represents.{LinkIs};
ghost use Rattle.tus_session.specs.Turned.{Turned};
ghost use Rattle.tus_session.specs.Heads.{InsideHead, CompletesHead, IsSmall, ReachedIs};
ghost use Rattle.tus_session.specs.Turns.{GivesFew};

use crate::Answer;
use crate::bodies::{body_of, skip};
use crate::conns::{Awaiting, Link};
use crate::turns::waits;
use common::Stop;
use std::alloc::Global;
use tus_action::{Done, OpenPatch, PieceBuffer, act};
use tus_request::replies::reply_refused;
use tus_request::{Action, HeadBuffer, Parsed, Request, Routes};
use upload_rules::Uploads;

// The offset after a PATCH's body; 0 for other requests.
fn reached_by(request: &Request) -> u64
    ensures { IsSmall (request_shown request.now)
        → ReachedIs (request_shown request.now).action request.now.length result }
{
    match request.action {
        Action::Patch { offset, .. } => offset.saturating_add(request.length),
        _ => 0,
    }
}

// Acts on a request, then takes the part of its body that came with the head. `before` counts the bytes of the head in
// `bytes`.
fn request_of<U: Uploads>(
    alloc: Global,
    store: &mut U,
    head: HeadBuffer,
    request: Request,
    before: usize,
    bytes: &[u8],
    buffer: &mut PieceBuffer,
    out: &mut Vec<u8>,
) -> Result<(Option<Link<U::Draft>>, Answer), Stop>
    requires makeable { CanBeMade (request_shown request).action }
    requires usable { (sure : Bool) (w : World) → U.represents store.old sure w
        → CanBeRead w (request_shown request).action }
    requires small { IsSmall (request_shown request) }
    requires within { before ≤ length bytes.now }
    requires cleared { (head_bytes head) ≡ [] }
    ensures answer { (sure : Bool) (w : World) (conn : Conn) (h : List ℕ) (n : ℕ) → U.represents store.old sure w
        → CompletesHead w conn h bytes.now n before (Asks (request_shown request))
        → Turned U.Uploads sure store.new result out.old.items out.new.items w conn.draft
        (came_turn w conn bytes.now) }
    ensures crash { (w : World) (conn : Conn) (h : List ℕ) (n : ℕ) → U.represents store.old true w
        → CompletesHead w conn h bytes.now n before (Asks (request_shown request))
        → Limits (U.moment store.old) (U.moment store.new) (U.left_only store.old) (U.left_only store.new) w.store
        (came_turn w conn bytes.now).world.store }
    ensures unmade { (w : World) (conn : Conn) (h : List ℕ) (n : ℕ) → U.represents store.old true w
        → CompletesHead w conn h bytes.now n before (Asks (request_shown request)) → IsErrOf result Stop.NoMemory
        → Limits (U.moment store.old) (U.moment store.new) (U.left_only store.old)
        (U.left_only store.new) w.store w.store }
    ensures counts { Counts (IsErrOf result Stop.DiskFault) (U.failures store.old) (U.failures store.new) }
    ensures few { GivesFew out.old.items out.new.items }
{
    let length = request.length;
    let bare = request.bare;
    let closes = request.closes;
    let reached = reached_by(&request);
    let after = &bytes[before..];
    let start = out.len();
    let done = act(alloc, store, request, buffer, out)?;
    match done {
        Done::Opened(draft) => {
            let patch = OpenPatch {
                draft,
                reached,
                bare,
                closes,
            };
            let turned = body_of(alloc, store, head, patch, length, before, after, out);
            back_to(start, turned, out)
        }
        Done::Giving(giving) => {
            let awaiting = Awaiting::Text {
                giving,
                left: length,
            };
            Ok((Some(Link { head, awaiting }), waits(before, true)))
        }
        Done::Replied { closes } => Ok(skip(head, length, before, after.len(), closes)),
    }
}

// Cuts `out` back to its length before the call if the call failed, so that a refusal leaves no reply.
fn back_to<T>(start: usize, done: Result<T, Stop>, out: &mut Vec<u8>) -> Result<T, Stop>
    ensures same { result ≡ done }
    ensures back { BackTo done start out.old.items out.new.items }
    ensures few { length out.new.items ≤ length out.old.items }
{
    if done.is_err() {
        out.truncate(start);
    }
    done
}

// Adds bytes to an unfinished head.
fn head_of<U: Uploads>(
    alloc: Global,
    store: &mut U,
    head: HeadBuffer,
    bytes: &[u8],
    routes: &Routes,
    buffer: &mut PieceBuffer,
    out: &mut Vec<u8>,
) -> Result<(Option<Link<U::Draft>>, Answer), Stop>
    ensures answer { (sure : Bool) (w : World) (conn : Conn) → U.represents store.old sure w
        → InsideHead w conn (head_bytes head)
        → Turned U.Uploads sure store.new result out.old.items out.new.items w conn.draft
        (came_turn w conn bytes.now) }
    ensures crash { (w : World) (conn : Conn) → U.represents store.old true w → InsideHead w conn (head_bytes head)
        → Limits (U.moment store.old) (U.moment store.new) (U.left_only store.old) (U.left_only store.new) w.store
        (came_turn w conn bytes.now).world.store }
    ensures unmade { (w : World) (conn : Conn) → U.represents store.old true w → InsideHead w conn (head_bytes head)
        → IsErrOf result Stop.NoMemory
        → Limits (U.moment store.old) (U.moment store.new) (U.left_only store.old)
        (U.left_only store.new) w.store w.store }
    ensures counts { Counts (IsErrOf result Stop.DiskFault) (U.failures store.old) (U.failures store.new) }
    ensures few { GivesFew out.old.items out.new.items }
{
    let mut head = head;
    let had = head.len();
    let parsed = head.read_by(alloc, bytes, store.indexes(), routes)?;
    match parsed {
        Parsed::More => {
            let awaiting = Awaiting::Head;
            Ok((Some(Link { head, awaiting }), waits(bytes.len(), false)))
        }
        Parsed::Refused {
            taken,
            length,
            fault,
            on_files,
            bare,
            closes,
        } => {
            let before = taken.saturating_sub(had);
            let after = &bytes[before..];
            reply_refused(alloc, fault, on_files, bare, closes, out)?;
            Ok(skip(head, length, before, after.len(), closes))
        }
        Parsed::Head { taken, request } => {
            let before = taken.saturating_sub(had);
            request_of(alloc, store, head, request, before, bytes, buffer, out)
        }
    }
}

// Takes received bytes on an open connection.
pub(crate) fn came_of<U: Uploads>(
    alloc: Global,
    store: &mut U,
    link: Link<U::Draft>,
    bytes: &[u8],
    routes: &Routes,
    buffer: &mut PieceBuffer,
    out: &mut Vec<u8>,
) -> Result<(Option<Link<U::Draft>>, Answer), Stop>
    ensures answer { (sure : Bool) (w : World) (conn : Conn) → U.represents store.old sure w
        → LinkIs U.Uploads w (head_bytes link.head) link.awaiting conn
        → Turned U.Uploads sure store.new result out.old.items out.new.items w conn.draft
        (came_turn w conn bytes.now) }
    ensures crash { (w : World) (conn : Conn) → U.represents store.old true w
        → LinkIs U.Uploads w (head_bytes link.head) link.awaiting conn
        → Limits (U.moment store.old) (U.moment store.new) (U.left_only store.old) (U.left_only store.new) w.store
        (came_turn w conn bytes.now).world.store }
    ensures unmade { (w : World) (conn : Conn) → U.represents store.old true w
        → LinkIs U.Uploads w (head_bytes link.head) link.awaiting conn → IsErrOf result Stop.NoMemory
        → Limits (U.moment store.old) (U.moment store.new) (U.left_only store.old)
        (U.left_only store.new) w.store w.store }
    ensures counts { Counts (IsErrOf result Stop.DiskFault) (U.failures store.old) (U.failures store.new) }
    ensures few { GivesFew out.old.items out.new.items }
{
    let Link { head, awaiting } = link;
    match awaiting {
        Awaiting::Head => head_of(alloc, store, head, bytes, routes, buffer, out),
        Awaiting::Patch { patch, left } => body_of(alloc, store, head, patch, left, 0, bytes, out),
        Awaiting::Skip { left } => Ok(skip(head, left, 0, bytes.len(), false)),
        Awaiting::Text { giving, left } => {
            let awaiting = Awaiting::Text { giving, left };
            Ok((Some(Link { head, awaiting }), waits(0, true)))
        }
    }
}
