//! Request bodies: a PATCH's goes on or ends; any other is dropped.
ghost use Rattle.std.specs.Prelude.{◌≡◌, ◌+◌, ◌-◌, ◌<◌, ◌≤◌, ◌^◌, false, length, Bool, true};
ghost use Rattle.std.specs.Prelude.{take, min, Some, IsErrOf};
ghost use Rattle.upload_rules.specs.Store.{find, accepted_count};
ghost use Rattle.upload_rules.specs.World.{World, Patch};
ghost use Rattle.upload_rules.specs.Calls.{dropped};
ghost use Rattle.upload_rules.specs.Answers.{Counts, Limits};
ghost use Rattle.tus_request.specs.Requests.{Request};
ghost use Rattle.tus_action.specs.Acts.{fed, fed_patch};
ghost use Rattle.tus_session.specs.Bodies.{Parts, Replies, ended_by, link_after, took};
ghost use Rattle.tus_request.specs.Replies.{longest_reply, GrowsBy};

use crate::Answer;
use crate::conns::{Awaiting, Link};
use crate::turns::waits;
use common::Stop;
use std::alloc::Global;
use tus_action::{OpenPatch, feed, finish};
use tus_request::HeadBuffer;
use upload_rules::Uploads;

// Drops bytes of a body: at most `left` of the `after` bytes that follow the head are taken, and the `before` bytes of
// the head.
pub(crate) fn skip<B>(
    head: HeadBuffer,
    left: u64,
    before: usize,
    after: usize,
    closes: bool,
) -> (Option<Link<B>>, Answer)
    requires { before + after < 2 ^ 64 }
    ensures link { result.0 ≡ link_after head (left - min left after) closes }
    ensures answer { result.1 ≡ took (before + min left after) closes }
{
    let count = left.min(after as u64);
    let answer = Answer {
        taken: before + count as usize,
        closes,
        more: false,
    };
    (Link::after_reply(head, left - count, closes), answer)
}

// Feeds bytes to the draft. The body doesn't end among them.
fn go_on<U: Uploads>(
    store: &mut U,
    head: HeadBuffer,
    patch: OpenPatch<U::Draft>,
    left: u64,
    before: usize,
    bytes: &[u8],
) -> Result<(Option<Link<U::Draft>>, Answer), Stop>
    requires few { length bytes.now < left }
    requires fits { before + length bytes.now < 2 ^ 64 }
    ensures answer { (sure : Bool) (w : World) (p : Patch) → U.represents store.old sure w
        → find (U.number_of patch.draft) w.patches ≡ Some p
        → U.holds patch.draft p
        → length p.body + length bytes.now ≤ p.count
        → Parts U.Uploads sure store.new result head patch (left - length bytes.now) (before + length bytes.now)
        (fed w (U.number_of patch.draft) bytes.now) (fed_patch w (U.number_of patch.draft) p bytes.now)
        (dropped w (U.number_of patch.draft)) }
    ensures crash { (w : World) (p : Patch) → U.represents store.old true w
        → find (U.number_of patch.draft) w.patches ≡ Some p
        → U.holds patch.draft p
        → Limits (U.moment store.old) (U.moment store.new) (U.left_only store.old)
        (U.left_only store.new) w.store w.store }
    ensures counts { Counts (IsErrOf result Stop.DiskFault) (U.failures store.old) (U.failures store.new) }
{
    let patch = feed(store, patch, bytes)?;
    let left = left - bytes.len() as u64;
    let awaiting = Awaiting::Patch { patch, left };
    Ok((
        Some(Link { head, awaiting }),
        waits(before + bytes.len(), false),
    ))
}

// Feeds the last bytes of the body, commits the draft, and appends the reply or the refusal.
fn last_of<U: Uploads>(
    alloc: Global,
    store: &mut U,
    head: HeadBuffer,
    patch: OpenPatch<U::Draft>,
    before: usize,
    bytes: &[u8],
    out: &mut Vec<u8>,
) -> Result<(Option<Link<U::Draft>>, Answer), Stop>
    requires { before + length bytes.now < 2 ^ 64 }
    ensures answer { (sure : Bool) (w : World) (p : Patch) (r : Request) → U.represents store.old sure w
        → find (U.number_of patch.draft) w.patches ≡ Some p → U.holds patch.draft p
        → length p.body + length bytes.now ≡ p.count → patch.reached ≡ accepted_count p.began + p.count
        → patch.bare ≡ r.bare → patch.closes ≡ r.closes
        → Replies U.Uploads sure store.new result out.old.items out.new.items head (before + length bytes.now)
        (ended_by w (U.number_of patch.draft) p bytes.now r) (dropped w (U.number_of patch.draft)) }
    ensures crash { (w : World) (p : Patch) (r : Request) → U.represents store.old true w
        → find (U.number_of patch.draft) w.patches ≡ Some p → U.holds patch.draft p
        → length p.body + length bytes.now ≤ p.count
        → Limits (U.moment store.old) (U.moment store.new) (U.left_only store.old) (U.left_only store.new) w.store
        (ended_by w (U.number_of patch.draft) p bytes.now r).world.store }
    ensures unmade { (w : World) (p : Patch) → U.represents store.old true w
        → find (U.number_of patch.draft) w.patches ≡ Some p
        → U.holds patch.draft p
        → length p.body + length bytes.now ≤ p.count → IsErrOf result Stop.NoMemory
        → Limits (U.moment store.old) (U.moment store.new) (U.left_only store.old)
        (U.left_only store.new) w.store w.store }
    ensures counts { Counts (IsErrOf result Stop.DiskFault) (U.failures store.old) (U.failures store.new) }
    ensures few { GrowsBy longest_reply out.old.items out.new.items }
{
    let closes = patch.closes;
    let fed = feed(store, patch, bytes)?;
    finish(alloc, store, fed, out)?;
    let answer = Answer {
        taken: before + bytes.len(),
        closes,
        more: false,
    };
    Ok((Link::after_reply(head, 0, closes), answer))
}

// Feeds bytes to the draft; at most one call finishes it. Bytes after the body's end are left.
pub(crate) fn body_of<U: Uploads>(
    alloc: Global,
    store: &mut U,
    head: HeadBuffer,
    patch: OpenPatch<U::Draft>,
    left: u64,
    before: usize,
    bytes: &[u8],
    out: &mut Vec<u8>,
) -> Result<(Option<Link<U::Draft>>, Answer), Stop>
    requires { before + length bytes.now < 2 ^ 64 }
    ensures part { length bytes.now < left → (sure : Bool) (w : World) (p : Patch) → U.represents store.old sure w
        → find (U.number_of patch.draft) w.patches ≡ Some p → U.holds patch.draft p
        → length p.body + length bytes.now ≤ p.count
        → Parts U.Uploads sure store.new result head patch (left - length bytes.now) (before + length bytes.now)
        (fed w (U.number_of patch.draft) bytes.now) (fed_patch w (U.number_of patch.draft) p bytes.now)
        (dropped w (U.number_of patch.draft)) }
    ensures part_out { length bytes.now < left → out.new.items ≡ out.old.items }
    ensures part_crash { length bytes.now < left → (w : World) (p : Patch) → U.represents store.old true w
        → find (U.number_of patch.draft) w.patches ≡ Some p → U.holds patch.draft p
        → Limits (U.moment store.old) (U.moment store.new) (U.left_only store.old)
        (U.left_only store.new) w.store w.store }
    ensures rest { left ≤ length bytes.now → (sure : Bool) (w : World) (p : Patch) (r : Request)
        → U.represents store.old sure w
        → find (U.number_of patch.draft) w.patches ≡ Some p → U.holds patch.draft p
        → length p.body + left ≡ p.count → patch.reached ≡ accepted_count p.began + p.count → patch.bare ≡ r.bare
        → patch.closes ≡ r.closes
        → Replies U.Uploads sure store.new result out.old.items out.new.items head (before + left)
        (ended_by w (U.number_of patch.draft) p (take left bytes.now) r) (dropped w (U.number_of patch.draft)) }
    ensures rest_crash { left ≤ length bytes.now → (w : World) (p : Patch) (r : Request) → U.represents store.old true w
        → find (U.number_of patch.draft) w.patches ≡ Some p → U.holds patch.draft p
        → length p.body + left ≤ p.count
        → Limits (U.moment store.old) (U.moment store.new) (U.left_only store.old) (U.left_only store.new) w.store
        (ended_by w (U.number_of patch.draft) p (take left bytes.now) r).world.store }
    ensures unmade { (w : World) (p : Patch) → U.represents store.old true w
        → find (U.number_of patch.draft) w.patches ≡ Some p
        → U.holds patch.draft p
        → length p.body + left ≤ p.count → IsErrOf result Stop.NoMemory
        → Limits (U.moment store.old) (U.moment store.new) (U.left_only store.old)
        (U.left_only store.new) w.store w.store }
    ensures counts { Counts (IsErrOf result Stop.DiskFault) (U.failures store.old) (U.failures store.new) }
    ensures few { GrowsBy longest_reply out.old.items out.new.items }
{
    if (bytes.len() as u64) < left {
        go_on(store, head, patch, left, before, bytes)
    } else {
        last_of(
            alloc,
            store,
            head,
            patch,
            before,
            &bytes[..left as usize],
            out,
        )
    }
}
