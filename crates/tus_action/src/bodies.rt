//! The body of a PATCH: its bytes, its end, and its cut by the end of the connection.
ghost use Rattle.std.specs.Prelude.{◌≡◌, ◌+◌, ◌≤◌, length, Some, IsErrOf, Bool, true};
ghost use Rattle.upload_rules.specs.Store.{find};
ghost use Rattle.upload_rules.specs.World.{World, Patch, reached};
ghost use Rattle.upload_rules.specs.Calls.{commit_refusal, commit_outcome, spent, dropped};
ghost use Rattle.upload_rules.specs.Answers.{Counts, Limits, Quiet};
ghost use Rattle.tus_request.specs.Requests.{Request};
ghost use Rattle.tus_action.specs.Acts.{fed, fed_patch, committed_as};
ghost use Rattle.tus_action.specs.Serves.{Feeds, Finishes, CutCommits};
ghost use Rattle.tus_request.specs.Replies.{longest_reply, GrowsBy};

use crate::refusals::refuse;
use common::Stop;
use std::alloc::Global;
use tus_request::replies::reply_patched;
use upload_rules::{UploadError, Uploads};

/// A PATCH whose body is to come: its draft, and what its reply needs.
pub struct OpenPatch<B> {
    /// The draft.
    pub draft: B,
    /// The upload's offset after the whole body.
    pub reached: u64,
    /// Whether the reply has no body, as for HEAD.
    pub bare: bool,
    /// Whether the connection closes after the reply.
    pub closes: bool,
}

/// Appends a piece of the body to the draft. On an error the draft is dropped.
///
/// # Errors
///
/// `NoMemory`, `DiskFault`.
pub fn feed<U: Uploads>(
    store: &mut U,
    patch: OpenPatch<U::Draft>,
    piece: &[u8],
) -> Result<OpenPatch<U::Draft>, Stop>
    ensures answer { (sure : Bool) (w : World) (p : Patch) → U.represents store.old sure w
        → find (U.number_of patch.draft) w.patches ≡ Some p
        → U.holds patch.draft p
        → length p.body + length piece.now ≤ p.count
        → Feeds U.Uploads sure store.new result (dropped w (U.number_of patch.draft))
        (fed w (U.number_of patch.draft) piece.now) patch (fed_patch w (U.number_of patch.draft) p piece.now) }
    ensures crash { (w : World) (p : Patch) → U.represents store.old true w
        → find (U.number_of patch.draft) w.patches ≡ Some p
        → U.holds patch.draft p
        → Quiet (U.moment store.old) (U.moment store.new) (U.left_only store.old) (U.left_only store.new) }
    ensures counts { Counts (IsErrOf result Stop.DiskFault) (U.failures store.old) (U.failures store.new) }
{
    if piece.is_empty() {
        return Ok(patch);
    }
    let OpenPatch {
        mut draft,
        reached,
        bare,
        closes,
    } = patch;
    match store.append(&mut draft, piece) {
        Ok(()) => Ok(OpenPatch {
            draft,
            reached,
            bare,
            closes,
        }),
        Err(stop) => {
            store.drop_open(draft);
            Err(stop)
        }
    }
}

/// Ends the body: commits the draft and appends the reply to `out`, or appends the refusal. The reply is built before
/// the commit, so that no memory is needed after it.
///
/// # Errors
///
/// `NoMemory`, with nothing committed; `DiskFault`. Both leave `out` unchanged.
pub fn finish<U: Uploads>(
    alloc: Global,
    store: &mut U,
    patch: OpenPatch<U::Draft>,
    out: &mut Vec<u8>,
) -> Result<(), Stop>
    ensures answer { (sure : Bool) (w : World) (p : Patch) (r : Request) → U.represents store.old sure w
        → find (U.number_of patch.draft) w.patches ≡ Some p → U.holds patch.draft p
        → patch.reached ≡ reached p → patch.bare ≡ r.bare → patch.closes ≡ r.closes
        → Finishes U.Uploads sure store.new result out.old.items out.new.items (dropped w (U.number_of patch.draft))
        (committed_as w (U.number_of patch.draft) p r (commit_refusal w (U.number_of patch.draft) p)) }
    ensures crash { (w : World) (p : Patch) → U.represents store.old true w
        → find (U.number_of patch.draft) w.patches ≡ Some p
        → U.holds patch.draft p
        → Limits (U.moment store.old) (U.moment store.new) (U.left_only store.old) (U.left_only store.new) w.store
        (commit_outcome w (U.number_of patch.draft) p) }
    ensures unmade { (w : World) (p : Patch) → U.represents store.old true w
        → find (U.number_of patch.draft) w.patches ≡ Some p
        → U.holds patch.draft p → IsErrOf result Stop.NoMemory
        → Limits (U.moment store.old) (U.moment store.new) (U.left_only store.old)
        (U.left_only store.new) w.store w.store }
    ensures counts { Counts (IsErrOf result Stop.DiskFault) (U.failures store.old) (U.failures store.new) }
    ensures few { GrowsBy longest_reply out.old.items out.new.items }
{
    let OpenPatch {
        draft,
        reached,
        bare,
        closes,
    } = patch;
    let before = out.as_slice().len();
    let Ok(()) = reply_patched(alloc, reached, bare, closes, out) else {
        store.drop_open(draft);
        return Err(Stop::NoMemory);
    };
    match store.commit(draft) {
        Ok(_offset) => Ok(()),
        Err(error) => {
            out.truncate(before);
            refuse(alloc, error, false, bare, closes, out)
        }
    }
}

/// Commits what came of a body that the end of its connection cut, without a reply. If the rules refuse the commit, the
/// draft is dropped.
///
/// # Errors
///
/// `NoMemory`, with nothing committed; `DiskFault`.
pub fn cut<U: Uploads>(store: &mut U, patch: OpenPatch<U::Draft>) -> Result<(), Stop>
    ensures answer { (sure : Bool) (w : World) (p : Patch) → U.represents store.old sure w
        → find (U.number_of patch.draft) w.patches ≡ Some p
        → U.holds patch.draft p
        → CutCommits U.Uploads sure store.new result (dropped w (U.number_of patch.draft))
        (spent w (U.number_of patch.draft) p (commit_refusal w (U.number_of patch.draft) p)) }
    ensures crash { (w : World) (p : Patch) → U.represents store.old true w
        → find (U.number_of patch.draft) w.patches ≡ Some p
        → U.holds patch.draft p
        → Limits (U.moment store.old) (U.moment store.new) (U.left_only store.old) (U.left_only store.new) w.store
        (commit_outcome w (U.number_of patch.draft) p) }
    ensures unmade { (w : World) (p : Patch) → U.represents store.old true w
        → find (U.number_of patch.draft) w.patches ≡ Some p
        → U.holds patch.draft p → IsErrOf result Stop.NoMemory
        → Limits (U.moment store.old) (U.moment store.new) (U.left_only store.old)
        (U.left_only store.new) w.store w.store }
    ensures counts { Counts (IsErrOf result Stop.DiskFault) (U.failures store.old) (U.failures store.new) }
{
    let OpenPatch {
        draft,
        reached: _,
        bare: _,
        closes: _,
    } = patch;
    match store.commit(draft) {
        Ok(_offset) => Ok(()),
        Err(UploadError::Refused(_refusal)) => Ok(()),
        Err(UploadError::Stop(stop)) => Err(stop),
    }
}
