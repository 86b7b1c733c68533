//! The next piece of a pending text, and the end of a connection.
ghost use Rattle.std.specs.Prelude.{◌≡◌, false, IsErrOf, Ok, Bool, true};
ghost use Rattle.upload_rules.specs.World.{World};
ghost use Rattle.upload_rules.specs.Answers.{Counts, Limits, Quiet};
ghost use Rattle.tus_request.specs.Buffers.{head_bytes};
ghost use Rattle.tus_session.specs.Turns.{Conn, more_turn, ended_world};
ghost use Rattle.tus_session.specs.Represents.{LinkIs, dropped_by};
ghost use Rattle.tus_session.specs.Turned.{Turned, Ended};
ghost use Rattle.tus_session.specs.Turns.{GivesFew};

use crate::Answer;
use crate::conns::{Awaiting, Link};
use common::Stop;
use tus_action::{Given, OpenPatch, PieceBuffer, cut, give_more};
use upload_rules::Uploads;

// The answer of a call after which the connection stays open.
pub(crate) fn waits(taken: usize, more: bool) -> Answer
    ensures { result ≡ record { taken = taken; closes = false; more = more } }
{
    Answer {
        taken,
        closes: false,
        more,
    }
}

// Appends the next piece of the pending text. The connection closes if the upload was deleted meanwhile, since the
// announced length can't be met any more.
pub(crate) fn more_of<U: Uploads>(
    store: &mut U,
    link: Link<U::Draft>,
    buffer: &mut PieceBuffer,
    out: &mut Vec<u8>,
) -> Result<(Option<Link<U::Draft>>, Answer), Stop>
    ensures answer { (sure : Bool) (w : World) (conn : Conn) → U.represents store.old sure w
        → LinkIs U.Uploads w (head_bytes link.head) link.awaiting conn
        → Turned U.Uploads sure store.new result out.old.items out.new.items w conn.draft (more_turn w conn) }
    ensures crash { Quiet (U.moment store.old) (U.moment store.new) (U.left_only store.old) (U.left_only store.new) }
    ensures counts { Counts (IsErrOf result Stop.DiskFault) (U.failures store.old) (U.failures store.new) }
    ensures few { GivesFew out.old.items out.new.items }
{
    let Link { head, awaiting } = link;
    let (giving, left) = match awaiting {
        Awaiting::Text { giving, left } => (giving, left),
        awaiting => return Ok((Some(Link { head, awaiting }), waits(0, false))),
    };
    let given = give_more(store, giving, buffer, out)?;
    match given {
        Given::Piece(giving) => {
            let awaiting = Awaiting::Text { giving, left };
            Ok((Some(Link { head, awaiting }), waits(0, true)))
        }
        Given::Last => {
            let closes = giving.closes;
            Ok((Link::after_reply(head, left, closes), gave(closes)))
        }
        Given::Gone => Ok((None, gave(true))),
    }
}

// The answer after the last piece of a text.
fn gave(closes: bool) -> Answer
    ensures { result ≡ record { taken = 0; closes = closes; more = false } }
{
    Answer {
        taken: 0,
        closes,
        more: false,
    }
}

// Ends a connection: commits what its draft has.
pub(crate) fn end_of<U: Uploads>(store: &mut U, link: Link<U::Draft>) -> Result<(), Stop>
    ensures answer { (sure : Bool) (w : World) (conn : Conn) → U.represents store.old sure w
        → LinkIs U.Uploads w (head_bytes link.head) link.awaiting conn
        → Ended U.Uploads sure store.new result w conn.draft (ended_world w conn) }
    ensures crash { (w : World) (conn : Conn) → U.represents store.old true w
        → LinkIs U.Uploads w (head_bytes link.head) link.awaiting conn
        → Limits (U.moment store.old) (U.moment store.new) (U.left_only store.old) (U.left_only store.new) w.store
        (ended_world w conn).store }
    ensures unmade { (w : World) (conn : Conn) → U.represents store.old true w
        → LinkIs U.Uploads w (head_bytes link.head) link.awaiting conn → IsErrOf result Stop.NoMemory
        → Limits (U.moment store.old) (U.moment store.new) (U.left_only store.old)
        (U.left_only store.new) w.store w.store }
    ensures counts { Counts (IsErrOf result Stop.DiskFault) (U.failures store.old) (U.failures store.new) }
{
    let Link { head: _, awaiting } = link;
    match awaiting {
        Awaiting::Patch { patch, left: _ } => cut(store, patch),
        Awaiting::Head | Awaiting::Skip { left: _ } | Awaiting::Text { giving: _, left: _ } => Ok(
            (),
        ),
    }
}

// Drops a connection's draft without a commit.
pub(crate) fn drop_link<U: Uploads>(store: &mut U, link: Link<U::Draft>)
    ensures represents { (sure : Bool) (w : World) → U.represents store.old sure w
        → U.represents store.new sure (dropped_by U.Uploads w link.awaiting) }
    ensures crash { Quiet (U.moment store.old) (U.moment store.new) (U.left_only store.old) (U.left_only store.new) }
    ensures counts { U.failures store.new ≡ U.failures store.old }
{
    let Link { head: _, awaiting } = link;
    match awaiting {
        Awaiting::Patch { patch, left: _ } => {
            let OpenPatch {
                draft,
                reached: _,
                bare: _,
                closes: _,
            } = patch;
            store.drop_open(draft);
        }
        Awaiting::Head | Awaiting::Skip { left: _ } | Awaiting::Text { giving: _, left: _ } => {}
    }
}
