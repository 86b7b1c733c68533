//! What a connection is at.
ghost use Rattle.std.specs.Prelude.{◌≡◌};
ghost use Rattle.upload_rules.specs.World.{World};
ghost use Rattle.tus_request.specs.Buffers.{head_bytes};
ghost use Rattle.tus_session.specs.At.{at_of};
ghost use Rattle.tus_session.specs.Turns.{Conn};
ghost use Rattle.tus_session.specs.Represents.{LinkIs};

use crate::conns::{Awaiting, Link};
use upload_rules::Uploads;

/// What a connection is at.
#[derive(Clone, Copy, Debug, PartialEq, Eq, Drop)]
pub enum At {
    /// Between two requests: a head is awaited, and none of its bytes came.
    Between,
    /// A head of which some bytes came. Empty lines before it belong to it.
    Head,
    /// A body of which bytes are missing: a PATCH's, or one that is dropped.
    Body,
    /// A text that is pending.
    Text,
}

// What an open connection is at.
pub(crate) fn link_at<U: Uploads>(link: &Link<U::Draft>) -> At
    ensures { (w : World) (conn : Conn) → LinkIs U.Uploads w (head_bytes link.now.head) link.now.awaiting conn
        → result ≡ at_of w conn }
{
    match &link.awaiting {
        Awaiting::Head if link.head.len() == 0 => At::Between,
        Awaiting::Head => At::Head,
        Awaiting::Patch { .. } | Awaiting::Skip { .. } => At::Body,
        Awaiting::Text { .. } => At::Text,
    }
}
