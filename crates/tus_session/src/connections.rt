//! The trait of connections that scripts and sockets drive.
ghost use Rattle.std.specs.Prelude.{◌≡◌, ℕ, Bool, true, false, List, IsErrOf, Option};
ghost use Rattle.common.specs.declared.stop.Stop.{Stop};
ghost use Rattle.upload_rules.specs.Store.{Store};
ghost use Rattle.upload_rules.specs.Answers.{Among, Limits, Quiet, Counts};
ghost use Rattle.tus_session.specs.History.{State, Opened, Came, More, Ended};
ghost use Rattle.tus_session.specs.At.{at_in};
ghost use Rattle.tus_session.specs.Turns.{GivesFew};
ghost use Rattle.tus_session.specs.Connections.{GivesFor, Does, Falls, Unasked, mark_of};
ghost use Rattle.tus_session.specs.Images.{shown_by};

use crate::{Answer, At, SessionError};

/// Connections that follow the history of their events.
///
/// After one call was refused with `DiskFault` they are down: each further call is refused with `Down`, doesn't ask the
/// disk, and leaves `out` unchanged.
///
/// One request, whatever the connections are driven by:
///
/// ```
/// conns.opened(0).expect(rt, "a free place");
/// let bytes = b"OPTIONS /files HTTP/1.1\r\n\r\n";
/// let answer = conns.came(0, bytes, &mut out).expect(rt, "memory");
/// conns.ended(0).expect(rt, "an open connection");
/// assert_eq!(rt; answer.taken, bytes.len());
/// assert!(rt; out.starts_with(b"HTTP/1.1 204 No Content\r\n"));
/// ```
pub trait Connections {
    /// The connections represent this state. If that is sure, the disk is honest and holds the texts; otherwise nothing
    /// is claimed of the disk.
    ghost represents: { Self → Bool → State → Type 0 };

    /// How much the disk was asked so far.
    ghost moment: { Self → ℕ };

    /// Every crash image since that moment shows one of these stores.
    ghost left_only: { Self → Option ℕ → ℕ → List Store → Type 0 };

    /// How many disk faults there were.
    ghost failures: { Self → ℕ };

    /// Whether an earlier call met a disk fault.
    ghost down: { Self → Bool };

    /// Opens a connection. Uses neither memory nor the disk.
    ///
    /// # Errors
    ///
    /// `TooMany` exactly if the number isn't below `MOST_OPEN` or that connection is open.
    fn opened(&mut self, conn: usize) -> Result<(), SessionError>
        ensures does { (sure : Bool) (st : State) → represents self.old sure st
            → Does (represents self.new sure) result st (Opened conn) }
        ensures crash { Quiet (moment self.old) (moment self.new) (left_only self.old) (left_only self.new) }
        ensures counts { Counts (IsErrOf result (SessionError.Stop Stop.DiskFault)) (failures self.old)
            (failures self.new) }
        ensures falls { Falls (down self.old) (down self.new) result }
        ensures unasked { down self.old ≡ true → Unasked (moment self.old) (moment self.new) (left_only self.old)
            (left_only self.new) (failures self.old) (failures self.new) };

    /// Takes received bytes, at most to the end of one request, and appends the reply to `out`, with the first piece of
    /// a text if one is read: at most 69,632 bytes. A refusal leaves `out` unchanged.
    ///
    /// # Errors
    ///
    /// `Closed` exactly if the connection isn't open; otherwise `NoMemory` or `DiskFault`.
    fn came(&mut self, conn: usize, bytes: &[u8], out: &mut Vec<u8>) -> Result<Answer, SessionError>
        ensures gives { (sure : Bool) (st : State) → represents self.old sure st
            → GivesFor sure (represents self.new sure) result out.old.items out.new.items st (Came conn bytes.now) }
        ensures crash { (st : State) → represents self.old true st
            → Limits (moment self.old) (moment self.new) (left_only self.old) (left_only self.new) st.world.store
            (shown_by st (Came conn bytes.now) (mark_of result)) }
        ensures counts { Counts (IsErrOf result (SessionError.Stop Stop.DiskFault)) (failures self.old)
            (failures self.new) }
        ensures falls { Falls (down self.old) (down self.new) result }
        ensures unasked { down self.old ≡ true → Unasked (moment self.old) (moment self.new) (left_only self.old)
            (left_only self.new) (failures self.old) (failures self.new) }
        ensures unwritten { down self.old ≡ true → out.new.items ≡ out.old.items }
        ensures few { GivesFew out.old.items out.new.items };

    /// Appends the next piece of the pending text to `out`, at most 69,632 bytes. A refusal leaves `out` unchanged.
    ///
    /// # Errors
    ///
    /// Those of `came`.
    fn more(&mut self, conn: usize, out: &mut Vec<u8>) -> Result<Answer, SessionError>
        ensures gives { (sure : Bool) (st : State) → represents self.old sure st
            → GivesFor sure (represents self.new sure) result out.old.items out.new.items st (More conn) }
        ensures crash { Quiet (moment self.old) (moment self.new) (left_only self.old) (left_only self.new) }
        ensures counts { Counts (IsErrOf result (SessionError.Stop Stop.DiskFault)) (failures self.old)
            (failures self.new) }
        ensures falls { Falls (down self.old) (down self.new) result }
        ensures unasked { down self.old ≡ true → Unasked (moment self.old) (moment self.new) (left_only self.old)
            (left_only self.new) (failures self.old) (failures self.new) }
        ensures unwritten { down self.old ≡ true → out.new.items ≡ out.old.items }
        ensures few { GivesFew out.old.items out.new.items };

    /// The client closed the connection, or was lost.
    ///
    /// # Errors
    ///
    /// Those of `came`.
    fn ended(&mut self, conn: usize) -> Result<(), SessionError>
        ensures does { (sure : Bool) (st : State) → represents self.old sure st
            → Does (represents self.new sure) result st (Ended conn) }
        ensures crash { (st : State) → represents self.old true st
            → Limits (moment self.old) (moment self.new) (left_only self.old) (left_only self.new) st.world.store
            (shown_by st (Ended conn) (mark_of result)) }
        ensures counts { Counts (IsErrOf result (SessionError.Stop Stop.DiskFault)) (failures self.old)
            (failures self.new) }
        ensures falls { Falls (down self.old) (down self.new) result }
        ensures unasked { down self.old ≡ true → Unasked (moment self.old) (moment self.new) (left_only self.old)
            (left_only self.new) (failures self.old) (failures self.new) };

    /// What a connection is at, or `None` if it isn't open. Uses neither memory nor the disk.
    fn at(&self, conn: usize) -> Option<At>
        ensures { (sure : Bool) (st : State) → represents self.now sure st → result ≡ at_in st conn };

    /// If the connections are known to represent a state, each crash image from now on shows its uploads.
    ghost durable: { (core : Self) (st : State) (ms : List Store) → represents core true st → Among st.world.store ms
        → left_only core st.world.blocks (moment core) ms };

    /// Connections that represent a state aren't down.
    ghost up: { (core : Self) (sure : Bool) (st : State) → represents core sure st → down core ≡ false };
}
