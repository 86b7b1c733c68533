//! A call on the connections, and what it writes.
ghost use Rattle.std.specs.Prelude.{ℕ, Bool, List, Option, IsErrOf};
ghost use Rattle.upload_rules.specs.Answers.{Counts};
ghost use Rattle.tus_session.specs.History.{State, Opened, Came, More, Ended};
ghost use Rattle.gateway_script.specs.Script.{Run, call};
ghost use Rattle.gateway_script.specs.Runs.{view, IsRunAt, Went, Refuses, Called, WritesGiven};

use crate::faults::CallFault;
use crate::writing::{report, report_refusal, write_out};
use common::Stop;
use gateway_streams::CountedWrite;
use std::alloc::Global;
use tus_session::{Answer, Connections, SessionError};

/// A refusal is written. The disk fault ends the run: `Down` is met only where the connections were down before it.
pub(crate) fn refused<W: CountedWrite>(
    alloc: Global,
    writer: &mut W,
    conn: usize,
    error: SessionError,
) -> Result<(), CallFault>
    ensures refuses { Refuses (W.contents writer.old) (W.contents writer.new) result conn error }
    ensures io { Counts (IsErrOf result CallFault.Io) (W.refusals writer.old) (W.refusals writer.new) }
{
    let number = match error {
        SessionError::Stop(Stop::NoMemory) => 0,
        SessionError::TooMany => 29,
        SessionError::Closed => 30,
        SessionError::Down => 31,
        SessionError::Stop(Stop::DiskFault) => return Err(CallFault::Stop(Stop::DiskFault)),
    };
    let mut out = Vec::new(alloc);
    report_refusal(alloc, conn, number, &mut out)?;
    write_out(writer, &out)
}

/// What a call gave is written.
fn write_given<W: CountedWrite>(
    alloc: Global,
    writer: &mut W,
    conn: usize,
    bytes: &[u8],
    closes: bool,
) -> Result<(), CallFault>
    ensures wrote_given { WritesGiven (W.contents writer.old) (W.contents writer.new) result conn bytes.now closes }
    ensures io { Counts (IsErrOf result CallFault.Io) (W.refusals writer.old) (W.refusals writer.new) }
{
    let mut out = Vec::new(alloc);
    report(alloc, conn, bytes, closes, &mut out)?;
    write_out(writer, &out)
}

/// Opens a connection.
pub(crate) fn open<C: Connections, W: CountedWrite>(
    alloc: Global,
    core: &mut C,
    writer: &mut W,
    conn: usize,
) -> Result<(), CallFault>
    ensures does { (sure : Bool) (before : C) (st : State) (r : Run) (prefix : Option (List ℕ))
        → IsRunAt (view C.Connections sure before core.old st (W.contents writer.old) prefix) r
        → Went (view C.Connections sure before core.new st (W.contents writer.new) prefix) result
        (λ x. (call x conn (Opened conn)).run) r }
    ensures counts { Counts (IsErrOf result (CallFault.Stop Stop.DiskFault)) (C.failures core.old)
        (C.failures core.new) }
    ensures io { Counts (IsErrOf result CallFault.Io) (W.refusals writer.old) (W.refusals writer.new) }
{
    match core.opened(conn) {
        Ok(()) => Ok(()),
        Err(error) => refused(alloc, writer, conn, error),
    }
}

/// Cuts a connection.
pub(crate) fn cut<C: Connections, W: CountedWrite>(
    alloc: Global,
    core: &mut C,
    writer: &mut W,
    conn: usize,
) -> Result<(), CallFault>
    ensures does { (sure : Bool) (before : C) (st : State) (r : Run) (prefix : Option (List ℕ))
        → IsRunAt (view C.Connections sure before core.old st (W.contents writer.old) prefix) r
        → Went (view C.Connections sure before core.new st (W.contents writer.new) prefix) result
        (λ x. (call x conn (Ended conn)).run) r }
    ensures counts { Counts (IsErrOf result (CallFault.Stop Stop.DiskFault)) (C.failures core.old)
        (C.failures core.new) }
    ensures io { Counts (IsErrOf result CallFault.Io) (W.refusals writer.old) (W.refusals writer.new) }
{
    match core.ended(conn) {
        Ok(()) => Ok(()),
        Err(error) => refused(alloc, writer, conn, error),
    }
}

/// Gives bytes to a connection.
pub(crate) fn came<C: Connections, W: CountedWrite>(
    alloc: Global,
    core: &mut C,
    writer: &mut W,
    conn: usize,
    bytes: &[u8],
) -> Result<Option<Answer>, CallFault>
    ensures does { (sure : Bool) (before : C) (st : State) (r : Run) (prefix : Option (List ℕ))
        → IsRunAt (view C.Connections sure before core.old st (W.contents writer.old) prefix) r
        → Called (view C.Connections sure before core.new st (W.contents writer.new) prefix) result conn
        (Came conn bytes.now) r }
    ensures counts { Counts (IsErrOf result (CallFault.Stop Stop.DiskFault)) (C.failures core.old)
        (C.failures core.new) }
    ensures io { Counts (IsErrOf result CallFault.Io) (W.refusals writer.old) (W.refusals writer.new) }
{
    let mut out = Vec::new(alloc);
    match core.came(conn, bytes, &mut out) {
        Ok(answer) => {
            write_given(alloc, writer, conn, &out, answer.closes)?;
            Ok(Some(answer))
        }
        Err(error) => {
            refused(alloc, writer, conn, error)?;
            Ok(None)
        }
    }
}

/// Asks a connection for the next piece of a text.
pub(crate) fn more<C: Connections, W: CountedWrite>(
    alloc: Global,
    core: &mut C,
    writer: &mut W,
    conn: usize,
) -> Result<Option<Answer>, CallFault>
    ensures does { (sure : Bool) (before : C) (st : State) (r : Run) (prefix : Option (List ℕ))
        → IsRunAt (view C.Connections sure before core.old st (W.contents writer.old) prefix) r
        → Called (view C.Connections sure before core.new st (W.contents writer.new) prefix) result conn (More conn) r }
    ensures counts { Counts (IsErrOf result (CallFault.Stop Stop.DiskFault)) (C.failures core.old)
        (C.failures core.new) }
    ensures io { Counts (IsErrOf result CallFault.Io) (W.refusals writer.old) (W.refusals writer.new) }
{
    let mut out = Vec::new(alloc);
    match core.more(conn, &mut out) {
        Ok(answer) => {
            write_given(alloc, writer, conn, &out, answer.closes)?;
            Ok(Some(answer))
        }
        Err(error) => {
            refused(alloc, writer, conn, error)?;
            Ok(None)
        }
    }
}
