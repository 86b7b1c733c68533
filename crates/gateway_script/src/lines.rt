//! The bytes of a line, given until all are taken.
ghost use Rattle.std.specs.Prelude.{◌≡◌, ℕ, Bool, Option, List, [], length, drop, IsErrOf};
ghost use Rattle.common.specs.declared.stop.Stop.{Stop};
ghost use Rattle.upload_rules.specs.Answers.{Counts};
ghost use Rattle.tus_session.specs.History.{State, Gave};
ghost use Rattle.gateway_script.specs.Script.{Run, mores, mores_after, most_calls, give_within};
ghost use Rattle.gateway_script.specs.Runs.{view, IsRunAt, Went, Flowed, GivenOnce, settles};

use crate::calls::{came, more};
use crate::faults::CallFault;
use gateway_streams::CountedWrite;
use std::alloc::Global;
use tus_session::{Answer, Connections};

/// Whether the line goes on after an answer, where no text is still to be given.
fn goes_on(answer: Option<Answer>) -> Option<bool>
    ensures { result ≡ settles answer }
{
    match answer {
        None => Some(false),
        Some(answer) if answer.closes => Some(false),
        Some(answer) if answer.more => None,
        Some(_) => Some(true),
    }
}

/// A text that is still to be given is given. Whether the line's bytes go on.
fn give_text<C: Connections, W: CountedWrite>(
    alloc: Global,
    core: &mut C,
    writer: &mut W,
    conn: usize,
) -> Result<bool, CallFault>
    ensures does { (sure : Bool) (before : C) (st : State) (r : Run) (prefix : Option (List ℕ))
        → IsRunAt (view C.Connections sure before core.old st (W.contents writer.old) prefix) r
        → Flowed (view C.Connections sure before core.new st (W.contents writer.new) prefix) result
        (mores most_calls conn)
        r }
    ensures counts { Counts (IsErrOf result (CallFault.Stop Stop.DiskFault)) (C.failures core.old)
        (C.failures core.new) }
    ensures io { Counts (IsErrOf result CallFault.Io) (W.refusals writer.old) (W.refusals writer.new) }
{
    let mut left = u64::MAX;
    while left > 0 {
        let answer = more(alloc, core, writer, conn)?;
        if let Some(on) = goes_on(answer) {
            return Ok(on);
        }
        left -= 1;
    }
    Ok(true)
}

/// Whether the line's bytes go on after an answer: a text that is still to be given is given.
fn go_on<C: Connections, W: CountedWrite>(
    alloc: Global,
    core: &mut C,
    writer: &mut W,
    conn: usize,
    answer: Answer,
) -> Result<bool, CallFault>
    ensures does { (sure : Bool) (before : C) (st : State) (r : Run) (prefix : Option (List ℕ)) (given : List ℕ)
        → IsRunAt (view C.Connections sure before core.old st (W.contents writer.old) prefix) r
        → Flowed (view C.Connections sure before core.new st (W.contents writer.new) prefix) result
        (λ x. mores_after (mores most_calls conn)
        (record { run = x; outcome = Gave given answer.taken answer.closes answer.more })) r }
    ensures counts { Counts (IsErrOf result (CallFault.Stop Stop.DiskFault)) (C.failures core.old)
        (C.failures core.new) }
    ensures io { Counts (IsErrOf result CallFault.Io) (W.refusals writer.old) (W.refusals writer.new) }
{
    match goes_on(Some(answer)) {
        Some(on) => Ok(on),
        None => give_text(alloc, core, writer, conn),
    }
}

/// One call with bytes of a line, and what follows it. How many bytes were taken, where the line goes on.
fn give_once<C: Connections, W: CountedWrite>(
    alloc: Global,
    core: &mut C,
    writer: &mut W,
    conn: usize,
    bytes: &[u8],
) -> Result<Option<usize>, CallFault>
    ensures does { (sure : Bool) (before : C) (st : State) (r : Run) (prefix : Option (List ℕ)) (k : ℕ)
        → (bytes.now ≡ [] → ⊥)
        → IsRunAt (view C.Connections sure before core.old st (W.contents writer.old) prefix) r
        → GivenOnce (view C.Connections sure before core.new st
        (W.contents writer.new) prefix) result k conn bytes.now r }
    ensures counts { Counts (IsErrOf result (CallFault.Stop Stop.DiskFault)) (C.failures core.old)
        (C.failures core.new) }
    ensures io { Counts (IsErrOf result CallFault.Io) (W.refusals writer.old) (W.refusals writer.new) }
{
    let Some(answer) = came(alloc, core, writer, conn, bytes)? else {
        return Ok(None);
    };
    if go_on(alloc, core, writer, conn, answer)? {
        Ok(Some(answer.taken))
    } else {
        Ok(None)
    }
}

/// The bytes after those that were taken.
fn untaken(bytes: &[u8], taken: usize) -> &[u8]
    ensures { result.now ≡ drop taken bytes.now }
{
    match bytes.get(taken..) {
        Some(rest) => rest,
        None => &[],
    }
}

/// Gives a line's bytes to a connection until all are taken. A connection that closes or refuses drops the rest.
pub(crate) fn give<C: Connections, W: CountedWrite>(
    alloc: Global,
    core: &mut C,
    writer: &mut W,
    conn: usize,
    bytes: &[u8],
) -> Result<(), CallFault>
    ensures does { (sure : Bool) (before : C) (st : State) (r : Run) (prefix : Option (List ℕ))
        → IsRunAt (view C.Connections sure before core.old st (W.contents writer.old) prefix) r
        → Went (view C.Connections sure before core.new st (W.contents writer.new) prefix) result
        (give_within (length bytes.now) conn bytes.now) r }
    ensures counts { Counts (IsErrOf result (CallFault.Stop Stop.DiskFault)) (C.failures core.old)
        (C.failures core.new) }
    ensures io { Counts (IsErrOf result CallFault.Io) (W.refusals writer.old) (W.refusals writer.new) }
{
    let mut rest = bytes;
    let mut left = bytes.len();
    while left > 0 && !rest.is_empty() {
        let Some(taken) = give_once(alloc, core, writer, conn, rest)? else {
            return Ok(());
        };
        rest = untaken(rest, taken);
        left -= 1;
    }
    Ok(())
}
