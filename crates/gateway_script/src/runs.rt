//! The lines of a script, one after another, and its end.
ghost use Rattle.std.specs.Prelude.{◌≡◌, ◌≤◌, ℕ, Bool, Option, List, length, IsErrOf};
ghost use Rattle.std.specs.Io.BufRead.{take_through};
ghost use Rattle.common.specs.declared.stop.Stop.{Stop};
ghost use Rattle.upload_rules.specs.Answers.{Counts};
ghost use Rattle.tus_session.specs.History.{State};
ghost use Rattle.gateway_script.specs.Script.{Run, obeyed, cut_from, run_lines, script_lines, is_long, is_bad};
ghost use Rattle.common.specs.Splits.{before};
ghost use Rattle.gateway_script.specs.Lines.{IsLine};
ghost use Rattle.gateway_script.specs.Shown.{order_shown};
ghost use Rattle.gateway_script.specs.Runs.{view, IsRunAt, Went, CutOne, LineRan, LinesEnd};

use crate::calls::{cut, open, refused};
use crate::digits::HexDigits;
use crate::faults::{CallFault, ScriptFault};
use crate::lines::give;
use crate::orders::{Order, read_order};
use gateway_streams::CountedWrite;
use memchr::memchr;
use std::alloc::Global;
use tus_session::{Connections, MOST_OPEN, SessionError};

/// The most bytes of a line: a CR counts, the LF doesn't.
const MOST_LINE: usize = 65536;

/// The most bytes of a script: each LF counts.
const MOST_SCRIPT: u64 = 1_073_741_824;

/// Does what a line asks for.
fn obey<C: Connections, W: CountedWrite>(
    alloc: Global,
    core: &mut C,
    writer: &mut W,
    order: &Order,
) -> Result<(), CallFault>
    ensures does { (sure : Bool) (before : C) (st : State) (r : Run) (prefix : Option (List ℕ))
        → IsRunAt (view C.Connections sure before core.old st (W.contents writer.old) prefix) r
        → Went (view C.Connections sure before core.new st (W.contents writer.new) prefix) result
        (obeyed (order_shown order.now)) r }
    ensures counts { Counts (IsErrOf result (CallFault.Stop Stop.DiskFault)) (C.failures core.old)
        (C.failures core.new) }
    ensures io { Counts (IsErrOf result CallFault.Io) (W.refusals writer.old) (W.refusals writer.new) }
{
    match order {
        Order::Skip | Order::Bad => Ok(()),
        Order::Open(conn) => open(alloc, core, writer, *conn),
        Order::Give(conn, bytes) => give(alloc, core, writer, *conn, bytes),
        Order::Cut(conn) => cut(alloc, core, writer, *conn),
    }
}

/// Cuts a connection if it is open.
fn cut_open<C: Connections, W: CountedWrite>(
    alloc: Global,
    core: &mut C,
    writer: &mut W,
    conn: usize,
) -> Result<(), CallFault>
    ensures does { (sure : Bool) (before : C) (st : State) (r : Run) (prefix : Option (List ℕ)) (k : ℕ)
        → IsRunAt (view C.Connections sure before core.old st (W.contents writer.old) prefix) r
        → CutOne (view C.Connections sure before core.new st (W.contents writer.new) prefix) result k conn r }
    ensures counts { Counts (IsErrOf result (CallFault.Stop Stop.DiskFault)) (C.failures core.old)
        (C.failures core.new) }
    ensures io { Counts (IsErrOf result CallFault.Io) (W.refusals writer.old) (W.refusals writer.new) }
{
    match core.ended(conn) {
        Ok(()) => Ok(()),
        Err(error) => match error {
            SessionError::Closed => Ok(()),
            error => refused(alloc, writer, conn, error),
        },
    }
}

/// The first line, with the LF that ends it if it has one.
fn first_line(script: &[u8]) -> &[u8]
    ensures line { result.now ≡ take_through 10 script.now }
    ensures within { length result.now ≤ length script.now }
    ensures one { IsLine result.now }
{
    match memchr(b'\n', script) {
        Some(at) => &script[..at + 1],
        None => script,
    }
}

/// A line without its LF.
fn text_of(line: &[u8]) -> &[u8]
    requires { IsLine line.now }
    ensures { result.now ≡ before 10 line.now }
{
    match line.last() {
        Some(b'\n') => &line[..line.len() - 1],
        _ => line,
    }
}

/// Whether a line that begins at this byte of the script is too long, or makes the script so.
fn too_long(start: u64, line: &[u8]) -> bool
    requires { IsLine line.now }
    ensures { result ≡ is_long start line.now }
{
    text_of(line).len() > MOST_LINE || start.saturating_add(line.len() as u64) > MOST_SCRIPT
}

/// Whether a line asks for nothing that there is.
fn is_no_order(order: &Order) -> bool
    ensures { result ≡ is_bad (order_shown order.now) }
{
    matches!(order, Order::Bad)
}

/// Runs a line of this number, which begins at this byte of the script and has its LF.
fn run_line<C: Connections, W: CountedWrite>(
    alloc: Global,
    core: &mut C,
    writer: &mut W,
    digits: &HexDigits,
    number: u64,
    start: u64,
    line: &[u8],
) -> Result<(), ScriptFault>
    requires { IsLine line.now }
    ensures does { (sure : Bool) (before : C) (st : State) (r : Run) (prefix : Option (List ℕ)) (lines : List (List ℕ))
        → IsRunAt (view C.Connections sure before core.old st (W.contents writer.old) prefix) r
        → LineRan (view C.Connections sure before core.new st
        (W.contents writer.new) prefix) result number start line.now
        lines r }
    ensures counts { Counts (IsErrOf result (ScriptFault.Stop Stop.DiskFault)) (C.failures core.old)
        (C.failures core.new) }
    ensures io { Counts (IsErrOf result ScriptFault.Io) (W.refusals writer.old) (W.refusals writer.new) }
{
    if too_long(start, line) {
        return Err(ScriptFault::Script(number));
    }
    let order = read_order(alloc, digits, text_of(line))?;
    if is_no_order(&order) {
        return Err(ScriptFault::Script(number));
    }
    obey(alloc, core, writer, &order)?;
    Ok(())
}

/// Cuts the open connections, in order.
fn cut_all<C: Connections, W: CountedWrite>(
    alloc: Global,
    core: &mut C,
    writer: &mut W,
) -> Result<(), CallFault>
    ensures does { (sure : Bool) (before : C) (st : State) (r : Run) (prefix : Option (List ℕ))
        → IsRunAt (view C.Connections sure before core.old st (W.contents writer.old) prefix) r
        → Went (view C.Connections sure before core.new st (W.contents writer.new) prefix) result
        (cut_from MOST_OPEN 0) r }
    ensures counts { Counts (IsErrOf result (CallFault.Stop Stop.DiskFault)) (C.failures core.old)
        (C.failures core.new) }
    ensures io { Counts (IsErrOf result CallFault.Io) (W.refusals writer.old) (W.refusals writer.new) }
{
    let mut left = MOST_OPEN;
    while left > 0 {
        cut_open(alloc, core, writer, MOST_OPEN - left)?;
        left -= 1;
    }
    Ok(())
}

/// Runs the lines of a script, and cuts the connections that are open at its end.
pub fn run_script<C: Connections, W: CountedWrite>(
    alloc: Global,
    core: &mut C,
    writer: &mut W,
    script: &[u8],
) -> Result<(), ScriptFault>
    ensures does { (sure : Bool) (before : C) (st : State) (r : Run) (prefix : Option (List ℕ))
        → IsRunAt (view C.Connections sure before core.old st (W.contents writer.old) prefix) r
        → LinesEnd (view C.Connections sure before core.new st (W.contents writer.new) prefix) result
        (run_lines 1 0 (script_lines script.now)) r }
    ensures counts { Counts (IsErrOf result (ScriptFault.Stop Stop.DiskFault)) (C.failures core.old)
        (C.failures core.new) }
    ensures io { Counts (IsErrOf result ScriptFault.Io) (W.refusals writer.old) (W.refusals writer.new) }
{
    let digits = HexDigits::new();
    let mut rest = script;
    let mut number = 1;
    let mut start = 0;
    while !rest.is_empty() {
        let line = first_line(rest);
        run_line(alloc, core, writer, &digits, number, start, line)?;
        rest = &rest[line.len()..];
        number += 1;
        start += line.len() as u64;
    }
    cut_all(alloc, core, writer)?;
    Ok(())
}
