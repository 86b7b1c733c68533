//! What a script's run writes.
ghost use Rattle.std.specs.Prelude.{◌≡◌, ◌++◌, OnOk, IsErrOf};
ghost use Rattle.std.specs.Io.KnownBytes.{Appends};
ghost use Rattle.upload_rules.specs.Answers.{Counts};
ghost use Rattle.gateway_script.specs.Script.{written_bytes, written_close};
ghost use Rattle.gateway_script.specs.Outputs.{IsWriteFault, AppendsPart, count_line, refusal_bytes};

use crate::faults::CallFault;
use gateway_streams::{CountedWrite, Refused};
use std::alloc::{AllocError, Global};
use tus_session::SessionError;

/// Writes all of the bytes.
pub(crate) fn write_out<W: CountedWrite>(writer: &mut W, bytes: &[u8]) -> Result<(), CallFault>
    ensures ok { OnOk result (Appends (W.contents writer.old) (W.contents writer.new) bytes.now) }
    ensures err { IsWriteFault result (AppendsPart (W.contents writer.old) (W.contents writer.new) bytes.now) }
    ensures io { Counts (IsErrOf result CallFault.Io) (W.refusals writer.old) (W.refusals writer.new) }
{
    let mut rest = bytes;
    while !rest.is_empty() {
        match writer.write_piece(rest) {
            Ok(count) => rest = &rest[count..],
            Err(Refused) => return Err(CallFault::Io),
        }
    }
    Ok(())
}

/// The line before the bytes that a call gave.
fn report_count(
    alloc: Global,
    conn: usize,
    count: usize,
    out: &mut Vec<u8>,
) -> Result<(), AllocError>
    ensures { OnOk result (out.new.items ≡ out.old.items ++ count_line conn count) }
{
    let line = format!(in alloc; "< {conn} {count}\n")?;
    out.extend_from_slice(line.as_bytes())
}

/// The bytes that a call gave.
fn report_bytes(
    alloc: Global,
    conn: usize,
    bytes: &[u8],
    out: &mut Vec<u8>,
) -> Result<(), AllocError>
    ensures { OnOk result (out.new.items ≡ out.old.items ++ written_bytes conn bytes.now) }
{
    if bytes.is_empty() {
        return Ok(());
    }
    report_count(alloc, conn, bytes.len(), out)?;
    out.extend_from_slice(bytes)?;
    match out.push(b'\n') {
        Ok(()) => Ok(()),
        Err(_) => Err(AllocError),
    }
}

/// That a call closed its connection.
fn report_close(
    alloc: Global,
    conn: usize,
    closes: bool,
    out: &mut Vec<u8>,
) -> Result<(), AllocError>
    ensures { OnOk result (out.new.items ≡ out.old.items ++ written_close conn closes) }
{
    if !closes {
        return Ok(());
    }
    let line = format!(in alloc; "x {conn}\n")?;
    out.extend_from_slice(line.as_bytes())
}

/// What is written after a call that gave bytes.
pub(crate) fn report(
    alloc: Global,
    conn: usize,
    bytes: &[u8],
    closes: bool,
    out: &mut Vec<u8>,
) -> Result<(), AllocError>
    ensures { OnOk result
        (out.new.items ≡ out.old.items ++ (written_bytes conn bytes.now ++ written_close conn closes)) }
{
    report_bytes(alloc, conn, bytes, out)?;
    report_close(alloc, conn, closes, out)
}

/// What is written after a call that was refused.
pub(crate) fn report_refusal(
    alloc: Global,
    conn: usize,
    number: u8,
    out: &mut Vec<u8>,
) -> Result<(), AllocError>
    ensures { OnOk result (out.new.items ≡ out.old.items ++ refusal_bytes conn number) }
{
    let line = format!(in alloc; "! {conn} {number}\n")?;
    out.extend_from_slice(line.as_bytes())
}
