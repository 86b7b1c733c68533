//! What is printed of a spool that was made, raised or upgraded.
ghost use Rattle.std.specs.Prelude.{IsErr, OnOk};
ghost use Rattle.std.specs.Io.KnownBytes.{Appends};
ghost use Rattle.spool_disk.specs.Disk.{Counts};
ghost use Rattle.gateway_outside.specs.declared.faults.Fault.{Fault};
ghost use Rattle.gateway_outside.specs.Openings.{EndsWellBut};
ghost use Rattle.gateway_format.specs.Reports.{formatted_lines, longer_line, raised_line, upgraded_line};

use gateway_outside::{Failure, Fault, Output, Refused};

/// Prints what `format` made, and the number of the first upload, if it was given. Refused with `Io`.
pub(crate) fn report_formatted<'a, W: Output>(
    output: &mut W,
    blocks: u32,
    pages: u32,
    first: Option<u64>,
) -> Result<(), Failure<'a>>
    ensures line { OnOk result
        (Appends (W.contents output.old) (W.contents output.new) (formatted_lines blocks pages first)) }
    ensures refused { EndsWellBut result Fault.Io }
{
    match write_formatted(output, blocks, pages, first) {
        Ok(()) => Ok(()),
        Err(_) => Err(Failure::on_streams(Fault::Io, None, output.error())),
    }
}

// Writes what `format` made: all of it, or refuses.
fn write_formatted<W: Output>(
    output: &mut W,
    blocks: u32,
    pages: u32,
    first: Option<u64>,
) -> Result<(), Refused>
    ensures { OnOk result
        (Appends (W.contents output.old) (W.contents output.new) (formatted_lines blocks pages first)) }
{
    match first {
        Some(first) => {
            let first = first.max(1);
            writeln!(
                output,
                "formatted {blocks} blocks, {pages} pages\nnext number {first}"
            )
        }
        None => writeln!(output, "formatted {blocks} blocks, {pages} pages"),
    }
}

/// Prints that the file of a spool that was made is longer than the spool, since it was so long before.
pub(crate) fn report_longer<E: Output>(errors: &mut E, spool: &str, len: u64) -> Result<(), Refused>
    ensures { OnOk result (Appends (E.contents errors.old) (E.contents errors.new) (longer_line spool.now len)) }
{
    writeln!(
        errors,
        "{spool} has {len} bytes, as before: more than the spool, which is at its start"
    )
}

/// Prints the next number of a spool, which was raised. Refused with `Io`.
pub(crate) fn report_raised<'a, W: Output>(output: &mut W, next: u64) -> Result<(), Failure<'a>>
    ensures line { OnOk result (Appends (W.contents output.old) (W.contents output.new) (raised_line next)) }
    ensures refused { EndsWellBut result Fault.Io }
    ensures io { Counts (IsErr result) (W.refusals output.old) (W.refusals output.new) }
{
    match writeln!(output, "next number {next}") {
        Ok(()) => Ok(()),
        Err(_) => Err(Failure::on_streams(Fault::Io, None, output.error())),
    }
}

/// Prints that a spool was upgraded. Refused with `Io`.
pub(crate) fn report_upgraded<'a, W: Output>(output: &mut W) -> Result<(), Failure<'a>>
    ensures line { OnOk result (Appends (W.contents output.old) (W.contents output.new) upgraded_line) }
    ensures refused { EndsWellBut result Fault.Io }
    ensures io { Counts (IsErr result) (W.refusals output.old) (W.refusals output.new) }
{
    match writeln!(output, "upgraded to version 2") {
        Ok(()) => Ok(()),
        Err(_) => Err(Failure::on_streams(Fault::Io, None, output.error())),
    }
}
