//! What is printed of serving.
ghost use Rattle.std.specs.Prelude.{IsErr, OnOk};
ghost use Rattle.std.specs.Io.KnownBytes.{Appends};
ghost use Rattle.common.specs.Counts.{Counts};
ghost use Rattle.gateway_up.specs.Reports.{few_line, few_sockets_line, gone_line, open_line, served_line, up_line};

use common::SLOTS;
use gateway_indexes::Survey;
use gateway_outside::{Output, Refused};
use gateway_serve::MOST_DRAINING;
use tus_session::MOST_OPEN;

/// So many sockets may be open at once: those of connections, one that waits, and those that drain.
pub(crate) const MOST_SOCKETS: usize = MOST_OPEN + 1 + MOST_DRAINING;

/// Prints how many connections were served.
pub fn report_served<W: Output>(writer: &mut W, connections: u64) -> Result<(), Refused>
    ensures { OnOk result (Appends (W.contents writer.old) (W.contents writer.new) (served_line connections)) }
{
    writeln!(writer, "served {connections} connections")
}

/// Prints what is served, and where.
pub fn report_up<W: Output>(
    writer: &mut W,
    spool: &str,
    survey: &Survey,
    address: &str,
) -> Result<(), Refused>
    ensures bytes { OnOk result (Appends (W.contents writer.old) (W.contents writer.new)
        (up_line spool.now survey.now address.now)) }
    ensures counts { Counts (IsErr result) (W.refusals writer.old) (W.refusals writer.new) }
{
    writeln!(
        writer,
        "{spool}: version {}, {} of {} blocks free, {} of {SLOTS} slots free; listening {address}",
        survey.version, survey.free_blocks, survey.blocks, survey.free_slots
    )
}

/// Warns of an address that other machines may reach.
pub fn report_open<W: Output>(writer: &mut W, address: &str) -> Result<(), Refused>
    ensures { OnOk result (Appends (W.contents writer.old) (W.contents writer.new) (open_line address.now)) }
{
    writeln!(
        writer,
        "warning: {address} is open to other machines, and there are no passwords"
    )
}

/// Warns that a spool's path doesn't lead to the file any more that is served.
pub fn report_gone<W: Output>(writer: &mut W, spool: &str) -> Result<(), Refused>
    ensures { OnOk result (Appends (W.contents writer.old) (W.contents writer.new) (gone_line spool.now)) }
{
    writeln!(
        writer,
        "warning: {spool} was removed, cut or replaced while it is served: what is acknowledged is lost at the end"
    )
}

/// Warns that so many sockets at most can be open at once, of those of connections, of one that waits and of those that
/// drain, since no more files may be open.
pub fn report_few_sockets<W: Output>(writer: &mut W, sockets: usize) -> Result<(), Refused>
    ensures { OnOk result (Appends (W.contents writer.old) (W.contents writer.new) (few_sockets_line sockets)) }
{
    writeln!(
        writer,
        "warning: as few files may be open (ulimit -n), {sockets} of {} sockets can be: refused clients may see resets",
        MOST_SOCKETS
    )
}

/// Warns that so many connections at most can be open at once, since no more files may be open.
pub fn report_few<W: Output>(writer: &mut W, connections: usize) -> Result<(), Refused>
    ensures { OnOk result (Appends (W.contents writer.old) (W.contents writer.new) (few_line connections)) }
{
    writeln!(
        writer,
        "warning: as few files may be open (ulimit -n), {connections} of {} connections can be served at once",
        MOST_OPEN
    )
}
