//! The messages for a command line that gives no order.
ghost use Rattle.std.specs.Prelude.{◌≡◌, ◌≢◌, ◌⊎◌, IfOk};
ghost use Rattle.clap.specs.Values.{kind_of};
ghost use Rattle.clap.specs.declared.error.kind.ErrorKind.{ErrorKind};

use crate::commands::write_names;
use clap::Error;
use clap::error::ErrorKind;
use std::io::{self, Write};

/// The exit status for a wrong command line.
pub const USAGE: u8 = 1;

/// Writes help to `out`, or the fault of the command line to `err`, with the names of all commands after a word that is
/// none. Returns the exit status: 0 after help, otherwise `USAGE`.
pub fn report_usage<O: Write, E: Write>(error: &Error, out: &mut O, err: &mut E) -> io::Result<u8>
    ensures help { (kind_of error.now ≡ ErrorKind.DisplayHelp) ⊎ (kind_of error.now ≡ ErrorKind.DisplayVersion)
        → IfOk result (λ status. status ≡ 0) }
    ensures wrong { (kind_of error.now ≢ ErrorKind.DisplayHelp) → (kind_of error.now ≢ ErrorKind.DisplayVersion)
        → IfOk result (λ status. status ≡ 1) }
{
    if error.use_stderr() {
        write!(err, "{error}")?;
        if error.kind() == ErrorKind::InvalidSubcommand {
            writeln!(err)?;
            write_names(err)?;
        }
        Ok(USAGE)
    } else {
        write!(out, "{error}")?;
        Ok(0)
    }
}
