//! Writing what an encoder gave.

ghost use Rattle.enc_encode.specs.Code.{written_of, final};
ghost use Rattle.enc_encode.specs.Reasons.{Gave};

use crate::append::{append, append_reference};
use crate::error::EncodeError;
use crate::shift::ShiftState;
use crate::written::Written;
use enc_model::Mode;

/// Appends what an encoder gave in the end, and for an error what the mode has in its place.
pub fn write_out(mode: Mode, written: Written, out: &mut Vec<u8>) -> Result<ShiftState, EncodeError>
    ensures { Gave (final mode (written_of written)) out.old out.new result }
{
    match written {
        Written::Wrote(bytes, next) | Written::Restore(bytes, next) => {
            append(bytes.as_slice(), out)?;
            Ok(next)
        }
        Written::Unmappable(bytes, next, c) => {
            append(bytes.as_slice(), out)?;
            match mode {
                Mode::Html => append_reference(c, out)?,
                Mode::Fatal => return Err(EncodeError::Unencodable(c)),
            }
            Ok(next)
        }
    }
}
