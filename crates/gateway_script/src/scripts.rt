//! Reading a script.
ghost use Rattle.std.specs.Prelude.{◌≡◌, ◌≤◌, ◌<◌, vec_len, IfOk, IfErr, IsErrOf, ◌⊎◌};
ghost use Rattle.std.specs.Io.KnownBytes.{Consumes, IsAtEnd};
ghost use Rattle.common.specs.declared.stop.Stop.{Stop};
ghost use Rattle.upload_rules.specs.Answers.{Counts};
ghost use Rattle.gateway_script.specs.Inputs.{TakesMost};
ghost use Rattle.gateway_script.specs.Script.{IsScript};

use crate::faults::ScriptFault;
use gateway_streams::CountedRead;
use std::alloc::Global;

/// How many bytes are asked for at most: by then a longer script is known to be too long.
const MOST_READ: usize = 1_073_741_825;

/// How many bytes a read asks for at most.
const PIECE: usize = 8192;

/// Reads a script, up to one byte more than a script may have.
///
/// # Errors
///
/// `Stop(NoMemory)` when out of memory, and `Io` exactly where a read is.
pub fn read_script<R: CountedRead>(alloc: Global, reader: &mut R) -> Result<Vec<u8>, ScriptFault>
    ensures ok { IfOk result (λ script. IsScript (R.remaining reader.old) script.items) }
    ensures most { IfOk result (λ script. vec_len script ≤ 1073741825) }
    ensures taken { TakesMost 1073741825 (R.remaining reader.old) (R.remaining reader.new) }
    ensures err { IfErr result (λ fault. (fault ≡ ScriptFault.Stop Stop.NoMemory) ⊎ (fault ≡ ScriptFault.Io)) }
    ensures io { Counts (IsErrOf result ScriptFault.Io) (R.refusals reader.old) (R.refusals reader.new) }
{
    read_up_to(alloc, reader, MOST_READ)
}

/// Reads so many bytes at most.
fn read_up_to<R: CountedRead>(
    alloc: Global,
    reader: &mut R,
    most: usize,
) -> Result<Vec<u8>, ScriptFault>
    ensures ok { IfOk result (λ read. Consumes (R.remaining reader.old) (R.remaining reader.new) read.items) }
    ensures end { IfOk result (λ read. vec_len read < most → IsAtEnd (R.remaining reader.new)) }
    ensures most { IfOk result (λ read. vec_len read ≤ most) }
    ensures taken { TakesMost most (R.remaining reader.old) (R.remaining reader.new) }
    ensures err { IfErr result (λ fault. (fault ≡ ScriptFault.Stop Stop.NoMemory) ⊎ (fault ≡ ScriptFault.Io)) }
    ensures io { Counts (IsErrOf result ScriptFault.Io) (R.refusals reader.old) (R.refusals reader.new) }
{
    let mut read = Vec::new(alloc);
    let mut piece = [0; PIECE];
    while read.len() < most {
        let room = PIECE.min(most - read.len());
        let count = reader.read_piece(&mut piece[..room])?;
        if count == 0 {
            return Ok(read);
        }
        read.extend_from_slice(&piece[..count])?;
    }
    Ok(read)
}
