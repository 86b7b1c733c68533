//! A script over a store of uploads.
ghost use Rattle.std.specs.Prelude.{ℕ, Bool, List, Option};
ghost use Rattle.upload_rules.specs.Store.{Store};
ghost use Rattle.upload_rules.specs.World.{at_rest};
ghost use Rattle.upload_rules.specs.Answers.{Counts};
ghost use Rattle.tus_session.specs.History.{beginning};
ghost use Rattle.gateway_script.specs.Script.{IsScript};
ghost use Rattle.gateway_engine.specs.Ran.{HasRun, HasFailed, HasRefused, CountsEither, handed_back};

use crate::gateway::Gateway;
use common::Stop;
use gateway_script::{CountedRead, CountedWrite, ScriptFault, read_script, run_script};
use std::alloc::Global;
use upload_rules::Uploads;

/// Runs a script from `reader` over uploads, and writes to `writer` what its calls give. The uploads are handed back,
/// with no draft open.
///
/// The script is read whole before its first line is run.
///
/// Refused with `Stop` if a growth outside the calls was refused or the disk failed, with `Script` of the first line
/// that is none or too long, and with `Io`. What was committed and written before stays.
pub fn run_over<U: Uploads, R: CountedRead, W: CountedWrite>(
    alloc: Global,
    reader: &mut R,
    writer: &mut W,
    store: U,
) -> Result<U, (U, ScriptFault)>
    // On any disk: what is written is the script's output, with a mark for each call that was out of memory, but for
    // the bytes of texts. If the disk is known to be honest, these are the texts' too, and images show the uploads of
    // the script's history.
    ensures output { (sure : Bool) (m : Store) (blocks : Option ℕ) → U.represents store sure (at_rest m blocks)
        → (script : List ℕ) × IsScript (R.remaining reader.old) script
        × HasRun U.Uploads sure store result (W.contents writer.new) (W.contents writer.old) (beginning m blocks)
        script }
    ensures counts { Counts (HasFailed result) (U.failures store) (U.failures (handed_back result)) }

    // `Io` exactly where the reader or the writer refused a call.
    ensures io { CountsEither (HasRefused result) (R.refusals reader.old) (R.refusals reader.new)
        (W.refusals writer.old) (W.refusals writer.new) }
{
    let script = match read_script(alloc, reader) {
        Ok(script) => script,
        Err(fault) => return Err((store, fault)),
    };
    let mut gateway = match Gateway::new(alloc, store) {
        Ok(gateway) => gateway,
        Err((store, _)) => return Err((store, ScriptFault::Stop(Stop::NoMemory))),
    };
    match run_script(alloc, &mut gateway, writer, &script) {
        Ok(()) => Ok(gateway.close()),
        Err(fault) => Err((gateway.close(), fault)),
    }
}
