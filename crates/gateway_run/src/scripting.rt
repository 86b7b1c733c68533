//! Running the input as a script over a spool.
ghost use Rattle.std.specs.Prelude.{◌≡◌, IfErr, IfOk};
ghost use Rattle.common.specs.declared.stop.Stop.{Stop};
ghost use Rattle.enc_model.specs.Indexes.{no_indexes};
ghost use Rattle.spool_image.specs.LeftOnly.{AllShow};
ghost use Rattle.upload_rules.specs.Store.{no_uploads};
ghost use Rattle.gateway_engine.specs.Ran.{CountsEither};
ghost use Rattle.gateway_outside.specs.Failures.{fault_in};
ghost use Rattle.gateway_outside.specs.declared.faults.Fault.{Fault};
ghost use Rattle.gateway_run.specs.Scripts.{IsIo, RunsAt, RunsFresh, ScriptsAt, run_fault};

use enc_index::IndexSet;
use gateway_engine::{CountedRead, CountedWrite, RunFault, ScriptFault, run};
use gateway_outside::{Failure, Fault, Input, Output, SpoolFiles, open_in, refused_in};
use spool_disk::{Disk, MemoryDisk};
use spool_image::{format, pages_of};
use spool_journal::PAGE;
use std::alloc::Global;
use std::io;

// How many text blocks a spool in memory has.
const MEMORY_BLOCKS: u32 = 64;

/// Runs the input as a script over the spool in the file at this path, or over a fresh one in memory for `-`.
pub fn script_in<'a, F: SpoolFiles, I: Input + CountedRead, W: Output + CountedWrite>(
    alloc: Global,
    files: &mut F,
    input: &mut I,
    output: &mut W,
    spool: &'a str,
) -> Result<(), Failure<'a>>
    // Where the file can be opened the script is run over its spool, with what `gateway_engine::run` promises, and the
    // failure is the run's. Where the one call that was to open it failed, neither the input nor the output was
    // called. The other files stay. For `-` no file is asked for, and it is run over a spool without uploads.
    ensures script { ScriptsAt F.File.Disk (F.holds files.old) (F.holds files.new) (F.unopened files.old)
        (F.unopened files.new) spool.now result (I.CountedRead.remaining input.old)
        (W.CountedWrite.contents output.old) (W.CountedWrite.contents output.new)
        ((input.new ≡ input.old) × (output.new ≡ output.old)) ⟦<MemoryDisk as Disk>⟧ (files.new ≡ files.old) }

    // `Io` exactly where the input or the output refused a call.
    ensures io { CountsEither (IsIo result) (I.CountedRead.refusals input.old) (I.CountedRead.refusals input.new)
        (W.CountedWrite.refusals output.old) (W.CountedWrite.refusals output.new) }
{
    match run_at(alloc, files, spool, input, output) {
        Ok(()) => return Ok(()),
        Err(failure) => return Err(by_streams(failure, input.error(), output.error())),
    }
}

// A failure of a run, with the reason of the stream that failed where it was for one.
fn by_streams<'a>(
    failure: Failure<'a>,
    input: Option<io::Error>,
    output: Option<io::Error>,
) -> Failure<'a>
    ensures { fault_in result ≡ fault_in failure.entry }
{
    match failure.fault() {
        Fault::Io => Failure::on_streams(Fault::Io, input, output),
        _ => failure,
    }
}

// Runs a script over the spool at this path, or in memory for `-`.
fn run_at<'a, F: SpoolFiles, R: CountedRead, W: CountedWrite>(
    alloc: Global,
    files: &mut F,
    spool: &'a str,
    reader: &mut R,
    writer: &mut W,
) -> Result<(), Failure<'a>>
    ensures script { ScriptsAt F.File.Disk (F.holds files.old) (F.holds files.new) (F.unopened files.old)
        (F.unopened files.new) spool.now result (R.remaining reader.old) (W.contents writer.old)
        (W.contents writer.new) ((reader.new ≡ reader.old) × (writer.new ≡ writer.old)) ⟦<MemoryDisk as Disk>⟧
        (files.new ≡ files.old) }
    ensures io { CountsEither (IsIo result) (R.refusals reader.old) (R.refusals reader.new)
        (W.refusals writer.old) (W.refusals writer.new) }
{
    if spool == "-" {
        return run_in_memory(alloc, reader, writer);
    }
    run_in(alloc, files, spool, reader, writer)
}

// Runs a script over a fresh spool in memory.
fn run_in_memory<'a, R: CountedRead, W: CountedWrite>(
    alloc: Global,
    reader: &mut R,
    writer: &mut W,
) -> Result<(), Failure<'a>>
    ensures runs { RunsFresh ⟦<MemoryDisk as Disk>⟧ result (R.remaining reader.old) (W.contents writer.old)
        (W.contents writer.new) ((reader.new ≡ reader.old) × (writer.new ≡ writer.old)) }
    ensures io { CountsEither (IsIo result) (R.refusals reader.old) (R.refusals reader.new)
        (W.refusals writer.old) (W.refusals writer.new) }
{
    let disk = match spool_in_memory(alloc) {
        Ok(disk) => disk,
        Err(fault) => return Err(Failure::from(fault)),
    };
    match run(alloc, reader, writer, disk) {
        Ok(disk) => {
            drop(disk);
            Ok(())
        }
        Err((_disk, fault)) => Err(Failure::from(fault_of(fault))),
    }
}

// Runs a script over the spool in the file at this path.
fn run_in<'a, F: SpoolFiles, R: CountedRead, W: CountedWrite>(
    alloc: Global,
    files: &mut F,
    path: &'a str,
    reader: &mut R,
    writer: &mut W,
) -> Result<(), Failure<'a>>
    // Where the file can be opened the script is run over its spool, with what `gateway_engine::run` promises, and the
    // failure is the run's. Where the one call that was to open it failed, neither the reader nor the writer was
    // called. The other files stay.
    ensures runs { RunsAt F.File.Disk (F.holds files.old) (F.holds files.new) (F.unopened files.old)
        (F.unopened files.new) path.now result (R.remaining reader.old) (W.contents writer.old) (W.contents writer.new)
        ((reader.new ≡ reader.old) × (writer.new ≡ writer.old)) }
    ensures io { CountsEither (IsIo result) (R.refusals reader.old) (R.refusals reader.new)
        (W.refusals writer.old) (W.refusals writer.new) }
{
    let disk = match open_in(files, path) {
        Ok(disk) => disk,
        Err(failure) => return Err(failure),
    };
    match run(alloc, reader, writer, disk) {
        Ok(disk) => {
            files.close(path, disk);
            Ok(())
        }
        Err((disk, fault)) => Err(refused_in(files, fault_of(fault), path, disk)),
    }
}

// The program's error for a run that ended early.
fn fault_of(fault: RunFault) -> Fault
    ensures { result ≡ run_fault fault }
{
    match fault {
        RunFault::Open(fault) => Fault::from(fault),
        RunFault::Script(ScriptFault::Stop(stop)) => Fault::Stop(stop),
        RunFault::Script(ScriptFault::Script(line)) => Fault::Script(line),
        RunFault::Script(ScriptFault::Io) => Fault::Io,
    }
}

// A spool in memory, without uploads and without index files.
fn spool_in_memory(alloc: Global) -> Result<MemoryDisk, Fault>
    ensures fresh { IfOk result (λ disk. AllShow ⟦<MemoryDisk as Disk>⟧ disk 64 (no_uploads no_indexes)) }
    ensures refused { IfErr result (λ fault. fault ≡ Fault.Stop Stop.NoMemory) }
{
    let indexes = IndexSet::new(alloc)?;
    let Some(pages) = pages_of(MEMORY_BLOCKS) else {
        return Err(Fault::Size);
    };
    let mut disk = MemoryDisk::new(alloc, PAGE * pages as usize)?;
    match format(&mut disk, MEMORY_BLOCKS, &indexes) {
        Ok(()) => Ok(disk),
        Err(error) => Err(Fault::from(error)),
    }
}
