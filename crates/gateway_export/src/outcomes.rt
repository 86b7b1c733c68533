//! The export of one upload's text, and what became of it.

ghost use Rattle.std.specs.Prelude.{◌≡◌, [], ◌∷◌, ℕ, List, Bool, IfErr, IfOk, IfSome, IsErr, IsErrAnd, IsErrOf};
ghost use Rattle.std.specs.Prelude.{IsOkAnd, IsSome, IsSomeAnd, OnErr, OnOk, Some, false, length, string_bytes, true};
ghost use Rattle.std.specs.Io.KnownBytes.{Appends};
ghost use Rattle.common.specs.Given.{MoreReads};
ghost use Rattle.common.specs.declared.stop.Stop.{Stop};
ghost use Rattle.upload_rules.specs.Answers.{Counts, Quiet};
ghost use Rattle.upload_rules.specs.Reading.{text_at};
ghost use Rattle.upload_rules.specs.Store.{upload_of};
ghost use Rattle.upload_rules.specs.World.{World};
ghost use Rattle.gateway_outside.specs.declared.faults.Fault.{Fault};
ghost use Rattle.gateway_outside.specs.Changing.{IsChangeFault};
ghost use Rattle.gateway_outside.specs.Files.{Files};
ghost use Rattle.gateway_export.specs.Exporting.{AllLast, DoneAs, ExportsAs, ExportsOneAs, FailsAs, IsFound, TellsOf};
ghost use Rattle.gateway_export.specs.Exporting.{TakenAs, WroteAs, differs_one, is_amiss, is_other, is_unread};
ghost use Rattle.gateway_export.specs.Exporting.{IsOfFound, ToldOne, outcome_line};
ghost use Rattle.gateway_export.specs.Folders.{HoldsAll, StillLast};
ghost use Rattle.gateway_export.specs.Refused.{IsStop, RefusedAs};
ghost use Rattle.gateway_export.specs.Planning.{job_in};

use crate::comparing::{Likeness, compare_text};
use crate::folders::{Folder, FolderError};
use crate::planning::Job;
use crate::writing::copy_into;
use common::Stop;
use gateway_outside::{Fault, Output, Refused};
use upload_rules::Uploads;

/// What became of an upload.
#[derive(Clone, Copy, Drop)]
pub(crate) enum Outcome<'j> {
    /// Its text was written into this file.
    Exported(&'j str),
    /// It is in this file already, which was synced.
    There(&'j str),
    /// There is such a file, which isn't the text.
    Differs(&'j str),
    /// There is such a file, which couldn't be read or synced.
    Unread(&'j str),
    /// Its text couldn't be written into this file.
    Failed(&'j str),
    /// It isn't complete, and only complete ones were to be written.
    Incomplete,
}

/// Writes a text into a file, where that is to be done, and a line.
pub(crate) fn do_job<'j, W: Output, F: Folder, U: Uploads>(
    writer: &mut W,
    folder: &mut F,
    uploads: &mut U,
    job: &'j Job,
) -> Result<Outcome<'j>, Fault>
    ensures files { (sure : Bool) (w : World) → U.represents uploads.old sure w → (files : Files)
        → F.holds folder.old files
        → IfOk result (λ outcome. ExportsAs sure (is_amiss outcome) (F.holds folder.new) w.store
        (job_in (F.takes folder.old) job.now ∷ []) files) }
    ensures failed { (sure : Bool) (w : World) → U.represents uploads.old sure w → (files : Files)
        → F.holds folder.old files
        → OnErr result (ExportsOneAs sure (F.holds folder.new) w.store (job_in (F.takes folder.old) job.now) files) }
    ensures differs { (w : World) → U.represents uploads.old true w → (files : Files) → F.holds folder.old files
        → IfOk result (λ outcome. TellsOf (is_other outcome) (is_unread outcome)
        (differs_one w.store files (job_in (F.takes folder.old) job.now))) }

    // What is told is so, and its line is printed.
    ensures told { (w : World) → U.represents uploads.old true w → (files : Files) → F.holds folder.old files
        → IfOk result (λ outcome. ToldOne w.store files (job_in (F.takes folder.old) job.now) outcome) }
    ensures line { IfOk result (λ outcome. Appends (W.contents writer.old) (W.contents writer.new)
        (outcome_line job.now.number outcome)) }

    ensures settled { (files : Files) → F.holds folder.old files → IfOk result (λ outcome. is_amiss outcome ≡ false
        → AllLast (F.lasting folder.new) (job_in (F.takes folder.old) job.now ∷ [])) }
    ensures names { F.takes folder.new ≡ F.takes folder.old }
    ensures still { StillLast (F.lasting folder.old) (F.lasting folder.new) }
    ensures preserves { (files : Files) → F.holds folder.old files → HoldsAll (F.holds folder.new) files }
    ensures represents { (sure : Bool) (w : World) → U.represents uploads.old sure w
        → OnOk result (U.represents uploads.new sure w) }
    ensures crash { Quiet (U.moment uploads.old) (U.moment uploads.new) (U.left_only uploads.old)
        (U.left_only uploads.new) }
    ensures refused { IfErr result IsChangeFault }
    ensures counts { Counts (IsErrOf result (Fault.Stop Stop.DiskFault)) (U.failures uploads.old)
        (U.failures uploads.new) }
    ensures reads { MoreReads (U.reads uploads.old) (U.reads uploads.new) }

    // `Io` is answered exactly where the writer or the folder refused, but that a fault's line may be lost.
    ensures io { (sure : Bool) (w : World) → U.represents uploads.old sure w
        → RefusedAs (IsErrOf result Fault.Io) (IsErrAnd result IsStop) (W.refusals writer.old)
        (W.refusals writer.new) (F.refusals folder.old) (F.refusals folder.new) }
    ensures unread { IfOk result (λ outcome. Counts (is_unread outcome ≡ true) (F.unread folder.old)
        (F.unread folder.new)) }
{
    match (export_job(folder, uploads, job), &job.name) {
        (Ok(outcome), _) => {
            report_outcome(writer, job.number, outcome)?;
            Ok(outcome)
        }
        (Err(fault), Some(name)) => {
            // A file that has its name is whole. If this can't be written, only the program's end reports the fault.
            if !folder.is_there(name.as_str()) {
                let failed = Outcome::Failed(name.as_str());
                drop(report_outcome(writer, job.number, failed));
            }
            Err(fault)
        }
        (Err(fault), None) => Err(fault),
    }
}

// Writes a text into a file, where that is to be done.
fn export_job<'j, F: Folder, U: Uploads>(
    folder: &mut F,
    uploads: &mut U,
    job: &'j Job,
) -> Result<Outcome<'j>, Fault>
    ensures files { (sure : Bool) (w : World) → U.represents uploads.old sure w → (files : Files)
        → F.holds folder.old files
        → IfOk result (λ outcome. ExportsAs sure (is_amiss outcome) (F.holds folder.new) w.store
        (job_in (F.takes folder.old) job.now ∷ []) files) }
    ensures failed { (sure : Bool) (w : World) → U.represents uploads.old sure w → (files : Files)
        → F.holds folder.old files
        → OnErr result (ExportsOneAs sure (F.holds folder.new) w.store (job_in (F.takes folder.old) job.now) files) }
    ensures differs { (w : World) → U.represents uploads.old true w → (files : Files) → F.holds folder.old files
        → IfOk result (λ outcome. TellsOf (is_other outcome) (is_unread outcome)
        (differs_one w.store files (job_in (F.takes folder.old) job.now))) }
    ensures told { (w : World) → U.represents uploads.old true w → (files : Files) → F.holds folder.old files
        → IfOk result (λ outcome. ToldOne w.store files (job_in (F.takes folder.old) job.now) outcome) }
    ensures settled { (files : Files) → F.holds folder.old files → IfOk result (λ outcome. is_amiss outcome ≡ false
        → AllLast (F.lasting folder.new) (job_in (F.takes folder.old) job.now ∷ [])) }
    ensures names { F.takes folder.new ≡ F.takes folder.old }
    ensures still { StillLast (F.lasting folder.old) (F.lasting folder.new) }
    ensures preserves { (files : Files) → F.holds folder.old files → HoldsAll (F.holds folder.new) files }
    ensures represents { (sure : Bool) (w : World) → U.represents uploads.old sure w
        → OnOk result (U.represents uploads.new sure w) }
    ensures crash { Quiet (U.moment uploads.old) (U.moment uploads.new) (U.left_only uploads.old)
        (U.left_only uploads.new) }
    ensures refused { IfErr result IsChangeFault }
    ensures counts { Counts (IsErrOf result (Fault.Stop Stop.DiskFault)) (U.failures uploads.old)
        (U.failures uploads.new) }
    ensures reads { MoreReads (U.reads uploads.old) (U.reads uploads.new) }
    ensures io { (sure : Bool) (w : World) → U.represents uploads.old sure w
        → Counts (IsErrOf result Fault.Io) (F.refusals folder.old) (F.refusals folder.new) }
    ensures unread { Counts (IsOkAnd result (λ outcome. is_unread outcome ≡ true)) (F.unread folder.old)
        (F.unread folder.new) }
{
    let Some(name) = &job.name else {
        return Ok(Outcome::Incomplete);
    };
    match export_as(folder, uploads, job.number, name.as_str(), false)? {
        Some(outcome) => Ok(outcome),
        None => export_plain(folder, uploads, job),
    }
}

// Writes a text into the file of its plain name, which the folder has to take.
fn export_plain<'j, F: Folder, U: Uploads>(
    folder: &mut F,
    uploads: &mut U,
    job: &'j Job,
) -> Result<Outcome<'j>, Fault>
    ensures files { (sure : Bool) (w : World) → U.represents uploads.old sure w → (files : Files)
        → F.holds folder.old files
        → IfOk result (λ outcome. ExportsAs sure (is_amiss outcome) (F.holds folder.new) w.store
        ((job.now.number, Some (string_bytes job.now.plain)) ∷ []) files) }
    ensures failed { (sure : Bool) (w : World) → U.represents uploads.old sure w → (files : Files)
        → F.holds folder.old files → OnErr result (ExportsOneAs sure (F.holds folder.new) w.store
        (job.now.number, Some (string_bytes job.now.plain)) files) }
    ensures differs { (w : World) → U.represents uploads.old true w → (files : Files) → F.holds folder.old files
        → IfOk result (λ outcome. TellsOf (is_other outcome) (is_unread outcome)
        (differs_one w.store files (job.now.number, Some (string_bytes job.now.plain)))) }
    ensures told { (w : World) → U.represents uploads.old true w → (files : Files) → F.holds folder.old files
        → IfOk result (λ outcome. ToldOne w.store files (job.now.number, Some (string_bytes job.now.plain)) outcome) }
    ensures settled { (files : Files) → F.holds folder.old files → IfOk result (λ outcome. is_amiss outcome ≡ false
        → F.lasting folder.new (string_bytes job.now.plain)) }
    ensures names { F.takes folder.new ≡ F.takes folder.old }
    ensures still { StillLast (F.lasting folder.old) (F.lasting folder.new) }
    ensures preserves { (files : Files) → F.holds folder.old files → HoldsAll (F.holds folder.new) files }
    ensures represents { (sure : Bool) (w : World) → U.represents uploads.old sure w
        → OnOk result (U.represents uploads.new sure w) }
    ensures crash { Quiet (U.moment uploads.old) (U.moment uploads.new) (U.left_only uploads.old)
        (U.left_only uploads.new) }
    ensures refused { IfErr result IsChangeFault }
    ensures counts { Counts (IsErrOf result (Fault.Stop Stop.DiskFault)) (U.failures uploads.old)
        (U.failures uploads.new) }
    ensures reads { MoreReads (U.reads uploads.old) (U.reads uploads.new) }
    ensures io { (sure : Bool) (w : World) → U.represents uploads.old sure w
        → Counts (IsErrOf result Fault.Io) (F.refusals folder.old) (F.refusals folder.new) }
    ensures unread { Counts (IsOkAnd result (λ outcome. is_unread outcome ≡ true)) (F.unread folder.old)
        (F.unread folder.new) }
{
    match export_as(folder, uploads, job.number, job.plain.as_str(), true)? {
        Some(outcome) => Ok(outcome),
        None => Err(Fault::Io),
    }
}

// Writes a text into the file of this name, where that is to be done. `None` where the folder doesn't take the name,
// unless the text needs it.
fn export_as<'j, F: Folder, U: Uploads>(
    folder: &mut F,
    uploads: &mut U,
    number: u64,
    name: &'j str,
    needed: bool,
) -> Result<Option<Outcome<'j>>, Fault>
    ensures files { (sure : Bool) (w : World) → U.represents uploads.old sure w → (files : Files)
        → F.holds folder.old files
        → IfOk result (DoneAs sure (F.holds folder.new) w.store (number, Some name.now) files) }
    ensures taken { (files : Files) → F.holds folder.old files
        → IfOk result (TakenAs (F.takes folder.old name.now)) }
    ensures failed { (sure : Bool) (w : World) → U.represents uploads.old sure w → (files : Files)
        → F.holds folder.old files
        → OnErr result (FailsAs sure (F.holds folder.new) w.store (number, Some name.now) (F.takes folder.old name.now)
        files) }
    ensures differs { (w : World) → U.represents uploads.old true w → (files : Files) → F.holds folder.old files
        → IfOk result (λ done. IfSome done (λ outcome. TellsOf (is_other outcome) (is_unread outcome)
        (differs_one w.store files (number, Some name.now)))) }
    ensures told { (w : World) → U.represents uploads.old true w → (files : Files) → F.holds folder.old files
        → IfOk result (λ done. IfSome done (ToldOne w.store files (number, Some name.now))) }
    ensures settled { (files : Files) → F.holds folder.old files → IfOk result (λ done. IfSome done (λ outcome.
        is_amiss outcome ≡ false → F.lasting folder.new name.now)) }
    ensures names { F.takes folder.new ≡ F.takes folder.old }
    ensures still { StillLast (F.lasting folder.old) (F.lasting folder.new) }
    ensures preserves { (files : Files) → F.holds folder.old files → HoldsAll (F.holds folder.new) files }
    ensures represents { (sure : Bool) (w : World) → U.represents uploads.old sure w
        → OnOk result (U.represents uploads.new sure w) }
    ensures crash { Quiet (U.moment uploads.old) (U.moment uploads.new) (U.left_only uploads.old)
        (U.left_only uploads.new) }
    ensures refused { IfErr result IsChangeFault }
    ensures counts { Counts (IsErrOf result (Fault.Stop Stop.DiskFault)) (U.failures uploads.old)
        (U.failures uploads.new) }
    ensures reads { MoreReads (U.reads uploads.old) (U.reads uploads.new) }
    ensures needed { needed ≡ true → IfOk result IsSome }
    ensures io { (sure : Bool) (w : World) → U.represents uploads.old sure w
        → Counts (IsErrOf result Fault.Io) (F.refusals folder.old) (F.refusals folder.new) }
    ensures unread { Counts (IsOkAnd result (λ done. IsSomeAnd done (λ outcome. is_unread outcome ≡ true)))
        (F.unread folder.old) (F.unread folder.new) }
{
    if let Some(len) = folder.len_of(name)? {
        let outcome = found(folder, uploads, number, name, len)?;
        return Ok(Some(outcome));
    }
    if write_text(folder, uploads, number, name, needed)? {
        Ok(Some(Outcome::Exported(name)))
    } else {
        Ok(None)
    }
}

// What there is of an upload's text: a file of this name and of so many bytes. If it is the text, it is made to last.
fn found<'j, F: Folder, U: Uploads>(
    folder: &mut F,
    uploads: &mut U,
    number: u64,
    name: &'j str,
    len: u64,
) -> Result<Outcome<'j>, Fault>
    ensures same { (sure : Bool) (w : World) → U.represents uploads.old sure w → (files : Files) (bytes : List ℕ)
        → F.holds folder.old files → files name.now ≡ Some bytes → len ≡ length bytes
        → IfOk result (IsFound sure bytes (text_at w.store (upload_of w.store number))) }
    ensures kind { IfOk result (IsOfFound name.now) }
    ensures settled { (files : Files) → F.holds folder.old files
        → IfOk result (λ outcome. is_amiss outcome ≡ false → F.lasting folder.new name.now) }
    ensures names { F.takes folder.new ≡ F.takes folder.old }
    ensures still { StillLast (F.lasting folder.old) (F.lasting folder.new) }
    ensures preserves { (files : Files) → F.holds folder.old files → F.holds folder.new files }
    ensures represents { (sure : Bool) (w : World) → U.represents uploads.old sure w
        → OnOk result (U.represents uploads.new sure w) }
    ensures crash { Quiet (U.moment uploads.old) (U.moment uploads.new) (U.left_only uploads.old)
        (U.left_only uploads.new) }
    ensures refused { IfErr result IsChangeFault }
    ensures counts { Counts (IsErrOf result (Fault.Stop Stop.DiskFault)) (U.failures uploads.old)
        (U.failures uploads.new) }
    ensures reads { MoreReads (U.reads uploads.old) (U.reads uploads.new) }
    ensures unread { Counts (IsOkAnd result (λ outcome. is_unread outcome ≡ true)) (F.unread folder.old)
        (F.unread folder.new) }
    ensures refusals { F.refusals folder.new ≡ F.refusals folder.old }
    ensures never_io { (sure : Bool) (w : World) → U.represents uploads.old sure w
        → IfErr result (λ fault. fault ≡ Fault.Io → ⊥) }
{
    match compare_text(folder, uploads, number, name, len)? {
        Likeness::Same => settle(folder, name),
        Likeness::Other => Ok(Outcome::Differs(name)),
        Likeness::Unread => Ok(Outcome::Unread(name)),
    }
}

// Makes a file last that is the text.
fn settle<'j, F: Folder>(folder: &mut F, name: &'j str) -> Result<Outcome<'j>, Fault>
    ensures kept { IfOk result (λ outcome. is_other outcome ≡ false) }
    ensures kind { IfOk result (IsOfFound name.now) }
    ensures settled { (files : Files) → F.holds folder.old files
        → IfOk result (λ outcome. is_unread outcome ≡ false → F.lasting folder.new name.now) }
    ensures names { F.takes folder.new ≡ F.takes folder.old }
    ensures still { StillLast (F.lasting folder.old) (F.lasting folder.new) }
    ensures preserves { (files : Files) → F.holds folder.old files → F.holds folder.new files }
    ensures refused { IfErr result (λ fault. fault ≡ Fault.Stop Stop.NoMemory) }
    ensures unread { Counts (IsOkAnd result (λ outcome. is_unread outcome ≡ true)) (F.unread folder.old)
        (F.unread folder.new) }
    ensures refusals { F.refusals folder.new ≡ F.refusals folder.old }
{
    match folder.settle(name) {
        Ok(()) => Ok(Outcome::There(name)),
        // That a file that is there can't be synced is no reason to leave the others.
        Err(FolderError::Refused) => Ok(Outcome::Unread(name)),
        Err(FolderError::NoMemory) => Err(Fault::Stop(Stop::NoMemory)),
    }
}

// Writes a text into a new file, which then has the name. `false` where the folder doesn't take it: then nothing stays.
// That is refused where the text needs the name.
fn write_text<F: Folder, U: Uploads>(
    folder: &mut F,
    uploads: &mut U,
    number: u64,
    name: &str,
    needed: bool,
) -> Result<bool, Fault>
    ensures taken { (files : Files) → F.holds folder.old files
        → IfOk result (λ taken. taken ≡ F.takes folder.old name.now) }
    ensures files { (sure : Bool) (w : World) → U.represents uploads.old sure w → (files : Files)
        → F.holds folder.old files
        → IfOk result (WroteAs sure (F.holds folder.new) w.store (number, Some name.now) files) }
    ensures failed { (sure : Bool) (w : World) → U.represents uploads.old sure w → (files : Files)
        → F.holds folder.old files
        → OnErr result (FailsAs sure (F.holds folder.new) w.store (number, Some name.now) (F.takes folder.old name.now)
        files) }
    ensures settled { (files : Files) → F.holds folder.old files
        → IfOk result (λ taken. taken ≡ true → F.lasting folder.new name.now) }
    ensures names { F.takes folder.new ≡ F.takes folder.old }
    ensures still { StillLast (F.lasting folder.old) (F.lasting folder.new) }
    ensures preserves { (files : Files) → F.holds folder.old files → HoldsAll (F.holds folder.new) files }
    ensures represents { (sure : Bool) (w : World) → U.represents uploads.old sure w
        → OnOk result (U.represents uploads.new sure w) }
    ensures crash { Quiet (U.moment uploads.old) (U.moment uploads.new) (U.left_only uploads.old)
        (U.left_only uploads.new) }
    ensures refused { IfErr result IsChangeFault }
    ensures counts { Counts (IsErrOf result (Fault.Stop Stop.DiskFault)) (U.failures uploads.old)
        (U.failures uploads.new) }
    ensures reads { MoreReads (U.reads uploads.old) (U.reads uploads.new) }
    ensures needed { needed ≡ true → IfOk result (λ taken. taken ≡ true) }
    ensures io { (sure : Bool) (w : World) → U.represents uploads.old sure w
        → Counts (IsErrOf result Fault.Io) (F.refusals folder.old) (F.refusals folder.new) }
    ensures unread { F.unread folder.new ≡ F.unread folder.old }
{
    let mut file = folder.begin()?;
    match copy_into(folder, &mut file, uploads, number) {
        Ok(()) => Ok(folder.end(file, name, needed)?),
        Err(fault) => {
            folder.give_up(file);
            Err(fault)
        }
    }
}

// Prints what became of an upload.
fn report_outcome<W: Output>(writer: &mut W, number: u64, outcome: Outcome) -> Result<(), Refused>
    ensures line { OnOk result (Appends (W.contents writer.old) (W.contents writer.new)
        (outcome_line number outcome.entry)) }
    ensures counts { Counts (IsErr result) (W.refusals writer.old) (W.refusals writer.new) }
{
    match outcome {
        Outcome::Exported(name) => writeln!(writer, "exported {number} {name}"),
        Outcome::There(name) => writeln!(writer, "there {number} {name}"),
        Outcome::Differs(name) => writeln!(writer, "differs {number} {name}"),
        Outcome::Unread(name) => writeln!(writer, "unread {number} {name}"),
        Outcome::Failed(name) => writeln!(writer, "failed {number} {name}"),
        Outcome::Incomplete => writeln!(writer, "incomplete {number}"),
    }
}
