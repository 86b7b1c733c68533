//! The texts of a spool's uploads, written into files.

ghost use Rattle.std.specs.Prelude.{◌≡◌, [], ◌∷◌, ℕ, Bool, Err, IfErr, IfOk, IsErr, IsErrAnd, IsErrOf, IsOk, OnOk};
ghost use Rattle.std.specs.Prelude.{◌||◌, ◌+◌, ◌<◌, ◌^◌, false, map, true};
ghost use Rattle.std.specs.Io.KnownBytes.{Appends};
ghost use Rattle.common.specs.Given.{MoreReads};
ghost use Rattle.common.specs.declared.stop.Stop.{Stop};
ghost use Rattle.upload_rules.specs.Answers.{Counts, Quiet};
ghost use Rattle.upload_rules.specs.Store.{Store};
ghost use Rattle.upload_rules.specs.World.{World};
ghost use Rattle.spool_load.specs.Refusals.{HasOtherVersion, IsDamaged, IsNoSpool};
ghost use Rattle.spool_image.specs.LeftOnly.{AllShow, IsSpool};
ghost use Rattle.spool_image.specs.Opening.{OpeningReadsBy};
ghost use Rattle.gateway_outside.specs.declared.faults.Fault.{Fault};
ghost use Rattle.gateway_outside.specs.Changing.{IsChangeResult, IsChangeFault};
ghost use Rattle.gateway_outside.specs.Files.{Files};
ghost use Rattle.gateway_outside.specs.Leaving.{LeavesOne};
ghost use Rattle.gateway_outside.specs.InOrder.{IsInOrder};
ghost use Rattle.gateway_outside.specs.Listing.{AnswersAs, ListRefusedFor, RefusesListAs};
ghost use Rattle.gateway_export.specs.Exporting.{AllLast, Exports, ExportsAs, ExportsSome, ExportsSomeAs, HoldsEach};
ghost use Rattle.gateway_export.specs.Exporting.{TellsOf, exported, is_other, is_unread, some_amiss, some_differ};
ghost use Rattle.gateway_export.specs.Exporting.{Tells, TellsEach, is_exported, is_there, one_if, summary_line};
ghost use Rattle.gateway_export.specs.Folders.{HoldsAll, StillLast};
ghost use Rattle.gateway_export.specs.Refused.{IsStop, RefusedAs, UnreadAs};
ghost use Rattle.gateway_export.specs.Planning.{job_in, jobs_of};

use crate::folders::Folder;
use crate::outcomes::{Outcome, do_job};
use crate::planning::{Job, plan};
use gateway_outside::{Fault, Output, Refused};
use spool_disk::Disk;
use spool_image::Spool;
use std::alloc::Global;
use upload_rules::Uploads;

/// Writes the text of each complete upload of the spool on a disk, or of each upload, into a file of a folder, and a
/// line for each upload. The disk is handed back.
pub fn export_on<D: Disk + Drop, F: Folder, W: Output>(
    alloc: Global,
    writer: &mut W,
    folder: &mut F,
    disk: D,
    all: bool,
) -> (D, Result<ExportTally, Fault>)
    // The folder holds each text that is to be written, exactly, in a file of its name, where there was none. What it
    // held before stays, also where it is refused.
    ensures files { (n : ℕ) (m : Store) → IsSpool D.Disk disk n m → (files : Files) → F.holds folder.old files
        → OnOk result.1 (F.holds folder.new (exported m files (jobs_of (F.takes folder.old) all m))) }
    ensures texts { (n : ℕ) (m : Store) → IsSpool D.Disk disk n m → (files : Files) → F.holds folder.old files
        → OnOk result.1 (Exports (F.holds folder.new) m (jobs_of (F.takes folder.old) all m) files) }
    ensures preserves { (files : Files) → F.holds folder.old files → HoldsAll (F.holds folder.new) files }
    ensures still { StillLast (F.lasting folder.old) (F.lasting folder.new) }

    // If no file differs and none is unread, every text is in its file, byte for byte, and lasts: written now, or
    // compared and synced.
    ensures each { (n : ℕ) (m : Store) → IsSpool D.Disk disk n m → (files : Files) → F.holds folder.old files
        → IfOk result.1 (λ done. some_amiss done ≡ false
        → HoldsEach (F.holds folder.new) (F.lasting folder.new) m (jobs_of (F.takes folder.old) all m)) }

    // However it ends, no file of an upload's name has a part of a text: the folder holds what it does after some of
    // the uploads.
    ensures whole { (n : ℕ) (m : Store) → IsSpool D.Disk disk n m → (files : Files) → F.holds folder.old files
        → ExportsSome (F.holds folder.new) m (jobs_of (F.takes folder.old) all m) files }

    // `differs` is whether a file that was there isn't its upload's text: never if none is another, and exactly so if
    // none is unread.
    ensures differs { (n : ℕ) (m : Store) → IsSpool D.Disk disk n m → (files : Files) → F.holds folder.old files
        → IfOk result.1 (λ done. TellsOf done.differs done.unread
        (some_differ m files (jobs_of (F.takes folder.old) all m))) }

    // What is printed is a line of each upload, by the files when it is its turn, and one of all, with their counts.
    ensures tells { (n : ℕ) (m : Store) → IsSpool D.Disk disk n m → (files : Files) → F.holds folder.old files
        → IfOk result.1 (Tells m files (jobs_of (F.takes folder.old) all m) (W.contents writer.old)
        (W.contents writer.new)) }

    // The disk shows the same uploads still, and a crash at any moment of it leaves them.
    ensures shows { (n : ℕ) (m : Store) → IsSpool D.Disk disk n m → IsOk result.1 → AllShow D.Disk result.0 n m }
    ensures lasts { (n : ℕ) (m : Store) → IsSpool D.Disk disk n m → LeavesOne D.Disk disk result.0 n m (m ∷ []) }

    // A spool's texts are written, unless memory, the disk, the folder or the writer refuses it.
    ensures exports { (n : ℕ) (m : Store) → IsSpool D.Disk disk n m → IsChangeResult result.1 }

    // On any disk it answers by what the opening's reads gave: for the uploads of the view that they encode.
    ensures given { OpeningReadsBy (D.reads disk) (D.reads result.0) (AnswersAs
        (λ m. (files : Files) → F.holds folder.old files → ExportsAs false true (F.holds folder.new) m
        (jobs_of (F.takes folder.old) all m) files) (D.size disk) result.1) }

    // Each refusal has its reason, and each reason is answered so, unless memory or the disk refuses it.
    ensures refused { D.honest disk → IfErr result.1 (ListRefusedFor (D.size disk) (D.current disk)) }
    ensures not_a_spool { D.honest disk → IsNoSpool (D.size disk) (D.current disk)
        → RefusesListAs result.1 Fault.NotASpool }
    ensures version { D.honest disk → HasOtherVersion (D.size disk) (D.current disk)
        → RefusesListAs result.1 Fault.Version }
    ensures damaged { D.honest disk → IsDamaged (D.size disk) (D.current disk) → RefusesListAs result.1 Fault.Damaged }
    ensures counts { Counts (result.1 ≡ Err (Fault.Stop Stop.DiskFault)) (D.failures disk) (D.failures result.0) }

    // `Io` is answered exactly where the writer or the folder refused, but that a fault's line may be lost. `unread` is
    // whether the folder refused to read or sync a file that was there.
    ensures io { RefusedAs (IsErrOf result.1 Fault.Io) (IsErrAnd result.1 IsStop) (W.refusals writer.old)
        (W.refusals writer.new) (F.refusals folder.old) (F.refusals folder.new) }
    ensures unread { UnreadAs result.1 (F.unread folder.old) (F.unread folder.new) }
{
    match Spool::open(alloc, disk) {
        Ok(mut spool) => {
            let exported = export_uploads(alloc, writer, folder, &mut spool, all);
            (spool.into_disk(), exported)
        }
        Err((disk, fault)) => (disk, Err(Fault::from(fault))),
    }
}

/// Writes the text of each complete upload, or of all, into a file of a folder, and a line for each upload. The names
/// are made before the first file.
///
/// Refused with `NoMemory`, `DiskFault` or `Io` at one of them: the files of those before it are written.
pub fn export_uploads<W: Output, F: Folder, U: Uploads>(
    alloc: Global,
    writer: &mut W,
    folder: &mut F,
    uploads: &mut U,
    all: bool,
) -> Result<ExportTally, Fault>
    // On any disk, for the uploads that they represent: the folder holds a file of each text that is to be written,
    // where there was none of its name. It has as many bytes as the text, and is the text if that is sure; so is each
    // file that was there, unless one differs or is unread.
    ensures files { (sure : Bool) (w : World) → U.represents uploads.old sure w → IsInOrder w.store → (files : Files)
        → F.holds folder.old files → IfOk result (λ done. ExportsAs sure (some_amiss done) (F.holds folder.new) w.store
        (jobs_of (F.takes folder.old) all w.store) files) }

    // However it ends, the folder holds what it does after some of the uploads, and each file that was there.
    ensures whole { (sure : Bool) (w : World) → U.represents uploads.old sure w → IsInOrder w.store → (files : Files)
        → F.holds folder.old files
        → ExportsSomeAs sure (F.holds folder.new) w.store (jobs_of (F.takes folder.old) all w.store) files }
    ensures preserves { (files : Files) → F.holds folder.old files → HoldsAll (F.holds folder.new) files }

    // `differs` is whether a file that was there isn't its upload's text, as far as they were read. If none differs and
    // none is unread, all their files last.
    ensures differs { (w : World) → U.represents uploads.old true w → IsInOrder w.store → (files : Files)
        → F.holds folder.old files
        → IfOk result (λ done. TellsOf done.differs done.unread
        (some_differ w.store files (jobs_of (F.takes folder.old) all w.store))) }
    ensures settled { (sure : Bool) (w : World) → U.represents uploads.old sure w → IsInOrder w.store
        → (files : Files) → F.holds folder.old files → IfOk result (λ done. some_amiss done ≡ false
        → AllLast (F.lasting folder.new) (jobs_of (F.takes folder.old) all w.store)) }
    ensures still { StillLast (F.lasting folder.old) (F.lasting folder.new) }

    // What is printed is a line of each upload, by the files when it is its turn, and one of all, with their counts.
    ensures tells { (w : World) → U.represents uploads.old true w → IsInOrder w.store → (files : Files)
        → F.holds folder.old files
        → IfOk result (Tells w.store files (jobs_of (F.takes folder.old) all w.store) (W.contents writer.old)
        (W.contents writer.new)) }

    // The uploads stay as they are, and whatever a crash may leave.
    ensures represents { (sure : Bool) (w : World) → U.represents uploads.old sure w
        → OnOk result (U.represents uploads.new sure w) }
    ensures crash { Quiet (U.moment uploads.old) (U.moment uploads.new) (U.left_only uploads.old)
        (U.left_only uploads.new) }
    ensures refused { IfErr result IsChangeFault }
    ensures counts { Counts (IsErrOf result (Fault.Stop Stop.DiskFault)) (U.failures uploads.old)
        (U.failures uploads.new) }
    ensures reads { MoreReads (U.reads uploads.old) (U.reads uploads.new) }

    // `Io` is answered exactly where the writer or the folder refused, but that a fault's line may be lost. `unread` is
    // whether the folder refused to read or sync a file that was there.
    ensures io { (sure : Bool) (w : World) → U.represents uploads.old sure w
        → RefusedAs (IsErrOf result Fault.Io) (IsErrAnd result IsStop) (W.refusals writer.old)
        (W.refusals writer.new) (F.refusals folder.old) (F.refusals folder.new) }
    ensures unread { UnreadAs result (F.unread folder.old) (F.unread folder.new) }
{
    let jobs = plan(alloc, uploads, folder, all)?;
    let done = do_jobs(writer, folder, uploads, &jobs)?;
    report_done(writer, done, jobs.len())?;
    Ok(done)
}

/// What an export came to.
#[derive(Clone, Copy, Debug, PartialEq, Eq, Drop)]
pub struct ExportTally {
    /// How many texts were written.
    pub exported: u64,
    /// How many were in their files already.
    pub there: u64,
    /// A file that was there isn't its upload's text.
    pub differs: bool,
    /// A file that was there couldn't be read or synced.
    pub unread: bool,
}

// Writes texts into files, and a line for each upload.
fn do_jobs<W: Output, F: Folder, U: Uploads>(
    writer: &mut W,
    folder: &mut F,
    uploads: &mut U,
    jobs: &[Job],
) -> Result<ExportTally, Fault>
    ensures files { (sure : Bool) (w : World) → U.represents uploads.old sure w → (files : Files)
        → F.holds folder.old files → IfOk result (λ done. ExportsAs sure (some_amiss done) (F.holds folder.new) w.store
        (map (job_in (F.takes folder.old)) jobs.now) files) }
    ensures whole { (sure : Bool) (w : World) → U.represents uploads.old sure w → (files : Files)
        → F.holds folder.old files
        → ExportsSomeAs sure (F.holds folder.new) w.store (map (job_in (F.takes folder.old)) jobs.now) files }
    ensures differs { (w : World) → U.represents uploads.old true w → (files : Files) → F.holds folder.old files
        → IfOk result (λ done. TellsOf done.differs done.unread
        (some_differ w.store files (map (job_in (F.takes folder.old)) jobs.now))) }
    ensures settled { (files : Files) → F.holds folder.old files → IfOk result (λ done. some_amiss done ≡ false
        → AllLast (F.lasting folder.new) (map (job_in (F.takes folder.old)) jobs.now)) }
    ensures tells { (w : World) → U.represents uploads.old true w → (files : Files) → F.holds folder.old files
        → IfOk result (λ done. TellsEach w.store files (map (job_in (F.takes folder.old)) jobs.now)
        (W.contents writer.old) (W.contents writer.new) done.exported done.there) }
    ensures still { StillLast (F.lasting folder.old) (F.lasting folder.new) }
    ensures preserves { (files : Files) → F.holds folder.old files → HoldsAll (F.holds folder.new) files }
    ensures represents { (sure : Bool) (w : World) → U.represents uploads.old sure w
        → OnOk result (U.represents uploads.new sure w) }
    ensures crash { Quiet (U.moment uploads.old) (U.moment uploads.new) (U.left_only uploads.old)
        (U.left_only uploads.new) }
    ensures refused { IfErr result IsChangeFault }
    ensures counts { Counts (IsErrOf result (Fault.Stop Stop.DiskFault)) (U.failures uploads.old)
        (U.failures uploads.new) }
    ensures reads { MoreReads (U.reads uploads.old) (U.reads uploads.new) }
    ensures io { (sure : Bool) (w : World) → U.represents uploads.old sure w
        → RefusedAs (IsErrOf result Fault.Io) (IsErrAnd result IsStop) (W.refusals writer.old)
        (W.refusals writer.new) (F.refusals folder.old) (F.refusals folder.new) }
    ensures unread { UnreadAs result (F.unread folder.old) (F.unread folder.new) }
{
    let mut done = ExportTally {
        exported: 0,
        there: 0,
        differs: false,
        unread: false,
    };
    // so few that they can be counted
    let _few = jobs.len();
    for job in jobs {
        let outcome = do_job(writer, folder, uploads, job)?;
        done = done.and(outcome);
    }
    Ok(done)
}

impl ExportTally {
    // With one upload more.
    fn and(self, outcome: Outcome) -> Self
        ensures differs { result.differs ≡ (self.differs || is_other outcome.entry) }
        ensures unread { result.unread ≡ (self.unread || is_unread outcome.entry) }
        ensures exported { self.exported + 1 < 2 ^ 64
            → result.exported ≡ self.exported + one_if (is_exported outcome.entry) }
        ensures there { self.there + 1 < 2 ^ 64 → result.there ≡ self.there + one_if (is_there outcome.entry) }
    {
        ExportTally {
            exported: self
                .exported
                .saturating_add(matches!(outcome, Outcome::Exported(_)) as u64),
            there: self
                .there
                .saturating_add(matches!(outcome, Outcome::There(_)) as u64),
            differs: self.differs || matches!(outcome, Outcome::Differs(_)),
            unread: self.unread || matches!(outcome, Outcome::Unread(_)),
        }
    }
}

// Prints how many texts were written, of how many uploads, how many were there, and whether a file isn't its text.
fn report_done<W: Output>(writer: &mut W, done: ExportTally, uploads: usize) -> Result<(), Refused>
    ensures line { OnOk result (Appends (W.contents writer.old) (W.contents writer.new)
        (summary_line done.exported uploads done.there done.differs)) }
    ensures counts { Counts (IsErr result) (W.refusals writer.old) (W.refusals writer.new) }
{
    let ExportTally {
        exported,
        there,
        differs,
        unread: _,
    } = done;
    if differs {
        return writeln!(
            writer,
            "exported {exported} of {uploads} uploads, {there} there; a file that was there isn't the text of its \
            upload"
        );
    }
    writeln!(
        writer,
        "exported {exported} of {uploads} uploads, {there} there"
    )
}
