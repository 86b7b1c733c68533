//! A gateway over a spool on a disk.
ghost use Rattle.std.specs.Prelude.{◌≡◌, ◌↔◌, ℕ, Option, true, false, List, Some, IfOk, OnErr};
ghost use Rattle.spool_disk.specs.Disk.{Counts};
ghost use Rattle.spool_disk.specs.Views.{Lasts};
ghost use Rattle.spool_image.specs.LeftOnly.{AllShow, IsSpool, LeftOrShows, SpoolLeft};
ghost use Rattle.spool_image.specs.Opening.{OpensBy, OpensExactly, ReadsBy, ReadsSame, Unwritten, open_refusal_of};
ghost use Rattle.spool_image.specs.Spool.{IsOpenFault, SpoolHasView, OpensAs, SpoolRepresents, disk_of};
ghost use Rattle.spool_catalog.specs.Shows.{Shows};
ghost use Rattle.spool_pages.specs.View.{View};
ghost use Rattle.upload_rules.specs.Store.{Store};
ghost use Rattle.upload_rules.specs.World.{at_rest};
ghost use Rattle.upload_rules.specs.Answers.{Quiet};
ghost use Rattle.tus_session.specs.History.{State, beginning};
ghost use Rattle.gateway_engine.specs.Gateways.{GatewayRepresents, disk_in, size_in, gateway_disk_after, is_down};
ghost use Rattle.gateway_engine.specs.Gateways.{store_of};
ghost use Rattle.gateway_script.specs.Script.{IsScript};
ghost use Rattle.gateway_engine.specs.Ran.{CountsEither, HasFailed, HasRefused, handed_back};
ghost use Rattle.gateway_engine.specs.RanOn.{HasRunOn, WritesRun};
ghost use Rattle.gateway_engine.specs.RanFrom.{HasFailedOn, HasRefusedOn, HasRunFrom, RunsBy, WritesOpened};
ghost use Rattle.gateway_engine.specs.RanFrom.{WritesOver, disk_back, opening_in};

use crate::faults::RunFault;
use crate::gateway::Gateway;
use crate::scripts::run_over;
use common::Stop;
use gateway_script::{CountedRead, CountedWrite, ScriptFault};
use spool_disk::Disk;
use spool_image::{OpenFault, Spool};
use std::alloc::Global;
use upload_rules::Uploads;

impl<D: Disk> Gateway<Spool<D>> {
    /// Opens the spool on a disk: no connection is open.
    ///
    /// # Errors
    ///
    /// As `Spool::open`, and the disk comes back with each.
    pub fn open(alloc: Global, disk: D) -> Result<Self, (D, OpenFault)>
        ensures size { D.size (gateway_disk_after result) ≡ D.size disk }
        ensures honest { D.honest disk ↔ D.honest (gateway_disk_after result) }
        ensures counts { Counts (IsOpenFault result) (D.failures disk) (D.failures (gateway_disk_after result)) }

        // A disk of which a read shows uploads is opened, and no event came so far, or memory or the disk refuses it.
        ensures opened { (n : ℕ) (m : Store) → IsSpool D.Disk disk n m
            → OpensAs result (λ g. GatewayRepresents ⟦<Spool<D> as Uploads>⟧ g true (beginning m (Some n))) }

        // On any disk its spool's catalog has a view, which shows uploads, and it represents these.
        ensures view { IfOk result (λ g. (v : View) × (m : Store) × SpoolHasView (store_of g) v × Shows v m) }
        ensures represents_view { (v : View) (m : Store) → Shows v m
            → IfOk result (λ g. SpoolHasView (store_of g) v
            → GatewayRepresents ⟦<Spool<D> as Uploads>⟧ g false (beginning m (Some v.blocks))) }

        // What is opened is a valid spool. Each refusal has its reason, and each reason is answered so.
        ensures exact { D.honest disk → OpensExactly (D.size disk) (D.current disk) (open_refusal_of result) }

        // On any disk the answer follows in the same way from the bytes that the reads gave, and so does the view in
        // memory.
        ensures given { ReadsBy (D.reads disk) (D.reads (gateway_disk_after result))
            (OpensBy (λ g. SpoolHasView (store_of g)) (D.size disk) result) }

        // Where no journal is to be replayed nothing is written.
        ensures unwritten { D.honest disk → Unwritten D.Disk disk (gateway_disk_after result) }
        ensures same { D.honest disk → ReadsSame D.Disk disk (gateway_disk_after result) (IsOpenFault result) }

        // After an opening every image shows the uploads that a read showed.
        ensures shows { (n : ℕ) (m : Store) → IsSpool D.Disk disk n m
            → IfOk result (λ g. AllShow D.Disk (disk_in g) n m) }
        ensures up { IfOk result (λ g. is_down g ≡ false) }

        // A crash during it leaves what it might have left before, or what shows the same uploads and so many blocks.
        ensures lasts { (n : ℕ) (m : Store) → IsSpool D.Disk disk n m
            → Lasts D.Disk disk (gateway_disk_after result) (LeftOrShows D.Disk disk n m) }
    {
        let spool = Spool::open(alloc, disk)?;
        match Gateway::new(alloc, spool) {
            Ok(gateway) => Ok(gateway),
            Err((spool, _)) => Err((spool.into_disk(), OpenFault::Stop(Stop::NoMemory))),
        }
    }

    /// Ends the session: the drafts that are open are dropped. The disk has the uploads.
    pub fn into_disk(self) -> D
        ensures shows { (st : State) (n : ℕ) → GatewayRepresents ⟦<Spool<D> as Uploads>⟧ self true st
            → st.world.blocks ≡ Some n → AllShow D.Disk result n st.world.store }
        ensures crash { Quiet (D.moment (disk_in self)) (D.moment result)
            (SpoolLeft D.Disk (disk_in self) (size_in self)) (SpoolLeft D.Disk result (size_in self)) }
        ensures counts { D.failures result ≡ D.failures (disk_in self) }
    {
        self.close().into_disk()
    }
}

/// Runs a script from `reader` over an opened spool, and writes to `writer` what its calls give. The disk is handed
/// back.
///
/// The script is read whole before its first line is run.
///
/// Refused with `Stop` if a growth outside the calls was refused or the disk failed, with `Script` of the first line
/// that is none or too long, and with `Io`. What was committed and written before stays.
pub fn run_opened<D: Disk, R: CountedRead, W: CountedWrite>(
    alloc: Global,
    reader: &mut R,
    writer: &mut W,
    spool: Spool<D>,
) -> Result<D, (D, ScriptFault)>
    // On any disk: the exit and the output are those of the script, with a mark for each call, over the uploads that
    // the spool represents, which its opening read. Of a text only the number of its bytes is promised here.
    ensures writes { (m : Store) (blocks : Option ℕ) → SpoolRepresents spool false (at_rest m blocks)
        → (script : List ℕ) × IsScript (R.remaining reader.old) script
        × WritesRun result (W.contents writer.new) (W.contents writer.old) (beginning m blocks) script }

    // If the disk is known to be honest and to hold the uploads, the bytes of texts are the texts', and images show the
    // uploads of the script's history, at every moment since.
    ensures runs { (m : Store) (n : ℕ) → SpoolRepresents spool true (at_rest m (Some n))
        → (script : List ℕ) × IsScript (R.remaining reader.old) script
        × HasRunOn D.Disk (disk_of spool) result (W.contents writer.new) (W.contents writer.old) n
        (beginning m (Some n)) script }
    ensures counts { Counts (HasFailed result) (D.failures (disk_of spool)) (D.failures (handed_back result)) }

    // `Io` exactly where the reader or the writer refused a call.
    ensures io { CountsEither (HasRefused result) (R.refusals reader.old) (R.refusals reader.new)
        (W.refusals writer.old) (W.refusals writer.new) }
{
    match run_over(alloc, reader, writer, spool) {
        Ok(spool) => Ok(spool.into_disk()),
        Err((spool, fault)) => Err((spool.into_disk(), fault)),
    }
}

/// Opens the spool on a disk, runs a script from `reader` over it, and writes to `writer` what its calls give. The disk
/// is handed back.
///
/// The script is read whole before its first line is run, and after the opening.
///
/// Refused with `Open` where the disk isn't opened, for the reason that `Spool::open` has, and then with `Script`, as
/// `run_opened`. What was committed and written before stays.
pub fn run<D: Disk, R: CountedRead, W: CountedWrite>(
    alloc: Global,
    reader: &mut R,
    writer: &mut W,
    disk: D,
) -> Result<D, (D, RunFault)>
    // Over a disk of which a read shows uploads: the exit and the output are the script's, with a mark for each call,
    // and images show the uploads of its history, from the moment before the opening on.
    ensures runs { (n : ℕ) (m : Store) → IsSpool D.Disk disk n m
        → (script : List ℕ) × IsScript (R.remaining reader.old) script
        × HasRunFrom D.Disk disk result (W.contents writer.new) (W.contents writer.old) n (beginning m (Some n))
        script }

    // On any disk that is opened: a view was read, which shows uploads, and over these the exit and the output are the
    // script's. Of a text only the number of its bytes is promised here.
    ensures writes { WritesOpened result (R.remaining reader.old) (W.contents writer.new) (W.contents writer.old) }

    // On any disk the opening answers by what its reads gave: the view, over whose uploads the exit and the output are
    // the script's, or the refusal.
    ensures given { RunsBy D.Disk disk result
        (WritesOver result (R.remaining reader.old) (W.contents writer.new) (W.contents writer.old)) }

    // What is opened is a valid spool. Each refusal to open has its reason, and each reason is answered so.
    ensures exact { D.honest disk → OpensExactly (D.size disk) (D.current disk)
        (open_refusal_of (opening_in result)) }

    // Where the disk isn't opened, neither the reader nor the writer was called.
    ensures unopened { OnErr (opening_in result) ((reader.new ≡ reader.old) × (writer.new ≡ writer.old)) }

    // And it comes back as its opening left it: where no journal is to be replayed nothing is written to it.
    ensures size { OnErr (opening_in result) (D.size (disk_back result) ≡ D.size disk) }
    ensures honest { OnErr (opening_in result) (D.honest disk ↔ D.honest (disk_back result)) }
    ensures unwritten { D.honest disk → OnErr (opening_in result) (Unwritten D.Disk disk (disk_back result)) }
    ensures same { D.honest disk
        → OnErr (opening_in result) (ReadsSame D.Disk disk (disk_back result) (HasFailedOn result)) }

    // The disk failed exactly where the answer is a disk fault.
    ensures counts { Counts (HasFailedOn result) (D.failures disk) (D.failures (disk_back result)) }

    // `Io` exactly where the reader or the writer refused a call.
    ensures io { CountsEither (HasRefusedOn result) (R.refusals reader.old) (R.refusals reader.new)
        (W.refusals writer.old) (W.refusals writer.new) }
{
    let spool = match Spool::open(alloc, disk) {
        Ok(spool) => spool,
        Err((disk, fault)) => return Err((disk, RunFault::Open(fault))),
    };
    match run_opened(alloc, reader, writer, spool) {
        Ok(disk) => Ok(disk),
        Err((disk, fault)) => Err((disk, RunFault::Script(fault))),
    }
}
