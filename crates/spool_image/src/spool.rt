//! The store of uploads on a disk.
ghost use Rattle.std.specs.Prelude.{◌≡◌, ◌≤◌, ◌*◌, ◌↔◌, ℕ, false, true, Some, IfOk, IfErr};
ghost use Rattle.spool_disk.specs.Disk.{Counts};
ghost use Rattle.spool_journal.specs.declared.TheConstants.{PAGE};
ghost use Rattle.spool_disk.specs.Views.{Lasts};
ghost use Rattle.spool_journal.specs.Image.{journal_pages, all_pages};
ghost use Rattle.spool_journal.specs.Phases.{Idle};
ghost use Rattle.upload_rules.specs.Store.{Store};
ghost use Rattle.upload_rules.specs.World.{at_rest};
ghost use Rattle.spool_kept.proofs.Facts.{fits_prop};
ghost use Rattle.spool_kept.specs.Drafting.{DraftsFit};
ghost use Rattle.spool_catalog.specs.Shows.{IsValid, Shows};
ghost use Rattle.spool_pages.specs.View.{View, IsViewOf};
ghost use Rattle.spool_load.specs.Refusals.{IsNoSpool, HasOtherVersion, IsDamaged, RefusedFor};
ghost use Rattle.spool_image.specs.LeftOnly.{AllShow, IsSpool, LeftOrShows};
ghost use Rattle.spool_image.specs.Opening.{OpensBy, ReadsBy, ReadsSame, Unwritten};

use common::Stop;
use enc_index::IndexSet;
use spool_catalog::{Catalog, OpenFault};
use spool_disk::Disk;
use spool_drafts::SpoolDraft;
use spool_journal::PAGE;
use spool_kept::{append, begin, commit, create, drop_open, terminate};
use spool_load::load;
use spool_pages::Version;
use std::alloc::Global;
use upload_rules::{New, Record, UploadError, Uploads};

/// The uploads on a disk, with the appends that are under way. After a `DiskFault` it represents no uploads any more:
/// drafts can be dropped, and the disk can be taken back and opened again.
///
/// An upload of five bytes, received in two pieces and committed at once. The disk has 557 pages, and `new` has the
/// fields of the upload:
///
/// ```
/// format(&mut disk, 16, &indexes).expect(rt, "a long disk");
/// let mut spool = Spool::open(alloc, disk).ok().expect(rt, "a spool");
/// let number = spool.create(new).expect(rt, "a free slot");
/// let mut draft = spool.begin(number, 0, 5, None).expect(rt, "a draft");
/// spool.append(&mut draft, b"hel").expect(rt, "room");
/// spool.append(&mut draft, b"lo").expect(rt, "room");
/// assert_eq!(rt; spool.commit(draft), Ok(5));
/// let mut text = [0; 5];
/// assert_eq!(rt; spool.read_text(number, 0, &mut text), Ok(5));
/// let disk = spool.into_disk();
/// assert_eq!(rt; text, *b"hello");
/// ```
pub struct Spool<D: Disk> {
    alloc: Global,
    disk: D,
    catalog: Catalog,
    /// By their numbers.
    drafts: Vec<Option<SpoolDraft>>,
    ghost room: { PAGE * all_pages catalog.layout ≤ D.size disk },
    ghost fits: { DraftsFit catalog drafts.items } by { fits_prop catalog drafts.items },
}

/// A draft of a spool: the number of its append. See [`Spool`].
pub struct SpoolAppend {
    number: usize,
}

impl<D: Disk> Spool<D> {
    ghost use Rattle.spool_image.specs.Spool.{disk_of, block_count_of, disk_after, SpoolHasView, SpoolRepresents};
    ghost use Rattle.spool_image.specs.Spool.{IsOpenFault, OpensAs, OpensFrom, RefusesAs};

    /// Opens a spool, and recovers it if a crash interrupted a commit. A crash during it does no harm: it may be called
    /// again.
    ///
    /// A disk of zeros is refused with an [`OpenFault`]:
    ///
    /// ```
    /// let (disk, fault) = match Spool::open(alloc, disk) {
    ///     Ok(_spool) => panic!(rt; "it is opened"),
    ///     Err(refused) => refused,
    /// };
    /// assert_eq!(rt; fault, OpenFault::NotASpool);
    /// assert_eq!(rt; disk.len(), 557 * 4096);
    /// ```
    ///
    /// # Errors
    ///
    /// The disk is returned with each. `NotASpool` if the first 12 bytes aren't a spool's or the disk is shorter than
    /// its layout; then those of `recover`; then `Version` if the version is unknown; then `Damaged` if the spool is
    /// invalid. `NoMemory` when out of memory, and `DiskFault` at a disk fault.
    ///
    /// A spool is invalid if a byte that has to be 0 isn't, the index area isn't that of a set, the next number is out
    /// of range, a number occurs twice or isn't below the next one, a length is out of range, state bytes are invalid
    /// or don't fit the counts, metadata isn't printable ASCII, a row's slot is free, or a slot's ordinals aren't those
    /// of its text.
    pub fn open(alloc: Global, disk: D) -> Result<Spool<D>, (D, OpenFault)>
        ensures size { D.size (disk_after result) ≡ D.size disk }
        ensures honest { D.honest disk ↔ D.honest (disk_after result) }
        ensures counts { Counts (IsOpenFault result) (D.failures disk) (D.failures (disk_after result)) }

        // If a read gives a valid spool, that one is opened, unless memory or the disk refuses.
        ensures opened { D.honest disk → (v : View) → IsValid v → IsViewOf (D.current disk) v
            → PAGE * all_pages v.blocks ≤ D.size disk → OpensAs result (λ s. SpoolHasView s v) }

        // What is opened is a valid spool, and it is what a read gives. Each error has its reason.
        ensures valid { D.honest disk → IfOk result (OpensFrom (D.size disk) (D.current disk)) }
        ensures refused { D.honest disk → IfErr result (λ e. RefusedFor (D.size disk) (D.current disk) e.1) }

        // On any disk the answer follows from the bytes that the reads gave, in the same way.
        ensures given { ReadsBy (D.reads disk) (D.reads (disk_after result))
            (OpensBy SpoolHasView (D.size disk) result) }

        // Each reason leads to its error, unless memory or the disk refuses. No two reasons hold, and none of a valid
        // spool.
        ensures not_a_spool { D.honest disk → IsNoSpool (D.size disk) (D.current disk)
            → RefusesAs result OpenFault.NotASpool }
        ensures version { D.honest disk → HasOtherVersion (D.size disk) (D.current disk)
            → RefusesAs result OpenFault.Version }
        ensures damaged { D.honest disk → IsDamaged (D.size disk) (D.current disk)
            → RefusesAs result OpenFault.Damaged }

        // Without a journal to replay nothing is written: every crash image is one of before, and a read gives the
        // same.
        ensures unwritten { D.honest disk → Unwritten D.Disk disk (disk_after result) }
        ensures same { D.honest disk → ReadsSame D.Disk disk (disk_after result) (IsOpenFault result) }

        // A commit may follow.
        ensures idle { D.honest disk → IfOk result
            (λ s. Idle (journal_pages (block_count_of s)) (D.current (disk_of s)) (D.unsynced (disk_of s))) }

        // A crash leaves an image of before, or one that shows the same uploads and block count.
        ensures lasts { (n : ℕ) (m : Store) → IsSpool D.Disk disk n m
            → Lasts D.Disk disk (disk_after result) (LeftOrShows D.Disk disk n m) }

        // Once it is opened, every crash image shows them.
        ensures shows { (n : ℕ) (m : Store) → IsSpool D.Disk disk n m
            → IfOk result (λ s. AllShow D.Disk (disk_of s) n m) }

        // It represents these uploads, with no append under way.
        ensures represents { (n : ℕ) (m : Store) → IsSpool D.Disk disk n m
            → IfOk result (λ s. SpoolRepresents s true (at_rest m (Some n))) }

        // On any disk its catalog has a view, which shows uploads, and it represents these.
        ensures view { IfOk result (λ s. (v : View) × (m : Store) × SpoolHasView s v × Shows v m) }
        ensures represents_view { (v : View) (m : Store) → Shows v m
            → IfOk result (λ s. SpoolHasView s v → SpoolRepresents s false (at_rest m (Some v.blocks))) }
    {
        let mut disk = disk;
        match load(alloc, &mut disk) {
            Ok(catalog) => Ok(Spool {
                alloc,
                disk,
                catalog,
                drafts: Vec::new(alloc),
            }),
            Err(fault) => Err((disk, fault)),
        }
    }

    /// How many text blocks it has.
    pub fn blocks(&self) -> u32
        ensures { result ≡ block_count_of self.now }
    {
        self.catalog.layout().blocks()
    }

    /// The version of its format.
    pub fn version(&self) -> Version
        ensures { (v : View) → SpoolHasView self.now v → result ≡ v.version }
    {
        self.catalog.version()
    }

    /// The disk, which has room for the spool's blocks.
    pub fn into_disk(self) -> D
        ensures same { result ≡ disk_of self }
        ensures room { PAGE * all_pages (block_count_of self) ≤ D.size result }
    {
        let Spool {
            alloc: _,
            disk,
            catalog: _,
            drafts: _,
        } = self;
        disk
    }
}

impl<D: Disk> Uploads for Spool<D> {
    ghost use Rattle.spool_image.specs.LeftOnly.{SpoolLeft};
    ghost use Rattle.spool_image.specs.Spool.{SpoolRepresents};
    ghost use Rattle.spool_image.specs.Durable.{durable_left};
    ghost use Rattle.spool_image.specs.Numbers.{spool_upload_below};

    type Draft = SpoolAppend;

    ghost represents = { SpoolRepresents };

    ghost number_of = { λ d. d.number };

    ghost holds = { λ d p. Unit {0} };

    ghost moment = { λ s. D.moment s.disk };

    ghost left_only = { λ s blocks t ms. SpoolLeft D.Disk s.disk s.catalog.layout blocks t ms };

    ghost failures = { λ s. D.failures s.disk };

    ghost reads = { λ s. D.reads s.disk };

    ghost below = { λ s sure w number u represents there.
        spool_upload_below s.disk s.catalog s.drafts.items w number u represents there };

    ghost durable = { λ s w ms represents among.
        durable_left s.disk s.catalog s.drafts.items w ms s.room (D.only_now s.disk) represents among };

    fn record(&self, number: u64) -> Option<&Record> {
        self.catalog.record(number)
    }

    fn record_after(&self, number: u64) -> Option<&Record> {
        self.catalog.record_after(number)
    }

    fn next_number(&self) -> u64 {
        self.catalog.next_number()
    }

    fn indexes(&self) -> &IndexSet {
        self.catalog.indexes()
    }

    fn create(&mut self, new: New) -> Result<u64, UploadError> {
        create(self.alloc, &mut self.disk, &mut self.catalog, new)
    }

    fn terminate(&mut self, number: u64) -> Result<(), UploadError> {
        terminate(
            self.alloc,
            &mut self.disk,
            &mut self.catalog,
            &mut self.drafts,
            number,
        )
    }

    fn begin(
        &mut self,
        number: u64,
        offset: u64,
        count: u64,
        declare: Option<u64>,
    ) -> Result<SpoolAppend, UploadError> {
        let number = begin::<D>(
            self.alloc,
            &self.catalog,
            &mut self.drafts,
            number,
            offset,
            count,
            declare,
        )?;
        Ok(SpoolAppend { number })
    }

    fn append(&mut self, draft: &mut SpoolAppend, piece: &[u8]) -> Result<(), Stop> {
        append(
            self.alloc,
            &mut self.disk,
            &mut self.catalog,
            &mut self.drafts,
            draft.number,
            piece,
        )
    }

    fn commit(&mut self, draft: SpoolAppend) -> Result<u64, UploadError> {
        let SpoolAppend { number } = draft;
        commit(
            self.alloc,
            &mut self.disk,
            &mut self.catalog,
            &mut self.drafts,
            number,
        )
    }

    fn drop_open(&mut self, draft: SpoolAppend) {
        let SpoolAppend { number } = draft;
        drop_open::<D>(&mut self.catalog, &mut self.drafts, number)
    }

    fn read_text(&mut self, number: u64, at: u64, buf: &mut [u8]) -> Result<usize, UploadError> {
        self.catalog.read(&mut self.disk, number, at, buf)
    }
}
