//! The trait of stores of uploads. Each result is stated for every world that the store represents.
ghost use Rattle.std.specs.Prelude.{◌≡◌, ◌≤◌, ◌<◌, ◌+◌, ℕ, Bool, true, List, length, Option, Some, None, IfSome};
ghost use Rattle.std.specs.Prelude.{IsErrOf, option_copied};
ghost use Rattle.common.specs.Given.{MoreReads};
ghost use Rattle.common.specs.declared.stop.Stop.{Stop};
ghost use Rattle.upload_rules.specs.Store.{Upload, Store, upload_of, find};
ghost use Rattle.upload_rules.specs.World.{Patch, World, free_number, reached};
ghost use Rattle.upload_rules.specs.Calls.{create_refusal, created, create_outcome, terminate_refusal, terminated};
ghost use Rattle.upload_rules.specs.Calls.{terminate_outcome, begin_refusal, begun, appended, longer_patch};
ghost use Rattle.upload_rules.specs.Calls.{commit_refusal};
ghost use Rattle.upload_rules.specs.Calls.{committed, commit_outcome, dropped};
ghost use Rattle.upload_rules.specs.Answers.{Answers, DoesOrStops, BeginsWith, Among, Limits, Quiet, Counts};
ghost use Rattle.upload_rules.specs.Records.{IsShort, RepresentsOf, with_number, above, IsValidNew, IsOffered};
ghost use Rattle.upload_rules.specs.Reading.{no_such, text_at, IsReadOf};

use crate::{New, Record, UploadError};
use common::Stop;
use enc_index::IndexSet;

/// A store of uploads, with the appends that are under way.
pub trait Uploads {
    ghost use Rattle.common.specs.declared.given.GivenRead.{GivenRead};

    /// An append under way. It has to be spent, by `commit` or `drop_open`.
    type Draft;

    /// The store represents a world. This is a relation, since accepted bytes aren't stored. If it is sure, the disk is
    /// honest and holds the texts; otherwise nothing is claimed of the disk.
    ghost represents: { Self → Bool → World → Type 0 };

    /// The draft's number.
    ghost number_of: { Self.Draft → ℕ };

    /// What the draft itself represents of its patch.
    ghost holds: { Self.Draft → Patch → Type 0 };

    /// How much the disk was asked so far.
    ghost moment: { Self → ℕ };

    /// Every crash image since that moment shows one of these stores and has this many blocks.
    ghost left_only: { Self → Option ℕ → ℕ → List Store → Type 0 };

    /// How many disk faults there were.
    ghost failures: { Self → ℕ };

    /// What the successful reads of its disk gave, the latest first.
    ghost reads: { Self → List GivenRead };

    /// The record of the upload with this number.
    fn record(&self, number: u64) -> Option<&Record>
        ensures short { IfSome (option_copied result) IsShort }
        ensures recorded { (sure : Bool) (w : World) → represents self.now sure w → RepresentsOf w.store.indexes
            (with_number number (upload_of w.store number)) (option_copied result) };

    /// The record of the upload with the least number above this one.
    fn record_after(&self, number: u64) -> Option<&Record>
        ensures { (sure : Bool) (w : World) → represents self.now sure w
            → RepresentsOf w.store.indexes (above number w.store.uploads) (option_copied result) };

    /// The number of the next upload.
    fn next_number(&self) -> u64
        ensures { (sure : Bool) (w : World) → represents self.now sure w → result ≡ w.store.next };

    /// The index files that the store decodes and encodes with.
    fn indexes(&self) -> &IndexSet
        ensures { (sure : Bool) (w : World) → represents self.now sure w → result.now ≡ w.store.indexes };

    /// Creates an upload without bytes and returns its number.
    ///
    /// # Errors
    ///
    /// `TooLarge`, `Slots`, `NoMemory`, `DiskFault`.
    fn create(&mut self, new: New) -> Result<u64, UploadError>
        requires well_formed { IsValidNew new }
        requires offered { (sure : Bool) (w : World) → represents self.old sure w → IsOffered w.store.indexes new }
        ensures answer { (sure : Bool) (w : World) → represents self.old sure w
            → Answers (create_refusal w new) result (λ n. (n ≡ w.store.next) × represents self.new sure (created w new))
            (represents self.new sure w) }
        ensures crash { (w : World) → represents self.old true w
            → Limits (moment self.old) (moment self.new) (left_only self.old) (left_only self.new) w.store
            (create_outcome w new) }
        ensures unmade { (w : World) → represents self.old true w → IsErrOf result (UploadError.Stop Stop.NoMemory)
            → Limits (moment self.old) (moment self.new) (left_only self.old) (left_only self.new) w.store w.store }
        ensures counts { Counts (IsErrOf result (UploadError.Stop Stop.DiskFault)) (failures self.old)
            (failures self.new) };

    /// Deletes an upload and its text. Its number is never used again, and the commit of a draft for it is refused.
    ///
    /// # Errors
    ///
    /// `NoSuch`, `NoMemory`, `DiskFault`.
    fn terminate(&mut self, number: u64) -> Result<(), UploadError>
        ensures answer { (sure : Bool) (w : World) → represents self.old sure w
            → Answers (terminate_refusal w number) result (λ done. represents self.new sure (terminated w number))
            (represents self.new sure w) }
        ensures crash { (w : World) → represents self.old true w
            → Limits (moment self.old) (moment self.new) (left_only self.old) (left_only self.new) w.store
            (terminate_outcome w number) }
        ensures unmade { (w : World) → represents self.old true w → IsErrOf result (UploadError.Stop Stop.NoMemory)
            → Limits (moment self.old) (moment self.new) (left_only self.old) (left_only self.new) w.store w.store }
        ensures reads { reads self.new ≡ reads self.old }
        ensures counts { Counts (IsErrOf result (UploadError.Stop Stop.DiskFault)) (failures self.old)
            (failures self.new) };

    /// Opens a draft of `count` bytes at `offset`, which may declare the upload's length. Its number is the least free
    /// one.
    ///
    /// # Errors
    ///
    /// `NoSuch`, `Offset`, `TooLarge`, `LengthSet`, `TooLong`, `NoMemory`.
    fn begin(
        &mut self,
        number: u64,
        offset: u64,
        count: u64,
        declare: Option<u64>,
    ) -> Result<Self::Draft, UploadError>
        ensures answer { (sure : Bool) (w : World) → represents self.old sure w
            → Answers (begin_refusal w number offset count declare) result
            (λ draft. (Self.number_of draft ≡ free_number w) × BeginsWith (holds draft) number count declare
            (upload_of w.store number) × represents self.new sure (begun w number count declare))
            (represents self.new sure w) }
        ensures no_disk_fault { IsErrOf result (UploadError.Stop Stop.DiskFault) → ⊥ }
        ensures crash { Quiet (moment self.old) (moment self.new) (left_only self.old) (left_only self.new) }
        ensures counts { failures self.new ≡ failures self.old };

    /// Appends bytes to a draft, at most its count in all. The rules refuse none: if they can't be encoded, or there is
    /// no room for their text, or the draft is another store's, its commit is refused.
    ///
    /// # Errors
    ///
    /// `NoMemory`, `DiskFault`; the draft can then only be dropped.
    fn append(&mut self, draft: &mut Self::Draft, piece: &[u8]) -> Result<(), Stop>
        ensures same { Self.number_of draft.new ≡ Self.number_of draft.old }
        ensures answer { (sure : Bool) (w : World) (p : Patch) → represents self.old sure w
            → find (Self.number_of draft.old) w.patches ≡ Some p → holds draft.old p
            → length p.body + length piece.now ≤ p.count
            → DoesOrStops result
            (λ done. holds draft.new (longer_patch w (Self.number_of draft.old) p piece.now) × represents self.new sure
            (appended w (Self.number_of draft.old) piece.now))
            (represents self.new sure w) }
        ensures crash { (w : World) (p : Patch) → represents self.old true w
            → find (Self.number_of draft.old) w.patches ≡ Some p → holds draft.old p
            → Quiet (moment self.old) (moment self.new) (left_only self.old) (left_only self.new) }
        ensures counts { Counts (IsErrOf result Stop.DiskFault) (failures self.old) (failures self.new) };

    /// Appends the draft's text to the upload's, gives the upload the length that the draft declares if it had none,
    /// and returns the new offset. The draft is spent in every case.
    ///
    /// # Errors
    ///
    /// `NoSuch`, `Offset`, `LengthSet`, `TooLong`, `Unencodable`, `Full`, `NoMemory`, `DiskFault`.
    fn commit(&mut self, draft: Self::Draft) -> Result<u64, UploadError>
        ensures answer { (sure : Bool) (w : World) (p : Patch) → represents self.old sure w
            → find (Self.number_of draft) w.patches ≡ Some p → holds draft p
            → Answers (commit_refusal w (Self.number_of draft) p) result
            (λ n. (n ≡ reached p) × represents self.new sure (committed w (Self.number_of draft) p))
            (represents self.new sure (dropped w (Self.number_of draft))) }
        ensures crash { (w : World) (p : Patch) → represents self.old true w
            → find (Self.number_of draft) w.patches ≡ Some p → holds draft p
            → Limits (moment self.old) (moment self.new) (left_only self.old) (left_only self.new) w.store
            (commit_outcome w (Self.number_of draft) p) }
        ensures unmade { (w : World) (p : Patch) → represents self.old true w
            → find (Self.number_of draft) w.patches ≡ Some p → holds draft p
            → IsErrOf result (UploadError.Stop Stop.NoMemory)
            → Limits (moment self.old) (moment self.new) (left_only self.old) (left_only self.new) w.store w.store }
        ensures counts { Counts (IsErrOf result (UploadError.Stop Stop.DiskFault)) (failures self.old)
            (failures self.new) };

    /// Drops a draft. This also works after a disk fault, when the store represents no world.
    fn drop_open(&mut self, draft: Self::Draft)
        ensures represents { (sure : Bool) (w : World) → represents self.old sure w
            → represents self.new sure (dropped w (Self.number_of draft)) }
        ensures crash { Quiet (moment self.old) (moment self.new) (left_only self.old) (left_only self.new) }
        ensures counts { failures self.new ≡ failures self.old };

    /// Reads the text's bytes from `at` on, as many as there are and as fit, and returns their count. A disk that isn't
    /// honest may give other bytes, but as many.
    ///
    /// # Errors
    ///
    /// `NoSuch`, `DiskFault`.
    fn read_text(&mut self, number: u64, at: u64, buf: &mut [u8]) -> Result<usize, UploadError>
        ensures answer { (sure : Bool) (w : World) → represents self.old sure w
            → Answers (no_such (upload_of w.store number)) result
            (λ n. IsReadOf sure (text_at w.store (upload_of w.store number)) at n buf.old buf.new
            × represents self.new sure w)
            (represents self.new sure w) }
        ensures no_memory { IsErrOf result (UploadError.Stop Stop.NoMemory) → ⊥ }
        ensures crash { Quiet (moment self.old) (moment self.new) (left_only self.old) (left_only self.new) }
        ensures reads { MoreReads (reads self.old) (reads self.new) }
        ensures counts { Counts (IsErrOf result (UploadError.Stop Stop.DiskFault)) (failures self.old)
            (failures self.new) };

    /// Every upload's number is below the next one.
    ghost below: { (store : Self) (sure : Bool) (w : World) (number : ℕ) (u : Upload) → represents store sure w
        → upload_of w.store number ≡ Some u → number < w.store.next };

    /// If the store is known to represent a world, each crash image from now on shows it.
    ghost durable: { (store : Self) (w : World) (ms : List Store) → represents store true w → Among w.store ms
        → left_only store w.blocks (moment store) ms };
}
