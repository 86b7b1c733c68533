//! The draft of an append.
ghost use Rattle.std.specs.Prelude.{◌≡◌, ◌⊎◌, get_or, ◌≤◌, ◌*◌, ◌+◌, ◌<◌, ◌/◌, ◌-◌, ◌↔◌, ◌^◌, ℕ, List, []};
ghost use Rattle.std.specs.Prelude.{false, min, length, IsOk, IsErrOf, OnOk, IfOk};
ghost use Rattle.enc_model.specs.Indexes.{IndexSet};
ghost use Rattle.spool_disk.specs.Disk.{Counts, IsImage, Preserves};
ghost use Rattle.spool_disk.specs.Views.{Lasts};
ghost use Rattle.spool_journal.specs.Image.{journal_pages, all_pages, text_page};
ghost use Rattle.spool_texts.specs.Drafts.{IsReserved, GivesBack, bytes_with};
ghost use Rattle.spool_texts.specs.TextOn.{AllBelow, text_on};
ghost use Rattle.upload_rules.specs.Calls.{first_patch};
ghost use Rattle.upload_rules.specs.Records.{RepresentsValid};
ghost use Rattle.upload_rules.specs.States.{IsSomeState, IsState};
ghost use Rattle.upload_rules.specs.Store.{Upload, text_of, is_complete};
ghost use Rattle.upload_rules.specs.World.{Patch};
ghost use Rattle.upload_rules.specs.declared.errors.UploadRefusal.{UploadRefusal};
ghost use Rattle.spool_drafts.specs.Effect.{Effect};
ghost use Rattle.spool_drafts.specs.Drafts.{Holds, Carries, EndsAs, EndsAfter, IsBegun, IsAfter, IsLonger};
ghost use Rattle.spool_drafts.specs.Drafts.{IsTailPlaced};
ghost use Rattle.spool_drafts.specs.Drafts.{PreservesTail, with_piece, open_text, upload_number_of, offset_of};
ghost use Rattle.spool_drafts.specs.Drafts.{appended_count, list_of};
ghost use Rattle.spool_drafts.specs.Drafts.{declare_of, committed_len_of, forgetting_tail, transcoder_of, tail_of};

use crate::progress::Progress;
use crate::spare::Spare;
use common::{MOST_BLOCKS, Stop};
use enc_index::IndexSet;
use spool_blocks::{BlockNo, Blocks};
use spool_disk::Disk;
use spool_journal::{Layout, PAGE};
use spool_texts::DraftError;
use std::alloc::Global;
use upload_rules::{Record, UploadError, UploadRefusal};

/// A draft: what an append adds to its upload's text, on blocks that it reserved. If it is dropped without `give_back`
/// or `into_list`, its blocks stay reserved.
#[derive(Drop)]
pub struct SpoolDraft {
    number: u64,
    offset: u64,
    came: u64,
    declare: Option<u64>,
    // The length of the committed text in bytes.
    committed_len: u64,
    progress: Progress,
    spare: Spare,
}

/// The end of a draft's text.
#[derive(Drop)]
pub struct DraftEnd {
    /// The state of transcoding, as `Transcoder::pack` encodes it.
    pub state: [u8; 32],
    /// The length in bytes of the text, with what the draft added.
    pub text_len: u64,
    /// The bytes that have yet to be written to the draft's last blocks.
    pub last: Vec<u8>,
}

impl SpoolDraft {
    /// A draft of `count` bytes at `offset`, which may declare the upload's length. The upload's text is on the listed
    /// blocks, by ordinal. It takes neither memory nor a block.
    ///
    /// # Errors
    ///
    /// `Offset`, `TooLarge`, `LengthSet`, `TooLong`.
    pub fn begin(
        alloc: Global,
        upload: &Record,
        list: &[BlockNo],
        offset: u64,
        count: u64,
        declare: Option<u64>,
    ) -> Result<Self, UploadRefusal>
        requires long { upload.now.text_len ≤ PAGE * length list.now }
        requires few { length list.now ≤ MOST_BLOCKS }
        requires state { IsSomeState upload.now.state }
        ensures begun { (x : IndexSet) (n : ℕ) (u : Upload) → RepresentsValid x n upload.now u
            → IsBegun x n offset count declare u result }
        ensures content { (x : IndexSet) (n : ℕ) (u : Upload) (current : ℕ → ℕ) (first : ℕ)
            → RepresentsValid x n upload.now u
            → text_on current first list.now upload.now.text_len ≡ text_of x u
            → IfOk result (λ d. Carries x current first (first_patch n count declare u) d) }
        ensures none { IfOk result (λ d. list_of d ≡ []) }
        ensures tail { IfOk result
            (λ d. (i : ℕ) → i < length (tail_of d)
            → (upload.now.text_len / PAGE < length list.now)
            × (get_or (tail_of d) i 0 ≡ get_or list.now (upload.now.text_len / PAGE) 0)) }
        ensures placed { (blocks : ℕ) → AllBelow blocks list.now → IfOk result (λ d. IsTailPlaced blocks d) }
        ensures named { IfOk result
            (λ d. (upload_number_of d ≡ upload.now.number) × (offset_of d ≡ upload.now.accepted)
            × (declare_of d ≡ declare)) }
        ensures after { IfOk result (IsAfter upload.now.text_len upload.now.state) }
    {
        upload.admits(offset, count, declare)?;
        Ok(SpoolDraft {
            number: upload.number,
            offset,
            came: 0,
            declare,
            committed_len: upload.text_len,
            progress: Progress::after(alloc, upload, list),
            spare: Spare::new(alloc),
        })
    }

    /// The upload's number.
    pub fn number(&self) -> u64
        ensures { result ≡ upload_number_of self.now }
    {
        self.number
    }

    /// The upload's offset when the draft began.
    pub fn offset(&self) -> u64
        ensures { result ≡ offset_of self.now }
    {
        self.offset
    }

    /// How many bytes were appended since.
    pub fn came(&self) -> u64
        ensures { result ≡ appended_count self.now }
    {
        self.came
    }

    /// The length that it declares.
    pub fn declare(&self) -> Option<u64>
        ensures { result ≡ declare_of self.now }
    {
        self.declare
    }

    /// The length in bytes of the committed text when the draft began. Divided by 4,096, it is the ordinal of the
    /// draft's first block.
    pub fn committed_len(&self) -> u64
        ensures { result ≡ committed_len_of self.now }
    {
        self.committed_len
    }

    /// The reserved blocks. The first has the ordinal of the committed text's unfinished block.
    pub fn list(&self) -> &[BlockNo]
        ensures blocks { result.now ≡ list_of self.now }
        ensures few { length (list_of self.now) ≤ MOST_BLOCKS }
    {
        match &self.progress {
            Progress::Text { text, .. } => text.list(),
            _ => &[],
        }
    }

    /// Appends bytes to the body, without a sync. If a character is unmappable, the upload was complete or no block is
    /// free, the draft gives its blocks back and reserves no more; `end` then reports the reason.
    ///
    /// # Errors
    ///
    /// `NoMemory`, with the draft unchanged; `DiskFault`, after which it can only be dropped.
    pub fn append<D: Disk>(
        &mut self,
        alloc: Global,
        disk: &mut D,
        layout: &Layout,
        blocks: &mut Blocks,
        indexes: &IndexSet,
        piece: &[u8],
    ) -> Result<(), Stop>
        requires room { PAGE * all_pages layout.now ≤ D.size disk.old }
        requires blocks { length blocks.old.rows ≡ layout.now }
        requires reserved { IsReserved blocks.old (list_of self.old) }
        requires placed { IsTailPlaced layout.now self.old }
        ensures size { D.size disk.new ≡ D.size disk.old }
        ensures honest { D.honest disk.old ↔ D.honest disk.new }
        ensures counts { Counts (IsErrOf result Stop.DiskFault) (D.failures disk.old) (D.failures disk.new) }
        ensures nothing { length piece.now ≡ 0
            → (self.new ≡ self.old) × (disk.new ≡ disk.old) × (blocks.new ≡ blocks.old) × IsOk result }

        // The draft's fields, blocks and writes, whatever the result.
        ensures same { (upload_number_of self.new ≡ upload_number_of self.old)
            × (offset_of self.new ≡ offset_of self.old)
            × (declare_of self.new ≡ declare_of self.old) × (committed_len_of self.new ≡ committed_len_of self.old)
            × PreservesTail self.old self.new }
        ensures after { (len : ℕ) (state : List ℕ) → IsAfter len state self.old → IsAfter len state self.new }
        ensures placed { IsTailPlaced layout.now self.new }
        ensures rows { blocks.new.rows ≡ blocks.old.rows }
        ensures reserved { IsReserved blocks.new (list_of self.new) }
        ensures effect { Effect D.Disk (journal_pages layout.now) (list_of self.old) (list_of self.new) disk.old
            disk.new blocks.old blocks.new }

        // The body is longer, or nothing changed.
        ensures answer { (p : Patch) → Holds indexes.now p self.old → length p.body + length piece.now ≤ p.count
            → OnOk result (IsLonger indexes.now (with_piece p piece.now) self.old self.new blocks.old blocks.new) }
        ensures content { (p : Patch) → D.honest disk.old → Holds indexes.now p self.old
            → length p.body + length piece.now ≤ p.count
            → Carries indexes.now (D.current disk.old) (text_page layout.now) p self.old
            → OnOk result (Carries indexes.now (D.current disk.new) (text_page layout.now)
            (with_piece p piece.now) self.new) }
        ensures memory { IsErrOf result Stop.NoMemory
            → (list_of self.new ≡ list_of self.old) × (blocks.new ≡ blocks.old) }
        ensures holds_on { (p : Patch) → Holds indexes.now p self.old → IsErrOf result Stop.NoMemory
            → Holds indexes.now p self.new }
        ensures content_on { (p : Patch) → D.honest disk.old → IsErrOf result Stop.NoMemory
            → Carries indexes.now (D.current disk.old) (text_page layout.now) p self.old
            → Carries indexes.now (D.current disk.new) (text_page layout.now) p self.new }
    {
        if piece.is_empty() {
            return Ok(());
        }
        if let Progress::Complete = &self.progress {
            self.came = self.came.saturating_add(piece.len() as u64);
            return Ok(());
        }
        let mut added = self.spare.take(alloc);
        let Ok(next) = self.progress.fed(indexes, piece, &mut added) else {
            return Err(Stop::NoMemory);
        };
        let Some(next) = next else {
            self.leave(Progress::Unencodable, blocks, piece.len());
            return Ok(());
        };
        let Progress::Text { transcoder, text } = &mut self.progress else {
            self.spare.give_back(added);
            let short = Progress::OutOfRoom { transcoder: next };
            self.leave(short, blocks, piece.len());
            return Ok(());
        };
        match text.put(alloc, disk, layout, blocks, &added) {
            Ok(()) => {
                *transcoder = next;
                self.spare.give_back(added);
                self.came = self.came.saturating_add(piece.len() as u64);
                Ok(())
            }
            Err(DraftError::Stop(stop)) => Err(stop),
            Err(DraftError::Full) => {
                self.spare.give_back(added);
                let short = Progress::OutOfRoom { transcoder: next };
                self.leave(short, blocks, piece.len());
                Ok(())
            }
        }
    }

    // Goes over to progress without a text after a piece of `count` bytes.
    fn leave(&mut self, next: Progress, blocks: &mut Blocks, count: usize)
        requires { IsReserved blocks.old (list_of self.old) }
        ensures gives { GivesBack blocks.old blocks.new (list_of self.old) }
        ensures next { self.new ≡ record self.old { progress = next; came = min (self.old.came + count) (2 ^ 64 - 1) } }
    {
        self.progress.leave(next, blocks);
        self.came = self.came.saturating_add(count as u64);
    }

    /// Ends the text in memory. If the patch completes the upload, the text includes what the decoder and the encoder
    /// emit at their end. Nothing is written here; `write_last` writes the last bytes. If the text didn't grow, the
    /// draft has no blocks, and the committed ones stay.
    ///
    /// # Errors
    ///
    /// `Unencodable`; `TooLong` if the upload was complete; `Full`, `NoMemory`, `DiskFault`. The draft can then only be
    /// dropped.
    #[tactic(auto, using(crate::proofs::Effects::effect_none))]
    pub fn end<D: Disk>(
        &mut self,
        alloc: Global,
        disk: &mut D,
        layout: &Layout,
        blocks: &mut Blocks,
        indexes: &IndexSet,
        completes: bool,
    ) -> Result<DraftEnd, UploadError>
        requires room { PAGE * all_pages layout.now ≤ D.size disk.old }
        requires reserved { IsReserved blocks.old (list_of self.old) }
        requires placed { IsTailPlaced layout.now self.old }
        ensures size { D.size disk.new ≡ D.size disk.old }
        ensures honest { D.honest disk.old ↔ D.honest disk.new }
        ensures counts { Counts (IsErrOf result (UploadError.Stop Stop.DiskFault)) (D.failures disk.old)
            (D.failures disk.new) }

        // The draft's fields, blocks and writes, whatever the result.
        ensures same { (upload_number_of self.new ≡ upload_number_of self.old)
            × (offset_of self.new ≡ offset_of self.old)
            × (appended_count self.new ≡ appended_count self.old) × (declare_of self.new ≡ declare_of self.old)
            × (committed_len_of self.new ≡ committed_len_of self.old)
            × PreservesTail self.old self.new }
        ensures rows { blocks.new.rows ≡ blocks.old.rows }
        ensures reserved { IsReserved blocks.new (list_of self.new) }
        ensures effect { Effect D.Disk (journal_pages layout.now) (list_of self.old) (list_of self.new) disk.old
            disk.new blocks.old blocks.new }

        // The result extends the text that the draft began with, whatever the disk answered.
        ensures after { (len : ℕ) (state : List ℕ) → IsState state → IsAfter len state self.old
            → IfOk result (EndsAfter len state (list_of self.new)) }
        ensures room { (len : ℕ) (state : List ℕ) → IsAfter len state self.old → IsOk result
            → offset_of self.old + 1 < 2 ^ 64 }
        ensures refusal { (e : UploadRefusal) → IsErrOf result (UploadError.Refused e)
            → ((e ≡ UploadRefusal.Unencodable) ⊎ (e ≡ UploadRefusal.TooLong)) ⊎ (e ≡ UploadRefusal.Full) }

        // Nothing is written. Nothing is read either if the committed text has no unfinished block.
        ensures unread { tail_of self.old ≡ [] → disk.new ≡ disk.old }
        ensures preserves { D.honest disk.old
            → Preserves (D.current disk.old) (D.current disk.new) (D.unsynced disk.old) (D.unsynced disk.new) }
        ensures lasts { D.honest disk.old
            → Lasts D.Disk disk.old disk.new (IsImage (D.current disk.old) (D.unsynced disk.old)) }

        // For an upload that wasn't complete: the end of its text, and the bytes on the blocks with those yet to be
        // written.
        ensures answer { (p : Patch) → Holds indexes.now p self.old → is_complete p.began ≡ false
            → EndsAs indexes.now p completes self.old self.new blocks.old blocks.new result }
        ensures fits { IfOk result
            (λ end. 1 ≤ length (list_of self.new) → (length end.last.items + 4095) / PAGE ≤ length (list_of self.new)) }
        ensures content { (p : Patch) → D.honest disk.old → Holds indexes.now p self.old → is_complete p.began ≡ false
            → Carries indexes.now (D.current disk.old) (text_page layout.now) p self.old
            → IfOk result (λ end. 1 ≤ length (list_of self.new)
            → bytes_with (D.current disk.new) (text_page layout.now) (list_of self.new) end.last.items
            ≡ open_text indexes.now p completes) }
    {
        let (state, added) = self.progress.ended(alloc, indexes, completes)?;
        let Progress::Text { transcoder, text } = &mut self.progress else {
            return Err(UploadError::Refused(UploadRefusal::Full));
        };
        match text.end(alloc, disk, layout, blocks, &added) {
            Ok(last) => {
                let text_len = text.len_with(self.committed_len, &last);
                Ok(DraftEnd {
                    state,
                    text_len,
                    last,
                })
            }
            Err(DraftError::Stop(stop)) => Err(UploadError::Stop(stop)),
            Err(DraftError::Full) => {
                let transcoder = transcoder.copy();
                self.progress
                    .leave(Progress::OutOfRoom { transcoder }, blocks);
                Err(UploadError::Refused(UploadRefusal::Full))
            }
        }
    }

    /// Forgets the block with the upload's last bytes, since the upload was deleted. If the new text hasn't begun,
    /// zeros take their place. The draft keeps its blocks and can go on. It allocates nothing.
    pub fn forget_tail(&mut self)
        ensures forgets { self.new ≡ forgetting_tail self.old }
        ensures tail { tail_of self.new ≡ [] }
        ensures nothing { tail_of self.old ≡ [] → self.new ≡ self.old }
        ensures same { (upload_number_of self.new ≡ upload_number_of self.old)
            × (offset_of self.new ≡ offset_of self.old)
            × (appended_count self.new ≡ appended_count self.old) × (declare_of self.new ≡ declare_of self.old)
            × (committed_len_of self.new ≡ committed_len_of self.old) × (list_of self.new ≡ list_of self.old)
            × (transcoder_of self.new ≡ transcoder_of self.old) }
        ensures placed { (blocks : ℕ) → IsTailPlaced blocks self.old → IsTailPlaced blocks self.new }
        ensures after { (len : ℕ) (state : List ℕ) → IsAfter len state self.old → IsAfter len state self.new }
        ensures holds { (x : IndexSet) (p : Patch) → Holds x p self.old → Holds x p self.new }

        // A draft with blocks has the same bytes as before.
        ensures content { (x : IndexSet) (current : ℕ → ℕ) (first : ℕ) (p : Patch)
            → 1 ≤ length (list_of self.old)
            → Carries x current first p self.old → Carries x current first p self.new }
    {
        if let Progress::Text { text, .. } = &mut self.progress {
            text.forget_tail();
        }
    }

    /// Gives the reserved blocks back. It uses neither memory nor the disk.
    pub fn give_back(mut self, blocks: &mut Blocks)
        requires { IsReserved blocks.old (list_of self) }
        ensures { GivesBack blocks.old blocks.new (list_of self) }
    {
        self.progress.leave(Progress::Unencodable, blocks);
    }

    /// The reserved blocks, which the caller has to own or give back.
    pub fn into_list(self, alloc: Global) -> Vec<BlockNo>
        ensures { result.items ≡ list_of self }
    {
        let progress = self.progress;
        match progress {
            Progress::Text { text, .. } => text.into_list(),
            _ => Vec::new(alloc),
        }
    }
}
