//! The progress of a draft: the state of transcoding, and the new text.
ghost use Rattle.std.specs.Prelude.{◌≡◌, ◌⊎◌, ◌≤◌, ◌*◌, ◌++◌, ℕ, false, None, List, [], length, IfOk};
ghost use Rattle.std.specs.Prelude.{IsErrOf, IsOk, option_copied};
ghost use Rattle.enc_model.specs.Indexes.{IndexSet};
ghost use Rattle.spool_texts.specs.Drafts.{IsReserved, GivesBack};
ghost use Rattle.upload_rules.specs.Lengths.{is_length};
ghost use Rattle.upload_rules.specs.Records.{Represents};
ghost use Rattle.upload_rules.specs.Store.{Upload, text_with, is_complete};
ghost use Rattle.upload_rules.specs.States.{IsKeptState, IsSomeState, IsState, SameEncodings, transcoder_with};
ghost use Rattle.upload_rules.specs.declared.errors.UploadRefusal.{UploadRefusal};
ghost use Rattle.spool_drafts.specs.Progress.{IsStateAfter, ReadsOn, IsStateOf, IsGrowing, FinishesAs, Starts};
ghost use Rattle.spool_drafts.specs.Progress.{IsCompleteIn, blocks_in, refusal_in, transcoder_in};
ghost use Rattle.common.specs.declared.stop.Stop.{Stop};

use enc_index::IndexSet;
use enc_stream::{EncodeError, OpenTranscoder};
use spool_blocks::{BlockNo, Blocks};
use spool_journal::PAGE;
use spool_texts::BlockText;
use std::alloc::{AllocError, Global};
use std::mem;
use upload_rules::{NewText, Record, UploadError, UploadRefusal, end_text};

/// What a draft has after its bytes.
#[derive(Drop)]
pub(crate) enum Progress {
    /// More bytes may come, and their text is stored.
    Text {
        transcoder: OpenTranscoder,
        text: BlockText,
    },
    /// More bytes may come, but no block was free for their text: it isn't stored.
    OutOfRoom {
        transcoder: OpenTranscoder,
    },
    /// A character is unmappable: the append can only be refused.
    Unencodable,
    /// The upload is complete, so no bytes may come.
    Complete,
}

impl Progress {
    /// The progress before the first byte of an append to this upload, whose text is on the listed blocks.
    pub(crate) fn after(alloc: Global, upload: &Record, list: &[BlockNo]) -> Self
        requires state { IsSomeState upload.now.state }
        requires long { upload.now.text_len ≤ PAGE * length list.now }
        ensures state_after { (x : IndexSet) (n : ℕ) (u : Upload) → Represents x n upload.now u
            → (text_with x u [] (is_complete u)).fault ≡ None
            → IsKeptState (transcoder_with x u [] (is_complete u)) (is_complete u)
            → IsStateAfter x u [] (transcoder_in result) × IsCompleteIn u result }
        ensures goes_on { IsStateOf upload.now.state (transcoder_in result) }
        ensures room { IsGrowing (transcoder_in result) → is_length upload.now.declared upload.now.accepted ≡ false }
        ensures starts { Starts upload.now.text_len list.now result }
    {
        match NewText::after(alloc, upload) {
            NewText::Growing {
                transcoder,
                text: _text,
            } => Progress::Text {
                transcoder,
                text: BlockText::after(alloc, upload.text_len, list),
            },
            NewText::Unencodable => Progress::Unencodable,
            NewText::Complete => Progress::Complete,
        }
    }

    // The transcoder, if bytes may come.
    fn transcoder(&self) -> Option<&OpenTranscoder>
        ensures { option_copied result ≡ transcoder_in self.now }
    {
        match self {
            Progress::Text { transcoder, .. } | Progress::OutOfRoom { transcoder } => {
                Some(transcoder)
            }
            Progress::Unencodable | Progress::Complete => None,
        }
    }

    // Why bytes may not come, where they may not.
    fn refusal(&self) -> UploadRefusal
        ensures same { result ≡ refusal_in self.now }
        ensures either { (result ≡ UploadRefusal.Unencodable) ⊎ (result ≡ UploadRefusal.TooLong) }
    {
        match self {
            Progress::Complete => UploadRefusal::TooLong,
            _ => UploadRefusal::Unencodable,
        }
    }

    /// The transcoder after another piece. What the piece adds to the text is put into `out`. None if a character is
    /// unmappable, or no bytes may come.
    pub(crate) fn fed(
        &self,
        indexes: &IndexSet,
        piece: &[u8],
        out: &mut Vec<u8>,
    ) -> Result<Option<OpenTranscoder>, AllocError>
        requires { out.old.items ≡ [] }
        ensures reads { (u : Upload) (bytes : List ℕ) → is_complete u ≡ false
            → IsStateAfter indexes.now u bytes (transcoder_in self.now)
            → IfOk result (λ next. ReadsOn indexes.now u bytes piece.now next out.new.items) }
        ensures goes_on { (state : List ℕ) → IsStateOf state (transcoder_in self.now) → IfOk result (IsStateOf state) }
        ensures growing { IfOk result (λ next. IsGrowing next → IsGrowing (transcoder_in self.now)) }
    {
        let Some(transcoder) = self.transcoder() else {
            return Ok(None);
        };
        match transcoder.fed(indexes, piece, out) {
            Ok(next) => Ok(Some(next)),
            Err(EncodeError::Unencodable(_)) => Ok(None),
            Err(EncodeError::NoMemory) => Err(AllocError),
        }
    }

    /// The state bytes after the body. If the patch completes the upload, also what the end adds to the text.
    pub(crate) fn ended(
        &self,
        alloc: Global,
        indexes: &IndexSet,
        completes: bool,
    ) -> Result<([u8; 32], Vec<u8>), UploadError>
        ensures finished { (u : Upload) (bytes : List ℕ) → is_complete u ≡ false
            → IsStateAfter indexes.now u bytes (transcoder_in self.now) → IsCompleteIn u self.now
            → FinishesAs indexes.now u bytes completes result }
        ensures same { (state : List ℕ) → IsState state → IsStateOf state (transcoder_in self.now)
            → IfOk result (λ end. SameEncodings state end.0) }
        ensures growing { IsOk result → IsGrowing (transcoder_in self.now) }
        ensures no_disk_fault { IsErrOf result (UploadError.Stop Stop.DiskFault) → ⊥ }
        ensures refusal { (e : UploadRefusal) → IsErrOf result (UploadError.Refused e)
            → (e ≡ UploadRefusal.Unencodable) ⊎ (e ≡ UploadRefusal.TooLong) }
    {
        let Some(transcoder) = self.transcoder() else {
            return Err(UploadError::Refused(self.refusal()));
        };
        end_text(transcoder, Vec::new(alloc), indexes, completes)
    }

    /// Goes over to other progress, and gives the blocks back that the text reserved.
    pub(crate) fn leave(&mut self, next: Progress, blocks: &mut Blocks)
        requires { IsReserved blocks.old (blocks_in self.old) }
        ensures next { self.new ≡ next }
        ensures gives { GivesBack blocks.old blocks.new (blocks_in self.old) }
    {
        if let Progress::Text { text, .. } = mem::replace(self, next) {
            text.give_back(blocks);
        }
    }
}
