//! The text that an append adds to its upload.

ghost use Rattle.std.specs.Prelude.{◌≡◌, ◌++◌, [], ℕ, false, None, List, IfOk, IfSome, OnOk, OnErr};
ghost use Rattle.std.specs.Prelude.{IsErrOf, IsOk, MatchOption};
ghost use Rattle.enc_model.specs.Indexes.{IndexSet};
ghost use Rattle.upload_rules.specs.Lengths.{is_length};
ghost use Rattle.upload_rules.specs.Store.{Upload, text_with, is_complete};
ghost use Rattle.upload_rules.specs.States.{IsSomeState, IsState, IsStateLike, SameEncodings};
ghost use Rattle.upload_rules.specs.Texts.{IsEnded, IsReading, IsRest, refusal_of};
ghost use Rattle.upload_rules.specs.declared.errors.UploadRefusal.{UploadRefusal};

use crate::lengths::is_length;
use crate::{Record, UploadError, UploadRefusal};
use common::Stop;
use enc_index::IndexSet;
use enc_stream::{EncodeError, OpenTranscoder, Transcoder};
use std::alloc::{AllocError, Global};

/// The text that an append adds to its upload.
#[derive(Drop)]
pub enum NewText {
    /// The text so far, and the state of transcoding after it.
    Growing {
        /// The state of transcoding.
        transcoder: OpenTranscoder,
        /// The new bytes of the text.
        text: Vec<u8>,
    },
    /// A character is unmappable: the append can only be refused.
    Unencodable,
    /// The upload is complete, so no bytes may come.
    Complete,
}

impl NewText {
    ghost use Rattle.upload_rules.specs.Texts.{IsTextStateOf, HoldsText, IsGrowingText};
    ghost use Rattle.upload_rules.specs.Records.{Represents};
    ghost use Rattle.upload_rules.specs.States.{IsKeptState, transcoder_with};

    /// Nothing yet, for an append to this upload.
    pub fn after(alloc: Global, upload: &Record) -> Self
        requires { IsSomeState upload.now.state }
        ensures holds { (x : IndexSet) (n : ℕ) (u : Upload) → Represents x n upload.now u
            → (text_with x u [] (is_complete u)).fault ≡ None
            → IsKeptState (transcoder_with x u [] (is_complete u)) (is_complete u) → HoldsText x u [] result }

        // These hold of any record, even if it represents no upload.
        ensures goes_on { IsTextStateOf upload.now.state result }
        ensures room { IsGrowingText result → is_length upload.now.declared upload.now.accepted ≡ false }
    {
        if is_length(upload.declared, upload.accepted) {
            return NewText::Complete;
        }
        let Some(transcoder) = Transcoder::unpack(&upload.state) else {
            unreachable!();
        };
        match OpenTranscoder::of(transcoder) {
            Some(transcoder) => NewText::Growing {
                transcoder,
                text: Vec::new(alloc),
            },
            None => NewText::Complete,
        }
    }

    /// With another piece. Out of memory, it is unchanged.
    pub fn with(self, indexes: &IndexSet, piece: &[u8]) -> (Self, Result<(), AllocError>)
        ensures ok { (u : Upload) (bytes : List ℕ) → HoldsText indexes.now u bytes self
            → OnOk result.1 (HoldsText indexes.now u (bytes ++ piece.now) result.0) }
        ensures err { (u : Upload) (bytes : List ℕ) → HoldsText indexes.now u bytes self
            → OnErr result.1 (HoldsText indexes.now u bytes result.0) }
        ensures goes_on { (state : List ℕ) → IsTextStateOf state self → IsTextStateOf state result.0 }
        ensures growing { IsGrowingText result.0 → IsGrowingText self }
    {
        match self {
            NewText::Unencodable => (NewText::Unencodable, Ok(())),
            NewText::Complete => (NewText::Complete, Ok(())),
            NewText::Growing {
                transcoder,
                mut text,
            } => {
                let before = text.len();
                match transcoder.fed(indexes, piece, &mut text) {
                    Ok(next) => (
                        NewText::Growing {
                            transcoder: next,
                            text,
                        },
                        Ok(()),
                    ),
                    Err(EncodeError::Unencodable(_)) => (NewText::Unencodable, Ok(())),
                    Err(EncodeError::NoMemory) => {
                        text.truncate(before);
                        (NewText::Growing { transcoder, text }, Err(AllocError))
                    }
                }
            }
        }
    }

    /// The state bytes and the new text at the append's end. If the upload is complete then, the text includes what the
    /// decoder and the encoder emit at their end.
    ///
    /// # Errors
    ///
    /// `Unencodable`; `TooLong` if the upload was complete; `NoMemory`.
    pub fn ended(
        self,
        indexes: &IndexSet,
        completes: bool,
    ) -> Result<([u8; 32], Vec<u8>), UploadError>
        ensures ended { (u : Upload) (bytes : List ℕ) → HoldsText indexes.now u bytes self → is_complete u ≡ false
            → IsEnded indexes.now u bytes completes result }
        ensures same { (state : List ℕ) → IsState state → IsTextStateOf state self
            → IfOk result (λ end. SameEncodings state end.0) }
        ensures state { IfOk result (λ end. IsSomeState end.0) }
        ensures growing { IsOk result → IsGrowingText self }
        ensures no_disk_fault { IsErrOf result (UploadError.Stop Stop.DiskFault) → ⊥ }
        ensures refusal { (e : UploadRefusal) → IsErrOf result (UploadError.Refused e) → e ≡ refusal_of self }
    {
        match self {
            NewText::Growing { transcoder, text } => end_text(
                &transcoder,
                text,
                indexes,
                completes,
            ),
            NewText::Unencodable => Err(UploadError::Refused(UploadRefusal::Unencodable)),
            NewText::Complete => Err(UploadError::Refused(UploadRefusal::TooLong)),
        }
    }
}

/// The state bytes and the new text at an append's end, as `NewText::ended`, where bytes may come.
///
/// # Errors
///
/// `Unencodable`, `NoMemory`.
pub fn end_text(
    transcoder: &OpenTranscoder,
    text: Vec<u8>,
    indexes: &IndexSet,
    completes: bool,
) -> Result<([u8; 32], Vec<u8>), UploadError>
    ensures ended { (u : Upload) (bytes : List ℕ) → IsReading indexes.now u bytes transcoder.now
        → IsRest indexes.now u bytes false text.items → IsEnded indexes.now u bytes completes result }
    ensures same { (state : List ℕ) → IsState state → IsStateLike state transcoder.now.transcoder
        → IfOk result (λ end. SameEncodings state end.0) }
    ensures state { IfOk result (λ end. IsSomeState end.0) }
    ensures no_disk_fault { IsErrOf result (UploadError.Stop Stop.DiskFault) → ⊥ }
    ensures refusal { (e : UploadRefusal) → IsErrOf result (UploadError.Refused e) → e ≡ UploadRefusal.Unencodable }
{
    let mut text = text;
    if completes {
        let end = transcoder.ended(indexes, &mut text)?;
        return Ok((end.pack(), text));
    }
    Ok((transcoder.pack(), text))
}
