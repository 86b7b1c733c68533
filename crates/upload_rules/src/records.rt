//! Records: what a store reports of an upload, and what a new one is made of.

ghost use Rattle.std.specs.Prelude.{◌≡◌, ◌≤◌, ◌<◌, ◌+◌, ◌^◌, ℕ, false, IsOk, None, Some, MatchResult};
ghost use Rattle.enc_model.specs.Indexes.{IndexSet};
ghost use Rattle.enc_stream.specs.TranscoderState.{IsOutput};
ghost use Rattle.upload_rules.specs.Calls.{begin_refusal_at};
ghost use Rattle.upload_rules.specs.Lengths.{is_too_large, known_or, longest};
ghost use Rattle.upload_rules.specs.Store as store;
ghost use Rattle.upload_rules.specs.Store.{Upload, new_upload};

use crate::UploadRefusal;
use crate::lengths::{is_length, is_too_large, length_then};
use enc_model::{Encoding, Mode};
use enc_stream::Transcoder;
use std::marker::Model;

/// What a store reports of an upload.
#[derive(Drop)]
pub struct Record {
    /// The upload's number, from 1 on.
    pub number: u64,
    /// The length in bytes, if it is known.
    pub declared: Option<u64>,
    /// How many bytes were accepted.
    pub accepted: u64,
    /// The length of the stored text in bytes.
    pub text_len: u64,
    /// The encoding of the bytes, as the client labelled it.
    pub from: Encoding,
    /// The encoding of the stored text.
    pub to: Encoding,
    /// The error mode for characters that `to` lacks.
    pub mode: Mode,
    /// The state of transcoding after the accepted bytes, as `Transcoder::pack` encodes it. It is past the end if the
    /// upload is complete.
    pub state: [u8; 32],
    /// The metadata as given: bytes 20 to 7E.
    pub metadata: String,
}

/// The fields of a new upload.
#[derive(Drop)]
pub struct New {
    /// The length in bytes, if it is known.
    pub declared: Option<u64>,
    /// The encoding of the bytes. The index set offers it.
    pub from: Encoding,
    /// The encoding of the stored text: an output encoding that the index set offers.
    pub to: Encoding,
    /// The error mode for characters that `to` lacks.
    pub mode: Mode,
    /// At most 1,536 bytes of 20 to 7E.
    pub metadata: String,
}

impl Model for New {
    ghost Value = { store.New };

    ghost view = { λ n. record
        { declared = n.declared; from = n.from; to = n.to; mode = n.mode; metadata = n.metadata.bytes.items } };
}

impl Record {
    ghost use Rattle.upload_rules.specs.Records.{RepresentsValid, Represents};
    ghost use Rattle.upload_rules.specs.States.{IsSomeState};

    /// The record of a new upload. One of length 0 is complete at once.
    pub fn first(number: u64, fields: New) -> Record
        requires { IsOutput fields.to }
        ensures valid { (x : IndexSet) → RepresentsValid x number result (new_upload fields) }
        ensures state { IsSomeState result.state }
        ensures metadata { result.metadata.bytes.items ≡ fields.metadata }
    {
        let New {
            declared,
            from,
            to,
            mode,
            metadata,
        } = fields;
        let transcoder = if is_length(declared, 0) {
            Transcoder::ended(from, to, mode)
        } else {
            Transcoder::new(from, to, mode)
        };
        Record {
            number,
            declared,
            accepted: 0,
            text_len: 0,
            from,
            to,
            mode,
            state: transcoder.pack(),
            metadata,
        }
    }

    /// Checks a patch that puts `count` bytes at `offset` and may declare a length.
    ///
    /// # Errors
    ///
    /// `Offset`, `TooLarge`, `LengthSet`, `TooLong`, the first that applies.
    pub fn admits(&self, offset: u64, count: u64, declare: Option<u64>) -> Result<(), UploadRefusal>
        ensures room { IsOk result → (self.now.accepted ≡ offset)
            × (offset + count ≤ longest (known_or self.now.declared declare))
            × (longest (known_or self.now.declared declare) < 2 ^ 64) }
        ensures small { IsOk result → is_too_large declare ≡ false }
        ensures rules { (x : IndexSet) (n : ℕ) (u : Upload) → Represents x n self.now u
            → MatchResult result (λ _. begin_refusal_at offset count declare (Some u) ≡ None)
            (λ e. begin_refusal_at offset count declare (Some u) ≡ Some e) }
    {
        if self.accepted != offset {
            return Err(UploadRefusal::Offset);
        }
        if is_too_large(declare) {
            return Err(UploadRefusal::TooLarge);
        }
        length_then(self.declared, declare, offset, count)?;
        Ok(())
    }
}
